//! The registry of a server's open connections and its counters, under one lock.
use crate::ending::Ending;
use std::alloc::{AllocError, Global};
use std::net::{Shutdown, SocketAddr};
use std::sync::atomic::{AtomicBool, AtomicU64, Ordering};
use std::sync::{Arc, Condvar, Mutex, Wait};
use std::time::{Clock, Duration};
use tiny_http_limits::connection_table::{ConnectionTable, Refusal};
use tiny_http_limits::counts::Counts;
use tiny_http_limits::limits::Limits;
use tiny_http_limits::times::time_left;
use tiny_http_socket::connection::Connection;
use tiny_http_socket::shared_state::SharedState;

/// A server's handle to an open connection.
#[derive(Drop)]
pub(crate) struct ConnectionHandle {
    pub socket: Arc<Connection>,
    pub shared: Arc<SharedState>,
    // Ends the requests of the connection once it is set.
    pub closed_flag: Arc<AtomicBool>,
}

// The open connections, and the server's counters, to which a connection's own are added when it closes.
#[derive(Drop)]
struct Connections {
    table: ConnectionTable<ConnectionHandle>,
    counts: Counts,
}

/// A server's open connections, within its limits, and its counters, to which a connection's own counts are added when
/// that connection closes. The server's threads share the registry.
#[derive(Drop)]
pub(crate) struct ConnectionRegistry {
    connections: Mutex<Connections>,
    // Notified when a connection or the server closes.
    changed: Condvar,
    // The count of upgraded connections.
    upgraded: Arc<AtomicU64>,
}

impl ConnectionRegistry {
    /// Returns an empty registry. Fails if memory can't be allocated.
    pub fn new(
        alloc: Global,
        limits: Option<&Limits>,
    ) -> Result<Arc<ConnectionRegistry>, AllocError> {
        let (most, most_of_address) = match limits {
            Some(limits) => (limits.connections, limits.connections_of_address),
            None => (usize::MAX, usize::MAX),
        };
        let connections = Connections {
            table: ConnectionTable::new(alloc, most, most_of_address),
            counts: Counts::new(),
        };
        let registry = ConnectionRegistry {
            connections: Mutex::new(connections),
            changed: Condvar::new(),
            upgraded: Arc::new(alloc, AtomicU64::new(0))?,
        };
        Ok(Arc::new(alloc, registry)?)
    }

    /// Returns the counter of upgraded connections.
    pub fn upgraded(&self) -> &Arc<AtomicU64> {
        &self.upgraded
    }

    /// Returns how many clients are connected.
    pub fn count<R: Wait>(&self, rt: &R) -> usize {
        self.connections.lock(rt).table.count()
    }

    /// Returns the counts, including those of open connections.
    pub fn counts<R: Wait>(&self, rt: &R) -> Counts {
        let connections = self.connections.lock(rt);
        let mut counts = connections.counts;
        for entry in connections.table.entries() {
            counts.count_end(entry.item().shared.summary());
        }
        counts
    }

    /// Returns how many times accepting failed and then continued.
    pub fn accept_faults<R: Wait>(&self, rt: &R) -> u64 {
        self.connections.lock(rt).counts.accept_faults
    }

    /// Counts an accept error after which accepting continues.
    pub fn count_accept_fault<R: Wait>(&self, rt: &R) {
        self.connections.lock(rt).counts.count_accept_fault();
    }

    /// Waits while the connection limit is reached and the server isn't closed.
    pub fn wait_for_place<R: Wait>(&self, rt: &R, ending: &Ending) {
        let mut connections = self.connections.lock(rt);
        for _ in rt.forever() {
            if !connections.table.is_full() || ending.is_closed() {
                return;
            }
            connections = self.changed.wait(rt, connections);
        }
    }

    /// Wakes the accepting thread if it waits in `wait_for_place`. That thread ends if the server is closed.
    pub fn wake<R: Wait>(&self, rt: &R) {
        drop(self.connections.lock(rt));
        self.changed.notify_all();
    }

    // Adds a client and returns its number, or `None` if a limit refuses the client or memory can't be allocated.
    fn enter<R: Wait>(
        &self,
        rt: &R,
        addr: Option<SocketAddr>,
        handle: ConnectionHandle,
    ) -> Option<u64> {
        let mut connections = self.connections.lock(rt);
        match connections.table.enter(addr.map(|addr| addr.ip()), handle) {
            Ok(number) => {
                connections.counts.count_connection();
                Some(number)
            }
            Err(refusal) => {
                if refusal == Refusal::AddressFull {
                    connections.counts.count_turned_away();
                }
                None
            }
        }
    }

    // Removes the client with this number, whose connection has ended.
    fn leave<R: Wait>(&self, rt: &R, number: u64) {
        let mut connections = self.connections.lock(rt);
        let left = connections.table.leave(number);
        if let Some(handle) = &left {
            connections.counts.count_end(handle.shared.summary());
            handle.shared.end_stream();
        }
        drop(connections);
        // The client's connection ends here, before other threads are notified.
        drop(left);
        self.changed.notify_all();
    }

    /// Makes each connection read no further head, and ends the connections that wait for one. If a request is open,
    /// the connection's last response says, under `Standard`, that the connection closes.
    pub fn stop<R: Wait>(&self, rt: &R) {
        let connections = self.connections.lock(rt);
        for entry in connections.table.entries() {
            let handle = entry.item();
            let has_waited = handle.shared.stop();
            if has_waited {
                let _ = handle.socket.shutdown(Shutdown::Read);
            }
            if !has_waited || handle.shared.has_open() {
                handle.closed_flag.store(true, Ordering::SeqCst);
            }
        }
    }

    /// Waits until no client is connected, for at most `time`, counted from `begun`. Returns whether none is left.
    pub fn wait_until_empty<R: Wait + Clock>(
        &self,
        rt: &R,
        begun: Duration,
        time: Duration,
    ) -> bool {
        let mut connections = self.connections.lock(rt);
        for _ in rt.forever() {
            if connections.table.count() == 0 {
                return true;
            }
            let Some(left) = time_left(begun, time_of(rt), time) else {
                return false;
            };
            let (woken, waited) = self.changed.wait_timeout(rt, connections, left);
            connections = woken;
            if waited.timed_out() {
                return connections.table.count() == 0;
            }
        }
        false
    }
}

/// Returns the time of the monotonic clock, or 0 if it can't be read.
pub(crate) fn time_of<R: Clock>(rt: &R) -> Duration {
    rt.monotonic().unwrap_or(Duration::from_secs(0))
}

/// The guard of an open connection: the client counts as connected until the guard is dropped.
pub(crate) struct ConnectionGuard<R: Wait + Clock + Drop> {
    rt: R,
    registry: Arc<ConnectionRegistry>,
    number: u64,
}

impl<R: Wait + Clock + Drop> ConnectionGuard<R> {
    /// Counts a client with this address as connected. Returns `None` if a limit refuses the client, memory can't be
    /// allocated, or no further handle to the registry can be made.
    pub fn enter(
        rt: R,
        registry: &Arc<ConnectionRegistry>,
        addr: Option<SocketAddr>,
        handle: ConnectionHandle,
    ) -> Option<ConnectionGuard<R>> {
        let registry = Arc::try_clone(registry).ok()?;
        let number = registry.enter(&rt, addr, handle)?;
        Some(ConnectionGuard {
            rt,
            registry,
            number,
        })
    }
}

impl<R: Wait + Clock + Drop> Drop for ConnectionGuard<R> {
    /// Removes the client from the registry.
    fn drop(self) {
        let ConnectionGuard {
            rt,
            registry,
            number,
        } = self;
        registry.leave(&rt, number);
    }
}
