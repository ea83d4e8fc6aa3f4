//! The phase of a connection, its counts, and the limits that decide how long it waits for its client.
ghost use Rattle.std.specs.Prelude.{◌≡◌};
ghost use Rattle.std.specs.IoError.{error_kind};
ghost use Rattle.tiny_http_socket.specs.Timed.{kind_in_time};

use std::alloc::{AllocError, Global};
use std::io;
use std::io::ErrorKind;
use std::sync::Arc;
use std::sync::atomic::{AtomicBool, AtomicU8, AtomicU16, AtomicU64, Ordering};
use tiny_http_limits::counts::{Closing, Summary};
use tiny_http_limits::limits::Limits;

// The lowest limit on the open requests of a connection. A lower limit is raised to this one.
const LEAST_OPEN: usize = 2;

/// Maps an error to the one that is reported under limits: `WouldBlock`, the system's timeout, becomes `TimedOut`; any
/// other error is unchanged.
pub fn fault_in_time(fault: io::Error) -> io::Error
    ensures { error_kind result ≡ kind_in_time (error_kind fault) }
{
    if fault.kind() == ErrorKind::WouldBlock {
        return ErrorKind::TimedOut.into();
    }
    fault
}

/// The phase of a connection: what it waits for from its client.
#[derive(Clone, Copy, Debug, PartialEq, Eq)]
pub enum Phase {
    /// The first byte of a head.
    Between,
    /// The rest of a head, of a body that is read with its head, or of a body that is skipped before the next head.
    Head,
    /// Bytes of a body that is being read.
    Body,
    /// Bytes of an upgraded stream.
    Stream,
    /// Nothing more.
    Stopped,
}

impl Phase {
    // Returns the number that encodes the phase.
    fn number(self) -> u8 {
        match self {
            Phase::Between => 0,
            Phase::Head => 1,
            Phase::Body => 2,
            Phase::Stream => 3,
            Phase::Stopped => 4,
        }
    }

    // Returns the phase that this number encodes.
    fn of(number: u8) -> Phase {
        match number {
            0 => Phase::Between,
            1 => Phase::Head,
            2 => Phase::Body,
            3 => Phase::Stream,
            _ => Phase::Stopped,
        }
    }
}

// Returns the number that encodes the limit that closed a connection. No limit has number 0.
fn closing_number(closing: Closing) -> u8 {
    match closing {
        Closing::Idle => 1,
        Closing::Head => 2,
        Closing::Body => 3,
        Closing::Write => 4,
    }
}

// Returns the limit that this number encodes, or `None` for 0 and any other number that encodes none.
fn closing_of(number: u8) -> Option<Closing> {
    match number {
        1 => Some(Closing::Idle),
        2 => Some(Closing::Head),
        3 => Some(Closing::Body),
        4 => Some(Closing::Write),
        _ => None,
    }
}

/// The state that the threads of a connection share, apart from its reader and writer: the limits, the phase (what is
/// awaited from the client), whether the connection was stopped, and its counts. From these the connection's reader and
/// writer compute how long they may wait.
#[derive(Drop)]
pub struct SharedState {
    limits: Option<Limits>,
    phase: AtomicU8,
    // Whether `stop` was called: no further head is read then.
    is_stopped: AtomicBool,
    // Whether the time allowed for the current head has run out.
    is_head_late: AtomicBool,
    requests: AtomicU64,
    // The number of requests and refused heads that have no response yet.
    open: Arc<AtomicU64>,
    // The number of upgraded connections among those that share this count.
    upgraded: Arc<AtomicU64>,
    // Whether this connection is counted in `upgraded`.
    is_upgraded: AtomicBool,
    // Whether bytes of an upgraded stream were written since `take_written` was last called.
    has_written: AtomicBool,
    // The status with which a head was refused, or 0 for none.
    refusal: AtomicU16,
    // The number of the limit that closed the connection, or 0 for none.
    closing: AtomicU8,
}

impl SharedState {
    /// Creates the state of a connection from which nothing has been read yet. Without limits there are no timeouts.
    /// `upgraded` counts the upgraded connections; connections with the same counter share the limit on upgrades. Fails
    /// if memory can't be allocated.
    pub fn new(
        alloc: Global,
        limits: Option<Limits>,
        upgraded: Arc<AtomicU64>,
    ) -> Result<Arc<SharedState>, AllocError> {
        let open = Arc::new(alloc, AtomicU64::new(0))?;
        let shared = SharedState {
            limits,
            phase: AtomicU8::new(Phase::Between.number()),
            is_stopped: AtomicBool::new(false),
            is_head_late: AtomicBool::new(false),
            requests: AtomicU64::new(0),
            open,
            upgraded,
            is_upgraded: AtomicBool::new(false),
            has_written: AtomicBool::new(false),
            refusal: AtomicU16::new(0),
            closing: AtomicU8::new(0),
        };
        Ok(Arc::new(alloc, shared)?)
    }

    /// Returns the counter of requests and refused heads that have no response yet.
    pub fn open(&self) -> &Arc<AtomicU64> {
        &self.open
    }

    /// Returns whether a request or a refused head has no response yet.
    pub fn has_open(&self) -> bool {
        self.open.load(Ordering::SeqCst) > 0
    }

    /// Returns the maximum number of open requests and refused heads, if there is one and it has been reached. The
    /// maximum is at least 2, since a buffered response is sent only when the connection is read.
    pub fn full_at(&self) -> Option<usize> {
        let most = self.limits.as_ref()?.open_requests.max(LEAST_OPEN);
        if self.open.load(Ordering::SeqCst) < most as u64 {
            return None;
        }
        Some(most)
    }

    /// Returns the limits, if there are any.
    pub fn limits(&self) -> Option<&Limits> {
        self.limits.as_ref()
    }

    /// Returns what the connection waits for from its client.
    pub fn phase(&self) -> Phase {
        Phase::of(self.phase.load(Ordering::SeqCst))
    }

    /// Records that the connection waits for its next head; `has_begun` means that bytes of that head, or of what is
    /// skipped before it, may have arrived. Returns false if the connection was stopped: the caller must then not read
    /// the head.
    pub fn begin_head(&self, has_begun: bool) -> bool {
        let phase = if has_begun {
            Phase::Head
        } else {
            Phase::Between
        };
        self.phase.store(phase.number(), Ordering::SeqCst);
        !self.is_stopped.load(Ordering::SeqCst)
    }

    /// Records that the first byte of a head has arrived: phase `Between` becomes `Head`, and any other is unchanged.
    pub fn head_began(&self) {
        let (old, new) = (Phase::Between.number(), Phase::Head.number());
        let _ = self
            .phase
            .compare_exchange(old, new, Ordering::SeqCst, Ordering::SeqCst);
    }

    /// Records that the time allowed for the current head has run out: a read for more of it fails with `TimedOut`.
    pub fn expire_head(&self) {
        self.is_head_late.store(true, Ordering::SeqCst);
    }

    /// Returns whether the time allowed for the current head has run out, as `expire_head` recorded.
    pub fn is_head_late(&self) -> bool {
        self.is_head_late.load(Ordering::SeqCst)
    }

    /// Counts a request that is handed out, and records that reads now wait for its body.
    pub fn begin_body(&self) {
        self.phase.store(Phase::Body.number(), Ordering::SeqCst);
        self.requests.fetch_add(1, Ordering::SeqCst);
    }

    /// Counts the connection as upgraded until `end_stream`, unless it is counted already, and returns true. If that
    /// would exceed the limit on upgrades, doesn't count it and returns false. Without limits it only returns true.
    pub fn enter_stream(&self) -> bool {
        let Some(limits) = &self.limits else {
            return true;
        };
        if self.is_upgraded.swap(true, Ordering::SeqCst) {
            return true;
        }
        let before = self.upgraded.fetch_add(1, Ordering::SeqCst);
        if before < limits.upgrades as u64 {
            return true;
        }
        self.end_stream();
        false
    }

    /// Stops counting the connection as upgraded, if it was.
    pub fn end_stream(&self) {
        if self.is_upgraded.swap(false, Ordering::SeqCst) {
            self.upgraded.fetch_sub(1, Ordering::SeqCst);
        }
    }

    /// Records that later reads are from an upgraded stream.
    pub fn begin_stream(&self) {
        self.phase.store(Phase::Stream.number(), Ordering::SeqCst);
    }

    /// Records that bytes were written to the client, if the connection is an upgraded stream.
    pub fn wrote(&self) {
        if self.phase() == Phase::Stream {
            self.has_written.store(true, Ordering::SeqCst);
        }
    }

    /// Returns whether bytes of an upgraded stream were written since the last call.
    pub fn take_written(&self) -> bool {
        self.has_written.swap(false, Ordering::SeqCst)
    }

    /// Prevents any further head from being read. Returns whether the connection was in phase `Between` or `Head`. If
    /// it was, nothing more is read, and the caller must shut down the read half of the connection.
    pub fn stop(&self) -> bool {
        self.is_stopped.store(true, Ordering::SeqCst);
        self.stop_from(Phase::Between) || self.stop_from(Phase::Head)
    }

    // Stops all reading if the connection is in this phase, and returns whether it was.
    fn stop_from(&self, phase: Phase) -> bool {
        let new = Phase::Stopped.number();
        let swapped = self
            .phase
            .compare_exchange(phase.number(), new, Ordering::SeqCst, Ordering::SeqCst);
        swapped.is_ok()
    }

    /// Records that a head was refused with this status. No request follows it.
    pub fn refused(&self, status: u16) {
        self.refusal.store(status, Ordering::SeqCst);
    }

    /// Records that this limit closed the connection. Only the first such limit is kept.
    pub fn closed_by(&self, closing: Closing) {
        let new = closing_number(closing);
        let _ = self
            .closing
            .compare_exchange(0, new, Ordering::SeqCst, Ordering::SeqCst);
    }

    /// Returns the number of requests handed out.
    pub fn requests(&self) -> u64 {
        self.requests.load(Ordering::SeqCst)
    }

    /// Returns a summary of the connection so far: the number of requests handed out, the status of a refused head,
    /// and the limit that closed the connection.
    pub fn summary(&self) -> Summary {
        let refusal = match self.refusal.load(Ordering::SeqCst) {
            0 => None,
            status => Some(status),
        };
        Summary {
            requests: self.requests(),
            refusal,
            closing: closing_of(self.closing.load(Ordering::SeqCst)),
        }
    }
}
