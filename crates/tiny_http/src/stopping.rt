//! Ending a server from any of its threads.
use crate::accepting::Queuing;
use crate::registry::ConnectionRegistry;
use std::alloc::AllocError;
use std::net::{Net, TcpListener, TcpStream};
use std::os::unix::net::UnixStream;
use std::sync::{Arc, Wait};
use std::time::{Clock, Duration};
use tiny_http_socket::connection::{ListenAddr, SocketFiles};

// Timeout of a closing server's connection to itself, in seconds.
const SELF_CONNECT_SECS: u64 = 1;

/// A handle by which any thread can stop a server, one of its handlers too (`Server::stop_handle`). It doesn't keep the
/// server.
#[derive(Drop)]
pub struct StopHandle<R: Net + SocketFiles + Wait + Clock + Drop> {
    pub(crate) rt: R,
    pub(crate) queuing: Arc<Queuing<R>>,
    pub(crate) registry: Arc<ConnectionRegistry>,
    pub(crate) listening_addr: ListenAddr,
}

impl<R: Net + SocketFiles + Wait + Clock + Copy> StopHandle<R> {
    /// Returns another handle to the same server. Fails if memory can't be allocated or no further handle can be made.
    pub fn try_clone(&self) -> Result<StopHandle<R>, AllocError> {
        Ok(StopHandle {
            rt: self.rt,
            queuing: Arc::try_clone(&self.queuing)?,
            registry: Arc::try_clone(&self.registry)?,
            listening_addr: self.listening_addr.clone()?,
        })
    }
}

impl<
    R: Net<Listener = TcpListener, Stream = TcpStream> + SocketFiles + Wait + Clock + Drop,
> StopHandle<R> {
    /// Begins to stop the server as `Server::stop` does, but doesn't wait until the open requests are answered: `serve`
    /// and each call that waits for a request return. So a handler may call it, and answers its own request afterwards.
    /// The thread that called `serve` then calls `Server::stop`, which waits: without that, a program that ends may lose
    /// responses. Does nothing once the server is being stopped.
    ///
    /// The call takes long if a client doesn't read a 500 that the call sends.
    pub fn stop(&self) {
        if self.begin_stop() {
            self.end_stop();
        }
    }

    // Begins to stop the server: no further client is accepted, connections that wait for a head are closed, and what
    // waits in the queue is dropped. Returns whether this call is the first.
    pub(crate) fn begin_stop(&self) -> bool {
        let is_first = self.queuing.ending.begin_stop();
        self.end_accepting();
        self.registry.stop(&self.rt);
        self.queuing.drop_waiting(&self.rt);
        is_first
    }

    // Makes `serve` and each call that waits for a request return.
    pub(crate) fn end_stop(&self) {
        if !self.queuing.ending.has_accepted_all() {
            // The earlier attempt, in `end_accepting`, may have failed for lack of a descriptor.
            self.connect();
        }
        self.queuing.ending.stop();
        let _ = self.queuing.messages.unblock(&self.rt);
    }
}

impl<R: Net + SocketFiles + Wait + Clock + Drop> StopHandle<R> {
    /// Ends accepting, and removes the file of a Unix socket. To wake the accepting thread, connects to the server
    /// once. A second call does nothing.
    pub(crate) fn end_accepting(&self) {
        if !self.queuing.ending.close() {
            return;
        }
        let rt = &self.rt;
        self.registry.wake(rt);
        self.connect();
        if let ListenAddr::Unix(addr) = &self.listening_addr
            && let Some(path) = addr.as_pathname()
        {
            let _ = rt.remove_socket(path);
        }
    }

    /// Connects to the server's own address, so that the accepting thread wakes.
    pub(crate) fn connect(&self) {
        let rt = &self.rt;
        match &self.listening_addr {
            ListenAddr::IP(addr) => {
                let most = Duration::from_secs(SELF_CONNECT_SECS);
                drop(TcpStream::connect_timeout(rt, addr, most));
            }
            ListenAddr::Unix(addr) => drop(UnixStream::connect_addr(rt, addr)),
        }
    }
}
