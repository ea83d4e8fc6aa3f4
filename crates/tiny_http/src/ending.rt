//! The stages of a server's shutdown.
use std::sync::atomic::{AtomicBool, Ordering};

/// The stage of a server's shutdown, which the server's threads share.
#[derive(Drop)]
pub(crate) struct Ending {
    // Whether accepting has been ended: no further client is to be accepted.
    is_closed: AtomicBool,
    // Whether `Server::stop` was called: the handler of `serve` still gets a request that a worker is reading.
    is_stopping: AtomicBool,
    // Whether the accepting thread accepts no further client.
    has_accepted_all: AtomicBool,
    // Whether a call to `Server::stop` has finished its wait, or a `StopHandle` has stopped the server.
    has_stopped: AtomicBool,
}

impl Ending {
    /// Returns the state of a running server.
    pub fn new() -> Ending {
        Ending {
            is_closed: AtomicBool::new(false),
            is_stopping: AtomicBool::new(false),
            has_accepted_all: AtomicBool::new(false),
            has_stopped: AtomicBool::new(false),
        }
    }

    /// Ends accepting. Returns whether this call is the first.
    pub fn close(&self) -> bool {
        !self.is_closed.swap(true, Ordering::SeqCst)
    }

    /// Returns whether `close` has been called: no further client is to be accepted.
    pub fn is_closed(&self) -> bool {
        self.is_closed.load(Ordering::SeqCst)
    }

    /// Records that the server is being stopped. It is called before `close`. Returns whether this call is the first.
    pub fn begin_stop(&self) -> bool {
        !self.is_stopping.swap(true, Ordering::SeqCst)
    }

    /// Returns whether the server is being stopped, or was.
    pub fn is_stopping(&self) -> bool {
        self.is_stopping.load(Ordering::SeqCst)
    }

    /// Records that the accepting thread accepts no further client.
    pub fn end_accepting(&self) {
        self.has_accepted_all.store(true, Ordering::SeqCst);
    }

    /// Returns whether the accepting thread accepts no further client.
    pub fn has_accepted_all(&self) -> bool {
        self.has_accepted_all.load(Ordering::SeqCst)
    }

    /// Records that `serve` and each call that waits for a request must return.
    pub fn stop(&self) {
        self.has_stopped.store(true, Ordering::SeqCst);
    }

    /// Returns whether `serve` and each call that waits for a request must return.
    pub fn has_stopped(&self) -> bool {
        self.has_stopped.load(Ordering::SeqCst)
    }
}
