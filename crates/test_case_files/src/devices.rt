//! The reader and the writer of a trial.
use std::alloc::Global;
use std::io;
use std::io::{ErrorKind, Write};
use tiny_http_wire::device::{ByPieces, Canned, FailsAt};

/// The reader of a trial. It returns a client's bytes in pieces of limited size, and one of its calls may fail.
pub type Reader = FailsAt<ByPieces<Canned>>;

/// The piece sizes with which each case is tried: the maximum number of bytes that a call to the reader returns.
pub const PIECES: [usize; 4] = [1, 2, 1023, 1024];

/// A writer in memory that fails once its room is used up, or in one of its calls. Both writes and flushes count as
/// calls.
#[derive(Drop)]
pub struct Trier {
    taken: Vec<u8>,
    room: usize,
    // Number of calls still to come up to and including the one that fails; 0 after that call.
    calls: u64,
    kind: ErrorKind,
    failures: u64,
    later: u64,
}

impl Trier {
    /// Creates a writer that accepts `room` bytes, after which every non-empty write fails with `kind`.
    pub fn with_room(alloc: Global, room: usize, kind: ErrorKind) -> Trier {
        Trier {
            taken: Vec::new(alloc),
            room,
            calls: u64::MAX,
            kind,
            failures: 0,
            later: 0,
        }
    }

    /// Creates a writer whose call number `call`, counted from 1, fails with `kind`. Every other write accepts all
    /// bytes.
    pub fn failing_at(alloc: Global, call: u64, kind: ErrorKind) -> Trier {
        Trier {
            taken: Vec::new(alloc),
            room: usize::MAX,
            calls: call,
            kind,
            failures: 0,
            later: 0,
        }
    }

    /// Returns the bytes that the writer accepted.
    pub fn taken(&self) -> &[u8] {
        self.taken.as_slice()
    }

    /// Returns the number of calls that failed.
    pub fn failures(&self) -> u64 {
        self.failures
    }

    /// Returns the number of calls made after the first failure.
    pub fn later(&self) -> u64 {
        self.later
    }

    // Records a failure, and returns its error.
    fn fail(&mut self) -> io::Error {
        self.failures = self.failures.saturating_add(1);
        self.kind.into()
    }

    // Counts a call. Fails if it is the one that must fail.
    fn call(&mut self) -> io::Result<()> {
        if self.failures > 0 {
            self.later = self.later.saturating_add(1);
        }
        self.calls = self.calls.saturating_sub(1);
        if self.calls == 0 && self.failures == 0 {
            return Err(self.fail());
        }
        Ok(())
    }
}

impl Write for Trier {
    /// Accepts as many bytes as fit into the room. Fails if none fits and `buf` is not empty, if this call must fail,
    /// or if memory can't be allocated.
    fn write(&mut self, buf: &[u8]) -> io::Result<usize> {
        self.call()?;
        let n = buf.len().min(self.room);
        if n == 0 && !buf.is_empty() {
            return Err(self.fail());
        }
        self.taken.extend_from_slice(&buf[..n])?;
        self.room -= n;
        Ok(n)
    }

    /// Counts as a call, which may be the one that fails.
    fn flush(&mut self) -> io::Result<()> {
        self.call()
    }
}
