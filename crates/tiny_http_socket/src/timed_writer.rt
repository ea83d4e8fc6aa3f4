//! A writer with a timeout for the client to accept its bytes.
ghost use Rattle.std.specs.Prelude.{◌≡◌, ◌++◌, Ok, IfOk, IfErr};
ghost use Rattle.std.specs.IoError.{error_kind};

use crate::refined_tcp_stream::RefinedTcpStream;
use crate::shared_state::{SharedState, fault_in_time};
use crate::write_both::WriteBoth;
use std::io;
use std::io::ErrorKind;
use std::net::Shutdown;
use std::sync::Arc;
use std::time::{Clock, Duration};
use tiny_http_io::device::WriteDevice;
use tiny_http_limits::counts::Closing;
use tiny_http_limits::limits::Limits;
use tiny_http_limits::times::{Patience, Stall};

// The maximum time that one system call waits, in milliseconds; it waits less if a write has less time. A call may time
// out although the socket has room by then; the next call then finds that room.
const STEP_MILLIS: u64 = 1_000;

/// A writer to a client's socket. Under limits, once the time allowed for writes has run out, the connection is shut
/// down, and the write fails with `TimedOut`; if only some of its bytes were taken, the next write fails instead. If
/// all of them were taken, the write succeeds, however late. The clock is read only after a system call has taken fewer
/// bytes than it was given. As a `WriteDevice` it counts its failures and states no bytes.
#[derive(Drop)]
pub struct TimedWriter<Rt: Clock> {
    rt: Rt,
    socket: RefinedTcpStream,
    shared: Arc<SharedState>,
    // How long writes may wait, if the connection has limits.
    patience: Option<Patience>,
    // Whether a write has had to wait for the client; until then no time is counted.
    has_waited: bool,
    stall: Stall,
    // Whether the time allowed for writes has run out.
    is_late: bool,
    failures: u64,
    last: Option<ErrorKind>,
}

// A system call that writes: when it began, if its time counts, and how many bytes it was given.
#[derive(Clone, Copy)]
struct Asked {
    begun: Option<Duration>,
    bytes: usize,
}

impl<Rt: Clock> TimedWriter<Rt> {
    ghost use Rattle.tiny_http_socket.specs.Timed.{timed_sink, failed_sink, IsReportOf};

    /// Creates a writer to this half of a socket. Under limits it sets the socket's write timeout.
    pub fn new(rt: Rt, socket: RefinedTcpStream, shared: Arc<SharedState>) -> TimedWriter<Rt> {
        let patience = shared.limits().map(Limits::write_patience);
        if let Some(patience) = patience {
            let wait = step(patience.time).max(Duration::from_millis(1));
            let _ = socket.connection().set_write_timeout(wait);
        }
        TimedWriter {
            rt,
            socket,
            shared,
            patience,
            has_waited: false,
            stall: Stall::new(),
            is_late: false,
            failures: 0,
            last: None,
        }
    }

    // Returns the clock's time, or 0 if the clock can't be read.
    fn now(&self) -> Duration {
        self.rt.monotonic().unwrap_or(Duration::from_secs(0))
    }

    // Returns an `Asked` for a system call that begins now and is given this number of bytes.
    fn ask(&self, bytes: usize) -> Asked {
        let begun = if self.has_waited {
            Some(self.now())
        } else {
            None
        };
        Asked { begun, bytes }
    }

    // Converts the result of a system call into the one to report, and counts a failure. Under limits the time of a
    // call that succeeded is counted.
    fn report(&mut self, asked: Asked, written: io::Result<usize>) -> io::Result<usize>
        ensures taken { IfOk result (λ n. (written ≡ Ok n) × (timed_sink self.new ≡ timed_sink self.old)) }
        ensures fault { IfErr result (λ e. timed_sink self.new ≡ failed_sink self.old (error_kind e)) }
    {
        let written = match self.patience {
            Some(patience) => self.in_time(patience, asked, written),
            None => written,
        };
        self.count(&written);
        written
    }

    // Converts the result of a system call under limits: the system's timeout becomes `TimedOut`. If the time allowed
    // for writes has run out and only some bytes were taken, shuts the connection down.
    fn in_time(
        &mut self,
        patience: Patience,
        asked: Asked,
        written: io::Result<usize>,
    ) -> io::Result<usize>
        ensures report { IsReportOf written result }
        ensures sink { timed_sink self.new ≡ timed_sink self.old }
    {
        match written {
            Ok(n) => {
                self.shared.wrote();
                // If all bytes were taken, they are sent, however late.
                if self.is_over(patience, asked, n) && n < asked.bytes {
                    self.end_late();
                }
                Ok(n)
            }
            Err(fault) => Err(fault_in_time(fault)),
        }
    }

    // Counts the time of a call that wrote this number of bytes, and returns whether the time allowed for writes has
    // run out. A call that wrote nothing counts as at least one step, even if the clock can't be read. If the first
    // call that falls short wrote some bytes, its wait is unknown, and isn't counted.
    fn is_over(&mut self, patience: Patience, asked: Asked, written: usize) -> bool
        ensures { timed_sink self.new ≡ timed_sink self.old }
    {
        let least = if written == 0 {
            step(patience.time)
        } else {
            Duration::from_secs(0)
        };
        let waited = match asked.begun {
            Some(begun) => self.now().saturating_sub(begun).max(least),
            None => least,
        };
        self.has_waited = self.has_waited || written < asked.bytes;
        self.has_waited && self.stall.count(waited, written, patience)
    }

    // Returns whether to retry a write: under limits, if the system call timed out and the time allowed for writes
    // hasn't run out. Counts the time of the call, and shuts the connection down if the time allowed has run out.
    fn tries_again(&mut self, asked: Asked, written: &io::Result<usize>) -> bool
        ensures { timed_sink self.new ≡ timed_sink self.old }
    {
        let Err(fault) = written else {
            return false;
        };
        let Some(patience) = self.patience else {
            return false;
        };
        if fault.kind() != ErrorKind::WouldBlock {
            return false;
        }
        if self.is_over(patience, asked, 0) {
            self.end_late();
            return false;
        }
        true
    }

    // Shuts the connection down, because the time allowed for writes has run out. Each later nonempty write fails with
    // `TimedOut`.
    fn end_late(&mut self)
        ensures { timed_sink self.new ≡ timed_sink self.old }
    {
        self.is_late = true;
        self.shared.closed_by(Closing::Write);
        let _ = self.socket.connection().shutdown(Shutdown::Both);
    }

    // Counts a failure if the call failed, and records its kind.
    fn count(&mut self, outcome: &io::Result<usize>)
        ensures taken { IfOk outcome.now (λ n. timed_sink self.new ≡ timed_sink self.old) }
        ensures fault { IfErr outcome.now (λ e. timed_sink self.new ≡ failed_sink self.old (error_kind e)) }
    {
        if let Err(fault) = outcome {
            self.failures = self.failures.saturating_add(1);
            self.last = Some(fault.kind());
        }
    }
}

// Returns how long one system call may wait if a write may take this long.
fn step(time: Duration) -> Duration {
    time.min(Duration::from_millis(STEP_MILLIS))
}

impl<Rt: Clock> WriteDevice for TimedWriter<Rt> {
    ghost use Rattle.tiny_http_socket.specs.Timed.{timed_sink};

    ghost sink = { timed_sink };

    /// Returns the number of failed writes.
    fn failures(&self) -> u64 {
        self.failures
    }

    /// Writes some bytes to the client, and returns their number. If `buf` is empty, returns 0 without a system call.
    /// Under limits it returns at most a second after the time allowed for writes has run out.
    fn write_out(&mut self, buf: &[u8]) -> Result<usize, io::Error> {
        if buf.is_empty() {
            return Ok(0);
        }
        let bytes = buf.len();
        if self.is_late {
            return self.report(self.ask(bytes), Err(ErrorKind::TimedOut.into()));
        }
        for _ in 0..u64::MAX {
            let asked = self.ask(bytes);
            let written = self.socket.write_out(buf);
            if !self.tries_again(asked, &written) {
                return self.report(asked, written);
            }
        }
        self.report(self.ask(bytes), Err(ErrorKind::TimedOut.into()))
    }

    /// Does nothing: no bytes are held back.
    fn flush_out(&mut self) -> Result<(), io::Error> {
        Ok(())
    }

    /// Shuts down the direction to the client, who then sees the end of input.
    fn end_out(&mut self) {
        self.socket.end_out();
    }
}

impl<Rt: Clock> WriteBoth for TimedWriter<Rt> {
    /// Writes some bytes to the client, as `write_out` does, with one system call for both texts. Writes nothing if
    /// both are empty.
    fn write_both(&mut self, front: &[u8], back: &[u8]) -> Result<usize, io::Error> {
        if front.is_empty() && back.is_empty() {
            return Ok(0);
        }
        let bytes = front.len().saturating_add(back.len());
        if self.is_late {
            return self.report(self.ask(bytes), Err(ErrorKind::TimedOut.into()));
        }
        for _ in 0..u64::MAX {
            let asked = self.ask(bytes);
            let written = self.socket.write_both(front, back);
            if !self.tries_again(asked, &written) {
                return self.report(asked, written);
            }
        }
        self.report(self.ask(bytes), Err(ErrorKind::TimedOut.into()))
    }
}
