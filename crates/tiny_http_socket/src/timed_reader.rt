//! A reader with a timeout for the client to send bytes.
ghost use Rattle.std.specs.Prelude.{◌≡◌, ◌≤◌, length, Ok, IfOk};
ghost use Rattle.tiny_http_socket.specs.Timed.{IsReportOf, IsLate};

use crate::connection::Connection;
use crate::shared_state::{Phase, SharedState, fault_in_time};
use std::io;
use std::io::ErrorKind;
use std::net::Shutdown;
use std::sync::Arc;
use std::time::{Clock, Duration};
use tiny_http_io::device::{Ahead, ReadAheadDevice, ReadDevice};
use tiny_http_limits::counts::Closing;
use tiny_http_limits::limits::Limits;
use tiny_http_limits::times::{Patience, Stall, time_left};

// The minimum read timeout of a socket, in milliseconds: a timeout of 0 can't be set.
const LEAST_MILLIS: u64 = 1;

// The read timeout of a socket while the reader reads ahead, in milliseconds. The system rounds it up to its clock
// tick.
const AHEAD_MILLIS: u64 = 1;

/// A reader over a client's socket, with timeouts if its connection has limits. A timeout for the first byte of a head
/// counts as the end of input. A timeout for the rest of a head, a body or an upgraded stream is a fault of kind
/// `TimedOut`. As a `ReadDevice` it states no feed.
#[derive(Drop)]
pub struct TimedReader<R: ReadDevice + Drop, Rt: Clock> {
    rt: Rt,
    inner: R,
    socket: Arc<Connection>,
    shared: Arc<SharedState>,
    // The read timeout that was set on the socket.
    timeout: Option<Duration>,
    // The number of requests handed out as of the last read.
    request: u64,
    // When the time for the next head began, if it has begun.
    begun: Option<Duration>,
    // The progress of reading the body of the last request handed out.
    stall: Stall,
    // Whether the time allowed for the body of the last request handed out has run out.
    is_late: bool,
}

impl<R: ReadDevice + Drop, Rt: Clock> TimedReader<R, Rt> {
    /// Wraps a reader of this socket, with the state of its connection.
    pub fn new(
        rt: Rt,
        inner: R,
        socket: Arc<Connection>,
        shared: Arc<SharedState>,
    ) -> TimedReader<R, Rt> {
        TimedReader {
            rt,
            inner,
            socket,
            shared,
            timeout: None,
            request: 0,
            begun: None,
            stall: Stall::new(),
            is_late: false,
        }
    }

    // Returns the clock's time, or 0 if the clock can't be read.
    fn now(&self) -> Duration {
        self.rt.monotonic().unwrap_or(Duration::from_secs(0))
    }

    // Sets the socket's read timeout to this one, or clears it for `None`. Does nothing if the timeout is unchanged.
    fn wait_for(&mut self, timeout: Option<Duration>) {
        if self.timeout != timeout {
            self.timeout = timeout;
            let _ = match timeout {
                Some(timeout) => self
                    .socket
                    .set_read_timeout(timeout.max(Duration::from_millis(LEAST_MILLIS))),
                None => self.socket.clear_read_timeout(),
            };
        }
    }

    // Reads the first bytes of a head. Returns 0, the end of input, if no byte arrives within this time. The wait
    // starts again if a request was open when the wait began. Fails with `TimedOut` if the time allowed for the head
    // has already run out.
    fn read_first(&mut self, time: Duration, buf: &mut [u8]) -> io::Result<usize>
        ensures { IfOk result (λ n. n ≤ length buf.new) }
    {
        if self.shared.is_head_late() {
            return self.head_is_late();
        }
        self.begun = None;
        self.wait_for(Some(time));
        for _ in 0..u64::MAX {
            let had_open = self.shared.has_open();
            match self.inner.read_in(buf) {
                Ok(n) if n > 0 => {
                    self.shared.head_began();
                    return Ok(n);
                }
                Err(fault) if fault.kind() == ErrorKind::WouldBlock => {
                    if !had_open {
                        break;
                    }
                }
                read => return read,
            }
        }
        self.shared.closed_by(Closing::Idle);
        Ok(0)
    }

    // Reads the rest of a head, and fails with `TimedOut` once this time has run out. The time begins at the first such
    // read, so a head that arrives in one piece needs no clock.
    fn read_head(&mut self, time: Duration, buf: &mut [u8]) -> io::Result<usize>
        ensures { IfOk result (λ n. n ≤ length buf.new) }
    {
        if self.shared.is_head_late() {
            return self.head_is_late();
        }
        let now = self.now();
        let begun = self.begun.unwrap_or(now);
        self.begun = Some(begun);
        let Some(left) = time_left(begun, now, time) else {
            return self.head_is_late();
        };
        self.wait_for(Some(left));
        match self.inner.read_in(buf) {
            Err(fault) if fault.kind() == ErrorKind::WouldBlock => self.head_is_late(),
            read => read,
        }
    }

    // Records that the time allowed for the head has run out, and fails with `TimedOut`.
    fn head_is_late(&mut self) -> io::Result<usize>
        ensures { IsLate result }
    {
        self.shared.closed_by(Closing::Head);
        Err(ErrorKind::TimedOut.into())
    }

    // Reads from a body, and fails with `TimedOut` once the time allowed for it has run out.
    fn read_body(&mut self, patience: Patience, buf: &mut [u8]) -> io::Result<usize>
        ensures { IfOk result (λ n. n ≤ length buf.new) }
    {
        if self.is_late {
            return self.body_is_late();
        }
        let left = self.stall.left(patience.time);
        self.wait_for(Some(left));
        let begun = self.now();
        let read = self.inner.read_in(buf);
        self.check_body(patience, begun, read)
    }

    // Converts the result of a read from a body, which started at `begun`, into the one to report. Counts the time that
    // the read took if it returned bytes. If the socket's timeout ended the read, the time allowed for the body has run
    // out.
    fn check_body(
        &mut self,
        patience: Patience,
        begun: Duration,
        read: io::Result<usize>,
    ) -> io::Result<usize>
        ensures { IsReportOf read result }
    {
        match read {
            Ok(n) => {
                if n > 0 {
                    let waited = self.now().saturating_sub(begun);
                    self.is_late = self.stall.count(waited, n, patience);
                }
                Ok(n)
            }
            Err(fault) => {
                if fault.kind() == ErrorKind::WouldBlock {
                    let _ = self.body_is_late();
                }
                Err(fault_in_time(fault))
            }
        }
    }

    // Records that the time allowed for the body has run out, and fails with `TimedOut`, as does each later read of the
    // body.
    fn body_is_late(&mut self) -> io::Result<usize>
        ensures { IsLate result }
    {
        self.shared.closed_by(Closing::Body);
        self.is_late = true;
        Err(ErrorKind::TimedOut.into())
    }

    // Reads from an upgraded stream, and fails with `TimedOut` if no byte arrives within this time. The wait starts
    // again if bytes were written meanwhile.
    fn read_stream(&mut self, time: Option<Duration>, buf: &mut [u8]) -> io::Result<usize>
        ensures { IfOk result (λ n. n ≤ length buf.new) }
    {
        self.wait_for(time);
        self.shared.take_written();
        for _ in 0..u64::MAX {
            match self.inner.read_in(buf) {
                Err(fault) if fault.kind() == ErrorKind::WouldBlock => {
                    if !self.shared.take_written() {
                        break;
                    }
                }
                read => return read,
            }
        }
        self.stream_is_late()
    }

    // Shuts the connection down, because the time allowed for the stream has run out, and fails with `TimedOut`.
    fn stream_is_late(&mut self) -> io::Result<usize>
        ensures { IsLate result }
    {
        self.shared.closed_by(Closing::Idle);
        let _ = self.socket.shutdown(Shutdown::Both);
        Err(ErrorKind::TimedOut.into())
    }

    // Resets the times of the head and the body if another request was handed out since the last read.
    fn go_to(&mut self, request: u64) {
        if self.request != request {
            self.request = request;
            self.begun = None;
            self.stall = Stall::new();
            self.is_late = false;
        }
    }
}

impl<R: ReadAheadDevice + Drop, Rt: Clock> TimedReader<R, Rt> {
    // Reads some of the bytes that were read ahead, without waiting. Bytes of a body give back some of its time.
    fn read_held(&mut self, limits: Limits, buf: &mut [u8]) -> io::Result<usize>
        ensures { IfOk result (λ n. n ≤ length buf.new) }
    {
        match self.shared.phase() {
            Phase::Between => self.shared.head_began(),
            Phase::Body => return self.read_held_body(limits.body_patience(), buf),
            Phase::Stopped => return Ok(0),
            Phase::Head | Phase::Stream => {}
        }
        self.inner.read_in(buf)
    }

    // Reads some of the bytes of a body that were read ahead, and fails with `TimedOut` once the time allowed for it
    // has run out.
    fn read_held_body(&mut self, patience: Patience, buf: &mut [u8]) -> io::Result<usize>
        ensures { IfOk result (λ n. n ≤ length buf.new) }
    {
        let request = self.shared.requests();
        self.go_to(request);
        if self.is_late {
            return self.body_is_late();
        }
        let n = self.inner.read_in(buf)?;
        self.is_late = self.stall.count(Duration::from_secs(0), n, patience);
        Ok(n)
    }
}

impl<R: ReadAheadDevice + Drop, Rt: Clock> ReadDevice for TimedReader<R, Rt> {
    /// Reads once. Bytes that were read ahead come first, without waiting. Under limits it waits at most as long as the
    /// current phase allows; in phase `Stopped` it returns 0 without calling the inner reader. If `buf` is empty, it
    /// returns 0 without that call, too.
    fn read_in(&mut self, buf: &mut [u8]) -> Result<usize, io::Error> {
        if buf.is_empty() {
            return Ok(0);
        }
        let Some(limits) = self.shared.limits() else {
            if self.inner.ahead().bytes.is_empty() {
                self.wait_for(None);
            }
            return self.inner.read_in(buf);
        };
        let limits = *limits;
        if !self.inner.ahead().bytes.is_empty() {
            return self.read_held(limits, buf);
        }
        let request = self.shared.requests();
        self.go_to(request);
        match self.shared.phase() {
            Phase::Between => self.read_first(limits.idle_time, buf),
            Phase::Head => self.read_head(limits.head_time, buf),
            Phase::Body => self.read_body(limits.body_patience(), buf),
            Phase::Stream => self.read_stream(limits.stream_time, buf),
            Phase::Stopped => Ok(0),
        }
    }
}

impl<R: ReadAheadDevice + Drop, Rt: Clock> ReadAheadDevice for TimedReader<R, Rt> {
    /// Returns what was read ahead.
    fn ahead(&self) -> Ahead<'_> {
        self.inner.ahead()
    }

    /// Reads ahead once, waiting at most a clock tick or two. Records that a head has begun if any bytes were read.
    fn read_ahead(&mut self) -> Result<usize, io::Error> {
        self.wait_for(Some(Duration::from_millis(AHEAD_MILLIS)));
        let n = self.inner.read_ahead()?;
        if n > 0 {
            self.shared.head_began();
        }
        Ok(n)
    }

    /// Frees the memory for bytes that are read ahead, if no such bytes are held.
    fn release_ahead(&mut self) {
        self.inner.release_ahead()
    }
}
