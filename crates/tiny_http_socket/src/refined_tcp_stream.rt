//! The two halves of a client's connection. Dropping a half shuts its direction down.
ghost use Rattle.std.specs.Prelude.{◌≡◌, ◌<◌, ◌≤◌, ◌++◌, [], length, Ok, None, Some, OnOk, IfOk, IfErr, false, IsOk};
ghost use Rattle.std.specs.IoError.{error_kind};
ghost use Rattle.tiny_http_io.specs.Device.{next_count};
ghost use Rattle.tiny_http_socket.specs.Stream.{shutdown_of};

use crate::connection::Connection;
use std::alloc::{AllocError, Global};
use std::io;
use std::io::{ErrorKind, Read, Write};
use std::net::{Shutdown, SocketAddr};
use std::sync::Arc;
use tiny_http_io::device::{ReadDevice, WriteDevice};

// A direction of a connection.
#[derive(Clone, Copy, Debug, PartialEq, Eq)]
enum Half {
    // From the client.
    Reading,
    // To the client.
    Writing,
}

impl Half {
    // Returns how to shut down this direction alone.
    fn shutdown(self) -> Shutdown
        ensures { result ≡ shutdown_of self }
    {
        match self {
            Half::Reading => Shutdown::Read,
            Half::Writing => Shutdown::Write,
        }
    }
}

/// One half of a client's connection. Dropping it shuts its direction down, and leaves the other half unchanged. It
/// reads and writes the connection directly. As a `ReadDevice` it states no feed; as a `WriteDevice` it counts its
/// failures and states no bytes.
pub struct RefinedTcpStream {
    connection: Arc<Connection>,
    half: Half,
    failures: u64,
    last: Option<ErrorKind>,
}

impl RefinedTcpStream {
    ghost use Rattle.tiny_http_socket.specs.Stream.{IsReadingHalf, IsWritingHalf, stream_sink, connection_of};
    ghost use Rattle.tiny_http_socket.specs.Stream.{HasSamePeer};

    /// Splits a connection into its read half and its write half. The connection is closed once both halves and every
    /// other handle are dropped. Fails if memory can't be allocated; the connection is then closed.
    pub fn new(
        alloc: Global,
        connection: Connection,
    ) -> Result<(RefinedTcpStream, RefinedTcpStream), AllocError>
        ensures { IfOk result (λ halves. IsReadingHalf connection halves.0 × IsWritingHalf connection halves.1) }
    {
        let connection = Arc::new(alloc, connection)?;
        let other = Arc::try_clone(&connection)?;
        Ok((
            RefinedTcpStream::of(other, Half::Reading),
            RefinedTcpStream::of(connection, Half::Writing),
        ))
    }

    /// Returns the connection, which both halves share.
    pub fn connection(&self) -> &Arc<Connection>
        ensures { result.now.value ≡ connection_of self.now }
    {
        &self.connection
    }

    // Creates a half with no failures counted.
    fn of(connection: Arc<Connection>, half: Half) -> RefinedTcpStream
        ensures { result ≡ record { connection = connection; half = half; failures = 0; last = None } }
    {
        RefinedTcpStream {
            connection,
            half,
            failures: 0,
            last: None,
        }
    }

    /// Returns whether the connection is encrypted: always false.
    pub fn secure(&self) -> bool
        ensures { result ≡ false }
    {
        false
    }

    /// Returns the client's address, or `None` for a Unix socket. Fails with the system's error if the system no longer
    /// knows the address.
    pub fn peer_addr(&self) -> io::Result<Option<SocketAddr>>
        ensures { IfOk result (λ addr. HasSamePeer self.now addr) }
    {
        self.connection.peer_addr()
    }

    // Converts the result of a write into the one to report, and counts a failure. A write that takes no byte becomes
    // `WriteZero`.
    fn report(&mut self, written: io::Result<usize>) -> io::Result<usize>
        ensures taken { IfOk result (λ n. (0 < n) × (written ≡ Ok n) × (self.new ≡ self.old)) }
        ensures fault { IfErr result
            (λ e. self.new ≡ record self.old { failures = next_count self.old.failures; last = Some (error_kind e) }) }
    {
        let written = match written {
            Ok(0) => Err(ErrorKind::WriteZero.into()),
            written => written,
        };
        if let Err(e) = &written {
            self.count(e.kind());
        }
        written
    }

    // Counts a failure of this kind.
    fn count(&mut self, kind: ErrorKind)
        ensures { self.new ≡ record self.old { failures = next_count self.old.failures; last = Some kind } }
    {
        self.failures = self.failures.saturating_add(1);
        self.last = Some(kind);
    }
}

impl Drop for RefinedTcpStream {
    /// Shuts down the direction of this half, and ignores the system's result.
    fn drop(self) {
        let RefinedTcpStream {
            connection,
            half,
            failures: _,
            last: _,
        } = self;
        let _ = connection.shutdown(half.shutdown());
    }
}

// Reads once, and retries a call that a signal interrupts.
fn read_once(connection: &Connection, buf: &mut [u8]) -> io::Result<usize>
    ensures { IfOk result (λ n. n ≤ length buf.new) }
{
    for _ in 0..u64::MAX {
        match connection.read_shared(buf) {
            Err(fault) if fault.kind() == ErrorKind::Interrupted => {}
            read => return read,
        }
    }
    Err(ErrorKind::Interrupted.into())
}

// Writes once, and retries a call that a signal interrupts.
fn write_once(connection: &Connection, buf: &[u8]) -> io::Result<usize>
    ensures { IfOk result (λ n. n ≤ length buf.now) }
{
    for _ in 0..u64::MAX {
        match connection.write_shared(buf) {
            Err(fault) if fault.kind() == ErrorKind::Interrupted => {}
            written => return written,
        }
    }
    Err(ErrorKind::Interrupted.into())
}

// Writes the concatenation of two texts once, and retries a call that a signal interrupts.
fn write_both_once(connection: &Connection, front: &[u8], back: &[u8]) -> io::Result<usize>
    ensures { IfOk result (λ n. n ≤ length (front.now ++ back.now)) }
{
    for _ in 0..u64::MAX {
        match connection.write_both_shared(front, back) {
            Err(fault) if fault.kind() == ErrorKind::Interrupted => {}
            written => return written,
        }
    }
    Err(ErrorKind::Interrupted.into())
}

impl RefinedTcpStream {
    ghost use Rattle.tiny_http_io.specs.Device.{PutsFront};
    ghost use Rattle.tiny_http_socket.specs.Stream.{stream_sink};

    /// Writes once to the client from the front of the concatenation of two texts, as `write_out` does. Writes nothing
    /// if both are empty.
    pub fn write_both(&mut self, front: &[u8], back: &[u8]) -> Result<usize, io::Error>
        ensures puts { PutsFront (stream_sink self.old) (stream_sink self.new) result (front.now ++ back.now) }
    {
        if front.is_empty() && back.is_empty() {
            return Ok(0);
        }
        let written = write_both_once(&self.connection, front, back);
        self.report(written)
    }
}

impl Read for RefinedTcpStream {
    /// Reads once, as `read_in` does.
    fn read(&mut self, buf: &mut [u8]) -> io::Result<usize> {
        self.read_in(buf)
    }
}

impl Write for RefinedTcpStream {
    /// Writes once, as `write_out` does.
    fn write(&mut self, buf: &[u8]) -> io::Result<usize> {
        self.write_out(buf)
    }

    /// Does nothing: no bytes are held back.
    fn flush(&mut self) -> io::Result<()> {
        Ok(())
    }
}

impl ReadDevice for RefinedTcpStream {
    /// Reads once from the client, and retries a call that a signal interrupts. Returns 0 at the end of input. If `buf`
    /// is empty, returns 0 without a system call.
    fn read_in(&mut self, buf: &mut [u8]) -> Result<usize, io::Error> {
        if buf.is_empty() {
            return Ok(0);
        }
        read_once(&self.connection, buf)
    }
}

impl WriteDevice for RefinedTcpStream {
    ghost use Rattle.tiny_http_io.specs.Device.{Puts, PutsFront, HoldsNothing};
    ghost use Rattle.tiny_http_socket.specs.Stream.{stream_sink};

    ghost sink = { stream_sink };

    /// Returns the number of failed writes.
    fn failures(&self) -> u64 {
        self.failures
    }

    /// Writes once to the client, and retries a call that a signal interrupts. If `buf` is empty, returns 0 without a
    /// system call. Fails with `WriteZero` if no byte is taken.
    fn write_out(&mut self, buf: &[u8]) -> Result<usize, io::Error>
        ensures puts { PutsFront (stream_sink self.old) (stream_sink self.new) result buf.now }
        ensures empty { length buf.now ≡ 0 → (result ≡ Ok 0) × (self.new ≡ self.old) }
    {
        if buf.is_empty() {
            return Ok(0);
        }
        let written = write_once(&self.connection, buf);
        self.report(written)
    }

    /// Does nothing: no bytes are held back.
    fn flush_out(&mut self) -> Result<(), io::Error>
        ensures puts { Puts (stream_sink self.old) (stream_sink self.new) result [] }
        ensures sent { OnOk result ((stream_sink self.new).has_ended ≡ false → HoldsNothing (stream_sink self.new)) }
        ensures ok { IsOk result }
        ensures unchanged { self.new ≡ self.old }
    {
        Ok(())
    }

    /// Shuts down the direction to the client, who then sees the end of input. The system's result is ignored. Dropping
    /// this half shuts the direction down again, as may a server that closes the connection.
    fn end_out(&mut self)
        ensures sink { stream_sink self.new ≡ stream_sink self.old }
        ensures unchanged { self.new ≡ self.old }
    {
        let _ = self.connection.shutdown(Shutdown::Write);
    }
}
