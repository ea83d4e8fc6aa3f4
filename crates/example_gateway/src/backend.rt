//! A connection to the backend. It looks for the response while it sends the request.
use std::alloc::Global;
use std::io;
use std::io::{Chain, Cursor, ErrorKind, Read, Write};
use std::net::{Net, TcpStream};
use std::time::{Clock, Duration, Instant};
use tiny_http_client::answer_head::{AnswerHead, read_answer_head};

/// Maximum number of bytes that are forwarded at a time.
pub(crate) const PIECE: usize = 8192;

// Length in bytes above which a response's head is refused if it is still incomplete. The interim heads before it
// count, too, once a read returns an LF.
const LONGEST_HEADS: usize = 65_536;

// Seconds after which a backend that accepts no bytes, or sends no response, has timed out.
const PATIENCE: u64 = 10;

// Milliseconds that a write waits for the backend before it looks for the response again.
const WRITE_WAIT: u64 = 250;

/// A reader of a response's body. It first returns the bytes that arrived with the head, then reads from the
/// connection.
pub(crate) type Rest = Chain<Cursor<Vec<u8>>, TcpStream>;

/// A connection to the backend. It looks for the response before each write.
#[derive(Drop)]
pub(crate) struct Backend<'a, Rt: Clock> {
    rt: &'a Rt,
    alloc: Global,
    stream: TcpStream,
    // The bytes that have arrived after the heads that were read.
    front: Vec<u8>,
    // Total length in bytes of the heads that were read.
    passed: usize,
    head: Option<AnswerHead>,
}

// Returns the position after the empty line that ends a head, or `None` if there is no such line yet.
fn end_of_head(bytes: &[u8]) -> Option<usize> {
    let mut line_is_empty = false;
    for (at, byte) in bytes.iter().enumerate() {
        match byte {
            b'\n' if line_is_empty => return Some(at.saturating_add(1)),
            b'\n' => line_is_empty = true,
            b'\r' => {}
            _ => line_is_empty = false,
        }
    }
    None
}

// Returns a head with each byte above 127 percent-encoded, as `Standard` does in a request's field values.
fn encoded(alloc: Global, head: &[u8]) -> io::Result<Vec<u8>> {
    let mut bytes = Vec::new(alloc);
    for byte in head {
        if byte.is_ascii() {
            bytes.push(*byte)?;
        } else {
            bytes.extend_from_slice(format!(in alloc; "%{byte:02X}")?.as_bytes())?;
        }
    }
    Ok(bytes)
}

impl<'a, Rt: Net<Stream = TcpStream> + Clock> Backend<'a, Rt> {
    /// Connects to the backend at this address.
    pub(crate) fn connect(rt: &'a Rt, alloc: Global, address: &str) -> io::Result<Backend<'a, Rt>> {
        let stream = TcpStream::connect(rt, address)?;
        stream.set_write_timeout(Some(Duration::from_millis(WRITE_WAIT)))?;
        Ok(Backend {
            rt,
            alloc,
            stream,
            front: Vec::new(alloc),
            passed: 0,
            head: None,
        })
    }
}

impl<Rt: Clock> Backend<'_, Rt> {
    /// Returns whether the response's head has arrived.
    pub(crate) fn is_answered(&self) -> bool {
        self.head.is_some()
    }

    // Returns the next head and its length in bytes, or `None` if the head is incomplete. If the head can't be read,
    // tries again with each byte above 127 percent-encoded. Fails with `InvalidData` if the head is malformed, and with
    // `InvalidData` or `OutOfMemory` if memory can't be allocated.
    fn next_head(&self) -> io::Result<Option<(AnswerHead, usize)>> {
        let front = self.front.as_slice();
        if let Ok(found) = read_answer_head(self.alloc, front) {
            return Ok(found);
        }
        let Some(end) = end_of_head(front) else {
            return Err(ErrorKind::InvalidData.into());
        };
        let head = encoded(self.alloc, front.get(..end).unwrap_or_default())?;
        match read_answer_head(self.alloc, head.as_slice()) {
            Ok(Some((head, _))) => Ok(Some((head, end))),
            _ => Err(ErrorKind::InvalidData.into()),
        }
    }

    // Reads the complete heads that have arrived, up to the first that isn't interim. Fails with `InvalidData` if a
    // head is malformed or has status 101, or if the heads are too long.
    fn read_heads(&mut self) -> io::Result<()> {
        for _ in 0..LONGEST_HEADS {
            let Some((head, length)) = self.next_head()? else {
                break;
            };
            let length = length.min(self.front.len());
            self.front = self.front.split_off(length)?;
            self.passed = self.passed.saturating_add(length);
            match head.status.0 {
                200.. => {
                    self.head = Some(head);
                    return Ok(());
                }
                // The request asked for no upgrade.
                101 => return Err(ErrorKind::InvalidData.into()),
                _ => {}
            }
        }
        if self.passed.saturating_add(self.front.len()) > LONGEST_HEADS {
            return Err(ErrorKind::InvalidData.into());
        }
        Ok(())
    }

    // Reads once from the connection, and takes the heads that are complete by then. Returns the number of bytes read.
    fn receive(&mut self) -> io::Result<usize> {
        let mut piece = [0u8; PIECE];
        let mut stream = &self.stream;
        let count = stream.read(&mut piece)?;
        let piece = piece.get(..count).unwrap_or_default();
        self.front.extend_from_slice(piece)?;
        if piece.contains(&b'\n') || self.front.len() > LONGEST_HEADS {
            self.read_heads()?;
        }
        Ok(count)
    }

    // Reads what has arrived, up to the response's head, without waiting.
    fn look(&mut self) -> io::Result<()> {
        self.stream.set_nonblocking(true)?;
        let mut looked = Ok(1);
        for _ in 0..LONGEST_HEADS {
            if self.head.is_some() || !matches!(looked, Ok(1..)) {
                break;
            }
            looked = self.receive();
        }
        self.stream.set_nonblocking(false)?;
        match looked {
            Err(fault) if !is_wait(fault.kind()) => Err(fault),
            _ => Ok(()),
        }
    }

    // Waits for the response's head. Fails with `TimedOut` if it hasn't arrived within ten seconds, and with
    // `UnexpectedEof` if the connection ends first.
    fn wait(&mut self) -> io::Result<()> {
        let begun = Instant::now(self.rt)?;
        let patience = Duration::from_secs(PATIENCE);
        for _ in 0..u64::MAX {
            if self.head.is_some() {
                return Ok(());
            }
            let left = patience.saturating_sub(begun.elapsed(self.rt)?);
            if left.as_millis() == 0 {
                break;
            }
            self.stream.set_read_timeout(Some(left))?;
            match self.receive() {
                Ok(0) => return Err(ErrorKind::UnexpectedEof.into()),
                Err(fault) if !is_wait(fault.kind()) => return Err(fault),
                _ => {}
            }
        }
        Err(ErrorKind::TimedOut.into())
    }

    /// Waits for the response's head. Returns the head and a reader of the body.
    pub(crate) fn into_answer(mut self) -> io::Result<(AnswerHead, Rest)> {
        self.wait()?;
        self.stream
            .set_read_timeout(Some(Duration::from_secs(PATIENCE)))?;
        let Backend {
            stream,
            front,
            head,
            ..
        } = self;
        match head {
            Some(head) => Ok((head, Cursor::new(front).chain(stream))),
            None => Err(ErrorKind::UnexpectedEof.into()),
        }
    }
}

// Returns whether a call that failed with this kind of error may be repeated.
fn is_wait(kind: ErrorKind) -> bool {
    matches!(
        kind,
        ErrorKind::WouldBlock | ErrorKind::TimedOut | ErrorKind::Interrupted
    )
}

impl<Rt: Clock> Write for Backend<'_, Rt> {
    /// Looks for the response, and writes once. Fails with `BrokenPipe` if the response has arrived, since the backend
    /// needs no more bytes, and with `TimedOut` if the backend accepts nothing for ten seconds.
    fn write(&mut self, buf: &[u8]) -> io::Result<usize> {
        for _ in 0..PATIENCE * 1_000 / WRITE_WAIT {
            self.look()?;
            if self.head.is_some() {
                return Err(ErrorKind::BrokenPipe.into());
            }
            let mut stream = &self.stream;
            match stream.write(buf) {
                Ok(count) => return Ok(count),
                Err(fault) if is_wait(fault.kind()) => {}
                Err(fault) => {
                    let _ = self.look();
                    return Err(fault);
                }
            }
        }
        Err(ErrorKind::TimedOut.into())
    }

    fn flush(&mut self) -> io::Result<()> {
        Ok(())
    }
}
