//! The readers and writers that rows use. They record how they are called.
use crate::row::{Failing, Input};
use std::alloc::{AllocError, Global};
use std::io;
use std::io::{ErrorKind, Write};
use test_case_files::devices::Trier;
use tiny_http_wire::device::{Canned, Metered, ReadDevice, copy_front};

/// A reader of a client's bytes. It returns them piece by piece, at most `most` bytes a call, and then fails or ends.
/// If the row makes one of its calls fail (`failing_read`), the next call returns what that call would have returned.
#[derive(Drop)]
pub struct Client {
    pieces: Vec<Vec<u8>>,
    // Index of the current piece.
    place: usize,
    // Number of bytes of the current piece that have been returned.
    given: usize,
    most: usize,
    stop: Option<ErrorKind>,
    failing: Option<Failing>,
    calls: u64,
}

impl Client {
    /// Creates the client of a row. A call returns at most `most` bytes; 0 means no limit.
    pub fn new(alloc: Global, input: &Input, most: usize) -> Result<Client, AllocError> {
        let mut pieces = Vec::new(alloc);
        if !input.bytes.is_empty() {
            pieces
                .push(input.bytes.as_slice().to_vec(alloc)?)
                .map_err(AllocError::from)?;
        }
        for piece in &input.pieces {
            pieces
                .push(piece.as_slice().to_vec(alloc)?)
                .map_err(AllocError::from)?;
        }
        Ok(Client {
            pieces,
            place: 0,
            given: 0,
            most: if most == 0 { usize::MAX } else { most },
            stop: input.stop,
            failing: input.failing_read,
            calls: 0,
        })
    }

    /// Returns the number of reads so far, not counting those into an empty buffer.
    pub fn calls(&self) -> u64 {
        self.calls
    }

    // Returns the rest of the current piece.
    fn rest(&self) -> &[u8] {
        match self.pieces.get(self.place) {
            Some(piece) => piece.as_slice().get(self.given..).unwrap_or_default(),
            None => b"",
        }
    }
}

impl ReadDevice for Client {
    fn read_in(&mut self, buf: &mut [u8]) -> Result<usize, io::Error> {
        if buf.is_empty() {
            return Ok(0);
        }
        self.calls = self.calls.saturating_add(1);
        if let Some(Failing { call, kind }) = self.failing
            && call == self.calls
        {
            return Err(kind.into());
        }
        if self.place >= self.pieces.len()
            && let Some(kind) = self.stop
        {
            return Err(kind.into());
        }
        let rest = self.rest();
        let n = copy_front(rest.get(..self.most).unwrap_or(rest), buf);
        if n == rest.len() {
            self.place = self.place.saturating_add(1);
            self.given = 0;
        } else {
            self.given = self.given.saturating_add(n);
        }
        Ok(n)
    }
}

/// A writer that records the length of each write, and what has been flushed. If it is stuck, it accepts nothing, and
/// records no length.
#[derive(Drop)]
pub struct Taker {
    trier: Trier,
    sizes: Vec<usize>,
    sent: usize,
    is_stuck: bool,
}

impl Taker {
    /// Creates the writer of a row.
    pub fn new(alloc: Global, input: &Input) -> Taker {
        let trier = match (input.failing_write, input.room) {
            (Some(Failing { call, kind }), _) => Trier::failing_at(alloc, call, kind),
            (None, Some(room)) => Trier::with_room(alloc, room.bytes, room.fault),
            (None, None) => Trier::with_room(alloc, usize::MAX, ErrorKind::Other),
        };
        Taker {
            trier,
            sizes: Vec::new(alloc),
            sent: 0,
            is_stuck: input.is_stuck,
        }
    }

    /// Returns the inner writer, which records what it accepted, its failures, and the calls after the first failure.
    pub fn trier(&self) -> &Trier {
        &self.trier
    }

    /// Returns the length of the buffer of each write.
    pub fn sizes(&self) -> &[usize] {
        self.sizes.as_slice()
    }

    /// Returns what has been flushed.
    pub fn sent(&self) -> &[u8] {
        self.trier.taken().get(..self.sent).unwrap_or_default()
    }
}

impl Write for Taker {
    fn write(&mut self, buf: &[u8]) -> io::Result<usize> {
        if self.is_stuck {
            return Ok(0);
        }
        self.sizes.push(buf.len())?;
        self.trier.write(buf)
    }

    fn flush(&mut self) -> io::Result<()> {
        self.trier.flush()?;
        self.sent = self.trier.taken().len();
        Ok(())
    }
}

/// The writer of an outlet or a stream.
pub type Below = Metered<Taker>;

// Maximum number of bytes that a response reads at a time from data of fewer than `LARGE_PIECE` bytes.
const PIECE: u64 = 8_192;

// Maximum number of bytes that a response reads at a time from its data.
const LARGE_PIECE: u64 = 65_536;

/// The data of a response, which records how much of it is read.
#[derive(Drop)]
pub struct Watched {
    inner: Canned,
    // Maximum number of bytes that count as a piece.
    piece: u64,
    calls: u64,
    taken: u64,
}

impl Watched {
    /// Creates data with these bytes. After them, a read fails with `fault`, or reports the end if `fault` is `None`.
    pub fn new(
        alloc: Global,
        bytes: &[u8],
        fault: Option<ErrorKind>,
    ) -> Result<Watched, AllocError> {
        let is_large = bytes.len() as u64 >= LARGE_PIECE;
        Ok(Watched {
            inner: Canned::new(bytes.to_vec(alloc)?, fault),
            piece: if is_large { LARGE_PIECE } else { PIECE },
            calls: 0,
            taken: 0,
        })
    }

    /// Returns how much was read: `nothing` if no read was made, `a piece` if at most 8,192 bytes were read (or at most
    /// 65,536, if the data has at least that many), and otherwise `more`.
    pub fn reads(&self) -> &'static str {
        if self.calls == 0 {
            "nothing"
        } else if self.taken <= self.piece {
            "a piece"
        } else {
            "more"
        }
    }
}

impl ReadDevice for Watched {
    fn read_in(&mut self, buf: &mut [u8]) -> Result<usize, io::Error> {
        if buf.is_empty() {
            return Ok(0);
        }
        self.calls = self.calls.saturating_add(1);
        let n = self.inner.read_in(buf)?;
        self.taken = self.taken.saturating_add(n as u64);
        Ok(n)
    }
}
