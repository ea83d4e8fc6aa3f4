//! Reading ahead in large pieces.
ghost use Rattle.std.specs.Prelude.{◌≡◌, ◌≢◌, ◌<◌, ◌≤◌, ◌+◌, ◌++◌, min, [], length, take, drop, Ok, IfOk, IfErr};
ghost use Rattle.std.specs.Prelude.{◌-◌, ◌⊎◌, OnOk, OnErr, true, false, vec_len};
ghost use Rattle.std.specs.IoError.{error_kind};
ghost use Rattle.tiny_http_io.specs.Device.{Reads, Tells, prepended, StopsBy};
ghost use Rattle.tiny_http_io.specs.declared.device.Stop.TheVariants.{End, Fault};
ghost use Rattle.tiny_http_socket.specs.declared.read_ahead.TheConstants.{PIECE};

use std::alloc::Global;
use std::io;
use std::io::ErrorKind;
use std::marker::Model;
use tiny_http_io::device::{Ahead, ReadDevice, copy_front};

/// The maximum number of bytes that are read ahead at once.
pub const PIECE: usize = 16_384;

/// An action to take before each call of an inner reader.
pub trait BeforeRead {
    /// The effect of the action, as a relation between the state before it and the state after it.
    ghost does: { Self → Self → Type 0 };

    /// Takes the action.
    fn before_read(&mut self)
        ensures { Self.does self.old self.new };
}

/// A reader that reads ahead up to 16,384 bytes at once, and holds them until they are requested. `read_after` calls
/// the inner reader only if a byte is requested and none is held; `read_ahead` calls it even if bytes are held.
#[derive(Drop)]
pub struct ReadAhead<R: ReadDevice> {
    reader: R,
    // Room for a piece, or empty until the next read that needs it.
    piece: Vec<u8>,
    start: usize,
    end: usize,
    // Whether the last read from the inner reader returned at least one byte but fewer than it asked for, or failed.
    is_drained: bool,
}

impl<R: ReadDevice> Model for ReadAhead<R> {
    ghost use Rattle.std.specs.Prelude.{◌≡◌, ◌-◌, ◌≤◌, ◌⊎◌, take, drop, vec_len};
    ghost use Rattle.tiny_http_socket.specs.ReadAhead.{AheadState};
    ghost use Rattle.tiny_http_socket.specs.declared.read_ahead.TheConstants.{PIECE};

    ghost Value = { AheadState R };

    ghost view = { λ a. record
        { held = take (a.end - a.start) (drop a.start a.piece.items); reader = a.reader; feed = R.feed a.reader } };

    // The memory for a whole piece is allocated, or none is.
    ghost invariant = { λ a. (a.start ≤ a.end) × (a.end ≤ vec_len a.piece)
        × ((vec_len a.piece ≡ PIECE) ⊎ (vec_len a.piece ≡ 0)) };
}

// Allocates the memory for a piece, if it was freed. Returns false, with nothing changed, if memory can't be allocated.
fn take_piece(piece: &mut Vec<u8>) -> bool
    requires { (vec_len piece.old ≡ PIECE) ⊎ (vec_len piece.old ≡ 0) }
    ensures taken { result ≡ true → vec_len piece.new ≡ PIECE }
    ensures same { vec_len piece.old ≡ PIECE → piece.new ≡ piece.old }
    ensures refused { result ≡ false → piece.new ≡ piece.old }
{
    if !piece.is_empty() {
        return true;
    }
    match Vec::from_elem(*piece.allocator(), 0, PIECE) {
        Ok(taken) => {
            *piece = taken;
            true
        }
        Err(_) => false,
    }
}

// Moves the bytes from `start` to `end` to the front of a piece.
fn move_to_front(piece: &mut [u8], start: usize, end: usize)
    requires start { start ≤ end }
    requires end { end ≤ length piece.old }
    ensures len { length piece.new ≡ length piece.old }
    ensures bytes { take (end - start) piece.new ≡ take (end - start) (drop start piece.old) }
{
    if start > 0 {
        piece.copy_within(start..end, 0);
    }
}

// Reads once into the room after the first `end` bytes of a piece, and returns the number of bytes read.
fn read_after_held<R: ReadDevice>(
    reader: &mut R,
    piece: &mut [u8],
    end: usize,
) -> Result<usize, io::Error>
    requires { end ≤ length piece.old }
    ensures len { length piece.new ≡ length piece.old }
    ensures count { IfOk result (λ n. end + n ≤ length piece.old) }
    ensures feed { IfOk result (λ n. prepended (take (end + n) piece.new) (R.feed reader.new)
        ≡ prepended (take end piece.old) (R.feed reader.old)) }
    ensures kept { OnErr result (take end piece.new ≡ take end piece.old) }
    ensures same { OnErr result (R.feed reader.new ≡ R.feed reader.old) }
    ensures stop_count { R.stop_count reader.new ≤ R.stop_count reader.old + 1 }
{
    reader.read_in(&mut piece[end..])
}

impl<R: ReadDevice + Drop> ReadAhead<R> {
    ghost use Rattle.tiny_http_socket.specs.ReadAhead.{ahead_feed};

    /// Wraps a reader, with no byte read ahead. The first read allocates the memory for a piece.
    pub fn new(alloc: Global, reader: R) -> ReadAhead<R>
        ensures { (result.reader ≡ reader) × (result.held ≡ []) × (result.feed ≡ R.feed reader) }
    {
        ReadAhead {
            reader,
            piece: Vec::new(alloc),
            start: 0,
            end: 0,
            is_drained: true,
        }
    }
}

impl<R: ReadDevice> ReadAhead<R> {
    ghost use Rattle.tiny_http_socket.specs.ReadAhead.{ahead_feed};

    // Discards `n` held bytes.
    fn consume(&mut self, n: usize)
        requires { n ≤ length self.old.held }
        ensures { self.new ≡ record self.old { held = drop n self.old.held } }
    {
        self.start += n;
    }

    // Moves as many held bytes as fit to the front of `buf`, and returns their number.
    fn give(&mut self, buf: &mut [u8]) -> usize
        ensures count { result ≡ min (length self.old.held) (length buf.new) }
        ensures bytes { self.old.held ≡ take result buf.new ++ self.new.held }
        ensures rest { self.new ≡ record self.old { held = self.new.held } }
    {
        let n = copy_front(&self.piece[self.start..self.end], buf);
        self.consume(n);
        n
    }

    // Reads at most a piece from the inner reader. Returns false, with nothing read, if memory for the piece can't be
    // allocated. No bytes may be held when it is called.
    fn fill(&mut self) -> Result<bool, io::Error>
        requires none { self.old.held ≡ [] }
        ensures bytes { result ≡ Ok true → self.old.feed ≡ ahead_feed self.new }
        ensures end { result ≡ Ok true → self.new.held ≡ [] → StopsBy End self.old.feed }
        ensures memory { result ≡ Ok false → self.new ≡ self.old }
        ensures fault { IfErr result (λ e. StopsBy (Fault (error_kind e)) self.old.feed) }
        ensures again { OnErr result ((self.new.held ≡ []) × (self.new.feed ≡ self.old.feed)) }
        ensures stop_count { R.stop_count self.new.reader ≤ R.stop_count self.old.reader + 1 }
        ensures lazy { OnOk result
            (0 < length self.new.held → R.stop_count self.new.reader ≤ R.stop_count self.old.reader) }
    {
        if !take_piece(&mut self.piece) {
            return Ok(false);
        }
        let read = self.reader.read_in(self.piece.as_mut_slice());
        self.start = 0;
        self.end = 0;
        self.is_drained = true;
        self.end = read?;
        self.is_drained = 0 < self.end && self.end < PIECE;
        Ok(true)
    }

    /// Reads some bytes into the front of `buf`, and returns their number. Held bytes come first. If there are none,
    /// takes the action `before` and calls the inner reader: for at most a piece, or directly into `buf` if that has
    /// room for a piece or memory for a piece can't be allocated. An empty `buf` changes nothing.
    pub fn read_after<B: BeforeRead>(
        &mut self,
        before: &mut B,
        buf: &mut [u8],
    ) -> Result<usize, io::Error>
        ensures reads { Reads (ahead_feed self.old) (ahead_feed self.new) result buf.new }
        ensures stop_count { Tells (R.stop_count self.old.reader) (R.stop_count self.new.reader) result }
        ensures empty { length buf.new ≡ 0 → (result ≡ Ok 0) × (self.new ≡ self.old) × (before.new ≡ before.old) }
        ensures held { self.old.held ≢ [] → (self.new.reader ≡ self.old.reader) × (before.new ≡ before.old) }
        ensures calls { self.old.held ≡ [] → 0 < length buf.new → B.does before.old before.new }
    {
        if buf.is_empty() {
            return Ok(0);
        }
        if self.start < self.end {
            return Ok(self.give(buf));
        }
        before.before_read();
        self.read_more(buf)
    }

    // Reads some bytes from the inner reader: directly into `buf` if that has room for a piece, or if memory for a
    // piece can't be allocated; otherwise it reads a piece and copies what fits. No bytes may be held when it is
    // called.
    fn read_more(&mut self, buf: &mut [u8]) -> Result<usize, io::Error>
        requires none { self.old.held ≡ [] }
        ensures reads { Reads self.old.feed (ahead_feed self.new) result buf.new }
        ensures stop_count { Tells (R.stop_count self.old.reader) (R.stop_count self.new.reader) result }
    {
        if buf.len() >= PIECE {
            return self.read_past(buf);
        }
        if !self.fill()? {
            return self.read_past(buf);
        }
        Ok(self.give(buf))
    }

    // Reads directly into `buf`. No bytes may be held when it is called.
    fn read_past(&mut self, buf: &mut [u8]) -> Result<usize, io::Error>
        requires none { self.old.held ≡ [] }
        ensures none { self.new.held ≡ [] }
        ensures reads { Reads self.old.feed self.new.feed result buf.new }
        ensures stop_count { Tells (R.stop_count self.old.reader) (R.stop_count self.new.reader) result }
    {
        let read = self.reader.read_in(buf);
        self.is_drained = match &read {
            Ok(n) => 0 < *n && *n < buf.len(),
            Err(_) => true,
        };
        read
    }

    /// Returns what was read ahead. No contract says whether the inner reader is drained.
    pub fn ahead(&self) -> Ahead<'_>
        ensures bytes { result.bytes.now ≡ self.now.held }
        ensures room { result.room + length self.now.held ≡ PIECE }
    {
        Ahead {
            bytes: &self.piece[self.start..self.end],
            room: PIECE - (self.end - self.start),
            is_drained: self.is_drained,
        }
    }

    /// Reads once from the inner reader, at most as many bytes as there is room for after the held ones, and returns
    /// the number of bytes read: 0 at the end, or if there is no room. Fails with the inner reader's fault, or with
    /// `OutOfMemory` if memory can't be allocated.
    pub fn read_ahead(&mut self) -> Result<usize, io::Error>
        ensures feed { ahead_feed self.new ≡ ahead_feed self.old }
        ensures count { IfOk result (λ n. length self.new.held ≡ length self.old.held + n) }
        ensures none { OnErr result (self.new.held ≡ self.old.held) }
        ensures stop_count { R.stop_count self.new.reader ≤ R.stop_count self.old.reader + 1 }
    {
        if !take_piece(&mut self.piece) {
            return Err(ErrorKind::OutOfMemory.into());
        }
        move_to_front(&mut self.piece, self.start, self.end);
        self.end -= self.start;
        self.start = 0;
        self.is_drained = true;
        let n = read_after_held(&mut self.reader, &mut self.piece, self.end)?;
        self.end += n;
        self.is_drained = 0 < n && self.end < PIECE;
        Ok(n)
    }

    /// Frees the memory for bytes that are read ahead, if no such bytes are held. The next read that needs it allocates
    /// it again.
    pub fn release(&mut self)
        ensures { self.new ≡ self.old }
    {
        if self.start == self.end {
            self.start = 0;
            self.end = 0;
            self.piece = Vec::new(*self.piece.allocator());
        }
    }
}
