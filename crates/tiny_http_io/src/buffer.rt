//! A byte queue of fixed capacity.
ghost use Rattle.std.specs.Prelude.{◌≡◌, ℕ, ◌+◌, ◌-◌, ◌≤◌, ◌==◌, min, List, [], ◌∷◌, ◌++◌, length, take, drop, Ok};
ghost use Rattle.std.specs.Prelude.{IfOk, IfErr, OnOk, OnErr, IfSome, IfNone};
ghost use Rattle.std.specs.IoError.{error_kind};
ghost use Rattle.tiny_http_io.specs.Device.{prepended, StopsBy, Tells};
ghost use Rattle.tiny_http_io.specs.declared.device.Stop.TheVariants.{End, Fault};

use crate::device::ReadDevice;
use std::io;
use std::marker::Model;

/// The capacity, in bytes, of the buffer of a source or an outlet (as in the Rust crate).
pub const CAPACITY: usize = 1024;

/// A queue of at most `CAPACITY` bytes: bytes enter at the back and leave at the front.
#[derive(Drop)]
pub struct Buffer {
    bytes: [u8; CAPACITY],
    start: usize,
    end: usize,
}

impl Model for Buffer {
    ghost use Rattle.std.specs.Prelude.{◌≡◌, ◌-◌, ◌≤◌, ℕ, List, take, drop};
    ghost use Rattle.tiny_http_io.specs.declared.buffer.TheConstants.{CAPACITY};

    ghost Value = { List ℕ };

    ghost view = { λ b. take (b.end - b.start) (drop b.start b.bytes) };

    // An empty buffer has all its room at the back.
    ghost invariant = { λ b. (b.start ≤ b.end) × (b.end ≤ CAPACITY) × (b.start ≡ b.end → b.start ≡ 0) };
}

impl Buffer {
    /// Makes an empty buffer.
    pub fn new() -> Buffer
        ensures { result ≡ [] }
    {
        Buffer {
            bytes: [0; CAPACITY],
            start: 0,
            end: 0,
        }
    }

    /// Returns whether the buffer is empty.
    pub fn is_empty(&self) -> bool
        ensures { result ≡ (length self.now == 0) }
    {
        self.start == self.end
    }

    /// Returns the number of buffered bytes, at most `CAPACITY`.
    pub fn len(&self) -> usize
        ensures len { result ≡ length self.now }
        ensures bound { length self.now ≤ CAPACITY }
    {
        self.end - self.start
    }

    /// Returns the buffered bytes, the front first.
    pub fn as_slice(&self) -> &[u8]
        ensures bytes { result.now ≡ self.now }
        ensures bound { length self.now ≤ CAPACITY }
    {
        &self.bytes[self.start..self.end]
    }

    /// Removes the first n bytes.
    pub fn consume(&mut self, n: usize)
        requires { n ≤ length self.old }
        ensures { self.new ≡ drop n self.old }
    {
        if n == self.end - self.start {
            self.start = 0;
            self.end = 0;
            return;
        }
        self.start += n;
    }

    /// Removes and returns the first byte, if there is one.
    pub fn pop(&mut self) -> Option<u8>
        ensures some { IfSome result (λ b. self.old ≡ b ∷ self.new) }
        ensures none { IfNone result ((self.old ≡ []) × (self.new ≡ [])) }
    {
        let first = *self.as_slice().first()?;
        self.consume(1);
        Some(first)
    }

    /// Moves the first bytes, as many as `to` has room for, to the front of `to`, and returns how many.
    pub fn give(&mut self, to: &mut [u8]) -> usize
        ensures count { result ≡ min (length self.old) (length to.old) }
        ensures bytes { self.old ≡ take result to.new ++ self.new }
        ensures empty { self.old ≡ [] → self.new ≡ [] }
    {
        let held = self.as_slice();
        let n = held.len().min(to.len());
        to[..n].copy_from_slice(&held[..n]);
        self.consume(n);
        n
    }

    /// Empties the buffer.
    pub fn clear(&mut self)
        ensures { self.new ≡ [] }
    {
        self.start = 0;
        self.end = 0;
    }

    /// Discards the buffered bytes, reads once from the device into the buffer, and returns the number of bytes read,
    /// which is 0 only at the device's end. A call that fails leaves the buffer empty.
    pub fn read_from<R: ReadDevice>(&mut self, device: &mut R) -> Result<usize, io::Error>
        ensures count { IfOk result (λ n. n ≡ length self.new) }
        ensures bytes { OnOk result (R.feed device.old ≡ prepended self.new (R.feed device.new)) }
        ensures end { IfOk result (λ n. n ≡ 0 → StopsBy End (R.feed device.old)) }
        ensures fault { IfErr result (λ e. StopsBy (Fault (error_kind e)) (R.feed device.old)) }
        ensures again { OnErr result ((R.feed device.new ≡ R.feed device.old) × (self.new ≡ [])) }
        ensures stop_count { Tells (R.stop_count device.old) (R.stop_count device.new) result }
    {
        self.start = 0;
        self.end = 0;
        let n = device.read_in(&mut self.bytes)?;
        self.end = n;
        Ok(n)
    }

    /// Appends as many bytes as there is room for at the back, and returns how many.
    pub fn append(&mut self, from: &[u8]) -> usize
        ensures count { result ≤ length from.now }
        ensures room { length self.old ≡ 0 → result ≡ min CAPACITY (length from.now) }
        ensures bytes { self.new ≡ self.old ++ take result from.now }
        ensures bound { length self.new ≤ CAPACITY }
    {
        let n = from.len().min(CAPACITY - self.end);
        let end = self.end + n;
        self.bytes[self.end..end].copy_from_slice(&from[..n]);
        self.end = end;
        n
    }
}
