//! A reader of the first bytes of another reader.
ghost use Rattle.std.specs.Prelude.{◌≡◌, ◌<◌, ◌≤◌, ◌+◌, length, take, Ok, IfOk, IfErr, OnErr};
ghost use Rattle.std.specs.Option.{option_map};
ghost use Rattle.std.specs.IoError.{error_kind};
ghost use Rattle.tiny_http_io.specs.Device.{prepended, StopsBy, Tells};
ghost use Rattle.tiny_http_io.specs.FeedParts.{feed_behind};

use crate::device::{ReadDevice, Stop, read_front};
use std::io;
use std::io::Read;

// The size, in bytes, of the buffer through which the rest is read and discarded.
const PIECE: usize = 512;

/// A reader of the next n bytes of another reader. If the inner reader stops within these bytes, this one stops in the
/// same way.
///
/// When dropped or finished, it reads and discards the rest of its bytes, through a buffer of 512 bytes, but stops at
/// an end or a fault.
pub struct EqualReader<R: ReadDevice + Drop> {
    inner: R,
    left: usize,
}

// Reads and discards `size` bytes, or fewer if an end or a fault comes first.
fn read_away<R: ReadDevice>(inner: &mut R, size: usize)
    ensures feed { R.feed inner.new ≡ option_map (feed_behind size) (R.feed inner.old) }
    ensures stop_count { R.stop_count inner.new ≤ R.stop_count inner.old + 1 }
{
    let mut left = size;
    let mut buf = [0u8; PIECE];
    while left > 0 {
        match read_front(inner, left, &mut buf) {
            Ok(0) => return,
            Ok(n) => left -= n,
            Err(_) => return,
        }
    }
}

impl<R: ReadDevice + Drop> EqualReader<R> {
    ghost use Rattle.tiny_http_io.specs.EqualReader.{equal_feed, equal_left, equal_inner};

    /// Limits `reader` to its next `size` bytes.
    pub fn new(reader: R, size: usize) -> EqualReader<R>
        ensures inner { equal_inner result ≡ reader }
        ensures size { equal_left result ≡ size }
    {
        EqualReader {
            inner: reader,
            left: size,
        }
    }

    /// Reads and discards the rest of this reader's bytes, and returns the inner reader. The inner reader's next byte
    /// is the first one after them, unless the inner reader stopped before that byte. An end or a fault encountered
    /// here isn't reported.
    pub fn finish(self) -> R
        ensures feed { R.feed result ≡ option_map (feed_behind (equal_left self)) (R.feed (equal_inner self)) }
        // The inner reader reports at most one end or fault in this call.
        ensures stop_count { R.stop_count result ≤ R.stop_count (equal_inner self) + 1 }
    {
        let EqualReader { mut inner, left } = self;
        read_away(&mut inner, left);
        inner
    }

    // Reads some of the bytes that are left, straight into `buf`.
    fn read_part(&mut self, buf: &mut [u8]) -> Result<usize, io::Error>
        ensures bound { IfOk result (λ n. n ≤ length buf.new) }
        ensures bytes { IfOk result
            (λ n. equal_feed R.feed self.old ≡ prepended (take n buf.new) (equal_feed R.feed self.new)) }
        ensures end { IfOk result (λ n. n ≡ 0 → 0 < length buf.new → StopsBy Stop.End (equal_feed R.feed self.old)) }
        ensures fault { IfErr result (λ e. StopsBy (Stop.Fault (error_kind e)) (equal_feed R.feed self.old)) }
        ensures again { OnErr result (equal_feed R.feed self.new ≡ equal_feed R.feed self.old) }
        ensures empty { length buf.new ≡ 0 → (result ≡ Ok 0) × (self.new ≡ self.old) }
        ensures past { equal_left self.old ≡ 0 → (result ≡ Ok 0) × (self.new ≡ self.old) }
        ensures count { IfOk result (λ n. equal_left self.old ≡ n + equal_left self.new) }
        ensures fault_takes_none { OnErr result (equal_left self.new ≡ equal_left self.old) }
        // The inner reader's bytes after those of this reader don't change.
        ensures behind { option_map (feed_behind (equal_left self.new)) (R.feed (equal_inner self.new))
            ≡ option_map (feed_behind (equal_left self.old)) (R.feed (equal_inner self.old)) }
        ensures stop_count { Tells (R.stop_count (equal_inner self.old)) (R.stop_count (equal_inner self.new)) result }
    {
        if self.left == 0 {
            return Ok(0);
        }
        match read_front(&mut self.inner, self.left, buf) {
            Err(e) => Err(e),
            Ok(n) => {
                self.left -= n;
                Ok(n)
            }
        }
    }
}

impl<R: ReadDevice + Drop> ReadDevice for EqualReader<R> {
    ghost use Rattle.tiny_http_io.specs.EqualReader.{equal_feed, equal_inner, ReadsPart};

    ghost feed = { equal_feed R.feed };

    ghost stop_count = { λ r. R.stop_count (equal_inner r) };

    /// Reads some of the bytes that are left, straight into `buf`.
    fn read_in(&mut self, buf: &mut [u8]) -> Result<usize, io::Error>
        ensures reads { ReadsPart R.feed self.old self.new result buf.new }
        ensures stop_count { Tells (R.stop_count (equal_inner self.old)) (R.stop_count (equal_inner self.new)) result }
    {
        self.read_part(buf)
    }
}

impl<R: ReadDevice + Drop> Drop for EqualReader<R> {
    fn drop(self) {
        let EqualReader { mut inner, left } = self;
        read_away(&mut inner, left);
    }
}

impl<R: ReadDevice + Drop> Read for EqualReader<R> {
    ghost use Rattle.std.specs.Io.{ReadsAtMost};
    ghost use Rattle.std.specs.Io.KnownBytes.{ReadConsumes};
    ghost use Rattle.tiny_http_io.specs.EqualReader.{equal_feed, equal_inner, ReadsPart};
    ghost use Rattle.tiny_http_io.specs.Device.{bytes_of};

    ghost remaining = { λ r. bytes_of (equal_feed R.feed r) };

    /// Reads some of the bytes that are left.
    fn read(&mut self, buf: &mut [u8]) -> io::Result<usize>
        ensures bound { ReadsAtMost result buf.new }
        ensures bytes { ReadConsumes (bytes_of (equal_feed R.feed self.old)) (bytes_of (equal_feed R.feed self.new))
            result buf.new }
        ensures reads { ReadsPart R.feed self.old self.new result buf.new }
        ensures stop_count { Tells (R.stop_count (equal_inner self.old)) (R.stop_count (equal_inner self.new)) result }
    {
        self.read_in(buf)
    }
}
