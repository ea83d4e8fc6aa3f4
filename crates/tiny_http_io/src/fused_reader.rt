//! A reader that keeps reporting its end once it has reported it.
ghost use Rattle.std.specs.Prelude.{◌≡◌, ◌<◌, ◌≤◌, length, take, Some, None, Ok, IfOk, IfErr, OnErr, IsSome};
ghost use Rattle.std.specs.IoError.{error_kind};
ghost use Rattle.tiny_http_io.specs.Device.{prepended, StopsBy, Tells};

use crate::device::{ReadDevice, Stop};
use std::io;
use std::io::Read;

/// A reader that doesn't call its inner reader again after the inner reader's end, and reports the end from then on. It
/// also reports the inner reader's faults, which don't count as the end.
#[derive(Drop)]
pub struct FusedReader<R> {
    inner: R,
    over: bool,
}

impl<R: ReadDevice> FusedReader<R> {
    ghost use Rattle.tiny_http_io.specs.FusedReader.{fused_inner};

    /// Wraps a reader. The new reader hasn't reported an end yet.
    pub fn new(reader: R) -> FusedReader<R>
        ensures { fused_inner result ≡ Some reader }
    {
        FusedReader {
            inner: reader,
            over: false,
        }
    }
}

impl<R: ReadDevice + Drop> FusedReader<R> {
    ghost use Rattle.tiny_http_io.specs.FusedReader.{fused_inner};

    /// Returns the inner reader, or `None` if its end has been reported.
    pub fn into_inner(self) -> Option<R>
        ensures { result ≡ fused_inner self }
    {
        if self.over { None } else { Some(self.inner) }
    }
}

impl<R: ReadDevice> ReadDevice for FusedReader<R> {
    ghost use Rattle.tiny_http_io.specs.FusedReader.{fused_feed, fused_stop_count, ReadsFused};

    ghost feed = { fused_feed R.feed };

    ghost stop_count = { fused_stop_count R.stop_count };

    /// Reads some bytes from the inner reader, or returns 0 if its end has been reported. A read into an empty buffer
    /// also returns 0, but doesn't count as the end.
    fn read_in(&mut self, buf: &mut [u8]) -> Result<usize, io::Error>
        ensures reads { ReadsFused R.feed self.old self.new result buf.new }
        ensures stop_count { Tells (fused_stop_count R.stop_count self.old)
            (fused_stop_count R.stop_count self.new) result }
    {
        if self.over || buf.is_empty() {
            return Ok(0);
        }
        match self.inner.read_in(buf) {
            Err(e) => Err(e),
            Ok(n) => {
                if n == 0 {
                    self.over = true;
                }
                Ok(n)
            }
        }
    }
}

impl<R: ReadDevice> Read for FusedReader<R> {
    ghost use Rattle.std.specs.Io.{ReadsAtMost};
    ghost use Rattle.std.specs.Io.KnownBytes.{ReadConsumes};
    ghost use Rattle.tiny_http_io.specs.FusedReader.{fused_feed, fused_stop_count, ReadsFused};
    ghost use Rattle.tiny_http_io.specs.Device.{bytes_of};

    ghost remaining = { λ r. bytes_of (fused_feed R.feed r) };

    /// Reads some bytes from the inner reader, or returns 0 if its end has been reported. A read into an empty buffer
    /// also returns 0, but doesn't count as the end.
    fn read(&mut self, buf: &mut [u8]) -> io::Result<usize>
        ensures bound { ReadsAtMost result buf.new }
        ensures bytes { ReadConsumes (bytes_of (fused_feed R.feed self.old)) (bytes_of (fused_feed R.feed self.new))
            result buf.new }
        ensures reads { ReadsFused R.feed self.old self.new result buf.new }
        ensures stop_count { Tells (fused_stop_count R.stop_count self.old)
            (fused_stop_count R.stop_count self.new) result }
    {
        self.read_in(buf)
    }
}
