//! Writing two texts in one call, such as buffered bytes and the bytes after them.
ghost use Rattle.std.specs.Prelude.{◌++◌};
ghost use Rattle.tiny_http_io.specs.Device.{PutsFront};

use crate::refined_tcp_stream::RefinedTcpStream;
use std::io;
use tiny_http_io::device::{Budget, WriteDevice};

/// A writer that may take two texts in one call.
pub trait WriteBoth: WriteDevice {
    /// Writes some bytes from the front of the concatenation of `front` and `back`, and returns their number: at least
    /// one, unless both are empty.
    fn write_both(&mut self, front: &[u8], back: &[u8]) -> Result<usize, io::Error>
        ensures puts { PutsFront (Self.sink self.old) (Self.sink self.new) result (front.now ++ back.now) };
}

impl WriteBoth for Budget {
    /// Writes some bytes of `front`, or of `back` if `front` is empty.
    fn write_both(&mut self, front: &[u8], back: &[u8]) -> Result<usize, io::Error> {
        if front.is_empty() {
            return self.write_out(back);
        }
        self.write_out(front)
    }
}

impl WriteBoth for RefinedTcpStream {
    /// Writes once to the client, with one system call for both texts, and retries a call that a signal interrupts.
    /// Writes nothing if both are empty.
    fn write_both(&mut self, front: &[u8], back: &[u8]) -> Result<usize, io::Error> {
        RefinedTcpStream::write_both(self, front, back)
    }
}
