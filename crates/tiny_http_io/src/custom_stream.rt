//! A stream made of a reader and a writer.
ghost use Rattle.std.specs.Prelude.{◌≡◌, [], length, Ok, OnOk, false};
ghost use Rattle.tiny_http_io.specs.Device.{Reads, Tells, Puts, PutsFront, HoldsNothing};
ghost use Rattle.tiny_http_io.specs.CustomStream.{custom_reader, custom_writer};

use crate::device::{ReadDevice, WriteDevice, put};
use std::io;
use std::io::{Read, Write};

/// A stream that reads from one device and writes to another. The two are independent.
#[derive(Drop)]
pub struct CustomStream<R, W> {
    reader: R,
    writer: W,
}

impl<R, W> CustomStream<R, W> {
    /// Joins a reader and a writer. Nothing is read or written.
    pub fn new(reader: R, writer: W) -> CustomStream<R, W>
        ensures reader { custom_reader result ≡ reader }
        ensures writer { custom_writer result ≡ writer }
    {
        CustomStream { reader, writer }
    }

    /// Returns the reader and the writer in their current states.
    pub fn into_parts(self) -> (R, W)
        ensures { result ≡ (custom_reader self, custom_writer self) }
    {
        (self.reader, self.writer)
    }
}

impl<R: ReadDevice, W> ReadDevice for CustomStream<R, W> {
    ghost feed = { λ s. R.feed (custom_reader s) };

    ghost stop_count = { λ s. R.stop_count (custom_reader s) };

    /// Reads from the reader. The writer isn't touched. Errors are the reader's.
    fn read_in(&mut self, buf: &mut [u8]) -> Result<usize, io::Error>
        ensures reads { Reads (R.feed (custom_reader self.old)) (R.feed (custom_reader self.new)) result buf.new }
        ensures empty { length buf.new ≡ 0 → (result ≡ Ok 0) × (self.new ≡ self.old) }
        ensures writer { custom_writer self.new ≡ custom_writer self.old }
        ensures stop_count { Tells (R.stop_count (custom_reader self.old))
            (R.stop_count (custom_reader self.new)) result }
    {
        self.reader.read_in(buf)
    }
}

impl<R, W: WriteDevice> WriteDevice for CustomStream<R, W> {
    ghost sink = { λ s. W.sink (custom_writer s) };

    /// Returns the writer's failure count.
    fn failures(&self) -> u64 {
        self.writer.failures()
    }

    /// Writes to the writer. The reader isn't touched. Errors are the writer's.
    fn write_out(&mut self, buf: &[u8]) -> Result<usize, io::Error>
        ensures puts { PutsFront (W.sink (custom_writer self.old)) (W.sink (custom_writer self.new)) result buf.now }
        ensures reader { custom_reader self.new ≡ custom_reader self.old }
    {
        self.writer.write_out(buf)
    }

    /// Flushes the writer. The reader isn't touched. Errors are the writer's.
    fn flush_out(&mut self) -> Result<(), io::Error>
        ensures puts { Puts (W.sink (custom_writer self.old)) (W.sink (custom_writer self.new)) result [] }
        ensures sent { let s = W.sink (custom_writer self.new) in OnOk result (s.has_ended ≡ false → HoldsNothing s) }
        ensures reader { custom_reader self.new ≡ custom_reader self.old }
    {
        self.writer.flush_out()
    }

    /// Makes the writer signal that no byte follows, if it can. The reader isn't touched.
    fn end_out(&mut self)
        ensures sink { W.sink (custom_writer self.new) ≡ W.sink (custom_writer self.old) }
        ensures reader { custom_reader self.new ≡ custom_reader self.old }
    {
        self.writer.end_out();
    }
}

impl<R: ReadDevice, W> Read for CustomStream<R, W> {
    ghost use Rattle.std.specs.Io.{ReadsAtMost};
    ghost use Rattle.std.specs.Io.KnownBytes.{ReadConsumes};
    ghost use Rattle.tiny_http_io.specs.Device.{bytes_of};

    ghost remaining = { λ s. bytes_of (R.feed (custom_reader s)) };

    /// Reads from the reader, as `read_in` does.
    fn read(&mut self, buf: &mut [u8]) -> io::Result<usize>
        ensures bound { ReadsAtMost result buf.new }
        ensures bytes { ReadConsumes (bytes_of (R.feed (custom_reader self.old)))
            (bytes_of (R.feed (custom_reader self.new))) result buf.new }
        ensures reads { Reads (R.feed (custom_reader self.old)) (R.feed (custom_reader self.new)) result buf.new }
        ensures empty { length buf.new ≡ 0 → (result ≡ Ok 0) × (self.new ≡ self.old) }
        ensures writer { custom_writer self.new ≡ custom_writer self.old }
        ensures stop_count { Tells (R.stop_count (custom_reader self.old))
            (R.stop_count (custom_reader self.new)) result }
    {
        self.read_in(buf)
    }
}

// `contents` is left unstated: a writer may take some bytes and then fail, or return `Ok` after its end and take none,
// and std's clauses on known bytes allow neither. The clauses below say what the writer itself states.
impl<R, W: WriteDevice> Write for CustomStream<R, W> {
    ghost use Rattle.std.specs.Io.{WritesAtMost};

    /// Writes to the writer, as `write_out` does.
    fn write(&mut self, buf: &[u8]) -> io::Result<usize>
        ensures bound { WritesAtMost result buf.now }
        ensures puts { PutsFront (W.sink (custom_writer self.old)) (W.sink (custom_writer self.new)) result buf.now }
        ensures reader { custom_reader self.new ≡ custom_reader self.old }
    {
        self.write_out(buf)
    }

    /// Flushes the writer, as `flush_out` does.
    fn flush(&mut self) -> io::Result<()>
        ensures puts { Puts (W.sink (custom_writer self.old)) (W.sink (custom_writer self.new)) result [] }
        ensures sent { let s = W.sink (custom_writer self.new) in OnOk result (s.has_ended ≡ false → HoldsNothing s) }
        ensures reader { custom_reader self.new ≡ custom_reader self.old }
    {
        self.flush_out()
    }

    /// Writes all bytes. Stops at the first fault and reports it, even one of kind `Interrupted`: the writer may have
    /// ended with that fault, and a retry would then return `Ok`.
    fn write_all(&mut self, buf: &[u8]) -> io::Result<()>
        ensures puts { Puts (W.sink (custom_writer self.old)) (W.sink (custom_writer self.new)) result buf.now }
        ensures reader { custom_reader self.new ≡ custom_reader self.old }
    {
        put(&mut self.writer, buf)
    }
}
