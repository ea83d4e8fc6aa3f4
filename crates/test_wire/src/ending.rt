//! Tests of `Metered` over a stream whose first call fails, and of `end_out`, which must reach an inner writer.
use crate::same::assert_same;
use std::io;
use std::io::{ErrorKind, Read, Write};
use tiny_http_io::custom_stream::CustomStream;
use tiny_http_wire::device::{Metered, ReadDevice, WriteDevice};

// A stream whose first read or write fails with an error of this kind. Later calls succeed.
#[derive(Drop)]
struct FailsFirst {
    kind: ErrorKind,
    calls: u64,
}

impl FailsFirst {
    // Counts a call. Fails if it is the first.
    fn call(&mut self) -> io::Result<()> {
        self.calls = self.calls.saturating_add(1);
        if self.calls == 1 {
            return Err(self.kind.into());
        }
        Ok(())
    }
}

impl Read for FailsFirst {
    fn read(&mut self, buf: &mut [u8]) -> io::Result<usize> {
        self.call()?;
        Ok(buf.len())
    }
}

impl Write for FailsFirst {
    fn write(&mut self, buf: &[u8]) -> io::Result<usize> {
        self.call()?;
        Ok(buf.len())
    }

    fn flush(&mut self) -> io::Result<()> {
        Ok(())
    }
}

fn failing(kind: ErrorKind) -> Metered<FailsFirst> {
    Metered::new(FailsFirst { kind, calls: 0 })
}

// `Metered` returns the error of a read, and does not retry the read. The next read reaches the inner stream.
#[test]
fn a_metered_read_that_failed_is_not_made_again(rt: HostRuntime) {
    for kind in [ErrorKind::Interrupted, ErrorKind::TimedOut] {
        let mut metered = failing(kind);
        for wanted in [Err(kind), Ok(4)] {
            let found = metered.read_in(&mut [0u8; 4]).map_err(|e| e.kind());
            assert_same(&rt, found, wanted);
        }
    }
}

#[test]
fn a_metered_write_that_failed_is_not_made_again(rt: HostRuntime) {
    for kind in [ErrorKind::Interrupted, ErrorKind::TimedOut] {
        let mut metered = failing(kind);
        for wanted in [Err(kind), Ok(5)] {
            let found = metered.write_out(b"hello").map_err(|e| e.kind());
            assert_same(&rt, found, wanted);
        }
        assert_same(&rt, metered.failures(), 1);
    }
}

// A writer that counts the calls to `end_out`.
#[derive(Drop)]
struct Told {
    writer: Metered<Vec<u8>>,
    ends: u64,
}

impl WriteDevice for Told {
    ghost use Rattle.tiny_http_io.specs.Metered.{metered_sink};

    ghost sink = { λ t. metered_sink t.writer };

    fn failures(&self) -> u64 {
        self.writer.failures()
    }

    fn write_out(&mut self, buf: &[u8]) -> io::Result<usize> {
        self.writer.write_out(buf)
    }

    fn flush_out(&mut self) -> io::Result<()> {
        self.writer.flush_out()
    }

    fn end_out(&mut self) {
        self.ends = self.ends.saturating_add(1);
    }
}

// Calls `end_out` on a writer of any type.
fn tell<W: WriteDevice>(writer: &mut W) {
    writer.end_out();
}

#[test]
fn the_end_is_passed_on(rt: HostRuntime) {
    let writer = Metered::new(Vec::new(rt.alloc()));
    let mut told = Told { writer, ends: 0 };
    tell(&mut &mut told);
    assert_same(&rt, told.ends, 1);
    let mut stream = CustomStream::new(io::empty(), told);
    tell(&mut stream);
    let (_, told) = stream.into_parts();
    assert_same(&rt, told.ends, 2);
}
