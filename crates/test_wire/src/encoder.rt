//! Tests of `Encoder`, which writes a body in chunks (RFC 9112, section 7.1).
use crate::same::assert_same;
use std::alloc::Global;
use std::io;
use std::io::{ErrorKind, Write};
use std::process::Abort;
use std::test::Fail;
use tiny_http_wire::device::{Budget, Metered};
use tiny_http_wire::encoder::Encoder;

const ROOM: usize = 100_000;

// Creates `count` bytes, each different from its neighbors.
fn data(alloc: Global, count: usize) -> Result<Vec<u8>, Fail> {
    let mut bytes = Vec::new(alloc);
    for place in 0..count {
        bytes.push((place % 251) as u8)?;
    }
    Ok(bytes)
}

// Formats a chunk of 8192 bytes.
fn chunk(alloc: Global, bytes: &[u8]) -> Result<Vec<u8>, Fail> {
    let mut text = b"2000\r\n".to_vec(alloc)?;
    text.extend_from_slice(bytes)?;
    text.extend_from_slice(b"\r\n")?;
    Ok(text)
}

// If no chunk has been started, a write accepts at most a full chunk; otherwise it accepts at most the bytes that
// complete the current one.
#[test]
fn what_a_write_takes(rt: HostRuntime) -> Result<(), Fail> {
    let bytes = data(rt.alloc(), 20_000)?;
    let mut encoder = Encoder::new(Budget::new(rt.alloc(), ROOM, ErrorKind::Other));
    assert_same(&rt, encoder.write(b"")?, 0);
    assert_same(&rt, encoder.write(bytes.as_slice())?, 8192);
    assert_same(&rt, encoder.write(b"hello")?, 5);
    assert_same(&rt, encoder.write(bytes.as_slice())?, 8187);
    Ok(())
}

// A stream that fails once, with a timeout, after it has accepted `room` bytes. Later writes succeed.
#[derive(Drop)]
struct FailsOnce {
    taken: Vec<u8>,
    room: usize,
    has_failed: bool,
}

impl FailsOnce {
    fn new(alloc: Global, room: usize) -> FailsOnce {
        FailsOnce {
            taken: Vec::new(alloc),
            room,
            has_failed: false,
        }
    }
}

impl Write for FailsOnce {
    fn write(&mut self, buf: &[u8]) -> io::Result<usize> {
        if self.room == 0 && !self.has_failed {
            self.has_failed = true;
            return Err(ErrorKind::TimedOut.into());
        }
        let count = if self.has_failed {
            buf.len()
        } else {
            buf.len().min(self.room)
        };
        self.taken.extend_from_slice(&buf[..count])?;
        self.room = self.room.saturating_sub(count);
        Ok(count)
    }

    fn flush(&mut self) -> io::Result<()> {
        Ok(())
    }
}

/// A stream that accepts everything, and counts its flushes.
#[derive(Drop)]
pub(crate) struct Flushes {
    pub count: u64,
}

impl Write for Flushes {
    fn write(&mut self, buf: &[u8]) -> io::Result<usize> {
        Ok(buf.len())
    }

    fn flush(&mut self) -> io::Result<()> {
        self.count = self.count.saturating_add(1);
        Ok(())
    }
}

// Neither a full chunk nor the end of the body causes a flush.
#[test]
fn a_body_is_encoded_without_a_flush(rt: HostRuntime) -> Result<(), Fail> {
    let bytes = data(rt.alloc(), 20_000)?;
    let mut encoder = Encoder::new(Metered::new(Flushes { count: 0 }));
    encoder.write_all(bytes.as_slice())?;
    let writer = encoder.finish()?;
    assert_same(&rt, writer.into_inner().count, 0);
    Ok(())
}

// Returns the error's kind, if any.
fn fault<T: Drop>(outcome: Result<T, io::Error>) -> Option<ErrorKind> {
    outcome.err().map(|e| e.kind())
}

// Asserts that if the writer fails after `room` bytes, the encoder's write fails with the writer's error, each later
// call on the encoder fails with `BrokenPipe`, and the writer gets no more bytes.
fn assert_failed(rt: &impl Abort, alloc: Global, bytes: &[u8], room: usize) -> Result<(), Fail> {
    let whole = chunk(alloc, bytes)?;
    let mut writer = Metered::new(FailsOnce::new(alloc, room));
    let mut encoder = Encoder::new(&mut writer);
    let first = fault(encoder.write(bytes));
    assert_same(rt, (room, first), (room, Some(ErrorKind::TimedOut)));
    let later = [
        fault(encoder.write(b"x")),
        fault(encoder.write(b"")),
        fault(encoder.flush()),
    ];
    assert_same(rt, later, [Some(ErrorKind::BrokenPipe); 3]);
    assert_same(
        rt,
        encoder.finish().err().map(|e| e.kind()),
        Some(ErrorKind::BrokenPipe),
    );
    assert_same(
        rt,
        Some(writer.into_inner().taken.as_slice()),
        whole.get(..room),
    );
    Ok(())
}

#[test]
fn nothing_after_a_fault_of_the_writer(rt: HostRuntime) -> Result<(), Fail> {
    let bytes = data(rt.alloc(), 8192)?;
    for room in [0, 3, 5, 6, 8197, 8198, 8199] {
        assert_failed(&rt, rt.alloc(), bytes.as_slice(), room)?;
    }
    Ok(())
}

#[test]
fn a_dropped_encoder_sends_nothing(rt: HostRuntime) -> Result<(), Fail> {
    let mut writer = Budget::new(rt.alloc(), ROOM, ErrorKind::Other);
    let mut encoder = Encoder::new(&mut writer);
    encoder.write_all(b"hello")?;
    drop(encoder);
    assert_same(&rt, writer.bytes(), b"");
    Ok(())
}
