//! Tests of readers and writers in memory.
use crate::same::{assert_holds, assert_same};
use std::alloc::Global;
use std::io;
use std::io::{Cursor, ErrorKind, Write};
use std::process::Abort;
use std::test::Fail;
use tiny_http_wire::device::{
    Budget, ByPieces, Canned, FailsAt, Metered, ReadDevice, WriteDevice, put, put_all, read_front,
};

// Reads once. Returns the bytes, or the error's kind.
fn read<'a, R: ReadDevice>(reader: &mut R, buf: &'a mut [u8]) -> Result<&'a [u8], ErrorKind> {
    match reader.read_in(buf) {
        Ok(n) => Ok(&buf[..n]),
        Err(e) => Err(e.kind()),
    }
}

// Asserts the results of the next three reads, each of up to four bytes.
fn reads<R: ReadDevice>(rt: &impl Abort, reader: &mut R, wanted: [Result<&[u8], ErrorKind>; 3]) {
    let mut buf = [0u8; 4];
    for want in wanted {
        assert_same(rt, read(reader, &mut buf), want);
    }
}

const ALL: [Result<&[u8], ErrorKind>; 3] = [Ok(b"hell"), Ok(b"o"), Ok(b"")];

#[test]
fn a_canned_reader_ends(rt: HostRuntime) -> Result<(), Fail> {
    let mut ends = Canned::new(b"hello".to_vec(rt.alloc())?, None);
    reads(&rt, &mut ends, ALL);
    Ok(())
}

#[test]
fn a_canned_reader_fails(rt: HostRuntime) -> Result<(), Fail> {
    let late = Err(ErrorKind::TimedOut);
    let mut fails = Canned::new(b"hello".to_vec(rt.alloc())?, Some(ErrorKind::TimedOut));
    reads(&rt, &mut fails, [Ok(b"hell"), Ok(b"o"), late]);
    reads(&rt, &mut &mut fails, [late; 3]);
    Ok(())
}

#[test]
fn a_reader_gives_pieces(rt: HostRuntime) -> Result<(), Fail> {
    for (most, wanted) in [
        (0, [Ok(b"h".as_slice()), Ok(b"e"), Ok(b"l")]),
        (3, [Ok(b"hel"), Ok(b"lo"), Ok(b"")]),
        (1024, ALL),
    ] {
        let whole = Canned::new(b"hello".to_vec(rt.alloc())?, None);
        reads(&rt, &mut ByPieces::new(whole, most), wanted);
    }
    Ok(())
}

#[test]
fn a_reader_fails_once(rt: HostRuntime) -> Result<(), Fail> {
    let whole = Canned::new(b"hello".to_vec(rt.alloc())?, None);
    let mut fails = FailsAt::new(whole, 2, ErrorKind::TimedOut);
    assert_holds(&rt, "no read failed", !fails.has_failed());
    let late = Err(ErrorKind::TimedOut);
    reads(&rt, &mut fails, [Ok(b"hell"), late, Ok(b"o")]);
    assert_holds(&rt, "a read failed", fails.has_failed());
    Ok(())
}

// Writes twice and flushes. Returns the results of the three calls.
fn write_twice(writer: &mut FailsAt<Slow>) -> [Result<usize, ErrorKind>; 3] {
    [
        writer.write(b"hello").map_err(|e| e.kind()),
        writer.write(b"wo").map_err(|e| e.kind()),
        writer.flush().map(|()| 0).map_err(|e| e.kind()),
    ]
}

// If `FailsAt` injects no fault into a flush, the flush reaches the inner stream, whose flushes fail with another kind
// of error.
#[test]
fn a_writer_fails_once(rt: HostRuntime) {
    let late = Err(ErrorKind::TimedOut);
    let flushed = Err(ErrorKind::ConnectionReset);
    for (nth, wanted, taken) in [
        (0, [Ok(2), Ok(2), flushed], b"hewo".as_slice()),
        (1, [late, Ok(2), flushed], b"wo"),
        (3, [Ok(2), Ok(2), late], b"hewo"),
    ] {
        let mut writer = FailsAt::new(Slow(Vec::new(rt.alloc())), nth, ErrorKind::TimedOut);
        assert_same(&rt, write_twice(&mut writer), wanted);
        assert_same(&rt, writer.has_failed(), nth > 0);
        let Slow(found) = writer.into_inner();
        assert_same(&rt, found.as_slice(), taken);
    }
}

#[test]
fn readers_of_std_end(rt: HostRuntime) -> Result<(), Fail> {
    let mut cursor = Cursor::new(b"hello".to_vec(rt.alloc())?);
    reads(&rt, &mut cursor, ALL);
    reads(&rt, &mut io::empty(), [Ok(b""); 3]);
    Ok(())
}

#[test]
fn a_metered_reader_ends(rt: HostRuntime) -> Result<(), Fail> {
    let mut metered = Metered::new(Cursor::new(b"hello".to_vec(rt.alloc())?));
    reads(&rt, &mut metered, ALL);
    assert_same(&rt, metered.into_inner().position(), 5);
    Ok(())
}

// Returns the error's kind, if any.
fn kind_of<T: Copy>(outcome: Result<T, io::Error>) -> Option<ErrorKind> {
    match outcome {
        Ok(_) => None,
        Err(e) => Some(e.kind()),
    }
}

// Asserts that a read of at most `most` bytes returns these bytes and leaves the rest of the buffer unchanged, and that
// a read into an empty buffer returns 0.
fn assert_front(
    rt: &impl Abort,
    reader: &mut Canned,
    most: usize,
    (count, wanted): (usize, &[u8; 4]),
) -> Result<(), Fail> {
    let mut buf = [b'.'; 4];
    let n = read_front(reader, most, &mut buf)?;
    assert_same(rt, (n, &buf), (count, wanted));
    assert_same(rt, read_front(reader, most, &mut [])?, 0);
    Ok(())
}

// Asserts that the next read fails with the reader's error.
fn assert_no_front(rt: &impl Abort, reader: &mut Canned) {
    let mut buf = [0u8; 4];
    let fault = kind_of(read_front(reader, 1, &mut buf));
    assert_same(rt, fault, Some(ErrorKind::TimedOut));
}

#[test]
fn a_front_is_read_alone(rt: HostRuntime) -> Result<(), Fail> {
    let mut reader = Canned::new(b"hello".to_vec(rt.alloc())?, Some(ErrorKind::TimedOut));
    for (most, count, wanted) in [
        (0, 0, b"...."),
        (2, 2, b"he.."),
        (9, 3, b"llo."),
        (0, 0, b"...."),
    ] {
        assert_front(&rt, &mut reader, most, (count, wanted))?;
    }
    assert_no_front(&rt, &mut reader);
    Ok(())
}

// Asserts that a budget accepts `hello`, an empty list of pieces, and a flush, all without an error.
fn assert_taken(rt: &impl Abort, budget: &mut Budget) -> Result<(), Fail> {
    put(budget, b"hello")?;
    put_all(budget, &[])?;
    budget.flush_out()?;
    assert_same(rt, budget.failures(), 0);
    Ok(())
}

// Asserts that writing more than a budget has room for fails, and that `count` writes have failed by then.
fn assert_failing(rt: &impl Abort, mut budget: &mut Budget, count: u64) {
    let fault = kind_of(put_all(&mut budget, &[b" ", b"world"]));
    let found = (fault, WriteDevice::failures(&budget));
    assert_same(rt, found, (Some(ErrorKind::BrokenPipe), count));
}

#[test]
fn a_budget_takes_its_bytes_and_then_fails(rt: HostRuntime) -> Result<(), Fail> {
    let mut budget = Budget::new(rt.alloc(), 7, ErrorKind::BrokenPipe);
    assert_taken(&rt, &mut budget)?;
    assert_failing(&rt, &mut budget, 1);
    assert_failing(&rt, &mut budget, 2);
    assert_same(&rt, budget.bytes(), b"hello w");
    Ok(())
}

// A budget with enough room accepts writes of more than 65,536 bytes, and more than 131,072 bytes in all.
#[test]
fn a_budget_takes_many_bytes(rt: HostRuntime) -> Result<(), Fail> {
    let bytes = [b'x'; 65_537];
    let mut budget = Budget::new(rt.alloc(), 200_000, ErrorKind::BrokenPipe);
    put_all(&mut budget, &[&bytes, &bytes])?;
    assert_same(&rt, budget.into_bytes().len(), 131_074);
    Ok(())
}

// A writer that accepts at most two bytes a call, and no byte of a buffer that begins with `!`. Its flushes fail.
#[derive(Drop)]
struct Slow(Vec<u8>);

impl Write for Slow {
    fn write(&mut self, buf: &[u8]) -> io::Result<usize> {
        if buf.starts_with(b"!") {
            return Ok(0);
        }
        let count = buf.len().min(2);
        self.0.extend_from_slice(&buf[..count])?;
        Ok(count)
    }

    fn flush(&mut self) -> io::Result<()> {
        Err(ErrorKind::ConnectionReset.into())
    }
}

// Asserts that bytes are accepted without an error, and that an empty write returns 0.
fn assert_slowly_taken(rt: &impl Abort, metered: &mut Metered<Slow>) -> Result<(), Fail> {
    put(metered, b"hello")?;
    assert_same(rt, metered.failures(), 0);
    assert_same(rt, metered.write_out(b"")?, 0);
    Ok(())
}

// Asserts that a write fails and is counted, and that a flush fails.
fn assert_counted(rt: &impl Abort, metered: &mut Metered<Slow>) {
    let fault = kind_of(metered.write_out(b"!"));
    assert_same(rt, fault, Some(ErrorKind::WriteZero));
    assert_same(rt, metered.failures(), 1);
    let fault = kind_of(metered.flush_out());
    assert_same(rt, fault, Some(ErrorKind::ConnectionReset));
}

// Asserts that a flush through a borrow fails, and is counted as the third failure.
fn assert_lent(rt: &impl Abort, mut metered: &mut Metered<Slow>) {
    let lent = (&mut metered).flush_out();
    assert_holds(rt, "a lent writer fails", lent.is_err());
    assert_same(rt, metered.failures(), 3);
}

#[test]
fn a_metered_writer_counts_its_faults(rt: HostRuntime) -> Result<(), Fail> {
    let mut metered = Metered::new(Slow(Vec::new(rt.alloc())));
    assert_slowly_taken(&rt, &mut metered)?;
    assert_counted(&rt, &mut metered);
    assert_lent(&rt, &mut metered);
    let Slow(taken) = metered.into_inner();
    assert_same(&rt, taken.as_slice(), b"hello");
    Ok(())
}
