//! Tests of `Corked`, which buffers what is written, and of `ReadAhead`, which buffers what is read.
ghost use Rattle.std.specs.Prelude.{⊤};

use crate::same::assert_same;
use std::alloc::Global;
use std::io::ErrorKind;
use std::process::Abort;
use tiny_http_socket::corked::Corked;
use tiny_http_socket::read_ahead::{BeforeRead, ReadAhead};
use tiny_http_wire::device::{Budget, ByPieces, Canned, WriteDevice};

// Creates a writer that accepts `room` bytes, with an empty buffer.
fn corked_of(alloc: Global, room: usize) -> Corked<Budget> {
    let writer = Budget::new(alloc, room, ErrorKind::BrokenPipe);
    Corked::new(alloc, writer)
}

// Asserts that one write accepts all of these bytes.
fn assert_takes(rt: &impl Abort, corked: &mut Corked<Budget>, bytes: &[u8]) {
    let taken = corked.write_out(bytes).expect(rt, "they are taken");
    assert_same(rt, taken, bytes.len());
}

// Asserts that bytes that fit are buffered, and that a flush sends them.
fn assert_waits(rt: &impl Abort, alloc: Global) {
    let mut corked = corked_of(alloc, 100);
    assert_takes(rt, &mut corked, b"ab");
    assert_takes(rt, &mut corked, b"c");
    assert_same(rt, corked.waiting(), b"abc".as_slice());
    corked.flush_out().expect(rt, "it is sent");
    assert_same(rt, corked.waiting(), b"".as_slice());
    assert_same(rt, corked.into_inner().bytes(), b"abc".as_slice());
}

// Asserts that a large piece bypasses the buffer, and is sent after the buffered bytes.
fn assert_goes_past(rt: &impl Abort, alloc: Global) {
    let mut corked = corked_of(alloc, 100_000);
    assert_takes(rt, &mut corked, b"ab");
    let piece = vec![in alloc; b'A'; 20_000].expect(rt, "memory");
    assert_takes(rt, &mut corked, &piece);
    assert_same(rt, corked.waiting(), b"".as_slice());
    let sent = corked.into_inner().into_bytes();
    assert_same(rt, sent.len(), 20_002);
    assert_same(rt, sent.get(..3), Some(b"abA".as_slice()));
}

// Writes one byte, and returns the error's kind, if any.
fn fault_of(corked: &mut Corked<Budget>) -> Option<ErrorKind> {
    corked.write_out(b"x").err().map(|fault| fault.kind())
}

// Asserts that an error in sending the buffered bytes is reported once, by the next write, and is counted as a failure
// only then.
fn assert_tells_once(rt: &impl Abort, alloc: Global) {
    let mut corked = corked_of(alloc, 3);
    assert_takes(rt, &mut corked, b"abcd");
    corked.send_waiting();
    assert_same(rt, corked.failures(), 0);
    assert_same(rt, fault_of(&mut corked), Some(ErrorKind::BrokenPipe));
    assert_same(rt, fault_of(&mut corked), None);
    assert_same(rt, corked.failures(), 1);
    assert_same(rt, corked.into_inner().bytes(), b"abc".as_slice());
}

#[test]
fn what_is_written_waits(rt: HostRuntime) {
    assert_waits(&rt, rt.alloc());
    assert_goes_past(&rt, rt.alloc());
    assert_tells_once(&rt, rt.alloc());
}

// The number of calls to `before_read`, which precedes each call to the reader.
#[derive(Drop)]
struct Calls(u32);

impl BeforeRead for Calls {
    // Contracts state nothing about the calls: a test asserts their number.
    ghost does = { λ _ _. ⊤ };

    fn before_read(&mut self) {
        self.0 = self.0.saturating_add(1);
    }
}

// Asserts the next bytes, and the number of calls to the reader by then.
fn assert_next(
    rt: &impl Abort,
    ahead: &mut ReadAhead<ByPieces<Canned>>,
    calls: &mut Calls,
    row: (&[u8], u32),
) {
    let (wanted, count) = row;
    let mut buf = [0u8; 2];
    let n = ahead.read_after(calls, &mut buf).expect(rt, "it reads");
    assert_same(rt, (buf.get(..n), calls.0), (Some(wanted), count));
}

// Asserts that a reader that returns three bytes a call is called only when no byte is left in the buffer.
fn assert_reads_ahead(rt: &impl Abort, alloc: Global) {
    let bytes = b"abcdef".to_vec(alloc).expect(rt, "memory");
    let reader = ByPieces::new(Canned::new(bytes, None), 3);
    let mut ahead = ReadAhead::new(alloc, reader);
    let mut calls = Calls(0);
    let rows: [(&[u8], u32); 5] = [(b"ab", 1), (b"c", 1), (b"de", 2), (b"f", 2), (b"", 3)];
    for row in rows {
        assert_next(rt, &mut ahead, &mut calls, row);
    }
}

#[test]
fn what_is_read_ahead_is_given_first(rt: HostRuntime) {
    assert_reads_ahead(&rt, rt.alloc());
}
