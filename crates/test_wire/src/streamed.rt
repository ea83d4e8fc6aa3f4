//! Tests of streaming bodies (RFC 9112, sections 6.3 and 7.1).
use crate::same::assert_same;
use std::alloc::Global;
use std::io::{ErrorKind, Write};
use std::test::Fail;
use tiny_http_wire::device::Budget;
use tiny_http_wire::streamed::{Streamed, StreamedForm};

const ROOM: usize = 100_000;

// Writes two bytes to a body in this form, flushes, and writes `more` bytes. Returns what has been sent by then.
fn sent(alloc: Global, form: StreamedForm, more: usize) -> Result<Vec<u8>, Fail> {
    let mut body = Streamed::new(Budget::new(alloc, ROOM, ErrorKind::Other), form);
    body.write_all(b"hi")?;
    body.flush()?;
    for _ in 0..more {
        body.write_all(b"x")?;
    }
    Ok(body.get_ref().bytes().to_vec(alloc)?)
}

// In the forms `Chunks` and `Plain`, bytes are buffered until they fill a piece of 8192 bytes or are flushed. In the
// form `Absent`, no bytes are sent.
#[test]
fn a_piece_is_sent_once_it_is_full(rt: HostRuntime) -> Result<(), Fail> {
    let alloc = rt.alloc();
    for (form, front, full) in [
        (StreamedForm::Chunks, "2\r\nhi\r\n", 7 + 6 + 8192 + 2),
        (StreamedForm::Plain, "hi", 2 + 8192),
        (StreamedForm::Absent, "", 0),
    ] {
        let held = sent(alloc, form, 8191)?;
        assert_same(&rt, held.as_slice(), front.as_bytes());
        assert_same(&rt, sent(alloc, form, 8192)?.len(), full);
    }
    Ok(())
}

// The form determines how a body ends, even an empty one.
#[test]
fn a_body_is_finished(rt: HostRuntime) -> Result<(), Fail> {
    let alloc = rt.alloc();
    for (form, given, wanted) in [
        (StreamedForm::Chunks, "", "0\r\n\r\n"),
        (StreamedForm::Chunks, "you", "3\r\nyou\r\n0\r\n\r\n"),
        (StreamedForm::Plain, "you", "you"),
        (StreamedForm::Absent, "you", ""),
    ] {
        let mut body = Streamed::new(Budget::new(alloc, ROOM, ErrorKind::Other), form);
        body.write_all(given.as_bytes())?;
        let writer = body.finish()?;
        assert_same(&rt, writer.bytes(), wanted.as_bytes());
    }
    Ok(())
}
