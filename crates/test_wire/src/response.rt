//! Tests of responses: creating them, and printing them to several kinds of writers.
use crate::encoder::Flushes;
use crate::same::{assert_holds, assert_same, assert_shown};
use httpdate::HttpDate;
use std::alloc::Global;
use std::io;
use std::io::{Cursor, ErrorKind};
use std::process::Abort;
use std::test::Fail;
use tiny_http_wire::common::{HTTPVersion, Header, StatusCode};
use tiny_http_wire::device::{Budget, Canned, Metered, ReadDevice, WriteDevice};
use tiny_http_wire::response::Response;

const ROOM: usize = 100_000;

fn text(alloc: Global, text: &str) -> Result<Response<Cursor<Vec<u8>>>, Fail> {
    Ok(Response::from_string(alloc, String::from_str(alloc, text)?)?)
}

// Asserts a response's status code, the length of its data, and the number of its headers.
fn assert_answer<R>(rt: &impl Abort, answer: &Response<R>, code: u16, length: usize, count: usize) {
    assert_same(rt, answer.status_code(), StatusCode(code));
    assert_same(rt, answer.data_length(), Some(length));
    assert_same(rt, answer.headers().len(), count);
}

#[test]
fn an_answer_of_a_text(rt: HostRuntime) -> Result<(), Fail> {
    let answer = text(rt.alloc(), "hello world")?;
    assert_answer(&rt, &answer, 200, 11, 1);
    assert_same(&rt, answer.chunked_threshold(), 32768);
    for header in answer.headers() {
        assert_shown(
            &rt,
            rt.alloc(),
            header,
            "Content-Type: text/plain; charset=UTF-8",
        )?;
    }
    Ok(())
}

#[test]
fn an_answer_of_another_code(rt: HostRuntime) -> Result<(), Fail> {
    let answer = text(rt.alloc(), "hello world")?.with_status_code(StatusCode(404));
    assert_same(&rt, answer.status_code(), StatusCode(404));
    let bytes = answer.into_reader().into_inner();
    assert_same(&rt, bytes.as_slice(), b"hello world");
    Ok(())
}

#[test]
fn answers_of_data_and_of_none(rt: HostRuntime) -> Result<(), Fail> {
    let answer = Response::from_data(rt.alloc(), b"ab".to_vec(rt.alloc())?);
    assert_answer(&rt, &answer, 200, 2, 0);
    let answer = Response::empty(rt.alloc(), StatusCode(204));
    assert_answer(&rt, &answer, 204, 0, 0);
    let answer = Response::new_empty(rt.alloc(), StatusCode(204));
    assert_answer(&rt, &answer, 204, 0, 0);
    Ok(())
}

// The request for which a response is printed: its version, its only field line, and the protocol of an upgrade, if
// any.
#[derive(Clone, Copy)]
struct Asking {
    version: HTTPVersion,
    line: &'static str,
    upgrade: Option<&'static str>,
}

const PLAIN: Asking = Asking {
    version: HTTPVersion(1, 1),
    line: "Host: a",
    upgrade: None,
};

// Prints a response into `writer`, and returns the error's kind, if any.
fn print_into<R: ReadDevice + Drop, W: WriteDevice>(
    alloc: Global,
    answer: Response<R>,
    writer: &mut W,
    asking: Asking,
) -> Result<Option<ErrorKind>, Fail> {
    let Asking {
        version,
        line,
        upgrade,
    } = asking;
    let headers = [Header::from_str(alloc, line)?];
    let now = HttpDate::from_unix_secs(420895020)?;
    let outcome = answer.raw_print(alloc, writer, version, &headers, false, upgrade, now);
    Ok(outcome.err().map(|e| e.kind()))
}

// Asserts that a response to `PLAIN` is printed without an error, and that the printed text is `wanted`.
fn assert_printed<R: ReadDevice + Drop>(
    rt: &impl Abort,
    alloc: Global,
    answer: Response<R>,
    wanted: &str,
) -> Result<(), Fail> {
    let mut writer = Budget::new(alloc, ROOM, ErrorKind::Other);
    let fault = print_into(alloc, answer, &mut writer, PLAIN)?;
    assert_same(rt, str::from_utf8(writer.bytes())?, wanted);
    assert_same(rt, (fault, writer.failures()), (None, 0));
    Ok(())
}

// Returns how many times printing a response flushes the writer.
fn flushes<R: ReadDevice + Drop>(
    alloc: Global,
    answer: Response<R>,
    asking: Asking,
) -> Result<u64, Fail> {
    let mut writer = Metered::new(Flushes { count: 0 });
    let _fault = print_into(alloc, answer, &mut writer, asking)?;
    Ok(writer.into_inner().count)
}

// Builds a response with three bytes of data of unknown length.
fn stream(alloc: Global) -> Result<Response<Canned>, Fail> {
    let data = Canned::new(b"abc".to_vec(alloc)?, None);
    Ok(Response::empty(alloc, StatusCode(200)).with_data(data, None))
}

// Each form of a body is printed without a flush: with a content length, in chunks, collected for HTTP/1.0, and in an
// upgrade.
#[test]
fn an_answer_is_printed_without_a_flush(rt: HostRuntime) -> Result<(), Fail> {
    let alloc = rt.alloc();
    let chunks = Asking {
        line: "TE: chunked",
        ..PLAIN
    };
    let older = Asking {
        version: HTTPVersion(1, 0),
        ..PLAIN
    };
    let upgrade = Asking {
        upgrade: Some("websocket"),
        ..PLAIN
    };
    let counts = [
        flushes(alloc, text(alloc, "a")?, PLAIN)?,
        flushes(alloc, text(alloc, "a")?, chunks)?,
        flushes(alloc, stream(alloc)?, older)?,
        flushes(alloc, text(alloc, "a")?, upgrade)?,
    ];
    assert_same(&rt, counts, [0; 4]);
    Ok(())
}

// Adds a header to a response.
fn with_header<R: Drop>(
    alloc: Global,
    answer: Response<R>,
    line: &str,
) -> Result<Response<R>, Fail> {
    answer
        .with_header(Header::from_str(alloc, line)?)
        .ok()
        .ok_or_else(|| Fail::from("no memory for a header"))
}

const CHAINED: &str =
    "HTTP/1.1 201 Created\r\nServer: tiny-http (Rust)\r\nDate: Wed, 04 May 1983 11:17:00 GMT\r\nContent-Type: a/b\r\n\
        X: 1\r\nContent-Length: 2\r\n\r\nhi";

#[test]
fn builders_in_a_chain(rt: HostRuntime) -> Result<(), Fail> {
    let alloc = rt.alloc();
    let answer = text(alloc, "hello")?
        .with_status_code(StatusCode(201))
        .with_chunked_threshold(77);
    let answer = with_header(alloc, answer, "content-type: a/b")?;
    let answer = with_header(alloc, answer, "X: 1")?;
    let other = Response::from_data(alloc, b"hi".to_vec(alloc)?).into_reader();
    let answer = answer.with_data(other, Some(2));
    assert_same(&rt, answer.chunked_threshold(), 77);
    assert_printed(&rt, alloc, answer, CHAINED)
}

// A second Content-Type replaces the first, the last valid Content-Length sets the length, and Connection is ignored.
#[test]
fn headers_that_are_not_added(rt: HostRuntime) -> Result<(), Fail> {
    let alloc = rt.alloc();
    let mut answer = text(alloc, "x")?;
    for line in [
        "Content-Type: a/b",
        "Content-Length: 7",
        "Content-Length: y",
        "Connection: close",
    ] {
        answer = with_header(alloc, answer, line)?;
    }
    assert_answer(&rt, &answer, 200, 7, 1);
    for header in answer.headers() {
        assert_shown(&rt, alloc, header, "Content-Type: a/b")?;
    }
    Ok(())
}

#[test]
fn other_data_of_unknown_length(rt: HostRuntime) -> Result<(), Fail> {
    let answer = Response::empty(rt.alloc(), StatusCode(404)).with_chunked_threshold(5);
    let answer = answer.with_data(io::empty(), None);
    assert_same(&rt, answer.data_length(), None);
    assert_same(&rt, answer.chunked_threshold(), 5);
    assert_same(&rt, answer.status_code(), StatusCode(404));
    assert_holds(&rt, "no headers", answer.headers().is_empty());
    assert_same(&rt, answer.upgrade_offer(), None);
    assert_holds(&rt, "it closes nothing", !answer.closes());
    Ok(())
}

mod calls;
mod file;
mod making;
mod readable;
