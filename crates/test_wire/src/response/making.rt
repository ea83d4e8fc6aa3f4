//! Tests of responses made from texts and status codes, and of headers made from texts.
use super::{Asking, PLAIN, ROOM, assert_answer, assert_printed, print_into};
use crate::same::{assert_same, assert_shown};
use std::alloc::Global;
use std::io;
use std::io::{Cursor, ErrorKind};
use std::process::Abort;
use std::test::Fail;
use tiny_http_wire::common::{HTTPVersion, Header, ParseError, StatusCode};
use tiny_http_wire::device::Budget;
use tiny_http_wire::response::{NotAdded, Refused, Response};

// Names and values from which a header can be made (RFC 9110, sections 5.5, 5.6.2, 8.3, 8.8.3 and 10.2.1).
const MADE: [(&str, &str); 6] = [
    ("Content-Type", "text/html; charset=ISO-8859-4"),
    ("ETag", "\"xyzzy\""),
    ("Allow", ""),
    ("!#$%&'*+-.^_`|~09AZaz", "!\"(),/:;<=>?@[\\]{}~"),
    ("X", "a\t b"),
    ("X", "a:b"),
];

// Names and values that are refused: a name that is empty, or has delimiters, white space or non-ASCII characters; a
// value with leading or trailing white space, control characters or non-ASCII characters.
const REFUSED: [(&str, &str); 17] = [
    ("", "a"),
    ("X Y", "a"),
    ("X:", "a"),
    ("X\t", "a"),
    ("(X)", "a"),
    ("X\r\nY", "a"),
    ("Caf\u{e9}", "a"),
    ("X", " a"),
    ("X", "a "),
    ("X", "\ta"),
    ("X", " "),
    ("X", "a\rb"),
    ("X", "a\nb"),
    ("X", "a\r\nSet-Cookie: b=c"),
    ("X", "a\0b"),
    ("X", "a\u{7f}"),
    ("X", "caf\u{e9}"),
];

// Asserts that the header made from this name and this value has them.
fn assert_made(rt: &impl Abort, alloc: Global, name: &str, value: &str) -> Result<(), Fail> {
    let header = Header::new(alloc, name, value)?;
    assert_same(rt, header.field.as_str().as_str(), name);
    assert_same(rt, header.value.as_str(), value);
    Ok(())
}

#[test]
fn headers_of_texts(rt: HostRuntime) -> Result<(), Fail> {
    for (name, value) in MADE {
        assert_made(&rt, rt.alloc(), name, value)?;
    }
    for (name, value) in REFUSED {
        let fault = Header::new(rt.alloc(), name, value).err();
        assert_same(
            &rt,
            (name, value, fault),
            (name, value, Some(ParseError::Refused)),
        );
    }
    Ok(())
}

// Builds a 405 response with headers made from texts, in a function that returns an `io::Result` (RFC 9110, section
// 15.5.6).
fn not_allowed(alloc: Global, allowed: &str) -> io::Result<Response<Cursor<Vec<u8>>>> {
    let answer = Response::status(alloc, StatusCode(405))?;
    let answer = answer.with(alloc, "Allow", allowed)?;
    let answer = answer.with(alloc, "content-type", "text/plain")?;
    Ok(answer.with(alloc, "Connection", "close")?)
}

const NOT_ALLOWED: &str =
    "HTTP/1.1 405 Method Not Allowed\r\nServer: tiny-http (Rust)\r\nDate: Wed, 04 May 1983 11:17:00 GMT\r\n\
        Content-Type: text/plain\r\nAllow: GET, HEAD\r\nContent-Length: 22\r\n\r\n405 Method Not Allowed";

#[test]
fn an_answer_with_headers_of_texts(rt: HostRuntime) -> Result<(), Fail> {
    let answer = not_allowed(rt.alloc(), "GET, HEAD")?;
    assert_printed(&rt, rt.alloc(), answer, NOT_ALLOWED)?;
    let fault = not_allowed(rt.alloc(), "GET\r\nX: 1").err();
    assert_same(&rt, fault.map(|e| e.kind()), Some(ErrorKind::InvalidInput));
    Ok(())
}

// Asserts that the response made from a status code has this code, `text` as its data, and a single header, which is
// the Content-Type of plain text.
fn assert_status(rt: &impl Abort, alloc: Global, code: u16, text: &str) -> Result<(), Fail> {
    let answer = Response::status(alloc, StatusCode(code))?;
    assert_answer(rt, &answer, code, text.len(), 1);
    for header in answer.headers() {
        assert_shown(rt, alloc, header, "Content-Type: text/plain; charset=UTF-8")?;
    }
    let bytes = answer.into_reader().into_inner();
    assert_same(rt, bytes.as_slice(), text.as_bytes());
    Ok(())
}

#[test]
fn answers_of_codes(rt: HostRuntime) -> Result<(), Fail> {
    assert_status(&rt, rt.alloc(), 200, "200 OK")?;
    assert_status(&rt, rt.alloc(), 404, "404 Not Found")?;
    assert_status(&rt, rt.alloc(), 7, "7 Unknown")
}

#[test]
fn an_answer_of_data(rt: HostRuntime) -> Result<(), Fail> {
    let data = Cursor::new(b"ab".to_vec(rt.alloc())?);
    let answer = Response::of(rt.alloc(), StatusCode(203), data, Some(2));
    assert_answer(&rt, &answer, 203, 2, 0);
    assert_same(&rt, answer.chunked_threshold(), 32768);
    let unknown = Response::of(rt.alloc(), StatusCode(200), io::empty(), None);
    assert_same(&rt, unknown.data_length(), None);
    Ok(())
}

// Asserts that a response to this request is printed without an error, and that the printed text is `wanted`.
fn assert_asked(
    rt: &impl Abort,
    alloc: Global,
    answer: Response<io::Empty>,
    asking: Asking,
    wanted: &str,
) -> Result<(), Fail> {
    let mut writer = Budget::new(alloc, ROOM, ErrorKind::Other);
    let fault = print_into(alloc, answer, &mut writer, asking)?;
    assert_same(rt, str::from_utf8(writer.bytes())?, wanted);
    assert_same(rt, fault, None);
    Ok(())
}

const NOT_MODIFIED: &str =
    "HTTP/1.1 304 Not Modified\r\nServer: tiny-http (Rust)\r\nDate: Wed, 04 May 1983 11:17:00 GMT\r\n\r\n";

const NO_CONTENT: &str =
    "HTTP/1.0 204 No Content\r\nServer: tiny-http (Rust)\r\nDate: Wed, 04 May 1983 11:17:00 GMT\r\n\r\n";

// The 304 and 204 responses that `contentless` makes have neither a content length nor a transfer coding (RFC 9110,
// section 8.6; RFC 9112, section 6.1).
#[test]
fn answers_without_content(rt: HostRuntime) -> Result<(), Fail> {
    let alloc = rt.alloc();
    let chunks = Asking {
        line: "TE: chunked",
        ..PLAIN
    };
    let older = Asking {
        version: HTTPVersion(1, 0),
        ..PLAIN
    };
    let not_modified = Response::contentless(alloc, StatusCode(304));
    assert_asked(&rt, alloc, not_modified.try_clone()?, PLAIN, NOT_MODIFIED)?;
    assert_asked(&rt, alloc, not_modified, chunks, NOT_MODIFIED)?;
    let no_content = Response::contentless(alloc, StatusCode(204));
    assert_asked(&rt, alloc, no_content, older, NO_CONTENT)
}

const EMPTY: &str =
    "HTTP/1.1 304 Not Modified\r\nServer: tiny-http (Rust)\r\nDate: Wed, 04 May 1983 11:17:00 GMT\r\n\
        Content-Length: 0\r\n\r\n";

const OK: &str =
    "HTTP/1.1 200 OK\r\nServer: tiny-http (Rust)\r\nDate: Wed, 04 May 1983 11:17:00 GMT\r\nContent-Length: 0\r\n\r\n";

// `empty` states the length 0, and so does `contentless` for a status whose response has content.
#[test]
fn answers_of_length_0(rt: HostRuntime) -> Result<(), Fail> {
    let alloc = rt.alloc();
    assert_printed(&rt, alloc, Response::empty(alloc, StatusCode(304)), EMPTY)?;
    assert_printed(
        &rt,
        alloc,
        Response::contentless(alloc, StatusCode(200)),
        OK,
    )
}

fn kind<E>(error: E) -> ErrorKind
where
    io::Error: From<E>,
{
    io::Error::from(error).kind()
}

#[test]
fn faults_of_input_and_output(rt: HostRuntime) -> Result<(), Fail> {
    let alloc = rt.alloc();
    let response = Response::empty(alloc, StatusCode(200));
    let header = Header::new(alloc, "A", "1")?;
    assert_same(&rt, kind(ParseError::Refused), ErrorKind::InvalidInput);
    assert_same(&rt, kind(ParseError::Memory), ErrorKind::OutOfMemory);
    assert_same(&rt, kind(header.try_clone()?), ErrorKind::OutOfMemory);
    assert_same(
        &rt,
        kind(NotAdded { response, header }),
        ErrorKind::OutOfMemory,
    );
    let refused = Refused {
        reader: io::empty(),
    };
    assert_same(&rt, kind(refused), ErrorKind::OutOfMemory);
    Ok(())
}
