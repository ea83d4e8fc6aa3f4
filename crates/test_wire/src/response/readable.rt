//! Tests of header fields that a client reads as intended, and of some that it doesn't (RFC 9110, section 5.5; RFC
//! 9112, section 5).
use crate::same::assert_same;
use std::alloc::Global;
use std::io;
use std::process::Abort;
use std::test::Fail;
use tiny_http_wire::common::{Header, StatusCode};
use tiny_http_wire::response::Response;

// Field names and values, and whether a client reads them as intended.
const ROWS: [(&str, &str, bool); 14] = [
    ("Location", "/a", true),
    ("X", "", true),
    ("X", "a\rb", true),
    ("X", "a\nb", true),
    ("X", "a b", true),
    ("X:Y", "a", false),
    ("X Y", "a", false),
    ("X", " a", false),
    ("X", "\ta", false),
    ("X", "a ", false),
    ("X", "a\t", false),
    ("X", " ", false),
    ("Location", "/a\r\nSet-Cookie: x=1", false),
    ("X", "\r\n", false),
];

// Adds this header field to a response.
fn with_field(
    alloc: Global,
    answer: Response<io::Empty>,
    name: &str,
    value: &str,
) -> Result<Response<io::Empty>, Fail> {
    let name = name.as_bytes().to_vec(alloc)?;
    let Ok(header) = Header::from_bytes(name, value.as_bytes().to_vec(alloc)?) else {
        return Err("not ASCII".into());
    };
    match answer.with_header(header) {
        Ok(answer) => Ok(answer),
        Err(_) => Err("no memory".into()),
    }
}

// Asserts that a response with this field, alone or among others, is readable exactly if the row says so.
fn assert_row(rt: &impl Abort, alloc: Global, row: (&str, &str, bool)) -> Result<(), Fail> {
    let (name, value, _) = row;
    let answer = with_field(alloc, Response::empty(alloc, StatusCode(302)), name, value)?;
    assert_same(rt, (name, value, answer.is_readable()), row);
    let answer = with_field(alloc, Response::empty(alloc, StatusCode(302)), "A", "1")?;
    let answer = with_field(alloc, answer, name, value)?;
    let answer = with_field(alloc, answer, "B", "2")?;
    assert_same(rt, (name, value, answer.is_readable()), row);
    Ok(())
}

#[test]
fn headers_that_a_client_reads(rt: HostRuntime) -> Result<(), Fail> {
    let none = Response::empty(rt.alloc(), StatusCode(302));
    assert_same(&rt, none.is_readable(), true);
    for row in ROWS {
        assert_row(&rt, rt.alloc(), row)?;
    }
    Ok(())
}
