//! Tests of the output of `example_greeter`, read as a client reads it, and of how an `AnswerFault` is displayed.
use crate::same::assert_same;
use example_greeter::serve_bytes;
use httpdate::HttpDate;
use std::alloc::Global;
use std::process::Abort;
use std::test::Fail;
use tiny_http_client::answer::{AnswerFault, read_answer};
use tiny_http_wire::common::{HTTPVersion, Method};

// An expected response: whether its request is a HEAD, its version, its status code and its body.
type Wanted = (bool, HTTPVersion, u16, &'static str);

// A GET, a HEAD, a request of a version above 1.1, a request that accepts chunks, and an invalid head.
const CLIENT: &[u8] =
    b"GET / HTTP/1.1\r\n\r\nHEAD /a HTTP/1.1\r\n\r\nGET / HTTP/2.0\r\n\r\nPOST /b HTTP/1.1\r\nTE: chunked\r\n\r\n\
        qsd\r\n";

const V1_1: HTTPVersion = HTTPVersion(1, 1);

const ANSWERS: &[Wanted] = &[
    (false, V1_1, 200, ""),
    (true, V1_1, 404, ""),
    (
        false,
        V1_1,
        505,
        "This server only supports HTTP versions 1.0 and 1.1",
    ),
    (false, V1_1, 404, ""),
    (false, V1_1, 400, ""),
];

// Reads one response, asserts that it is `wanted`, and returns the bytes after it.
fn rest_after<'a>(
    rt: &impl Abort,
    alloc: Global,
    bytes: &'a [u8],
    wanted: &Wanted,
) -> Result<&'a [u8], Fail> {
    let (to_head, version, status, body) = *wanted;
    let method = if to_head { Method::Head } else { Method::Get };
    let outcome = read_answer(alloc, &method, bytes).map_err(|_| "malformed, or no memory")?;
    let (answer, taken) = outcome.ok_or("unfinished")?;
    assert_same(
        rt,
        (answer.version, answer.status.0, answer.body.as_slice()),
        (version, status, body.as_bytes()),
    );
    match bytes.get(taken..) {
        Some(rest) => Ok(rest),
        None => Err("more taken than there is".into()),
    }
}

#[test]
fn each_request_is_answered(rt: HostRuntime) -> Result<(), Fail> {
    let now = HttpDate::from_unix_secs(420_895_020)?;
    let (outlet, _last) = serve_bytes(rt.alloc(), CLIENT.to_vec(rt.alloc())?, now);
    let writer = outlet.into_inner();
    let mut rest = writer.bytes();
    for wanted in ANSWERS {
        rest = rest_after(&rt, rt.alloc(), rest, wanted)?;
    }
    assert_same(&rt, rest.len(), 0);
    Ok(())
}

#[test]
fn faults_are_shown(rt: HostRuntime) -> Result<(), Fail> {
    let malformed = AnswerFault::Malformed;
    let memory = AnswerFault::Memory;
    let shown = format!(in rt.alloc(); "{malformed}, {memory}")?;
    assert_same(&rt, shown.as_str(), "malformed, out of memory");
    Ok(())
}
