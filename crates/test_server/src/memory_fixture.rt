//! Connections over memory whose output a test can inspect.
use httpdate::HttpDate;
use std::alloc::{AllocError, Global};
use std::io::ErrorKind;
use std::process::Abort;
use std::sync::Wait;
use std::sync::atomic::{AtomicU64, Ordering};
use std::test::Fail;
use std::time::{Clock, Duration};
use std::{io, thread};
use tiny_http_request::client::ClientConnection;
use tiny_http_request::request::Request;
use tiny_http_request::test::Recorder;
use tiny_http_wire::device::Canned;
use tiny_http_wire::response::Response;

/// The response to a dropped request: an empty 500 in version 1.1.
pub(crate) const DROPPED: &str =
    "HTTP/1.1 500 Internal Server Error\r\nServer: tiny-http (Rust)\r\nDate: Wed, 04 May 1983 11:17:00 GMT\r\n\
        Content-Length: 0\r\n\r\n";

/// The head of a 200 response with a text, up to its `Content-Length` field.
pub(crate) const TEXT: &str =
    "HTTP/1.1 200 OK\r\nServer: tiny-http (Rust)\r\nDate: Wed, 04 May 1983 11:17:00 GMT\r\n\
        Content-Type: text/plain; charset=UTF-8\r\n";

/// Returns Wed, 04 May 1983 11:17:00 GMT.
pub(crate) fn now() -> Result<HttpDate, Fail> {
    Ok(HttpDate::from_unix_secs(420_895_020)?)
}

/// Waits until `count` is at least `want`, for at most 10,000 sleeps of 1 ms. Returns whether `count` reached `want`.
pub(crate) fn is_reached<R: Clock>(rt: &R, count: &AtomicU64, want: u64) -> bool {
    for _ in 0..10_000u32 {
        if count.load(Ordering::SeqCst) >= want {
            return true;
        }
        thread::sleep(rt, Duration::from_millis(1));
    }
    false
}

/// A request over memory.
pub(crate) type Asked<R> = Request<Canned, Recorder<R>, R>;

/// A connection over memory, and its output.
#[derive(Drop)]
pub(crate) struct Bench<R: Wait + Copy> {
    pub client: ClientConnection<Canned, Recorder<R>, R>,
    pub output: Recorder<R>,
}

/// Creates a connection that reads from `client`.
pub(crate) fn connect_to<R: Wait + Copy>(
    rt: R,
    alloc: Global,
    client: Canned,
) -> Result<Bench<R>, AllocError> {
    let output = Recorder::new(rt, alloc)?;
    let client = ClientConnection::over(rt, alloc, output.try_clone()?, client, None, false)?;
    Ok(Bench { client, output })
}

/// Creates a client that sends these bytes and then ends, or fails with `stop`.
pub(crate) fn client(
    alloc: Global,
    bytes: &[u8],
    stop: Option<ErrorKind>,
) -> Result<Canned, AllocError> {
    Ok(Canned::new(bytes.to_vec(alloc)?, stop))
}

/// Creates a connection to a client that sends these bytes and then ends.
pub(crate) fn connect<R: Wait + Copy>(
    rt: R,
    alloc: Global,
    client: &[u8],
) -> Result<Bench<R>, AllocError> {
    connect_to(rt, alloc, self::client(alloc, client, None)?)
}

/// Returns the next request, or an error if there is none.
pub(crate) fn next<R: Wait + Copy>(bench: &mut Bench<R>) -> Result<Asked<R>, Fail> {
    match bench.client.next(now()?)? {
        Some(request) => Ok(request),
        None => Err("no request".into()),
    }
}

/// Asserts that the output is this text.
pub(crate) fn assert_output<R: Wait + Copy + Abort>(
    rt: &R,
    output: &Recorder<R>,
    wanted: &str,
) -> Result<(), Fail> {
    let bytes = output.bytes()?;
    assert_eq!(rt; str::from_utf8(bytes.as_slice())?, wanted);
    Ok(())
}

/// Builds a 200 response with this text.
pub(crate) fn text(alloc: Global, text: &str) -> Result<Response<io::Cursor<Vec<u8>>>, AllocError> {
    Response::from_string(alloc, String::from_str(alloc, text)?)
}
