//! Starts servers, connects clients, responds to requests, and asserts what clients read. A failure here ends the test,
//! unless a function returns it.
use crate::same::assert_same;
use std::alloc::{AllocError, Global};
use std::io;
use std::io::{ErrorKind, Read, Write};
use std::net::TcpStream;
use std::process::Abort;
use std::sync::Wait;
use std::time::{Clock, Duration};
use tiny_http::response::Response;
use tiny_http::server::{Server, ServerRequest, ServerRuntime, current_date};

/// Maximum number of reads of 1 ms each before reading fails with a timeout.
pub const TURNS: u32 = 10_000;

/// The `Server` and `Date` field lines of a response, without the value of `Date`.
pub const DATED: &str = "Server: tiny-http (Rust)\r\nDate: \r\n";

/// A runtime with what a server and its clients need, which can abort a test that fails.
pub trait Host: ServerRuntime + Sync + Abort {}

impl<R: ServerRuntime + Sync + Abort> Host for R {}

/// Starts a server that listens on loopback.
pub fn serve<R: Host>(rt: &R, alloc: Global) -> Server<R> {
    Server::http(*rt, alloc, "127.0.0.1:0").expect(rt, "a server")
}

/// Connects a client to `server`, with a read timeout of 1 ms.
pub fn connect<R: Host>(rt: &R, server: &Server<R>) -> TcpStream {
    let addr = server.server_addr().to_ip().expect(rt, "an address of TCP");
    let client = TcpStream::connect(rt, addr).expect(rt, "a client");
    let timed = client.set_read_timeout(Some(Duration::from_millis(1)));
    timed.expect(rt, "reads that wait for 1 ms");
    client
}

/// Sends `bytes`.
pub fn send_bytes<S: Write>(rt: &impl Abort, stream: &mut S, bytes: &[u8]) {
    stream.write_all(bytes).expect(rt, "it is sent");
}

/// Sends `text`.
pub fn send<S: Write>(rt: &impl Abort, stream: &mut S, text: &str) {
    send_bytes(rt, stream, text.as_bytes());
}

/// Reads until a read does not time out, and returns the result of that read. After `TURNS` reads that timed out, fails
/// with `TimedOut`.
pub fn read_once<S: Read>(stream: &mut S, buf: &mut [u8]) -> io::Result<usize> {
    for _ in 0..TURNS {
        match stream.read(buf) {
            Err(e) if e.kind() == ErrorKind::WouldBlock => {}
            read => return read,
        }
    }
    Err(ErrorKind::TimedOut.into())
}

/// Reads until `count` bytes are read or the input ends.
pub fn read_up_to<S: Read>(alloc: Global, stream: &mut S, count: usize) -> io::Result<Vec<u8>> {
    let mut bytes = Vec::new(alloc);
    let mut buf = [0u8; 1];
    for _ in 0..count {
        if read_once(stream, &mut buf)? == 0 {
            break;
        }
        bytes.push(buf[0])?;
    }
    Ok(bytes)
}

/// Reads all bytes up to the end.
pub fn read_all<S: Read>(rt: &impl Abort, alloc: Global, stream: &mut S) -> Vec<u8> {
    read_up_to(alloc, stream, usize::MAX).expect(rt, "an end of what is read")
}

// Returns whether this text begins with a `Date` field.
fn is_date(text: &[u8]) -> bool {
    text.starts_with(b"Date: ")
}

// Copies responses without the values of their `Date` fields, of 29 bytes each.
fn undated(alloc: Global, text: &[u8]) -> Result<Vec<u8>, AllocError> {
    let mut bytes = Vec::new(alloc);
    let mut left = 0u32;
    for at in 0..text.len() {
        if is_date(&text[at..]) {
            bytes.extend_from_slice(b"Date: ")?;
            left = 35;
        }
        if left == 0 {
            bytes.push(text[at])?;
        }
        left = left.saturating_sub(1);
    }
    Ok(bytes)
}

// Asserts that the bytes are this text, except for the dates.
fn assert_answers(rt: &impl Abort, alloc: Global, found: &[u8], wanted: &str) {
    let found = undated(alloc, found).expect(rt, "memory");
    assert_same(rt, str::from_utf8(&found).ok(), Some(wanted));
}

/// Asserts that the next bytes from the server are these texts and exactly one date, which the texts leave out.
pub fn assert_reads_next<S: Read>(rt: &impl Abort, alloc: Global, stream: &mut S, wanted: &[&str]) {
    let wanted = joined(alloc, wanted).expect(rt, "memory");
    let length = wanted.len().saturating_add(29);
    let found = read_up_to(alloc, stream, length).expect(rt, "an answer");
    assert_answers(rt, alloc, &found, wanted.as_str());
}

// Concatenates texts.
fn joined(alloc: Global, texts: &[&str]) -> Result<String, AllocError> {
    let mut all = String::new(alloc);
    for text in texts {
        all.push_str(text)?;
    }
    Ok(all)
}

/// Builds a response with this text.
pub fn text(alloc: Global, text: &str) -> Result<Response<io::Cursor<Vec<u8>>>, AllocError> {
    Response::from_string(alloc, String::from_str(alloc, text)?)
}

/// Responds to a request with this text. Returns whether the response was built and sent without an error.
pub fn respond<R: Clock + Wait + Drop>(
    rt: &R,
    alloc: Global,
    request: ServerRequest<R>,
    answer: &str,
) -> bool {
    let Ok(response) = text(alloc, answer) else {
        return false;
    };
    request.respond(response, current_date(rt)).is_ok()
}
