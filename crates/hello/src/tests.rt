//! Tests of the errors, their exit statuses, and the response.
use crate::same::{assert_holds, assert_same};
use crate::{answer_all, hello_on};
use std::alloc::Global;
use std::io::{Read, Write};
use std::net::TcpStream;
use std::process::Abort;
use std::thread;
use tiny_http::server::{Server, ServerRuntime};

// A runtime with what `hello` needs, which can abort a test that fails.
trait Host: ServerRuntime + Sync + Abort {}

impl<R: ServerRuntime + Sync + Abort> Host for R {}

// Sends a request to the server, reads the response, and unblocks one thread. Returns the response.
fn ask_and_end<R: Host>(rt: &R, alloc: Global, server: &Server<R>) -> Vec<u8> {
    let addr = server.server_addr().to_ip().expect(rt, "an address of TCP");
    let mut client = TcpStream::connect(rt, addr).expect(rt, "a client");
    let sent = client.write_all(b"GET / HTTP/1.1\r\nConnection: close\r\n\r\n");
    sent.expect(rt, "a request is sent");
    let mut answer = Vec::new(alloc);
    let read = client.read_to_end(&mut answer);
    read.expect(rt, "an answer");
    server.unblock().expect(rt, "memory");
    answer
}

// Asserts that four threads answer a client, and that one `unblock` ends them all.
fn assert_four_answer<R: Host>(rt: &R, alloc: Global) {
    let server = Server::http(*rt, alloc, "127.0.0.1:0").expect(rt, "a server");
    let (answer, ()) = thread::join(
        rt,
        || ask_and_end(rt, alloc, &server),
        || answer_all(alloc, &server),
    );
    let answer = answer.as_slice();
    assert_holds(
        rt,
        "the status is 200",
        answer.starts_with(b"HTTP/1.1 200 OK\r\n"),
    );
    assert_holds(
        rt,
        "the body is hello world",
        answer.ends_with(b"\r\n\r\nhello world"),
    );
}

#[test]
fn four_answer_and_end(rt: HostRuntime) {
    assert_four_answer(&rt, rt.alloc());
}

// Returns these words as the arguments of a command line.
fn strings_of(rt: &impl Abort, alloc: Global, words: &[&str]) -> Vec<String> {
    let mut strings = Vec::new(alloc);
    for word in words {
        let string = String::from_str(alloc, word).expect(rt, "memory");
        strings.push(string).ok().expect(rt, "memory");
    }
    strings
}

// The arguments of a command line, the error line and the exit status.
type Refused = (&'static [&'static str], &'static str, u8);

// Asserts that these arguments are refused, and that nothing is written but the error line.
fn assert_refused<R: Host>(rt: &R, alloc: Global, row: Refused) {
    let (words, line, status) = row;
    let given = strings_of(rt, alloc, words);
    let mut out = Vec::new(alloc);
    let mut err = Vec::new(alloc);
    let ended = hello_on(*rt, alloc, given.as_slice(), &mut out, &mut err);
    assert_same(rt, (words, ended), (words, status));
    assert_same(rt, (words, err.as_slice()), (words, line.as_bytes()));
    assert_same(rt, (words, out.as_slice()), (words, b"".as_slice()));
}

#[test]
fn refused_words(rt: HostRuntime) {
    let rows: [Refused; 4] = [
        (&[], "hello: usage: hello ADDRESS\n", 2),
        (&["127.0.0.1:0", "x"], "hello: usage: hello ADDRESS\n", 2),
        (&["nonsense"], "hello: cannot listen on nonsense\n", 1),
        (
            &["127.0.0.1:99999"],
            "hello: cannot listen on 127.0.0.1:99999\n",
            1,
        ),
    ];
    for row in rows {
        assert_refused(&rt, rt.alloc(), row);
    }
}
