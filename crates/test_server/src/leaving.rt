//! Tests of when the responses of a connection are sent, and of `write_both`, over a socket pair whose other end the
//! test reads.
use crate::fixture::{DATED, Host, assert_reads_next, send, text};
use crate::same::assert_same;
use std::alloc::Global;
use std::io::{ErrorKind, Read, Write};
use std::os::unix::net::UnixStream;
use std::process::Abort;
use std::sync::{Arc, Wait};
use std::time::Duration;
use tiny_http::client::ClientConnection;
use tiny_http::common::StatusCode;
use tiny_http::connection::Connection;
use tiny_http::refined_tcp_stream::RefinedTcpStream;
use tiny_http::request::Request;
use tiny_http::response::Response;
use tiny_http::server::current_date;
use tiny_http_socket::cork::{Cork, CorkedWriter, FlushingReader, halves};

/// The reader of a connection whose responses are sent together.
pub type HalfReader = FlushingReader<RefinedTcpStream, RefinedTcpStream>;

/// The writer of a connection whose responses are sent together.
pub type HalfWriter<R> = CorkedWriter<RefinedTcpStream, R>;

// A connection whose responses are sent together, and its client.
#[derive(Drop)]
struct Pair<R: Wait + Drop> {
    peer: UnixStream,
    cork: Arc<Cork<RefinedTcpStream>>,
    client: ClientConnection<HalfReader, HalfWriter<R>, R>,
}

/// The two halves of a connection whose responses are sent together, and its client.
#[derive(Drop)]
pub struct Ends<R: Wait + Drop> {
    pub peer: UnixStream,
    pub cork: Arc<Cork<RefinedTcpStream>>,
    pub reader: HalfReader,
    pub writer: HalfWriter<R>,
}

/// Creates the halves of a connection, and its client, which has this read timeout.
pub fn ends_of<R: Host>(rt: &R, alloc: Global, wait: Duration) -> Ends<R> {
    let (ours, peer) = UnixStream::pair(rt).expect(rt, "a pair");
    let timed = peer.set_read_timeout(Some(wait));
    timed.expect(rt, "reads that wait so long");
    let both = RefinedTcpStream::new(alloc, Connection::from(ours));
    let (reader, writer) = both.expect(rt, "memory");
    let both = halves(*rt, alloc, reader, writer);
    let (reader, writer) = both.expect(rt, "memory");
    let cork = Arc::try_clone(writer.cork()).ok().expect(rt, "memory");
    Ends {
        peer,
        cork,
        reader,
        writer,
    }
}

// Creates a connection, and its client, which has a read timeout of 1 ms.
fn pair_of<R: Host>(rt: &R, alloc: Global) -> Pair<R> {
    let ends = ends_of(rt, alloc, Duration::from_millis(1));
    let policy = Arc::try_clone(ends.cork.flush_policy())
        .ok()
        .expect(rt, "memory");
    let made = ClientConnection::over(*rt, alloc, ends.writer, ends.reader, None, false);
    let mut client = made.expect(rt, "memory");
    client.set_flush_policy(policy);
    Pair {
        peer: ends.peer,
        cork: ends.cork,
        client,
    }
}

// Receives the next request. Then, as a worker of `serve` does, sends the buffered bytes unless flushes may leave bytes
// buffered.
fn next_of<R: Host>(rt: &R, pair: &mut Pair<R>) -> Request<HalfReader, HalfWriter<R>, R> {
    let next = pair.client.next(current_date(rt)).expect(rt, "memory");
    pair.cork.send_unless_leaving();
    next.expect(rt, "a request")
}

// Creates a connection whose client has sent this text, and responds to the first request with `a`.
fn answered_one<R: Host>(rt: &R, alloc: Global, sent: &str) -> Pair<R> {
    let mut pair = pair_of(rt, alloc);
    send(rt, &mut pair.peer, sent);
    respond(rt, alloc, next_of(rt, &mut pair), "a");
    pair
}

// Responds to a request with this text.
fn respond<R: Host>(
    rt: &R,
    alloc: Global,
    request: Request<HalfReader, HalfWriter<R>, R>,
    answer: &str,
) {
    let response = text(alloc, answer).expect(rt, "memory");
    let sent = request.respond(response, current_date(rt));
    sent.expect(rt, "it is answered");
}

// Asserts that the client gets no further byte before its read timeout.
fn assert_silent<R: Host>(rt: &R, pair: &mut Pair<R>) {
    let read = pair.peer.read(&mut [0u8; 1]);
    let fault = read.err().expect(rt, "no byte");
    assert_same(rt, fault.kind(), ErrorKind::WouldBlock);
}

const THREE: &str = "GET / HTTP/1.1\r\n\r\nGET / HTTP/1.1\r\n\r\nGET / HTTP/1.1\r\n\r\n";

const OK: &str = "HTTP/1.1 200 OK\r\n";

const ONE: &str = "Content-Type: text/plain; charset=UTF-8\r\nContent-Length: 1\r\n\r\n";

const A: &[&str] = &[OK, DATED, ONE, "a"];

const B: &[&str] = &[OK, DATED, ONE, "b"];

// Asserts that two responses stay buffered until `send`.
fn assert_wait<R: Host>(rt: &R, alloc: Global) {
    let mut pair = answered_one(rt, alloc, THREE);
    respond(rt, alloc, next_of(rt, &mut pair), "b");
    assert_silent(rt, &mut pair);
    pair.cork.send();
    assert_reads_next(rt, alloc, &mut pair.peer, A);
    assert_reads_next(rt, alloc, &mut pair.peer, B);
}

// Asserts that the buffered response is sent once a request is returned while an earlier request is unanswered, and
// that the response to the earlier request is then sent without `send`.
fn assert_kept<R: Host>(rt: &R, alloc: Global) {
    let mut pair = answered_one(rt, alloc, THREE);
    let kept = next_of(rt, &mut pair);
    let third = next_of(rt, &mut pair);
    assert_reads_next(rt, alloc, &mut pair.peer, A);
    respond(rt, alloc, kept, "b");
    assert_reads_next(rt, alloc, &mut pair.peer, B);
    drop(third);
}

// Asserts that flushing a raw writer sends the buffered response and then the raw bytes.
fn assert_raw<R: Host>(rt: &R, alloc: Global) {
    let mut pair = answered_one(rt, alloc, THREE);
    let mut writer = next_of(rt, &mut pair).into_writer();
    send(rt, &mut writer, "raw");
    writer.flush().expect(rt, "it is sent");
    assert_reads_next(rt, alloc, &mut pair.peer, A);
    let mut raw = [0u8; 3];
    pair.peer.read_exact(&mut raw).expect(rt, "the raw bytes");
    assert_same(rt, &raw, b"raw");
    drop(writer);
}

// Asserts that an upgrade sends the buffered response and then the head of the upgrade's response.
fn assert_upgrade<R: Host>(rt: &R, alloc: Global) {
    let mut pair = answered_one(rt, alloc, THREE);
    let request = next_of(rt, &mut pair);
    let response = Response::empty(alloc, StatusCode(101));
    let stream = request.upgrade("p", response, current_date(rt));
    assert_reads_next(rt, alloc, &mut pair.peer, A);
    let head = "HTTP/1.1 101 Switching Protocols\r\nConnection: upgrade\r\nUpgrade: p\r\n";
    assert_reads_next(rt, alloc, &mut pair.peer, &[head, DATED, "\r\n"]);
    drop(stream);
}

// Asserts that a 100 (Continue) response is sent at once, after the buffered response.
fn assert_100<R: Host>(rt: &R, alloc: Global) {
    let expecting = "GET / HTTP/1.1\r\n\r\nGET / HTTP/1.1\r\nExpect: 100-continue\r\n\r\n";
    let mut pair = answered_one(rt, alloc, expecting);
    let mut request = next_of(rt, &mut pair);
    let _ = request.as_reader(current_date(rt));
    assert_reads_next(rt, alloc, &mut pair.peer, A);
    let go_on = [
        "HTTP/1.1 100 Continue\r\n",
        DATED,
        "Content-Length: 0\r\n\r\n",
    ];
    assert_reads_next(rt, alloc, &mut pair.peer, &go_on);
    drop(request);
}

#[test]
fn answers_leave_together(rt: HostRuntime) {
    assert_wait(&rt, rt.alloc());
    assert_kept(&rt, rt.alloc());
}

#[test]
fn what_a_program_flushes_is_sent(rt: HostRuntime) {
    assert_raw(&rt, rt.alloc());
    assert_upgrade(&rt, rt.alloc());
    assert_100(&rt, rt.alloc());
}

// Asserts that one `write_both` accepts two texts and sends them in order, and that it returns 0 for two empty texts.
fn assert_writes_both<R: Host>(rt: &R, alloc: Global) {
    let (ours, mut theirs) = UnixStream::pair(rt).expect(rt, "a pair");
    let halves = RefinedTcpStream::new(alloc, Connection::from(ours));
    let (reader, mut writer) = halves.expect(rt, "memory");
    let written = writer.write_both(b"ab", b"cd").expect(rt, "a write");
    assert_same(rt, written, 4);
    let mut both = [0u8; 4];
    theirs.read_exact(&mut both).expect(rt, "both texts");
    assert_same(rt, &both, b"abcd");
    assert_same(rt, writer.write_both(b"", b"").ok(), Some(0));
    drop(reader);
}

#[test]
fn two_texts_leave_by_one_write(rt: HostRuntime) {
    assert_writes_both(&rt, rt.alloc());
}
