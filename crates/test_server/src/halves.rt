//! Tests of the halves of a connection, and of listeners and their addresses.
use crate::same::{assert_holds, assert_same, assert_shown};
use httpdate::HttpDate;
use std::alloc::Global;
use std::io;
use std::io::{ErrorKind, Read, Write};
use std::net::{Net, SocketAddr, TcpListener, TcpStream};
use std::os::unix::net::UnixStream;
use std::process::Abort;
use std::sync::Wait;
use std::time::Duration;
use tiny_http_request::client::ClientConnection;
use tiny_http_request::request::Request;
use tiny_http_socket::connection::{ConfigListenAddr, Connection, Listener, SocketFiles};
use tiny_http_socket::refined_tcp_stream::RefinedTcpStream;
use tiny_http_wire::device::{ReadDevice, WriteDevice};
use tiny_http_wire::response::Response;

/// A runtime with TCP sockets, which can abort a test that fails.
pub trait Tcp: Net<Listener = TcpListener, Stream = TcpStream> + Abort {}

impl<R: Net<Listener = TcpListener, Stream = TcpStream> + Abort> Tcp for R {}

/// A runtime with what connections and their clients need, which can abort a test that fails.
pub trait Host: Tcp + SocketFiles + Wait + Copy + Drop {}

impl<R: Tcp + SocketFiles + Wait + Copy + Drop> Host for R {}

// The reading and the writing half of a connection.
type Halves = (RefinedTcpStream, RefinedTcpStream);

// A connection over two halves.
type Client<R> = ClientConnection<RefinedTcpStream, RefinedTcpStream, R>;

// A request on a connection over two halves.
type ClientRequest<R> = Request<RefinedTcpStream, RefinedTcpStream, R>;

// Returns Wed, 04 May 1983 11:17:00 GMT.
fn now(rt: &impl Abort) -> HttpDate {
    HttpDate::from_unix_secs(420_895_020).expect(rt, "a date")
}

fn send<S: Write>(rt: &impl Abort, stream: &mut S, text: &str) {
    stream.write_all(text.as_bytes()).expect(rt, "it is sent");
}

// Reads to the end, and asserts the text that was read.
fn assert_reads<S: Read>(rt: &impl Abort, alloc: Global, stream: &mut S, wanted: &str) {
    let mut bytes = Vec::new(alloc);
    let read = stream.read_to_end(&mut bytes);
    read.expect(rt, "an end of what is read");
    assert_same(rt, str::from_utf8(&bytes).ok(), Some(wanted));
}

// Splits a connection into its halves.
fn halves_of<C>(rt: &impl Abort, alloc: Global, connection: C) -> Halves
where
    Connection: From<C>,
{
    let halves = RefinedTcpStream::new(alloc, Connection::from(connection));
    halves.expect(rt, "memory")
}

// Reads once, and asserts the number of bytes.
fn assert_read<S: Read>(rt: &impl Abort, stream: &mut S, wanted: usize) {
    let mut buf = [0u8; 8];
    let count = stream.read(&mut buf).expect(rt, "a read");
    assert_same(rt, count, wanted);
}

// Reads once from a half, and asserts the bytes.
fn assert_reads_in(rt: &impl Abort, half: &mut RefinedTcpStream, wanted: &[u8]) {
    let mut buf = [0u8; 8];
    let count = half.read_in(&mut buf).expect(rt, "a read");
    assert_same(rt, buf.get(..count), Some(wanted));
}

// Writes once, and asserts the number of bytes.
fn assert_writes_out(rt: &impl Abort, half: &mut RefinedTcpStream, bytes: &[u8], wanted: usize) {
    let count = half.write_out(bytes).expect(rt, "a write");
    assert_same(rt, count, wanted);
}

// Asserts that a write failed because the peer no longer reads.
fn assert_broken(rt: &impl Abort, written: io::Result<usize>) {
    let fault = written.err().expect(rt, "no write");
    assert_same(rt, fault.kind(), ErrorKind::BrokenPipe);
}

// Asserts that a connection over a Unix socket doesn't use TLS and has no peer address. Also asserts that once its
// writing half is dropped, the peer reads the end of input but the connection can still be read, and that the
// connection is closed once both halves are dropped.
fn assert_halves_close_alone<R: Net + Abort>(rt: &R, alloc: Global) {
    let (ours, mut theirs) = UnixStream::pair(rt).expect(rt, "a pair");
    let (mut reader, mut writer) = halves_of(rt, alloc, ours);
    assert_holds(rt, "it is without TLS", !reader.secure());
    let peer = reader.peer_addr().expect(rt, "no fault");
    assert_holds(rt, "it has no address", peer.is_none());
    writer.write_all(b"to").expect(rt, "it is sent");
    drop(writer);
    assert_read(rt, &mut theirs, 2);
    assert_read(rt, &mut theirs, 0);
    send(rt, &mut theirs, "fro");
    assert_reads_in(rt, &mut reader, b"fro");
    drop(reader);
    assert_broken(rt, theirs.write(b"x"));
}

#[test]
fn a_half_closes_its_direction_alone(rt: HostRuntime) {
    assert_halves_close_alone(&rt, rt.alloc());
}

// Asserts that once the reading half of a connection is dropped, the peer can't write to the connection, but the
// writing half still can.
fn assert_reading_half_closes_alone<R: Net + Abort>(rt: &R, alloc: Global) {
    let (ours, mut theirs) = UnixStream::pair(rt).expect(rt, "a pair");
    let (reader, mut writer) = halves_of(rt, alloc, ours);
    drop(reader);
    assert_holds(rt, "nobody reads", theirs.write(b"x").is_err());
    assert_writes_out(rt, &mut writer, b"to", 2);
    writer.flush_out().expect(rt, "it is sent on");
    assert_read(rt, &mut theirs, 2);
}

#[test]
fn the_reading_half_closes_its_direction_alone(rt: HostRuntime) {
    assert_reading_half_closes_alone(&rt, rt.alloc());
}

// Creates the two ends of a TCP connection.
fn tcp_pair<R: Tcp>(rt: &R) -> (TcpStream, TcpStream) {
    let listener = TcpListener::bind(rt, "127.0.0.1:0").expect(rt, "a listener");
    let addr = listener.local_addr().expect(rt, "an address");
    let theirs = TcpStream::connect(rt, addr).expect(rt, "a client");
    let (ours, _) = listener.accept().expect(rt, "a connection");
    (ours, theirs)
}

// Creates another handle to a connection, with a read timeout of 10 s.
fn handle_of(rt: &impl Abort, stream: &TcpStream) -> TcpStream {
    let handle = stream.try_clone().expect(rt, "a handle");
    let timed = handle.set_read_timeout(Some(Duration::from_secs(10)));
    timed.expect(rt, "reads that wait for 10 s");
    handle
}

// Asserts that the peer of a TCP connection reads the end of input once the writing half is dropped, and that the
// connection can still be read then, but not once both halves are dropped.
fn assert_halves_of_tcp<R: Host>(rt: &R, alloc: Global) {
    let (ours, mut theirs) = tcp_pair(rt);
    let mut handle = handle_of(rt, &ours);
    let (mut reader, writer) = halves_of(rt, alloc, ours);
    drop(writer);
    assert_read(rt, &mut theirs, 0);
    send(rt, &mut theirs, "fro");
    assert_reads_in(rt, &mut reader, b"fro");
    drop(reader);
    assert_read(rt, &mut handle, 0);
}

#[test]
fn halves_of_a_tcp_connection(rt: HostRuntime) {
    assert_halves_of_tcp(&rt, rt.alloc());
}

// Returns whether `TCP_NODELAY` is set.
fn nodelay_of(rt: &impl Abort, connection: &Connection) -> bool {
    let Connection::Tcp(stream) = connection else {
        panic!(rt; "no TCP");
    };
    stream.nodelay().expect(rt, "it is known")
}

// Asserts that `set_nodelay` sets and clears `TCP_NODELAY`.
fn assert_nodelay_is_set<R: Host>(rt: &R, alloc: Global) {
    let (ours, _theirs) = tcp_pair(rt);
    let connection = Connection::from(ours);
    for nodelay in [true, false] {
        connection.set_nodelay(nodelay).expect(rt, "it is set");
        assert_same(rt, nodelay_of(rt, &connection), nodelay);
    }
}

#[test]
fn small_pieces_are_sent_at_once(rt: HostRuntime) {
    assert_nodelay_is_set(&rt, rt.alloc());
}

// Returns the address of a listener.
fn addr_of(rt: &impl Abort, listener: &Listener) -> SocketAddr {
    let addr = listener.local_addr().expect(rt, "an address");
    addr.to_ip().expect(rt, "an address of TCP")
}

// Asserts that the second of two addresses is bound, since the first is in use.
fn assert_binds_second<R: Host>(rt: &R, alloc: Global, first: SocketAddr, second: SocketAddr) {
    let both = [first, second].to_vec(alloc).expect(rt, "memory");
    let listener = ConfigListenAddr::IP(both).bind(rt).expect(rt, "a listener");
    let port = addr_of(rt, &listener).port();
    assert_holds(rt, "another port is bound", port != first.port());
}

// Asserts that the first address that can be bound is used, and that binding fails if there is no address.
fn assert_addresses_in_turn<R: Host>(rt: &R, alloc: Global) {
    let taken = TcpListener::bind(rt, "127.0.0.1:0").expect(rt, "a listener");
    let first = taken.local_addr().expect(rt, "an address");
    assert_binds_second(rt, alloc, first, SocketAddr::from(([127, 0, 0, 1], 0)));
    let none = ConfigListenAddr::IP(Vec::new(alloc));
    let fault = none.bind(rt).err().expect(rt, "no listener");
    assert_same(rt, fault.kind(), ErrorKind::InvalidInput);
}

#[test]
fn addresses_are_tried_in_turn(rt: HostRuntime) {
    assert_addresses_in_turn(&rt, rt.alloc());
}

// Creates a connection over the halves of `connection`.
fn client_over<C, R: Host>(rt: &R, alloc: Global, connection: C) -> Client<R>
where
    Connection: From<C>,
{
    let (reader, writer) = halves_of(rt, alloc, connection);
    ClientConnection::new(*rt, alloc, writer, reader).expect(rt, "memory")
}

// Returns the next request of a connection, if any.
fn next_of<R: Host>(rt: &R, client: &mut Client<R>) -> Option<ClientRequest<R>> {
    client.next(now(rt)).expect(rt, "memory")
}

// Asserts that a request over TCP has the address of its client.
fn assert_client_over_tcp<R: Host>(rt: &R, alloc: Global) {
    let (ours, mut theirs) = tcp_pair(rt);
    send(
        rt,
        &mut theirs,
        "GET /a HTTP/1.1\r\nConnection: close\r\n\r\n",
    );
    let mut client = client_over(rt, alloc, ours);
    let request = next_of(rt, &mut client).expect(rt, "a request");
    let wanted = theirs.local_addr().expect(rt, "an address");
    assert_same(rt, request.remote_addr(), Some(&wanted));
}

#[test]
fn a_client_over_tcp_has_an_address(rt: HostRuntime) {
    assert_client_over_tcp(&rt, rt.alloc());
}

// Asserts that a writing half counts the writes that fail after the peer has closed the connection, and that an empty
// write then returns 0.
fn assert_failures<R: Net + Abort>(rt: &R, alloc: Global) {
    let (ours, theirs) = UnixStream::pair(rt).expect(rt, "a pair");
    let (_, mut writer) = halves_of(rt, alloc, ours);
    drop(theirs);
    for wanted in [0, 1] {
        assert_same(rt, writer.failures(), wanted);
        assert_broken(rt, writer.write_out(b"x"));
    }
    assert_same(rt, writer.failures(), 2);
    assert_writes_out(rt, &mut writer, b"", 0);
}

#[test]
fn failures_are_counted(rt: HostRuntime) {
    assert_failures(&rt, rt.alloc());
}

// Asserts that a listener accepts this client and reports the client's address.
fn assert_accepts(rt: &impl Abort, listener: &Listener, client: &TcpStream) {
    let wanted = client.local_addr().expect(rt, "an address");
    let (connection, from) = listener.accept().expect(rt, "a connection");
    assert_same(rt, from, Some(wanted));
    let peer = connection.peer_addr().expect(rt, "no fault");
    assert_same(rt, peer, from);
}

// Asserts how the address of a TCP listener is displayed, and that the listener reports the address of a client.
fn assert_addresses_of_tcp<R: Host>(rt: &R, alloc: Global) {
    let listener = TcpListener::bind(rt, "127.0.0.1:0").expect(rt, "a listener");
    let listener = Listener::from(listener);
    let addr = addr_of(rt, &listener);
    let wanted = format!(in alloc; "127.0.0.1:{}", addr.port()).expect(rt, "memory");
    let shown = listener.local_addr().expect(rt, "an address");
    assert_shown(rt, alloc, &shown, wanted.as_str());
    let client = TcpStream::connect(rt, addr).expect(rt, "a client");
    assert_accepts(rt, &listener, &client);
}

#[test]
fn addresses_of_tcp(rt: HostRuntime) {
    assert_addresses_of_tcp(&rt, rt.alloc());
}

// Asserts that a connection doesn't use TLS and has exactly one request, which is for `/a` and has no client address.
// Returns the request.
fn assert_one_request<R: Host>(rt: &R, client: &mut Client<R>) -> ClientRequest<R> {
    assert_holds(rt, "it is without TLS", !client.secure());
    let request = next_of(rt, client).expect(rt, "a request");
    assert_same(rt, request.url(), "/a");
    assert_holds(rt, "it has no address", request.remote_addr().is_none());
    assert_holds(rt, "it is the last", next_of(rt, client).is_none());
    request
}

const ANSWER: &str = "HTTP/1.1 200 OK\r\nServer: tiny-http (Rust)\r\n\
    Date: Wed, 04 May 1983 11:17:00 GMT\r\nContent-Length: 1\r\n\r\na";

// Asserts that the only request over a Unix socket can be answered after the `ClientConnection` is dropped.
fn assert_client_over_halves<R: Host>(rt: &R, alloc: Global) {
    let (ours, mut theirs) = UnixStream::pair(rt).expect(rt, "a pair");
    send(
        rt,
        &mut theirs,
        "GET /a HTTP/1.1\r\nConnection: close\r\n\r\n",
    );
    let mut client = client_over(rt, alloc, ours);
    let request = assert_one_request(rt, &mut client);
    drop(client);
    let body = b"a".to_vec(alloc).expect(rt, "memory");
    let sent = request.respond(Response::from_data(alloc, body), now(rt));
    sent.expect(rt, "it is sent");
    assert_reads(rt, alloc, &mut theirs, ANSWER);
}

#[test]
fn a_client_over_two_halves(rt: HostRuntime) {
    assert_client_over_halves(&rt, rt.alloc());
}
