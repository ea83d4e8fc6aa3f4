//! Test of threads that share one server, and count the requests to which they respond.
ghost use Rattle.std.specs.Prelude.{◌≡◌, ◌+◌, ◌<◌};

use crate::fixture::{Host, connect, read_all, respond, send, serve};
use crate::same::assert_same;
use std::alloc::Global;
use std::marker::Brand;
use std::net::{Net, TcpStream};
use std::sync::Wait;
use std::sync::ledger::{Blank, Ledger, Share};
use std::thread;
use std::time::Clock;
use tiny_http::connection::SocketFiles;
use tiny_http::roster::Roster;
use tiny_http::server::{Server, ServerRequest};

// Number of clients with one request each.
const CLIENTS: usize = 100;

// The state that the responding threads share.
#[derive(Drop)]
struct Shared<'a, L: Ledger, R: Net + SocketFiles + Wait + Clock + Drop> {
    alloc: Global,
    server: &'a Server<R>,
    roster: &'a Roster<L>,
}

// Responds to a request with its path, or drops the request if memory can't be allocated.
fn answer_path<R: Host>(rt: &R, alloc: Global, request: ServerRequest<R>) {
    if let Ok(path) = String::from_str(alloc, request.url()) {
        respond(rt, alloc, request, path.as_str());
    }
}

// Responds to requests until `recv` fails, as it does once the thread is unblocked. Enters the roster once for each
// request. Returns the share.
fn answers<L: Ledger, R: Host>(rt: &R, shared: &Shared<'_, L, R>, mut mine: Share<L>) -> Share<L>
    requires { 0 < mine.parts }
    ensures { result.parts ≡ mine.parts }
{
    for _ in rt.forever() {
        let Ok(request) = shared.server.recv() else {
            break;
        };
        shared.roster.enter(rt, &mut mine);
        answer_path(rt, shared.alloc, request);
    }
    mine
}

// Responds to requests on two threads. Returns their merged shares.
fn two_answer<L, R>(
    rt: &R,
    shared: &Shared<'_, L, R>,
    first: Share<L>,
    second: Share<L>,
) -> Share<L>
where
    L: Ledger + Send + Sync,
    R: Host,
    requires first { 0 < first.parts }
    requires second { 0 < second.parts }
    ensures { result.parts ≡ first.parts + second.parts }
{
    let (mut both, other) = thread::join(
        rt,
        move || -> Share<L>
            requires { 0 < first.parts }
            ensures { result.parts ≡ first.parts }
        { answers(rt, shared, first) },
        move || -> Share<L>
            requires { 0 < second.parts }
            ensures { result.parts ≡ second.parts }
        { answers(rt, shared, second) },
    );
    both.merge(other);
    both
}

// Responds to requests on four threads. Returns their merged shares.
fn four_answer<L, R>(rt: &R, shared: &Shared<'_, L, R>, mine: Share<L>) -> Share<L>
where
    L: Ledger + Send + Sync,
    R: Host,
    requires { mine.parts ≡ 4 }
    ensures { result.parts ≡ 4 }
{
    let mut first = mine;
    let second = first.split_off(1, 0);
    let third = first.split_off(1, 0);
    let fourth = first.split_off(1, 0);
    let (mut all, others) = thread::join(
        rt,
        move || -> Share<L>
            requires { (first.parts ≡ 1) × (second.parts ≡ 1) }
            ensures { result.parts ≡ 2 }
        { two_answer(rt, shared, first, second) },
        move || -> Share<L>
            requires { (third.parts ≡ 1) × (fourth.parts ≡ 1) }
            ensures { result.parts ≡ 2 }
        { two_answer(rt, shared, third, fourth) },
    );
    all.merge(others);
    all
}

// Connects a client, and requests a path with the client's number. Returns the client and the path.
fn ask_path<R: Host>(
    rt: &R,
    alloc: Global,
    server: &Server<R>,
    number: usize,
) -> (TcpStream, String) {
    let mut client = connect(rt, server);
    let path = format!(in alloc; "/client/{number}").expect(rt, "memory");
    let head = format!(in alloc; "GET {path} HTTP/1.1\r\nConnection: close\r\n\r\n");
    send(rt, &mut client, head.expect(rt, "memory").as_str());
    (client, path)
}

// Asserts that a client gets the path that it requested.
fn assert_gets_path<R: Host>(rt: &R, alloc: Global, asked: (TcpStream, String)) {
    let (mut client, path) = asked;
    let answer = read_all(rt, alloc, &mut client);
    assert!(rt; answer.as_slice().ends_with(path.as_bytes()), "{path}");
}

// Sends the requests of all clients, asserts that each gets the path that it requested, and unblocks the threads.
fn ask_all<R: Host>(rt: &R, alloc: Global, server: &Server<R>) {
    let mut asked = Vec::new(alloc);
    for number in 0..CLIENTS {
        let client = ask_path(rt, alloc, server, number);
        asked.push(client).ok().expect(rt, "memory");
    }
    for client in asked {
        assert_gets_path(rt, alloc, client);
    }
    unblock_four(rt, server);
}

// Adds four unblock marks, one for each thread.
fn unblock_four<R: Host>(rt: &R, server: &Server<R>) {
    for _ in 0..4u8 {
        server.unblock().expect(rt, "memory");
    }
}

// Responds to all clients on four threads, and asserts that each gets the path that it requested. Returns the roster's
// final count.
fn serve_all<L, R>(rt: &R, alloc: Global, server: &Server<R>, blank: Blank) -> u64
where
    L: Ledger + Send + Sync,
    R: Host,
    requires name { blank.name ≡ L.name }
    requires parts { blank.parts ≡ L.parts }
    requires four { blank.parts ≡ 4 }
{
    let (book, mine) = blank.open::<L>();
    let roster = Roster::new(book);
    let shared = Shared {
        alloc,
        server,
        roster: &roster,
    };
    let shared = &shared;
    let ((), mut all) = thread::join(
        rt,
        move || ask_all(rt, alloc, server),
        move || -> Share<L>
            requires { mine.parts ≡ 4 }
            ensures { result.parts ≡ 4 }
        { four_answer(rt, shared, mine) },
    );
    roster.close(&mut all)
}

#[test]
fn four_threads_answer_a_hundred_clients(rt: HostRuntime) {
    let server = serve(&rt, rt.alloc());
    let count = serve_all::<Brand, _>(&rt, rt.alloc(), &server, Blank::new(4));
    assert_same(&rt, count, 100);
}
