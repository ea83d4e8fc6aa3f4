//! A server that drives a `Connection` and chooses the response to each request. Its contract states that the exchange
//! is a conversation (`IsConversation`), which shows that the connection theorem, the contract of `run`, also applies
//! to a program that isn't a list of steps for `run`. The crate is built on `tiny_http_core` and `tiny_http_wire`.
#![tactic(auto)]

ghost use Rattle.std.specs.Prelude.{◌≡◌, Some};
ghost use Rattle.tiny_http_wire.specs.Device.{Feed};
ghost use Rattle.tiny_http_core.specs.Conversation.{IsFresh};
ghost use Rattle.tiny_http_core.specs.Outlet.{outlet_writer, outlet_held, outlet_ended};
ghost use Rattle.example_greeter.specs.Greeting.{IsStatus, Greets, GreetsClient};

use httpdate::HttpDate;
use std::alloc::Global;
use std::io::ErrorKind;
use tiny_http_core::driver::{Connection, Reply};
use tiny_http_core::exchange::Head;
use tiny_http_core::outlet::Outlet;
use tiny_http_core::source::Source;
use tiny_http_wire::common::StatusCode;
use tiny_http_wire::device::{Budget, Canned, ReadDevice, WriteDevice};
use tiny_http_wire::response::Response;

// Returns 200 for the request target `/`, and 404 for any other.
fn status_of(head: &Head) -> StatusCode
    ensures { IsStatus head.now.path result.0 }
{
    if head.path.as_str() == "/" {
        return StatusCode(200);
    }
    StatusCode(404)
}

/// Responds to each request according to its target, with 200 for `/` and 404 for any other, without a body and dated
/// `now`, until no request is handed out. Heads are read under `Lenient`.
///
/// Returns the reader and the writer with their buffers, and the last reply, which handed out no request: `Ended`, or
/// `Memory` if memory for a head couldn't be allocated. After 2^64 - 1 requests it stops, and returns `None` for the
/// reply.
pub fn serve<R: ReadDevice + Drop, W: WriteDevice + Drop>(
    alloc: Global,
    reader: R,
    writer: W,
    now: HttpDate,
) -> (Source<R>, Outlet<W>, Option<Reply>)
    ensures { (client : Feed) → R.feed reader ≡ Some client → IsFresh (W.sink writer)
        → Greets client (W.sink writer) now (W.sink (outlet_writer result.1)) (outlet_held result.1)
        (outlet_ended result.1) result.0.feed result.2 }
{
    let mut connection = Connection::new(alloc, reader, writer);
    for _greeting in 0..u64::MAX {
        match connection.ask(alloc, now) {
            Reply::Handed(number, head) => {
                let response = Response::empty(alloc, status_of(&head));
                connection.respond(alloc, now, number, response);
            }
            last => {
                let (source, outlet) = connection.into_parts();
                return (source, outlet, Some(last));
            }
        }
    }
    let (source, outlet) = connection.into_parts();
    (source, outlet, None)
}

/// Serves an in-memory client that sends these bytes and then ends. Returns the writer with its buffer, and the last
/// reply. The writer fails if memory for its bytes can't be allocated.
pub fn serve_bytes(alloc: Global, bytes: Vec<u8>, now: HttpDate) -> (Outlet<Budget>, Option<Reply>)
    ensures { GreetsClient bytes.items now (outlet_writer result.0) (outlet_held result.0) (outlet_ended result.0)
        result.1 }
{
    let reader = Canned::new(bytes, None);
    let writer = Budget::new(alloc, usize::MAX, ErrorKind::OutOfMemory);
    let (_, outlet, last) = serve(alloc, reader, writer, now);
    (outlet, last)
}
