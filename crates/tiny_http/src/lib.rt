//! A small HTTP server: it accepts clients and hands out their requests, which any thread may read and respond to.
//!
//! `Server::http` listens on an address, `recv` waits for a request, and `respond` sends a response. The responses on a
//! connection are sent in the order of its requests, so `respond` waits until the earlier requests are answered. A
//! request that is dropped gets an empty 500. Threads may share a server, and each may receive requests. A loop over
//! `incoming_requests` is a whole program:
//!
//! ```text
//! let server = Server::http(rt, alloc, "0.0.0.0:8000")?;
//! let mut requests = server.incoming_requests();
//! for _ in rt.forever() {
//!     let Some(request) = requests.next() else { break };
//!     let text = String::from_str(alloc, "hello world")?;
//!     let _ = request.respond(Response::from_string(alloc, text)?, current_date(&rt));
//! }
//! ```
//!
//! `Request::respond_streaming` begins a response whose body grows while it is sent, such as server-sent events.
//!
//! `Server::serve` calls a `Handler` on a worker whenever a request has arrived; a connection that waits takes no
//! thread. `Server::serve_by` runs the loop above on several threads, with a `Handler`.
//!
//! A call that needs the runtime (which locks, waits and opens sockets) or the allocator takes it as an argument:
//! neither is implicit. A program depends on `httpdate` if it makes dates, and on the crate of each error that `?`
//! converts to an `io::Error`: `tiny_http_head` for a `ParseError`, as after `Response::with`, and `tiny_http_request`
//! for a `BodyError`.
//!
//! What a program needs, by module:
//!
//! - Servers: `server`, `serving` (handlers), `limits`, `counts`, `connection` (addresses), `framing` (profiles).
//! - Requests and responses: `request`, `client` (a connection's requests), `common` (methods, headers, codes),
//!   `response`, `streamed`, `upgrading`; `device` (readers and writers), `chunked` and `encoder`, `coding`, `target`.
//! - Without threads: `driver`, `exchange`, `source`, `outlet`, `turns`.
//! - In tests: `test`, `answer` (reads a response).
//! - For proofs: `laws` (what follows from the contracts' definitions).
//!
//! Few programs need the other modules, most of which correspond to parts of the Rust crate.
#![tactic(auto)]

mod accepting;
mod arrival;
mod closing;
mod crew;
mod descriptors;
mod ending;
mod faults;
pub mod laws;
pub mod options;
mod registry;
pub mod server;
pub mod serving;
pub mod stopping;
pub mod testing;

pub use crate::options::ServerOptions;
pub use crate::server::{
    Host, IncomingRequests, Server, ServerBody, ServerConfig, ServerError, ServerOutput,
    ServerReader, ServerRequest, ServerRuntime, ServerStream, ServerWriter, SslConfig, Stopped,
    current_date,
};
pub use crate::serving::Handler;
pub use crate::stopping::StopHandle;
pub use crate::testing::answer_of;
pub use tiny_http_core::framing::Profile;
pub use tiny_http_core::{
    answer, custom_stream, driver, equal_reader, exchange, framing, fused_reader, outlet, source,
    turns, upgrading,
};
pub use tiny_http_limits::limits::Limits;
pub use tiny_http_limits::{counts, headcount, limits};
pub use tiny_http_request::any_request::AnyRequest;
pub use tiny_http_request::request::{
    BodyError, ReadWrite, RefusedUpgrade, Request, StreamedBody, StreamedForm,
};
pub use tiny_http_request::test::{Recorder, TestRequest};
pub use tiny_http_request::{client, request, test};
pub use tiny_http_socket::connection::{ConfigListenAddr, ListenAddr, Listener};
pub use tiny_http_socket::{connection, refined_tcp_stream};
pub use tiny_http_threads::{messages_queue, roster, sequential, task_pool};
pub use tiny_http_wire::common::{HTTPVersion, Header, HeaderField, Method, StatusCode};
pub use tiny_http_wire::response::{Response, ResponseBox};
pub use tiny_http_wire::{
    ascii, chunked, coding, common, device, encoder, grammar, header_value, number, response,
    response_context, streamed, target,
};
