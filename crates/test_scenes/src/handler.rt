//! The handler of a scene's server.
use crate::links::Host;
use std::alloc::Global;
use std::io::{ErrorKind, Read, Write};
use std::net::Net;
use std::sync::atomic::{AtomicBool, AtomicUsize, Ordering};
use std::sync::{Arc, Wait};
use std::time::{Clock, Duration};
use std::{io, thread};
use test_scene_props::requests::{short_answer, text_answer};
use tiny_http::common::StatusCode;
use tiny_http::connection::SocketFiles;
use tiny_http::messages_queue::MessagesQueue;
use tiny_http::response::Response;
use tiny_http::server::{ServerRequest, current_date};
use tiny_http::serving::Handler;
use tiny_http::stopping::StopHandle;

// Maximum number of one-millisecond pauses for which a handler waits at its gate.
const LONGEST: u32 = 10_000;

// Length of the body of a response to `/long`.
const LONG: usize = 20_000;

/// A handler that responds according to a request's path.
#[derive(Drop)]
pub(crate) struct ByPath<R: Net + SocketFiles + Wait + Clock + Drop> {
    /// The requests that are kept: all if `keeps_all` is set, and those for `/keep` otherwise.
    pub kept: Arc<MessagesQueue<ServerRequest<R>>>,
    pub keeps_all: Arc<AtomicBool>,
    /// Whether a call to the handler that waits at the gate may continue.
    pub gate: Arc<AtomicBool>,
    /// Stops the server, once it is there.
    pub stops: Arc<MessagesQueue<StopHandle<R>>>,
    /// The number of errors of the handler.
    pub errors: AtomicUsize,
}

// Responds with the request target as the body. If `is_last`, the connection closes after the response.
fn answer_path<R: Wait + Clock + Drop>(
    rt: &R,
    alloc: Global,
    request: ServerRequest<R>,
    is_last: bool,
) -> io::Result<()> {
    let response = text_answer(alloc, request.url())?;
    if is_last {
        return request.respond(response.with_close(), current_date(rt));
    }
    request.respond(response, current_date(rt))
}

// Responds with the request's body.
fn echo<R: Wait + Clock + Drop>(
    rt: &R,
    alloc: Global,
    request: ServerRequest<R>,
) -> io::Result<()> {
    let mut request = request;
    let mut body = Vec::new(alloc);
    request.as_reader(current_date(rt)).read_to_end(&mut body)?;
    request.respond(Response::from_data(alloc, body), current_date(rt))
}

// Upgrades the request to a protocol in which the server sends `hello` and nothing else. Ignores a refused upgrade.
fn greet<R: Wait + Clock + Drop>(
    rt: &R,
    alloc: Global,
    request: ServerRequest<R>,
) -> io::Result<()> {
    let response = Response::empty(alloc, StatusCode(101));
    let Ok(mut stream) = request.upgrade("greet", response, current_date(rt)) else {
        return Ok(());
    };
    stream.write_all(b"hello")?;
    stream.flush()
}

// Waits until the gate is open, for at most `LONGEST` pauses of one millisecond.
fn wait_at<R: Clock>(rt: &R, gate: &AtomicBool) {
    for _ in 0..LONGEST {
        if gate.load(Ordering::SeqCst) {
            return;
        }
        thread::sleep(rt, Duration::from_millis(1));
    }
}

// Responds with a streaming body: `a`, which is flushed, and `b` after `wait_at`.
fn grow<R: Wait + Clock + Drop>(
    rt: &R,
    alloc: Global,
    request: ServerRequest<R>,
    gate: &AtomicBool,
) -> io::Result<()> {
    let response = Response::empty(alloc, StatusCode(200));
    let mut body = request.respond_streaming(response, current_date(rt))?;
    body.write_all(b"a")?;
    body.flush()?;
    wait_at(rt, gate);
    body.write_all(b"b")?;
    body.finish()
}

// Responds with a streaming body of `LONG` bytes in one write.
fn write_long<R: Wait + Clock + Drop>(
    rt: &R,
    alloc: Global,
    request: ServerRequest<R>,
) -> io::Result<()> {
    let text = vec![in alloc; b'x'; LONG]?;
    let response = Response::empty(alloc, StatusCode(200));
    let mut body = request.respond_streaming(response, current_date(rt))?;
    body.write_all(text.as_slice())?;
    body.finish()
}

impl<R: Host> Handler<R, ServerRequest<R>> for ByPath<R> {
    /// Keeps the request if `keeps_all` is set. Otherwise acts according to the request's target:
    ///
    /// - `/keep`: keeps the request.
    /// - `/drop` and `/drop-err`: drops it.
    /// - `/echo`: responds with its body.
    /// - `/grow`: responds in two pieces, the second after `wait_at`.
    /// - `/long`: responds with `LONG` bytes.
    /// - `/short`: responds with three bytes, and states a length of ten.
    /// - `/greet`: upgrades it.
    /// - `/stop`: begins to stop the server, and responds with the target.
    /// - `/errors`: responds with the number of errors of the handler so far.
    /// - Any other target: responds with the target as the body, for `/wait` after `wait_at`, and for `/close` with a
    ///   response that closes the connection.
    ///
    /// Returns an error for `/err`, once it has responded, and for `/drop-err`. Also returns an error if reading or
    /// responding fails, or if memory can't be allocated.
    fn handle(&self, rt: &R, alloc: Global, request: ServerRequest<R>) -> io::Result<()> {
        let path = request.url();
        if self.keeps_all.load(Ordering::SeqCst) || path == "/keep" {
            let _ = self.kept.push(rt, request);
            return Ok(());
        }
        match path {
            "/drop" => Ok(()),
            "/drop-err" => Err(ErrorKind::Other.into()),
            "/err" => {
                answer_path(rt, alloc, request, false)?;
                Err(ErrorKind::Other.into())
            }
            "/echo" => echo(rt, alloc, request),
            "/grow" => grow(rt, alloc, request, &self.gate),
            "/long" => write_long(rt, alloc, request),
            "/greet" => greet(rt, alloc, request),
            "/short" => {
                let answer = short_answer(alloc, 200, (10, b"abc".to_vec(alloc)?));
                request.respond(answer, current_date(rt))
            }
            "/close" => answer_path(rt, alloc, request, true),
            "/stop" => {
                if let Some(stop_handle) = self.stops.try_pop(rt) {
                    stop_handle.stop();
                }
                answer_path(rt, alloc, request, false)
            }
            "/errors" => {
                let text = format!(in alloc; "{}", self.errors.load(Ordering::SeqCst))?;
                request.respond(text_answer(alloc, text.as_str())?, current_date(rt))
            }
            "/wait" => {
                wait_at(rt, &self.gate);
                answer_path(rt, alloc, request, false)
            }
            _ => answer_path(rt, alloc, request, false),
        }
    }

    /// Counts the error.
    fn on_error(&self, _rt: &R, _alloc: Global, _error: io::Error) {
        self.errors.fetch_add(1, Ordering::SeqCst);
    }
}
