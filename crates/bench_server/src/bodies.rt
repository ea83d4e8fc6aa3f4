//! Reads the bodies of requests and sends long bodies, without limits and under `Lenient`, as the Rust crate does. With
//! `recv`, four threads receive requests; with `serve`, the server's workers handle them.
//!
//! A `PUT` or a `POST` is answered with the length of its body, and `GET /` with `hello world`. `GET /identity` sends
//! from memory, and not in chunks, the bytes that the file named on the command line had at the start; `GET /chunked`
//! sends them in chunks. `GET /file` and `GET /file/chunked` send the file itself in the same two ways. Any other
//! request is answered with 404.
use crate::BenchFault;
use std::alloc::{AllocError, Global};
use std::fs::{File, Files};
use std::io::{ErrorKind, Read, Write};
use std::sync::{Arc, Wait};
use std::time::Clock;
use std::{io, thread};
use tiny_http::common::{Method, StatusCode};
use tiny_http::device::{Metered, ReadDevice};
use tiny_http::response::Response;
use tiny_http::server::{Server, ServerRequest, ServerRuntime, current_date};
use tiny_http::serving::Handler;

// Number of bytes that one read of a body asks for.
const PIECE: usize = 8192;

/// A runtime that can open a file to send. Any runtime with files implements it.
pub trait DataFiles {
    /// Opens the file with this name. Fails with the system's error.
    fn open_data(&self, name: &str) -> io::Result<File>;
}

impl<R: Files<File = File>> DataFiles for R {
    fn open_data(&self, name: &str) -> io::Result<File> {
        File::open(self, name)
    }
}

// Reads a body to its end, and returns its length.
fn length_of<D: ReadDevice>(body: &mut D) -> io::Result<u64> {
    let mut buf = [0u8; PIECE];
    let mut count = 0u64;
    for _ in 0..u64::MAX {
        let n = body.read_in(&mut buf)?;
        if n == 0 {
            return Ok(count);
        }
        count = count.saturating_add(n as u64);
    }
    Err(ErrorKind::Other.into())
}

// Returns whether a body is shorter than its `Content-Length` states. Under `Lenient`, reads don't report that as an
// error.
fn is_cut(length: Option<usize>, count: u64) -> bool {
    match length {
        Some(length) => count < length as u64,
        None => false,
    }
}

// Answers a request with the length of its body. Fails if the body is cut or broken.
fn answer_length<R: Clock + Wait + Drop>(
    rt: &R,
    alloc: Global,
    mut request: ServerRequest<R>,
) -> io::Result<()> {
    let count = length_of(request.as_reader(current_date(rt)))?;
    if is_cut(request.body_length(), count) {
        return Err(ErrorKind::UnexpectedEof.into());
    }
    let text = format!(in alloc; "{count}")?;
    answer_text(rt, alloc, request, text.as_str())
}

// Answers a request with this text.
fn answer_text<R: Clock + Wait + Drop>(
    rt: &R,
    alloc: Global,
    request: ServerRequest<R>,
    text: &str,
) -> io::Result<()> {
    let response = Response::from_string(alloc, String::from_str(alloc, text)?)?;
    request.respond(response, current_date(rt))
}

/// A file to send: its name, and the bytes that it had at the start.
#[derive(Drop)]
pub struct Data {
    pub name: String,
    pub bytes: Vec<u8>,
}

impl Data {
    // Answers a request with the bytes in memory, with this chunked threshold.
    fn answer_from_memory<R: Clock + Wait + Drop>(
        &self,
        rt: &R,
        alloc: Global,
        request: ServerRequest<R>,
        threshold: usize,
    ) -> io::Result<()> {
        let data = Metered::new(self.bytes.as_slice());
        let response = Response::empty(alloc, StatusCode(200))
            .with_data(data, Some(self.bytes.len()))
            .with_chunked_threshold(threshold);
        request.respond(response, current_date(rt))
    }

    // Answers a request with the file, with this chunked threshold.
    fn answer_from_file<R: DataFiles + Clock + Wait + Drop>(
        &self,
        rt: &R,
        alloc: Global,
        request: ServerRequest<R>,
        threshold: usize,
    ) -> io::Result<()> {
        let file = rt.open_data(self.name.as_str())?;
        let response = Response::from_file(alloc, file).with_chunked_threshold(threshold);
        request.respond(response, current_date(rt))
    }
}

impl<R: DataFiles + Clock + Wait + Drop> Handler<R, ServerRequest<R>> for Data {
    /// Answers a request. Drops it if its body is cut or broken, if memory can't be allocated, or if the file can't be
    /// opened.
    fn handle(&self, rt: &R, alloc: Global, request: ServerRequest<R>) -> io::Result<()> {
        match (request.method(), request.url()) {
            (Method::Put | Method::Post, _) => answer_length(rt, alloc, request),
            (Method::Get, "/") => answer_text(rt, alloc, request, "hello world"),
            (Method::Get, "/identity") => self.answer_from_memory(rt, alloc, request, usize::MAX),
            (Method::Get, "/chunked") => self.answer_from_memory(rt, alloc, request, 0),
            (Method::Get, "/file") => self.answer_from_file(rt, alloc, request, usize::MAX),
            (Method::Get, "/file/chunked") => self.answer_from_file(rt, alloc, request, 0),
            _ => request.respond(Response::empty(alloc, StatusCode(404)), current_date(rt)),
        }
    }

    /// Drops the error.
    fn on_error(&self, _rt: &R, _alloc: Global, _error: io::Error) {}
}

// Answers requests until none can be received, then unblocks another waiting thread so that it ends, too.
fn answer_all<R: ServerRuntime + DataFiles>(
    rt: &R,
    alloc: Global,
    server: &Server<R>,
    data: &Data,
) {
    let mut requests = server.incoming_requests();
    for _ in rt.forever() {
        let Some(request) = requests.next() else {
            let _ = server.unblock();
            return;
        };
        let _ = data.handle(rt, alloc, request);
    }
}

// Answers all requests of a server on two threads.
fn answer_by_two<R: ServerRuntime + DataFiles + Sync>(
    rt: &R,
    alloc: Global,
    server: &Server<R>,
    data: &Data,
) {
    thread::join(
        rt,
        || answer_all(rt, alloc, server, data),
        || answer_all(rt, alloc, server, data),
    );
}

// Answers all requests of a server on four threads.
fn answer_by_four<R: ServerRuntime + DataFiles + Sync>(
    rt: &R,
    alloc: Global,
    server: &Server<R>,
    data: &Data,
) {
    thread::join(
        rt,
        || answer_by_two(rt, alloc, server, data),
        || answer_by_two(rt, alloc, server, data),
    );
}

/// Listens on the address, prints it, and serves with `recv` or `serve`, as `how` says. For any other word it fails
/// with `Usage`, and doesn't listen.
pub fn serve_bodies<R: ServerRuntime + DataFiles + Sync, O: Write>(
    rt: R,
    alloc: Global,
    how: &str,
    address: &str,
    data: Data,
    out: &mut O,
) -> Result<(), BenchFault> {
    let receives = match how {
        "recv" => true,
        "serve" => false,
        _ => return Err(BenchFault::Usage),
    };
    let server = Server::http(rt, alloc, address)?;
    let _ = writeln!(out, "listening on {}", server.server_addr());
    let _ = out.flush();
    if receives {
        answer_by_four(&rt, alloc, &server, &data);
    } else {
        server.serve(alloc, &Arc::new(alloc, data).map_err(|_| AllocError)?)?;
    }
    Ok(())
}
