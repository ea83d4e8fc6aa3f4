//! Answers every request with `hello world`: `hello ADDRESS`.
#![tactic(auto)]

ghost use Rattle.std.specs.Prelude.{◌≡◌, ◌≤◌, ◌<◌, ◌⊎◌, length};
ghost use Rattle.hello.specs.HelloFault.{exit_status};

mod fault;
#[cfg(test)]
mod same;
#[cfg(test)]
mod tests;

use crate::fault::HelloFault;
use std::alloc::Global;
use std::io::{ErrorKind, Write};
use std::process::ExitCode;
use std::rt::Env;
use std::sync::Wait;
use std::time::Clock;
use std::{env, io};
use tiny_http::response::Response;
use tiny_http::server::{Host, Server, ServerRequest, current_date};
use tiny_http::serving::Handler;

/// A handler that answers every request with the same text.
struct HelloWorld;

impl<R: Clock + Wait + Drop> Handler<R, ServerRequest<R>> for HelloWorld {
    /// Answers a request, or drops it if memory for the response can't be allocated. A disconnected client is not an
    /// error.
    fn handle(&self, rt: &R, alloc: Global, request: ServerRequest<R>) -> io::Result<()> {
        let text = String::from_str(alloc, "hello world")?;
        request.respond(Response::from_string(alloc, text)?, current_date(rt))
    }

    /// Drops the error.
    fn on_error(&self, _rt: &R, _alloc: Global, _error: io::Error) {}
}

// Answers requests of a server on four threads until `serve_by` returns, and ignores its error.
fn answer_all<R: Host>(alloc: Global, server: &Server<R>) {
    let _ = server.serve_by(alloc, 4, &HelloWorld);
}

// Listens on the address in the only argument, prints it, and answers all requests.
fn hello<'a, R: Host, O: Write>(
    rt: R,
    alloc: Global,
    words: &'a [String],
    out: &mut O,
) -> Result<(), HelloFault<'a>> {
    let [address] = words else {
        return Err(HelloFault::Usage);
    };
    let address = address.as_str();
    let Ok(server) = Server::http(rt, alloc, address) else {
        return Err(HelloFault::CannotListen(address));
    };
    let bound = server.server_addr();
    let _ = writeln!(out, "listening on {bound}");
    let _ = out.flush();
    answer_all(alloc, &server);
    Ok(())
}

// Reports an error on one line, and returns its exit status.
fn report<E: Write>(fault: &HelloFault<'_>, err: &mut E) -> u8
    ensures { result ≡ exit_status fault.now }
{
    let _ = writeln!(err, "hello: {fault}");
    fault.status()
}

/// Listens on the address in the only argument, prints it on `out`, and answers every request with `hello world` until
/// serving ends. Returns the exit status: 0, even if serving ended with an error; 2 if there isn't exactly one
/// argument; 1 if the program can't listen on the address. A line on `err` reports the error if the status isn't 0.
pub fn hello_on<R: Host, O: Write, E: Write>(
    rt: R,
    alloc: Global,
    words: &[String],
    out: &mut O,
    err: &mut E,
) -> u8 {
    match hello(rt, alloc, words, out) {
        Ok(()) => 0,
        Err(fault) => report(&fault, err),
    }
}

// Returns the words of the command line, the program's name first. An argument that isn't UTF-8 is a usage error.
fn words<R: Env + AllocGlobal>(rt: &R) -> Result<Vec<String>, HelloFault<'static>> {
    match env::args(rt) {
        Ok(words) => match words.collect(rt.alloc()) {
            Ok(words) => Ok(words),
            Err(_) => Err(HelloFault::OutOfMemory),
        },
        Err(fault) if fault.kind() == ErrorKind::OutOfMemory => Err(HelloFault::OutOfMemory),
        Err(_) => Err(HelloFault::Usage),
    }
}

fn main(rt: HostRuntime) -> ExitCode {
    let mut out = rt.stdout();
    let mut err = rt.stderr();
    let words = match words(&rt) {
        Ok(words) => words,
        Err(fault) => return ExitCode::from(report(&fault, &mut err)),
    };
    let words = words.as_slice().get(1..).unwrap_or(&[]);
    ExitCode::from(hello_on(rt, rt.alloc(), words, &mut out, &mut err))
}
