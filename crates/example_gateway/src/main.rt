//! Forwards requests to another HTTP server, and its responses to the clients: `example_gateway ADDRESS BACKEND`.
//!
//! The client gets a 502 if its request can't be forwarded or the response isn't understood, a 504 after a timeout, and
//! a 501 for `CONNECT`. A timeout occurs if connecting to the backend times out, if the backend accepts nothing for ten
//! seconds, if it doesn't respond within ten seconds after the request has been sent, or if reading the client's body
//! times out.
//!
//! A response that arrives before the whole request has been sent is forwarded too (module `backend`). Each message is
//! framed anew, so a body is never taken for the next request. Headers that apply to one connection, and those that
//! `Connection` names, aren't forwarded (RFC 9110, section 7.6.1).
//!
//! The program shows how to borrow a head together with its body (`parts`), read the head of a response
//! (`read_answer_head`), send a body of known length (`Response::of`), and send a body as it arrives
//! (`respond_streaming`).
#![tactic(auto)]

mod backend;
mod heads;

use crate::backend::{Backend, PIECE, Rest};
use crate::heads::{Ending, answer_with, ending_of, head_of};
use std::alloc::Global;
use std::io::{ErrorKind, Read, Write};
use std::net::{Net, TcpStream};
use std::sync::{Arc, Wait};
use std::time::Clock;
use std::{env, io};
use tiny_http::chunked::Decoder;
use tiny_http::device::{Metered, ReadDevice, WriteDevice};
use tiny_http::encoder::Encoder;
use tiny_http::{
    Handler, Host, Method, Request, Response, Server, ServerOptions, StatusCode, StreamedForm,
    current_date,
};
use tiny_http_client::answer_head::AnswerHead;

/// A gateway to one backend.
#[derive(Drop)]
struct Gateway {
    backend: String,
}

// Copies all that a reader returns to a writer, and flushes after each piece.
fn pipe<F: Read, T: Write>(from: &mut F, to: &mut T) -> io::Result<()> {
    let mut piece = [0u8; PIECE];
    for _ in 0..u64::MAX {
        let n = from.read(&mut piece)?;
        if n == 0 {
            break;
        }
        to.write_all(&piece[..n])?;
        to.flush()?;
    }
    Ok(())
}

// Sends a request's head and body to the backend. Fails if the body is cut, which is an error under `Standard`.
fn send_request<R: ReadDevice + Drop, W: WriteDevice + Drop, Rt: Clock + Wait + Drop>(
    rt: &Rt,
    backend: &mut Backend<'_, Rt>,
    head: &str,
    request: &mut Request<R, W, Rt>,
) -> io::Result<()> {
    backend.write_all(head.as_bytes())?;
    let (head, body) = request.parts(current_date(rt));
    if head.body_length().is_none() && head.header("Transfer-Encoding").is_some() {
        let mut chunks = Encoder::new(Metered::new(backend));
        pipe(body, &mut chunks)?;
        let _ = chunks.finish()?;
        return Ok(());
    }
    pipe(body, backend)
}

// Forwards a response of unknown length as it arrives. A response without content is finished at once.
fn stream<D: Read + Drop, R, W, Rt>(
    rt: &Rt,
    alloc: Global,
    request: Request<R, W, Rt>,
    (head, ending, data): (AnswerHead, Ending, D),
) -> io::Result<()>
where
    R: ReadDevice + Drop,
    W: WriteDevice + Drop,
    Rt: Clock + Wait + Drop,
{
    let answer = answer_with(head, io::empty(), alloc, None)?;
    let mut body = request.respond_streaming(answer, current_date(rt))?;
    body.flush()?;
    let mut data = data;
    match ending {
        _ if body.form() == StreamedForm::Absent => {}
        Ending::Chunks => pipe(&mut Decoder::new(Metered::new(data)), &mut body)?,
        _ => pipe(&mut data, &mut body)?,
    }
    body.finish()
}

impl Gateway {
    // Sends a request, and reads the head of the response, which may arrive before the whole request has been sent.
    // Returns the head, how the body ends, and the body's reader.
    fn ask<R: ReadDevice + Drop, W: WriteDevice + Drop, Rt>(
        &self,
        rt: &Rt,
        alloc: Global,
        request: &mut Request<R, W, Rt>,
    ) -> io::Result<(AnswerHead, Ending, Rest)>
    where
        Rt: Net<Stream = TcpStream> + Clock + Wait + Drop,
    {
        let head = head_of(alloc, request, self.backend.as_str())?;
        let mut backend = Backend::connect(rt, alloc, self.backend.as_str())?;
        let sent = send_request(rt, &mut backend, head.as_str(), request);
        if !backend.is_answered() {
            sent?;
        }
        let (head, rest) = backend.into_answer()?;
        let Some(ending) = ending_of(head.headers.as_slice()) else {
            return Err(ErrorKind::InvalidData.into());
        };
        Ok((head, ending, rest))
    }
}

impl<R, W, Rt> Handler<Rt, Request<R, W, Rt>> for Gateway
where
    R: ReadDevice + Drop,
    W: WriteDevice + Drop,
    Rt: Net<Stream = TcpStream> + Clock + Wait + Drop,
{
    /// Answers a request with the backend's response, or with a 501, 502 or 504.
    fn handle(&self, rt: &Rt, alloc: Global, request: Request<R, W, Rt>) -> io::Result<()> {
        let mut request = request;
        if request.method() == &Method::Connect {
            let answer = Response::status(alloc, StatusCode(501))?;
            return request.respond(answer, current_date(rt));
        }
        let (head, ending, data) = match self.ask(rt, alloc, &mut request) {
            Ok(asked) => asked,
            Err(fault) => {
                let code = match fault.kind() {
                    ErrorKind::WouldBlock | ErrorKind::TimedOut => 504,
                    _ => 502,
                };
                let answer = Response::status(alloc, StatusCode(code))?;
                return request.respond(answer, current_date(rt));
            }
        };
        let Ending::Length(length) = ending else {
            return stream(rt, alloc, request, (head, ending, data));
        };
        let answer = answer_with(head, Metered::new(data), alloc, Some(length))?;
        request.respond(answer.with_chunked_threshold(usize::MAX), current_date(rt))
    }

    /// Drops the error.
    fn on_error(&self, _rt: &Rt, _alloc: Global, _error: io::Error) {}
}

// Listens on this address, prints it, and serves the gateway.
fn serve<Rt: Host, O: Write>(
    rt: Rt,
    alloc: Global,
    address: &str,
    gateway: Gateway,
    out: &mut O,
) -> io::Result<()> {
    let server = Server::bind(rt, alloc, address, ServerOptions::open_port())?;
    writeln!(out, "listening on {}", server.server_addr())?;
    out.flush()?;
    match Arc::new(alloc, gateway) {
        Ok(gateway) => server.serve(alloc, &gateway),
        Err(_) => Err(ErrorKind::OutOfMemory.into()),
    }
}

fn main(rt: HostRuntime) -> io::Result<()> {
    let alloc = rt.alloc();
    let words: Vec<String> = env::args(&rt)?.collect(alloc)?;
    let [_, address, backend] = words.as_slice() else {
        return Err(ErrorKind::InvalidInput.into());
    };
    let backend = String::from_str(alloc, backend.as_str())?;
    serve(
        rt,
        alloc,
        address.as_str(),
        Gateway { backend },
        &mut rt.stdout(),
    )
}
