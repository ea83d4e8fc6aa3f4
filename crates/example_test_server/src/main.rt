//! Answers recorded requests with recorded responses, for tests of HTTP clients: `example_test_server ADDRESS FOLDER`.
//!
//! The folder has pairs of files: `NAME.request` with the bytes that a client sends, and `NAME.response` with the bytes
//! that the client gets, which needn't be HTTP. A request matches a recorded one if method, target and body are equal.
//! Each response is sent once; equal requests get theirs in the order of the names. A request without an unsent
//! response is answered with 501, and a request whose body can't be read, or is longer than 2^20 bytes, with 413.
//! `GET /unused` lists the names of responses that have not been sent yet. All requests are read under `Standard`.
//!
//! The program shows how to read requests from bytes (`ClientConnection`), send raw responses (`into_writer`), and end
//! the connection (`close`) after a response that has no length or that `read_answer` can't read whole.
#![tactic(auto)]

use std::alloc::{AllocGlobal, Global};
use std::io::{ErrorKind, Write};
use std::rt::Files;
use std::sync::{Mutex, Wait};
use std::time::Clock;
use std::{env, fs, io};
use tiny_http::answer::read_answer;
use tiny_http::client::ClientConnection;
use tiny_http::device::{Canned, ReadDevice, WriteDevice};
use tiny_http::test::Nowhere;
use tiny_http::{
    AnyRequest, Handler, Host, Method, Profile, Request, Response, Server, ServerOptions,
    StatusCode, current_date,
};

// Number of threads that answer.
const THREADS: usize = 4;

// Maximum length of a body in bytes.
const MOST: usize = 1 << 20;

/// The parts of a request by which it is matched.
#[derive(Drop, PartialEq, Eq)]
struct Asked {
    method: Method,
    target: String,
    body: Vec<u8>,
}

/// A recorded request, its response, and whether the response has been sent.
#[derive(Drop)]
struct Exchange {
    name: String,
    asked: Asked,
    answer: Vec<u8>,
    is_used: bool,
}

/// The recorded exchanges, in the order of their names.
#[derive(Drop)]
struct Recorded {
    exchanges: Mutex<Vec<Exchange>>,
}

// Reads a request's body, and returns the parts by which the request is matched.
fn asked_of<Q: AnyRequest>(alloc: Global, request: &mut Q) -> io::Result<Asked> {
    let body = request.read_whole(MOST)?;
    Ok(Asked {
        method: request.method().try_clone()?,
        target: String::from_str(alloc, request.url())?,
        body,
    })
}

// Reads an exchange from the bytes of a request and of a response.
fn exchange_of<Rt: Clock + Wait + Copy>(
    rt: Rt,
    alloc: Global,
    name: String,
    request: Vec<u8>,
    answer: Vec<u8>,
) -> io::Result<Exchange> {
    let client = Canned::new(request, None);
    let profile = Profile::Standard;
    let mut connection = ClientConnection::over_with(
        rt, alloc, profile, Nowhere, client, None, false,
    )?;
    let Some(mut request) = connection.next(current_date(&rt))? else {
        return Err(ErrorKind::InvalidData.into());
    };
    Ok(Exchange {
        name,
        asked: asked_of(alloc, &mut request)?,
        answer,
        is_used: false,
    })
}

// Reads the exchanges of a folder, in the order of their names.
fn read_folder<Rt: Files + AllocGlobal + Clock + Wait + Copy>(
    rt: Rt,
    alloc: Global,
    folder: &str,
) -> io::Result<Recorded> {
    let mut names = Vec::new(alloc);
    for entry in fs::read_dir(&rt, folder)? {
        if let Some(name) = entry?.file_name().strip_suffix(".request") {
            names.push(String::from_str(alloc, name)?)?;
        }
    }
    names.sort()?;
    let mut exchanges = Vec::new(alloc);
    for name in names {
        let request = format!(in alloc; "{folder}/{name}.request")?;
        let answer = format!(in alloc; "{folder}/{name}.response")?;
        let request = fs::read(&rt, request.as_str())?;
        let answer = fs::read(&rt, answer.as_str())?;
        exchanges.push(exchange_of(rt, alloc, name, request, answer)?)?;
    }
    Ok(Recorded {
        exchanges: Mutex::new(exchanges),
    })
}

impl Recorded {
    // Returns the first response to this request that has not been sent, if any, and marks it as sent.
    fn take<Rt: Wait>(&self, rt: &Rt, asked: &Asked) -> io::Result<Option<Vec<u8>>> {
        for exchange in self.exchanges.lock(rt).as_mut_slice() {
            if !exchange.is_used && exchange.asked == *asked {
                let answer = exchange.answer.clone()?;
                exchange.is_used = true;
                return Ok(Some(answer));
            }
        }
        Ok(None)
    }

    // Returns the names of the exchanges whose responses have not been sent, one per line.
    fn unused<Rt: Wait>(&self, rt: &Rt, alloc: Global) -> io::Result<String> {
        let mut text = String::new(alloc);
        for exchange in self.exchanges.lock(rt).as_slice() {
            if !exchange.is_used {
                text.push_str(exchange.name.as_str())?;
                text.push('\n')?;
            }
        }
        Ok(text)
    }
}

impl<R: ReadDevice + Drop, W: WriteDevice + Drop, Rt: Clock + Wait + Drop> Handler<
    Rt,
    Request<R, W, Rt>,
> for Recorded {
    /// Sends the recorded response to a request, the names for `GET /unused`, or an error.
    fn handle(&self, rt: &Rt, alloc: Global, request: Request<R, W, Rt>) -> io::Result<()> {
        let mut request = request;
        let Ok(asked) = asked_of(alloc, &mut request) else {
            return request.reply_status(StatusCode(413));
        };
        if let Some(answer) = self.take(rt, &asked)? {
            let read = read_answer(alloc, &asked.method, answer.as_slice());
            let is_whole = matches!(read, Ok(Some((_, length))) if length == answer.len());
            let mut writer = request.into_writer();
            writer.write_all(answer.as_slice())?;
            // A response that isn't whole on its own ends with its connection.
            return if is_whole {
                writer.flush()
            } else {
                writer.close()
            };
        }
        if asked.method == Method::Get && asked.target.as_str() == "/unused" {
            let text = self.unused(rt, alloc)?;
            return request.reply(Response::from_string(alloc, text)?);
        }
        request.reply_status(StatusCode(501))
    }

    /// Drops the error.
    fn on_error(&self, _rt: &Rt, _alloc: Global, _error: io::Error) {}
}

// Listens on this address, prints it, and sends the recorded responses.
fn serve<Rt: Host, O: Write>(
    rt: Rt,
    alloc: Global,
    address: &str,
    recorded: &Recorded,
    out: &mut O,
) -> io::Result<()> {
    let server = Server::bind(rt, alloc, address, ServerOptions::open_port())?;
    writeln!(out, "listening on {}", server.server_addr())?;
    out.flush()?;
    server.serve_by(alloc, THREADS, recorded)
}

fn main(rt: HostRuntime) -> io::Result<()> {
    let alloc = rt.alloc();
    let words: Vec<String> = env::args(&rt)?.collect(alloc)?;
    let [_, address, folder] = words.as_slice() else {
        return Err(ErrorKind::InvalidInput.into());
    };
    let recorded = read_folder(rt, alloc, folder.as_str())?;
    serve(rt, alloc, address.as_str(), &recorded, &mut rt.stdout())
}
