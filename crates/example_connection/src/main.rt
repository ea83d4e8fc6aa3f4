//! Drives a `Connection` without threads: it reads requests from standard input, and writes responses to standard
//! output. A `GET` is answered with its target, and a `POST` with its body, or with 413 if the body is longer than 2048
//! bytes. Any other request is dropped, which answers it with an empty 500.
#![tactic(auto)]

use httpdate::HttpDate;
use std::alloc::Global;
use std::io;
use std::io::ErrorKind;
use tiny_http_core::driver::{Connection, Reply};
use tiny_http_wire::common::{Method, StatusCode};
use tiny_http_wire::device::{Metered, ReadDevice, WriteDevice};
use tiny_http_wire::response::Response;

// The number of bytes that one read asks for.
const PIECE: u16 = 1024;

// Maximum number of reads for a body: two that return bytes, and one that finds the end. So a body has at most 2048
// bytes.
const PIECES: u16 = 3;

// Reads the whole body of a request. Returns `None` if that takes more than `PIECES` reads.
fn read_body<R: ReadDevice + Drop, W: WriteDevice + Drop>(
    alloc: Global,
    connection: &mut Connection<R, W>,
    number: u64,
) -> io::Result<Option<Vec<u8>>> {
    let mut body = Vec::new(alloc);
    for _ in 0..PIECES {
        let piece = match connection.read(alloc, number, PIECE) {
            Reply::Given(bytes) => bytes,
            Reply::Fault(kind) => return Err(kind.into()),
            Reply::Memory => return Err(ErrorKind::OutOfMemory.into()),
            _other => return Err(ErrorKind::Other.into()),
        };
        if piece.is_empty() {
            return Ok(Some(body));
        }
        body.extend_from_slice(piece.as_slice())?;
    }
    Ok(None)
}

// Answers a request with its target, `path`.
fn answer_path<R: ReadDevice + Drop, W: WriteDevice + Drop>(
    alloc: Global,
    connection: &mut Connection<R, W>,
    number: u64,
    path: &str,
    now: HttpDate,
) -> io::Result<()> {
    let response = Response::from_string(alloc, String::from_str(alloc, path)?)?;
    match connection.respond(alloc, now, number, response) {
        Reply::Fault(kind) => Err(kind.into()),
        _ => Ok(()),
    }
}

// Answers a request with its body, or with 413 if the body is too long. A client that expects a 100 gets it first.
fn echo<R: ReadDevice + Drop, W: WriteDevice + Drop>(
    alloc: Global,
    connection: &mut Connection<R, W>,
    number: u64,
    now: HttpDate,
) -> io::Result<()> {
    connection.send_continue(alloc, now, number);
    let reply = match read_body(alloc, connection, number)? {
        Some(body) => connection.respond(alloc, now, number, Response::from_data(alloc, body)),
        None => connection.respond(alloc, now, number, Response::empty(alloc, StatusCode(413))),
    };
    match reply {
        Reply::Fault(kind) => Err(kind.into()),
        _ => Ok(()),
    }
}

// Answers the requests of a client until there are no more.
fn serve<R: ReadDevice + Drop, W: WriteDevice + Drop>(
    alloc: Global,
    reader: R,
    writer: W,
    now: HttpDate,
) -> io::Result<()> {
    let mut connection = Connection::new(alloc, reader, writer);
    for _ in 0..u64::MAX {
        match connection.ask(alloc, now) {
            Reply::Handed(number, head) => {
                match head.method {
                    Method::Get => {
                        answer_path(alloc, &mut connection, number, head.path.as_str(), now)?;
                    }
                    Method::Post => echo(alloc, &mut connection, number, now)?,
                    _ => drop(connection.drop_request(number)),
                }
            }
            Reply::Memory => return Err(ErrorKind::OutOfMemory.into()),
            _ => break,
        }
    }
    Ok(())
}

fn main(rt: HostRuntime) -> io::Result<()> {
    // Wed, 04 May 1983 11:17:00 GMT, in seconds since the beginning of 1970.
    let Ok(now) = HttpDate::from_unix_secs(420_895_020) else {
        return Err(ErrorKind::InvalidInput.into());
    };
    serve(
        rt.alloc(),
        Metered::new(rt.stdin()),
        Metered::new(rt.stdout()),
        now,
    )
}
