//! Serves notes, kept in memory, as JSON: `example_router ADDRESS`.
//!
//! `GET /notes` lists the notes, `POST /notes` adds a note from `{"text": ..}`, `GET /notes/{id}` returns a note, and
//! `DELETE /notes/{id}` removes it. `GET /events` sends the notes as server-sent events. Errors that the handler finds
//! in a request are reported as JSON. If reading the body fails for any other reason, or memory can't be allocated
//! before a response has begun, the request is dropped, which answers it with an empty 500.
//!
//! The program shows routes with `matchit`, JSON with `serde_json`, state shared by threads, a body read whole
//! (`read_whole`), a body that grows while it is sent (`reply_streaming`), and a handler that accepts any request.
#![tactic(auto)]

mod notes;

use crate::notes::{Notebook, fault};
use std::alloc::Global;
use std::io::{ErrorKind, Write};
use std::sync::{Arc, Wait};
use std::time::Clock;
use std::{env, io};
use tiny_http::device::{ReadDevice, WriteDevice};
use tiny_http::{
    AnyRequest, BodyError, Handler, Host, Method, Request, Response, Server, ServerOptions,
    StatusCode,
};

// Maximum length of a body in bytes.
const MOST: usize = 1 << 16;

impl Notebook {
    // Sends the notes as server-sent events. The lock isn't held while a write waits for the client.
    fn send_events<Rt: Wait, Q: AnyRequest>(
        &self,
        rt: &Rt,
        alloc: Global,
        request: Q,
    ) -> io::Result<()> {
        let values = self.values(rt, alloc)?;
        let head = Response::empty(alloc, StatusCode(200));
        let head = head.with(alloc, "Content-Type", "text/event-stream")?;
        let mut body = request.reply_streaming(head)?;
        for value in values.iter() {
            // `serde_json` writes no line breaks, so each note is one event.
            write!(body, "data: {value}\n\n")?;
            body.flush()?;
        }
        body.finish()
    }
}

impl<R: ReadDevice + Drop, W: WriteDevice + Drop, Rt: Clock + Wait + Drop> Handler<
    Rt,
    Request<R, W, Rt>,
> for Notebook {
    /// Answers a request for the notes or the events.
    fn handle(&self, rt: &Rt, alloc: Global, request: Request<R, W, Rt>) -> io::Result<()> {
        let mut request = request;
        let is_read = matches!(request.method(), Method::Get | Method::Head);
        if is_read && request.path() == "/events" {
            return self.send_events(rt, alloc, request);
        }
        let answer = match request.read_whole(MOST) {
            Ok(body) => self.answer(rt, alloc, request.method(), request.path(), body.as_slice())?,
            Err(BodyError::TooLong) => fault(alloc, 413, "too long")?,
            Err(BodyError::Cut | BodyError::Broken) => fault(alloc, 400, "a body that is cut")?,
            Err(error) => return Err(error.into()),
        };
        request.reply(answer)
    }

    /// Drops the error.
    fn on_error(&self, _rt: &Rt, _alloc: Global, _error: io::Error) {}
}

// Listens on this address, prints it, and serves the notebook.
fn serve<Rt: Host, O: Write>(rt: Rt, alloc: Global, address: &str, out: &mut O) -> io::Result<()> {
    let Ok(notebook) = Notebook::new(alloc) else {
        return Err(ErrorKind::OutOfMemory.into());
    };
    let Ok(handler) = Arc::new(alloc, notebook) else {
        return Err(ErrorKind::OutOfMemory.into());
    };
    // Under `Standard` a body that is refused as too long ends its connection.
    let server = Server::bind(rt, alloc, address, ServerOptions::open_port())?;
    writeln!(out, "listening on {}", server.server_addr())?;
    out.flush()?;
    server.serve(alloc, &handler)
}

fn main(rt: HostRuntime) -> io::Result<()> {
    let words: Vec<String> = env::args(&rt)?.collect(rt.alloc())?;
    let [_, address] = words.as_slice() else {
        return Err(ErrorKind::InvalidInput.into());
    };
    serve(rt, rt.alloc(), address.as_str(), &mut rt.stdout())
}
