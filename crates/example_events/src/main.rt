//! A page on which all visitors see what each of them says: `example_events ADDRESS`.
//!
//! `GET /` returns the page, `POST /say` adds the message in its body, `GET /events` streams the messages after
//! `Last-Event-ID` as server-sent events, and `GET /streams` returns how many streams are open. A stream holds its
//! worker while it lasts, so only so many may be open; `serve` starts further workers for the other connections. It ends
//! when a write fails, at most two heartbeats after its client has gone.
#![tactic(auto)]

mod board;

use crate::board::Board;
use std::alloc::Global;
use std::io::{ErrorKind, Write};
use std::sync::atomic::Ordering::SeqCst;
use std::sync::{Arc, Wait};
use std::time::{Clock, Duration};
use std::{env, io};
use tiny_http::device::{ReadDevice, WriteDevice};
use tiny_http::{
    AnyRequest, BodyError, Handler, Host, Method, Request, Response, Server, ServerOptions,
    StatusCode,
};
use tiny_http_events::event::Event;
use tiny_http_events::stream::{EventStream, last_event_id, reply_events};

// Maximum length of a message in bytes.
const LONGEST: usize = 4096;

// Maximum number of open streams: half of the workers that `Limits::new` allows.
const MOST_STREAMS: u64 = 500;

// Seconds without a message after which a stream sends a heartbeat.
const HEARTBEAT: u64 = 3;

const PAGE: &str = "<!DOCTYPE html><title>Messages</title><ul id=list></ul>
<form id=form><input id=text><button>Say</button></form><script>
new EventSource('/events').onmessage = e => {
  const item = document.createElement('li'); item.textContent = e.data; list.append(item);
};
form.onsubmit = e => { e.preventDefault(); fetch('/say', {method: 'POST', body: text.value}); form.reset(); };
</script>";

impl Board {
    // Sends the messages after the last one that the client has received, until the client has gone.
    fn send<Rt: Clock + Wait, W: Write>(
        &self,
        rt: &Rt,
        alloc: Global,
        stream: &mut EventStream<W>,
        last_id: Option<usize>,
    ) -> io::Result<()> {
        // An ID of an earlier run may be greater than all of this one.
        let mut count = last_id.unwrap_or(0).min(self.count(rt));
        for _ in rt.forever() {
            let time = Duration::from_secs(HEARTBEAT);
            let Some(text) = self.next(rt, count, time)? else {
                stream.comment("")?;
                continue;
            };
            count = count.saturating_add(1);
            let id = format!(in alloc; "{count}")?;
            stream.send(&Event::new(text.as_str()).with_id(id.as_str())?)?;
        }
        Ok(())
    }
}

impl<R: ReadDevice + Drop, W: WriteDevice + Drop, Rt: Host> Handler<Rt, Request<R, W, Rt>>
    for Board {
    /// Answers a request by its method and path.
    fn handle(&self, rt: &Rt, alloc: Global, request: Request<R, W, Rt>) -> io::Result<()> {
        let mut request = request;
        let answer = match (request.method(), request.path()) {
            (Method::Get | Method::Head, "/events") => {
                if self.streams.load(SeqCst) >= MOST_STREAMS {
                    return request.reply_status(StatusCode(503));
                }
                let last_id = last_event_id(&request).and_then(|id| id.parse::<usize>().ok());
                let Some(mut stream) = reply_events(request)? else {
                    return Ok(());
                };
                self.streams.fetch_add(1, SeqCst);
                let sent = self.send(rt, alloc, &mut stream, last_id);
                self.streams.fetch_sub(1, SeqCst);
                return sent;
            }
            (Method::Post, "/say") => match request.read_whole(LONGEST) {
                Ok(body) => Response::status(alloc, StatusCode(self.add(rt, alloc, body)?))?,
                Err(BodyError::TooLong) => Response::status(alloc, StatusCode(413))?,
                Err(error) => return Err(error.into()),
            },
            (Method::Get, "/streams") => {
                Response::from_string(alloc, self.streams.load(SeqCst).to_string(alloc)?)?
            }
            (Method::Get | Method::Head, "/") => {
                let page = Response::from_data(alloc, PAGE.as_bytes().to_vec(alloc)?);
                page.with(alloc, "Content-Type", "text/html; charset=utf-8")?
            }
            _ => Response::status(alloc, StatusCode(404))?,
        };
        request.reply(answer)
    }

    /// Drops the error.
    fn on_error(&self, _rt: &Rt, _alloc: Global, _error: io::Error) {}
}

fn main(rt: HostRuntime) -> io::Result<()> {
    let words: Vec<String> = env::args(&rt)?.collect(rt.alloc())?;
    let [_, address] = words.as_slice() else {
        return Err(ErrorKind::InvalidInput.into());
    };
    let server = Server::bind(rt, rt.alloc(), address.as_str(), ServerOptions::open_port())?;
    server.serve(rt.alloc(), &Arc::new(rt.alloc(), Board::new(rt.alloc()))?)
}
