//! Streams of events: the response, and the writer of its body.
ghost use Rattle.std.specs.Prelude.{◌≡◌, codes, IfOk, OnOk};
ghost use Rattle.std.specs.Option.{option_copied};
ghost use Rattle.tiny_http_body.specs.Framing.{value_of};
ghost use Rattle.tiny_http_events.specs.Events.{event_text, comment_text};
ghost use Rattle.tiny_http_events.specs.Responses.{stream_answer};

use crate::event::{Event, append_comment};
use std::alloc::{AllocError, Global};
use std::io;
use std::io::Write;
use std::sync::Wait;
use tiny_http_head::common::StatusCode;
use tiny_http_io::device::WriteDevice;
use tiny_http_request::any_request::AnyRequest;
use tiny_http_request::request::{StreamedBody, StreamedForm};
use tiny_http_response::response::Response;

/// Returns the value of the first `Last-Event-ID` header: the ID of the last event that a client which reconnects has
/// received (HTML standard, section 9.2.4). Returns `None` if there is none.
pub fn last_event_id<Q: AnyRequest>(request: &Q) -> Option<&str>
    ensures { option_copied result ≡ value_of (codes "Last-Event-ID") (Q.head request.now).headers.items }
{
    request.header("Last-Event-ID")
}

/// Returns the response that `reply_events` begins: a 200 with `Content-Type: text/event-stream` and
/// `Cache-Control: no-store`. A program may add headers to it. Fails if memory can't be allocated.
pub fn stream_response(alloc: Global) -> Result<Response<io::Empty>, AllocError>
    ensures { IfOk result (λ r. r.answer ≡ stream_answer) }
{
    let response = Response::empty(alloc, StatusCode(200));
    let Ok(response) = response.with(alloc, "Content-Type", "text/event-stream") else {
        return Err(AllocError);
    };
    response
        .with(alloc, "Cache-Control", "no-store")
        .map_err(|_| AllocError)
}

// Replaces a text by that of an event. Fails if memory can't be allocated.
fn replace_by_event(text: &mut Vec<u8>, event: &Event) -> Result<(), AllocError>
    ensures { OnOk result (text.new.items ≡ event_text event.now) }
{
    text.clear();
    event.append_to(text)
}

// Replaces a text by that of a comment. Fails if memory can't be allocated.
fn replace_by_comment(text: &mut Vec<u8>, comment: &str) -> Result<(), AllocError>
    ensures { OnOk result (text.new.items ≡ comment_text comment.now) }
{
    text.clear();
    append_comment(comment, text)
}

/// A writer of events and comments, mostly over the body of a response that grows while it is sent. Each call sends
/// what it writes. It keeps the memory of its longest text for the next.
///
/// A client that has gone is noticed only by writing: the first or the second write after that fails. So a stream
/// without an end must write regularly, for example a comment every 15 seconds if there is no event, or it keeps its
/// thread and its connection. After an error the stream is over: what the client has got of it may be cut.
#[derive(Drop)]
pub struct EventStream<W: Write> {
    inner: W,
    text: Vec<u8>,
}

impl<W: Write> EventStream<W> {
    /// Creates a stream on a writer to which nothing, or whole events, have been written. Allocates nothing.
    pub fn new(alloc: Global, inner: W) -> EventStream<W> {
        EventStream {
            inner,
            text: Vec::new(alloc),
        }
    }

    // Writes the text and flushes the writer.
    fn put(&mut self) -> io::Result<()> {
        self.inner.write_all(self.text.as_slice())?;
        self.inner.flush()
    }

    /// Writes the event and flushes the writer. Fails with the writer's fault, or if memory can't be allocated; in that
    /// case nothing is written.
    pub fn send(&mut self, event: &Event) -> io::Result<()> {
        replace_by_event(&mut self.text, event)?;
        self.put()
    }

    /// Writes a comment, which the browser ignores, and flushes the writer. A comment with empty text is a heartbeat.
    /// Fails as `send` does.
    pub fn comment(&mut self, comment: &str) -> io::Result<()> {
        replace_by_comment(&mut self.text, comment)?;
        self.put()
    }

    /// Returns the writer.
    pub fn into_inner(self) -> W {
        let Self { inner, text } = self;
        drop(text);
        inner
    }
}

impl<W: WriteDevice + Drop, Rt: Wait + Drop> EventStream<StreamedBody<W, Rt>> {
    /// Ends the body, and with it the turn of the request, as `StreamedBody::finish` does. A browser reconnects after
    /// the end; it doesn't if it gets a 204 then.
    pub fn finish(self) -> io::Result<()> {
        self.into_inner().finish()
    }
}

/// Begins the response that `stream_response` returns, and sends its head, in the turn of the request. Returns `None` if
/// the body mustn't be sent, as after a `HEAD`: then the response is complete. Fails as `Request::respond_streaming`
/// does, or if memory can't be allocated.
pub fn reply_events<Q: AnyRequest>(
    request: Q,
) -> io::Result<Option<EventStream<StreamedBody<Q::Output, Q::Runtime>>>> {
    let response = stream_response(request.alloc())?;
    reply_events_with(request, response)
}

/// Begins this response, mostly that of `stream_response` with further headers, as `reply_events` does.
pub fn reply_events_with<Q: AnyRequest, D: Drop>(
    request: Q,
    response: Response<D>,
) -> io::Result<Option<EventStream<StreamedBody<Q::Output, Q::Runtime>>>> {
    let alloc = request.alloc();
    let mut body = request.reply_streaming(response)?;
    if body.form() == StreamedForm::Absent {
        body.finish()?;
        return Ok(None);
    }
    body.flush()?;
    Ok(Some(EventStream::new(alloc, body)))
}
