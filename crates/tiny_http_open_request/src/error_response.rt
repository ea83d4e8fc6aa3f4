//! The server's own error responses: to a refused head, and to a dropped request. The latter is printed when the
//! request is dropped.
ghost use Rattle.std.specs.Prelude.{◌≡◌, ◌<◌, ◌≤◌, ◌^◌, true, false, [], Some, IfOk, length, vec_len, vec_capacity};
ghost use Rattle.httpdate.specs.Date.{date_text};
ghost use Rattle.tiny_http_response.specs.ResponseValue.{printing_in};
ghost use Rattle.tiny_http_response.specs.Sending.{FailsOnce, SendsQuietlyOn};
ghost use Rattle.tiny_http_open_request.specs.OpenRequest.{HasSentAll};
ghost use Rattle.tiny_http_open_request.specs.declared.error_response.TheConstants.{OWN_ANSWER};
ghost use Rattle.tiny_http_open_request.specs.TextState.{drop_text};
ghost use Rattle.tiny_http_open_request.specs.ErrorResponse.{own_text, own_text_by, persistence_of, refusal_response};
ghost use Rattle.tiny_http_open_request.specs.ErrorResponse.{refused_text};
ghost use Rattle.tiny_http_open_request.specs.Pipeline.{VersionNotSupported, plainly};
ghost use Rattle.tiny_http_io.specs.Device.{Feed};
ghost use Rattle.tiny_http_head.specs.Heads.{version};

use httpdate::HttpDate;
use std::alloc::{AllocError, Global};
use std::io::ErrorKind;
use std::marker::Model;
use std::{io, mem};
use tiny_http_head::common::{HTTPVersion, StatusCode};
use tiny_http_io::device::{Budget, ReadDevice, WriteDevice};
use tiny_http_io::outlet::Outlet;
use tiny_http_response::response::Response;
use tiny_http_response::response_context::{Persistence, ResponseContext};
use tiny_http_response::sending::send;

/// The number of bytes reserved for an empty error response, which has at most 162.
pub const OWN_ANSWER: usize = 168;

// Prints a response to a refused head into memory. Fails if memory can't be allocated.
fn refused_text<D: ReadDevice + Drop>(
    alloc: Global,
    answer: Response<D>,
    version: HTTPVersion,
    by_standard: bool,
    no_body: bool,
    now: HttpDate,
) -> Result<Vec<u8>, AllocError>
    ensures { (content : Feed) → D.feed answer.data_reader ≡ Some content → length content.bytes < 2 ^ 63
        → IfOk result
        (λ text. text.items ≡ refused_text (record { answer = answer.answer; content = content })
        (record { version = version; by_standard = by_standard }) no_body now) }
{
    let bytes = Vec::with_capacity(alloc, OWN_ANSWER)?;
    let mut writer = Budget::from_vec(bytes, usize::MAX, ErrorKind::OutOfMemory);
    let context = ResponseContext {
        version,
        asked_coding: None,
        no_body,
        persistence: persistence_of(by_standard, true),
    };
    match answer.print(alloc, &mut writer, context, None, now) {
        Ok(()) => Ok(writer.into_bytes()),
        Err(_) => Err(AllocError),
    }
}

/// Prints the response to a refused head: in this version, or in 1.1 under `Standard`, with this code, without added
/// headers and without data. Under `Standard` it says that the connection closes. Fails if memory can't be allocated.
pub fn error_response(
    alloc: Global,
    status: StatusCode,
    version: HTTPVersion,
    by_standard: bool,
    now: HttpDate,
) -> Result<Vec<u8>, AllocError>
    ensures { IfOk result
        (λ text. text.items ≡ own_text status.0 (record { version = version; by_standard = by_standard }) false now) }
{
    let answer = Response::empty(alloc, status);
    refused_text(alloc, answer, version, by_standard, false, now)
}

/// Returns the persistence that a response states: under `Standard` that the connection closes after the last request
/// and persists after any other, and `None` under another profile.
pub(crate) fn persistence_of(by_standard: bool, is_last: bool) -> Option<Persistence>
    ensures { result ≡ persistence_of by_standard is_last }
{
    match (by_standard, is_last) {
        (false, _) => None,
        (true, true) => Some(Persistence::Close),
        (true, false) => Some(Persistence::Persistent),
    }
}

// The body of the 505 that is sent, under `Lenient` and `Strict`, in response to a head with a version above 1.1.
const TOO_NEW: &str = "This server only supports HTTP versions 1.0 and 1.1";

/// Prints the response to a head whose version is above 1.1, under `Lenient` and `Strict`: a 505 in version 1.1 with a
/// plain-text body that names the supported versions (as in the Rust crate; RFC 9110, section 15.6.6). The body is
/// omitted if `no_body` is set. Fails if memory can't be allocated.
pub fn too_new_answer(alloc: Global, no_body: bool, now: HttpDate) -> Result<Vec<u8>, AllocError>
    ensures { IfOk result
        (λ text. text.items ≡ refused_text (refusal_response VersionNotSupported) (plainly (version 1 1)) no_body
        now) }
{
    let text = String::from_str(alloc, TOO_NEW)?;
    let answer = Response::from_string(alloc, text)?.with_status_code(StatusCode(505));
    refused_text(alloc, answer, HTTPVersion(1, 1), false, no_body, now)
}

// Sends a response with this code, without added headers and without data, and flushes it. A fault isn't reported. An
// outlet that has ended sends nothing. Allocates nothing.
pub(crate) fn send_own_quietly<W: WriteDevice>(
    alloc: Global,
    outlet: &mut Outlet<W>,
    status: StatusCode,
    context: ResponseContext,
    now: HttpDate,
)
    ensures sends { SendsQuietlyOn outlet.old outlet.new (own_text_by status.0 (printing_in context now)) }
    ensures fails_once { FailsOnce outlet.old outlet.new }
    ensures sent { HasSentAll outlet.new }
{
    if outlet.is_ended() {
        outlet.facts();
        return;
    }
    let answer = Response::empty(alloc, status);
    let _ = send(alloc, outlet, answer, context, now);
}

// A writer into memory allocated earlier. It takes `OWN_ANSWER` bytes, after which each nonempty write fails.
#[derive(Drop)]
struct OwnPage {
    bytes: Vec<u8>,
    failures: u64,
    ghost room: { OWN_ANSWER ≤ vec_capacity bytes },
    ghost within: { vec_len bytes ≤ OWN_ANSWER },
    ghost full: { 0 < failures → OWN_ANSWER ≤ length bytes.items },
}

impl WriteDevice for OwnPage {
    ghost use Rattle.tiny_http_open_request.specs.OwnPage.{page_sink};

    ghost sink = { page_sink };

    /// Returns the number of failed writes.
    fn failures(&self) -> u64 {
        self.failures
    }

    /// Appends as many bytes of `buf` as fit, and returns their number. Fails with `OutOfMemory` if `buf` isn't empty
    /// and none fits.
    fn write_out(&mut self, buf: &[u8]) -> Result<usize, io::Error> {
        let n = buf.len().min(OWN_ANSWER - self.bytes.len());
        if n == 0 && !buf.is_empty() {
            self.failures = self.failures.saturating_add(1);
            return Err(ErrorKind::OutOfMemory.into());
        }
        match self.bytes.extend_from_slice(&buf[..n]) {
            Ok(()) => Ok(n),
            Err(_) => unreachable!(),
        }
    }

    /// Does nothing: no bytes are held back.
    fn flush_out(&mut self) -> Result<(), io::Error> {
        Ok(())
    }
}

// Returns 29, the length of a date's text.
fn date_length(now: HttpDate) -> usize
    ensures length { result ≡ length (date_text now) }
    ensures value { result ≡ 29 }
{
    let date = now.to_bytes();
    date.len()
}

// Prints an empty 500 into this memory. Allocates nothing.
fn print_drop(room: Vec<u8>, context: ResponseContext, now: HttpDate) -> Vec<u8>
    requires empty { (room.items ≡ []) × (vec_len room ≡ 0) }
    requires room { OWN_ANSWER ≤ vec_capacity room }
    requires version { (context.version.0 < 256) × (context.version.1 < 256) }
    ensures { result.items ≡ own_text_by 500 (printing_in context now) }
{
    let alloc = *room.allocator();
    let _length = date_length(now);
    let mut page = OwnPage {
        bytes: room,
        failures: 0,
    };
    let answer = Response::empty(alloc, StatusCode(500));
    match answer.print(alloc, &mut page, context, None, now) {
        Ok(()) => page.bytes,
        Err(_) => unreachable!(),
    }
}

/// The text that is sent if a request is dropped: an empty 500, or no bytes once the text has been taken.
#[derive(Drop)]
pub struct DropText {
    room: Vec<u8>,
    is_taken: bool,
    now: HttpDate,
}

impl Model for DropText {
    ghost use Rattle.std.specs.Prelude.{◌≡◌, ◌≤◌, false, [], vec_len, vec_capacity};
    ghost use Rattle.tiny_http_open_request.specs.declared.error_response.TheConstants.{OWN_ANSWER};
    ghost use Rattle.tiny_http_open_request.specs.TextState.{TextState};

    ghost Value = { TextState };

    ghost view = { λ t. record { is_taken = t.is_taken; date = t.now } };

    ghost invariant = { λ t. (t.room.items ≡ [])
        × (vec_len t.room ≡ 0)
        × (t.is_taken ≡ false → OWN_ANSWER ≤ vec_capacity t.room) };
}

impl DropText {
    /// Creates a text that will be printed with the date `now`. Fails if memory can't be allocated.
    pub fn new(alloc: Global, now: HttpDate) -> Result<DropText, AllocError>
        ensures { IfOk result (λ text. text ≡ record { is_taken = false; date = now }) }
    {
        let room = Vec::with_capacity(alloc, OWN_ANSWER)?;
        Ok(DropText {
            room,
            is_taken: false,
            now,
        })
    }

    /// Prints the text in this context, and returns it. A later call returns no bytes. Allocates nothing.
    pub fn take_text(&mut self, context: ResponseContext) -> Vec<u8>
        ensures text { result.items ≡ drop_text self.old context }
        ensures taken { self.new ≡ record self.old { is_taken = true } }
    {
        let none = Vec::new(*self.room.allocator());
        if self.is_taken {
            return none;
        }
        self.is_taken = true;
        let room = mem::replace(&mut self.room, none);
        print_drop(room, context, self.now)
    }

    /// Prints the text in this context, and returns it, or no bytes if it has already been taken. Allocates nothing.
    pub fn into_text(self, context: ResponseContext) -> Vec<u8>
        ensures { result.items ≡ drop_text self context }
    {
        let mut text = self;
        text.take_text(context)
    }
}
