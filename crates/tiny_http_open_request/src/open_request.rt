//! A request that was handed out and has no response yet: what the server owes it, how its response is printed, and its
//! body. A `Connection` keeps an open request under its number, and a `Request` keeps it next to its turn. `Connection`
//! and `Request` manage the turn; this module decides what is sent, and what is owed afterwards.
ghost use Rattle.std.specs.Prelude.{◌≡◌, ◌+◌, ◌≤◌, ℕ, List, true, false, IfOk};
ghost use Rattle.tiny_http_standard_head.specs.Validation.{names_protocol};
ghost use Rattle.std.specs.List.{list_all};
ghost use Rattle.tiny_http_text.specs.Bytes.{is_ascii};
ghost use Rattle.tiny_http_io.specs.Device.{Feed, Puts, Tells};
ghost use Rattle.tiny_http_response.specs.Streaming.{streamed_form, streamed_head};
ghost use Rattle.tiny_http_io.specs.Outlet.{output_of};
ghost use Rattle.tiny_http_response.specs.ResponseValue.{printing_in, upgrade_text};
ghost use Rattle.tiny_http_response.specs.Sending.{FailsOnce, SendsQuietlyOn, SendsAnswer};
ghost use Rattle.tiny_http_open_request.specs.TextState.{drop_text};
ghost use Rattle.tiny_http_open_request.specs.ErrorResponse.{own_text_by};
ghost use Rattle.tiny_http_open_request.specs.OpenRequest.{coding_for, KeepsHead, closing, OwesNoContinue};
ghost use Rattle.tiny_http_open_request.specs.OpenRequest.{with_body};
ghost use Rattle.tiny_http_open_request.specs.OpenRequest.{HasNoDropText, HasNoBodyLeft, HasSentAll, final_context};
ghost use Rattle.tiny_http_open_request.specs.OpenRequest.{streaming_context, is_last_once_finished};
ghost use Rattle.tiny_http_open_request.specs.OpenRequest.{is_last_with_stream, refuses_code, request_check};
ghost use Rattle.tiny_http_open_request.specs.Pipeline.{is_head_method};
ghost use Rattle.tiny_http_body.specs.Body.{ReadsBody, GivesUp, bytes_given, ends_met};

use crate::error_response::{DropText, persistence_of, send_own_quietly};
use crate::exchange::Head;
use crate::upgrading::{UpgradeError, check_upgrade, send_upgrade_quietly};
use httpdate::HttpDate;
use std::alloc::{AllocError, Global};
use std::io;
use tiny_http_body::body::{Remainder, UnreadBody};
use tiny_http_body::streamed::StreamedForm;
use tiny_http_head::common::{Header, Method, StatusCode};
use tiny_http_io::device::{ReadDevice, WriteDevice};
use tiny_http_io::outlet::Outlet;
use tiny_http_io::source::Source;
use tiny_http_response::coding::{Coding, asked_coding};
use tiny_http_response::response::Response;
use tiny_http_response::response_context::{Persistence, ResponseContext};
use tiny_http_response::sending::send_unless_ended;
use tiny_http_standard_head::validation::{asks_chunked, names_protocol};

/// The state of a request until its response, apart from its head, which the application has: how the response is
/// printed, whether a 100 is owed, whether the connection closes, and the body.
#[derive(Drop)]
pub struct OpenRequest<B> {
    /// The context in which the response to this request is printed.
    pub response_context: ResponseContext,
    /// Whether a 100 is owed that hasn't been sent yet.
    pub owes_continue: bool,
    /// Whether the next head must not be read before the response: the request asks for an upgrade under `Standard`,
    /// isn't its connection's last, and its body wasn't discarded. The bytes after the request may belong to the other
    /// protocol (RFC 9110, section 7.8).
    pub holds_next_head: bool,
    /// Whether the request's head was read under `Standard`.
    pub by_standard: bool,
    /// Whether the request's method is `CONNECT`.
    pub is_connect: bool,
    /// Whether `close` was called: under `Standard` the response says that the connection closes after it.
    pub closes: bool,
    /// Copies of the request's `Upgrade` headers if it held the next head when it was created; otherwise empty.
    pub upgrades: Vec<Header>,
    /// The text that is sent if the request is dropped.
    pub dropped: DropText,
    /// The request's body, and how far it was read.
    pub body: B,
}

impl<B: Drop> OpenRequest<B> {
    /// Creates a request with this head and this body. `now` dates the 500 that is sent if the request is dropped.
    /// Fails if memory for that response, or for a copy of the `Upgrade` headers, is refused.
    #[inline(always)]
    pub fn new(
        alloc: Global,
        head: &Head,
        body: B,
        now: HttpDate,
    ) -> Result<OpenRequest<B>, AllocError>
        ensures { IfOk result (λ w. (w.body ≡ body) × KeepsHead w head.now now) }
    {
        let framing = head.framing;
        let response_context = ResponseContext {
            version: head.version,
            asked_coding: coding_for(framing.by_standard, head.headers.as_slice()),
            no_body: is_head(&head.method),
            persistence: persistence_of(framing.by_standard, framing.is_last),
        };
        let holds_next_head = framing.asks_upgrade && !framing.is_last;
        let upgrades = if holds_next_head {
            upgrade_headers(alloc, head.headers.as_slice())?
        } else {
            Vec::new(alloc)
        };
        let dropped = DropText::new(alloc, now)?;
        Ok(OpenRequest {
            response_context,
            owes_continue: framing.owes_continue,
            holds_next_head,
            by_standard: framing.by_standard,
            is_connect: matches!(head.method, Method::Connect),
            closes: false,
            upgrades,
            dropped,
            body,
        })
    }

    /// Replaces the body with the value that `map` returns for it.
    #[inline(always)]
    pub fn map_body<C: Drop, F: FnOnce(B) -> C>(self, map: F) -> OpenRequest<C>
        requires { F.pre map self.body }
        ensures maps { F.post map self.body result.body }
        ensures same { result ≡ with_body self result.body }
    {
        OpenRequest {
            response_context: self.response_context,
            owes_continue: self.owes_continue,
            holds_next_head: self.holds_next_head,
            by_standard: self.by_standard,
            is_connect: self.is_connect,
            closes: self.closes,
            upgrades: self.upgrades,
            dropped: self.dropped,
            body: map(self.body),
        }
    }

    /// Makes the response to this request say, under `Standard`, that the connection closes after it (RFC 9112, section
    /// 9.6); under another profile the response doesn't change. The caller must then read no further head.
    pub fn close(&mut self)
        ensures { self.new ≡ closing self.old }
    {
        self.closes = true;
    }

    /// Returns whether no head may be read after this request, whatever its own head says, if it is now answered or
    /// dropped, or its raw writer is taken, with `left` of its body unread. Under `Standard` there are two such cases:
    /// its 100 is owed, so that the client may either send the body or omit it (RFC 9110, section 10.1.1); or more of
    /// the body is left than the server skips. Under another profile the result is false.
    pub fn is_last_once_finished(&self, left: Remainder) -> bool
        ensures { result ≡ is_last_once_finished self.now left }
    {
        self.by_standard && (self.owes_continue || left == Remainder::Long)
    }

    /// Returns whether no head may be read after this request, whatever its own head says, once its raw writer or an
    /// upgrade takes over the connection's stream: whether the next head waits for the response to this request
    /// (`holds_next_head`), or `is_last_once_finished` holds.
    pub fn is_last_with_stream(&self, left: Remainder) -> bool
        ensures { result ≡ is_last_with_stream self.now left }
    {
        self.holds_next_head || self.is_last_once_finished(left)
    }

    // Returns the context in which the response to this request is printed, with `left` of its body unread. Under
    // `Standard` the response says that the connection closes if the request is the last according to its head, `close`
    // was called, its 100 is owed, or the rest of its body isn't skipped: it is long, or its end isn't known (RFC 9112,
    // section 9.6).
    fn final_context(&self, left: Remainder) -> ResponseContext
        ensures { result ≡ final_context self.now left }
    {
        let mut context = self.response_context;
        let closes = self.closes || self.owes_continue || left != Remainder::Skipped;
        if self.by_standard && closes {
            context.persistence = Some(Persistence::Close);
        }
        context
    }

    /// Returns whether a response with this code is refused. Under `Standard` three kinds of codes are refused: one
    /// that doesn't have three digits; a 1xx, since the client would take a later response for the one to this request
    /// (RFC 9110, section 15.2); and a 2xx in response to `CONNECT`, since it would open a tunnel (section 9.3.6).
    /// Under another profile no code is refused.
    pub fn refuses(&self, status: StatusCode) -> bool
        ensures { result ≡ refuses_code self.now.by_standard self.now.is_connect status.0 }
    {
        let is_final = status.0 >= 200 && status.0 < 1000;
        self.by_standard && (!is_final || (self.is_connect && status.0 < 300))
    }

    /// Checks whether a response with this code can upgrade the connection to this protocol, and returns the first
    /// error that applies; `is_whole` means that the body needs no more input, and has no fault. The protocol must be
    /// ASCII. Under `Standard` the request must ask for the protocol, must not be its connection's last, and must not
    /// have had its body discarded; the code must be 101; and the body must be whole (RFC 9110, section 7.8). An
    /// element of `Upgrade` with a percent sign doesn't count as a protocol.
    pub fn check_upgrade(
        &self,
        protocol: &str,
        status: StatusCode,
        is_whole: bool,
    ) -> Result<(), UpgradeError>
        ensures { result ≡ request_check self.now protocol.now status.0 is_whole }
    {
        let is_asked = self.holds_next_head && names_protocol(self.upgrades.as_slice(), protocol);
        check_upgrade(self.by_standard, is_asked, protocol, status, is_whole)
    }

    /// Sends the response to this request, dated `now`, with `left` of its body unread, and flushes it. Under
    /// `Standard` the response says that the connection closes if the request is the last according to its head,
    /// `close` was called, its 100 is owed, or the rest of its body isn't skipped (RFC 9112, section 9.6). The caller
    /// must handle `Response::with_close`. No 100 is owed afterwards. The caller must make this call in the request's
    /// turn, and then discard the body.
    ///
    /// On an outlet that has ended this sends nothing, doesn't read the data, and returns `Ok`. Fails with the first
    /// fault of the data or of the writer (if both fail, with either), or with `OutOfMemory` if memory for data of
    /// unknown length can't be allocated. After a failure the outlet has ended; unless the writer failed, the bytes
    /// that were held are sent.
    pub fn respond<W: WriteDevice, D: ReadDevice + Drop>(
        &mut self,
        alloc: Global,
        outlet: &mut Outlet<W>,
        response: Response<D>,
        left: Remainder,
        now: HttpDate,
    ) -> Result<(), io::Error>
        ensures answers { SendsAnswer D.feed outlet.old outlet.new result response
            (printing_in (final_context self.old left) now) }
        ensures once { OwesNoContinue self.old self.new }
    {
        let context = self.final_context(left);
        self.owes_continue = false;
        send_unless_ended(alloc, outlet, response, context, now)
    }

    /// Returns how the streamed body of a response with this code is sent, as `ResponseContext::streamed_form` does.
    pub fn streamed_form(&self, status: StatusCode) -> StreamedForm
        ensures { result ≡ streamed_form self.now.response_context status.0 }
    {
        self.response_context.streamed_form(status)
    }

    // Returns the context in which the head of a response with a streamed body is printed. Under `Standard` the head
    // says that the connection closes if `final_context` does, or if the end of the connection ends the body.
    fn streaming_context(&self, status: StatusCode, left: Remainder) -> ResponseContext
        ensures { result ≡ streaming_context self.now status.0 left }
    {
        let mut context = self.final_context(left);
        if self.by_standard && self.streamed_form(status) == StreamedForm::Plain {
            context.persistence = Some(Persistence::Close);
        }
        context
    }

    /// Writes the head, dated `now`, of a response whose body is streamed after it as `streamed_form` says; `left` of
    /// the request's body is unread. The response's data and their length are ignored. Under `Standard` the head says
    /// that the connection closes if that of `respond` would, or if the end of the connection ends the body. No 100 is
    /// owed afterwards. Doesn't flush.
    ///
    /// The caller must make this call in the request's turn, and then discard the body. Fails with the writer's first
    /// fault. On an outlet that has ended this writes nothing, and returns `Ok`.
    pub fn begin_streaming<W: WriteDevice, D>(
        &mut self,
        outlet: &mut Outlet<W>,
        response: &Response<D>,
        left: Remainder,
        now: HttpDate,
    ) -> Result<(), io::Error>
        ensures head { Puts (output_of outlet.old) (output_of outlet.new) result
            (streamed_head response.now.answer (streaming_context self.old response.now.answer.status left) now) }
        ensures once { OwesNoContinue self.old self.new }
    {
        let context = self.streaming_context(response.status_code(), left);
        self.owes_continue = false;
        response.print_head(outlet, context, now)
    }

    /// Sends the 100 that is owed to this request, and flushes it (RFC 9110, section 10.1.1). If none is owed, changes
    /// nothing. The caller must make this call in the request's turn, before the body is read and before the response.
    /// A fault of the writer ends the outlet, and isn't reported. An outlet that has ended sends nothing. Allocates
    /// nothing.
    pub fn send_continue<W: WriteDevice>(
        &mut self,
        alloc: Global,
        outlet: &mut Outlet<W>,
        now: HttpDate,
    )
        ensures unowed { self.old.owes_continue ≡ false → (self.new ≡ self.old) × (outlet.new ≡ outlet.old) }
        ensures sends { self.old.owes_continue ≡ true
            → SendsQuietlyOn outlet.old outlet.new (own_text_by 100 (printing_in self.old.response_context now)) }
        ensures once { OwesNoContinue self.old self.new }
        ensures fails_once { FailsOnce outlet.old outlet.new }
        ensures sent { self.old.owes_continue ≡ true → HasSentAll outlet.new }
    {
        if self.owes_continue {
            let context = self.response_context;
            send_own_quietly(alloc, outlet, StatusCode(100), context, now);
            self.owes_continue = false;
        }
    }

    /// Sends the response that upgrades the connection to `protocol` (RFC 9110, section 7.8), dated `now`, and flushes
    /// it: the head alone, with `Connection: upgrade` and `Upgrade: PROTOCOL` before the other headers (as in the Rust
    /// crate). The data are dropped unread, and no 100 is owed afterwards. A fault of the writer ends the outlet, and
    /// isn't reported. An outlet that has ended sends nothing. Allocates nothing.
    ///
    /// The caller must call `check_upgrade` first, and make this call in the request's turn, instead of sending a
    /// response. From then on the output is the protocol's, and the protocol's input is what the body returns after
    /// `become_stream`.
    pub fn upgrade<W: WriteDevice, D: Drop>(
        &mut self,
        alloc: Global,
        outlet: &mut Outlet<W>,
        protocol: &str,
        response: Response<D>,
        now: HttpDate,
    )
        requires { list_all is_ascii protocol.now ≡ true }
        // Holds whatever the data are: they aren't read.
        ensures sends { (content : Feed) → SendsQuietlyOn outlet.old outlet.new
            (upgrade_text (record { answer = response.answer; content = content }) protocol.now
            (printing_in self.old.response_context now)) }
        ensures once { OwesNoContinue self.old self.new }
        ensures fails_once { FailsOnce outlet.old outlet.new }
        ensures sent { HasSentAll outlet.new }
    {
        self.owes_continue = false;
        send_upgrade_quietly(
            alloc,
            outlet,
            response,
            self.response_context,
            protocol,
            now,
        );
    }

    /// Takes the text that is sent if this request is dropped with `left` of its body unread: an empty 500 (as in the
    /// Rust crate), printed for the request's version, headers and method, and dated when the request was read. A later
    /// call returns no bytes. No 100 is owed afterwards. The caller must send the text in the request's turn,
    /// instead of a response, and discard the body. Allocates nothing.
    pub fn take_drop_text(&mut self, left: Remainder) -> Vec<u8>
        ensures text { result.items ≡ drop_text self.old.dropped (final_context self.old left) }
        ensures once { HasNoDropText self.old self.new }
    {
        let context = self.final_context(left);
        self.owes_continue = false;
        self.dropped.take_text(context)
    }

    /// Returns the text that is sent when this request is dropped with `left` of its body unread (no bytes if the text
    /// was already taken), and the body. The caller must discard the body once it has placed the text in the request's
    /// turn.
    pub fn into_drop_text(self, left: Remainder) -> (Vec<u8>, B)
        ensures text { result.0.items ≡ drop_text self.dropped (final_context self left) }
        ensures body { result.1 ≡ self.body }
    {
        let context = self.final_context(left);
        let OpenRequest { dropped, body, .. } = self;
        (dropped.into_text(context), body)
    }
}

impl OpenRequest<UnreadBody> {
    /// Reads some bytes of the body into the front of `buf`, and returns their number. The source must be the one that
    /// the request was read from. Errors and ends are those of `Exchange::read_body`. Allocates nothing.
    pub fn read<R: ReadDevice>(
        &mut self,
        source: &mut Source<R>,
        buf: &mut [u8],
    ) -> Result<usize, io::Error>
        ensures reads { ReadsBody self.old.body self.new.body source.old source.new result buf.new }
        ensures kept { self.new ≡ record self.old { body = self.new.body } }
        // One read meets at most one end or fault of the source's reader, and none if it returns bytes.
        ensures stop_count { Tells (R.stop_count source.old.reader) (R.stop_count source.new.reader) result }
        // A read meets an end or fault of the source's reader only if the body is then cut or broken, or is the whole
        // rest of the input.
        ensures whole { R.stop_count source.new.reader
            ≤ R.stop_count source.old.reader + ends_met self.old.body (bytes_given result) self.new.body }
    {
        self.body.read(source, buf)
    }

    /// Discards the rest of the body: each later read returns 0, no 100 is owed, and under `Standard` no upgrade is
    /// accepted. The rest of a body of known length is skipped before the next head. If the body is chunked and its end
    /// or fault hasn't been reported, this ends the source.
    pub fn give_up<R: ReadDevice>(&mut self, source: &mut Source<R>)
        ensures gives_up { GivesUp self.old.body source.old source.new }
        ensures kept { HasNoBodyLeft self.old self.new }
    {
        self.owes_continue = false;
        self.holds_next_head = false;
        self.body.give_up(source);
    }
}

// Returns the coding that the headers of a request ask for (RFC 9110, section 10.1.4): under `Standard`, `Chunked` or
// `None`; under another profile, what `asked_coding` (`tiny_http_response`) returns.
#[inline(always)]
fn coding_for(by_standard: bool, headers: &[Header]) -> Option<Coding>
    ensures { result ≡ coding_for by_standard headers.now }
{
    if !by_standard {
        return asked_coding(headers);
    }
    if asks_chunked(headers) {
        Some(Coding::Chunked)
    } else {
        None
    }
}

// Copies the headers named `Upgrade`. Fails if memory can't be allocated.
fn upgrade_headers(alloc: Global, headers: &[Header]) -> Result<Vec<Header>, AllocError>
    ensures { IfOk result (λ upgrades. (protocol : List ℕ)
        → names_protocol upgrades.items protocol ≡ names_protocol headers.now protocol) }
{
    let mut upgrades = Vec::new(alloc);
    for header in headers {
        if header.field.equiv("Upgrade") {
            upgrades.push(header.try_clone()?)?;
        }
    }
    Ok(upgrades)
}

// Returns whether the method is `HEAD` (RFC 9110, section 9.3.2).
pub(crate) fn is_head(method: &Method) -> bool
    ensures { result ≡ is_head_method method.now }
{
    matches!(method, Method::Head)
}
