//! A connection driven step by step, without threads.
ghost use Rattle.std.specs.Global.{Global as Heap, Vec};
ghost use Rattle.std.specs.Prelude.{◌≡◌, ℕ, ◌+◌, ◌-◌, ◌<◌, ◌≤◌, ◌^◌, true, false, List, [], length, Some, None};
ghost use Rattle.std.specs.Prelude.{◌⊎◌, Ok, IfOk, IfErr, OnErr, IsTrue, is_some, slice_get, String, string_bytes};
ghost use Rattle.tiny_http_io.specs.Device.{Feed, Sink};
ghost use Rattle.tiny_http_response.specs.ResponseValue.{ResponseValue};
ghost use Rattle.tiny_http_open_request.specs.OpenRequest.{final_context};
ghost use Rattle.tiny_http_open_request.specs.Pipeline.{Item, Pipeline};
ghost use Rattle.tiny_http_connection.specs.Conversation.{IsConversation, IsFresh};
ghost use Rattle.tiny_http_connection.specs.Steps.{TimedValue, ReplyValue, Given, Done, Fault};
ghost use Rattle.httpdate.specs.declared.date.HttpDate.{HttpDate as Date};
ghost use Rattle.std.specs.declared.io.ErrorKind.{ErrorKind};
ghost use Rattle.tiny_http_connection.specs.Outcomes.{fault_reply};
ghost use Rattle.tiny_http_connection.specs.Pending.{waiting_response_context};
ghost use Rattle.tiny_http_connection.specs.Driving.{HasDone, TakesStep, StepMeets, ReadMeets, Drops};
ghost use Rattle.tiny_http_connection.specs.Driving.{ends_behind, stated_response, stated_step};
ghost use Rattle.tiny_http_response.specs.ResponseValue.{printing_in};
ghost use Rattle.tiny_http_connection.specs.Seen.{seen, write_reply, Answers, IsAnswered};
ghost use Rattle.tiny_http_io.specs.Outlet.{output_of, outlet_ended, outlet_held, outlet_writer, SentOn};
ghost use Rattle.tiny_http_response.specs.Sending.{CanSend, IsHonest, FailsOnce};

use crate::pending::{Pending, Unfinished, close_body};
pub use crate::run::{Record, RunError, run, run_with};
use httpdate::HttpDate;
use std::alloc::{AllocError, Global};
use std::io;
use std::io::ErrorKind;
use std::marker::Model;
use tiny_http_body::body::{Remainder, UnreadBody};
use tiny_http_body::framing::Profile;
use tiny_http_io::device::{ReadDevice, WriteDevice};
use tiny_http_io::outlet::Outlet;
use tiny_http_io::source::{InputState, Source};
use tiny_http_open_request::exchange::{EndOfRequests, Head};
use tiny_http_open_request::next_request::{NextRequest, next_request};
use tiny_http_open_request::open_request::OpenRequest;
use tiny_http_response::response::Response;
use tiny_http_response::sending::reported;

/// One call on a connection, as a value.
#[derive(Drop)]
pub enum Step<D> {
    /// Reads the next request head and hands out its request, or ends the requests (`Ended`). The reply is `NotYet`
    /// while the body of the last request is read from the input, and has been neither read to its end or fault nor
    /// given up. Under `Standard` it is also `NotYet` while the last request asks for an upgrade and awaits its
    /// response. Neither applies if that request is the connection's last. No head follows a chunked body that was
    /// given up before its end was reported.
    Ask,
    /// Sends the 100 that is owed to the request with this number, in its turn. If none is owed, changes nothing.
    AsReader(u64),
    /// Reads the body of the request with this number, or its upgraded stream, until it has read this many bytes, 0 to
    /// 65,535, or no more follow.
    Read(u64, u16),
    /// Responds to the request with this number in its turn, and gives up its body.
    Respond(u64, Response<D>),
    /// Takes the raw writer of the request with this number in place of a response, and gives up its body.
    IntoWriter(u64),
    /// Writes these bytes to this number's raw writer or upgraded stream, in its turn. They may be held until the
    /// number's `Flush` or `Finish`.
    Write(u64, Vec<u8>),
    /// Sends what was written under this number, in its turn.
    Flush(u64),
    /// Responds to the request with this number in its turn, and upgrades the connection to this protocol. `Read` then
    /// reads from the upgraded stream, and `Write` writes to it, until `Finish`. The stream reads what is left of the
    /// request's body, or under `Standard` all bytes after the body.
    Upgrade(u64, String, Response<D>),
    /// Ends this number's raw writer or upgraded stream. What was written is sent in its turn.
    Finish(u64),
    /// Drops the request with this number, and gives up its body. The response is an empty 500, dated when the request
    /// was handed out.
    Drop(u64),
}

/// A step with its date.
#[derive(Drop)]
pub struct Timed<D> {
    /// The `Date` of the responses that the step makes: a response of the program, a 100, or error responses to refused
    /// heads. The 500 for a dropped request has the date of the `Ask` that handed out the request.
    pub now: HttpDate,
    /// The step.
    pub step: Step<D>,
}

/// The reply to a step.
#[derive(Drop)]
pub enum Reply {
    /// The request with this number was handed out. Refused heads take numbers, too.
    Handed(u64, Head),
    /// The connection has no further request.
    Ended,
    /// These bytes of the body. If they are fewer than were asked for, no byte follows: the next read of at least one
    /// byte reports the end with an empty `Given`, or the fault with `Fault`.
    Given(Vec<u8>),
    /// The body ends with this fault, or the writer or the response's data failed with it. It is `OutOfMemory` if
    /// memory for the data of a `Respond` couldn't be allocated.
    Fault(ErrorKind),
    /// The step has to wait, and nothing has changed. An `Ask` waits for the last body to be read or given up, or for
    /// the response to a request that asks for an upgrade. A `Respond` or an `Upgrade` that isn't refused, a `Write`, a
    /// `Flush`, and an `AsReader` that has a 100 to send wait for their turn.
    NotYet,
    /// The step was done, and encountered no fault that is reported.
    Done,
    /// An upgrade was refused, or, under `Standard`, a response was refused because of its status code. The request was
    /// dropped.
    Refused,
    /// No request with this number accepts the step. Nothing has changed.
    NoSuch,
    /// Out of memory. A `Read` has then changed nothing. After such an `Ask`, every later one is `Ended`.
    Memory,
}

/// A connection over a reader and a writer, without threads.
///
/// It hands out the client's requests one after another, reads their bodies on demand, and sends the responses in the
/// order of the requests (RFC 9112, section 9.3.2). A response that is made before its turn isn't sent, and gets the
/// reply `NotYet`, or `Refused` if it is refused; the response to a dropped request waits for its turn. A program
/// drives the connection call by call, and each call that `Step` names is a step of the connection theorem.
#[derive(Drop)]
pub struct Connection<R: ReadDevice, W: WriteDevice> {
    profile: Profile,
    source: Source<R>,
    outlet: Outlet<W>,
    pending: Pending,
    end: Option<EndOfRequests>,
}

impl<R: ReadDevice, W: WriteDevice> Model for Connection<R, W> {
    ghost use Rattle.tiny_http_connection.specs.Connection.{ConnectionState};

    ghost Value = { ConnectionState R W };

    ghost view = { λ c. record {
      profile = c.profile;
      marks = c.pending.turns.marks;
      requests = c.pending.requests;
      end = c.end;
      source = c.source;
      outlet = c.outlet;
    } };
}

impl Reply {
    // Converts a reported result to a reply: `Done`, or `Fault` with the kind of the fault.
    fn write_reply(written: Result<(), io::Error>) -> Reply
        ensures { seen result ≡ write_reply written }
    {
        match written {
            Ok(()) => Reply::Done,
            Err(fault) => Reply::Fault(fault.kind()),
        }
    }
}

// Responds to a request whose turn has come, and returns the reply. `left` is what remains of the request's body. After
// the output has ended nothing is sent, the data is left unread, and the reply is `Done`.
fn answer<W: WriteDevice, D: ReadDevice + Drop>(
    alloc: Global,
    request: &mut OpenRequest<UnreadBody>,
    outlet: &mut Outlet<W>,
    response: Response<D>,
    left: Remainder,
    now: HttpDate,
) -> Reply
    ensures past { outlet_ended outlet.old ≡ true → (outlet.new ≡ outlet.old) × (seen result ≡ Done) }
    ensures sends { (content : Feed) → D.feed response.data_reader ≡ Some content → length content.bytes < 2 ^ 63
        → outlet_ended outlet.old ≡ false → CanSend (output_of outlet.old)
        → Answers (output_of outlet.old) (output_of outlet.new) (outlet_ended outlet.new) (seen result)
        response.answer content (printing_in (final_context request.old left) now) }
    ensures fails_once { FailsOnce outlet.old outlet.new }
    ensures flushed { outlet_held outlet.new ≡ [] }
    ensures sent_on { SentOn outlet.new }
    ensures body { request.new.body ≡ request.old.body }
    ensures done { IsAnswered (seen result) }
    ensures honest { (kind : ErrorKind) → seen result ≡ Fault kind → (outlet_ended outlet.new ≡ true)
        × IsHonest (output_of outlet.old) (output_of outlet.new) response.answer (D.feed response.data_reader)
        (printing_in (final_context request.old left) now) kind }
    ensures tells { ((output_of outlet.new).failures ≡ (output_of outlet.old).failures)
        ⊎ ((kind : ErrorKind) × (seen result ≡ fault_reply kind) × (outlet_ended outlet.new ≡ true)
        × IsHonest (output_of outlet.old) (output_of outlet.new) response.answer (D.feed response.data_reader)
        (printing_in (final_context request.old left) now) kind) }
{
    Reply::write_reply(reported(request.respond(alloc, outlet, response, left, now)))
}

// Returns why the requests end: `end` if it is set, `LastRequest` if it isn't and `ends` holds, and otherwise `None`.
fn ends_behind(ends: bool, end: Option<EndOfRequests>) -> Option<EndOfRequests>
    ensures { result ≡ ends_behind ends end }
{
    match end {
        None if ends => Some(EndOfRequests::LastRequest),
        _ => end,
    }
}

// Returns `count` zero bytes.
fn zeros(alloc: Global, count: u16) -> Result<Vec<u8>, AllocError>
    ensures { IfOk result (λ v. length v.items ≡ count) }
{
    let mut bytes = Vec::new(alloc);
    bytes.resize(usize::from(count), 0)?;
    Ok(bytes)
}

impl<R: ReadDevice, W: WriteDevice> Connection<R, W> {
    /// Returns a connection under `Lenient`. The connection theorem requires a reader that states its bytes, and a
    /// writer that states that it has taken nothing, has not ended and can count a failure.
    pub fn new(alloc: Global, reader: R, writer: W) -> Connection<R, W>
        ensures profile { result.profile ≡ Profile.Lenient }
        ensures begins { (client : Feed)
            → R.feed reader ≡ Some client
            → IsFresh (W.sink writer)
            → HasDone Profile.Lenient client (W.sink writer) result [] [] }
        ensures open { (result.end ≡ None) × (result.requests ≡ []) × (result.marks ≡ []) }
        ensures source { (result.source.feed ≡ R.feed reader) × (result.source.input_state ≡ InputState.Head)
            × (result.source.reader ≡ reader) × (result.source.stop ≡ None) × (result.source.held ≡ [])
            × (result.source.skip ≡ 0) }
        ensures outlet { result.outlet ≡ record { held = []; ended = false; writer = writer; sink = W.sink writer } }
    {
        Connection::new_with(alloc, Profile::Lenient, reader, writer)
    }

    /// Returns a connection under this profile. The connection theorem makes the same requirements as for `new`.
    pub fn new_with(alloc: Global, profile: Profile, reader: R, writer: W) -> Connection<R, W>
        ensures profile { result.profile ≡ profile }
        ensures begins { (client : Feed)
            → R.feed reader ≡ Some client
            → IsFresh (W.sink writer)
            → HasDone profile client (W.sink writer) result [] [] }
        ensures open { (result.end ≡ None) × (result.requests ≡ []) × (result.marks ≡ []) }
        ensures source { (result.source.feed ≡ R.feed reader) × (result.source.input_state ≡ InputState.Head)
            × (result.source.reader ≡ reader) × (result.source.stop ≡ None) × (result.source.held ≡ [])
            × (result.source.skip ≡ 0) }
        ensures outlet { result.outlet ≡ record { held = []; ended = false; writer = writer; sink = W.sink writer } }
    {
        Connection {
            profile,
            source: Source::new(reader),
            outlet: Outlet::new(writer),
            pending: Pending::new(alloc),
            end: None,
        }
    }

    /// Returns why no further request is handed out, or `None` if that isn't known yet. It is known once an `ask` has
    /// returned `Ended` or `Memory`, once `respond` has returned `Done` or `Fault` for a response made with
    /// `with_close`, and, under `Standard`, once a request that was answered, dropped or upgraded, or whose raw writer
    /// was taken, has ended the requests as `ask` describes. After the connection's last head it may be `None` until
    /// the next `ask`.
    pub fn end_of_requests(&self) -> Option<EndOfRequests>
        ensures { result ≡ self.now.end }
    {
        self.end
    }

    /// Returns the number that the next request or refused head takes. Numbers begin at 0.
    pub fn next_number(&self) -> u64
        ensures { result ≡ length self.now.requests }
    {
        self.pending.requests.len()
    }

    /// Returns whether the request with this number awaits its response.
    pub fn is_open(&self, number: u64) -> bool
        ensures { result ≡ is_some (waiting_response_context (slice_get self.now.requests number)) }
    {
        self.pending.is_waiting(number)
    }

    /// Reads the next request head, hands out its request, and returns `Handed` with the request's number. `now` dates
    /// the responses to refused heads, and the 500 of this request if it is dropped.
    ///
    /// Returns `NotYet` while the body of the last request is read from the input, and has been neither read to its end
    /// or fault nor given up. Also returns `NotYet` while the last request awaits its response and its head says
    /// `asks_upgrade`: what follows may be bytes of the other protocol (RFC 9110, section 7.8). Neither applies if that
    /// request is the connection's last.
    ///
    /// Returns `Ended` if the connection has no further request, and so does each later call. `end_of_requests` returns
    /// why. A refused head gets an error response under its own number, in its turn, and ends the requests, with one
    /// exception: after a head that is refused with 505 the same call reads the next head, unless the refused head
    /// names an upgrade, its body is chunked, or the profile is `Standard`.
    ///
    /// Returns `Memory` if memory can't be allocated, which ends the requests too. The requests also end after a
    /// response that was made with `with_close`, and after a chunked body that was given up before its end was
    /// reported. Under `Standard` they also end after a request that asked for an upgrade, once it is upgraded or its
    /// raw writer is taken, and after a request that is answered or dropped, or whose raw writer is taken, while its
    /// 100 is owed or more than 65,536 bytes of a body with a `Content-Length` are unread.
    ///
    /// The call waits for the client only until the head and a body of up to 1024 bytes have arrived, or only the head
    /// if the request expects a 100. Before that it waits for the rest of a body with a content length that was given
    /// up or skipped. After the last request it doesn't call the reader.
    #[inline(never)]
    pub fn ask(&mut self, alloc: Global, now: HttpDate) -> Reply
        ensures step { TakesStep self.old self.new now Step.Ask (seen result) }
    {
        if self.end.is_some() {
            return Reply::Ended;
        }
        if matches!(self.source.input_state(), InputState::Body) {
            return Reply::NotYet;
        }
        if self.pending.last_holds_next_head() {
            return Reply::NotYet;
        }
        let (source, outlet) = (&mut self.source, &mut self.outlet);
        match next_request(alloc, source, self.profile, &mut self.pending, outlet, now) {
            Ok(NextRequest::Request(head, request)) => {
                match self.pending.issue(Some(Unfinished::Waiting(request))) {
                    Ok(number) => Reply::Handed(number, head),
                    Err(_) => {
                        self.end = Some(EndOfRequests::Memory);
                        Reply::Memory
                    }
                }
            }
            Ok(NextRequest::Ended(why)) => {
                self.end = Some(why);
                Reply::Ended
            }
            Err(_) => {
                self.end = Some(EndOfRequests::Memory);
                Reply::Memory
            }
        }
    }

    /// Sends the 100 that is owed to the request with this number, flushes it (RFC 9110, section 10.1.1), and returns
    /// `Done`. `now` is the `Date` of the 100. The body can be read afterwards.
    ///
    /// Returns `Done` and changes nothing if no 100 is owed. After the output has ended nothing is sent, and the 100 is
    /// no longer owed. Returns `NotYet` if a 100 is owed and a number before this one isn't finished, and `NoSuch` if
    /// this number doesn't await its response; then nothing has changed. No reply reports a fault of the writer. The
    /// call allocates nothing.
    #[inline(never)]
    pub fn send_continue(&mut self, alloc: Global, now: HttpDate, number: u64) -> Reply
        ensures step { TakesStep self.old self.new now (Step.AsReader number) (seen result) }
    {
        if !self.pending.is_waiting(number) {
            return Reply::NoSuch;
        }
        if !self.pending.owes_continue(number) {
            return Reply::Done;
        }
        if !self.pending.is_in_turn(number) {
            return Reply::NotYet;
        }
        self.pending
            .send_continue(alloc, &mut self.outlet, number, now);
        Reply::Done
    }

    /// Reads the body of the request with this number, or its upgraded stream, until it has read `count` bytes or no
    /// more follow, and returns them in `Given`, which is empty once the body has ended. The call sends nothing, and so
    /// takes no date.
    ///
    /// If the body is cut or broken, the read after its last byte returns `Fault`, as does each later read; a body with
    /// a `Content-Length` that the end of input cuts has a fault under `Standard`, and otherwise ends there. Returns
    /// `NoSuch` if this number neither awaits its response nor has an upgraded stream, or while its 100 is owed.
    /// Returns `Memory` if memory for `count` bytes can't be allocated; then nothing has changed. If `count` is 0, it
    /// returns `NoSuch` or an empty `Given`.
    #[inline(never)]
    pub fn read(&mut self, alloc: Global, number: u64, count: u16) -> Reply
        ensures step { (date : Date) → TakesStep self.old self.new date (Step.Read number count) (seen result) }
        // The client's reader reports at most one more end or fault, and none if `count` bytes were read.
        ensures stop_count { R.stop_count self.new.source.reader ≤ R.stop_count self.old.source.reader + 1 }
        ensures lazy { (bytes : List ℕ) → seen result ≡ Given bytes → length bytes ≡ count
            → R.stop_count self.new.source.reader ≤ R.stop_count self.old.source.reader }
        // A read encounters an end or fault of the reader only if the body is then cut or broken, or is the entire rest
        // of the input.
        ensures whole { ReadMeets R.stop_count self.old self.new number (seen result) }
    {
        if !self.pending.is_readable(number) {
            return Reply::NoSuch;
        }
        if count == 0 {
            return Reply::Given(Vec::new(alloc));
        }
        let Ok(mut bytes) = zeros(alloc, count) else {
            return Reply::Memory;
        };
        match self
            .pending
            .fill(&mut self.source, number, bytes.as_mut_slice())
        {
            Ok(n) => {
                bytes.truncate(n);
                Reply::Given(bytes)
            }
            Err(kind) => Reply::Fault(kind),
        }
    }

    /// Drops the request with this number, gives up its body, and returns `Done`. Returns `NoSuch` if the number
    /// doesn't await its response. The response is an empty 500, dated when the request was handed out. Under
    /// `Standard` it says `Connection: close` if a response from `respond` would.
    ///
    /// The 500 is sent by this call, or by the call that finishes the last of the unfinished numbers before this one.
    /// The reply is never `NotYet`, and never reports a fault of the writer. The call allocates nothing. Under
    /// `Standard` no request follows one that is dropped or answered while its 100 is owed, or while more than 65,536
    /// bytes of a body with a `Content-Length` are unread.
    #[inline(never)]
    pub fn drop_request(&mut self, number: u64) -> Reply
        ensures step { (date : Date) → TakesStep self.old self.new date (Step.Drop number) (seen result) }
    {
        if !self.let_go(number) {
            return Reply::NoSuch;
        }
        Reply::Done
    }

    // Drops the request with this number, and gives up its body. Returns whether it awaited its response.
    #[inline(never)]
    fn let_go(&mut self, number: u64) -> bool
        ensures drops { IsTrue result → Drops number self.old self.new }
        ensures none { result ≡ false
            → (waiting_response_context (slice_get self.old.requests number) ≡ None) × (self.new ≡ self.old) }
    {
        let Some(request) = self.pending.take(number, None) else {
            return false;
        };
        let left = request.body.remainder();
        self.end = ends_behind(request.is_last_once_finished(left), self.end);
        let (text, mut body) = request.into_drop_text(left);
        self.pending.leave(&mut self.outlet, number, text);
        body.give_up(&mut self.source);
        true
    }

    /// Responds to the request with this number, gives up its body, and returns `Done`. `now` is the response's `Date`.
    /// Returns `Fault` if the writer failed while the response was sent, or the response's data broke off; then nothing
    /// more is sent on the connection, and later responses are `Done` and unsent. For a fault that means that the
    /// client has disconnected, the reply is `Done`. If memory can't be allocated for data that has to be read to its
    /// end before the head is sent, the fault is `OutOfMemory`.
    ///
    /// Returns `NotYet` while a number before this one isn't finished, and `NoSuch` if this number doesn't await its
    /// response; then the response is dropped, and nothing has changed. Under `Standard` it returns `Refused`, in the
    /// number's turn or before it, if the status code is below 200 or above 999, or is 2xx in response to a `CONNECT`;
    /// then the request is dropped.
    ///
    /// Under `Standard` the response says `Connection: close` if the request is the last according to its head, its 100
    /// is owed, more than 65,536 bytes of a body with a `Content-Length` are unread, or the end of its body isn't
    /// known. This doesn't depend on what a later `ask` finds.
    ///
    /// After a response that was made with `with_close` no further head is read: a later `ask` returns `Ended`. Under
    /// `Standard` the response to the last number issued so far says `Connection: close`: this response, or that to a
    /// later request or refused head. The response to a later request doesn't say so if that request was already
    /// dropped or is upgraded, or if its raw writer is taken.
    #[inline(never)]
    pub fn respond<D: ReadDevice + Drop>(
        &mut self,
        alloc: Global,
        now: HttpDate,
        number: u64,
        response: Response<D>,
    ) -> Reply
        ensures step { TakesStep self.old self.new now (Step.Respond number (stated_response D.feed response))
            (seen result) }
    {
        if !self.pending.is_waiting(number) {
            return Reply::NoSuch;
        }
        if self.pending.refuses(number, response.status_code()) {
            self.let_go(number);
            return Reply::Refused;
        }
        if !self.pending.hold(number) {
            return Reply::NotYet;
        }
        let closes = response.closes();
        self.pending.close_last(closes);
        let Some(mut request) = self.pending.take(number, None) else {
            unreachable!()
        };
        let left = request.body.remainder();
        let end = ends_behind(request.is_last_once_finished(left), self.end);
        self.end = ends_behind(closes, end);
        let reply = answer(alloc, &mut request, &mut self.outlet, response, left, now);
        self.pending.pass(&mut self.outlet, number);
        request.give_up(&mut self.source);
        reply
    }

    /// Takes the raw writer of the request with this number in place of a response, gives up the request's body, and
    /// returns `Done`, in the number's turn or before it. Returns `NoSuch` if the number doesn't await its response.
    ///
    /// The call sends nothing: after a 100 that was already sent, the client gets only the bytes that `write` writes. A
    /// 100 that is owed is never sent. Under `Standard` no request follows one whose head says `asks_upgrade`, whose
    /// 100 is owed, or that has a body with a `Content-Length` of which more than 65,536 bytes are unread.
    #[inline(never)]
    pub fn into_writer(&mut self, number: u64) -> Reply
        ensures step { (date : Date) → TakesStep self.old self.new date (Step.IntoWriter number) (seen result) }
    {
        let Some(mut request) = self.pending.take(number, Some(Unfinished::Raw)) else {
            return Reply::NoSuch;
        };
        let left = request.body.remainder();
        self.end = ends_behind(request.is_last_with_stream(left), self.end);
        request.give_up(&mut self.source);
        Reply::Done
    }

    /// Writes bytes to this number's raw writer or upgraded stream, and returns `Done`. Returns `Fault` if the
    /// connection's writer fails while these bytes, or those held before them, are sent. Up to 1024 bytes may be held
    /// until `flush` or `finish`.
    ///
    /// A fault of any kind is reported. After it nothing more is sent on the connection, and later writes are `Done`
    /// and unsent. Returns `NotYet` while a number before this one isn't finished, and `NoSuch` if this number has no
    /// raw writer or stream; then nothing has changed.
    #[inline(never)]
    pub fn write(&mut self, number: u64, bytes: &[u8]) -> Reply
        ensures step { (date : Date) (written : Vec ℕ)
            → written.items ≡ bytes.now
            → TakesStep self.old self.new date (Step.Write number written) (seen result) }
    {
        if !self.pending.is_writable(number) {
            return Reply::NoSuch;
        }
        if !self.pending.is_in_turn(number) {
            return Reply::NotYet;
        }
        Reply::write_reply(self.outlet.write(bytes))
    }

    /// Sends what was written under this number, flushes the writer, and returns `Done`. Returns `Fault` if the writer
    /// fails, and `NotYet` or `NoSuch` as `write` does.
    #[inline(never)]
    pub fn flush(&mut self, number: u64) -> Reply
        ensures step { (date : Date) → TakesStep self.old self.new date (Step.Flush number) (seen result) }
    {
        if !self.pending.is_writable(number) {
            return Reply::NoSuch;
        }
        if !self.pending.is_in_turn(number) {
            return Reply::NotYet;
        }
        Reply::write_reply(self.outlet.flush())
    }

    /// Upgrades the connection of this number's request to this protocol, with this response (RFC 9110, section 7.8),
    /// and returns `Done`. It sends and flushes the response's head with `Connection: upgrade` and `Upgrade: PROTOCOL`,
    /// and drops its data unread. `now` is the response's `Date`. The call allocates nothing, and no reply reports a
    /// fault of the writer.
    ///
    /// From then on `read` returns what is left of the request's body, which is all that follows if the request's head
    /// names an upgrade; under `Standard` it returns all that follows the body. `write`, `flush` and `finish` act as
    /// they do for a raw writer.
    ///
    /// Returns `Refused` if the protocol isn't ASCII, in the number's turn or before it; then the request is dropped.
    /// Under `Standard` it is also `Refused` if the request doesn't ask for this protocol or is its connection's last,
    /// if the status code isn't 101, or if the body was cut, is broken, or wasn't read until its end was reported. An
    /// empty body, or one of up to 1024 bytes that came with its head, needn't be read, and a body with a
    /// `Content-Length` needs to be read only to its last byte. Returns `NotYet` and `NoSuch` as `respond` does.
    #[inline(never)]
    pub fn upgrade<D: ReadDevice + Drop>(
        &mut self,
        alloc: Global,
        now: HttpDate,
        number: u64,
        protocol: &str,
        response: Response<D>,
    ) -> Reply
        ensures step { (named : String Heap) → string_bytes named ≡ protocol.now
            → TakesStep self.old self.new now (Step.Upgrade number named (stated_response D.feed response))
            (seen result) }
    {
        if !self.pending.is_waiting(number) {
            return Reply::NoSuch;
        }
        let status = response.status_code();
        if self.pending.refuses_upgrade(number, protocol, status) {
            self.let_go(number);
            return Reply::Refused;
        }
        if !self.pending.is_in_turn(number) {
            return Reply::NotYet;
        }
        self.end = ends_behind(self.pending.is_last_with_stream(number), self.end);
        let outlet = &mut self.outlet;
        self.pending
            .upgrade(alloc, outlet, number, protocol, response, now);
        Reply::Done
    }

    /// Ends this number's raw writer or upgraded stream, gives up the body, and returns `Done`, in the number's turn or
    /// before it. Returns `NoSuch` if the number has no raw writer or stream. In its turn it sends what was written,
    /// and the waiting responses of the numbers directly after it. The call allocates nothing, and no reply reports a
    /// fault of the writer.
    #[inline(never)]
    pub fn finish(&mut self, alloc: Global, number: u64) -> Reply
        ensures step { (date : Date) → TakesStep self.old self.new date (Step.Finish number) (seen result) }
    {
        let Some(finished) = self.pending.close(number) else {
            return Reply::NoSuch;
        };
        self.pending
            .leave(&mut self.outlet, number, Vec::new(alloc));
        close_body(finished, &mut self.source);
        Reply::Done
    }

    /// Makes the call that a step names, with the step's date.
    // The calls aren't inlined here: otherwise each step would zero the stack space of all of them.
    pub fn step<D: ReadDevice + Drop>(&mut self, alloc: Global, timed: Timed<D>) -> Reply
        ensures step { TakesStep self.old self.new timed.now (stated_step D.feed timed.step) (seen result) }
        // Bounds the number of ends and faults of the client's reader that a `Read` encounters. The other steps are
        // unrestricted.
        ensures meets { StepMeets R.stop_count (stated_step D.feed timed.step) self.old self.new (seen result) }
    {
        let Timed { now, step } = timed;
        match step {
            Step::Ask => self.ask(alloc, now),
            Step::AsReader(number) => self.send_continue(alloc, now, number),
            Step::Read(number, count) => self.read(alloc, number, count),
            Step::Respond(number, response) => self.respond(alloc, now, number, response),
            Step::IntoWriter(number) => self.into_writer(number),
            Step::Write(number, bytes) => self.write(number, &bytes),
            Step::Flush(number) => self.flush(number),
            Step::Upgrade(number, protocol, response) => {
                self.upgrade(alloc, now, number, &protocol, response)
            }
            Step::Finish(number) => self.finish(alloc, number),
            Step::Drop(number) => self.drop_request(number),
        }
    }

    /// Ends the connection, and returns the reader and the writer with their buffers. Requests that await their
    /// responses get none, and responses that wait for their turn aren't sent.
    pub fn into_parts(self) -> (Source<R>, Outlet<W>)
        ensures conversation { (p : Profile) (client : Feed) (before : Sink) (steps : List TimedValue)
            (replies : List ReplyValue)
            → HasDone p client before self steps replies
            → IsConversation p client before steps replies (W.sink (outlet_writer result.1)) (outlet_held result.1)
            (outlet_ended result.1) result.0.feed }
        ensures source { result.0 ≡ self.source }
        ensures outlet { result.1 ≡ self.outlet }
        ensures sink { result.1.sink ≡ W.sink (outlet_writer result.1) }
    {
        self.outlet.facts();
        (self.source, self.outlet)
    }
}
