//! The unfinished requests of a connection, and the response texts that wait for their turn.
ghost use Rattle.std.specs.Prelude.{◌≡◌, ◌↔◌, ◌≤◌, ◌<◌, ◌^◌, ◌+◌, ◌++◌, ◌∷◌, true, false, List, [], length, Some};
ghost use Rattle.std.specs.Prelude.{None, IfOk, IfSome, IfNone, is_some, OnOk, OnErr, IsTrue, ◌==◌, slice_get};
ghost use Rattle.std.specs.Prelude.{slice_set};
ghost use Rattle.tiny_http_turns.specs.Turns.{Mark, Open, Held, AreInShape, first_unfinished};
ghost use Rattle.tiny_http_io.specs.Outlet.{output_of, outlet_ended, outlet_held, SentOn};
ghost use Rattle.tiny_http_response.specs.Sending.{CanSend, IsFlushed, FailsOnce, KeepsSent, SendsQuietlyOn};
ghost use Rattle.tiny_http_response.specs.ResponseValue.{printing_in, upgrade_text};
ghost use Rattle.tiny_http_text.specs.Bytes.{is_ascii};
ghost use Rattle.tiny_http_io.specs.Device.{Feed};
ghost use Rattle.std.specs.List.{list_all};
ghost use Rattle.tiny_http_open_request.specs.ErrorResponse.{own_text_by};
ghost use Rattle.tiny_http_open_request.specs.OpenRequest.{HasSentAll};
ghost use Rattle.tiny_http_body.specs.declared.body.UnreadBody.{UnreadBody};
ghost use Rattle.tiny_http_open_request.specs.declared.open_request.OpenRequest.{OpenRequest};
ghost use Rattle.tiny_http_io.specs.Source.{GoesOn};
ghost use Rattle.tiny_http_body.specs.Body.{bytes_given, ends_met, is_streaming, stream_body, body_input_state};
ghost use Rattle.tiny_http_body.specs.Body.{FillsFromBody};
ghost use Rattle.tiny_http_connection.specs.Pending.{WaitsAt, left_text, SendsLeft, FinishesFront, LeavesText};
ghost use Rattle.tiny_http_connection.specs.Pending.{waiting_response_context, is_readable, is_writable, owes_continue};
ghost use Rattle.tiny_http_connection.specs.Pending.{holds_next_head_at, refuses_at, refuses_upgrade_at};
ghost use Rattle.tiny_http_connection.specs.Pending.{is_last_with_stream_at, closing_if_asked, last_holds_next_head};
ghost use Rattle.tiny_http_connection.specs.Pending.{kept_body, GivesUpIfKept, number_with_body, begins_left};

use httpdate::HttpDate;
use std::alloc::{AllocError, Global};
use std::io::ErrorKind;
use tiny_http_body::body::UnreadBody;
use tiny_http_head::common::StatusCode;
use tiny_http_io::device::{ReadDevice, WriteDevice};
use tiny_http_io::outlet::Outlet;
use tiny_http_io::source::Source;
use tiny_http_open_request::next_request::RefusalPlace;
use tiny_http_open_request::open_request::OpenRequest;
use tiny_http_response::response::Response;
use tiny_http_response::sending::{flush_quietly, write_quietly};
use tiny_http_turns::by_number::ByNumber;
use tiny_http_turns::passing::{HeldTurn, pass_on};
use tiny_http_turns::turns::{Finishing, Leaving, Turns, TurnsError};

/// The state of a request that isn't finished.
#[derive(Drop)]
pub enum Unfinished {
    /// The request awaits its response.
    Waiting(OpenRequest<UnreadBody>),
    /// The raw writer of the request is in use. The body has been given up.
    Raw,
    /// The request was upgraded. The upgraded stream reads from this body.
    Upgraded(UnreadBody),
}

/// The numbers of a connection's requests and refused heads: their turns, and the state of each request that isn't
/// finished.
#[derive(Drop)]
pub(crate) struct Pending {
    pub turns: Turns<()>,
    pub requests: ByNumber<Unfinished>,
}

impl Pending {
    /// Returns an empty table: no number has been issued.
    pub fn new(alloc: Global) -> Pending
        ensures marks { result.turns.marks ≡ [] }
        ensures requests { result.requests ≡ [] }
    {
        Pending {
            turns: Turns::new(alloc, ()),
            requests: ByNumber::new(alloc),
        }
    }

    /// Issues the next number, and keeps `request`, which is `None` for a refused head, under it. A call that fails
    /// drops `request` and changes nothing else.
    #[inline(always)]
    pub fn issue(&mut self, request: Option<Unfinished>) -> Result<u64, TurnsError>
        ensures number { IfOk result (λ n. n ≡ length self.old.turns.marks) }
        ensures marks { OnOk result (self.new.turns.marks ≡ self.old.turns.marks ++ (Open ∷ [])) }
        ensures shape { OnOk result (AreInShape self.new.turns.marks) }
        ensures requests { OnOk result (self.new.requests ≡ self.old.requests ++ (request ∷ [])) }
        ensures bound { OnOk result (length self.new.requests < 2 ^ 64) }
        ensures err { OnErr result ((self.new.turns ≡ self.old.turns) × (self.new.requests ≡ self.old.requests)) }
    {
        self.requests.push(request)?;
        match self.turns.issue() {
            Ok(number) => Ok(number),
            Err(error) => {
                drop(self.requests.pop());
                Err(error)
            }
        }
    }

    /// Returns whether this number awaits its response.
    #[inline(always)]
    pub fn is_waiting(&self, number: u64) -> bool
        ensures { result ≡ is_some (waiting_response_context (slice_get self.now.requests number)) }
    {
        matches!(self.requests.get(number), Some(Unfinished::Waiting(_)))
    }

    /// Returns whether the body of this number can be read: it awaits its response and no 100 is owed, or its upgraded
    /// stream is in use.
    pub fn is_readable(&self, number: u64) -> bool
        ensures { result ≡ is_readable (slice_get self.now.requests number) }
    {
        match self.requests.get(number) {
            Some(Unfinished::Waiting(request)) => !request.owes_continue,
            Some(Unfinished::Upgraded(_)) => true,
            _ => false,
        }
    }

    /// Returns whether bytes can be written under this number: its raw writer or its upgraded stream is in use.
    pub fn is_writable(&self, number: u64) -> bool
        ensures { result ≡ is_writable (slice_get self.now.requests number) }
    {
        matches!(
            self.requests.get(number),
            Some(Unfinished::Raw | Unfinished::Upgraded(_))
        )
    }

    /// Returns whether this number awaits its response and a 100 is owed.
    pub fn owes_continue(&self, number: u64) -> bool
        ensures { result ≡ owes_continue (slice_get self.now.requests number) }
    {
        match self.requests.get(number) {
            Some(Unfinished::Waiting(request)) => request.owes_continue,
            _ => false,
        }
    }

    /// Returns whether this number awaits its response and the next head isn't read before that response.
    pub fn holds_next_head(&self, number: u64) -> bool
        ensures { result ≡ holds_next_head_at (slice_get self.now.requests number) }
    {
        match self.requests.get(number) {
            Some(Unfinished::Waiting(request)) => request.holds_next_head,
            _ => false,
        }
    }

    /// Returns whether this number awaits its response, and that response may not have this status code.
    pub fn refuses(&self, number: u64, status: StatusCode) -> bool
        ensures { result ≡ refuses_at status.0 (slice_get self.now.requests number) }
    {
        match self.requests.get(number) {
            Some(Unfinished::Waiting(request)) => request.refuses(status),
            _ => false,
        }
    }

    /// Returns whether this number awaits its response and would be refused an upgrade to this protocol by a response
    /// with this status code.
    pub fn refuses_upgrade(&self, number: u64, protocol: &str, status: StatusCode) -> bool
        ensures { result ≡ refuses_upgrade_at protocol.now status.0 (slice_get self.now.requests number) }
    {
        match self.requests.get(number) {
            Some(Unfinished::Waiting(request)) => request
                .check_upgrade(protocol, status, request.body.is_whole())
                .is_err(),
            _ => false,
        }
    }

    /// Returns whether this number awaits its response and no head is read after it once its raw writer or an upgrade
    /// takes over the connection's stream: either the next head waits for the response to this request
    /// (`holds_next_head`), or no head would be read after this request even if it were answered now. This may be false
    /// for a request that is the last one according to its own head.
    pub fn is_last_with_stream(&self, number: u64) -> bool
        ensures { result ≡ is_last_with_stream_at (slice_get self.now.requests number) }
    {
        match self.requests.get(number) {
            Some(Unfinished::Waiting(request)) => {
                request.is_last_with_stream(request.body.remainder())
            }
            _ => false,
        }
    }

    /// Returns whether the last number awaits its response and the next head isn't read before that response.
    pub fn last_holds_next_head(&self) -> bool
        ensures { result ≡ last_holds_next_head self.now.requests }
    {
        match self.requests.len().checked_sub(1) {
            Some(number) => self.holds_next_head(number),
            None => false,
        }
    }

    /// Makes the response to the last number say, under `Standard`, that the connection closes after it, if `closes` is
    /// true. Otherwise, or if that number doesn't await its response, nothing changes.
    pub fn close_last(&mut self, closes: bool)
        ensures turns { self.new.turns ≡ self.old.turns }
        ensures requests { self.new.requests ≡ closing_if_asked closes self.old.requests }
    {
        if !closes {
            return;
        }
        let Some(last) = self.requests.len().checked_sub(1) else {
            return;
        };
        if let Some(mut request) = self.take(last, Some(Unfinished::Raw)) {
            request.close();
            drop(
                self.requests
                    .replace(last, Some(Unfinished::Waiting(request))),
            );
        }
    }

    /// Returns whether this is the first number that isn't finished, or, if all are finished, the next to be issued.
    pub fn is_in_turn(&self, number: u64) -> bool
        ensures { result ≡ (number == first_unfinished self.now.turns.marks) }
    {
        number == self.turns.first_unfinished()
    }

    /// Sends the 100 that this number's request is owed, if there is one and the number awaits its response. Afterwards
    /// none is owed. A fault of the writer isn't reported.
    pub fn send_continue<W: WriteDevice>(
        &mut self,
        alloc: Global,
        outlet: &mut Outlet<W>,
        number: u64,
        now: HttpDate,
    )
        ensures requests { (w : OpenRequest UnreadBody) → WaitsAt self.old.requests number w
            → self.new.requests ≡ slice_set self.old.requests number
            (Some (Unfinished.Waiting (record w { owes_continue = false }))) }
        ensures sends { (w : OpenRequest UnreadBody) → WaitsAt self.old.requests number w → w.owes_continue ≡ true
            → SendsQuietlyOn outlet.old outlet.new (own_text_by 100 (printing_in w.response_context now))
            × HasSentAll outlet.new }
        ensures fails_once { FailsOnce outlet.old outlet.new }
        ensures turns { self.new.turns ≡ self.old.turns }
    {
        if let Some(mut request) = self.take(number, Some(Unfinished::Raw)) {
            request.send_continue(alloc, outlet, now);
            drop(
                self.requests
                    .replace(number, Some(Unfinished::Waiting(request))),
            );
        }
    }

    /// Upgrades the connection to this protocol, if this number awaits its response. The upgraded stream reads what is
    /// left of the request's body, or, under `Standard`, all bytes after the body. A fault of the writer isn't
    /// reported.
    pub fn upgrade<W: WriteDevice, D: Drop>(
        &mut self,
        alloc: Global,
        outlet: &mut Outlet<W>,
        number: u64,
        protocol: &str,
        response: Response<D>,
        now: HttpDate,
    )
        requires { list_all is_ascii protocol.now ≡ true }
        ensures requests { (w : OpenRequest UnreadBody) → WaitsAt self.old.requests number w
            → self.new.requests ≡ slice_set self.old.requests number
            (Some (Unfinished.Upgraded (stream_body w.by_standard w.body))) }
        // Holds whatever the data is.
        ensures sends { (w : OpenRequest UnreadBody) → WaitsAt self.old.requests number w
            → ((content : Feed) → SendsQuietlyOn outlet.old outlet.new
            (upgrade_text (record { answer = response.answer; content = content }) protocol.now
            (printing_in w.response_context now)))
            × HasSentAll outlet.new }
        ensures fails_once { FailsOnce outlet.old outlet.new }
        ensures turns { self.new.turns ≡ self.old.turns }
    {
        if let Some(mut request) = self.take(number, Some(Unfinished::Raw)) {
            request.upgrade(alloc, outlet, protocol, response, now);
            let by_standard = request.by_standard;
            request.body.become_stream(by_standard);
            drop(
                self.requests
                    .replace(number, Some(Unfinished::Upgraded(request.body))),
            );
        }
    }

    /// Reads the body that is kept for this number until the buffer is full or no more bytes follow, and returns the
    /// number of bytes read, which is 0 if no body is kept. Fails with the body's fault if it comes before the first
    /// byte; a later fault is reported by the next call.
    pub fn fill<R: ReadDevice>(
        &mut self,
        source: &mut Source<R>,
        number: u64,
        buf: &mut [u8],
    ) -> Result<usize, ErrorKind>
        ensures bound { IfOk result (λ n. n ≤ length buf.new) }
        ensures fills { (u : Unfinished) (was : UnreadBody)
            → slice_get self.old.requests number ≡ Some (Some u)
            → kept_body (Some u) ≡ Some was
            → (body : UnreadBody)
            × (self.new.requests ≡ slice_set self.old.requests number (Some (number_with_body body u)))
            × FillsFromBody was source.old.feed body source.new.feed result buf.new
            × (is_streaming was ≡ false → source.new ≡ source.old)
            × (is_streaming was ≡ true → source.new.input_state ≡ body_input_state body source.old.input_state)
            × (R.stop_count source.new.reader
            ≤ R.stop_count source.old.reader + ends_met was (bytes_given result) body) }
        ensures turns { self.new.turns ≡ self.old.turns }
        ensures goes_on { GoesOn source.old.feed source.new.feed }
        // The source's reader reports at most one more end or fault, and none if the buffer was filled.
        ensures stop_count { R.stop_count source.new.reader ≤ R.stop_count source.old.reader + 1 }
        ensures lazy { IfOk result
            (λ n. n ≡ length buf.new → R.stop_count source.new.reader ≤ R.stop_count source.old.reader) }
    {
        let Some(mut unfinished) = self.requests.replace(number, Some(Unfinished::Raw)) else {
            return Ok(0);
        };
        let filled = fill_from(&mut unfinished, source, buf);
        drop(self.requests.replace(number, Some(unfinished)));
        filled
    }

    /// If this number awaits its response, removes and returns its request, and keeps `then` under the number.
    /// Otherwise returns `None`, and nothing changes.
    #[inline(always)]
    pub fn take(&mut self, number: u64, then: Option<Unfinished>) -> Option<OpenRequest<UnreadBody>>
        ensures some { IfSome result (λ w. (WaitsAt self.old.requests number w)
            × (self.new.requests ≡ slice_set self.old.requests number then)) }
        ensures none { IfNone result ((waiting_response_context (slice_get self.old.requests number) ≡ None)
            × (self.new.requests ≡ self.old.requests)) }
        ensures turns { self.new.turns ≡ self.old.turns }
    {
        if !self.is_waiting(number) {
            return None;
        }
        match self.requests.replace(number, then) {
            Some(Unfinished::Waiting(request)) => Some(request),
            _ => unreachable!(),
        }
    }

    /// If bytes can be written under this number, removes and returns what is kept under it. Otherwise returns `None`,
    /// and nothing changes.
    pub fn close(&mut self, number: u64) -> Option<Unfinished>
        ensures some { IfSome result (λ u. (slice_get self.old.requests number ≡ Some (Some u))
            × (is_writable (Some (Some u)) ≡ true)
            × (self.new.requests ≡ slice_set self.old.requests number None)) }
        ensures none { IfNone result ((is_writable (slice_get self.old.requests number) ≡ false)
            × (self.new.requests ≡ self.old.requests)) }
        ensures turns { self.new.turns ≡ self.old.turns }
    {
        if self.is_writable(number) {
            self.requests.replace(number, None)
        } else {
            None
        }
    }

    /// Holds this number and returns true, if it is open and its turn has come. Otherwise returns false, and nothing
    /// changes.
    pub fn hold(&mut self, number: u64) -> bool
        ensures held { IsTrue result ↔ ((slice_get self.old.turns.marks number ≡ Some Open)
            × (number ≡ first_unfinished self.old.turns.marks)) }
        ensures marks { IsTrue result → self.new.turns.marks ≡ slice_set self.old.turns.marks number Held }
        ensures not_yet { result ≡ false → self.new.turns.marks ≡ self.old.turns.marks }
        ensures requests { self.new.requests ≡ self.old.requests }
    {
        self.turns.take(number).is_some()
    }

    /// Finishes a held number and the numbers directly after it for which texts were left, and sends these texts. A
    /// fault of the writer isn't reported.
    pub fn pass<W: WriteDevice>(&mut self, outlet: &mut Outlet<W>, number: u64)
        ensures passes { (front rest : List Mark)
            → self.old.turns.marks ≡ front ++ (Held ∷ rest)
            → length front ≡ number
            → FinishesFront front rest self.new.turns.marks }
        ensures sends { (front rest : List Mark) → self.old.turns.marks ≡ front ++ (Held ∷ rest) → length front ≡ number
            → (outlet_ended outlet.old ≡ false → CanSend (output_of outlet.old))
            → SendsLeft rest (outlet_ended outlet.old) (output_of outlet.old) (output_of outlet.new)
            (outlet_ended outlet.new) }
        // If no text was left for the next number, the outlet isn't used, whatever its writer states.
        ensures idle { (front rest : List Mark) → self.old.turns.marks ≡ front ++ (Held ∷ rest)
            → length front ≡ number → begins_left rest ≡ false → outlet.new ≡ outlet.old }
        ensures requests { self.new.requests ≡ self.old.requests }
        ensures fails_once { FailsOnce outlet.old outlet.new }
        ensures keeps { KeepsSent outlet.old outlet.new }
        ensures flushed { outlet_held outlet.old ≡ [] → outlet_held outlet.new ≡ [] }
        ensures sent_on { SentOn outlet.old → SentOn outlet.new }
    {
        if let Finishing::Go((), text) = self.turns.finish(number, ()) {
            write_left(&mut self.turns, outlet, number + 1, text);
        }
    }

    /// Leaves a text for an open number. If the number's turn has come, sends the text, finishes the number, and does
    /// the same for the numbers directly after it for which texts were left. Otherwise the text waits for the number's
    /// turn. A fault of the writer isn't reported.
    pub fn leave<W: WriteDevice>(&mut self, outlet: &mut Outlet<W>, number: u64, text: Vec<u8>)
        ensures leaves { (front rest : List Mark)
            → self.old.turns.marks ≡ front ++ (Open ∷ rest)
            → length front ≡ number
            → (outlet_ended outlet.old ≡ false → CanSend (output_of outlet.old))
            → LeavesText (number == first_unfinished self.old.turns.marks) front rest self.new.turns.marks text.items
            (outlet_ended outlet.old) (output_of outlet.old) (output_of outlet.new) (outlet_ended outlet.new) }
        ensures counts { length self.new.turns.marks ≡ length self.old.turns.marks }
        ensures requests { self.new.requests ≡ self.old.requests }
        // Holds whatever the writer states.
        ensures sends { slice_get self.old.turns.marks number ≡ Some Open
            → (number == first_unfinished self.old.turns.marks) ≡ true
            → (outlet_held outlet.new ≡ []) × SentOn outlet.new }
        ensures waits { (number == first_unfinished self.old.turns.marks) ≡ false → outlet.new ≡ outlet.old }
        ensures fails_once { FailsOnce outlet.old outlet.new }
        ensures flushed { outlet_held outlet.old ≡ [] → outlet_held outlet.new ≡ [] }
        ensures sent_on { SentOn outlet.old → SentOn outlet.new }
    {
        if let Leaving::Go((), text) = self.turns.leave(number, text) {
            write_left(&mut self.turns, outlet, number, text);
        }
    }
}

impl<W: WriteDevice> RefusalPlace<Outlet<W>> for Pending {
    ghost use Rattle.tiny_http_connection.specs.Pending.{RefusesHead};

    ghost refuses = { RefusesHead };

    /// Gives the refused head the next number, and leaves its error response for that number. On an error nothing
    /// changes.
    fn refuse(&mut self, outlet: &mut Outlet<W>, text: Vec<u8>) -> Result<(), AllocError> {
        let Ok(number) = self.issue(None) else {
            return Err(AllocError);
        };
        self.leave(outlet, number, text);
        Ok(())
    }
}

// Reads the body of a request until the buffer is full or no more bytes follow, and returns the number of bytes read,
// which is 0 if no body is kept. Fails with the body's fault if it comes before the first byte; a later fault is
// reported by the next call.
fn fill_from<R: ReadDevice>(
    unfinished: &mut Unfinished,
    source: &mut Source<R>,
    buf: &mut [u8],
) -> Result<usize, ErrorKind>
    ensures bound { IfOk result (λ n. n ≤ length buf.new) }
    ensures fills { (was : UnreadBody) → kept_body (Some unfinished.old) ≡ Some was
        → (body : UnreadBody) × (unfinished.new ≡ number_with_body body unfinished.old)
        × FillsFromBody was source.old.feed body source.new.feed result buf.new
        × (is_streaming was ≡ false → source.new ≡ source.old)
        × (is_streaming was ≡ true → source.new.input_state ≡ body_input_state body source.old.input_state)
        × (R.stop_count source.new.reader ≤ R.stop_count source.old.reader + ends_met was (bytes_given result) body) }
    ensures goes_on { GoesOn source.old.feed source.new.feed }
    ensures stop_count { R.stop_count source.new.reader ≤ R.stop_count source.old.reader + 1 }
    ensures lazy { IfOk result
        (λ n. n ≡ length buf.new → R.stop_count source.new.reader ≤ R.stop_count source.old.reader) }
{
    match unfinished {
        Unfinished::Waiting(request) => request.body.fill(source, buf),
        Unfinished::Upgraded(body) => body.fill(source, buf),
        Unfinished::Raw => Ok(0),
    }
}

/// Gives up the body that is kept for a finished request, if any.
pub(crate) fn close_body<R: ReadDevice>(finished: Unfinished, source: &mut Source<R>)
    ensures gives_up { GivesUpIfKept (kept_body (Some finished)) source.old source.new }
{
    match finished {
        Unfinished::Waiting(mut request) => request.give_up(source),
        Unfinished::Raw => {}
        Unfinished::Upgraded(mut body) => body.give_up(source),
    }
}

#[derive(Drop)]
struct HeldNumber(u64);

impl<W: WriteDevice> HeldTurn<Turns<()>, Outlet<W>> for HeldNumber {
    ghost use Rattle.tiny_http_connection.specs.Pending.{WritesHeld, FinishesHeld};

    ghost writes = { WritesHeld };

    ghost finishes = { FinishesHeld };

    fn write_text(&mut self, outlet: &mut Outlet<W>, text: &[u8]) {
        write_quietly(outlet, text);
    }

    fn finish(&mut self, turns: &mut Turns<()>) -> Option<Vec<u8>> {
        match turns.finish(self.0, ()) {
            Finishing::Go((), text) => {
                self.0 += 1;
                Some(text)
            }
            Finishing::Passed | Finishing::Strange(()) => None,
        }
    }
}

// Writes the text of a held number and finishes the number, and does the same for the numbers directly after it for
// which texts were left.
fn write_texts<W: WriteDevice>(
    turns: &mut Turns<()>,
    outlet: &mut Outlet<W>,
    number: u64,
    text: Vec<u8>,
)
    ensures passes { (front rest : List Mark) → turns.old.marks ≡ front ++ (Held ∷ rest) → length front ≡ number
        → FinishesFront front rest turns.new.marks
        × SendsQuietlyOn outlet.old outlet.new (text.items ++ left_text rest) }
    ensures counts { length turns.new.marks ≡ length turns.old.marks }
    ensures fails_once { FailsOnce outlet.old outlet.new }
    ensures keeps { KeepsSent outlet.old outlet.new }
{
    pass_on(&mut HeldNumber(number), turns, outlet, text);
}

// Writes texts as `write_texts` does, and flushes.
fn write_left<W: WriteDevice>(
    turns: &mut Turns<()>,
    outlet: &mut Outlet<W>,
    number: u64,
    text: Vec<u8>,
)
    ensures passes { (front rest : List Mark) → turns.old.marks ≡ front ++ (Held ∷ rest) → length front ≡ number
        → FinishesFront front rest turns.new.marks
        × SendsQuietlyOn outlet.old outlet.new (text.items ++ left_text rest) }
    ensures counts { length turns.new.marks ≡ length turns.old.marks }
    ensures fails_once { FailsOnce outlet.old outlet.new }
    ensures keeps { KeepsSent outlet.old outlet.new }
    ensures flushed { outlet_held outlet.new ≡ [] }
    ensures sent_on { SentOn outlet.new }
    ensures is_flushed { IsFlushed (output_of outlet.new) }
{
    write_texts(turns, outlet, number, text);
    flush_quietly(outlet);
}
