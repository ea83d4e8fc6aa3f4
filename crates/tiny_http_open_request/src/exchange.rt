//! A request without locks: its head, its body on the connection's input, and its response.
ghost use Rattle.std.specs.Prelude.{◌≡◌, ◌+◌, ◌≤◌, true, false, [], OnOk, OnErr};
ghost use Rattle.tiny_http_response.specs.ResponseValue.{printing_in, upgrade_text};
ghost use Rattle.tiny_http_io.specs.Source.{GoesOn};
ghost use Rattle.tiny_http_body.specs.Body.{ReadsBody, bytes_given, ends_met};
ghost use Rattle.tiny_http_io.specs.Device.{Feed, Tells};
ghost use Rattle.tiny_http_io.specs.Outlet.{outlet_held, SentOn};
ghost use Rattle.tiny_http_response.specs.Sending.{FailsOnce, SendsQuietlyOn, SendsAnswer};
ghost use Rattle.tiny_http_open_request.specs.ErrorResponse.{own_text_by};
ghost use Rattle.tiny_http_open_request.specs.HeadReads.{input_state_of};

use crate::open_request::OpenRequest;
pub use crate::read_head::{read_head, read_head_with};
use crate::upgrading::UpgradeError;
use httpdate::HttpDate;
use std::alloc::Global;
use std::io;
use std::io::ErrorKind;
use tiny_http_body::body::UnreadBody;
pub use tiny_http_body::framing::Form;
use tiny_http_body::framing::Framing;
use tiny_http_head::common::{HTTPVersion, Header, Method, StatusCode};
use tiny_http_io::device::{ReadDevice, WriteDevice};
use tiny_http_io::outlet::Outlet;
use tiny_http_io::source::{InputState, Source};
use tiny_http_response::response::Response;
use tiny_http_text::ascii::AsciiString;

/// The head of a request.
#[derive(Drop)]
pub struct Head {
    /// The request method.
    pub method: Method,
    /// The request target as it was sent; it may be empty.
    pub path: AsciiString,
    /// The version in the request line; under `Standard`, a version 1.x above 1.1 counts as 1.1.
    pub version: HTTPVersion,
    /// The headers, in order.
    pub headers: Vec<Header>,
    /// The framing of the request, and whether the connection ends after the request.
    pub framing: Framing,
}

/// One request and its response on a connection, without threads. The body is read from the source that the head was
/// read from.
#[derive(Drop)]
pub struct Exchange {
    head: Head,
    open_request: OpenRequest<UnreadBody>,
}

/// The reason why no further request follows.
#[derive(Clone, Copy, Debug, PartialEq, Eq)]
pub enum EndOfRequests {
    /// The last request has been read: according to its version or its `Connection` header the connection ends after
    /// it. Under `Standard` the connection also ends after a `CONNECT` request, after a request that was finished while
    /// its 100 was owed or more than 65,536 bytes of a body with a `Content-Length` were unread, and after a request
    /// for an upgrade if it was upgraded, or answered through its raw writer. Under any profile it also ends after a
    /// response made with `Response::with_close`, if the caller acts on it.
    LastRequest,
    /// The input ended before any byte of a further head. This includes an end within a body of known length (under
    /// `Standard` that is `BrokenBody` if the body was read up to the cut), and an end or a fault within the rest of
    /// such a body that was discarded or skipped.
    Closed,
    /// The input ended within a head, or within a body that is read with its head.
    Cut,
    /// The first bad line of the head has a byte that isn't ASCII (128 or above). Not returned under `Standard`.
    NotAscii,
    /// A head was refused with this status, which ended the requests.
    Refused(StatusCode),
    /// The reader failed with this kind before the head, or a body that is read with it, had arrived. A timeout is
    /// `Refused` with 408 instead, except under `Standard` before the first byte of the head.
    Fault(ErrorKind),
    /// The previous body was read up to this fault, of the reader or of the body itself.
    BrokenBody(ErrorKind),
    /// The previous body was chunked, and was discarded before its end was read, so the start of the next head isn't
    /// known.
    AbandonedBody,
    /// The previous body was neither read to its end nor discarded.
    UnreadBody,
    /// Memory for the head or its response couldn't be allocated.
    Memory,
}

/// The result of reading a head.
#[derive(Drop)]
pub enum HeadRead {
    /// A request.
    Request(Exchange),
    /// A head that is refused with this status. `text` is the complete response to it, to be sent in the turn of the
    /// head. If `last` is set, no head follows.
    Refused {
        status: StatusCode,
        text: Vec<u8>,
        last: bool,
    },
    /// The connection has no further request, for this reason.
    Ended(EndOfRequests),
}

impl Exchange {
    // Creates a request with this head, to which no response has been sent yet.
    pub(crate) fn new(head: Head, open_request: OpenRequest<UnreadBody>) -> Exchange
        ensures head { result.head ≡ head }
        ensures open { result.open_request ≡ open_request }
    {
        Exchange { head, open_request }
    }

    ghost use Rattle.tiny_http_open_request.specs.Exchange.{exchange_printing, exchange_context, exchange_check};
    ghost use Rattle.tiny_http_open_request.specs.Exchange.{exchange_of, exchange_head, exchange_drop_text};
    ghost use Rattle.tiny_http_open_request.specs.Exchange.{exchange_owes_continue, exchange_body, Changes};
    ghost use Rattle.tiny_http_open_request.specs.Exchange.{GivesUpBody, KeepsButBody};
    ghost use Rattle.tiny_http_open_request.specs.OpenRequest.{OwesNoContinue, HasBecomeStream, HasNoDropText};
    ghost use Rattle.tiny_http_open_request.specs.OpenRequest.{HasNoBodyLeft};

    /// Returns the head of the request.
    pub fn head(&self) -> &Head
        ensures { result.now ≡ exchange_head self.now }
    {
        &self.head
    }

    /// Reads some bytes of the body into the front of `buf`, and returns their number: possibly fewer than fit, even if
    /// more follow, and 0 if `buf` is empty. The source must be the one that the request was read from. After the last
    /// byte each call returns 0, or fails with the fault that cuts or breaks the body (RFC 9112, sections 6.2 and 7.1).
    /// Allocates nothing.
    ///
    /// The fault is the reader's own, or `InvalidData` or `UnexpectedEof` if the body is chunked; after it the source
    /// has ended. If the end of input cuts a body of known length, the body ends there; under `Standard` the fault is
    /// then `UnexpectedEof`. A read of a discarded body returns 0.
    pub fn read_body<R: ReadDevice>(
        &mut self,
        source: &mut Source<R>,
        buf: &mut [u8],
    ) -> Result<usize, io::Error>
        ensures reads { ReadsBody (exchange_body self.old) (exchange_body self.new) source.old source.new result
            buf.new }
        ensures kept { KeepsButBody self.old self.new }
        // The source's reader reports at most one end or fault, and none if bytes were read.
        ensures stop_count { Tells (R.stop_count source.old.reader) (R.stop_count source.new.reader) result }
        // The source's reader reports an end or fault only if the body is then cut or broken, or is the whole rest of
        // the input.
        ensures whole { R.stop_count source.new.reader ≤ R.stop_count source.old.reader
            + ends_met (exchange_body self.old) (bytes_given result) (exchange_body self.new) }
    {
        self.open_request.read(source, buf)
    }

    /// Sends the response to this request, dated `now`, and flushes it. No 100 is owed afterwards. The caller must
    /// respond to each request exactly once, in order, and then discard the body. Under `Standard` the response says
    /// that the connection closes if the request is the last according to its head, its 100 is owed, more than 65,536
    /// bytes of a body with a `Content-Length` are unread, or the end of its body isn't known; the caller must then
    /// read no further head. A body discarded before this call counts as read. `Response::with_close` has no effect
    /// here.
    ///
    /// On an outlet that has ended this sends nothing, doesn't read the data, and returns `Ok`. Fails with the first
    /// fault of the data or the first fault of the writer (if both fail, it is unspecified which is returned), or with
    /// `OutOfMemory` if memory for data of unknown length can't be allocated. After a failure the outlet has ended;
    /// unless the writer failed, the bytes that were held are sent.
    pub fn respond_on<W: WriteDevice, D: ReadDevice + Drop>(
        &mut self,
        alloc: Global,
        outlet: &mut Outlet<W>,
        response: Response<D>,
        now: HttpDate,
    ) -> Result<(), io::Error>
        ensures answers { SendsAnswer D.feed outlet.old outlet.new result response
            (printing_in (exchange_context self.old) now) }
        ensures once { Changes OwesNoContinue self.old self.new }
    {
        let left = self.open_request.body.remainder();
        self.open_request
            .respond(alloc, outlet, response, left, now)
    }

    /// Sends the response that upgrades the connection to `protocol` (RFC 9110, section 7.8), dated `now`, and flushes
    /// it: the head alone, with `Connection: upgrade` and `Upgrade: PROTOCOL` before the other headers (as in the Rust
    /// crate). The data are dropped unread, and no 100 is owed afterwards. A fault of the writer ends the outlet, and
    /// isn't reported. An outlet that has ended sends nothing. Allocates nothing.
    ///
    /// The caller must make this call in the request's turn, instead of sending a response, and must send neither a
    /// response nor the text of a drop afterwards. From then on the output is the protocol's, and `read_body` reads the
    /// protocol's input: the request's body, or under `Standard` all that follows that body. Under `Standard` the
    /// caller must read no head after an upgrade.
    ///
    /// # Errors
    /// Fails with `Protocol` if the protocol isn't ASCII. Under `Standard` it also fails with `NotAsked` if the request
    /// doesn't ask for this protocol, is its connection's last, or had its body discarded; with `Status` if the code
    /// isn't 101; and with `UnfinishedBody` if the body was cut, is broken, or was neither read with the head nor read
    /// to its end. If several apply, the first in this order is reported. After a failure nothing has changed, and a
    /// response or the text of a drop is still to be sent.
    pub fn upgrade_on<W: WriteDevice, D: Drop>(
        &mut self,
        alloc: Global,
        outlet: &mut Outlet<W>,
        protocol: &str,
        response: Response<D>,
        now: HttpDate,
    ) -> Result<(), UpgradeError>
        ensures checked { result ≡ exchange_check self.old protocol.now response.answer.status }
        ensures refused { OnErr result ((self.new ≡ self.old) × (outlet.new ≡ outlet.old)) }
        // Holds whatever the data are: they aren't read.
        ensures sends { OnOk result ((content : Feed) → SendsQuietlyOn outlet.old outlet.new
            (upgrade_text (record { answer = response.answer; content = content }) protocol.now
            (exchange_printing self.old now))) }
        ensures once { OnOk result (Changes HasBecomeStream self.old self.new) }
        ensures sent { OnOk result (FailsOnce outlet.old outlet.new
            × (outlet_held outlet.new ≡ [])
            × SentOn outlet.new) }
    {
        let status = response.status_code();
        let is_whole = self.open_request.body.is_whole();
        self.open_request.check_upgrade(protocol, status, is_whole)?;
        self.open_request
            .upgrade(alloc, outlet, protocol, response, now);
        let by_standard = self.open_request.by_standard;
        self.open_request.body.become_stream(by_standard);
        Ok(())
    }

    /// Sends the 100 that is owed to this request, and flushes it (RFC 9110, section 10.1.1). If none is owed, changes
    /// nothing. The caller must make this call in the request's turn, before the body is read and before the response.
    /// A fault of the writer ends the outlet, and isn't reported. An outlet that has ended sends nothing. Allocates
    /// nothing.
    pub fn send_continue<W: WriteDevice>(
        &mut self,
        alloc: Global,
        outlet: &mut Outlet<W>,
        now: HttpDate,
    )
        ensures unowed { exchange_owes_continue self.old ≡ false → (self.new ≡ self.old) × (outlet.new ≡ outlet.old) }
        ensures sends { exchange_owes_continue self.old ≡ true
            → SendsQuietlyOn outlet.old outlet.new (own_text_by 100 (exchange_printing self.old now)) }
        ensures once { Changes OwesNoContinue self.old self.new }
        ensures fails_once { FailsOnce outlet.old outlet.new }
        ensures sent { exchange_owes_continue self.old ≡ true → (outlet_held outlet.new ≡ []) × SentOn outlet.new }
    {
        self.open_request.send_continue(alloc, outlet, now);
    }

    /// Discards the rest of the body: each later read returns 0, no 100 is owed, and under `Standard` no upgrade is
    /// accepted. The rest of a body of known length is skipped before the next head. If the body is chunked and its end
    /// or fault hasn't been reported, this ends the source.
    pub fn give_up<R: ReadDevice>(&mut self, source: &mut Source<R>)
        ensures gives_up { GivesUpBody self.old source.old source.new }
        ensures kept { Changes HasNoBodyLeft self.old self.new }
        ensures goes_on { GoesOn source.old.feed source.new.feed }
    {
        self.open_request.give_up(source);
    }

    /// Takes the text that is sent if this request is dropped: an empty 500, printed for the request's version, headers
    /// and method, with the date on which the request was read (as in the Rust crate). A later call returns no bytes.
    /// No 100 is owed afterwards. The caller must send the text in the request's turn, instead of a response, and
    /// discard the body. Allocates nothing.
    pub fn text_of_drop(&mut self) -> Vec<u8>
        ensures text { result.items ≡ exchange_drop_text self.old }
        ensures once { Changes HasNoDropText self.old self.new }
    {
        let left = self.open_request.body.remainder();
        self.open_request.take_drop_text(left)
    }

    /// Splits the request into its head and its state until the response. Used by the crates that build on this one.
    pub fn into_parts(self) -> (Head, OpenRequest<UnreadBody>)
        ensures { self ≡ exchange_of result.0 result.1 }
    {
        (self.head, self.open_request)
    }
}

// Returns the input state of a source after the head of this request.
pub(crate) fn input_state_of(exchange: &Exchange) -> InputState
    ensures { result ≡ input_state_of exchange.now }
{
    if exchange.head.is_last() {
        return InputState::Last;
    }
    if exchange.open_request.body.holds_reader() {
        return InputState::Body;
    }
    InputState::Head
}
