//! A request that any thread may hold: its head, its body on the connection's input, and its turn at the output.
ghost use Rattle.std.specs.Prelude.{◌≡◌, ◌<◌, ◌≤◌, ◌||◌, ◌⊎◌, ℕ, length, true, false, Option, Ok, Err, Some, None};
ghost use Rattle.std.specs.Prelude.{IfOk, IfErr, IsErrOf, IfSome, OnOk, is_some};
ghost use Rattle.std.specs.IoError.{error_kind};
ghost use Rattle.std.specs.List.{list_all};
ghost use Rattle.std.specs.Option.{option_copied};
ghost use Rattle.std.specs.declared.io.ErrorKind.{ErrorKind};
ghost use Rattle.tiny_http_io.specs.Device.{Feed};
ghost use Rattle.tiny_http_io.specs.declared.device.Stop.TheVariants.{Fault};
ghost use Rattle.tiny_http_head.specs.Target.{IsPath, IsQuery};
ghost use Rattle.tiny_http_standard_head.specs.Lists.{has_element};
ghost use Rattle.tiny_http_response.specs.Sending.{is_closed_client};
ghost use Rattle.tiny_http_body.specs.Framing.{value_of};
ghost use Rattle.tiny_http_text.specs.Bytes.{is_ascii};
ghost use Rattle.tiny_http_open_request.specs.HeadValues.{is_upgrade};
ghost use Rattle.tiny_http_body.specs.FramingReading.{framing};
ghost use Rattle.tiny_http_body.specs.Body.{is_streaming, is_whole, bytes_left, body_stop, IsBodyOver, remaining};
ghost use Rattle.tiny_http_body.specs.Body.{prepended_body};
ghost use Rattle.tiny_http_open_request.specs.OpenRequest.{request_check, refuses_code};
ghost use Rattle.tiny_http_open_request.specs.HeadReads.{head_framing, Begins, FitsFraming};
ghost use Rattle.tiny_http_request.specs.Request.{IsInvalidInput, asks_for, request_head, request_secure};
ghost use Rattle.tiny_http_request.specs.Request.{request_address, request_open, is_expectation_failed, IfCreationIo};
ghost use Rattle.tiny_http_request.specs.Request.{cut_kind, IsCutShort, BeginsWith, Says, IsFramed, FailsBy};
ghost use Rattle.tiny_http_request.specs.Request.{request_body, ReadsStream, RefusesUpgrade};
ghost use Rattle.tiny_http_io.specs.CustomStream.{custom_reader};
ghost use Rattle.tiny_http_request.specs.Body.{body_left, input_of};
ghost use Rattle.tiny_http_request.specs.StreamedBody.{form_of};
ghost use Rattle.tiny_http_response.specs.Streaming.{streamed_form};
ghost use Rattle.tiny_http_request.specs.WholeBody.{FailsWhole, IsWholeOf};
ghost use Rattle.tiny_http_threads.specs.HeldReader.{held_item};

use crate::answering::{begin_answer, read_stream};
pub use crate::body::Body;
use crate::body::GivesOn;
use crate::client::{Client, Links};
pub use crate::refused_upgrade::{ReadWrite, RefusedUpgrade};
pub use crate::streamed_body::StreamedBody;
pub use crate::whole_body::BodyError;
use crate::whole_body::read_left;
use httpdate::HttpDate;
use std::alloc::{AllocError, Global};
use std::io::ErrorKind;
use std::net::SocketAddr;
use std::sync::{Arc, Wait};
use std::{fmt, io};
use thiserror::Error;
use tiny_http_body::body::UnreadBody;
use tiny_http_body::framing::{Framing, FramingFault, HeadRules, Profile, framing_of};
pub use tiny_http_body::streamed::StreamedForm;
use tiny_http_head::common::{HTTPVersion, Header, Method};
use tiny_http_io::custom_stream::CustomStream;
use tiny_http_io::device::{ReadDevice, Stop, WriteDevice};
use tiny_http_io::outlet::Outlet;
use tiny_http_io::source::Source;
use tiny_http_open_request::body_start::begin_body;
use tiny_http_open_request::exchange::Head;
use tiny_http_open_request::open_request::OpenRequest;
pub use tiny_http_open_request::upgrading::UpgradeError;
use tiny_http_response::response::Response;
use tiny_http_response::sending::reported;
use tiny_http_socket::shared_state::SharedState;
use tiny_http_text::ascii::AsciiString;
use tiny_http_threads::held_reader::HeldReader;
use tiny_http_threads::sequential::{
    SequentialReaderBuilder, SequentialWriter, SequentialWriterBuilder,
};

/// An error in making a request from its parts.
#[derive(Debug, Drop, Error)]
pub enum RequestCreationError {
    /// The headers expect something other than a 100 (RFC 9110, section 10.1.1).
    #[error("the expectation can't be met")]
    ExpectationFailed,
    /// A body of up to 1024 bytes couldn't be read: the reader's fault, or `ConnectionAborted` if the reader's bytes
    /// end early.
    #[error("{0}")]
    CreationIoError(io::Error),
    /// Out of memory.
    #[error("out of memory")]
    Memory,
}

impl From<io::Error> for RequestCreationError {
    ghost use Rattle.tiny_http_request.specs.declared.request.RequestCreationError.TheVariants.{CreationIoError};

    ghost from_gives = { λ fault error. error ≡ CreationIoError fault };

    /// Returns `CreationIoError`.
    fn from(error: io::Error) -> RequestCreationError {
        RequestCreationError::CreationIoError(error)
    }
}

impl From<AllocError> for RequestCreationError {
    ghost use Rattle.tiny_http_request.specs.declared.request.RequestCreationError.TheVariants.{Memory};

    ghost from_gives = { λ _ error. error ≡ Memory };

    /// Returns `Memory`.
    fn from(_error: AllocError) -> RequestCreationError {
        RequestCreationError::Memory
    }
}

/// A client's request, with its body and its turn to be answered. Any thread may hold it, read its body and respond to
/// it while the connection reads on. Responses are sent in the order of the requests. A request that is dropped gets an
/// empty 500, in its turn.
pub struct Request<R: ReadDevice + Drop, W: WriteDevice + Drop, Rt: Wait + Drop> {
    rt: Rt,
    alloc: Global,
    client: Client,
    head: Head,
    links: Links,
    open_request: OpenRequest<Body<R, Rt>>,
    writer: SequentialWriter<Outlet<W>, Rt>,
}

impl<R: ReadDevice + Drop, W: WriteDevice + Drop, Rt: Wait + Drop> Request<R, W, Rt> {
    /// Makes a request from these parts.
    #[allow(clippy::too_many_arguments)]
    pub(crate) fn from_parts(
        rt: Rt,
        alloc: Global,
        client: Client,
        head: Head,
        open_request: OpenRequest<UnreadBody>,
        reader: Option<HeldReader<Source<R>, Rt>>,
        writer: SequentialWriter<Outlet<W>, Rt>,
        links: Links,
    ) -> Request<R, W, Rt>
        requires { is_some reader ≡ (is_streaming open_request.body || open_request.holds_next_head) }
        ensures head { request_head result ≡ head }
        ensures open { request_open result ≡ open_request }
        ensures body { request_body result
            ≡ record {
              unread = open_request.body;
              input = input_of reader None;
              holds_input = is_some reader;
              outlasts = open_request.holds_next_head;
            } }
        ensures client { (request_secure result ≡ client.secure) × (request_address result ≡ client.remote_addr) }
    {
        let gives_on = if open_request.holds_next_head {
            GivesOn::AfterAnswer
        } else {
            GivesOn::AfterBody
        };
        let open_request = open_request.map_body(|body| Body::new(body, reader, gives_on));
        Request {
            rt,
            alloc,
            client,
            head,
            links,
            open_request,
            writer,
        }
    }

    // Takes the request apart, and returns what is needed to finish it: its state until the response, and its turn.
    fn into_parts(self) -> (OpenRequest<Body<R, Rt>>, SequentialWriter<Outlet<W>, Rt>)
        ensures { result.0 ≡ self.open_request }
    {
        let Self {
            rt: _,
            alloc: _,
            client: _,
            head: _,
            links: _,
            open_request,
            writer,
        } = self;
        (open_request, writer)
    }

    /// Returns the runtime by which the request waits.
    pub fn runtime(&self) -> &Rt {
        &self.rt
    }

    /// Returns the allocator of the request.
    pub fn alloc(&self) -> Global {
        self.alloc
    }

    /// Returns whether the connection is encrypted.
    pub fn secure(&self) -> bool
        ensures { result ≡ request_secure self.now }
    {
        self.client.secure
    }

    /// Returns the method.
    pub fn method(&self) -> &Method
        ensures { result.now ≡ (request_head self.now).method }
    {
        &self.head.method
    }

    /// Returns the request target as it was sent. It may be empty.
    pub fn url(&self) -> &str
        ensures { result.now ≡ (request_head self.now).path }
    {
        self.head.path.as_str()
    }

    /// Returns the headers, in their order.
    pub fn headers(&self) -> &[Header]
        ensures { result.now ≡ (request_head self.now).headers.items }
    {
        self.head.headers.as_slice()
    }

    /// Returns the value of the first header with this name, or `None` if there is none. ASCII letter case is ignored
    /// (RFC 9110, section 5.1). Further headers with this name are ignored.
    pub fn header(&self, name: &str) -> Option<&str>
        ensures { option_copied result ≡ value_of name.now (request_head self.now).headers.items }
    {
        self.head.header(name)
    }

    /// Returns whether the headers with this name list this token. Together they form one list (RFC 9110, section 5.3),
    /// whose elements are separated by commas and trimmed of spaces and tabs (section 5.6.1). ASCII letter case of name
    /// and token is ignored. An element must be the token alone: `gzip;q=1` isn't `gzip`. A comma in a quoted string
    /// separates elements, too.
    pub fn header_lists(&self, name: &str, token: &str) -> bool
        ensures { result ≡ has_element name.now token.now (request_head self.now).headers.items }
    {
        self.head.header_lists(name, token)
    }

    /// Returns the path of the target, without its query, as it was sent: percent-encoded, and possibly with `.` and
    /// `..` segments (RFC 9112, section 3.2). It is `/a` for `/a?b` and for `http://host/a?b`, and `/` for
    /// `http://host`. `*`, and the host and port of a `CONNECT`, are their own path. An empty target, which `Standard`
    /// refuses, has an empty path.
    pub fn path(&self) -> &str
        ensures { IsPath (request_head self.now).path result.now }
    {
        self.head.target_path()
    }

    /// Returns the query of the target as it was sent: what follows its first `?`, which may be empty. Returns `None`
    /// if there is no `?` (RFC 3986, section 3.4).
    pub fn query(&self) -> Option<&str>
        ensures { IsQuery (request_head self.now).path (option_copied result) }
    {
        self.head.query()
    }

    /// Returns whether the head asks for an upgrade that its profile accepts (RFC 9110, section 7.8). Under `Standard`
    /// the head needs `upgrade` in `Connection`, a protocol in `Upgrade` and version 1.1, and the connection must not
    /// end after the request; then an upgrade to a protocol that `Upgrade` names doesn't fail with `NotAsked`. Under
    /// the other profiles the first `Connection` header must contain `upgrade`; then all that follows the head is the
    /// body, whatever `Upgrade` names.
    pub fn is_upgrade(&self) -> bool
        ensures { result ≡ is_upgrade (request_head self.now) }
    {
        self.head.is_upgrade()
    }

    /// Returns the version in the request line. Under `Standard` a version 1.x above 1.1 counts as 1.1.
    pub fn http_version(&self) -> &HTTPVersion
        ensures { result.now ≡ (request_head self.now).version }
    {
        &self.head.version
    }

    /// Returns the value of `Content-Length`, if it is valid and no `Transfer-Encoding` overrides it.
    pub fn body_length(&self) -> Option<usize>
        ensures { result ≡ (request_head self.now).framing.body_length }
    {
        self.head.body_length()
    }

    /// Returns the client's address, or `None` if the client uses a Unix socket or the system doesn't know its address.
    pub fn remote_addr(&self) -> Option<&SocketAddr>
        ensures { option_copied result ≡ request_address self.now }
    {
        self.client.remote_addr.as_ref()
    }

    // Makes each later flush of the connection send its bytes, so that a flush by the program never holds them back.
    fn send_at_flush(&self) {
        if let Some(flush_policy) = &self.links.flush_policy {
            flush_policy.send_at_flush();
        }
    }

    // Sends the 100 that is owed, if any, in the turn of the request. After that none is owed.
    fn send_continue(&mut self, now: HttpDate)
        ensures open { request_open self.new ≡ record (request_open self.old) { owes_continue = false } }
        ensures body { request_body self.new ≡ request_body self.old }
        ensures head { request_head self.new ≡ request_head self.old }
        ensures client { (request_secure self.new ≡ request_secure self.old)
            × (request_address self.new ≡ request_address self.old) }
    {
        if self.open_request.owes_continue {
            self.send_at_flush();
            let outlet = self.writer.hold();
            self.open_request.send_continue(self.alloc, outlet, now);
            self.writer.close_if_broken();
        }
    }

    /// Returns the body. If a 100 is owed, it is sent first, dated `now`, in the turn of the request: the call waits
    /// until the earlier requests are finished. A fault of the writer isn't reported here.
    pub fn as_reader(&mut self, now: HttpDate) -> &mut Body<R, Rt>
        ensures { result.now ≡ request_body self.old }
    {
        self.send_continue(now);
        &mut self.open_request.body
    }

    /// Returns the head and the body, so that the head can be used while the body is read. A 100 that is owed is sent
    /// first, as `as_reader` sends it.
    pub fn parts(&mut self, now: HttpDate) -> (&Head, &mut Body<R, Rt>)
        ensures head { result.0.now ≡ request_head self.old }
        ensures body { result.1.now ≡ request_body self.old }
    {
        self.send_continue(now);
        let Self {
            head,
            open_request,
            ..
        } = self;
        (head, &mut open_request.body)
    }

    /// Reads the body to its end, at most `most` bytes. If a 100 is owed, it is sent first, dated `now`, in the turn of
    /// the request: the call waits until the earlier requests are finished. Bytes that have already been read aren't in
    /// the result. Memory is allocated as bytes arrive, not in advance for a stated length.
    ///
    /// Fails with `TooLong` if more than `most` bytes are left: at once if the length is known, and then nothing is
    /// sent or read; otherwise once `most` bytes and one more have been read. Fails with `Cut` if the client's bytes
    /// end within a body of a known length or within chunks, with `Broken` if chunks break the grammar (RFC 9112,
    /// section 7.1), with `Io` for any other fault of the reader, including one of kind `Interrupted`, and with
    /// `Memory` if memory can't be allocated.
    ///
    /// After an immediate `TooLong` nothing has changed. After any other error the bytes that were read are lost, and
    /// the body continues at the current position. After `Broken` or `Io` a later call fails again with the same error,
    /// and so it does after `Cut`, with one exception: under `Lenient` and `Strict` a body of a known length that is
    /// cut is over, and a later call returns no bytes.
    ///
    /// An error sends no response: a handler that returns it with `?` drops the request, which sends a 500. `BodyError`
    /// lists the status codes that fit. A body that is all that follows the head, such as that of an upgrade under each
    /// profile except `Standard`, ends with the client's bytes.
    pub fn read_body(
        &mut self,
        alloc: Global,
        most: usize,
        now: HttpDate,
    ) -> Result<Vec<u8>, BodyError>
        ensures refused { (n : ℕ)
            → bytes_left (request_open self.old).body ≡ Some n
            → most < n
            → IsErrOf result BodyError.TooLong × (self.new ≡ self.old) }
        ensures bound { IfOk result (λ bytes. length bytes.items ≤ most) }
        ensures sized { (n : ℕ)
            → bytes_left (request_open self.old).body ≡ Some n
            → IfOk result (λ bytes. length bytes.items ≡ n) }
        // The bytes are what is left of the body, if the connection's reader states its feed.
        ensures whole { IfOk result (λ bytes. IsWholeOf bytes.items (body_left (request_body self.old))) }
        // If the body isn't read from the connection, its bytes are known, whatever the reader states.
        ensures held { is_streaming (request_open self.old).body ≡ false → (feed : Option Feed)
            → IfOk result
            (λ bytes. remaining (request_open self.old).body feed
            ≡ prepended_body bytes.items (remaining (request_open self.new).body feed)) }
        ensures again { (kind : ErrorKind)
            → body_stop (request_open self.old).body ≡ Some (Fault kind)
            → OnOk result ⊥ }
        // A body that is read from the connection was read to its end.
        ensures over { OnOk result (is_streaming (request_open self.old).body ≡ true
            → (bytes_left (request_open self.old).body ≡ Some 0) ⊎ IsBodyOver (request_open self.new).body) }
        ensures fails { IfErr result
            (λ e. FailsWhole (request_head self.old).framing.form most (request_open self.old).body
            (request_open self.new).body e) }
        ensures continued { OnOk result ((request_open self.new).owes_continue ≡ false) }
        ensures head { request_head self.new ≡ request_head self.old }
    {
        if let Some(left) = self.open_request.body.left()
            && left > most
        {
            return Err(BodyError::TooLong);
        }
        self.send_continue(now);
        read_left(alloc, &mut self.open_request.body, self.head.form(), most)
    }

    /// Sends the response, dated `now`, in the turn of the request, and then gives up the body. It waits until the
    /// earlier requests are finished. Fails with the first fault of the data or of the writer. After a fault nothing
    /// more is sent on the connection, and a server with limits ends the connection and hands out no further request.
    ///
    /// A fault of kind `BrokenPipe`, `ConnectionAborted`, `ConnectionRefused` or `ConnectionReset` isn't reported, even
    /// from the data. Fails with `UnexpectedEof` if the data end before their stated length; if they are sent in
    /// chunks, only under `Standard`. Under `Standard` it fails with `InvalidInput` if the status code is below 200 or
    /// above 999, or is 2xx in response to a `CONNECT`; then the request is dropped.
    ///
    /// Under `Standard` no request follows one that is answered or dropped while its 100 is owed, or while more than
    /// 65,536 bytes of a body with a `Content-Length` are unread. Then the response says `Connection: close`, as it
    /// does if the request is the last according to its head, or the end of its body isn't known (RFC 9112, section
    /// 9.6).
    ///
    /// After a response made with `with_close` no further request is handed out. Under `Standard` the connection's last
    /// response says `Connection: close`: this one, or that to a later request or refused head. The response to a later
    /// request doesn't say it if that request was already dropped, is upgraded, or its raw writer is taken.
    ///
    /// Under each profile the writer signals that no byte follows once that last response has been flushed: the client
    /// of a socket then sees end of file, even while a thread waits for the next head. It signals nothing after a raw
    /// writer or an upgrade, nor after responses that waited for the turn of that writer or upgrade to end.
    pub fn respond<D: ReadDevice + Drop>(
        self,
        response: Response<D>,
        now: HttpDate,
    ) -> Result<(), io::Error>
        ensures reported { IfErr result (λ e. is_closed_client (error_kind e) ≡ false) }
        ensures refused { refuses_code (request_open self).by_standard (request_open self).is_connect
            response.answer.status ≡ true
            → IsInvalidInput result }
    {
        if self.open_request.refuses(response.status_code()) {
            return Err(ErrorKind::InvalidInput.into());
        }
        let alloc = self.alloc;
        let (mut open_request, mut writer) = self.into_parts();
        let left = begin_answer(&mut open_request, &mut writer, response.closes());
        let sent = open_request.respond(alloc, writer.hold(), response, left, now);
        writer.close_if_broken();
        writer.pass();
        drop(open_request);
        reported(sent)
    }

    /// Begins a response whose body grows while it is sent, such as server-sent events. It writes the head, dated
    /// `now`, in the turn of the request, and gives up the request's body. It waits until the earlier requests are
    /// finished. The response's data are dropped, and no length is stated. The client gets the head with the first
    /// flush, or once 8192 bytes have been written.
    ///
    /// The body is sent in chunks (RFC 9112, section 7.1). For a request of version 1.0 or lower it is sent as it is,
    /// and ends with the connection (section 6.3): no further request is handed out, and responses to later requests
    /// that were already handed out are lost. The body isn't sent if none is allowed (`HEAD`, or a code without
    /// content): if `StreamedBody::form` is `Absent`, call `finish` at once, since no write would report that the
    /// client has disconnected.
    ///
    /// Fails with `InvalidInput` if `respond` would refuse the status code; then the request is dropped. Fails with the
    /// fault of the client's writer, or with `BrokenPipe` if the connection's output had already ended. The rules of
    /// `respond` on the end of the connection and on `with_close` apply.
    pub fn respond_streaming<D: Drop>(
        self,
        response: Response<D>,
        now: HttpDate,
    ) -> Result<StreamedBody<W, Rt>, io::Error>
        ensures refused { refuses_code (request_open self).by_standard (request_open self).is_connect
            response.answer.status ≡ true
            → IsInvalidInput result }
        ensures form { IfOk result
            (λ body. form_of body ≡ streamed_form (request_open self).response_context response.answer.status) }
    {
        let status = response.status_code();
        if self.open_request.refuses(status) {
            return Err(ErrorKind::InvalidInput.into());
        }
        self.send_at_flush();
        let form = self.open_request.streamed_form(status);
        let ends = response.closes() || form == StreamedForm::Plain;
        let (mut open_request, mut writer) = self.into_parts();
        let left = begin_answer(&mut open_request, &mut writer, ends);
        let outlet = writer.hold();
        if outlet.is_ended() {
            return Err(ErrorKind::BrokenPipe.into());
        }
        if let Err(fault) = open_request.begin_streaming(outlet, &response, left, now) {
            writer.close_if_broken();
            return Err(fault);
        }
        Ok(StreamedBody::new(writer, form))
    }

    /// Takes the raw writer in place of a response, and gives up the body. The client gets only what is written, after
    /// the 100 if one has been sent. The turn ends when the writer is dropped. Under `Standard` no request follows one
    /// that asks for an upgrade, whose 100 is owed, or that has a body with a `Content-Length` of which more than
    /// 65,536 bytes are unread.
    pub fn into_writer(self) -> SequentialWriter<Outlet<W>, Rt> {
        self.send_at_flush();
        let (mut open_request, writer) = self.into_parts();
        let left = open_request.body.remainder();
        if open_request.is_last_with_stream(left) {
            open_request.body.end_requests();
        }
        drop(open_request);
        writer
    }

    /// Upgrades the connection to this protocol with this response, in the turn of the request (RFC 9110, section 7.8).
    /// It sends only the response's head, dated `now`, and drops its data unread. It waits until the earlier requests
    /// are finished, and reports no fault of the writer. The stream then reads the body, and writes in the turn of the
    /// request, which ends when the stream is dropped. Under `Standard` the stream reads all that follows the body, and
    /// no request follows.
    ///
    /// Fails if the protocol isn't ASCII. Under `Standard` it also fails if the request doesn't ask for this protocol
    /// or is its connection's last, if the status code isn't 101, or if the body was cut, is broken, or wasn't read
    /// until a read returned 0. An empty body, or one of up to 1024 bytes that came with its head, needn't be read, and
    /// a body with a `Content-Length` needs to be read only to its last byte. On a server with limits it fails with
    /// `TooMany` if the limit of upgraded connections is reached. A request that isn't upgraded is dropped.
    pub fn upgrade<D: Drop>(
        self,
        protocol: &str,
        response: Response<D>,
        now: HttpDate,
    ) -> Result<CustomStream<Body<R, Rt>, SequentialWriter<Outlet<W>, Rt>>, UpgradeError>
        ensures granted { OnOk result
            (request_check (request_open self) protocol.now response.answer.status
            (is_whole (request_open self).body) ≡ Ok tt) }
        ensures refused { IfErr result
            (λ e. RefusesUpgrade (request_check (request_open self) protocol.now response.answer.status
            (is_whole (request_open self).body)) e) }
        ensures stream { IfOk result (λ s. ReadsStream self (custom_reader s)) }
    {
        let status = response.status_code();
        let is_whole = self.open_request.body.is_whole();
        self.open_request.check_upgrade(protocol, status, is_whole)?;
        if !self.enters_stream(is_whole) {
            return Err(UpgradeError::TooMany);
        }
        Ok(self.begin_stream(protocol, response, is_whole, now))
    }

    /// Upgrades as `upgrade` does, but under each profile only if the head asks for this protocol: `is_upgrade` returns
    /// true, and the `Upgrade` headers list the protocol. Otherwise it fails with `NotAsked`. If the upgrade is
    /// refused, nothing has been sent, and the error returns the request, which can still be answered; the response is
    /// dropped.
    pub fn try_upgrade<D: Drop>(
        self,
        protocol: &str,
        response: Response<D>,
        now: HttpDate,
    ) -> Result<
        CustomStream<Body<R, Rt>, SequentialWriter<Outlet<W>, Rt>>,
        RefusedUpgrade<R, W, Rt>,
    >
        ensures granted { OnOk result
            ((request_check (request_open self) protocol.now response.answer.status
            (is_whole (request_open self).body) ≡ Ok tt)
            × (asks_for (request_head self) protocol.now ≡ true)) }
        ensures stream { IfOk result (λ s. ReadsStream self (custom_reader s)) }
        ensures handed_back { IfErr result (λ e. e.request ≡ self) }
        ensures refused { IfErr result
            (λ e.
            RefusesUpgrade (request_check (request_open self) protocol.now response.answer.status
            (is_whole (request_open self).body)) e.error
            ⊎ ((asks_for (request_head self) protocol.now ≡ false) × (e.error ≡ UpgradeError.NotAsked))) }
    {
        let status = response.status_code();
        let is_whole = self.open_request.body.is_whole();
        if let Err(error) = self.open_request.check_upgrade(protocol, status, is_whole) {
            return Err(RefusedUpgrade {
                error,
                request: self,
            });
        }
        if !self.is_upgrade() || !self.header_lists("Upgrade", protocol) {
            let error = UpgradeError::NotAsked;
            return Err(RefusedUpgrade {
                error,
                request: self,
            });
        }
        if !self.enters_stream(is_whole) {
            let error = UpgradeError::TooMany;
            return Err(RefusedUpgrade {
                error,
                request: self,
            });
        }
        Ok(self.begin_stream(protocol, response, is_whole, now))
    }

    // Returns the shared state for the reads of an upgraded stream, if the stream still reads from the connection.
    fn stream_timers(&self, is_whole: bool) -> Option<&Arc<SharedState>> {
        if !self.open_request.by_standard && is_whole {
            return None;
        }
        self.links.shared.as_ref()
    }

    // Counts the connection as upgraded, if the stream still reads from it. Returns false if the limit of upgraded
    // connections has been reached.
    fn enters_stream(&self, is_whole: bool) -> bool {
        match self.stream_timers(is_whole) {
            Some(shared) => shared.enter_stream(),
            None => true,
        }
    }

    /// Returns whether a response would be lost, because an earlier response broke off or ended the connection's
    /// output, or a raw writer closed it. Always false on a server without limits.
    pub fn is_lost(&self) -> bool {
        self.writer.is_broken()
    }

    // Sends the response that upgrades the connection, and returns the upgraded stream.
    fn begin_stream<D: Drop>(
        self,
        protocol: &str,
        response: Response<D>,
        is_whole: bool,
        now: HttpDate,
    ) -> CustomStream<Body<R, Rt>, SequentialWriter<Outlet<W>, Rt>>
        requires { list_all is_ascii protocol.now ≡ true }
        ensures stream { ReadsStream self (custom_reader result) }
    {
        self.send_at_flush();
        if let Some(shared) = self.stream_timers(is_whole) {
            shared.begin_stream();
        }
        let alloc = self.alloc;
        let (mut open_request, mut writer) = self.into_parts();
        read_stream(&mut open_request);
        open_request.upgrade(alloc, writer.hold(), protocol, response, now);
        writer.close_if_broken();
        CustomStream::new(open_request.body, writer)
    }

    /// Drops the request: the response is an empty 500, in its turn. The call doesn't wait for that turn.
    pub fn abandon(self) {
        drop(self);
    }
}

impl<R: ReadDevice + Drop, W: WriteDevice + Drop, Rt: Wait + Drop> Drop for Request<R, W, Rt> {
    /// Leaves an empty 500 for the request's turn, and then gives up the body. Under `Standard` the 500 says
    /// `Connection: close` if a response from `respond` would. If the 500 is the last response after one that asked to
    /// close the connection, the writer signals that no byte follows, as `respond` describes.
    fn drop(self) {
        let (mut open_request, writer) = self.into_parts();
        let left = open_request.body.remainder();
        if open_request.is_last_once_finished(left) {
            open_request.body.end_requests();
        }
        if writer.is_last() {
            open_request.close();
        }
        let (text, body) = open_request.into_drop_text(left);
        writer.leave(text);
        drop(body);
    }
}

impl<R: ReadDevice + Drop, W: WriteDevice + Drop, Rt: Wait + Drop> fmt::Debug
    for Request<R, W, Rt> {
    /// Writes `Request(METHOD PATH from ADDRESS)`.
    fn fmt<F: fmt::Write>(&self, f: &mut fmt::Formatter<F>) -> fmt::Result {
        let method = &self.head.method;
        let path = self.head.path.as_str();
        let address = self.client.remote_addr;
        write!(f, "Request({method} {path} from {address:?})")
    }
}

// Returns the error kind for a body that is cut short because its reader stopped in this way.
fn cut_kind(stop: Option<Stop>) -> ErrorKind
    ensures { IfSome stop (λ stop. result ≡ cut_kind stop) }
{
    match stop {
        Some(Stop::Fault(kind)) => kind,
        _ => ErrorKind::ConnectionAborted,
    }
}

// Returns the body with this framing. A body of `Form::WithHead` is read at once.
fn body_of<R: ReadDevice>(
    alloc: Global,
    source: &mut Source<R>,
    framing: Framing,
) -> Result<UnreadBody, RequestCreationError>
    ensures begins { IfOk result (λ body. Begins framing source.old.feed source.new.feed (Some body)) }
    ensures fits { IfOk result (FitsFraming framing) }
    ensures cut { IfErr result (λ e. IfCreationIo e (λ fault. IsCutShort framing source.old.feed (error_kind fault))) }
    ensures no_expectation { IfErr result (λ e. is_expectation_failed e ≡ false) }
{
    match begin_body(alloc, source, framing) {
        Ok(Some(body)) => Ok(body),
        Ok(None) => {
            let kind = cut_kind(source.stop());
            Err(RequestCreationError::CreationIoError(kind.into()))
        }
        Err(_) => Err(RequestCreationError::Memory),
    }
}

// Returns the only reader of a source, if the body is to be read from the source; otherwise drops the source.
fn alone<R: ReadDevice + Drop, Rt: Wait + Copy>(
    rt: Rt,
    alloc: Global,
    source: Source<R>,
    body: &UnreadBody,
) -> Result<Option<HeldReader<Source<R>, Rt>>, AllocError>
    ensures { IfOk result (λ reader. (is_some reader ≡ is_streaming body.now)
        × IfSome reader (λ held. held_item held ≡ source)) }
{
    if !body.holds_reader() {
        return Ok(None);
    }
    let (_, reader) = SequentialReaderBuilder::begin(rt, alloc, source)?;
    Ok(Some(reader))
}

/// Makes a request from these parts, without a `ClientConnection`: its body is read from `source_data`, and its
/// response is written to `writer`. A body with a stated length of up to 1024 bytes is read at once, unless a 100 is
/// owed. `now` dates the 500 that is sent if the request is dropped. Any version is accepted, and the request is framed
/// as under `Lenient`.
#[allow(clippy::too_many_arguments)]
pub fn new_request<R: ReadDevice + Drop, W: WriteDevice + Drop, Rt: Wait + Copy>(
    rt: Rt,
    alloc: Global,
    secure: bool,
    method: Method,
    path: AsciiString,
    version: HTTPVersion,
    headers: Vec<Header>,
    remote_addr: Option<SocketAddr>,
    source_data: R,
    writer: W,
    now: HttpDate,
) -> Result<Request<R, W, Rt>, RequestCreationError>
    ensures says { IfOk result (λ r. Says r secure remote_addr method path version
        × ((request_head r).headers ≡ headers)) }
    ensures framed { IfOk result (λ r. IsFramed r Profile.Lenient now) }
    ensures body { IfOk result
        (λ r. BeginsWith (head_framing (request_head r)) (R.feed source_data) (request_open r).body) }
    // A body that is read later is read from its beginning.
    ensures input { IfOk result
        (λ r. (request_body r).holds_input ≡ true → Begins (head_framing (request_head r)) (R.feed source_data)
        (request_body r).input (Some (request_open r).body)) }
    ensures refused { framing HeadRules.Lenient version headers.items ≡ Err FramingFault.Expectation
        → result ≡ Err RequestCreationError.ExpectationFailed }
    ensures fails { IfErr result (λ e. FailsBy e version headers.items (R.feed source_data)) }
{
    let framing = match framing_of(HeadRules::Lenient, version, headers.as_slice()) {
        Ok(framing) => framing,
        Err(_) => return Err(RequestCreationError::ExpectationFailed),
    };
    let mut source = Source::new(source_data);
    let body = body_of(alloc, &mut source, framing)?;
    let reader = alone(rt, alloc, source, &body)?;
    let writer = SequentialWriterBuilder::new(rt, alloc, Outlet::new(writer))?.next()?;
    let head = Head {
        method,
        path,
        version,
        headers,
        framing,
    };
    let open_request = OpenRequest::new(alloc, &head, body, now)?;
    let client = Client {
        secure,
        remote_addr,
    };
    let links = Links {
        flush_policy: None,
        shared: None,
    };
    Ok(Request::from_parts(rt, alloc, client, head, open_request, reader, writer, links))
}
