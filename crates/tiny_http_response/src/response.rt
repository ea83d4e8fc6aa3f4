//! Responses, and how they are printed.
ghost use Rattle.std.specs.Prelude.{◌≡◌, true, Option, Some, None, IfSome, if◌then◌else◌, ◌∷◌, IfOk, IfErr, OnOk};
ghost use Rattle.std.specs.Prelude.{OnErr, IsTrue, ◌↔◌, vec_len, string_len, string_bytes, [], ◌<◌, ◌^◌, ◌++◌};
ghost use Rattle.std.specs.Prelude.{length, ◌≤◌, ◌+◌};
ghost use Rattle.std.specs.Option.{option_copied};
ghost use Rattle.std.specs.List.{list_all, AllByRecursion};
ghost use Rattle.tiny_http_text.specs.Bytes.{is_ascii};
ghost use Rattle.tiny_http_response.specs.AddHeader.{add_header, is_put_last, is_some_put_last, with_headers};
ghost use Rattle.tiny_http_response.specs.AddHeader.{first_answer};
ghost use Rattle.tiny_http_response.specs.ResponseHeaders.{IsResponseHeaders};
ghost use Rattle.tiny_http_response.specs.Readable.{IsReadable};
ghost use Rattle.tiny_http_response.specs.Answer.{Answer, ResponseState, is_withheld, PrintsText, PrintsGathered};
ghost use Rattle.tiny_http_response.specs.Answer.{PrintsUncoded, PrintsAnswer, uncoded_text, body_unless_withheld};
ghost use Rattle.tiny_http_response.specs.Answer.{text_plain, answer_with, contentless_answer};
ghost use Rattle.tiny_http_response.specs.Streaming.{streamed_head};
ghost use Rattle.tiny_http_body.specs.Text.{Prints, prepend_text, whole, identity_body, chunked_body, nothing_sent};
ghost use Rattle.tiny_http_io.specs.Cursor.{cursor_bytes};
ghost use Rattle.tiny_http_io.specs.Metered.{metered_inner};
ghost use Rattle.tiny_http_response.specs.ResponseHead.{response_head_text};
ghost use Rattle.tiny_http_response.specs.Coding.{coding_asked};
ghost use Rattle.tiny_http_io.specs.Device.{Puts, CountsFaults, fault_count};

use crate::add_header::{add, add_all, add_in_place};
use crate::answer_head::{ResponseHead, put_head};
use crate::by_standard::{contentless_framing, has_no_content};
use crate::coding::{Coding, FramingHeader, asked_coding, choose};
use crate::owing::{OwingReader, owed};
use crate::readable::are_readable;
use crate::response_context::ResponseContext;
use httpdate::HttpDate;
use std::alloc::{AllocError, Global};
use std::fs::OpenFile;
use std::io;
use std::io::{Cursor, ErrorKind, Read};
use std::marker::Model;
use tiny_http_body::chunks::put_chunked;
use tiny_http_body::gather::gather;
use tiny_http_body::identity::put_exactly;
use tiny_http_head::common::{HTTPVersion, Header, HeaderField, StatusCode};
use tiny_http_io::device::{Metered, ReadDevice, WriteDevice, put};
use tiny_http_text::ascii::AsciiString;
use tiny_http_text::bytes::are_ascii;
use tiny_http_text::copies::owned;

/// A response: a status code, headers, and a reader of the data, whose length may be known. Contracts see a `Response`
/// as a `ResponseState`: an `Answer`, and the reader.
#[derive(Drop)]
pub struct Response<R> {
    reader: R,
    status: StatusCode,
    headers: Vec<Header>,
    data_length: Option<usize>,
    threshold: usize,
    closes: bool,
    offered: Option<AsciiString>,
    contentless: bool,
}

/// A response whose data comes from a boxed reader of any type (as in the Rust crate).
pub type ResponseBox = Response<Metered<Box<dyn Read + Send + Drop>>>;

impl<R> Model for Response<R> {
    ghost use Rattle.tiny_http_response.specs.Answer.{ResponseState};
    ghost use Rattle.tiny_http_response.specs.ResponseHeaders.{IsResponseHeaders};

    ghost Value = { ResponseState R };

    ghost view = { λ r. record {
      answer = record {
        status = r.status.0;
        headers = r.headers.items;
        data_length = r.data_length;
        threshold = r.threshold;
        closes = r.closes;
        offered = r.offered;
        contentless = r.contentless;
      };
      data_reader = r.reader;
    } };

    ghost invariant = { λ r. IsResponseHeaders r.headers.items };
}

/// The default chunked threshold, in bytes: data of at least this length is sent in chunks (as in the Rust crate),
/// unless `coding::choose` requires otherwise. To send data of any known length, such as a file, with a
/// `Content-Length`, use `with_chunked_threshold(usize::MAX)`; a request may still get chunks if its `TE` asks for
/// them.
pub const THRESHOLD: usize = 32768;

// Returns the header `Content-Type: text/plain; charset=UTF-8`. Fails if memory can't be allocated.
#[tactic(auto, unfolding(crate::specs::Answer::text_plain))]
fn text_plain(alloc: Global) -> Result<Header, AllocError>
    ensures { IfOk result (λ h. h ≡ text_plain) }
{
    let field = HeaderField::from_text(owned(alloc, b"Content-Type")?);
    let value = owned(alloc, b"text/plain; charset=UTF-8")?;
    Ok(Header { field, value })
}

impl<F: Read + OpenFile> Response<Metered<F>> {
    /// Creates a 200 response with an open file as its data, and no headers (as in the Rust crate). The length is the
    /// one in the file's metadata, or unknown if the metadata can't be read. By default a file of `THRESHOLD` bytes or
    /// more is sent in chunks, without a `Content-Length`; `with_chunked_threshold(usize::MAX)` changes that. If the
    /// file shrinks before it is sent, sending it fails with `UnexpectedEof`; in chunks it does so only under
    /// `Profile::Standard`. Allocates nothing.
    pub fn from_file(alloc: Global, file: F) -> Response<Metered<F>>
        ensures status { result.answer.status ≡ 200 }
        ensures headers { result.answer.headers ≡ [] }
        ensures threshold { result.answer.threshold ≡ THRESHOLD }
        ensures file { metered_inner result.data_reader ≡ file }
    {
        let length = file.metadata().ok().map(|of| of.len() as usize);
        Response::of(alloc, StatusCode(200), Metered::new(file), length)
    }
}

impl Response<Cursor<Vec<u8>>> {
    /// Creates a 200 response with this text as its data, of known length, and
    /// `Content-Type: text/plain; charset=UTF-8` (as in the Rust crate). Fails if memory for that header can't be
    /// allocated.
    pub fn from_string(alloc: Global, text: String) -> Result<Response<Cursor<Vec<u8>>>, AllocError>
        ensures answer { IfOk result (λ r. r.answer ≡ answer_with 200 (text_plain ∷ []) (string_len text)) }
        ensures bytes { IfOk result (λ r. cursor_bytes r.data_reader ≡ string_bytes text) }
    {
        let mut response = Response::from_data(alloc, text.into_bytes());
        response.headers.push(text_plain(alloc)?)?;
        Ok(response)
    }

    /// Creates a 200 response with these bytes as its data, of known length, and no headers. Allocates nothing.
    pub fn from_data(alloc: Global, bytes: Vec<u8>) -> Response<Cursor<Vec<u8>>>
        ensures answer { result.answer ≡ answer_with 200 [] (vec_len bytes) }
        ensures bytes { cursor_bytes result.data_reader ≡ bytes.items }
    {
        let length = bytes.len();
        Response::of(alloc, StatusCode(200), Cursor::new(bytes), Some(length))
    }
}

impl Response<io::Empty> {
    /// Creates a response with this status code, no headers, and empty data of known length 0. Allocates nothing.
    pub fn empty(alloc: Global, status: StatusCode) -> Response<io::Empty>
        ensures { result.answer ≡ answer_with status.0 [] 0 }
    {
        Response::of(alloc, status, io::empty(), Some(0))
    }

    /// Creates a response without headers or data for a status code that has no content: 100 to 199, 204 or 304 (RFC
    /// 9110, sections 6.4.1, 8.6, 15.3.5 and 15.4.5). It has neither `Content-Length` nor `Transfer-Encoding`, under
    /// any profile and whatever the request asks for. The response of `empty` with such a code has one of them, usually
    /// `Content-Length: 0`, except under `Profile::Standard`. With any other code this response is printed like that of
    /// `empty`. Allocates nothing.
    pub fn contentless(alloc: Global, status: StatusCode) -> Response<io::Empty>
        ensures { result.answer ≡ contentless_answer status.0 }
    {
        let mut response = Response::empty(alloc, status);
        response.contentless = true;
        response
    }

    /// Creates the same response as `empty`.
    pub fn new_empty(alloc: Global, status: StatusCode) -> Response<io::Empty>
        ensures { result.answer ≡ answer_with status.0 [] 0 }
    {
        Response::empty(alloc, status)
    }

    /// Copies the response. Fails if memory can't be allocated.
    pub fn try_clone(&self) -> Result<Response<io::Empty>, AllocError>
        ensures { IfOk result (λ r. r ≡ self.now) }
    {
        let headers = copies_of(*self.headers.allocator(), &self.headers)?;
        Ok(Response {
            reader: io::empty(),
            status: self.status,
            headers,
            data_length: self.data_length,
            threshold: self.threshold,
            closes: self.closes,
            offered: copy_of(&self.offered)?,
            contentless: self.contentless,
        })
    }
}

// Copies a text, if there is one. Fails if memory can't be allocated.
fn copy_of(text: &Option<AsciiString>) -> Result<Option<AsciiString>, AllocError>
    ensures { IfOk result (λ copy. copy ≡ text.now) }
{
    match text {
        None => Ok(None),
        Some(text) => Ok(Some(text.try_clone()?)),
    }
}

// Copies the headers into a list whose capacity is their number. Fails if memory can't be allocated.
fn copies_of(alloc: Global, headers: &[Header]) -> Result<Vec<Header>, AllocError>
    ensures { IfOk result (λ list. list.items ≡ headers.now) }
{
    let mut list = Vec::with_capacity(alloc, headers.len())?;
    for header in headers {
        list.push(header.try_clone()?)?;
    }
    Ok(list)
}

/// The error of `Response::new` if memory for a header can't be allocated. It hands back the reader of the data.
#[derive(Drop)]
pub struct Refused<R> {
    /// The reader of the data, unchanged.
    pub reader: R,
}

/// The error of `Response::with_header` if memory for the header can't be allocated. It hands back the response and the
/// header, both unchanged.
#[derive(Drop)]
pub struct NotAdded<R> {
    /// The response, without the header.
    pub response: Response<R>,
    /// The header.
    pub header: Header,
}

impl<R> Response<R> {
    /// Creates a response with this status code and data, and no headers. `data_length` is the length of the data in
    /// bytes, if known. Allocates nothing.
    pub fn of(
        alloc: Global,
        status: StatusCode,
        reader: R,
        data_length: Option<usize>,
    ) -> Response<R>
        ensures { result ≡ record { answer = first_answer status.0 [] data_length; data_reader = reader } }
    {
        let headers = Vec::new(alloc);
        Response {
            reader,
            status,
            headers,
            data_length,
            threshold: THRESHOLD,
            closes: false,
            offered: None,
            contentless: false,
        }
    }

    /// Creates a response with this status code and data; `data_length` is the length of the data in bytes, if known.
    /// Adds each of `headers` and then each of `more` as `add_header` does. The list reuses the allocation of
    /// `headers`, so memory is needed only for headers of `more` that are appended. If that memory can't be allocated,
    /// the error hands back the reader of the data.
    pub fn new(
        status: StatusCode,
        mut headers: Vec<Header>,
        reader: R,
        data_length: Option<usize>,
        more: Vec<Header>,
    ) -> Result<Response<R>, Refused<R>>
        ensures made { IfOk result
            (λ r. r
            ≡ record {
              answer = with_headers more.items (first_answer status.0 headers.items data_length);
              data_reader = reader;
            }) }
        ensures refused { IfErr result (λ e. e.reader ≡ reader) }
        ensures memory { OnErr result
            (IsTrue (is_some_put_last more.items (first_answer status.0 headers.items data_length))) }
    {
        let mut data_length = add_in_place(&mut headers, data_length);
        match add_all(&mut headers, &mut data_length, more) {
            Ok(()) => Ok(Response {
                reader,
                status,
                headers,
                data_length,
                threshold: THRESHOLD,
                closes: false,
                offered: None,
                contentless: false,
            }),
            Err(_) => Err(Refused { reader }),
        }
    }

    /// Replaces the status code.
    pub fn with_status_code(mut self, code: StatusCode) -> Response<R>
        ensures { result ≡ record self { answer = record self.answer { status = code.0 } } }
    {
        self.status = code;
        self
    }

    /// Replaces the data; `data_length` is the length of the new data in bytes, if known. Keeps the rest of the
    /// response, such as the chunked threshold.
    pub fn with_data<S>(self, reader: S, data_length: Option<usize>) -> Response<S>
    where
        R: Drop,
        ensures { result ≡ record { answer = record self.answer { data_length = data_length }; data_reader = reader } }
    {
        Response {
            reader,
            status: self.status,
            headers: self.headers,
            data_length,
            threshold: self.threshold,
            closes: self.closes,
            offered: self.offered,
            contentless: self.contentless,
        }
    }

    /// Sets the chunked threshold, in bytes: data of at least this length is sent in chunks. Shorter data is sent with
    /// a `Content-Length`. The request's version, its `TE` and the status code may require otherwise
    /// (`coding::choose`).
    pub fn with_chunked_threshold(self, length: usize) -> Response<R>
        ensures { result ≡ record self { answer = record self.answer { threshold = length } } }
    {
        let mut response = self;
        response.threshold = length;
        response
    }

    /// Offers to upgrade to these protocols, in place of any offered before. The offer is a list, such as `websocket`
    /// or `h2c, foo/2`. A 426 must have one (RFC 9110, sections 7.8 and 15.5.22). Under `Profile::Standard` the offer
    /// is sent in `Upgrade`, with a space in place of each byte that isn't allowed in a field value, and `Connection`
    /// names `upgrade`. It is omitted under any other profile, in a response that upgrades the connection, and with a
    /// code below 200.
    pub fn with_upgrade_offer(self, protocols: AsciiString) -> Response<R>
        ensures { result ≡ record self { answer = record self.answer { offered = Some protocols } } }
    {
        let mut response = self;
        response.offered = Some(protocols);
        response
    }

    /// Closes the connection after this response (RFC 9112, section 9.6). Once a `Connection` or a `Request` has sent
    /// it, no further request is handed out; requests already handed out can still be answered.
    ///
    /// Under `Profile::Standard` the last response on the connection (this one, or the response to a later request or
    /// refused head) has `Connection: close`, unless it is for a later request that was already dropped, is upgraded,
    /// or has its raw writer taken. With `Request`s, a socket's client sees end of file after the last response; a
    /// `Connection` closes nothing. Upgrades and `Exchange` ignore this setting, and it doesn't change the bytes that
    /// `raw_print` and `print` print.
    pub fn with_close(self) -> Response<R>
        ensures { result ≡ record self { answer = record self.answer { closes = true } } }
    {
        let mut response = self;
        response.closes = true;
        response
    }

    /// Adds a header (as in the Rust crate). `Connection`, `Trailer`, `Transfer-Encoding` and `Upgrade` are ignored, in
    /// any letter case. `Content-Length` sets the length of the data if its value is an optional `+` and digits, at
    /// most 2^64 - 1; otherwise it is ignored. A second `Content-Type` replaces the value of the first, in place. Any
    /// other header is appended. Only appending needs memory: if memory can't be allocated, the error hands back the
    /// header, and the response is unchanged.
    pub fn add_header(&mut self, header: Header) -> Result<(), Header>
        ensures added { OnOk result (self.new ≡ record self.old { answer = add_header header self.old.answer }) }
        ensures refused { IfErr result (λ h. (h ≡ header) × (self.new ≡ self.old)) }
        ensures memory { OnErr result (IsTrue (is_put_last header self.old.answer.headers)) }
    {
        add(&mut self.headers, &mut self.data_length, header)
    }

    /// Adds a header as `add_header` does, and returns the response. If memory can't be allocated, the error hands back
    /// both.
    pub fn with_header(mut self, header: Header) -> Result<Response<R>, NotAdded<R>>
        ensures added { IfOk result (λ r. r ≡ record self { answer = add_header header self.answer }) }
        ensures refused { IfErr result (λ e. (e.response ≡ self) × (e.header ≡ header)) }
        ensures memory { OnErr result (IsTrue (is_put_last header self.answer.headers)) }
    {
        match self.add_header(header) {
            Ok(()) => Ok(self),
            Err(header) => Err(NotAdded {
                response: self,
                header,
            }),
        }
    }

    /// Returns the status code.
    pub fn status_code(&self) -> StatusCode
        ensures { result.0 ≡ self.now.answer.status }
    {
        self.status
    }

    /// Returns the length of the data in bytes, if known.
    pub fn data_length(&self) -> Option<usize>
        ensures { result ≡ self.now.answer.data_length }
    {
        self.data_length
    }

    /// Returns the headers, in the order in which they are sent.
    pub fn headers(&self) -> &[Header]
        ensures value { result.now ≡ self.now.answer.headers }
        // The list never holds `Connection`, `Trailer`, `Transfer-Encoding`, `Upgrade` or `Content-Length`, and holds
        // `Content-Type` at most once.
        ensures law { IsResponseHeaders result.now }
    {
        self.headers.as_slice()
    }

    /// Returns whether a client reads each header as intended (RFC 9110, section 5.5; RFC 9112, section 5): the name
    /// has no white space (bytes 9 to 13 and 32) and no colon; the value is trimmed and has no CR LF; both are ASCII.
    /// Call this if a header contains a client's text, such as a `Location` made from a decoded path: what follows a CR
    /// LF would be read as another header. The client theorem (the law `conversation_is_read` of
    /// `tiny_http_connection_laws`) requires this of the headers of a response that isn't printed under
    /// `Profile::Standard`.
    pub fn is_readable(&self) -> bool
        ensures { IsTrue result ↔ AllByRecursion IsReadable self.now.answer.headers }
    {
        are_readable(self.headers.as_slice())
    }

    /// Returns the protocols that the response offers to upgrade to, if any.
    pub fn upgrade_offer(&self) -> Option<&str>
        ensures { option_copied result ≡ self.now.answer.offered }
    {
        self.offered.as_ref().map(AsciiString::as_str)
    }

    /// Returns whether `with_close` was called on the response.
    pub fn closes(&self) -> bool
        ensures { result ≡ self.now.answer.closes }
    {
        self.closes
    }

    /// Returns the minimum length, in bytes, of data that is sent in chunks: `THRESHOLD` unless another was set.
    pub fn chunked_threshold(&self) -> usize
        ensures { result ≡ self.now.answer.threshold }
    {
        self.threshold
    }

    /// Prints the head, dated `now`, and the body of the response to a request with this version and these headers (RFC
    /// 9112, sections 4 to 7). With `upgrade`, prints only a head, which upgrades the connection to that protocol. The
    /// body is omitted if `no_body` is set, as for a `HEAD`, or if the code is 100 to 199, 204 or 304. `coding::choose`
    /// chooses the coding, given the request's version and `TE`, the code, the length of the data, and the threshold.
    /// Doesn't flush.
    ///
    /// Fails with the first fault, of the writer or of the data, and writes nothing after it. Fails with
    /// `UnexpectedEof` if the data ends before `data_length` bytes, unless the body is omitted or sent in chunks. If
    /// the coding is `Identity`, data of unknown length is read entirely before the head is written, even if the body
    /// is omitted (but not for an upgrade, nor for a code without content if `contentless` made the response). If
    /// reading fails, or if memory can't be allocated (`OutOfMemory`), nothing is written. Fails with `InvalidInput`,
    /// and writes nothing, if the protocol to upgrade to isn't ASCII.
    pub fn raw_print<W: WriteDevice>(
        self,
        alloc: Global,
        writer: &mut W,
        version: HTTPVersion,
        request_headers: &[Header],
        no_body: bool,
        upgrade: Option<&str>,
        now: HttpDate,
    ) -> Result<(), io::Error>
    where
        R: ReadDevice + Drop,
        ensures text { IfSome (R.feed self.data_reader) (λ feed. length feed.bytes < 2 ^ 63 →
            PrintsAnswer (W.sink writer.old) (W.sink writer.new) result self.answer feed
            (record {
              version = version;
              asked_coding = coding_asked request_headers.now;
              no_body = no_body;
              persistence = None;
              upgrade = option_copied upgrade.entry;
              date = now;
            })) }
        // For any data and writer: a fault of the writer raises its failure count.
        ensures uses { CountsFaults (W.sink writer.old) (W.sink writer.new) result }
    {
        let context = ResponseContext {
            version,
            asked_coding: asked_coding(request_headers),
            no_body,
            persistence: None,
        };
        self.print(alloc, writer, context, upgrade, now)
    }

    /// Prints the head and the body as `raw_print` does, with the properties of the request that `context` keeps.
    ///
    /// If `context.persistence` is `Some`, the response follows `Profile::Standard`. The status line has version 1.1. A
    /// header whose name isn't a token is omitted, and each other header takes one line. Except for an upgrade and a
    /// code below 200, `Connection` and `Upgrade` come before the response's headers if they are needed. A response
    /// with a code below 200, a 204, a 205 or a 304 is only a head, and its data isn't read. In chunks, too, printing
    /// fails with `UnexpectedEof` if the data ends before `data_length` bytes; without the last chunk the client sees
    /// that the response is incomplete (RFC 9112, section 8).
    pub fn print<W: WriteDevice>(
        self,
        alloc: Global,
        writer: &mut W,
        context: ResponseContext,
        upgrade: Option<&str>,
        now: HttpDate,
    ) -> Result<(), io::Error>
    where
        R: ReadDevice + Drop,
        ensures text { IfSome (R.feed self.data_reader) (λ feed. length feed.bytes < 2 ^ 63 →
            PrintsAnswer (W.sink writer.old) (W.sink writer.new) result self.answer feed
            (record {
              version = context.version;
              asked_coding = context.asked_coding;
              no_body = context.no_body;
              persistence = context.persistence;
              upgrade = option_copied upgrade.entry;
              date = now;
            })) }
        ensures uses { CountsFaults (W.sink writer.old) (W.sink writer.new) result }
    {
        let mut data = self.reader;
        let headers = self.headers;
        let offered = self.offered;
        let head = ResponseHead {
            version: context.version,
            persistence: context.persistence,
            status: self.status,
            headers: &headers,
            offered: &offered,
            date: now,
        };
        if let Some(protocol) = upgrade {
            return print_upgrade(writer, &head, protocol);
        }
        let (length, threshold) = (self.data_length, self.threshold);
        if let Some(framing) = contentless_framing(
            context.persistence,
            self.contentless,
            self.status,
            length,
        ) {
            return put_head(writer, &head, None, framing);
        }
        let coding = choose(
            context.version,
            context.asked_coding,
            self.status,
            length,
            threshold,
        );
        let withheld = is_withheld(context.no_body, self.status);
        match coding {
            Coding::Chunked => {
                let mut data = OwingReader::new(data, owed(context.persistence, length));
                print_in_chunks(&mut data, writer, &head, withheld)
            }
            Coding::Identity => print_uncoded(alloc, &mut data, writer, &head, length, withheld),
        }
    }

    /// Prints only the head, for a response whose body is streamed after it as `ResponseContext::streamed_form` says.
    /// From version 1.1 on the head has `Transfer-Encoding: chunked`, even for a `HEAD`, unless the code has no
    /// content. For a version up to 1.0, or a code without content, the head has neither a length nor a coding (RFC
    /// 9112, section 6). Under `Profile::Standard`, which the head follows if `print` would, a 205 has a
    /// `Content-Length` of 0, and a code below 100 has neither a length nor a coding. The data, its length and the
    /// threshold are ignored. Fails with the writer's first fault, and writes nothing after it. Doesn't flush.
    pub fn print_head<W: WriteDevice>(
        &self,
        writer: &mut W,
        context: ResponseContext,
        now: HttpDate,
    ) -> Result<(), io::Error>
        ensures { Puts (W.sink writer.old) (W.sink writer.new) result (streamed_head self.now.answer context now) }
    {
        let head = ResponseHead {
            version: context.version,
            persistence: context.persistence,
            status: self.status,
            headers: &self.headers,
            offered: &self.offered,
            date: now,
        };
        put_head(writer, &head, None, context.streamed_framing(self.status))
    }

    /// Returns the reader of the data.
    pub fn into_reader(self) -> R
        ensures { result ≡ self.data_reader }
    {
        self.reader
    }
}

// Returns whether the body of a response is omitted because of `no_body` or its status code.
fn is_withheld(no_body: bool, status: StatusCode) -> bool
    ensures { result ≡ is_withheld no_body status.0 }
{
    no_body || has_no_content(status)
}

// Prints a response of known length without a transfer coding. If `withheld`, omits the body and leaves the data
// unread.
fn print_as_it_is<D: ReadDevice, W: WriteDevice>(
    source: &mut D,
    writer: &mut W,
    head: &ResponseHead<'_>,
    withheld: bool,
    n: usize,
) -> Result<(), io::Error>
    ensures text { IfSome (D.feed source.old) (λ feed.
        Prints (W.sink writer.old) (W.sink writer.new) result
        (prepend_text (response_head_text head.now None (FramingHeader.ContentLength n))
        (if withheld then whole [] else identity_body n feed))) }
    ensures unread { withheld ≡ true → source.new ≡ source.old }
    ensures uses { CountsFaults (W.sink writer.old) (W.sink writer.new) result }
    // If the call returns `Ok`, it reached no end or fault of the data; if it fails, it reached at most one.
    ensures stop_count { D.stop_count source.new ≤ D.stop_count source.old + fault_count result }
{
    put_head(writer, head, None, FramingHeader::ContentLength(n))?;
    if withheld {
        return Ok(());
    }
    put_exactly(source, writer, n)
}

// Prints a head with the length of these bytes, and the bytes as the body unless it is withheld.
fn print_bytes<W: WriteDevice>(
    bytes: &[u8],
    writer: &mut W,
    head: &ResponseHead<'_>,
    withheld: bool,
) -> Result<(), io::Error>
    ensures { Puts (W.sink writer.old) (W.sink writer.new) result
        (response_head_text head.now None (FramingHeader.ContentLength (length bytes.now))
        ++ (if withheld then [] else bytes.now)) }
{
    put_head(
        writer,
        head,
        None,
        FramingHeader::ContentLength(bytes.len()),
    )?;
    if withheld {
        return Ok(());
    }
    put(writer, bytes)
}

// Prints a response of unknown length without a transfer coding: reads all the data first, and states its length.
fn print_gathered<D: ReadDevice, W: WriteDevice>(
    alloc: Global,
    source: &mut D,
    writer: &mut W,
    head: &ResponseHead<'_>,
    withheld: bool,
) -> Result<(), io::Error>
    ensures text { IfSome (D.feed source.old) (λ feed. length feed.bytes < 2 ^ 63 →
        PrintsGathered (W.sink writer.old) (W.sink writer.new) result
        (response_head_text head.now None (FramingHeader.ContentLength (length feed.bytes)))
        withheld feed) }
    ensures uses { CountsFaults (W.sink writer.old) (W.sink writer.new) result }
    // Reaches at most one end or fault of the data.
    ensures stop_count { D.stop_count source.new ≤ D.stop_count source.old + 1 }
{
    let bytes = gather(alloc, source)?;
    print_bytes(bytes.as_slice(), writer, head, withheld)
}

// Prints a response without a transfer coding, with its `Content-Length`.
fn print_uncoded<D: ReadDevice, W: WriteDevice>(
    alloc: Global,
    source: &mut D,
    writer: &mut W,
    head: &ResponseHead<'_>,
    data_length: Option<usize>,
    withheld: bool,
) -> Result<(), io::Error>
    ensures text { IfSome (D.feed source.old) (λ feed. length feed.bytes < 2 ^ 63 →
        PrintsUncoded (W.sink writer.old) (W.sink writer.new) result data_length
        (uncoded_text data_length (λ framing. response_head_text head.now None framing) withheld feed)) }
    ensures uses { CountsFaults (W.sink writer.old) (W.sink writer.new) result }
    // Reaches at most one end or fault of the data.
    ensures stop_count { D.stop_count source.new ≤ D.stop_count source.old + 1 }
{
    match data_length {
        Some(n) => print_as_it_is(source, writer, head, withheld, n),
        None => print_gathered(alloc, source, writer, head, withheld),
    }
}

// Prints a response whose body is sent in chunks. If `withheld`, omits the body and leaves the data unread.
fn print_in_chunks<D: ReadDevice, W: WriteDevice>(
    source: &mut D,
    writer: &mut W,
    head: &ResponseHead<'_>,
    withheld: bool,
) -> Result<(), io::Error>
    ensures text { IfSome (D.feed source.old) (λ feed. length feed.bytes < 2 ^ 63 →
        Prints (W.sink writer.old) (W.sink writer.new) result
        (prepend_text (response_head_text head.now None FramingHeader.TransferEncoding)
        (body_unless_withheld withheld (chunked_body feed)))) }
    ensures unread { withheld ≡ true → source.new ≡ source.old }
    ensures uses { CountsFaults (W.sink writer.old) (W.sink writer.new) result }
    // Reaches at most one end or fault of the data.
    ensures stop_count { D.stop_count source.new ≤ D.stop_count source.old + 1 }
{
    put_head(writer, head, None, FramingHeader::TransferEncoding)?;
    if withheld {
        return Ok(());
    }
    put_chunked(source, writer)
}

// Prints the head of the response that upgrades to a protocol. Fails with `InvalidInput`, and writes nothing, if the
// protocol isn't ASCII.
fn print_upgrade<W: WriteDevice>(
    writer: &mut W,
    head: &ResponseHead<'_>,
    protocol: &str,
) -> Result<(), io::Error>
    ensures { PrintsText (W.sink writer.old) (W.sink writer.new) result
        (if list_all is_ascii protocol.now
        then whole (response_head_text head.now (Some protocol.now) FramingHeader.Neither)
        else nothing_sent ErrorKind.InvalidInput) }
{
    if !are_ascii(protocol.as_bytes()) {
        return Err(ErrorKind::InvalidInput.into());
    }
    put_head(writer, head, Some(protocol), FramingHeader::Neither)
}
