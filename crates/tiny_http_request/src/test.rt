//! Requests for testing a program's handlers.
ghost use Rattle.std.specs.Prelude.{◌≡◌, ◌++◌, ◌∷◌, [], length, true, false, Some, Ok, Err, IfOk, IfErr, IsErrOf, ◌↔◌};
ghost use Rattle.std.specs.Str.{IsAscii};
ghost use Rattle.std.specs.Net.Socket.{socket_port};
ghost use Rattle.tiny_http_head.specs.Heads.{version};
ghost use Rattle.tiny_http_head.specs.HeaderTexts.{AreHeaderTexts, header_of};
ghost use Rattle.tiny_http_io.specs.Device.{whole_feed};
ghost use Rattle.tiny_http_open_request.specs.HeadReads.{head_framing};
ghost use Rattle.tiny_http_request.specs.Request.{request_head, request_open, BeginsWith, Says, IsFramed, FailsBy};
ghost use Rattle.tiny_http_request.specs.Test.{IsLike, body_bytes, length_header, with_length};

use crate::request::{Request, RequestCreationError, new_request};
use httpdate::HttpDate;
use std::alloc::{AllocError, Global};
use std::io;
use std::io::{Cursor, ErrorKind};
use std::net::{IpAddr, Ipv4Addr, SocketAddr};
use std::sync::{Arc, Mutex, Wait};
use tiny_http_body::framing::{FramingFault, Profile, value_of};
use tiny_http_head::common::{HTTPVersion, Header, Method, ParseError};
use tiny_http_io::device::WriteDevice;
use tiny_http_text::ascii::AsciiString;
use tiny_http_text::number::Numeral;

/// A writer that takes all bytes and keeps none.
#[derive(Clone, Copy, Debug)]
pub struct Nowhere;

impl WriteDevice for Nowhere {
    ghost use Rattle.tiny_http_request.specs.Test.{nowhere_sink};

    ghost sink = { nowhere_sink };

    /// Returns 0.
    fn failures(&self) -> u64 {
        0
    }

    /// Takes all the bytes.
    fn write_out(&mut self, buf: &[u8]) -> Result<usize, io::Error> {
        Ok(buf.len())
    }

    /// Does nothing: no bytes are held.
    fn flush_out(&mut self) -> Result<(), io::Error> {
        Ok(())
    }
}

/// A writer that keeps all bytes, so that a test sees the response: the request gets one clone, and another returns the
/// bytes.
#[derive(Drop)]
pub struct Recorder<Rt: Wait + Drop> {
    rt: Rt,
    alloc: Global,
    bytes: Arc<Mutex<Vec<u8>>>,
    failures: u64,
}

impl<Rt: Wait + Copy> Recorder<Rt> {
    /// Returns a recorder without bytes. Fails if memory can't be allocated.
    pub fn new(rt: Rt, alloc: Global) -> Result<Recorder<Rt>, AllocError> {
        let bytes = Arc::new(alloc, Mutex::new(Vec::new(alloc)))?;
        Ok(Recorder {
            rt,
            alloc,
            bytes,
            failures: 0,
        })
    }

    /// Returns another writer to the same bytes. Fails if memory can't be allocated.
    pub fn try_clone(&self) -> Result<Recorder<Rt>, AllocError> {
        Ok(Recorder {
            rt: self.rt,
            alloc: self.alloc,
            bytes: Arc::try_clone(&self.bytes)?,
            failures: 0,
        })
    }

    /// Returns all bytes that have been written so far, through this recorder and its clones. `answer::read_answer` of
    /// `tiny_http` reads the responses in them. Fails if memory can't be allocated.
    pub fn bytes(&self) -> Result<Vec<u8>, AllocError> {
        self.bytes.lock(&self.rt).as_slice().to_vec(self.alloc)
    }
}

impl<Rt: Wait + Drop> WriteDevice for Recorder<Rt> {
    ghost use Rattle.tiny_http_request.specs.Test.{recorder_sink};

    ghost sink = { recorder_sink };

    /// Returns how many writes through this recorder have failed.
    fn failures(&self) -> u64 {
        self.failures
    }

    /// Keeps all the bytes. Fails with `OutOfMemory` if memory can't be allocated.
    fn write_out(&mut self, buf: &[u8]) -> Result<usize, io::Error> {
        match self.bytes.lock(&self.rt).extend_from_slice(buf) {
            Ok(()) => Ok(buf.len()),
            Err(_) => {
                self.failures = self.failures.saturating_add(1);
                Err(ErrorKind::OutOfMemory.into())
            }
        }
    }

    /// Does nothing: no bytes are held.
    fn flush_out(&mut self) -> Result<(), io::Error> {
        Ok(())
    }
}

// The body of a test's request.
#[derive(Drop)]
enum TestBody {
    Text(&'static str),
    Bytes(Vec<u8>),
}

impl TestBody {
    // Returns the bytes of the body. Fails if memory can't be allocated.
    fn into_bytes(self, alloc: Global) -> Result<Vec<u8>, AllocError>
        ensures { IfOk result (λ v. v.items ≡ body_bytes self) }
    {
        match self {
            TestBody::Text(text) => text.as_bytes().to_vec(alloc),
            TestBody::Bytes(bytes) => Ok(bytes),
        }
    }
}

/// A builder of requests: `GET /` in version 1.1 without headers or body, from 127.0.0.1:23456, not encrypted, unless
/// one of its methods changes it.
#[derive(Drop)]
pub struct TestRequest {
    body: TestBody,
    remote_addr: SocketAddr,
    secure: bool,
    method: Method,
    path: AsciiString,
    version: HTTPVersion,
    headers: Vec<Header>,
}

// Returns `Content-Length` with this length. Fails if memory can't be allocated.
fn length_header(alloc: Global, length: usize) -> Result<Header, AllocError>
    ensures { IfOk result (λ h. h ≡ length_header length) }
{
    let field = b"Content-Length".to_vec(alloc)?;
    let value = Numeral::decimal(length as u64).as_bytes().to_vec(alloc)?;
    let Ok(header) = Header::from_bytes(field, value) else {
        unreachable!()
    };
    Ok(header)
}

// Appends a `Content-Length` with this length, unless the headers have one. Fails if memory can't be allocated.
fn with_length(
    alloc: Global,
    headers: Vec<Header>,
    length: usize,
) -> Result<Vec<Header>, AllocError>
    ensures { IfOk result (λ v. v.items ≡ with_length length headers.items) }
{
    let mut headers = headers;
    if value_of(headers.as_slice(), "Content-Length").is_none() {
        headers.push(length_header(alloc, length)?)?;
    }
    Ok(headers)
}

impl TestRequest {
    /// Returns `GET /` in version 1.1 without headers or body, from 127.0.0.1:23456, not encrypted. Fails if memory
    /// can't be allocated.
    pub fn new(alloc: Global) -> Result<TestRequest, AllocError>
        ensures head { IfOk result (λ r. (r.method ≡ Method.Get) × (r.path ≡ 47 ∷ []) × (r.version ≡ version 1 1)) }
        ensures none { IfOk result (λ r. (r.headers.items ≡ []) × (body_bytes r.body ≡ [])) }
        ensures client { IfOk result (λ r. (r.secure ≡ false) × (socket_port r.remote_addr ≡ 23456)) }
    {
        let path = b"/".to_vec(alloc)?;
        let Ok(path) = AsciiString::from_ascii(path) else {
            unreachable!()
        };
        Ok(TestRequest {
            body: TestBody::Text(""),
            remote_addr: SocketAddr::new(IpAddr::V4(Ipv4Addr::LOCALHOST), 23456),
            secure: false,
            method: Method::Get,
            path,
            version: HTTPVersion(1, 1),
            headers: Vec::new(alloc),
        })
    }

    /// Returns the method.
    pub fn method(&self) -> &Method
        ensures { result.now ≡ self.now.method }
    {
        &self.method
    }

    /// Sets the body to this text.
    pub fn with_body(self, body: &'static str) -> TestRequest
        ensures body { body_bytes result.body ≡ body.now }
        ensures headers { result.headers ≡ self.headers }
        ensures others { IsLike self result }
    {
        let mut request = self;
        request.body = TestBody::Text(body);
        request
    }

    /// Sets the body to these bytes.
    pub fn with_body_bytes(self, body: Vec<u8>) -> TestRequest
        ensures body { body_bytes result.body ≡ body.items }
        ensures headers { result.headers ≡ self.headers }
        ensures others { IsLike self result }
    {
        let mut request = self;
        request.body = TestBody::Bytes(body);
        request
    }

    /// Sets the client's address.
    pub fn with_remote_addr(self, remote_addr: SocketAddr) -> TestRequest
        ensures { result ≡ record self { remote_addr = remote_addr } }
    {
        let mut request = self;
        request.remote_addr = remote_addr;
        request
    }

    /// Marks the connection as encrypted.
    pub fn with_https(self) -> TestRequest
        ensures { result ≡ record self { secure = true } }
    {
        let mut request = self;
        request.secure = true;
        request
    }

    /// Sets the method.
    pub fn with_method(self, method: Method) -> TestRequest
        ensures { result ≡ record self { method = method } }
    {
        let mut request = self;
        request.method = method;
        request
    }

    /// Sets the request target. Fails with `Refused` if the target isn't ASCII, and with `Memory` if memory can't be
    /// allocated.
    pub fn with_path(self, alloc: Global, path: &str) -> Result<TestRequest, ParseError>
        ensures path { IfOk result (λ r. r ≡ record self { path = path.now }) }
        ensures refused { IsErrOf result ParseError.Refused ↔ ¬ (IsAscii path.now) }
    {
        if !path.is_ascii() {
            return Err(ParseError::Refused);
        }
        let Ok(path) = AsciiString::from_ascii(path.as_bytes().to_vec(alloc)?) else {
            unreachable!()
        };
        let mut request = self;
        request.path = path;
        Ok(request)
    }

    /// Sets the version.
    pub fn with_http_version(self, version: HTTPVersion) -> TestRequest
        ensures { result ≡ record self { version = version } }
    {
        let mut request = self;
        request.version = version;
        request
    }

    /// Appends this header. Fails if memory can't be allocated.
    pub fn with_header(self, header: Header) -> Result<TestRequest, AllocError>
        ensures headers { IfOk result (λ r. r.headers.items ≡ self.headers.items ++ (header ∷ [])) }
        ensures body { IfOk result (λ r. r.body ≡ self.body) }
        ensures others { IfOk result (λ r. IsLike self r) }
    {
        let mut request = self;
        request.headers.push(header)?;
        Ok(request)
    }

    /// Appends the header that `Header::new` makes from this name and value. Fails with `Refused` if the texts make no
    /// header, and with `Memory` if memory can't be allocated.
    pub fn with(self, alloc: Global, name: &str, value: &str) -> Result<TestRequest, ParseError>
        ensures headers { IfOk result
            (λ r. r.headers.items ≡ self.headers.items ++ (header_of name.now value.now ∷ [])) }
        ensures body { IfOk result (λ r. r.body ≡ self.body) }
        ensures others { IfOk result (λ r. IsLike self r) }
        ensures refused { IsErrOf result ParseError.Refused ↔ ¬ (AreHeaderTexts name.now value.now) }
    {
        match Header::new(alloc, name, value) {
            Ok(header) => Ok(self.with_header(header)?),
            Err(error) => Err(error),
        }
    }

    /// Makes the request as `into_request_over` does. Its response is discarded.
    pub fn into_request<Rt: Wait + Copy>(
        self,
        rt: Rt,
        alloc: Global,
        now: HttpDate,
    ) -> Result<Request<Cursor<Vec<u8>>, Nowhere, Rt>, RequestCreationError>
        ensures says { IfOk result (λ r. Says r self.secure (Some self.remote_addr) self.method self.path self.version
            × ((request_head r).headers.items ≡ with_length (length (body_bytes self.body)) self.headers.items)) }
        ensures framed { IfOk result (λ r. IsFramed r Profile.Lenient now) }
        ensures body { IfOk result
            (λ r. BeginsWith (head_framing (request_head r)) (Some (whole_feed (body_bytes self.body)))
            (request_open r).body) }
        ensures fails { IfErr result
            (λ e. FailsBy e self.version (with_length (length (body_bytes self.body)) self.headers.items)
            (Some (whole_feed (body_bytes self.body)))) }
    {
        self.into_request_over(rt, alloc, now, Nowhere)
    }

    /// Makes the request, whose response goes to this writer, such as a `Recorder`. If the headers have no
    /// `Content-Length`, one with the body's length is appended. `now` dates the 500 that is sent if the request is
    /// dropped. The request is framed as under `Lenient`, even if its handler is that of a stricter server. Fails as
    /// `new_request` does.
    pub fn into_request_over<W: WriteDevice + Drop, Rt: Wait + Copy>(
        self,
        rt: Rt,
        alloc: Global,
        now: HttpDate,
        writer: W,
    ) -> Result<Request<Cursor<Vec<u8>>, W, Rt>, RequestCreationError>
        ensures says { IfOk result (λ r. Says r self.secure (Some self.remote_addr) self.method self.path self.version
            × ((request_head r).headers.items ≡ with_length (length (body_bytes self.body)) self.headers.items)) }
        ensures framed { IfOk result (λ r. IsFramed r Profile.Lenient now) }
        ensures body { IfOk result
            (λ r. BeginsWith (head_framing (request_head r)) (Some (whole_feed (body_bytes self.body)))
            (request_open r).body) }
        ensures fails { IfErr result
            (λ e. FailsBy e self.version (with_length (length (body_bytes self.body)) self.headers.items)
            (Some (whole_feed (body_bytes self.body)))) }
    {
        let TestRequest {
            body,
            remote_addr,
            secure,
            method,
            path,
            version,
            headers,
        } = self;
        let body = body.into_bytes(alloc)?;
        let headers = with_length(alloc, headers, body.len())?;
        new_request(
            rt,
            alloc,
            secure,
            method,
            path,
            version,
            headers,
            Some(remote_addr),
            Cursor::new(body),
            writer,
            now,
        )
    }
}
