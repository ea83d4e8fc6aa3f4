//! Requests over memory: read from a text that a client sends, or built from their parts.
use crate::asked::Asked;
use crate::named::add;
use crate::props::Props;
use crate::requests::date_now;
use std::alloc::{AllocError, Global};
use std::io;
use std::io::{Cursor, ErrorKind, Write};
use std::net::SocketAddr;
use std::sync::Wait;
use std::time::Clock;
use test_data_files::text::text_of;
use test_scene_files::client::dated;
use test_scene_files::grounds::{Made, MemoryDeed, Parts};
use test_scene_files::mishap::{Mishap, demand_bytes, demand_fault, demand_text, differs};
use tiny_http_request::client::ClientConnection;
use tiny_http_request::request::{Request, RequestCreationError, new_request};
use tiny_http_request::test::{Recorder, TestRequest};
use tiny_http_wire::ascii::AsciiString;
use tiny_http_wire::common::{HTTPVersion, Header, Method, ParseError};
use tiny_http_wire::device::{Metered, WriteDevice};

/// A writer in memory that accepts a number of bytes, after which every nonempty write fails.
#[derive(Drop)]
pub struct Bounded<R: Wait + Drop> {
    recorder: Recorder<R>,
    room: usize,
    kind: ErrorKind,
}

impl<R: Wait + Copy> Bounded<R> {
    /// Creates a writer to `recorder` that accepts `room` bytes, after which every nonempty write fails with `kind`.
    pub fn new(
        recorder: &Recorder<R>,
        (room, kind): (usize, ErrorKind),
    ) -> Result<Bounded<R>, Mishap> {
        Ok(Bounded {
            recorder: recorder.try_clone()?,
            room,
            kind,
        })
    }
}

impl<R: Wait + Drop> Write for Bounded<R> {
    fn write(&mut self, buf: &[u8]) -> io::Result<usize> {
        let count = buf.len().min(self.room);
        if count == 0 && !buf.is_empty() {
            return Err(self.kind.into());
        }
        let count = self.recorder.write_out(&buf[..count])?;
        self.room = self.room.saturating_sub(count);
        Ok(count)
    }

    fn flush(&mut self) -> io::Result<()> {
        Ok(())
    }
}

/// The reader of a request over memory.
pub type MemoryReader = Cursor<Vec<u8>>;

/// The writer of a request over memory.
pub type MemoryWriter<R> = Metered<Bounded<R>>;

/// The requests over memory, and their outputs.
pub type Remembered<R> = Asked<MemoryReader, MemoryWriter<R>, R>;

/// A client over memory, and the bytes written in response to its requests and to requests that the scene builds.
#[derive(Drop)]
pub struct Memory<R: Wait + Drop> {
    client: Option<ClientConnection<MemoryReader, MemoryWriter<R>, R>>,
    written: Recorder<R>,
    // Number of written bytes that have been checked.
    seen: usize,
    bound: (usize, ErrorKind),
}

impl<R: Wait + Copy> Memory<R> {
    /// Creates a `Memory` without a client, to which nothing has been written.
    pub fn new(rt: &R, alloc: Global) -> Result<Memory<R>, Mishap> {
        Ok(Memory {
            client: None,
            written: Recorder::new(*rt, alloc)?,
            seen: 0,
            bound: (usize::MAX, ErrorKind::Other),
        })
    }

    // Creates a writer to `written`, with the current bound.
    fn writer(&self) -> Result<MemoryWriter<R>, Mishap> {
        Ok(Metered::new(Bounded::new(&self.written, self.bound)?))
    }

    // Connects a client that sends `text` and then ends its output.
    fn connect(&mut self, rt: &R, alloc: Global, text: &str) -> Result<(), Mishap> {
        let reader = Cursor::new(text_of(alloc, text)?);
        let client = ClientConnection::over(*rt, alloc, self.writer()?, reader, None, false)?;
        self.client = Some(client);
        Ok(())
    }

    // Checks that the next bytes written equal `wanted`, after `dated` has replaced each Date field line in the written
    // bytes.
    fn gets(&mut self, alloc: Global, wanted: &[u8]) -> Result<(), Mishap> {
        let written = self.written.bytes()?;
        let rest = written.get(self.seen..).unwrap_or_default();
        let part = rest.get(..wanted.len()).unwrap_or(rest);
        self.seen = self.seen.saturating_add(part.len());
        let came = dated(alloc, part)?;
        demand_bytes(alloc, wanted, came.as_slice())
    }
}

type MemoryRequest<R> = Request<MemoryReader, MemoryWriter<R>, R>;

// Returns the client's next request, or `None` if there is no further one. Fails if there is no client.
fn next_of<R: Wait + Clock + Copy>(
    rt: &R,
    memory: &mut Memory<R>,
) -> Result<Option<MemoryRequest<R>>, Mishap> {
    match &mut memory.client {
        Some(client) => Ok(client.next(date_now(rt))?),
        None => Err(Mishap::Unplayable("nothing was sent")),
    }
}

// Adds a further part to a request: `https`, a body, a client address or a header field.
fn with_part(alloc: Global, request: TestRequest, part: &str) -> Result<TestRequest, Mishap> {
    if part == "https" {
        return Ok(request.with_https());
    }
    if let Some(text) = part.strip_prefix("body ") {
        return Ok(request.with_body_bytes(text_of(alloc, text)?));
    }
    if let Some(address) = part.strip_prefix("from ") {
        return match address.parse::<SocketAddr>() {
            Ok(address) => Ok(request.with_remote_addr(address)),
            Err(_) => Err(Mishap::Unplayable("no address")),
        };
    }
    match Header::from_str(alloc, part) {
        Ok(header) => Ok(request.with_header(header)?),
        Err(_) => Err(Mishap::Unplayable("no header")),
    }
}

// Builds a request from its method, target and version. Returns `None` if the target is refused.
fn bare_request(alloc: Global, parts: Parts<'_>) -> Result<Option<TestRequest>, Mishap> {
    let Ok(method) = Method::from_str(alloc, parts.method) else {
        return Err(Mishap::Unplayable("no method"));
    };
    let bytes = text_of(alloc, parts.target)?;
    let Ok(target) = str::from_utf8(bytes.as_slice()) else {
        return Err(Mishap::Unplayable("the target isn't UTF-8"));
    };
    let (major, minor) = parts.version;
    let request = TestRequest::new(alloc)?.with_method(method);
    match request.with_path(alloc, target) {
        Ok(request) => Ok(Some(request.with_http_version(HTTPVersion(major, minor)))),
        Err(ParseError::Refused) => Ok(None),
        Err(ParseError::Memory) => Err(Mishap::OutOfMemory),
    }
}

// Builds a request from its parts. Returns `None` if the target is refused.
fn request_of(alloc: Global, parts: Parts<'_>) -> Result<Option<TestRequest>, Mishap> {
    let Some(mut request) = bare_request(alloc, parts)? else {
        return Ok(None);
    };
    for part in parts.more.split(" + ") {
        if !part.is_empty() {
            request = with_part(alloc, request, part)?;
        }
    }
    Ok(Some(request))
}

// Compares the result of building a request with the expected one. If the request was built as expected, adds it under
// its name.
fn take_made<R: Wait + Clock + Copy>(
    alloc: Global,
    props: &mut Props<R>,
    made: Result<MemoryRequest<R>, RequestCreationError>,
    wanted: Made<'_>,
) -> Result<(), Mishap> {
    match (made, wanted) {
        (Ok(request), Made::Request(name)) => {
            add(alloc, &mut props.remembered.requests, name, request)
        }
        (Ok(_), _) => Err(differs(alloc, "a refusal", "a request")),
        (Err(RequestCreationError::ExpectationFailed), Made::ExpectationFailed) => Ok(()),
        (Err(RequestCreationError::CreationIoError(fault)), Made::Fault(kind)) => {
            demand_fault(alloc, Some(kind), Some(fault.kind()))
        }
        (Err(_), _) => Err(differs(alloc, "a request", "it is refused")),
    }
}

// Builds a request with `TestRequest`, and compares the result with the expected one.
fn make<R: Wait + Clock + Copy>(
    rt: &R,
    alloc: Global,
    props: &mut Props<R>,
    (parts, wanted): (Parts<'_>, Made<'_>),
) -> Result<(), Mishap> {
    let request = match (request_of(alloc, parts)?, wanted) {
        (Some(request), _) => request,
        (None, Made::Refused) => return Ok(()),
        (None, _) => return Err(differs(alloc, "a request", "the target is refused")),
    };
    let writer = props.memory()?.writer()?;
    let made = request.into_request_over(*rt, alloc, date_now(rt), writer);
    take_made(alloc, props, made, wanted)
}

// Returns the header fields and the body among the further parts of a request.
fn headers_and_body(alloc: Global, more: &str) -> Result<(Vec<Header>, Vec<u8>), Mishap> {
    let (mut headers, mut body) = (Vec::new(alloc), Vec::new(alloc));
    for part in more.split(" + ").filter(|part| !part.is_empty()) {
        if let Some(text) = part.strip_prefix("body ") {
            body = text_of(alloc, text)?;
            continue;
        }
        match Header::from_str(alloc, part) {
            Ok(header) => headers.push(header).map_err(AllocError::from)?,
            Err(_) => return Err(Mishap::Unplayable("no header")),
        }
    }
    Ok((headers, body))
}

// Builds a request with `new_request`, without a client address, and compares the result with the expected one.
fn make_new<R: Wait + Clock + Copy>(
    rt: &R,
    alloc: Global,
    props: &mut Props<R>,
    (parts, wanted): (Parts<'_>, Made<'_>),
) -> Result<(), Mishap> {
    let (Ok(method), Ok(target)) = (
        Method::from_str(alloc, parts.method),
        AsciiString::from_ascii(text_of(alloc, parts.target)?),
    ) else {
        return Err(Mishap::Unplayable("no method, or no target"));
    };
    let (headers, body) = headers_and_body(alloc, parts.more)?;
    let (major, minor) = parts.version;
    let writer = props.memory()?.writer()?;
    let made = new_request(
        *rt,
        alloc,
        false,
        method,
        target,
        HTTPVersion(major, minor),
        headers,
        None,
        Cursor::new(body),
        writer,
        date_now(rt),
    );
    take_made(alloc, props, made, wanted)
}

// Receives the next request, which must have the target `target`, and stores it under the name `name`.
fn give<R: Wait + Clock + Copy>(
    rt: &R,
    alloc: Global,
    props: &mut Props<R>,
    (target, name): (&str, &str),
) -> Result<(), Mishap> {
    let Some(request) = next_of(rt, props.memory()?)? else {
        return Err(differs(alloc, target, "no request"));
    };
    demand_text(alloc, target, request.url())?;
    add(alloc, &mut props.remembered.requests, name, request)
}

/// Runs a step on a connection or a request over memory.
pub fn act_memory<R: Wait + Clock + Copy>(
    rt: &R,
    alloc: Global,
    props: &mut Props<R>,
    deed: MemoryDeed<'_>,
) -> Result<(), Mishap> {
    match deed {
        MemoryDeed::Takes(room, kind) => {
            props.memory()?.bound = (room, kind);
            Ok(())
        }
        MemoryDeed::Sends(text) => props.memory()?.connect(rt, alloc, text),
        MemoryDeed::Gives(target, name) => give(rt, alloc, props, (target, name)),
        MemoryDeed::GivesNothing => match next_of(rt, props.memory()?)? {
            None => Ok(()),
            Some(request) => Err(differs(alloc, "no request", request.url())),
        },
        MemoryDeed::Makes(parts, wanted) => make(rt, alloc, props, (parts, wanted)),
        MemoryDeed::News(parts, wanted) => make_new(rt, alloc, props, (parts, wanted)),
        MemoryDeed::Gets(text) => {
            let wanted = text_of(alloc, text)?;
            props.memory()?.gets(alloc, wanted.as_slice())
        }
    }
}
