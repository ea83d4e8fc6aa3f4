//! The heads of forwarded requests and responses: what is kept, what the gateway adds, and how a response's body ends.
use std::alloc::Global;
use std::io;
use std::io::{ErrorKind, Write};
use std::sync::Wait;
use tiny_http::device::{ReadDevice, WriteDevice};
use tiny_http::{Header, HeaderField, Request, Response};
use tiny_http_client::answer_head::AnswerHead;
use tiny_http_standard_head::lists::has_element;

// The headers that aren't forwarded: those that apply to one connection only, and those that the gateway handles or
// writes itself.
const HOP: [&str; 9] = [
    "Connection",
    "Content-Length",
    "Expect",
    "Keep-Alive",
    "Proxy-Connection",
    "TE",
    "Trailer",
    "Transfer-Encoding",
    "Upgrade",
];

// Returns whether a header has this name, where `_` counts as `-`, since a backend may not distinguish them.
fn is_like(field: &HeaderField, name: &str) -> bool {
    let field = field.as_str().as_str();
    let mut pairs = field.bytes().zip(name.bytes());
    field.len() == name.len()
        && pairs.all(|(one, other)| {
            one.eq_ignore_ascii_case(&other) || (one == b'_' && other == b'-')
        })
}

// Returns whether a header isn't forwarded: it is one of `HOP`, or `Connection` names it. Returns `false` for `Host`,
// whatever `Connection` names.
fn is_hop(header: &Header, headers: &[Header]) -> bool {
    if header.field.equiv("Host") {
        return false;
    }
    HOP.iter().any(|name| is_like(&header.field, name))
        || has_element(headers, "Connection", header.field.as_str().as_str())
}

// Returns the host of a target in absolute form, or `None` for any other form. This host takes precedence over `Host`
// (RFC 9112, section 3.2.2).
fn host_in(target: &str) -> Option<&str> {
    let (scheme, rest) = target.split_once("://")?;
    if scheme.is_empty() || !scheme.bytes().all(|b| b.is_ascii_alphanumeric()) {
        return None;
    }
    let end = rest.find(|letter| matches!(letter, '/' | '?'));
    Some(rest.get(..end.unwrap_or(rest.len())).unwrap_or(rest))
}

// The name of this gateway in `Via`.
const NAME: &str = "tiny-http-gateway";

// Adds the headers that the gateway writes itself: the host, the client's address, and the route of the request (RFC
// 9110, sections 7.2 and 7.6.3).
fn add_own<R: ReadDevice + Drop, W: WriteDevice + Drop, Rt: Wait + Drop>(
    head: &mut String,
    request: &Request<R, W, Rt>,
    backend: &str,
) -> io::Result<()> {
    let host = host_in(request.url()).or(request.header("Host"));
    write!(head, "Host: {}\r\n", host.unwrap_or(backend))?;
    head.push_str("X-Forwarded-For: ")?;
    for header in request.headers() {
        if header.field.equiv("X-Forwarded-For") {
            write!(head, "{}, ", header.value)?;
        }
    }
    match request.remote_addr() {
        Some(address) => write!(head, "{}\r\n", address.ip())?,
        None => head.push_str("unknown\r\n")?,
    }
    write!(head, "Via: {} {NAME}\r\n", request.http_version())?;
    Ok(())
}

/// Returns the head with which a request is forwarded to the backend. Its host is the one that the client names, or the
/// backend's address if the client names none.
pub(crate) fn head_of<R: ReadDevice + Drop, W: WriteDevice + Drop, Rt: Wait + Drop>(
    alloc: Global,
    request: &Request<R, W, Rt>,
    backend: &str,
) -> io::Result<String> {
    let mut head = format!(in alloc; "{} {}", request.method(), request.path())?;
    if let Some(query) = request.query() {
        write!(head, "?{query}")?;
    }
    head.push_str(" HTTP/1.1\r\n")?;
    for header in request.headers() {
        let is_own = header.field.equiv("Host") || is_like(&header.field, "X-Forwarded-For");
        if !is_own && !is_hop(header, request.headers()) {
            write!(head, "{header}\r\n")?;
        }
    }
    add_own(&mut head, request, backend)?;
    match request.body_length() {
        Some(length) => write!(head, "Content-Length: {length}\r\n")?,
        None if request.header("Transfer-Encoding").is_some() => {
            head.push_str("Transfer-Encoding: chunked\r\n")?;
        }
        None => {}
    }
    head.push_str("Connection: close\r\n\r\n")?;
    Ok(head)
}

/// The way in which the body of a backend's response ends (RFC 9112, section 6.3).
#[derive(Clone, Copy, PartialEq, Eq)]
pub(crate) enum Ending {
    Length(usize),
    Chunks,
    Close,
}

/// Returns how the body after these headers ends. `Transfer-Encoding` overrides `Content-Length`. Returns `None` if
/// there is a transfer coding other than a single `chunked`, or if the content lengths are invalid or differ.
pub(crate) fn ending_of(headers: &[Header]) -> Option<Ending> {
    let mut codings = headers
        .iter()
        .filter(|header| header.field.equiv("Transfer-Encoding"));
    if let Some(coding) = codings.next() {
        let is_chunked = coding.value.as_str().eq_ignore_ascii_case("chunked");
        return (is_chunked && codings.next().is_none()).then_some(Ending::Chunks);
    }
    let mut ending = Ending::Close;
    for header in headers
        .iter()
        .filter(|header| header.field.equiv("Content-Length"))
    {
        let text = header.value.as_str();
        if !text.bytes().all(|b| b.is_ascii_digit()) {
            return None;
        }
        let length = Ending::Length(text.parse().ok()?);
        if ending != Ending::Close && ending != length {
            return None;
        }
        ending = length;
    }
    Some(ending)
}

/// Returns a response with the backend's status code and forwarded headers, and with this data.
pub(crate) fn answer_with<D: Drop>(
    head: AnswerHead,
    data: D,
    alloc: Global,
    length: Option<usize>,
) -> io::Result<Response<D>> {
    let mut answer = Response::of(alloc, head.status, data, length);
    for header in head.headers.iter() {
        if !is_hop(header, head.headers.as_slice()) {
            let Ok(()) = answer.add_header(header.try_clone()?) else {
                return Err(ErrorKind::OutOfMemory.into());
            };
        }
    }
    Ok(answer)
}
