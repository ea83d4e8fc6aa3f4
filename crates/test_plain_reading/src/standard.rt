//! A plain reading of what a client sends, under `Standard`. It is given all bytes at once, and reads them line by
//! line, without a buffer. The requests of connections are compared with those that it finds. It is written from
//! docs/RULES.md, and shares no code with the server. It does not limit the length of a head, since the clients whose
//! bytes it reads send fewer than 65,536 bytes.
use crate::parts::{RequestWords, SHORT, add_header, decimal};
use std::alloc::{AllocError, Global};
use std::fmt::Write;

// Maximum content length of a body that the server discards unread.
const SKIPPED: usize = 65_536;

// Maximum number of field lines of a head.
const MOST_HEADERS: usize = 256;

// A field name, and the field value as the server reports it.
type Field<'a> = (&'a str, String);

// The framing of a body.
#[derive(Clone, Copy)]
enum Body {
    Nothing,
    Length(usize),
    Chunks,
}

// A head, and the bytes after it.
#[derive(Drop)]
struct StandardHead<'a> {
    request: RequestWords<'a>,
    headers: Vec<Field<'a>>,
    behind: &'a [u8],
}

// Returns the first line and the bytes after it, or `None` if there is no LF, if no CR precedes the first LF, or if the
// line contains a NUL or another CR.
fn line_of(bytes: &[u8]) -> Option<(&[u8], &[u8])> {
    let place = bytes.iter().position(|byte| *byte == b'\n')?;
    let line = bytes.get(..place)?.strip_suffix(b"\r")?;
    let behind = bytes.get(place.checked_add(1)?..)?;
    if line.iter().any(|byte| matches!(*byte, b'\r' | 0)) {
        return None;
    }
    Some((line, behind))
}

// Returns whether `text` is a token (RFC 9110, section 5.6.2).
fn is_token(text: &str) -> bool {
    let is_letter = |byte: u8| byte.is_ascii_alphanumeric() || b"!#$%&'*+-.^_`|~".contains(&byte);
    !text.is_empty() && text.bytes().all(is_letter)
}

// Returns whether a host may contain each character of `text` without percent-encoding. The text may be empty.
fn are_host_letters(text: &str) -> bool {
    let is_letter = |byte: u8| byte.is_ascii_alphanumeric() || b"-._~!$&'()*+,;=".contains(&byte);
    text.bytes().all(is_letter)
}

// Returns whether `text`, which follows a percent sign in a host, is two hexadecimal digits and then only characters
// that a host may contain without percent-encoding.
fn is_behind_percent(text: &str) -> bool {
    let Some(digits) = text.get(..2) else {
        return false;
    };
    digits.bytes().all(|byte| byte.is_ascii_hexdigit())
        && are_host_letters(text.get(2..).unwrap_or_default())
}

// Returns whether `text` is a host without brackets.
fn is_name(text: &str) -> bool {
    let mut pieces = text.split('%');
    !text.is_empty() && pieces.next().is_some_and(are_host_letters) && pieces.all(is_behind_percent)
}

// Returns whether `text` may be the address between the brackets of a host.
fn is_address(text: &str) -> bool {
    let is_letter = |byte: u8| byte.is_ascii_hexdigit() || matches!(byte, b':' | b'.');
    !text.is_empty() && text.bytes().all(is_letter)
}

fn is_host(text: &str) -> bool {
    match text.strip_prefix('[') {
        Some(rest) => rest.strip_suffix(']').is_some_and(is_address),
        None => is_name(text),
    }
}

// Returns whether `text` is a host, optionally followed by a colon and a port, which may be empty.
fn is_host_with_port(text: &str) -> bool {
    if is_host(text) {
        return true;
    }
    text.rsplit_once(':').is_some_and(|(host, port)| is_host(host)
        && port.bytes().all(|byte| byte.is_ascii_digit()))
}

// Returns whether `value` is valid for a Host field.
fn is_host_value(value: &str) -> bool {
    value.is_empty() || is_host_with_port(value)
}

// Returns whether `target` is a host, a colon, and a port from 1 to 65,535.
fn is_authority(target: &str) -> bool {
    let Some((host, digits)) = target.rsplit_once(':') else {
        return false;
    };
    is_host(host) && decimal(digits).is_some_and(|port| matches!(port, 1..=65535))
}

// Returns whether `target` is in absolute form, with the scheme `http` or `https`.
fn is_absolute(target: &str) -> bool {
    let Some((scheme, rest)) = target.split_once("://") else {
        return false;
    };
    let is_known = scheme.eq_ignore_ascii_case("http") || scheme.eq_ignore_ascii_case("https");
    let mut parts = rest.split(|letter| matches!(letter, '/' | '?'));
    is_known && parts.next().is_some_and(is_host_with_port)
}

// Returns whether `target` is a valid request target for this method.
fn is_target(method: &str, target: &str) -> bool {
    if !target.bytes().all(|byte| matches!(byte, 33..=126)) {
        return false;
    }
    match method {
        "CONNECT" => is_authority(target),
        "OPTIONS" if target == "*" => true,
        _ => target.starts_with('/') || is_absolute(target),
    }
}

// Returns the version as the server reports it, which is 1.1 for each later minor version, or `None` if it is not
// HTTP/1.0 to HTTP/1.9.
fn version_of(version: &str) -> Option<&'static str> {
    match version.strip_prefix("HTTP/1.")?.as_bytes() {
        [b'0'] => Some("1.0"),
        [b'1'..=b'9'] => Some("1.1"),
        _ => None,
    }
}

// Parses a request line. Returns `None` if it is invalid.
fn request_of(line: &[u8]) -> Option<RequestWords<'_>> {
    let mut words = str::from_utf8(line).ok()?.split(' ');
    let method = words.next()?;
    let target = words.next()?;
    let version = version_of(words.next()?)?;
    if words.next().is_some() || !is_token(method) || !is_target(method, target) {
        return None;
    }
    Some(RequestWords {
        method,
        target,
        version,
    })
}

// Returns whether `byte` is a control byte that is not allowed in a field value.
fn is_control(byte: u8) -> bool {
    matches!(byte, 0..=8 | 10..=31 | 127)
}

// Returns whether a field of this name must have an ASCII value.
fn is_ascii_header(name: &str) -> bool {
    name.eq_ignore_ascii_case("Host") || name.eq_ignore_ascii_case("Transfer-Encoding")
}

// Splits a field line into name and value. Returns `None` if it is invalid.
fn header_of(line: &[u8]) -> Option<(&str, &[u8])> {
    let place = line.iter().position(|byte| *byte == b':')?;
    let name = str::from_utf8(line.get(..place)?).ok()?;
    let value = line.get(place.checked_add(1)?..)?;
    if !is_token(name) || value.iter().any(|byte| is_control(*byte)) {
        return None;
    }
    if is_ascii_header(name) && !value.is_ascii() {
        return None;
    }
    // `trim_ascii` removes only spaces and tabs here, as control bytes are refused above.
    Some((name, value.trim_ascii()))
}

// Formats a field value as the server reports it: each byte from 128 on becomes a percent sign and two hexadecimal
// digits.
fn value_of(alloc: Global, bytes: &[u8]) -> Result<String, AllocError> {
    let mut value = String::new(alloc);
    for byte in bytes {
        let byte = *byte;
        if byte.is_ascii() {
            value.push(char::from(byte))?;
        } else {
            write!(value, "%{byte:02X}")?;
        }
    }
    Ok(value)
}

// Reads the field lines. Returns them and the bytes after the empty line, or `None` if the header section is incomplete
// or invalid, or has more than `MOST_HEADERS` field lines.
fn headers_of(alloc: Global, bytes: &[u8]) -> Result<Option<(Vec<Field<'_>>, &[u8])>, AllocError> {
    let mut headers = Vec::new(alloc);
    let mut rest = bytes;
    for _ in 0..=bytes.len() {
        let Some((line, behind)) = line_of(rest) else {
            return Ok(None);
        };
        if line.is_empty() {
            return Ok(Some((headers, behind)));
        }
        let Some((name, value)) = header_of(line) else {
            return Ok(None);
        };
        if headers.len() >= MOST_HEADERS {
            return Ok(None);
        }
        let header = (name, value_of(alloc, value)?);
        headers.push(header).map_err(AllocError::from)?;
        rest = behind;
    }
    Ok(None)
}

// Reads the head at the start of `bytes`, after at most one empty line. Returns `None` if it is incomplete or invalid.
fn head_of(alloc: Global, bytes: &[u8]) -> Result<Option<StandardHead<'_>>, AllocError> {
    let bytes = bytes.strip_prefix(b"\r\n").unwrap_or(bytes);
    let Some((line, rest)) = line_of(bytes) else {
        return Ok(None);
    };
    let Some(request) = request_of(line) else {
        return Ok(None);
    };
    let Some((headers, behind)) = headers_of(alloc, rest)? else {
        return Ok(None);
    };
    Ok(Some(StandardHead {
        request,
        headers,
        behind,
    }))
}

// Returns whether `word` is an element of a list, ignoring case.
fn is_listed(list: &str, word: &str) -> bool {
    list.split(',')
        .any(|element| element.trim_ascii().eq_ignore_ascii_case(word))
}

// Returns whether a list of expectations has no element other than `100-continue`. Empty elements are ignored.
fn is_continue_alone(list: &str) -> bool {
    list.split(',').all(|element| {
        let element = element.trim_ascii();
        element.is_empty() || element.eq_ignore_ascii_case("100-continue")
    })
}

// Returns the number that all elements of a Content-Length value state, or `None` if one is invalid or they differ.
fn length_in(list: &str) -> Option<usize> {
    let mut elements = list.split(',');
    let length = decimal(elements.next()?.trim_ascii())?;
    elements
        .all(|element| decimal(element.trim_ascii()) == Some(length))
        .then_some(length)
}

impl<'a> StandardHead<'a> {
    // Returns whether the request is HTTP/1.0.
    fn is_old(&self) -> bool {
        self.request.version == "1.0"
    }

    // Returns the number of fields of this name.
    fn count(&self, name: &str) -> usize {
        self.headers
            .iter()
            .filter(|header| header.0.eq_ignore_ascii_case(name))
            .count()
    }

    // Returns the value of the first field of this name, if there is one.
    fn value(&self, name: &str) -> Option<&str> {
        self.headers
            .iter()
            .find(|header| header.0.eq_ignore_ascii_case(name))
            .map(|header| header.1.as_str())
    }

    // Returns whether a field of this name lists `word`, ignoring case.
    fn lists(&self, name: &str, word: &str) -> bool {
        self.headers.iter().any(|header| header.0.eq_ignore_ascii_case(name)
            && is_listed(header.1.as_str(), word))
    }

    // Returns whether the request has a single, valid Host field, or is HTTP/1.0 and has none.
    fn has_good_host(&self) -> bool {
        match self.count("Host") {
            0 => self.is_old(),
            1 => self.value("Host").is_some_and(is_host_value),
            _ => false,
        }
    }

    // Returns whether the request expects nothing but a 100, or nothing at all.
    fn expects_a_100_alone(&self) -> bool {
        self.headers.iter().all(|header| !header.0.eq_ignore_ascii_case("Expect")
            || is_continue_alone(header.1.as_str()))
    }

    // Returns the length that all Content-Length fields state, or `None` if there is no such field, one is invalid, or
    // they differ.
    fn length(&self) -> Option<usize> {
        let length = length_in(self.value("Content-Length")?)?;
        self.headers
            .iter()
            .all(|header| !header.0.eq_ignore_ascii_case("Content-Length")
                || length_in(header.1.as_str()) == Some(length))
            .then_some(length)
    }

    // Returns the framing of the body, or `None` if the request is refused because of it.
    fn body(&self) -> Option<Body> {
        match (
            self.count("Transfer-Encoding"),
            self.count("Content-Length"),
        ) {
            (0, 0) => Some(Body::Nothing),
            (0, _) => self.length().map(Body::Length),
            (1, 0) if !self.is_old() => {
                let coding = self.value("Transfer-Encoding")?;
                coding
                    .eq_ignore_ascii_case("chunked")
                    .then_some(Body::Chunks)
            }
            _ => None,
        }
    }

    // Returns whether the server owes the client a 100: the request has a body, is not HTTP/1.0, and expects a 100.
    fn owes_a_100(&self, body: Body) -> bool {
        let has_body = !matches!(body, Body::Nothing | Body::Length(0));
        has_body && !self.is_old() && self.lists("Expect", "100-continue")
    }

    // Returns whether the connection hands out the request: the request is not refused, and if its body is read with
    // the head, the body is complete.
    fn is_handed_out(&self, body: Body) -> bool {
        let is_there = match body {
            Body::Length(length) if length <= SHORT && !self.owes_a_100(body) => {
                length <= self.behind.len()
            }
            _ => true,
        };
        self.has_good_host() && self.expects_a_100_alone() && is_there
    }

    // Returns whether the head makes this request the last one of its connection.
    fn is_last(&self) -> bool {
        let ends = self.is_old() && !self.lists("Connection", "keep-alive");
        ends || self.lists("Connection", "close") || self.request.method == "CONNECT"
    }

    // Returns the bytes after the body, where the next request begins once this one is dropped, or `None` if no further
    // request can follow.
    fn after_drop(&self, body: Body) -> Option<&'a [u8]> {
        if self.is_last() || self.owes_a_100(body) {
            return None;
        }
        match body {
            Body::Nothing => Some(self.behind),
            Body::Length(length) if length <= SKIPPED => self.behind.get(length..),
            Body::Length(_) | Body::Chunks => None,
        }
    }

    // Formats the reply line of the request with this number.
    fn line(&self, alloc: Global, number: usize, body: Body) -> Result<Vec<u8>, AllocError> {
        let length = match body {
            Body::Length(length) => Some(length),
            Body::Nothing | Body::Chunks => None,
        };
        let mut line = self
            .request
            .line(alloc, number, self.headers.len(), length)?;
        for (name, value) in &self.headers {
            add_header(&mut line, *name, value.as_str())?;
        }
        Ok(line.into_bytes())
    }
}

/// Returns the reply lines of the requests that a connection hands out under `Standard`, up to `most`, if its client
/// sends these bytes and each request is dropped before the next is received.
pub fn standard_lines(
    alloc: Global,
    bytes: &[u8],
    most: usize,
) -> Result<Vec<Vec<u8>>, AllocError> {
    let mut lines = Vec::new(alloc);
    let mut rest = bytes;
    for number in 0..most {
        let Some(head) = head_of(alloc, rest)? else {
            break;
        };
        let Some(body) = head.body() else {
            break;
        };
        if !head.is_handed_out(body) {
            break;
        }
        lines
            .push(head.line(alloc, number, body)?)
            .map_err(AllocError::from)?;
        match head.after_drop(body) {
            Some(behind) => rest = behind,
            None => break,
        }
    }
    Ok(lines)
}
