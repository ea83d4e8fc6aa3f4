//! Parsing of whole heads from bytes, under `Standard` (RFC 9112, sections 2.2, 3 and 5).
ghost use Rattle.std.specs.Prelude.{◌≡◌, ◌<◌, ◌≤◌, IfOk, IfErr, OnErr, length, take};
ghost use Rattle.tiny_http_standard_head.specs.Heads.{Line, behind_empty_line, is_begun, BeginsWithRequestLine};
ghost use Rattle.tiny_http_standard_head.specs.Heads.{HasGoodRequestLine, Reads, status_of};
ghost use Rattle.tiny_http_standard_head.specs.HeadParts.{HasNoLine, StopsRequest, StopsFields, EndsFields};
ghost use Rattle.tiny_http_standard_head.specs.HeadParts.{ReadsWhole, StopsHead};

use crate::lines::{parse_field_line, parse_request_line};
use crate::validation::{HeadError, HeadSummary, validate};
use std::alloc::{AllocError, Global};
use tiny_http_head::common::{HTTPVersion, Header, Method};
use tiny_http_text::ascii::AsciiString;
use tiny_http_text::bytes::cut;

/// Maximum number of field lines in a head. A head with more is answered with 431 (RFC 6585, section 5).
pub const MOST_HEADERS: usize = 256;

/// A parsed and validated request head, with a summary of what its fields say.
#[derive(Drop)]
pub struct StandardHead {
    /// The method.
    pub method: Method,
    /// The request target, as received.
    pub target: AsciiString,
    /// The version, `HTTP/1.x`.
    pub version: HTTPVersion,
    /// The header fields, in order.
    pub headers: Vec<Header>,
    /// A summary of what the head says about its body and the connection.
    pub summary: HeadSummary,
    /// The length of the head in bytes, including the empty line that ends it, and an empty line before it if there was
    /// one.
    pub length: usize,
}

/// The reason why a head is refused.
#[derive(Clone, Copy, Debug, PartialEq, Eq)]
pub enum StandardFault {
    /// A line doesn't match the grammar, or its LF has no CR before it.
    BadLine,
    /// The limit was reached before the end of the request line.
    RequestLineTooLong,
    /// The limit was reached after the request line, before the end of the head.
    HeaderFieldsTooLarge,
    /// A valid field line came after `MOST_HEADERS` others.
    TooManyFields,
    /// All lines are valid, but the head as a whole isn't.
    Invalid(HeadError),
}

impl StandardFault {
    /// Returns the status code of the response to this fault: 400, 414, 431, 505, 501 or 417 (RFC 9110, section 15; RFC
    /// 6585, section 5).
    pub fn status(self) -> u16
        ensures { result ≡ status_of self }
    {
        match self {
            StandardFault::BadLine | StandardFault::Invalid(HeadError::InvalidHead) => 400,
            StandardFault::RequestLineTooLong => 414,
            StandardFault::HeaderFieldsTooLarge | StandardFault::TooManyFields => 431,
            StandardFault::Invalid(HeadError::UnsupportedVersion) => 505,
            StandardFault::Invalid(HeadError::UnknownCoding) => 501,
            StandardFault::Invalid(HeadError::UnknownExpectation) => 417,
        }
    }
}

/// The result of parsing the first bytes from a client.
#[derive(Drop)]
pub enum StandardRead {
    /// A complete head.
    Whole(StandardHead),
    /// A head that is refused.
    Refused(StandardFault),
    /// More bytes are needed.
    Unfinished {
        /// Whether a byte of a head has arrived. A lone CR counts as one until an LF makes it an empty line, so a later
        /// call may return `false` after `true`: use the value of the last call.
        has_begun: bool,
    },
}

// The reason why no line was found.
enum NoLine {
    // The first LF has no CR before it.
    Bare,
    // There is no LF yet.
    Open,
}

// The reason why no complete head was parsed.
enum NoHead {
    // A line is malformed.
    Bad,
    // The request line hasn't ended.
    OpenRequest,
    // A line after the request line hasn't ended.
    OpenField,
    // There are more than `MOST_HEADERS` field lines.
    TooMany,
    // Memory couldn't be allocated.
    Memory,
}

// Splits off the first line. Returns its text, without the CR LF, and the rest of the bytes. Fails with `Open` if there
// is no LF, and with `Bare` if the first LF has no CR before it.
fn next_line(bytes: &[u8]) -> Result<(&[u8], &[u8]), NoLine>
    ensures some { IfOk result (λ r. Line bytes.now r.0.now r.1.now) }
    ensures none { IfErr result (λ why. HasNoLine why bytes.now) }
{
    let Some((line, rest)) = cut(bytes, b'\n') else {
        return Err(NoLine::Open);
    };
    let n = line.len();
    if n == 0 || line[n - 1] != b'\r' {
        return Err(NoLine::Bare);
    }
    Ok((&line[..n - 1], rest))
}

// Skips one empty line at the beginning, if there is one.
fn behind_empty_line(bytes: &[u8]) -> &[u8]
    ensures { result.now ≡ behind_empty_line bytes.now }
{
    if bytes.len() >= 2 && bytes[0] == b'\r' && bytes[1] == b'\n' {
        return &bytes[2..];
    }
    bytes
}

// Parses the request line, after at most one empty line, and returns its parts and the rest of the bytes.
fn read_request(
    alloc: Global,
    bytes: &[u8],
) -> Result<(Method, AsciiString, HTTPVersion, &[u8]), NoHead>
    ensures some { IfOk result (λ r. BeginsWithRequestLine bytes.now r.0 r.1 r.2 r.3.now) }
    ensures none { IfErr result (λ stop. StopsRequest bytes.now stop) }
{
    let (text, rest) = match next_line(behind_empty_line(bytes)) {
        Ok(line) => line,
        Err(NoLine::Bare) => return Err(NoHead::Bad),
        Err(NoLine::Open) => return Err(NoHead::OpenRequest),
    };
    match parse_request_line(alloc, text) {
        Ok(Some((method, target, version))) => Ok((method, target, version, rest)),
        Ok(None) => Err(NoHead::Bad),
        Err(_) => Err(NoHead::Memory),
    }
}

// Parses the field lines and the empty line, and returns the fields and the bytes after that line.
fn read_fields(alloc: Global, bytes: &[u8]) -> Result<(Vec<Header>, &[u8]), NoHead>
    ensures some { IfOk result (λ r. EndsFields bytes.now r.0.items r.1.now) }
    ensures none { IfErr result (λ stop. StopsFields bytes.now stop) }
{
    let mut headers = Vec::new(alloc);
    let mut rest = bytes;
    loop {
        let (text, next) = match next_line(rest) {
            Ok(line) => line,
            Err(NoLine::Bare) => return Err(NoHead::Bad),
            Err(NoLine::Open) => return Err(NoHead::OpenField),
        };
        if text.is_empty() {
            return Ok((headers, next));
        }
        let header = match parse_field_line(alloc, text) {
            Ok(Some(header)) => header,
            Ok(None) => return Err(NoHead::Bad),
            Err(_) => return Err(NoHead::Memory),
        };
        if headers.len() >= MOST_HEADERS {
            return Err(NoHead::TooMany);
        }
        if headers.push(header).is_err() {
            return Err(NoHead::Memory);
        }
        rest = next;
    }
}

// Parses and validates a complete head.
fn read_whole(alloc: Global, bytes: &[u8]) -> Result<StandardRead, NoHead>
    ensures some { IfOk result (λ read. ReadsWhole bytes.now read) }
    ensures none { IfErr result (λ stop. StopsHead bytes.now stop) }
{
    let (method, target, version, fields) = match read_request(alloc, bytes) {
        Ok(request) => request,
        Err(stop) => return Err(stop),
    };
    let (headers, after) = match read_fields(alloc, fields) {
        Ok(fields) => fields,
        Err(stop) => return Err(stop),
    };
    match validate(version, &method, headers.as_slice()) {
        Ok(summary) => Ok(StandardRead::Whole(StandardHead {
            method,
            target,
            version,
            headers,
            summary,
            length: bytes.len() - after.len(),
        })),
        Err(refusal) => Ok(StandardRead::Refused(StandardFault::Invalid(refusal))),
    }
}

// Returns the result for a head that hasn't ended: `Refused` with this fault if the limit is reached, and otherwise
// `Unfinished`.
fn not_ended(bytes: &[u8], limit: usize, fault: StandardFault) -> StandardRead
    ensures full { limit ≤ length bytes.now → result ≡ StandardRead.Refused fault }
    ensures open { length bytes.now < limit → result ≡ StandardRead.Unfinished (is_begun bytes.now) }
{
    if bytes.len() >= limit {
        return StandardRead::Refused(fault);
    }
    StandardRead::Unfinished {
        has_begun: !behind_empty_line(bytes).is_empty(),
    }
}

/// Parses and validates the head at the start of `bytes`. The head may have at most `limit` bytes, including its empty
/// lines, and at most `MOST_HEADERS` field lines. A line ends at its first LF, which needs a CR before it. One empty
/// line before the request line is skipped.
///
/// The head is refused at its first malformed or surplus line, whatever follows, and once `limit` bytes have arrived
/// without the end of the head. A complete head is refused if `validation::validate` refuses it. If `limit` is below 3,
/// the refusal at `limit` bytes can come even before the first byte of a head. If more bytes are needed, call again
/// with these bytes and the new ones. Each call starts over, so for a head that arrives byte by byte use
/// `source_heads::read_head_from`. Fails if memory can't be allocated; memory is needed only if the request line is
/// valid.
pub fn read_head(alloc: Global, bytes: &[u8], limit: usize) -> Result<StandardRead, AllocError>
    ensures reads { IfOk result (λ read. Reads limit bytes.now read) }
    ensures begun { OnErr result (HasGoodRequestLine (take limit bytes.now)) }
{
    let seen = &bytes[..bytes.len().min(limit)];
    match read_whole(alloc, seen) {
        Ok(read) => Ok(read),
        Err(NoHead::Bad) => Ok(StandardRead::Refused(StandardFault::BadLine)),
        Err(NoHead::OpenRequest) => Ok(not_ended(bytes, limit, StandardFault::RequestLineTooLong)),
        Err(NoHead::OpenField) => Ok(not_ended(bytes, limit, StandardFault::HeaderFieldsTooLarge)),
        Err(NoHead::TooMany) => Ok(StandardRead::Refused(StandardFault::TooManyFields)),
        Err(NoHead::Memory) => Err(AllocError),
    }
}
