//! The head of a response: its lines, as a client reads them.
ghost use Rattle.std.specs.Prelude.{◌≡◌, ◌≤◌, IfOk, IfErr, IfSome, IfNone, IsSome, OnErr, Err, None, Some, option_map};
ghost use Rattle.tiny_http_text.specs.Bytes.{AreAscii};
ghost use Rattle.tiny_http_client.specs.ClientReading.{decimal_until, status_line_read, field_line_read, value_read};
ghost use Rattle.tiny_http_client.specs.AnswerParts.{status_line_of, LacksBy, head_of, ReadsFieldLine};
ghost use Rattle.tiny_http_client.specs.AnswerParts.{BeginsWithAllFieldLines, LacksFieldLines};
ghost use Rattle.tiny_http_client.specs.AnswerParts.{HasFieldLine, HasStartAndField};
ghost use Rattle.tiny_http_client.specs.ClientAnswer.{BeginsWithStatusLine, BeginsWithAnswerHead, LacksLine};
ghost use Rattle.tiny_http_client.specs.ClientAnswer.{LacksHead, IsStatusLine};

use crate::number::decimal;
use crate::rest::Rest;
use std::alloc::{AllocError, Global};
use tiny_http_head::common::{HTTPVersion, Header, HeaderField, StatusCode};
use tiny_http_text::bytes::{are_ascii, cut, has_no_blank, is};
use tiny_http_text::copies::owned;

/// The reason why a part of a response can't be read.
#[derive(Clone, Copy, Drop)]
pub(crate) enum Fault {
    /// The bytes end before the part does.
    Unfinished,
    /// The bytes break a rule.
    Malformed,
    /// Memory for the part couldn't be allocated.
    Memory,
}

impl From<AllocError> for Fault {
    ghost use Rattle.tiny_http_client.specs.declared.head.Fault.TheVariants.{Memory};

    ghost from_gives = { λ _ fault. fault ≡ Memory };

    fn from(_error: AllocError) -> Fault {
        Fault::Memory
    }
}

/// The version, status and headers of a response.
#[derive(Drop)]
pub(crate) struct HeadParts {
    pub(crate) version: HTTPVersion,
    pub(crate) status: StatusCode,
    pub(crate) headers: Vec<Header>,
}

// Parses the decimal number, of at most `most`, before the first `c`, and returns it with the text after that `c`.
// Returns `None` if there is no `c`, or no such number before it.
fn decimal_until(text: &[u8], c: u8, most: usize) -> Option<(usize, &[u8])>
    requires { AreAscii text.now }
    ensures some { IfSome result (λ r. (decimal_until most c text.now ≡ Some (r.0, r.1.now)) × AreAscii r.1.now) }
    ensures fits { IfSome result (λ r. r.0 ≤ most) }
    ensures none { IfNone result (decimal_until most c text.now ≡ None) }
{
    let Some((digits, after)) = cut(text, c) else {
        return None;
    };
    let number = decimal(digits, most)?;
    Some((number, after))
}

// Parses the version and the status of a status line (RFC 9112, section 4). Returns `None` if the text isn't a status
// line.
fn parse_status_line(text: &[u8]) -> Option<(HTTPVersion, StatusCode)>
    requires { AreAscii text.now }
    ensures { option_map status_line_of result ≡ status_line_read text.now }
{
    let Some((protocol, numbers)) = cut(text, b'/') else {
        return None;
    };
    if !is(protocol, "HTTP") {
        return None;
    }
    let (major, after_major) = decimal_until(numbers, b'.', 255)?;
    let (minor, after_minor) = decimal_until(after_major, b' ', 255)?;
    let (status, _phrase) = decimal_until(after_minor, b' ', 65535)?;
    let version = HTTPVersion(major as u8, minor as u8);
    Some((version, StatusCode(status as u16)))
}

// Returns the text after its leading space, or `None` unless it begins with exactly one space.
fn after_one_space(text: &[u8]) -> Option<&[u8]>
    ensures some { IfSome result (λ value. value_read text.now ≡ Some value.now) }
    ensures none { IfNone result (value_read text.now ≡ None) }
{
    if text.is_empty() || text[0] != b' ' {
        return None;
    }
    let value = &text[1..];
    if !value.is_empty() && value[0] == b' ' {
        return None;
    }
    Some(value)
}

// Parses a field line, with exactly one space after the first colon (RFC 9112, section 5). Returns `None` if the text
// isn't a field line. Fails only if the text is a field line and memory for its header can't be allocated.
fn parse_field_line(alloc: Global, text: &[u8]) -> Result<Option<Header>, AllocError>
    requires { AreAscii text.now }
    ensures value { IfOk result (λ found. found ≡ field_line_read text.now) }
    ensures judged { OnErr result (IsSome (field_line_read text.now)) }
{
    let Some((field, after)) = cut(text, b':') else {
        return Ok(None);
    };
    if !has_no_blank(field) {
        return Ok(None);
    }
    let Some(value) = after_one_space(after) else {
        return Ok(None);
    };
    let field = HeaderField::from_text(owned(alloc, field)?);
    let value = owned(alloc, value)?;
    Ok(Some(Header { field, value }))
}

// Reads the status line. Fails with `Unfinished` if the line isn't finished, and with `Malformed` if it isn't a status
// line in ASCII.
fn read_status_line(rest: &mut Rest<'_>) -> Result<(HTTPVersion, StatusCode), Fault>
    ensures read { IfOk result (λ r. BeginsWithStatusLine rest.old r.0 r.1.0 rest.new) }
    ensures lacks { IfErr result (LacksBy (LacksLine IsStatusLine rest.old)) }
    ensures no_memory { result ≡ Err Fault.Memory → ⊥ }
{
    let Some(text) = rest.take_line() else {
        return Err(Fault::Unfinished);
    };
    if !are_ascii(text) {
        return Err(Fault::Malformed);
    }
    match parse_status_line(text) {
        Some(start) => Ok(start),
        None => Err(Fault::Malformed),
    }
}

// Reads the next field line and returns its header, or reads the empty line and returns `None`. Fails with `Unfinished`
// if the line isn't finished, with `Malformed` if it isn't empty and isn't a field line in ASCII, and with `Memory` if
// memory for its header can't be allocated.
fn read_field_line(alloc: Global, rest: &mut Rest<'_>) -> Result<Option<Header>, Fault>
    ensures { ReadsFieldLine rest.old rest.new result }
{
    let Some(text) = rest.take_line() else {
        return Err(Fault::Unfinished);
    };
    if text.is_empty() {
        return Ok(None);
    }
    if !are_ascii(text) {
        return Err(Fault::Malformed);
    }
    match parse_field_line(alloc, text)? {
        Some(header) => Ok(Some(header)),
        None => Err(Fault::Malformed),
    }
}

// Reads the field lines and the empty line after them, and returns the headers.
fn read_field_lines(alloc: Global, rest: &mut Rest<'_>) -> Result<Vec<Header>, Fault>
    ensures read { IfOk result (λ headers. BeginsWithAllFieldLines rest.old headers.items rest.new) }
    ensures lacks { IfErr result (LacksBy (LacksFieldLines rest.old)) }
    ensures memory { result ≡ Err Fault.Memory → HasFieldLine rest.old }
{
    let mut headers = Vec::new(alloc);
    loop {
        match read_field_line(alloc, rest)? {
            Some(header) => {
                if headers.push(header).is_err() {
                    return Err(Fault::Memory);
                }
            }
            None => return Ok(headers),
        }
    }
}

/// Reads a head: a status line, field lines and an empty line.
pub(crate) fn read_head(alloc: Global, rest: &mut Rest<'_>) -> Result<HeadParts, Fault>
    ensures read { IfOk result (λ head. BeginsWithAnswerHead rest.old (head_of head) rest.new) }
    ensures lacks { IfErr result (LacksBy (LacksHead rest.old)) }
    // Fails with `Memory` only if a valid field line follows the status line.
    ensures memory { result ≡ Err Fault.Memory → HasStartAndField rest.old }
{
    let (version, status) = read_status_line(rest)?;
    let headers = read_field_lines(alloc, rest)?;
    Ok(HeadParts {
        version,
        status,
        headers,
    })
}
