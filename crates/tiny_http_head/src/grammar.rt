//! Parsing of the lines of a request head (RFC 9112, sections 3 and 5).
ghost use Rattle.std.specs.Prelude.{◌≡◌, IfOk, OnErr, IfSome, IfNone, IsSome, None};
ghost use Rattle.tiny_http_text.specs.Bytes.{AreAscii};
ghost use Rattle.tiny_http_head.specs.Heads.{length_in, version_of};
ghost use Rattle.tiny_http_head.specs.HeadReading.{request_line, HasParts};

pub use crate::common::parse_header_line;
use crate::common::{HTTPVersion, Method, method_of};
use std::alloc::{AllocError, Global};
use tiny_http_text::ascii::AsciiString;
use tiny_http_text::bytes::{cut, first_part, is, trim};
use tiny_http_text::copies::owned;

// Returns the version that a text names, or `None` if it isn't one of the five that are accepted.
fn version_of(text: &[u8]) -> Option<HTTPVersion>
    ensures { result ≡ version_of text.now }
{
    if is(text, "HTTP/0.9") {
        return Some(HTTPVersion(0, 9));
    }
    if is(text, "HTTP/1.0") {
        return Some(HTTPVersion(1, 0));
    }
    if is(text, "HTTP/1.1") {
        return Some(HTTPVersion(1, 1));
    }
    if is(text, "HTTP/2.0") {
        return Some(HTTPVersion(2, 0));
    }
    if is(text, "HTTP/3.0") {
        return Some(HTTPVersion(3, 0));
    }
    None
}

// Trims a request line, splits it at each single space, and returns its first three parts. The third ends at the next
// space or at the end of the text. Returns `None` if there are fewer than three parts.
fn split_request_line(text: &[u8]) -> Option<(&[u8], &[u8], &[u8])>
    ensures some { IfSome result (λ r. HasParts text.now r.0.now r.1.now r.2.now) }
    ensures none { IfNone result (request_line text.now ≡ None) }
{
    let core = trim(text);
    let Some((method, rest)) = cut(core, b' ') else {
        return None;
    };
    let Some((path, tail)) = cut(rest, b' ') else {
        return None;
    };
    Some((method, path, first_part(tail, b' ')))
}

/// Parses a request line (RFC 9112, section 3). The text is stripped of white space (bytes 9 to 13 and 32) at its ends
/// and split at each single space into the method, the request target, which may be empty, and the version; further
/// parts are ignored. Returns `None` if there are fewer than three parts, or if the version isn't `HTTP/0.9`,
/// `HTTP/1.0`, `HTTP/1.1`, `HTTP/2.0` or `HTTP/3.0`. Fails if the text is a request line and memory can't be allocated.
pub fn parse_request_line(
    alloc: Global,
    text: &[u8],
) -> Result<Option<(Method, AsciiString, HTTPVersion)>, AllocError>
    requires { AreAscii text.now }
    ensures value { IfOk result (λ found. found ≡ request_line text.now) }
    ensures judged { OnErr result (IsSome (request_line text.now)) }
{
    let Some((method, path, version)) = split_request_line(text) else {
        return Ok(None);
    };
    let Some(version) = version_of(version) else {
        return Ok(None);
    };
    let method = method_of(alloc, method)?;
    let path = owned(alloc, path)?;
    Ok(Some((method, path, version)))
}

/// Parses a `Content-Length` value: an optional `+`, then one or more decimal digits whose value is at most
/// 18446744073709551615 (RFC 9110, section 8.6; the `+` as in the Rust crate). Returns `None` for any other value.
pub fn parse_content_length(value: &str) -> Option<usize>
    ensures { result ≡ length_in value.now }
{
    match value.parse::<usize>() {
        Ok(length) => Some(length),
        Err(_) => None,
    }
}
