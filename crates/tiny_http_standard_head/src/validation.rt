//! The validation of complete heads, and their meaning (RFC 9112, sections 3.2, 6 and 9.3; RFC 9110, sections 7.8,
//! 10.1.1 and 15), including whether a client asks for chunks (RFC 9110, section 10.1.4).
ghost use Rattle.std.specs.Prelude.{◌≡◌, ◌↔◌, ◌==◌, not, IsTrue, IsFalse, IfSome, IfNone, codes};
ghost use Rattle.std.specs.List.{list_all, list_any};
ghost use Rattle.httparse.specs.Grammar.{is_ows};
ghost use Rattle.tiny_http_text.specs.Bytes.{trimmed, parts};
ghost use Rattle.tiny_http_head.specs.ContentLength.{one_length};
ghost use Rattle.tiny_http_head.specs.Target.{slash};
ghost use Rattle.tiny_http_standard_head.specs.Hosts.{percent};
ghost use Rattle.tiny_http_standard_head.specs.Lists.{values_of, between_commas, elements_of, has_element_that};
ghost use Rattle.tiny_http_standard_head.specs.Validation.{HasValidHost, is_1_0, is_chunked, is_one_or_two_tokens};
ghost use Rattle.tiny_http_standard_head.specs.Validation.{is_protocol, has_body, owes_continue, is_connect, is_last};
ghost use Rattle.tiny_http_standard_head.specs.Validation.{asks_upgrade, is_protocol_named, names_protocol, Validates};
ghost use Rattle.tiny_http_standard_head.specs.Te.{between_semicolons, is_weight, weight_value, is_zero};
ghost use Rattle.tiny_http_standard_head.specs.Te.{has_zero_weight, element_asks_chunked, asks_chunked};
ghost use Rattle.tiny_http_standard_head.specs.ValidationReading.{is_wanted, coding_after, codings_on, body_by};
ghost use Rattle.tiny_http_standard_head.specs.declared.validation.Codings.TheVariants.{Absent};

use crate::hosts::is_host_value;
use httparse::is_token;
use tiny_http_head::blanks::{Blanks, trim_space_and_tab};
use tiny_http_head::common::{HTTPVersion, Header, Method};
use tiny_http_head::content_length::one_length;
use tiny_http_text::bytes::{cut, is};

/// A summary of what a head says about its body and the connection.
#[derive(Clone, Copy, Debug, PartialEq, Eq)]
pub struct HeadSummary {
    /// The value of `Content-Length`, if there is one. There is no body if it is `Some(0)`, or if it is `None` and
    /// `is_chunked` is false.
    pub body_length: Option<usize>,
    /// Whether the body is chunked.
    pub is_chunked: bool,
    /// Whether a 100 (Continue) is due before the body: in version 1.1 or later, if a body follows and `Expect` lists
    /// `100-continue`.
    pub owes_continue: bool,
    /// Whether the head asks for an upgrade: in version 1.1 or later, if `Connection` lists `upgrade` and `Upgrade`
    /// lists a protocol. A protocol is a token, or two tokens separated by a slash. It must not contain `%`, which may
    /// come from percent-encoding a byte above 127.
    pub asks_upgrade: bool,
    /// Whether the head alone makes this the last request of the connection: if `Connection` lists `close`, if the
    /// version is 1.0 and `Connection` doesn't list `keep-alive`, or if the method is `CONNECT`.
    pub is_last: bool,
}

/// The reason why a head with valid lines is refused.
#[derive(Clone, Copy, Debug, PartialEq, Eq)]
pub enum HeadError {
    /// The major version isn't 1: 505 (RFC 9110, section 15.6.6).
    UnsupportedVersion,
    /// The host or the framing of the body is invalid: 400 (RFC 9112, sections 3.2 and 6). One of these holds:
    ///
    /// - `Host` is missing in version 1.1 or later, appears more than once, or is neither empty nor a host with an
    ///   optional port.
    /// - The elements of `Content-Length` aren't all the same number; an empty element isn't a number.
    /// - `Transfer-Encoding` appears in version 1.0 or alongside `Content-Length`, its last element isn't `chunked`, or
    ///   another element is empty or `chunked`.
    InvalidHead,
    /// Other transfer codings precede a final `chunked`, in version 1.1 or later and without a content length: 501
    /// (RFC 9112, section 6.1).
    UnknownCoding,
    /// An element of `Expect` is neither `100-continue` nor empty, whatever the version: 417 (RFC 9110, section
    /// 10.1.1).
    UnknownExpectation,
}

// The kind of element to look for in a list.
#[derive(Clone, Copy)]
enum Wanted {
    Close,
    KeepAlive,
    Upgrade,
    Continue,
    Protocol,
    UnknownExpectation,
    Chunks,
}

// The elements of `Transfer-Encoding` so far.
#[derive(Clone, Copy, PartialEq, Eq)]
enum Codings {
    // No element.
    Absent,
    // Only elements other than `chunked`.
    Others,
    // Only `chunked`, once.
    Chunked,
    // Other elements, then `chunked`.
    Behind,
    // An empty element, or an element after `chunked`.
    Bad,
}

// Strips spaces and tabs from both ends of the text.
pub(crate) fn trim(text: &str) -> &[u8]
    ensures { result.now ≡ trimmed is_ows text.now }
{
    trim_space_and_tab(text.as_bytes())
}

// Returns whether the text is a token, or two tokens separated by a slash.
fn is_one_or_two_tokens(text: &[u8]) -> bool
    ensures { result ≡ is_one_or_two_tokens (parts slash text.now) }
{
    let Some((name, version)) = cut(text, b'/') else {
        return is_token(text);
    };
    is_token(name) && is_token(version)
}

// Returns whether the text has no percent sign.
fn has_no_percent(text: &[u8]) -> bool
    ensures { result ≡ list_all (λ b. not (b == percent)) text.now }
{
    text.iter().all(|b| *b != b'%')
}

// Returns whether the text is a protocol name, with or without a version, and has no percent sign.
fn is_protocol(text: &[u8]) -> bool
    ensures { result ≡ is_protocol text.now }
{
    is_one_or_two_tokens(text) && has_no_percent(text)
}

// Returns the value of a weight parameter, the text after `q=` or `Q=`, stripped of spaces and tabs (RFC 9110, section
// 12.4.2), or `None` for any other parameter.
fn weight_value(parameter: &[u8]) -> Option<&[u8]>
    ensures some { IfSome result (λ value. IsTrue (is_weight parameter.now)
        × (value.now ≡ weight_value parameter.now)) }
    ensures none { IfNone result (IsFalse (is_weight parameter.now)) }
{
    if parameter.len() < 2 || !parameter[..2].eq_ignore_ascii_case(b"q=") {
        return None;
    }
    Some(trim_space_and_tab(&parameter[2..]))
}

// Returns whether the weight is zero, with at most three digits after the point (RFC 9110, section 12.4.2).
fn is_zero(value: &[u8]) -> bool
    ensures { result ≡ is_zero value.now }
{
    is(value, "0") || is(value, "0.") || is(value, "0.0") || is(value, "0.00") || is(value, "0.000")
}

// Returns whether the parameters have a weight, and the first one is zero.
fn has_zero_weight(parameters: &[u8]) -> bool
    ensures { result ≡ has_zero_weight (between_semicolons parameters.now) }
{
    for text in parameters.split(|b| *b == b';') {
        if let Some(value) = weight_value(trim_space_and_tab(text)) {
            return is_zero(value);
        }
    }
    false
}

// Returns whether the coding is `chunked`, case-insensitively.
fn is_chunked(coding: &[u8]) -> bool
    ensures { result ≡ is_chunked coding.now }
{
    coding.eq_ignore_ascii_case(b"chunked")
}

// Returns whether an element of `TE`, a coding with its parameters, asks for chunks (RFC 9110, section 10.1.4).
fn element_asks_chunked(element: &[u8]) -> bool
    ensures { result ≡ element_asks_chunked element.now }
{
    let Some((coding, parameters)) = cut(element, b';') else {
        return is_chunked(trim_space_and_tab(element));
    };
    is_chunked(trim_space_and_tab(coding)) && !has_zero_weight(parameters)
}

// Returns whether the element is of the wanted kind.
fn is_wanted(wanted: Wanted, element: &[u8]) -> bool
    ensures { result ≡ is_wanted wanted element.now }
{
    match wanted {
        Wanted::Close => element.eq_ignore_ascii_case(b"close"),
        Wanted::KeepAlive => element.eq_ignore_ascii_case(b"keep-alive"),
        Wanted::Upgrade => element.eq_ignore_ascii_case(b"upgrade"),
        Wanted::Continue => element.eq_ignore_ascii_case(b"100-continue"),
        Wanted::Protocol => is_protocol(element),
        Wanted::UnknownExpectation => !element.is_empty()
            && !element.eq_ignore_ascii_case(b"100-continue"),
        Wanted::Chunks => element_asks_chunked(element),
    }
}

// Returns whether some element of the value is of the wanted kind.
fn has_in(value: &str, wanted: Wanted) -> bool
    ensures { result ≡ list_any (is_wanted wanted) (between_commas value.now) }
{
    for text in value.split(',') {
        if is_wanted(wanted, trim(text)) {
            return true;
        }
    }
    false
}

// Returns whether some element of the fields with this name is of the wanted kind.
fn has(headers: &[Header], name: &str, wanted: Wanted) -> bool
    ensures { result ≡ has_element_that name.now (is_wanted wanted) headers.now }
{
    for header in headers {
        if header.field.equiv(name) && has_in(header.value.as_str(), wanted) {
            return true;
        }
    }
    false
}

// Returns whether there is exactly one `Host` and its value is valid; in version 1.0 there may also be none.
fn has_valid_host(version: HTTPVersion, headers: &[Header]) -> bool
    ensures { IsTrue result ↔ HasValidHost version (values_of (codes "Host") headers.now) }
{
    let mut has_one = false;
    for header in headers {
        if header.field.equiv("Host") {
            if has_one || !is_host_value(header.value.as_str().as_bytes()) {
                return false;
            }
            has_one = true;
        }
    }
    has_one || is_1_0(version)
}

// Returns the state of the codings after one more coding.
fn coding_after(was: Codings, coding: &[u8]) -> Codings
    ensures { result ≡ coding_after was coding.now }
{
    let is_chunked = is_chunked(coding);
    match was {
        Codings::Absent if is_chunked => Codings::Chunked,
        Codings::Others if is_chunked => Codings::Behind,
        Codings::Absent | Codings::Others if !coding.is_empty() => Codings::Others,
        _ => Codings::Bad,
    }
}

// Returns the state of the codings after the elements of one more value.
fn codings_in(value: &str, was: Codings) -> Codings
    ensures { result ≡ codings_on was (between_commas value.now) }
{
    let mut codings = was;
    for text in value.split(',') {
        codings = coding_after(codings, trim(text));
    }
    codings
}

// Returns the state of the codings after all `Transfer-Encoding` fields.
fn codings_of(headers: &[Header]) -> Codings
    ensures { result ≡ codings_on Absent (elements_of (codes "Transfer-Encoding") headers.now) }
{
    let mut codings = Codings::Absent;
    for header in headers {
        if header.field.equiv("Transfer-Encoding") {
            codings = codings_in(header.value.as_str(), codings);
        }
    }
    codings
}

// Returns the content length, if there is one, and whether the body is chunked. Fails if the framing is invalid or a
// coding is unknown.
fn body_of(version: HTTPVersion, headers: &[Header]) -> Result<(Option<usize>, bool), HeadError>
    ensures { result ≡ body_by version (codings_on Absent (elements_of (codes "Transfer-Encoding") headers.now))
        (one_length (elements_of (codes "Content-Length") headers.now)) }
{
    let Ok(length) = one_length(headers, Blanks::SpaceAndTab) else {
        return Err(HeadError::InvalidHead);
    };
    let codings = codings_of(headers);
    if codings == Codings::Absent {
        return Ok((length, false));
    }
    if is_1_0(version) || length.is_some() {
        return Err(HeadError::InvalidHead);
    }
    match codings {
        Codings::Chunked => Ok((None, true)),
        Codings::Behind => Err(HeadError::UnknownCoding),
        _ => Err(HeadError::InvalidHead),
    }
}

// Returns whether the version is 1.0.
fn is_1_0(version: HTTPVersion) -> bool
    ensures { result ≡ is_1_0 version }
{
    version.0 == 1 && version.1 == 0
}

// Returns whether a body follows.
fn has_body(length: Option<usize>, is_chunked: bool) -> bool
    ensures { result ≡ has_body length is_chunked }
{
    match length {
        Some(n) => n > 0,
        None => is_chunked,
    }
}

// Returns whether a 100 (Continue) is due.
fn owes_continue(
    version: HTTPVersion,
    headers: &[Header],
    length: Option<usize>,
    is_chunked: bool,
) -> bool
    ensures { result ≡ owes_continue version headers.now length is_chunked }
{
    !is_1_0(version) && has_body(length, is_chunked) && has(headers, "Expect", Wanted::Continue)
}

// Returns whether the head asks for an upgrade.
fn asks_upgrade(version: HTTPVersion, headers: &[Header]) -> bool
    ensures { result ≡ asks_upgrade version headers.now }
{
    !is_1_0(version)
        && has(headers, "Connection", Wanted::Upgrade)
        && has(headers, "Upgrade", Wanted::Protocol)
}

// Returns whether the element is this protocol, case-insensitively.
fn is_protocol_named(protocol: &str, element: &[u8]) -> bool
    ensures { result ≡ is_protocol_named protocol.now element.now }
{
    is_protocol(element) && element.eq_ignore_ascii_case(protocol.as_bytes())
}

// Returns whether some element of the value is this protocol, case-insensitively.
fn names_in(value: &str, protocol: &str) -> bool
    ensures { result ≡ list_any (is_protocol_named protocol.now) (between_commas value.now) }
{
    for text in value.split(',') {
        if is_protocol_named(protocol, trim(text)) {
            return true;
        }
    }
    false
}

/// Returns whether the `Upgrade` fields list this protocol, case-insensitively, as a whole element (RFC 9110, section
/// 7.8). An element with a percent sign is ignored, and so is one that is neither a token nor two tokens separated by a
/// slash.
pub fn names_protocol(headers: &[Header], protocol: &str) -> bool
    ensures { result ≡ names_protocol headers.now protocol.now }
{
    for header in headers {
        if header.field.equiv("Upgrade") && names_in(header.value.as_str(), protocol) {
            return true;
        }
    }
    false
}

/// Returns whether the `TE` fields of a request, which form one list, ask for chunks (RFC 9110, sections 5.3, 5.6.1.2
/// and 10.1.4). An element asks for chunks if its coding is `chunked`, case-insensitively, and it has no weight or one
/// that isn't zero.
///
/// The weight is the first parameter that begins with `q=` or `Q=` (RFC 9110, section 12.4.2). Zero is `0`, `0.`,
/// `0.0`, `0.00` or `0.000`; any other value, even one that isn't a number, asks for chunks. All other parameters and
/// empty elements are ignored. A comma or semicolon is a separator even inside a quoted string.
pub fn asks_chunked(headers: &[Header]) -> bool
    ensures { result ≡ asks_chunked headers.now }
{
    has(headers, "TE", Wanted::Chunks)
}

// Returns whether the head makes this the last request of the connection.
fn is_last(version: HTTPVersion, method: &Method, headers: &[Header]) -> bool
    ensures { result ≡ is_last version method.now headers.now }
{
    if has(headers, "Connection", Wanted::Close) {
        return true;
    }
    if is_1_0(version) && !has(headers, "Connection", Wanted::KeepAlive) {
        return true;
    }
    method.as_str() == "CONNECT"
}

/// Validates a head whose lines are valid, and returns its summary.
///
/// The checks are made in the order of `HeadError`: the version, the host and the body's framing, the transfer codings,
/// and finally the expectations. Each minor version after 1.0 counts as 1.1.
pub fn validate(
    version: HTTPVersion,
    method: &Method,
    headers: &[Header],
) -> Result<HeadSummary, HeadError>
    ensures { Validates version method.now headers.now result }
{
    if version.0 != 1 {
        return Err(HeadError::UnsupportedVersion);
    }
    if !has_valid_host(version, headers) {
        return Err(HeadError::InvalidHead);
    }
    let (body_length, is_chunked) = match body_of(version, headers) {
        Ok(body) => body,
        Err(refusal) => return Err(refusal),
    };
    if has(headers, "Expect", Wanted::UnknownExpectation) {
        return Err(HeadError::UnknownExpectation);
    }
    Ok(HeadSummary {
        body_length,
        is_chunked,
        owes_continue: owes_continue(version, headers, body_length, is_chunked),
        asks_upgrade: asks_upgrade(version, headers),
        is_last: is_last(version, method, headers),
    })
}
