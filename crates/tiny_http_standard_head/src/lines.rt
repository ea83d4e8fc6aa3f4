//! The lines of a head under `Standard` (RFC 9112, sections 2.3, 3 and 5).
ghost use Rattle.std.specs.Prelude.{◌≡◌, ◌↔◌, ◌<◌, ◌++◌, IsTrue, IfOk, OnOk, OnErr, IfSome, IfNone, None, Ok};
ghost use Rattle.std.specs.List.{list_all};
ghost use Rattle.std.specs.Char.{is_ascii_graphic};
ghost use Rattle.tiny_http_standard_head.specs.Lines.{IsVersion, IsNoVersion, authority_in, HasScheme};
ghost use Rattle.tiny_http_standard_head.specs.Lines.{IsAbsoluteForm, is_asterisk_form, IsTarget, RequestLine};
ghost use Rattle.tiny_http_standard_head.specs.Lines.{ReadsRequestLine, IsNoRequestLine, must_be_ascii};
ghost use Rattle.tiny_http_standard_head.specs.Lines.{uppercase_hexadecimal_digit, percent_encoded_byte};
ghost use Rattle.tiny_http_standard_head.specs.Lines.{percent_encoded, FieldLine, ReadsFieldLine, IsNoFieldLine};

use crate::hosts::{is_authority, is_host_with_port};
use httparse::{is_header_value, is_token};
use std::alloc::{AllocError, Global};
use tiny_http_head::blanks::trim_space_and_tab;
use tiny_http_head::common::{HTTPVersion, Header, HeaderField, Method, method_of};
use tiny_http_text::ascii::AsciiString;
use tiny_http_text::bytes::{are_ascii, cut, is};
use tiny_http_text::copies::owned;

// Parses a version: `HTTP/`, a digit, a dot and a digit.
fn version_in(text: &[u8]) -> Option<HTTPVersion>
    ensures some { IfSome result (λ v. IsVersion text.now v) }
    ensures none { IfNone result (IsNoVersion text.now) }
{
    let [b'H', b'T', b'T', b'P', b'/', major, b'.', minor] = text else {
        return None;
    };
    if !major.is_ascii_digit() || !minor.is_ascii_digit() {
        return None;
    }
    Some(HTTPVersion(*major - b'0', *minor - b'0'))
}

// Returns the bytes before the first slash or question mark, or all bytes if there is neither.
fn authority_in(text: &[u8]) -> &[u8]
    ensures { result.now ≡ authority_in text.now }
{
    let mut end = 0;
    while end < text.len() && text[end] != b'/' && text[end] != b'?' {
        end += 1;
    }
    &text[..end]
}

// Returns whether the target is in absolute-form with this scheme, which is given with its `://`.
fn has_scheme(scheme: &[u8], target: &[u8]) -> bool
    ensures { IsTrue result ↔ HasScheme scheme.now target.now }
{
    let n = scheme.len();
    if target.len() < n || !target[..n].eq_ignore_ascii_case(scheme) {
        return false;
    }
    is_host_with_port(authority_in(&target[n..]))
}

// Returns whether the target is in absolute-form.
fn is_absolute_form(target: &[u8]) -> bool
    ensures { IsTrue result ↔ IsAbsoluteForm target.now }
{
    has_scheme(b"http://", target) || has_scheme(b"https://", target)
}

// Returns whether the target is in asterisk-form.
fn is_asterisk_form(method: &[u8], target: &[u8]) -> bool
    ensures { result ≡ is_asterisk_form method.now target.now }
{
    is(target, "*") && is(method, "OPTIONS")
}

// Returns whether all bytes are visible ASCII characters, 33 to 126.
fn are_visible(target: &[u8]) -> bool
    ensures { result ≡ list_all is_ascii_graphic target.now }
{
    target.iter().all(|b| b.is_ascii_graphic())
}

// Returns whether the text is a valid target for this method.
fn is_target(method: &[u8], target: &[u8]) -> bool
    ensures { IsTrue result ↔ IsTarget method.now target.now }
{
    if !are_visible(target) {
        return false;
    }
    if is(method, "CONNECT") {
        return is_authority(target);
    }
    target.starts_with(b"/") || is_asterisk_form(method, target) || is_absolute_form(target)
}

// Splits a request line into its method, target and version.
fn split_request_line(text: &[u8]) -> Option<(&[u8], &[u8], HTTPVersion)>
    ensures some { IfSome result (λ r. RequestLine text.now r.0.now r.1.now r.2) }
    ensures none { IfNone result (IsNoRequestLine text.now) }
{
    let Some((method, rest)) = cut(text, b' ') else {
        return None;
    };
    let Some((target, version)) = cut(rest, b' ') else {
        return None;
    };
    let Some(version) = version_in(version) else {
        return None;
    };
    if !is_token(method) || !is_target(method, target) {
        return None;
    }
    Some((method, target, version))
}

/// Parses a request line: a token, a space, the target, a space and the version (RFC 9112, section 3). Returns `None`
/// for any other text. Fails if the text is a request line and memory can't be allocated.
///
/// The target has only bytes 33 to 126. For `CONNECT` it is a host and a port from 1 to 65535 (`hosts::is_authority`).
/// Otherwise it begins with `/`, or is `*` for `OPTIONS`, or begins with `http://` or `https://`, compared
/// case-insensitively, followed up to the next `/` or `?` by a nonempty host, with or without a port
/// (`hosts::is_host_with_port`). The version is `HTTP/`, a digit, a dot and a digit; `validation::validate` checks
/// whether it is supported.
pub fn parse_request_line(
    alloc: Global,
    text: &[u8],
) -> Result<Option<(Method, AsciiString, HTTPVersion)>, AllocError>
    ensures some { IfOk result (λ found. IfSome found (λ r. ReadsRequestLine text.now r.0 r.1 r.2)) }
    ensures none { result ≡ Ok None → IsNoRequestLine text.now }
    ensures validated { OnErr result (IsNoRequestLine text.now → ⊥) }
{
    let Some((method, target, version)) = split_request_line(text) else {
        return Ok(None);
    };
    let method = method_of(alloc, method)?;
    let target = owned(alloc, target)?;
    Ok(Some((method, target, version)))
}

// Returns the hexadecimal digit of a value below 16, in upper case.
fn uppercase_hexadecimal_digit(d: u8) -> u8
    requires { d < 16 }
    ensures { result ≡ uppercase_hexadecimal_digit d }
{
    if d < 10 { b'0' + d } else { b'A' + (d - 10) }
}

// Appends a byte, percent-encoded if it is above 127.
fn push_encoded(bytes: &mut Vec<u8>, b: u8) -> Result<(), AllocError>
    ensures { OnOk result (bytes.new.items ≡ bytes.old.items ++ percent_encoded_byte b) }
{
    if b.is_ascii() {
        bytes.push(b)?;
        return Ok(());
    }
    bytes.push(b'%')?;
    bytes.push(uppercase_hexadecimal_digit(b / 16))?;
    bytes.push(uppercase_hexadecimal_digit(b % 16))?;
    Ok(())
}

// Percent-encodes the bytes above 127, which makes the value ASCII.
fn percent_encoded(alloc: Global, value: &[u8]) -> Result<AsciiString, AllocError>
    ensures { IfOk result (λ s. s ≡ percent_encoded value.now) }
{
    if are_ascii(value) {
        return owned(alloc, value);
    }
    let mut bytes = Vec::new(alloc);
    for b in value {
        push_encoded(&mut bytes, *b)?;
    }
    owned(alloc, bytes.as_slice())
}

// Returns whether bytes above 127 are refused in this field.
fn must_be_ascii(field: &[u8]) -> bool
    ensures { result ≡ must_be_ascii field.now }
{
    field.eq_ignore_ascii_case(b"Host") || field.eq_ignore_ascii_case(b"Transfer-Encoding")
}

// Splits a field line into its name and its value.
fn split_field_line(text: &[u8]) -> Option<(&[u8], &[u8])>
    ensures some { IfSome result (λ r. FieldLine text.now r.0.now r.1.now) }
    ensures none { IfNone result (IsNoFieldLine text.now) }
{
    let Some((field, padded)) = cut(text, b':') else {
        return None;
    };
    if !is_token(field) || !is_header_value(padded) {
        return None;
    }
    let value = trim_space_and_tab(padded);
    if must_be_ascii(field) && !are_ascii(value) {
        return None;
    }
    Some((field, value))
}

/// Parses a field line: a token, a colon directly after it, and the value, stripped of spaces and tabs at both ends
/// (RFC 9112, section 5).
///
/// The value has no byte 0 to 8, 10 to 31 or 127. A byte above 127 is percent-encoded in upper case, so the byte 233
/// and the three bytes `%E9` result in the same value. `Host` and `Transfer-Encoding` must not contain a byte above
/// 127, whatever the version. Returns `None` if the text isn't such a field line. Fails if the text is one and memory
/// can't be allocated.
pub fn parse_field_line(alloc: Global, text: &[u8]) -> Result<Option<Header>, AllocError>
    ensures some { IfOk result (λ found. IfSome found (λ h. ReadsFieldLine text.now h)) }
    ensures none { result ≡ Ok None → IsNoFieldLine text.now }
    ensures validated { OnErr result (IsNoFieldLine text.now → ⊥) }
{
    let Some((field, value)) = split_field_line(text) else {
        return Ok(None);
    };
    let field = HeaderField::from_text(owned(alloc, field)?);
    let value = percent_encoded(alloc, value)?;
    Ok(Some(Header { field, value }))
}
