//! Adding headers to a response (RFC 9110, sections 7.6.1, 7.8 and 8.3; RFC 9112, section 6).
ghost use Rattle.std.specs.Prelude.{◌≡◌, ℕ, Bool, List, Option, ◌≤◌, ◌<◌, ◌+◌, IfErr, OnOk, OnErr, IsTrue, []};
ghost use Rattle.std.specs.Prelude.{length, take, drop, slice_index_or, codes};
ghost use Rattle.tiny_http_response.specs.Answer.{has_header};
ghost use Rattle.tiny_http_response.specs.AddHeader.{is_reserved, is_put_last, is_some_put_last, with_value};
ghost use Rattle.tiny_http_response.specs.ResponseHeaders.{IsResponseHeaders};
ghost use Rattle.tiny_http_response.specs.HeaderPlace.{place_of, answer_of, Adds, AddsAll};

use crate::answer_head::has_header;
use std::mem;
use tiny_http_head::common::{Header, HeaderField};
use tiny_http_head::grammar::parse_content_length;
use tiny_http_text::ascii::AsciiString;

/// The way in which a header is added to a response.
#[derive(Clone, Copy)]
enum Place {
    /// The header is ignored.
    Nowhere,
    /// The header sets the length of the data, in bytes.
    Length(usize),
    /// The value replaces that of the first `Content-Type`.
    ContentType,
    /// The header is appended.
    Last,
}

// Returns whether a header with this name is ignored when it is added.
fn is_reserved(name: &HeaderField) -> bool
    ensures { result ≡ is_reserved name.now }
{
    name.equiv("Connection")
        || name.equiv("Trailer")
        || name.equiv("Transfer-Encoding")
        || name.equiv("Upgrade")
}

// Returns how a header is added to this list.
fn place_of(header: &Header, headers: &[Header]) -> Place
    ensures { result ≡ place_of header.now headers.now }
{
    if is_reserved(&header.field) {
        return Place::Nowhere;
    }
    if header.field.equiv("Content-Length") {
        return match parse_content_length(header.value.as_str()) {
            Some(length) => Place::Length(length),
            None => Place::Nowhere,
        };
    }
    if header.field.equiv("Content-Type") && has_header(headers, "Content-Type") {
        return Place::ContentType;
    }
    Place::Last
}

// Swaps a value with that of the first header with this name, if there is one.
fn replace_value(headers: &mut [Header], name: &str, value: &mut AsciiString)
    ensures { headers.new ≡ with_value name.now value.old headers.old }
{
    for header in headers.iter_mut() {
        if header.field.equiv(name) {
            mem::swap(&mut header.value, value);
            return;
        }
    }
}

/// Adds a header to the list of a response, or sets the length of its data, as `Response::add_header` does. If memory
/// can't be allocated, the error hands back the header, and nothing changes.
pub(crate) fn add(
    headers: &mut Vec<Header>,
    data_length: &mut Option<usize>,
    mut header: Header,
) -> Result<(), Header>
    ensures added { OnOk result (Adds header headers.old.items data_length.old headers.new.items data_length.new) }
    ensures refused { IfErr result (λ h. (h ≡ header)
        × (headers.new.items ≡ headers.old.items)
        × (data_length.new ≡ data_length.old)) }
    ensures memory { OnErr result (IsTrue (is_put_last header headers.old.items)) }
{
    match place_of(&header, headers) {
        Place::Nowhere => Ok(()),
        Place::Length(length) => {
            *data_length = Some(length);
            Ok(())
        }
        Place::ContentType => {
            replace_value(headers, "Content-Type", &mut header.value);
            Ok(())
        }
        Place::Last => headers.push(header).map_err(|refused| refused.value),
    }
}

/// Adds these headers one after another. If memory for a header can't be allocated, the error hands back that header,
/// those before it stay in the list, and the rest are dropped.
pub(crate) fn add_all(
    headers: &mut Vec<Header>,
    data_length: &mut Option<usize>,
    more: Vec<Header>,
) -> Result<(), Header>
    ensures added { OnOk result
        (AddsAll more.items headers.old.items data_length.old headers.new.items data_length.new) }
    ensures law { OnOk result (IsResponseHeaders headers.old.items → IsResponseHeaders headers.new.items) }
    ensures memory { OnErr result
        ((status threshold : ℕ) (closes : Bool) (offered : Option (List ℕ)) (contentless : Bool)
        → IsTrue
        (is_some_put_last more.items
        (answer_of status threshold closes offered contentless headers.old.items data_length.old))) }
{
    for header in more {
        add(headers, data_length, header)?;
    }
    Ok(())
}

// Returns how the header at `at` is added to the first `kept` headers.
fn place_at(headers: &[Header], kept: usize, at: usize) -> Place
    requires order { kept ≤ at }
    requires within { at < length headers.now }
    ensures { (d : Header) → result ≡ place_of (slice_index_or headers.now at d) (take kept headers.now) }
{
    place_of(&headers[at], &headers[..kept])
}

// Replaces the value of the first `Content-Type` among the first `kept` headers with that of the header at `at`.
fn replace_type(headers: &mut [Header], kept: usize, at: usize)
    requires order { kept ≤ at }
    requires within { at < length headers.old }
    ensures front { (d : Header)
        → take kept headers.new ≡ with_value (codes "Content-Type") (slice_index_or headers.old at d).value
        (take kept headers.old) }
    ensures behind { drop (at + 1) headers.new ≡ drop (at + 1) headers.old }
{
    let (front, rest) = headers.split_at_mut(at);
    replace_value(&mut front[..kept], "Content-Type", &mut rest[0].value);
}

// Adds the header at `at` to the first `kept` headers, and returns the new count of these. The headers after `at` are
// unchanged.
fn add_at(headers: &mut [Header], data_length: &mut Option<usize>, kept: usize, at: usize) -> usize
    requires order { kept ≤ at }
    requires within { at < length headers.old }
    ensures bound { result ≤ at + 1 }
    ensures behind { drop (at + 1) headers.new ≡ drop (at + 1) headers.old }
    ensures added { (d : Header)
        → Adds (slice_index_or headers.old at d) (take kept headers.old) data_length.old (take result headers.new)
        data_length.new }
{
    match place_at(headers, kept, at) {
        Place::Nowhere => kept,
        Place::Length(n) => {
            *data_length = Some(n);
            kept
        }
        Place::ContentType => {
            replace_type(headers, kept, at);
            kept
        }
        Place::Last => {
            headers.swap(kept, at);
            kept + 1
        }
    }
}

// Adds all the headers, one after another, to an initially empty list at the front of the slice. Returns the length of
// that list.
fn add_each(headers: &mut [Header], data_length: &mut Option<usize>) -> usize
    ensures bound { result ≤ length headers.new }
    ensures added { AddsAll headers.old [] data_length.old (take result headers.new) data_length.new }
    ensures law { IsResponseHeaders (take result headers.new) }
{
    let mut kept = 0;
    for at in 0..headers.len() {
        kept = add_at(headers, data_length, kept, at);
    }
    kept
}

/// Replaces these headers with the result of adding them one after another to an empty list, in the same allocation.
/// Returns the resulting length of the data.
pub(crate) fn add_in_place(
    headers: &mut Vec<Header>,
    mut data_length: Option<usize>,
) -> Option<usize>
    ensures added { AddsAll headers.old.items [] data_length headers.new.items result }
    ensures law { IsResponseHeaders headers.new.items }
{
    let kept = add_each(headers, &mut data_length);
    headers.truncate(kept);
    data_length
}
