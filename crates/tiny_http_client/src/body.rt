//! The body of a response, as a client reads it.
ghost use Rattle.std.specs.Prelude.{◌≡◌, ◌&&◌, codes, Err, IfOk, IfErr};
ghost use Rattle.std.specs.Option.{option_copied};
ghost use Rattle.tiny_http_head.specs.Common.{same_name};
ghost use Rattle.tiny_http_client.specs.ClientAnswer.{has_no_body, says_chunked, content_length, first_value, extent};
ghost use Rattle.tiny_http_client.specs.ClientAnswer.{BeginsWithBody, LacksBody, OfChunks, OfLength};
ghost use Rattle.tiny_http_client.specs.AnswerParts.{head_of, LacksBy, chunk_fault, WantsMemory};

use crate::head::{Fault, HeadParts};
use crate::rest::Rest;
use std::alloc::Global;
use std::io::ErrorKind;
use tiny_http_body::chunked::Decoding;
use tiny_http_head::common::{Header, Method, StatusCode};
use tiny_http_head::content_length::number_in;
use tiny_http_text::ascii::AsciiString;

// The maximum number of bytes of a chunked body that are decoded at a time.
const PIECE: usize = 1024;

// Returns whether no body follows the head. That is so only after a 204, a 304, and any response to a `HEAD`.
fn has_no_body(method: &Method, status: StatusCode) -> bool
    ensures { result ≡ has_no_body method.now status.0 }
{
    match method {
        Method::Head => true,
        _ => status.is(204) || status.is(304),
    }
}

// Returns whether the header is `Transfer-Encoding: chunked`, ignoring letter case.
fn is_chunked(header: &Header) -> bool
    ensures { result
        ≡ (same_name header.now.field (codes "Transfer-Encoding") && same_name header.now.value (codes "chunked")) }
{
    header.field.equiv("Transfer-Encoding") && header.value.eq_ignore_ascii_case("chunked")
}

// Returns whether some header is `Transfer-Encoding: chunked`.
#[tactic(auto, unfolding(crate::specs::ClientAnswer::says_chunked))]
fn says_chunked(headers: &[Header]) -> bool
    ensures { result ≡ says_chunked headers.now }
{
    headers.iter().any(|header| is_chunked(header))
}

// Returns the value of the first header with this name.
fn first_value<'a>(headers: &'a [Header], name: &str) -> Option<&'a AsciiString>
    ensures { option_copied result ≡ first_value name.now headers.now }
{
    for header in headers {
        if header.field.equiv(name) {
            return Some(&header.value);
        }
    }
    None
}

// Returns the length in the first `Content-Length`, if there is one and its value is one or more digits and below 2^64.
fn content_length(headers: &[Header]) -> Option<usize>
    ensures { result ≡ content_length headers.now }
{
    number_in(first_value(headers, "Content-Length")?.as_str().as_bytes())
}

// Converts the kind of a decoding error: `InvalidData` means malformed, and any other kind means that the bytes end too
// early.
fn chunk_fault(kind: ErrorKind) -> Fault
    ensures { result ≡ chunk_fault kind }
{
    match kind {
        ErrorKind::InvalidData => Fault::Malformed,
        _ => Fault::Unfinished,
    }
}

// Reads a chunked body, and returns its data.
fn read_chunks(alloc: Global, rest: &mut Rest<'_>) -> Result<Vec<u8>, Fault>
    ensures read { IfOk result (λ body. BeginsWithBody OfChunks rest.old body.items rest.new) }
    ensures lacks { IfErr result (LacksBy (LacksBody OfChunks rest.old)) }
    ensures memory { result ≡ Err Fault.Memory → WantsMemory OfChunks rest.old }
{
    let mut decoding = Decoding::new();
    let mut body = Vec::new(alloc);
    let mut piece = [0u8; PIECE];
    loop {
        match decoding.read(rest, &mut piece) {
            Ok(0) => return Ok(body),
            Ok(n) => body.extend_from_slice(&piece[..n])?,
            Err(e) => return Err(chunk_fault(e.kind())),
        }
    }
}

// Reads a body of `length` bytes.
fn read_counted(alloc: Global, length: usize, rest: &mut Rest<'_>) -> Result<Vec<u8>, Fault>
    ensures read { IfOk result (λ body. BeginsWithBody (OfLength length) rest.old body.items rest.new) }
    ensures lacks { IfErr result (LacksBy (LacksBody (OfLength length) rest.old)) }
    ensures memory { result ≡ Err Fault.Memory → WantsMemory (OfLength length) rest.old }
{
    match rest.take(length) {
        Some(bytes) => Ok(bytes.to_vec(alloc)?),
        None => Err(Fault::Unfinished),
    }
}

/// Reads the body that follows a head. The request's method and the head determine the body's extent. Fails with
/// `Malformed` if a chunked body is malformed, and also if a body must follow and the head states neither chunks nor a
/// valid length.
pub(crate) fn read_body(
    alloc: Global,
    method: &Method,
    head: &HeadParts,
    rest: &mut Rest<'_>,
) -> Result<Vec<u8>, Fault>
    ensures read { IfOk result
        (λ body. BeginsWithBody (extent method.now (head_of head.now)) rest.old body.items rest.new) }
    ensures lacks { IfErr result (LacksBy (LacksBody (extent method.now (head_of head.now)) rest.old)) }
    // Fails with `Memory` only once all bytes that a `Content-Length` states, or the first data of a chunk, have
    // arrived.
    ensures memory { result ≡ Err Fault.Memory → WantsMemory (extent method.now (head_of head.now)) rest.old }
{
    if has_no_body(method, head.status) {
        return Ok(Vec::new(alloc));
    }
    if says_chunked(head.headers.as_slice()) {
        return read_chunks(alloc, rest);
    }
    match content_length(head.headers.as_slice()) {
        Some(length) => read_counted(alloc, length, rest),
        None => Err(Fault::Malformed),
    }
}
