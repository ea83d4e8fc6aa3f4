//! Reading a head line by line.
ghost use Rattle.std.specs.Prelude.{◌≡◌, ◌≢◌, None, Some, Err, OnOk, IfErr};
ghost use Rattle.tiny_http_io.specs.Source.{GoesOn, IsWithin, IsAtEnd, IsCutOff};
ghost use Rattle.tiny_http_open_request.specs.HeadReads.{IsBadLine, StartIn, FieldIn, FindsText, ReadsStart};
ghost use Rattle.tiny_http_open_request.specs.HeadReads.{ReadsField, ReadsFields, ReadsMessage, head_fault};
ghost use Rattle.tiny_http_open_request.specs.HeadReads.{left_after};

use std::alloc::Global;
use tiny_http_head::common::{HTTPVersion, Header, Method};
use tiny_http_head::grammar::{parse_header_line, parse_request_line};
use tiny_http_io::device::ReadDevice;
use tiny_http_io::source::{FirstLine, LineFault, Source};
use tiny_http_text::ascii::AsciiString;
use tiny_http_text::bytes::are_ascii;

/// The method, target, version and headers of a head.
#[derive(Drop)]
pub(crate) struct MessageHead {
    pub method: Method,
    pub path: AsciiString,
    pub version: HTTPVersion,
    pub headers: Vec<Header>,
}

/// The reason why the next line of a head can't be read.
#[derive(Clone, Copy, Debug, PartialEq, Eq)]
pub(crate) enum HeadFault {
    Cut,
    TooLarge,
    NotAscii,
    Malformed,
    Memory,
}

fn head_fault(fault: LineFault) -> HeadFault
    ensures { result ≡ head_fault fault }
{
    match fault {
        LineFault::NotAscii => HeadFault::NotAscii,
        LineFault::TooLong => HeadFault::TooLarge,
        LineFault::Memory => HeadFault::Memory,
        _ => HeadFault::Cut,
    }
}

// Finds the next line within the limit. The line is then either still in the source's buffer, or consumed.
fn find_text_line<R: ReadDevice>(
    alloc: Global,
    source: &mut Source<R>,
    left: Option<usize>,
) -> Result<FirstLine, HeadFault>
    ensures finds { FindsText left source.old.feed source.new.feed source.new.held source.new.skip result }
    ensures goes_on { GoesOn source.old.feed source.new.feed }
    ensures cut { result ≡ Err HeadFault.Cut → IsCutOff source.old source.new }
    ensures lazy { OnOk result (source.new.stop ≡ source.old.stop) }
    ensures input_state { source.new.input_state ≡ source.old.input_state }
    ensures at_end { IsAtEnd source.old → left ≢ Some 0 → (result ≡ Err HeadFault.Cut) × (source.new ≡ source.old) }
{
    match source.find_line(alloc, left) {
        Ok(line) => Ok(line),
        Err(fault) => Err(head_fault(fault)),
    }
}

// Returns what is left of the limit after a line of `n` bytes and its CR LF.
fn left_after(n: usize, left: Option<usize>) -> Option<usize>
    requires { IsWithin left n }
    ensures { result ≡ left_after n left }
{
    match left {
        Some(left) => Some(left - n - 2),
        None => None,
    }
}

// Parses a request line.
fn start_in(alloc: Global, text: &[u8]) -> Result<(Method, AsciiString, HTTPVersion), HeadFault>
    ensures { StartIn text.now result }
{
    if !are_ascii(text) {
        return Err(HeadFault::NotAscii);
    }
    match parse_request_line(alloc, text) {
        Ok(Some(start)) => Ok(start),
        Ok(None) => Err(HeadFault::Malformed),
        Err(_) => Err(HeadFault::Memory),
    }
}

// Reads the request line, within the limit.
fn read_start<R: ReadDevice>(
    alloc: Global,
    source: &mut Source<R>,
    left: &mut Option<usize>,
) -> Result<(Method, AsciiString, HTTPVersion), HeadFault>
    ensures reads { ReadsStart left.old left.new source.old.feed source.new.feed result }
    ensures goes_on { GoesOn source.old.feed source.new.feed }
    ensures cut { result ≡ Err HeadFault.Cut → IsCutOff source.old source.new }
    ensures lazy { OnOk result (source.new.stop ≡ source.old.stop) }
    ensures passed { IfErr result (λ fault. IsBadLine fault → source.new.stop ≡ source.old.stop) }
    ensures input_state { source.new.input_state ≡ source.old.input_state }
    ensures at_end { IsAtEnd source.old → left.old ≢ Some 0 → (result ≡ Err HeadFault.Cut) × (source.new ≡ source.old) }
{
    match find_text_line(alloc, source, *left)? {
        FirstLine::Taken(text) => {
            *left = left_after(text.len(), *left);
            start_in(alloc, text.as_slice())
        }
        FirstLine::Held(n) => {
            *left = left_after(n, *left);
            let start = start_in(alloc, &source.held()[..n]);
            source.pass_line(n);
            start
        }
    }
}

// Parses a header line, or returns `None` for the empty line.
fn field_in(alloc: Global, text: &[u8]) -> Result<Option<Header>, HeadFault>
    ensures { FieldIn text.now result }
{
    if text.is_empty() {
        return Ok(None);
    }
    if !are_ascii(text) {
        return Err(HeadFault::NotAscii);
    }
    match parse_header_line(alloc, text) {
        Ok(Some(header)) => Ok(Some(header)),
        Ok(None) => Err(HeadFault::Malformed),
        Err(_) => Err(HeadFault::Memory),
    }
}

// Reads the next header within the limit, or returns `None` at the empty line.
fn read_field<R: ReadDevice>(
    alloc: Global,
    source: &mut Source<R>,
    left: &mut Option<usize>,
) -> Result<Option<Header>, HeadFault>
    ensures reads { ReadsField left.old left.new source.old.feed source.new.feed result }
    ensures goes_on { GoesOn source.old.feed source.new.feed }
    ensures cut { result ≡ Err HeadFault.Cut → IsCutOff source.old source.new }
    ensures lazy { OnOk result (source.new.stop ≡ source.old.stop) }
    ensures passed { IfErr result (λ fault. IsBadLine fault → source.new.stop ≡ source.old.stop) }
    ensures input_state { source.new.input_state ≡ source.old.input_state }
{
    match find_text_line(alloc, source, *left)? {
        FirstLine::Taken(text) => {
            *left = left_after(text.len(), *left);
            field_in(alloc, text.as_slice())
        }
        FirstLine::Held(n) => {
            *left = left_after(n, *left);
            let field = field_in(alloc, &source.held()[..n]);
            source.pass_line(n);
            field
        }
    }
}

// Reads the headers up to the empty line, within the limit.
fn read_fields<R: ReadDevice>(
    alloc: Global,
    source: &mut Source<R>,
    left: &mut Option<usize>,
) -> Result<Vec<Header>, HeadFault>
    ensures reads { ReadsFields (λ hs. hs.items) left.old left.new source.old.feed source.new.feed result }
    ensures goes_on { GoesOn source.old.feed source.new.feed }
    ensures cut { result ≡ Err HeadFault.Cut → IsCutOff source.old source.new }
    ensures lazy { OnOk result (source.new.stop ≡ source.old.stop) }
    ensures passed { IfErr result (λ fault. IsBadLine fault → source.new.stop ≡ source.old.stop) }
    ensures input_state { source.new.input_state ≡ source.old.input_state }
{
    let mut headers = Vec::new(alloc);
    loop {
        match read_field(alloc, source, left) {
            Ok(Some(header)) => {
                if headers.push(header).is_err() {
                    return Err(HeadFault::Memory);
                }
            }
            Ok(None) => return Ok(headers),
            Err(fault) => return Err(fault),
        }
    }
}

/// Reads a complete head, including its empty line, of at most `limit` bytes if a limit is given. Fails with the fault,
/// and with the head's version if the request line was read.
pub(crate) fn read_message<R: ReadDevice>(
    alloc: Global,
    source: &mut Source<R>,
    limit: Option<usize>,
) -> Result<MessageHead, (Option<HTTPVersion>, HeadFault)>
    ensures reads { ReadsMessage limit source.old.feed source.new.feed result }
    ensures goes_on { GoesOn source.old.feed source.new.feed }
    ensures cut { IfErr result (λ e. e.1 ≡ HeadFault.Cut → IsCutOff source.old source.new) }
    ensures lazy { OnOk result (source.new.stop ≡ source.old.stop) }
    ensures passed { IfErr result (λ e. IsBadLine e.1 → source.new.stop ≡ source.old.stop) }
    ensures input_state { source.new.input_state ≡ source.old.input_state }
    ensures at_end { IsAtEnd source.old
        → limit ≢ Some 0
        → (result ≡ Err (None, HeadFault.Cut)) × (source.new ≡ source.old) }
{
    let mut left = limit;
    let (method, path, version) = match read_start(alloc, source, &mut left) {
        Ok(start) => start,
        Err(fault) => return Err((None, fault)),
    };
    match read_fields(alloc, source, &mut left) {
        Ok(headers) => Ok(MessageHead {
            method,
            path,
            version,
            headers,
        }),
        Err(fault) => Err((Some(version), fault)),
    }
}
