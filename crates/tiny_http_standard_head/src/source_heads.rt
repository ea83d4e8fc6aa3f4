//! Parsing of whole heads from a source, under `Standard` (RFC 9112, sections 2.2, 3 and 5).
ghost use Rattle.std.specs.Prelude.{◌≡◌, ◌+◌, ◌<◌, ◌≤◌, ◌++◌, ◌∷◌, [], IsTrue, Ok, Err, None, IfSome, IfNone, IfOk};
ghost use Rattle.std.specs.Prelude.{IfErr, OnOk, OnErr};
ghost use Rattle.tiny_http_text.specs.Bytes.{crlf, has_bare_end};
ghost use Rattle.tiny_http_io.specs.Device.{prepended};
ghost use Rattle.tiny_http_io.specs.Source.{GoesOn, IsCutOff};
ghost use Rattle.tiny_http_standard_head.specs.Heads.{carriage_return, is_carriage_return};
ghost use Rattle.tiny_http_standard_head.specs.SourceHeads.{RequestIn, FieldIn, ReadsRequest, ReadsField, ReadsStart};
ghost use Rattle.tiny_http_standard_head.specs.SourceHeads.{ReadsFields, ReadsFrom, IsValidated, no_head};
ghost use Rattle.tiny_http_standard_head.specs.SourceHeads.{IsWithoutHead};
ghost use Rattle.tiny_http_standard_head.specs.SourceHeads.{IsUnfinished, IsUnfinishedRead, LacksMemory};
ghost use Rattle.tiny_http_standard_head.specs.SourceHeads.{LacksMemoryAtStart};
ghost use Rattle.tiny_http_standard_head.specs.Lines.{IsNoRequestLine, IsNoFieldLine};

use crate::heads::{MOST_HEADERS, StandardFault, StandardHead, StandardRead};
use crate::lines::{parse_field_line, parse_request_line};
use crate::source_lines::{FoundLine, NoLine, find_line};
use crate::validation::validate;
use std::alloc::{AllocError, Global};
use tiny_http_head::common::{HTTPVersion, Header, Method};
use tiny_http_io::device::ReadDevice;
use tiny_http_io::source::Source;
use tiny_http_text::ascii::AsciiString;

// The reason why no head was read.
#[derive(Clone, Copy, Debug, PartialEq, Eq)]
enum NoHead {
    // The head is refused.
    Refused(StandardFault),
    // The source stopped before the end of the head.
    Unfinished { has_begun: bool },
    // Memory couldn't be allocated.
    Memory,
}

// Returns the text of a line before the CR that ends it, or `None` if the line doesn't end with a CR.
fn text_of(line: &[u8]) -> Option<&[u8]>
    ensures some { IfSome result (λ text. line.now ≡ text.now ++ carriage_return ∷ []) }
    ensures none { IfNone result (IsTrue (has_bare_end is_carriage_return line.now)) }
{
    let n = line.len();
    if n == 0 || line[n - 1] != b'\r' {
        return None;
    }
    Some(&line[..n - 1])
}

// Parses a line, given without its LF, as a request line; returns `None` for an empty line. Refuses a malformed line
// with `BadLine`. Fails with `Memory` if memory can't be allocated.
fn request_in(
    alloc: Global,
    line: &[u8],
) -> Result<Option<(Method, AsciiString, HTTPVersion)>, NoHead>
    ensures { RequestIn line.now result }
{
    let Some(text) = text_of(line) else {
        return Err(NoHead::Refused(StandardFault::BadLine));
    };
    if text.is_empty() {
        return Ok(None);
    }
    match parse_request_line(alloc, text) {
        Ok(Some(start)) => Ok(Some(start)),
        Ok(None) => Err(NoHead::Refused(StandardFault::BadLine)),
        Err(_) => Err(NoHead::Memory),
    }
}

// Parses a line, given without its LF, as a field line; returns `None` for the empty line. Refuses a malformed line
// with `BadLine`. Fails with `Memory` if memory can't be allocated.
fn field_in(alloc: Global, line: &[u8]) -> Result<Option<Header>, NoHead>
    ensures { FieldIn line.now result }
{
    let Some(text) = text_of(line) else {
        return Err(NoHead::Refused(StandardFault::BadLine));
    };
    if text.is_empty() {
        return Ok(None);
    }
    match parse_field_line(alloc, text) {
        Ok(Some(header)) => Ok(Some(header)),
        Ok(None) => Err(NoHead::Refused(StandardFault::BadLine)),
        Err(_) => Err(NoHead::Memory),
    }
}

// Converts the reason why no line was found to the reason why no head was read. `too_long` is the fault to report if
// the limit was reached; `later` says whether the request line has already been read.
fn no_head(why: NoLine, too_long: StandardFault, later: bool) -> NoHead
    ensures { result ≡ no_head why too_long later }
{
    match why {
        NoLine::Cut { has_begun } => NoHead::Unfinished {
            has_begun: has_begun || later,
        },
        NoLine::TooLong => NoHead::Refused(too_long),
        NoLine::Memory => NoHead::Memory,
    }
}

// Reads a request line or an empty line, within `left` bytes including its LF, and subtracts its length from `left`.
// Returns `None` for the empty line.
fn read_request<R: ReadDevice>(
    alloc: Global,
    source: &mut Source<R>,
    left: &mut usize,
) -> Result<Option<(Method, AsciiString, HTTPVersion)>, NoHead>
    ensures reads { ReadsRequest left.old left.new source.old.feed source.new.feed result }
    ensures memory { result ≡ Err NoHead.Memory → IfSome source.old.feed
        (λ f. LacksMemory IsNoRequestLine left.old f source.new.feed source.new.held) }
    ensures empty { result ≡ Ok None → (source.old.feed ≡ prepended crlf source.new.feed) × (left.old ≡ left.new + 2) }
    ensures shorter { OnOk result (left.new ≤ left.old) }
    ensures goes_on { GoesOn source.old.feed source.new.feed }
    ensures cut { IfErr result (λ why. IsUnfinished why → IsCutOff source.old source.new) }
    ensures lazy { OnOk result (source.new.stop ≡ source.old.stop) }
    ensures passed { IfErr result (λ why. (IsUnfinished why → ⊥) → source.new.stop ≡ source.old.stop) }
    ensures input_state { source.new.input_state ≡ source.old.input_state }
{
    match find_line(alloc, source, *left) {
        Ok(FoundLine::Taken(line)) => {
            *left -= line.len() + 1;
            request_in(alloc, line.as_slice())
        }
        Ok(FoundLine::Held(n)) => {
            *left -= n + 1;
            let request = request_in(alloc, &source.held()[..n]);
            source.consume(n + 1);
            request
        }
        Err(why) => Err(no_head(why, StandardFault::RequestLineTooLong, false)),
    }
}

// Reads a field line or the empty line, within `left` bytes including its LF, and subtracts its length from `left`.
// Returns `None` for the empty line.
fn read_field<R: ReadDevice>(
    alloc: Global,
    source: &mut Source<R>,
    left: &mut usize,
) -> Result<Option<Header>, NoHead>
    ensures reads { ReadsField left.old left.new source.old.feed source.new.feed result }
    ensures memory { result ≡ Err NoHead.Memory → IfSome source.old.feed
        (λ f. LacksMemory IsNoFieldLine left.old f source.new.feed source.new.held) }
    ensures shorter { OnOk result (left.new < left.old) }
    ensures goes_on { GoesOn source.old.feed source.new.feed }
    ensures cut { IfErr result (λ why. IsUnfinished why → IsCutOff source.old source.new) }
    ensures lazy { OnOk result (source.new.stop ≡ source.old.stop) }
    ensures passed { IfErr result (λ why. (IsUnfinished why → ⊥) → source.new.stop ≡ source.old.stop) }
    ensures input_state { source.new.input_state ≡ source.old.input_state }
{
    match find_line(alloc, source, *left) {
        Ok(FoundLine::Taken(line)) => {
            *left -= line.len() + 1;
            field_in(alloc, line.as_slice())
        }
        Ok(FoundLine::Held(n)) => {
            *left -= n + 1;
            let field = field_in(alloc, &source.held()[..n]);
            source.consume(n + 1);
            field
        }
        Err(why) => Err(no_head(why, StandardFault::HeaderFieldsTooLarge, true)),
    }
}

// Reads the request line, after at most one empty line.
fn read_start<R: ReadDevice>(
    alloc: Global,
    source: &mut Source<R>,
    left: &mut usize,
) -> Result<(Method, AsciiString, HTTPVersion), NoHead>
    ensures reads { ReadsStart left.old left.new source.old.feed source.new.feed result }
    ensures memory { result ≡ Err NoHead.Memory → IfSome source.old.feed
        (λ f. LacksMemoryAtStart left.old f source.new.feed source.new.held) }
    ensures shorter { OnOk result (left.new ≤ left.old) }
    ensures goes_on { GoesOn source.old.feed source.new.feed }
    ensures cut { IfErr result (λ why. IsUnfinished why → IsCutOff source.old source.new) }
    ensures lazy { OnOk result (source.new.stop ≡ source.old.stop) }
    ensures passed { IfErr result (λ why. (IsUnfinished why → ⊥) → source.new.stop ≡ source.old.stop) }
    ensures input_state { source.new.input_state ≡ source.old.input_state }
{
    match read_request(alloc, source, left) {
        Ok(Some(start)) => return Ok(start),
        Ok(None) => {}
        Err(why) => return Err(why),
    }
    match read_request(alloc, source, left) {
        Ok(Some(start)) => Ok(start),
        Ok(None) => Err(NoHead::Refused(StandardFault::BadLine)),
        Err(why) => Err(why),
    }
}

// Reads the field lines and the empty line that ends them.
fn read_fields<R: ReadDevice>(
    alloc: Global,
    source: &mut Source<R>,
    left: &mut usize,
) -> Result<Vec<Header>, NoHead>
    ensures reads { ReadsFields left.old left.new source.old.feed source.new.feed result }
    // `Memory` is reported only if the first line is a valid field line, or isn't entirely in the buffer.
    ensures memory { result ≡ Err NoHead.Memory → IfSome source.old.feed
        (λ f. LacksMemory IsNoFieldLine left.old f source.new.feed source.new.held) }
    ensures shorter { OnOk result (left.new ≤ left.old) }
    ensures goes_on { GoesOn source.old.feed source.new.feed }
    ensures cut { IfErr result (λ why. IsUnfinished why → IsCutOff source.old source.new) }
    ensures lazy { OnOk result (source.new.stop ≡ source.old.stop) }
    ensures passed { IfErr result (λ why. (IsUnfinished why → ⊥) → source.new.stop ≡ source.old.stop) }
    ensures input_state { source.new.input_state ≡ source.old.input_state }
{
    let mut headers = Vec::new(alloc);
    loop {
        match read_field(alloc, source, left) {
            Ok(Some(header)) => {
                if headers.len() >= MOST_HEADERS {
                    return Err(NoHead::Refused(StandardFault::TooManyFields));
                }
                if headers.push(header).is_err() {
                    return Err(NoHead::Memory);
                }
            }
            Ok(None) => return Ok(headers),
            Err(why) => return Err(why),
        }
    }
}

// Converts the reason why no head was read to a result.
fn without_head(why: NoHead) -> Result<StandardRead, AllocError>
    ensures { IsWithoutHead why result }
{
    match why {
        NoHead::Refused(fault) => Ok(StandardRead::Refused(fault)),
        NoHead::Unfinished { has_begun } => Ok(StandardRead::Unfinished { has_begun }),
        NoHead::Memory => Err(AllocError),
    }
}

/// Reads the next head from a source, with at most `limit` bytes and `MOST_HEADERS` field lines. The result is that of
/// `heads::read_head` on all bytes still to come from the source. No byte after the head is consumed; one call to the
/// reader may have buffered some. A line that is entirely in the buffer is parsed in place. A malformed or surplus line
/// is refused as soon as its LF has arrived. `Unfinished` means that the source stopped before the end of the head;
/// nothing more can be read from it. Fails if memory can't be allocated. After a failure or a refusal, the source may
/// be in the middle of the head.
pub fn read_head_from<R: ReadDevice>(
    alloc: Global,
    source: &mut Source<R>,
    limit: usize,
) -> Result<StandardRead, AllocError>
    ensures reads { IfOk result (λ read. ReadsFrom limit source.old.feed source.new.feed read) }
    // Memory is needed only if the request line is valid, or isn't entirely in the buffer.
    ensures memory { OnErr result (IfSome source.old.feed
        (λ f. LacksMemoryAtStart limit f source.new.feed source.new.held)) }
    ensures validated { IfOk result IsValidated }
    ensures goes_on { GoesOn source.old.feed source.new.feed }
    ensures cut { IfOk result (λ read. IsUnfinishedRead read → IsCutOff source.old source.new) }
    ensures lazy { IfOk result (λ read. (IsUnfinishedRead read → ⊥) → source.new.stop ≡ source.old.stop) }
    ensures input_state { source.new.input_state ≡ source.old.input_state }
{
    let mut left = limit;
    let (method, target, version) = match read_start(alloc, source, &mut left) {
        Ok(start) => start,
        Err(why) => return without_head(why),
    };
    let headers = match read_fields(alloc, source, &mut left) {
        Ok(headers) => headers,
        Err(why) => return without_head(why),
    };
    match validate(version, &method, headers.as_slice()) {
        Ok(summary) => Ok(StandardRead::Whole(StandardHead {
            method,
            target,
            version,
            headers,
            summary,
            length: limit - left,
        })),
        Err(refusal) => Ok(StandardRead::Refused(StandardFault::Invalid(refusal))),
    }
}
