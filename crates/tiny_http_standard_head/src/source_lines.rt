//! The lines of a source, each up to its first LF (RFC 9112, section 2.2).
ghost use Rattle.std.specs.Prelude.{◌≡◌, ◌<◌, IfSome, IfNone, IfOk, IfErr, OnOk, true, length, take};
ghost use Rattle.tiny_http_text.specs.Bytes.{HasNo};
ghost use Rattle.tiny_http_io.specs.Source.{GoesOn, IsCutOff};
ghost use Rattle.tiny_http_head.specs.Heads.{line_feed};
ghost use Rattle.tiny_http_standard_head.specs.SourceLines.{EndsLine, TakesLine, FindsLine, HasNoLine, IsCut};

use memchr::memchr;
use std::alloc::Global;
use tiny_http_io::device::ReadDevice;
use tiny_http_io::source::Source;

/// A line that was found, up to its first LF: still in the buffer, or consumed.
#[derive(Drop)]
pub(crate) enum FoundLine {
    /// The whole line is still in the buffer: this number of bytes, then an LF.
    Held(usize),
    /// The line was consumed with its LF. These are its bytes, without the LF.
    Taken(Vec<u8>),
}

/// The reason why no line was found.
#[derive(Clone, Copy, Debug, PartialEq, Eq)]
pub(crate) enum NoLine {
    /// The source stopped before an LF and before the limit.
    Cut {
        /// Whether a byte of the line has arrived.
        has_begun: bool,
    },
    /// The limit was reached without an LF.
    TooLong,
    /// Memory for the line couldn't be allocated.
    Memory,
}

// Returns the position of the first LF, or `None` if there is no LF.
fn find_line_feed(bytes: &[u8]) -> Option<usize>
    ensures some { IfSome result (EndsLine bytes.now) }
    ensures none { IfNone result (HasNo line_feed bytes.now) }
{
    memchr(b'\n', bytes)
}

// Returns the first `limit` bytes, or all bytes if there are fewer.
fn within(bytes: &[u8], limit: usize) -> &[u8]
    ensures { result.now ≡ take limit bytes.now }
{
    &bytes[..bytes.len().min(limit)]
}

// Reads and consumes a line of at most `limit` bytes, including its LF. The first `limit` buffered bytes, or all if
// there are fewer, must contain no LF.
fn take_line<R: ReadDevice>(
    alloc: Global,
    source: &mut Source<R>,
    limit: usize,
) -> Result<Vec<u8>, NoLine>
    requires limit { 0 < limit }
    requires skip { source.old.skip ≡ 0 }
    requires some { 0 < length source.old.held }
    requires begun { HasNo line_feed (take limit source.old.held) }
    ensures takes { IfOk result (λ line. TakesLine limit source.old.feed source.new.feed line.items) }
    ensures none { IfErr result (λ why. HasNoLine limit source.old.feed source.new.feed source.new.held why) }
    ensures cut { IfErr result (λ why. IsCut why → source.new.is_over ≡ true) }
    ensures lazy { OnOk result (source.new.stop ≡ source.old.stop) }
    ensures passed { IfErr result (λ why. (IsCut why → ⊥) → source.new.stop ≡ source.old.stop) }
    ensures input_state { source.new.input_state ≡ source.old.input_state }
{
    let mut line = Vec::new(alloc);
    loop {
        let held = within(source.held(), limit - line.len());
        match find_line_feed(held) {
            Some(n) => {
                if line.extend_from_slice(&held[..n]).is_err() {
                    return Err(NoLine::Memory);
                }
                source.consume(n + 1);
                return Ok(line);
            }
            None => {
                let n = held.len();
                if line.extend_from_slice(held).is_err() {
                    return Err(NoLine::Memory);
                }
                source.consume(n);
            }
        }
        if line.len() >= limit {
            return Err(NoLine::TooLong);
        }
        if !source.has_byte() {
            return Err(NoLine::Cut {
                has_begun: !line.is_empty(),
            });
        }
    }
}

/// Finds the next line, within `limit` bytes including its LF. A line that is entirely in the buffer stays there, to be
/// parsed in place without an allocation. Any other line is read and consumed, with its LF.
pub(crate) fn find_line<R: ReadDevice>(
    alloc: Global,
    source: &mut Source<R>,
    limit: usize,
) -> Result<FoundLine, NoLine>
    ensures finds { IfOk result
        (λ line. FindsLine limit source.old.feed source.new.feed source.new.held source.new.skip line) }
    ensures none { IfErr result (λ why. HasNoLine limit source.old.feed source.new.feed source.new.held why) }
    ensures goes_on { GoesOn source.old.feed source.new.feed }
    ensures cut { IfErr result (λ why. IsCut why → IsCutOff source.old source.new) }
    ensures lazy { OnOk result (source.new.stop ≡ source.old.stop) }
    ensures passed { IfErr result (λ why. (IsCut why → ⊥) → source.new.stop ≡ source.old.stop) }
    ensures input_state { source.new.input_state ≡ source.old.input_state }
{
    if limit == 0 {
        return Err(NoLine::TooLong);
    }
    if !source.has_byte() {
        return Err(NoLine::Cut { has_begun: false });
    }
    if let Some(n) = find_line_feed(within(source.held(), limit)) {
        return Ok(FoundLine::Held(n));
    }
    match take_line(alloc, source, limit) {
        Ok(line) => Ok(FoundLine::Taken(line)),
        Err(why) => Err(why),
    }
}
