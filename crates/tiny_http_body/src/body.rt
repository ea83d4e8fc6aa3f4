//! Reading the body of a request from the connection's input.
ghost use Rattle.std.specs.Prelude.{◌≡◌, ◌<◌, ◌≤◌, ◌+◌, ◌==◌, true, false, length, take, drop, Option, Ok, IfOk, OnErr};
ghost use Rattle.std.specs.Option.{option_map};
ghost use Rattle.tiny_http_io.specs.Device.{AnswersStop, Feed, Tells};
ghost use Rattle.tiny_http_io.specs.Source.{GoesOn};
ghost use Rattle.tiny_http_io.specs.ToCome.{skipped};
ghost use Rattle.tiny_http_body.specs.Body.{remaining, IsNewChunked, counted_remaining, is_whole, bytes_left};
ghost use Rattle.tiny_http_body.specs.Body.{remainder, stream_body, is_streaming, body_input_state, ReadsOn};
ghost use Rattle.tiny_http_body.specs.Body.{ReadsRemaining, ReadsBody, ReadsHeld, FillsFromBody, GivesUp};
ghost use Rattle.tiny_http_body.specs.Body.{bytes_given, ends_met};

use crate::chunked::{ChunkRules, Decoding};
use std::io;
use std::io::{Cursor, ErrorKind};
use tiny_http_io::device::{ReadDevice, Stop, read_front};
use tiny_http_io::source::{InputState, Source};

/// Maximum number of unread bytes of a body of known length that are skipped before the next head under `Standard`.
pub const MOST_SKIPPED: usize = 65_536;

/// The remainder of a body when its request is finished.
#[derive(Clone, Copy, Debug, PartialEq, Eq)]
pub enum Remainder {
    /// At most `MOST_SKIPPED` bytes of a body of known length, which can be skipped before the next head. A body that
    /// is in memory or has ended without a fault counts as `Skipped`, too, and so does a body that is the entire rest
    /// of the input, which no head follows.
    Skipped,
    /// More than `MOST_SKIPPED` bytes of a body of known length.
    Long,
    /// An unknown number of bytes: the end of a chunked body hasn't been read, or the body is cut or broken.
    Endless,
}

/// The unread part of a request's body.
#[derive(Drop)]
pub enum UnreadBody {
    /// Nothing is left: each read into a nonempty buffer reports this end or fault.
    Over(Stop),
    /// Bytes that were read with the head.
    WithHead(Cursor<Vec<u8>>),
    /// A number of bytes of the input, not read yet.
    Counted {
        /// The number of bytes left.
        left: usize,
        /// Whether an end of input before the last of these bytes is a fault, rather than the end of the body.
        by_standard: bool,
    },
    /// Chunks of the input.
    Chunked(Decoding),
    /// The entire rest of the input.
    Rest,
}

// Reports the end or the fault after the last byte of a body.
fn report(stop: Stop) -> Result<usize, io::Error>
    ensures { AnswersStop stop result }
{
    match stop {
        Stop::End => Ok(0),
        Stop::Fault(kind) => Err(kind.into()),
    }
}

/// Makes a body of the next `left` bytes of the input. `by_standard` says whether an end of input before the last of
/// these bytes is a fault, rather than the end of the body.
pub fn counted(left: usize, by_standard: bool) -> UnreadBody
    ensures remaining { (feed : Option Feed)
        → remaining result feed ≡ option_map (counted_remaining by_standard left) feed }
    ensures moves { ReadsOn (UnreadBody.Counted left by_standard) 0 false result }
{
    if left == 0 {
        UnreadBody::Over(Stop::End)
    } else {
        UnreadBody::Counted { left, by_standard }
    }
}

/// Makes a chunked body whose first chunk is next in the input. Its lines are read under `ChunkRules::Standard` if
/// `by_standard` is true, and otherwise under `ChunkRules::Lenient`.
pub fn chunked(by_standard: bool) -> UnreadBody
    ensures { IsNewChunked by_standard result }
{
    if by_standard {
        UnreadBody::Chunked(Decoding::new_with(ChunkRules::Standard))
    } else {
        UnreadBody::Chunked(Decoding::new_with(ChunkRules::Lenient))
    }
}

impl UnreadBody {
    // Reads some bytes of a body of known length. No head follows a body that is cut.
    fn read_counted<R: ReadDevice>(
        &mut self,
        source: &mut Source<R>,
        left: usize,
        by_standard: bool,
        buf: &mut [u8],
    ) -> Result<usize, io::Error>
        requires counted { self.old ≡ UnreadBody.Counted left by_standard }
        requires room { 0 < length buf.old }
        ensures reads { ReadsRemaining self.old self.new source.old source.new result buf.new }
        ensures broken { OnErr result (ReadsOn self.old 0 true self.new) }
        ensures stop_count { Tells (R.stop_count source.old.reader) (R.stop_count source.new.reader) result }
        ensures whole { R.stop_count source.new.reader
            ≤ R.stop_count source.old.reader + ends_met self.old (bytes_given result) self.new }
    {
        if left == 0 {
            *self = UnreadBody::Over(Stop::End);
            return Ok(0);
        }
        match read_front(source, left, buf) {
            Ok(0) => {
                source.end();
                if by_standard {
                    *self = UnreadBody::Over(Stop::Fault(ErrorKind::UnexpectedEof));
                    return Err(ErrorKind::UnexpectedEof.into());
                }
                *self = UnreadBody::Over(Stop::End);
                Ok(0)
            }
            Ok(n) => {
                *self = counted(left - n, by_standard);
                Ok(n)
            }
            Err(e) => {
                source.end();
                *self = UnreadBody::Over(Stop::Fault(e.kind()));
                Err(e)
            }
        }
    }

    // Reads some data of a chunked body. No head follows a body that is cut or broken.
    fn read_chunked<R: ReadDevice>(
        &mut self,
        source: &mut Source<R>,
        decoding: Decoding,
        buf: &mut [u8],
    ) -> Result<usize, io::Error>
        requires chunked { self.old ≡ UnreadBody.Chunked decoding }
        requires room { 0 < length buf.old }
        ensures reads { ReadsRemaining self.old self.new source.old source.new result buf.new }
        ensures stop_count { Tells (R.stop_count source.old.reader) (R.stop_count source.new.reader) result }
        ensures whole { R.stop_count source.new.reader
            ≤ R.stop_count source.old.reader + ends_met self.old (bytes_given result) self.new }
    {
        let mut decoding = decoding;
        match decoding.read(source, buf) {
            Ok(0) => {
                // The input goes on after the body, so the source isn't ended.
                *self = UnreadBody::Over(Stop::End);
                Ok(0)
            }
            Ok(n) => {
                *self = UnreadBody::Chunked(decoding);
                Ok(n)
            }
            Err(e) => {
                source.end();
                *self = UnreadBody::Over(Stop::Fault(e.kind()));
                Err(e)
            }
        }
    }

    // Reads some bytes of a body that is the entire rest of the input.
    fn read_rest<R: ReadDevice>(
        &mut self,
        source: &mut Source<R>,
        buf: &mut [u8],
    ) -> Result<usize, io::Error>
        requires rest { self.old ≡ UnreadBody.Rest }
        requires room { 0 < length buf.old }
        ensures reads { ReadsRemaining self.old self.new source.old source.new result buf.new }
        ensures stop_count { Tells (R.stop_count source.old.reader) (R.stop_count source.new.reader) result }
        ensures whole { R.stop_count source.new.reader
            ≤ R.stop_count source.old.reader + ends_met self.old (bytes_given result) self.new }
    {
        match source.read_in(buf) {
            Ok(0) => {
                source.end();
                *self = UnreadBody::Over(Stop::End);
                Ok(0)
            }
            Ok(n) => Ok(n),
            Err(e) => {
                source.end();
                *self = UnreadBody::Over(Stop::Fault(e.kind()));
                Err(e)
            }
        }
    }

    /// Reads some bytes of the body into the front of `buf` and returns how many: 0 at the end, or if `buf` is empty.
    /// After the last byte each read into a nonempty `buf` reports the end, or the fault that cut or broke the body.
    /// After a fault, no head can be read from the source.
    pub fn read<R: ReadDevice>(
        &mut self,
        source: &mut Source<R>,
        buf: &mut [u8],
    ) -> Result<usize, io::Error>
        ensures reads { ReadsBody self.old self.new source.old source.new result buf.new }
        // The source's reader reports at most one end or fault, and none if bytes were read.
        ensures stop_count { Tells (R.stop_count source.old.reader) (R.stop_count source.new.reader) result }
        // The source's reader reports an end or fault only if the body is then cut or broken, or is the entire rest of
        // the input.
        ensures whole { R.stop_count source.new.reader
            ≤ R.stop_count source.old.reader + ends_met self.old (bytes_given result) self.new }
    {
        if buf.is_empty() {
            return Ok(0);
        }
        let input_state = source.input_state();
        let read = match self {
            UnreadBody::Over(_) | UnreadBody::WithHead(_) => return self.read_held(buf),
            UnreadBody::Counted { left, by_standard } => {
                let (left, by_standard) = (*left, *by_standard);
                self.read_counted(source, left, by_standard, buf)
            }
            UnreadBody::Chunked(decoding) => {
                let decoding = *decoding;
                self.read_chunked(source, decoding, buf)
            }
            UnreadBody::Rest => self.read_rest(source, buf),
        };
        source.set_input_state(self.input_state_after(input_state));
        read
    }

    /// Reads some bytes of a body that isn't read from the input, as `read` does, but without a source. `buf` must not
    /// be empty.
    pub fn read_held(&mut self, buf: &mut [u8]) -> Result<usize, io::Error>
        requires held { is_streaming self.old ≡ false }
        requires room { 0 < length buf.old }
        ensures { ReadsHeld self.old self.new result buf.new }
    {
        match self {
            UnreadBody::Over(stop) => report(*stop),
            UnreadBody::WithHead(bytes) => bytes.read_in(buf),
            UnreadBody::Counted { .. } | UnreadBody::Chunked(_) | UnreadBody::Rest =>
                unreachable!(),
        }
    }

    // Returns the input state after a read, given the state before it. `self` is the body after the read.
    fn input_state_after(&self, input_state: InputState) -> InputState
        ensures { result ≡ body_input_state self.now input_state }
    {
        match self {
            UnreadBody::Over(Stop::End) | UnreadBody::WithHead(_) => input_state.after_body(),
            UnreadBody::Over(Stop::Fault(kind)) => input_state.after_fault(*kind),
            UnreadBody::Counted { .. } | UnreadBody::Chunked(_) | UnreadBody::Rest => input_state,
        }
    }

    // Reads some bytes into the buffer, starting at index `at`.
    fn read_behind<R: ReadDevice>(
        &mut self,
        source: &mut Source<R>,
        buf: &mut [u8],
        at: usize,
    ) -> Result<usize, io::Error>
        requires { at < length buf.old }
        ensures bound { IfOk result (λ n. at + n ≤ length buf.new) }
        ensures room { at < length buf.new }
        ensures front { take at buf.new ≡ take at buf.old }
        ensures reads { ReadsBody self.old self.new source.old source.new result (drop at buf.new) }
        ensures stop_count { Tells (R.stop_count source.old.reader) (R.stop_count source.new.reader) result }
        ensures whole { R.stop_count source.new.reader
            ≤ R.stop_count source.old.reader + ends_met self.old (bytes_given result) self.new }
    {
        self.read(source, &mut buf[at..])
    }

    /// Reads until `buf` is full or no byte is left, and returns how many bytes were read. A fault before the first
    /// byte is reported; a later one is reported by the next read.
    pub fn fill<R: ReadDevice>(
        &mut self,
        source: &mut Source<R>,
        buf: &mut [u8],
    ) -> Result<usize, ErrorKind>
        ensures bound { IfOk result (λ n. n ≤ length buf.new) }
        ensures fills { FillsFromBody self.old source.old.feed self.new source.new.feed result buf.new }
        ensures settled { is_streaming self.old ≡ false → source.new ≡ source.old }
        ensures goes_on { GoesOn source.old.feed source.new.feed }
        ensures input_state { is_streaming self.old ≡ true
            → source.new.input_state ≡ body_input_state self.new source.old.input_state }
        // The source's reader reports at most one end or fault, and none if the buffer was filled.
        ensures stop_count { R.stop_count source.new.reader ≤ R.stop_count source.old.reader + 1 }
        ensures lazy { IfOk result
            (λ n. n ≡ length buf.new → R.stop_count source.new.reader ≤ R.stop_count source.old.reader) }
        // The source's reader reports an end or fault only if the body is then cut or broken, or is the entire rest of
        // the input.
        ensures whole { R.stop_count source.new.reader
            ≤ R.stop_count source.old.reader + ends_met self.old (bytes_given result) self.new }
    {
        let mut at = 0;
        while at < buf.len() {
            match self.read_behind(source, buf, at) {
                Ok(0) => break,
                Ok(n) => at += n,
                Err(e) => {
                    if at == 0 {
                        return Err(e.kind());
                    }
                    break;
                }
            }
        }
        Ok(at)
    }

    /// Returns whether the body is still read from the input, whose next bytes are then the body's.
    pub fn holds_reader(&self) -> bool
        ensures { result ≡ is_streaming self.now }
    {
        !matches!(self, UnreadBody::Over(_) | UnreadBody::WithHead(_))
    }

    /// Returns the remainder that the body would have if its request were finished now.
    pub fn remainder(&self) -> Remainder
        ensures { result ≡ remainder self.now }
    {
        match self {
            UnreadBody::Counted { left, .. } if *left > MOST_SKIPPED => Remainder::Long,
            UnreadBody::Chunked(_) | UnreadBody::Over(Stop::Fault(_)) => Remainder::Endless,
            _ => Remainder::Skipped,
        }
    }

    /// Returns the number of bytes left to read, if it is known: for a body of known length that isn't broken, and for
    /// a body that has reached its end. Fewer arrive if the client's input ends early.
    pub fn left(&self) -> Option<usize>
        ensures { result ≡ bytes_left self.now }
    {
        match self {
            UnreadBody::Over(Stop::End) => Some(0),
            UnreadBody::WithHead(bytes) => {
                let position = bytes.position() as usize;
                Some(bytes.get_ref().len().saturating_sub(position))
            }
            UnreadBody::Counted { left, .. } => Some(*left),
            UnreadBody::Over(Stop::Fault(_)) | UnreadBody::Chunked(_) | UnreadBody::Rest => None,
        }
    }

    /// Returns whether nothing more is read from the input for this body, and no fault ended it.
    pub fn is_whole(&self) -> bool
        ensures { result ≡ is_whole self.now }
    {
        matches!(self, UnreadBody::Over(Stop::End) | UnreadBody::WithHead(_))
    }

    /// Turns the body into the stream of an upgraded connection: all further input if `by_standard` is true, and
    /// otherwise still the body of the request.
    pub fn become_stream(&mut self, by_standard: bool)
        ensures { self.new ≡ stream_body by_standard self.old }
    {
        if by_standard {
            *self = UnreadBody::Rest;
        }
    }

    /// Discards the rest of the body. The rest of a body with a `Content-Length` is skipped before the next head. After
    /// a chunked body whose end or fault hasn't been reported, no head follows. For any other body the source is
    /// unchanged, even if the body is the entire rest of the input.
    pub fn give_up<R: ReadDevice>(&mut self, source: &mut Source<R>)
        ensures over { self.new ≡ UnreadBody.Over Stop.End }
        ensures gives_up { GivesUp self.old source.old source.new }
    {
        let input_state = source.input_state();
        match self {
            UnreadBody::Counted { left, .. } => {
                source.skip(*left);
                source.set_input_state(input_state.after_body());
            }
            UnreadBody::Chunked(_) => {
                source.end();
                source.set_input_state(input_state.after_abandoned());
            }
            UnreadBody::Over(_) => {}
            UnreadBody::WithHead(_) => {}
            UnreadBody::Rest => {}
        }
        *self = UnreadBody::Over(Stop::End);
    }
}
