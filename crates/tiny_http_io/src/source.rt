//! The buffered input of a connection: lines and bytes, read through a buffer of fixed size.
ghost use Rattle.std.specs.Prelude.{◌≡◌, true, ◌+◌, ◌-◌, ◌^◌, ◌<◌, ◌≤◌, [], length, Option, None, Some, IsSome};
ghost use Rattle.std.specs.Prelude.{IfSome};
ghost use Rattle.tiny_http_io.specs.Device.{StopsBy, Tells};
ghost use Rattle.tiny_http_io.specs.LineEnds.{EndsLine};
ghost use Rattle.tiny_http_io.specs.ToCome.{skipped, stopped};

use crate::device::{Ahead, ReadAheadDevice, ReadDevice, Stop};
use crate::input::Input;
use std::alloc::{AllocError, Global};
use std::io;
use std::io::{ErrorKind, Read};
use std::marker::Model;
use tiny_http_text::ascii::AsciiString;

/// The reason why no line was returned.
#[derive(Clone, Copy, Debug, PartialEq, Eq)]
pub enum LineFault {
    /// The input ended before a CR LF.
    End,
    /// The line has a byte above 127. The source continues after the line.
    NotAscii,
    /// All bytes up to the limit have arrived without a CR LF. From then on the source is at its end.
    TooLong,
    /// The reader timed out before a CR LF.
    TimedOut,
    /// The reader failed with an error of this kind before a CR LF.
    Broken(ErrorKind),
    /// Memory for the line couldn't be allocated. From then on the source is at its end.
    Memory,
}

/// A line that was found: still in the buffer, or consumed.
#[derive(Drop)]
pub enum FirstLine {
    /// The whole line is still in the buffer: this number of bytes, then CR LF.
    Held(usize),
    /// The line was consumed. These are its bytes, without the CR LF.
    Taken(Vec<u8>),
}

/// The next part of a connection's input: a head, the rest of a body, or no further head, and why. Whether the input
/// itself has stopped isn't recorded here: `Source::stop` returns that.
#[derive(Clone, Copy, Debug, PartialEq, Eq)]
pub enum InputState {
    /// A head is next.
    Head,
    /// The rest of a body is next. A head follows once the whole body has been read or skipped.
    Body,
    /// The head of the last request has been read. The body of that request may be next; no head follows.
    Last,
    /// A chunked body was given up before its end, so the start of the next head isn't known.
    Abandoned,
    /// A body broke off with a fault of this kind.
    Broken(ErrorKind),
}

impl InputState {
    ghost use Rattle.tiny_http_io.specs.InputState.{after_body, after_fault, after_abandoned};

    /// Returns the state after a body that was entirely read or skipped: `Head` after `Body`; any other state is kept.
    pub fn after_body(self) -> InputState
        ensures { result ≡ after_body self }
    {
        match self {
            InputState::Body => InputState::Head,
            input_state => input_state,
        }
    }

    /// Returns the state after a body that broke off with a fault of this kind: `Broken` after `Body`; any other state
    /// is kept.
    pub fn after_fault(self, kind: ErrorKind) -> InputState
        ensures { result ≡ after_fault kind self }
    {
        match self {
            InputState::Body => InputState::Broken(kind),
            input_state => input_state,
        }
    }

    /// Returns the state after a chunked body that was given up before its end was read: `Abandoned` after `Body`; any
    /// other state is kept.
    pub fn after_abandoned(self) -> InputState
        ensures { result ≡ after_abandoned self }
    {
        match self {
            InputState::Body => InputState::Abandoned,
            input_state => input_state,
        }
    }
}

/// The buffered input of a connection. It also stores an `InputState`, which the crates that build on this one set.
///
/// The buffer holds at most 1024 bytes. The reader is called only for a byte that isn't buffered, and never again after
/// its first end or fault. Nothing is read ahead beyond what one call to the reader returns. The `lazy` clauses in
/// `specs/Source.antt` state that a call that returned what was asked for encountered no end or fault. The `calls`
/// clauses of the methods below state that the reader reports at most one end or fault in all calls together.
/// `read_ahead` is an exception to all of this: it always calls the reader.
#[derive(Drop)]
pub struct Source<R: ReadDevice> {
    input: Input<R>,
    input_state: InputState,
}

impl<R: ReadDevice> Model for Source<R> {
    ghost use Rattle.tiny_http_io.specs.Source.{SourceState};

    ghost Value = { SourceState R };

    ghost use Rattle.tiny_http_io.specs.Input.{input_feed, input_stop, input_reader, input_held, input_skip};
    ghost use Rattle.tiny_http_io.specs.Input.{is_input_over};

    ghost view = { λ s. record {
      feed = input_feed R.feed s.input;
      stop = input_stop s.input;
      is_over = is_input_over s.input;
      reader = input_reader s.input;
      held = input_held s.input;
      skip = input_skip s.input;
      input_state = s.input_state;
    } };
}

impl<R: ReadDevice> Source<R> {
    ghost use Rattle.tiny_http_io.specs.Source.{CallsReader, ReadsLine, ReadsSource, LooksForByte, SkipsBytes};
    ghost use Rattle.tiny_http_io.specs.Source.{EndsHere};
    ghost use Rattle.tiny_http_io.specs.Source.{ReadsOneLine, FindsOneLine, PassesLine, TakesHeld, TakesBytes};

    /// Wraps a reader. A head is expected first.
    pub fn new(inner: R) -> Source<R>
        ensures feed { result.feed ≡ R.feed inner }
        ensures stop { result.stop ≡ None }
        ensures reader { result.reader ≡ inner }
        ensures held { (result.held ≡ []) × (result.skip ≡ 0) }
        ensures input_state { result.input_state ≡ InputState.Head }
    {
        Source {
            input: Input::new(inner),
            input_state: InputState::Head,
        }
    }

    /// Returns what comes next in the input.
    pub fn input_state(&self) -> InputState
        ensures { result ≡ self.now.input_state }
    {
        self.input_state
    }

    /// Sets what comes next in the input. Intended for the crates that build on this one, which read heads and bodies.
    pub fn set_input_state(&mut self, input_state: InputState)
        ensures { self.new ≡ record self.old { input_state = input_state } }
    {
        self.input_state = input_state;
    }

    /// Returns how the input stopped or was made to end, or `None` if it hasn't stopped.
    pub fn stop(&self) -> Option<Stop>
        ensures stop { result ≡ self.now.stop }
        ensures over { self.now.is_over ≡ true → IsSome result × IfSome result (λ stop. StopsBy stop self.now.feed) }
    {
        self.input.stop()
    }

    /// Returns whether another byte follows those to be skipped. If none is buffered and the input hasn't stopped,
    /// blocks until such a byte, the end or a fault arrives.
    pub fn has_byte(&mut self) -> bool
        ensures looks { LooksForByte self.old self.new result }
        ensures calls { CallsReader R.stop_count self.old self.new }
    {
        self.input.has_byte()
    }

    /// Returns the inner reader. Buffered bytes are discarded.
    pub fn into_inner(self) -> R
        ensures { result ≡ self.reader }
    {
        self.input.into_inner()
    }

    /// Skips n more bytes before the next line or read. If fewer are left, the input ends, even if the reader stops
    /// with a fault. The reader isn't called unless the bytes to skip add up to 2^64 or more.
    pub fn skip(&mut self, n: usize)
        ensures skips { SkipsBytes n self.old self.new }
        ensures calls { CallsReader R.stop_count self.old self.new }
    {
        self.input.skip(n)
    }

    /// Ends the input here: discards the rest without calling the reader.
    pub fn end(&mut self)
        ensures { EndsHere self.old self.new }
    {
        self.input.end()
    }

    /// Reads the next line and returns it without its CR LF (RFC 9112, section 2.2). A lone CR or LF is part of the
    /// line.
    pub fn read_line(&mut self, alloc: Global) -> Result<AsciiString, LineFault>
        ensures line { ReadsLine self.old.feed self.new.feed result }
        ensures reads { ReadsOneLine None self.old self.new result }
        ensures calls { CallsReader R.stop_count self.old self.new }
    {
        self.input.read_line(alloc, None)
    }

    /// Reads the next line, as `read_line` does, if the line and its CR LF have at most `left` bytes.
    ///
    /// Fails with `TooLong` if the next `left` bytes contain no CR LF, as soon as these have arrived; the source is
    /// then at its end. At most `left` bytes of the line are copied. The other faults are those of `read_line`.
    pub fn read_line_within(&mut self, alloc: Global, left: usize) -> Result<AsciiString, LineFault>
        ensures reads { ReadsOneLine (Some left) self.old self.new result }
        ensures calls { CallsReader R.stop_count self.old self.new }
    {
        self.input.read_line(alloc, Some(left))
    }

    /// Finds the next line, which may contain any bytes, within `left` bytes if that limit is given. Intended for the
    /// crates that build on this one.
    ///
    /// A line that is entirely in the buffer stays there, to be parsed in place without an allocation. Any other line
    /// is read and consumed, with its CR LF. The faults are those of `read_line_within`, except `NotAscii`.
    pub fn find_line(&mut self, alloc: Global, left: Option<usize>) -> Result<FirstLine, LineFault>
        ensures finds { FindsOneLine left self.old self.new result }
        ensures calls { CallsReader R.stop_count self.old self.new }
    {
        self.input.find_line(alloc, left)
    }

    /// Returns the buffered bytes, beginning with those still to be skipped. Intended for the crates that build on this
    /// one.
    pub fn held(&self) -> &[u8]
        ensures { result.now ≡ self.now.held }
    {
        self.input.held()
    }

    /// Returns the number of bytes to be skipped before the next line or read.
    pub fn to_skip(&self) -> usize
        ensures { result ≡ self.now.skip }
    {
        self.input.to_skip()
    }

    /// Consumes a line that `find_line` found in the buffer: n bytes and the CR LF after them. The reader isn't called.
    /// Intended for the crates that build on this one.
    pub fn pass_line(&mut self, n: usize)
        requires skip { self.old.skip ≡ 0 }
        requires line { EndsLine self.old.held n }
        ensures { PassesLine n self.old self.new }
    {
        self.input.pass_line(n)
    }

    /// Consumes n buffered bytes without calling the reader. Intended for the crates that build on this one.
    pub fn consume(&mut self, n: usize)
        requires skip { self.old.skip ≡ 0 }
        requires held { n ≤ length self.old.held }
        ensures { TakesHeld n self.old self.new }
    {
        self.input.consume(n)
    }

    /// Reads some bytes and returns how many: 0 at the end, or if `buf` is empty. After the last byte each read into a
    /// nonempty `buf` reports how the input stopped. If no byte is buffered or to be skipped and the input hasn't
    /// stopped, a read into a `buf` of 1024 bytes or more goes straight to the reader.
    pub fn read(&mut self, buf: &mut [u8]) -> Result<usize, io::Error>
        ensures reads { ReadsSource self.old self.new result buf.new }
        ensures stop_count { Tells (R.stop_count self.old.reader) (R.stop_count self.new.reader) result }
        ensures calls { CallsReader R.stop_count self.old self.new }
    {
        self.input.read(buf)
    }

    /// Takes exactly n bytes. If fewer are left, takes them all and returns `None`, and the source is over. Fails, and
    /// changes nothing, if memory can't be allocated.
    pub fn take_exactly(&mut self, alloc: Global, n: usize) -> Result<Option<Vec<u8>>, AllocError>
        ensures takes { TakesBytes n self.old self.new result }
        ensures calls { CallsReader R.stop_count self.old self.new }
    {
        self.input.take_exactly(alloc, n)
    }
}

impl<R: ReadAheadDevice> Source<R> {
    ghost use Rattle.tiny_http_io.specs.Device.{Feed, prepended};
    ghost use Rattle.tiny_http_io.specs.Source.{IsUnread};

    /// Returns what the reader has read ahead. Its bytes follow the buffered ones.
    pub fn ahead(&self) -> Ahead<'_>
        ensures { (rest : Option Feed) × (R.feed self.now.reader ≡ prepended result.bytes.now rest) }
    {
        self.input.ahead()
    }

    /// Has the reader read ahead once, as `ReadAheadDevice::read_ahead` does. What the source yields is unchanged.
    pub fn read_ahead(&mut self) -> Result<usize, io::Error>
        ensures unread { IsUnread self.old self.new }
        ensures stop_count { R.stop_count self.new.reader ≤ R.stop_count self.old.reader + 1 }
    {
        self.input.read_ahead()
    }

    /// Has the reader free the memory for bytes that are read ahead, if no such bytes are stored.
    pub fn release_ahead(&mut self)
        ensures unread { IsUnread self.old self.new }
        ensures stop_count { R.stop_count self.new.reader ≡ R.stop_count self.old.reader }
    {
        self.input.release_ahead()
    }
}

impl<R: ReadDevice> ReadDevice for Source<R> {
    ghost use Rattle.tiny_http_io.specs.Source.{CallsReader, ReadsSource};

    ghost feed = { λ s. s.feed };

    // The inner reader's count.
    ghost stop_count = { λ s. R.stop_count s.reader };

    /// Reads some bytes, as `Source::read` does.
    fn read_in(&mut self, buf: &mut [u8]) -> Result<usize, io::Error>
        ensures reads { ReadsSource self.old self.new result buf.new }
        ensures stop_count { Tells (R.stop_count self.old.reader) (R.stop_count self.new.reader) result }
        ensures calls { CallsReader R.stop_count self.old self.new }
    {
        self.input.read(buf)
    }
}

impl<R: ReadDevice> Read for Source<R> {
    ghost use Rattle.std.specs.Io.{ReadsAtMost};
    ghost use Rattle.std.specs.Io.KnownBytes.{ReadConsumes};
    ghost use Rattle.tiny_http_io.specs.Device.{bytes_of};
    ghost use Rattle.tiny_http_io.specs.Source.{CallsReader, ReadsSource};

    ghost remaining = { λ s. bytes_of s.feed };

    /// Reads some bytes, as `Source::read` does.
    fn read(&mut self, buf: &mut [u8]) -> io::Result<usize>
        ensures bound { ReadsAtMost result buf.new }
        ensures bytes { ReadConsumes (bytes_of self.old.feed) (bytes_of self.new.feed) result buf.new }
        ensures reads { ReadsSource self.old self.new result buf.new }
        ensures stop_count { Tells (R.stop_count self.old.reader) (R.stop_count self.new.reader) result }
        ensures calls { CallsReader R.stop_count self.old self.new }
    {
        self.read_in(buf)
    }
}
