//! A reader and the bytes buffered from it: the input of a `Source`. It is a type of its own so that contracts can name
//! its fields.
ghost use Rattle.std.specs.Prelude.{◌≡◌, ◌≢◌, true, false, ◌+◌, ◌-◌, ◌^◌, ◌<◌, ◌≤◌, ◌⊎◌, min, [], ◌∷◌, ◌++◌};
ghost use Rattle.std.specs.Prelude.{length, take, drop, Option, None, Some, Ok, Err, IfOk, IfErr, OnOk, OnErr};
ghost use Rattle.std.specs.Prelude.{IsSome, IfSome, IfNone, IsTrue};
ghost use Rattle.std.specs.Option.{option_map};
ghost use Rattle.std.specs.IoError.{error_kind};
ghost use Rattle.tiny_http_io.specs.Device.{AnswersStop, prepended, StopsBy, Tells};
ghost use Rattle.tiny_http_text.specs.Lines.{IsUnfinished, has_crlf};
ghost use Rattle.tiny_http_io.specs.LineEnds.{BeginsNoLineEnd, EndsLine};
ghost use Rattle.tiny_http_io.specs.Source.{IsWithin, seen_within};
ghost use Rattle.tiny_http_io.specs.ToCome.{skipped, stopped, HasByte, HasNoByte};

use crate::buffer::{Buffer, CAPACITY};
use crate::device::{Ahead, ReadAheadDevice, ReadDevice, Stop};
use crate::lines::{go_on, is_reached, is_within, line_end, one_less};
use crate::source::{FirstLine, LineFault};
use std::alloc::{AllocError, Global};
use std::io;
use std::io::ErrorKind;
use tiny_http_text::ascii::AsciiString;

/// A source without its input state: a reader with a buffer, a number of bytes to skip, and how the input stopped, if
/// it has.
#[derive(Drop)]
pub(crate) struct Input<R> {
    inner: R,
    held: Buffer,
    skip: usize,
    stop: Option<Stop>,
}

impl<R: ReadDevice> Input<R> {
    ghost use Rattle.tiny_http_io.specs.Input.{input_feed, input_stop, input_reader, input_held, input_skip};
    ghost use Rattle.tiny_http_io.specs.Input.{input_stop_count, IsInputOver, SkipsHeld};
    ghost use Rattle.tiny_http_io.specs.Source.{line_fault_of, ReadsWithin, TakesLine, FindsLine, TakesExactly, GoesOn};

    pub fn new(inner: R) -> Input<R>
        ensures feed { input_feed R.feed result ≡ R.feed inner }
        ensures stop { input_stop result ≡ None }
        ensures reader { input_reader result ≡ inner }
        ensures held { (input_held result ≡ []) × (input_skip result ≡ 0) }
    {
        Input {
            inner,
            held: Buffer::new(),
            skip: 0,
            stop: None,
        }
    }

    /// Returns the inner reader.
    pub fn into_inner(self) -> R
        ensures { result ≡ input_reader self }
    {
        self.inner
    }

    /// Returns the number of bytes to be skipped.
    pub fn to_skip(&self) -> usize
        ensures { result ≡ input_skip self.now }
    {
        self.skip
    }

    /// Returns how the input stopped, if it has.
    pub fn stop(&self) -> Option<Stop>
        ensures stop { result ≡ input_stop self.now }
        ensures over { IsInputOver self.now
            → IsSome result × IfSome result (λ stop. StopsBy stop (input_feed R.feed self.now)) }
    {
        self.stop
    }

    /// Returns whether another byte follows those to be skipped.
    pub fn has_byte(&mut self) -> bool
        ensures some { IsTrue result
            → HasByte (input_feed R.feed self.old) × (input_stop self.new ≡ input_stop self.old) }
        ensures none { result ≡ false → HasNoByte (input_feed R.feed self.old) × IsInputOver self.new }
        ensures feed { input_feed R.feed self.new ≡ input_feed R.feed self.old }
        ensures once { IsSome (input_stop self.old)
            → IsSome (input_stop self.new) × (input_reader self.new ≡ input_reader self.old) }
        ensures held { input_skip self.old < length (input_held self.old)
            → input_reader self.new ≡ input_reader self.old }
        ensures holds { IsTrue result → input_skip self.new < length (input_held self.new) }
        ensures skipped { IsTrue result → input_skip self.new ≡ 0 }
        ensures stays { IsInputOver self.old → (result ≡ false) × (self.new ≡ self.old) }
        ensures calls { input_stop_count R.stop_count self.new ≤ input_stop_count R.stop_count self.old }
    {
        self.fill();
        !self.held.is_empty()
    }

    // Discards the buffered bytes that are to be skipped.
    fn pass(&mut self)
        ensures feed { input_feed R.feed self.new ≡ input_feed R.feed self.old }
        ensures fields { let n = min self.old.skip (length self.old.held) in
            self.new ≡ record self.old { held = drop n self.old.held; skip = self.old.skip - n } }
        ensures calls { input_stop_count R.stop_count self.new ≤ input_stop_count R.stop_count self.old }
    {
        let n = self.skip.min(self.held.len());
        self.held.consume(n);
        self.skip -= n;
    }

    // Reads once from the reader into the empty buffer, and records an end or a fault.
    fn refill(&mut self)
        requires empty { self.old.held ≡ [] }
        requires open { self.old.stop ≡ None }
        ensures feed { input_feed R.feed self.new ≡ input_feed R.feed self.old }
        ensures skip { self.new.skip ≡ self.old.skip }
        ensures some { self.new.stop ≡ None → 0 < length self.new.held }
        ensures none { IsSome self.new.stop → self.new.held ≡ [] }
        ensures calls { input_stop_count R.stop_count self.new ≤ input_stop_count R.stop_count self.old }
    {
        match self.held.read_from(&mut self.inner) {
            Ok(0) => self.stop = Some(Stop::End),
            Ok(_) => {}
            Err(e) => self.stop = Some(Stop::Fault(e.kind())),
        }
    }

    // Discards the bytes to be skipped, and makes sure that a byte is buffered if one follows. If fewer bytes follow
    // than are to be skipped, the input ends.
    fn fill(&mut self)
        ensures feed { input_feed R.feed self.new ≡ input_feed R.feed self.old }
        ensures skip { self.new.skip ≡ 0 }
        ensures over { self.new.held ≡ [] → IsSome self.new.stop }
        // The reader isn't called again after an end or a fault, nor if a byte is buffered after those to be skipped.
        ensures once { IsSome (input_stop self.old)
            → IsSome (input_stop self.new) × (input_reader self.new ≡ input_reader self.old) }
        ensures stays { IsInputOver self.old → self.new ≡ self.old }
        ensures lazy { 0 < length self.new.held → input_stop self.new ≡ input_stop self.old }
        ensures held { input_skip self.old < length (input_held self.old) → SkipsHeld self.old self.new }
        ensures calls { input_stop_count R.stop_count self.new ≤ input_stop_count R.stop_count self.old }
    {
        if self.skip == 0 && !self.held.is_empty() {
            return;
        }
        self.pass();
        while self.stop.is_none() && self.held.is_empty() {
            self.refill();
            self.pass();
        }
        if self.skip > 0 {
            self.stop = Some(Stop::End);
            self.skip = 0;
        }
    }

    // Returns the length of the first buffered line, without its CR LF, if the line is complete and within the limit.
    fn held_line(&self, left: Option<usize>) -> Option<usize>
        ensures some { IfSome result (λ n. EndsLine (input_held self.now) n × IsWithin left n) }
        ensures none { IfNone result (IsUnfinished (seen_within left (input_held self.now))) }
    {
        match line_end(self.held.as_slice()) {
            Some(n) => {
                if is_within(left, n) {
                    return Some(n);
                }
                None
            }
            None => None,
        }
    }

    /// Finds the next line, if it is within the limit. The line stays buffered or is consumed.
    pub fn find_line(&mut self, alloc: Global, left: Option<usize>) -> Result<FirstLine, LineFault>
        ensures line { FindsLine left (input_feed R.feed self.old) (input_feed R.feed self.new) (input_held self.new)
            (input_skip self.new) result }
        ensures limited { result ≡ Err LineFault.TooLong → IsSome left }
        ensures over { OnErr result (IsInputOver self.new) }
        ensures ended { IfErr result (λ fault. (fault ≡ LineFault.Memory) ⊎ (fault ≡ LineFault.TooLong)
            → input_stop self.new ≡ Some Stop.End) }
        ensures stop { IfErr result (λ fault. fault ≢ LineFault.Memory
            → fault ≢ LineFault.TooLong
            → IfSome (input_stop self.new) (λ stop. fault ≡ line_fault_of stop)) }
        ensures stays { IsInputOver self.old
            → left ≢ Some 0
            → (self.new ≡ self.old) × IfSome (input_stop self.old) (λ stop. result ≡ Err (line_fault_of stop)) }
        ensures once { IsSome (input_stop self.old)
            → IsSome (input_stop self.new) × (input_reader self.new ≡ input_reader self.old) }
        ensures held { has_crlf (drop (input_skip self.old) (input_held self.old)) ≡ true
            → input_reader self.new ≡ input_reader self.old }
        ensures full { IfSome left (λ n. input_skip self.old + n ≤ length (input_held self.old)
            → input_reader self.new ≡ input_reader self.old) }
        // Memory is needed only for a line that isn't entirely in the buffer.
        ensures memory { result ≡ Err LineFault.Memory
            → has_crlf (drop (input_skip self.old) (input_held self.old)) ≡ false }
        ensures lazy { OnOk result (input_stop self.new ≡ input_stop self.old) }
        ensures calls { input_stop_count R.stop_count self.new ≤ input_stop_count R.stop_count self.old }
    {
        if is_reached(left, 0) {
            self.end();
            return Err(LineFault::TooLong);
        }
        self.fill();
        if let Some(n) = self.held_line(left) {
            return Ok(FirstLine::Held(n));
        }
        if is_reached(left, self.held.len()) {
            self.end();
            return Err(LineFault::TooLong);
        }
        match self.read_slowly(alloc, left) {
            Ok(text) => Ok(FirstLine::Taken(text)),
            Err(fault) => Err(fault),
        }
    }

    /// Returns the buffered bytes.
    pub fn held(&self) -> &[u8]
        ensures { result.now ≡ input_held self.now }
    {
        self.held.as_slice()
    }

    /// Consumes n buffered bytes and the CR LF after them.
    pub fn pass_line(&mut self, n: usize)
        requires skip { input_skip self.old ≡ 0 }
        requires line { EndsLine (input_held self.old) n }
        ensures line { TakesLine (input_feed R.feed self.old) (input_feed R.feed self.new)
            (take n (input_held self.old)) }
        ensures rest { (input_held self.new ≡ drop (n + 2) (input_held self.old)) × (input_skip self.new ≡ 0) }
        ensures reader { input_reader self.new ≡ input_reader self.old }
        ensures stop { input_stop self.new ≡ input_stop self.old }
    {
        self.held.consume(n);
        self.held.consume(2);
    }

    /// Consumes n buffered bytes.
    pub fn consume(&mut self, n: usize)
        requires skip { input_skip self.old ≡ 0 }
        requires held { n ≤ length (input_held self.old) }
        ensures feed { input_feed R.feed self.old
            ≡ prepended (take n (input_held self.old)) (input_feed R.feed self.new) }
        ensures rest { (input_held self.new ≡ drop n (input_held self.old)) × (input_skip self.new ≡ 0) }
        ensures reader { input_reader self.new ≡ input_reader self.old }
        ensures stop { input_stop self.new ≡ input_stop self.old }
    {
        self.held.consume(n);
    }

    // Takes a line of n buffered bytes, and consumes the CR LF after it. Fails with `Memory`, and changes nothing, if
    // memory can't be allocated.
    fn take_line(&mut self, alloc: Global, n: usize) -> Result<Vec<u8>, LineFault>
        requires { n + 2 ≤ length self.old.held }
        ensures text { IfOk result (λ text. text.items ≡ take n self.old.held) }
        ensures rest { OnOk result (self.new ≡ record self.old { held = drop (n + 2) self.old.held }) }
        ensures err { IfErr result (λ fault. (fault ≡ LineFault.Memory) × (self.new ≡ self.old)) }
        ensures reader { input_reader self.new ≡ input_reader self.old }
        ensures calls { input_stop_count R.stop_count self.new ≤ input_stop_count R.stop_count self.old }
    {
        let Ok(text) = self.held.as_slice()[..n].to_vec(alloc) else {
            return Err(LineFault::Memory);
        };
        self.held.consume(n + 2);
        Ok(text)
    }

    // Reads the next line byte by byte, if it is within the limit. After any fault the input is over.
    fn read_slowly(&mut self, alloc: Global, left: Option<usize>) -> Result<Vec<u8>, LineFault>
        ensures text { IfOk result
            (λ text. input_feed R.feed self.old
            ≡ prepended (text.items ++ (13 ∷ (10 ∷ []))) (input_feed R.feed self.new)) }
        ensures first { IfOk result (λ text. BeginsNoLineEnd text.items (13 ∷ [])) }
        ensures within { IfOk result (λ text. IsWithin left (length text.items)) }
        ensures none { IfErr result
            (λ fault. ReadsWithin left (input_feed R.feed self.old) (input_feed R.feed self.new) (Err fault)
            × (fault ≢ LineFault.NotAscii)) }
        ensures limited { result ≡ Err LineFault.TooLong → IsSome left }
        ensures over { OnErr result (IsInputOver self.new) }
        ensures ended { IfErr result (λ fault. (fault ≡ LineFault.Memory) ⊎ (fault ≡ LineFault.TooLong)
            → input_stop self.new ≡ Some Stop.End) }
        ensures stop { IfErr result (λ fault. fault ≢ LineFault.Memory
            → fault ≢ LineFault.TooLong
            → IfSome (input_stop self.new) (λ stop. fault ≡ line_fault_of stop)) }
        ensures once { IsSome (input_stop self.old)
            → IsSome (input_stop self.new) × (input_reader self.new ≡ input_reader self.old) }
        ensures stays { IsInputOver self.old
            → left ≢ Some 0
            → (self.new ≡ self.old) × IfSome (input_stop self.old) (λ stop. result ≡ Err (line_fault_of stop)) }
        ensures lazy { OnOk result (input_stop self.new ≡ input_stop self.old) }
        ensures calls { input_stop_count R.stop_count self.new ≤ input_stop_count R.stop_count self.old }
    {
        let mut text = Vec::new(alloc);
        let mut after_return = false;
        let mut room = left;
        while !is_reached(room, 0) {
            let Some(b) = self.pop_byte() else {
                return Err(self.line_fault());
            };
            if after_return && b == b'\n' {
                return Ok(text);
            }
            if go_on(&mut text, &mut after_return, b).is_err() {
                self.end();
                return Err(LineFault::Memory);
            }
            room = one_less(room);
        }
        self.end();
        Err(LineFault::TooLong)
    }

    /// Ends the input here: discards the rest without calling the reader.
    pub fn end(&mut self)
        ensures feed { input_feed R.feed self.new ≡ option_map (λ _. stopped Stop.End) (input_feed R.feed self.old) }
        ensures over { IsInputOver self.new }
        ensures stop { input_stop self.new ≡ Some Stop.End }
        ensures reader { input_reader self.new ≡ input_reader self.old }
        ensures calls { input_stop_count R.stop_count self.new ≤ input_stop_count R.stop_count self.old }
    {
        self.held.clear();
        self.skip = 0;
        self.stop = Some(Stop::End);
    }

    /// Reads the next line, if it is within the limit, and returns it without its CR LF.
    pub fn read_line(
        &mut self,
        alloc: Global,
        left: Option<usize>,
    ) -> Result<AsciiString, LineFault>
        ensures line { ReadsWithin left (input_feed R.feed self.old) (input_feed R.feed self.new) result }
        // The reader isn't called again after an end or a fault.
        ensures once { IsSome (input_stop self.old)
            → IsSome (input_stop self.new) × (input_reader self.new ≡ input_reader self.old) }
        // Whatever the reader states, an input that is over stays so, and each further call fails with the fault that
        // corresponds to how the input stopped, or with `TooLong` if the limit is 0.
        ensures limited { result ≡ Err LineFault.TooLong → IsSome left }
        ensures over { IfErr result (λ fault. fault ≢ LineFault.NotAscii → IsInputOver self.new) }
        ensures ended { IfErr result (λ fault. (fault ≡ LineFault.Memory) ⊎ (fault ≡ LineFault.TooLong)
            → input_stop self.new ≡ Some Stop.End) }
        ensures stop { IfErr result (λ fault. fault ≢ LineFault.NotAscii
            → fault ≢ LineFault.Memory
            → fault ≢ LineFault.TooLong
            → IfSome (input_stop self.new) (λ stop. fault ≡ line_fault_of stop)) }
        ensures stays { IsInputOver self.old
            → left ≢ Some 0
            → (self.new ≡ self.old) × IfSome (input_stop self.old) (λ stop. result ≡ Err (line_fault_of stop)) }
        ensures lazy { OnOk result (input_stop self.new ≡ input_stop self.old) }
        ensures passed { result ≡ Err LineFault.NotAscii → input_stop self.new ≡ input_stop self.old }
        ensures held { has_crlf (drop (input_skip self.old) (input_held self.old)) ≡ true
            → input_reader self.new ≡ input_reader self.old }
        ensures full { IfSome left (λ n. input_skip self.old + n ≤ length (input_held self.old)
            → input_reader self.new ≡ input_reader self.old) }
        ensures calls { input_stop_count R.stop_count self.new ≤ input_stop_count R.stop_count self.old }
    {
        let text = match self.find_line(alloc, left)? {
            FirstLine::Taken(text) => text,
            FirstLine::Held(n) => match self.take_line(alloc, n) {
                Ok(text) => text,
                Err(fault) => {
                    self.end();
                    return Err(fault);
                }
            },
        };
        match AsciiString::from_ascii(text) {
            Ok(line) => Ok(line),
            Err(_) => Err(LineFault::NotAscii),
        }
    }

    /// Takes exactly n bytes. If fewer are left, takes them all and returns `None`, and the input is over. Fails, and
    /// changes nothing, if memory can't be allocated.
    pub fn take_exactly(&mut self, alloc: Global, n: usize) -> Result<Option<Vec<u8>>, AllocError>
        ensures takes { IfOk result
            (λ body. TakesExactly (λ v. v.items) n (input_feed R.feed self.old) (input_feed R.feed self.new) body) }
        ensures exact { IfOk result (λ body. IfSome body (λ bytes. length bytes.items ≡ n)) }
        ensures over { IfOk result (λ body. body ≡ None → IsInputOver self.new) }
        ensures err { OnErr result (self.new ≡ self.old) }
        ensures once { IsSome (input_stop self.old)
            → IsSome (input_stop self.new) × (input_reader self.new ≡ input_reader self.old) }
        ensures lazy { IfOk result (λ body. IsSome body → input_stop self.new ≡ input_stop self.old) }
        ensures held { input_skip self.old + n ≤ length (input_held self.old)
            → input_reader self.new ≡ input_reader self.old }
        ensures goes_on { GoesOn (input_feed R.feed self.old) (input_feed R.feed self.new) }
        ensures calls { input_stop_count R.stop_count self.new ≤ input_stop_count R.stop_count self.old }
    {
        let mut body = Vec::with_capacity(alloc, n)?;
        while body.len() < n {
            match self.pop_byte() {
                Some(b) => body.push_reserved(b),
                None => return Ok(None),
            }
        }
        Ok(Some(body))
    }

    // Returns the fault to report for a line if the input stopped before the line was complete.
    fn line_fault(&self) -> LineFault
        ensures fault { IfSome (input_stop self.now) (λ stop. result ≡ line_fault_of stop) }
        ensures in_time { (result ≢ LineFault.TooLong) × (result ≢ LineFault.NotAscii) × (result ≢ LineFault.Memory) }
    {
        match self.stop {
            Some(Stop::Fault(ErrorKind::TimedOut)) => LineFault::TimedOut,
            Some(Stop::Fault(kind)) => LineFault::Broken(kind),
            _ => LineFault::End,
        }
    }

    /// Skips n more bytes before the next line or read. If fewer are left, the input ends, even if the reader stops
    /// with a fault.
    pub fn skip(&mut self, n: usize)
        ensures feed { input_feed R.feed self.new ≡ option_map (skipped n) (input_feed R.feed self.old) }
        ensures alone { input_skip self.old + n < 2 ^ 64
            → (input_reader self.new ≡ input_reader self.old) × (input_stop self.new ≡ input_stop self.old) }
        ensures adds { input_skip self.old + n < 2 ^ 64
            → (input_skip self.new ≡ input_skip self.old + n) × (input_held self.new ≡ input_held self.old) }
        // The reader isn't called again after an end or a fault.
        ensures once { IsSome (input_stop self.old)
            → IsSome (input_stop self.new) × (input_reader self.new ≡ input_reader self.old) }
        ensures calls { input_stop_count R.stop_count self.new ≤ input_stop_count R.stop_count self.old }
    {
        match self.skip.checked_add(n) {
            Some(sum) => self.skip = sum,
            None => {
                self.fill();
                self.skip = n;
            }
        }
    }

    // Takes the next byte, if there is one.
    fn pop_byte(&mut self) -> Option<u8>
        ensures some { IfSome result
            (λ b. input_feed R.feed self.old ≡ prepended (b ∷ []) (input_feed R.feed self.new)) }
        ensures none { IfNone result (input_feed R.feed self.new ≡ input_feed R.feed self.old) }
        ensures over { IfNone result (IsInputOver self.new) }
        ensures stop { IfNone result
            (IfSome (input_stop self.new) (λ stop. StopsBy stop (input_feed R.feed self.old))) }
        ensures once { IsSome (input_stop self.old)
            → IsSome (input_stop self.new) × (input_reader self.new ≡ input_reader self.old) }
        ensures stays { IsInputOver self.old → (result ≡ None) × (self.new ≡ self.old) }
        ensures lazy { IsSome result → input_stop self.new ≡ input_stop self.old }
        ensures held { input_skip self.old < length (input_held self.old)
            → (input_reader self.new ≡ input_reader self.old) × (input_skip self.new ≡ 0)
            × (length (input_held self.new) + input_skip self.old + 1 ≡ length (input_held self.old)) }
        ensures calls { input_stop_count R.stop_count self.new ≤ input_stop_count R.stop_count self.old }
    {
        self.fill();
        self.held.pop()
    }

    // Reads once from the reader straight into `buf`, bypassing the empty buffer, and records an end or a fault.
    fn read_past_buffer(&mut self, buf: &mut [u8]) -> Result<usize, io::Error>
        requires room { 0 < length buf.old }
        requires empty { (self.old.held ≡ []) × (self.old.skip ≡ 0) }
        requires open { self.old.stop ≡ None }
        ensures bound { IfOk result (λ n. n ≤ length buf.new) }
        ensures bytes { IfOk result
            (λ n. input_feed R.feed self.old ≡ prepended (take n buf.new) (input_feed R.feed self.new)) }
        ensures end { IfOk result (λ n. n ≡ 0 → StopsBy Stop.End (input_feed R.feed self.old)) }
        ensures fault { IfErr result (λ e. StopsBy (Stop.Fault (error_kind e)) (input_feed R.feed self.old)) }
        ensures again { OnErr result (input_feed R.feed self.new ≡ input_feed R.feed self.old) }
        ensures over { OnErr result (IsInputOver self.new) }
        ensures none { IfOk result (λ n. n ≡ 0 → IsInputOver self.new × (input_stop self.new ≡ Some Stop.End)) }
        ensures kind { IfErr result (λ e. input_stop self.new ≡ Some (Stop.Fault (error_kind e))) }
        ensures lazy { IfOk result (λ n. 0 < n → input_stop self.new ≡ None) }
        ensures calls { input_stop_count R.stop_count self.new ≤ input_stop_count R.stop_count self.old }
    {
        match self.inner.read_in(buf) {
            Ok(0) => {
                self.stop = Some(Stop::End);
                Ok(0)
            }
            Ok(n) => Ok(n),
            Err(e) => {
                self.stop = Some(Stop::Fault(e.kind()));
                Err(e)
            }
        }
    }

    /// Reads some bytes and returns how many: 0 at the end, or if `buf` is empty. After the last byte each read into a
    /// nonempty `buf` reports how the input stopped. If no byte is buffered or to be skipped and the input hasn't
    /// stopped, a read into a `buf` of 1024 bytes or more goes straight to the reader.
    pub fn read(&mut self, buf: &mut [u8]) -> Result<usize, io::Error>
        ensures bound { IfOk result (λ n. n ≤ length buf.new) }
        ensures bytes { IfOk result
            (λ n. input_feed R.feed self.old ≡ prepended (take n buf.new) (input_feed R.feed self.new)) }
        ensures end { IfOk result (λ n. n ≡ 0 → 0 < length buf.new → StopsBy Stop.End (input_feed R.feed self.old)) }
        ensures fault { IfErr result (λ e. StopsBy (Stop.Fault (error_kind e)) (input_feed R.feed self.old)) }
        ensures again { OnErr result (input_feed R.feed self.new ≡ input_feed R.feed self.old) }
        ensures empty { length buf.new ≡ 0 → (result ≡ Ok 0) × (self.new ≡ self.old) }
        // The reader isn't called again after an end or a fault.
        ensures once { IsSome (input_stop self.old)
            → IsSome (input_stop self.new) × (input_reader self.new ≡ input_reader self.old) }
        ensures over { OnErr result (IsInputOver self.new) }
        ensures none { IfOk result (λ n. n ≡ 0
            → 0 < length buf.new
            → IsInputOver self.new × (input_stop self.new ≡ Some Stop.End)) }
        ensures kind { IfErr result (λ e. input_stop self.new ≡ Some (Stop.Fault (error_kind e))) }
        ensures stays { IsInputOver self.old
            → (self.new ≡ self.old)
            × IfSome (input_stop self.old) (λ stop. 0 < length buf.new → AnswersStop stop result) }
        ensures lazy { IfOk result (λ n. 0 < n → input_stop self.new ≡ input_stop self.old) }
        ensures held { input_skip self.old < length (input_held self.old)
            → input_reader self.new ≡ input_reader self.old }
        ensures stop_count { Tells (R.stop_count (input_reader self.old))
            (R.stop_count (input_reader self.new)) result }
        ensures calls { input_stop_count R.stop_count self.new ≤ input_stop_count R.stop_count self.old }
    {
        if buf.is_empty() {
            return Ok(0);
        }
        self.pass();
        if self.skip == 0 && self.held.is_empty() && self.stop.is_none() && buf.len() >= CAPACITY {
            return self.read_past_buffer(buf);
        }
        self.fill();
        if self.held.is_empty()
            && let Some(Stop::Fault(kind)) = self.stop
        {
            return Err(kind.into());
        }
        Ok(self.held.give(buf))
    }
}

impl<R: ReadAheadDevice> Input<R> {
    ghost use Rattle.tiny_http_io.specs.Device.{Feed};
    ghost use Rattle.tiny_http_io.specs.Input.{input_feed, input_reader};

    /// Returns what the reader has read ahead.
    pub fn ahead(&self) -> Ahead<'_>
        ensures { (rest : Option Feed) × (R.feed (input_reader self.now) ≡ prepended result.bytes.now rest) }
    {
        self.inner.ahead()
    }

    /// Has the reader read ahead once.
    pub fn read_ahead(&mut self) -> Result<usize, io::Error>
        ensures feed { input_feed R.feed self.new ≡ input_feed R.feed self.old }
        ensures rest { self.new ≡ record self.old { inner = input_reader self.new } }
        ensures stop_count { R.stop_count (input_reader self.new) ≤ R.stop_count (input_reader self.old) + 1 }
    {
        self.inner.read_ahead()
    }

    /// Has the reader free the memory for bytes that are read ahead, if no such bytes are stored.
    pub fn release_ahead(&mut self)
        ensures feed { input_feed R.feed self.new ≡ input_feed R.feed self.old }
        ensures rest { self.new ≡ record self.old { inner = input_reader self.new } }
        ensures stop_count { R.stop_count (input_reader self.new) ≡ R.stop_count (input_reader self.old) }
    {
        self.inner.release_ahead()
    }
}
