//! The chunked transfer coding: decoding (RFC 9112, section 7.1).
ghost use Rattle.std.specs.Prelude.{◌≡◌, ℕ, ◌+◌, ◌<◌, ◌≤◌, List, length, take, Option, None, Some, Ok, Err, IfOk};
ghost use Rattle.std.specs.Prelude.{IfErr, OnOk, OnErr, IsSome, IfSome};
ghost use Rattle.std.specs.Option.{option_map};
ghost use Rattle.std.specs.IoError.{error_kind};
ghost use Rattle.tiny_http_io.specs.Device.{AnswersStop, fault_count, prepended, Reads, TakesFront, Tells};
ghost use Rattle.tiny_http_text.specs.Bytes.{crlf};
ghost use Rattle.tiny_http_body.specs.Chunks.{WholeChunks, CutChunks, WholeChunksBy, CutChunksBy};
ghost use Rattle.tiny_http_body.specs.ChunkLine.{CutBy};
ghost use Rattle.tiny_http_body.specs.Decoding.{comes, trails, decoded_from_by, trailers_from, decoding_reads};
ghost use Rattle.tiny_http_body.specs.Decoding.{TakesNeeded, IsReady, next_stop, decoding_coming, decoding_rules};
ghost use Rattle.tiny_http_body.specs.Decoding.{decoding_stop, prepended_data, over_at, BreaksBy};
ghost use Rattle.tiny_http_body.specs.Decoding.{broken_count};

mod field;
mod line;
mod size;

use crate::chunked::line::{next_byte, next_line};
use std::io;
use std::io::{ErrorKind, Read};
use tiny_http_io::device::{ReadDevice, Stop, read_front};

/// Maximum length of a chunk-size line or a trailer line in bytes, without its CR LF (RFC 9112, section 7.1.1, asks for
/// a limit).
pub const LONGEST_LINE: usize = 8192;

/// Maximum number of lines in a trailer section, without its empty line.
pub const MOST_TRAILERS: usize = 128;

/// The rules for the lines of a chunked body: its chunk-size lines and its trailer section.
///
/// Under both sets of rules a chunk size has 1 to 16 hexadecimal digits of either case, and CR LF follows a chunk's
/// data. A malformed line is reported once it has ended, but a lone LF under `Standard` as soon as it is read. A line
/// that is too long is reported before it ends.
#[derive(Clone, Copy, Debug, PartialEq, Eq)]
pub enum ChunkRules {
    /// A line ends at its first CR LF. The chunk size is the text before the first `;`, without surrounding bytes 9 and
    /// 32. Only the length of extensions and trailer lines is checked.
    Lenient,
    /// As RFC 9112 requires (sections 2.2 and 7.1 to 7.1.2). A line ends at its first LF; an LF without a CR before it
    /// is `InvalidData` as soon as it is read. A chunk-size line begins with its digits; bytes 9 and 32 may follow,
    /// then an extension, which begins with `;`. A trailer line is a field line: a token, a colon directly after it,
    /// and a value. Extensions and values have no byte 0 to 8, 10 to 31 or 127.
    Standard,
}

// The part of a chunked body that must come next.
#[derive(Clone, Copy, Drop)]
enum Next {
    // A chunk-size line.
    Line,
    // This many bytes of data, then CR LF.
    Data(u64),
    // Nothing: the trailer section has been read.
    Over,
    // Nothing: the body broke off with a fault of this kind.
    Broken(ErrorKind),
}

// Consumes the CR LF after a chunk's data. Fails with `InvalidData` for other bytes, and as `next_byte` does.
fn close_chunk<R: ReadDevice>(reader: &mut R) -> Result<(), ErrorKind>
    ensures closed { (rules : ChunkRules)
        → OnOk result (comes rules Next.Line (R.feed reader.new) ≡ comes rules (Next.Data 0) (R.feed reader.old)) }
    ensures broken { (rules : ChunkRules)
        → IfErr result
        (λ kind. comes rules (Next.Broken kind) (R.feed reader.new)
        ≡ comes rules (Next.Data 0) (R.feed reader.old)) }
    ensures takes { OnOk result (R.feed reader.old ≡ prepended crlf (R.feed reader.new)) }
    ensures needed { (rules : ChunkRules)
        → OnErr result (TakesNeeded (decoded_from_by rules (Next.Data 0)) (R.feed reader.old) (R.feed reader.new)) }
    ensures stop_count { R.stop_count reader.new ≤ R.stop_count reader.old + fault_count result }
{
    match next_byte(reader) {
        Err(kind) => return Err(kind),
        Ok(b) => {
            if b != b'\r' {
                return Err(ErrorKind::InvalidData);
            }
        }
    }
    match next_byte(reader) {
        Err(kind) => Err(kind),
        Ok(b) => {
            if b == b'\n' {
                Ok(())
            } else {
                Err(ErrorKind::InvalidData)
            }
        }
    }
}

// Consumes the trailer section, at most `MOST_TRAILERS` lines and the empty line, and returns `Over`, or `Broken` with
// the fault.
fn skip_trailers<R: ReadDevice>(reader: &mut R, rules: ChunkRules) -> Next
    ensures comes { comes rules result (R.feed reader.new) ≡ trails rules MOST_TRAILERS (R.feed reader.old) }
    ensures ready { IsReady result }
    ensures needed { TakesNeeded (trailers_from rules MOST_TRAILERS) (R.feed reader.old) (R.feed reader.new) }
    ensures stop_count { R.stop_count reader.new ≤ R.stop_count reader.old + broken_count result }
{
    for lines in 0..MOST_TRAILERS {
        match next_line(reader, rules) {
            Err(kind) => return Next::Broken(kind),
            Ok(line) => {
                if line.length == 0 {
                    return Next::Over;
                }
                if !line.said.is_trailer(rules) {
                    return Next::Broken(ErrorKind::InvalidData);
                }
            }
        }
    }
    match next_line(reader, rules) {
        Err(kind) => Next::Broken(kind),
        Ok(line) => {
            if line.length == 0 {
                Next::Over
            } else {
                Next::Broken(ErrorKind::InvalidData)
            }
        }
    }
}

// Consumes a chunk-size line and, after the line of the last chunk, the trailer section. Returns what comes next.
fn open_chunk<R: ReadDevice>(reader: &mut R, rules: ChunkRules) -> Next
    ensures comes { comes rules result (R.feed reader.new) ≡ comes rules Next.Line (R.feed reader.old) }
    ensures ready { IsReady result }
    ensures needed { TakesNeeded (decoded_from_by rules Next.Line) (R.feed reader.old) (R.feed reader.new) }
    ensures stop_count { R.stop_count reader.new ≤ R.stop_count reader.old + broken_count result }
{
    match next_line(reader, rules) {
        Err(kind) => Next::Broken(kind),
        Ok(line) => match line.said.size.value() {
            None => Next::Broken(ErrorKind::InvalidData),
            Some(size) => {
                if size == 0 {
                    skip_trailers(reader, rules)
                } else {
                    Next::Data(size)
                }
            }
        },
    }
}

// Consumes everything before the next byte of data, the end or the fault, and returns what comes next.
fn go_to_data<R: ReadDevice>(reader: &mut R, rules: ChunkRules, next: Next) -> Next
    ensures comes { comes rules result (R.feed reader.new) ≡ comes rules next (R.feed reader.old) }
    ensures ready { IsReady result }
    ensures needed { TakesNeeded (decoded_from_by rules next) (R.feed reader.old) (R.feed reader.new) }
    ensures stays { IsSome (next_stop next) → (result ≡ next) × (reader.new ≡ reader.old) }
    ensures stop_count { R.stop_count reader.new ≤ R.stop_count reader.old + broken_count result }
{
    match next {
        Next::Line => open_chunk(reader, rules),
        Next::Data(left) => {
            if left > 0 {
                Next::Data(left)
            } else {
                match close_chunk(reader) {
                    Ok(()) => open_chunk(reader, rules),
                    Err(kind) => Next::Broken(kind),
                }
            }
        }
        Next::Over => Next::Over,
        Next::Broken(kind) => Next::Broken(kind),
    }
}

// Reads some of the `left` bytes of data. Fails with `UnexpectedEof` at the end of input, or with the reader's fault.
fn read_data<R: ReadDevice>(reader: &mut R, left: u64, buf: &mut [u8]) -> Result<usize, io::Error>
    requires left { 0 < left }
    requires room { 0 < length buf.old }
    ensures bound { IfOk result (λ n. n ≤ length buf.new) }
    ensures most { IfOk result (λ n. n ≤ left) }
    ensures some { IfOk result (λ n. 0 < n) }
    ensures bytes { IfOk result (λ n. R.feed reader.old ≡ prepended (take n buf.new) (R.feed reader.new)) }
    ensures cut { IfErr result (λ e. CutBy (error_kind e) (R.feed reader.old)) }
    ensures again { OnErr result (R.feed reader.new ≡ R.feed reader.old) }
    ensures stop_count { R.stop_count reader.new ≤ R.stop_count reader.old + fault_count result }
{
    match read_front(reader, left as usize, buf) {
        Ok(0) => Err(ErrorKind::UnexpectedEof.into()),
        Ok(n) => Ok(n),
        Err(e) => Err(e),
    }
}

/// The state of decoding a chunked body, without its reader. A copy doesn't advance with the original.
#[derive(Clone, Copy, Drop)]
pub struct Decoding {
    rules: ChunkRules,
    next: Next,
}

impl Decoding {
    /// Starts at the first byte of a body, under `ChunkRules::Lenient`.
    pub fn new() -> Decoding
        // A whole body decodes to its data and leaves the rest.
        ensures whole { (bytes body rest : List ℕ) (stop : Stop) → WholeChunks bytes body rest
            → decoding_coming result (Some (record { bytes = bytes; stop = stop }))
            ≡ Some (record { bytes = body; behind = Ok (record { bytes = rest; stop = stop }) }) }
        // Any other body decodes to its data before the fault, then reports the fault.
        ensures front { (bytes body : List ℕ) (stop : Stop) (kind : ErrorKind) → CutChunks bytes stop body kind
            → decoding_coming result (Some (record { bytes = bytes; stop = stop }))
            ≡ Some (record { bytes = body; behind = Err kind }) }
        ensures stop { decoding_stop result ≡ None }
        ensures rules { decoding_rules result ≡ ChunkRules.Lenient }
    {
        Decoding::new_with(ChunkRules::Lenient)
    }

    /// Starts at the first byte of a body, under these rules.
    pub fn new_with(rules: ChunkRules) -> Decoding
        // A body that is whole under these rules decodes to its data and leaves the rest.
        ensures whole { (bytes body rest : List ℕ) (stop : Stop) → WholeChunksBy rules bytes body rest
            → decoding_coming result (Some (record { bytes = bytes; stop = stop }))
            ≡ Some (record { bytes = body; behind = Ok (record { bytes = rest; stop = stop }) }) }
        // Any other body decodes to its data before the fault, then reports the fault.
        ensures front { (bytes body : List ℕ) (stop : Stop) (kind : ErrorKind) → CutChunksBy rules bytes stop body kind
            → decoding_coming result (Some (record { bytes = bytes; stop = stop }))
            ≡ Some (record { bytes = body; behind = Err kind }) }
        ensures stop { decoding_stop result ≡ None }
        ensures rules { decoding_rules result ≡ rules }
    {
        Decoding {
            rules,
            next: Next::Line,
        }
    }

    /// Reads some data into the front of `buf` and returns how many bytes: 0 at the end, or if `buf` is empty. Nothing
    /// is allocated. Chunk-size lines, CR LFs and the trailer section are consumed, and nothing after the trailer
    /// section (RFC 9112, section 7.1). The end is reported once the trailer section has been read.
    ///
    /// Fails with `InvalidData` if the body breaks the `ChunkRules`, or exceeds `LONGEST_LINE` or `MOST_TRAILERS`; with
    /// `UnexpectedEof` if the reader ends within the body; and with the reader's error kind if the reader fails. The
    /// data before a fault is returned first, even that of an unfinished chunk. After the end or a fault, each read
    /// into a nonempty `buf` reports it again without calling the reader.
    pub fn read<R: ReadDevice>(
        &mut self,
        reader: &mut R,
        buf: &mut [u8],
    ) -> Result<usize, io::Error>
        ensures bound { IfOk result (λ n. n ≤ length buf.new) }
        ensures rules { decoding_rules self.new ≡ decoding_rules self.old }
        // The bytes that were read are the next ones of the data.
        ensures data { IfOk result
            (λ n. decoding_coming self.old (R.feed reader.old)
            ≡ prepended_data (take n buf.new) (decoding_coming self.new (R.feed reader.new))) }
        // The end is reported when the reader is just after the body.
        ensures end { IfOk result (λ n. n ≡ 0
            → 0 < length buf.new
            → decoding_coming self.old (R.feed reader.old) ≡ option_map over_at (R.feed reader.new)) }
        ensures fault { IfErr result (λ e. BreaksBy (error_kind e) (decoding_coming self.old (R.feed reader.old))) }
        ensures again { OnErr result
            (decoding_coming self.new (R.feed reader.new) ≡ decoding_coming self.old (R.feed reader.old)) }
        ensures empty { length buf.new ≡ 0 → (result ≡ Ok 0) × (self.new ≡ self.old) × (reader.new ≡ reader.old) }
        // Whatever the reader states, it isn't called again after the end or a fault, and each read into a nonempty
        // buffer reports the same stop.
        ensures zero_is_end { IfOk result (λ n. n ≡ 0 → 0 < length buf.new → decoding_stop self.new ≡ Some Stop.End) }
        ensures broken { IfErr result (λ e. decoding_stop self.new ≡ Some (Stop.Fault (error_kind e))) }
        ensures stays { IsSome (decoding_stop self.old) → (self.new ≡ self.old) × (reader.new ≡ reader.old) }
        ensures reports_stop { IfSome (decoding_stop self.old) (λ stop. 0 < length buf.new → AnswersStop stop result) }
        // Only bytes at the front of the reader's feed are consumed.
        ensures takes { TakesFront (R.feed reader.old) (R.feed reader.new) }
        // No byte is consumed after the one that shows a fault.
        ensures needed { OnErr result (TakesNeeded (decoding_reads self.old) (R.feed reader.old) (R.feed reader.new)) }
        // The reader reports at most one end or fault, and none if bytes were read.
        ensures stop_count { Tells (R.stop_count reader.old) (R.stop_count reader.new) result }
        // The reader reports an end or fault only if this call fails, since a line ends the body.
        ensures whole { R.stop_count reader.new ≤ R.stop_count reader.old + fault_count result }
    {
        if buf.is_empty() {
            return Ok(0);
        }
        self.next = go_to_data(reader, self.rules, self.next);
        match self.next {
            Next::Data(left) => match read_data(reader, left, buf) {
                Ok(n) => {
                    self.next = Next::Data(left - n as u64);
                    Ok(n)
                }
                Err(e) => {
                    self.next = Next::Broken(e.kind());
                    Err(e)
                }
            },
            Next::Broken(kind) => Err(kind.into()),
            Next::Over | Next::Line => Ok(0),
        }
    }

    /// Returns the end or the fault that each further read reports, if it is known.
    pub fn stop(&self) -> Option<Stop>
        ensures { result ≡ decoding_stop self.now }
    {
        match self.next {
            Next::Line | Next::Data(_) => None,
            Next::Over => Some(Stop::End),
            Next::Broken(kind) => Some(Stop::Fault(kind)),
        }
    }
}

/// A reader of the data of a chunked body. It consumes no byte of the inner reader after the trailer section. If the
/// decoder is dropped, or turned back into its inner reader, before the end, the rest of the body stays unread.
#[derive(Drop)]
pub struct Decoder<R> {
    inner: R,
    decoding: Decoding,
}

impl<R: ReadDevice> Decoder<R> {
    ghost use Rattle.tiny_http_io.specs.Device.{Feed};
    ghost use Rattle.tiny_http_body.specs.Decoding.{decoder_coming, decoder_inner, decoder_stop, ReadsData};

    /// Decodes a body whose first byte is the reader's next, under `ChunkRules::Lenient`.
    pub fn new(inner: R) -> Decoder<R>
        ensures inner { decoder_inner result ≡ inner }
        // A whole body decodes to its data and leaves the rest.
        ensures whole { (feed : Feed) (body rest : List ℕ) → R.feed inner ≡ Some feed → WholeChunks feed.bytes body rest
            → decoder_coming R.feed result
            ≡ Some (record { bytes = body; behind = Ok (record { bytes = rest; stop = feed.stop }) }) }
        // Any other body decodes to its data before the fault, then reports the fault.
        ensures front { (feed : Feed) (body : List ℕ) (kind : ErrorKind)
            → R.feed inner ≡ Some feed
            → CutChunks feed.bytes feed.stop body kind
            → decoder_coming R.feed result ≡ Some (record { bytes = body; behind = Err kind }) }
        ensures stop { decoder_stop result ≡ None }
    {
        Decoder::new_with(inner, ChunkRules::Lenient)
    }

    /// Decodes a body whose first byte is the reader's next, under these rules.
    pub fn new_with(inner: R, rules: ChunkRules) -> Decoder<R>
        ensures inner { decoder_inner result ≡ inner }
        // A body that is whole under these rules decodes to its data and leaves the rest.
        ensures whole { (feed : Feed) (body rest : List ℕ)
            → R.feed inner ≡ Some feed
            → WholeChunksBy rules feed.bytes body rest
            → decoder_coming R.feed result
            ≡ Some (record { bytes = body; behind = Ok (record { bytes = rest; stop = feed.stop }) }) }
        // Any other body decodes to its data before the fault, then reports the fault.
        ensures front { (feed : Feed) (body : List ℕ) (kind : ErrorKind)
            → R.feed inner ≡ Some feed
            → CutChunksBy rules feed.bytes feed.stop body kind
            → decoder_coming R.feed result ≡ Some (record { bytes = body; behind = Err kind }) }
        ensures stop { decoder_stop result ≡ None }
    {
        Decoder {
            inner,
            decoding: Decoding::new_with(rules),
        }
    }

    /// Reads some data into the front of `buf`, as `Decoding::read` does. After the last byte each read into a nonempty
    /// `buf` reports the end or the fault.
    pub fn read(&mut self, buf: &mut [u8]) -> Result<usize, io::Error>
        ensures reads { ReadsData R.feed self.old self.new result buf.new }
        ensures stop_count { Tells (R.stop_count (decoder_inner self.old))
            (R.stop_count (decoder_inner self.new)) result }
        ensures whole { R.stop_count (decoder_inner self.new)
            ≤ R.stop_count (decoder_inner self.old) + fault_count result }
    {
        self.decoding.read(&mut self.inner, buf)
    }

    /// Returns the inner reader. If the end has been reported, the reader is just after the body.
    pub fn into_inner(self) -> R
        ensures { result ≡ decoder_inner self }
    {
        self.inner
    }
}

impl<R: ReadDevice> ReadDevice for Decoder<R> {
    ghost use Rattle.tiny_http_body.specs.Decoding.{decoder_feed, decoder_inner, ReadsData};

    ghost feed = { decoder_feed R.feed };

    ghost stop_count = { λ d. R.stop_count (decoder_inner d) };

    /// Reads some data, as `Decoder::read` does.
    fn read_in(&mut self, buf: &mut [u8]) -> Result<usize, io::Error>
        ensures device { Reads (decoder_feed R.feed self.old) (decoder_feed R.feed self.new) result buf.new }
        ensures reads { ReadsData R.feed self.old self.new result buf.new }
        ensures stop_count { Tells (R.stop_count (decoder_inner self.old))
            (R.stop_count (decoder_inner self.new)) result }
        ensures whole { R.stop_count (decoder_inner self.new)
            ≤ R.stop_count (decoder_inner self.old) + fault_count result }
    {
        self.read(buf)
    }
}

impl<R: ReadDevice> Read for Decoder<R> {
    ghost use Rattle.std.specs.Io.{ReadsAtMost};
    ghost use Rattle.std.specs.Io.KnownBytes.{ReadConsumes};
    ghost use Rattle.tiny_http_io.specs.Device.{bytes_of};
    ghost use Rattle.tiny_http_body.specs.Decoding.{decoder_feed, decoder_inner, ReadsData};

    ghost remaining = { λ d. bytes_of (decoder_feed R.feed d) };

    /// Reads some data, as `Decoder::read` does.
    fn read(&mut self, buf: &mut [u8]) -> io::Result<usize>
        ensures bound { ReadsAtMost result buf.new }
        ensures bytes { ReadConsumes (bytes_of (decoder_feed R.feed self.old))
            (bytes_of (decoder_feed R.feed self.new)) result buf.new }
        ensures reads { ReadsData R.feed self.old self.new result buf.new }
        ensures stop_count { Tells (R.stop_count (decoder_inner self.old))
            (R.stop_count (decoder_inner self.new)) result }
        ensures whole { R.stop_count (decoder_inner self.new)
            ≤ R.stop_count (decoder_inner self.old) + fault_count result }
    {
        Decoder::read(self, buf)
    }
}
