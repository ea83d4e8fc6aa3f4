//! The device traits: readers that may state the bytes still to come, readers that can read ahead, and writers that
//! count their failures; also devices in memory, wrappers for streams and for tests, and functions that read from and
//! write to devices.
ghost use Rattle.std.specs.Prelude.{◌≡◌, ◌<◌, ◌≤◌, ◌+◌, ℕ, min, false, [], length, take, drop, Option, None, Some, Ok};
ghost use Rattle.std.specs.Prelude.{IfOk, IfErr, OnOk, OnErr, vec_len, flat_map};
ghost use Rattle.std.specs.IoError.{error_kind};
ghost use Rattle.tiny_http_io.specs.Cursor.{cursor_bytes};
ghost use Rattle.tiny_http_io.specs.Device.{Feed, whole_feed, prepended, StopsBy, stop_of, next_count, Sink};
ghost use Rattle.tiny_http_io.specs.Device.{BeginsKnown, HoldsNothing, Reads, ReadsFrom, Tells, Puts, PutsFront};

use std::alloc::Global;
use std::io;
use std::io::{Cursor, ErrorKind, Read, Write};
use std::marker::Model;

/// How a reader's input stops.
#[derive(Clone, Copy, Debug, PartialEq, Eq)]
pub enum Stop {
    /// The end of input: no byte follows.
    End,
    /// A fault: each further read into a nonempty buffer fails with an error of this kind.
    Fault(ErrorKind),
}

/// A reader whose contract may state its feed: the bytes still to come, and how the input stops after them.
pub trait ReadDevice {
    /// The feed, if the reader states it.
    ghost feed: { Self → Option Feed } = { λ _. None };

    /// The number of ends and faults that the reader has reported, if it counts them. A wrapper states the count of its
    /// inner reader. With this count a contract can say that the reader isn't called again after its first end or
    /// fault.
    ghost stop_count: { Self → ℕ } = { λ _. 0 };

    /// Reads some bytes into the front of `buf` and returns how many: 0 at the end, or if `buf` is empty. After the
    /// last byte each read into a nonempty `buf` reports the end or the fault. A read that fails takes no byte.
    fn read_in(&mut self, buf: &mut [u8]) -> Result<usize, io::Error>
        ensures reads { Reads (feed self.old) (feed self.new) result buf.new }
        ensures empty { length buf.new ≡ 0 → (result ≡ Ok 0) × (self.new ≡ self.old) }
        ensures stop_count { Tells (stop_count self.old) (stop_count self.new) result };
}

/// What a reader has read ahead.
#[derive(Clone, Copy, Debug, Drop)]
pub struct Ahead<'a> {
    /// The bytes that no read has returned yet.
    pub bytes: &'a [u8],
    /// How many more bytes the reader can store now.
    pub room: usize,
    /// Whether the last read found that no more bytes had arrived: it returned at least one byte but fewer than it
    /// asked for, or it failed.
    pub is_drained: bool,
}

/// A reader that can read ahead: it stores bytes before they are asked for. Reads return these bytes first.
pub trait ReadAheadDevice: ReadDevice {
    /// Returns what was read ahead. Its bytes are the first of the feed.
    fn ahead(&self) -> Ahead<'_>
        ensures front { (rest : Option Feed) × (Self.feed self.now ≡ prepended result.bytes.now rest) };

    /// Reads ahead once, waiting as briefly as it can, and returns the number of bytes read: 0 at the end, or if there
    /// is no room. Fails with `WouldBlock` if no bytes have arrived. The feed is unchanged, even if the call fails.
    fn read_ahead(&mut self) -> Result<usize, io::Error>
        ensures feed { Self.feed self.new ≡ Self.feed self.old }
        ensures stop_count { Self.stop_count self.new ≤ Self.stop_count self.old + 1 };

    /// Frees the memory for bytes that are read ahead, if no such bytes are stored.
    fn release_ahead(&mut self)
        ensures feed { Self.feed self.new ≡ Self.feed self.old }
        ensures stop_count { Self.stop_count self.new ≡ Self.stop_count self.old };
}

/// A writer that counts its failures. Its contract may state the bytes that it took and its last failure.
pub trait WriteDevice {
    /// The writer's sink: the bytes that the writer took, if it states them, and those of them that it has sent on; its
    /// failures; and whether it has ended.
    ghost sink: { Self → Sink };

    /// Returns how many writes and flushes have failed, at most 2^64 - 1.
    fn failures(&self) -> u64
        ensures count { result ≡ (sink self.now).failures }
        // A law of every writer, stated here for want of a better place: the bytes that a writer has sent on are a
        // prefix of those that it took, if it states these. It holds back the others.
        ensures sent { BeginsKnown (sink self.now).sent (sink self.now).taken };

    /// Writes some bytes from the front of `buf` and returns how many: at least one unless `buf` is empty. A writer
    /// that has ended returns such a number too, but takes none of the bytes.
    fn write_out(&mut self, buf: &[u8]) -> Result<usize, io::Error>
        ensures { PutsFront (sink self.old) (sink self.new) result buf.now };

    /// Sends on the bytes that the writer holds back. If the flush fails, bytes that the writer took and didn't send on
    /// may be lost; otherwise the bytes that the writer took don't change.
    fn flush_out(&mut self) -> Result<(), io::Error>
        ensures puts { Puts (sink self.old) (sink self.new) result [] }
        ensures sent { OnOk result ((sink self.new).has_ended ≡ false → HoldsNothing (sink self.new)) };

    /// Signals that no byte follows (RFC 9112, section 9.6). The caller must write nothing more.
    ///
    /// The writer's `sink` doesn't change. A writer that can't signal the end does nothing, as this default does. That
    /// other writers signal the end is tested, not proved.
    fn end_out(&mut self)
        ensures { sink self.new ≡ sink self.old }
    {}
}

/// Copies bytes from the front of `from` to the front of `to` and returns how many: the length of the shorter slice.
/// The rest of `to` doesn't change.
pub fn copy_front(from: &[u8], to: &mut [u8]) -> usize
    ensures count { result ≡ min (length from.now) (length to.old) }
    ensures len { length to.new ≡ length to.old }
    ensures copied { take result to.new ≡ take result from.now }
    ensures rest { drop result to.new ≡ drop result to.old }
{
    let n = from.len().min(to.len());
    to[..n].copy_from_slice(&from[..n]);
    n
}

/// A reader over bytes in memory, which stops after them with an end or a given fault. A contract sees a `Canned` as
/// its feed.
#[derive(Drop)]
pub struct Canned {
    bytes: Vec<u8>,
    at: usize,
    stop: Stop,
}

impl Model for Canned {
    ghost Value = { Feed };

    ghost view = { λ c. record { bytes = drop c.at c.bytes.items; stop = c.stop } };

    ghost invariant = { λ c. c.at ≤ vec_len c.bytes };
}

impl Canned {
    /// Makes a reader that returns these bytes. After them each read into a nonempty buffer reports the end, or a fault
    /// of kind `fault` if that is given.
    pub fn new(bytes: Vec<u8>, fault: Option<ErrorKind>) -> Canned
        ensures { result ≡ record { bytes = bytes.items; stop = stop_of fault } }
    {
        let stop = match fault {
            None => Stop::End,
            Some(kind) => Stop::Fault(kind),
        };
        Canned { bytes, at: 0, stop }
    }
}

impl ReadDevice for Canned {
    ghost feed = { λ c. Some c };

    /// Copies the next bytes. After the last one, a read into a nonempty buffer reports the end or the fault.
    fn read_in(&mut self, buf: &mut [u8]) -> Result<usize, io::Error> {
        if buf.is_empty() {
            return Ok(0);
        }
        let n = copy_front(&self.bytes[self.at..], buf);
        if n == 0
            && let Stop::Fault(kind) = self.stop
        {
            return Err(kind.into());
        }
        self.at += n;
        Ok(n)
    }
}

impl ReadDevice for Cursor<Vec<u8>> {
    ghost feed = { λ c. Some (whole_feed (cursor_bytes c)) };

    /// Copies the next bytes. Never fails.
    fn read_in(&mut self, buf: &mut [u8]) -> Result<usize, io::Error> {
        self.read(buf)
    }
}

impl ReadDevice for io::Empty {
    ghost feed = { λ _. Some (whole_feed []) };

    /// Reports the end.
    fn read_in(&mut self, _buf: &mut [u8]) -> Result<usize, io::Error> {
        Ok(0)
    }
}

/// A wrapper that makes a device from any stream: it counts the writes and flushes that failed, and keeps the kind of
/// the last failure. As a reader it states no feed; as a writer it states no bytes.
#[derive(Drop)]
pub struct Metered<S> {
    inner: S,
    failures: u64,
    last: Option<ErrorKind>,
}

impl<S> Metered<S> {
    ghost use Rattle.tiny_http_io.specs.Metered.{metered_inner, metered_sink};

    /// Wraps a stream. The count starts at 0.
    pub fn new(inner: S) -> Metered<S>
        ensures inner { metered_inner result ≡ inner }
        ensures sink { metered_sink result
            ≡ record { taken = None; sent = []; failures = 0; last_kind = None; has_ended = false } }
    {
        Metered {
            inner,
            failures: 0,
            last: None,
        }
    }

    // Counts a failure of this kind.
    fn count(&mut self, kind: ErrorKind)
        ensures { self.new ≡ record self.old { failures = next_count self.old.failures; last = Some kind } }
    {
        self.failures = next(self.failures);
        self.last = Some(kind);
    }

    /// Returns the inner stream.
    pub fn into_inner(self) -> S
        ensures { result ≡ metered_inner self }
    {
        self.inner
    }
}

impl<S: Read> ReadDevice for Metered<S> {
    ghost use Rattle.std.specs.Io.KnownBytes.{ReadConsumes};
    ghost use Rattle.tiny_http_io.specs.Metered.{metered_inner};

    /// Reads once from the inner stream. A read into an empty buffer doesn't reach the stream.
    fn read_in(&mut self, buf: &mut [u8]) -> Result<usize, io::Error>
        ensures reads { Reads None None result buf.new }
        ensures empty { length buf.new ≡ 0 → (result ≡ Ok 0) × (self.new ≡ self.old) }
        // The bytes came from the inner stream, if it states those still to come.
        ensures stream { ReadConsumes (S.remaining (metered_inner self.old)) (S.remaining (metered_inner self.new))
            result buf.new }
    {
        if buf.is_empty() {
            return Ok(0);
        }
        self.inner.read(buf)
    }
}

impl<S: Write> WriteDevice for Metered<S> {
    ghost use Rattle.std.specs.Io.KnownBytes.{Keeps, WriteAppends};
    ghost use Rattle.tiny_http_io.specs.Metered.{metered_inner, metered_sink};

    ghost sink = { metered_sink };

    /// Returns how many writes and flushes have failed.
    fn failures(&self) -> u64 {
        self.failures
    }

    /// Writes once to the inner stream. If the stream takes nothing from a nonempty buffer, this fails with
    /// `WriteZero`.
    fn write_out(&mut self, buf: &[u8]) -> Result<usize, io::Error>
        ensures puts { PutsFront (metered_sink self.old) (metered_sink self.new) result buf.now }
        // If the inner stream states its bytes, they grew by the first n bytes of `buf` if its write returned n, and
        // didn't change if its write failed.
        ensures stream { WriteAppends (S.contents (metered_inner self.old)) (S.contents (metered_inner self.new))
            result buf.now }
    {
        let outcome = match self.inner.write(buf) {
            Ok(0) if !buf.is_empty() => Err(ErrorKind::WriteZero.into()),
            outcome => outcome,
        };
        if let Err(e) = &outcome {
            self.count(e.kind());
        }
        outcome
    }

    /// Flushes the inner stream. No contract says so, since std's clauses on a flush say only that the bytes don't
    /// change.
    fn flush_out(&mut self) -> Result<(), io::Error>
        ensures puts { Puts (metered_sink self.old) (metered_sink self.new) result [] }
        ensures sent { OnOk result ((metered_sink self.new).has_ended ≡ false → HoldsNothing (metered_sink self.new)) }
        // The inner stream's bytes don't change, if it states them.
        ensures stream { Keeps (S.contents (metered_inner self.old)) (S.contents (metered_inner self.new)) }
    {
        let outcome = self.inner.flush();
        if let Err(e) = &outcome {
            self.count(e.kind());
        }
        outcome
    }
}

// Returns the count after one more failure, at most 2^64 - 1.
fn next(failures: u64) -> u64
    ensures { result ≡ next_count failures }
{
    failures.saturating_add(1)
}

/// A writer into memory that takes a given number of bytes, and fails each nonempty write after them. It keeps the
/// bytes.
#[derive(Drop)]
pub struct Budget {
    bytes: Vec<u8>,
    room: usize,
    kind: ErrorKind,
    failures: u64,
    last: Option<ErrorKind>,
}

impl Budget {
    ghost use Rattle.tiny_http_io.specs.Budget.{budget_bytes, budget_room, budget_kind, budget_sink};

    /// Makes a writer that takes `room` bytes and then fails with an error of this kind. A write fails with
    /// `OutOfMemory` if memory for the bytes can't be allocated.
    pub fn new(alloc: Global, room: usize, kind: ErrorKind) -> Budget
        ensures sink { budget_sink result
            ≡ record { taken = Some []; sent = []; failures = 0; last_kind = None; has_ended = false } }
        ensures room { budget_room result ≡ room }
        ensures kind { budget_kind result ≡ kind }
    {
        Budget::from_vec(Vec::new(alloc), room, kind)
    }

    /// Makes a writer as `new` does, but one that has already taken these bytes. They don't count toward `room`.
    pub fn from_vec(bytes: Vec<u8>, room: usize, kind: ErrorKind) -> Budget
        ensures sink { budget_sink result ≡ record
            { taken = Some bytes.items; sent = bytes.items; failures = 0; last_kind = None; has_ended = false } }
        ensures room { budget_room result ≡ room }
        ensures kind { budget_kind result ≡ kind }
    {
        Budget {
            bytes,
            room,
            kind,
            failures: 0,
            last: None,
        }
    }

    /// Returns the bytes that the writer took.
    pub fn into_bytes(self) -> Vec<u8>
        ensures { result.items ≡ budget_bytes self }
    {
        let Budget { bytes, .. } = self;
        bytes
    }

    /// Borrows the bytes that the writer took.
    pub fn bytes(&self) -> &[u8]
        ensures { result.now ≡ budget_bytes self.now }
    {
        self.bytes.as_slice()
    }

    // Counts a failure of this kind and returns it as an error.
    fn fail(&mut self, kind: ErrorKind) -> io::Error
        ensures kind { error_kind result ≡ kind }
        ensures rest { self.new ≡ record self.old { failures = next_count self.old.failures; last = Some kind } }
    {
        self.failures = next(self.failures);
        self.last = Some(kind);
        kind.into()
    }
}

impl WriteDevice for Budget {
    ghost use Rattle.std.specs.Prelude.{◌+◌, IsOk};
    ghost use Rattle.tiny_http_io.specs.Budget.{budget_bytes, budget_room, budget_kind, budget_sink};

    ghost sink = { budget_sink };

    /// Returns how many writes have failed.
    fn failures(&self) -> u64 {
        self.failures
    }

    /// Takes as many bytes as there is room for. A nonempty write fails, and takes none, if there is no room or memory
    /// can't be allocated.
    fn write_out(&mut self, buf: &[u8]) -> Result<usize, io::Error>
        ensures puts { PutsFront (budget_sink self.old) (budget_sink self.new) result buf.now }
        ensures count { IfOk result (λ n. n ≡ min (length buf.now) (budget_room self.old)) }
        ensures room { IfOk result (λ n. budget_room self.old ≡ n + budget_room self.new) }
        ensures empty { length buf.now ≡ 0 → (result ≡ Ok 0) × (self.new ≡ self.old) }
        ensures full { budget_room self.old ≡ 0 → IfErr result (λ e. error_kind e ≡ budget_kind self.old) }
        ensures memory { 0 < budget_room self.old → IfErr result (λ e. error_kind e ≡ ErrorKind.OutOfMemory) }
        ensures none { OnErr result ((budget_bytes self.new ≡ budget_bytes self.old)
            × (budget_room self.new ≡ budget_room self.old)) }
        ensures kind { budget_kind self.new ≡ budget_kind self.old }
    {
        let n = buf.len().min(self.room);
        if n == 0 {
            return if buf.is_empty() {
                Ok(0)
            } else {
                Err(self.fail(self.kind))
            };
        }
        match self.bytes.extend_from_slice(&buf[..n]) {
            Ok(()) => {
                self.room -= n;
                Ok(n)
            }
            Err(_) => Err(self.fail(ErrorKind::OutOfMemory)),
        }
    }

    /// Does nothing, since the writer holds no bytes back.
    fn flush_out(&mut self) -> Result<(), io::Error>
        ensures puts { Puts (budget_sink self.old) (budget_sink self.new) result [] }
        ensures sent { OnOk result ((budget_sink self.new).has_ended ≡ false → HoldsNothing (budget_sink self.new)) }
        ensures ok { IsOk result }
        ensures unchanged { self.new ≡ self.old }
    {
        Ok(())
    }
}

/// Reads once from the device, as `read_in` does, but with its contract stated by cases.
pub fn read_some<R: ReadDevice>(reader: &mut R, buf: &mut [u8]) -> Result<usize, io::Error>
    ensures bound { IfOk result (λ n. n ≤ length buf.new) }
    ensures bytes { ReadsFrom (R.feed reader.old) (R.feed reader.new) result buf.new }
    ensures stop_count { Tells (R.stop_count reader.old) (R.stop_count reader.new) result }
{
    reader.read_in(buf)
}

/// Reads at most `most` bytes into the front of `buf` and returns how many. Returns 0 and changes nothing if `most` is
/// 0 or `buf` is empty.
pub fn read_front<R: ReadDevice>(
    reader: &mut R,
    most: usize,
    buf: &mut [u8],
) -> Result<usize, io::Error>
    ensures most { IfOk result (λ n. n ≤ most) }
    ensures bound { IfOk result (λ n. n ≤ length buf.new) }
    // The bytes are the next ones of the feed.
    ensures bytes { IfOk result (λ n. R.feed reader.old ≡ prepended (take n buf.new) (R.feed reader.new)) }
    ensures end { IfOk result (λ n. n ≡ 0 → 0 < most → 0 < length buf.new → StopsBy Stop.End (R.feed reader.old)) }
    ensures fault { IfErr result (λ e. StopsBy (Stop.Fault (error_kind e)) (R.feed reader.old)) }
    ensures again { OnErr result (R.feed reader.new ≡ R.feed reader.old) }
    ensures empty { min most (length buf.old) ≡ 0 → (result ≡ Ok 0) × (reader.new ≡ reader.old) }
    ensures len { length buf.new ≡ length buf.old }
    ensures stop_count { Tells (R.stop_count reader.old) (R.stop_count reader.new) result }
{
    let room = most.min(buf.len());
    let front = &mut buf[..room];
    reader.read_in(front)
}

/// Writes all the bytes, in as many calls to the writer as are needed. Stops at the first call that fails, and returns
/// its error.
pub fn put<W: WriteDevice>(writer: &mut W, bytes: &[u8]) -> Result<(), io::Error>
    ensures { Puts (W.sink writer.old) (W.sink writer.new) result bytes.now }
{
    let mut at = 0;
    while at < bytes.len() {
        at += writer.write_out(&bytes[at..])?;
    }
    Ok(())
}

/// Writes the pieces one after another, as `put` does.
pub fn put_all<W: WriteDevice>(writer: &mut W, pieces: &[&[u8]]) -> Result<(), io::Error>
    ensures { Puts (W.sink writer.old) (W.sink writer.new) result (flat_map (λ p. p.now) pieces.now) }
{
    for piece in pieces {
        put(writer, piece)?;
    }
    Ok(())
}

/// A reader that returns another reader's bytes in small pieces. Intended for testing code that reads.
#[derive(Drop)]
pub struct ByPieces<R> {
    inner: R,
    most: usize,
}

impl<R> ByPieces<R> {
    ghost use Rattle.std.specs.Prelude.{max};
    ghost use Rattle.tiny_http_io.specs.Pieces.{pieces_inner, pieces_most};

    /// Limits each read from `inner` to `most` bytes, or to one byte if `most` is 0.
    pub fn new(inner: R, most: usize) -> ByPieces<R>
        ensures inner { pieces_inner result ≡ inner }
        ensures most { pieces_most result ≡ max most 1 }
    {
        ByPieces { inner, most }
    }

    /// Returns the inner reader.
    pub fn into_inner(self) -> R
        ensures { result ≡ pieces_inner self }
    {
        self.inner
    }
}

impl<R: ReadDevice> ReadDevice for ByPieces<R> {
    ghost use Rattle.tiny_http_io.specs.Pieces.{pieces_inner, pieces_most};

    ghost feed = { λ p. R.feed (pieces_inner p) };

    ghost stop_count = { λ p. R.stop_count (pieces_inner p) };

    /// Reads once from the inner reader, into the front of `buf`.
    fn read_in(&mut self, buf: &mut [u8]) -> Result<usize, io::Error>
        ensures reads { Reads (R.feed (pieces_inner self.old)) (R.feed (pieces_inner self.new)) result buf.new }
        ensures empty { length buf.new ≡ 0 → (result ≡ Ok 0) × (self.new ≡ self.old) }
        ensures most { IfOk result (λ n. n ≤ pieces_most self.old) }
        ensures stays { pieces_most self.new ≡ pieces_most self.old }
        ensures stop_count { Tells (R.stop_count (pieces_inner self.old))
            (R.stop_count (pieces_inner self.new)) result }
    {
        read_front(&mut self.inner, self.most.max(1), buf)
    }
}

/// A reader or writer with a fault injected into one chosen call, or into none. That call doesn't reach the inner
/// stream; every other call does, except a read into an empty buffer, and may fail as the inner stream does. A
/// `FailsAt` is a `ReadDevice` over a `ReadDevice`, and a `Write` over a `Write`. Intended for testing code that reads
/// and writes.
#[derive(Drop)]
pub struct FailsAt<S> {
    inner: S,
    // The number of calls left up to and including the chosen one; 0 if no fault is still to be injected.
    calls: u64,
    kind: ErrorKind,
    has_failed: bool,
}

impl<S> FailsAt<S> {
    ghost use Rattle.tiny_http_io.specs.FailsAt.{fails_at_inner, calls_left, fault_kind, has_failed, Counts};

    /// Wraps a stream so that the `nth` call, counted from 1, fails with this kind. If `nth` is 0, no fault is
    /// injected. Reads, writes and flushes all count, except a read into an empty buffer.
    pub fn new(inner: S, nth: u64, kind: ErrorKind) -> FailsAt<S>
        ensures inner { fails_at_inner result ≡ inner }
        ensures calls { calls_left result ≡ nth }
        ensures kind { fault_kind result ≡ kind }
        ensures fresh { has_failed result ≡ false }
    {
        FailsAt {
            inner,
            calls: nth,
            kind,
            has_failed: false,
        }
    }

    /// Returns whether the chosen call has been made, and has failed.
    pub fn has_failed(&self) -> bool
        ensures { result ≡ has_failed self.now }
    {
        self.has_failed
    }

    /// Returns the inner stream.
    pub fn into_inner(self) -> S
        ensures { result ≡ fails_at_inner self }
    {
        self.inner
    }

    // Counts a call. Fails if it is the chosen one.
    fn count(&mut self) -> Result<(), io::Error>
        ensures { Counts self.old self.new result }
    {
        if self.calls == 1 {
            self.calls = 0;
            self.has_failed = true;
            return Err(self.kind.into());
        }
        self.calls = self.calls.saturating_sub(1);
        Ok(())
    }
}

impl<S: ReadDevice> ReadDevice for FailsAt<S> {
    ghost use Rattle.std.specs.Prelude.{◌≢◌};
    ghost use Rattle.tiny_http_io.specs.FailsAt.{fails_at_inner, calls_left, IsCounted, FailsNow};

    ghost stop_count = { λ f. S.stop_count (fails_at_inner f) };

    /// Reads once from the inner reader, or fails. No feed is stated, since bytes may follow the fault.
    fn read_in(&mut self, buf: &mut [u8]) -> Result<usize, io::Error>
        ensures reads { Reads None None result buf.new }
        ensures empty { length buf.new ≡ 0 → (result ≡ Ok 0) × (self.new ≡ self.old) }
        ensures fails { 0 < length buf.new → calls_left self.old ≡ 1 → FailsNow self.old self.new result }
        ensures counts { 0 < length buf.new → calls_left self.old ≢ 1 → IsCounted self.old self.new }
        // The bytes came from the inner reader, if it states those still to come.
        ensures stream { calls_left self.old ≢ 1
            → ReadsFrom (S.feed (fails_at_inner self.old)) (S.feed (fails_at_inner self.new)) result buf.new }
        ensures stop_count { Tells (S.stop_count (fails_at_inner self.old))
            (S.stop_count (fails_at_inner self.new)) result }
    {
        if buf.is_empty() {
            return Ok(0);
        }
        self.count()?;
        self.inner.read_in(buf)
    }
}

impl<S: Write> Write for FailsAt<S> {
    ghost use Rattle.std.specs.Prelude.{◌≢◌};
    ghost use Rattle.std.specs.Io.{WritesAtMost};
    ghost use Rattle.std.specs.Io.KnownBytes.{Keeps, WriteAppends};
    ghost use Rattle.tiny_http_io.specs.FailsAt.{fails_at_inner, calls_left, IsCounted, FailsNow};

    ghost contents = { λ f. S.contents (fails_at_inner f) };

    /// Writes once to the inner stream, or fails.
    fn write(&mut self, buf: &[u8]) -> io::Result<usize>
        ensures bound { WritesAtMost result buf.now }
        ensures bytes { WriteAppends (S.contents (fails_at_inner self.old)) (S.contents (fails_at_inner self.new))
            result buf.now }
        ensures fails { calls_left self.old ≡ 1 → FailsNow self.old self.new result }
        ensures counts { calls_left self.old ≢ 1 → IsCounted self.old self.new }
    {
        self.count()?;
        self.inner.write(buf)
    }

    /// Flushes the inner stream, or fails. No contract says that it is flushed, since std's clauses on a flush say only
    /// that the bytes don't change.
    fn flush(&mut self) -> io::Result<()>
        ensures bytes { Keeps (S.contents (fails_at_inner self.old)) (S.contents (fails_at_inner self.new)) }
        ensures fails { calls_left self.old ≡ 1 → FailsNow self.old self.new result }
        ensures counts { calls_left self.old ≢ 1 → IsCounted self.old self.new }
    {
        self.count()?;
        self.inner.flush()
    }
}

impl<R: ReadDevice> ReadDevice for &mut R {
    ghost feed = { λ r. R.feed r.now };

    ghost stop_count = { λ r. R.stop_count r.now };

    /// Reads from the borrowed reader.
    fn read_in(&mut self, buf: &mut [u8]) -> Result<usize, io::Error> {
        ReadDevice::read_in(&mut **self, buf)
    }
}

impl<W: WriteDevice> WriteDevice for &mut W {
    ghost sink = { λ w. W.sink w.now };

    /// Returns the borrowed writer's failure count.
    fn failures(&self) -> u64 {
        WriteDevice::failures(&**self)
    }

    /// Writes to the borrowed writer.
    fn write_out(&mut self, buf: &[u8]) -> Result<usize, io::Error> {
        WriteDevice::write_out(&mut **self, buf)
    }

    /// Flushes the borrowed writer.
    fn flush_out(&mut self) -> Result<(), io::Error> {
        WriteDevice::flush_out(&mut **self)
    }

    /// Makes the borrowed writer signal that no byte follows, if it can.
    fn end_out(&mut self) {
        WriteDevice::end_out(&mut **self)
    }
}
