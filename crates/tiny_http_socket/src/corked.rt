//! A writer with a buffer, which sends the bytes of several writes together.
ghost use Rattle.std.specs.Prelude.{◌≡◌, ◌≢◌, ◌≤◌, ◌++◌, false, [], length, vec_len, None, Some, Ok, IfErr};
ghost use Rattle.std.specs.Prelude.{IfSome, OnOk, OnErr, IsOk};
ghost use Rattle.std.specs.IoError.{error_kind};
ghost use Rattle.tiny_http_io.specs.Device.{BeginsKnown, Failed, Puts, PutsFront, HoldsNothing, next_count};
ghost use Rattle.tiny_http_socket.specs.declared.corked.TheConstants.{ROOM};
ghost use Rattle.tiny_http_socket.specs.declared.corked.State.TheVariants.{Open, Ended};

use crate::write_both::WriteBoth;
use std::alloc::Global;
use std::io;
use std::io::ErrorKind;
use std::marker::Model;
use tiny_http_io::device::{WriteDevice, put};

/// The capacity of the buffer, in bytes.
pub const ROOM: usize = 16_384;

// The state of a `Corked`: whether it takes bytes, and whether its fault has been reported.
#[derive(Clone, Copy, Debug, PartialEq, Eq)]
enum State {
    // The writer takes bytes.
    Open,
    // The inner writer has failed with a fault of this kind, which the next write or flush reports.
    Broken(ErrorKind),
    // The inner writer has failed, and a call has reported the fault.
    Ended,
}

/// A writer that buffers up to 16,384 bytes. It sends the buffered bytes before bytes that don't fit, and in
/// `flush_out`, `write_past` and `send_waiting`. After its first fault it sends nothing. The write or flush that
/// encountered the fault reports it; if `send_waiting` encountered it, the next write or flush does. After that report
/// each write discards its bytes and returns `Ok`, and each flush returns `Ok`.
#[derive(Drop)]
pub struct Corked<W: WriteBoth> {
    writer: W,
    waiting: Vec<u8>,
    state: State,
    failures: u64,
    last: Option<ErrorKind>,
    ghost bound: { vec_len waiting ≤ ROOM },
    ghost none: { state ≢ Open → waiting.items ≡ [] },
}

impl<W: WriteBoth> Model for Corked<W> {
    ghost use Rattle.tiny_http_socket.specs.Corked.{CorkedState};

    ghost Value = { CorkedState W };

    ghost view = { λ c. record {
      waiting = c.waiting.items;
      state = c.state;
      failures = c.failures;
      last = c.last;
      writer = c.writer;
      sink = W.sink c.writer;
    } };
}

impl<W: WriteBoth + Drop> Corked<W> {
    ghost use Rattle.tiny_http_socket.specs.Corked.{corked_sink, unreported};

    /// Wraps a writer with an empty buffer and no failures counted. The first write that needs the buffer allocates its
    /// memory.
    pub fn new(alloc: Global, writer: W) -> Corked<W>
        ensures writer { (result.writer ≡ writer) × (result.sink ≡ W.sink writer) }
        ensures none { (result.waiting ≡ []) × (unreported result ≡ None) }
        ensures sink { corked_sink result ≡ record (W.sink writer) { failures = 0; last_kind = None } }
    {
        Corked {
            writer,
            waiting: Vec::new(alloc),
            state: State::Open,
            failures: 0,
            last: None,
        }
    }
}

impl<W: WriteBoth> Corked<W> {
    ghost use Rattle.tiny_http_socket.specs.Corked.{corked_sink, unreported, PassesBehind, ReportsFault, SendsWaiting};

    /// Returns the buffered bytes.
    pub fn waiting(&self) -> &[u8]
        ensures bytes { result.now ≡ self.now.waiting }
        ensures bound { length result.now ≤ ROOM }
    {
        self.waiting.as_slice()
    }

    /// Frees the memory of the buffer, if no bytes are buffered. The next write that needs it allocates it again.
    pub fn release(&mut self)
        ensures { self.new ≡ self.old }
    {
        if self.waiting.is_empty() {
            self.waiting = Vec::new(*self.waiting.allocator());
        }
    }

    /// Returns the inner writer, and discards the buffered bytes.
    pub fn into_inner(self) -> W
        ensures { result ≡ self.writer }
    {
        let Corked { writer, .. } = self;
        writer
    }

    // Ends the writer with this fault: discards the buffered bytes, counts the fault, and returns it for the caller to
    // report.
    fn end(&mut self, fault: io::Error) -> io::Error
        ensures kind { error_kind result ≡ error_kind fault }
        ensures begins { BeginsKnown self.old.sink.sent self.old.sink.taken }
        ensures ended { self.new ≡ record self.old
            { waiting = []; state = Ended; failures = next_count self.old.failures; last = Some (error_kind fault) } }
    {
        let _ = self.writer.failures();
        self.waiting.clear();
        self.state = State::Ended;
        self.failures = self.failures.saturating_add(1);
        self.last = Some(fault.kind());
        fault
    }

    // Sends the buffered bytes, and flushes the inner writer.
    fn send(&mut self) -> Result<(), io::Error>
        ensures puts { Puts self.old.sink self.new.sink result self.old.waiting }
        ensures sent { OnOk result (self.new.sink.has_ended ≡ false → HoldsNothing self.new.sink) }
        ensures rest { self.new ≡ record self.old { waiting = []; writer = self.new.writer; sink = self.new.sink } }
    {
        let sent = put(&mut self.writer, self.waiting.as_slice());
        self.waiting.clear();
        sent?;
        self.writer.flush_out()
    }

    // Writes the buffered bytes and then `buf` to the inner writer, and returns how many bytes of `buf` it took.
    fn pass(&mut self, buf: &[u8]) -> Result<usize, io::Error>
        ensures puts { PassesBehind self.old.sink self.new.sink self.old.waiting result buf.now }
        ensures rest { self.new ≡ record self.old { waiting = []; writer = self.new.writer; sink = self.new.sink } }
    {
        let held = self.waiting.len();
        let gone = self.writer.write_both(self.waiting.as_slice(), buf);
        let n = match gone {
            Ok(n) => n,
            Err(fault) => {
                self.waiting.clear();
                return Err(fault);
            }
        };
        if n > held {
            self.waiting.clear();
            return Ok(n - held);
        }
        let sent = put(&mut self.writer, &self.waiting[n..]);
        self.waiting.clear();
        if let Err(fault) = sent {
            return Err(fault);
        }
        self.writer.write_out(buf)
    }

    // Sends the buffered bytes with some bytes of `buf`, at least one unless `buf` is empty, and returns their number.
    // A fault ends the writer.
    fn take_past(&mut self, buf: &[u8]) -> Result<usize, io::Error>
        requires open { self.old.state ≡ Open }
        ensures puts { PutsFront (corked_sink self.old) (corked_sink self.new) result buf.now }
        ensures fault { IfErr result
            (λ e. Failed self.old.sink self.new.sink (self.old.waiting ++ buf.now) (error_kind e)) }
        ensures none { self.new.waiting ≡ [] }
        ensures ends { OnErr result (self.new.state ≡ Ended) }
    {
        match self.pass(buf) {
            Ok(n) => Ok(n),
            Err(fault) => Err(self.end(fault)),
        }
    }

    // Takes some bytes of `buf`, at least one unless `buf` is empty, and returns their number. If `buf` doesn't fit, or
    // if memory for the buffer can't be allocated, sends the buffered bytes with some bytes of `buf`. A fault ends the
    // writer.
    fn take_some(&mut self, buf: &[u8]) -> Result<usize, io::Error>
        requires open { self.old.state ≡ Open }
        ensures puts { PutsFront (corked_sink self.old) (corked_sink self.new) result buf.now }
        ensures fault { IfErr result
            (λ e. Failed self.old.sink self.new.sink (self.old.waiting ++ buf.now) (error_kind e)) }
        ensures ends { OnErr result (self.new.state ≡ Ended) }
    {
        if self.waiting.capacity() == 0 {
            let _ = self.waiting.reserve_exact(ROOM);
        }
        let room = ROOM.saturating_sub(self.waiting.len());
        if buf.len() <= room && self.waiting.extend_from_slice(buf).is_ok() {
            return Ok(buf.len());
        }
        self.take_past(buf)
    }

    // Sends the buffered bytes. A fault ends the writer.
    fn flush(&mut self) -> Result<(), io::Error>
        requires open { self.old.state ≡ Open }
        ensures fault { IfErr result (λ e. Failed self.old.sink self.new.sink self.old.waiting (error_kind e)) }
        ensures puts { Puts (corked_sink self.old) (corked_sink self.new) result [] }
        ensures sent { OnOk result ((corked_sink self.new).has_ended ≡ false → HoldsNothing (corked_sink self.new)) }
        ensures none { self.new.waiting ≡ [] }
        ensures ends { OnErr result (self.new.state ≡ Ended) }
    {
        match self.send() {
            Ok(()) => Ok(()),
            Err(fault) => Err(self.end(fault)),
        }
    }

    /// Writes as `write_out` does, but leaves the buffer empty: sends the buffered bytes with some bytes of `buf`.
    pub fn write_past(&mut self, buf: &[u8]) -> Result<usize, io::Error>
        ensures puts { PutsFront (corked_sink self.old) (corked_sink self.new) result buf.now }
        ensures none { self.new.waiting ≡ [] }
        ensures fault { self.old.state ≡ Open
            → IfErr result (λ e. Failed self.old.sink self.new.sink (self.old.waiting ++ buf.now) (error_kind e)) }
        ensures reported { IfSome (unreported self.old) (λ kind. ReportsFault self.old self.new result kind) }
        // After a fault nothing more is taken.
        ensures ends { OnErr result (self.new.state ≡ Ended) }
        ensures ended { self.old.state ≡ Ended → (result ≡ Ok (length buf.now)) × (self.new ≡ self.old) }
    {
        match self.state {
            State::Open => self.take_past(buf),
            State::Broken(kind) => Err(self.end(kind.into())),
            State::Ended => Ok(buf.len()),
        }
    }

    /// Sends the buffered bytes, and flushes the inner writer. The buffer is then empty. A fault isn't reported here,
    /// but by the next write or flush. Does nothing after a fault.
    pub fn send_waiting(&mut self)
        ensures sends { SendsWaiting (corked_sink self.old) (corked_sink self.new) (unreported self.new) }
        ensures none { self.new.waiting ≡ [] }
        ensures kept { self.old.state ≢ Open → self.new ≡ self.old }
        // The fault is the inner writer's.
        ensures fault { self.old.state ≡ Open
            → IfSome (unreported self.new) (λ kind. Failed self.old.sink self.new.sink self.old.waiting kind) }
    {
        if self.state != State::Open {
            return;
        }
        if let Err(fault) = self.send() {
            self.state = State::Broken(fault.kind());
        }
    }
}

impl<W: WriteBoth> WriteDevice for Corked<W> {
    ghost use Rattle.tiny_http_socket.specs.Corked.{corked_sink, unreported, ReportsFault};

    ghost sink = { corked_sink };

    /// Returns the number of faults reported.
    fn failures(&self) -> u64 {
        let _ = self.writer.failures();
        self.failures
    }

    /// Buffers all bytes of `buf` if they fit and memory for the buffer can be allocated. Otherwise sends the buffered
    /// bytes with some bytes of `buf`. Fails with the inner writer's fault, or, without taking a byte, with one that
    /// `send_waiting` encountered and no call has reported.
    fn write_out(&mut self, buf: &[u8]) -> Result<usize, io::Error>
        ensures puts { PutsFront (corked_sink self.old) (corked_sink self.new) result buf.now }
        ensures fault { self.old.state ≡ Open
            → IfErr result (λ e. Failed self.old.sink self.new.sink (self.old.waiting ++ buf.now) (error_kind e)) }
        ensures reported { IfSome (unreported self.old) (λ kind. ReportsFault self.old self.new result kind) }
        // After a fault nothing more is taken.
        ensures ends { OnErr result (self.new.state ≡ Ended) }
        ensures ended { self.old.state ≡ Ended → (result ≡ Ok (length buf.now)) × (self.new ≡ self.old) }
    {
        match self.state {
            State::Open => self.take_some(buf),
            State::Broken(kind) => Err(self.end(kind.into())),
            State::Ended => Ok(buf.len()),
        }
    }

    /// Sends the buffered bytes, and flushes the inner writer. Fails with the inner writer's fault, or with one that
    /// `send_waiting` encountered and no call has reported.
    fn flush_out(&mut self) -> Result<(), io::Error>
        ensures puts { Puts (corked_sink self.old) (corked_sink self.new) result [] }
        ensures sent { OnOk result ((corked_sink self.new).has_ended ≡ false → HoldsNothing (corked_sink self.new)) }
        ensures none { self.new.waiting ≡ [] }
        ensures fault { self.old.state ≡ Open
            → IfErr result (λ e. Failed self.old.sink self.new.sink self.old.waiting (error_kind e)) }
        ensures reported { IfSome (unreported self.old) (λ kind. ReportsFault self.old self.new result kind) }
        ensures ends { OnErr result (self.new.state ≡ Ended) }
        ensures ended { self.old.state ≡ Ended → IsOk result × (self.new ≡ self.old) }
    {
        match self.state {
            State::Open => self.flush(),
            State::Broken(kind) => Err(self.end(kind.into())),
            State::Ended => Ok(()),
        }
    }

    /// Ends the inner writer. If bytes are buffered, does nothing: the caller must send them first.
    fn end_out(&mut self)
        ensures sink { corked_sink self.new ≡ corked_sink self.old }
        // Only the inner writer changes.
        ensures rest { self.new ≡ record self.old { writer = self.new.writer } }
    {
        if self.waiting.is_empty() {
            self.writer.end_out();
        }
    }
}
