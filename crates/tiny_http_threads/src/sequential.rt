//! Readers over one inner reader, and writers over one inner writer, that take turns in the order in which they were
//! created.
//!
//! The methods hidden from the documentation are for the implementation of a request, which manages its own turn and
//! the end of its connection. `tiny_http` re-exports this module; programs need none of these methods.
ghost use Rattle.std.specs.Prelude.{◌≡◌, ⊤, [], length, Ok, None, IfOk, OnOk, false};
ghost use Rattle.tiny_http_io.specs.Device.{Reads, Puts, PutsFront, HoldsNothing, next_count};
ghost use Rattle.tiny_http_threads.specs.HeldReader.{held_item};

use crate::held_reader::HeldReader;
use crate::turn_queue::{Held, Turn, TurnQueue};
use std::alloc::{AllocError, Global};
use std::io;
use std::io::{ErrorKind, Read, Write};
use std::sync::atomic::{AtomicBool, AtomicU64};
use std::sync::{Arc, Wait};
use tiny_http_io::device::WriteDevice;
use tiny_http_io::outlet::Outlet;
use tiny_http_turns::passing::{HeldTurn, pass_on};

/// A builder of readers over one inner reader. Each reader has its turn once all readers created before it have been
/// dropped.
#[derive(Drop)]
pub struct SequentialReaderBuilder<I, R: Wait> {
    rt: R,
    alloc: Global,
    queue: Arc<TurnQueue<I>>,
}

impl<I: Read + Drop, R: Wait + Copy> SequentialReaderBuilder<I, R> {
    /// Creates a builder of readers over this inner reader. Fails if memory can't be allocated.
    pub fn new(
        rt: R,
        alloc: Global,
        reader: I,
    ) -> Result<SequentialReaderBuilder<I, R>, AllocError> {
        let queue = TurnQueue::new(alloc, reader)?;
        Ok(SequentialReaderBuilder { rt, alloc, queue })
    }

    /// Creates a builder of readers over this inner reader, and the first reader, which has its turn. Fails if memory
    /// can't be allocated.
    #[doc(hidden)]
    pub fn begin(
        rt: R,
        alloc: Global,
        reader: I,
    ) -> Result<(SequentialReaderBuilder<I, R>, HeldReader<I, R>), AllocError>
        ensures { IfOk result (λ made. held_item made.1 ≡ reader) }
    {
        let turn = Held::first(rt, alloc, reader)?;
        let queue = turn.queue()?;
        Ok((
            SequentialReaderBuilder { rt, alloc, queue },
            HeldReader { turn },
        ))
    }

    /// Creates the next reader. Fails if memory can't be allocated, or after 2^64 - 1 readers.
    pub fn next(&mut self) -> Result<SequentialReader<I, R>, AllocError> {
        let turn = Turn::new(self.rt, self.alloc, &self.queue)?;
        Ok(SequentialReader { turn })
    }
}

/// A reader that reads in its turn: its first read waits until all readers created before it have been dropped.
/// Dropping it finishes its turn, or skips the turn if it hasn't come, without waiting for any turn.
pub struct SequentialReader<I: Read + Drop, R: Wait + Drop> {
    turn: Turn<I, R>,
}

impl<I: Read + Drop, R: Wait + Drop> SequentialReader<I, R> {
    /// Takes the turn of this reader if it has come, without waiting. Returns whether the reader has it.
    #[doc(hidden)]
    pub fn try_hold(&mut self) -> bool {
        self.turn.try_hold()
    }

    /// Waits for the turn of this reader, and returns a reader that holds it.
    #[doc(hidden)]
    pub fn into_held(self) -> HeldReader<I, R> {
        let Self { turn } = self;
        HeldReader {
            turn: turn.into_held(),
        }
    }
}

impl<I: Read + Drop, R: Wait + Drop> Read for SequentialReader<I, R> {
    /// Waits for its turn, and reads once from the inner reader.
    fn read(&mut self, buf: &mut [u8]) -> io::Result<usize> {
        self.turn.hold().read(buf)
    }
}

impl<I: Read + Drop, R: Wait + Drop> Drop for SequentialReader<I, R> {
    fn drop(self) {
        let Self { turn } = self;
        let none = Vec::new(turn.alloc());
        if let Some((held, text)) = turn.leave(none) {
            pass_on(&mut Reading { held: Some(held) }, &mut (), &mut (), text);
        }
    }
}

/// A builder of writers over one inner writer. Each writer has its turn once all writers created before it have
/// finished theirs.
#[derive(Drop)]
pub struct SequentialWriterBuilder<W, R: Wait> {
    rt: R,
    alloc: Global,
    queue: Arc<TurnQueue<W>>,
}

impl<W: Write + Drop, R: Wait + Copy> SequentialWriterBuilder<W, R> {
    /// Creates a builder of writers over this inner writer. Fails if memory can't be allocated.
    pub fn new(
        rt: R,
        alloc: Global,
        writer: W,
    ) -> Result<SequentialWriterBuilder<W, R>, AllocError> {
        let queue = TurnQueue::new(alloc, writer)?;
        Ok(SequentialWriterBuilder { rt, alloc, queue })
    }

    /// Creates the next writer. Fails if memory can't be allocated, or after 2^64 - 1 writers.
    pub fn next(&mut self) -> Result<SequentialWriter<W, R>, AllocError> {
        let turn = Turn::new(self.rt, self.alloc, &self.queue)?;
        Ok(SequentialWriter { turn, failures: 0 })
    }

    /// Creates the next writer, or returns `None` once the queue has been closed: by `close_queue` or `close` of a
    /// writer, by `closed_flag`, or because the output broke (`close_when_broken`). Fails as `next` does.
    #[doc(hidden)]
    pub fn next_unless_closed(&mut self) -> Result<Option<SequentialWriter<W, R>>, AllocError> {
        let turn = Turn::new_unless_closed(self.rt, self.alloc, &self.queue)?;
        Ok(turn.map(|turn| SequentialWriter { turn, failures: 0 }))
    }

    /// Returns whether the queue was closed, so that `next_unless_closed` returns `None`.
    #[doc(hidden)]
    pub fn is_closed(&self) -> bool {
        self.queue.is_closed()
    }

    /// Returns the flag that closes the queue once it is set. Any thread may set it.
    #[doc(hidden)]
    pub fn closed_flag(&self) -> &Arc<AtomicBool> {
        self.queue.closed_flag()
    }

    /// Makes the queue close once one of its writers encounters a fault, or `close_if_broken` finds that the output has
    /// ended.
    #[doc(hidden)]
    pub fn close_when_broken(&self) {
        self.queue.close_when_broken();
    }

    /// Stores the number of unfinished writers in this counter, now and whenever it changes.
    #[doc(hidden)]
    pub fn set_open(&self, open: Arc<AtomicU64>) {
        self.queue.set_open(&self.rt, open);
    }

    /// Waits until fewer than `most` writers are unfinished, or, if `most` is 0, until none is.
    #[doc(hidden)]
    pub fn wait_for_room(&self, most: usize) {
        self.queue.wait_for_room(&self.rt, most);
    }
}

// Finishes a held number. If a text was left for the next number, that number is now held, and its text is returned.
fn finish_held<T: Drop, R: Wait + Drop>(held: &mut Option<Held<T, R>>) -> Option<Vec<u8>> {
    let (next, text) = held.take()?.finish()?;
    *held = Some(next);
    Some(text)
}

// The held number of a reader. Nothing is written in its turn.
#[derive(Drop)]
pub(crate) struct Reading<I, R: Wait> {
    pub(crate) held: Option<Held<I, R>>,
}

impl<I: Drop, R: Wait + Drop> HeldTurn<(), ()> for Reading<I, R> {
    ghost writes = { λ _ _ _ _ _. ⊤ };

    ghost finishes = { λ _ _ _ _ _. ⊤ };

    fn write_text(&mut self, _output: &mut (), _text: &[u8]) {}

    fn finish(&mut self, _numbers: &mut ()) -> Option<Vec<u8>> {
        finish_held(&mut self.held)
    }
}

// The held number of a writer. Each text is flushed before its number is finished, since another thread may write from
// then on.
#[derive(Drop)]
struct Writing<W, R: Wait> {
    held: Option<Held<W, R>>,
}

impl<W: Write + Drop, R: Wait + Drop> HeldTurn<(), ()> for Writing<W, R> {
    // The clauses state nothing: what passes from thread to thread under a lock isn't visible to contracts.
    ghost writes = { λ _ _ _ _ _. ⊤ };

    ghost finishes = { λ _ _ _ _ _. ⊤ };

    fn write_text(&mut self, _output: &mut (), text: &[u8]) {
        if let Some(held) = &mut self.held {
            write_and_flush(held, text);
        }
    }

    fn finish(&mut self, _numbers: &mut ()) -> Option<Vec<u8>> {
        finish_held(&mut self.held)
    }
}

// The held number of a writer whose output can be ended. The output is ended after the text of the last number of a
// closed queue.
#[derive(Drop)]
struct EndingWriter<W, R: Wait> {
    held: Option<Held<W, R>>,
}

impl<W: Write + WriteDevice + Drop, R: Wait + Drop> HeldTurn<(), ()> for EndingWriter<W, R> {
    // The clauses state nothing: what passes from thread to thread under a lock isn't visible to contracts.
    ghost writes = { λ _ _ _ _ _. ⊤ };

    ghost finishes = { λ _ _ _ _ _. ⊤ };

    fn write_text(&mut self, _output: &mut (), text: &[u8]) {
        if let Some(held) = &mut self.held {
            write_and_flush(held, text);
            end_if_last(held);
        }
    }

    fn finish(&mut self, _numbers: &mut ()) -> Option<Vec<u8>> {
        finish_held(&mut self.held)
    }
}

// Writes a text and flushes it. A fault breaks the queue (`Place::break_queue`).
fn write_and_flush<W: Write + Drop, R: Wait + Drop>(held: &mut Held<W, R>, text: &[u8]) {
    let written = held.item.write_all(text);
    let flushed = held.item.flush();
    if written.is_err() || flushed.is_err() {
        held.place.break_queue();
    }
}

// Ends the output if the queue was closed and this number is the last that `issue_unless_closed` issued.
fn end_if_last<W: WriteDevice + Drop, R: Wait + Drop>(held: &mut Held<W, R>) {
    if held.place.is_last() {
        held.item.end_out();
    }
}

/// A writer that writes in its turn: its first write or flush waits until all writers created before it have finished
/// their turns. Dropping it flushes and finishes its turn, or skips the turn if it hasn't come, without waiting for any
/// turn. As a `WriteDevice` it counts the failures of its own `write_out` and `flush_out`; its contract says nothing of
/// the bytes written.
pub struct SequentialWriter<W: Write + Drop, R: Wait + Drop> {
    turn: Turn<W, R>,
    failures: u64,
}

impl<W: Write + Drop, R: Wait + Drop> SequentialWriter<W, R> {
    /// Returns whether all writers before this one were finished when it was created.
    #[doc(hidden)]
    pub fn is_next(&self) -> bool {
        self.turn.is_next()
    }

    /// Closes the queue: `next_unless_closed` creates no more writers.
    #[doc(hidden)]
    pub fn close_queue(&self) {
        self.turn.place.close_queue();
    }

    /// Returns whether what is written from now on is lost: the output broke, or `close` ended it. Always false unless
    /// `close_when_broken` was called.
    #[doc(hidden)]
    pub fn is_broken(&self) -> bool {
        self.turn.place.is_broken()
    }

    // Breaks the queue (`Place::break_queue`) if the inner writer encountered a fault.
    fn note<T>(&self, outcome: &io::Result<T>) {
        if outcome.is_err() {
            self.turn.place.break_queue();
        }
    }

    /// Returns whether the queue was closed, and this writer is the last that `next_unless_closed` created.
    #[doc(hidden)]
    pub fn is_last(&self) -> bool {
        self.turn.place.is_last()
    }

    /// Waits for its turn, and returns the inner writer. A fault that the caller encounters while using it doesn't
    /// break the queue.
    #[doc(hidden)]
    pub fn hold(&mut self) -> &mut W {
        self.turn.hold()
    }
}

impl<W: Write + WriteDevice + Drop, R: Wait + Drop> SequentialWriter<W, R> {
    /// Ends its turn with a text, which is written and flushed once the turn has come. Doesn't wait for any turn. After
    /// the text of the last writer (`is_last`), `end_out` ends the output, even if the queue is closed after this call
    /// but before the text is written. If the drop of an earlier `SequentialWriter` writes the text, the output isn't
    /// ended.
    #[doc(hidden)]
    pub fn leave(self, text: Vec<u8>) {
        let Self { turn, failures: _ } = self;
        if let Some((held, text)) = turn.leave(text) {
            pass_on(
                &mut EndingWriter { held: Some(held) },
                &mut (),
                &mut (),
                text,
            );
        }
    }

    /// Ends its turn without a flush: the caller must have flushed what it wrote. Doesn't wait for any turn. If this is
    /// the last writer (`is_last`), `end_out` ends the output first.
    #[doc(hidden)]
    pub fn pass(self) {
        let Self { turn, failures: _ } = self;
        let none = Vec::new(turn.alloc());
        if let Some((held, _)) = turn.leave(none) {
            let mut held = held;
            end_if_last(&mut held);
            let mut ending = EndingWriter { held: Some(held) };
            if let Some(text) = ending.finish(&mut ()) {
                pass_on(&mut ending, &mut (), &mut (), text);
            }
        }
    }
}

impl<W: WriteDevice + Drop, R: Wait + Drop> SequentialWriter<Outlet<W>, R> {
    /// Waits for its turn, flushes, and ends the output: the end comes after what was written, and what a later writer
    /// of the connection writes is lost. No further request is read from the connection. This ends a raw response that
    /// states no length (RFC 9112, section 6.3). Fails with the error of the flush; the output ends even then.
    pub fn close(self) -> io::Result<()> {
        let mut writer = self;
        writer.close_queue();
        let outlet = writer.hold();
        let sent = outlet.end();
        outlet.end_out();
        writer.turn.place.break_queue();
        drop(writer);
        sent
    }

    /// If the output has ended, ends the connection after what was sent: `end_out` ends the inner writer, and
    /// `next_unless_closed` creates no more writers. Waits for its turn. Does nothing, and doesn't wait, unless
    /// `close_when_broken` was called.
    #[doc(hidden)]
    pub fn close_if_broken(&mut self) {
        if !self.turn.place.closes_when_broken() {
            return;
        }
        if self.hold().is_ended() {
            self.turn.place.break_queue();
            self.hold().end_out();
        }
    }
}

impl<W: Write + Drop, R: Wait + Drop> Write for SequentialWriter<W, R> {
    /// Waits for its turn, and writes once to the inner writer.
    fn write(&mut self, buf: &[u8]) -> io::Result<usize> {
        let written = self.turn.hold().write(buf);
        self.note(&written);
        written
    }

    /// Waits for its turn, and flushes the inner writer.
    fn flush(&mut self) -> io::Result<()> {
        let flushed = self.turn.hold().flush();
        self.note(&flushed);
        flushed
    }

    /// Waits for its turn, and writes all the bytes as the inner writer does.
    fn write_all(&mut self, buf: &[u8]) -> io::Result<()> {
        let written = self.turn.hold().write_all(buf);
        self.note(&written);
        written
    }
}

impl<W: Write + Drop, R: Wait + Drop> WriteDevice for SequentialWriter<W, R> {
    ghost use Rattle.tiny_http_threads.specs.Sequential.{writer_sink};

    ghost sink = { writer_sink };

    /// Returns the number of failures of this writer's own `write_out` and `flush_out`.
    fn failures(&self) -> u64 {
        self.failures
    }

    /// Waits for its turn, and writes once to the inner writer. Fails with `WriteZero` if `buf` isn't empty and no byte
    /// is taken.
    fn write_out(&mut self, buf: &[u8]) -> Result<usize, io::Error> {
        let written = match self.turn.hold().write(buf) {
            Ok(0) if !buf.is_empty() => Err(ErrorKind::WriteZero.into()),
            written => written,
        };
        if written.is_err() {
            self.failures = self.failures.saturating_add(1);
        }
        self.note(&written);
        written
    }

    /// Waits for its turn, and flushes the inner writer.
    fn flush_out(&mut self) -> Result<(), io::Error> {
        let flushed = self.turn.hold().flush();
        if flushed.is_err() {
            self.failures = self.failures.saturating_add(1);
        }
        self.note(&flushed);
        flushed
    }
}

impl<W: Write + Drop, R: Wait + Drop> Drop for SequentialWriter<W, R> {
    fn drop(self) {
        let Self { turn, failures: _ } = self;
        let none = Vec::new(turn.alloc());
        if let Some((held, text)) = turn.leave(none) {
            pass_on(&mut Writing { held: Some(held) }, &mut (), &mut (), text);
        }
    }
}
