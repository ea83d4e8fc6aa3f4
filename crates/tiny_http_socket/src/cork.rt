//! The two halves of a connection whose write half may send several responses together. Different threads may use the
//! two halves.
ghost use Rattle.std.specs.Prelude.{◌≡◌, ◌<◌, ◌≤◌, ⊤, length, IfOk};
ghost use Rattle.tiny_http_socket.specs.Cork.{reader_feed, writer_sink, fresh_sink, CountsOutcome};

use crate::corked::Corked;
use crate::read_ahead::{BeforeRead, ReadAhead};
use crate::write_both::WriteBoth;
use std::alloc::{AllocError, Global};
use std::io;
use std::io::ErrorKind;
use std::sync::atomic::{AtomicBool, Ordering};
use std::sync::{Arc, Mutex, Wait};
use tiny_http_io::device::{Ahead, ReadAheadDevice, ReadDevice, WriteDevice};

/// The flush policy of a connection: whether a flush of its writer may leave bytes buffered. A caller that allows this
/// must send those bytes soon, with `Cork::send`.
#[derive(Drop)]
pub struct FlushPolicy {
    may_leave: AtomicBool,
    // Whether bytes may have been left since `stop_and_take` was last called.
    may_wait: AtomicBool,
}

impl FlushPolicy {
    // Creates a policy under which each flush sends.
    fn new() -> FlushPolicy {
        FlushPolicy {
            may_leave: AtomicBool::new(false),
            may_wait: AtomicBool::new(false),
        }
    }

    /// Makes each later flush leave its bytes buffered. A write then buffers its bytes, too, if they fit.
    pub fn leave_at_flush(&self) {
        self.may_leave.store(true, Ordering::SeqCst);
    }

    /// Makes each later write and flush send its bytes, after those that are buffered.
    pub fn send_at_flush(&self) {
        self.may_leave.store(false, Ordering::SeqCst);
    }

    // Returns whether a flush may leave its bytes buffered.
    fn may_leave(&self) -> bool {
        self.may_leave.load(Ordering::SeqCst)
    }

    // Makes each later write and flush send its bytes. Returns whether bytes may have been left since the last call.
    fn stop_and_take(&self) -> bool {
        self.send_at_flush();
        self.may_wait.swap(false, Ordering::SeqCst)
    }

    // Returns whether bytes that are written or flushed now stay buffered. Checks again after recording that bytes may
    // have been left, since `stop_and_take` may have run in between.
    fn leaves(&self) -> bool {
        if !self.may_leave() {
            return false;
        }
        self.may_wait.store(true, Ordering::SeqCst);
        self.may_leave()
    }
}

/// The state that the two halves of a connection share: the writer, and the bytes buffered for it. Bytes are written
/// under a lock. A thread that writes, sends in a flush or ends the writer waits for the lock. A thread that sends the
/// buffered bytes before it reads doesn't wait, but asks the thread that holds the lock to send them.
#[derive(Drop)]
pub struct Cork<W: WriteBoth + Drop> {
    flush_policy: Arc<FlushPolicy>,
    // Whether a thread that found the lock taken has asked for the buffered bytes to be sent.
    is_asked: AtomicBool,
    corked: Mutex<Corked<W>>,
}

impl<W: WriteBoth + Drop> Cork<W> {
    // Wraps a writer with an empty buffer. Fails if memory can't be allocated.
    fn new(alloc: Global, writer: W) -> Result<Cork<W>, AllocError> {
        let corked = Corked::new(alloc, writer);
        let flush_policy = Arc::new(alloc, FlushPolicy::new())?;
        Ok(Cork {
            flush_policy,
            is_asked: AtomicBool::new(false),
            corked: Mutex::new(corked),
        })
    }

    /// Returns the flush policy of the connection.
    pub fn flush_policy(&self) -> &Arc<FlushPolicy> {
        &self.flush_policy
    }

    /// Makes each later write and flush send its bytes, and sends the bytes that earlier ones left buffered. May wait
    /// for the socket, but not for another thread: if another thread holds the lock, asks that thread to send the
    /// bytes. A fault is reported by the next write, or by the next flush that sends.
    pub fn send(&self) {
        if !self.flush_policy.stop_and_take() {
            return;
        }
        if self.send_if_free() {
            return;
        }
        self.is_asked.store(true, Ordering::SeqCst);
        // The holder may have released the lock just before it was asked.
        self.send_if_free();
    }

    /// Sends as `send` does, unless a flush may leave its bytes buffered.
    pub fn send_unless_leaving(&self) {
        if !self.flush_policy.may_leave() {
            self.send();
        }
    }

    // Sends the buffered bytes if the lock is free, and returns whether it was.
    fn send_if_free(&self) -> bool {
        match self.corked.try_lock() {
            Some(mut corked) => {
                corked.send_waiting();
                true
            }
            None => false,
        }
    }

    /// Frees the memory of the buffer, if no bytes are buffered and no thread holds the lock. The next write that needs
    /// it allocates it again.
    pub fn release(&self) {
        if let Some(mut corked) = self.corked.try_lock() {
            corked.release();
        }
    }

    // Sends the buffered bytes if another thread has asked for that.
    fn send_if_asked<Rt: Wait>(&self, rt: &Rt) {
        if self.is_asked.load(Ordering::SeqCst) && self.is_asked.swap(false, Ordering::SeqCst) {
            self.corked.lock(rt).send_waiting();
        }
    }

    // Takes some bytes of `buf`, and returns their number. They stay buffered only if a flush may leave them.
    fn write<Rt: Wait>(&self, rt: &Rt, buf: &[u8]) -> io::Result<usize>
        ensures { IfOk result (λ n. (n ≤ length buf.now) × (0 < length buf.now → 0 < n)) }
    {
        let mut corked = self.corked.lock(rt);
        let written = if self.flush_policy.leaves() {
            corked.write_out(buf)
        } else {
            corked.write_past(buf)
        };
        drop(corked);
        self.send_if_asked(rt);
        written
    }

    // Sends the buffered bytes, unless a flush may leave them.
    fn flush<Rt: Wait>(&self, rt: &Rt) -> io::Result<()> {
        if self.flush_policy.leaves() {
            return Ok(());
        }
        let sent = self.corked.lock(rt).flush_out();
        self.send_if_asked(rt);
        sent
    }

    // Sends the buffered bytes, even if a flush may leave them, and ends the writer.
    fn end<Rt: Wait>(&self, rt: &Rt) {
        let mut corked = self.corked.lock(rt);
        corked.send_waiting();
        corked.end_out();
        drop(corked);
        self.send_if_asked(rt);
    }
}

/// The write half of a connection. Bytes stay buffered while a flush may leave them, and are sent at once otherwise. As
/// a `WriteDevice` it counts its failures and states no bytes, since other threads may send the buffered ones.
#[derive(Drop)]
pub struct CorkedWriter<W: WriteBoth + Drop, Rt: Wait> {
    rt: Rt,
    cork: Arc<Cork<W>>,
    failures: u64,
    last: Option<ErrorKind>,
}

impl<W: WriteBoth + Drop, Rt: Wait> CorkedWriter<W, Rt> {
    /// Returns the state that this half shares with the read half.
    pub fn cork(&self) -> &Arc<Cork<W>> {
        &self.cork
    }

    // Counts a failure if the call failed, and records its kind.
    fn count<T>(&mut self, outcome: &io::Result<T>)
        ensures { CountsOutcome self.old self.new outcome.now }
    {
        if let Err(fault) = outcome {
            self.failures = self.failures.saturating_add(1);
            self.last = Some(fault.kind());
        }
    }
}

impl<W: WriteBoth + Drop, Rt: Wait> WriteDevice for CorkedWriter<W, Rt> {
    ghost use Rattle.tiny_http_socket.specs.Cork.{writer_sink};

    ghost sink = { writer_sink };

    /// Returns the number of faults reported.
    fn failures(&self) -> u64 {
        self.failures
    }

    /// Takes some bytes of `buf`, and returns their number. Buffers all of `buf` if a flush may leave its bytes, they
    /// fit, and memory for the buffer can be allocated; otherwise sends the buffered bytes with some bytes of `buf`.
    /// Fails with the writer's fault, or with an earlier fault in sending buffered bytes that no call has reported.
    /// Once a fault has been reported, each write discards its bytes and returns `Ok`.
    fn write_out(&mut self, buf: &[u8]) -> Result<usize, io::Error> {
        let written = self.cork.write(&self.rt, buf);
        self.count(&written);
        written
    }

    /// Sends the buffered bytes, unless a flush may leave them. A flush that sends fails with the writer's fault, or
    /// with an earlier fault that no call has reported.
    fn flush_out(&mut self) -> Result<(), io::Error> {
        let sent = self.cork.flush(&self.rt);
        self.count(&sent);
        sent
    }

    /// Sends the buffered bytes, even if a flush may leave them, and ends the writer. Doesn't report a fault.
    fn end_out(&mut self) {
        self.cork.end(&self.rt);
    }
}

// The action before each read of the socket: sends the buffered bytes.
#[derive(Drop)]
struct Sending<W: WriteBoth + Drop> {
    cork: Arc<Cork<W>>,
}

impl<W: WriteBoth + Drop> BeforeRead for Sending<W> {
    // Contracts state nothing about this action, since the bytes are sent under a lock.
    ghost does = { λ _ _. ⊤ };

    /// Sends the buffered bytes, and makes each later flush send its bytes.
    fn before_read(&mut self) {
        self.cork.send();
    }
}

/// The read half of a connection. Before it reads from the socket, it sends the buffered bytes and makes each later
/// flush send its bytes.
#[derive(Drop)]
pub struct FlushingReader<R: ReadDevice + Drop, W: WriteBoth + Drop> {
    ahead: ReadAhead<R>,
    sending: Sending<W>,
}

impl<R: ReadDevice + Drop, W: WriteBoth + Drop> ReadDevice for FlushingReader<R, W> {
    ghost use Rattle.tiny_http_socket.specs.Cork.{reader_feed, reader_stop_count};

    ghost feed = { reader_feed };

    ghost stop_count = { reader_stop_count R.stop_count };

    /// Returns bytes that were read ahead, if there are any. Otherwise sends the buffered bytes, then reads from the
    /// socket, as `ReadAhead::read_after` does.
    fn read_in(&mut self, buf: &mut [u8]) -> Result<usize, io::Error> {
        self.ahead.read_after(&mut self.sending, buf)
    }
}

impl<R: ReadDevice + Drop, W: WriteBoth + Drop> ReadAheadDevice for FlushingReader<R, W> {
    /// Returns what was read ahead.
    fn ahead(&self) -> Ahead<'_> {
        self.ahead.ahead()
    }

    /// Sends the buffered bytes, then reads ahead from the socket, as `ReadAhead::read_ahead` does.
    fn read_ahead(&mut self) -> Result<usize, io::Error> {
        self.sending.before_read();
        self.ahead.read_ahead()
    }

    /// Frees the memory for bytes that are read ahead, if no such bytes are held.
    fn release_ahead(&mut self) {
        self.ahead.release()
    }
}

/// Creates the two halves of a connection over this reader and this writer. Fails if memory can't be allocated.
pub fn halves<R: ReadDevice + Drop, W: WriteBoth + Drop, Rt: Wait + Drop>(
    rt: Rt,
    alloc: Global,
    reader: R,
    writer: W,
) -> Result<(FlushingReader<R, W>, CorkedWriter<W, Rt>), AllocError>
    ensures feed { IfOk result (λ halves. reader_feed halves.0 ≡ R.feed reader) }
    ensures sink { IfOk result (λ halves. writer_sink halves.1 ≡ fresh_sink) }
{
    let ahead = ReadAhead::new(alloc, reader);
    let cork = Arc::new(alloc, Cork::new(alloc, writer)?)?;
    let sending = Sending {
        cork: Arc::try_clone(&cork)?,
    };
    let reader = FlushingReader { ahead, sending };
    let writer = CorkedWriter {
        rt,
        cork,
        failures: 0,
        last: None,
    };
    Ok((reader, writer))
}
