//! The buffered output of a connection.
ghost use Rattle.std.specs.Prelude.{◌≡◌, ◌<◌, ◌≤◌, true, false, [], length, Ok, OnOk, OnErr};
ghost use Rattle.tiny_http_io.specs.Device.{BeginsKnown, HoldsNothing, Puts, PutsFront};

use crate::buffer::{Buffer, CAPACITY};
use crate::device::{WriteDevice, put};
use std::io;
use std::io::Write;
use std::marker::Model;

/// A buffered writer. `end`, `abandon` or the inner writer's first fault ends it; from then on it takes no bytes and
/// holds none.
#[derive(Drop)]
pub struct Outlet<W: WriteDevice> {
    inner: W,
    held: Buffer,
    ended: bool,
    ghost none_held: { ended ≡ true → held ≡ [] },
}

impl<W: WriteDevice> Model for Outlet<W> {
    ghost use Rattle.tiny_http_io.specs.Outlet.{OutletState};

    ghost Value = { OutletState W };

    ghost view = { λ o. record { held = o.held; ended = o.ended; writer = o.inner; sink = W.sink o.inner } };
}

impl<W: WriteDevice> Outlet<W> {
    ghost use Rattle.tiny_http_io.specs.Outlet.{output_of, outlet_held, outlet_ended, outlet_writer, SentOn};
    ghost use Rattle.tiny_http_io.specs.Outlet.{EndsOutlet};

    /// Wraps a writer. The contracts are meant for a writer that doesn't state that it has ended.
    pub fn new(inner: W) -> Outlet<W>
        ensures held { outlet_held result ≡ [] }
        ensures writer { outlet_writer result ≡ inner }
        ensures open { outlet_ended result ≡ false }
        ensures sink { result.sink ≡ W.sink inner }
    {
        Outlet {
            inner,
            held: Buffer::new(),
            ended: false,
        }
    }

    /// Returns the buffered bytes. Once the outlet has ended there are none.
    pub fn held(&self) -> &[u8]
        ensures bytes { result.now ≡ outlet_held self.now }
        ensures bound { length (outlet_held self.now) ≤ CAPACITY }
        ensures none { outlet_ended self.now ≡ true → outlet_held self.now ≡ [] }
    {
        self.held.as_slice()
    }

    // Sends all buffered bytes to the inner writer. If that fails, the bytes are discarded and the outlet ends.
    fn send(&mut self) -> Result<(), io::Error>
        requires open { self.old.ended ≡ false }
        ensures puts { Puts (output_of self.old) (output_of self.new) result [] }
        ensures held { self.new.held ≡ [] }
        ensures open { OnOk result (self.new.ended ≡ false) }
        ensures ended { OnErr result (self.new.ended ≡ true) }
    {
        match put(&mut self.inner, self.held.as_slice()) {
            Ok(()) => {
                self.held.clear();
                Ok(())
            }
            Err(e) => {
                self.held.clear();
                self.ended = true;
                Err(e)
            }
        }
    }

    // Writes some bytes straight to the inner writer. The buffer must be empty. A fault ends the outlet.
    fn pass(&mut self, buf: &[u8]) -> Result<usize, io::Error>
        requires open { self.old.ended ≡ false }
        requires none { self.old.held ≡ [] }
        ensures puts { PutsFront (output_of self.old) (output_of self.new) result buf.now }
        ensures ended { OnErr result (self.new.ended ≡ true) }
        ensures open { OnOk result (self.new.ended ≡ false) }
    {
        match self.inner.write_out(buf) {
            Ok(n) => Ok(n),
            Err(e) => {
                self.ended = true;
                Err(e)
            }
        }
    }

    // Takes all bytes into the empty buffer if there are fewer than `CAPACITY`, and otherwise writes some of them
    // straight to the inner writer. Returns how many it took.
    fn take_first(&mut self, buf: &[u8]) -> Result<usize, io::Error>
        requires open { self.old.ended ≡ false }
        requires none { self.old.held ≡ [] }
        ensures puts { PutsFront (output_of self.old) (output_of self.new) result buf.now }
        ensures small { length buf.now < CAPACITY
            → (outlet_writer self.new ≡ outlet_writer self.old) × (result ≡ Ok (length buf.now)) }
        ensures ended { OnErr result (self.new.ended ≡ true) }
        ensures open { OnOk result (self.new.ended ≡ false) }
    {
        if buf.len() >= CAPACITY {
            return self.pass(buf);
        }
        Ok(self.held.append(buf))
    }

    // Takes some bytes, at least one unless `buf` is empty, and returns how many. Once the outlet has ended, it takes
    // none and returns the length of `buf`.
    fn take_some(&mut self, buf: &[u8]) -> Result<usize, io::Error>
        ensures puts { PutsFront (output_of self.old) (output_of self.new) result buf.now }
        // If the buffer is empty and fewer than `CAPACITY` bytes are written, the inner writer isn't called.
        ensures small { outlet_held self.old ≡ []
            → length buf.now < CAPACITY
            → (outlet_writer self.new ≡ outlet_writer self.old) × (result ≡ Ok (length buf.now)) }
        ensures ended { OnErr result (self.new.ended ≡ true) }
        ensures stays { OnOk result (self.new.ended ≡ self.old.ended) }
        ensures past { self.old.ended ≡ true → (result ≡ Ok (length buf.now)) × (self.new ≡ self.old) }
    {
        if self.ended {
            return Ok(buf.len());
        }
        if self.held.is_empty() {
            return self.take_first(buf);
        }
        let n = self.held.append(buf);
        if n > 0 || buf.is_empty() {
            return Ok(n);
        }
        if let Err(e) = self.send() {
            return Err(e);
        }
        self.take_first(buf)
    }

    /// Takes all bytes. They are buffered, and the buffer is sent when it is full and more bytes follow; `CAPACITY`
    /// bytes or more bypass an empty buffer. A fault ends the outlet. Once the outlet has ended, this takes no bytes
    /// and returns `Ok`.
    pub fn write(&mut self, bytes: &[u8]) -> Result<(), io::Error>
        ensures puts { Puts (output_of self.old) (output_of self.new) result bytes.now }
        // If the buffer is empty and fewer than `CAPACITY` bytes are written, the inner writer isn't called.
        ensures small { outlet_held self.old ≡ []
            → length bytes.now < CAPACITY
            → (outlet_writer self.new ≡ outlet_writer self.old) × (result ≡ Ok tt) }
        // Only a fault ends the outlet here.
        ensures ended { OnErr result (outlet_ended self.new ≡ true) }
        ensures stays { OnOk result (outlet_ended self.new ≡ outlet_ended self.old) }
    {
        let mut at = 0;
        while at < bytes.len() {
            at += self.take_some(&bytes[at..])?;
        }
        Ok(())
    }

    /// Sends all buffered bytes and flushes the inner writer. A fault ends the outlet. Once the outlet has ended, this
    /// does nothing and returns `Ok`.
    pub fn flush(&mut self) -> Result<(), io::Error>
        ensures puts { Puts (output_of self.old) (output_of self.new) result [] }
        ensures held { outlet_held self.new ≡ [] }
        ensures sent { SentOn self.new }
        // Only a fault ends the outlet here.
        ensures ended { OnErr result (outlet_ended self.new ≡ true) }
        ensures stays { OnOk result (outlet_ended self.new ≡ outlet_ended self.old) }
    {
        if self.ended {
            return Ok(());
        }
        if let Err(e) = self.send() {
            return Err(e);
        }
        match self.inner.flush_out() {
            Ok(()) => Ok(()),
            Err(e) => {
                self.ended = true;
                Err(e)
            }
        }
    }

    /// Does nothing. Its contract states what always holds for an outlet and its writer. Intended for the crates that
    /// build on this one.
    pub fn facts(&self)
        ensures sink { self.now.sink ≡ W.sink self.now.writer }
        ensures none { self.now.ended ≡ true → self.now.held ≡ [] }
        ensures begins { BeginsKnown self.now.sink.sent self.now.sink.taken }
    {
        let _ = self.inner.failures();
    }

    /// Returns whether the outlet has ended: by `end` or `abandon`, or by the inner writer's first fault.
    pub fn is_ended(&self) -> bool
        ensures { result ≡ outlet_ended self.now }
    {
        self.ended
    }

    /// Ends the outlet: sends the buffered bytes and flushes the inner writer. The outlet ends even if the writer
    /// fails. If the outlet had ended before, this does nothing and returns `Ok`.
    pub fn end(&mut self) -> Result<(), io::Error>
        ensures ends { EndsOutlet (output_of self.old) (output_of self.new) result }
        ensures held { outlet_held self.new ≡ [] }
        // If the outlet hadn't ended before, the writer holds no bytes back after `Ok`, unless it states that it has
        // ended.
        ensures sent { outlet_ended self.old ≡ false
            → OnOk result (self.new.sink.has_ended ≡ false → HoldsNothing self.new.sink) }
        ensures ended { outlet_ended self.new ≡ true }
    {
        let sent = self.flush();
        self.held.clear();
        self.ended = true;
        sent
    }

    /// Returns the inner writer's failure count. Intended for the crates that build on this one.
    pub fn writer_failures(&self) -> u64
        ensures count { result ≡ (output_of self.now).failures }
        ensures sent { let s = self.now.sink in BeginsKnown s.sent s.taken }
    {
        self.inner.failures()
    }

    /// Ends the outlet and discards the buffered bytes. Intended for the crates that build on this one.
    pub fn abandon(&mut self)
        ensures held { outlet_held self.new ≡ [] }
        ensures ended { outlet_ended self.new ≡ true }
        ensures writer { outlet_writer self.new ≡ outlet_writer self.old }
        ensures sink { self.new.sink ≡ self.old.sink }
    {
        self.held.clear();
        self.ended = true;
    }

    /// Returns the inner writer. Buffered bytes are discarded.
    pub fn into_inner(self) -> W
        ensures inner { result ≡ outlet_writer self }
        ensures sink { W.sink result ≡ self.sink }
    {
        self.inner
    }
}

impl<W: WriteDevice> WriteDevice for Outlet<W> {
    ghost use Rattle.tiny_http_io.specs.Outlet.{output_of};

    ghost sink = { output_of };

    fn failures(&self) -> u64 {
        self.inner.failures()
    }

    fn write_out(&mut self, buf: &[u8]) -> Result<usize, io::Error> {
        self.take_some(buf)
    }

    fn flush_out(&mut self) -> Result<(), io::Error> {
        self.flush()
    }

    /// Makes the inner writer signal that no byte follows, if it can. Does nothing if bytes are buffered: the caller
    /// must flush first.
    fn end_out(&mut self)
        ensures sink { output_of self.new ≡ output_of self.old }
        // Only the inner writer changes.
        ensures rest { self.new ≡ record self.old { writer = self.new.writer } }
    {
        if self.held.is_empty() {
            self.inner.end_out();
        }
    }
}

// Method calls find the inherent `write` and `flush` before these. `contents` is left unstated, since an outlet drops
// the bytes written after its end, and a fault may lose buffered ones. Instead, the clauses below describe the outlet's
// own sink (`output_of`) and state.
impl<W: WriteDevice> Write for Outlet<W> {
    ghost use Rattle.std.specs.Io.{WritesAtMost};
    ghost use Rattle.tiny_http_io.specs.Outlet.{output_of, outlet_held, outlet_ended, SentOn};

    /// Takes some bytes, at least one unless `buf` is empty, and returns how many. Once the outlet has ended, it takes
    /// none and returns the length of `buf`.
    fn write(&mut self, buf: &[u8]) -> io::Result<usize>
        ensures bound { WritesAtMost result buf.now }
        ensures puts { PutsFront (output_of self.old) (output_of self.new) result buf.now }
        // Only a fault ends the outlet here.
        ensures ended { OnErr result (outlet_ended self.new ≡ true) }
        ensures stays { OnOk result (outlet_ended self.new ≡ outlet_ended self.old) }
        ensures past { outlet_ended self.old ≡ true → (result ≡ Ok (length buf.now)) × (self.new ≡ self.old) }
    {
        Outlet::take_some(self, buf)
    }

    /// Sends all buffered bytes and flushes the inner writer, as the inherent `flush` does.
    fn flush(&mut self) -> io::Result<()>
        ensures puts { Puts (output_of self.old) (output_of self.new) result [] }
        ensures held { outlet_held self.new ≡ [] }
        ensures sent { SentOn self.new }
        ensures ended { OnErr result (outlet_ended self.new ≡ true) }
        ensures stays { OnOk result (outlet_ended self.new ≡ outlet_ended self.old) }
    {
        Outlet::flush(self)
    }

    /// Takes all bytes, as the inherent `write` does.
    ///
    /// Stops at the first fault and reports it, even one of kind `Interrupted`: that fault has ended the outlet, so a
    /// retry would return `Ok`.
    fn write_all(&mut self, buf: &[u8]) -> io::Result<()>
        ensures puts { Puts (output_of self.old) (output_of self.new) result buf.now }
        ensures ended { OnErr result (outlet_ended self.new ≡ true) }
        ensures stays { OnOk result (outlet_ended self.new ≡ outlet_ended self.old) }
    {
        Outlet::write(self, buf)
    }
}
