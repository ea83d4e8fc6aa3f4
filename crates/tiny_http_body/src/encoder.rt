//! The chunked transfer coding: a writer that encodes its bytes (RFC 9112, section 7.1).
ghost use Rattle.std.specs.Prelude.{◌≡◌, ◌+◌, ◌<◌, ◌≤◌, ◌++◌, List, ℕ, [], true, false, length, take, Ok, IfOk};
ghost use Rattle.std.specs.Prelude.{IfErr, OnOk, OnErr};
ghost use Rattle.std.specs.IoError.{error_kind};
ghost use Rattle.tiny_http_io.specs.Device.{Sink, Took, Failed, CountsFaults, HoldsNothing};
ghost use Rattle.tiny_http_body.specs.ChunkedPrinting.{full_chunks, chunked};
ghost use Rattle.tiny_http_body.specs.Encoder.{Encodes};

use crate::chunks::{CHUNK, put_last};
use crate::streamed::{StreamedForm, gather};
use std::io;
use std::io::{ErrorKind, Write};
use std::marker::Model;
use tiny_http_io::device::WriteDevice;

/// A writer that sends its bytes to another writer in chunks of 8192 bytes. It buffers the bytes of an unfinished
/// chunk.
///
/// Only `finish` sends an unfinished chunk and the end of the body; a dropped encoder sends nothing. After the inner
/// writer's first fault nothing more is written: each later call fails with `BrokenPipe`.
#[derive(Drop)]
pub struct Encoder<W: WriteDevice> {
    inner: W,
    held: [u8; CHUNK],
    len: usize,
    failed: bool,
}

impl<W: WriteDevice> Model for Encoder<W> {
    ghost use Rattle.std.specs.Prelude.{◌<◌, take};
    ghost use Rattle.tiny_http_body.specs.Encoder.{EncoderState};

    ghost Value = { EncoderState W };

    ghost view = { λ e. record
        { writer = e.inner; sink = W.sink e.inner; held = take e.len e.held; failed = e.failed } };

    ghost use Rattle.tiny_http_body.specs.declared.chunks.TheConstants.{CHUNK};

    ghost invariant = { λ e. e.len < CHUNK };
}

/// Copies the first `count` bytes into the buffer at `at`.
pub(crate) fn copy_to(held: &mut [u8], at: usize, bytes: &[u8], count: usize)
    requires room { at + count ≤ length held.old }
    requires there { count ≤ length bytes.now }
    ensures { take (at + count) held.new ≡ take at held.old ++ take count bytes.now }
{
    held[at..at + count].copy_from_slice(&bytes[..count]);
}

// Appends bytes from the front of `bytes`, at least one unless it is empty, to the first `len` bytes of the buffer, and
// returns how many. Writes the buffer as a chunk once it is full.
fn encode<W: WriteDevice>(
    writer: &mut W,
    held: &mut [u8; CHUNK],
    len: &mut usize,
    bytes: &[u8],
) -> Result<usize, io::Error>
    requires { len.old < CHUNK }
    ensures encodes { Encodes (W.sink writer.old) (W.sink writer.new) (take len.old held.old) (take len.new held.new)
        result bytes.now }
    ensures bound { len.new < CHUNK }
{
    gather(writer, StreamedForm::Chunks, held, len, bytes)
}

impl<W: WriteDevice> Encoder<W> {
    ghost use Rattle.tiny_http_body.specs.Encoder.{HasEncoded, encoder_writer, encoder_failed, IsBroken};

    /// Wraps a writer. Nothing has been written yet.
    pub fn new(inner: W) -> Encoder<W>
        ensures writer { encoder_writer result ≡ inner }
        ensures begins { HasEncoded (W.sink inner) [] result }
    {
        Encoder {
            inner,
            held: [0; CHUNK],
            len: 0,
            failed: false,
        }
    }

    /// Borrows the inner writer. Buffered bytes haven't been written to it yet.
    pub fn get_ref(&self) -> &W
        ensures writer { result.now ≡ encoder_writer self.now }
        ensures sink { self.now.sink ≡ W.sink result.now }
    {
        &self.inner
    }

    /// Sends the buffered bytes as a chunk, if there are any, and the end of the body, and returns the inner writer.
    /// All bytes that the encoder was given are then written, in chunks of 8192 bytes, of which the last with data may
    /// be shorter. The writer isn't flushed. Fails with the writer's fault. After an earlier fault, fails with
    /// `BrokenPipe` and writes nothing.
    pub fn finish(mut self) -> Result<W, io::Error>
    where
        W: Drop,
        ensures body { IfOk result (λ w. (start : Sink) (given : List ℕ)
            → HasEncoded start given self
            → Took start (W.sink w) (chunked given)) }
        // The fault is the writer's, which failed within the rest of the body.
        ensures fault { IfErr result (λ e. encoder_failed self ≡ false → (w : W) × ((start : Sink) (given : List ℕ)
            → HasEncoded start given self
            → Failed start (W.sink w) (chunked given) (error_kind e))) }
        ensures open { OnOk result (encoder_failed self ≡ false) }
        ensures after { encoder_failed self ≡ true → IsBroken result }
    {
        if self.failed {
            return Err(ErrorKind::BrokenPipe.into());
        }
        put_last(&mut self.inner, &self.held[..self.len])?;
        Ok(self.inner)
    }
}

impl<W: WriteDevice> Write for Encoder<W> {
    ghost use Rattle.std.specs.Io.{WritesAtMost};
    ghost use Rattle.tiny_http_body.specs.Encoder.{HasEncoded, encoder_failed, IsBroken};

    /// Takes some bytes, at least one unless `buf` is empty, and returns how many. A full chunk is written; other bytes
    /// are buffered. Fails with the inner writer's first fault, and with `BrokenPipe` after it.
    fn write(&mut self, buf: &[u8]) -> io::Result<usize>
        ensures bound { WritesAtMost result buf.now }
        ensures some { IfOk result (λ n. 0 < length buf.now → 0 < n) }
        ensures body { IfOk result (λ n. (start : Sink) (given : List ℕ)
            → HasEncoded start given self.old
            → HasEncoded start (given ++ take n buf.now) self.new) }
        ensures fault { IfErr result (λ e. (start : Sink) (given : List ℕ)
            → HasEncoded start given self.old
            → Failed start self.new.sink (full_chunks (given ++ buf.now)) (error_kind e)) }
        ensures open { OnOk result (encoder_failed self.old ≡ false) }
        ensures ended { OnErr result (encoder_failed self.new ≡ true) }
        ensures after { encoder_failed self.old ≡ true → IsBroken result × (self.new ≡ self.old) }
        ensures empty { length buf.now ≡ 0 → encoder_failed self.old ≡ false → (result ≡ Ok 0) × (self.new ≡ self.old) }
        ensures uses { CountsFaults self.old.sink self.new.sink result }
    {
        if self.failed {
            return Err(ErrorKind::BrokenPipe.into());
        }
        if buf.is_empty() {
            return Ok(0);
        }
        match encode(&mut self.inner, &mut self.held, &mut self.len, buf) {
            Ok(count) => Ok(count),
            Err(e) => {
                self.failed = true;
                Err(e)
            }
        }
    }

    /// Flushes the inner writer. Buffered bytes stay buffered: they don't become a chunk. Fails as `write` does.
    fn flush(&mut self) -> io::Result<()>
        ensures body { OnOk result ((start : Sink) (given : List ℕ)
            → HasEncoded start given self.old
            → HasEncoded start given self.new) }
        ensures fault { IfErr result (λ e. (start : Sink) (given : List ℕ)
            → HasEncoded start given self.old
            → Failed start self.new.sink (full_chunks given) (error_kind e)) }
        ensures sent { OnOk result (self.new.sink.has_ended ≡ false → HoldsNothing self.new.sink) }
        ensures open { OnOk result (encoder_failed self.old ≡ false) }
        ensures ended { OnErr result (encoder_failed self.new ≡ true) }
        ensures after { encoder_failed self.old ≡ true → IsBroken result × (self.new ≡ self.old) }
        ensures uses { CountsFaults self.old.sink self.new.sink result }
    {
        if self.failed {
            return Err(ErrorKind::BrokenPipe.into());
        }
        match self.inner.flush_out() {
            Ok(()) => Ok(()),
            Err(e) => {
                self.failed = true;
                Err(e)
            }
        }
    }
}
