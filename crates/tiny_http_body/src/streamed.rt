//! Response bodies that grow while they are sent.
ghost use Rattle.std.specs.Prelude.{◌≡◌, List, ℕ, ◌+◌, ◌<◌, ◌≤◌, ◌++◌, [], true, false, length, take, IfOk, IfErr};
ghost use Rattle.std.specs.Prelude.{OnOk, OnErr};
ghost use Rattle.std.specs.IoError.{error_kind};
ghost use Rattle.tiny_http_io.specs.Device.{Sink, Puts, Took, Failed, HoldsNothing};
ghost use Rattle.tiny_http_body.specs.Streamed.{piece_text, end_text, Gathers};

use crate::chunks::{CHUNK, put_chunk};
use crate::encoder::copy_to;
use std::io;
use std::io::{ErrorKind, Write};
use std::marker::Model;
use tiny_http_io::device::{WriteDevice, put};

/// The form in which a body follows the head of its response.
#[derive(Clone, Copy, Debug, PartialEq, Eq)]
pub enum StreamedForm {
    /// In chunks, ended by the last chunk (RFC 9112, section 7.1).
    Chunks,
    /// As is, ended by the end of the connection (RFC 9112, section 6.3).
    Plain,
    /// Not at all, because the response must not have content, for example after a `HEAD`: written bytes are discarded.
    Absent,
}

/// A writer of a body that grows while it is sent. Between calls it buffers at most 8191 bytes. It sends the buffered
/// bytes on `flush`, or once there are 8192, as one chunk if the body is chunked. `finish` sends the buffered bytes and
/// the end of the body. If the writer is dropped instead, nothing more is sent, so a chunked body is visibly cut.
///
/// After the inner writer's first fault nothing more is written: each later call fails with `BrokenPipe`.
#[derive(Drop)]
pub struct Streamed<W: WriteDevice> {
    inner: W,
    form: StreamedForm,
    held: [u8; CHUNK],
    len: usize,
    failed: bool,
}

impl<W: WriteDevice> Model for Streamed<W> {
    ghost use Rattle.std.specs.Prelude.{◌<◌, take};
    ghost use Rattle.tiny_http_body.specs.Streamed.{StreamedState};

    ghost Value = { StreamedState W };

    ghost view = { λ s. record
        { writer = s.inner; sink = W.sink s.inner; form = s.form; held = take s.len s.held; failed = s.failed } };

    ghost use Rattle.tiny_http_body.specs.declared.chunks.TheConstants.{CHUNK};

    ghost invariant = { λ s. s.len < CHUNK };
}

// Sends a piece of a body in this form. An empty piece isn't sent as a chunk, since that would end the body.
fn put_piece<W: WriteDevice>(
    writer: &mut W,
    form: StreamedForm,
    bytes: &[u8],
) -> Result<(), io::Error>
    ensures { Puts (W.sink writer.old) (W.sink writer.new) result (piece_text form bytes.now) }
{
    match form {
        StreamedForm::Chunks if !bytes.is_empty() => put_chunk(writer, bytes),
        StreamedForm::Plain => put(writer, bytes),
        StreamedForm::Chunks | StreamedForm::Absent => put(writer, b""),
    }
}

// Sends the end of a body in this form.
fn put_end<W: WriteDevice>(writer: &mut W, form: StreamedForm) -> Result<(), io::Error>
    ensures { Puts (W.sink writer.old) (W.sink writer.new) result (end_text form) }
{
    match form {
        StreamedForm::Chunks => put(writer, b"0\r\n\r\n"),
        StreamedForm::Plain | StreamedForm::Absent => put(writer, b""),
    }
}

/// Appends bytes from the front of `bytes`, at least one unless it is empty, to the first `len` bytes of the buffer,
/// and returns how many. Sends the buffer once it is full. If the buffer is empty, a full piece is sent without being
/// copied into it.
pub(crate) fn gather<W: WriteDevice>(
    writer: &mut W,
    form: StreamedForm,
    held: &mut [u8; CHUNK],
    len: &mut usize,
    bytes: &[u8],
) -> Result<usize, io::Error>
    requires { len.old < CHUNK }
    ensures gathers { Gathers form (W.sink writer.old) (W.sink writer.new) (take len.old held.old)
        (take len.new held.new) result bytes.now }
    ensures bound { len.new < CHUNK }
{
    if *len == 0 && bytes.len() >= CHUNK {
        put_piece(writer, form, &bytes[..CHUNK])?;
        return Ok(CHUNK);
    }
    let count = bytes.len().min(CHUNK - *len);
    copy_to(held, *len, bytes, count);
    if *len + count < CHUNK {
        *len += count;
        return Ok(count);
    }
    *len = 0;
    put_piece(writer, form, held)?;
    Ok(count)
}

impl<W: WriteDevice> Streamed<W> {
    ghost use Rattle.tiny_http_body.specs.Encoder.{IsBroken};
    ghost use Rattle.tiny_http_body.specs.Streamed.{begun, HasStreamed, EndsStreamed};

    /// Starts a body of this form on a writer that has taken the response head.
    pub fn new(inner: W, form: StreamedForm) -> Streamed<W>
        ensures begun { result ≡ begun inner (W.sink inner) form }
        ensures begins { HasStreamed (W.sink inner) [] result }
    {
        Streamed {
            inner,
            form,
            held: [0; CHUNK],
            len: 0,
            failed: false,
        }
    }

    /// Borrows the inner writer. Buffered bytes haven't been written to it yet.
    pub fn get_ref(&self) -> &W
        ensures writer { result.now ≡ self.now.writer }
        ensures sink { self.now.sink ≡ W.sink result.now }
    {
        &self.inner
    }

    /// Returns the form in which the body follows the head of its response.
    pub fn form(&self) -> StreamedForm
        ensures { result ≡ self.now.form }
    {
        self.form
    }

    /// Returns the inner writer. Buffered bytes are discarded, and the body isn't ended.
    pub fn into_inner(self) -> W
        ensures writer { result ≡ self.writer }
        ensures sink { W.sink result ≡ self.sink }
    {
        self.inner
    }

    /// Sends the buffered bytes and the end of the body, and returns the inner writer, which isn't flushed. Fails with
    /// the writer's fault. After an earlier fault, fails with `BrokenPipe` and writes nothing.
    pub fn finish(mut self) -> Result<W, io::Error>
    where
        W: Drop,
        ensures rest { IfOk result
            (λ w. Took self.sink (W.sink w) (piece_text self.form self.held ++ end_text self.form)) }
        ensures body { IfOk result (λ w. (start : Sink) (given : List ℕ)
            → HasStreamed start given self
            → EndsStreamed self.form start (W.sink w) given) }
        // The fault is the writer's, which failed within the rest of the body.
        ensures fault { IfErr result (λ e. self.failed ≡ false → (w : W)
            × Failed self.sink (W.sink w) (piece_text self.form self.held ++ end_text self.form) (error_kind e)) }
        ensures open { OnOk result (self.failed ≡ false) }
        ensures after { self.failed ≡ true → IsBroken result }
    {
        if self.failed {
            return Err(ErrorKind::BrokenPipe.into());
        }
        put_piece(&mut self.inner, self.form, &self.held[..self.len])?;
        put_end(&mut self.inner, self.form)?;
        Ok(self.inner)
    }

    // Sends the buffered bytes as one piece and flushes the inner writer.
    fn send(&mut self) -> Result<(), io::Error>
        ensures puts { Puts self.old.sink self.new.sink result (piece_text self.old.form self.old.held) }
        ensures held { OnOk result (self.new.held ≡ []) }
        ensures rest { (self.new.form ≡ self.old.form) × (self.new.failed ≡ self.old.failed) }
        ensures sent { OnOk result (self.new.sink.has_ended ≡ false → HoldsNothing self.new.sink) }
    {
        let len = self.len;
        self.len = 0;
        put_piece(&mut self.inner, self.form, &self.held[..len])?;
        self.inner.flush_out()
    }
}

impl<W: WriteDevice> Write for Streamed<W> {
    ghost use Rattle.std.specs.Io.{WritesAtMost};
    ghost use Rattle.tiny_http_body.specs.Encoder.{IsBroken};
    ghost use Rattle.tiny_http_body.specs.Streamed.{HasStreamed};

    /// Takes some bytes, at least one unless `buf` is empty, and returns how many. Full pieces of 8192 bytes are sent;
    /// other bytes are buffered. Fails with the inner writer's first fault, and with `BrokenPipe` after it.
    fn write(&mut self, buf: &[u8]) -> io::Result<usize>
        ensures bound { WritesAtMost result buf.now }
        ensures gathers { self.old.failed ≡ false
            → Gathers self.old.form self.old.sink self.new.sink self.old.held self.new.held result buf.now }
        ensures form { self.new.form ≡ self.old.form }
        ensures body { IfOk result (λ n. (start : Sink) (given : List ℕ)
            → HasStreamed start given self.old
            → HasStreamed start (given ++ take n buf.now) self.new) }
        ensures open { OnOk result (self.new.failed ≡ false) }
        ensures ended { OnErr result (self.new.failed ≡ true) }
        ensures after { self.old.failed ≡ true → IsBroken result × (self.new ≡ self.old) }
    {
        if self.failed {
            return Err(ErrorKind::BrokenPipe.into());
        }
        match gather(
            &mut self.inner,
            self.form,
            &mut self.held,
            &mut self.len,
            buf,
        ) {
            Ok(count) => Ok(count),
            Err(fault) => {
                self.failed = true;
                Err(fault)
            }
        }
    }

    /// Sends the buffered bytes as one piece and flushes the inner writer. Fails as `write` does.
    fn flush(&mut self) -> io::Result<()>
        ensures puts { self.old.failed ≡ false
            → Puts self.old.sink self.new.sink result (piece_text self.old.form self.old.held) }
        ensures held { OnOk result (self.new.held ≡ []) }
        ensures sent { OnOk result (self.new.sink.has_ended ≡ false → HoldsNothing self.new.sink) }
        ensures form { self.new.form ≡ self.old.form }
        ensures body { OnOk result ((start : Sink) (given : List ℕ)
            → HasStreamed start given self.old
            → HasStreamed start given self.new) }
        ensures open { OnOk result (self.new.failed ≡ false) }
        ensures ended { OnErr result (self.new.failed ≡ true) }
        ensures after { self.old.failed ≡ true → IsBroken result × (self.new ≡ self.old) }
    {
        if self.failed {
            return Err(ErrorKind::BrokenPipe.into());
        }
        match self.send() {
            Ok(()) => Ok(()),
            Err(fault) => {
                self.failed = true;
                Err(fault)
            }
        }
    }
}
