//! The body of a response that grows while it is sent.
ghost use Rattle.std.specs.Prelude.{◌≡◌};
ghost use Rattle.tiny_http_request.specs.StreamedBody.{form_of};

use std::io;
use std::io::{ErrorKind, Write};
use std::sync::Wait;
use tiny_http_body::streamed::{Streamed, StreamedForm};
use tiny_http_io::device::WriteDevice;
use tiny_http_io::outlet::Outlet;
use tiny_http_threads::sequential::SequentialWriter;

/// The body of a response that `Request::respond_streaming` began. It is written in the turn of its request, and sent
/// by `Streamed`: bytes are held until they fill a piece of 8192 bytes, and `flush` sends what is held, with the head
/// before the first byte. `finish` ends the body. If the body is dropped instead, the connection ends within it: a body
/// in chunks is visibly cut, but a body for a request of version 1.0 or lower, which ends with the connection, looks
/// whole.
///
/// The call that encounters the first fault of the client's writer fails with that fault. Each later call fails with
/// `BrokenPipe`, and nothing more is sent on the connection. If the body isn't sent at all, only the call that sends
/// the head can encounter a fault: a program whose body has no end must check `form` first.
pub struct StreamedBody<W: WriteDevice + Drop, Rt: Wait + Drop> {
    body: Streamed<SequentialWriter<Outlet<W>, Rt>>,
}

impl<W: WriteDevice + Drop, Rt: Wait + Drop> StreamedBody<W, Rt> {
    // Creates the empty body of a response whose head has already been written.
    pub(crate) fn new(
        writer: SequentialWriter<Outlet<W>, Rt>,
        form: StreamedForm,
    ) -> StreamedBody<W, Rt>
        ensures { form_of result ≡ form }
    {
        StreamedBody {
            body: Streamed::new(writer, form),
        }
    }

    /// Returns how the body is sent: in chunks, up to the connection's end, or not at all. In the last case the bytes
    /// that are written are discarded.
    pub fn form(&self) -> StreamedForm
        ensures { result ≡ form_of self.now }
    {
        self.body.form()
    }

    /// Sends what is held and the end of the body, flushes, and ends the turn of its request. If the end of the
    /// connection ends the body (`StreamedForm::Plain`), this call ends the connection. Fails as `write` does.
    pub fn finish(self) -> io::Result<()> {
        let Self { body } = self;
        let form = body.form();
        let mut writer = body.finish()?;
        if form == StreamedForm::Plain {
            return writer.close();
        }
        writer.flush()?;
        writer.pass();
        Ok(())
    }
}

impl<W: WriteDevice + Drop, Rt: Wait + Drop> Write for StreamedBody<W, Rt> {
    ghost use Rattle.std.specs.Io.{WritesAtMost};

    /// Takes some of the bytes, at least one unless `buf` is empty, and returns how many. Fails with the first fault of
    /// the client's writer, and with `BrokenPipe` after it.
    fn write(&mut self, buf: &[u8]) -> io::Result<usize>
        ensures bound { WritesAtMost result buf.now }
    {
        self.body.write(buf)
    }

    /// Takes all the bytes. Fails with the first fault, even one of kind `Interrupted`: the body is broken afterwards.
    fn write_all(&mut self, buf: &[u8]) -> io::Result<()> {
        let mut at = 0;
        while at < buf.len() {
            let n = self.body.write(&buf[at..])?;
            if n == 0 {
                return Err(ErrorKind::WriteZero.into());
            }
            at += n;
        }
        Ok(())
    }

    /// Sends what is held, as one chunk if the body is sent in chunks.
    fn flush(&mut self) -> io::Result<()> {
        self.body.flush()
    }
}

impl<W: WriteDevice + Drop, Rt: Wait + Drop> Drop for StreamedBody<W, Rt> {
    /// Ends the connection within the body.
    fn drop(self) {
        let Self { body } = self;
        let _ = body.into_inner().close();
    }
}
