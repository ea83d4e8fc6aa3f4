//! Shares the writer of a trial through a lock, so that the program can inspect it while a connection uses it.
use std::io;
use std::io::Write;
use std::sync::{Arc, Mutex, Wait};
use test_case_files::devices::Trier;
use tiny_http_socket::write_both::WriteBoth;
use tiny_http_wire::device::{Metered, WriteDevice};

/// A handle to a trial's writer, which is shared through a lock.
#[derive(Drop)]
pub(crate) struct Shared<R> {
    rt: R,
    writer: Arc<Mutex<Trier>>,
}

impl<R> Shared<R> {
    pub(crate) fn new(rt: R, writer: Arc<Mutex<Trier>>) -> Shared<R> {
        Shared { rt, writer }
    }
}

impl<R: Wait> Write for Shared<R> {
    fn write(&mut self, buf: &[u8]) -> io::Result<usize> {
        self.writer.lock(&self.rt).write(buf)
    }

    fn flush(&mut self) -> io::Result<()> {
        self.writer.lock(&self.rt).flush()
    }
}

/// The writer of a trial, used in place of a socket. A vectored write of two byte strings writes only the first one
/// that is not empty.
#[derive(Drop)]
pub(crate) struct TrialSocket<R> {
    writer: Metered<Shared<R>>,
}

impl<R> TrialSocket<R> {
    pub(crate) fn new(writer: Shared<R>) -> TrialSocket<R> {
        let writer = Metered::new(writer);
        TrialSocket { writer }
    }
}

impl<R: Wait> WriteDevice for TrialSocket<R> {
    ghost use Rattle.tiny_http_io.specs.Metered.{metered_sink};

    ghost sink = { λ c. metered_sink c.writer };

    fn failures(&self) -> u64 {
        self.writer.failures()
    }

    fn write_out(&mut self, buf: &[u8]) -> io::Result<usize> {
        self.writer.write_out(buf)
    }

    fn flush_out(&mut self) -> io::Result<()> {
        self.writer.flush_out()
    }
}

impl<R: Wait> WriteBoth for TrialSocket<R> {
    fn write_both(&mut self, front: &[u8], back: &[u8]) -> io::Result<usize> {
        if front.is_empty() {
            return self.writer.write_out(back);
        }
        self.writer.write_out(front)
    }
}
