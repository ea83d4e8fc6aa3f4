//! A writer into a small fixed buffer, which joins many small writes into one.
ghost use Rattle.std.specs.Prelude.{◌≡◌, ◌≤◌, ◌+◌, ◌++◌, [], Some, None, false, length, take};
ghost use Rattle.tiny_http_response.specs.declared.page.TheConstants.{ROOM};

use std::io;
use std::io::ErrorKind;
use tiny_http_io::device::WriteDevice;

// The capacity of a page, in bytes.
const ROOM: usize = 512;

/// A writer into a buffer of `ROOM` bytes. Once the buffer is full, each nonempty write fails.
#[derive(Drop)]
pub(crate) struct Page {
    bytes: [u8; ROOM],
    len: usize,
    failures: u64,
    ghost within: { len ≤ ROOM },
}

impl Page {
    ghost use Rattle.tiny_http_response.specs.Page.{page_sink};

    pub(crate) fn new() -> Page
        ensures { page_sink result ≡ record
            { taken = Some []; sent = []; failures = 0; last_kind = None; has_ended = false } }
    {
        Page {
            bytes: [0; ROOM],
            len: 0,
            failures: 0,
        }
    }

    // Appends bytes that fit.
    fn append(&mut self, bytes: &[u8])
        requires room { self.old.len + length bytes.now ≤ ROOM }
        ensures bytes { take self.new.len self.new.bytes ≡ take self.old.len self.old.bytes ++ bytes.now }
        ensures failures { self.new.failures ≡ self.old.failures }
    {
        let end = self.len + bytes.len();
        self.bytes[self.len..end].copy_from_slice(bytes);
        self.len = end;
    }

    /// Returns the bytes written so far.
    pub(crate) fn as_slice(&self) -> &[u8]
        ensures { (page_sink self.now).taken ≡ Some result.now }
    {
        &self.bytes[..self.len]
    }
}

impl WriteDevice for Page {
    ghost use Rattle.tiny_http_response.specs.Page.{page_sink};

    ghost sink = { page_sink };

    /// Returns the number of failed writes.
    fn failures(&self) -> u64 {
        self.failures
    }

    /// Appends as many bytes of `buf` as fit, and returns their number. Fails with `OutOfMemory` if `buf` isn't empty
    /// and none fits.
    fn write_out(&mut self, buf: &[u8]) -> Result<usize, io::Error> {
        let n = buf.len().min(ROOM - self.len);
        if n == 0 && !buf.is_empty() {
            self.failures = self.failures.saturating_add(1);
            return Err(ErrorKind::OutOfMemory.into());
        }
        self.append(&buf[..n]);
        Ok(n)
    }

    /// Does nothing: the page holds no bytes back.
    fn flush_out(&mut self) -> Result<(), io::Error> {
        Ok(())
    }
}
