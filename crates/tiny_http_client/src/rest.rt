//! A reader of bytes in memory, which takes a line, or a given number of bytes, from their front.
ghost use Rattle.std.specs.Prelude.{◌≡◌, ◌+◌, ◌<◌, ◌≤◌, ◌++◌, length, take, drop, Some, IfSome, IfNone};
ghost use Rattle.tiny_http_text.specs.Lines.{Line, IsUnfinished};
ghost use Rattle.tiny_http_io.specs.Device.{whole_feed};

use std::io;
use std::marker::Model;
use tiny_http_io::device::ReadDevice;

// Returns the position of the first CR LF, if there is one.
fn line_end(bytes: &[u8]) -> Option<usize>
    ensures within { IfSome result (λ n. n + 2 ≤ length bytes.now) }
    ensures line { IfSome result (λ n. Line bytes.now (take n bytes.now) (drop (n + 2) bytes.now)) }
    ensures none { IfNone result (IsUnfinished bytes.now) }
{
    for at in 0..bytes.len() {
        if bytes[at..].starts_with(b"\r\n") {
            return Some(at);
        }
    }
    None
}

// Returns the first line and the bytes after its CR LF, if the line is complete.
fn split_line(bytes: &[u8]) -> Option<(&[u8], &[u8])>
    ensures some { IfSome result (λ r. Line bytes.now r.0.now r.1.now) }
    ensures none { IfNone result (IsUnfinished bytes.now) }
{
    let n = line_end(bytes)?;
    Some((&bytes[..n], &bytes[n + 2..]))
}

/// The bytes still to be read. Contracts see a `Rest` as the list of these bytes.
#[derive(Drop)]
pub(crate) struct Rest<'a> {
    bytes: &'a [u8],
}

impl<'a> Model for Rest<'a> {
    ghost use Rattle.std.specs.Prelude.{ℕ, List};

    ghost Value = { List ℕ };

    ghost view = { λ r. r.bytes.now };
}

impl<'a> Rest<'a> {
    pub(crate) fn new(bytes: &'a [u8]) -> Rest<'a>
        ensures { result ≡ bytes.now }
    {
        Rest { bytes }
    }

    pub(crate) fn len(&self) -> usize
        ensures { result ≡ length self.now }
    {
        self.bytes.len()
    }

    /// Takes the first line and its CR LF, if the line is complete, and returns the line without the CR LF.
    pub(crate) fn take_line(&mut self) -> Option<&'a [u8]>
        ensures some { IfSome result (λ text. Line self.old text.now self.new) }
        ensures none { IfNone result (IsUnfinished self.old) }
    {
        let (text, rest) = split_line(self.bytes)?;
        self.bytes = rest;
        Some(text)
    }

    /// Takes `n` bytes, or returns `None` and takes nothing if fewer are left.
    pub(crate) fn take(&mut self, n: usize) -> Option<&'a [u8]>
        ensures some { IfSome result (λ front. (self.old ≡ front.now ++ self.new) × (length front.now ≡ n)) }
        ensures none { IfNone result (length self.old < n) }
    {
        if self.bytes.len() < n {
            return None;
        }
        let front = &self.bytes[..n];
        self.bytes = &self.bytes[n..];
        Some(front)
    }
}

impl ReadDevice for Rest<'_> {
    ghost feed = { λ r. Some (whole_feed r) };

    /// Copies the next bytes into `buf`, as many as are left and fit, and returns their number. Never fails.
    fn read_in(&mut self, buf: &mut [u8]) -> Result<usize, io::Error> {
        let n = self.bytes.len().min(buf.len());
        buf[..n].copy_from_slice(&self.bytes[..n]);
        self.bytes = &self.bytes[n..];
        Ok(n)
    }
}
