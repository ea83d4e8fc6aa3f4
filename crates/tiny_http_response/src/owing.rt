//! Data with a stated length: a reader that reports an end before that length as an error.
ghost use Rattle.std.specs.Prelude.{◌≡◌};
ghost use Rattle.tiny_http_response.specs.Owing.{owed};

use crate::response_context::Persistence;
use std::io;
use std::io::ErrorKind;
use tiny_http_io::device::ReadDevice;

/// A reader that requires `left` more bytes from its inner reader: an end before the last of them is reported as
/// `UnexpectedEof`. Bytes after them pass unchanged.
#[derive(Drop)]
pub(crate) struct OwingReader<R> {
    inner: R,
    left: usize,
}

/// Returns the minimum length of the data of a chunked response, in bytes: under `Profile::Standard` the length of the
/// data, if known, and otherwise 0. A chunked body without its last chunk shows the client that it is incomplete (RFC
/// 9112, section 8).
pub(crate) fn owed(persistence: Option<Persistence>, data_length: Option<usize>) -> usize
    ensures { result ≡ owed persistence data_length }
{
    match (persistence, data_length) {
        (Some(_), Some(length)) => length,
        _ => 0,
    }
}

impl<R> OwingReader<R> {
    /// Wraps a reader whose data must have at least `length` bytes.
    pub(crate) fn new(reader: R, length: usize) -> OwingReader<R>
        ensures { result ≡ record { inner = reader; left = length } }
    {
        OwingReader {
            inner: reader,
            left: length,
        }
    }
}

impl<R: ReadDevice> ReadDevice for OwingReader<R> {
    ghost use Rattle.tiny_http_response.specs.Owing.{owing_feed, owing_inner};

    ghost feed = { owing_feed R.feed };

    ghost stop_count = { λ r. R.stop_count (owing_inner r) };

    /// Reads once from the inner reader. Fails with that reader's error, or with `UnexpectedEof` if it ends while bytes
    /// are still required.
    fn read_in(&mut self, buf: &mut [u8]) -> Result<usize, io::Error> {
        let n = self.inner.read_in(buf)?;
        if n == 0 && !buf.is_empty() && self.left > 0 {
            return Err(ErrorKind::UnexpectedEof.into());
        }
        self.left = self.left.saturating_sub(n);
        Ok(n)
    }
}
