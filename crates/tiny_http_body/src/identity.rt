//! Bodies of known length, sent without a transfer coding (RFC 9112, section 6.2).
ghost use Rattle.std.specs.Prelude.{◌≡◌, ◌<◌, ◌≤◌, ◌+◌, length, take, IfOk, OnErr, IfSome};
ghost use Rattle.tiny_http_io.specs.Device.{ReadsFrom, CopiesPiece, CountsFaults, Tells, fault_count};
ghost use Rattle.tiny_http_body.specs.Text.{Prints, identity_body, TakesUpTo};

use crate::gather::PIECE;
use std::io;
use std::io::ErrorKind;
use tiny_http_io::device::{ReadDevice, WriteDevice, put, read_some};

// Reads at most `n` bytes into the front of the buffer.
fn read_into_front<D: ReadDevice>(
    source: &mut D,
    buf: &mut [u8],
    n: usize,
) -> Result<usize, io::Error>
    requires { n ≤ length buf.old }
    ensures bound { IfOk result (λ k. k ≤ n) }
    ensures bytes { ReadsFrom (D.feed source.old) (D.feed source.new) result (take n buf.new) }
    ensures stop_count { Tells (D.stop_count source.old) (D.stop_count source.new) result }
{
    read_some(source, &mut buf[..n])
}

// Copies some of the next `left` bytes through the buffer, and returns how many. Fails with `UnexpectedEof` if the data
// ends, or with the first fault of the data or the writer.
fn put_piece<D: ReadDevice, W: WriteDevice>(
    source: &mut D,
    writer: &mut W,
    buf: &mut [u8],
    left: usize,
) -> Result<usize, io::Error>
    requires some { 0 < left }
    requires room { 0 < length buf.old }
    ensures copies { CopiesPiece (D.feed source.old) (D.feed source.new) (W.sink writer.old) (W.sink writer.new) left
        result }
    ensures takes { IfSome (D.feed source.old)
        (λ feed. OnErr result (TakesUpTo left feed (D.feed source.new) result)) }
    ensures uses { CountsFaults (W.sink writer.old) (W.sink writer.new) result }
    ensures len { length buf.new ≡ length buf.old }
    ensures stop_count { D.stop_count source.new ≤ D.stop_count source.old + fault_count result }
{
    let room = left.min(buf.len());
    let count = read_into_front(source, buf, room)?;
    if count == 0 {
        return Err(ErrorKind::UnexpectedEof.into());
    }
    put(writer, &buf[..count])?;
    Ok(count)
}

// Writes the first `n` bytes of the data, piece by piece through the buffer.
fn put_through<D: ReadDevice, W: WriteDevice>(
    source: &mut D,
    writer: &mut W,
    buf: &mut [u8],
    n: usize,
) -> Result<(), io::Error>
    requires { 0 < length buf.old }
    ensures text { IfSome (D.feed source.old)
        (λ feed. Prints (W.sink writer.old) (W.sink writer.new) result (identity_body n feed)) }
    ensures takes { IfSome (D.feed source.old) (λ feed. TakesUpTo n feed (D.feed source.new) result) }
    ensures uses { CountsFaults (W.sink writer.old) (W.sink writer.new) result }
    ensures stop_count { D.stop_count source.new ≤ D.stop_count source.old + fault_count result }
{
    let mut left = n;
    while left > 0 {
        left -= put_piece(source, writer, buf, left)?;
    }
    Ok(())
}

// Buffer sizes that suffice for short data, and for most data. A larger buffer costs more, since it is zeroed.
const SHORT: usize = 256;

const SMALL: usize = 1024;

// The buffer size for data that fills it. A piece then usually takes one read, and on a socket one write.
const LARGE: usize = 65_536;

// Writes the first `n` bytes of the data through a large buffer, in a stack frame of its own, so that shorter data
// doesn't pay for that buffer.
#[inline(never)]
fn put_large<D: ReadDevice, W: WriteDevice>(
    source: &mut D,
    writer: &mut W,
    n: usize,
) -> Result<(), io::Error>
    ensures text { IfSome (D.feed source.old)
        (λ feed. Prints (W.sink writer.old) (W.sink writer.new) result (identity_body n feed)) }
    ensures takes { IfSome (D.feed source.old) (λ feed. TakesUpTo n feed (D.feed source.new) result) }
    ensures uses { CountsFaults (W.sink writer.old) (W.sink writer.new) result }
    ensures stop_count { D.stop_count source.new ≤ D.stop_count source.old + fault_count result }
{
    put_through(source, writer, &mut [0u8; LARGE], n)
}

/// Writes the first `n` bytes of the data, as they arrive. Fails with `UnexpectedEof` if the data ends after fewer than
/// `n` bytes, or with the first fault of the data or the writer. After a failure nothing more is written.
pub fn put_exactly<D: ReadDevice, W: WriteDevice>(
    source: &mut D,
    writer: &mut W,
    n: usize,
) -> Result<(), io::Error>
    ensures text { IfSome (D.feed source.old)
        (λ feed. Prints (W.sink writer.old) (W.sink writer.new) result (identity_body n feed)) }
    // No byte after the first `n` is taken from the data.
    ensures takes { IfSome (D.feed source.old) (λ feed. TakesUpTo n feed (D.feed source.new) result) }
    ensures uses { CountsFaults (W.sink writer.old) (W.sink writer.new) result }
    // The data isn't read again after its end or fault, nor beyond the `n` bytes.
    ensures stop_count { D.stop_count source.new ≤ D.stop_count source.old + fault_count result }
{
    if n <= SHORT {
        return put_through(source, writer, &mut [0u8; SHORT], n);
    }
    if n <= SMALL {
        return put_through(source, writer, &mut [0u8; SMALL], n);
    }
    if n < LARGE {
        return put_through(source, writer, &mut [0u8; PIECE], n);
    }
    put_large(source, writer, n)
}
