//! The chunked transfer coding: encoding of data from a reader (RFC 9112, section 7.1).
ghost use Rattle.std.specs.Prelude.{◌≡◌, ◌<◌, ◌≤◌, ◌+◌, ◌^◌, ◌++◌, length, codes, IfSome};
ghost use Rattle.tiny_http_io.specs.Device.{Puts, CountsFaults};
ghost use Rattle.tiny_http_body.specs.ChunkedPrinting.{printed_chunk, short_chunk};
ghost use Rattle.tiny_http_body.specs.Text.{Prints, chunked_body};

use crate::gather::fill;
use std::io;
use std::io::ErrorKind;
use tiny_http_io::device::{ReadDevice, WriteDevice, put, put_all};
use tiny_http_text::number::Numeral;

/// The size of a full chunk in bytes (as in the Rust crate).
pub const CHUNK: usize = 8192;

/// Writes some bytes as one chunk: their number in lowercase hexadecimal without leading zeros, CR LF, the bytes, CR LF
/// (RFC 9112, section 7.1). Fails with the writer's first fault, after which nothing more is written.
pub fn put_chunk<W: WriteDevice>(writer: &mut W, bytes: &[u8]) -> Result<(), io::Error>
    // A chunk without bytes would be the last chunk.
    requires { 0 < length bytes.now }
    ensures { Puts (W.sink writer.old) (W.sink writer.new) result (printed_chunk bytes.now) }
{
    let size = Numeral::hexadecimal(bytes.len() as u64);
    put_all(writer, &[size.as_bytes(), b"\r\n", bytes, b"\r\n"])
}

/// Writes the remaining bytes of a body as a chunk, if there are any, then the last chunk and an empty trailer section
/// (RFC 9112, section 7.1). Fails as `put_chunk` does.
pub fn put_last<W: WriteDevice>(writer: &mut W, bytes: &[u8]) -> Result<(), io::Error>
    ensures { Puts (W.sink writer.old) (W.sink writer.new) result (short_chunk bytes.now ++ codes "0\r\n\r\n") }
{
    if !bytes.is_empty() {
        put_chunk(writer, bytes)?;
    }
    put(writer, b"0\r\n\r\n")
}

/// Writes all the data in chunks of 8192 bytes, of which the last with data may be shorter, then the chunk of size 0
/// and the empty trailer section that end the body (RFC 9112, section 7.1). Fails with the first fault of the data or
/// the writer. After a fault of the data, all full chunks before the fault have been written, but not the end of the
/// body; after a fault of the writer, nothing more is written.
pub fn put_chunked<D: ReadDevice, W: WriteDevice>(
    source: &mut D,
    writer: &mut W,
) -> Result<(), io::Error>
    ensures text { IfSome (D.feed source.old) (λ feed. length feed.bytes < 2 ^ 63 →
        Prints (W.sink writer.old) (W.sink writer.new) result (chunked_body feed)) }
    // Whatever the data and the writer state, a fault is the writer's only if the writer's failure count rose.
    ensures uses { CountsFaults (W.sink writer.old) (W.sink writer.new) result }
    // The data isn't read again after its end or fault.
    ensures stop_count { D.stop_count source.new ≤ D.stop_count source.old + 1 }
{
    let mut buf = [0u8; CHUNK];
    for _turn in 0..u64::MAX {
        let count = fill(source, &mut buf)?;
        if count < CHUNK {
            return put_last(writer, &buf[..count]);
        }
        put_chunk(writer, &buf)?;
    }
    Err(ErrorKind::Other.into())
}
