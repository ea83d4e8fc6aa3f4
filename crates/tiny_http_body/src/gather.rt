//! Reading data into a buffer, or all of it into memory.
ghost use Rattle.std.specs.Prelude.{◌≡◌, ◌<◌, ◌≤◌, ◌+◌, ◌^◌, length, drop, take, IfOk, IfSome};
ghost use Rattle.tiny_http_io.specs.Device.{Fills, ReadsFrom, Gathers, Tells};

use std::alloc::Global;
use std::io;
use std::io::ErrorKind;
use tiny_http_io::device::{ReadDevice, read_some};

/// Maximum number of bytes that are read at a time.
pub(crate) const PIECE: usize = 8192;

// Reads some bytes into the buffer, starting at index `at`.
fn read_behind<D: ReadDevice>(source: &mut D, buf: &mut [u8], at: usize) -> Result<usize, io::Error>
    requires { at ≤ length buf.old }
    ensures bound { IfOk result (λ n. at + n ≤ length buf.old) }
    ensures front { take at buf.new ≡ take at buf.old }
    ensures bytes { ReadsFrom (D.feed source.old) (D.feed source.new) result (drop at buf.new) }
    ensures stop_count { Tells (D.stop_count source.old) (D.stop_count source.new) result }
{
    read_some(source, &mut buf[at..])
}

/// Reads until the buffer is full or the data ends, and returns the number of bytes read. Fails with the fault of the
/// data.
pub(crate) fn fill<D: ReadDevice>(source: &mut D, buf: &mut [u8]) -> Result<usize, io::Error>
    ensures bound { IfOk result (λ n. n ≤ length buf.old) }
    ensures bytes { Fills (D.feed source.old) (D.feed source.new) result buf.new }
    // The data isn't read again after its end or fault, nor after the buffer is full.
    ensures stop_count { D.stop_count source.new ≤ D.stop_count source.old + 1 }
    ensures lazy { IfOk result (λ n. n ≡ length buf.old → D.stop_count source.new ≤ D.stop_count source.old) }
{
    let mut at = 0;
    while at < buf.len() {
        let n = read_behind(source, buf, at)?;
        if n == 0 {
            break;
        }
        at += n;
    }
    Ok(at)
}

/// Reads all the data into memory. Fails with the fault of the data, or with `OutOfMemory` if memory can't be
/// allocated.
pub fn gather<D: ReadDevice>(alloc: Global, source: &mut D) -> Result<Vec<u8>, io::Error>
    ensures gathers { IfSome (D.feed source.old)
        (λ feed. length feed.bytes < 2 ^ 63 → Gathers (λ v. v.items) feed result) }
    // The data isn't read again after its end or fault.
    ensures stop_count { D.stop_count source.new ≤ D.stop_count source.old + 1 }
{
    let mut all = Vec::new(alloc);
    let mut buf = [0u8; PIECE];
    for _turn in 0..u64::MAX {
        let n = fill(source, &mut buf)?;
        all.extend_from_slice(&buf[..n])?;
        if n < PIECE {
            return Ok(all);
        }
    }
    Err(io::Error::from(ErrorKind::Other))
}
