//! Tests of how many times printing a response calls the reader of its data and the writer, since each call may be a
//! system call.
use crate::same::assert_same;
use httpdate::HttpDate;
use std::alloc::Global;
use std::io;
use std::io::Write;
use std::test::Fail;
use tiny_http_wire::common::{HTTPVersion, StatusCode};
use tiny_http_wire::device::{Metered, ReadDevice};
use tiny_http_wire::response::Response;

// The data of a response: the number of bytes left, and the number of reads so far.
#[derive(Drop)]
struct Data {
    left: usize,
    calls: u64,
}

impl ReadDevice for Data {
    fn read_in(&mut self, buf: &mut [u8]) -> Result<usize, io::Error> {
        if buf.is_empty() {
            return Ok(0);
        }
        let n = buf.len().min(self.left);
        self.left = self.left.saturating_sub(n);
        self.calls = self.calls.saturating_add(1);
        Ok(n)
    }
}

// A writer that accepts everything, and counts its writes.
#[derive(Drop)]
struct Taker(u64);

impl Write for Taker {
    fn write(&mut self, buf: &[u8]) -> io::Result<usize> {
        self.0 = self.0.saturating_add(1);
        Ok(buf.len())
    }

    fn flush(&mut self) -> io::Result<()> {
        Ok(())
    }
}

// Prints a response with 20,000 bytes of data to a client of HTTP/1.`minor`. Returns the number of reads from the data,
// and the number of writes.
fn calls_of(alloc: Global, minor: u8, length: Option<usize>) -> Result<(u64, u64), Fail> {
    let mut data = Data {
        left: 20_000,
        calls: 0,
    };
    let mut writer = Metered::new(Taker(0));
    let answer = Response::empty(alloc, StatusCode(200)).with_data(&mut data, length);
    let now = HttpDate::from_unix_secs(420895020)?;
    answer.raw_print(
        alloc,
        &mut writer,
        HTTPVersion(1, minor),
        &[],
        false,
        None,
        now,
    )?;
    let Taker(writes) = writer.into_inner();
    Ok((data.calls, writes))
}

// A head of up to 512 bytes is one write. The data passes through a buffer of 8192 bytes.
#[test]
fn data_of_known_length_are_sent_in_large_pieces(rt: HostRuntime) -> Result<(), Fail> {
    assert_same(&rt, calls_of(rt.alloc(), 1, Some(20_000))?, (3, 4));
    Ok(())
}

// For HTTP/1.0, data of unknown length is collected up to its end: three reads return pieces, and one finds the end.
#[test]
fn gathered_data_are_read_in_large_pieces(rt: HostRuntime) -> Result<(), Fail> {
    let (reads, _) = calls_of(rt.alloc(), 0, None)?;
    assert_same(&rt, reads, 4);
    Ok(())
}
