//! Tests of responses from files: a file of the system, and substitutes for one.
use super::assert_printed;
use crate::same::{assert_holds, assert_same};
use std::fs::{File, Metadata, OpenFile};
use std::io;
use std::io::{Cursor, ErrorKind, Read};
use std::test::Fail;
use tiny_http_wire::common::StatusCode;
use tiny_http_wire::device::Metered;
use tiny_http_wire::response::{Response, ResponseBox};

// A substitute for a file: its bytes, and the length in its metadata, if the metadata can be read.
#[derive(Drop)]
struct Stand {
    bytes: Cursor<Vec<u8>>,
    length: Option<u64>,
}

impl Read for Stand {
    fn read(&mut self, buf: &mut [u8]) -> io::Result<usize> {
        self.bytes.read(buf)
    }
}

impl OpenFile for Stand {
    fn metadata(&self) -> io::Result<Metadata> {
        match self.length {
            Some(length) => Ok(Metadata::of_file(length)),
            None => Err(ErrorKind::PermissionDenied.into()),
        }
    }

    fn set_len(&self, _size: u64) -> io::Result<()> {
        Err(ErrorKind::Unsupported.into())
    }

    fn sync_all(&self) -> io::Result<()> {
        Err(ErrorKind::Unsupported.into())
    }

    fn sync_data(&self) -> io::Result<()> {
        Err(ErrorKind::Unsupported.into())
    }
}

const HELLO: &str =
    "HTTP/1.1 200 OK\r\nServer: tiny-http (Rust)\r\nDate: Wed, 04 May 1983 11:17:00 GMT\r\nContent-Length: 5\r\n\r\n\
        hello";

// The response if the file's length is unknown, or is at least the chunked threshold.
const HELLO_IN_CHUNKS: &str =
    "HTTP/1.1 200 OK\r\nServer: tiny-http (Rust)\r\nDate: Wed, 04 May 1983 11:17:00 GMT\r\n\
        Transfer-Encoding: chunked\r\n\r\n5\r\nhello\r\n0\r\n\r\n";

#[test]
fn a_file_by_its_metadata(rt: HostRuntime) -> Result<(), Fail> {
    for (length, whole) in [(Some(5), HELLO), (None, HELLO_IN_CHUNKS)] {
        let file = Stand {
            bytes: Cursor::new(b"hello".to_vec(rt.alloc())?),
            length,
        };
        let answer = Response::from_file(rt.alloc(), file);
        assert_same(&rt, answer.status_code(), StatusCode(200));
        assert_same(&rt, answer.data_length(), length.map(|n| n as usize));
        assert_holds(&rt, "no headers", answer.headers().is_empty());
        assert_same(&rt, answer.chunked_threshold(), 32768);
        assert_printed(&rt, rt.alloc(), answer, whole)?;
    }
    Ok(())
}

// A file whose length is at least the threshold is sent in chunks, without a content length.
#[test]
fn a_file_by_the_threshold(rt: HostRuntime) -> Result<(), Fail> {
    for (threshold, whole) in [(5, HELLO_IN_CHUNKS), (6, HELLO), (usize::MAX, HELLO)] {
        let file = Stand {
            bytes: Cursor::new(b"hello".to_vec(rt.alloc())?),
            length: Some(5),
        };
        let answer = Response::from_file(rt.alloc(), file).with_chunked_threshold(threshold);
        assert_printed(&rt, rt.alloc(), answer, whole)?;
    }
    Ok(())
}

// The length of a file of 4 GiB is not truncated to 32 bits.
#[test]
fn a_long_file(rt: HostRuntime) {
    let file = Stand {
        bytes: Cursor::new(Vec::new(rt.alloc())),
        length: Some(1 << 32),
    };
    let answer = Response::from_file(rt.alloc(), file);
    assert_same(&rt, answer.data_length(), Some(1 << 32));
}

#[test]
fn a_file_of_the_system(rt: HostRuntime) -> Result<(), Fail> {
    let answer = Response::from_file(rt.alloc(), File::open(&rt, "/dev/null")?);
    assert_same(&rt, answer.data_length(), Some(0));
    assert_same(&rt, answer.status_code(), StatusCode(200));
    Ok(())
}

#[test]
fn any_reader(rt: HostRuntime) -> Result<(), Fail> {
    let bytes = Cursor::new(b"hello".to_vec(rt.alloc())?);
    let reader: Box<dyn Read + Send + Drop> = Box::new(rt.alloc(), bytes)?;
    let answer: ResponseBox = Response::empty(rt.alloc(), StatusCode(200)).with_data(
        Metered::new(reader),
        Some(5),
    );
    assert_printed(&rt, rt.alloc(), answer, HELLO)
}
