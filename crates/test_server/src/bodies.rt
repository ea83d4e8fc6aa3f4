//! Test of a body whose reader is interrupted.
use crate::memory_fixture::{client, connect_to, next, now};
use std::io::{ErrorKind, Read};
use std::test::Fail;

// Reads once. Returns the kind of the error, if any.
fn kind_of<B: Read>(body: &mut B) -> Option<ErrorKind> {
    match body.read(&mut [0; 9]) {
        Ok(_) => None,
        Err(fault) => Some(fault.kind()),
    }
}

// A request whose body has 2000 bytes, of which 10 arrive.
const CUT: &[u8] = b"POST / HTTP/1.1\r\nContent-Length: 2000\r\n\r\n0123456789";

// An interrupted read is an error: `read_exact` does not retry it, and the next read fails in the same way.
#[test]
fn an_interrupted_body_is_a_fault(rt: HostRuntime) -> Result<(), Fail> {
    let alloc = rt.alloc();
    let client = client(alloc, CUT, Some(ErrorKind::Interrupted))?;
    let mut bench = connect_to(rt, alloc, client)?;
    let mut request = next(&mut bench)?;
    match request.as_reader(now()?).read_exact(&mut [0; 11]) {
        Ok(()) => return Err("no fault".into()),
        Err(fault) => assert_eq!(rt; fault.kind(), ErrorKind::Interrupted),
    }
    assert_eq!(rt;
        kind_of(request.as_reader(now()?)),
        Some(ErrorKind::Interrupted)
    );
    Ok(())
}
