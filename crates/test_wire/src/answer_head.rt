//! Tests of reading the head of a response alone (RFC 9112, sections 2.2, 4 and 5).
use std::alloc::Global;
use std::test::Fail;
use tiny_http_client::answer_head::{AnswerHead, AnswerHeadFault, read_answer_head};

// Reads the head at the start of `bytes`. Returns the head and its length in bytes.
fn read(alloc: Global, bytes: &[u8]) -> Result<(AnswerHead, usize), Fail> {
    match read_answer_head(alloc, bytes)? {
        Some(read) => Ok(read),
        None => Err("unfinished".into()),
    }
}

// White space around a value is optional, and the reason phrase may be absent.
#[test]
fn a_head_is_read(rt: HostRuntime) -> Result<(), Fail> {
    let alloc = rt.alloc();
    let bytes = b"HTTP/1.0 404\r\nA:b\r\nC: \t d e \r\n\r\nbody".as_slice();
    let (head, length) = read(alloc, bytes)?;
    assert_eq!(rt; (head.version.0, head.version.1), (1, 0));
    assert_eq!(rt; head.status.0, 404);
    // The length does not include the body.
    assert_eq!(rt; length, 32);
    let [a, c] = head.headers.as_slice() else {
        return Err("not two headers".into());
    };
    assert!(rt; a.field.equiv("a") && c.field.equiv("c"));
    assert_eq!(rt; a.value.as_str(), "b");
    assert_eq!(rt; c.value.as_str(), "d e");
    Ok(())
}

#[test]
fn a_head_is_unfinished_or_malformed(rt: HostRuntime) -> Result<(), Fail> {
    let alloc = rt.alloc();
    for (bytes, wanted) in [
        (b"".as_slice(), None),
        (b"HTTP/1.1 200 OK\r\nA: b\r\n", None),
        (b"HTTP/2.0 200 OK\r\n\r\n", Some(AnswerHeadFault::Malformed)),
        (
            b"HTTP/1.1 2000 OK\r\n\r\n",
            Some(AnswerHeadFault::Malformed),
        ),
        (
            b"HTTP/1.1 200 OK\r\nA b: c\r\n\r\n",
            Some(AnswerHeadFault::Malformed),
        ),
        (
            b"HTTP/1.1 200 OK\r\nA: \x80\r\n\r\n",
            Some(AnswerHeadFault::Malformed),
        ),
    ] {
        match read_answer_head(alloc, bytes) {
            Ok(Some(_)) => return Err("a head".into()),
            Ok(None) => assert_eq!(rt; None, wanted),
            Err(fault) => assert_eq!(rt; Some(fault), wanted),
        }
    }
    Ok(())
}

// Builds a head with `count` headers of 33 bytes each.
fn head_of(alloc: Global, count: usize) -> Result<Vec<u8>, Fail> {
    let mut bytes = b"HTTP/1.1 200 OK\r\n".to_vec(alloc)?;
    for _ in 0..count {
        bytes.extend_from_slice(b"A: 0123456789012345678901234567\r\n")?;
    }
    bytes.extend_from_slice(b"\r\n")?;
    Ok(bytes)
}

#[test]
fn a_head_has_64_headers_at_most(rt: HostRuntime) -> Result<(), Fail> {
    let alloc = rt.alloc();
    let (head, length) = read(alloc, head_of(alloc, 64)?.as_slice())?;
    assert_eq!(rt; head.headers.len(), 64);
    assert_eq!(rt; length, 2131);
    match read_answer_head(alloc, head_of(alloc, 65)?.as_slice()) {
        Err(AnswerHeadFault::Malformed) => Ok(()),
        _ => Err("65 headers".into()),
    }
}
