//! Tests of decoding chunked bodies.
use crate::same::assert_same;
use std::io::Read;
use std::process::Abort;
use std::test::Fail;
use tiny_http_wire::chunked::{Decoder, Decoding};
use tiny_http_wire::device::{Canned, ReadDevice, Stop};

// Reads up to four bytes. Asserts the bytes that were read, and how the decoding has stopped by then, if it has.
fn assert_step(
    rt: &impl Abort,
    decoding: &mut Decoding,
    reader: &mut Canned,
    wanted: &[u8],
    stop: Option<Stop>,
) -> Result<(), Fail> {
    let mut buf = [0u8; 4];
    let n = decoding.read(reader, &mut buf)?;
    assert_same(rt, (&buf[..n], decoding.stop()), (wanted, stop));
    Ok(())
}

#[test]
fn a_decoding_apart_from_its_reader(rt: HostRuntime) -> Result<(), Fail> {
    let mut reader = Canned::new(b"5\r\nhello\r\n0\r\n\r\nGET".to_vec(rt.alloc())?, None);
    let mut decoding = Decoding::new();
    for (wanted, stop) in [
        ("hell", None),
        ("o", None),
        ("", Some(Stop::End)),
        ("", Some(Stop::End)),
    ] {
        assert_step(&rt, &mut decoding, &mut reader, wanted.as_bytes(), stop)?;
    }
    let mut rest = [0u8; 4];
    let n = reader.read_in(&mut rest)?;
    assert_same(&rt, &rest[..n], b"GET");
    Ok(())
}

// Reads up to four bytes through std's `Read`, and asserts the bytes that were read.
fn assert_read(rt: &impl Abort, decoder: &mut Decoder<Canned>, wanted: &[u8]) -> Result<(), Fail> {
    let mut buf = [0u8; 4];
    let n = Read::read(decoder, &mut buf)?;
    assert_same(rt, &buf[..n], wanted);
    Ok(())
}

#[test]
fn a_decoder_is_a_reader_of_std(rt: HostRuntime) -> Result<(), Fail> {
    let reader = Canned::new(b"5\r\nhello\r\n0\r\n\r\n".to_vec(rt.alloc())?, None);
    let mut decoder = Decoder::new(reader);
    assert_read(&rt, &mut decoder, b"hell")?;
    assert_read(&rt, &mut decoder, b"o")?;
    assert_read(&rt, &mut decoder, b"")
}
