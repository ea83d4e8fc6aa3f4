//! Tests of ASCII texts, accepted and refused.
use crate::same::{assert_holds, assert_same, assert_shown};
use std::alloc::Global;
use std::process::Abort;
use std::test::Fail;
use tiny_http_wire::ascii::{AsciiString, FromAsciiError};

// Creates a text from `bytes`.
fn ascii(alloc: Global, bytes: &[u8]) -> Result<AsciiString, Fail> {
    Ok(AsciiString::from_ascii(bytes.to_vec(alloc)?)?)
}

// Returns the error of creating a text from `bytes`, which must be refused.
fn refused(alloc: Global, bytes: &[u8]) -> Result<FromAsciiError, Fail> {
    match AsciiString::from_ascii(bytes.to_vec(alloc)?) {
        Ok(_) => Err("accepted".into()),
        Err(refused) => Ok(refused),
    }
}

// Asserts that a text is ` Ab\t`, and `Ab` when trimmed.
fn assert_texts(rt: &impl Abort, text: &AsciiString) {
    assert_same(rt, text.as_str(), " Ab\t");
    assert_same(rt, text.as_ascii().as_str(), " Ab\t");
    assert_same(rt, text.trim().as_str(), "Ab");
}

fn assert_lengths(rt: &impl Abort, text: &AsciiString) {
    assert_same(rt, text.as_ascii().trim().len(), 2);
    assert_same(rt, text.len(), 4);
    assert_same(
        rt,
        (text.is_empty(), text.as_ascii().is_empty()),
        (false, false),
    );
}

fn assert_equal_without_case(rt: &impl Abort, text: &AsciiString) {
    let whole = (
        text.eq_ignore_ascii_case(" aB\t"),
        text.eq_ignore_ascii_case("ab"),
    );
    assert_same(rt, whole, (true, false));
    let trimmed = text.trim();
    let trimmed = (
        trimmed.eq_ignore_ascii_case("aB"),
        trimmed.eq_ignore_ascii_case("b"),
    );
    assert_same(rt, trimmed, (true, false));
}

#[test]
fn takes(rt: HostRuntime) -> Result<(), Fail> {
    let text = ascii(rt.alloc(), b" Ab\t")?;
    assert_texts(&rt, &text);
    assert_lengths(&rt, &text);
    assert_equal_without_case(&rt, &text);
    let debugged = format!(in rt.alloc(); "{text:?}")?;
    assert_same(&rt, debugged.as_str(), "\" Ab\\t\"");
    assert_shown(&rt, rt.alloc(), &text, " Ab\t")
}

#[test]
fn refuses(rt: HostRuntime) -> Result<(), Fail> {
    let refused = refused(rt.alloc(), b"w\xc3\xa9")?;
    assert_same(&rt, refused.place(), 1);
    assert_shown(
        &rt,
        rt.alloc(),
        &refused,
        "the byte at place 1 is not ASCII",
    )?;
    let source = refused.into_source();
    assert_same(&rt, source.as_slice(), b"w\xc3\xa9");
    Ok(())
}

// Asserts that `copy` equals `text`, and that `other`, which differs from `text` in case, does not.
fn assert_copy(rt: &impl Abort, text: &AsciiString, copy: &AsciiString, other: &AsciiString) {
    assert_same(rt, copy.as_str(), "chunked");
    assert_holds(rt, "a copy is equal", copy == text);
    assert_holds(rt, "another case is not", text != other);
}

#[test]
fn copies_and_compares(rt: HostRuntime) -> Result<(), Fail> {
    let text = ascii(rt.alloc(), b"chunked")?;
    let other = ascii(rt.alloc(), b"Chunked")?;
    assert_copy(&rt, &text, &text.try_clone()?, &other);
    Ok(())
}
