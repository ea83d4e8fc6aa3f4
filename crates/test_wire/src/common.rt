//! Tests of status codes, versions, methods and headers.
use crate::same::{assert_holds, assert_same, assert_shown};
use httpdate::HttpDate;
use std::alloc::Global;
use std::cmp::Ordering;
use std::hash::{DefaultHasher, Hash, Hasher};
use std::process::Abort;
use std::test::Fail;
use tiny_http_wire::ascii::AsciiString;
use tiny_http_wire::common::{HTTPVersion, Header, HeaderField, Method, ParseError, StatusCode};

fn header(alloc: Global, field: &[u8], value: &[u8]) -> Result<Header, Fail> {
    match Header::from_bytes(field.to_vec(alloc)?, value.to_vec(alloc)?) {
        Ok(header) => Ok(header),
        Err(()) => Err("not ASCII".into()),
    }
}

fn name(alloc: Global, bytes: &[u8]) -> Result<HeaderField, Fail> {
    Ok(HeaderField::from_bytes(bytes.to_vec(alloc)?)?)
}

// Returns the standard methods and their names.
fn nine_methods() -> [(&'static str, Method); 9] {
    [
        ("GET", Method::Get),
        ("HEAD", Method::Head),
        ("POST", Method::Post),
        ("PUT", Method::Put),
        ("DELETE", Method::Delete),
        ("CONNECT", Method::Connect),
        ("OPTIONS", Method::Options),
        ("TRACE", Method::Trace),
        ("PATCH", Method::Patch),
    ]
}

fn code<N>(number: N) -> u16
where
    StatusCode: From<N>,
{
    StatusCode::from(number).as_u16()
}

// Returns the status codes made from numbers of 8, 16 and 32 bits.
fn codes() -> [[u16; 3]; 3] {
    [
        [code(-1i8), code(127i8), code(200u8)],
        [code(-200i16), code(404u16), code(-65536i32)],
        [code(200i32), code(65736u32), code(204u8)],
    ]
}

#[test]
fn codes_from_numbers(rt: HostRuntime) {
    assert_same(
        &rt,
        codes(),
        [[65535, 127, 200], [65336, 404, 0], [200, 200, 204]],
    );
    assert_holds(
        &rt,
        "199 is less than 200",
        StatusCode(199) < StatusCode(200),
    );
    assert_holds(
        &rt,
        "204 is 204",
        StatusCode(204) == StatusCode::from(204u8),
    );
}

const CODES_AGAINST_NUMBERS: &[(u16, u16, Ordering)] = &[
    (200, 200, Ordering::Equal),
    (199, 200, Ordering::Less),
    (404, 200, Ordering::Greater),
    (0, 65535, Ordering::Less),
];

// Asserts how a status code compares to a number.
fn assert_code(rt: &impl Abort, code: u16, number: u16, order: Ordering) {
    let status = StatusCode(code);
    assert_same(rt, (code, status.cmp_u16(number)), (code, order));
    assert_same(
        rt,
        (code, status.is(number)),
        (code, order == Ordering::Equal),
    );
    assert_same(rt, (code, status.cmp(&StatusCode(number))), (code, order));
}

#[test]
fn codes_against_numbers(rt: HostRuntime) {
    for (code, number, order) in CODES_AGAINST_NUMBERS {
        assert_code(&rt, *code, *number, *order);
    }
}

const VERSIONS_AGAINST_PAIRS: &[(HTTPVersion, (u8, u8), Ordering)] = &[
    (HTTPVersion(1, 1), (1, 1), Ordering::Equal),
    (HTTPVersion(1, 0), (1, 1), Ordering::Less),
    (HTTPVersion(1, 1), (1, 0), Ordering::Greater),
    (HTTPVersion(0, 9), (1, 0), Ordering::Less),
    (HTTPVersion(2, 0), (1, 1), Ordering::Greater),
];

// Asserts how a version compares to a pair of numbers.
fn assert_version(rt: &impl Abort, version: HTTPVersion, pair: (u8, u8), order: Ordering) {
    assert_same(rt, (version, version.cmp_pair(pair)), (version, order));
    assert_same(
        rt,
        (version, version.is(pair)),
        (version, order == Ordering::Equal),
    );
}

#[test]
fn versions_against_pairs(rt: HostRuntime) {
    for (version, pair, order) in VERSIONS_AGAINST_PAIRS {
        assert_version(&rt, *version, *pair, *order);
    }
}

#[test]
fn a_version_is_shown_in_a_wide_place(rt: HostRuntime) -> Result<(), Fail> {
    let version = HTTPVersion(1, 1);
    let shown = format!(in rt.alloc(); "{version:>9}")?;
    assert_same(&rt, shown.as_str(), "1.1");
    Ok(())
}

#[test]
fn versions_are_in_order(rt: HostRuntime) {
    assert_holds(
        &rt,
        "0.9 is before 1.0",
        HTTPVersion(0, 9) < HTTPVersion(1, 0),
    );
    assert_holds(
        &rt,
        "1.1 is before 2.0",
        HTTPVersion(1, 1) < HTTPVersion(2, 0),
    );
    assert_holds(
        &rt,
        "1.0 is before 1.1",
        HTTPVersion(1, 0) < HTTPVersion(1, 1),
    );
    assert_holds(
        &rt,
        "1.1 is not 1.0",
        HTTPVersion(1, 1) != HTTPVersion(1, 0),
    );
}

#[test]
fn headers_are_shown(rt: HostRuntime) -> Result<(), Fail> {
    let header = header(rt.alloc(), b"Content-type", b"text/html; charset=UTF-8")?;
    let text = "Content-type: text/html; charset=UTF-8";
    assert_shown(&rt, rt.alloc(), &header, text)?;
    assert_shown(&rt, rt.alloc(), &header.field, "Content-type")?;
    assert_same(&rt, header.field.as_str().as_str(), "Content-type");
    Ok(())
}

// Asserts that field names are compared regardless of case.
fn assert_names(rt: &impl Abort, field: &HeaderField, same: &HeaderField, other: &HeaderField) {
    let found = (field.equiv("content-Type"), field.equiv("Content_type"));
    assert_same(rt, found, (true, false));
    assert_same(rt, (field == same, field != other), (true, true));
}

#[test]
fn names_are_compared(rt: HostRuntime) -> Result<(), Fail> {
    let field = name(rt.alloc(), b"Content-type")?;
    let same = name(rt.alloc(), b"CONTENT-TYPE")?;
    let other = name(rt.alloc(), b"Content-Typ")?;
    assert_names(&rt, &field, &same, &other);
    Ok(())
}

#[test]
fn a_name_that_is_not_ascii_is_refused(rt: HostRuntime) -> Result<(), Fail> {
    let refused = HeaderField::from_bytes(b"Caf\xe9".to_vec(rt.alloc())?);
    assert!(rt; refused.is_err());
    Ok(())
}

// Returns whether these bytes are refused as a header.
fn is_refused(alloc: Global, field: &[u8], value: &[u8]) -> Result<bool, Fail> {
    Ok(Header::from_bytes(field.to_vec(alloc)?, value.to_vec(alloc)?).is_err())
}

#[test]
fn headers_that_are_not_ascii_are_refused(rt: HostRuntime) -> Result<(), Fail> {
    assert!(rt; is_refused(rt.alloc(), b"Caf\xe9", b"b")?);
    assert!(rt; is_refused(rt.alloc(), b"a", b"Caf\xe9")?);
    Ok(())
}

fn assert_host(rt: &impl Abort, field: &HeaderField) {
    let name = field.as_str();
    assert_same(rt, name.as_str(), "Host");
}

#[test]
fn headers_are_copied(rt: HostRuntime) -> Result<(), Fail> {
    let header = header(rt.alloc(), b"Host", b"a b")?;
    let copy = header.try_clone()?;
    assert_host(&rt, &copy.field);
    assert_same(&rt, copy.value.as_str(), "a b");
    let field = header.field.try_clone()?;
    assert_host(&rt, &field);
    Ok(())
}

// Asserts that a copy of the method with this name equals the method, and has the name.
fn assert_copy(rt: &impl Abort, alloc: Global, name: &str) -> Result<(), Fail> {
    let method = Method::from_str(alloc, name)?;
    let copy = method.try_clone()?;
    assert_holds(rt, name, copy == method);
    assert_same(rt, copy.as_str(), name);
    Ok(())
}

#[test]
fn methods_are_copied(rt: HostRuntime) -> Result<(), Fail> {
    for name in [
        "GET", "HEAD", "POST", "PUT", "DELETE", "CONNECT", "OPTIONS", "TRACE", "PATCH", "get", "",
    ] {
        assert_copy(&rt, rt.alloc(), name)?;
    }
    Ok(())
}

fn hash_of(method: &Method) -> u64 {
    let mut state = DefaultHasher::new();
    method.hash(&mut state);
    state.finish()
}

fn hash_of_name(alloc: Global, name: &str) -> Result<u64, Fail> {
    Ok(hash_of(&Method::from_str(alloc, name)?))
}

#[test]
fn hashes_of_equal_methods(rt: HostRuntime) -> Result<(), Fail> {
    let own = Method::from_str(rt.alloc(), "get")?;
    assert_same(&rt, hash_of(&own), hash_of(&own.try_clone()?));
    assert_same(&rt, hash_of(&Method::Get), hash_of_name(rt.alloc(), "GET")?);
    Ok(())
}

#[test]
fn hashes_of_other_methods(rt: HostRuntime) -> Result<(), Fail> {
    let own = hash_of_name(rt.alloc(), "get")?;
    assert!(rt; own != hash_of_name(rt.alloc(), "gets")?);
    assert!(rt; hash_of(&Method::Get) != hash_of(&Method::Head));
    Ok(())
}

#[test]
fn faults_in_words(rt: HostRuntime) -> Result<(), Fail> {
    assert_shown(&rt, rt.alloc(), &ParseError::Refused, "not of the grammar")?;
    assert_shown(&rt, rt.alloc(), &ParseError::Memory, "out of memory")
}

#[test]
fn a_date(rt: HostRuntime) -> Result<(), Fail> {
    let date = HttpDate::from_unix_secs(420895020)?;
    assert_shown(&rt, rt.alloc(), &date, "Wed, 04 May 1983 11:17:00 GMT")
}

// Asserts that `name` is the method's name, and that the method is displayed as `name`.
fn assert_named(rt: &impl Abort, alloc: Global, method: &Method, name: &str) -> Result<(), Fail> {
    assert_same(rt, method.as_str(), name);
    assert_shown(rt, alloc, method, name)
}

#[test]
fn methods(rt: HostRuntime) -> Result<(), Fail> {
    for (name, method) in &nine_methods() {
        assert_named(&rt, rt.alloc(), method, name)?;
    }
    Ok(())
}

#[test]
fn a_method_of_another_name(rt: HostRuntime) -> Result<(), Fail> {
    let own = Method::NonStandard(AsciiString::from_ascii(b"get".to_vec(rt.alloc())?)?);
    assert_named(&rt, rt.alloc(), &own, "get")?;
    let differ = (own != Method::Get, Method::Head != Method::Put);
    assert_same(&rt, differ, (true, true));
    assert!(rt; Method::Get == Method::Get);
    Ok(())
}
