//! Adds headers to a response: one by one, in a chain, and when the response is created.
use crate::findings::{add, add_shown};
use crate::row::Finding;
use std::alloc::{AllocError, Global};
use std::io;
use tiny_http_wire::common::{Header, StatusCode};
use tiny_http_wire::response::Response;

const STATUS: StatusCode = StatusCode(404);

// The stated length of the data before headers are added.
const LENGTH: usize = 3;

// The default chunked threshold of a response.
const THRESHOLD: usize = 32768;

// Creates a response without headers, to which headers are added.
fn start(alloc: Global) -> Response<io::Empty> {
    Response::empty(alloc, STATUS).with_data(io::empty(), Some(LENGTH))
}

fn added_one_by_one(alloc: Global, headers: &[Header]) -> Result<Response<io::Empty>, AllocError> {
    let mut answer = start(alloc);
    for header in headers {
        if answer.add_header(header.try_clone()?).is_err() {
            return Err(AllocError);
        }
    }
    Ok(answer)
}

fn added_in_a_chain(alloc: Global, headers: &[Header]) -> Result<Response<io::Empty>, AllocError> {
    let mut answer = start(alloc);
    for header in headers {
        answer = match answer.with_header(header.try_clone()?) {
            Ok(answer) => answer,
            Err(_) => return Err(AllocError),
        };
    }
    Ok(answer)
}

fn copies(alloc: Global, headers: &[Header]) -> Result<Vec<Header>, AllocError> {
    let mut list = Vec::new(alloc);
    for header in headers {
        list.push(header.try_clone()?)?;
    }
    Ok(list)
}

// Creates a response with `Response::new`, which gets `front` as its headers and `behind` as its additional headers.
fn made(
    alloc: Global,
    (front, behind): (&[Header], &[Header]),
) -> Result<Response<io::Empty>, AllocError> {
    let more = copies(alloc, behind)?;
    match Response::new(
        STATUS,
        copies(alloc, front)?,
        io::empty(),
        Some(LENGTH),
        more,
    ) {
        Ok(answer) => Ok(answer),
        Err(_) => Err(AllocError),
    }
}

// Returns the headers of a response and the length of its data, and `changed` if its status or its chunked threshold
// has changed.
fn found_of(alloc: Global, answer: &Response<io::Empty>) -> Result<Vec<Finding>, AllocError> {
    let mut found = Vec::new(alloc);
    for header in answer.headers() {
        add_shown(alloc, &mut found, "kept", header)?;
    }
    if let Some(length) = answer.data_length() {
        add_shown(alloc, &mut found, "length", &length)?;
    }
    if answer.status_code() != STATUS || answer.chunked_threshold() != THRESHOLD {
        add(alloc, &mut found, "changed", b"the status or the threshold")?;
    }
    Ok(found)
}

// Returns whether both lists of results are equal.
fn is_same(found: &[Finding], other: &[Finding]) -> bool {
    found.len() == other.len()
        && found
            .iter()
            .zip(other.iter())
            .all(|(one, two)| one.word == two.word && one.text == two.text)
}

// Returns whether `found_of` returns these results for a response.
fn has(alloc: Global, answer: &Response<io::Empty>, found: &[Finding]) -> Result<bool, AllocError> {
    Ok(is_same(found_of(alloc, answer)?.as_slice(), found))
}

// Returns whether `Response::new` leads to these results, however the headers are split into headers and additional
// headers.
fn is_made_so(alloc: Global, headers: &[Header], found: &[Finding]) -> Result<bool, AllocError> {
    for count in 0..headers.len() {
        let parts = headers.split_at(count);
        if !has(alloc, &made(alloc, parts)?, found)? {
            return Ok(false);
        }
    }
    has(alloc, &made(alloc, (headers, &[]))?, found)
}

/// Adds the results of adding these headers to a response: the headers and the data length that it then has. A copy of
/// the response, and responses that get these headers in other ways, must lead to the same results; otherwise adds
/// `changed`.
pub fn add_to_answer(
    alloc: Global,
    headers: &[Header],
    to: &mut Vec<Finding>,
) -> Result<(), AllocError> {
    let answer = added_one_by_one(alloc, headers)?;
    let found = found_of(alloc, &answer)?;
    if !has(alloc, &answer.try_clone()?, found.as_slice())? {
        add(alloc, to, "changed", b"by a copy")?;
    }
    if !has(alloc, &added_in_a_chain(alloc, headers)?, found.as_slice())? {
        add(alloc, to, "changed", b"by a chain")?;
    }
    if !is_made_so(alloc, headers, found.as_slice())? {
        add(alloc, to, "changed", b"by the making")?;
    }
    for finding in found {
        to.push(finding)?;
    }
    Ok(())
}
