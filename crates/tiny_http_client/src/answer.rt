//! A response, read as a client reads it.
ghost use Rattle.std.specs.Prelude.{◌≡◌, ◌≤◌, length, drop, IfOk, IfErr, IfSome, Ok, Err, None};
ghost use Rattle.tiny_http_client.specs.ClientAnswer.{is_interim, ReadsAnswer, LacksAnswer, UnfinishedAnswer};
ghost use Rattle.tiny_http_client.specs.ClientAnswer.{MalformedAnswer};
ghost use Rattle.tiny_http_client.specs.AnswerParts.{head_of, LacksBy, answer_of, BeginsWithFinalHead, LacksFinalHead};
ghost use Rattle.tiny_http_client.specs.AnswerParts.{HasSomeField, HasSomeToKeep};

use crate::body::read_body;
use crate::head::{Fault, HeadParts, read_head};
use crate::rest::Rest;
use std::alloc::Global;
use thiserror::Error;
use tiny_http_head::common::{HTTPVersion, Header, Method, StatusCode};

/// A response as a client receives it.
#[derive(Debug, Drop)]
pub struct Answer {
    /// The version in its status line.
    pub version: HTTPVersion,
    /// The status, never from 100 to 199.
    pub status: StatusCode,
    /// The headers in order, each value unchanged.
    pub headers: Vec<Header>,
    /// The data of the body.
    pub body: Vec<u8>,
}

/// The error of `read_answer`.
#[derive(Clone, Copy, Debug, PartialEq, Eq, Error)]
pub enum AnswerFault {
    /// The bytes break a rule of the grammar.
    #[error("malformed")]
    Malformed,
    /// Memory for the response couldn't be allocated.
    #[error("out of memory")]
    Memory,
}

// Returns whether a response with this status is interim, and so is skipped.
fn is_interim(status: StatusCode) -> bool
    ensures { result ≡ is_interim status.0 }
{
    status.0 >= 100 && status.0 < 200
}

// Reads heads, skipping interim ones, and returns the first final head.
fn read_final_head(alloc: Global, rest: &mut Rest<'_>) -> Result<HeadParts, Fault>
    ensures read { IfOk result (λ head. BeginsWithFinalHead rest.old (head_of head) rest.new) }
    ensures lacks { IfErr result (LacksBy (LacksFinalHead rest.old)) }
    ensures memory { result ≡ Err Fault.Memory → HasSomeField rest.old }
{
    loop {
        let head = read_head(alloc, rest)?;
        if !is_interim(head.status) {
            return Ok(head);
        }
    }
}

// Reads the response to a request with this method, skipping interim responses before it.
fn read_whole(alloc: Global, method: &Method, rest: &mut Rest<'_>) -> Result<Answer, Fault>
    ensures read { IfOk result (λ answer. ReadsAnswer method.now rest.old (answer_of answer) rest.new) }
    ensures lacks { IfErr result (LacksBy (LacksAnswer method.now rest.old)) }
    ensures memory { result ≡ Err Fault.Memory → HasSomeToKeep method.now rest.old }
{
    let head = read_final_head(alloc, rest)?;
    let body = read_body(alloc, method, &head, rest)?;
    let HeadParts {
        version,
        status,
        headers,
    } = head;
    Ok(Answer {
        version,
        status,
        headers,
        body,
    })
}

/// Reads the response to a request with this method from the front of `bytes`, and returns it with the number of bytes
/// read, which includes skipped interim responses (1xx). Returns `None` if the bytes end before the response does and
/// break no rule so far; an unfinished line breaks none. See RFC 9112, sections 2.2, 4, 5, 6.3 and 7.1. The Rust crate
/// has no such function.
///
/// A line ends at the first CR LF, and is ASCII. The status line is `HTTP/`, a number up to 255, `.`, a number up to
/// 255, a space, a number up to 65,535, a space, and any text; numbers are decimal without leading zeros. Field lines
/// follow, up to an empty line. Each has a name without white space (bytes 9 to 13 and 32) or colon, then a colon,
/// exactly one space, and the value, which is kept as it is.
///
/// No body follows a 204, a 304, or any response to a `HEAD`. Otherwise, if the value of some `Transfer-Encoding` is
/// just `chunked`, the body is sent in chunks, which `chunked::Decoding` reads. Otherwise the first `Content-Length` is
/// its length in bytes: one or more decimal digits, at most 2^64 - 1. Letter case is ignored in these two names and in
/// `chunked`.
///
/// # Errors
/// - `Malformed` if a finished line of a head breaks a rule, if a body must follow and the head has neither `chunked`
///   nor a valid length, or if decoding the chunked body reports `InvalidData`.
/// - `Memory` if memory for the headers of a head, interim ones included, or for the body can't be allocated.
pub fn read_answer(
    alloc: Global,
    method: &Method,
    bytes: &[u8],
) -> Result<Option<(Answer, usize)>, AnswerFault>
    ensures answer { IfOk result (λ found. IfSome found (λ a. (a.1 ≤ length bytes.now)
        × ReadsAnswer method.now bytes.now (answer_of a.0) (drop a.1 bytes.now))) }
    ensures unfinished { result ≡ Ok None → UnfinishedAnswer method.now bytes.now }
    ensures malformed { result ≡ Err AnswerFault.Malformed → MalformedAnswer method.now bytes.now }
    ensures memory { result ≡ Err AnswerFault.Memory → HasSomeToKeep method.now bytes.now }
{
    let mut rest = Rest::new(bytes);
    match read_whole(alloc, method, &mut rest) {
        Ok(answer) => Ok(Some((answer, bytes.len() - rest.len()))),
        Err(Fault::Unfinished) => Ok(None),
        Err(Fault::Malformed) => Err(AnswerFault::Malformed),
        Err(Fault::Memory) => Err(AnswerFault::Memory),
    }
}
