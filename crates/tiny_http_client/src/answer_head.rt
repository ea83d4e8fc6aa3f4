//! The head of a response, read from the front of some bytes.
ghost use Rattle.std.specs.Prelude.{◌≡◌, ◌<◌, ◌≤◌, map, length, drop, Ok, Err, None, IfOk, IfSome};
ghost use Rattle.std.specs.List.{All};
ghost use Rattle.httparse.specs.Grammar.{HasNoResponse, MayBecomeResponse, ResponseHead, ReadsResponse};
ghost use Rattle.httparse.specs.Spans.{header_bytes, IsHeaderWithin};
ghost use Rattle.tiny_http_client.specs.AnswerHead.{header_pair, IsHeadOf, IsAsciiPair, NeverHasHead, HasHeaders};

use httparse::Status;
use httparse::spans::{EMPTY_HEADER_SPAN, HeaderSpan, parse_response};
use std::alloc::{AllocError, Global};
use thiserror::Error;
use tiny_http_head::common::{HTTPVersion, Header, StatusCode};

/// The maximum number of headers in a head.
pub const MOST_HEADERS: usize = 64;

/// The head of a response, as `read_answer_head` returns it.
#[derive(Debug, Drop)]
pub struct AnswerHead {
    /// The version in its status line: 1.0 or 1.1.
    pub version: HTTPVersion,
    /// The status, of three digits. If it is below 200 and isn't 101, another head follows.
    pub status: StatusCode,
    /// The headers in order, each value with the spaces and tabs around it removed.
    pub headers: Vec<Header>,
}

/// The error of `read_answer_head`.
#[derive(Clone, Copy, Debug, PartialEq, Eq, Error)]
pub enum AnswerHeadFault {
    /// The bytes break a rule of the grammar, a value has a byte that isn't ASCII, or there are more than 64 headers.
    #[error("malformed")]
    Malformed,
    /// Memory for the headers couldn't be allocated.
    #[error("out of memory")]
    Memory,
}

impl From<AllocError> for AnswerHeadFault {
    ghost use Rattle.tiny_http_client.specs.declared.answer_head.AnswerHeadFault.TheVariants.{Memory};

    ghost from_gives = { λ _ fault. fault ≡ Memory };

    /// Returns `Memory`.
    fn from(_error: AllocError) -> AnswerHeadFault {
        AnswerHeadFault::Memory
    }
}

// Copies the headers at these spans. Fails with `Malformed` if a byte of a name or a value isn't ASCII, and only then;
// with `Memory` if memory can't be allocated.
fn headers_at(
    alloc: Global,
    bytes: &[u8],
    spans: &[HeaderSpan],
) -> Result<Vec<Header>, AnswerHeadFault>
    requires { All (IsHeaderWithin (length bytes.now)) spans.now }
    ensures headers { IfOk result (λ headers. map header_pair headers.items ≡ map (header_bytes bytes.now) spans.now) }
    ensures malformed { result ≡ Err AnswerHeadFault.Malformed
        → All IsAsciiPair (map (header_bytes bytes.now) spans.now)
        → ⊥ }
    ensures memory { result ≡ Err AnswerHeadFault.Memory → 0 < length spans.now }
{
    let mut headers = Vec::new(alloc);
    for span in spans {
        let field = span.name.of(bytes).to_vec(alloc)?;
        let value = span.value.of(bytes).to_vec(alloc)?;
        let Ok(header) = Header::from_bytes(field, value) else {
            return Err(AnswerHeadFault::Malformed);
        };
        headers.push(header).map_err(AllocError::from)?;
    }
    Ok(headers)
}

/// Reads the head of a response from the front of `bytes`, and returns it with the number of bytes read (RFC 9112,
/// sections 2.2, 4 and 5): a status line with version 1.0 or 1.1 and a status of three digits, and field lines up to an
/// empty line. White space around a value is optional, a line may end in LF alone, and empty lines may come first. The
/// body follows the head, as its status and headers and the request's method determine (section 6.3). Returns `None` if
/// the bytes end before the head does and further bytes can still complete it.
///
/// # Errors
/// - `Malformed` if no further bytes can complete the head, or if there are more than 64 headers; once the head is
///   complete, also if a value has a byte that isn't ASCII.
/// - `Memory` if memory for the headers can't be allocated.
pub fn read_answer_head(
    alloc: Global,
    bytes: &[u8],
) -> Result<Option<(AnswerHead, usize)>, AnswerHeadFault>
    ensures head { IfOk result (λ found. IfSome found (λ a. (a.1 ≤ length bytes.now)
        × ((h : ResponseHead) × ReadsResponse bytes.now h (drop a.1 bytes.now) × IsHeadOf h a.0))) }
    ensures unfinished { result ≡ Ok None → HasNoResponse bytes.now × MayBecomeResponse bytes.now }
    // `Malformed`: no further bytes complete a head of at most `MOST_HEADERS` headers, all ASCII. `Memory`: only for a
    // complete head with headers.
    ensures malformed { result ≡ Err AnswerHeadFault.Malformed → NeverHasHead MOST_HEADERS bytes.now }
    ensures memory { result ≡ Err AnswerHeadFault.Memory → HasHeaders bytes.now }
{
    let mut spans = [EMPTY_HEADER_SPAN; MOST_HEADERS];
    let found = match parse_response(bytes, &mut spans) {
        Ok(Status::Complete(found)) => found,
        Ok(Status::Partial) => return Ok(None),
        Err(_) => return Err(AnswerHeadFault::Malformed),
    };
    let headers = headers_at(alloc, bytes, &spans[..found.headers])?;
    let head = AnswerHead {
        version: HTTPVersion(1, found.version),
        status: StatusCode(found.code),
        headers,
    };
    Ok(Some((head, found.len)))
}
