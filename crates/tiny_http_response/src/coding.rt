//! The transfer coding of a response body (RFC 9112, sections 6 and 7).
ghost use Rattle.std.specs.Prelude.{◌≡◌, Option};
ghost use Rattle.tiny_http_text.specs.QualityReading.{qualities};
ghost use Rattle.tiny_http_response.specs.Coding.{coding_named, supported_codings, most_wanted, coding_asked};
ghost use Rattle.tiny_http_response.specs.Coding.{chosen_coding};

use tiny_http_head::common::{HTTPVersion, Header, StatusCode};
use tiny_http_text::header_value::parse_element;

/// The transfer coding of a body (RFC 9112, section 7).
#[derive(Clone, Copy, Debug, PartialEq, Eq)]
pub enum Coding {
    /// The bytes as they are.
    Identity,
    /// The bytes in chunks.
    Chunked,
}

/// The header that frames a body (RFC 9112, section 6).
#[derive(Clone, Copy, Debug, PartialEq, Eq)]
pub enum FramingHeader {
    /// No header.
    Neither,
    /// `Transfer-Encoding: chunked`
    TransferEncoding,
    /// `Content-Length`, in bytes.
    ContentLength(usize),
}

// Returns the supported coding with this name, if any, ignoring letter case.
fn coding_named(name: &str) -> Option<Coding>
    ensures { result ≡ coding_named name.now }
{
    if name.eq_ignore_ascii_case("identity") {
        Some(Coding::Identity)
    } else if name.eq_ignore_ascii_case("chunked") {
        Some(Coding::Chunked)
    } else {
        None
    }
}

// Returns the supported coding with the greatest quality in the value of a `TE` header, the first among equals, or
// `None` if the value has no supported coding with a quality above 0.
fn most_wanted(value: &str) -> Option<Coding>
    ensures { result ≡ most_wanted (supported_codings (qualities value.now)) }
{
    let mut wanted = None;
    let mut greatest = 0;
    for text in value.split(',') {
        let (name, quality) = parse_element(text);
        if quality > greatest
            && let Some(coding) = coding_named(name)
        {
            wanted = Some(coding);
            greatest = quality;
        }
    }
    wanted
}

/// Returns the coding that the headers of a request ask for (RFC 9110, section 10.1.4): in the first `TE` header the
/// one with the greatest quality above 0, the first among equals (section 12.4.2). Returns `None` if there is no `TE`,
/// or if the first `TE` accepts neither `identity` nor `chunked`. Allocates nothing.
#[tactic(auto, unfolding(crate::specs::Coding::coding_asked))]
pub fn asked_coding(request_headers: &[Header]) -> Option<Coding>
    ensures { result ≡ coding_asked request_headers.now }
{
    for header in request_headers {
        if header.field.equiv("TE") {
            return most_wanted(header.value.as_str());
        }
    }
    None
}

/// Chooses the coding of a response (RFC 9112, sections 6.1 and 7.4; as in the Rust crate). It is `Identity` for a
/// version up to 1.0, for a status below 200, and for a 204. Otherwise it is `asked`, the coding that the request asks
/// for. If the request asks for none, it is `Chunked` if the length of the data, in bytes, is unknown or at least the
/// threshold, and `Identity` if the length is below the threshold.
pub fn choose(
    version: HTTPVersion,
    asked: Option<Coding>,
    status: StatusCode,
    data_length: Option<usize>,
    threshold: usize,
) -> Coding
    ensures { result ≡ chosen_coding version asked status.0 threshold data_length }
{
    if version <= HTTPVersion(1, 0) || status.0 < 200 || status.0 == 204 {
        return Coding::Identity;
    }
    match (asked, data_length) {
        (Some(coding), _) => coding,
        (None, Some(length)) if length < threshold => Coding::Identity,
        (None, _) => Coding::Chunked,
    }
}
