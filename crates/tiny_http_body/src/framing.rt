//! The framing of requests, and whether the connection persists.
ghost use Rattle.std.specs.Prelude.{◌≡◌, ◌==◌, ◌∷◌, [], if◌then◌else◌, false, codes, None, is_some};
ghost use Rattle.std.specs.Option.{option_copied};
ghost use Rattle.std.specs.List.{starts_with};
ghost use Rattle.tiny_http_text.specs.Bytes.{contains_word, is_blank};
ghost use Rattle.tiny_http_head.specs.Common.{lowercase};
ghost use Rattle.tiny_http_head.specs.Heads.{is_too_new};
ghost use Rattle.tiny_http_head.specs.Lists.{elements_in};
ghost use Rattle.tiny_http_head.specs.ContentLength.{one_length};
ghost use Rattle.tiny_http_body.specs.Framing.{value_of, elements_of, mentions, length_in_value, expectation, is_last};
ghost use Rattle.tiny_http_body.specs.FramingReading.{first_value, chunked_on, uncoded_length};
ghost use Rattle.tiny_http_body.specs.FramingReading.{strict_length, body_length, sized_form, form_by, framing};

use tiny_http_head::blanks::Blanks;
use tiny_http_head::common::{HTTPVersion, Header};
use tiny_http_head::content_length::one_length;
use tiny_http_head::grammar::parse_content_length;
use tiny_http_text::ascii::AsciiString;
use tiny_http_text::text::trim;

/// Maximum length in bytes of a body that is read with its head (as in the Rust crate).
pub const LONGEST_WITH_HEAD: usize = 1024;

/// Maximum length of a head in bytes under `Strict`, the CR LF of its empty line included (RFC 6585, section 5, sets no
/// maximum).
pub const STRICT_HEAD: usize = 65_536;

/// Maximum length of a head in bytes under `Standard`, its empty lines included (RFC 9112, section 3, and RFC 6585,
/// section 5, set no maximum).
pub const STANDARD_HEAD: usize = 65_536;

/// The strictness with which requests are validated.
#[derive(Clone, Copy, Debug, PartialEq, Eq)]
pub enum Profile {
    /// As in the Rust crate, tiny_http 0.12: the first `Content-Length` counts, a `Transfer-Encoding` of any value
    /// means chunked and overrides the length, and a head may be of any size.
    Lenient,
    /// Like `Lenient`, but it refuses `Content-Length` values that aren't one number, `Content-Length` beside
    /// `Transfer-Encoding`, a `Transfer-Encoding` that doesn't end in `chunked` (RFC 9112, sections 6.1 to 6.3), and a
    /// head of more than `STRICT_HEAD` bytes (RFC 6585, section 5). It is laxer than `Standard`, which is the profile
    /// to use behind a proxy.
    Strict,
    /// As RFC 9110 and RFC 9112 require: heads follow the grammar of these RFCs, and `tiny_http_standard_head`
    /// validates them. What `Strict` refuses is refused, too; `chunked` is the only transfer coding. The lines of a
    /// chunked body follow the grammar, a body that is cut is a fault, and a connection is upgraded only as its request
    /// asks. A response has version 1.1 and says whether the connection persists; a response without a final status
    /// code is refused.
    Standard,
}

/// The rules for heads that are read according to the Rust crate's grammar, that is, under the profiles other than
/// `Standard`.
#[derive(Clone, Copy, Debug, PartialEq, Eq)]
pub enum HeadRules {
    /// The rules of `Profile::Lenient`.
    Lenient,
    /// The rules of `Profile::Strict`.
    Strict,
}

impl HeadRules {
    ghost use Rattle.tiny_http_body.specs.Framing.{head_limit};

    /// Returns the maximum length of a head in bytes, the CR LF of its empty line included: `STRICT_HEAD` under
    /// `Strict`, and no maximum (`None`) under `Lenient`.
    pub fn head_limit(self) -> Option<usize>
        ensures { result ≡ head_limit self }
    {
        match self {
            HeadRules::Lenient => None,
            HeadRules::Strict => Some(STRICT_HEAD),
        }
    }
}

/// The reason why the framing of a request is refused.
#[derive(Clone, Copy, Debug, PartialEq, Eq)]
pub enum FramingFault {
    /// The framing is invalid: lengths that aren't one number, a length beside a transfer coding, or codings that don't
    /// end in `chunked`. Of the `HeadRules` only `Strict` refuses such a head, with 400 (RFC 9112, section 6.3).
    Invalid,
    /// An expectation can't be met: 417 (RFC 9110, section 10.1.1).
    Expectation,
}

/// The way in which a request's body is delimited (RFC 9112, section 6).
#[derive(Clone, Copy, Debug, PartialEq, Eq)]
pub enum Form {
    /// The entire rest of the stream: the first `Connection` value contains `upgrade`. Never under `Standard`.
    Rest,
    /// No body.
    Nothing,
    /// 1 to 1024 bytes, read with the head.
    WithHead,
    /// The number of bytes that the head states, read from the stream.
    Counted,
    /// Chunks, read from the stream.
    Chunked,
}

/// The framing of a request, as its head states it, and whether the connection ends after the request.
#[derive(Clone, Copy, Debug, PartialEq, Eq)]
pub struct Framing {
    /// The way in which the body is delimited.
    pub form: Form,
    /// Whether the head expects a 100 (Continue) before the body.
    pub owes_continue: bool,
    /// The value of `Content-Length`, if it can be read and no `Transfer-Encoding` overrides it.
    pub body_length: Option<usize>,
    /// Whether the head asks for an upgrade (RFC 9110, section 7.8). Always false except under `Standard`.
    pub asks_upgrade: bool,
    /// Whether the head was read under `Standard`.
    pub by_standard: bool,
    /// Whether the connection ends after the request.
    pub is_last: bool,
}

/// Returns the value of the first field with this name, ignoring letter case.
pub fn value_of<'a>(headers: &'a [Header], name: &str) -> Option<&'a AsciiString>
    ensures { option_copied result ≡ value_of name.now headers.now }
{
    for header in headers {
        if header.field.equiv(name) {
            return Some(&header.value);
        }
    }
    None
}

// Returns `found` if it is `Some`, and otherwise this field's value if the field has this name.
#[inline(always)]
fn or_value_of<'a>(
    found: Option<&'a AsciiString>,
    header: &'a Header,
    name: &str,
) -> Option<&'a AsciiString>
    ensures { option_copied result ≡ first_value (option_copied found.entry) name.now (header.now ∷ []) }
{
    if found.is_none() && header.field.equiv(name) {
        return Some(&header.value);
    }
    found
}

// Returns whether the text, converted to lower case, begins with the word.
fn begins(text: &[u8], word: &[u8]) -> bool
    ensures { result ≡ starts_with ◌==◌ (lowercase text.now) word.now }
{
    if text.len() < word.len() {
        return false;
    }
    for j in 0..word.len() {
        if text[j].to_ascii_lowercase() != word[j] {
            return false;
        }
    }
    true
}

// Returns whether the text, converted to lower case, contains the word.
fn contains_word(text: &[u8], word: &[u8]) -> bool
    ensures { result ≡ contains_word word.now (lowercase text.now) }
{
    for i in 0..text.len() {
        if begins(&text[i..], word) {
            return true;
        }
    }
    word.is_empty()
}

// Returns whether the value, if there is one, contains the word, case-insensitively.
fn mentions(value: Option<&AsciiString>, word: &str) -> bool
    ensures { result ≡ mentions word.now (option_copied value.entry) }
{
    match value {
        Some(value) => contains_word(value.as_str().as_bytes(), word.as_bytes()),
        None => false,
    }
}

// Returns the length under `Lenient`, given the first `Transfer-Encoding` and `Content-Length`: the coding overrides
// the length.
fn lenient_length(coding: Option<&AsciiString>, length: Option<&AsciiString>) -> Option<usize>
    ensures { result
        ≡ (if is_some (option_copied coding.entry) then None else length_in_value (option_copied length.entry)) }
{
    match (coding, length) {
        (None, Some(value)) => parse_content_length(value.as_str()),
        _ => None,
    }
}

// Returns whether the last element of a value is `chunked`.
fn ends_chunked(value: &str) -> bool
    ensures { result ≡ chunked_on false (elements_in is_blank value.now) }
{
    let mut is_chunked = false;
    for text in value.split(',') {
        is_chunked = trim(text).eq_ignore_ascii_case("chunked");
    }
    is_chunked
}

// Returns whether the last element of all `Transfer-Encoding` fields is `chunked`.
fn is_chunked(headers: &[Header]) -> bool
    ensures { result ≡ chunked_on false (elements_of (codes "Transfer-Encoding") headers.now) }
{
    let mut is_chunked = false;
    for header in headers {
        if header.field.equiv("Transfer-Encoding") {
            is_chunked = ends_chunked(header.value.as_str());
        }
    }
    is_chunked
}

// Returns the length under `Strict`, given that there is no `Transfer-Encoding`. Fails with `Invalid` if the
// `Content-Length` values aren't one number.
fn uncoded_length(headers: &[Header]) -> Result<Option<usize>, FramingFault>
    ensures { result ≡ uncoded_length (one_length (elements_of (codes "Content-Length") headers.now)) }
{
    one_length(headers, Blanks::WhiteSpace).map_err(|_| FramingFault::Invalid)
}

// Returns the length under `Strict`, given whether there are `Transfer-Encoding` and `Content-Length` fields. Fails
// with `Invalid` if there are both, if the last coding isn't `chunked`, or if the `Content-Length` values aren't one
// number.
fn strict_length(
    is_coded: bool,
    is_sized: bool,
    headers: &[Header],
) -> Result<Option<usize>, FramingFault>
    ensures { is_coded ≡ is_some (value_of (codes "Transfer-Encoding") headers.now)
        → is_sized ≡ is_some (value_of (codes "Content-Length") headers.now)
        → result ≡ strict_length (elements_of (codes "Content-Length") headers.now)
        (elements_of (codes "Transfer-Encoding") headers.now) }
{
    if !is_coded {
        return uncoded_length(headers);
    }
    if is_sized {
        return Err(FramingFault::Invalid);
    }
    if is_chunked(headers) {
        return Ok(None);
    }
    Err(FramingFault::Invalid)
}

// Returns the content length under these rules, if there is one, given the first values of `Transfer-Encoding` and
// `Content-Length`. Under `Strict`, fails as `strict_length` does.
fn body_length(
    rules: HeadRules,
    coding: Option<&AsciiString>,
    length: Option<&AsciiString>,
    headers: &[Header],
) -> Result<Option<usize>, FramingFault>
    ensures { option_copied coding.entry ≡ value_of (codes "Transfer-Encoding") headers.now
        → option_copied length.entry ≡ value_of (codes "Content-Length") headers.now
        → result ≡ body_length rules headers.now }
{
    match rules {
        HeadRules::Lenient => Ok(lenient_length(coding, length)),
        HeadRules::Strict => strict_length(coding.is_some(), length.is_some(), headers),
    }
}

// Returns whether a 100 is due, given the value of `Expect`, if there is one. Returns `None` if the expectation can't
// be met.
fn expectation(value: Option<&AsciiString>) -> Option<bool>
    ensures { result ≡ expectation (option_copied value.entry) }
{
    match value {
        None => Some(false),
        Some(value) if value.eq_ignore_ascii_case("100-continue") => Some(true),
        Some(_) => None,
    }
}

/// Returns the form of a body of this length; `None` and 0 mean that there is no body (RFC 9112, section 6.3). A body
/// of 1 to `LONGEST_WITH_HEAD` bytes is read with its head, unless a 100 is due (`owed`).
pub fn sized_form(owed: bool, length: Option<usize>) -> Form
    ensures { result ≡ sized_form owed length }
{
    match length {
        None | Some(0) => Form::Nothing,
        Some(n) if n <= LONGEST_WITH_HEAD && !owed => Form::WithHead,
        Some(_) => Form::Counted,
    }
}

fn form_by(is_upgrade: bool, is_coded: bool, owed: bool, length: Option<usize>) -> Form
    ensures { result ≡ form_by is_upgrade is_coded owed length }
{
    if is_upgrade {
        return Form::Rest;
    }
    if is_coded {
        return Form::Chunked;
    }
    sized_form(owed, length)
}

// Returns whether the connection ends after the request, according to its version and its first `Connection` value.
fn is_last(version: HTTPVersion, connection: Option<&AsciiString>) -> bool
    ensures { result ≡ is_last version (option_copied connection.entry) }
{
    mentions(connection, "close")
        || mentions(connection, "upgrade")
        || (version.0 == 1 && version.1 == 0 && !mentions(connection, "keep-alive"))
}

/// Returns the framing of a request with this version and these fields, under these rules. Fails with `Invalid` if the
/// framing is invalid, which is checked first, or with `Expectation` if an expectation can't be met.
#[tactic(auto, unfolding(crate::specs::FramingReading::framing))]
pub fn framing_of(
    rules: HeadRules,
    version: HTTPVersion,
    headers: &[Header],
) -> Result<Framing, FramingFault>
    ensures { result ≡ framing rules version headers.now }
{
    let mut connection = None;
    let mut expect = None;
    let mut length = None;
    let mut coding = None;
    for header in headers {
        connection = or_value_of(connection, header, "Connection");
        expect = or_value_of(expect, header, "Expect");
        length = or_value_of(length, header, "Content-Length");
        coding = or_value_of(coding, header, "Transfer-Encoding");
    }
    let body_length = body_length(rules, coding, length, headers)?;
    let Some(owed) = expectation(expect) else {
        return Err(FramingFault::Expectation);
    };
    let is_coded = coding.is_some();
    Ok(Framing {
        form: form_by(mentions(connection, "upgrade"), is_coded, owed, body_length),
        owes_continue: owed,
        body_length,
        asks_upgrade: false,
        by_standard: false,
        is_last: is_last(version, connection),
    })
}

/// Returns whether the version is above 1.1, the highest that is supported.
pub fn is_too_new(version: HTTPVersion) -> bool
    ensures { result ≡ is_too_new version }
{
    version.0 > 1 || (version.0 == 1 && version.1 > 1)
}
