//! Status codes, versions, methods and header fields.
ghost use Rattle.std.specs.Prelude.{◌≡◌, ◌%◌, ◌↔◌, IfOk, IfErr, IsOk, IsErrOf, IsSome, IsTrue, OnErr, IsAscii, Some};
ghost use Rattle.std.specs.Prelude.{nat_eq, List, ℕ};
ghost use Rattle.std.specs.Ordering.{on};
ghost use Rattle.std.specs.Cmp.Lexicographic.{pointwise};
ghost use Rattle.std.specs.Cmp.Rules.{comparing};
ghost use Rattle.std.proofs.Common.{rules};
ghost use Rattle.tiny_http_text.specs.Bytes.{AreAscii};
ghost use Rattle.tiny_http_head.specs.Number.{code_of};
ghost use Rattle.tiny_http_head.specs.Heads.{method_of};
ghost use Rattle.tiny_http_head.specs.HeadReading.{header_line};
ghost use Rattle.tiny_http_head.specs.HeaderTexts.{IsFieldValue};

use httparse::{is_header_value, is_token};
use std::alloc::{AllocError, Global};
use std::cmp::Ordering;
use std::io::ErrorKind;
use std::marker::Model;
use std::{fmt, io};
use thiserror::Error;
use tiny_http_text::ascii::{AsciiStr, AsciiString, FromAsciiError};
use tiny_http_text::bytes::{are_ascii, cut, has_no_blank, is, is_trimmed, trim};
use tiny_http_text::copies::owned;
use tiny_http_text::number::Numeral;

/// The error returned when a text can't be parsed or a header can't be made from texts.
#[derive(Clone, Copy, Debug, PartialEq, Eq, Error)]
pub enum ParseError {
    /// The text doesn't match the grammar.
    #[error("not of the grammar")]
    Refused,
    /// Memory for the result couldn't be allocated.
    #[error("out of memory")]
    Memory,
}

impl From<AllocError> for ParseError {
    ghost use Rattle.tiny_http_head.specs.declared.common.ParseError.TheVariants.{Memory};

    ghost from_gives = { λ _ error. error ≡ Memory };

    fn from(_error: AllocError) -> ParseError {
        ParseError::Memory
    }
}

impl From<ParseError> for io::Error {
    ghost use Rattle.std.specs.IoError.{error_kind};
    ghost use Rattle.tiny_http_head.specs.HeaderTexts.{kind_of};

    ghost from_gives = { λ error fault. error_kind fault ≡ kind_of error };

    /// Converts `Refused` to `InvalidInput` and `Memory` to `OutOfMemory`, so that `?` works in a function that returns
    /// an `io::Result`.
    fn from(error: ParseError) -> io::Error {
        match error {
            ParseError::Refused => ErrorKind::InvalidInput.into(),
            ParseError::Memory => ErrorKind::OutOfMemory.into(),
        }
    }
}

/// The status code of a response (RFC 9110, section 15). Any 16-bit number is accepted.
#[derive(Clone, Copy, Debug, PartialEq, Eq, PartialOrd, Ord)]
pub struct StatusCode(pub u16);

impl StatusCode {
    ghost use Rattle.tiny_http_head.specs.Common.{reason_phrase, is_code, code_order};

    /// Returns the reason phrase of the code, or `Unknown` for a code without one. The table is the Rust crate's; most
    /// of it is from RFC 9110, section 15.
    #[tactic(auto, unfolding(crate::specs::Common::reason_phrase))]
    pub fn default_reason_phrase(&self) -> &'static str
        ensures { result.now ≡ reason_phrase self.now.0 }
    {
        match self.as_u16() {
            100 => "Continue",
            101 => "Switching Protocols",
            102 => "Processing",
            103 => "Early Hints",
            200 => "OK",
            201 => "Created",
            202 => "Accepted",
            203 => "Non-Authoritative Information",
            204 => "No Content",
            205 => "Reset Content",
            206 => "Partial Content",
            207 => "Multi-Status",
            208 => "Already Reported",
            226 => "IM Used",
            300 => "Multiple Choices",
            301 => "Moved Permanently",
            302 => "Found",
            303 => "See Other",
            304 => "Not Modified",
            305 => "Use Proxy",
            307 => "Temporary Redirect",
            308 => "Permanent Redirect",
            400 => "Bad Request",
            401 => "Unauthorized",
            402 => "Payment Required",
            403 => "Forbidden",
            404 => "Not Found",
            405 => "Method Not Allowed",
            406 => "Not Acceptable",
            407 => "Proxy Authentication Required",
            408 => "Request Timeout",
            409 => "Conflict",
            410 => "Gone",
            411 => "Length Required",
            412 => "Precondition Failed",
            413 => "Payload Too Large",
            414 => "URI Too Long",
            415 => "Unsupported Media Type",
            416 => "Range Not Satisfiable",
            417 => "Expectation Failed",
            421 => "Misdirected Request",
            422 => "Unprocessable Entity",
            423 => "Locked",
            424 => "Failed Dependency",
            426 => "Upgrade Required",
            428 => "Precondition Required",
            429 => "Too Many Requests",
            431 => "Request Header Fields Too Large",
            451 => "Unavailable For Legal Reasons",
            500 => "Internal Server Error",
            501 => "Not Implemented",
            502 => "Bad Gateway",
            503 => "Service Unavailable",
            504 => "Gateway Timeout",
            505 => "HTTP Version Not Supported",
            506 => "Variant Also Negotiates",
            507 => "Insufficient Storage",
            508 => "Loop Detected",
            510 => "Not Extended",
            511 => "Network Authentication Required",
            _ => "Unknown",
        }
    }

    /// Returns the code as a number.
    pub fn as_u16(&self) -> u16
        ensures { result ≡ self.now.0 }
    {
        self.0
    }

    /// Returns whether the code is this number.
    pub fn is(&self, number: u16) -> bool
        ensures { result ≡ is_code self.now number }
    {
        *self == StatusCode(number)
    }

    /// Compares the code with this number.
    pub fn cmp_u16(&self, number: u16) -> Ordering
        ensures { result ≡ code_order self.now number }
    {
        self.cmp(&StatusCode(number))
    }
}

impl From<i8> for StatusCode {
    ghost from_gives = { λ number code. code.0 ≡ code_of number };

    /// Makes a code from the number modulo 65536.
    fn from(number: i8) -> StatusCode {
        StatusCode((number as i16).cast_unsigned())
    }
}

impl From<u8> for StatusCode {
    ghost from_gives = { λ number code. code.0 ≡ number };

    /// Makes a code from the number.
    fn from(number: u8) -> StatusCode {
        StatusCode(number as u16)
    }
}

impl From<i16> for StatusCode {
    ghost from_gives = { λ number code. code.0 ≡ code_of number };

    /// Makes a code from the number modulo 65536.
    fn from(number: i16) -> StatusCode {
        StatusCode(number.cast_unsigned())
    }
}

impl From<u16> for StatusCode {
    ghost from_gives = { λ number code. code.0 ≡ number };

    /// Makes a code from the number.
    fn from(number: u16) -> StatusCode {
        StatusCode(number)
    }
}

impl From<i32> for StatusCode {
    ghost from_gives = { λ number code. code.0 ≡ code_of number };

    /// Makes a code from the number modulo 65536.
    fn from(number: i32) -> StatusCode {
        StatusCode((number.cast_unsigned() % 65536) as u16)
    }
}

impl From<u32> for StatusCode {
    ghost from_gives = { λ number code. code.0 ≡ number % 65536 };

    /// Makes a code from the number modulo 65536.
    fn from(number: u32) -> StatusCode {
        StatusCode((number % 65536) as u16)
    }
}

/// An HTTP version, as its major and minor numbers (RFC 9110, section 2.5). Versions are ordered by major number, then
/// by minor number.
#[derive(Clone, Copy, Debug, PartialEq, Eq, PartialOrd, Ord)]
pub struct HTTPVersion(pub u8, pub u8);

impl HTTPVersion {
    ghost use Rattle.tiny_http_head.specs.Common.{is_version, version_order};

    /// Returns whether the version has these numbers, major first.
    pub fn is(&self, numbers: (u8, u8)) -> bool
        ensures { result ≡ is_version self.now numbers }
    {
        *self == HTTPVersion::from(numbers)
    }

    /// Compares the version with the one that has these numbers, major first.
    pub fn cmp_pair(&self, numbers: (u8, u8)) -> Ordering
        ensures { result ≡ version_order self.now numbers }
    {
        self.cmp(&HTTPVersion::from(numbers))
    }
}

impl From<(u8, u8)> for HTTPVersion {
    ghost from_gives = { λ numbers version. (version.0 ≡ numbers.0) × (version.1 ≡ numbers.1) };

    /// Makes a version from these numbers, major first.
    fn from(numbers: (u8, u8)) -> HTTPVersion {
        HTTPVersion(numbers.0, numbers.1)
    }
}

impl fmt::Display for HTTPVersion {
    ghost use Rattle.tiny_http_head.specs.Common.{version_text};

    ghost output = { λ v. Some (version_text v) };

    ghost styled_output = { λ v _. Some (version_text v) };

    /// Writes `major.minor` in decimal. Formatting parameters such as width are ignored.
    fn fmt<W: fmt::Write>(&self, f: &mut fmt::Formatter<W>) -> fmt::Result {
        f.write_str(Numeral::decimal(self.0.into()).as_str())?;
        f.write_str(".")?;
        f.write_str(Numeral::decimal(self.1.into()).as_str())
    }
}

/// A field name: ASCII bytes, compared case-insensitively (RFC 9110, section 5.1). A contract sees a `HeaderField` as
/// the list of its bytes.
#[derive(Debug, Drop)]
pub struct HeaderField {
    text: AsciiString,
}

impl Model for HeaderField {
    ghost use Rattle.std.specs.Prelude.{ℕ, List, IsAscii};

    ghost Value = { List ℕ };

    ghost view = { λ f. f.text };

    ghost invariant = { λ f. IsAscii f.text };
}

impl HeaderField {
    ghost use Rattle.tiny_http_head.specs.Common.{same_name};
    ghost use Rattle.tiny_http_text.specs.Bytes.{IsWord};
    ghost use Rattle.tiny_http_text.specs.Ascii.{IsFirstNotAscii};
    ghost use Rattle.tiny_http_text.specs.FromAsciiError.{refused_bytes, bad_place};

    /// Makes a name from any ASCII bytes, without copying them. Fails with an error that holds the bytes if one of them
    /// is above 127.
    pub fn from_bytes(bytes: Vec<u8>) -> Result<HeaderField, FromAsciiError>
        ensures ok { IfOk result (λ f. f ≡ bytes.items) }
        ensures succeeds { IsOk result ↔ IsAscii bytes.items }
        ensures source { IfErr result (λ e. refused_bytes e ≡ bytes.items) }
        ensures place { IfErr result (λ e. IsFirstNotAscii bytes.items (bad_place e)) }
    {
        Ok(HeaderField {
            text: AsciiString::from_ascii(bytes)?,
        })
    }

    /// Parses a name: any ASCII text without white space (bytes 9 to 13 and 32), even an empty one. Fails with
    /// `Refused` for any other text, and only then; with `Memory` if memory for a copy can't be allocated.
    pub fn from_str(alloc: Global, text: &str) -> Result<HeaderField, ParseError>
        ensures ok { IfOk result (λ f. (f ≡ text.now) × IsWord text.now) }
        ensures refused { IsErrOf result ParseError.Refused ↔ ¬ (IsWord text.now) }
    {
        let text = text.as_bytes();
        if !are_ascii(text) || !has_no_blank(text) {
            return Err(ParseError::Refused);
        }
        let text = owned(alloc, text)?;
        Ok(HeaderField { text })
    }

    /// Makes a name from any ASCII text. Intended for the crates that build on this one.
    pub fn from_text(text: AsciiString) -> HeaderField
        ensures { result ≡ text }
    {
        HeaderField { text }
    }

    /// Returns the name as it was given.
    pub fn as_str(&self) -> AsciiStr<'_>
        ensures { result ≡ self.now }
    {
        self.text.as_ascii()
    }

    /// Copies the name. Fails if memory can't be allocated.
    pub fn try_clone(&self) -> Result<HeaderField, AllocError>
        ensures { IfOk result (λ f. f ≡ self.now) }
    {
        Ok(HeaderField {
            text: self.text.try_clone()?,
        })
    }

    /// Returns whether the name equals `other`, ignoring the case of ASCII letters.
    pub fn equiv(&self, other: &str) -> bool
        ensures { result ≡ same_name self.now other.now }
    {
        self.text.eq_ignore_ascii_case(other)
    }
}

impl PartialEq for HeaderField {
    ghost use Rattle.tiny_http_head.specs.Common.{lowercase};

    ghost eq = { on lowercase (pointwise nat_eq) };

    ghost laws = { Prim.search (comparing, rules) };

    /// Compares two names, ignoring the case of ASCII letters.
    fn eq(&self, other: &HeaderField) -> bool {
        self.equiv(other.as_str().as_str())
    }
}

impl Eq for HeaderField {
    ghost laws = { Prim.search (comparing, rules) };
}

impl fmt::Display for HeaderField {
    ghost output = { λ f. Some f };

    ghost styled_output = { λ f _. Some f };

    /// Writes the name as it was given. Formatting parameters such as width are ignored.
    fn fmt<W: fmt::Write>(&self, f: &mut fmt::Formatter<W>) -> fmt::Result {
        f.write_str(self.as_str().as_str())
    }
}

/// A request method (RFC 9110, section 9; for `PATCH`, RFC 5789). Names are case-sensitive.
#[derive(Debug, Drop, PartialEq, Eq, Hash)]
pub enum Method {
    /// `GET`
    Get,
    /// `HEAD`
    Head,
    /// `POST`
    Post,
    /// `PUT`
    Put,
    /// `DELETE`
    Delete,
    /// `CONNECT`
    Connect,
    /// `OPTIONS`
    Options,
    /// `TRACE`
    Trace,
    /// `PATCH`
    Patch,
    /// Any other ASCII text. `from_str` uses it only for a text that isn't one of the nine names.
    NonStandard(AsciiString),
}

impl Method {
    ghost use Rattle.tiny_http_head.specs.Common.{method_text};

    /// Parses a method: one of the nine names in this exact case, or any other ASCII text, even an empty one. Fails
    /// with `Refused` for a text that isn't ASCII, and only then; with `Memory` if memory for a copy can't be
    /// allocated.
    pub fn from_str(alloc: Global, text: &str) -> Result<Method, ParseError>
        ensures ok { IfOk result (λ m. (m ≡ method_of text.now) × AreAscii text.now) }
        ensures refused { IsErrOf result ParseError.Refused ↔ ¬ (AreAscii text.now) }
    {
        let text = text.as_bytes();
        if !are_ascii(text) {
            return Err(ParseError::Refused);
        }
        let method = method_of(alloc, text)?;
        Ok(method)
    }

    /// Copies the method. Fails if memory can't be allocated.
    pub fn try_clone(&self) -> Result<Method, AllocError>
        ensures { IfOk result (λ m. m ≡ self.now) }
    {
        match self {
            Method::Get => Ok(Method::Get),
            Method::Head => Ok(Method::Head),
            Method::Post => Ok(Method::Post),
            Method::Put => Ok(Method::Put),
            Method::Delete => Ok(Method::Delete),
            Method::Connect => Ok(Method::Connect),
            Method::Options => Ok(Method::Options),
            Method::Trace => Ok(Method::Trace),
            Method::Patch => Ok(Method::Patch),
            Method::NonStandard(name) => Ok(Method::NonStandard(name.try_clone()?)),
        }
    }

    /// Returns the method's name, as in a request line.
    pub fn as_str(&self) -> &str
        ensures name { result.now ≡ method_text self.now }
        ensures ascii { IsAscii result.now }
    {
        match self {
            Method::Get => "GET",
            Method::Head => "HEAD",
            Method::Post => "POST",
            Method::Put => "PUT",
            Method::Delete => "DELETE",
            Method::Connect => "CONNECT",
            Method::Options => "OPTIONS",
            Method::Trace => "TRACE",
            Method::Patch => "PATCH",
            Method::NonStandard(name) => name.as_str(),
        }
    }
}

impl fmt::Display for Method {
    ghost use Rattle.tiny_http_head.specs.Common.{method_text};

    ghost output = { λ m. Some (method_text m) };

    ghost styled_output = { λ m _. Some (method_text m) };

    /// Writes the method's name. Formatting parameters such as width are ignored.
    fn fmt<W: fmt::Write>(&self, f: &mut fmt::Formatter<W>) -> fmt::Result {
        f.write_str(self.as_str())
    }
}

/// A header field: a name and a value (RFC 9110, section 5).
#[derive(Debug, Drop)]
pub struct Header {
    /// The field name.
    pub field: HeaderField,
    /// The field value, without surrounding white space if it was parsed from a field line.
    pub value: AsciiString,
}

impl Header {
    ghost use Rattle.tiny_http_head.specs.Heads.{IsHeader};
    ghost use Rattle.tiny_http_head.specs.HeaderTexts.{AreHeaderTexts, header_of};

    /// Makes a header from a name and a value, unchanged. A recipient parses exactly this name and value, and nothing
    /// else, even if they contain text from a client. The name must be a token (RFC 9110, section 5.6.2): one or more
    /// ASCII letters, digits or bytes of ``!#$%&'*+-.^_`|~``. The value must consist of visible ASCII bytes, spaces and
    /// tabs, without a space or tab at its ends; it may be empty (RFC 9110, section 5.5). Fails with `Refused` for any
    /// other name or value, such as one with CR, LF or NUL, and only then; with `Memory` if memory can't be allocated.
    #[tactic(auto, using(crate::proofs::HeaderTextsLemmas::token_ascii))]
    pub fn new(alloc: Global, name: &str, value: &str) -> Result<Header, ParseError>
        ensures ok { IfOk result (λ h. (h ≡ header_of name.now value.now) × AreHeaderTexts name.now value.now) }
        ensures refused { IsErrOf result ParseError.Refused ↔ ¬ (AreHeaderTexts name.now value.now) }
    {
        let name = name.as_bytes();
        let value = value.as_bytes();
        if !is_token(name) || !is_field_value(value) {
            return Err(ParseError::Refused);
        }
        let field = HeaderField::from_text(owned(alloc, name)?);
        let value = owned(alloc, value)?;
        Ok(Header { field, value })
    }

    /// Makes a header from any ASCII bytes. Fails if the name or the value isn't ASCII.
    pub fn from_bytes(field: Vec<u8>, value: Vec<u8>) -> Result<Header, ()>
        ensures ok { IfOk result (λ h. (h.field ≡ field.items) × (h.value ≡ value.items)) }
        ensures succeeds { IsOk result ↔ (IsAscii field.items × IsAscii value.items) }
    {
        let Ok(field) = HeaderField::from_bytes(field) else {
            return Err(());
        };
        let Ok(value) = AsciiString::from_ascii(value) else {
            return Err(());
        };
        Ok(Header { field, value })
    }

    /// Parses a field line without its CR LF: the name is the text before the first colon, and the value is the text
    /// after it, without white space (bytes 9 to 13 and 32) at its ends (RFC 9112, section 5). Fails with `Refused` if
    /// there is no colon, if the name contains white space, or if a byte isn't ASCII, and only then; with `Memory` if
    /// memory can't be allocated.
    pub fn from_str(alloc: Global, text: &str) -> Result<Header, ParseError>
        ensures ok { IfOk result (λ h. IsHeader text.now h) }
        ensures refused { IsErrOf result ParseError.Refused ↔ ((h : Header) → IsHeader text.now h → ⊥) }
    {
        let text = text.as_bytes();
        if !are_ascii(text) {
            return Err(ParseError::Refused);
        }
        match parse_header_line(alloc, text)? {
            Some(header) => Ok(header),
            None => Err(ParseError::Refused),
        }
    }

    /// Copies the header. Fails if memory can't be allocated.
    pub fn try_clone(&self) -> Result<Header, AllocError>
        ensures { IfOk result (λ h. h ≡ self.now) }
    {
        Ok(Header {
            field: self.field.try_clone()?,
            value: self.value.try_clone()?,
        })
    }
}

impl From<Header> for io::Error {
    ghost use Rattle.std.specs.IoError.{error_kind};
    ghost use Rattle.std.specs.declared.io.ErrorKind.TheVariants.{OutOfMemory};

    ghost from_gives = { λ _ fault. error_kind fault ≡ OutOfMemory };

    /// Returns `OutOfMemory`, since a call hands a header back only if memory for it couldn't be allocated. The header
    /// is dropped.
    fn from(_header: Header) -> io::Error {
        ErrorKind::OutOfMemory.into()
    }
}

impl fmt::Display for Header {
    ghost use Rattle.tiny_http_head.specs.Common.{header_text};

    ghost output = { λ h. Some (header_text h) };

    ghost styled_output = { λ h _. Some (header_text h) };

    /// Writes `field: value`. Formatting parameters such as width are ignored.
    fn fmt<W: fmt::Write>(&self, f: &mut fmt::Formatter<W>) -> fmt::Result {
        f.write_str(self.field.as_str().as_str())?;
        f.write_str(": ")?;
        f.write_str(self.value.as_str())
    }
}

// Returns whether the text may be sent as a field value: ASCII, with no control byte except tab, and no white space at
// either end.
fn is_field_value(text: &[u8]) -> bool
    ensures { IsTrue result ↔ IsFieldValue text.now }
{
    are_ascii(text) && is_header_value(text) && is_trimmed(text)
}

/// Returns the method that an ASCII text names: one of the nine named variants if the text is its name in this exact
/// case, and otherwise `NonStandard`. Fails if memory for a copy can't be allocated.
pub fn method_of(alloc: Global, text: &[u8]) -> Result<Method, AllocError>
    requires { AreAscii text.now }
    ensures { IfOk result (λ m. m ≡ method_of text.now) }
{
    if is(text, "GET") {
        return Ok(Method::Get);
    }
    if is(text, "HEAD") {
        return Ok(Method::Head);
    }
    if is(text, "POST") {
        return Ok(Method::Post);
    }
    if is(text, "PUT") {
        return Ok(Method::Put);
    }
    if is(text, "DELETE") {
        return Ok(Method::Delete);
    }
    if is(text, "CONNECT") {
        return Ok(Method::Connect);
    }
    if is(text, "OPTIONS") {
        return Ok(Method::Options);
    }
    if is(text, "TRACE") {
        return Ok(Method::Trace);
    }
    if is(text, "PATCH") {
        return Ok(Method::Patch);
    }
    Ok(Method::NonStandard(owned(alloc, text)?))
}

/// Parses a field line: the name is the text before the first colon, and the value is the text after it, without white
/// space (bytes 9 to 13 and 32) at its ends (RFC 9112, section 5). Returns `None` if there is no colon, or if the name
/// contains white space. Fails if the text is a field line and memory can't be allocated.
pub fn parse_header_line(alloc: Global, text: &[u8]) -> Result<Option<Header>, AllocError>
    requires { AreAscii text.now }
    ensures value { IfOk result (λ found. found ≡ header_line text.now) }
    ensures judged { OnErr result (IsSome (header_line text.now)) }
{
    let Some((field, padded)) = cut(text, b':') else {
        return Ok(None);
    };
    if !has_no_blank(field) {
        return Ok(None);
    }
    let field = HeaderField::from_text(owned(alloc, field)?);
    let value = owned(alloc, trim(padded))?;
    Ok(Some(Header { field, value }))
}
