//! A parser for the lines of a script.
ghost use Rattle.std.specs.Prelude.{◌≡◌, ◌<◌, ◌^◌, ℕ, List, ◌↔◌, IfSome, IsSomeAnd, IsSome};
ghost use Rattle.std.specs.Option.{SomeIff};
ghost use Rattle.std.specs.Str.Parse.{IsNumeral, digits_value};
ghost use Rattle.replay_script.specs.ScriptLine.{BeginsByNumber, BeginsByNumbers, WritesDate, IsDate, WritesContent};
ghost use Rattle.replay_script.specs.ScriptLine.{IsContent, WritesAnswer, IsAnswer, WritesRead, SaysLine, SaysSome};
ghost use Rattle.replay_script.specs.ScriptLine.{IsLine, IsGood};

use httpdate::HttpDate;

/// A parsed line of a script.
#[derive(Clone, Copy, Debug)]
pub enum ScriptLine<'a> {
    /// An empty line or a comment.
    Blank,
    /// Sets the date of the steps from here on.
    Now(HttpDate),
    /// Asks for the next request.
    Ask,
    /// Sends the 100 that is owed to the request with this number.
    AsReader(u64),
    /// Reads at most this many bytes from the body of the request with this number, or from its upgraded stream.
    Read(u64, u16),
    /// Responds to the request with this number, using this status code and content.
    Respond(u64, u16, Content<'a>),
    /// Takes the raw writer of the request with this number.
    Writer(u64),
    /// Writes this text through the raw writer of the request with this number, or to its upgraded stream.
    Write(u64, &'a str),
    /// Sends what was written for the request with this number.
    Flush(u64),
    /// Upgrades the connection of the request with this number, using this status code, to this protocol.
    Upgrade(u64, u16, &'a str),
    /// Ends the raw writer of the request with this number, or its upgraded stream.
    Finish(u64),
    /// Drops the request with this number.
    Drop(u64),
}

/// The content of a response.
#[derive(Clone, Copy, Debug)]
pub enum Content<'a> {
    /// This text.
    Text(&'a str),
    /// No data.
    Empty,
    /// This many `x` bytes, without a stated length.
    Stream(u16),
    /// This many `x` bytes, without a stated length, and then a fault in place of the end.
    Broken(u16),
}

// Parses a decimal number below 2^64. Refuses a leading plus sign, which `parse` accepts.
fn number_in(digits: &str) -> Option<u64>
    ensures { SomeIff result (IsNumeral 10 digits.now × (digits_value 10 digits.now < 2 ^ 64))
        (digits_value 10 digits.now) }
{
    if digits.starts_with('+') {
        return None;
    }
    digits.parse::<u64>().ok()
}

// Splits at the first space, and parses the number before it.
fn number_before(text: &str) -> Option<(u64, &str)>
    ensures some { IfSome result (λ r. BeginsByNumber text.now r.0 r.1.now) }
    ensures found { (n : ℕ) → (rest : List ℕ) → n < 2 ^ 64 → BeginsByNumber text.now n rest
        → IsSomeAnd result (λ r. (r.0 ≡ n) × (r.1.now ≡ rest)) }
{
    let (digits, rest) = text.split_once(' ')?;
    Some((number_in(digits)?, rest))
}

// Parses a date: the seconds since the beginning of 1970, up to the end of the year 9999.
fn date_in(seconds: &str) -> Option<HttpDate>
    ensures some { IfSome result (λ date. WritesDate seconds.now date) }
    ensures found { IsDate seconds.now → IsSome result }
{
    HttpDate::from_unix_secs(number_in(seconds)?).ok()
}

// Parses a decimal number below 2^16.
fn count_in(digits: &str) -> Option<u16>
    ensures { SomeIff result (IsNumeral 10 digits.now × (digits_value 10 digits.now < 2 ^ 16))
        (digits_value 10 digits.now) }
{
    u16::try_from(number_in(digits)?).ok()
}

// Parses the content of a response: `empty`, or `text` and the text, or `stream` or `broken` and a number.
fn content_in(text: &str) -> Option<Content<'_>>
    ensures some { IfSome result (λ content. WritesContent text.now content) }
    ensures found { IsContent text.now → IsSome result }
{
    if text == "empty" {
        return Some(Content::Empty);
    }
    if let Some(text) = text.strip_prefix("text ") {
        return Some(Content::Text(text));
    }
    if let Some(digits) = text.strip_prefix("stream ") {
        return Some(Content::Stream(count_in(digits)?));
    }
    let digits = text.strip_prefix("broken ")?;
    Some(Content::Broken(count_in(digits)?))
}

// Splits at the first two spaces, and parses the number and the status code before them.
fn numbers_before(text: &str) -> Option<(u64, u16, &str)>
    ensures some { IfSome result (λ r. BeginsByNumbers text.now r.0 r.1 r.2.now) }
    ensures found { (n : ℕ) → (status : ℕ) → (rest : List ℕ) → BeginsByNumbers text.now n status rest
        → IsSomeAnd result (λ r. (r.0 ≡ n) × (r.1 ≡ status) × (r.2.now ≡ rest)) }
{
    let (number, behind) = number_before(text)?;
    let (status, rest) = number_before(behind)?;
    let status = u16::try_from(status).ok()?;
    Some((number, status, rest))
}

// Parses what follows `respond`: a number, a status code, and the content.
fn answer_in(words: &str) -> Option<(u64, u16, Content<'_>)>
    ensures some { IfSome result (λ r. WritesAnswer words.now r.0 r.1 r.2) }
    ensures found { IsAnswer words.now → IsSome result }
{
    let (number, status, text) = numbers_before(words)?;
    Some((number, status, content_in(text)?))
}

// Parses what follows `read`: a number, and a number of bytes.
fn read_in(words: &str) -> Option<(u64, u16)>
    ensures some { IfSome result (λ r. WritesRead words.now r.0 r.1) }
    ensures found { (n : ℕ) → (count : ℕ) → WritesRead words.now n count → IsSome result }
{
    let (number, digits) = number_before(words)?;
    Some((number, count_in(digits)?))
}

/// Parses a line, which may have characters that aren't ASCII. Returns `None` if the line isn't in the grammar.
pub fn text_in(text: &str) -> Option<ScriptLine<'_>>
    ensures some { IfSome result (λ line. SaysLine text.now line) }
    ensures found { SaysSome text.now → IsSome result }
{
    if text.is_empty() || text.starts_with('#') {
        return Some(ScriptLine::Blank);
    }
    if text == "ask" {
        return Some(ScriptLine::Ask);
    }
    if let Some(words) = text.strip_prefix("respond ") {
        let (number, status, content) = answer_in(words)?;
        return Some(ScriptLine::Respond(number, status, content));
    }
    if let Some(seconds) = text.strip_prefix("now ") {
        return Some(ScriptLine::Now(date_in(seconds)?));
    }
    if let Some(number) = text.strip_prefix("asreader ") {
        return Some(ScriptLine::AsReader(number_in(number)?));
    }
    if let Some(number) = text.strip_prefix("writer ") {
        return Some(ScriptLine::Writer(number_in(number)?));
    }
    if let Some(number) = text.strip_prefix("flush ") {
        return Some(ScriptLine::Flush(number_in(number)?));
    }
    if let Some(number) = text.strip_prefix("finish ") {
        return Some(ScriptLine::Finish(number_in(number)?));
    }
    if let Some(number) = text.strip_prefix("drop ") {
        return Some(ScriptLine::Drop(number_in(number)?));
    }
    if let Some(words) = text.strip_prefix("write ") {
        let (number, written) = number_before(words)?;
        return Some(ScriptLine::Write(number, written));
    }
    if let Some(words) = text.strip_prefix("upgrade ") {
        let (number, status, protocol) = numbers_before(words)?;
        return Some(ScriptLine::Upgrade(number, status, protocol));
    }
    let words = text.strip_prefix("read ")?;
    let (number, count) = read_in(words)?;
    Some(ScriptLine::Read(number, count))
}

/// Parses a line. Returns `None` if the line isn't ASCII or isn't in the grammar.
pub fn line_in(bytes: &[u8]) -> Option<ScriptLine<'_>>
    ensures says { IfSome result (λ line. IsLine bytes.now line) }
    ensures good { IsSome result ↔ IsGood bytes.now }
{
    if !bytes.is_ascii() {
        return None;
    }
    text_in(str::from_utf8(bytes).ok()?)
}
