//! Field values that list names with qualities (RFC 9110, section 12.4.2).
ghost use Rattle.std.specs.Prelude.{◌≡◌, ◌-◌, ◌^◌, ◌<◌, ◌≤◌, length, map, IfOk, IfSome};
ghost use Rattle.std.specs.Option.{SomeIff};
ghost use Rattle.std.specs.Str.Parse.{IsNumeral, digits_value};
ghost use Rattle.tiny_http_text.specs.Bytes.{parts, semicolon};
ghost use Rattle.tiny_http_text.specs.Qualities.{Element, ListsQualities};
ghost use Rattle.tiny_http_text.specs.QualityReading.{short_number, thousandths, quality, parameter_quality};
ghost use Rattle.tiny_http_text.specs.QualityReading.{first_quality, element};

use crate::text::{cut, trim, trim_front};
use std::alloc::{AllocError, Global};

// The quality, in thousandths, of an element that has no readable quality.
const DEFAULT_QUALITY: u32 = 1000;

// Parses decimal digits as a number below 2^32. Returns `None` for any other text, even one with a leading plus sign,
// which `str::parse` accepts and a quality can't have.
fn number(digits: &str) -> Option<u32>
    ensures { SomeIff result (IsNumeral 10 digits.now × (digits_value 10 digits.now < 2 ^ 32))
        (digits_value 10 digits.now) }
{
    if digits.starts_with('+') {
        return None;
    }
    digits.parse::<u32>().ok()
}

// Parses one to six decimal digits. Returns `None` for any other text.
fn short_number(digits: &str) -> Option<u32>
    ensures value { result ≡ short_number digits.now }
    ensures bound { IfSome result (λ n. (n < 10 ^ length digits.now) × (n < 1000000)) }
{
    if digits.len() > 6 {
        return None;
    }
    number(digits)
}

// Returns the place value, in thousandths, of the last digit of a fraction that has `digits` digits, one to three.
fn scale(digits: usize) -> u32
    requires some { 1 ≤ digits }
    requires few { digits ≤ 3 }
    ensures { result ≡ 10 ^ (3 - digits) }
{
    match digits {
        1 => 100,
        2 => 10,
        _ => 1,
    }
}

// Parses at most three fraction digits and returns them in thousandths: 0 if there are no digits. Returns `None` for
// any other text.
fn thousandths(digits: &str) -> Option<u32>
    ensures value { result ≡ thousandths digits.now }
    ensures bound { IfSome result (λ n. n < 1000) }
{
    if digits.is_empty() {
        return Some(0);
    }
    if digits.len() > 3 {
        return None;
    }
    Some(short_number(digits)? * scale(digits.len()))
}

// Parses a quality and returns it in thousandths. A quality is one to six digits, optionally followed by a point and at
// most three digits. Returns `None` for any other text.
fn quality(text: &str) -> Option<u32>
    ensures { result ≡ quality text.now }
{
    match cut(text, '.') {
        None => Some(short_number(text)? * 1000),
        Some((whole, fraction)) => Some(short_number(whole)? * 1000 + thousandths(fraction)?),
    }
}

// Returns the quality, in thousandths, of a parameter that begins with `q=` after optional white space. Returns `None`
// for any other parameter, and if the quality can't be read.
fn parameter_quality(parameter: &str) -> Option<u32>
    ensures { result ≡ parameter_quality parameter.now }
{
    let padded = trim_front(parameter).strip_prefix("q=")?;
    quality(trim(padded))
}

// Returns the first readable quality, in thousandths, among the semicolon-separated parameters, or 1000 if there is
// none.
fn first_quality(parameters: &str) -> u32
    ensures { result ≡ first_quality (parts semicolon parameters.now) }
{
    let mut rest = parameters;
    while let Some((parameter, behind)) = cut(rest, ';') {
        if let Some(quality) = parameter_quality(parameter) {
            return quality;
        }
        rest = behind;
    }
    parameter_quality(rest).unwrap_or(DEFAULT_QUALITY)
}

/// Parses one element of a comma-separated list into its name and its quality in thousandths.
///
/// The rules are those of `parse_header_value`. Nothing is allocated.
pub fn parse_element(text: &str) -> (&str, u32)
    ensures computed { (result.0.now, result.1) ≡ element text.now }
    ensures element { Element text.now result.0.now result.1 }
{
    match cut(text, ';') {
        None => (trim(text), DEFAULT_QUALITY),
        Some((name, parameters)) => (trim(name), first_quality(parameters)),
    }
}

/// Parses the value of `TE`, or of a similar field, into its names and their qualities in thousandths, in order (RFC
/// 9110, section 12.4.2).
///
/// A name is the part of a list element before its first semicolon, if it has one, without white space (bytes 9 to 13
/// and 32) at its ends; the name of an empty element is empty. The quality of the name is that of the first parameter
/// that begins, after optional white space, with `q=` and has a readable number: one to six digits, then optionally a
/// point and at most three digits, with optional white space around the number. If there is no such parameter, the
/// quality is 1000. The Rust crate accepts other forms of numbers. Fails if memory for the list can't be allocated.
pub fn parse_header_value(alloc: Global, value: &str) -> Result<Vec<(&str, u32)>, AllocError>
    ensures { IfOk result (λ list. ListsQualities value.now (map (λ e. (e.0.now, e.1)) list.items)) }
{
    value
        .split(',')
        .map(|text| parse_element(text))
        .collect(alloc)
}
