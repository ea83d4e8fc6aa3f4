//! The content length (RFC 9110, section 8.6; RFC 9112, section 6.3).
ghost use Rattle.std.specs.Prelude.{◌≡◌, ◌≤◌, ◌<◌, ◌+◌, ◌-◌, ◌*◌, ◌^◌, ◌∷◌, [], IfSome, IfNone, codes};
ghost use Rattle.tiny_http_head.specs.Heads.{length_of};
ghost use Rattle.tiny_http_head.specs.Lists.{is_left_out, elements_in, elements_by_name};
ghost use Rattle.tiny_http_head.specs.ContentLength.{one_length, lengths_after};

use crate::blanks::Blanks;
use crate::common::Header;

/// The error that `one_length` returns if an element of `Content-Length` isn't a number below 2^64, or if two elements
/// give different lengths.
#[derive(Clone, Copy, Debug, PartialEq, Eq)]
pub struct InvalidLength;

// Returns the number with a digit appended, or `None` if the result is 2^64 or more.
fn with_digit(number: usize, digit: u8) -> Option<usize>
    requires { (48 ≤ digit) × (digit < 58) }
    ensures some { IfSome result (λ n. (n ≡ number * 10 + (digit - 48)) × (n < 2 ^ 64)) }
    ensures none { IfNone result (2 ^ 64 ≤ number * 10 + (digit - 48)) }
{
    number.checked_mul(10)?.checked_add((digit - b'0') as usize)
}

/// Parses a number of one or more decimal digits, at most 18446744073709551615, as in `Content-Length` (RFC 9110,
/// section 8.6). Returns `None` for any other text, for example one with a sign.
pub fn number_in(text: &[u8]) -> Option<usize>
    ensures { result ≡ length_of text.now }
{
    if text.is_empty() {
        return None;
    }
    let mut number = 0usize;
    for digit in text {
        if !digit.is_ascii_digit() {
            return None;
        }
        number = with_digit(number, *digit)?;
    }
    Some(number)
}

// Returns the one length that this element and those before it give; `found` is the length that those before it gave,
// or `None` if there are none. Fails if the element isn't a number below 2^64, or differs from the length that was
// found before.
#[inline(always)]
fn length_after(found: Option<usize>, element: &[u8]) -> Result<Option<usize>, InvalidLength>
    ensures { result ≡ lengths_after found (element.now ∷ []) }
{
    let Some(length) = number_in(element) else {
        return Err(InvalidLength);
    };
    if let Some(before) = found {
        if length != before {
            return Err(InvalidLength);
        }
    }
    Ok(Some(length))
}

// Returns the one length that the elements of this value and those before it give; `found` is the length that those
// before it gave, or `None` if there are none. Fails as `length_after` does.
#[inline(always)]
fn lengths_in(
    blanks: Blanks,
    value: &str,
    found: Option<usize>,
) -> Result<Option<usize>, InvalidLength>
    ensures { result ≡ lengths_after found (elements_in (is_left_out blanks) value.now) }
{
    let mut found = found;
    for text in value.split(',') {
        match length_after(found, blanks.trim(text.as_bytes())) {
            Ok(length) => found = length,
            Err(fault) => return Err(fault),
        }
    }
    Ok(found)
}

/// Returns the one length that all `Content-Length` fields give, or `None` if there is no such field (RFC 9110, section
/// 8.6; RFC 9112, section 6.3).
///
/// Each value is a comma-separated list of numbers as `number_in` parses them, with `blanks` stripped from both ends of
/// each. Fails if an element isn't such a number (for example, if it is empty), or if two elements give different
/// lengths.
#[inline(always)]
pub fn one_length(headers: &[Header], blanks: Blanks) -> Result<Option<usize>, InvalidLength>
    ensures { result ≡ one_length (elements_by_name (is_left_out blanks) (codes "Content-Length") headers.now) }
{
    let mut found = None;
    for header in headers {
        if header.field.equiv("Content-Length") {
            match lengths_in(blanks, header.value.as_str(), found) {
                Ok(length) => found = length,
                Err(fault) => return Err(fault),
            }
        }
    }
    Ok(found)
}
