//! Ranges of bytes (RFC 9110, section 14).
ghost use Rattle.std.specs.Prelude.{◌≡◌, ◌↔◌, ◌<◌, ◌++◌, ◌∷◌, ◌&&◌, ℕ, List, [], IfOk, IfSome, IfNone, option_map, map};
ghost use Rattle.std.specs.Prelude.{string_bytes, nat_lt, sum, codes};
ghost use Rattle.std.specs.Char.{is_ascii_digit};
ghost use Rattle.std.specs.List.{list_all};
ghost use Rattle.tiny_http_head.specs.Common.{same_name};
ghost use Rattle.tiny_http_text.specs.Bytes.{parts};
ghost use Rattle.tiny_http_files.specs.Ranges.{position, spec_of, spec_between, IsNamed, IsWithin, specs_of, all_specs};
ghost use Rattle.tiny_http_files.specs.Ranges.{element_specs, Appends, items_of, range_of, ranges_of, size_of, IsSelection};
ghost use Rattle.tiny_http_files.specs.Ranges.{IsChosen, content_range, unsatisfied_range, sum_of, set_of, unless_empty};
ghost use Rattle.std.specs.Option.{option_copied};

use std::alloc::{AllocError, Global};
use tiny_http_head::content_length::number_in;
use tiny_http_text::bytes::trim;
use tiny_http_text::number::Numeral;
use tiny_http_text::{bytes, text};

/// The maximum number of ranges that are sent. If more are satisfiable, the whole representation is sent.
pub const MOST_RANGES: usize = 16;

/// The bytes that an element of a `Range` field names, whatever the length of the representation (RFC 9110, section
/// 14.1.2). A number of 2^64 or more counts as 2^64 - 1.
#[derive(Clone, Copy, Debug, PartialEq, Eq)]
pub enum RangeSpec {
    /// `first-last`: the bytes at these positions and between them. `last` is at least `first`.
    Between {
        /// The position of the first byte, counted from 0.
        first: u64,
        /// The position of the last byte.
        last: u64,
    },
    /// `first-`: the byte at this position and all after it.
    From {
        /// The position of the first byte, counted from 0.
        first: u64,
    },
    /// `-length`: the last bytes of the representation.
    Suffix {
        /// The number of bytes. If there are fewer, the suffix is the whole representation.
        length: u64,
    },
}

/// A range of one byte or more: those from position `start` on, before position `end`.
#[derive(Clone, Copy, Debug, PartialEq, Eq)]
pub struct ByteRange {
    /// The position of the first byte, counted from 0.
    pub start: u64,
    /// The position after the last byte, greater than `start`.
    pub end: u64,
}

/// What a `Range` field selects of a representation.
#[derive(Debug, Drop)]
pub enum Selection {
    /// All bytes, as without the field.
    Whole,
    /// One range.
    Part(ByteRange),
    /// Two ranges or more, in the order in which the field names them.
    Parts(Vec<ByteRange>),
    /// Nothing: no byte is in a range that the field names (RFC 9110, section 15.5.17).
    Unsatisfiable,
}

// Returns whether all bytes are decimal digits.
fn are_digits(text: &[u8]) -> bool
    ensures { result ≡ list_all is_ascii_digit text.now }
{
    text.iter().all(|b| b.is_ascii_digit())
}

// Parses a position: one or more decimal digits. Returns 2^64 - 1 for a larger number, and `None` for any other text.
fn position(digits: &[u8]) -> Option<u64>
    ensures { result ≡ position digits.now }
{
    if digits.is_empty() || !are_digits(digits) {
        return None;
    }
    Some(number_in(digits).unwrap_or(usize::MAX) as u64)
}

impl RangeSpec {
    // Makes the range from the text before its hyphen and the text after it.
    fn between(first: &[u8], last: &[u8]) -> Option<RangeSpec>
        ensures { result ≡ spec_between first.now last.now }
    {
        if first.is_empty() {
            return Some(RangeSpec::Suffix {
                length: position(last)?,
            });
        }
        let first = position(first)?;
        if last.is_empty() {
            return Some(RangeSpec::From { first });
        }
        let last = position(last)?;
        if first <= last {
            Some(RangeSpec::Between { first, last })
        } else {
            None
        }
    }

    /// Parses an element of a `Range` field, without white space around it. Returns `None` for any other text, and if
    /// the last position is before the first (RFC 9110, section 14.1.1). A number above 2^64 - 1 counts as that.
    pub fn parse(element: &[u8]) -> Option<RangeSpec>
        ensures { result ≡ spec_of element.now }
    {
        let (first, last) = bytes::cut(element, b'-')?;
        RangeSpec::between(first, last)
    }

    /// Returns the bytes that the element names in a representation of `length` bytes, or `None` if there are none.
    pub fn range(self, length: u64) -> Option<ByteRange>
        ensures computed { result ≡ range_of length self }
        ensures not_empty { IfSome result (λ range. range.start < range.end) }
        ensures named { IfSome result (λ range. (i : ℕ) → IsNamed length self i ↔ IsWithin range i) }
        ensures none { IfNone result ((i : ℕ) → IsNamed length self i → ⊥) }
    {
        let (start, end) = match self {
            RangeSpec::Between { first, last } if last < length => (first, last + 1),
            RangeSpec::Between { first, last: _ } => (first, length),
            RangeSpec::From { first } => (first, length),
            RangeSpec::Suffix { length: last } => (length.saturating_sub(last), length),
        };
        if start < end {
            Some(ByteRange { start, end })
        } else {
            None
        }
    }
}

impl ByteRange {
    /// Returns the number of bytes, at least 1.
    pub fn size(self) -> u64
        ensures { result ≡ size_of self }
    {
        self.end.saturating_sub(self.start)
    }
}

// Appends the range that the element of a list names, if it isn't empty. Returns false if it isn't a range. Fails if
// memory can't be allocated.
fn add_element(specs: &mut Vec<RangeSpec>, element: &[u8]) -> Result<bool, AllocError>
    ensures { IfOk result (λ is_fine. Appends is_fine specs.old.items specs.new.items (element_specs element.now)) }
{
    let element = trim(element);
    if element.is_empty() {
        return Ok(true);
    }
    let Some(spec) = RangeSpec::parse(element) else {
        return Ok(false);
    };
    specs.push(spec)?;
    Ok(true)
}

// Parses the comma-separated ranges of a `Range` field. Returns `None` if an element isn't a range. Fails if memory
// can't be allocated.
fn parse_set(alloc: Global, set: &str) -> Result<Option<Vec<RangeSpec>>, AllocError>
    ensures { IfOk result (λ specs. option_map items_of specs ≡ all_specs (parts 44 set.now)) }
{
    let mut specs = Vec::new(alloc);
    for element in set.split(',') {
        if !add_element(&mut specs, element.as_bytes())? {
            return Ok(None);
        }
    }
    Ok(Some(specs))
}

// Returns whether a range unit is `bytes`, ignoring the case of ASCII letters.
fn is_bytes(unit: &str) -> bool
    ensures { result ≡ same_name unit.now (codes "bytes") }
{
    unit.eq_ignore_ascii_case("bytes")
}

// Returns the list of ranges in the value of a `Range` field, or `None` if its unit isn't `bytes`.
fn byte_set(value: &str) -> Option<&str>
    ensures { option_copied result ≡ set_of value.now }
{
    let (unit, set) = text::cut(value, '=')?;
    if is_bytes(unit) { Some(set) } else { None }
}

// Returns the ranges, if there is one.
fn unless_empty(specs: Option<Vec<RangeSpec>>) -> Option<Vec<RangeSpec>>
    ensures { option_map items_of result ≡ unless_empty (option_map items_of specs) }
{
    match specs {
        Some(specs) if !specs.is_empty() => Some(specs),
        _ => None,
    }
}

/// Parses the value of a `Range` field (RFC 9110, section 14.2). Returns `None` if the field is to be ignored: its unit
/// isn't `bytes`, an element isn't a range, or there is no element. Fails if memory can't be allocated.
pub fn parse_ranges(alloc: Global, value: &str) -> Result<Option<Vec<RangeSpec>>, AllocError>
    ensures { IfOk result (λ specs. option_map items_of specs ≡ specs_of value.now) }
{
    match byte_set(value) {
        Some(set) => Ok(unless_empty(parse_set(alloc, set)?)),
        None => Ok(None),
    }
}

// Returns the ranges that have bytes, in order. Fails if memory can't be allocated.
fn satisfied(alloc: Global, specs: &[RangeSpec], length: u64) -> Result<Vec<ByteRange>, AllocError>
    ensures { IfOk result (λ ranges. ranges.items ≡ ranges_of length specs.now) }
{
    let mut ranges = Vec::new(alloc);
    for spec in specs {
        if let Some(range) = spec.range(length) {
            ranges.push(range)?;
        }
    }
    Ok(ranges)
}

// Returns whether the ranges together have more than `length` bytes.
fn are_longer(ranges: &[ByteRange], length: u64) -> bool
    ensures { result ≡ nat_lt length (sum_of ranges.now) }
{
    let mut left = length;
    for range in ranges {
        if range.size() > left {
            return true;
        }
        left -= range.size();
    }
    false
}

// Chooses how ranges are sent: no range is unsatisfiable, and more than `MOST_RANGES`, or several that together have
// more than `length` bytes, are the whole.
fn choose(ranges: Vec<ByteRange>, length: u64) -> Selection
    ensures { IsChosen length ranges.items result }
{
    match ranges.as_slice() {
        [] => Selection::Unsatisfiable,
        [range] => Selection::Part(*range),
        several => {
            if several.len() > MOST_RANGES || are_longer(several, length) {
                Selection::Whole
            } else {
                Selection::Parts(ranges)
            }
        }
    }
}

/// Returns what the value of a `Range` field selects of a representation of `length` bytes.
///
/// A field that `parse_ranges` ignores selects the whole, as does any field if the representation is empty, more than
/// `MOST_RANGES` ranges, and several ranges that together have more than `length` bytes (RFC 9110, section 14.2). Fails
/// if memory can't be allocated.
pub fn select(alloc: Global, value: &str, length: u64) -> Result<Selection, AllocError>
    ensures { IfOk result (λ selection. IsSelection length (specs_of value.now) selection) }
{
    let Some(specs) = parse_ranges(alloc, value)? else {
        return Ok(Selection::Whole);
    };
    if length == 0 {
        return Ok(Selection::Whole);
    }
    Ok(choose(satisfied(alloc, &specs, length)?, length))
}

/// Returns the value of `Content-Range` for a range of a representation of `length` bytes (RFC 9110, section 14.4).
/// Fails if memory can't be allocated.
pub fn content_range(alloc: Global, range: ByteRange, length: u64) -> Result<String, AllocError>
    ensures { IfOk result (λ value. string_bytes value ≡ content_range range length) }
{
    let mut value = String::from_str(alloc, "bytes ")?;
    value.push_str(Numeral::decimal(range.start).as_str())?;
    value.push_str("-")?;
    value.push_str(Numeral::decimal(range.end.saturating_sub(1)).as_str())?;
    value.push_str("/")?;
    value.push_str(Numeral::decimal(length).as_str())?;
    Ok(value)
}

/// Returns the value of `Content-Range` in a 416, for a representation of `length` bytes (RFC 9110, section 15.5.17).
/// Fails if memory can't be allocated.
pub fn unsatisfied_range(alloc: Global, length: u64) -> Result<String, AllocError>
    ensures { IfOk result (λ value. string_bytes value ≡ unsatisfied_range length) }
{
    let mut value = String::from_str(alloc, "bytes */")?;
    value.push_str(Numeral::decimal(length).as_str())?;
    Ok(value)
}
