//! Entity tags (RFC 9110, section 8.8.3).
ghost use Rattle.std.specs.Prelude.{◌≡◌, ℕ, Bool, List, ◌∷◌, ◌++◌, IfOk, IfSome, IfNone, string_bytes, false, true};
ghost use Rattle.std.specs.Str.{bytes_eq};
ghost use Rattle.std.specs.List.{list_all, list_any};
ghost use Rattle.std.specs.Fmt.{digits};
ghost use Rattle.tiny_http_files.specs.Tags.{is_tag_byte, quoted, tag_text, IsTag, file_tag, is_match, is_listed};
ghost use Rattle.tiny_http_files.specs.Tags.{is_any_tag, without_weakness};

use std::alloc::{AllocError, Global};
use tiny_http_text::bytes;
use tiny_http_text::number::Numeral;

/// How entity tags are compared (RFC 9110, section 8.8.3.2).
#[derive(Clone, Copy, Debug, PartialEq, Eq)]
pub enum Comparison {
    /// Equal if neither tag is weak and their opaque parts are the same.
    Strong,
    /// Equal if their opaque parts are the same.
    Weak,
}

/// An entity tag: `"opaque"`, or `W/"opaque"` if it is weak.
#[derive(Clone, Copy, Debug)]
pub struct EntityTag<'a> {
    /// Whether the tag is weak.
    pub is_weak: bool,
    /// The bytes between the quotes.
    pub opaque: &'a [u8],
}

// Returns whether a tag may contain these bytes between its quotes.
fn are_tag_bytes(text: &[u8]) -> bool
    ensures { result ≡ list_all is_tag_byte text.now }
{
    text.iter()
        .all(|b| *b == b'!' || (*b > b'"' && *b != b',' && *b != 127))
}

// Returns the text between two quotes, if the first byte and the last are quotes.
fn unquoted(text: &[u8]) -> Option<&[u8]>
    ensures some { IfSome result (λ inner. text.now ≡ quoted inner.now) }
    ensures none { IfNone result ((inner : List ℕ) → text.now ≡ quoted inner → ⊥) }
{
    match text {
        [b'"', inner @ .., b'"'] => Some(inner),
        _ => None,
    }
}

impl EntityTag<'_> {
    /// Parses an entity tag without white space around it. Returns `None` for any other text, and for a tag that
    /// contains a comma: values that list tags are split at commas, and servers make tags without any.
    pub fn parse(text: &[u8]) -> Option<EntityTag<'_>>
        ensures some { IfSome result (λ tag. IsTag text.now tag.is_weak tag.opaque.now) }
        ensures none { IfNone result ((is_weak : Bool) → (opaque : List ℕ) → IsTag text.now is_weak opaque → ⊥) }
    {
        let (is_weak, rest) = match text {
            [b'W', b'/', rest @ ..] => (true, rest),
            _ => (false, text),
        };
        let opaque = unquoted(rest)?;
        if !are_tag_bytes(opaque) {
            return None;
        }
        Some(EntityTag { is_weak, opaque })
    }

    /// Returns whether this text is a tag equal to this one.
    pub fn is_match(&self, text: &[u8], comparison: Comparison) -> bool
        ensures { result ≡ is_match comparison self.now.is_weak self.now.opaque.now text.now }
    {
        match comparison {
            Comparison::Strong => !self.is_weak && is_quoted(text, self.opaque),
            Comparison::Weak => is_quoted(without_weakness(text), self.opaque),
        }
    }

    /// Returns whether the value of an `If-Match` or `If-None-Match` field lists a tag equal to this one. Elements that
    /// aren't tags are ignored.
    pub fn is_listed(&self, value: &str, comparison: Comparison) -> bool
        ensures { result ≡ is_listed comparison self.now.is_weak self.now.opaque.now value.now }
    {
        for element in value.split(',') {
            if self.is_match(bytes::trim(element.as_bytes()), comparison) {
                return true;
            }
        }
        false
    }
}

// Returns whether the text is these bytes between quotes.
fn is_quoted(text: &[u8], opaque: &[u8]) -> bool
    ensures { result ≡ bytes_eq text.now (quoted opaque.now) }
{
    match unquoted(text) {
        Some(inner) => inner == opaque,
        None => false,
    }
}

// Returns the text without a leading `W/`.
fn without_weakness(text: &[u8]) -> &[u8]
    ensures { result.now ≡ without_weakness text.now }
{
    match text {
        [b'W', b'/', rest @ ..] => rest,
        _ => text,
    }
}

/// Returns whether the value of an `If-Match` or `If-None-Match` field is `*`, which stands for any tag.
pub fn is_any_tag(value: &str) -> bool
    ensures { result ≡ is_any_tag value.now }
{
    bytes::is(bytes::trim(value.as_bytes()), "*")
}

/// Returns the entity tag that a server gives to a file, with its quotes: the modification time in seconds since 1970,
/// a hyphen and the length in bytes, both in hexadecimal (as nginx does). Such a tag is strong only once the file can't
/// change again within that second: until then send it as a weak one. Fails if memory can't be allocated.
pub fn file_tag(alloc: Global, modified: u64, length: u64) -> Result<String, AllocError>
    ensures { IfOk result (λ tag. string_bytes tag ≡ file_tag modified length) }
{
    let mut tag = String::from_str(alloc, "\"")?;
    tag.push_str(Numeral::hexadecimal(modified).as_str())?;
    tag.push_str("-")?;
    tag.push_str(Numeral::hexadecimal(length).as_str())?;
    tag.push_str("\"")?;
    Ok(tag)
}
