//! ASCII strings: texts whose bytes are all below 128.
ghost use Rattle.std.specs.Prelude.{◌≡◌, ◌==◌, ◌≤◌, ◌<◌, ◌↔◌, ℕ, List, length, map, Some, IsTrue, IsOk, IfOk, IfErr};
ghost use Rattle.std.specs.Prelude.{OnOk, OnErr, IsAscii, nat_eq, take};
ghost use Rattle.std.specs.Cmp.Lexicographic.{pointwise};
ghost use Rattle.std.specs.Cmp.Rules.{comparing, hashing};
ghost use Rattle.std.specs.Hash as fed;
ghost use Rattle.std.proofs.Common.{rules};
ghost use Rattle.std.specs.Char.{to_ascii_lowercase};
ghost use Rattle.std.specs.Str.{IsNotAscii};
ghost use Rattle.tiny_http_text.specs.Bytes.{is_blank, trimmed};
ghost use Rattle.tiny_http_text.specs.Ascii.{IsFirstNotAscii};

use crate::text::trim;
use std::alloc::{AllocError, Global};
use std::fmt;
use std::hash::{Hash, Hasher};
use std::marker::Model;
use thiserror::Error;

// The greatest length, in bytes, of a copy that is stored inline, without an allocation.
const SHORT: usize = 30;

// The bytes of a text that is stored inline: the first `len` of `bytes`.
#[derive(Clone, Copy, Drop)]
struct ShortBytes {
    bytes: [u8; 30],
    len: u8,
    ghost within: { len ≤ 30 },
}

// The bytes of a text. Copies of short texts, such as most header fields, are stored inline.
#[derive(Drop)]
enum TextBytes {
    Short(ShortBytes),
    Long(Vec<u8>),
}

/// An owned ASCII string.
///
/// A copy of at most 30 bytes is stored inline, without an allocation. A contract sees the string as the list of its
/// bytes.
#[derive(Drop)]
pub struct AsciiString {
    text: TextBytes,
}

impl Model for AsciiString {
    ghost use Rattle.std.specs.Prelude.{ℕ, List, IsAscii};
    ghost use Rattle.tiny_http_text.specs.TextBytes.{text_bytes};

    ghost Value = { List ℕ };

    ghost view = { λ s. text_bytes s.text };

    ghost invariant = { λ s. IsAscii (text_bytes s.text) };
}

/// A borrowed ASCII string: all or part of an `AsciiString`. A contract sees it as the list of its bytes.
#[derive(Debug, Drop)]
pub struct AsciiStr<'a> {
    text: &'a str,
}

impl<'a> Model for AsciiStr<'a> {
    ghost Value = { List ℕ };

    ghost view = { λ s. s.text.now };

    ghost invariant = { λ s. IsAscii s.text.now };
}

/// The error that `AsciiString::from_ascii` returns for bytes that aren't ASCII. It holds the bytes and the position of
/// the first one above 127.
#[derive(Debug, Drop, Error)]
#[error("the byte at place {place} is not ASCII")]
pub struct FromAsciiError {
    source: Vec<u8>,
    place: usize,
}

impl FromAsciiError {
    ghost use Rattle.tiny_http_text.specs.FromAsciiError.{refused_bytes, bad_place};

    /// Returns the bytes that were refused, unchanged.
    pub fn into_source(self) -> Vec<u8>
        ensures { result.items ≡ refused_bytes self }
    {
        self.source
    }

    /// Returns the position of the first byte above 127, counted from 0.
    pub fn place(&self) -> usize
        ensures { result ≡ bad_place self.now }
    {
        self.place
    }
}

// Returns the position of the first byte above 127, or the number of bytes if there is none.
fn ascii_len(bytes: &[u8]) -> usize
    ensures bound { result ≤ length bytes.now }
    ensures found { result < length bytes.now → IsFirstNotAscii bytes.now result }
    ensures ascii { length bytes.now ≤ result → IsAscii bytes.now }
{
    if bytes.is_ascii() {
        return bytes.len();
    }
    for (i, b) in bytes.iter().enumerate() {
        if *b >= 128 {
            return i;
        }
    }
    bytes.len()
}

impl ShortBytes {
    // Copies the bytes into an inline array. The caller passes at most 30.
    fn copied(bytes: &[u8]) -> ShortBytes
        requires { length bytes.now ≤ 30 }
        ensures { take result.len result.bytes ≡ bytes.now }
    {
        let mut room = [0u8; SHORT];
        let len = bytes.len();
        room[..len].copy_from_slice(bytes);
        ShortBytes {
            bytes: room,
            len: len as u8,
        }
    }

    fn as_slice(&self) -> &[u8]
        ensures { result.now ≡ take self.now.len self.now.bytes }
    {
        &self.bytes[..usize::from(self.len)]
    }
}

impl TextBytes {
    ghost use Rattle.tiny_http_text.specs.TextBytes.{text_bytes};

    // Copies the bytes: inline if there are at most 30, and otherwise into an allocation. Fails only if the allocation
    // is refused.
    fn copied(alloc: Global, bytes: &[u8]) -> Result<TextBytes, AllocError>
        ensures text { IfOk result (λ t. text_bytes t ≡ bytes.now) }
        ensures short { length bytes.now ≤ 30 → IsOk result }
    {
        if bytes.len() <= SHORT {
            return Ok(TextBytes::Short(ShortBytes::copied(bytes)));
        }
        Ok(TextBytes::Long(bytes.to_vec(alloc)?))
    }

    fn as_slice(&self) -> &[u8]
        ensures { result.now ≡ text_bytes self.now }
    {
        match self {
            TextBytes::Short(short) => short.as_slice(),
            TextBytes::Long(bytes) => bytes.as_slice(),
        }
    }

    // Copies the text. Fails only if it has more than 30 bytes and memory can't be allocated.
    fn try_clone(&self) -> Result<TextBytes, AllocError>
        ensures text { IfOk result (λ t. text_bytes t ≡ text_bytes self.now) }
        ensures short { length (text_bytes self.now) ≤ 30 → IsOk result }
    {
        match self {
            TextBytes::Short(short) => Ok(TextBytes::Short(*short)),
            TextBytes::Long(bytes) => TextBytes::copied(*bytes.allocator(), bytes.as_slice()),
        }
    }
}

impl AsciiString {
    ghost use Rattle.tiny_http_text.specs.FromAsciiError.{refused_bytes, bad_place};

    /// Makes a string from bytes that are all below 128, without copying them. Fails with an error that holds the bytes
    /// if one of them is above 127.
    pub fn from_ascii(bytes: Vec<u8>) -> Result<AsciiString, FromAsciiError>
        ensures ok { IfOk result (λ s. s ≡ bytes.items) }
        ensures succeeds { IsOk result ↔ IsAscii bytes.items }
        ensures source { IfErr result (λ e. refused_bytes e ≡ bytes.items) }
        ensures place { IfErr result (λ e. IsFirstNotAscii bytes.items (bad_place e)) }
        ensures ascii { OnOk result (IsAscii bytes.items) }
        ensures refused { OnErr result (IsNotAscii bytes.items) }
    {
        let place = ascii_len(bytes.as_slice());
        if place < bytes.len() {
            return Err(FromAsciiError {
                source: bytes,
                place,
            });
        }
        Ok(AsciiString {
            text: TextBytes::Long(bytes),
        })
    }

    /// Copies bytes that are known to be ASCII, without checking them. Fails if memory can't be allocated; a copy of at
    /// most 30 bytes needs no allocation.
    pub(crate) fn copied_unchecked(alloc: Global, bytes: &[u8]) -> Result<AsciiString, AllocError>
        requires { IsAscii bytes.now }
        ensures text { IfOk result (λ s. s ≡ bytes.now) }
        ensures short { length bytes.now ≤ 30 → IsOk result }
    {
        let text = TextBytes::copied(alloc, bytes)?;
        Ok(AsciiString { text })
    }

    /// Returns the text as a `&str`.
    pub fn as_str(&self) -> &str
        ensures value { result.now ≡ self.now }
        ensures ascii { IsAscii self.now }
    {
        unsafe { str::from_utf8_unchecked(self.text.as_slice()) }
    }

    /// Borrows the text.
    pub fn as_ascii(&self) -> AsciiStr<'_>
        ensures { result ≡ self.now }
    {
        AsciiStr {
            text: self.as_str(),
        }
    }

    /// Returns the number of bytes.
    pub fn len(&self) -> usize
        ensures { result ≡ length self.now }
    {
        self.as_ascii().len()
    }

    /// Returns whether the text is empty.
    pub fn is_empty(&self) -> bool
        ensures { result ≡ (length self.now == 0) }
    {
        self.as_ascii().is_empty()
    }

    /// Returns the text without white space (bytes 9 to 13 and 32) at its ends.
    pub fn trim(&self) -> AsciiStr<'_>
        ensures { result ≡ trimmed is_blank self.now }
    {
        self.as_ascii().trim()
    }

    /// Returns whether the text equals `other`, ignoring the case of ASCII letters.
    pub fn eq_ignore_ascii_case(&self, other: &str) -> bool
        ensures { IsTrue result ↔ (map to_ascii_lowercase self.now ≡ map to_ascii_lowercase other.now) }
    {
        self.as_ascii().eq_ignore_ascii_case(other)
    }

    /// Copies the text. Fails if memory can't be allocated; a copy of at most 30 bytes needs no allocation.
    pub fn try_clone(&self) -> Result<AsciiString, AllocError>
        ensures text { IfOk result (λ s. s ≡ self.now) }
        ensures short { length self.now ≤ 30 → IsOk result }
    {
        let text = self.text.try_clone()?;
        Ok(AsciiString { text })
    }
}

impl fmt::Debug for AsciiString {
    /// Writes the text in quotes, as the `Debug` of `str` does.
    fn fmt<W: fmt::Write>(&self, f: &mut fmt::Formatter<W>) -> fmt::Result {
        fmt::Debug::fmt(self.as_str(), f)
    }
}

impl fmt::Display for AsciiString {
    ghost output = { λ s. Some s };

    ghost styled_output = { λ s _. Some s };

    /// Writes the text. Formatting parameters such as width are ignored.
    fn fmt<W: fmt::Write>(&self, f: &mut fmt::Formatter<W>) -> fmt::Result {
        f.write_str(self.as_str())
    }
}

impl PartialEq for AsciiString {
    ghost eq = { pointwise nat_eq };

    ghost laws = { Prim.search (comparing, rules) };

    /// Compares the texts byte by byte. Letter case matters.
    fn eq(&self, other: &AsciiString) -> bool {
        self.as_str() == other.as_str()
    }
}

impl Eq for AsciiString {
    ghost laws = { Prim.search (comparing, rules) };
}

impl Hash for AsciiString {
    ghost hash_input = { λ s. fed.str s };

    ghost respects_eq = { Prim.search (hashing, rules) };

    /// Feeds the text to the hasher, as `str` does.
    fn hash<H: Hasher>(&self, state: &mut H) {
        self.as_str().hash(state);
    }
}

impl<'a> AsciiStr<'a> {
    /// Returns the text as a `&str`.
    pub fn as_str(&self) -> &'a str
        ensures value { result.now ≡ self.now }
        ensures ascii { IsAscii self.now }
    {
        self.text
    }

    /// Returns the number of bytes.
    pub fn len(&self) -> usize
        ensures { result ≡ length self.now }
    {
        self.text.len()
    }

    /// Returns whether the text is empty.
    pub fn is_empty(&self) -> bool
        ensures { result ≡ (length self.now == 0) }
    {
        self.text.is_empty()
    }

    /// Returns the text without white space (bytes 9 to 13 and 32) at its ends.
    pub fn trim(&self) -> AsciiStr<'a>
        ensures { result ≡ trimmed is_blank self.now }
    {
        AsciiStr {
            text: trim(self.text),
        }
    }

    /// Returns whether the text equals `other`, ignoring the case of ASCII letters.
    pub fn eq_ignore_ascii_case(&self, other: &str) -> bool
        ensures { IsTrue result ↔ (map to_ascii_lowercase self.now ≡ map to_ascii_lowercase other.now) }
    {
        self.text.eq_ignore_ascii_case(other)
    }
}
