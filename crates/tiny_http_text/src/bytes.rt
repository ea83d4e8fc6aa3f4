//! Trimming, splitting and comparing byte strings.
ghost use Rattle.std.specs.Prelude.{◌≡◌, ◌↔◌, ℕ, ◌≤◌, ◌<◌, List, ◌∷◌, ◌++◌, length, take, IfSome, IfNone, IsTrue};
ghost use Rattle.std.specs.Prelude.{slice_index, not};
ghost use Rattle.std.specs.List.{list_all};
ghost use Rattle.std.specs.Str.{bytes_eq};
ghost use Rattle.tiny_http_text.specs.Bytes.{HasNo, IsTrimmed, is_ascii, is_blank, parts, skip_while, skip_end_while};
ghost use Rattle.tiny_http_text.specs.Bytes.{trimmed};

// Returns whether the byte is white space: one of 9 to 13, or 32.
fn is_blank(b: u8) -> bool
    ensures { result ≡ is_blank b }
{
    (b >= 9 && b <= 13) || b == 32
}

/// Returns the text without trailing white space (bytes 9 to 13 and 32).
pub fn trim_end(text: &[u8]) -> &[u8]
    ensures { result.now ≡ skip_end_while is_blank text.now }
{
    let mut end = text.len();
    while end > 0 && is_blank(text[end - 1]) {
        end -= 1;
    }
    &text[..end]
}

/// Returns the text without leading white space (bytes 9 to 13 and 32).
pub fn trim_front(text: &[u8]) -> &[u8]
    ensures { result.now ≡ skip_while is_blank text.now }
{
    let mut start = 0;
    while start < text.len() && is_blank(text[start]) {
        start += 1;
    }
    &text[start..]
}

/// Returns the text without leading and trailing white space (bytes 9 to 13 and 32).
pub fn trim(text: &[u8]) -> &[u8]
    ensures { result.now ≡ trimmed is_blank text.now }
{
    trim_end(trim_front(text))
}

/// Returns whether the text has no leading or trailing white space (bytes 9 to 13 and 32).
pub fn is_trimmed(text: &[u8]) -> bool
    ensures { IsTrue result ↔ IsTrimmed text.now }
{
    trim(text).len() == text.len()
}

// Returns the position of the first `c`, or the length of the text if it has no `c`.
fn find(text: &[u8], c: u8) -> usize
    ensures bound { result ≤ length text.now }
    ensures first { HasNo c (take result text.now) }
    ensures there { result < length text.now → slice_index text.now result ≡ c }
{
    let mut i = 0;
    while i < text.len() && text[i] != c {
        i += 1;
    }
    i
}

/// Splits the text at the first `c`. Returns the bytes before it and the bytes after it, or `None` if the text has no
/// `c`.
pub fn cut(text: &[u8], c: u8) -> Option<(&[u8], &[u8])>
    ensures some { IfSome result (λ r. (text.now ≡ r.0.now ++ c ∷ r.1.now) × HasNo c r.0.now) }
    ensures none { IfNone result (HasNo c text.now) }
{
    let i = find(text, c);
    if i == text.len() {
        return None;
    }
    Some((&text[..i], &text[i + 1..]))
}

/// Returns whether the text equals `word`, byte for byte.
pub fn is(text: &[u8], word: &str) -> bool
    ensures { result ≡ bytes_eq text.now word.now }
{
    text == word.as_bytes()
}

/// Returns the bytes before the first `c`, or all bytes if the text has no `c`.
pub fn first_part(text: &[u8], c: u8) -> &[u8]
    ensures { (more : List (List ℕ)) × (parts c text.now ≡ result.now ∷ more) }
{
    &text[..find(text, c)]
}

/// Returns whether all bytes are below 128.
pub fn are_ascii(text: &[u8]) -> bool
    ensures { result ≡ list_all is_ascii text.now }
{
    text.is_ascii()
}

/// Returns whether the text has no white space (bytes 9 to 13 and 32).
pub fn has_no_blank(text: &[u8]) -> bool
    ensures { result ≡ list_all (λ b. not (is_blank b)) text.now }
{
    text.iter().all(|b| !is_blank(*b))
}
