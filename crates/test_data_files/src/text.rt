//! Reads the texts of data files, with their escapes, abbreviations and repeated pieces, and formats bytes as texts.
use std::alloc::{AllocError, Global};

/// An error in reading a text.
#[derive(Clone, Copy, Debug, PartialEq, Eq)]
pub enum TextFault {
    /// A backslash does not begin an escape.
    NoEscape,
    /// A repeated piece has no count, no space after the count, or no closing brace.
    NoRepeat,
    OutOfMemory,
}

impl From<AllocError> for TextFault {
    fn from(_error: AllocError) -> TextFault {
        TextFault::OutOfMemory
    }
}

// The first two field lines of a final response of the server, dated at Unix second 420,895,020.
const SERVED: &str = "Server: tiny-http (Rust)\r\nDate: Wed, 04 May 1983 11:17:00 GMT\r\n";

// The field lines of a response without a body, and the end of its head.
const EMPTY: &str =
    "Server: tiny-http (Rust)\r\nDate: Wed, 04 May 1983 11:17:00 GMT\r\nContent-Length: 0\r\n\r\n";

// The field lines of a response with a text body, except those that frame the body.
const PLAIN: &str =
    "Server: tiny-http (Rust)\r\nDate: Wed, 04 May 1983 11:17:00 GMT\r\nContent-Type: text/plain; charset=UTF-8\r\n";

// Returns the text that a backslash followed by this letter represents, or `None` if this is not a one-letter escape.
fn meaning(letter: u8) -> Option<&'static str> {
    match letter {
        b'r' => Some("\r"),
        b'n' => Some("\n"),
        b't' => Some("\t"),
        b'\\' => Some("\\"),
        b'S' => Some(SERVED),
        b'Z' => Some(EMPTY),
        b'T' => Some(PLAIN),
        _ => None,
    }
}

fn digit(letter: u8) -> Option<u8> {
    match letter {
        b'0'..=b'9' => Some(letter - b'0'),
        b'a'..=b'f' => Some(letter - b'a' + 10),
        b'A'..=b'F' => Some(letter - b'A' + 10),
        _ => None,
    }
}

// Parses two hexadecimal digits at the start. Returns the byte that they represent, and the rest.
fn byte_before(digits: &[u8]) -> Option<(u8, &[u8])> {
    let (first, behind) = digits.split_first()?;
    let (second, behind) = behind.split_first()?;
    let byte = digit(*first)?
        .checked_mul(16)?
        .checked_add(digit(*second)?)?;
    Some((byte, behind))
}

// Adds what an escape represents, given the text after its backslash. Returns the rest after the escape.
fn add_escape<'a>(escape: &'a [u8], to: &mut Vec<u8>) -> Result<&'a [u8], TextFault> {
    let Some((letter, behind)) = escape.split_first() else {
        return Err(TextFault::NoEscape);
    };
    if *letter == b'x' {
        let Some((byte, behind)) = byte_before(behind) else {
            return Err(TextFault::NoEscape);
        };
        to.extend_from_slice(&[byte])?;
        return Ok(behind);
    }
    let Some(text) = meaning(*letter) else {
        return Err(TextFault::NoEscape);
    };
    to.extend_from_slice(text.as_bytes())?;
    Ok(behind)
}

// Adds a text without repeated pieces.
fn add_plain(text: &[u8], to: &mut Vec<u8>) -> Result<(), TextFault> {
    let mut rest = text;
    for _ in 0..text.len() {
        let Some((first, behind)) = rest.split_first() else {
            break;
        };
        if *first == b'\\' {
            rest = add_escape(behind, to)?;
        } else {
            to.extend_from_slice(&[*first])?;
            rest = behind;
        }
    }
    Ok(())
}

/// Parses a decimal number without a sign. Returns `None` if the text is not one, or if the number is 2^64 or more.
pub fn number_in(digits: &str) -> Option<usize> {
    if digits.starts_with('+') {
        return None;
    }
    digits.parse::<usize>().ok()
}

// Parses a repeated piece, given the text after its opening brace. Returns the count, the piece, and the rest after the
// closing brace.
fn piece_before(repeat: &[u8]) -> Option<(usize, &[u8], &[u8])> {
    let end = repeat.iter().position(|byte| *byte == b'}')?;
    let (inside, brace) = repeat.split_at_checked(end)?;
    let (_, behind) = brace.split_first()?;
    let space = inside.iter().position(|byte| *byte == b' ')?;
    let (digits, piece) = inside.split_at_checked(space)?;
    let (_, piece) = piece.split_first()?;
    let count = number_in(str::from_utf8(digits).ok()?)?;
    Some((count, piece, behind))
}

// Adds a repeated piece, given the text after its opening brace. Returns the rest after the closing brace.
fn add_repeated<'a>(
    alloc: Global,
    repeat: &'a [u8],
    to: &mut Vec<u8>,
) -> Result<&'a [u8], TextFault> {
    let Some((count, piece, behind)) = piece_before(repeat) else {
        return Err(TextFault::NoRepeat);
    };
    let mut once = Vec::new(alloc);
    add_plain(piece, &mut once)?;
    for _ in 0..count {
        to.extend_from_slice(once.as_slice())?;
    }
    Ok(behind)
}

/// Appends to `to` the bytes that a text represents. Each byte represents itself, except in an escape: `\r`, `\n`,
/// `\t`, `\\`, `\xHH`, an abbreviation (`\S`, `\Z` or `\T`), or `\{N TEXT}`, which repeats TEXT N times. TEXT may
/// contain neither another repetition nor `}`. If this fails, some bytes may already have been appended.
pub fn add_text(alloc: Global, text: &str, to: &mut Vec<u8>) -> Result<(), TextFault> {
    let mut rest = text.as_bytes();
    for _ in 0..text.len() {
        let Some((first, behind)) = rest.split_first() else {
            break;
        };
        if *first != b'\\' {
            to.extend_from_slice(&[*first])?;
            rest = behind;
        } else if let Some(repeat) = behind.strip_prefix(b"{") {
            rest = add_repeated(alloc, repeat, to)?;
        } else {
            rest = add_escape(behind, to)?;
        }
    }
    Ok(())
}

/// Returns the bytes that a text represents.
pub fn text_of(alloc: Global, text: &str) -> Result<Vec<u8>, TextFault> {
    let mut bytes = Vec::new(alloc);
    add_text(alloc, text, &mut bytes)?;
    Ok(bytes)
}

/// Formats bytes as a text of a data file, on one line. Backslashes and all bytes but printable ASCII become escapes.
pub fn shown(alloc: Global, bytes: &[u8]) -> Result<String, AllocError> {
    let mut text = String::new(alloc);
    for byte in bytes {
        match *byte {
            b'\r' => text.push_str("\\r")?,
            b'\n' => text.push_str("\\n")?,
            b'\t' => text.push_str("\\t")?,
            b'\\' => text.push_str("\\\\")?,
            b' '..=b'~' => text.push_str(str::from_utf8(&[*byte]).unwrap_or_default())?,
            _ => text.push_str(format!(in alloc; "\\x{byte:02x}")?.as_str())?,
        }
    }
    Ok(text)
}
