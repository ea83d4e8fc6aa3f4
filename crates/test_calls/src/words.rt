//! Parses the words of a line: numbers, statuses, versions, codings, texts, headers, and bytes of a series.
use std::alloc::{AllocError, Global};
use test_data_files::fault::LineFault;
use test_data_files::text::{number_in, text_of};
use tiny_http_wire::coding::Coding;
use tiny_http_wire::common::{HTTPVersion, Header, ParseError, StatusCode};

/// Splits a line at its first space. If it has no space, the second part is empty.
pub fn split(line: &str) -> (&str, &str) {
    match line.split_once(' ') {
        Some(parts) => parts,
        None => (line, ""),
    }
}

/// Parses a decimal number.
pub fn number(word: &str) -> Result<usize, LineFault> {
    match number_in(word) {
        Some(number) => Ok(number),
        None => Err(LineFault::Bad("a number is missing")),
    }
}

/// Parses one or more numbers, separated by single spaces.
pub fn numbers(alloc: Global, words: &str) -> Result<Vec<usize>, LineFault> {
    let mut list = Vec::new(alloc);
    for word in words.split(' ') {
        let number = number(word)?;
        list.push(number).map_err(AllocError::from)?;
    }
    Ok(list)
}

/// Parses a number, or `-` for none.
pub fn number_or_none(word: &str) -> Result<Option<usize>, LineFault> {
    if word == "-" {
        return Ok(None);
    }
    Ok(Some(number(word)?))
}

/// Parses a status code: a number below 65,536.
pub fn status(word: &str) -> Result<StatusCode, LineFault> {
    match u16::try_from(number(word)?) {
        Ok(status) => Ok(StatusCode(status)),
        Err(_) => Err(LineFault::Bad("a status is below 65536")),
    }
}

/// Parses a version: two numbers below 256, separated by a dot.
pub fn version(word: &str) -> Result<HTTPVersion, LineFault> {
    let (major, minor) = word.split_once('.').unwrap_or((word, ""));
    match (u8::try_from(number(major)?), u8::try_from(number(minor)?)) {
        (Ok(major), Ok(minor)) => Ok(HTTPVersion(major, minor)),
        _ => Err(LineFault::Bad("a version has numbers below 256")),
    }
}

/// Parses a transfer coding, or `-` for none.
pub fn coding(word: &str) -> Result<Option<Coding>, LineFault> {
    match word {
        "-" => Ok(None),
        "chunked" => Ok(Some(Coding::Chunked)),
        "identity" => Ok(Some(Coding::Identity)),
        _ => Err(LineFault::Bad("no such coding")),
    }
}

/// Decodes the escapes of a text. Fails if the result is not UTF-8.
pub fn text(alloc: Global, words: &str) -> Result<String, LineFault> {
    match String::from_utf8(text_of(alloc, words)?) {
        Ok(text) => Ok(text),
        Err(_) => Err(LineFault::Bad("a text is UTF-8")),
    }
}

/// Parses a header with `Header::from_str`, which reads a field line.
pub fn header_line(alloc: Global, words: &str) -> Result<Header, LineFault> {
    let line = text(alloc, words)?;
    match Header::from_str(alloc, line.as_str()) {
        Ok(header) => Ok(header),
        Err(ParseError::Refused) => Err(LineFault::Bad("no such header line")),
        Err(ParseError::Memory) => Err(LineFault::OutOfMemory),
    }
}

/// Parses a header of the form `NAME: VALUE`. Fails if the text doesn't have this form, or is not ASCII.
pub fn header(alloc: Global, words: &str) -> Result<Header, LineFault> {
    let line = text(alloc, words)?;
    let Some((name, value)) = line.as_str().split_once(": ") else {
        return Err(LineFault::Bad("a header is NAME: VALUE"));
    };
    let name = name.as_bytes().to_vec(alloc)?;
    match Header::from_bytes(name, value.as_bytes().to_vec(alloc)?) {
        Ok(header) => Ok(header),
        Err(()) => Err(LineFault::Bad("a header is ASCII")),
    }
}

/// Appends bytes of the series that repeats 0 to 250 endlessly. The words are the position of the first byte in the
/// series and the number of bytes.
pub fn add_series(words: &str, to: &mut Vec<u8>) -> Result<(), LineFault> {
    let (from, count) = split(words);
    let (from, count) = (number(from)?, number(count)?);
    let Some(end) = from.checked_add(count) else {
        return Err(LineFault::Bad("the series has fewer places"));
    };
    for place in from..end {
        to.push((place % 251) as u8).map_err(AllocError::from)?;
    }
    Ok(())
}
