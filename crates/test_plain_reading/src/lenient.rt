//! A reference parser for what a client sends under `Lenient`. It takes all the bytes at once and parses them line by
//! line, without a buffer. Tests compare the requests that a connection hands out with those that it finds.
use crate::parts::{RequestWords, SHORT, add_header, decimal};
use std::alloc::{AllocError, Global};

const VERSIONS: [&str; 5] = ["HTTP/0.9", "HTTP/1.0", "HTTP/1.1", "HTTP/2.0", "HTTP/3.0"];

// A head, and the bytes after it.
#[derive(Drop)]
struct PlainHead<'a> {
    request: RequestWords<'a>,
    headers: Vec<(&'a str, &'a str)>,
    behind: &'a [u8],
}

// Returns whether a character is white space.
fn is_white(letter: char) -> bool {
    matches!(letter, '\t' | '\n' | '\x0b' | '\x0c' | '\r' | ' ')
}

// Returns the first line and the bytes after it, or `None` if the line is incomplete or not ASCII.
fn line_of(bytes: &[u8]) -> Option<(&str, &[u8])> {
    let second = bytes.iter().skip(1);
    let place = bytes
        .iter()
        .zip(second)
        .position(|(one, next)| *one == b'\r' && *next == b'\n')?;
    let line = bytes.get(..place)?;
    let behind = bytes.get(place.checked_add(2)?..)?;
    if !line.is_ascii() {
        return None;
    }
    Some((str::from_utf8(line).ok()?, behind))
}

// Splits a header line into name and value. Returns `None` if there is no colon, or if the name contains white space.
fn header_of(line: &str) -> Option<(&str, &str)> {
    let (name, value) = line.split_once(':')?;
    if name.contains(is_white) {
        return None;
    }
    Some((name, value.trim_matches(is_white)))
}

// Reads the header lines. Returns them and the bytes after the empty line, or `None` if the header section is
// incomplete or invalid.
fn headers_of(
    alloc: Global,
    bytes: &[u8],
) -> Result<Option<(Vec<(&str, &str)>, &[u8])>, AllocError> {
    let mut headers = Vec::new(alloc);
    let mut rest = bytes;
    for _ in 0..=bytes.len() {
        let Some((line, behind)) = line_of(rest) else {
            return Ok(None);
        };
        if line.is_empty() {
            return Ok(Some((headers, behind)));
        }
        let Some(header) = header_of(line) else {
            return Ok(None);
        };
        headers.push(header).map_err(AllocError::from)?;
        rest = behind;
    }
    Ok(None)
}

// Parses a request line, and ignores words after the version. Returns `None` if a part is missing or the version is
// unknown.
fn request_of(line: &str) -> Option<RequestWords<'_>> {
    let mut words = line.trim_matches(is_white).split(' ');
    let method = words.next()?;
    let target = words.next()?;
    let version = words.next()?;
    if !VERSIONS.contains(&version) {
        return None;
    }
    Some(RequestWords {
        method,
        target,
        version: version.strip_prefix("HTTP/")?,
    })
}

// Reads the head at the start of `bytes`. Returns `None` if it is invalid, incomplete or not ASCII.
fn head_of(alloc: Global, bytes: &[u8]) -> Result<Option<PlainHead<'_>>, AllocError> {
    let Some((line, rest)) = line_of(bytes) else {
        return Ok(None);
    };
    let Some(request) = request_of(line) else {
        return Ok(None);
    };
    let Some((headers, behind)) = headers_of(alloc, rest)? else {
        return Ok(None);
    };
    Ok(Some(PlainHead {
        request,
        headers,
        behind,
    }))
}

// Parses a content length, which may have a plus sign.
fn number_of(value: &str) -> Option<usize> {
    decimal(value.strip_prefix('+').unwrap_or(value))
}

impl<'a> PlainHead<'a> {
    // Returns the value of the first header of this name, if there is one.
    fn value(&self, name: &str) -> Option<&'a str> {
        self.headers
            .iter()
            .find(|header| header.0.eq_ignore_ascii_case(name))
            .map(|header| header.1)
    }

    // Returns whether the first Connection header contains `word` anywhere, ignoring case.
    fn tells(&self, word: &str) -> bool {
        let Some(value) = self.value("Connection") else {
            return false;
        };
        (0..value.len()).any(|place| {
            value
                .get(place..)
                .and_then(|rest| rest.get(..word.len()))
                .is_some_and(|there| there.eq_ignore_ascii_case(word))
        })
    }

    // Returns the content length, or `None` if it is absent or invalid, or if a Transfer-Encoding header overrides it.
    fn length(&self) -> Option<usize> {
        match self.value("Transfer-Encoding") {
            Some(_) => None,
            None => number_of(self.value("Content-Length")?),
        }
    }

    // Returns whether the body has no known length: it has a transfer coding, or it is the rest of the stream, since an
    // upgrade is asked for.
    fn is_endless(&self) -> bool {
        self.value("Transfer-Encoding").is_some() || self.tells("upgrade")
    }

    // Returns whether the connection hands out the request or answers it with a 505. That is so if the first Expect
    // header asks for a 100 and nothing else, or if there is no Expect header and the body is complete, is longer than
    // `SHORT` bytes, or has no known length.
    fn is_whole(&self) -> bool {
        let length = self.length().unwrap_or(0);
        match self.value("Expect") {
            Some(expected) => expected.eq_ignore_ascii_case("100-continue"),
            None => self.is_endless() || length > SHORT || length <= self.behind.len(),
        }
    }

    // Returns whether the connection hands out the request, instead of answering it with a 505 because of its version.
    fn is_known(&self) -> bool {
        !matches!(self.request.version, "2.0" | "3.0")
    }

    // Returns whether the request is the last one of its connection.
    fn is_last(&self) -> bool {
        let ends = self.request.version == "1.0" && !self.tells("keep-alive");
        ends || self.tells("close") || self.tells("upgrade")
    }

    // Returns the bytes after the body, or `None` if the connection can't continue: the body has no known length, or it
    // is incomplete. The server discards the body.
    fn after_body(&self) -> Option<&'a [u8]> {
        if self.is_endless() {
            return None;
        }
        self.behind.get(self.length().unwrap_or(0)..)
    }

    // Formats the reply line of the request with this number.
    fn line(&self, alloc: Global, number: usize) -> Result<Vec<u8>, AllocError> {
        let mut line = self
            .request
            .line(alloc, number, self.headers.len(), self.length())?;
        for (name, value) in &self.headers {
            add_header(&mut line, *name, *value)?;
        }
        Ok(line.into_bytes())
    }
}

/// Returns the reply lines of the requests that a connection hands out under `Lenient`, up to `most`, if its client
/// sends these bytes and each request is dropped before the next is received.
pub fn plain_lines(alloc: Global, bytes: &[u8], most: usize) -> Result<Vec<Vec<u8>>, AllocError> {
    let mut lines = Vec::new(alloc);
    let mut rest = bytes;
    for number in 0..=bytes.len() {
        let Some(head) = head_of(alloc, rest)? else {
            break;
        };
        if !head.is_whole() || lines.len() == most {
            break;
        }
        if head.is_known() {
            lines
                .push(head.line(alloc, number)?)
                .map_err(AllocError::from)?;
            if head.is_last() {
                break;
            }
        }
        match head.after_body() {
            Some(behind) => rest = behind,
            None => break,
        }
    }
    Ok(lines)
}
