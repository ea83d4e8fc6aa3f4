//! Several ranges of a file as `multipart/byteranges` (RFC 9110, section 14.6).
ghost use Rattle.std.specs.Prelude.{◌≡◌, length, None, Ok};
ghost use Rattle.tiny_http_io.specs.Device.{Reads};

use crate::disk::FilePart;
use std::alloc::{AllocError, Global};
use std::fs::File;
use std::io;
use std::io::Cursor;
use tiny_http_files::ranges::{ByteRange, content_range};
use tiny_http_wire::device::{ReadDevice, read_front};

// A text of the body, and the range of the file after it.
#[derive(Clone, Copy, Debug, Drop)]
struct Piece {
    text: usize,
    start: u64,
    length: u64,
}

/// The body of a response with several ranges of a file.
#[derive(Drop)]
pub(crate) struct Multipart {
    // The texts, one after another, and how much of the current one is left.
    texts: Cursor<Vec<u8>>,
    text_left: usize,
    part: FilePart,
    // The pieces that follow the current one, the last of them first.
    pieces: Vec<Piece>,
}

// Returns the text before a range: the boundary, and the headers of the part.
fn head_of(
    alloc: Global,
    boundary: &str,
    content_type: &str,
    place: &str,
) -> Result<String, AllocError> {
    format!(in alloc;
        "\r\n--{boundary}\r\nContent-Type: {content_type}\r\nContent-Range: {place}\r\n\r\n"
    )
}

/// The texts and pieces of a body that is being put together.
#[derive(Drop)]
pub(crate) struct MultipartBuilder {
    alloc: Global,
    boundary: String,
    texts: String,
    pieces: Vec<Piece>,
    length: u64,
}

impl MultipartBuilder {
    /// Begins a body with this boundary, which must not occur in the file.
    pub(crate) fn new(alloc: Global, boundary: String) -> MultipartBuilder {
        MultipartBuilder {
            alloc,
            boundary,
            texts: String::new(alloc),
            pieces: Vec::new(alloc),
            length: 0,
        }
    }

    /// Adds a range of a file of `length` bytes and this media type.
    pub(crate) fn add(
        &mut self,
        content_type: &str,
        range: ByteRange,
        length: u64,
    ) -> io::Result<()> {
        let before = self.texts.len();
        let place = content_range(self.alloc, range, length)?;
        let text = head_of(
            self.alloc,
            self.boundary.as_str(),
            content_type,
            place.as_str(),
        )?;
        self.texts.push_str(text.as_str())?;
        self.push(before, range.start, range.size())
    }

    // Adds the piece whose text is what follows the first `before` bytes of the texts.
    fn push(&mut self, before: usize, start: u64, length: u64) -> io::Result<()> {
        let text = self.texts.len().saturating_sub(before);
        self.length = self
            .length
            .saturating_add(text as u64)
            .saturating_add(length);
        self.pieces.push(Piece {
            text,
            start,
            length,
        })?;
        Ok(())
    }

    /// Ends the body. Returns it with its length in bytes.
    pub(crate) fn finish(mut self, file: File) -> io::Result<(Multipart, u64)> {
        let before = self.texts.len();
        self.texts.push_str("\r\n--")?;
        self.texts.push_str(self.boundary.as_str())?;
        self.texts.push_str("--\r\n")?;
        self.push(before, 0, 0)?;
        let MultipartBuilder {
            alloc: _,
            boundary: _,
            texts,
            mut pieces,
            length,
        } = self;
        pieces.reverse();
        let body = Multipart {
            texts: Cursor::new(texts.into_bytes()),
            text_left: 0,
            part: FilePart::new(file, 0, 0),
            pieces,
        };
        Ok((body, length))
    }
}

impl ReadDevice for Multipart {
    /// Reads once, from the current text or the range after it.
    fn read_in(&mut self, buf: &mut [u8]) -> Result<usize, io::Error>
        ensures reads { Reads None None result buf.new }
        ensures empty { length buf.new ≡ 0 → (result ≡ Ok 0) × (self.new ≡ self.old) }
    {
        if buf.is_empty() {
            return Ok(0);
        }
        if self.text_left == 0 && self.part.left() == 0 {
            self.advance();
        }
        if self.text_left == 0 {
            return self.part.read_in(buf);
        }
        let n = read_front(&mut self.texts, self.text_left, buf)?;
        self.text_left = self.text_left.saturating_sub(n);
        Ok(n)
    }
}

impl Multipart {
    // Begins the next piece, if there is one.
    fn advance(&mut self) {
        if let Some(piece) = self.pieces.pop() {
            self.text_left = piece.text;
            self.part.seek(piece.start, piece.length);
        }
    }
}
