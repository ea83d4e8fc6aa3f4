//! Responses made from status codes, headers made from texts, and the conversion of allocation failures to `io::Error`.
ghost use Rattle.std.specs.Prelude.{◌≡◌, ◌↔◌, ◌∷◌, [], IfOk, OnOk, IsErrOf, length, string_bytes};
ghost use Rattle.tiny_http_io.specs.Cursor.{cursor_bytes};
ghost use Rattle.tiny_http_head.specs.HeaderTexts.{AreHeaderTexts, header_of};
ghost use Rattle.tiny_http_response.specs.AddHeader.{add_header};
ghost use Rattle.tiny_http_response.specs.Answer.{answer_with, status_text, text_plain};

use crate::response::{NotAdded, Refused, Response};
use std::alloc::{AllocError, Global};
use std::io;
use std::io::{Cursor, ErrorKind};
use tiny_http_head::common::{Header, ParseError, StatusCode};
use tiny_http_text::number::Numeral;

// Returns the text of a response made from a status code: the code and its reason phrase. Fails if memory can't be
// allocated.
#[tactic(auto, unfolding(crate::specs::Answer::status_text))]
fn status_text(alloc: Global, status: StatusCode) -> Result<String, AllocError>
    ensures { IfOk result (λ text. string_bytes text ≡ status_text status.0) }
{
    let mut text = String::new(alloc);
    text.push_str(Numeral::decimal(status.0.into()).as_str())?;
    text.push_str(" ")?;
    text.push_str(status.default_reason_phrase())?;
    Ok(text)
}

impl Response<Cursor<Vec<u8>>> {
    /// Creates a response with this status code whose text is the code and its reason phrase, such as `404 Not Found`,
    /// with `Content-Type: text/plain; charset=UTF-8` (RFC 9110, section 15). Fails if memory can't be allocated. For a
    /// code without content, such as 204 or 304, use `contentless`: here the text isn't sent, but its length may be.
    pub fn status(alloc: Global, code: StatusCode) -> Result<Response<Cursor<Vec<u8>>>, AllocError>
        ensures answer { IfOk result
            (λ r. r.answer ≡ answer_with code.0 (text_plain ∷ []) (length (status_text code.0))) }
        ensures bytes { IfOk result (λ r. cursor_bytes r.data_reader ≡ status_text code.0) }
    {
        let response = Response::from_string(alloc, status_text(alloc, code)?)?;
        Ok(response.with_status_code(code))
    }
}

impl<R> Response<R> {
    /// Adds the header that `Header::new` makes from this name and value, as `add_header` does, which ignores
    /// `Connection`, `Trailer`, `Transfer-Encoding`, `Upgrade` and a malformed `Content-Length`. Fails with `Refused`
    /// exactly if the texts make no header, and with `Memory` if memory can't be allocated. Both errors drop the
    /// response; `with_header` hands it back. In a function that returns `io::Result`, `?` converts them to
    /// `InvalidInput` and `OutOfMemory`.
    pub fn with(self, alloc: Global, name: &str, value: &str) -> Result<Response<R>, ParseError>
    where
        R: Drop,
        ensures added { IfOk result
            (λ r. r ≡ record self { answer = add_header (header_of name.now value.now) self.answer }) }
        ensures texts { OnOk result (AreHeaderTexts name.now value.now) }
        ensures refused { IsErrOf result ParseError.Refused ↔ ¬ (AreHeaderTexts name.now value.now) }
    {
        match Header::new(alloc, name, value) {
            Ok(header) => self.with_header(header).map_err(|_| ParseError::Memory),
            Err(error) => Err(error),
        }
    }
}

impl<R: Drop> From<NotAdded<R>> for io::Error {
    ghost use Rattle.std.specs.IoError.{error_kind};
    ghost use Rattle.std.specs.declared.io.ErrorKind.TheVariants.{OutOfMemory};

    ghost from_gives = { λ _ fault. error_kind fault ≡ OutOfMemory };

    /// Returns `OutOfMemory`, and drops the response and the header.
    fn from(_refused: NotAdded<R>) -> io::Error {
        ErrorKind::OutOfMemory.into()
    }
}

impl<R: Drop> From<Refused<R>> for io::Error {
    ghost use Rattle.std.specs.IoError.{error_kind};
    ghost use Rattle.std.specs.declared.io.ErrorKind.TheVariants.{OutOfMemory};

    ghost from_gives = { λ _ fault. error_kind fault ≡ OutOfMemory };

    /// Returns `OutOfMemory`, and drops the data.
    fn from(_refused: Refused<R>) -> io::Error {
        ErrorKind::OutOfMemory.into()
    }
}
