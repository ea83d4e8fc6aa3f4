//! Whether a client reads a header as intended (RFC 9110, section 5.5; RFC 9112, section 5).
ghost use Rattle.std.specs.Prelude.{◌≡◌, ◌↔◌, false, IsTrue};
ghost use Rattle.std.specs.List.{AllByRecursion};
ghost use Rattle.tiny_http_text.specs.Bytes.{HasNo, HasNoBlank, IsTrimmed, colon};
ghost use Rattle.tiny_http_text.specs.Lines.{has_crlf};
ghost use Rattle.tiny_http_response.specs.Readable.{IsReadable};

use tiny_http_head::common::Header;
use tiny_http_text::bytes::{cut, has_no_blank, is_trimmed};

// Returns whether the text contains CR LF.
fn has_crlf(text: &[u8]) -> bool
    ensures { result ≡ has_crlf text.now }
{
    for i in 1..text.len() {
        if text[i - 1] == b'\r' && text[i] == b'\n' {
            return true;
        }
    }
    false
}

// Returns whether the name has no white space and no colon.
fn is_readable_name(name: &[u8]) -> bool
    ensures { IsTrue result ↔ (HasNoBlank name.now × HasNo colon name.now) }
{
    has_no_blank(name) && cut(name, b':').is_none()
}

// Returns whether the value is trimmed and has no CR LF.
fn is_readable_value(value: &[u8]) -> bool
    ensures { IsTrue result ↔ (IsTrimmed value.now × (has_crlf value.now ≡ false)) }
{
    is_trimmed(value) && !has_crlf(value)
}

// Returns whether a client reads the header as intended. Its types ensure that its name and value are ASCII.
fn is_readable(header: &Header) -> bool
    ensures { IsTrue result ↔ IsReadable header.now }
{
    let name = header.field.as_str().as_str();
    let value = header.value.as_str();
    is_readable_name(name.as_bytes()) && is_readable_value(value.as_bytes())
}

// Returns whether a client reads each of these headers as intended.
pub(crate) fn are_readable(headers: &[Header]) -> bool
    ensures { IsTrue result ↔ AllByRecursion IsReadable headers.now }
{
    headers.iter().all(|header| is_readable(header))
}
