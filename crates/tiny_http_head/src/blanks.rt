//! White space around a field value and around list elements (RFC 9110, sections 5.5 and 5.6.1).
ghost use Rattle.std.specs.Prelude.{◌≡◌};
ghost use Rattle.httparse.specs.Grammar.{is_ows};
ghost use Rattle.tiny_http_text.specs.Bytes.{skip_while, skip_end_while, trimmed};

use httparse::is_space_or_tab;
use tiny_http_text::bytes;

/// The bytes that are stripped from around a list element.
#[derive(Clone, Copy, Debug, PartialEq, Eq)]
pub enum Blanks {
    /// Space and tab (RFC 9110, section 5.6.3).
    SpaceAndTab,
    /// Bytes 9 to 13 and 32, which the Rust crate strips.
    WhiteSpace,
}

impl Blanks {
    ghost use Rattle.tiny_http_head.specs.Lists.{is_left_out};

    /// Strips these bytes from both ends of the text. The function is inlined, so that a constant variant selects the
    /// loops at compile time.
    #[inline(always)]
    pub fn trim(self, text: &[u8]) -> &[u8]
        ensures { result.now ≡ trimmed (is_left_out self) text.now }
    {
        match self {
            Blanks::SpaceAndTab => trim_space_and_tab(text),
            Blanks::WhiteSpace => bytes::trim(text),
        }
    }
}

// Strips trailing spaces and tabs.
fn trim_end(text: &[u8]) -> &[u8]
    ensures { result.now ≡ skip_end_while is_ows text.now }
{
    let mut end = text.len();
    while end > 0 && is_space_or_tab(text[end - 1]) {
        end -= 1;
    }
    &text[..end]
}

// Strips leading spaces and tabs.
fn trim_front(text: &[u8]) -> &[u8]
    ensures { result.now ≡ skip_while is_ows text.now }
{
    let mut start = 0;
    while start < text.len() && is_space_or_tab(text[start]) {
        start += 1;
    }
    &text[start..]
}

/// Strips spaces and tabs from both ends of the text (RFC 9110, section 5.6.3).
pub fn trim_space_and_tab(text: &[u8]) -> &[u8]
    ensures { result.now ≡ trimmed is_ows text.now }
{
    trim_end(trim_front(text))
}
