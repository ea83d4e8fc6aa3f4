//! Field values as lists (RFC 9110, sections 5.3 and 5.6.1).
ghost use Rattle.std.specs.Prelude.{◌≡◌};
ghost use Rattle.std.specs.List.{list_any};
ghost use Rattle.tiny_http_head.specs.Common.{same_name};
ghost use Rattle.tiny_http_standard_head.specs.Lists.{between_commas, has_element};

use crate::validation::trim;
use tiny_http_head::common::Header;

// Returns whether an element equals a word, case-insensitively.
fn is_word(word: &str, element: &[u8]) -> bool
    ensures { result ≡ same_name element.now word.now }
{
    element.eq_ignore_ascii_case(word.as_bytes())
}

// Returns whether some element of the value is this word.
fn has_word(value: &str, word: &str) -> bool
    ensures { result ≡ list_any (λ element. same_name element word.now) (between_commas value.now) }
{
    for text in value.split(',') {
        if is_word(word, trim(text)) {
            return true;
        }
    }
    false
}

/// Returns whether the fields with this name list this word. All fields with this name form one list (RFC 9110, section
/// 5.3), whose elements are the texts between commas, stripped of spaces and tabs (RFC 9110, section 5.6.1). Name and
/// word are compared case-insensitively (ASCII). The word must equal the whole element, so an element with parameters
/// doesn't match a word without them. A comma in a quoted string separates elements, too. The empty word matches an
/// empty element.
pub fn has_element(headers: &[Header], name: &str, word: &str) -> bool
    ensures { result ≡ has_element name.now word.now headers.now }
{
    for header in headers {
        if header.field.equiv(name) && has_word(header.value.as_str(), word) {
            return true;
        }
    }
    false
}
