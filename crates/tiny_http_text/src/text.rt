//! Trimming and splitting strings.
ghost use Rattle.std.specs.Prelude.{◌≡◌, ◌<◌, ◌∷◌, ◌++◌, IfSome, IfNone};
ghost use Rattle.tiny_http_text.specs.Bytes.{HasNo, is_blank, skip_while, trimmed};

use crate::bytes;

/// Returns the text without leading white space (bytes 9 to 13 and 32).
pub fn trim_front(text: &str) -> &str
    ensures { result.now ≡ skip_while is_blank text.now }
{
    let front = bytes::trim_front(text.as_bytes());
    &text[text.len() - front.len()..]
}

/// Returns the text without leading and trailing white space (bytes 9 to 13 and 32).
pub fn trim(text: &str) -> &str
    ensures { result.now ≡ trimmed is_blank text.now }
{
    let front = trim_front(text);
    let core = bytes::trim_end(front.as_bytes());
    &front[..core.len()]
}

/// Splits the text at the first `c`, an ASCII character. Returns the text before it and the text after it, or `None` if
/// the text has no `c`.
pub fn cut(text: &str, c: char) -> Option<(&str, &str)>
    requires { c < 128 }
    ensures some { IfSome result (λ r. (text.now ≡ r.0.now ++ c ∷ r.1.now) × HasNo c r.0.now) }
    ensures none { IfNone result (HasNo c text.now) }
{
    text.split_once(c)
}
