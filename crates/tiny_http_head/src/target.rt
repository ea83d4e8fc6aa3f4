//! The path and the query of a request target (RFC 9112, section 3.2).
ghost use Rattle.std.specs.Prelude.{◌≡◌, IfSome, IfNone};
ghost use Rattle.std.specs.Option.{option_copied};
ghost use Rattle.std.specs.List.{list_all};
ghost use Rattle.tiny_http_head.specs.Target.{is_scheme_byte, is_scheme, HasScheme, HasNoScheme, FrontAndQuery};
ghost use Rattle.tiny_http_head.specs.Target.{AuthorityAndPath, TargetParts, IsPath, IsQuery};

use tiny_http_text::text::cut;

// Returns whether every byte may follow the first byte of a scheme.
fn are_scheme_bytes(text: &[u8]) -> bool
    ensures { result ≡ list_all is_scheme_byte text.now }
{
    text.iter()
        .all(|b| b.is_ascii_alphanumeric() || b"+-.".contains(b))
}

// Returns whether the text is a scheme (RFC 3986, section 3.1).
fn is_scheme(text: &[u8]) -> bool
    ensures { result ≡ is_scheme text.now }
{
    match text {
        [] => false,
        [first, more @ ..] => first.is_ascii_alphabetic() && are_scheme_bytes(more),
    }
}

// Returns the text after the scheme and `://`, if the target is in absolute form.
fn behind_scheme(target: &str) -> Option<&str>
    ensures some { IfSome result (λ behind. HasScheme target.now behind.now) }
    ensures none { IfNone result (HasNoScheme target.now) }
{
    let (scheme, rest) = cut(target, ':')?;
    if !is_scheme(scheme.as_bytes()) {
        return None;
    }
    rest.strip_prefix("//")
}

// Splits the text at the first question mark into the text before it and the query after it, if there is one.
fn front_and_query(text: &str) -> (&str, Option<&str>)
    ensures { FrontAndQuery text.now result.0.now (option_copied result.1) }
{
    match cut(text, '?') {
        Some((front, query)) => (front, Some(query)),
        None => (text, None),
    }
}

// Returns the path that follows an authority: the text from the first slash on, or `/` if there is no slash.
fn behind_authority(text: &str) -> &str
    ensures { AuthorityAndPath text.now result.now }
{
    match cut(text, '/') {
        Some((authority, _)) => &text[authority.len()..],
        None => "/",
    }
}

// Splits a request target into its path and its query.
fn parts_of(target: &str) -> (&str, Option<&str>)
    ensures { TargetParts target.now result.0.now (option_copied result.1) }
{
    let Some(behind) = behind_scheme(target) else {
        return front_and_query(target);
    };
    let (front, query) = front_and_query(behind);
    (behind_authority(front), query)
}

/// Returns the path of a request target, without its query (RFC 9112, section 3.2). The path is a part of the target as
/// sent: percent-encoded, with its fragment if there is one, and with `.` and `..` segments. The path of `/a?b` is
/// `/a`. In absolute form the path follows the scheme and the authority: the path of `http://host/a?b` is `/a`, and an
/// empty one becomes `/` (RFC 9110, section 4.2.3). For `*`, a host with a port, and any other text that begins neither
/// with a slash nor with a scheme and `://`, the path is everything before the first question mark.
pub fn path_of(target: &str) -> &str
    ensures { IsPath target.now result.now }
{
    parts_of(target).0
}

/// Returns the query of a request target: the text after its first question mark, which may be empty (RFC 9112, section
/// 3.2; RFC 3986, section 3.4). The query is returned as sent, with its fragment if there is one. Returns `None` if
/// there is no question mark.
pub fn query_of(target: &str) -> Option<&str>
    ensures { IsQuery target.now (option_copied result) }
{
    parts_of(target).1
}
