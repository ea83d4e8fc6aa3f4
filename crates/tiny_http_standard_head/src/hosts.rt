//! Hosts and ports (RFC 3986, section 3.2; RFC 9112, section 3.2).
ghost use Rattle.std.specs.Prelude.{◌≡◌, ◌≤◌, ◌<◌, ◌↔◌, ℕ, List, ◌∷◌, ◌++◌, length, drop, take, IsTrue, IfSome};
ghost use Rattle.std.specs.Prelude.{IfNone, slice_index};
ghost use Rattle.std.specs.List.{list_all};
ghost use Rattle.std.specs.Char.{is_ascii_digit};
ghost use Rattle.tiny_http_text.specs.Bytes.{HasNo};
ghost use Rattle.tiny_http_standard_head.specs.Hosts.{begins_with_two_hexadecimal_digits, is_registered_name_byte};
ghost use Rattle.tiny_http_standard_head.specs.Hosts.{is_registered_name, is_address_byte, IsBracketedAddress};
ghost use Rattle.tiny_http_standard_head.specs.Hosts.{IsHost, IsHostWithPort, IsHostValue, IsAuthority};
ghost use Rattle.tiny_http_standard_head.specs.Hosts.{is_port_number};

use tiny_http_head::content_length::number_in;

// Returns whether the text begins with two hexadecimal digits.
fn begins_with_two_hexadecimal_digits(text: &[u8]) -> bool
    ensures { result ≡ begins_with_two_hexadecimal_digits text.now }
{
    text.len() >= 2 && text[0].is_ascii_hexdigit() && text[1].is_ascii_hexdigit()
}

// Returns whether the byte is allowed unencoded in a registered name.
fn is_registered_name_byte(b: u8) -> bool
    ensures { result ≡ is_registered_name_byte b }
{
    b.is_ascii_alphanumeric() || b"-._~!$&'()*+,;=".contains(&b)
}

// Returns whether the text is a registered name, which may be empty.
fn is_registered_name(text: &[u8]) -> bool
    ensures { result ≡ is_registered_name text.now }
{
    for i in 0..text.len() {
        if !is_registered_name_byte(text[i])
            && !(text[i] == b'%' && begins_with_two_hexadecimal_digits(&text[i + 1..]))
        {
            return false;
        }
    }
    true
}

// Returns whether the byte is allowed in a bracketed address.
fn is_address_byte(b: u8) -> bool
    ensures { result ≡ is_address_byte b }
{
    b.is_ascii_hexdigit() || b == b':' || b == b'.'
}

// Returns whether all bytes are allowed in a bracketed address.
fn are_address_bytes(text: &[u8]) -> bool
    ensures { result ≡ list_all is_address_byte text.now }
{
    text.iter().all(|b| is_address_byte(*b))
}

// Returns whether the text is a bracketed address.
fn is_bracketed_address(text: &[u8]) -> bool
    ensures { IsTrue result ↔ IsBracketedAddress text.now }
{
    let n = text.len();
    if n < 3 || text[0] != b'[' || text[n - 1] != b']' {
        return false;
    }
    are_address_bytes(&text[1..n - 1])
}

/// Returns whether the text is a host (RFC 3986, section 3.2.2): either one or more bytes in brackets, each a
/// hexadecimal digit, `:` or `.`, not validated further; or a nonempty name in which each byte is an ASCII letter, a
/// digit, one of ``-._~!$&'()*+,;=``, or a `%` followed by two hexadecimal digits.
pub fn is_host(text: &[u8]) -> bool
    ensures { IsTrue result ↔ IsHost text.now }
{
    if text.is_empty() {
        return false;
    }
    if text[0] == b'[' {
        return is_bracketed_address(text);
    }
    is_registered_name(text)
}

// Splits the text at the last `c`. Returns the bytes before it and the bytes after it, or `None` if the text has no
// `c`.
fn cut_last(text: &[u8], c: u8) -> Option<(&[u8], &[u8])>
    ensures some { IfSome result (λ r. (text.now ≡ r.0.now ++ c ∷ r.1.now) × HasNo c r.1.now) }
    ensures none { IfNone result (HasNo c text.now) }
{
    let mut end = text.len();
    while end > 0 && text[end - 1] != c {
        end -= 1;
    }
    if end == 0 {
        return None;
    }
    Some((&text[..end - 1], &text[end..]))
}

// Returns whether the text has only digits; it may be empty.
fn are_digits(text: &[u8]) -> bool
    ensures { result ≡ list_all is_ascii_digit text.now }
{
    text.iter().all(|b| b.is_ascii_digit())
}

/// Returns whether the text is a host, optionally followed by a colon and any number of digits, even none (RFC 3986,
/// section 3.2). `:80` alone isn't one, nor is a host after user information, as in `user@host`.
pub fn is_host_with_port(text: &[u8]) -> bool
    ensures { IsTrue result ↔ IsHostWithPort text.now }
{
    if is_host(text) {
        return true;
    }
    match cut_last(text, b':') {
        Some((host, port)) => is_host(host) && are_digits(port),
        None => false,
    }
}

/// Returns whether the text is a valid `Host` value: empty, or a host with or without a port (RFC 9110, section 7.2;
/// RFC 9112, section 3.2).
pub fn is_host_value(text: &[u8]) -> bool
    ensures { IsTrue result ↔ IsHostValue text.now }
{
    text.is_empty() || is_host_with_port(text)
}

// Returns whether the number is present and from 1 to 65535.
fn is_port_number(number: Option<usize>) -> bool
    ensures { result ≡ is_port_number number }
{
    match number {
        Some(n) => n > 0 && n <= 65_535,
        None => false,
    }
}

/// Returns whether the text is a target of `CONNECT`: a host, a colon, and a port from 1 to 65535 (RFC 9112, section
/// 3.2.3; RFC 9110, section 9.3.6).
pub fn is_authority(text: &[u8]) -> bool
    ensures { IsTrue result ↔ IsAuthority text.now }
{
    match cut_last(text, b':') {
        Some((host, port)) => is_port_number(number_in(port)) && is_host(host),
        None => false,
    }
}
