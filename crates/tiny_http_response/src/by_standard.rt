//! The parts of a response head that `Profile::Standard` determines: whether the connection persists, the protocols
//! that the response offers, each header on one line, and the framing of a response without content (RFC 9112, sections
//! 9.3, 9.6 and 11.1; RFC 9110, sections 5.5, 7.8 and 15).
ghost use Rattle.std.specs.Prelude.{◌≡◌, ◌∷◌, [], Some, option_map};
ghost use Rattle.std.specs.List.{flat_map};
ghost use Rattle.std.specs.Option.{option_copied};
ghost use Rattle.tiny_http_io.specs.Device.{Puts};
ghost use Rattle.tiny_http_response.specs.Answer.{field_line, field_line_of};
ghost use Rattle.tiny_http_response.specs.ByStandard.{persistence_option, connection_header, connection_headers};
ghost use Rattle.tiny_http_response.specs.ByStandard.{options_with_upgrade, safe_byte, safe_value, safe_headers};
ghost use Rattle.tiny_http_response.specs.ByStandard.{contentless_framing, framing_by_standard, has_no_content};
ghost use Rattle.tiny_http_response.specs.ByStandard.{framing_of_304};

use crate::answer_head::put_field;
use crate::coding::FramingHeader;
use crate::response_context::Persistence;
use httparse::{is_header_value, is_header_value_token, is_token};
use std::io;
use tiny_http_head::common::{HTTPVersion, Header, StatusCode};
use tiny_http_io::device::{WriteDevice, put, put_all};
use tiny_http_text::ascii::AsciiString;

// Returns the connection option to send: `close` if the connection closes; if it persists, `keep-alive` to a version up
// to 1.0 and none to a later one.
pub(crate) fn persistence_option(
    version: HTTPVersion,
    persistence: Persistence,
) -> Option<&'static str>
    ensures { option_copied result ≡ persistence_option version persistence }
{
    match persistence {
        Persistence::Close => Some("close"),
        Persistence::Persistent if version <= HTTPVersion(1, 0) => Some("keep-alive"),
        Persistence::Persistent => None,
    }
}

// Returns the byte, or a space if it isn't allowed in a field value.
fn safe_byte(byte: u8) -> u8
    ensures { result ≡ safe_byte byte }
{
    if is_header_value_token(byte) {
        byte
    } else {
        b' '
    }
}

// Writes a value byte by byte, with a space in place of each byte that isn't allowed in a field value.
fn put_replaced<W: WriteDevice>(writer: &mut W, value: &[u8]) -> Result<(), io::Error>
    ensures { Puts (W.sink writer.old) (W.sink writer.new) result (safe_value value.now) }
{
    for byte in value {
        put(writer, &[safe_byte(*byte)])?;
    }
    Ok(())
}

// Writes a field line byte by byte, with a space in place of each byte that isn't allowed in a field value.
fn put_replaced_field<W: WriteDevice>(
    writer: &mut W,
    field: &[u8],
    value: &[u8],
) -> Result<(), io::Error>
    ensures { Puts (W.sink writer.old) (W.sink writer.new) result (field_line field.now (safe_value value.now)) }
{
    put(writer, field)?;
    put(writer, b": ")?;
    put_replaced(writer, value)?;
    put(writer, b"\r\n")
}

// Writes a field line, with a space in place of each byte that isn't allowed in a field value. A value without such
// bytes is one write.
fn put_safe_field<W: WriteDevice>(
    writer: &mut W,
    field: &[u8],
    value: &[u8],
) -> Result<(), io::Error>
    ensures { Puts (W.sink writer.old) (W.sink writer.new) result (field_line field.now (safe_value value.now)) }
{
    if is_header_value(value) {
        return put_field(writer, field, value);
    }
    put_replaced_field(writer, field, value)
}

// Writes the field line of a header with a safe value, or nothing if its name isn't a token.
fn put_safe_header<W: WriteDevice>(writer: &mut W, header: &Header) -> Result<(), io::Error>
    ensures { Puts (W.sink writer.old) (W.sink writer.new) result
        (flat_map field_line_of (safe_headers (header.now ∷ []))) }
{
    let field = header.field.as_str();
    let field = field.as_str().as_bytes();
    if !is_token(field) {
        return Ok(());
    }
    put_safe_field(writer, field, header.value.as_str().as_bytes())
}

/// Writes the field lines of a list of headers. Omits those whose name isn't a token, and writes a space in place of
/// each byte that isn't allowed in a field value.
pub(crate) fn put_safe_headers<W: WriteDevice>(
    writer: &mut W,
    headers: &[Header],
) -> Result<(), io::Error>
    ensures { Puts (W.sink writer.old) (W.sink writer.new) result (flat_map field_line_of (safe_headers headers.now)) }
{
    for header in headers {
        put_safe_header(writer, header)?;
    }
    Ok(())
}

// Writes the `Connection` header of a response that offers protocols: `upgrade`, after the connection option if there
// is one.
fn put_options<W: WriteDevice>(writer: &mut W, option: Option<&str>) -> Result<(), io::Error>
    ensures { Puts (W.sink writer.old) (W.sink writer.new) result
        (field_line_of (connection_header (options_with_upgrade (option_copied option.entry)))) }
{
    match option {
        None => put_field(writer, b"Connection", b"upgrade"),
        Some(option) => put_all(
            writer,
            &[b"Connection: ", option.as_bytes(), b", upgrade\r\n"],
        ),
    }
}

// Writes `Connection` and `Upgrade` for a response that offers protocols, with this connection option if there is one.
fn put_offer<W: WriteDevice>(
    writer: &mut W,
    protocols: &str,
    option: Option<&str>,
) -> Result<(), io::Error>
    ensures { Puts (W.sink writer.old) (W.sink writer.new) result
        (flat_map field_line_of (connection_headers (Some (safe_value protocols.now)) (option_copied option.entry))) }
{
    put_options(writer, option)?;
    put_safe_field(writer, b"Upgrade", protocols.as_bytes())
}

/// Writes the headers that state whether the connection closes and that offer protocols, if there are any to write (RFC
/// 9112, section 9.6; RFC 9110, section 7.8).
pub(crate) fn put_connection<W: WriteDevice>(
    writer: &mut W,
    offered: &Option<AsciiString>,
    option: Option<&str>,
) -> Result<(), io::Error>
    ensures { Puts (W.sink writer.old) (W.sink writer.new) result
        (flat_map field_line_of (connection_headers (option_map safe_value offered.now) (option_copied option.entry))) }
{
    if let Some(protocols) = offered {
        return put_offer(writer, protocols.as_str(), option);
    }
    match option {
        Some(option) => put_field(writer, b"Connection", option.as_bytes()),
        None => Ok(()),
    }
}

// Returns the framing of a 304: the length of its data, if known and not 0.
fn framing_of_304(data_length: Option<usize>) -> FramingHeader
    ensures { result ≡ framing_of_304 data_length }
{
    match data_length {
        None | Some(0) => FramingHeader::Neither,
        Some(n) => FramingHeader::ContentLength(n),
    }
}

// Returns the framing of a response that is only a head because of its code, under `Profile::Standard` (RFC 9110,
// sections 8.6 and 15.3.6; RFC 9112, section 6.1): no framing header for a code below 200 or a 204, length 0 for a 205,
// and for a 304 the length of its data, if known and not 0. Returns `None` for any other code or profile.
fn framing_by_standard(
    persistence: Option<Persistence>,
    status: StatusCode,
    data_length: Option<usize>,
) -> Option<FramingHeader>
    ensures { result ≡ framing_by_standard persistence status.0 data_length }
{
    let _ = persistence?;
    if status.0 < 200 || status.0 == 204 {
        return Some(FramingHeader::Neither);
    }
    if status.0 == 205 {
        return Some(FramingHeader::ContentLength(0));
    }
    if status.0 == 304 {
        return Some(framing_of_304(data_length));
    }
    None
}

/// Returns whether responses with this code never have content (RFC 9110, section 6.4.1).
pub(crate) fn has_no_content(status: StatusCode) -> bool
    ensures { result ≡ has_no_content status.0 }
{
    (status.0 >= 100 && status.0 < 200) || status.0 == 204 || status.0 == 304
}

/// Returns the framing of a response that is only a head because of its code, or `None` if it isn't. With
/// `contentless`, a response whose code has no content has no framing header, under any profile. Any other response has
/// the framing that `framing_by_standard` returns, if any.
pub(crate) fn contentless_framing(
    persistence: Option<Persistence>,
    contentless: bool,
    status: StatusCode,
    data_length: Option<usize>,
) -> Option<FramingHeader>
    ensures { result ≡ contentless_framing persistence contentless status.0 data_length }
{
    if contentless && has_no_content(status) {
        return Some(FramingHeader::Neither);
    }
    framing_by_standard(persistence, status, data_length)
}
