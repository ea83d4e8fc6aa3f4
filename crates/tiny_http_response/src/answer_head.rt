//! The head of a response, line by line (RFC 9112, sections 4 and 5).
ghost use Rattle.std.specs.Prelude.{◌≡◌};
ghost use Rattle.std.specs.List.{flat_map};
ghost use Rattle.std.specs.Option.{option_copied};
ghost use Rattle.tiny_http_io.specs.Device.{Puts};
ghost use Rattle.tiny_http_response.specs.ResponseHead.{response_head_text, response_head_listed};
ghost use Rattle.tiny_http_response.specs.ByStandard.{status_version};
ghost use Rattle.tiny_http_response.specs.Answer.{has_header, status_line, field_line, field_line_of, protocol_lines};
ghost use Rattle.tiny_http_response.specs.Answer.{upgrade_lines, server_line, date_line, length_line, framing_line};

use crate::by_standard::{persistence_option, put_connection, put_safe_headers};
use crate::coding::FramingHeader;
use crate::page::Page;
use crate::response_context::Persistence;
use httpdate::HttpDate;
use std::io;
use tiny_http_head::common::{HTTPVersion, Header, StatusCode};
use tiny_http_io::device::{WriteDevice, put, put_all};
use tiny_http_text::ascii::AsciiString;
use tiny_http_text::number::Numeral;

/// The head of a response, apart from the header that frames its body.
#[derive(Clone, Copy)]
pub(crate) struct ResponseHead<'a> {
    /// The version of the request.
    pub(crate) version: HTTPVersion,
    /// The persistence that the response states for its connection, under `Profile::Standard`; `None` under any other
    /// profile.
    pub(crate) persistence: Option<Persistence>,
    pub(crate) status: StatusCode,
    pub(crate) headers: &'a [Header],
    /// The protocols that the response offers to upgrade to.
    pub(crate) offered: &'a Option<AsciiString>,
    pub(crate) date: HttpDate,
}

pub(crate) fn has_header(headers: &[Header], name: &str) -> bool
    ensures { result ≡ has_header headers.now name.now }
{
    headers.iter().any(|h| h.field.equiv(name))
}

// Writes a status line piece by piece: `HTTP/`, version, code and reason phrase.
#[tactic(auto, unfolding(crate::specs::Answer::status_line))]
fn put_other_status_line<W: WriteDevice>(
    writer: &mut W,
    version: HTTPVersion,
    status: StatusCode,
) -> Result<(), io::Error>
    ensures { Puts (W.sink writer.old) (W.sink writer.new) result (status_line version status.0) }
{
    let major = Numeral::decimal(version.0.into());
    let minor = Numeral::decimal(version.1.into());
    let code = Numeral::decimal(status.0.into());
    put_all(
        writer,
        &[
            b"HTTP/",
            major.as_bytes(),
            b".",
            minor.as_bytes(),
            b" ",
            code.as_bytes(),
            b" ",
            status.default_reason_phrase().as_bytes(),
            b"\r\n",
        ],
    )
}

// Writes the status line; for a 200 in version 1.1, in one piece.
fn put_status_line<W: WriteDevice>(
    writer: &mut W,
    version: HTTPVersion,
    status: StatusCode,
) -> Result<(), io::Error>
    ensures { Puts (W.sink writer.old) (W.sink writer.new) result (status_line version status.0) }
{
    if version == HTTPVersion(1, 1) && status == StatusCode(200) {
        return put(writer, b"HTTP/1.1 200 OK\r\n");
    }
    put_other_status_line(writer, version, status)
}

#[tactic(auto, unfolding(crate::specs::Answer::field_line))]
pub(crate) fn put_field<W: WriteDevice>(
    writer: &mut W,
    field: &[u8],
    value: &[u8],
) -> Result<(), io::Error>
    ensures { Puts (W.sink writer.old) (W.sink writer.new) result (field_line field.now value.now) }
{
    put_all(writer, &[field, b": ", value, b"\r\n"])
}

// Writes the field line of a header.
fn put_header<W: WriteDevice>(writer: &mut W, header: &Header) -> Result<(), io::Error>
    ensures { Puts (W.sink writer.old) (W.sink writer.new) result (field_line_of header.now) }
{
    let field = header.field.as_str();
    put_field(
        writer,
        field.as_str().as_bytes(),
        header.value.as_str().as_bytes(),
    )
}

fn put_headers<W: WriteDevice>(writer: &mut W, headers: &[Header]) -> Result<(), io::Error>
    ensures { Puts (W.sink writer.old) (W.sink writer.new) result (flat_map field_line_of headers.now) }
{
    for header in headers {
        put_header(writer, header)?;
    }
    Ok(())
}

// Writes the two field lines of an upgrade to a protocol (RFC 9110, section 7.8).
fn put_protocol<W: WriteDevice>(writer: &mut W, protocol: &str) -> Result<(), io::Error>
    ensures { Puts (W.sink writer.old) (W.sink writer.new) result (protocol_lines protocol.now) }
{
    put_field(writer, b"Connection", b"upgrade")?;
    put_field(writer, b"Upgrade", protocol.as_bytes())
}

// Writes the two field lines of an upgrade to a protocol, if there is an upgrade.
#[tactic(auto, unfolding(crate::specs::Answer::upgrade_lines))]
fn put_upgrade<W: WriteDevice>(writer: &mut W, upgrade: Option<&str>) -> Result<(), io::Error>
    ensures { Puts (W.sink writer.old) (W.sink writer.new) result (upgrade_lines (option_copied upgrade.entry)) }
{
    let Some(protocol) = upgrade else {
        return Ok(());
    };
    put_protocol(writer, protocol)
}

// Writes the `Server` header, unless the list has one.
#[tactic(auto, unfolding(crate::specs::Answer::server_line, crate::specs::Answer::field_line))]
fn put_server<W: WriteDevice>(writer: &mut W, headers: &[Header]) -> Result<(), io::Error>
    ensures { Puts (W.sink writer.old) (W.sink writer.new) result (server_line headers.now) }
{
    if has_header(headers, "Server") {
        return Ok(());
    }
    put(writer, b"Server: tiny-http (Rust)\r\n")
}

// Writes the `Date` header, unless the list has one.
#[tactic(auto, unfolding(crate::specs::Answer::date_line, crate::specs::Answer::field_line))]
fn put_date<W: WriteDevice>(
    writer: &mut W,
    headers: &[Header],
    now: HttpDate,
) -> Result<(), io::Error>
    ensures { Puts (W.sink writer.old) (W.sink writer.new) result (date_line headers.now now) }
{
    if has_header(headers, "Date") {
        return Ok(());
    }
    // The 29 bytes of this date are overwritten with `now`.
    let mut line = *b"Date: Thu, 01 Jan 1970 00:00:00 GMT\r\n";
    line[6..35].copy_from_slice(&now.to_bytes());
    put(writer, &line)
}

// Writes the `Content-Length` header.
#[tactic(auto, unfolding(crate::specs::Answer::field_line))]
fn put_length<W: WriteDevice>(writer: &mut W, n: usize) -> Result<(), io::Error>
    ensures { Puts (W.sink writer.old) (W.sink writer.new) result (length_line n) }
{
    let digits = Numeral::decimal(n as u64);
    put_all(writer, &[b"Content-Length: ", digits.as_bytes(), b"\r\n"])
}

// Writes the header that frames the body, if there is one.
#[tactic(auto, unfolding(crate::specs::Answer::framing_line))]
fn put_framing<W: WriteDevice>(writer: &mut W, framing: FramingHeader) -> Result<(), io::Error>
    ensures { Puts (W.sink writer.old) (W.sink writer.new) result (framing_line framing) }
{
    match framing {
        FramingHeader::Neither => Ok(()),
        FramingHeader::TransferEncoding => put_field(writer, b"Transfer-Encoding", b"chunked"),
        FramingHeader::ContentLength(n) => put_length(writer, n),
    }
}

// Writes the status line of a head, with the request's version, or with 1.1 under `Profile::Standard`.
fn put_status<W: WriteDevice>(writer: &mut W, head: &ResponseHead<'_>) -> Result<(), io::Error>
    ensures { Puts (W.sink writer.old) (W.sink writer.new) result
        (status_line (status_version head.now.persistence head.now.version) head.now.status.0) }
{
    match head.persistence {
        None => put_status_line(writer, head.version, head.status),
        Some(_) => put_status_line(writer, HTTPVersion(1, 1), head.status),
    }
}

// Writes the headers that the response lists, which come between `Date` and the framing header. Under
// `Profile::Standard` they are written by `put_safe_headers`, after `Connection` and `Upgrade` if these are needed; an
// upgrade and a response with a code below 200 have neither of them here.
fn put_listed<W: WriteDevice>(
    writer: &mut W,
    head: &ResponseHead<'_>,
    upgrade: Option<&str>,
) -> Result<(), io::Error>
    ensures { Puts (W.sink writer.old) (W.sink writer.new) result
        (flat_map field_line_of (response_head_listed head.now (option_copied upgrade.entry))) }
{
    let Some(persistence) = head.persistence else {
        return put_headers(writer, head.headers);
    };
    if upgrade.is_none() && head.status.0 >= 200 {
        put_connection(
            writer,
            head.offered,
            persistence_option(head.version, persistence),
        )?;
    }
    put_safe_headers(writer, head.headers)
}

// Writes a head line by line, and the empty line after it.
fn put_lines<W: WriteDevice>(
    writer: &mut W,
    head: &ResponseHead<'_>,
    upgrade: Option<&str>,
    framing: FramingHeader,
) -> Result<(), io::Error>
    ensures { Puts (W.sink writer.old) (W.sink writer.new) result
        (response_head_text head.now (option_copied upgrade.entry) framing) }
{
    put_status(writer, head)?;
    put_upgrade(writer, upgrade)?;
    put_server(writer, head.headers)?;
    put_date(writer, head.headers, head.date)?;
    put_listed(writer, head, upgrade)?;
    put_framing(writer, framing)?;
    put(writer, b"\r\n")
}

/// Writes the head of a response: status line, field lines and an empty line (RFC 9112, sections 4 and 5). Under
/// `Profile::Standard`, the status line has version 1.1, a header whose name isn't a token is omitted, and each other
/// takes one line. Unless this is an upgrade or the code is below 200, `Connection` is written if the connection
/// closes, if it persists and the request's version is at most 1.0, or if the response offers protocols, which
/// `Upgrade` then lists. A head of up to 512 bytes is one write.
pub(crate) fn put_head<W: WriteDevice>(
    writer: &mut W,
    head: &ResponseHead<'_>,
    upgrade: Option<&str>,
    framing: FramingHeader,
) -> Result<(), io::Error>
    ensures { Puts (W.sink writer.old) (W.sink writer.new) result
        (response_head_text head.now (option_copied upgrade.entry) framing) }
{
    let mut page = Page::new();
    match put_lines(&mut page, head, upgrade, framing) {
        Ok(()) => put(writer, page.as_slice()),
        Err(_) => put_lines(writer, head, upgrade, framing),
    }
}
