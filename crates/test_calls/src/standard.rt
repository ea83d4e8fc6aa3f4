//! Makes calls that parse or validate a head, or a part of one, under `Standard`.
use crate::findings::{add, add_shown};
use crate::row::Finding;
use std::alloc::{AllocError, Global};
use tiny_http_standard_head::heads::{StandardFault, StandardRead, read_head};
use tiny_http_standard_head::hosts::{is_authority, is_host, is_host_value};
use tiny_http_standard_head::lines::{parse_field_line, parse_request_line};
use tiny_http_standard_head::validation::{HeadSummary, validate};
use tiny_http_wire::common::{HTTPVersion, Header, Method};

/// Parses a request line, and adds its parts, or that it is refused.
pub fn read_request_line(
    alloc: Global,
    line: &[u8],
    to: &mut Vec<Finding>,
) -> Result<(), AllocError> {
    let Some((method, target, version)) = parse_request_line(alloc, line)? else {
        return add(alloc, to, "refused", b"");
    };
    add(alloc, to, "method", method.as_str().as_bytes())?;
    add(alloc, to, "target", target.as_str().as_bytes())?;
    add_shown(alloc, to, "version", &version)
}

/// Parses a field line, and adds its name and value, or that it is refused.
pub fn read_field_line(
    alloc: Global,
    line: &[u8],
    to: &mut Vec<Finding>,
) -> Result<(), AllocError> {
    let Some(header) = parse_field_line(alloc, line)? else {
        return add(alloc, to, "refused", b"");
    };
    let name = header.field.as_str();
    add(alloc, to, "name", name.as_str().as_bytes())?;
    add(alloc, to, "value", header.value.as_str().as_bytes())
}

// Adds `word` if `holds`.
fn add_if(
    alloc: Global,
    to: &mut Vec<Finding>,
    word: &'static str,
    holds: bool,
) -> Result<(), AllocError> {
    if holds {
        return add(alloc, to, word, b"");
    }
    Ok(())
}

/// Adds `host` if the text is a host, `host-value` if it is a valid value of a Host field, and `authority` if it is a
/// valid target of a `CONNECT`, or `refused` if it is none of these.
pub fn validate_host(alloc: Global, text: &[u8], to: &mut Vec<Finding>) -> Result<(), AllocError> {
    add_if(alloc, to, "host", is_host(text))?;
    add_if(alloc, to, "host-value", is_host_value(text))?;
    add_if(alloc, to, "authority", is_authority(text))?;
    add_if(alloc, to, "refused", to.is_empty())
}

// Adds the summary of a head.
fn add_head(alloc: Global, to: &mut Vec<Finding>, head: HeadSummary) -> Result<(), AllocError> {
    add(alloc, to, "served", b"")?;
    if let Some(length) = head.body_length {
        add_shown(alloc, to, "length", &length)?;
    }
    add_if(alloc, to, "chunked", head.is_chunked)?;
    add_if(alloc, to, "continue", head.owes_continue)?;
    add_if(alloc, to, "asks-upgrade", head.asks_upgrade)?;
    add_if(alloc, to, "last", head.is_last)
}

/// Validates a head with this version, method and headers. Adds its summary, or the status with which it is refused.
pub fn validate_head(
    alloc: Global,
    version: HTTPVersion,
    method: &Method,
    headers: &[Header],
    to: &mut Vec<Finding>,
) -> Result<(), AllocError> {
    match validate(version, method, headers) {
        Ok(head) => add_head(alloc, to, head),
        Err(refusal) => add_shown(
            alloc,
            to,
            "refused",
            &StandardFault::Invalid(refusal).status(),
        ),
    }
}

/// Reads the head at the start of a client's bytes. The head may have at most `limit` bytes. Adds a complete head, with
/// its length and summary; or the status with which the head is refused; or that the head is incomplete, and whether it
/// has begun.
pub fn read_first_head(
    alloc: Global,
    limit: usize,
    bytes: &[u8],
    to: &mut Vec<Finding>,
) -> Result<(), AllocError> {
    let head = match read_head(alloc, bytes, limit)? {
        StandardRead::Whole(head) => head,
        StandardRead::Refused(fault) => return add_shown(alloc, to, "refused", &fault.status()),
        StandardRead::Unfinished { has_begun: true } => return add(
            alloc,
            to,
            "unfinished",
            b"begun",
        ),
        StandardRead::Unfinished { has_begun: false } => return add(alloc, to, "unfinished", b""),
    };
    add_shown(alloc, to, "taken", &head.length)?;
    add(alloc, to, "method", head.method.as_str().as_bytes())?;
    add(alloc, to, "target", head.target.as_str().as_bytes())?;
    add_shown(alloc, to, "version", &head.version)?;
    for header in &head.headers {
        add(alloc, to, "name", header.field.as_str().as_str().as_bytes())?;
        add(alloc, to, "value", header.value.as_str().as_bytes())?;
    }
    add_head(alloc, to, head.summary)
}
