//! Makes calls that parse a text, determine a transfer coding, or format a status, a version or a number.
use crate::findings::{add, add_shown};
use crate::row::{Choice, Finding, TextCall};
use std::alloc::{AllocError, Global};
use tiny_http_text::bytes::are_ascii;
use tiny_http_wire::coding::{Coding, asked_coding, choose};
use tiny_http_wire::common::{HTTPVersion, Header, HeaderField, Method, ParseError, StatusCode};
use tiny_http_wire::grammar::{parse_content_length, parse_header_line, parse_request_line};
use tiny_http_wire::header_value::{parse_element, parse_header_value};
use tiny_http_wire::number::Numeral;

// Adds that the text was refused.
fn add_refused(alloc: Global, to: &mut Vec<Finding>) -> Result<(), AllocError> {
    add(alloc, to, "refused", b"")
}

// Adds that the text was refused, or fails if memory couldn't be allocated.
fn add_fault(alloc: Global, to: &mut Vec<Finding>, fault: ParseError) -> Result<(), AllocError> {
    match fault {
        ParseError::Refused => add_refused(alloc, to),
        ParseError::Memory => Err(AllocError),
    }
}

// Adds an element's quality in thousandths, and its name.
fn add_element(
    alloc: Global,
    to: &mut Vec<Finding>,
    (name, quality): (&str, u32),
) -> Result<(), AllocError> {
    let mut text = format!(in alloc; "{quality} ")?;
    text.push_str(name)?;
    add(alloc, to, "element", text.as_bytes())
}

// Parses a header value, and adds its elements.
fn read_header_value(alloc: Global, text: &str, to: &mut Vec<Finding>) -> Result<(), AllocError> {
    let elements = parse_header_value(alloc, text)?;
    for element in elements.as_slice() {
        add_element(alloc, to, *element)?;
    }
    Ok(())
}

// Adds the name and the value of a header.
fn add_header(alloc: Global, to: &mut Vec<Finding>, header: &Header) -> Result<(), AllocError> {
    let name = header.field.as_str();
    add(alloc, to, "name", name.as_str().as_bytes())?;
    add(alloc, to, "value", header.value.as_str().as_bytes())
}

// Parses a header line, and adds its name and value, or that it is refused. Adds nothing if the line isn't ASCII.
fn read_header_line(alloc: Global, text: &str, to: &mut Vec<Finding>) -> Result<(), AllocError> {
    let line = text.as_bytes();
    if !are_ascii(line) {
        return Ok(());
    }
    match parse_header_line(alloc, line)? {
        Some(header) => add_header(alloc, to, &header),
        None => add_refused(alloc, to),
    }
}

// Parses a request line, and adds its parts, or that it is refused. Adds nothing if the line isn't ASCII.
fn read_request_line(alloc: Global, text: &str, to: &mut Vec<Finding>) -> Result<(), AllocError> {
    let line = text.as_bytes();
    if !are_ascii(line) {
        return Ok(());
    }
    let Some((method, target, version)) = parse_request_line(alloc, line)? else {
        return add_refused(alloc, to);
    };
    add(alloc, to, "method", method.as_str().as_bytes())?;
    add(alloc, to, "target", target.as_str().as_bytes())?;
    add_shown(alloc, to, "version", &version)
}

// Parses a content length, and adds it, or that it is refused.
fn read_length(alloc: Global, text: &str, to: &mut Vec<Finding>) -> Result<(), AllocError> {
    match parse_content_length(text) {
        Some(length) => add_shown(alloc, to, "length", &length),
        None => add_refused(alloc, to),
    }
}

// Parses a header, and adds its name and value, or that it is refused.
fn read_header(alloc: Global, text: &str, to: &mut Vec<Finding>) -> Result<(), AllocError> {
    match Header::from_str(alloc, text) {
        Ok(header) => add_header(alloc, to, &header),
        Err(fault) => add_fault(alloc, to, fault),
    }
}

// Parses the name of a header, and adds it, or that it is refused.
fn read_field(alloc: Global, text: &str, to: &mut Vec<Finding>) -> Result<(), AllocError> {
    match HeaderField::from_str(alloc, text) {
        Ok(field) => add(alloc, to, "name", field.as_str().as_str().as_bytes()),
        Err(fault) => add_fault(alloc, to, fault),
    }
}

// Adds the name of a method, as `method` or `nonstandard`.
fn add_method(alloc: Global, to: &mut Vec<Finding>, method: &Method) -> Result<(), AllocError> {
    let word = match method {
        Method::NonStandard(_) => "nonstandard",
        _ => "method",
    };
    add(alloc, to, word, method.as_str().as_bytes())
}

// Parses a method, and adds its name, or that it is refused.
fn read_method(alloc: Global, text: &str, to: &mut Vec<Finding>) -> Result<(), AllocError> {
    match Method::from_str(alloc, text) {
        Ok(method) => add_method(alloc, to, &method),
        Err(fault) => add_fault(alloc, to, fault),
    }
}

/// Makes a call that reads a text, and adds its results.
pub fn read_text(
    alloc: Global,
    call: TextCall,
    text: &str,
    to: &mut Vec<Finding>,
) -> Result<(), AllocError> {
    match call {
        TextCall::HeaderValue => read_header_value(alloc, text, to),
        TextCall::Element => add_element(alloc, to, parse_element(text)),
        TextCall::HeaderLine => read_header_line(alloc, text, to),
        TextCall::RequestLine => read_request_line(alloc, text, to),
        TextCall::ContentLength => read_length(alloc, text, to),
        TextCall::HeaderFromStr => read_header(alloc, text, to),
        TextCall::FieldFromStr => read_field(alloc, text, to),
        TextCall::MethodFromStr => read_method(alloc, text, to),
    }
}

// Adds a transfer coding, or that there is none.
fn add_coding(
    alloc: Global,
    to: &mut Vec<Finding>,
    coding: Option<Coding>,
) -> Result<(), AllocError> {
    let name = match coding {
        Some(Coding::Chunked) => "chunked",
        Some(Coding::Identity) => "identity",
        None => "-",
    };
    add(alloc, to, "coding", name.as_bytes())
}

/// Adds the transfer coding that a request with these headers asks for.
pub fn ask(alloc: Global, request: &[Header], to: &mut Vec<Finding>) -> Result<(), AllocError> {
    add_coding(alloc, to, asked_coding(request))
}

/// Adds the transfer coding that `choose` returns for this input.
pub fn choose_by(alloc: Global, choice: Choice, to: &mut Vec<Finding>) -> Result<(), AllocError> {
    let Choice {
        version,
        asked,
        status,
        length,
        threshold,
    } = choice;
    let coding = choose(version, asked, status, length, threshold);
    add_coding(alloc, to, Some(coding))
}

/// Adds the reason phrase of a status.
pub fn phrase(alloc: Global, status: StatusCode, to: &mut Vec<Finding>) -> Result<(), AllocError> {
    add(
        alloc,
        to,
        "phrase",
        status.default_reason_phrase().as_bytes(),
    )
}

/// Adds a version as it is displayed.
pub fn show(alloc: Global, version: HTTPVersion, to: &mut Vec<Finding>) -> Result<(), AllocError> {
    add_shown(alloc, to, "version", &version)
}

/// Adds a number in decimal and in hexadecimal.
pub fn write_number(alloc: Global, number: u64, to: &mut Vec<Finding>) -> Result<(), AllocError> {
    add(alloc, to, "decimal", Numeral::decimal(number).as_bytes())?;
    add(
        alloc,
        to,
        "hexadecimal",
        Numeral::hexadecimal(number).as_bytes(),
    )
}
