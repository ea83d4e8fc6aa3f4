//! Parses the first line of a row, which names its call.
use crate::row::{Call, Choice, Subject, TextCall};
use crate::words::{coding, number, number_or_none, numbers, split, status, text, version};
use std::alloc::{AllocError, Global};
use test_data_files::fault::LineFault;
use tiny_http_core::framing::Profile;
use tiny_http_core::turns::TurnsError;
use tiny_http_core::upgrading::UpgradeError;
use tiny_http_wire::chunked::ChunkRules;
use tiny_http_wire::common::{Method, ParseError};

// The calls whose only input is a text, by their names.
const TEXT_CALLS: [(&str, TextCall); 8] = [
    ("parse_header_value", TextCall::HeaderValue),
    ("parse_element", TextCall::Element),
    ("parse_header_line", TextCall::HeaderLine),
    ("parse_request_line", TextCall::RequestLine),
    ("parse_content_length", TextCall::ContentLength),
    ("Header::from_str", TextCall::HeaderFromStr),
    ("HeaderField::from_str", TextCall::FieldFromStr),
    ("Method::from_str", TextCall::MethodFromStr),
];

// Returns the call of this name, if its only input is a text.
fn text_call(name: &str) -> Option<TextCall> {
    for (known, call) in &TEXT_CALLS {
        if *known == name {
            return Some(*call);
        }
    }
    None
}

// Parses a method.
fn method(alloc: Global, name: &str) -> Result<Method, LineFault> {
    match Method::from_str(alloc, name) {
        Ok(method) => Ok(method),
        Err(ParseError::Refused) => Err(LineFault::Bad("a method is ASCII")),
        Err(ParseError::Memory) => Err(LineFault::OutOfMemory),
    }
}

// Parses one or more methods, separated by single spaces.
fn methods(alloc: Global, words: &str) -> Result<Vec<Method>, LineFault> {
    let mut list = Vec::new(alloc);
    for word in words.split(' ') {
        let method = method(alloc, word)?;
        list.push(method).map_err(AllocError::from)?;
    }
    Ok(list)
}

// Parses one or more piece sizes, of at least one byte each.
fn sizes(alloc: Global, words: &str) -> Result<Vec<usize>, LineFault> {
    let sizes = numbers(alloc, words)?;
    if sizes.iter().any(|size| *size == 0) {
        return Err(LineFault::Bad("a piece has at least one byte"));
    }
    Ok(sizes)
}

// Parses the input of `choose`: the version, the requested coding, the status, the length and the threshold.
fn choice(words: &str) -> Result<Choice, LineFault> {
    let (version_word, words) = split(words);
    let (asked, words) = split(words);
    let (status_word, words) = split(words);
    let (length, threshold) = split(words);
    Ok(Choice {
        version: version(version_word)?,
        asked: coding(asked)?,
        status: status(status_word)?,
        length: number_or_none(length)?,
        threshold: number(threshold)?,
    })
}

// Parses the version and the method of a head to validate.
fn validated(alloc: Global, words: &str) -> Result<Call, LineFault> {
    let (version_word, name) = split(words);
    Ok(Call::Validate(version(version_word)?, method(alloc, name)?))
}

// Parses the rules of a decoder, which are `Lenient` if there are no words.
fn chunk_rules(words: &str) -> Result<ChunkRules, LineFault> {
    match words {
        "" => Ok(ChunkRules::Lenient),
        "standard" => Ok(ChunkRules::Standard),
        _ => Err(LineFault::Bad("a decoder's rules are standard, or not named")),
    }
}

// Parses a profile, which is `Lenient` if there are no words.
fn profile(words: &str) -> Result<Profile, LineFault> {
    match words {
        "" => Ok(Profile::Lenient),
        "strict" => Ok(Profile::Strict),
        "standard" => Ok(Profile::Standard),
        _ => Err(LineFault::Bad("a row names no profile but strict and standard")),
    }
}

const NO_ERROR: LineFault = LineFault::Bad("no error has this name");

// Returns the upgrade error of this name.
fn upgrade_error(name: &str) -> Result<UpgradeError, LineFault> {
    match name {
        "Protocol" => Ok(UpgradeError::Protocol),
        "NotAsked" => Ok(UpgradeError::NotAsked),
        "Status" => Ok(UpgradeError::Status),
        "UnfinishedBody" => Ok(UpgradeError::UnfinishedBody),
        _ => Err(NO_ERROR),
    }
}

// Returns the `TurnsError` of this name.
fn turns_error(name: &str) -> Result<TurnsError, LineFault> {
    match name {
        "Memory" => Ok(TurnsError::Memory),
        "Exhausted" => Ok(TurnsError::Exhausted),
        _ => Err(NO_ERROR),
    }
}

// Returns the call of this name, if it takes no words.
fn bare_call(name: &str) -> Option<Call> {
    match name {
        "read_answer_head" => Some(Call::AnswerHead),
        "put_chunk" => Some(Call::PutChunk),
        "put_chunked" => Some(Call::PutChunked),
        "asked_coding" => Some(Call::AskedCoding),
        "add_header" => Some(Call::AddHeader),
        "lines::parse_request_line" => Some(Call::StandardRequestLine),
        "lines::parse_field_line" => Some(Call::StandardFieldLine),
        "hosts" => Some(Call::Host),
        "greeter" => Some(Call::Greeter),
        "Source" => Some(Call::Each(Subject::Source)),
        "FusedReader" => Some(Call::Each(Subject::FusedReader)),
        "Outlet" => Some(Call::Each(Subject::Outlet)),
        "CustomStream" => Some(Call::Each(Subject::CustomStream)),
        "Turns" => Some(Call::Each(Subject::Turns)),
        _ => None,
    }
}

// Parses the words of a call that takes words. Fails if no such call has this name.
fn worded_call(alloc: Global, name: &str, words: &str) -> Result<Call, LineFault> {
    match name {
        "Decoder" => Ok(Call::Decoder(chunk_rules(words)?)),
        "read_answer" => Ok(Call::Answers(methods(alloc, words)?)),
        "Encoder" => Ok(Call::Encoder(sizes(alloc, words)?)),
        "choose" => Ok(Call::Choose(choice(words)?)),
        "raw_print" => Ok(Call::RawPrint(status(words)?)),
        "default_reason_phrase" => Ok(Call::Phrase(status(words)?)),
        "HTTPVersion" => Ok(Call::Version(version(words)?)),
        "validate" => validated(alloc, words),
        "heads::read_head" => Ok(Call::ReadHead(number(words)?)),
        "Numeral" => Ok(Call::Numeral(number(words)? as u64)),
        "print" => Ok(Call::Print(status(words)?)),
        "EqualReader" => Ok(Call::Each(Subject::EqualReader(number(words)?))),
        "Exchange" => Ok(Call::Each(Subject::Exchange(profile(words)?))),
        "Connection" => Ok(Call::Each(Subject::Connection(profile(words)?))),
        "ByNumber" => Ok(Call::ByNumber(number(words)? as u64)),
        "UpgradeError" => Ok(Call::UpgradeError(upgrade_error(words)?)),
        "TurnsError" => Ok(Call::TurnsError(turns_error(words)?)),
        _ => Err(LineFault::Bad("no call has this name")),
    }
}

/// Parses the first line of a row.
pub fn call_in(alloc: Global, line: &str) -> Result<Call, LineFault> {
    let (name, words) = split(line);
    if let Some(call) = text_call(name) {
        let text = text(alloc, words)?;
        if call == TextCall::RequestLine || call == TextCall::HeaderLine {
            if !text.as_str().is_ascii() {
                return Err(LineFault::Bad("such a line is ASCII"));
            }
        }
        return Ok(Call::Text(call, text));
    }
    match bare_call(name) {
        Some(call) if words.is_empty() => Ok(call),
        Some(_) => Err(LineFault::Bad("this call takes no words")),
        None => worded_call(alloc, name, words),
    }
}
