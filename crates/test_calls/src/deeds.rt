//! Parses the successive calls of a row. The line of a call is `+ NAME WORDS`.
use crate::row::Subject;
use crate::words::{number, split, text};
use replay_script::line::{ScriptLine, text_in};
use std::alloc::Global;
use std::io::ErrorKind;
use test_data_files::fault::LineFault;
use test_data_files::kinds::kind_of;
use test_data_files::text::text_of;

/// A 200 response whose data records how much of it is read.
#[derive(Drop)]
pub struct WatchedAnswer {
    /// The number of the request.
    pub number: u64,
    /// The stated length of the data, if any.
    pub length: Option<usize>,
    pub data: Vec<u8>,
    /// The error at the end of the data, if any.
    pub fault: Option<ErrorKind>,
}

/// One of the successive calls that a row makes on a value.
#[derive(Drop)]
pub enum Deed {
    /// `read_line` of a source.
    ReadLine,
    /// `read_line_within` with this limit.
    ReadLineWithin(usize),
    /// `skip` of this many bytes.
    Skip(usize),
    /// `take_exactly` of this many bytes.
    TakeExactly(usize),
    /// `read` of a source, into a buffer of this size.
    Read(usize),
    /// `Read::read`, into a buffer of this size.
    StdRead(usize),
    /// `ReadDevice::read_in`, into a buffer of this size.
    ReadIn(usize),
    /// `write` of an outlet.
    Write(Vec<u8>),
    /// `Write::write`.
    StdWrite(Vec<u8>),
    /// `Write::write_all`.
    WriteAll(Vec<u8>),
    /// `WriteDevice::write_out`.
    WriteOut(Vec<u8>),
    /// `flush` of an outlet.
    Flush,
    /// `Write::flush`.
    StdFlush,
    /// `WriteDevice::flush_out`.
    FlushOut,
    /// `end` of an outlet.
    End,
    /// `abandon` of an outlet.
    Abandon,
    /// `issue` of turns.
    Issue,
    /// `take` with this number.
    Take(u64),
    /// `put_back` with this number and item.
    PutBack(u64, u8),
    /// `finish` with this number and item.
    Finish(u64, u8),
    /// `leave` with this number and text.
    Leave(u64, Vec<u8>),
    /// `issue`, `take` and `finish`, this many times.
    Pass(u64),
    /// The step that this line of a script names.
    Script(String),
    /// `read_body` of the request with this number, into a buffer of this size.
    ReadBody(u64, usize),
    /// Responds to a request with data that records how much of it is read.
    Answer(WatchedAnswer),
    /// Upgrades the request with this number to this protocol, with a 200 whose data records how much of it is read.
    Upgrade(u64, String),
    /// `give_up` of the request with this number.
    GiveUp(u64),
    /// `is_open` of this number.
    IsOpen(u64),
    /// `next_number`.
    NextNumber,
}

const NO_CALL: LineFault = LineFault::Bad("the row's value has no such call");

// Parses a number. Returns it and the words after it.
fn number_before(words: &str) -> Result<(u64, &str), LineFault> {
    let (digits, rest) = split(words);
    Ok((number(digits)? as u64, rest))
}

// Parses a number and an item.
fn number_and_item(words: &str) -> Result<(u64, u8), LineFault> {
    let (number_of, rest) = number_before(words)?;
    match u8::try_from(number(rest)?) {
        Ok(item) => Ok((number_of, item)),
        Err(_) => Err(LineFault::Bad("an item is below 256")),
    }
}

// Parses a call on a reader.
fn reading(name: &str, words: &str) -> Result<Deed, LineFault> {
    match name {
        "read_line" if words.is_empty() => Ok(Deed::ReadLine),
        "read_line_within" => Ok(Deed::ReadLineWithin(number(words)?)),
        "skip" => Ok(Deed::Skip(number(words)?)),
        "take_exactly" => Ok(Deed::TakeExactly(number(words)?)),
        "read" => Ok(Deed::Read(number(words)?)),
        "Read::read" => Ok(Deed::StdRead(number(words)?)),
        "read_in" => Ok(Deed::ReadIn(number(words)?)),
        _ => Err(NO_CALL),
    }
}

// Parses a call on a writer.
fn writing(alloc: Global, name: &str, words: &str) -> Result<Deed, LineFault> {
    let bytes = text_of(alloc, words)?;
    match name {
        "write" => Ok(Deed::Write(bytes)),
        "Write::write" => Ok(Deed::StdWrite(bytes)),
        "write_all" => Ok(Deed::WriteAll(bytes)),
        "write_out" => Ok(Deed::WriteOut(bytes)),
        "flush" => Ok(Deed::Flush),
        "Write::flush" => Ok(Deed::StdFlush),
        "flush_out" => Ok(Deed::FlushOut),
        "end" => Ok(Deed::End),
        "abandon" => Ok(Deed::Abandon),
        _ => Err(NO_CALL),
    }
}

// Parses a call on a stream: one that reads or one that writes.
fn streaming(alloc: Global, name: &str, words: &str) -> Result<Deed, LineFault> {
    match name {
        "Read::read" | "read_in" => reading(name, words),
        _ => writing(alloc, name, words),
    }
}

// Parses a call on turns.
fn turning(alloc: Global, name: &str, words: &str) -> Result<Deed, LineFault> {
    match name {
        "issue" => Ok(Deed::Issue),
        "take" => Ok(Deed::Take(number(words)? as u64)),
        "put_back" => {
            let (number, item) = number_and_item(words)?;
            Ok(Deed::PutBack(number, item))
        }
        "finish" => {
            let (number, item) = number_and_item(words)?;
            Ok(Deed::Finish(number, item))
        }
        "leave" => {
            let (number, text) = number_before(words)?;
            Ok(Deed::Leave(number, text_of(alloc, text)?))
        }
        "pass" => Ok(Deed::Pass(number(words)? as u64)),
        _ => Err(NO_CALL),
    }
}

// Parses a response: the request's number, the content length or `-`, the error of the data or `-`, and the data.
fn answer_in(alloc: Global, words: &str) -> Result<Deed, LineFault> {
    let (number_of, words) = number_before(words)?;
    let (length, words) = split(words);
    let (fault, data) = split(words);
    let length = match length {
        "-" => None,
        _ => Some(number(length)?),
    };
    if fault != "-" && kind_of(fault).is_none() {
        return Err(LineFault::Bad("no such kind of fault"));
    }
    Ok(Deed::Answer(WatchedAnswer {
        number: number_of,
        length,
        data: text_of(alloc, data)?,
        fault: kind_of(fault),
    }))
}

// Parses a line of a script. Fails if it is blank, sets the date, or isn't a line of a script: such a line has no
// reply.
fn script_in(alloc: Global, part: &str) -> Result<Deed, LineFault> {
    let line = text(alloc, part)?;
    match text_in(line.as_str()) {
        None | Some(ScriptLine::Blank | ScriptLine::Now(_)) => Err(NO_CALL),
        Some(_) => Ok(Deed::Script(line)),
    }
}

// Parses a call on a connection, or on a request that is read without a connection.
fn conversing(alloc: Global, part: &str) -> Result<Deed, LineFault> {
    let (name, words) = split(part);
    match name {
        "answer" => answer_in(alloc, words),
        "upgrade_to" => {
            let (number, protocol) = number_before(words)?;
            Ok(Deed::Upgrade(number, text(alloc, protocol)?))
        }
        "read_body" => {
            let (number_of, room) = number_before(words)?;
            Ok(Deed::ReadBody(number_of, number(room)?))
        }
        "give_up" => Ok(Deed::GiveUp(number(words)? as u64)),
        "is_open" => Ok(Deed::IsOpen(number(words)? as u64)),
        "next_number" => Ok(Deed::NextNumber),
        _ => script_in(alloc, part),
    }
}

/// Parses a call on a value of this kind. Fails if it is not a call of the value's group: readers, writers, streams,
/// turns, or connections and requests. A call that the group has but the value lacks gets the reply `no such call`.
pub fn deed_in(alloc: Global, subject: Subject, part: &str) -> Result<Deed, LineFault> {
    let (name, words) = split(part);
    match subject {
        Subject::Source | Subject::EqualReader(_) | Subject::FusedReader => reading(name, words),
        Subject::Outlet => writing(alloc, name, words),
        Subject::CustomStream => streaming(alloc, name, words),
        Subject::Turns => turning(alloc, name, words),
        Subject::Exchange(_) if name.starts_with("Outlet::") => {
            writing(alloc, name.strip_prefix("Outlet::").unwrap_or(name), words)
        }
        Subject::Exchange(_) | Subject::Connection(_) => conversing(alloc, part),
    }
}
