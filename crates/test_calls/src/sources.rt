//! Makes successive calls on sources, on parts of sources (each an `EqualReader`), and on fused readers.
use crate::bodies::drain;
use crate::deeds::Deed;
use crate::devices::Client;
use crate::findings::{add, add_shown};
use crate::replies::{add_reply, add_rest, done, faulty, given, unfit};
use crate::row::{Finding, Input};
use std::alloc::{AllocError, Global};
use std::io;
use std::io::{ErrorKind, Read};
use tiny_http_core::equal_reader::EqualReader;
use tiny_http_core::fused_reader::FusedReader;
use tiny_http_core::source::{LineFault, Source};
use tiny_http_wire::ascii::AsciiString;
use tiny_http_wire::device::ReadDevice;

// Allocates a buffer of this size.
fn room_of(alloc: Global, room: usize) -> Result<Vec<u8>, AllocError> {
    let mut bytes = Vec::new(alloc);
    bytes.resize(room, 0)?;
    Ok(bytes)
}

// Formats the result of a read into `buf`.
fn read_reply(
    alloc: Global,
    outcome: io::Result<usize>,
    buf: &[u8],
) -> Result<Vec<u8>, AllocError> {
    match outcome {
        Ok(n) => given(alloc, buf.get(..n).unwrap_or_default()),
        Err(fault) => faulty(alloc, fault.kind()),
    }
}

/// Reads from a reader through `Read` or `ReadDevice`, and formats the result. For any other call, formats that the
/// reader has no such call.
pub fn read_by<R: ReadDevice + Read>(
    alloc: Global,
    reader: &mut R,
    deed: &Deed,
) -> Result<Vec<u8>, AllocError> {
    match deed {
        Deed::StdRead(room) => {
            let mut buf = room_of(alloc, *room)?;
            let outcome = reader.read(buf.as_mut_slice());
            read_reply(alloc, outcome, buf.as_slice())
        }
        Deed::ReadIn(room) => {
            let mut buf = room_of(alloc, *room)?;
            let outcome = reader.read_in(buf.as_mut_slice());
            read_reply(alloc, outcome, buf.as_slice())
        }
        _ => unfit(alloc),
    }
}

// Formats a line, or why there is none.
fn line_reply(
    alloc: Global,
    outcome: Result<AsciiString, LineFault>,
) -> Result<Vec<u8>, AllocError> {
    let why = match outcome {
        Ok(line) if line.as_str().is_empty() => "line",
        Ok(line) => return Ok(format!(in alloc; "line {line}")?.into_bytes()),
        Err(LineFault::End) => "no line: end",
        Err(LineFault::NotAscii) => "no line: not ASCII",
        Err(LineFault::TooLong) => "no line: too long",
        Err(LineFault::TimedOut) => return faulty(alloc, ErrorKind::TimedOut),
        Err(LineFault::Broken(kind)) => return faulty(alloc, kind),
        Err(LineFault::Memory) => "memory",
    };
    why.as_bytes().to_vec(alloc)
}

// Makes a call on a source. Formats the result.
fn call_source(
    alloc: Global,
    source: &mut Source<Client>,
    deed: &Deed,
) -> Result<Vec<u8>, AllocError> {
    match deed {
        Deed::ReadLine => line_reply(alloc, source.read_line(alloc)),
        Deed::ReadLineWithin(left) => line_reply(alloc, source.read_line_within(alloc, *left)),
        Deed::Skip(count) => {
            source.skip(*count);
            done(alloc)
        }
        Deed::TakeExactly(count) => match source.take_exactly(alloc, *count)? {
            Some(bytes) => given(alloc, bytes.as_slice()),
            None => b"cut".to_vec(alloc),
        },
        Deed::Read(room) => {
            let mut buf = room_of(alloc, *room)?;
            let outcome = source.read(buf.as_mut_slice());
            read_reply(alloc, outcome, buf.as_slice())
        }
        _ => read_by(alloc, source, deed),
    }
}

// Makes the first `count` calls on a new source. Adds the result of the last call, and the number of reads from the
// client. If there are fewer than `count` calls, adds instead what is left in the source.
fn call_front(
    alloc: Global,
    input: &Input,
    (most, count): (usize, usize),
    to: &mut Vec<Finding>,
) -> Result<(), AllocError> {
    let mut source = Source::new(Client::new(alloc, input, most)?);
    let mut reply = Vec::new(alloc);
    for deed in input.deeds.iter().take(count) {
        reply = call_source(alloc, &mut source, deed)?;
    }
    if count > input.deeds.len() {
        return add_rest(alloc, &mut source, to);
    }
    add_reply(alloc, to, reply.as_slice())?;
    let calls = source.into_inner().calls();
    add_shown(alloc, to, "called", &calls)
}

/// Makes calls on a source. Adds the result of each, with the number of reads from the client by then, and finally what
/// is left. A source does not expose its client, so for each call a new source repeats the earlier calls first.
pub fn call_sources(
    alloc: Global,
    input: &Input,
    most: usize,
    to: &mut Vec<Finding>,
) -> Result<(), AllocError> {
    for count in 1..=input.deeds.len().saturating_add(1) {
        call_front(alloc, input, (most, count), to)?;
    }
    Ok(())
}

// Reads from a part of a source, adds the results, and drops the part.
fn read_part(
    alloc: Global,
    source: &mut Source<Client>,
    (size, deeds): (usize, &[Deed]),
    to: &mut Vec<Finding>,
) -> Result<(), AllocError> {
    let mut part = EqualReader::new(source, size);
    for deed in deeds {
        let reply = read_by(alloc, &mut part, deed)?;
        add_reply(alloc, to, reply.as_slice())?;
    }
    Ok(())
}

// Finishes an unread part of a new source. Adds what is left in the source.
fn finish_part(
    alloc: Global,
    input: &Input,
    (size, most): (usize, usize),
    to: &mut Vec<Finding>,
) -> Result<(), AllocError> {
    let source = Source::new(Client::new(alloc, input, most)?);
    let mut source = EqualReader::new(source, size).finish();
    let (left, _) = drain(alloc, &mut source)?;
    add(alloc, to, "left", left.as_slice())
}

/// Reads from a part of a source. Adds the results, what is left in the source after the part is dropped, and what is
/// left in a new source after an unread part of it is finished.
pub fn read_parts(
    alloc: Global,
    input: &Input,
    (size, most): (usize, usize),
    to: &mut Vec<Finding>,
) -> Result<(), AllocError> {
    let mut source = Source::new(Client::new(alloc, input, most)?);
    read_part(alloc, &mut source, (size, input.deeds.as_slice()), to)?;
    add_rest(alloc, &mut source, to)?;
    finish_part(alloc, input, (size, most), to)
}

/// Reads from a fused reader. Adds the results, and then the number of reads from its inner reader, or `ended` if the
/// fused reader has dropped the inner reader.
pub fn read_fused(
    alloc: Global,
    input: &Input,
    most: usize,
    to: &mut Vec<Finding>,
) -> Result<(), AllocError> {
    let mut fused = FusedReader::new(Client::new(alloc, input, most)?);
    for deed in &input.deeds {
        let reply = read_by(alloc, &mut fused, deed)?;
        add_reply(alloc, to, reply.as_slice())?;
    }
    match fused.into_inner() {
        Some(client) => add_shown(alloc, to, "called", &client.calls()),
        None => add(alloc, to, "ended", b""),
    }
}
