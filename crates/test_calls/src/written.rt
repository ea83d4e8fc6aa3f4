//! Prints responses, and writes bodies in chunks.
use crate::bodies::{add_left, data_of};
use crate::devices::Watched;
use crate::findings::{add, add_kind, add_shown, add_some};
use crate::row::{Finding, Input};
use replay_script::script::first_date;
use std::alloc::{AllocError, Global};
use std::io;
use std::io::{ErrorKind, Write};
use test_case_files::case::Room;
use test_case_files::devices::Trier;
use tiny_http_body::chunks::{put_chunk, put_chunked};
use tiny_http_wire::common::{HTTPVersion, StatusCode};
use tiny_http_wire::device::{Canned, Metered, WriteDevice};
use tiny_http_wire::encoder::Encoder;
use tiny_http_wire::response::Response;
use tiny_http_wire::response_context::{Persistence, ResponseContext};

// Creates a writer with this room, or without a limit if there is none.
fn writer_of(alloc: Global, room: Option<Room>) -> Metered<Trier> {
    match room {
        Some(room) => Metered::new(Trier::with_room(alloc, room.bytes, room.fault)),
        None => Metered::new(Trier::with_room(alloc, usize::MAX, ErrorKind::Other)),
    }
}

// Adds a count, unless it is 0.
fn add_count(
    alloc: Global,
    to: &mut Vec<Finding>,
    word: &'static str,
    count: u64,
) -> Result<(), AllocError> {
    if count == 0 {
        return Ok(());
    }
    add_shown(alloc, to, word, &count)
}

// Adds what was written, the reported error, the number of failures, and the number of calls after the first failure.
fn add_written(
    alloc: Global,
    to: &mut Vec<Finding>,
    writer: Metered<Trier>,
    outcome: io::Result<()>,
) -> Result<(), AllocError> {
    let failures = writer.failures();
    let writer = writer.into_inner();
    add_some(alloc, to, "output", writer.taken())?;
    if let Err(fault) = outcome {
        add_kind(alloc, to, "fault", fault.kind())?;
    }
    add_count(alloc, to, "failed", failures)?;
    add_count(alloc, to, "later", writer.later())
}

/// Writes bytes as one chunk, and adds the results. If there are no bytes, does nothing.
pub fn write_chunk(alloc: Global, input: &Input, to: &mut Vec<Finding>) -> Result<(), AllocError> {
    let bytes = input.bytes.as_slice();
    if bytes.is_empty() {
        return Ok(());
    }
    let mut writer = writer_of(alloc, None);
    let outcome = put_chunk(&mut writer, bytes);
    add_written(alloc, to, writer, outcome)
}

/// Writes data in chunks, and adds the results.
pub fn write_chunked(
    alloc: Global,
    input: &Input,
    room: Option<Room>,
    to: &mut Vec<Finding>,
) -> Result<(), AllocError> {
    let mut data = data_of(alloc, input)?;
    let mut writer = writer_of(alloc, room);
    let outcome = put_chunked(&mut data, &mut writer);
    add_written(alloc, to, writer, outcome)
}

// Writes a piece, and then, if `has_flushes` is set, flushes and writes an empty piece.
fn write_piece<W: Write>(writer: &mut W, piece: &[u8], has_flushes: bool) -> io::Result<()> {
    writer.write_all(piece)?;
    if has_flushes {
        writer.flush()?;
        writer.write(b"")?;
    }
    Ok(())
}

// Writes the bytes, at most `piece` at a time.
fn write_pieces<W: Write>(writer: &mut W, input: &Input, piece: usize) -> io::Result<()> {
    let mut rest = input.bytes.as_slice();
    for _ in 0..input.bytes.len() {
        if rest.is_empty() {
            break;
        }
        let (front, behind) = rest.split_at(piece.min(rest.len()));
        write_piece(writer, front, input.has_flushes)?;
        rest = behind;
    }
    Ok(())
}

// Passes the bytes to an encoder over the writer, and finishes the body unless the row leaves it open.
fn give(writer: &mut Metered<Trier>, input: &Input, piece: usize) -> io::Result<()> {
    let mut encoder = Encoder::new(writer);
    write_pieces(&mut encoder, input, piece)?;
    if !input.is_open {
        let _writer = encoder.finish()?;
    }
    Ok(())
}

/// Passes bytes to an encoder, at most `piece` at a time, and adds the results.
pub fn encode(
    alloc: Global,
    input: &Input,
    piece: usize,
    room: Option<Room>,
    to: &mut Vec<Finding>,
) -> Result<(), AllocError> {
    let mut writer = writer_of(alloc, room);
    let outcome = give(&mut writer, input, piece);
    add_written(alloc, to, writer, outcome)
}

// Builds a response with this status code, this data, and the headers, the stated length and the threshold of a row.
fn answer<'a, D>(
    alloc: Global,
    status: StatusCode,
    input: &Input,
    data: &'a mut D,
) -> Result<Response<&'a mut D>, AllocError> {
    let mut answer = Response::empty(alloc, status).with_data(data, input.length);
    for header in &input.headers {
        if answer.add_header(header.try_clone()?).is_err() {
            return Err(AllocError);
        }
    }
    match input.threshold {
        Some(threshold) => Ok(answer.with_chunked_threshold(threshold)),
        None => Ok(answer),
    }
}

// Prints a response to the request that a row states, with `raw_print`.
fn print_to(
    alloc: Global,
    answer: Response<&mut Canned>,
    input: &Input,
    writer: &mut Metered<Trier>,
) -> io::Result<()> {
    let upgrade = match &input.upgrade {
        Some(protocol) => Some(protocol.as_str()),
        None => None,
    };
    answer.raw_print(
        alloc,
        writer,
        input.version.unwrap_or(HTTPVersion(1, 1)),
        input.request.as_slice(),
        input.is_withheld,
        upgrade,
        first_date(),
    )
}

/// Prints a response with `raw_print`. Adds the results, and what is left of its data.
pub fn print(
    alloc: Global,
    status: StatusCode,
    input: &Input,
    room: Option<Room>,
    to: &mut Vec<Finding>,
) -> Result<(), AllocError> {
    let mut data = data_of(alloc, input)?;
    let mut writer = writer_of(alloc, room);
    let answer = answer(alloc, status, input, &mut data)?;
    let outcome = print_to(alloc, answer, input, &mut writer);
    add_written(alloc, to, writer, outcome)?;
    add_left(alloc, &mut data, to)
}

const BY_THE_STANDARD: ResponseContext = ResponseContext {
    version: HTTPVersion(1, 1),
    asked_coding: None,
    no_body: false,
    persistence: Some(Persistence::Persistent),
};

/// Prints a response under `Standard`. Adds the results, and how much of its data was read.
pub fn print_by_standard(
    alloc: Global,
    status: StatusCode,
    input: &Input,
    to: &mut Vec<Finding>,
) -> Result<(), AllocError> {
    let mut data = Watched::new(alloc, input.bytes.as_slice(), None)?;
    let mut writer = writer_of(alloc, None);
    let answer = answer(alloc, status, input, &mut data)?;
    let outcome = answer.print(alloc, &mut writer, BY_THE_STANDARD, None, first_date());
    add_written(alloc, to, writer, outcome)?;
    add(alloc, to, "reads", data.reads().as_bytes())
}
