//! Makes the calls that steps name.
use crate::holding::{Asked, Held, Holding};
use httpdate::HttpDate;
use replay_script::script_data::ScriptData;
use std::alloc::{AllocError, Global};
use std::io;
use std::io::{ErrorKind, Read, Write};
use std::sync::Wait;
use test_case_trials::replies::{fault_line, given_line, handed_line};
use test_case_trials::steps::StepsFault;
use tiny_http_core::driver::{Step, Timed};
use tiny_http_wire::response::Response;

// Formats a reply of one word.
fn word(alloc: Global, word: &str) -> Result<Vec<u8>, AllocError> {
    word.as_bytes().to_vec(alloc)
}

// Formats the result of a call: `done`, or its error.
fn line_of(alloc: Global, outcome: io::Result<()>) -> Result<Vec<u8>, AllocError> {
    match outcome {
        Ok(()) => word(alloc, "done"),
        Err(fault) => fault_line(alloc, fault.kind()),
    }
}

// Returns the request's number from the case's reply to an `ask`, since a request does not report its number.
fn number_of(reply: &[u8]) -> Option<&str> {
    let words = reply.strip_prefix(b"handed ")?;
    let number = words.split(|byte| *byte == b' ').next()?;
    str::from_utf8(number).ok()
}

// Receives the next request, holds it under the number that the case states, and formats the reply. If the case states
// no number, the request is dropped.
fn ask<R: Wait + Copy>(
    alloc: Global,
    holding: &mut Holding<R>,
    now: HttpDate,
    wanted: &[u8],
) -> Result<Vec<u8>, AllocError> {
    let Ok(next) = holding.next(now) else {
        return word(alloc, "memory");
    };
    let Some(request) = next else {
        return word(alloc, "ended");
    };
    let number = number_of(wanted).unwrap_or("?");
    let line = handed_line(
        alloc,
        (number, request.method()),
        (request.url(), *request.http_version()),
        request.headers(),
        request.body_length(),
    )?;
    if let Ok(number) = number.parse::<u64>() {
        holding.put(number, Held::Request(request), false)?;
    }
    Ok(line)
}

// Reads at least once, until `count` bytes are read, or the end or an error is reported. Formats the bytes, or the
// error if there are none.
fn read_up_to<B: Read>(alloc: Global, body: &mut B, count: u16) -> Result<Vec<u8>, AllocError> {
    let mut bytes = Vec::new(alloc);
    let mut buf = [0u8; 1024];
    let mut left = usize::from(count);
    for _ in 0..=count {
        let room = left.min(buf.len());
        match body.read(&mut buf[..room]) {
            Ok(0) => break,
            Ok(n) => bytes.extend_from_slice(buf.get(..n).unwrap_or_default())?,
            Err(fault) if bytes.is_empty() => return fault_line(alloc, fault.kind()),
            Err(_) => break,
        }
        left = usize::from(count).saturating_sub(bytes.len());
        if left == 0 {
            break;
        }
    }
    given_line(alloc, bytes.as_slice())
}

// Writes all bytes in at least one call, without retrying after an error.
fn write_through<W: Write>(writer: &mut W, bytes: &[u8]) -> io::Result<()> {
    let mut rest = bytes;
    for _ in 0..=bytes.len() {
        let n = writer.write(rest)?;
        rest = rest.get(n..).unwrap_or_default();
        if rest.is_empty() {
            break;
        }
    }
    Ok(())
}

// Reads from the body of a request or from a stream. For a raw writer, the reply is `nosuch`.
fn read<R: Wait + Copy>(
    alloc: Global,
    held: &mut Held<R>,
    count: u16,
    now: HttpDate,
) -> Result<Vec<u8>, AllocError> {
    match held {
        Held::Request(request) => read_up_to(alloc, request.as_reader(now), count),
        Held::Stream(stream) => read_up_to(alloc, stream, count),
        Held::Writer(_) => word(alloc, "nosuch"),
    }
}

// Writes to a raw writer or a stream. For a request, the reply is `nosuch`.
fn write<R: Wait + Copy>(
    alloc: Global,
    held: &mut Held<R>,
    bytes: &[u8],
) -> Result<Vec<u8>, AllocError> {
    match held {
        Held::Request(_) => word(alloc, "nosuch"),
        Held::Stream(stream) => line_of(alloc, write_through(stream, bytes)),
        Held::Writer(writer) => line_of(alloc, write_through(writer, bytes)),
    }
}

// Flushes a raw writer or a stream. For a request, the reply is `nosuch`.
fn flush<R: Wait + Copy>(alloc: Global, held: &mut Held<R>) -> Result<Vec<u8>, AllocError> {
    match held {
        Held::Request(_) => word(alloc, "nosuch"),
        Held::Stream(stream) => line_of(alloc, stream.flush()),
        Held::Writer(writer) => line_of(alloc, writer.flush()),
    }
}

// Upgrades a request, and holds its stream under `number`. If the upgrade is refused, nothing is held under `number`.
fn upgrade<R: Wait + Copy>(
    alloc: Global,
    holding: &mut Holding<R>,
    (number, request): (u64, Asked<R>),
    (protocol, response): (&str, Response<ScriptData>),
    now: HttpDate,
) -> Result<Vec<u8>, AllocError> {
    match request.upgrade(protocol, response, now) {
        Ok(stream) => {
            holding.put(number, Held::Stream(stream), true)?;
            word(alloc, "done")
        }
        Err(_) => word(alloc, "refused"),
    }
}

// Runs a step that consumes a request. Puts the request back if no call fits the step.
fn treat_request<R: Wait + Copy>(
    alloc: Global,
    holding: &mut Holding<R>,
    (number, request): (u64, Asked<R>),
    step: Step<ScriptData>,
    now: HttpDate,
) -> Result<Vec<u8>, AllocError> {
    match step {
        Step::Respond(_, response) => match request.respond(response, now) {
            Err(fault) if fault.kind() == ErrorKind::InvalidInput => word(alloc, "refused"),
            done => line_of(alloc, done),
        },
        Step::IntoWriter(_) => {
            holding.put(number, Held::Writer(request.into_writer()), false)?;
            word(alloc, "done")
        }
        Step::Upgrade(_, protocol, response) => {
            let stream = (protocol.as_str(), response);
            upgrade(alloc, holding, (number, request), stream, now)
        }
        Step::Drop(_) => {
            request.abandon();
            word(alloc, "done")
        }
        _ => {
            holding.put(number, Held::Request(request), false)?;
            word(alloc, "nosuch")
        }
    }
}

// Runs a step that doesn't consume the request, raw writer or stream, and puts it back.
fn treat_held<R: Wait + Copy>(
    alloc: Global,
    holding: &mut Holding<R>,
    (number, mut held): (u64, Held<R>),
    mut has_written: bool,
    step: Step<ScriptData>,
    now: HttpDate,
) -> Result<Vec<u8>, AllocError> {
    let line = match step {
        Step::AsReader(_) => {
            if let Held::Request(request) = &mut held {
                let _ = request.as_reader(now);
            }
            word(alloc, "done")?
        }
        Step::Read(_, count) => read(alloc, &mut held, count, now)?,
        Step::Write(_, bytes) => {
            has_written = true;
            write(alloc, &mut held, bytes.as_slice())?
        }
        Step::Flush(_) => {
            has_written = false;
            flush(alloc, &mut held)?
        }
        _ => word(alloc, "nosuch")?,
    };
    holding.put(number, held, has_written)?;
    Ok(line)
}

// Returns the number of the request that a step applies to, or `None` for `Ask`.
fn number_in(step: &Step<ScriptData>) -> Option<u64> {
    match step {
        Step::Ask => None,
        Step::AsReader(number)
        | Step::Read(number, _)
        | Step::Respond(number, _)
        | Step::IntoWriter(number)
        | Step::Write(number, _)
        | Step::Flush(number)
        | Step::Upgrade(number, _, _)
        | Step::Finish(number)
        | Step::Drop(number) => Some(*number),
    }
}

/// Makes the call that a step names, and formats its result. The case's reply, `wanted`, states under which number to
/// hold the next request. If `wanted` is `nosuch`, makes no call unless the step is an `ask`, since no call corresponds
/// to the step. An example is a read of a body whose client is still waiting for a 100, which `as_reader` would send.
pub(crate) fn treat<R: Wait + Copy>(
    alloc: Global,
    holding: &mut Holding<R>,
    timed: Timed<ScriptData>,
    wanted: &[u8],
) -> Result<Vec<u8>, StepsFault> {
    let Timed { now, step } = timed;
    let Some(number) = number_in(&step) else {
        return Ok(ask(alloc, holding, now, wanted)?);
    };
    if wanted == b"nosuch".as_slice() {
        return Ok(word(alloc, "nosuch")?);
    }
    let Some((held, has_written)) = holding.take(number) else {
        return Ok(word(alloc, "nosuch")?);
    };
    let line = match (held, step) {
        (Held::Writer(writer), Step::Finish(_)) => {
            drop(writer);
            word(alloc, "done")?
        }
        (Held::Stream(stream), Step::Finish(_)) => {
            drop(stream);
            word(alloc, "done")?
        }
        (
            Held::Request(request),
            step @ (Step::Respond(..) | Step::IntoWriter(_) | Step::Upgrade(..) | Step::Drop(_)),
        ) => { treat_request(alloc, holding, (number, request), step, now)? }
        (held, step) => treat_held(alloc, holding, (number, held), has_written, step, now)?,
    };
    Ok(line)
}
