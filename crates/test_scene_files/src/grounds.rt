//! Parses the steps of scenes without a server: on a queue, on a connection over memory, and on readers or writers that
//! take turns.
use crate::deed::{before_kind, millis_in, sides};
use std::io::ErrorKind;
use test_data_files::kinds::kind_of;
use test_data_files::text::number_in;

/// The expected result of a pop.
#[derive(Clone, Copy)]
pub enum Popped {
    Value(u64),
    /// Any value.
    Something,
    /// No value: an unblock mark was popped, the queue was empty, or the timeout passed.
    Nothing,
    /// A value or none.
    Anything,
}

/// A call on the queue.
#[derive(Clone, Copy)]
pub enum QueueDeed {
    Push(u64),
    Unblock,
    Clear,
    Pop(Popped),
    /// Pops until the result is not this value.
    PopPast(u64, Popped),
    /// Pops with this timeout in milliseconds.
    PopTimeout(u64, Popped),
    /// Pops until the result is not the second number. The first number is the timeout of each pop in milliseconds.
    PopTimeoutPast(u64, u64, Popped),
    TryPop(Popped),
}

// Parses the expected result of a pop: `nothing`, `something`, `anything`, or a value.
fn popped_in(text: &str) -> Option<Popped> {
    match text {
        "nothing" => Some(Popped::Nothing),
        "something" => Some(Popped::Something),
        "anything" => Some(Popped::Anything),
        digits => Some(Popped::Value(millis_in(digits)?)),
    }
}

// Parses a call that pops from the queue. `popped` is the expected result.
fn pop_in(call: &str, popped: Popped) -> Option<QueueDeed> {
    let (verb, rest) = call.split_once(' ').unwrap_or((call, ""));
    match (verb, rest) {
        ("pop", "") => Some(QueueDeed::Pop(popped)),
        ("pop", past) => {
            let value = millis_in(past.strip_prefix("past ")?)?;
            Some(QueueDeed::PopPast(value, popped))
        }
        ("try_pop", "") => Some(QueueDeed::TryPop(popped)),
        ("pop_timeout", text) => match text.split_once(" past ") {
            None => Some(QueueDeed::PopTimeout(millis_in(text)?, popped)),
            Some((millis, value)) => {
                let (millis, value) = (millis_in(millis)?, millis_in(value)?);
                Some(QueueDeed::PopTimeoutPast(millis, value, popped))
            }
        },
        _ => None,
    }
}

/// Parses a step on the queue.
pub(crate) fn queue_deed(text: &str) -> Option<QueueDeed> {
    if let Some((call, outcome)) = sides(text) {
        return pop_in(call, popped_in(outcome)?);
    }
    match text.split_once(' ').unwrap_or((text, "")) {
        ("push", digits) => Some(QueueDeed::Push(millis_in(digits)?)),
        ("unblock", "") => Some(QueueDeed::Unblock),
        ("clear", "") => Some(QueueDeed::Clear),
        _ => None,
    }
}

/// The parts of a request to build.
#[derive(Clone, Copy)]
pub struct Parts<'a> {
    pub method: &'a str,
    pub target: &'a str,
    pub version: (u8, u8),
    /// Further parts, separated by ` + `: `https`, `from ADDRESS`, `body TEXT`, or a header field.
    pub more: &'a str,
}

/// The expected result of building a request.
#[derive(Clone, Copy)]
pub enum Made<'a> {
    /// A request, which the scene calls by this name.
    Request(&'a str),
    /// A refusal, because the target is not ASCII.
    Refused,
    ExpectationFailed,
    /// An I/O error of this kind.
    Fault(ErrorKind),
}

/// A step on a connection or a request over memory.
#[derive(Clone, Copy)]
pub enum MemoryDeed<'a> {
    /// Limits the writers of all clients and requests created later: each accepts this many bytes, after which every
    /// non-empty write fails with this kind.
    Takes(usize, ErrorKind),
    /// Creates a client that sends this text and then ends its output.
    Sends(&'a str),
    /// Expects that the next request is for this target, and stores it under this name.
    Gives(&'a str, &'a str),
    /// Expects no further request.
    GivesNothing,
    /// Builds a request with `TestRequest`.
    Makes(Parts<'a>, Made<'a>),
    /// Builds a request with `new_request`, without a client address.
    News(Parts<'a>, Made<'a>),
    /// Expects this text as the next bytes written, once `client::dated` has replaced the dates among them.
    Gets(&'a str),
}

// Parses a version, such as `1.1`.
fn version_in(text: &str) -> Option<(u8, u8)> {
    let (major, minor) = text.split_once('.')?;
    let major = u8::try_from(number_in(major)?).ok()?;
    Some((major, u8::try_from(number_in(minor)?).ok()?))
}

// Parses the parts of a request: `METHOD TARGET VERSION`, and any further parts after ` + `.
fn parts_in(text: &str) -> Option<Parts<'_>> {
    let (line, more) = text.split_once(" + ").unwrap_or((text, ""));
    let (method, rest) = line.split_once(' ')?;
    let (target, version) = rest.split_once(' ')?;
    Some(Parts {
        method,
        target,
        version: version_in(version)?,
        more,
    })
}

// Parses the expected error of building a request.
fn made_in(outcome: &str) -> Option<Made<'_>> {
    match outcome {
        "Refused" => Some(Made::Refused),
        "ExpectationFailed" => Some(Made::ExpectationFailed),
        _ => Some(Made::Fault(kind_of(outcome)?)),
    }
}

// Parses the parts of a request to build, and the expected result.
fn making_in(text: &str) -> Option<(Parts<'_>, Made<'_>)> {
    if let Some((parts, name)) = text.rsplit_once(" as ") {
        return Some((parts_in(parts)?, Made::Request(name)));
    }
    let (parts, outcome) = sides(text)?;
    Some((parts_in(parts)?, made_in(outcome)?))
}

/// Parses a step on a connection or a request over memory.
pub(crate) fn memory_deed(text: &str) -> Option<MemoryDeed<'_>> {
    let (verb, rest) = text.split_once(' ').unwrap_or((text, ""));
    match (verb, rest) {
        ("takes", text) => {
            let (count, kind) = text.split_once(' ')?;
            Some(MemoryDeed::Takes(number_in(count)?, kind_of(kind)?))
        }
        ("sends", text) => Some(MemoryDeed::Sends(text)),
        ("gives", "nothing") => Some(MemoryDeed::GivesNothing),
        ("gives", given) => {
            let (target, name) = given.split_once(" as ")?;
            Some(MemoryDeed::Gives(target, name))
        }
        ("makes", text) => {
            let (parts, made) = making_in(text)?;
            Some(MemoryDeed::Makes(parts, made))
        }
        ("new", text) => {
            let (parts, made) = making_in(text)?;
            Some(MemoryDeed::News(parts, made))
        }
        ("gets", text) => Some(MemoryDeed::Gets(text)),
        _ => None,
    }
}

/// A step on a sequence of readers or writers that take turns.
#[derive(Clone, Copy)]
pub enum TurnsDeed<'a> {
    /// Creates a sequence of readers of this text.
    Read(&'a str),
    /// Creates a sequence of writers that together accept this many bytes in memory.
    Write(usize),
    /// Takes the next reader or writer of the sequence, and stores it under this name.
    Next(&'a str),
    /// Expects that exactly this text was written by all writers together.
    Wrote(&'a str),
}

/// Parses a step on a sequence of readers or writers that take turns.
pub(crate) fn turns_deed(text: &str) -> Option<TurnsDeed<'_>> {
    match text.split_once(' ').unwrap_or((text, "")) {
        ("read", text) => Some(TurnsDeed::Read(text)),
        ("write", digits) => Some(TurnsDeed::Write(number_in(digits)?)),
        ("next", name) => Some(TurnsDeed::Next(name.strip_prefix("as ")?)),
        ("wrote", "nothing") => Some(TurnsDeed::Wrote("")),
        ("wrote", text) => Some(TurnsDeed::Wrote(text)),
        _ => None,
    }
}

/// A step on one reader or writer that takes turns.
#[derive(Clone, Copy)]
pub enum TurnDeed<'a> {
    /// Expects this text from one read.
    Reads(&'a str),
    /// Writes this text in one call, and expects that the call accepts this many bytes.
    Writes(&'a str, usize),
    WriteFails(&'a str, ErrorKind),
    Flushes,
    Ends,
}

/// Parses a step on one reader or writer that takes turns.
pub(crate) fn turn_deed<'a>(verb: &str, rest: &'a str) -> Option<TurnDeed<'a>> {
    match (verb, rest) {
        ("reads-once", text) => Some(TurnDeed::Reads(text)),
        ("writes-once", text) => match before_kind(text) {
            (text, Some(kind)) => Some(TurnDeed::WriteFails(text, kind)),
            (text, None) => {
                let (text, count) = sides(text)?;
                Some(TurnDeed::Writes(text, number_in(count)?))
            }
        },
        ("flushes-once", "") => Some(TurnDeed::Flushes),
        ("ends-its-turn", "") => Some(TurnDeed::Ends),
        _ => None,
    }
}
