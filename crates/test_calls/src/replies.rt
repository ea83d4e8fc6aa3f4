//! Formats the results of successive calls, and what is left after them.
use crate::bodies::drain;
use crate::devices::Below;
use crate::findings::{add, add_shown, add_some};
use crate::row::Finding;
use std::alloc::{AllocError, Global};
use std::fmt::Write;
use std::io;
use std::io::ErrorKind;
use test_case_trials::replies::{fault_line, given_line};
use tiny_http_core::outlet::Outlet;
use tiny_http_wire::device::ReadDevice;

/// Adds the result of a call.
pub fn add_reply(alloc: Global, to: &mut Vec<Finding>, reply: &[u8]) -> Result<(), AllocError> {
    add(alloc, to, "reply", reply)
}

/// Formats a fixed reply.
pub fn word(alloc: Global, word: &str) -> Result<Vec<u8>, AllocError> {
    word.as_bytes().to_vec(alloc)
}

/// Formats the result of a call that succeeds without a value.
pub fn done(alloc: Global) -> Result<Vec<u8>, AllocError> {
    word(alloc, "done")
}

/// Formats the reply to a call that the value does not have.
pub fn unfit(alloc: Global) -> Result<Vec<u8>, AllocError> {
    word(alloc, "no such call")
}

/// Formats an error.
pub fn faulty(alloc: Global, kind: ErrorKind) -> Result<Vec<u8>, AllocError> {
    fault_line(alloc, kind)
}

/// Formats bytes that a call returned.
pub fn given(alloc: Global, bytes: &[u8]) -> Result<Vec<u8>, AllocError> {
    given_line(alloc, bytes)
}

/// Formats the result of a call that returns no value.
pub fn outcome_of(alloc: Global, outcome: io::Result<()>) -> Result<Vec<u8>, AllocError> {
    match outcome {
        Ok(()) => done(alloc),
        Err(fault) => faulty(alloc, fault.kind()),
    }
}

/// Adds what is left in a reader, as a result of kind `rest`.
pub fn add_rest<R: ReadDevice>(
    alloc: Global,
    reader: &mut R,
    to: &mut Vec<Finding>,
) -> Result<(), AllocError> {
    let (rest, _) = drain(alloc, reader)?;
    add(alloc, to, "rest", rest.as_slice())
}

// Adds the lengths of the writes, separated by spaces.
fn add_sizes(alloc: Global, sizes: &[usize], to: &mut Vec<Finding>) -> Result<(), AllocError> {
    let mut text = String::new(alloc);
    for size in sizes {
        if !text.is_empty() {
            text.push(' ')?;
        }
        write!(text, "{size}")?;
    }
    add(alloc, to, "sizes", text.as_bytes())
}

/// Adds what a writer accepted, the length of each write, the number of failures, and the number of calls after the
/// first failure.
pub fn add_taken(
    alloc: Global,
    failures: u64,
    writer: Below,
    to: &mut Vec<Finding>,
) -> Result<(), AllocError> {
    let taker = writer.into_inner();
    add_some(alloc, to, "output", taker.trier().taken())?;
    add_sizes(alloc, taker.sizes(), to)?;
    if failures > 0 {
        add_shown(alloc, to, "failed", &failures)?;
    }
    let later = taker.trier().later();
    if later > 0 {
        add_shown(alloc, to, "later", &later)?;
    }
    Ok(())
}

/// Adds what an outlet has buffered, whether it has ended, and, as `add_taken` does, what its writer accepted and how
/// the writer was called.
pub fn add_outlet(
    alloc: Global,
    outlet: Outlet<Below>,
    to: &mut Vec<Finding>,
) -> Result<(), AllocError> {
    add_some(alloc, to, "held", outlet.held())?;
    if outlet.is_ended() {
        add(alloc, to, "ended", b"")?;
    }
    let failures = outlet.writer_failures();
    add_taken(alloc, failures, outlet.into_inner(), to)
}
