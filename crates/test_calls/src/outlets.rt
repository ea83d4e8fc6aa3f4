//! Makes successive calls on writers: outlets and streams.
use crate::deeds::Deed;
use crate::devices::{Below, Client, Taker};
use crate::replies::{add_outlet, add_reply, add_rest, add_taken, faulty, outcome_of, unfit};
use crate::row::{Finding, Input};
use crate::sources::read_by;
use std::alloc::{AllocError, Global};
use std::io;
use std::io::Write;
use tiny_http_core::custom_stream::CustomStream;
use tiny_http_core::outlet::Outlet;
use tiny_http_wire::device::{Metered, WriteDevice};

// Formats the number of bytes that a write accepted, or its error.
fn wrote(alloc: Global, outcome: io::Result<usize>) -> Result<Vec<u8>, AllocError> {
    match outcome {
        Ok(n) => Ok(format!(in alloc; "wrote {n}")?.into_bytes()),
        Err(fault) => faulty(alloc, fault.kind()),
    }
}

// Makes a call through std's `Write`. Formats the result.
fn write_by_std<W: Write>(
    alloc: Global,
    writer: &mut W,
    deed: &Deed,
) -> Result<Vec<u8>, AllocError> {
    match deed {
        Deed::StdWrite(bytes) => wrote(alloc, writer.write(bytes.as_slice())),
        Deed::WriteAll(bytes) => outcome_of(alloc, writer.write_all(bytes.as_slice())),
        Deed::StdFlush => outcome_of(alloc, writer.flush()),
        _ => unfit(alloc),
    }
}

// Makes a call on an outlet. Formats the result.
fn call_outlet(
    alloc: Global,
    outlet: &mut Outlet<Below>,
    deed: &Deed,
) -> Result<Vec<u8>, AllocError> {
    match deed {
        Deed::Write(bytes) => outcome_of(alloc, outlet.write(bytes.as_slice())),
        Deed::Flush => outcome_of(alloc, outlet.flush()),
        Deed::End => outcome_of(alloc, outlet.end()),
        Deed::Abandon => {
            outlet.abandon();
            outcome_of(alloc, Ok(()))
        }
        _ => write_by_std(alloc, outlet, deed),
    }
}

/// Makes calls on an outlet. Adds their results, what the outlet has buffered after them, whether it has ended, what
/// its writer accepted, and how the writer was called.
pub fn call_outlets(alloc: Global, input: &Input, to: &mut Vec<Finding>) -> Result<(), AllocError> {
    let mut outlet = Outlet::new(Metered::new(Taker::new(alloc, input)));
    for deed in &input.deeds {
        let reply = call_outlet(alloc, &mut outlet, deed)?;
        add_reply(alloc, to, reply.as_slice())?;
    }
    add_outlet(alloc, outlet, to)
}

// Makes a call on a stream. Formats the result.
fn call_stream(
    alloc: Global,
    stream: &mut CustomStream<Client, Below>,
    deed: &Deed,
) -> Result<Vec<u8>, AllocError> {
    match deed {
        Deed::StdRead(_) | Deed::ReadIn(_) => read_by(alloc, stream, deed),
        Deed::WriteOut(bytes) => wrote(alloc, stream.write_out(bytes.as_slice())),
        Deed::FlushOut => outcome_of(alloc, stream.flush_out()),
        _ => write_by_std(alloc, stream, deed),
    }
}

/// Makes calls on a stream. Adds their results, what is left in its reader after them, what its writer accepted, and
/// how the writer was called.
pub fn call_streams(
    alloc: Global,
    input: &Input,
    most: usize,
    to: &mut Vec<Finding>,
) -> Result<(), AllocError> {
    let writer = Metered::new(Taker::new(alloc, input));
    let mut stream = CustomStream::new(Client::new(alloc, input, most)?, writer);
    for deed in &input.deeds {
        let reply = call_stream(alloc, &mut stream, deed)?;
        add_reply(alloc, to, reply.as_slice())?;
    }
    let failures = stream.failures();
    let (mut client, writer) = stream.into_parts();
    add_rest(alloc, &mut client, to)?;
    add_taken(alloc, failures, writer, to)
}
