//! Makes successive calls on a connection, and serves a client with `example_greeter`. The module `exchanging` uses
//! some functions of this one.
use crate::deeds::{Deed, WatchedAnswer};
use crate::devices::{Below, Client, Taker, Watched};
use crate::findings::{add, add_shown};
use crate::replies::{add_outlet, add_reply, add_rest};
use crate::row::{Finding, Input};
use example_greeter::{serve, serve_bytes};
use replay_script::line::text_in;
use replay_script::script::{first_date, step_in};
use replay_script::script_data::ScriptData;
use std::alloc::{AllocError, Global};
use test_case_trials::replies::reply_line;
use tiny_http_core::driver::{Connection, Reply, Step, Timed};
use tiny_http_core::framing::Profile;
use tiny_http_core::outlet::Outlet;
use tiny_http_core::source::Source;
use tiny_http_wire::common::StatusCode;
use tiny_http_wire::device::Metered;
use tiny_http_wire::response::Response;

/// Parses a line of a script. Returns its step, if it has one.
pub fn step_of(alloc: Global, line: &str) -> Result<Option<Step<ScriptData>>, AllocError> {
    match text_in(line) {
        Some(line) => step_in(alloc, &line),
        None => Ok(None),
    }
}

/// Builds a 200 response that borrows its data. If a length is given, the response is sent in chunks only if the
/// request's `TE` asks for them.
pub fn lent(alloc: Global, data: &mut Watched, length: Option<usize>) -> Response<&mut Watched> {
    let answer = Response::empty(alloc, StatusCode(200)).with_data(data, length);
    match length {
        Some(_) => answer.with_chunked_threshold(usize::MAX),
        None => answer,
    }
}

type Connected = Connection<Client, Below>;

// Adds the reply to a step.
fn add_line(alloc: Global, to: &mut Vec<Finding>, reply: &Reply) -> Result<(), AllocError> {
    let line = reply_line(alloc, reply)?;
    add_reply(alloc, to, line.as_slice())
}

// Responds to a request. Adds the reply, and how much of the response's data was read.
fn answer(
    alloc: Global,
    connection: &mut Connected,
    answer: &WatchedAnswer,
    to: &mut Vec<Finding>,
) -> Result<(), AllocError> {
    let mut data = Watched::new(alloc, answer.data.as_slice(), answer.fault)?;
    let response = lent(alloc, &mut data, answer.length);
    let reply = connection.respond(alloc, first_date(), answer.number, response);
    add_line(alloc, to, &reply)?;
    add(alloc, to, "reads", data.reads().as_bytes())
}

// Upgrades a request. Adds the reply, and how much of the response's data was read.
fn upgrade(
    alloc: Global,
    connection: &mut Connected,
    (number, protocol): (u64, &str),
    to: &mut Vec<Finding>,
) -> Result<(), AllocError> {
    let mut data = Watched::new(alloc, b"hello", None)?;
    let response = lent(alloc, &mut data, None);
    let reply = connection.upgrade(alloc, first_date(), number, protocol, response);
    add_line(alloc, to, &reply)?;
    add(alloc, to, "reads", data.reads().as_bytes())
}

// Runs the step that a line of a script names, and adds its reply, or `no step` if the line names none.
fn do_step(
    alloc: Global,
    connection: &mut Connected,
    line: &str,
    to: &mut Vec<Finding>,
) -> Result<(), AllocError> {
    let Some(step) = step_of(alloc, line)? else {
        return add_reply(alloc, to, b"no step");
    };
    let now = first_date();
    let reply = connection.step(alloc, Timed { now, step });
    add_line(alloc, to, &reply)
}

/// A value on which a row makes successive calls.
pub trait Callee {
    /// Makes a call, and adds its results.
    fn call(&mut self, alloc: Global, deed: &Deed, to: &mut Vec<Finding>) -> Result<(), AllocError>;
}

impl Callee for Connected {
    fn call(
        &mut self,
        alloc: Global,
        deed: &Deed,
        to: &mut Vec<Finding>,
    ) -> Result<(), AllocError> {
        match deed {
            Deed::Script(line) => do_step(alloc, self, line.as_str(), to),
            Deed::Answer(watched) => answer(alloc, self, watched, to),
            Deed::Upgrade(number, protocol) => {
                upgrade(alloc, self, (*number, protocol.as_str()), to)
            }
            Deed::IsOpen(number) => match self.is_open(*number) {
                true => add_reply(alloc, to, b"open"),
                false => add_reply(alloc, to, b"not open"),
            },
            Deed::NextNumber => {
                let number = self.next_number();
                let line = format!(in alloc; "number {number}")?;
                add_reply(alloc, to, line.as_bytes())
            }
            _ => add_reply(alloc, to, b"no such call"),
        }
    }
}

// Adds the number of reads from the client, and what the outlet's writer has flushed.
fn add_progress(
    alloc: Global,
    source: Source<Client>,
    outlet: Outlet<Below>,
    to: &mut Vec<Finding>,
) -> Result<(), AllocError> {
    let calls = source.into_inner().calls();
    add_shown(alloc, to, "called", &calls)?;
    let taker = outlet.into_inner().into_inner();
    add(alloc, to, "sent", taker.sent())
}

// Adds what is left in a source, what an outlet has buffered, and what the outlet's writer accepted.
fn add_parts(
    alloc: Global,
    mut source: Source<Client>,
    outlet: Outlet<Below>,
    to: &mut Vec<Finding>,
) -> Result<(), AllocError> {
    add_rest(alloc, &mut source, to)?;
    add_outlet(alloc, outlet, to)
}

/// Adds the results of the last call (`last`), the number of reads from the client, and what the writer has flushed. If
/// `is_past` holds, that is, after the last call of the row, adds instead what is left in the source and the outlet,
/// and what the writer accepted.
pub fn add_outcome(
    alloc: Global,
    last: Result<Vec<Finding>, AllocError>,
    (source, outlet): (Source<Client>, Outlet<Below>),
    is_past: bool,
    to: &mut Vec<Finding>,
) -> Result<(), AllocError> {
    if is_past {
        return add_parts(alloc, source, outlet, to);
    }
    for finding in last? {
        to.push(finding).map_err(AllocError::from)?;
    }
    add_progress(alloc, source, outlet, to)
}

/// Makes successive calls. Returns the results of the last call.
pub fn call_each<C: Callee>(
    alloc: Global,
    callee: &mut C,
    deeds: &[Deed],
) -> Result<Vec<Finding>, AllocError> {
    let mut last = Vec::new(alloc);
    for deed in deeds {
        last = Vec::new(alloc);
        callee.call(alloc, deed, &mut last)?;
    }
    Ok(last)
}

// Makes the first `count` calls on a new connection. Adds the results of the last call, the number of reads from the
// client, and what the writer has flushed. If there are fewer than `count` calls, adds instead what is left in the
// source and the outlet, and what the writer accepted.
fn call_front(
    alloc: Global,
    profile: Profile,
    input: &Input,
    (most, count): (usize, usize),
    to: &mut Vec<Finding>,
) -> Result<(), AllocError> {
    let client = Client::new(alloc, input, most)?;
    let writer = Metered::new(Taker::new(alloc, input));
    let mut connection = Connection::new_with(alloc, profile, client, writer);
    let deeds = input.deeds.as_slice();
    let front = &deeds[..count.min(deeds.len())];
    let last = call_each(alloc, &mut connection, front);
    let (source, outlet) = connection.into_parts();
    add_outcome(alloc, last, (source, outlet), count > deeds.len(), to)
}

/// Makes calls on a connection. Adds the results of each, with the number of reads from the client and what has been
/// flushed by then, and finally what is left in the source and the outlet, and what the writer accepted. A connection
/// does not expose its reader and writer, so for each call a new connection repeats the earlier calls first.
pub fn call_connections(
    alloc: Global,
    profile: Profile,
    input: &Input,
    most: usize,
    to: &mut Vec<Finding>,
) -> Result<(), AllocError> {
    for count in 1..=input.deeds.len().saturating_add(1) {
        call_front(alloc, profile, input, (most, count), to)?;
    }
    Ok(())
}

// Adds the last reply that a greeter got, or `none`.
fn add_last(alloc: Global, last: Option<&Reply>, to: &mut Vec<Finding>) -> Result<(), AllocError> {
    match last {
        Some(reply) => add_line(alloc, to, reply),
        None => add_reply(alloc, to, b"none"),
    }
}

/// Serves a client with the greeter, over a reader and again over bytes in memory. Adds the last reply and the output
/// of each run.
pub fn greet(
    alloc: Global,
    input: &Input,
    most: usize,
    to: &mut Vec<Finding>,
) -> Result<(), AllocError> {
    let client = Client::new(alloc, input, most)?;
    let writer = Metered::new(Taker::new(alloc, input));
    let (_, outlet, last) = serve(alloc, client, writer, first_date());
    add_last(alloc, last.as_ref(), to)?;
    add_outlet(alloc, outlet, to)?;
    let bytes = input.bytes.as_slice().to_vec(alloc)?;
    let (outlet, last) = serve_bytes(alloc, bytes, first_date());
    add_last(alloc, last.as_ref(), to)?;
    add(alloc, to, "output", outlet.into_inner().bytes())
}
