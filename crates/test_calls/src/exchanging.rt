//! Makes successive calls on requests that are read without a `Connection`, each an `Exchange`.
use crate::conversing::{Callee, add_outcome, call_each, lent, step_of};
use crate::deeds::{Deed, WatchedAnswer};
use crate::devices::{Below, Client, Taker, Watched};
use crate::findings::add;
use crate::replies::{add_reply, done, faulty, given, outcome_of, unfit, word};
use crate::row::{Finding, Input};
use replay_script::script::first_date;
use replay_script::script_data::ScriptData;
use std::alloc::{AllocError, Global};
use test_case_trials::replies::{end_words, handed_line};
use tiny_http_core::driver::Step;
use tiny_http_core::exchange::{Exchange, HeadRead, read_head, read_head_with};
use tiny_http_core::framing::Profile;
use tiny_http_core::outlet::Outlet;
use tiny_http_core::source::Source;
use tiny_http_core::upgrading::UpgradeError;
use tiny_http_wire::device::Metered;

// A source, an outlet, and the requests that were read, by index.
#[derive(Drop)]
struct Talk {
    profile: Profile,
    source: Source<Client>,
    outlet: Outlet<Below>,
    exchanges: Vec<Exchange>,
}

// Formats a request that was read, with its index as the number.
fn handed(alloc: Global, place: usize, exchange: &Exchange) -> Result<Vec<u8>, AllocError> {
    let head = exchange.head();
    let number = format!(in alloc; "{place}")?;
    handed_line(
        alloc,
        (number.as_str(), &head.method),
        (head.path.as_str(), head.version),
        head.headers.as_slice(),
        head.body_length(),
    )
}

// Writes and flushes a text, ignoring errors.
fn send(outlet: &mut Outlet<Below>, text: &[u8]) {
    drop(outlet.write(text));
    drop(outlet.flush());
}

// Sends the error response to a refused head. Formats the refusal, and whether the head is the last one.
fn refused(
    alloc: Global,
    outlet: &mut Outlet<Below>,
    text: &[u8],
    last: bool,
) -> Result<Vec<u8>, AllocError> {
    send(outlet, text);
    match last {
        true => word(alloc, "refused, the last"),
        false => word(alloc, "refused"),
    }
}

// Reads the next head. Formats the request, the refusal, or why the requests end.
fn ask(alloc: Global, talk: &mut Talk) -> Result<Vec<u8>, AllocError> {
    let source = &mut talk.source;
    let read = match talk.profile {
        Profile::Lenient => read_head(alloc, source, first_date()),
        profile => read_head_with(alloc, source, profile, first_date()),
    };
    match read? {
        HeadRead::Request(exchange) => {
            let line = handed(alloc, talk.exchanges.len(), &exchange)?;
            talk.exchanges.push(exchange).map_err(AllocError::from)?;
            Ok(line)
        }
        HeadRead::Refused { text, last, .. } => {
            refused(alloc, &mut talk.outlet, text.as_slice(), last)
        }
        HeadRead::Ended(why) => {
            let mut line = b"ended ".to_vec(alloc)?;
            line.extend_from_slice(end_words(alloc, Some(why))?.as_slice())?;
            Ok(line)
        }
    }
}

// Reads once from a body, into a buffer of `room` bytes. Formats the bytes or the error.
fn read_once(
    alloc: Global,
    (exchange, source): (&mut Exchange, &mut Source<Client>),
    room: usize,
) -> Result<Vec<u8>, AllocError> {
    let mut buf = Vec::new(alloc);
    buf.resize(room, 0)?;
    match exchange.read_body(source, buf.as_mut_slice()) {
        Ok(n) => given(alloc, buf.as_slice().get(..n).unwrap_or_default()),
        Err(fault) => faulty(alloc, fault.kind()),
    }
}

// Reads a body until `count` bytes are read, or the body ends or fails. Formats the bytes, or the error if there are no
// bytes.
fn read_up_to(
    alloc: Global,
    (exchange, source): (&mut Exchange, &mut Source<Client>),
    count: usize,
) -> Result<Vec<u8>, AllocError> {
    let mut bytes = Vec::new(alloc);
    let mut buf = [0u8; 1024];
    for _ in 0..=count {
        let room = count.saturating_sub(bytes.len()).min(buf.len());
        match exchange.read_body(source, &mut buf[..room]) {
            Ok(0) => break,
            Ok(n) => bytes.extend_from_slice(buf.get(..n).unwrap_or_default())?,
            Err(fault) if bytes.is_empty() => return faulty(alloc, fault.kind()),
            Err(_) => break,
        }
    }
    given(alloc, bytes.as_slice())
}

// Formats the result of an upgrade.
fn upgraded(alloc: Global, outcome: Result<(), UpgradeError>) -> Result<Vec<u8>, AllocError> {
    match outcome {
        Ok(()) => done(alloc),
        Err(error) => Ok(format!(in alloc; "refused: {error}")?.into_bytes()),
    }
}

// Runs a step on a request. Formats the reply.
fn do_step(
    alloc: Global,
    (exchange, source): (&mut Exchange, &mut Source<Client>),
    outlet: &mut Outlet<Below>,
    step: Step<ScriptData>,
) -> Result<Vec<u8>, AllocError> {
    let now = first_date();
    match step {
        Step::Read(_, count) => read_up_to(alloc, (exchange, source), usize::from(count)),
        Step::Respond(_, response) => {
            outcome_of(alloc, exchange.respond_on(alloc, outlet, response, now))
        }
        Step::AsReader(_) => {
            exchange.send_continue(alloc, outlet, now);
            done(alloc)
        }
        Step::Drop(_) => {
            let text = exchange.text_of_drop();
            send(outlet, text.as_slice());
            done(alloc)
        }
        Step::Upgrade(_, protocol, response) => upgraded(
            alloc,
            exchange.upgrade_on(alloc, outlet, protocol.as_str(), response, now),
        ),
        _ => unfit(alloc),
    }
}

// Responds to a request. Adds the reply, and how much of the response's data was read.
fn answer(
    alloc: Global,
    (exchange, outlet): (&mut Exchange, &mut Outlet<Below>),
    answer: &WatchedAnswer,
    to: &mut Vec<Finding>,
) -> Result<(), AllocError> {
    let mut data = Watched::new(alloc, answer.data.as_slice(), answer.fault)?;
    let response = lent(alloc, &mut data, answer.length);
    let outcome = exchange.respond_on(alloc, outlet, response, first_date());
    let reply = outcome_of(alloc, outcome)?;
    add_reply(alloc, to, reply.as_slice())?;
    add(alloc, to, "reads", data.reads().as_bytes())
}

// Upgrades a request. Adds the reply, and how much of the response's data was read.
fn upgrade(
    alloc: Global,
    (exchange, outlet): (&mut Exchange, &mut Outlet<Below>),
    protocol: &str,
    to: &mut Vec<Finding>,
) -> Result<(), AllocError> {
    let mut data = Watched::new(alloc, b"hello", None)?;
    let response = lent(alloc, &mut data, None);
    let outcome = exchange.upgrade_on(alloc, outlet, protocol, response, first_date());
    let reply = upgraded(alloc, outcome)?;
    add_reply(alloc, to, reply.as_slice())?;
    add(alloc, to, "reads", data.reads().as_bytes())
}

// Returns the request with this index, the source and the outlet; or `None` if there is no such request.
fn parts_of(
    talk: &mut Talk,
    number: u64,
) -> Option<(&mut Exchange, &mut Source<Client>, &mut Outlet<Below>)> {
    let place = usize::try_from(number).ok()?;
    let exchange = talk.exchanges.get_mut(place)?;
    Some((exchange, &mut talk.source, &mut talk.outlet))
}

const NO_REQUEST: &str = "no such request";

// Returns the index of the request that a step applies to, or `None` if the step can't be applied to an `Exchange`.
fn place_in(step: &Step<ScriptData>) -> Option<u64> {
    match step {
        Step::AsReader(number)
        | Step::Read(number, _)
        | Step::Respond(number, _)
        | Step::Upgrade(number, _, _)
        | Step::Drop(number) => Some(*number),
        _ => None,
    }
}

// Runs the step that a line of a script names. Formats the reply.
fn do_line(alloc: Global, talk: &mut Talk, line: &str) -> Result<Vec<u8>, AllocError> {
    let Some(step) = step_of(alloc, line)? else {
        return unfit(alloc);
    };
    if matches!(step, Step::Ask) {
        return ask(alloc, talk);
    }
    let Some(place) = place_in(&step) else {
        return unfit(alloc);
    };
    match parts_of(talk, place) {
        Some((exchange, source, outlet)) => do_step(alloc, (exchange, source), outlet, step),
        None => word(alloc, NO_REQUEST),
    }
}

// Makes a call on the request with this index, and adds its results.
fn call_numbered(
    alloc: Global,
    talk: &mut Talk,
    place: u64,
    deed: &Deed,
    to: &mut Vec<Finding>,
) -> Result<(), AllocError> {
    let Some((exchange, source, outlet)) = parts_of(talk, place) else {
        return add_reply(alloc, to, NO_REQUEST.as_bytes());
    };
    let reply = match deed {
        Deed::Answer(watched) => return answer(alloc, (exchange, outlet), watched, to),
        Deed::Upgrade(_, protocol) => {
            return upgrade(alloc, (exchange, outlet), protocol.as_str(), to);
        }
        Deed::ReadBody(_, room) => read_once(alloc, (exchange, source), *room)?,
        Deed::GiveUp(_) => {
            exchange.give_up(source);
            done(alloc)?
        }
        _ => unfit(alloc)?,
    };
    add_reply(alloc, to, reply.as_slice())
}

impl Callee for Talk {
    fn call(
        &mut self,
        alloc: Global,
        deed: &Deed,
        to: &mut Vec<Finding>,
    ) -> Result<(), AllocError> {
        let reply = match deed {
            Deed::Script(line) => do_line(alloc, self, line.as_str())?,
            Deed::End => outcome_of(alloc, self.outlet.end())?,
            Deed::Write(bytes) => outcome_of(alloc, self.outlet.write(bytes.as_slice()))?,
            Deed::Answer(watched) => return call_numbered(alloc, self, watched.number, deed, to),
            Deed::Upgrade(place, _) | Deed::ReadBody(place, _) | Deed::GiveUp(place) => {
                return call_numbered(alloc, self, *place, deed, to);
            }
            _ => unfit(alloc)?,
        };
        add_reply(alloc, to, reply.as_slice())
    }
}

// Makes the first `count` calls with a new source and outlet. Adds the results of the last call, the number of reads
// from the client, and what the writer has flushed. If there are fewer than `count` calls, adds instead what is left in
// the source and the outlet, and what the writer accepted.
fn call_front(
    alloc: Global,
    profile: Profile,
    input: &Input,
    (most, count): (usize, usize),
    to: &mut Vec<Finding>,
) -> Result<(), AllocError> {
    let mut talk = Talk {
        profile,
        source: Source::new(Client::new(alloc, input, most)?),
        outlet: Outlet::new(Metered::new(Taker::new(alloc, input))),
        exchanges: Vec::new(alloc),
    };
    let deeds = input.deeds.as_slice();
    let last = call_each(alloc, &mut talk, &deeds[..count.min(deeds.len())]);
    let Talk { source, outlet, .. } = talk;
    add_outcome(alloc, last, (source, outlet), count > deeds.len(), to)
}

/// Makes calls on requests that are read without a `Connection`. Adds the results of each call, with the number of
/// reads from the client and what has been flushed by then, and finally what is left in the source and the outlet, and
/// what the writer accepted.
pub fn call_exchanges(
    alloc: Global,
    profile: Profile,
    input: &Input,
    most: usize,
    to: &mut Vec<Finding>,
) -> Result<(), AllocError> {
    for count in 1..=input.deeds.len().saturating_add(1) {
        call_front(alloc, profile, input, (most, count), to)?;
    }
    Ok(())
}
