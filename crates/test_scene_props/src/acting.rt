//! Runs the steps of a scene that need no server.
use crate::in_turn::{act_in_turn, act_turns};
use crate::memory::act_memory;
use crate::named::{get, take};
use crate::props::Props;
use crate::queue::act_queue;
use crate::requests::date_now;
use std::alloc::Global;
use std::sync::Wait;
use std::thread;
use std::time::{Clock, Duration, Instant};
use test_data_files::text::text_of;
use test_scene_files::client::{millis_since, now_of};
use test_scene_files::deed::{ClientDeed, Deed};
use test_scene_files::mishap::{Mishap, differs};

fn start_clock<R: Wait + Clock + Drop>(rt: &R, props: &mut Props<R>) -> Result<(), Mishap> {
    props.clock = Some(now_of(rt)?);
    Ok(())
}

// Returns the time at which the clock was started. Fails if it wasn't.
fn begun_in(clock: Option<Instant>) -> Result<Instant, Mishap> {
    match clock {
        Some(begun) => Ok(begun),
        None => Err(Mishap::Unplayable("the clock wasn't started")),
    }
}

// Returns the milliseconds since the clock was started. Fails if it wasn't.
fn clock_of<R: Wait + Clock + Drop>(rt: &R, props: &Props<R>) -> Result<u64, Mishap> {
    millis_since(rt, begun_in(props.clock)?)
}

// Ends a lap, keeps its time if it is the shortest so far, and begins the next one.
fn end_lap<R: Wait + Clock + Drop>(rt: &R, props: &mut Props<R>) -> Result<(), Mishap> {
    let lap = clock_of(rt, props)?;
    props.shortest = Some(props.shortest.map_or(lap, |shortest| shortest.min(lap)));
    start_clock(rt, props)
}

// If `is_below`, fails unless the elapsed time `gone` is less than `millis`; otherwise, fails unless it is at least
// `millis`. The error leaves out `gone`, so that a scene that must fail always prints the same text.
fn demand_time(alloc: Global, gone: u64, (millis, is_below): (u64, bool)) -> Result<(), Mishap> {
    if (gone < millis) == is_below {
        return Ok(());
    }
    let bound = if is_below { "below" } else { "at least" };
    let wanted = format!(in alloc; "{bound} {millis} ms")?;
    Err(differs(alloc, wanted.as_str(), "not so"))
}

// Runs a step on the connected client called `name`.
fn act_client<R: Wait + Clock + Drop>(
    rt: &R,
    alloc: Global,
    props: &mut Props<R>,
    (name, deed): (&str, ClientDeed<'_>),
) -> Result<(), Mishap> {
    if let ClientDeed::Leaves = deed {
        drop(take(&mut props.clients, name)?);
        return Ok(());
    }
    let clock = props.clock;
    let client = get(&mut props.clients, name)?;
    match deed {
        ClientDeed::Sends(text) => client.send(text_of(alloc, text)?.as_slice()),
        ClientDeed::Drips(text, millis) => {
            client.drip(rt, text_of(alloc, text)?.as_slice(), millis)
        }
        ClientDeed::DripsOn(text, millis, times) => {
            let text = text_of(alloc, text)?;
            client.drip_on(rt, begun_in(clock)?, (text.as_slice(), millis), times)
        }
        ClientDeed::IsCutOff(text) => client.is_cut_off(text_of(alloc, text)?.as_slice()),
        ClientDeed::Sips(count, millis) => client.sip(rt, count, millis),
        ClientDeed::Gets(text) => client.gets(text_of(alloc, text)?.as_slice()),
        ClientDeed::DateChanged => client.date_changed(),
        ClientDeed::DatedWithin(seconds) => {
            client.dated_within(date_now(rt).unix_secs(), seconds)
        }
        ClientDeed::Counts(least, most) => client.counts(least, most),
        ClientDeed::IsIdle(millis) => client.is_idle(rt, millis),
        ClientDeed::IsClosed => client.is_closed(),
        ClientDeed::IsGone => client.is_gone(),
        ClientDeed::HalfCloses => client.half_close(),
        ClientDeed::Connects | ClientDeed::Leaves => Err(Mishap::Unplayable("it can't do that")),
    }
}

/// Runs a pause, or a step on a connected client, the queue, a connection or request over memory, readers or writers
/// that take turns, or the clock. Fails at any other step.
pub fn act_without_server<R: Wait + Clock + Copy>(
    rt: &R,
    alloc: Global,
    props: &mut Props<R>,
    deed: Deed<'_>,
) -> Result<(), Mishap> {
    match deed {
        Deed::Client(name, deed) => act_client(rt, alloc, props, (name, deed)),
        Deed::Queue(deed) => act_queue(rt, alloc, props.queue()?, deed),
        Deed::Memory(deed) => act_memory(rt, alloc, props, deed),
        Deed::Turns(deed) => act_turns(rt, alloc, props, deed),
        Deed::Turn(name, deed) => act_in_turn(alloc, props, name, deed),
        Deed::Pause(millis) => {
            thread::sleep(rt, Duration::from_millis(millis));
            Ok(())
        }
        Deed::ClockStarts => start_clock(rt, props),
        Deed::ClockBelow(millis) => demand_time(alloc, clock_of(rt, props)?, (millis, true)),
        Deed::ClockAbove(millis) => demand_time(alloc, clock_of(rt, props)?, (millis, false)),
        Deed::ClockLap => end_lap(rt, props),
        Deed::ShortestLap(millis) => {
            demand_time(alloc, props.shortest.unwrap_or(u64::MAX), (millis, true))
        }
        _ => Err(Mishap::Unplayable("only a server does that")),
    }
}
