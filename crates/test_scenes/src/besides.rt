//! Runs the threads and the pool jobs that a scene starts.
use crate::hands::Hands;
use crate::links::Host;
use crate::playing::{Stage, play_lines};
use std::alloc::{AllocError, Global};
use std::net::Net;
use std::sync::atomic::{AtomicBool, Ordering};
use std::sync::{Arc, Wait};
use std::thread;
use std::thread::JoinHandle;
use std::time::{Clock, Duration};
use test_scene_files::mishap::{Mishap, demand};
use test_scene_files::scene::Line;
use test_scene_props::jobs::{Failure, copies_of, job_of};
use test_scene_props::props::shared;
use tiny_http::connection::SocketFiles;
use tiny_http::messages_queue::MessagesQueue;

// Time in milliseconds for which a thread or job is watched to see whether it waits.
const WATCHED: u64 = 20;

// The result of a thread: what it still holds of the server and the props, and the step at which it failed, if any.
#[derive(Drop)]
pub(crate) struct Done<R: Net + SocketFiles + Wait + Clock + Drop> {
    hands: Hands<R>,
    failure: Option<Failure>,
}

// The runner of the steps: a thread or a pool job.
#[derive(Drop)]
enum Player<R: Net + SocketFiles + Wait + Clock + Drop> {
    Thread(JoinHandle<Done<R>>),
    // A pool job. When it is done, it pushes its failure here, or `None` if no step failed.
    Job(Arc<MessagesQueue<Option<Failure>>>),
}

/// A thread or a job of a scene.
#[derive(Drop)]
pub(crate) struct Beside<R: Net + SocketFiles + Wait + Clock + Drop> {
    name: String,
    has_ended: Arc<AtomicBool>,
    player: Player<R>,
}

// Plays the steps of a thread, and then sets `has_ended`.
fn play_beside<R: Host>(
    rt: &R,
    alloc: Global,
    hands: Hands<R>,
    (lines, has_ended): (Vec<Line>, Arc<AtomicBool>),
) -> Done<R> {
    let mut hands = hands;
    let failure = play_lines(rt, alloc, &mut hands, lines.as_slice());
    has_ended.store(true, Ordering::SeqCst);
    Done { hands, failure }
}

// Adds a thread or job called `name` to the stage.
fn add_beside<R: Host>(
    alloc: Global,
    stage: &mut Stage<R>,
    (name, has_ended): (&str, Arc<AtomicBool>),
    player: Player<R>,
) -> Result<(), Mishap> {
    let beside = Beside {
        name: String::from_str(alloc, name)?,
        has_ended,
        player,
    };
    Ok(stage.besides.push(beside).map_err(AllocError::from)?)
}

/// Starts a thread called `name` that plays `lines`, with what they need from the stage's hands (`Hands::part`).
pub(crate) fn begin<R: Host>(
    rt: &R,
    alloc: Global,
    stage: &mut Stage<R>,
    (name, lines): (&str, &[Line]),
) -> Result<(), Mishap> {
    let hands = stage.hands.part(alloc, lines)?;
    let lines = copies_of(alloc, lines)?;
    let has_ended = shared(alloc, AtomicBool::new(false))?;
    let ends = Arc::try_clone(&has_ended)?;
    let theirs = *rt;
    let Ok(thread) = thread::spawn(rt, move || {
        play_beside(&theirs, alloc, hands, (lines, ends))
    }) else {
        return Err(Mishap::Unplayable("there is no thread"));
    };
    add_beside(alloc, stage, (name, has_ended), Player::Thread(thread))
}

/// Spawns a pool job called `name` that plays `lines`.
pub(crate) fn spawn_job<R: Host>(
    rt: &R,
    alloc: Global,
    stage: &mut Stage<R>,
    (name, lines): (&str, &[Line]),
) -> Result<(), Mishap> {
    let has_ended = shared(alloc, AtomicBool::new(false))?;
    let job = job_of(rt, alloc, &stage.hands.props.queue, (lines, &has_ended))?;
    let done = Arc::try_clone(&job.done)?;
    let Some(pool) = &stage.pool else {
        return Err(Mishap::Unplayable("there is no pool"));
    };
    if pool.spawn(rt, alloc, job).is_err() {
        return Err(Mishap::Unplayable("the job comes back"));
    }
    add_beside(alloc, stage, (name, has_ended), Player::Job(done))
}

// Returns the index of the last thread or job called `name`, or `usize::MAX` if there is none.
fn place_of_thread<R: Host>(stage: &Stage<R>, name: &str) -> usize {
    let place = stage
        .besides
        .iter()
        .rposition(|beside| beside.name.as_str() == name);
    place.unwrap_or(usize::MAX)
}

// Joins a thread that has ended, and takes back what it still holds, or receives the result of a job. Returns the
// failure of the thread or job, if any.
fn join<R: Host>(rt: &R, stage: &mut Stage<R>, beside: Beside<R>) -> Option<Failure> {
    let Beside {
        name: _,
        has_ended: _,
        player,
    } = beside;
    match player {
        Player::Thread(thread) => {
            let Done { hands, failure } = thread.join(rt);
            let _ = stage.hands.join(hands);
            failure
        }
        Player::Job(done) => done.pop(rt).flatten(),
    }
}

// Returns whether `is_so` becomes true within `millis` milliseconds.
fn comes_true<R: Host>(rt: &R, is_so: &AtomicBool, millis: u64) -> bool {
    for _ in 0..millis {
        if is_so.load(Ordering::SeqCst) {
            return true;
        }
        thread::sleep(rt, Duration::from_millis(1));
    }
    is_so.load(Ordering::SeqCst)
}

/// Waits until the thread or job called `name` ends, and returns its failure, if any. Fails if no thread or job has
/// this name, or if the wait takes more than `millis` milliseconds.
pub(crate) fn end<R: Host>(
    rt: &R,
    alloc: Global,
    stage: &mut Stage<R>,
    (name, millis): (&str, u64),
) -> Result<Option<Failure>, Mishap> {
    let place = place_of_thread(stage, name);
    let has_ended = match stage.besides.get(place) {
        Some(beside) => Arc::try_clone(&beside.has_ended)?,
        None => return Err(Mishap::Unplayable("there is no thread of this name")),
    };
    let holds = comes_true(rt, &has_ended, millis);
    demand(alloc, "the thread ends", holds)?;
    if place >= stage.besides.len() {
        return Ok(None);
    }
    let beside = stage.besides.remove(place);
    Ok(join(rt, stage, beside))
}

/// Expects that the thread or job called `name` has not ended after `WATCHED` milliseconds. Fails if no thread or job
/// has this name.
pub(crate) fn wait<R: Host>(
    rt: &R,
    alloc: Global,
    stage: &Stage<R>,
    name: &str,
) -> Result<(), Mishap> {
    match stage.besides.get(place_of_thread(stage, name)) {
        Some(beside) => {
            let has_ended = comes_true(rt, &beside.has_ended, WATCHED);
            demand(alloc, "the thread waits", !has_ended)
        }
        None => Err(Mishap::Unplayable("there is no thread of this name")),
    }
}
