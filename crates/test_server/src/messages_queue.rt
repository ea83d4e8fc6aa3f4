//! Tests of a queue shared by threads, and of what a queue refuses if memory can't be allocated.
use crate::same::{assert_holds, assert_same};
use std::alloc::Global;
use std::process::Abort;
use std::sync::{Arc, Wait};
use std::test::Fail;
use std::thread;
use std::thread::{JoinHandle, Threads};
use std::time::{Clock, Duration, Instant};
use tiny_http::messages_queue::{MessagesQueue, Popped, QueueState};

// Number of threads that push, and number of threads that pop.
const THREADS: usize = 8;

// Number of values that each pushing thread pushes.
const VALUES: usize = 10_000;

// A value: the index of its pusher, and its number.
type Numbered = (usize, usize);

// A runtime with what these tests need, which can abort a test that fails.
trait Host: Threads + Wait + Abort + Copy + Send + 'static {}

impl<R: Threads + Wait + Abort + Copy + Send + 'static> Host for R {}

// Creates an empty queue.
fn empty_queue<T: Drop>(rt: &impl Abort, alloc: Global) -> Arc<MessagesQueue<T>> {
    MessagesQueue::with_capacity(alloc, 8).expect(rt, "memory")
}

fn push<T: Drop, R: Wait + Abort>(rt: &R, queue: &MessagesQueue<T>, value: T) {
    queue.push(rt, value).ok().expect(rt, "memory");
}

// Adds an unblock mark to a queue.
fn unblock<T: Drop, R: Wait + Abort>(rt: &R, queue: &MessagesQueue<T>) {
    queue.unblock(rt).expect(rt, "memory");
}

// Pops from a queue, and asserts the result.
fn assert_pops(rt: &impl Abort, queue: &mut QueueState<usize>, wanted: Popped<usize>) {
    assert_same(rt, queue.pop(), wanted);
}

#[test]
fn room_past_all_memory_is_refused(rt: HostRuntime) {
    let refused = MessagesQueue::<u64>::with_capacity(rt.alloc(), usize::MAX);
    assert_holds(&rt, "there is no such room", refused.is_err());
}

// Pushes a value. Returns whether the queue accepted the value, and asserts that it otherwise handed the value back.
fn is_pushed(rt: &impl Abort, queue: &mut QueueState<usize>, value: usize) -> bool {
    match queue.push(value) {
        Ok(()) => true,
        Err(back) => {
            assert_same(rt, back, value);
            false
        }
    }
}

// Pushes a value, and then an unblock mark. Returns whether each was accepted.
fn push_both(rt: &impl Abort, queue: &mut QueueState<usize>, value: usize) -> (bool, bool) {
    let is_there = is_pushed(rt, queue, value);
    (is_there, queue.unblock().is_ok())
}

// Asserts that the value and the mark are popped, each if it was accepted.
fn assert_pops_both(
    rt: &impl Abort,
    queue: &mut QueueState<usize>,
    value: usize,
    pushed: (bool, bool),
) {
    if pushed.0 {
        assert_pops(rt, queue, Popped::Value(value));
    }
    if pushed.1 {
        assert_pops(rt, queue, Popped::Unblocked);
    }
}

// When this is run with each allocation failing in turn, it shows that a refused push or mark changes nothing.
#[test]
fn a_refusal_changes_nothing(rt: HostRuntime) {
    let mut queue = QueueState::new(rt.alloc());
    let mut pushed = [(false, false); 64];
    for (number, both) in pushed.iter_mut().enumerate() {
        *both = push_both(&rt, &mut queue, number);
    }
    for (number, both) in pushed.iter().enumerate() {
        assert_pops_both(&rt, &mut queue, number, *both);
    }
    assert_pops(&rt, &mut queue, Popped::Empty);
}

// Creates another handle to a shared value.
fn shared<T>(rt: &impl Abort, value: &Arc<T>) -> Arc<T> {
    Arc::try_clone(value).expect(rt, "memory")
}

// Maximum number of rounds, each of which adds a value or a mark and waits for the reply. Also the reply to a mark,
// since no round has this number.
const ROUNDS: u16 = 2_000;

// The value that ends the rounds.
const LAST: u16 = 2_001;

// Replies to each value with the value, and to each mark with `ROUNDS`, until the value is `LAST`.
fn answer_each<R: Wait + Abort>(rt: &R, queue: &MessagesQueue<u16>, answers: &MessagesQueue<u16>) {
    for _ in rt.forever() {
        let found = queue.pop(rt);
        if found == Some(LAST) {
            return;
        }
        push(rt, answers, found.unwrap_or(ROUNDS));
    }
}

// Starts a thread that replies to each value and each mark.
fn start_answers<R: Host>(
    rt: &R,
    queue: &Arc<MessagesQueue<u16>>,
    answers: &Arc<MessagesQueue<u16>>,
) -> JoinHandle<()> {
    let (theirs, queue, answers) = (*rt, shared(rt, queue), shared(rt, answers));
    let started = thread::spawn(rt, move || answer_each(&theirs, &queue, &answers));
    started.ok().expect(rt, "a thread")
}

// Pushes a value, or a mark in every other round, and asserts the reply.
fn assert_answered<R: Wait + Abort>(
    rt: &R,
    queue: &MessagesQueue<u16>,
    answers: &MessagesQueue<u16>,
    round: u16,
) {
    let is_value = round % 2 == 0;
    match is_value {
        true => push(rt, queue, round),
        false => unblock(rt, queue),
    }
    let wanted = if is_value { round } else { ROUNDS };
    assert_same(rt, (round, answers.pop(rt)), (round, Some(wanted)));
}

// Returns whether less than 5 s have passed since `start`, or `false` if the clock can't be read.
fn is_early<R: Clock>(rt: &R, start: &Instant) -> bool {
    start
        .elapsed(rt)
        .is_ok_and(|spent| spent < Duration::from_secs(5))
}

// If a value or a mark were added after its wake-up, sometimes nobody would find it, and the round would not end.
#[test]
fn no_wake_is_lost(rt: HostRuntime) -> Result<(), Fail> {
    let queue = empty_queue(&rt, rt.alloc());
    let answers = empty_queue(&rt, rt.alloc());
    let answering = start_answers(&rt, &queue, &answers);
    let start = Instant::now(&rt)?;
    for round in 0..ROUNDS {
        if is_early(&rt, &start) {
            assert_answered(&rt, &queue, &answers, round);
        }
    }
    push(&rt, &queue, LAST);
    answering.join(&rt);
    assert_same(&rt, answers.try_pop(&rt), None);
    Ok(())
}

// Pushes all values of one thread. Returns the number of values that were refused.
fn push_all<R: Wait>(rt: &R, queue: &MessagesQueue<Numbered>, pusher: usize) -> usize {
    let mut refused = 0usize;
    for number in 0..VALUES {
        if queue.push(rt, (pusher, number)).is_err() {
            refused = refused.saturating_add(1);
        }
    }
    refused
}

// Pops values up to the first mark. Returns the values in order, or `None` if memory can't be allocated.
fn pop_all<R: Wait>(
    rt: &R,
    alloc: Global,
    queue: &MessagesQueue<Numbered>,
) -> Option<Vec<Numbered>> {
    let mut came = Vec::new(alloc);
    for _ in rt.forever() {
        match queue.pop(rt) {
            Some(value) => came.push(value).ok()?,
            None => return Some(came),
        }
    }
    unreachable!()
}

// Returns whether the values of each pusher are in order.
fn is_in_order(came: &[Numbered]) -> bool {
    let mut least = [0usize; THREADS];
    for (pusher, number) in came {
        let Some(least) = least.get_mut(*pusher) else {
            return false;
        };
        if *number < *least {
            return false;
        }
        *least = number.saturating_add(1);
    }
    true
}

// Counts each value at its index among the values of all threads.
fn count_in(seen: &mut [u8], came: &[Numbered]) {
    for (pusher, number) in came {
        let at = pusher.saturating_mul(VALUES).saturating_add(*number);
        if let Some(times) = seen.get_mut(at) {
            *times = times.saturating_add(1);
        }
    }
}

// Starts a thread that pushes all values of this index.
fn start_pusher<R: Host>(
    rt: &R,
    queue: &Arc<MessagesQueue<Numbered>>,
    pusher: usize,
) -> JoinHandle<usize> {
    let (theirs, queue) = (*rt, shared(rt, queue));
    let started = thread::spawn(rt, move || push_all(&theirs, &queue, pusher));
    started.ok().expect(rt, "a thread")
}

// Starts eight threads, each of which pushes all values of its index.
fn start_pushers<R: Host>(
    rt: &R,
    alloc: Global,
    queue: &Arc<MessagesQueue<Numbered>>,
) -> Vec<JoinHandle<usize>> {
    let mut pushing = Vec::new(alloc);
    for pusher in 0..THREADS {
        let started = start_pusher(rt, queue, pusher);
        pushing.push(started).ok().expect(rt, "memory");
    }
    pushing
}

// Starts a thread that pops up to the first mark.
fn start_popper<R: Host>(
    rt: &R,
    alloc: Global,
    queue: &Arc<MessagesQueue<Numbered>>,
) -> JoinHandle<Option<Vec<Numbered>>> {
    let (theirs, queue) = (*rt, shared(rt, queue));
    let started = thread::spawn(rt, move || pop_all(&theirs, alloc, &queue));
    started.ok().expect(rt, "a thread")
}

// Starts eight threads, each of which pops up to its first mark.
fn start_poppers<R: Host>(
    rt: &R,
    alloc: Global,
    queue: &Arc<MessagesQueue<Numbered>>,
) -> Vec<JoinHandle<Option<Vec<Numbered>>>> {
    let mut popping = Vec::new(alloc);
    for _ in 0..THREADS {
        let started = start_popper(rt, alloc, queue);
        popping.push(started).ok().expect(rt, "memory");
    }
    popping
}

// Pushes all values on eight threads, and asserts that none is refused. Then adds a mark for each popping thread.
fn push_by_eight<R: Host>(rt: &R, alloc: Global, queue: &Arc<MessagesQueue<Numbered>>) {
    for pusher in start_pushers(rt, alloc, queue) {
        assert_same(rt, pusher.join(rt), 0);
    }
    for _ in 0..THREADS {
        unblock(rt, queue);
    }
}

// Asserts that the values popped by one thread are in order, and counts them.
fn assert_in_order(rt: &impl Abort, came: Option<Vec<Numbered>>, seen: &mut [u8]) {
    let came = came.expect(rt, "memory");
    assert_holds(rt, "each pusher's values are in order", is_in_order(&came));
    count_in(seen, &came);
}

#[test]
fn eight_push_and_eight_pop(rt: HostRuntime) {
    let queue = empty_queue(&rt, rt.alloc());
    let popping = start_poppers(&rt, rt.alloc(), &queue);
    push_by_eight(&rt, rt.alloc(), &queue);
    let mut seen = vec![in rt.alloc(); 0u8; THREADS * VALUES].expect(&rt, "memory");
    for popper in popping {
        assert_in_order(&rt, popper.join(&rt), &mut seen);
    }
    let is_once = seen.iter().all(|times| *times == 1);
    assert_holds(&rt, "each value comes once", is_once);
    assert_same(&rt, queue.try_pop(&rt), None);
}
