//! Runs the steps on a scene's queue.
use std::alloc::Global;
use std::sync::Wait;
use std::time::{Clock, Duration};
use test_scene_files::grounds::{Popped, QueueDeed};
use test_scene_files::mishap::{Mishap, differs};
use tiny_http_threads::messages_queue::MessagesQueue;

// Maximum number of pops by `pop_past`.
const MOST_PASSED: u32 = 1_000;

// Compares the result of a pop with the expected one.
fn demand_popped(alloc: Global, wanted: Popped, came: Option<u64>) -> Result<(), Mishap> {
    let holds = match wanted {
        Popped::Value(value) => came == Some(value),
        Popped::Something => came.is_some(),
        Popped::Nothing => came.is_none(),
        Popped::Anything => true,
    };
    if holds {
        return Ok(());
    }
    let wanted = match wanted {
        Popped::Value(value) => format!(in alloc; "{value}")?,
        Popped::Nothing => String::from_str(alloc, "nothing")?,
        Popped::Something | Popped::Anything => String::from_str(alloc, "something")?,
    };
    let came = format!(in alloc; "{came:?}")?;
    Err(differs(alloc, wanted.as_str(), came.as_str()))
}

// Pops until the result is not `passed`, and returns that result, or `passed` if all of `MOST_PASSED` pops returned it.
// `most`, if set, limits the time of each pop.
fn pop_past<R: Wait + Clock>(
    rt: &R,
    queue: &MessagesQueue<u64>,
    passed: u64,
    most: Option<Duration>,
) -> Option<u64> {
    for _ in 0..MOST_PASSED {
        let came = match most {
            Some(most) => queue.pop_timeout(rt, most),
            None => queue.pop(rt),
        };
        if came != Some(passed) {
            return came;
        }
    }
    Some(passed)
}

/// Runs a step on the queue. Fails if a pop doesn't return the expected result, or if memory can't be allocated.
pub fn act_queue<R: Wait + Clock>(
    rt: &R,
    alloc: Global,
    queue: &MessagesQueue<u64>,
    deed: QueueDeed,
) -> Result<(), Mishap> {
    let (wanted, came) = match deed {
        QueueDeed::Push(value) => {
            return match queue.push(rt, value) {
                Ok(()) => Ok(()),
                Err(_) => Err(Mishap::OutOfMemory),
            };
        }
        QueueDeed::Unblock => return Ok(queue.unblock(rt)?),
        QueueDeed::Clear => {
            queue.clear(rt);
            return Ok(());
        }
        QueueDeed::Pop(wanted) => (wanted, queue.pop(rt)),
        QueueDeed::PopPast(passed, wanted) => (wanted, pop_past(rt, queue, passed, None)),
        QueueDeed::PopTimeout(millis, wanted) => {
            (wanted, queue.pop_timeout(rt, Duration::from_millis(millis)))
        }
        QueueDeed::PopTimeoutPast(millis, passed, wanted) => {
            let most = Duration::from_millis(millis);
            (wanted, pop_past(rt, queue, passed, Some(most)))
        }
        QueueDeed::TryPop(wanted) => (wanted, queue.try_pop(rt)),
    };
    demand_popped(alloc, wanted, came)
}
