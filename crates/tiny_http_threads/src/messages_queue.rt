//! A queue that threads share, with marks that unblock a waiting thread.
ghost use Rattle.std.specs.Prelude.{◌≡◌, ◌++◌, ◌∷◌, [], Some, None, OnOk, OnErr, IfOk, IfErr, IfSome, IsSome};
ghost use Rattle.std.specs.Prelude.{IsSomeAnd, ◌↔◌, ◌+◌, ◌≤◌};
ghost use Rattle.std.specs.Duration.{as_nanos};
ghost use Rattle.tiny_http_threads.specs.Queue.{popped_value};

use std::alloc::{AllocError, Global};
use std::collections::VecDeque;
use std::marker::Model;
use std::sync::{Arc, Condvar, Mutex, MutexGuard, Wait};
use std::time::{Clock, Duration, Instant};
use tiny_http_waiting::idle_threads::IdleThreads;

/// The result of popping the front of a queue.
#[derive(Debug, PartialEq, Eq, Drop)]
pub enum Popped<T> {
    /// A value.
    Value(T),
    /// An unblock mark.
    Unblocked,
    /// Nothing: the queue is empty.
    Empty,
}

/// A first-in, first-out queue of values and unblock marks. Contracts see it as a list, front first, with `None` for a
/// mark.
#[derive(Drop)]
pub struct QueueState<T> {
    marks: VecDeque<Option<T>>,
}

impl<T> Model for QueueState<T> {
    ghost use Rattle.std.specs.Prelude.{List, Option};

    ghost Value = { List (Option T) };

    ghost view = { λ q. q.marks.items };
}

impl<T: Drop> QueueState<T> {
    /// Creates an empty queue.
    pub fn new(alloc: Global) -> QueueState<T>
        ensures { result ≡ [] }
    {
        QueueState {
            marks: VecDeque::new(alloc),
        }
    }

    // Creates an empty queue with this capacity. Fails if memory can't be allocated.
    fn with_capacity(alloc: Global, capacity: usize) -> Result<QueueState<T>, AllocError>
        ensures { IfOk result (λ queue. queue ≡ []) }
    {
        Ok(QueueState {
            marks: VecDeque::with_capacity(alloc, capacity)?,
        })
    }

    /// Adds an unblock mark at the back. Fails if memory can't be allocated, and then changes nothing.
    pub fn unblock(&mut self) -> Result<(), AllocError>
        ensures ok { OnOk result (self.new ≡ self.old ++ (None ∷ [])) }
        ensures err { OnErr result (self.new ≡ self.old) }
    {
        match self.marks.push_back(None) {
            Ok(()) => Ok(()),
            Err(_) => Err(AllocError),
        }
    }
}

// Without `T: Drop` a value can't be dropped, so none of these calls can lose a value.
impl<T> QueueState<T> {
    ghost use Rattle.tiny_http_threads.specs.Queue.{Pops};

    /// Adds a value at the back. If memory can't be allocated, the error hands back the value, and nothing has changed.
    pub fn push(&mut self, value: T) -> Result<(), T>
        ensures ok { OnOk result (self.new ≡ self.old ++ (Some value ∷ [])) }
        ensures err { OnErr result (self.new ≡ self.old) }
        ensures back { IfErr result (λ back. back ≡ value) }
    {
        match self.marks.push_back(Some(value)) {
            Ok(()) => Ok(()),
            Err(refused) => match refused.value {
                Some(back) => Err(back),
                None => unreachable!(),
            },
        }
    }

    // Returns whether the queue is empty.
    fn is_empty(&self) -> bool {
        self.marks.is_empty()
    }

    /// Takes the value or the mark at the front, if the queue isn't empty.
    pub fn pop(&mut self) -> Popped<T>
        ensures { Pops self.old result self.new }
    {
        match self.marks.pop_front() {
            Some(Some(value)) => Popped::Value(value),
            Some(None) => Popped::Unblocked,
            None => Popped::Empty,
        }
    }
}

// A queue, and the threads that wait for it.
#[derive(Drop)]
struct Shared<T> {
    queue: QueueState<T>,
    threads: IdleThreads,
}

impl<T> Shared<T> {
    // Returns whether a waiting thread must be woken now, which then counts as woken: if there is something to pop, and
    // no other thread is being woken. The woken thread calls this again.
    fn takes_wake(&mut self) -> bool {
        let wanted = usize::from(!self.queue.is_empty());
        self.threads.wake(wanted) > 0
    }
}

/// A queue that threads share: a `QueueState` behind a lock. Each call is a single atomic operation on that state,
/// except for `clear`, and for the pops that wait, which retry until there is something to pop or they time out. One
/// waiting thread is woken at a time, and wakes the next one if there is more to pop. The lock is released before a
/// thread is woken. No contract here states what a call did to the queue.
#[derive(Drop)]
pub struct MessagesQueue<T> {
    shared: Mutex<Shared<T>>,
    woken: Condvar,
}

impl<T: Drop> MessagesQueue<T> {
    /// Creates an empty queue with capacity for `capacity` values and marks. Fails if memory can't be allocated.
    pub fn with_capacity(
        alloc: Global,
        capacity: usize,
    ) -> Result<Arc<MessagesQueue<T>>, AllocError> {
        let shared = Shared {
            queue: QueueState::with_capacity(alloc, capacity)?,
            threads: IdleThreads::new(),
        };
        let queue = MessagesQueue {
            shared: Mutex::new(shared),
            woken: Condvar::new(),
        };
        Ok(Arc::new(alloc, queue)?)
    }

    /// Adds an unblock mark at the back, for which one pop returns `None`, and wakes a waiting thread. Fails if memory
    /// can't be allocated.
    pub fn unblock<R: Wait>(&self, rt: &R) -> Result<(), AllocError> {
        let mut shared = self.shared.lock(rt);
        shared.queue.unblock()?;
        self.wake(shared);
        Ok(())
    }

    /// Removes one value or mark after another until the queue is empty, and drops each outside the lock.
    pub fn clear<R: Wait>(&self, rt: &R) {
        for _ in rt.forever() {
            let found = self.shared.lock(rt).queue.pop();
            if let Popped::Empty = found {
                return;
            }
        }
    }
}

// As above, without `T: Drop` no call can lose a value.
impl<T> MessagesQueue<T> {
    /// Adds a value at the back, and wakes a waiting thread. If memory can't be allocated, the error hands back the
    /// value.
    pub fn push<R: Wait>(&self, rt: &R, value: T) -> Result<(), T>
        ensures { IfErr result (λ back. back ≡ value) }
    {
        let mut shared = self.shared.lock(rt);
        shared.queue.push(value)?;
        self.wake(shared);
        Ok(())
    }

    // Releases the lock, and wakes a waiting thread if one must be woken (`takes_wake`).
    fn wake(&self, mut shared: MutexGuard<'_, Shared<T>>) {
        let wakes = shared.takes_wake();
        drop(shared);
        if wakes {
            self.woken.notify_one();
        }
    }

    /// Waits until there is something at the front, and takes it. Returns a value, or `None` for an unblock mark.
    pub fn pop<R: Wait>(&self, rt: &R) -> Option<T> {
        let mut shared = self.shared.lock(rt);
        for _ in rt.forever() {
            match shared.queue.pop() {
                Popped::Empty => {
                    shared.threads.begin_rest();
                    shared = self.woken.wait(rt, shared);
                    shared.threads.end_rest();
                }
                found => {
                    self.wake(shared);
                    return popped_value(found);
                }
            }
        }
        unreachable!()
    }

    /// Takes what is at the front. Returns a value, or `None` for an unblock mark or an empty queue.
    pub fn try_pop<R: Wait>(&self, rt: &R) -> Option<T> {
        let found = self.shared.lock(rt).queue.pop();
        popped_value(found)
    }

    /// Pops as `pop` does, but returns `None` after `timeout`. Each wait is for the time that remains. Less than a
    /// millisecond counts as none, and so does any remaining time if the clock can't be read. The queue is checked
    /// before the first wait and after each one.
    pub fn pop_timeout<R: Wait + Clock>(&self, rt: &R, timeout: Duration) -> Option<T> {
        let mut shared = self.shared.lock(rt);
        let mut found = shared.queue.pop();
        let mut start = None;
        for _ in rt.forever() {
            let Popped::Empty = found else { break };
            if start.is_none() {
                start = Instant::now(rt).ok();
            }
            let elapsed = start.and_then(|start| start.elapsed(rt).ok());
            let Some(left) = time_left(timeout, elapsed) else {
                break;
            };
            shared.threads.begin_rest();
            shared = self.woken.wait_timeout(rt, shared, left).0;
            shared.threads.end_rest();
            found = shared.queue.pop();
        }
        self.wake(shared);
        popped_value(found)
    }
}

// Converts what a pop found into its result: `None` for an unblock mark or an empty queue.
fn popped_value<T>(found: Popped<T>) -> Option<T>
    ensures { result ≡ popped_value found }
{
    match found {
        Popped::Value(value) => Some(value),
        Popped::Unblocked | Popped::Empty => None,
    }
}

// Returns the rest of the timeout, if it is at least a millisecond and the elapsed time is known.
fn time_left(timeout: Duration, elapsed: Option<Duration>) -> Option<Duration>
    ensures enough { IsSome result ↔ IsSomeAnd elapsed (λ spent. as_nanos spent + 1_000_000 ≤ as_nanos timeout) }
    ensures rest { IfSome result
        (λ left. IsSomeAnd elapsed (λ spent. as_nanos left + as_nanos spent ≡ as_nanos timeout)) }
{
    let left = timeout.checked_sub(elapsed?)?;
    if left.as_nanos() < 1_000_000 {
        return None;
    }
    Some(left)
}

#[cfg(test)]
mod tests;
