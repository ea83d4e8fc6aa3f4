//! The queue of the tasks that are ready to be run, from which each worker prefers to take those of some tokens.
ghost use Rattle.std.specs.Prelude.{◌≡◌, ◌⊎◌, ◌↔◌, [], OnOk, OnErr, IfErr, IfSome, IfNone, IsTrue, length};
ghost use Rattle.tiny_http_waiting.specs.ReadyQueue.{Pushes, Pops, IsPreferredAt};

use std::alloc::Global;
use std::collections::VecDeque;
use std::marker::Model;

/// The number of groups of tokens. Each worker prefers one group, by its own number.
pub const GROUPS: usize = 4;

/// The number of tasks added later that may be taken before the first task.
pub const MOST_OVERTAKING: u64 = 64;

/// A task that is ready to be run.
#[derive(Drop)]
pub struct Turn<T> {
    /// The task's token.
    pub token: usize,
    /// The task.
    pub task: T,
    /// The number of tasks that were added before this one.
    pub number: u64,
}

/// The tasks that are ready to be run, in the order in which they were added.
#[derive(Drop)]
pub struct ReadyQueue<T> {
    turns: VecDeque<Turn<T>>,
    // The number of tasks that have been added.
    added: u64,
}

impl<T> Model for ReadyQueue<T> {
    ghost use Rattle.tiny_http_waiting.specs.ReadyQueue.{Ready};

    ghost Value = { Ready T };

    ghost view = { λ q. record { turns = q.turns.items; added = q.added } };
}

impl<T: Drop> ReadyQueue<T> {
    /// Returns a queue without tasks.
    pub fn new(alloc: Global) -> ReadyQueue<T>
        ensures { result ≡ record { turns = []; added = 0 } }
    {
        ReadyQueue {
            turns: VecDeque::new(alloc),
            added: 0,
        }
    }
}

impl<T> ReadyQueue<T> {
    /// Returns the number of tasks.
    pub fn len(&self) -> usize
        ensures { result ≡ length self.now.turns }
    {
        self.turns.len()
    }

    /// Returns whether there is no task.
    pub fn is_empty(&self) -> bool
        ensures { IsTrue result ↔ (self.now.turns ≡ []) }
    {
        self.turns.is_empty()
    }

    /// Adds a task at the back. If memory can't be allocated, the error hands back the task, and nothing has changed.
    pub fn push(&mut self, token: usize, task: T) -> Result<(), T>
        ensures ok { OnOk result (Pushes self.old token task self.new) }
        ensures err { OnErr result (self.new ≡ self.old) }
        ensures back { IfErr result (λ back. back ≡ task) }
    {
        let turn = Turn {
            token,
            task,
            number: self.added,
        };
        match self.turns.push_back(turn) {
            Ok(()) => {
                self.added = self.added.saturating_add(1);
                Ok(())
            }
            Err(refused) => Err(refused.value.task),
        }
    }

    /// Takes the first task, or one that worker `worker` prefers: a connection that mostly one worker serves has its
    /// memory in the caches of one processor. At most `MOST_OVERTAKING` tasks that were added later are taken before
    /// the first one.
    pub fn pop(&mut self, worker: usize) -> Option<Turn<T>>
        ensures none { IfNone result ((self.old.turns ≡ []) × (self.new ≡ self.old)) }
        ensures some { IfSome result (λ turn. Pops worker self.old turn self.new) }
    {
        let place = self.place_for(worker);
        self.turns.remove(place)
    }

    // Returns the place of the first task that the worker prefers and may take, or 0 if there is none.
    fn place_for(&self, worker: usize) -> usize
        ensures { (result ≡ 0) ⊎ IsPreferredAt worker self.now.turns result }
    {
        let Some(first) = self.turns.front() else {
            return 0;
        };
        let most = first.number.saturating_add(MOST_OVERTAKING);
        for place in 0..self.turns.len() {
            if let Some(turn) = self.turns.get(place) {
                if turn.number > most {
                    return 0;
                }
                if turn.token % GROUPS == worker % GROUPS {
                    return place;
                }
            }
        }
        0
    }
}
