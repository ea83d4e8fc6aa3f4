//! Turns: consecutive numbers hold one item in order.
ghost use Rattle.std.specs.Prelude.{◌≡◌, ◌+◌, ◌-◌, ◌^◌, ◌<◌, ◌↔◌, length, map, IfOk, OnOk, OnErr, IsSome, IsTrue};
ghost use Rattle.std.specs.Prelude.{slice_get, slice_set, Some};
ghost use Rattle.tiny_http_turns.specs.Turns.{Issue, Take, PutBack, Finish, Leave, Issued, Open, Held};
ghost use Rattle.tiny_http_turns.specs.Turns.{first_unfinished, mark_of, marks_after_step, turn_answer, pass_to};
ghost use Rattle.tiny_http_turns.specs.Turns.{ReportsPass};

use std::alloc::Global;
use std::collections::VecDeque;
use std::marker::Model;
use std::mem;
use thiserror::Error;

/// The reason why no number was issued.
#[derive(Clone, Copy, Debug, PartialEq, Eq, Error)]
pub enum TurnsError {
    /// Memory for the number's entry couldn't be allocated.
    #[error("out of memory")]
    Memory,
    /// 2^64 - 1 numbers have been issued.
    #[error("no number is left")]
    Exhausted,
}

/// The result of finishing a number.
#[derive(Drop)]
pub enum Finishing<T> {
    /// The number is finished. The item is stored until the next number takes it.
    Passed,
    /// The number is finished, and the next number, for which this text was left, is held. The caller must write the
    /// text with the item before it finishes that next number.
    Go(T, Vec<u8>),
    /// The number isn't held. The item is returned, and nothing has changed.
    Strange(T),
}

/// The result of leaving a text for a number's turn.
#[derive(Drop)]
pub enum Leaving<T> {
    /// The text waits for the number's turn. The call that finishes the previous number returns it.
    Left,
    /// The number's turn has come, and the number is held. The caller must write the text with the item before it
    /// finishes the number.
    Go(T, Vec<u8>),
    /// The number isn't open. The text is returned, and nothing has changed.
    Strange(Vec<u8>),
}

// The state of an unfinished number.
#[derive(Drop)]
enum Entry {
    // The number waits for its turn, or its turn has come and it may take the item.
    Open,
    // The number holds the item.
    Held,
    // This text waits. The call that finishes the previous number holds this number and returns the text.
    Left(Vec<u8>),
}

/// An item, such as the output of a connection, that is held in the order of issued numbers: each number may hold it
/// once all earlier numbers are finished.
///
/// No call blocks, and only `issue` allocates. Finished numbers take no memory. A contract sees a mark for each number,
/// and the item while no number holds it.
#[derive(Drop)]
pub struct Turns<T> {
    // The entries of the numbers from `turn` on. All numbers before `turn` are finished.
    entries: VecDeque<Entry>,
    turn: u64,
    resting: Option<T>,
}

impl<T> Model for Turns<T> {
    ghost use Rattle.std.specs.Prelude.{◌+◌, ◌<◌, ◌^◌, length};
    ghost use Rattle.tiny_http_turns.specs.Turns.{TurnsState, marks_of, IsInOrder};

    ghost Value = { TurnsState T };

    ghost view = { λ t. record { marks = marks_of t.turn t.entries.items; resting = t.resting } };

    ghost invariant = { λ t. IsInOrder (record { marks = marks_of t.turn t.entries.items; resting = t.resting })
        × (t.turn + length t.entries.items < 2 ^ 64) };
}

impl<T: Drop> Turns<T> {
    ghost use Rattle.tiny_http_turns.specs.Turns.{IsInOrder};
    ghost use Rattle.tiny_http_turns.specs.TurnsCalls.{new_turns, TakesTurn, PutsBack, Finishes, LeavesTurn, GivesBack};

    /// Creates a `Turns` that stores this item. No number has been issued yet.
    pub fn new(alloc: Global, item: T) -> Turns<T>
        ensures in_order { IsInOrder result }
        ensures new { result ≡ new_turns item }
    {
        Turns {
            entries: VecDeque::new(alloc),
            turn: 0,
            resting: Some(item),
        }
    }

    /// Issues the next number, starting from 0. Fails with `Exhausted` if 2^64 - 1 numbers have been issued, and only
    /// then; with `Memory` if memory for the entry can't be allocated. A call that fails changes nothing.
    pub fn issue(&mut self) -> Result<u64, TurnsError>
        ensures in_order { IsInOrder self.new }
        ensures number { IfOk result (λ n. turn_answer Issue self.old.marks ≡ Issued n) }
        ensures marks { OnOk result (self.new.marks ≡ marks_after_step Issue self.old.marks) }
        ensures resting { OnOk result (self.new.resting ≡ self.old.resting) }
        ensures err { OnErr result (self.new ≡ self.old) }
        ensures exhausted { (result ≡ Err TurnsError.Exhausted) ↔ (length self.old.marks ≡ 2 ^ 64 - 1) }
    {
        let number = self.turn + self.entries.len() as u64;
        if number == u64::MAX {
            return Err(TurnsError::Exhausted);
        }
        match self.entries.push_back(Entry::Open) {
            Ok(()) => Ok(number),
            Err(_) => Err(TurnsError::Memory),
        }
    }

    /// Holds the number and returns the item, if the number is open and is the first unfinished one. Otherwise returns
    /// `None` and changes nothing.
    pub fn take(&mut self, number: u64) -> Option<T>
        ensures in_order { IsInOrder self.new }
        ensures marks { self.new.marks ≡ marks_after_step (Take number) self.old.marks }
        ensures item { TakesTurn (turn_answer (Take number) self.old.marks) self.old.resting result self.new.resting }
        ensures held { IsSome result ↔ ((slice_get self.old.marks number ≡ Some Open)
            × (number ≡ first_unfinished self.old.marks)) }
    {
        if number == self.turn && is_open(&self.entries, 0) {
            set_entry(&mut self.entries, 0, Entry::Held);
            self.resting.take()
        } else {
            None
        }
    }

    /// Reopens a held number and stores the item. Fails with the item, and changes nothing, if the number isn't held.
    pub fn put_back(&mut self, number: u64, item: T) -> Result<(), T>
        ensures in_order { IsInOrder self.new }
        ensures marks { self.new.marks ≡ marks_after_step (PutBack number) self.old.marks }
        ensures item { PutsBack (turn_answer (PutBack number) self.old.marks) item self.old.resting result
            self.new.resting }
    {
        if number != self.turn || !is_front_held(&self.entries) {
            return Err(item);
        }
        set_entry(&mut self.entries, 0, Entry::Open);
        self.resting = Some(item);
        Ok(())
    }

    /// Returns the first unfinished number, whose turn it is, or the next number to be issued if all are finished.
    pub fn first_unfinished(&self) -> u64
        ensures { result ≡ first_unfinished self.now.marks }
    {
        self.turn
    }

    /// Finishes a held number. If a text was left for the next number, holds the next number and returns the text with
    /// the item; otherwise stores the item. Returns the item and changes nothing if the number isn't held.
    pub fn finish(&mut self, number: u64, item: T) -> Finishing<T>
        ensures in_order { IsInOrder self.new }
        ensures marks { self.new.marks ≡ marks_after_step (Finish number) self.old.marks }
        ensures item { Finishes (turn_answer (Finish number) self.old.marks) item self.old.resting result
            self.new.resting }
        // The next number fits in 64 bits.
        ensures bound { length self.new.marks < 2 ^ 64 }
    {
        if number != self.turn || !is_front_held(&self.entries) {
            return Finishing::Strange(item);
        }
        drop(self.entries.pop_front());
        self.turn = number + 1;
        match hold_left(&mut self.entries) {
            Some(text) => Finishing::Go(item, text),
            None => {
                self.resting = Some(item);
                Finishing::Passed
            }
        }
    }

    /// Leaves a text for an open number. If the number's turn has come, holds the number instead and returns the text
    /// with the item. Returns the text and changes nothing if the number isn't open.
    pub fn leave(&mut self, number: u64, text: Vec<u8>) -> Leaving<T>
        ensures in_order { IsInOrder self.new }
        ensures marks { self.new.marks ≡ marks_after_step (Leave number text.items) self.old.marks }
        ensures item { LeavesTurn (turn_answer (Leave number text.items) self.old.marks) self.old.resting result
            self.new.resting }
        ensures back { GivesBack result text }
    {
        if number < self.turn {
            return Leaving::Strange(text);
        }
        let at = (number - self.turn) as usize;
        if !is_open(&self.entries, at) {
            return Leaving::Strange(text);
        }
        if at != 0 {
            set_entry(&mut self.entries, at, Entry::Left(text));
            return Leaving::Left;
        }
        match self.resting.take() {
            Some(item) => {
                set_entry(&mut self.entries, 0, Entry::Held);
                Leaving::Go(item, text)
            }
            None => unreachable!(),
        }
    }

    /// Returns the item, or `None` if a number holds it.
    pub fn into_item(self) -> Option<T>
        ensures { result ≡ self.resting }
    {
        let Turns {
            entries: _,
            turn: _,
            resting,
        } = self;
        resting
    }
}

// Returns whether the number at this index is open.
fn is_open(entries: &VecDeque<Entry>, at: usize) -> bool
    ensures { IsTrue result ↔ (slice_get (map mark_of entries.now.items) at ≡ Some Open) }
{
    matches!(entries.get(at), Some(Entry::Open))
}

// Returns whether the first unfinished number is held.
fn is_front_held(entries: &VecDeque<Entry>) -> bool
    ensures { IsTrue result ↔ (slice_get (map mark_of entries.now.items) 0 ≡ Some Held) }
{
    matches!(entries.front(), Some(Entry::Held))
}

// Replaces the entry at this index, if there is one.
fn set_entry(entries: &mut VecDeque<Entry>, at: usize, entry: Entry)
    ensures { entries.new.items ≡ slice_set entries.old.items at entry }
{
    if let Some(place) = entries.get_mut(at) {
        *place = entry;
    }
}

// If a text was left for the first unfinished number, holds that number and returns the text.
fn hold_left(entries: &mut VecDeque<Entry>) -> Option<Vec<u8>>
    ensures marks { let old = map mark_of entries.old.items in
        map mark_of entries.new.items ≡ (pass_to (slice_get old 0) 0 old).1 }
    ensures text { let old = map mark_of entries.old.items in ReportsPass (pass_to (slice_get old 0) 0 old).0 0 result }
{
    let front = entries.front_mut()?;
    match mem::replace(front, Entry::Held) {
        Entry::Left(text) => Some(text),
        other => {
            *front = other;
            None
        }
    }
}
