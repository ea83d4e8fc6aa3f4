//! The table of the connections that wait or are served.
ghost use Rattle.std.specs.Prelude.{◌≡◌, ◌↔◌, ◌-◌, ◌≤◌, ℕ, slice_get, All, IfSome, IfNone, IsTrue};
ghost use Rattle.std.specs.Duration.{as_nanos};
ghost use Rattle.std.specs.Option.{option_map};
ghost use Rattle.tiny_http_waiting.specs.WaitTable.{nobody, event_at, wait_at, leave_at, Enters, TakesLate, WaitsUntil};
ghost use Rattle.tiny_http_waiting.specs.WaitTable.{earlier, earliest_at_wait, RenewsEarliest, nanos_left};
ghost use Rattle.tiny_http_waiting.specs.WaitTable.{IsOver, NoneWaits, NoWaitIsOver, IsFirstEnd};

use std::alloc::{AllocError, Global};
use std::marker::Model;
use std::mem;
use std::time::Duration;

/// The state of a token.
#[derive(Debug, Drop)]
pub enum Slot<T> {
    /// No connection has the token.
    Free,
    /// The connection waits for an event, at most until this time. The table holds its item.
    Waiting(T, Duration),
    /// The connection is served. The flag says whether an event has arrived since its item was handed out.
    Served(bool),
}

impl<T> Slot<T> {
    ghost use Rattle.tiny_http_waiting.specs.WaitTable.{after_event, item_of, after_wait, item_at_wait};

    // Returns the state after an event, and the item if the connection waited.
    fn at_event(self) -> (Slot<T>, Option<T>)
        ensures { result ≡ (after_event self, item_of self) }
    {
        match self {
            Slot::Waiting(item, _) => (Slot::Served(false), Some(item)),
            Slot::Served(_) => (Slot::Served(true), None),
            Slot::Free => (Slot::Free, None),
        }
    }

    // Returns the state after a call to `wait`, and the item if it isn't stored.
    fn at_wait(self, item: T, until: Duration) -> (Slot<T>, Option<T>)
        ensures { result ≡ (after_wait item until self, item_at_wait item self) }
    {
        match self {
            Slot::Served(false) => (Slot::Waiting(item, until), None),
            Slot::Served(true) => (Slot::Served(false), Some(item)),
            same => (same, Some(item)),
        }
    }

    // Returns the item if the connection waits.
    fn into_item(self) -> Option<T>
        ensures { result ≡ item_of self }
    {
        match self {
            Slot::Waiting(item, _) => Some(item),
            Slot::Served(_) | Slot::Free => None,
        }
    }

    // Returns `true` if no connection has the token.
    fn is_free(&self) -> bool
        ensures { IsTrue result ↔ (self.now ≡ Slot.Free) }
    {
        match self {
            Slot::Free => true,
            Slot::Waiting(_, _) | Slot::Served(_) => false,
        }
    }
}

/// The connections of a server that wait for an event on their socket, and those that are served.
///
/// Each connection has a token and an item. `wait` stores the item, and `event`, `take_late` and `leave` hand it out,
/// so either the table or one caller has it. An event for a connection that is served is kept, and makes the next
/// `wait` hand the item back. Contracts see the slot of each token, from token 0 on, and a time before which no wait
/// ends.
#[derive(Drop)]
pub struct WaitTable<T> {
    slots: Vec<Slot<T>>,
    // Tokens that have become free. Each is checked before it is used again.
    free: Vec<usize>,
    // A time at or before the end of each wait. `None` only if no connection waits.
    earliest: Option<Duration>,
}

impl<T> Model for WaitTable<T> {
    ghost use Rattle.tiny_http_waiting.specs.WaitTable.{Waits, NoWaitEndsBefore};

    ghost Value = { Waits T };

    ghost view = { λ t. record { slots = t.slots.items; earliest = t.earliest } };

    ghost invariant = { λ t. NoWaitEndsBefore t.earliest t.slots.items };
}

impl<T: Drop> WaitTable<T> {
    /// Creates an empty table.
    pub fn new(alloc: Global) -> WaitTable<T>
        ensures { result ≡ nobody }
    {
        WaitTable {
            slots: Vec::new(alloc),
            free: Vec::new(alloc),
            earliest: None,
        }
    }

    /// Returns `true` if no token is in use.
    pub fn is_empty(&self) -> bool
        ensures { IsTrue result ↔ All (λ slot. slot ≡ Slot.Free) self.now.slots }
    {
        self.slots.iter().all(|slot| slot.is_free())
    }

    /// Adds a connection that is served, with no event kept, and returns its token, which no other connection has.
    /// Fails if memory can't be allocated, and then changes nothing.
    pub fn enter(&mut self) -> Result<usize, AllocError>
        ensures slots { Enters self.old.slots result self.new.slots }
        ensures earliest { self.new.earliest ≡ self.old.earliest }
    {
        if let Some(token) = self.free.pop()
            && let Some(Slot::Free) = self.slots.get(token)
        {
            self.slots[token] = Slot::Served(false);
            return Ok(token);
        }
        let token = self.slots.len();
        self.slots.push(Slot::Served(false))?;
        Ok(token)
    }

    /// Records an event on the socket with this token. If its connection waits, returns its item, and the connection is
    /// served from then on. If it is served, the event is kept until the next `wait`. If no connection has the token,
    /// nothing changes.
    pub fn event(&mut self, token: usize) -> Option<T>
        ensures slots { (result, self.new.slots) ≡ event_at (slice_get self.old.slots token) token self.old.slots }
        ensures earliest { self.new.earliest ≡ self.old.earliest }
    {
        let slot = self.slots.get_mut(token)?;
        let (after, item) = mem::replace(slot, Slot::Free).at_event();
        *slot = after;
        item
    }

    /// Makes a served connection wait for an event, at most until this time of a monotonic clock, and stores its item.
    /// Returns the item if an event has arrived since it was handed out; the connection is then still served, and the
    /// event is no longer kept. Returns the item and changes nothing if no served connection has this token.
    pub fn wait(&mut self, token: usize, item: T, until: Duration) -> Option<T>
        ensures slots { (result, self.new.slots)
            ≡ wait_at (slice_get self.old.slots token) token item until self.old.slots }
        ensures earliest { self.new.earliest ≡ earliest_at_wait result until self.old.earliest }
    {
        let Some(slot) = self.slots.get_mut(token) else {
            return Some(item);
        };
        let (after, back) = mem::replace(slot, Slot::Free).at_wait(item, until);
        *slot = after;
        if back.is_none() {
            self.earliest = Some(earlier(self.earliest, until));
        }
        back
    }

    /// Removes the connection with this token, and returns its item if it waited.
    pub fn leave(&mut self, token: usize) -> Option<T>
        ensures slots { (result, self.new.slots) ≡ leave_at (slice_get self.old.slots token) token self.old.slots }
        ensures earliest { self.new.earliest ≡ self.old.earliest }
    {
        let slot = self.slots.get_mut(token)?;
        let before = mem::replace(slot, Slot::Free);
        if !before.is_free() {
            // If memory can't be allocated, the token isn't used again.
            let _ = self.free.push(token);
        }
        before.into_item()
    }

    /// Takes the item of a connection whose wait is over at `now`, with its token. The connection is then served, with
    /// no event kept. Returns `None` if no wait is over.
    pub fn take_late(&mut self, now: Duration) -> Option<(usize, T)>
        ensures slots { TakesLate (as_nanos now) self.old.slots result self.new.slots }
        ensures earliest { RenewsEarliest (as_nanos now) result self.old self.new.earliest }
    {
        let earliest = self.earliest?;
        if !is_over(earliest, now) {
            return None;
        }
        let Some(token) = late_token(&self.slots, now) else {
            self.earliest = earliest_end(&self.slots);
            return None;
        };
        let item = mem::replace(&mut self.slots[token], Slot::Served(false)).into_item()?;
        Some((token, item))
    }

    /// Returns how long, from `now`, the caller may wait for events before it calls `take_late`: no wait ends sooner.
    /// Returns `None` only if no connection waits.
    pub fn time_left(&self, now: Duration) -> Option<Duration>
        ensures earliest { option_map as_nanos result ≡ nanos_left (as_nanos now) self.now.earliest }
        ensures none { IfNone result (NoneWaits self.now.slots) }
        ensures some { IfSome result (λ left. (token : ℕ) (item : T) (until : Duration)
            → WaitsUntil self.now.slots token item until
            → as_nanos left ≤ as_nanos until - as_nanos now) }
    {
        Some(self.earliest?.saturating_sub(now))
    }
}

// Returns `true` if a wait until this time is over at `now`.
fn is_over(until: Duration, now: Duration) -> bool
    ensures { IsTrue result ↔ (as_nanos until ≤ as_nanos now) }
{
    until.as_nanos() <= now.as_nanos()
}

// Returns the earlier of two times, or the second if there is no first.
fn earlier(first: Option<Duration>, second: Duration) -> Duration
    ensures { result ≡ earlier first second }
{
    match first {
        Some(time) if is_over(time, second) => time,
        _ => second,
    }
}

// Returns the first token whose connection waits and whose wait is over at `now`.
fn late_token<T>(slots: &[Slot<T>], now: Duration) -> Option<usize>
    ensures none { IfNone result (NoWaitIsOver (as_nanos now) slots.now) }
    ensures some { IfSome result (λ token. (item : T) × IsOver (as_nanos now) slots.now token item) }
{
    for (token, slot) in slots.iter().enumerate() {
        if let Slot::Waiting(_, until) = slot
            && is_over(*until, now)
        {
            return Some(token);
        }
    }
    None
}

// Returns the time at which the first wait ends, or `None` if no connection waits.
fn earliest_end<T>(slots: &[Slot<T>]) -> Option<Duration>
    ensures { IsFirstEnd result slots.now }
{
    let mut earliest = None;
    for slot in slots {
        if let Slot::Waiting(_, until) = slot {
            earliest = Some(earlier(earliest, *until));
        }
    }
    earliest
}
