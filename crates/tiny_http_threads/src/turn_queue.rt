//! Turns at using an item: the numbers issued to threads, and the threads that wait for their turns.
ghost use Rattle.std.specs.BTreeMap.{get};
ghost use Rattle.std.specs.Ordering.{nat_cmp};
ghost use Rattle.std.specs.Prelude.{◌≡◌, ◌≢◌, ℕ, ◌+◌, ◌-◌, ◌<◌, ◌↔◌, max, true, false, Some, None, IfOk, OnOk, OnErr};
ghost use Rattle.std.specs.Prelude.{IsSome, IsTrue, IfSome, length};
ghost use Rattle.tiny_http_turns.specs.Turns.{Issue, Take, Finish, Leave, Issued, marks_after_step, turn_answer};
ghost use Rattle.tiny_http_turns.specs.Turns.{first_unfinished};
ghost use Rattle.tiny_http_turns.specs.TurnsCalls.{TakesTurn, Finishes, LeavesTurn, GivesBack};

use std::alloc::{AllocError, Global};
use std::collections::BTreeMap;
use std::marker::Model;
use std::sync::atomic::{AtomicBool, AtomicU64, Ordering};
use std::sync::{Arc, Condvar, Mutex, Wait};
use std::thread;
use tiny_http_turns::turns::{Finishing, Leaving, Turns};

// The result of requesting the turn of a number.
#[derive(Drop)]
enum Taking<T> {
    // The turn has come: the number is held, with the item.
    Held(Box<T>),
    // The number waits, and its thread must wait on this condition.
    Waits(Arc<Condvar>),
    // Memory for the wait couldn't be allocated, or the number was never issued. Nothing has changed.
    Refused,
}

// The state of a turn queue, under its lock: the turns, and the numbers whose threads wait. Each of those was issued,
// and its turn hasn't come. Contracts see it as a `TurnQueueView`.
#[derive(Drop)]
struct TurnQueueState<T> {
    turns: Turns<Box<T>>,
    // The last number that `issue_unless_closed` issued.
    last: Option<u64>,
    // How many numbers have been issued.
    issued: u64,
    // The counter of unfinished numbers, if one is set.
    open: Option<Arc<AtomicU64>>,
    // The condition that wakes the thread of each waiting number.
    waiters: BTreeMap<u64, Arc<Condvar>>,
    // Whether a thread waits until a number is finished.
    wants_room: bool,
}

impl<T> Model for TurnQueueState<T> {
    ghost use Rattle.std.specs.Global.{Box, Global};
    ghost use Rattle.std.specs.Prelude.{◌≡◌, length};
    ghost use Rattle.std.specs.declared.sync.Arc.{Arc};
    ghost use Rattle.std.specs.declared.sync.Condvar.{Condvar};
    ghost use Rattle.std.specs.declared.sync.atomic.AtomicU64.{AtomicU64};
    ghost use Rattle.tiny_http_threads.specs.TurnQueue.{TurnQueueView, IsSoundTurnQueue};

    ghost Value = { TurnQueueView (Box T) (Arc Condvar Global) (Arc AtomicU64 Global) };

    ghost view = { λ q. record {
      turns = q.turns;
      waiting = q.waiters.entries;
      last = q.last;
      counter = q.open;
      wants_room = q.wants_room;
    } };

    ghost invariant = { λ q. (q.issued ≡ length q.turns.marks) × IsSoundTurnQueue (record {
      turns = q.turns;
      waiting = q.waiters.entries;
      last = q.last;
      counter = q.open;
      wants_room = q.wants_room;
    }) };
}

// Lists a number as waiting, and returns the condition variable that wakes its thread. No clause states that the
// returned condition variable is the listed one, since to contracts all of them are equal. Fails if memory can't be
// allocated, and then changes nothing.
fn list_waiter(
    waiters: &mut BTreeMap<u64, Arc<Condvar>>,
    alloc: Global,
    number: u64,
) -> Result<Arc<Condvar>, AllocError>
    ensures listed { OnOk result (IsSome (get nat_cmp waiters.new number)) }
    ensures others { (n : ℕ) → n ≢ number → get nat_cmp waiters.new n ≡ get nat_cmp waiters.old n }
    ensures again { IsSome (get nat_cmp waiters.old number) → waiters.new.entries ≡ waiters.old.entries }
    ensures err { OnErr result (waiters.new.entries ≡ waiters.old.entries) }
{
    if let Some(woken) = waiters.get(&number) {
        return Ok(Arc::try_clone(woken)?);
    }
    let woken = Arc::new(alloc, Condvar::new())?;
    let theirs = Arc::try_clone(&woken)?;
    waiters.insert(number, woken)?;
    Ok(theirs)
}

// Removes this number from those that wait, and returns the condition that wakes its thread, if it waited.
fn take_waiter(waiters: &mut BTreeMap<u64, Arc<Condvar>>, number: u64) -> Option<Arc<Condvar>>
    ensures woken { result ≡ get nat_cmp waiters.old number }
    ensures gone { get nat_cmp waiters.new number ≡ None }
    ensures others { (n : ℕ) → n ≢ number → get nat_cmp waiters.new n ≡ get nat_cmp waiters.old n }
{
    waiters.remove(&number)
}

impl<T: Drop> TurnQueueState<T> {
    ghost use Rattle.tiny_http_threads.specs.TurnQueue.{IsSoundTurnQueue, IsNewTurnQueue, ListsWaiter, WakesNext};
    ghost use Rattle.tiny_http_threads.specs.TurnQueue.{taken_item};

    // Creates the state before any number is issued. Fails if memory can't be allocated.
    fn new(alloc: Global, item: T) -> Result<TurnQueueState<T>, AllocError>
        ensures { IfOk result (λ q. IsNewTurnQueue item q) }
    {
        Ok(TurnQueueState {
            turns: Turns::new(alloc, Box::new(alloc, item)?),
            last: None,
            issued: 0,
            open: None,
            waiters: BTreeMap::new(alloc),
            wants_room: false,
        })
    }

    // Issues the next number. Fails if memory can't be allocated or no number is left; then nothing has changed.
    fn issue(&mut self) -> Result<u64, AllocError>
        ensures number { IfOk result (λ n. turn_answer Issue self.old.turns.marks ≡ Issued n) }
        ensures ok { OnOk result (self.new ≡ record self.old {
          turns = record self.old.turns { marks = marks_after_step Issue self.old.turns.marks };
        }) }
        ensures err { OnErr result (self.new ≡ self.old) }
    {
        match self.turns.issue() {
            Ok(number) => {
                self.issued = number.saturating_add(1);
                self.count_open();
                Ok(number)
            }
            Err(_) => Err(AllocError),
        }
    }

    // Returns whether this is the first unfinished number.
    fn is_first(&self, number: u64) -> bool
        ensures { IsTrue result ↔ (number ≡ first_unfinished self.now.turns.marks) }
    {
        self.turns.first_unfinished() == number
    }

    // Returns the count of unfinished numbers: those that have been issued and not yet finished.
    fn open(&self) -> u64
        ensures { result ≡ length self.now.turns.marks - first_unfinished self.now.turns.marks }
    {
        self.issued.saturating_sub(self.turns.first_unfinished())
    }

    // Returns whether fewer than `most` numbers are unfinished, or, if `most` is 0, whether none is.
    fn has_room(&self, most: usize) -> bool
        ensures { IsTrue result ↔ (length self.now.turns.marks - first_unfinished self.now.turns.marks < max most 1) }
    {
        self.open() < most.max(1) as u64
    }

    // Updates the counter of unfinished numbers.
    fn count_open(&self) {
        if let Some(open) = &self.open {
            open.store(self.open(), Ordering::SeqCst);
        }
    }

    // Stores the count of unfinished numbers in this counter, now and whenever it changes.
    fn set_open(&mut self, counter: Arc<AtomicU64>)
        ensures { self.new ≡ record self.old { counter = Some counter } }
    {
        self.open = Some(counter);
        self.count_open();
    }

    // Returns the last number that `issue_unless_closed` issued.
    fn last(&self) -> Option<u64>
        ensures { result ≡ self.now.last }
    {
        self.last
    }

    // Records the last number that `issue_unless_closed` issued.
    fn set_last(&mut self, number: u64)
        ensures { self.new ≡ record self.old { last = Some number } }
    {
        self.last = Some(number);
    }

    // Records that a thread waits until a number is finished.
    fn want_room(&mut self)
        ensures { self.new ≡ record self.old { wants_room = true } }
    {
        self.wants_room = true;
    }

    // Returns whether a thread waits until a number is finished, and clears that flag. If one waits, the caller must
    // wake it.
    fn gives_room(&mut self) -> bool
        ensures wanted { result ≡ self.old.wants_room }
        ensures room { self.new ≡ record self.old { wants_room = false } }
    {
        let wants_room = self.wants_room;
        self.wants_room = false;
        wants_room
    }

    // Holds the number if its turn has come, as `Turns` does. Otherwise lists the number as waiting. Refuses if memory
    // for the wait can't be allocated or the number was never issued.
    fn take(&mut self, alloc: Global, number: u64) -> Taking<T>
        ensures marks { self.new.turns.marks ≡ marks_after_step (Take number) self.old.turns.marks }
        ensures item { TakesTurn (turn_answer (Take number) self.old.turns.marks) self.old.turns.resting
            (taken_item result) self.new.turns.resting }
        ensures waits { ListsWaiter result number self.old.waiting self.new.waiting }
        ensures same { self.new ≡ record self.old { turns = self.new.turns; waiting = self.new.waiting } }
    {
        if let Some(item) = self.turns.take(number) {
            return Taking::Held(item);
        }
        if number >= self.issued {
            return Taking::Refused;
        }
        match list_waiter(&mut self.waiters, alloc, number) {
            Ok(woken) => Taking::Waits(woken),
            Err(_) => Taking::Refused,
        }
    }

    // Leaves a text for an open number, or holds the number if its turn has come, as `Turns` does.
    fn leave(&mut self, number: u64, text: Vec<u8>) -> Leaving<Box<T>>
        ensures marks { self.new.turns.marks ≡ marks_after_step (Leave number text.items) self.old.turns.marks }
        ensures item { LeavesTurn (turn_answer (Leave number text.items) self.old.turns.marks) self.old.turns.resting
            result self.new.turns.resting }
        ensures back { GivesBack result text }
        ensures same { self.new ≡ record self.old { turns = self.new.turns } }
    {
        self.turns.leave(number, text)
    }

    // Finishes a held number, as `Turns` does. If no number then holds the item, and the thread of the next number
    // waits, also removes that number from those that wait, and returns the condition that wakes its thread.
    fn finish(&mut self, number: u64, item: Box<T>) -> (Finishing<Box<T>>, Option<Arc<Condvar>>)
        ensures marks { self.new.turns.marks ≡ marks_after_step (Finish number) self.old.turns.marks }
        ensures item { Finishes (turn_answer (Finish number) self.old.turns.marks) item self.old.turns.resting
            result.0 self.new.turns.resting }
        ensures woken { WakesNext result.0 (first_unfinished self.new.turns.marks) self.old.waiting result.1
            self.new.waiting }
        ensures same { self.new ≡ record self.old { turns = self.new.turns; waiting = self.new.waiting } }
    {
        let finishing = self.turns.finish(number, item);
        let woken = if matches!(finishing, Finishing::Passed) {
            take_waiter(&mut self.waiters, self.turns.first_unfinished())
        } else {
            None
        };
        self.count_open();
        (finishing, woken)
    }
}

// Creates a turn queue with this state. Fails if memory can't be allocated.
fn share<T: Drop>(
    alloc: Global,
    state: TurnQueueState<T>,
) -> Result<Arc<TurnQueue<T>>, AllocError> {
    let queue = TurnQueue {
        state: Mutex::new(state),
        finished: Condvar::new(),
        is_closed: Arc::new(alloc, AtomicBool::new(false))?,
        closes_when_broken: AtomicBool::new(false),
        is_broken: AtomicBool::new(false),
    };
    Ok(Arc::new(alloc, queue)?)
}

/// An item that threads use one at a time, in the order of the numbers issued to them. A text may be left for a number;
/// whichever thread holds the item when that number's turn comes writes the text. The item and the texts are moved out
/// of the locked state, so no I/O is done under the lock.
#[derive(Drop)]
pub(crate) struct TurnQueue<T> {
    state: Mutex<TurnQueueState<T>>,
    // The condition on which a thread waits until a number is finished.
    finished: Condvar,
    // Whether the queue was closed. The flag may be set without the lock, since `Place::is_last` reads it before it
    // takes the lock.
    is_closed: Arc<AtomicBool>,
    // Whether the queue closes when its item breaks.
    closes_when_broken: AtomicBool,
    // Whether `break_queue` closed the queue: its item has failed or was ended, and anything written to it from then on
    // is lost.
    is_broken: AtomicBool,
}

impl<T: Drop> TurnQueue<T> {
    /// Creates a queue from which no number has been issued yet. Fails if memory can't be allocated.
    pub fn new(alloc: Global, item: T) -> Result<Arc<TurnQueue<T>>, AllocError> {
        share(alloc, TurnQueueState::new(alloc, item)?)
    }

    /// Issues the next number. Returns the number, and whether its turn has come. Fails if memory can't be allocated,
    /// or no number is left.
    pub fn issue<R: Wait>(&self, rt: &R) -> Result<(u64, bool), AllocError> {
        let mut state = self.state.lock(rt);
        let number = state.issue()?;
        Ok((number, state.is_first(number)))
    }

    /// Issues the next number as `issue` does, or returns `None` once the queue has been closed.
    pub fn issue_unless_closed<R: Wait>(&self, rt: &R) -> Result<Option<(u64, bool)>, AllocError> {
        let mut state = self.state.lock(rt);
        if self.is_closed() {
            return Ok(None);
        }
        let number = state.issue()?;
        state.set_last(number);
        Ok(Some((number, state.is_first(number))))
    }

    /// Stores the count of unfinished numbers in this counter, now and whenever it changes.
    pub fn set_open<R: Wait>(&self, rt: &R, open: Arc<AtomicU64>) {
        self.state.lock(rt).set_open(open);
    }

    /// Waits until fewer than `most` numbers are unfinished, or, if `most` is 0, until none is.
    pub fn wait_for_room<R: Wait>(&self, rt: &R, most: usize) {
        let mut state = self.state.lock(rt);
        for _ in rt.forever() {
            if state.has_room(most) {
                return;
            }
            state.want_room();
            state = self.finished.wait(rt, state);
        }
    }

    /// Returns whether the queue was closed.
    pub fn is_closed(&self) -> bool {
        self.is_closed.load(Ordering::SeqCst)
    }

    /// Returns the flag that closes the queue once it is set.
    pub fn closed_flag(&self) -> &Arc<AtomicBool> {
        &self.is_closed
    }

    /// Makes the queue close when its item breaks.
    pub fn close_when_broken(&self) {
        self.closes_when_broken.store(true, Ordering::SeqCst);
    }

    /// Leaves a text for an open number, to be written in that number's turn. If the turn has come, holds the number
    /// instead, and returns the item and the text. If the number isn't open, drops the text. Doesn't wait for any turn.
    pub fn leave<R: Wait>(&self, rt: &R, number: u64, text: Vec<u8>) -> Option<(Box<T>, Vec<u8>)>
        ensures { IfSome result (λ held. held.1 ≡ text) }
    {
        let left = self.state.lock(rt).leave(number, text);
        match left {
            Leaving::Go(item, text) => Some((item, text)),
            Leaving::Left | Leaving::Strange(_) => None,
        }
    }

    /// Finishes a held number. If a text was left for the next number, that number is now held, and the same item and
    /// the text are returned. Otherwise wakes the thread that waits for the next turn, if there is one. In either case
    /// also wakes a thread that waits in `wait_for_room`. If the number isn't held, drops the item.
    pub fn finish<R: Wait>(&self, rt: &R, number: u64, item: Box<T>) -> Option<(Box<T>, Vec<u8>)>
        ensures { IfSome result (λ next. next.0 ≡ item) }
    {
        let mut state = self.state.lock(rt);
        let (finishing, woken) = state.finish(number, item);
        let gives_room = state.gives_room();
        drop(state);
        if let Some(woken) = woken {
            woken.notify_one();
        }
        if gives_room {
            self.finished.notify_one();
        }
        match finishing {
            Finishing::Go(item, text) => Some((item, text)),
            Finishing::Passed | Finishing::Strange(_) => None,
        }
    }
}

/// A number of a turn queue, and the runtime with which its holder locks and waits.
#[derive(Drop)]
pub(crate) struct Place<T, R: Wait> {
    rt: R,
    queue: Arc<TurnQueue<T>>,
    number: u64,
}

impl<T: Drop, R: Wait + Drop> Place<T, R> {
    /// Closes the queue: `issue_unless_closed` issues no more numbers.
    pub fn close_queue(&self) {
        self.queue.is_closed.store(true, Ordering::SeqCst);
    }

    /// Returns whether the queue closes when its item breaks.
    pub fn closes_when_broken(&self) -> bool {
        self.queue.closes_when_broken.load(Ordering::SeqCst)
    }

    /// Closes the queue because its item has failed or was ended, if `close_when_broken` was called.
    pub fn break_queue(&self) {
        if self.closes_when_broken() {
            self.queue.is_broken.store(true, Ordering::SeqCst);
            self.close_queue();
        }
    }

    /// Returns whether `break_queue` closed the queue.
    pub fn is_broken(&self) -> bool {
        self.queue.is_broken.load(Ordering::SeqCst)
    }

    /// Returns whether the queue was closed, and this number is the last that `issue_unless_closed` issued.
    pub fn is_last(&self) -> bool {
        self.queue.is_closed() && self.queue.state.lock(&self.rt).last() == Some(self.number)
    }
}

/// A number of a turn queue, and the item while the number is held.
#[derive(Drop)]
pub(crate) struct Turn<T, R: Wait> {
    /// The number, in its queue.
    pub place: Place<T, R>,
    alloc: Global,
    // Whether the turn of the number had come when it was issued.
    is_next: bool,
    // The item, while the number is held.
    item: Option<Box<T>>,
}

impl<T: Drop, R: Wait + Drop> Turn<T, R> {
    /// Issues the next number of this queue. Fails if memory can't be allocated, or no number is left.
    pub fn new(rt: R, alloc: Global, queue: &Arc<TurnQueue<T>>) -> Result<Turn<T, R>, AllocError> {
        let queue = Arc::try_clone(queue)?;
        let (number, is_next) = queue.issue(&rt)?;
        Ok(Turn {
            place: Place { rt, queue, number },
            alloc,
            is_next,
            item: None,
        })
    }

    /// Issues the next number of this queue, or returns `None` once the queue has been closed. Fails if memory can't be
    /// allocated, or no number is left.
    pub fn new_unless_closed(
        rt: R,
        alloc: Global,
        queue: &Arc<TurnQueue<T>>,
    ) -> Result<Option<Turn<T, R>>, AllocError> {
        let queue = Arc::try_clone(queue)?;
        let Some((number, is_next)) = queue.issue_unless_closed(&rt)? else {
            return Ok(None);
        };
        Ok(Some(Turn {
            place: Place { rt, queue, number },
            alloc,
            is_next,
            item: None,
        }))
    }

    /// Returns the allocator with which the turn was created.
    pub fn alloc(&self) -> Global {
        self.alloc
    }

    /// Returns whether the turn of the number had come when it was issued, so that its holder needn't wait.
    pub fn is_next(&self) -> bool {
        self.is_next
    }

    // Waits for the turn, unless the number is held already, and holds the number. If memory for the wait can't be
    // allocated, retries until it succeeds.
    fn wait(&mut self)
        ensures { IsSome self.new.item }
    {
        if self.item.is_some() {
            return;
        }
        let Place { rt, queue, number } = &self.place;
        let mut state = queue.state.lock(rt);
        for _ in rt.forever() {
            match state.take(self.alloc, *number) {
                Taking::Held(item) => {
                    self.item = Some(item);
                    return;
                }
                Taking::Waits(woken) => state = woken.wait(rt, state),
                Taking::Refused => {
                    drop(state);
                    thread::yield_now();
                    state = queue.state.lock(rt);
                }
            }
        }
        unreachable!()
    }

    /// Holds the number if its turn has come, without waiting. Returns whether it is held.
    pub fn try_hold(&mut self) -> bool {
        if self.item.is_some() {
            return true;
        }
        let Place { rt, queue, number } = &self.place;
        let mut state = queue.state.lock(rt);
        match state.take(self.alloc, *number) {
            Taking::Held(item) => {
                self.item = Some(item);
                true
            }
            Taking::Waits(_) | Taking::Refused => false,
        }
    }

    /// Waits for the turn, unless the number is held already, and returns the item. If memory for the wait can't be
    /// allocated, retries until it succeeds.
    pub fn hold(&mut self) -> &mut T {
        self.wait();
        match &mut self.item {
            Some(item) => item,
            None => unreachable!(),
        }
    }

    /// Waits for the turn, unless the number is held already, and returns the held number with the item.
    pub fn into_held(self) -> Held<T, R> {
        let mut turn = self;
        turn.wait();
        let Turn {
            place,
            alloc: _,
            is_next: _,
            item,
        } = turn;
        match item {
            Some(item) => Held { item, place },
            None => unreachable!(),
        }
    }

    /// Leaves this text for the number. If its turn has come, holds the number instead, and returns it with the text.
    /// Doesn't wait for any turn.
    pub fn leave(self, text: Vec<u8>) -> Option<(Held<T, R>, Vec<u8>)>
        ensures { IfSome result (λ held. held.1 ≡ text) }
    {
        let Turn {
            place,
            alloc: _,
            is_next: _,
            item,
        } = self;
        let (item, text) = match item {
            Some(item) => (item, text),
            None => place.queue.leave(&place.rt, place.number, text)?,
        };
        Some((Held { item, place }, text))
    }
}

/// A number whose turn has come, and the item, which only its holder uses.
#[derive(Drop)]
pub struct Held<T, R: Wait> {
    /// The item.
    pub item: Box<T>,
    pub(crate) place: Place<T, R>,
}

impl<T: Drop, R: Wait + Drop> Held<T, R> {
    /// Creates a turn queue of this item, and holds its first number. Fails if memory can't be allocated.
    pub(crate) fn first(rt: R, alloc: Global, item: T) -> Result<Held<T, R>, AllocError>
        ensures { IfOk result (λ held. held.item.value ≡ item) }
    {
        let mut state = TurnQueueState::new(alloc, item)?;
        let number = state.issue()?;
        let Taking::Held(item) = state.take(alloc, number) else {
            unreachable!()
        };
        let queue = share(alloc, state)?;
        let place = Place { rt, queue, number };
        Ok(Held { item, place })
    }

    /// Returns another handle to the queue. Fails if 2^63 - 1 handles exist.
    pub(crate) fn queue(&self) -> Result<Arc<TurnQueue<T>>, AllocError> {
        Ok(Arc::try_clone(&self.place.queue)?)
    }

    /// Finishes the number. If a text was left for the next number, that number is now held, and is returned with the
    /// same item and the text.
    pub fn finish(self) -> Option<(Held<T, R>, Vec<u8>)>
        ensures { IfSome result (λ next. next.0.item ≡ self.item) }
    {
        let Held { item, place } = self;
        let Place { rt, queue, number } = place;
        let (item, text) = queue.finish(&rt, number, item)?;
        let number = number.checked_add(1)?;
        let place = Place { rt, queue, number };
        Some((Held { item, place }, text))
    }
}
