//! The workers that read or serve a server's connections. A connection that waits for its client takes no worker.
//!
//! One worker at a time waits on the `Poll` for events. It serves the first ready connection itself, and wakes an idle
//! worker for every few others. While all workers serve, none waits on the `Poll`: if that lasts,
//! another thread, the watcher, wakes or starts a worker. So a quick handler costs few thread switches, and a slow one
//! delays other connections by only a few milliseconds.
use crate::registry::time_of;
use mio::unix::SourceFd;
use mio::{Events, Interest, Poll, Registry, Token, Waker};
use std::alloc::{AllocError, Global};
use std::io::ErrorKind;
use std::net::Net;
use std::os::fd::RawFd;
use std::sync::{Arc, Condvar, Mutex, MutexGuard, Wait};
use std::thread::Threads;
use std::time::{Clock, Duration};
use std::{io, mem, thread};
use tiny_http_threads::task_pool::{IDLE_MILLIS, MIN_THREADS};
use tiny_http_waiting::idle_threads::IdleThreads;
use tiny_http_waiting::ready_queue::{ReadyQueue, Turn};
use tiny_http_waiting::wait_table::WaitTable;

// Maximum number of events that are taken at once.
const MOST_EVENTS: usize = 64;

// The number of ready tasks for which one idle worker is woken: a wake costs about as much time as some tasks take.
const TASKS_OF_A_WAKE: usize = 4;

// How long ready tasks wait before the watcher wakes or starts workers for those that weren't taken, in milliseconds.
const STALL_MILLIS: u64 = 2;

// The token of the waker. No connection has it.
const WAKER: usize = usize::MAX;

/// What a task waits for.
#[derive(Clone, Copy, Debug, PartialEq, Eq)]
pub(crate) enum Progress {
    /// An event on its socket, until this time of the monotonic clock.
    Waits(Duration),
    /// Nothing: the task is over.
    Over,
    /// Nothing here: the task continues elsewhere, and this crew takes no further events of this socket.
    Left(RawFd),
}

/// What a crew works on, such as a connection.
pub(crate) trait Task {
    /// Continues the task after an event, or, if `is_late` is true, because its wait has timed out.
    fn run(&mut self, is_late: bool) -> Progress;
}

// A task that is ready to be run.
#[derive(Drop)]
struct ReadyTask<T> {
    task: Box<T>,
    // Whether the time of its wait is over.
    is_late: bool,
}

// What a worker needs to wait for events.
#[derive(Drop)]
struct Poller {
    poll: Poll,
    events: Events,
}

#[derive(Drop)]
struct CrewState<T> {
    table: WaitTable<Box<T>>,
    ready: ReadyQueue<ReadyTask<T>>,
    // For each token, whether an event has reported, since the task was last taken to be run, that its client sends no
    // more.
    ended: Vec<bool>,
    // `None` while a worker waits for events.
    poller: Option<Poller>,
    // The time until which the worker waits for events, if there is such a worker.
    polls_until: Duration,
    running: usize,
    threads: IdleThreads,
    // How often a worker has taken a task or the poller.
    turns: u64,
    watcher_rests: bool,
    is_closed: bool,
}

impl<T: Drop> CrewState<T> {
    // Returns whether the crew is closed and no task is left.
    fn is_over(&self) -> bool {
        self.is_closed && self.table.is_empty()
    }

    // Returns whether no worker waits for events, or a ready task still waits for a worker.
    fn is_unattended(&self) -> bool {
        self.poller.is_some() || !self.ready.is_empty()
    }

    // Adds a token for a task, and returns it. Fails if memory can't be allocated.
    fn enter(&mut self) -> Result<usize, AllocError> {
        let token = self.table.enter()?;
        for _ in self.ended.len()..=token {
            if self.ended.push(false).is_err() {
                self.leave(token);
                return Err(AllocError);
            }
        }
        Ok(token)
    }

    // Records that this token's client sends no more.
    fn end_input(&mut self, token: usize) {
        if let Some(ended) = self.ended.get_mut(token) {
            *ended = true;
        }
    }

    // Returns whether the client of this token sends no more.
    fn has_ended(&self, token: usize) -> bool {
        self.ended.get(token).is_some_and(|ended| *ended)
    }

    // Removes a task that is over.
    fn leave(&mut self, token: usize) {
        if let Some(ended) = self.ended.get_mut(token) {
            *ended = false;
        }
        drop(self.table.leave(token));
    }

    // Returns whether this token's client sends no more, and clears that record.
    fn take_ended(&mut self, token: usize) -> bool {
        match self.ended.get_mut(token) {
            Some(ended) => mem::replace(ended, false),
            None => false,
        }
    }

    // Makes a task wait for an event until this time. Returns the task instead if an event has already arrived, or if
    // it is to be run `again`.
    fn wait_unless(
        &mut self,
        again: bool,
        token: usize,
        task: Box<T>,
        until: Duration,
    ) -> Option<Box<T>> {
        if again {
            return Some(task);
        }
        self.table.wait(token, task, until)
    }

    // Adds a task to be run. If memory can't be allocated, returns the task.
    fn add_ready(&mut self, token: usize, task: Box<T>, is_late: bool) -> Option<Box<T>> {
        match self.ready.push(token, ReadyTask { task, is_late }) {
            Ok(()) => None,
            Err(refused) => Some(refused.task),
        }
    }
}

/// The workers of a server or of a call to `serve`, and the tasks on which they work. They end once the crew has been
/// closed and every task is over.
#[derive(Drop)]
pub(crate) struct Crew<T> {
    state: Mutex<CrewState<T>>,
    worker_woken: Condvar,
    watcher_woken: Condvar,
    registry: Registry,
    waker: Waker,
    most: usize,
}

impl<T: Task + Drop> Crew<T> {
    // Wakes workers if tasks are ready: an idle one for each `TASKS_OF_A_WAKE` of them, or, if none is idle, the one that
    // waits for events. Wakes the watcher if it rests.
    fn wake(&self, state: &mut CrewState<T>) {
        let wanted = state.ready.len().div_ceil(TASKS_OF_A_WAKE);
        for _ in 0..state.threads.wake(wanted) {
            self.worker_woken.notify_one();
        }
        if wanted > 0 && state.threads.idle == 0 {
            self.wake_poller(state);
        }
        if state.watcher_rests {
            state.watcher_rests = false;
            self.watcher_woken.notify_one();
        }
    }

    // Wakes the worker that waits for events, if there is one.
    fn wake_poller(&self, state: &CrewState<T>) {
        if state.poller.is_none() {
            let _ = self.waker.wake();
        }
    }

    // Runs tasks and waits for events as worker `worker`, until the worker must end.
    fn work<R: Wait + Clock>(&self, rt: &R, worker: usize) {
        let mut state = self.state.lock(rt);
        for _ in rt.forever() {
            if let Some(turn) = state.ready.pop(worker) {
                state.turns = state.turns.wrapping_add(1);
                let ended = state.take_ended(turn.token);
                self.wake(&mut state);
                drop(state);
                state = self.run(rt, turn, ended);
            } else if state.is_over() {
                state.running = state.running.saturating_sub(1);
                self.wake_all();
                return;
            } else if let Some(poller) = state.poller.take() {
                state.turns = state.turns.wrapping_add(1);
                state = self.poll(rt, state, poller);
            } else {
                let (woken, has_ended) = self.rest(rt, state, worker);
                state = woken;
                if has_ended {
                    return;
                }
            }
        }
    }

    // Runs a task. If its client sends no more (`ended`), it is run again afterwards, so that it reads the end.
    fn run<'a, R: Wait>(
        &'a self,
        rt: &R,
        turn: Turn<ReadyTask<T>>,
        ended: bool,
    ) -> MutexGuard<'a, CrewState<T>> {
        let token = turn.token;
        let ReadyTask { mut task, is_late } = turn.task;
        let progress = task.run(is_late);
        let Progress::Waits(until) = progress else {
            if let Progress::Left(socket) = progress {
                let _ = self.registry.deregister(&mut SourceFd(&socket));
            }
            drop(task);
            let mut state = self.state.lock(rt);
            state.leave(token);
            return state;
        };
        let mut state = self.state.lock(rt);
        let again = ended || state.has_ended(token);
        let Some(task) = state.wait_unless(again, token, task, until) else {
            self.poll_until(&state, until);
            return state;
        };
        if let Some(refused) = state.add_ready(token, task, false) {
            drop(state);
            drop(refused);
            state = self.state.lock(rt);
            state.leave(token);
        }
        state
    }

    // Wakes the worker that waits for events, if it would wait beyond this time.
    fn poll_until(&self, state: &CrewState<T>, until: Duration) {
        if until < state.polls_until {
            self.wake_poller(state);
        }
    }

    // Waits for events, or until a task's wait is over, and makes the tasks concerned ready.
    fn poll<'a, R: Wait + Clock>(
        &'a self,
        rt: &R,
        mut state: MutexGuard<'a, CrewState<T>>,
        mut poller: Poller,
    ) -> MutexGuard<'a, CrewState<T>> {
        let now = time_of(rt);
        let timeout = state.table.time_left(now);
        state.polls_until = timeout.map_or(Duration::MAX, |timeout| now.saturating_add(timeout));
        drop(state);
        let _ = poller.poll.poll(&mut poller.events, timeout);
        let mut state = self.state.lock(rt);
        let mut count = 0usize;
        for event in poller.events.iter() {
            count = count.saturating_add(1);
            note_event(&mut state, event.token().0, event.is_read_closed());
        }
        if count < MOST_EVENTS {
            take_late(&mut state, time_of(rt));
        }
        state.poller = Some(poller);
        state
    }

    // Waits to be woken. Returns whether the worker must end, after 5000 ms without work: then it no longer counts as
    // running. The first `MIN_THREADS` workers, of which each prefers tasks of its own, wait for any time.
    fn rest<'a, R: Wait + Clock>(
        &'a self,
        rt: &R,
        mut state: MutexGuard<'a, CrewState<T>>,
        worker: usize,
    ) -> (MutexGuard<'a, CrewState<T>>, bool) {
        state.threads.begin_rest();
        let mut timed_out = false;
        if worker >= MIN_THREADS {
            let timeout = Duration::from_millis(IDLE_MILLIS);
            let (woken, waited) = self.worker_woken.wait_timeout(rt, state, timeout);
            state = woken;
            timed_out = waited.timed_out();
        } else {
            state = self.worker_woken.wait(rt, state);
        }
        state.threads.end_rest();
        let has_ended = timed_out && !state.is_unattended();
        if has_ended {
            state.running = state.running.saturating_sub(1);
        }
        (state, has_ended)
    }

    // Wakes every thread of the crew.
    fn wake_all(&self) {
        self.worker_woken.notify_all();
        self.watcher_woken.notify_all();
        let _ = self.waker.wake();
    }

    /// Closes the crew: once no task is left, its threads end.
    pub fn close<R: Wait>(&self, rt: &R) {
        self.state.lock(rt).is_closed = true;
        self.wake_all();
    }

    /// Adds a task, with the socket whose events it waits for, if it has one. It first waits for an event, at most
    /// until this time, or, without a time, is run at once. If memory can't be allocated or a system call fails, drops
    /// the task.
    pub fn add<R: Wait>(
        &self,
        rt: &R,
        alloc: Global,
        task: T,
        socket: Option<RawFd>,
        until: Option<Duration>,
    ) {
        let Ok(task) = Box::new(alloc, task) else {
            return;
        };
        let Ok(token) = self.state.lock(rt).enter() else {
            return;
        };
        let refused = if socket.is_none_or(|fd| self.register(token, fd)) {
            self.begin(rt, token, task, until)
        } else {
            Some(task)
        };
        if refused.is_some() {
            drop(refused);
            self.state.lock(rt).leave(token);
        }
    }

    // Has the poller report the events of this socket under a token. Returns false if that is refused.
    fn register(&self, token: usize, fd: RawFd) -> bool {
        let mut source = SourceFd(&fd);
        self.registry
            .register(&mut source, Token(token), Interest::READABLE)
            .is_ok()
    }

    // Makes a task wait for an event until this time, or, without a time, run at once. Returns the task if memory can't
    // be allocated.
    fn begin<R: Wait>(
        &self,
        rt: &R,
        token: usize,
        task: Box<T>,
        until: Option<Duration>,
    ) -> Option<Box<T>> {
        let mut state = self.state.lock(rt);
        let Some(until) = until else {
            let refused = state.add_ready(token, task, false);
            self.wake(&mut state);
            return refused;
        };
        let ended = state.has_ended(token);
        if let Some(task) = state.wait_unless(ended, token, task, until) {
            let refused = state.add_ready(token, task, false);
            self.wake(&mut state);
            return refused;
        }
        self.poll_until(&state, until);
        None
    }
}

// Records an event. A task that waited for it is to be run.
fn note_event<T: Drop>(state: &mut CrewState<T>, token: usize, is_read_closed: bool) {
    if is_read_closed {
        state.end_input(token);
    }
    if let Some(task) = state.table.event(token) {
        make_ready(state, token, task, false);
    }
}

// Makes ready the tasks whose waits are over at `now`. It is called once all events that have arrived are recorded, so
// that a task whose event arrived in time isn't late.
fn take_late<T: Drop>(state: &mut CrewState<T>, now: Duration) {
    for _ in 0..u64::MAX {
        let Some((token, task)) = state.table.take_late(now) else {
            return;
        };
        make_ready(state, token, task, true);
    }
}

// Makes a task ready. If memory can't be allocated, drops the task, which is then over.
fn make_ready<T: Drop>(state: &mut CrewState<T>, token: usize, task: Box<T>, is_late: bool) {
    if let Some(refused) = state.add_ready(token, task, is_late) {
        drop(refused);
        state.leave(token);
    }
}

impl<T: Task + Drop + Send + 'static> Crew<T> {
    /// Creates a crew of at most `most` workers, where 0 counts as 1. Starts `MIN_THREADS` workers, or `most` if that
    /// is fewer, and the watcher. Fails with `OutOfMemory` if memory can't be allocated, with `WouldBlock` if a thread
    /// can't be created, and with the system's error if it has no descriptor for the crew; threads that were already
    /// started then end.
    pub fn start<R: Net + Threads + Wait + Clock + Copy + Send + 'static>(
        rt: R,
        alloc: Global,
        most: usize,
    ) -> io::Result<Arc<Crew<T>>> {
        let poll = Poll::new(&rt)?;
        let registry = poll.registry().try_clone()?;
        let waker = Waker::new(&registry, Token(WAKER))?;
        let events = Events::with_capacity(alloc, MOST_EVENTS)?;
        let state = CrewState {
            table: WaitTable::new(alloc),
            ready: ReadyQueue::new(alloc),
            ended: Vec::new(alloc),
            poller: Some(Poller { poll, events }),
            polls_until: Duration::MAX,
            running: 0,
            threads: IdleThreads::new(),
            turns: 0,
            watcher_rests: false,
            is_closed: false,
        };
        let crew = Crew {
            state: Mutex::new(state),
            worker_woken: Condvar::new(),
            watcher_woken: Condvar::new(),
            registry,
            waker,
            most: most.max(1),
        };
        let crew = Arc::new(alloc, crew)?;
        let started = Crew::start_threads(rt, &crew);
        if started.is_err() {
            crew.close(&rt);
        }
        started?;
        Ok(crew)
    }

    // Starts `MIN_THREADS` workers, or `most` if that is fewer, and the watcher.
    fn start_threads<R: Threads + Wait + Clock + Copy + Send + 'static>(
        rt: R,
        crew: &Arc<Crew<T>>,
    ) -> io::Result<()> {
        for _ in 0..MIN_THREADS.min(crew.most) {
            if !Crew::start_worker(rt, crew)? {
                return Err(ErrorKind::WouldBlock.into());
            }
        }
        let theirs = Arc::try_clone(crew)?;
        if thread::spawn(&rt, move || watch(rt, &theirs)).is_err() {
            return Err(ErrorKind::WouldBlock.into());
        }
        Ok(())
    }

    // Starts a worker, and returns whether a thread for it could be created. Fails if no further handle to the crew can
    // be made.
    fn start_worker<R: Threads + Wait + Clock + Copy + Send + 'static>(
        rt: R,
        crew: &Arc<Crew<T>>,
    ) -> io::Result<bool> {
        let theirs = Arc::try_clone(crew)?;
        let worker = {
            let mut state = crew.state.lock(&rt);
            let others = state.running;
            state.running = others.saturating_add(1);
            others
        };
        if thread::spawn(&rt, move || theirs.work(&rt, worker)).is_ok() {
            return Ok(true);
        }
        let mut state = crew.state.lock(&rt);
        state.running = state.running.saturating_sub(1);
        Ok(false)
    }
}

// Wakes or starts workers whenever, during a wait of `STALL_MILLIS`, fewer tasks were taken than were ready, or no
// worker began to wait for events. Rests while a worker waits for events and no task is ready.
fn watch<T: Task + Drop + Send + 'static, R: Threads + Wait + Clock + Copy + Send + 'static>(
    rt: R,
    crew: &Arc<Crew<T>>,
) {
    let mut state = crew.state.lock(&rt);
    for _ in rt.forever() {
        if state.is_over() {
            return;
        }
        if !state.is_unattended() {
            state.watcher_rests = true;
            state = crew.watcher_woken.wait(&rt, state);
            continue;
        }
        let turns = state.turns;
        let waiting = (state.ready.len() as u64).max(1);
        let stall = Duration::from_millis(STALL_MILLIS);
        state = crew.watcher_woken.wait_timeout(&rt, state, stall).0;
        let taken = state.turns.wrapping_sub(turns);
        if state.is_over() || !state.is_unattended() || taken >= waiting {
            continue;
        }
        let wanted = waiting.saturating_sub(taken) as usize;
        let idle = state.threads.idle;
        let more = wanted
            .saturating_sub(idle)
            .min(crew.most.saturating_sub(state.running));
        drop(state);
        for _ in 0..wanted.min(idle) {
            crew.worker_woken.notify_one();
        }
        for _ in 0..more {
            let _ = Crew::start_worker(rt, crew);
        }
        state = crew.state.lock(&rt);
    }
}
