//! A pool of worker threads that grows and shrinks with the work.
ghost use Rattle.std.specs.Prelude.{◌≡◌, ◌⊎◌, IfErr, IfSome};
ghost use Rattle.std.specs.IoError.{error_kind};

use std::alloc::Global;
use std::collections::VecDeque;
use std::io::ErrorKind;
use std::marker::Model;
use std::sync::atomic::{AtomicBool, Ordering};
use std::sync::{Arc, Condvar, Mutex, MutexGuard, Wait};
use std::thread::Threads;
use std::time::{Clock, Duration};
use std::{io, thread};

/// The number of workers that a pool keeps even if they are idle (as in the Rust crate `tiny_http`).
pub const MIN_THREADS: usize = 4;

/// How long a worker beyond `MIN_THREADS` may be idle before it ends, in milliseconds (as in the Rust crate
/// `tiny_http`).
pub const IDLE_MILLIS: u64 = 5000;

/// A job for a worker.
pub trait Job {
    /// Runs the job, once.
    fn run(&mut self);
}

/// The result of offering a job to a pool.
#[derive(Debug, PartialEq, Eq, Drop)]
pub enum Offered<J> {
    /// The job waits, and an idle worker must be woken for it.
    Queued,
    /// A new worker, which is already counted as running, must be started with the job.
    Start(J),
    /// The job is returned, and nothing has changed.
    Back(J),
}

/// The state of a pool: the jobs that wait for a worker, how many workers run, how many of them are idle, and whether
/// the pool is closed. There are never more waiting jobs than idle workers, nor more idle workers than running ones.
/// Contracts see it as a `Pool`.
#[derive(Drop)]
pub struct PoolState<J> {
    jobs: VecDeque<J>,
    idle: usize,
    running: usize,
    is_closed: bool,
}

impl<J> Model for PoolState<J> {
    ghost use Rattle.tiny_http_threads.specs.Pool.{Pool, IsSound};

    ghost Value = { Pool J };

    ghost view = { λ p. record { jobs = p.jobs.items; idle = p.idle; running = p.running; closed = p.is_closed } };

    ghost invariant = { λ p. IsSound
        (record { jobs = p.jobs.items; idle = p.idle; running = p.running; closed = p.is_closed }) };
}

impl<J> PoolState<J> {
    ghost use Rattle.std.specs.Prelude.{true};
    ghost use Rattle.tiny_http_threads.specs.Pool.{IsSound, new_pool, Offers, NotStarted, TakesJob, Rests, Wakes};
    ghost use Rattle.tiny_http_threads.specs.Pool.{EndsIdle};

    /// Creates a pool of `running` workers, none of them idle, without waiting jobs.
    pub fn new(alloc: Global, running: usize) -> PoolState<J>
        ensures { result ≡ new_pool running }
    {
        PoolState {
            jobs: VecDeque::new(alloc),
            idle: 0,
            running,
            is_closed: false,
        }
    }

    /// Offers a job. If more workers are idle than jobs wait, the job waits, or is returned if memory can't be
    /// allocated. Otherwise the job must start on a new worker, which counts as running from now on; if 2^64 - 1
    /// workers run, the job is returned.
    pub fn offer(&mut self, job: J) -> Offered<J>
        ensures sound { IsSound self.new }
        ensures offers { Offers self.old job result self.new }
    {
        if self.jobs.len() < self.idle {
            return match self.jobs.push_back(job) {
                Ok(()) => Offered::Queued,
                Err(refused) => Offered::Back(refused.value),
            };
        }
        if self.running == usize::MAX {
            return Offered::Back(job);
        }
        self.running += 1;
        Offered::Start(job)
    }

    /// Decrements the number of running workers, since the worker that `offer` counted couldn't be started. Changes
    /// nothing if all workers that run are idle.
    pub fn not_started(&mut self)
        ensures sound { IsSound self.new }
        ensures not_started { NotStarted self.old self.new }
    {
        if self.idle < self.running {
            self.running -= 1;
        }
    }

    /// Takes the front job for a worker that isn't idle. Returns `None`, with nothing changed, if no job waits.
    pub fn take(&mut self) -> Option<J>
        ensures sound { IsSound self.new }
        ensures takes { TakesJob self.old result self.new }
    {
        self.jobs.pop_front()
    }

    /// Counts one more idle worker. Returns false, with nothing changed, if a job waits or all workers that run are
    /// idle.
    pub fn rest(&mut self) -> bool
        ensures sound { IsSound self.new }
        ensures rests { Rests self.old result self.new }
    {
        let may_rest = self.jobs.is_empty() && self.idle < self.running;
        if may_rest {
            self.idle += 1;
        }
        may_rest
    }

    /// Takes the front job for an idle worker, which is then no longer idle. Returns `None`, with nothing changed, if
    /// no job waits, which includes the case that no worker is idle.
    pub fn wake(&mut self) -> Option<J>
        ensures sound { IsSound self.new }
        ensures wakes { Wakes self.old result self.new }
    {
        let job = self.jobs.pop_front()?;
        self.idle -= 1;
        Some(job)
    }

    /// Counts an idle worker as ended. Returns false, with nothing changed, if no worker is idle, if a job waits, or if
    /// at most `MIN_THREADS` workers run and the pool isn't closed.
    pub fn give_up(&mut self) -> bool
        ensures sound { IsSound self.new }
        ensures gives_up { EndsIdle self.old result self.new }
    {
        let may_end = self.idle > 0
            && self.jobs.is_empty()
            && (self.running > MIN_THREADS || self.is_closed);
        if may_end {
            self.idle -= 1;
            self.running -= 1;
        }
        may_end
    }

    /// Closes the pool, so that idle workers may end.
    pub fn close(&mut self)
        ensures sound { IsSound self.new }
        ensures closes { self.new ≡ record self.old { closed = true } }
    {
        self.is_closed = true;
    }

    // Returns whether the pool is closed.
    fn is_closed(&self) -> bool
        ensures { result ≡ self.now.closed }
    {
        self.is_closed
    }

    // Returns the number of running workers.
    fn running(&self) -> usize
        ensures { result ≡ self.now.running }
    {
        self.running
    }
}

// The state that the pool and its workers share.
#[derive(Drop)]
struct Sharing<J> {
    state: Mutex<PoolState<J>>,
    woken: Condvar,
}

impl<J: Job + Drop> Sharing<J> {
    // Runs `first`, if there is one, and then one job after another until the worker must end.
    fn work<R: Wait + Clock>(&self, rt: &R, first: Option<J>) {
        if let Some(mut job) = first {
            job.run();
        }
        for _ in rt.forever() {
            let Some(mut job) = self.next(rt) else {
                return;
            };
            job.run();
        }
    }

    // Waits for a job. Returns `None` if the worker must end.
    fn next<R: Wait + Clock>(&self, rt: &R) -> Option<J> {
        let mut state = self.state.lock(rt);
        if let Some(job) = state.take() {
            return Some(job);
        }
        if !state.rest() {
            // Unreachable: no job waits, and this worker isn't idle, so fewer workers are idle than run.
            return None;
        }
        for _ in rt.forever() {
            if state.is_closed() && state.give_up() {
                return None;
            }
            let (woken, timed_out) = self.wait(rt, state);
            state = woken;
            if let Some(job) = state.wake() {
                return Some(job);
            }
            if timed_out && state.give_up() {
                return None;
            }
        }
        unreachable!()
    }

    // Waits to be woken, for at most 5000 ms if more than `MIN_THREADS` workers run. Returns the lock's guard, and
    // whether that time has run out.
    fn wait<'a, R: Wait + Clock>(
        &self,
        rt: &R,
        state: MutexGuard<'a, PoolState<J>>,
    ) -> (MutexGuard<'a, PoolState<J>>, bool) {
        if state.running() <= MIN_THREADS {
            return (self.woken.wait(rt, state), false);
        }
        let timeout = Duration::from_millis(IDLE_MILLIS);
        let (state, waited) = self.woken.wait_timeout(rt, state, timeout);
        (state, waited.timed_out())
    }
}

// Runs jobs, beginning with this one. If `is_refused` is set, which means that the worker's thread couldn't be created,
// returns the job instead.
fn work_unless<J: Job + Drop, R: Wait + Clock + Drop>(
    rt: R,
    is_refused: Arc<AtomicBool>,
    sharing: Arc<Sharing<J>>,
    job: J,
) -> Option<J>
    ensures { IfSome result (λ back. back ≡ job) }
{
    if is_refused.load(Ordering::SeqCst) {
        return Some(job);
    }
    sharing.work(&rt, Some(job));
    None
}

/// A pool of workers that run jobs: four, and one more for each job for which no idle worker is left. A worker beyond
/// the four ends once it has been idle for 5000 ms. Dropping the pool closes it: its workers run the waiting jobs, and
/// end. No contract here states what a call did to the pool.
pub struct TaskPool<J: Drop, R: Wait + Drop> {
    rt: R,
    sharing: Arc<Sharing<J>>,
}

impl<J: Job + Drop + Send + 'static, R: Threads + Wait + Clock + Copy + Send + 'static> TaskPool<
    J,
    R,
> {
    /// Starts four workers. Fails with `OutOfMemory` if memory can't be allocated, or with `WouldBlock` if a thread
    /// can't be created; the pool is then closed, so that the workers that were started end.
    pub fn new(rt: R, alloc: Global) -> io::Result<TaskPool<J, R>>
        ensures { IfErr result (λ e. (error_kind e ≡ ErrorKind.OutOfMemory) ⊎ (error_kind e ≡ ErrorKind.WouldBlock)) }
    {
        let sharing = Sharing {
            state: Mutex::new(PoolState::new(alloc, MIN_THREADS)),
            woken: Condvar::new(),
        };
        let pool = TaskPool {
            rt,
            sharing: Arc::new(alloc, sharing).map_err(|_| ErrorKind::OutOfMemory)?,
        };
        for _ in 0..MIN_THREADS {
            let theirs = Arc::try_clone(&pool.sharing)?;
            if thread::spawn(&rt, move || theirs.work(&rt, None)).is_err() {
                return Err(ErrorKind::WouldBlock.into());
            }
        }
        Ok(pool)
    }

    /// Runs a job on a worker, idle or new. If memory can't be allocated or a thread can't be created, the error hands
    /// back the job.
    pub fn spawn(&self, rt: &R, alloc: Global, job: J) -> Result<(), J>
        ensures { IfErr result (λ back. back ≡ job) }
    {
        let offered = self.sharing.state.lock(rt).offer(job);
        match offered {
            Offered::Queued => {
                self.sharing.woken.notify_one();
                Ok(())
            }
            Offered::Start(job) => {
                let started = self.start(*rt, alloc, job);
                if started.is_err() {
                    self.sharing.state.lock(rt).not_started();
                }
                started
            }
            Offered::Back(job) => Err(job),
        }
    }

    // Starts a worker with a job. If no thread can be created, `thread::spawn` hands back the closure, which holds the
    // job. Called with `is_refused` set, the closure returns the job instead of running it.
    fn start(&self, rt: R, alloc: Global, job: J) -> Result<(), J>
        ensures { IfErr result (λ back. back ≡ job) }
    {
        let Ok(is_refused) = Arc::new(alloc, AtomicBool::new(false)) else {
            return Err(job);
        };
        let (Ok(mark), Ok(sharing)) = (Arc::try_clone(&is_refused), Arc::try_clone(&self.sharing))
        else {
            return Err(job);
        };
        let worker = move || -> Option<J>
            ensures { IfSome result (λ back. back ≡ job) }
        { work_unless(rt, mark, sharing, job) };
        match thread::spawn(&rt, worker) {
            Ok(_) => Ok(()),
            Err(unmade) => {
                is_refused.store(true, Ordering::SeqCst);
                let back = (unmade.value)();
                // A closure that has run the job would return nothing.
                back.map_or(Ok(()), Err)
            }
        }
    }
}

impl<J: Drop, R: Wait + Drop> Drop for TaskPool<J, R> {
    fn drop(self) {
        let Self { rt, sharing } = self;
        sharing.state.lock(&rt).close();
        sharing.woken.notify_all();
    }
}

#[cfg(test)]
mod tests;
