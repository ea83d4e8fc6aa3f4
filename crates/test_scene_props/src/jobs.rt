//! The pool jobs of a scene, which play steps on its queue, and the failures of steps.
use crate::queue::act_queue;
use std::alloc::{AllocError, Global};
use std::sync::atomic::{AtomicBool, Ordering};
use std::sync::{Arc, Wait};
use std::thread::Threads;
use std::time::Clock;
use test_scene_files::deed::{Deed, deed_in};
use test_scene_files::mishap::Mishap;
use test_scene_files::scene::{Line, Over};
use tiny_http_threads::messages_queue::MessagesQueue;
use tiny_http_threads::task_pool::{Job, TaskPool};

/// The step at which a scene failed, and why.
#[derive(Drop)]
pub struct Failure {
    pub number: usize,
    pub line: String,
    pub mishap: Mishap,
}

/// Creates a failure at `line`. If memory can't be allocated, the failure does not hold the line's text.
pub fn failure_at(alloc: Global, line: &Line, mishap: Mishap) -> Failure {
    let text = match String::from_str(alloc, line.text.as_str()) {
        Ok(text) => text,
        Err(_) => String::new(alloc),
    };
    Failure {
        number: line.number,
        line: text,
        mishap,
    }
}

/// Copies `lines`.
pub fn copies_of(alloc: Global, lines: &[Line]) -> Result<Vec<Line>, AllocError> {
    let mut copies = Vec::new(alloc);
    for line in lines {
        let text = String::from_str(alloc, line.text.as_str())?;
        copies.push(Line {
            number: line.number,
            text,
            is_inner: line.is_inner,
        })?;
    }
    Ok(copies)
}

/// Returns the indented lines at the start of `lines`.
pub fn inner_lines(lines: &[Line]) -> &[Line] {
    let count = lines.iter().position(|line| !line.is_inner);
    lines
        .get(..count.unwrap_or(lines.len()))
        .unwrap_or_default()
}

/// A pool job that plays steps on a scene's queue.
#[derive(Drop)]
pub struct QueueJob<R: Wait + Clock + Drop> {
    rt: R,
    alloc: Global,
    queue: Arc<MessagesQueue<u64>>,
    lines: Vec<Line>,
    has_ended: Arc<AtomicBool>,
    /// Receives the job's failure, or `None` if no step failed, when the job is done.
    pub done: Arc<MessagesQueue<Option<Failure>>>,
}

/// The pool of a scene, which runs `QueueJob`s.
pub type Pool<R> = TaskPool<QueueJob<R>, R>;

// Plays steps on the queue until one fails. Returns that failure, if any.
fn play_queue<R: Wait + Clock>(
    rt: &R,
    alloc: Global,
    queue: &MessagesQueue<u64>,
    lines: &[Line],
) -> Option<Failure> {
    for line in lines {
        let played = match deed_in(line.text.as_str()) {
            Some(Deed::Queue(deed)) => act_queue(rt, alloc, queue, deed),
            _ => Err(Mishap::Unplayable("a job has the queue alone")),
        };
        if let Err(mishap) = played {
            return Some(failure_at(alloc, line, mishap));
        }
    }
    None
}

impl<R: Wait + Clock + Drop> Job for QueueJob<R> {
    /// Plays the steps, sets `has_ended`, and pushes the failure, or `None` if no step failed, to `done`.
    fn run(&mut self) {
        let lines = self.lines.as_slice();
        let failure = play_queue(&self.rt, self.alloc, &self.queue, lines);
        self.has_ended.store(true, Ordering::SeqCst);
        let _ = self.done.push(&self.rt, failure);
    }
}

/// Creates a job that plays `lines` on `queue` and then sets `has_ended`. Fails if there is no queue or if memory can't
/// be allocated.
pub fn job_of<R: Wait + Clock + Copy>(
    rt: &R,
    alloc: Global,
    queue: &Option<Arc<MessagesQueue<u64>>>,
    (lines, has_ended): (&[Line], &Arc<AtomicBool>),
) -> Result<QueueJob<R>, Mishap> {
    let Some(queue) = queue else {
        return Err(Mishap::Unplayable("there is no queue"));
    };
    let Ok(done) = MessagesQueue::with_capacity(alloc, 1) else {
        return Err(Mishap::OutOfMemory);
    };
    Ok(QueueJob {
        rt: *rt,
        alloc,
        queue: Arc::try_clone(queue)?,
        lines: copies_of(alloc, lines)?,
        has_ended: Arc::try_clone(has_ended)?,
        done,
    })
}

/// Creates the pool of a scene, or returns `None` if the scene doesn't run on a pool.
pub fn pool_of<R: Wait + Clock + Threads + Copy + Send + 'static>(
    rt: &R,
    alloc: Global,
    over: Over,
) -> Result<Option<Pool<R>>, Mishap> {
    if over != Over::Pool {
        return Ok(None);
    }
    match TaskPool::new(*rt, alloc) {
        Ok(pool) => Ok(Some(pool)),
        Err(_) => Err(Mishap::Unplayable("there is no pool")),
    }
}
