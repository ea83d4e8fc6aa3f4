//! The props of a scene.
use crate::asked::Asked;
use crate::in_turn::{InTurn, Turns};
use crate::memory::{Memory, Remembered};
use crate::named::{Named, add_all, part_of};
use std::alloc::{AllocError, Global};
use std::sync::{Arc, Wait};
use std::time::Instant;
use test_scene_files::client::Client;
use test_scene_files::mishap::Mishap;
use test_scene_files::scene::{Line, Over};
use tiny_http_threads::messages_queue::MessagesQueue;

// Initial capacity of a scene's queue.
const QUEUE_ROOM: usize = 8;

/// The objects that the steps of a scene act on, apart from a server.
#[derive(Drop)]
pub struct Props<R: Wait + Drop> {
    pub clients: Vec<Named<Client>>,
    pub memory: Option<Memory<R>>,
    pub remembered: Remembered<R>,
    pub queue: Option<Arc<MessagesQueue<u64>>>,
    pub turns: Option<Turns<R>>,
    pub in_turn: Vec<Named<InTurn<R>>>,
    pub clock: Option<Instant>,
    /// The time of the shortest lap in milliseconds, if a lap has ended.
    pub shortest: Option<u64>,
}

/// Moves `value` into a new `Arc`.
pub fn shared<T: Drop>(alloc: Global, value: T) -> Result<Arc<T>, Mishap> {
    match Arc::new(alloc, value) {
        Ok(shared) => Ok(shared),
        Err(_) => Err(Mishap::OutOfMemory),
    }
}

// Creates the queue of a scene.
fn queue_of(alloc: Global) -> Result<Arc<MessagesQueue<u64>>, Mishap> {
    match MessagesQueue::with_capacity(alloc, QUEUE_ROOM) {
        Ok(queue) => Ok(queue),
        Err(_) => Err(Mishap::OutOfMemory),
    }
}

impl<R: Wait + Copy> Props<R> {
    /// Creates the props with which a scene over `over` begins.
    pub fn over(rt: &R, alloc: Global, over: Over) -> Result<Props<R>, Mishap> {
        let mut props = Props::none(alloc);
        match over {
            Over::Queue | Over::Pool => props.queue = Some(queue_of(alloc)?),
            Over::Memory => props.memory = Some(Memory::new(rt, alloc)?),
            _ => {}
        }
        Ok(props)
    }
}

impl<R: Wait + Drop> Props<R> {
    /// Creates empty props.
    pub fn none(alloc: Global) -> Props<R> {
        Props {
            clients: Vec::new(alloc),
            memory: None,
            remembered: Asked::none(alloc),
            queue: None,
            turns: None,
            in_turn: Vec::new(alloc),
            clock: None,
            shortest: None,
        }
    }

    /// Returns the client over memory and the bytes written so far. Fails if the scene doesn't run over memory, or if
    /// these are the props of a thread, which have neither.
    pub fn memory(&mut self) -> Result<&mut Memory<R>, Mishap> {
        match &mut self.memory {
            Some(memory) => Ok(memory),
            None => Err(Mishap::Unplayable("nothing is over memory")),
        }
    }

    /// Returns the queue. Fails if there is none.
    pub fn queue(&self) -> Result<&MessagesQueue<u64>, Mishap> {
        match &self.queue {
            Some(queue) => Ok(queue),
            None => Err(Mishap::Unplayable("there is no queue")),
        }
    }

    /// Takes out the props that `lines` need: the clients, the requests and outputs over memory, and the readers and
    /// writers that they name. If there is a queue, the result also has a handle to it.
    pub fn part(&mut self, alloc: Global, lines: &[Line]) -> Result<Props<R>, AllocError> {
        let mut theirs = Props::none(alloc);
        if let Some(queue) = &self.queue {
            theirs.queue = Some(Arc::try_clone(queue)?);
        }
        theirs.clients = part_of(alloc, &mut self.clients, lines)?;
        theirs.remembered = self.remembered.part(alloc, lines)?;
        theirs.in_turn = part_of(alloc, &mut self.in_turn, lines)?;
        Ok(theirs)
    }

    /// Puts back the clients, requests, outputs, readers and writers that are left in `part`.
    pub fn join(&mut self, part: Props<R>) -> Result<(), AllocError> {
        let Props {
            clients,
            remembered,
            in_turn,
            ..
        } = part;
        add_all(&mut self.clients, clients)?;
        self.remembered.join(remembered)?;
        add_all(&mut self.in_turn, in_turn)
    }

    /// Drops what other threads may wait for: first the requests and outputs over memory, then the readers and writers
    /// that take turns, and finally the clients.
    pub fn clear(&mut self) {
        self.remembered.clear();
        self.in_turn.clear();
        self.clients.clear();
    }
}
