//! The messages.
use std::alloc::Global;
use std::io;
use std::sync::atomic::AtomicU64;
use std::sync::{Arc, Condvar, Mutex, Wait};
use std::time::{Clock, Duration};

// Maximum number of messages.
const MOST: usize = 10_000;

/// The messages that the threads share, numbered from 1 on. None is ever removed.
#[derive(Drop)]
pub(crate) struct Board {
    texts: Mutex<Vec<Arc<String>>>,
    news: Condvar,
    /// The number of open streams.
    pub(crate) streams: AtomicU64,
}

impl Board {
    /// Creates a board without messages.
    pub(crate) fn new(alloc: Global) -> Board {
        Board {
            texts: Mutex::new(Vec::new(alloc)),
            news: Condvar::new(),
            streams: AtomicU64::new(0),
        }
    }

    /// Returns the number of messages.
    pub(crate) fn count<Rt: Wait>(&self, rt: &Rt) -> usize {
        self.texts.lock(rt).len()
    }

    /// Adds a message, and wakes the threads that wait for it. Returns the status code of the response: 202, 400 if the
    /// message isn't UTF-8, or 507 if there are too many messages.
    pub(crate) fn add<Rt: Wait>(&self, rt: &Rt, alloc: Global, body: Vec<u8>) -> io::Result<u16> {
        let Ok(text) = String::from_utf8(body) else {
            return Ok(400);
        };
        let text = Arc::new(alloc, text)?;
        let mut texts = self.texts.lock(rt);
        if texts.len() >= MOST {
            return Ok(507);
        }
        texts.push(text)?;
        self.news.notify_all();
        Ok(202)
    }

    /// Waits for the message after the first `count`, at most for this time. Returns `None` if there is none by then.
    pub(crate) fn next<Rt: Clock + Wait>(
        &self,
        rt: &Rt,
        count: usize,
        time: Duration,
    ) -> io::Result<Option<Arc<String>>> {
        let texts = self.texts.lock(rt);
        let waited = self
            .news
            .wait_timeout_while(rt, texts, time, |texts| texts.len() <= count);
        Ok(waited.0.get(count).map(Arc::try_clone).transpose()?)
    }
}
