use super::*;
use std::sync::atomic::{AtomicBool, Ordering};
use std::test::Fail;
use std::thread;

// A pop that restarted its timeout at each wakeup would wait for as long as it is woken.
#[test]
fn a_pop_that_is_woken_for_nothing_comes_back(rt: HostRuntime) -> Result<(), Fail> {
    let alloc = rt.alloc();
    let queue: Arc<MessagesQueue<u8>> = MessagesQueue::with_capacity(alloc, 8)?;
    let is_back = Arc::new(alloc, AtomicBool::new(false))?;
    let theirs = Arc::try_clone(&queue)?;
    let comes_back = Arc::try_clone(&is_back)?;
    let popper = thread::spawn(&rt, move || {
        let found = theirs.pop_timeout(&rt, Duration::from_millis(100));
        comes_back.store(true, Ordering::SeqCst);
        found
    })
    .map_err(|_| "no thread")?;
    for _ in 0..10_000u32 {
        if is_back.load(Ordering::SeqCst) {
            break;
        }
        queue.woken.notify_all();
        thread::sleep(&rt, Duration::from_millis(1));
    }
    assert!(rt; is_back.load(Ordering::SeqCst));
    assert_eq!(rt; popper.join(&rt), None);
    Ok(())
}

// A `try_pop` that gave up because the lock is held would miss the value.
#[test]
fn a_try_waits_for_the_lock(rt: HostRuntime) -> Result<(), Fail> {
    let queue: Arc<MessagesQueue<u8>> = MessagesQueue::with_capacity(rt.alloc(), 8)?;
    let theirs = Arc::try_clone(&queue)?;
    let mut shared = queue.shared.lock(&rt);
    let popper = thread::spawn(&rt, move || theirs.try_pop(&rt)).map_err(|_| "no thread")?;
    thread::sleep(&rt, Duration::from_millis(20));
    let pushed = shared.queue.push(7);
    drop(shared);
    assert_eq!(rt; pushed, Ok(()));
    assert_eq!(rt; popper.join(&rt), Some(7));
    Ok(())
}

// If only one of the threads were woken, the second value would stay in the queue.
#[test]
fn each_waiting_thread_gets_its_value(rt: HostRuntime) -> Result<(), Fail> {
    let queue: Arc<MessagesQueue<u8>> = MessagesQueue::with_capacity(rt.alloc(), 8)?;
    let (first, second) = (Arc::try_clone(&queue)?, Arc::try_clone(&queue)?);
    let first = thread::spawn(&rt, move || first.pop(&rt)).map_err(|_| "no thread")?;
    let second = thread::spawn(&rt, move || second.pop(&rt)).map_err(|_| "no thread")?;
    thread::sleep(&rt, Duration::from_millis(20));
    let mut shared = queue.shared.lock(&rt);
    let pushed = (shared.queue.push(7), shared.queue.push(7));
    queue.wake(shared);
    assert_eq!(rt; pushed, (Ok(()), Ok(())));
    assert_eq!(rt; first.join(&rt), Some(7));
    assert_eq!(rt; second.join(&rt), Some(7));
    Ok(())
}
