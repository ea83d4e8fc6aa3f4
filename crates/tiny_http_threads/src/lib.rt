//! Types that the threads of an HTTP server share: a queue, a pool of workers, a count, and a turn queue for threads
//! that take turns using one reader or writer. A server has locks in three other places: two in `tiny_http`, on the
//! connection table and on the tasks of its workers, and one in `tiny_http_socket`, on the buffered bytes. `tiny_http`
//! re-exports `messages_queue`, `roster`, `sequential` and `task_pool`.
//!
//! The rules of sharing:
//!
//! - A value that threads share, apart from a few atomic flags and counts, is under one lock, and a function here holds
//!   that lock only for operations in memory. No function holds two locks, and none does I/O or runs a job under one.
//! - In `turn_queue` and `sequential` the lock guards the numbers: whose turn it is, which texts were left, who waits.
//!   The reader or writer itself goes to the thread that holds the turn, and only that thread touches it. A thread that
//!   leaves or finishes a turn doesn't wait for any turn.
//! - In `messages_queue` and `task_pool` the lock guards the list of waiting items, and the counts and flags kept with
//!   it. A value or a job belongs to the thread that took it out.
//! - In `roster` the lock guards the number and the book of shares.
//! - Apart from the locks themselves, a thread waits only on a condition variable that belongs to the value, and that
//!   wait releases the lock. If memory for the condition variable can't be allocated, the thread releases the lock and
//!   tries again.
#![tactic(auto)]

pub mod held_reader;
pub mod laws;
pub mod messages_queue;
pub mod roster;
pub mod sequential;
pub mod task_pool;
mod turn_queue;
