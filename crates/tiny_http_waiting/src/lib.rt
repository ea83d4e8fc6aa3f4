//! The bookkeeping of a server whose connections wait without a thread, as plain values: which connections wait for an
//! event on their socket, which are served or ready to be, when a wait is over, and how many threads to wake. The crate
//! depends only on the standard library.
#![tactic(auto)]

pub mod idle_threads;
pub mod laws;
pub mod ready_queue;
pub mod wait_table;
