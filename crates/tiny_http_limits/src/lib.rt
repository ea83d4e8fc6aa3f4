//! The limits of a server on an open port, as plain values: the limits themselves, the connection table, timeouts, the
//! accept backoff, and counters. The crate depends only on the standard library. `tiny_http` re-exports `counts`,
//! `headcount` and `limits`.
#![tactic(auto)]

pub mod backoff;
pub mod connection_table;
pub mod counts;
pub mod headcount;
pub mod limits;
pub mod times;
