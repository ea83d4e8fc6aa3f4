//! The props of scenes, that is, everything that scenes use except servers: clients, a clock, requests over memory, a
//! queue, a pool and its jobs, and readers and writers that take turns. Also runs steps on requests, whatever
//! connection they came from. `test_scenes` adds the servers and plays the scenes. docs/CASES.md describes the
//! language.
#![tactic(auto)]

pub mod acting;
pub mod asked;
pub mod in_turn;
pub mod jobs;
pub mod memory;
pub mod named;
pub mod props;
pub mod queue;
pub mod requests;
