//! Turns: one item passes from number to number, so that responses leave in order, whichever thread makes them. The
//! crate depends only on `thiserror` and the standard library. `tiny_http_core` re-exports its module `turns`.
#![tactic(auto)]

pub mod by_number;
pub mod laws;
pub mod passing;
pub mod turns;
