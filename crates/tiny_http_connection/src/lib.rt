//! One connection of a small HTTP server, without threads. `driver::Connection` hands out requests, and sends the
//! responses in the order of the requests; `driver::run` runs a list of steps on one connection. The crate is built on
//! `tiny_http_open_request` and `tiny_http_turns`, and `tiny_http_core` re-exports `driver`.
#![tactic(auto)]

pub mod driver;
mod pending;
mod run;
