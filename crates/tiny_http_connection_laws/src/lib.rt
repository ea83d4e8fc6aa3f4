//! Consequences of the connection theorem (the contract of `tiny_http_connection::driver::run`), as laws of the
//! definitions: a short form of the theorem, and what a client reads. The crate builds on `tiny_http_connection` and
//! `tiny_http_client`.
#![tactic(auto)]

pub mod laws;
