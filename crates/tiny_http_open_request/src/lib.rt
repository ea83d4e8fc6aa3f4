//! One request of a connection, without locks (RFC 9112): its head, read from the connection's input; whether a 100
//! (Continue) is still owed; how far its body has been read; its response; and the server's own error responses. This
//! crate builds on `tiny_http_standard_head` and `tiny_http_response`; `tiny_http_core` re-exports `exchange` and
//! `upgrading`.
#![tactic(auto)]

pub mod body_start;
pub mod error_response;
pub mod exchange;
mod head_faults;
mod head_values;
mod heads;
pub mod laws;
pub mod next_request;
pub mod open_request;
mod read_head;
mod standard;
pub mod upgrading;
