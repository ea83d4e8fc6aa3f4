//! Server-sent events (HTML standard, section 9.2) over `tiny_http`: events and their text (`event`), the response and
//! the writer of its body (`stream`), and what a browser reads from them (`laws`).
#![tactic(auto)]

pub mod event;
pub mod laws;
pub mod stream;
