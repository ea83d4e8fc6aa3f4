//! One connection of a small HTTP server, without threads: `driver::Connection` hands out requests, and sends the
//! responses in the order of the requests. This crate only re-exports modules and laws of `tiny_http_io`,
//! `tiny_http_body`, `tiny_http_open_request`, `tiny_http_turns`, `tiny_http_connection` and `tiny_http_client`.
#![tactic(auto)]

pub mod laws;

pub use tiny_http_body::framing;
pub use tiny_http_client::answer;
pub use tiny_http_connection::driver;
pub use tiny_http_io::{custom_stream, equal_reader, fused_reader, outlet, source};
pub use tiny_http_open_request::{exchange, upgrading};
pub use tiny_http_turns::turns;
