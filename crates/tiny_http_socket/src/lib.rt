//! A client's socket, TCP or Unix, split into two halves, each of which shuts its direction down when dropped. The
//! crate also has a write buffer that sends several responses together, a reader that reads ahead in large pieces, and
//! timeouts for what the client must send or accept. It builds on `tiny_http_io` and `tiny_http_limits`; `tiny_http`
//! re-exports `connection` and `refined_tcp_stream`.
#![tactic(auto)]

pub mod connection;
pub mod cork;
pub mod corked;
pub mod read_ahead;
pub mod refined_tcp_stream;
pub mod shared_state;
pub mod timed_reader;
pub mod timed_writer;
pub mod write_both;
