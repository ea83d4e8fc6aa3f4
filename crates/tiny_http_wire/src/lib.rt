//! The wire layer of a small HTTP server (HTTP/1.x, RFC 9110 and RFC 9112): ASCII strings, numbers, lists of qualities,
//! readers and writers, the parts of a head, chunked and streamed bodies, and the printing of responses. It only
//! re-exports modules and laws of `tiny_http_text`, `tiny_http_io`, `tiny_http_head`, `tiny_http_body` and
//! `tiny_http_response`.
#![tactic(auto)]

pub mod laws;

pub use tiny_http_body::{chunked, encoder, streamed};
pub use tiny_http_head::{common, grammar, target};
pub use tiny_http_io::device;
pub use tiny_http_response::{coding, response, response_context};
pub use tiny_http_text::{ascii, header_value, number};
