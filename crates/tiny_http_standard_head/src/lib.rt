//! Request heads under the profile `Standard` (RFC 9110 and RFC 9112): their lines, hosts, and what their fields say.
//! The crate depends on `tiny_http_text`, `tiny_http_io`, `tiny_http_head`, `memchr`, `httparse` for its byte classes,
//! and the standard library.
#![tactic(auto)]

pub mod heads;
pub mod hosts;
pub mod laws;
pub mod lines;
pub mod lists;
pub mod source_heads;
mod source_lines;
pub mod validation;
