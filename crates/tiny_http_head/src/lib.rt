//! The parts of a head (RFC 9110 and RFC 9112): status codes, versions, methods, request targets and header fields, the
//! grammar of the lines, and the content length. The crate depends on `tiny_http_text`, `httparse`, `thiserror` and the
//! standard library. `tiny_http_wire` re-exports `common`, `grammar` and `target`.
#![tactic(auto)]

pub mod blanks;
pub mod common;
pub mod content_length;
pub mod grammar;
pub mod laws;
pub mod target;
