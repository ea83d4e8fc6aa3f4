//! Message bodies (RFC 9112, sections 6 and 7): the framing of requests, the reading of their bodies, the chunked
//! transfer coding in both directions, and the sending of response bodies. The crate depends on `tiny_http_text`,
//! `tiny_http_io`, `tiny_http_head`, `httparse` and the standard library. `tiny_http_wire` re-exports `chunked`,
//! `encoder` and `streamed`, and `tiny_http_core` re-exports `framing`.
#![tactic(auto)]

pub mod body;
pub mod chunked;
pub mod chunks;
pub mod encoder;
pub mod framing;
pub mod gather;
pub mod identity;
pub mod laws;
pub mod streamed;
