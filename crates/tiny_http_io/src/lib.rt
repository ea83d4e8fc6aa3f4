//! Reading and writing: the device traits, readers and writers for tests and simple programs, and the buffered input
//! and output of a connection. The crate depends on `tiny_http_text`, `memchr` and the standard library.
//! `tiny_http_wire` re-exports `device`, and `tiny_http_core` the other public modules.
#![tactic(auto)]

mod buffer;
pub mod custom_stream;
pub mod device;
pub mod equal_reader;
pub mod fused_reader;
mod input;
pub mod laws;
mod lines;
pub mod outlet;
pub mod source;
