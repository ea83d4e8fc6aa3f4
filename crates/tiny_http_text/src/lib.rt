//! Text handling for a small HTTP server: trimming and splitting, ASCII strings, formatted numbers, and field values
//! that list names with qualities. The crate depends only on `thiserror` and the standard library. `tiny_http_wire`
//! re-exports `ascii`, `header_value` and `number`.
#![tactic(auto)]

pub mod ascii;
pub mod bytes;
pub mod copies;
pub mod header_value;
pub mod laws;
pub mod number;
pub mod text;
