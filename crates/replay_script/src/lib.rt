//! The script of `replay`: the grammar of its lines, the steps of a connection that the lines name, and the lines that
//! report the replies. The crate is built on `tiny_http_core` and `tiny_http_wire`.
#![tactic(auto)]

pub mod line;
pub mod reply;
pub mod script;
pub mod script_data;
