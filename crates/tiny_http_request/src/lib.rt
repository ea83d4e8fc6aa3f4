//! The requests of one connection, shared among threads: any thread may read, answer, drop or upgrade them, in any
//! order, while the connection reads on. The crate is built on `tiny_http_open_request`, `tiny_http_socket` and
//! `tiny_http_threads`, and `tiny_http` re-exports its modules.
#![tactic(auto)]

mod answering;
pub mod any_request;
mod body;
pub mod client;
pub mod date;
mod refused_upgrade;
mod remembered;
pub mod request;
mod streamed_body;
pub mod test;
mod whole_body;

pub use tiny_http_threads::sequential;
