//! Responses (RFC 9110; RFC 9112, sections 4 to 7): what a response holds, the transfer coding of its body, how it is
//! printed, and how it is sent through a connection's outlet. This crate builds on `tiny_http_body`; `tiny_http_wire`
//! re-exports `response`, `response_context` and `coding`.
#![tactic(auto)]

mod add_header;
mod answer_head;
mod by_standard;
pub mod coding;
pub mod laws;
mod making;
mod owing;
mod page;
mod readable;
pub mod response;
pub mod response_context;
pub mod sending;
