//! Reading responses as a client (RFC 9112, sections 2.2, 4, 5, 6.3 and 7.1). `answer::read_answer` reads one whole
//! response from the front of some bytes, given only the method of its request, by the exact grammar that its
//! documentation states. `answer_head::read_answer_head` reads a head as RFC 9112 defines it, with at most 64 headers,
//! before its body has arrived, for gateways and for clients that forward a body. This crate builds on
//! `tiny_http_response` and `httparse`; `tiny_http_core` re-exports `answer`.
#![tactic(auto)]

pub mod answer;
pub mod answer_head;
mod body;
mod head;
pub mod laws;
mod number;
mod rest;
