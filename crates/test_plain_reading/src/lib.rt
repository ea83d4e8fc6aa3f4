//! Plain readings: simple parsers that find the requests in what a client sends. They are given all bytes at once, and
//! read them line by line, without a buffer. They share no code with the server, so that `test_case_trials` can compare
//! the server's requests with theirs.
#![tactic(auto)]

pub mod lenient;
pub mod parts;
pub mod standard;
