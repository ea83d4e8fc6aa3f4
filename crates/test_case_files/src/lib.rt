//! Reads case files: what a client sends, the server's steps, the reply to each, and the output. Also provides the
//! readers and writers with which each case is tried. A step is a line of `replay_script`, or a response that no such
//! line can describe. docs/CASES.md describes the language.
#![tactic(auto)]

pub mod case;
pub mod devices;
pub mod reading;
