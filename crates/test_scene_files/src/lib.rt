//! Reads scene files, which list step by step what a server and its clients do and what each of them observes. Also
//! provides the clients of a scene and the errors of its steps. `test_scenes` plays the scenes; docs/CASES.md describes
//! the language.
#![tactic(auto)]

pub mod client;
pub mod deed;
pub mod grounds;
pub mod mishap;
pub mod scene;
