//! Tries the cases of `test_case_files`: with readers of several piece sizes, with each call to the writer failing,
//! with the client's bytes cut short, with a reader that fails once, and with one of the client's bytes changed. A
//! `Runner` runs the steps.
#![tactic(auto)]

pub mod front;
pub mod outcome;
pub mod replies;
pub mod report;
pub mod steps;
pub mod trial;
