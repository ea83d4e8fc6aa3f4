//! Shared parts of the programs that run data files (`test_cases`, `test_calls` and `test_scenes`): the command line
//! and the exit status, errors with line numbers, escapes in texts, and the names of error kinds.
#![tactic(auto)]

pub mod fault;
pub mod kinds;
pub mod program;
pub mod text;
