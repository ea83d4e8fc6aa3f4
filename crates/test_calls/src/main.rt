//! Makes the calls that the rows of files describe, and compares the results with those that the rows state:
//! `test_calls FILE..`. docs/CASES.md describes the files.
#![tactic(auto)]

mod bodies;
mod conversing;
mod deeds;
mod devices;
mod exchanging;
mod findings;
mod headers;
mod naming;
mod numbers;
mod outlets;
mod parts;
mod reading;
mod replies;
mod row;
mod sources;
mod standard;
mod texts;
mod trying;
mod words;
mod written;

use crate::reading::files_of;
use crate::trying::try_files;
use std::alloc::Global;
use std::io::Write;
use std::process::ExitCode;
use test_data_files::fault::FilesFault;
use test_data_files::program::{Checker, NamedFile, run_program};

// The checker of this program, which tries the rows of all files.
#[derive(Drop)]
struct Calls;

impl Checker for Calls {
    fn check<'a, O: Write>(
        &mut self,
        alloc: Global,
        files: &[NamedFile<'a>],
        out: &mut O,
    ) -> Result<bool, FilesFault<'a>> {
        let files = files_of(alloc, files)?;
        try_files(alloc, out, files.as_slice())
    }
}

fn main(rt: HostRuntime) -> ExitCode {
    let mut out = rt.stdout();
    let mut err = rt.stderr();
    ExitCode::from(run_program(&rt, "test_calls", &mut Calls, &mut out, &mut err))
}
