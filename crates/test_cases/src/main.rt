//! Runs the cases of files: `test_cases FILE..`. Each case is tried in up to three ways:
//!
//! - with `run_with`;
//! - with the requests of a connection on one thread, and responses sent one by one;
//! - likewise, but with successive responses sent together.
//!
//! The second and the third way skip a case that differs in the first way, or in which a call would have to wait. The
//! third way also skips a case that limits what its writer accepts. In each way, a case is run as `test_case_trials`
//! describes, for example with four readers, and with each call to the writer failing. docs/CASES.md describes the
//! files.
#![tactic(auto)]

mod by_requests;
mod by_run;
mod holding;
mod shared;
mod treating;

use crate::by_requests::{ByRequests, Leaving};
use crate::by_run::ByRun;
use std::alloc::{AllocError, Global};
use std::io::Write;
use std::process::ExitCode;
use std::sync::Wait;
use test_case_trials::report::{files_of, try_files};
use test_data_files::fault::FilesFault;
use test_data_files::program::{Checker, NamedFile, run_program};

// Tries the cases of files in all three ways.
#[derive(Drop)]
struct EachWay<R> {
    rt: R,
}

impl<R: Wait + Copy> Checker for EachWay<R> {
    fn check<'a, O: Write>(
        &mut self,
        alloc: Global,
        files: &[NamedFile<'a>],
        out: &mut O,
    ) -> Result<bool, FilesFault<'a>> {
        let files = files_of(alloc, files)?;
        let mut by_requests = Vec::new(alloc);
        for leaving in [Leaving::Alone, Leaving::Together] {
            by_requests
                .push(ByRequests::new(self.rt, leaving))
                .map_err(AllocError::from)?;
        }
        let ways = (&mut ByRun, by_requests.as_mut_slice());
        try_files(alloc, ways, out, files.as_slice())
    }
}

fn main(rt: HostRuntime) -> ExitCode {
    let mut out = rt.stdout();
    let mut err = rt.stderr();
    let mut each_way = EachWay { rt };
    ExitCode::from(run_program(&rt, "test_cases", &mut each_way, &mut out, &mut err))
}
