//! Runs cases with `run_with`.
use std::alloc::{AllocError, Global};
use test_case_files::case::Case;
use test_case_trials::outcome::Outcome;
use test_case_trials::replies::{end_words, reply_line};
use test_case_trials::report::Runner;
use test_case_trials::steps::{StepsFault, steps_of};
use test_case_trials::trial::Trial;
use tiny_http_core::driver::{Connection, Reply, run_with};
use tiny_http_wire::device::{Metered, WriteDevice};

/// Runs the steps of a case with `run_with`.
#[derive(Drop)]
pub(crate) struct ByRun;

// Formats each reply as a line of a case.
fn lines_of(alloc: Global, replies: &[Reply]) -> Result<Vec<Vec<u8>>, AllocError> {
    let mut lines = Vec::new(alloc);
    for reply in replies {
        lines.push(reply_line(alloc, reply)?)?;
    }
    Ok(lines)
}

// Returns why no further request comes after the steps, or `open` if one may come. Runs the steps a second time, since
// their replies don't report this. Returns `None`, and runs nothing, if the case states no end.
fn end_of(alloc: Global, case: &Case, trial: Trial) -> Result<Option<Vec<u8>>, StepsFault> {
    if case.end.is_none() {
        return Ok(None);
    }
    let reader = trial.reader(alloc, case)?;
    let writer = Metered::new(trial.writer(alloc, case));
    let mut connection = Connection::new_with(alloc, case.profile, reader, writer);
    for timed in steps_of(alloc, case)? {
        drop(connection.step(alloc, timed));
    }
    Ok(Some(end_words(alloc, connection.end_of_requests())?))
}

impl Runner for ByRun {
    fn how(&self) -> &'static str {
        ""
    }

    fn knows_numbers(&self) -> bool {
        true
    }

    /// Returns `true`: `run_with` runs every step.
    fn takes(&self, _case: &Case) -> bool {
        true
    }

    /// Runs the steps. The output is what the writer accepted, followed by what is still buffered.
    fn run(&mut self, alloc: Global, case: &Case, trial: Trial) -> Result<Outcome, StepsFault> {
        let reader = trial.reader(alloc, case)?;
        let writer = Metered::new(trial.writer(alloc, case));
        let steps = steps_of(alloc, case)?;
        let Ok(record) = run_with(alloc, case.profile, reader, writer, steps) else {
            return Err(StepsFault::OutOfMemory);
        };
        let replies = lines_of(alloc, record.replies.as_slice())?;
        let held = record.outlet.held().to_vec(alloc)?;
        let writer = record.outlet.into_inner();
        let failures = writer.failures();
        let writer = writer.into_inner();
        let mut output = writer.taken().to_vec(alloc)?;
        output.extend_from_slice(held.as_slice())?;
        Ok(Outcome {
            replies,
            output,
            has_failed: writer.failures() > 0,
            failures,
            later: writer.later(),
            end: end_of(alloc, case, trial)?,
        })
    }
}
