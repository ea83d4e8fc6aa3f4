//! Tries the cases of files, and reports those that differ.
use crate::front::{cut_difference, plain_difference};
use crate::outcome::{Difference, Outcome, first_difference, outcomes_differ};
use crate::steps::StepsFault;
use crate::trial::{Harm, Trial};
use std::alloc::{AllocError, Global};
use std::io;
use std::io::{ErrorKind, Write};
use test_case_files::case::Case;
use test_case_files::devices::PIECES;
use test_case_files::reading::read_cases;
use test_data_files::fault::FilesFault;
use test_data_files::kinds::kind_at;
use test_data_files::program::NamedFile;

/// A way to run the steps of a case.
pub trait Runner {
    /// Returns the words that name this way in a report, with a space before them, or an empty string.
    fn how(&self) -> &'static str;

    /// Returns whether this way reports the requests' numbers itself, instead of taking them from the case.
    fn knows_numbers(&self) -> bool;

    /// Returns whether this way can run the case.
    fn takes(&self, case: &Case) -> bool;

    /// Runs the steps of a case over the trial's reader and writer.
    fn run(&mut self, alloc: Global, case: &Case, trial: Trial) -> Result<Outcome, StepsFault>;
}

/// The name and the cases of a file.
#[derive(Drop)]
pub struct CaseFile<'a> {
    pub name: &'a str,
    pub cases: Vec<Case>,
}

/// Reads the cases of these files. Fails if `read_cases` fails for one of them, or if memory can't be allocated.
pub fn files_of<'a>(
    alloc: Global,
    files: &[NamedFile<'a>],
) -> Result<Vec<CaseFile<'a>>, FilesFault<'a>> {
    let mut all = Vec::new(alloc);
    for NamedFile { name, bytes } in files {
        let cases = read_cases(alloc, name, bytes.as_slice())?;
        all.push(CaseFile { name, cases })
            .map_err(AllocError::from)?;
    }
    Ok(all)
}

/// Counts of the cases tried, of the runs, and of the runs that differ.
#[derive(Clone, Copy, Debug, PartialEq, Eq)]
pub struct Tally {
    pub cases: u64,
    /// Runs without an injected fault, or with a failing call to the writer.
    pub runs: u64,
    /// Runs with the client's bytes cut short.
    pub cuts: u64,
    /// Runs with a reader that fails in one call, after which further calls may succeed.
    pub faults: u64,
    /// Runs with one of the client's bytes changed.
    pub changes: u64,
    pub differing: u64,
}

impl Tally {
    // Counts a run of this trial.
    fn count(&mut self, trial: Trial) {
        let count = match trial.harm {
            None | Some(Harm::Call(_)) => &mut self.runs,
            Some(Harm::Cut(..)) => &mut self.cuts,
            Some(Harm::Once(..)) => &mut self.faults,
            Some(Harm::Byte(..)) => &mut self.changes,
        };
        *count = count.saturating_add(1);
    }
}

// Maximum number of a case's writer calls that are made to fail, each in a separate run.
const MOST_CALLS: u64 = 10_000;

// Returns the first difference of a trial's outcome from the expected one, if any. A reader error is final: if a reader
// fails once, the outcome must be the same as if the client's bytes were cut there by that error.
fn difference_of<'a, F: Runner>(
    (alloc, runner): (Global, &mut F),
    case: &Case,
    outcome: &Outcome,
    trial: Trial,
) -> Result<Option<Difference>, FilesFault<'a>> {
    Ok(match trial.harm {
        None => first_difference(alloc, case, outcome, false)?,
        Some(Harm::Call(_)) => first_difference(alloc, case, outcome, true)?,
        Some(Harm::Cut(_, stop)) => cut_difference(alloc, case, outcome, stop)?,
        Some(Harm::Once(count, kind)) => {
            let harm = Some(Harm::Cut(count, Some(kind)));
            let Ok(wanted) = runner.run(alloc, case, Trial { harm, ..trial }) else {
                return Err(FilesFault::OutOfMemory);
            };
            outcomes_differ(alloc, outcome, &wanted)?
        }
        Some(Harm::Byte(..)) => {
            let client = trial.client(alloc, case)?;
            plain_difference(alloc, case, outcome, client.as_slice())?
        }
    })
}

// Prints one line for a difference.
fn report<O: Write>(
    out: &mut O,
    (case, how): (&Case, &str),
    trial: Trial,
    difference: &Difference,
) -> io::Result<()> {
    let name = case.name.as_str();
    let what = difference.what.as_str();
    let found = difference.found.as_str();
    let wanted = difference.wanted.as_str();
    writeln!(
        out,
        "{name}{how}, {trial}: {what} is {found} and not {wanted}"
    )
}

// Tries a case once, counts the run, and prints a line if it differs. Returns whether a call to the writer failed.
fn try_once<'a, F: Runner, O: Write>(
    (alloc, runner): (Global, &mut F),
    out: &mut O,
    case: &Case,
    trial: Trial,
    tally: &mut Tally,
) -> Result<bool, FilesFault<'a>> {
    let Ok(outcome) = runner.run(alloc, case, trial) else {
        return Err(FilesFault::OutOfMemory);
    };
    tally.count(trial);
    if let Some(difference) = difference_of((alloc, &mut *runner), case, &outcome, trial)? {
        tally.differing = tally.differing.saturating_add(1);
        if report(out, (case, runner.how()), trial, &difference).is_err() {
            return Err(FilesFault::CannotWrite);
        }
    }
    Ok(outcome.has_failed)
}

// Tries a case once for each call to the writer, making that call fail. Ends with a run in which no call fails, because
// the writer isn't called that many times. A case with `MOST_CALLS` calls or more counts as one that differs.
fn try_failing<'a, F: Runner, O: Write>(
    (alloc, runner): (Global, &mut F),
    out: &mut O,
    case: &Case,
    tally: &mut Tally,
) -> Result<(), FilesFault<'a>> {
    for call in 1..=MOST_CALLS {
        let trial = Trial::harmed(Harm::Call(call));
        if !try_once((alloc, &mut *runner), out, case, trial, tally)? {
            return Ok(());
        }
    }
    tally.differing = tally.differing.saturating_add(1);
    let name = case.name.as_str();
    let how = runner.how();
    match writeln!(
        out,
        "{name}{how}: more than {MOST_CALLS} calls of the writer"
    ) {
        Ok(()) => Ok(()),
        Err(_) => Err(FilesFault::CannotWrite),
    }
}

// Returns whether to cut a client's `length` bytes after `count` of them: at the first 1200 and the last 50 positions,
// and at each multiple of 997 in between.
fn is_cut_at(count: usize, length: usize) -> bool {
    count < 1200 || length.saturating_sub(count) <= 50 || count % 997 == 0
}

// Tries a case with the client's bytes cut short at each position that `is_cut_at` selects: by the end of input, by a
// timeout, and by an error whose kind depends on the position (`kind_at`). Also tries it with a reader that fails once
// there: in one run with `TimedOut`, and in another with `Interrupted`.
fn try_cuts<'a, F: Runner, O: Write>(
    (alloc, runner): (Global, &mut F),
    out: &mut O,
    case: &Case,
    tally: &mut Tally,
) -> Result<(), FilesFault<'a>> {
    let length = case.client.len();
    for count in (0..length).filter(|count| is_cut_at(*count, length)) {
        for stop in [None, Some(ErrorKind::TimedOut), Some(kind_at(count))] {
            let trial = Trial::harmed(Harm::Cut(count, stop));
            try_once((alloc, &mut *runner), out, case, trial, tally)?;
        }
        for kind in [ErrorKind::TimedOut, ErrorKind::Interrupted] {
            let trial = Trial::harmed(Harm::Once(count, kind));
            try_once((alloc, &mut *runner), out, case, trial, tally)?;
        }
    }
    Ok(())
}

// Tries a case with each of the client's first `varied` bytes replaced with every value in turn.
fn try_bytes<'a, F: Runner, O: Write>(
    (alloc, runner): (Global, &mut F),
    out: &mut O,
    case: &Case,
    tally: &mut Tally,
) -> Result<(), FilesFault<'a>> {
    for place in 0..case.varied.unwrap_or(0) {
        for byte in 0..=u8::MAX {
            let trial = Trial::harmed(Harm::Byte(place, byte));
            try_once((alloc, &mut *runner), out, case, trial, tally)?;
        }
    }
    Ok(())
}

// Tries a case with a reader of each piece size. Also makes each call to the writer fail in turn, unless the case
// determines how its writer fails.
fn try_whole<'a, F: Runner, O: Write>(
    (alloc, runner): (Global, &mut F),
    out: &mut O,
    case: &Case,
    tally: &mut Tally,
) -> Result<(), FilesFault<'a>> {
    for piece in PIECES {
        let trial = Trial { piece, harm: None };
        try_once((alloc, &mut *runner), out, case, trial, tally)?;
    }
    match case.room {
        Some(_) => Ok(()),
        None => try_failing((alloc, runner), out, case, tally),
    }
}

// Tries a case with the client's complete bytes. If no run differs, and the case doesn't determine how its writer
// fails, also calls `try_cuts`, unless the case excludes it, and `try_bytes`, if the runner knows the requests'
// numbers.
fn try_case<'a, F: Runner, O: Write>(
    (alloc, runner): (Global, &mut F),
    out: &mut O,
    case: &Case,
    tally: &mut Tally,
) -> Result<(), FilesFault<'a>> {
    tally.cases = tally.cases.saturating_add(1);
    let before = tally.differing;
    try_whole((alloc, &mut *runner), out, case, tally)?;
    if tally.differing > before || case.room.is_some() {
        return Ok(());
    }
    if !case.is_uncut {
        try_cuts((alloc, &mut *runner), out, case, tally)?;
    }
    match runner.knows_numbers() {
        true => try_bytes((alloc, runner), out, case, tally),
        false => Ok(()),
    }
}

// Tries the cases of a file that the runner can run, except for those at the indices `left_out`, and prints one line
// for each run that differs. Returns the tally, and the indices of the cases that differ.
fn try_cases<'a, F: Runner, O: Write>(
    (alloc, runner): (Global, &mut F),
    out: &mut O,
    file: &CaseFile<'a>,
    left_out: &[usize],
) -> Result<(Tally, Vec<usize>), FilesFault<'a>> {
    let mut tally = Tally {
        cases: 0,
        runs: 0,
        cuts: 0,
        faults: 0,
        changes: 0,
        differing: 0,
    };
    let mut places = Vec::new(alloc);
    for (place, case) in file.cases.iter().enumerate() {
        let before = tally.differing;
        if runner.takes(case) && !left_out.contains(&place) {
            try_case((alloc, &mut *runner), out, case, &mut tally)?;
        }
        if tally.differing > before {
            places.extend_from_slice(&[place])?;
        }
    }
    Ok((tally, places))
}

/// Tries the cases of a file that the runner can run, except for those at the indices `left_out`. Prints one line for
/// each run that differs, and then one for the file. Returns the indices of the cases that differ.
pub fn try_file<'a, F: Runner, O: Write>(
    alloc: Global,
    runner: &mut F,
    out: &mut O,
    file: &CaseFile<'a>,
    left_out: &[usize],
) -> Result<Vec<usize>, FilesFault<'a>> {
    let (tally, places) = try_cases((alloc, &mut *runner), out, file, left_out)?;
    let name = file.name;
    let Tally {
        cases,
        runs,
        cuts,
        faults,
        changes,
        differing,
    } = tally;
    let how = runner.how();
    if writeln!(
        out,
        "{name}: {cases} cases, {runs} runs{how}, {cuts} cuts, {faults} faults, {changes} changes, {differing} differ"
    )
    .is_err()
    {
        return Err(FilesFault::CannotWrite);
    }
    Ok(places)
}

/// Tries the cases of each file in the first way, and then in the other ways. The other ways skip cases that differ in
/// the first way, since there a case with a wrong reply might wait forever. Returns whether no run differed.
pub fn try_files<'a, F: Runner, G: Runner, O: Write>(
    alloc: Global,
    (first, others): (&mut F, &mut [G]),
    out: &mut O,
    files: &[CaseFile<'a>],
) -> Result<bool, FilesFault<'a>> {
    let mut is_same = true;
    for file in files {
        let one = try_file(alloc, first, out, file, &[])?;
        is_same = is_same && one.is_empty();
        for way in others.iter_mut() {
            let other = try_file(alloc, way, out, file, one.as_slice())?;
            is_same = is_same && other.is_empty();
        }
    }
    if out.flush().is_err() {
        return Err(FilesFault::CannotWrite);
    }
    Ok(is_same)
}
