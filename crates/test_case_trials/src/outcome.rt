//! The outcome of a trial, and its differences from the case or from another outcome.
use std::alloc::{AllocError, Global};
use test_case_files::case::{Case, CaseStep};
use test_data_files::text::shown;

/// The outcome of a trial.
#[derive(Drop)]
pub struct Outcome {
    /// The reply line of each step that is not a date.
    pub replies: Vec<Vec<u8>>,
    /// The bytes that the writer accepted, and then those still buffered.
    pub output: Vec<u8>,
    /// Whether a call to the writer failed.
    pub has_failed: bool,
    /// Number of failed calls to the writer, as counted by the `Metered` around it or, if there is none, by the writer
    /// itself.
    pub failures: u64,
    /// Number of calls to the writer after the first failure.
    pub later: u64,
    /// The reason why no further request comes after the steps, or `None` if it is not known.
    pub end: Option<Vec<u8>>,
}

/// A difference between an outcome and the expected one: what differs, the value found, and the expected value.
#[derive(Drop)]
pub struct Difference {
    pub what: String,
    pub found: String,
    pub wanted: String,
}

/// Builds the difference between two byte strings.
pub fn differing(
    alloc: Global,
    what: String,
    found: &[u8],
    wanted: &[u8],
) -> Result<Option<Difference>, AllocError> {
    Ok(Some(Difference {
        what,
        found: shown(alloc, found)?,
        wanted: shown(alloc, wanted)?,
    }))
}

// Returns whether a failed writer explains why a step that responds got the reply `done` instead of the error of the
// response's data: the output had ended, so the data was not read, and the error did not occur.
fn is_unmet(step: &CaseStep, found: &[u8]) -> bool {
    step.is_answer() && found == b"done".as_slice() && step.reply.starts_with(b"fault ")
}

// Returns whether a reply reports the injected failure.
fn is_reported(step: &CaseStep, found: &[u8]) -> bool {
    step.may_report() && found == b"fault Interrupted".as_slice()
}

// Returns the first difference between the replies of a trial and those of its case. If a call failed because a failure
// was injected (`is_failing`), one reply may report that failure, and each reply may differ as `is_unmet` allows.
fn replies_differ(
    alloc: Global,
    case: &Case,
    outcome: &Outcome,
    is_failing: bool,
) -> Result<Option<Difference>, AllocError> {
    let mut found = outcome.replies.iter();
    let mut number = 0usize;
    let mut may_report = is_failing;
    for step in case.steps.iter().filter(|step| !step.is_date()) {
        number = number.saturating_add(1);
        let reply = match found.next() {
            Some(reply) => reply.as_slice(),
            None => b"",
        };
        if reply == step.reply.as_slice() || (is_failing && is_unmet(step, reply)) {
            continue;
        }
        if may_report && is_reported(step, reply) {
            may_report = false;
            continue;
        }
        let what = format!(in alloc; "reply {number}")?;
        return differing(alloc, what, reply, step.reply.as_slice());
    }
    match found.next() {
        Some(reply) => {
            let what = String::from_str(alloc, "a reply too many")?;
            differing(alloc, what, reply.as_slice(), b"")
        }
        None => Ok(None),
    }
}

/// Returns the difference between two counts, or `None` if they are equal.
pub fn count_differs(
    alloc: Global,
    what: &str,
    found: u64,
    wanted: u64,
) -> Result<Option<Difference>, AllocError> {
    if found == wanted {
        return Ok(None);
    }
    Ok(Some(Difference {
        what: String::from_str(alloc, what)?,
        found: format!(in alloc; "{found}")?,
        wanted: format!(in alloc; "{wanted}")?,
    }))
}

// Returns the index of the first byte that differs, or the length of the shorter byte string if it is a prefix of the
// other.
fn first_place(found: &[u8], wanted: &[u8]) -> usize {
    found
        .iter()
        .zip(wanted.iter())
        .position(|(one, other)| one != other)
        .unwrap_or(found.len().min(wanted.len()))
}

/// Returns a difference unless the outputs are equal or, if `is_front`, `found` is a prefix of `wanted`. The difference
/// shows both outputs from the first byte that differs.
pub fn output_differs(
    alloc: Global,
    found: &[u8],
    wanted: &[u8],
    is_front: bool,
) -> Result<Option<Difference>, AllocError> {
    if found == wanted || (is_front && wanted.starts_with(found)) {
        return Ok(None);
    }
    let place = first_place(found, wanted);
    let what = format!(in alloc; "output from byte {place}")?;
    let found = found.get(place..).unwrap_or_default();
    let wanted = wanted.get(place..).unwrap_or_default();
    differing(alloc, what, found, wanted)
}

// Returns the first difference between the replies of two outcomes.
fn reply_differs(
    alloc: Global,
    found: &Outcome,
    wanted: &Outcome,
) -> Result<Option<Difference>, AllocError> {
    let pairs = found.replies.iter().zip(wanted.replies.iter());
    for (place, (one, other)) in pairs.enumerate() {
        if one.as_slice() != other.as_slice() {
            let number = place.saturating_add(1);
            let what = format!(in alloc; "reply {number}")?;
            return differing(alloc, what, one.as_slice(), other.as_slice());
        }
    }
    let (count, whole) = (found.replies.len(), wanted.replies.len());
    count_differs(alloc, "replies", count as u64, whole as u64)
}

// Returns why no further request comes, or no bytes if this is not known.
fn end_known(outcome: &Outcome) -> &[u8] {
    match &outcome.end {
        Some(end) => end.as_slice(),
        None => b"",
    }
}

/// Returns the first difference between two outcomes: in a reply, the output, the number of failures, or the end.
pub fn outcomes_differ(
    alloc: Global,
    found: &Outcome,
    wanted: &Outcome,
) -> Result<Option<Difference>, AllocError> {
    if let Some(difference) = reply_differs(alloc, found, wanted)? {
        return Ok(Some(difference));
    }
    let (output, whole) = (found.output.as_slice(), wanted.output.as_slice());
    if let Some(difference) = output_differs(alloc, output, whole, false)? {
        return Ok(Some(difference));
    }
    let (count, other) = (found.failures, wanted.failures);
    if let Some(difference) = count_differs(alloc, "failures", count, other)? {
        return Ok(Some(difference));
    }
    let (end, other) = (end_known(found), end_known(wanted));
    if end == other {
        return Ok(None);
    }
    let what = String::from_str(alloc, "the end")?;
    differing(alloc, what, end, other)
}

// Returns a difference if the case states why no further request comes, and the outcome states another reason.
fn end_differs(
    alloc: Global,
    case: &Case,
    outcome: &Outcome,
) -> Result<Option<Difference>, AllocError> {
    let (Some(wanted), Some(found)) = (&case.end, &outcome.end) else {
        return Ok(None);
    };
    if found.as_slice() == wanted.as_slice() {
        return Ok(None);
    }
    let what = String::from_str(alloc, "the end")?;
    differing(alloc, what, found.as_slice(), wanted.as_slice())
}

/// Returns the first difference between a trial's outcome and its case, if any. If a call to the writer failed because
/// a failure was injected, the output may be a prefix of the case's, one reply may report the failure, and errors of
/// data that was not read may be missing. Exactly one failure must then be counted. Otherwise no failure may be
/// counted, unless the case determines how its writer fails. The writer must never be called again after a failure.
pub fn first_difference(
    alloc: Global,
    case: &Case,
    outcome: &Outcome,
    is_made_to_fail: bool,
) -> Result<Option<Difference>, AllocError> {
    let is_failing = is_made_to_fail && outcome.has_failed;
    if let Some(found) = replies_differ(alloc, case, outcome, is_failing)? {
        return Ok(Some(found));
    }
    if let Some(found) = end_differs(alloc, case, outcome)? {
        return Ok(Some(found));
    }
    let output = outcome.output.as_slice();
    if let Some(found) = output_differs(alloc, output, case.output.as_slice(), is_failing)? {
        return Ok(Some(found));
    }
    if case.room.is_none() || is_failing {
        let failures = u64::from(is_failing);
        if let Some(found) = count_differs(alloc, "failures", outcome.failures, failures)? {
            return Ok(Some(found));
        }
    }
    count_differs(alloc, "calls after a failure", outcome.later, 0)
}
