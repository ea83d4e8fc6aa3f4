//! Checks trials in which the client's bytes are cut short, or one of these bytes is changed.
use crate::outcome::{Difference, Outcome, count_differs, differing, output_differs};
use std::alloc::{AllocError, Global};
use std::io::ErrorKind;
use test_case_files::case::{Case, CaseStep, Deed};
use test_plain_reading::lenient::plain_lines;
use test_plain_reading::standard::standard_lines;
use tiny_http_core::framing::Profile;

// Returns those reply lines of a trial that report a request.
fn handed_in<'a>(alloc: Global, outcome: &'a Outcome) -> Result<Vec<&'a [u8]>, AllocError> {
    let mut handed = Vec::new(alloc);
    for reply in &outcome.replies {
        if reply.starts_with(b"handed ") {
            handed.push(reply.as_slice()).map_err(AllocError::from)?;
        }
    }
    Ok(handed)
}

// Returns those reply lines of a case that report a request.
fn handed_of<'a>(alloc: Global, case: &'a Case) -> Result<Vec<&'a [u8]>, AllocError> {
    let mut handed = Vec::new(alloc);
    for step in &case.steps {
        if step.reply.starts_with(b"handed ") {
            handed
                .push(step.reply.as_slice())
                .map_err(AllocError::from)?;
        }
    }
    Ok(handed)
}

// Returns the difference at the first request in `found` that is not the one at the same position in `wanted`. Requests
// missing from the end of `found` don't count as a difference.
fn handed_differ(
    alloc: Global,
    found: &[&[u8]],
    wanted: &[&[u8]],
) -> Result<Option<Difference>, AllocError> {
    for (place, line) in found.iter().enumerate() {
        let there = wanted.get(place).copied().unwrap_or_default();
        if *line != there {
            let what = format!(in alloc; "request {place} that is handed out")?;
            return differing(alloc, what, line, there);
        }
    }
    Ok(None)
}

// Returns the request number in the line of a `read` step, or `None` for any other step.
fn read_number(step: &CaseStep) -> Option<&str> {
    match &step.deed {
        Deed::Script(line) => {
            let (number, _) = line.as_str().strip_prefix("read ")?.split_once(' ')?;
            Some(number)
        }
        Deed::Answer(_) => None,
    }
}

// Returns the bytes in a `given` reply, or none for any other reply.
fn given_in(reply: &[u8]) -> &[u8] {
    reply.strip_prefix(b"given ").unwrap_or_default()
}

// Returns all bytes that reads of the request with this number returned in the trial, and all that these reads return
// in the case.
fn given_of(
    alloc: Global,
    case: &Case,
    outcome: &Outcome,
    number: &str,
) -> Result<(Vec<u8>, Vec<u8>), AllocError> {
    let mut found = Vec::new(alloc);
    let mut wanted = Vec::new(alloc);
    let steps = case.steps.iter().filter(|step| !step.is_date());
    for (step, reply) in steps.zip(outcome.replies.iter()) {
        if read_number(step) == Some(number) {
            found.extend_from_slice(given_in(reply.as_slice()))?;
            wanted.extend_from_slice(given_in(step.reply.as_slice()))?;
        }
    }
    Ok((found, wanted))
}

// Returns the difference at the first request whose reads returned, in the trial, bytes that are not a prefix of those
// that they return in the case.
fn given_differs(
    alloc: Global,
    case: &Case,
    outcome: &Outcome,
) -> Result<Option<Difference>, AllocError> {
    for number in case.steps.iter().filter_map(read_number) {
        let (found, wanted) = given_of(alloc, case, outcome, number)?;
        if !wanted.starts_with(found.as_slice()) {
            let what = format!(in alloc; "the body of request {number}")?;
            return differing(alloc, what, found.as_slice(), wanted.as_slice());
        }
    }
    Ok(None)
}

// Returns a difference if the number of replies differs, or if the first reply that differs belongs to a step that is
// neither an `ask` nor a `read`, the only steps that read from the client.
fn first_reply_differs(
    alloc: Global,
    case: &Case,
    outcome: &Outcome,
) -> Result<Option<Difference>, AllocError> {
    let count = case.steps.iter().filter(|step| !step.is_date()).count();
    let found = outcome.replies.len() as u64;
    if let Some(difference) = count_differs(alloc, "replies", found, count as u64)? {
        return Ok(Some(difference));
    }
    let steps = case.steps.iter().filter(|step| !step.is_date());
    for (step, reply) in steps.zip(outcome.replies.iter()) {
        if reply.as_slice() == step.reply.as_slice() {
            continue;
        }
        if step.is_ask() || read_number(step).is_some() {
            return Ok(None);
        }
        let what = String::from_str(alloc, "the first other reply")?;
        return differing(alloc, what, reply.as_slice(), step.reply.as_slice());
    }
    Ok(None)
}

// Returns whether the rest of an output is empty or begins with a response. If so, the responses before it are
// complete.
fn is_answer_or_none(rest: &[u8]) -> bool {
    rest.is_empty() || rest.starts_with(b"HTTP/")
}

// Returns whether a case sends only complete responses: no step upgrades a request or takes its raw writer.
fn has_whole_answers(case: &Case) -> bool {
    case.steps.iter().all(|step| match &step.deed {
        Deed::Script(line) => !line.starts_with("writer ") && !line.starts_with("upgrade "),
        Deed::Answer(_) => true,
    })
}

// Returns a difference if a case sends only complete responses, and the output ends within one of them.
fn answer_is_cut(
    alloc: Global,
    case: &Case,
    output: &[u8],
) -> Result<Option<Difference>, AllocError> {
    let rest = case.output.get(output.len()..).unwrap_or_default();
    if is_answer_or_none(rest) || !has_whole_answers(case) {
        return Ok(None);
    }
    let what = String::from_str(alloc, "the output, which is cut in an answer,")?;
    differing(alloc, what, output, case.output.as_slice())
}

// Length of the date in a Date field line.
const DATE: usize = 29;

// Returns the output before a 408 response at its end, or `None` if it doesn't end with one. Under `Standard` that
// response also has `Connection: close`.
fn before_408(profile: Profile, output: &[u8]) -> Option<&[u8]> {
    let dated = output.strip_suffix(b"\r\nContent-Length: 0\r\n\r\n")?;
    let front = match profile {
        Profile::Standard => dated.strip_suffix(b"\r\nConnection: close")?,
        Profile::Lenient | Profile::Strict => dated,
    };
    let dated = front.get(..front.len().checked_sub(DATE)?)?;
    dated.strip_suffix(b"HTTP/1.1 408 Request Timeout\r\nServer: tiny-http (Rust)\r\nDate: ")
}

// Returns the output without a 408 response at its end if a timeout cut the client's bytes, which may cause such a
// response, and the output is not a prefix of the case's. Otherwise returns the whole output.
fn without_408<'a>(case: &Case, output: &'a [u8], stop: Option<ErrorKind>) -> &'a [u8] {
    if stop != Some(ErrorKind::TimedOut) || case.output.starts_with(output) {
        return output;
    }
    before_408(case.profile, output).unwrap_or(output)
}

const CLOSE: &[u8] = b"Connection: close\r\n";

// Returns the position of the last `Connection: close` field line in an output, if there is one.
fn last_close(output: &[u8]) -> Option<usize> {
    (0..output.len()).rev().find(|place| output
        .get(*place..)
        .unwrap_or_default()
        .starts_with(CLOSE))
}

// Returns the output without its last `Connection: close` field line. Under `Standard`, a cut body adds this field line
// to the last response, and the case doesn't have it there. Returns `None` if the output remains as it is: under
// another profile, without such a field line, or if it is a prefix of the case's.
fn without_close(alloc: Global, case: &Case, output: &[u8]) -> Result<Option<Vec<u8>>, AllocError> {
    if case.profile != Profile::Standard || case.output.starts_with(output) {
        return Ok(None);
    }
    let Some(place) = last_close(output) else {
        return Ok(None);
    };
    let mut front = Vec::new(alloc);
    front.extend_from_slice(output.get(..place).unwrap_or_default())?;
    let behind = place.saturating_add(CLOSE.len());
    front.extend_from_slice(output.get(behind..).unwrap_or_default())?;
    Ok(Some(front))
}

/// Returns the first difference between a trial and its case, for a trial in which the client's bytes were cut short by
/// the end of input or, if `stop` is set, by a reader error. The requests must be the first ones of the case, and the
/// bytes read from each body must be a prefix of those read from it in the case. The first reply that differs must
/// belong to an `ask` or a `read`.
///
/// The output must be a prefix of the case's and, unless the case upgrades a request or takes its raw writer, consist
/// of complete responses. After a timeout, a 408 may follow it. Under `Standard`, its last `Connection: close` may be
/// one that the case's output doesn't have. No call to the writer may fail.
pub fn cut_difference(
    alloc: Global,
    case: &Case,
    outcome: &Outcome,
    stop: Option<ErrorKind>,
) -> Result<Option<Difference>, AllocError> {
    let handed = handed_in(alloc, outcome)?;
    let wanted = handed_of(alloc, case)?;
    if let Some(found) = handed_differ(alloc, handed.as_slice(), wanted.as_slice())? {
        return Ok(Some(found));
    }
    if let Some(found) = given_differs(alloc, case, outcome)? {
        return Ok(Some(found));
    }
    if let Some(found) = first_reply_differs(alloc, case, outcome)? {
        return Ok(Some(found));
    }
    let output = without_408(case, outcome.output.as_slice(), stop);
    let front = without_close(alloc, case, output)?;
    let output = front.as_ref().map_or(output, Vec::as_slice);
    if let Some(found) = output_differs(alloc, output, case.output.as_slice(), true)? {
        return Ok(Some(found));
    }
    if let Some(found) = answer_is_cut(alloc, case, output)? {
        return Ok(Some(found));
    }
    count_differs(alloc, "failures", outcome.failures, 0)
}

/// Returns the first difference between the requests of a trial, whose client sent the bytes `client`, and those that
/// the independent reader `test_plain_reading` finds in these bytes under the case's profile. That reader doesn't cover
/// `Strict`, and no case under `Strict` has its bytes changed.
pub fn plain_difference(
    alloc: Global,
    case: &Case,
    outcome: &Outcome,
    client: &[u8],
) -> Result<Option<Difference>, AllocError> {
    let asks = case.steps.iter().filter(|step| step.is_ask()).count();
    let lines = match case.profile {
        Profile::Standard => standard_lines(alloc, client, asks)?,
        Profile::Lenient | Profile::Strict => plain_lines(alloc, client, asks)?,
    };
    let mut wanted = Vec::new(alloc);
    for line in &lines {
        wanted.push(line.as_slice()).map_err(AllocError::from)?;
    }
    let handed = handed_in(alloc, outcome)?;
    if let Some(found) = handed_differ(alloc, handed.as_slice(), wanted.as_slice())? {
        return Ok(Some(found));
    }
    count_differs(
        alloc,
        "requests that are handed out",
        handed.len() as u64,
        wanted.len() as u64,
    )
}
