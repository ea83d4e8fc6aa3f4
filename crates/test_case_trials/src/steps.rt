//! Converts the steps of a case to those of a connection.
use httpdate::HttpDate;
use replay_script::line::{ScriptLine, text_in};
use replay_script::script::{first_date, step_in};
use replay_script::script_data::ScriptData;
use std::alloc::{AllocError, Global};
use test_case_files::case::{Answer, Case, Deed};
use tiny_http_core::driver::{Step, Timed};
use tiny_http_wire::common::{Header, StatusCode};
use tiny_http_wire::response::Response;

/// An error in converting the steps of a case.
#[derive(Clone, Copy, Debug, PartialEq, Eq)]
pub enum StepsFault {
    /// A header line of a response is invalid, or memory couldn't be allocated for it.
    BadHeader,
    OutOfMemory,
}

impl From<AllocError> for StepsFault {
    fn from(_error: AllocError) -> StepsFault {
        StepsFault::OutOfMemory
    }
}

// Adds the header field of a header line to a response.
fn with_header(
    alloc: Global,
    response: Response<ScriptData>,
    line: &str,
) -> Result<Response<ScriptData>, StepsFault> {
    let Ok(header) = Header::from_str(alloc, line) else {
        return Err(StepsFault::BadHeader);
    };
    match response.with_header(header) {
        Ok(response) => Ok(response),
        Err(_) => Err(StepsFault::OutOfMemory),
    }
}

/// Builds the response that an answer describes. Sets its data and content length first, then adds its header fields in
/// order, and finally sets its threshold, whether it closes the connection, and its upgrade offer.
pub fn response_of(alloc: Global, answer: &Answer) -> Result<Response<ScriptData>, StepsFault> {
    let data = ScriptData::from_bytes(answer.data.as_slice().to_vec(alloc)?, answer.fault);
    let status = StatusCode(answer.status);
    let mut response = Response::empty(alloc, status).with_data(data, answer.length);
    for line in &answer.headers {
        response = with_header(alloc, response, line.as_str())?;
    }
    if let Some(threshold) = answer.threshold {
        response = response.with_chunked_threshold(threshold);
    }
    if answer.closes {
        response = response.with_close();
    }
    if let Some(offer) = &answer.offer {
        response = response.with_upgrade_offer(offer.try_clone()?);
    }
    Ok(response)
}

/// Converts the action of a step. Returns the converted step, which is `None` if the action only sets the date or is
/// not a step, and the date from then on.
pub fn step_of(
    alloc: Global,
    deed: &Deed,
    now: HttpDate,
) -> Result<(Option<Step<ScriptData>>, HttpDate), StepsFault> {
    match deed {
        Deed::Answer(answer) => {
            let response = response_of(alloc, answer)?;
            Ok((Some(Step::Respond(answer.number, response)), now))
        }
        Deed::Script(line) => match text_in(line.as_str()) {
            Some(ScriptLine::Now(date)) => Ok((None, date)),
            Some(line) => Ok((step_in(alloc, &line)?, now)),
            None => Ok((None, now)),
        },
    }
}

/// Converts the steps of a case, each with its date.
pub fn steps_of(alloc: Global, case: &Case) -> Result<Vec<Timed<ScriptData>>, StepsFault> {
    let mut steps = Vec::new(alloc);
    let mut now = first_date();
    for step in &case.steps {
        let (step, date) = step_of(alloc, &step.deed, now)?;
        now = date;
        if let Some(step) = step {
            steps.push(Timed { now, step }).map_err(AllocError::from)?;
        }
    }
    Ok(steps)
}
