//! The steps that a script names, line by line.
ghost use Rattle.std.specs.Prelude.{◌≡◌, ℕ, ◌++◌, ◌∷◌, [], map, Err, IfOk};
ghost use Rattle.std.specs.Option.{option_map};
ghost use Rattle.std.specs.List.{AllZip};
ghost use Rattle.httpdate.specs.Date.{unix_secs};
ghost use Rattle.tiny_http_wire.specs.Answer.{text_plain};
ghost use Rattle.tiny_http_core.specs.ResponseValue.{response_of};
ghost use Rattle.replay_script.specs.ScriptLine.{IsLine};
ghost use Rattle.replay_script.specs.Script.{script_lines, IsFirstBadLine, xs_response, response_with, said_step};
ghost use Rattle.replay_script.specs.Script.{date_behind, on_date, steps_from, IsScript, response_value, step_value};
ghost use Rattle.replay_script.specs.Script.{timed_value};

use crate::line::{Content, ScriptLine, line_in};
use crate::script_data::ScriptData;
use httpdate::HttpDate;
use std::alloc::{AllocError, Global};
use std::io::ErrorKind;
use tiny_http_core::driver::{Step, Timed};
use tiny_http_wire::common::StatusCode;
use tiny_http_wire::device::Stop;
use tiny_http_wire::response::Response;

/// An error in reading a script.
#[derive(Clone, Copy, Debug, PartialEq, Eq)]
pub enum ScriptFault {
    /// The number of the first line that isn't in the grammar, counted from 1 over all lines.
    BadLine(usize),
    OutOfMemory,
}

/// Returns the date of the steps before the first `now` line: Wed, 04 May 1983 11:17:00 GMT.
pub fn first_date() -> HttpDate
    ensures { unix_secs result ≡ 420_895_020 }
{
    match HttpDate::from_unix_secs(420_895_020) {
        Ok(date) => date,
        Err(_) => unreachable!(),
    }
}

// Splits a script at each LF. The end of the script also ends the last line.
fn split_lines(alloc: Global, script: &[u8]) -> Result<Vec<&[u8]>, AllocError>
    ensures { IfOk result (λ lines. map (λ line. line.now) lines.items ≡ script_lines script.now) }
{
    script.split(|b| *b == b'\n').collect(alloc)
}

// Parses the lines. Fails at the first line that isn't in the grammar, or if memory can't be allocated.
fn read_lines<'a>(alloc: Global, lines: &[&'a [u8]]) -> Result<Vec<ScriptLine<'a>>, ScriptFault>
    ensures says { IfOk result (λ said. AllZip IsLine (map (λ line. line.now) lines.now) said.items) }
    ensures bad { (n : ℕ) → result ≡ Err (ScriptFault.BadLine n)
        → IsFirstBadLine (map (λ line. line.now) lines.now) n }
{
    let mut said = Vec::new(alloc);
    for (i, bytes) in lines.iter().enumerate() {
        let Some(line) = line_in(bytes) else {
            return Err(ScriptFault::BadLine(i + 1));
        };
        if said.push(line).is_err() {
            return Err(ScriptFault::OutOfMemory);
        }
    }
    Ok(said)
}

// Returns a response with this status code and a text.
fn text_response(
    alloc: Global,
    status: StatusCode,
    text: &str,
) -> Result<Response<ScriptData>, AllocError>
    ensures { IfOk result (λ response. response_value response ≡ response_of status.0 (text_plain ∷ []) text.now) }
{
    let data = ScriptData::from_text(String::from_str(alloc, text)?);
    // The header is the same for every text, and an empty text takes no memory.
    let response = Response::from_string(alloc, String::new(alloc))?.with_status_code(status);
    Ok(response.with_data(data, Some(text.len())))
}

// Returns a response with this status code whose data is `count` bytes `b'x'`, then this stop. `length` is the stated
// length, if there is one.
fn xs_response(
    alloc: Global,
    status: StatusCode,
    count: u16,
    stop: Stop,
    length: Option<usize>,
) -> Response<ScriptData>
    ensures { response_value result ≡ xs_response status.0 count stop length }
{
    Response::empty(alloc, status).with_data(ScriptData::xs(count, stop), length)
}

// Returns the response with this status code and content.
fn response_with(
    alloc: Global,
    status: StatusCode,
    content: &Content<'_>,
) -> Result<Response<ScriptData>, AllocError>
    ensures { IfOk result (λ response. response_value response ≡ response_with status.0 content.now) }
{
    match content {
        Content::Text(text) => text_response(alloc, status, text),
        Content::Empty => Ok(xs_response(alloc, status, 0, Stop::End, Some(0))),
        Content::Stream(count) => Ok(xs_response(alloc, status, *count, Stop::End, None)),
        Content::Broken(count) => {
            let fault = Stop::Fault(ErrorKind::Other);
            Ok(xs_response(alloc, status, *count, fault, None))
        }
    }
}

/// Returns the step that a line names, if it names one. Fails if memory can't be allocated for a response, a protocol
/// or the bytes of a `write`.
pub fn step_in(alloc: Global, line: &ScriptLine<'_>) -> Result<Option<Step<ScriptData>>, AllocError>
    ensures { IfOk result (λ step. option_map step_value step ≡ said_step line.now) }
{
    match line {
        ScriptLine::Blank | ScriptLine::Now(_) => Ok(None),
        ScriptLine::Ask => Ok(Some(Step::Ask)),
        ScriptLine::AsReader(number) => Ok(Some(Step::AsReader(*number))),
        ScriptLine::Read(number, count) => Ok(Some(Step::Read(*number, *count))),
        ScriptLine::Respond(number, status, content) => {
            let response = response_with(alloc, StatusCode(*status), content)?;
            Ok(Some(Step::Respond(*number, response)))
        }
        ScriptLine::Writer(number) => Ok(Some(Step::IntoWriter(*number))),
        ScriptLine::Write(number, written) => {
            let written = String::from_str(alloc, written)?;
            Ok(Some(Step::Write(*number, written.into_bytes())))
        }
        ScriptLine::Flush(number) => Ok(Some(Step::Flush(*number))),
        ScriptLine::Upgrade(number, status, protocol) => {
            let protocol = String::from_str(alloc, protocol)?;
            let response = response_with(alloc, StatusCode(*status), &Content::Empty)?;
            Ok(Some(Step::Upgrade(*number, protocol, response)))
        }
        ScriptLine::Finish(number) => Ok(Some(Step::Finish(*number))),
        ScriptLine::Drop(number) => Ok(Some(Step::Drop(*number))),
    }
}

// Returns the date of the steps after this line: that of a `now` line, otherwise `now`.
fn date_from(now: HttpDate, line: &ScriptLine<'_>) -> HttpDate
    ensures { result ≡ date_behind now line.now }
{
    match line {
        ScriptLine::Now(date) => *date,
        _ => now,
    }
}

// Appends the step that a line names, if it names one, with this date.
fn add_step(
    alloc: Global,
    steps: &mut Vec<Timed<ScriptData>>,
    now: HttpDate,
    line: &ScriptLine<'_>,
) -> Result<(), AllocError>
    ensures { IfOk result (λ _. map timed_value steps.new.items
        ≡ map timed_value steps.old.items ++ on_date now (said_step line.now)) }
{
    if let Some(step) = step_in(alloc, line)? {
        steps.push(Timed { now, step })?;
    }
    Ok(())
}

// Returns the steps of these lines. `first` is the date of the steps before the first `now` line.
fn read_steps(
    alloc: Global,
    first: HttpDate,
    lines: &[ScriptLine<'_>],
) -> Result<Vec<Timed<ScriptData>>, AllocError>
    ensures { IfOk result (λ steps. map timed_value steps.items ≡ steps_from first lines.now) }
{
    let mut steps = Vec::new(alloc);
    let mut now = first;
    for line in lines {
        now = date_from(now, line);
        add_step(alloc, &mut steps, now, line)?;
    }
    Ok(steps)
}

/// Returns the steps that a script names, each with its date. Fails with `BadLine` at the first line that isn't in the
/// grammar, and with `OutOfMemory` if memory can't be allocated.
pub fn read_script(alloc: Global, script: &[u8]) -> Result<Vec<Timed<ScriptData>>, ScriptFault>
    ensures steps { IfOk result (λ steps. IsScript script.now (map timed_value steps.items)) }
    ensures bad { (n : ℕ) → result ≡ Err (ScriptFault.BadLine n) → IsFirstBadLine (script_lines script.now) n }
{
    let Ok(lines) = split_lines(alloc, script) else {
        return Err(ScriptFault::OutOfMemory);
    };
    let said = read_lines(alloc, lines.as_slice())?;
    match read_steps(alloc, first_date(), said.as_slice()) {
        Ok(steps) => Ok(steps),
        Err(_) => Err(ScriptFault::OutOfMemory),
    }
}
