//! Reads a case file line by line.
use crate::case::{Answer, Case, CaseStep, Deed, Room};
use replay_script::line::{ScriptLine, text_in};
use std::alloc::{AllocError, Global};
use test_data_files::fault::{FilesFault, LineFault, line_text};
use test_data_files::kinds::kind_of;
use test_data_files::text::{add_text, number_in, text_of};
use tiny_http_core::framing::Profile;
use tiny_http_wire::ascii::AsciiString;
use tiny_http_wire::common::{Header, ParseError};

const NO_KIND: LineFault = LineFault::Bad("no such kind of fault");

const NO_HEADER: LineFault = LineFault::Bad("no such header line");

const NO_NUMBER: LineFault = LineFault::Bad("a number is missing");

// Begins a case called `name`. Fails if the name is not one word, or if an earlier case has it.
fn begin(alloc: Global, cases: &mut Vec<Case>, name: &str) -> Result<(), LineFault> {
    if name.is_empty() || name.contains(' ') {
        return Err(LineFault::Bad("a case has a name of one word"));
    }
    if cases.iter().any(|case| case.name.as_str() == name) {
        return Err(LineFault::Bad("an earlier case has this name"));
    }
    let case = Case {
        name: String::from_str(alloc, name)?,
        profile: Profile::Lenient,
        client: Vec::new(alloc),
        stop: None,
        room: None,
        is_uncut: false,
        varied: None,
        steps: Vec::new(alloc),
        output: Vec::new(alloc),
        end: None,
    };
    cases.push(case).map_err(AllocError::from)?;
    Ok(())
}

// Returns what is missing from or wrong with the last case, if anything.
fn lack_of(cases: &[Case]) -> Option<&'static str> {
    let case = cases.last()?;
    let Some(step) = case.steps.last() else {
        return Some("the case before has no step");
    };
    if case.steps.iter().all(CaseStep::is_date) {
        return Some("the case before has no step");
    }
    if !step.is_answered {
        return Some("the last step of the case before has no reply");
    }
    if case.varied.is_some_and(|count| count > case.client.len()) {
        return Some("the case before varies more bytes than its client sends");
    }
    if case.varied.is_some() && case.profile == Profile::Strict {
        return Some("the case before varies bytes, and the strict profile has no plain reading");
    }
    None
}

// Parses a writer's room: a number of bytes, and the kind of the error after them.
fn room_in(words: &str) -> Result<Room, LineFault> {
    let Some((digits, name)) = words.split_once(' ') else {
        return Err(LineFault::Bad("a writer's room is a number and a kind"));
    };
    let Some(bytes) = number_in(digits) else {
        return Err(NO_NUMBER);
    };
    match kind_of(name) {
        Some(fault) => Ok(Room { bytes, fault }),
        None => Err(NO_KIND),
    }
}

// Adds a step, whose reply comes in a later line unless the step is a date. Fails if the step before it has no reply
// yet.
fn add_step(case: &mut Case, deed: Deed, reply: Vec<u8>, is_date: bool) -> Result<(), LineFault> {
    if let Some(step) = case.steps.last()
        && !step.is_answered
    {
        return Err(LineFault::Bad("the step before has no reply"));
    }
    let step = CaseStep {
        deed,
        reply,
        is_answered: is_date,
    };
    case.steps.push(step).map_err(AllocError::from)?;
    Ok(())
}

// Parses the request number and the status of an answer.
fn answer_in(alloc: Global, words: &str) -> Result<Answer, LineFault> {
    let Some((number, status)) = words.split_once(' ') else {
        return Err(LineFault::Bad("an answer has a number and a status"));
    };
    let (Some(number), Some(status)) = (number_in(number), number_in(status)) else {
        return Err(NO_NUMBER);
    };
    let Ok(status) = u16::try_from(status) else {
        return Err(LineFault::Bad("a status is below 65536"));
    };
    Ok(Answer {
        number: number as u64,
        status,
        headers: Vec::new(alloc),
        length: None,
        threshold: None,
        closes: false,
        offer: None,
        data: Vec::new(alloc),
        fault: None,
    })
}

// Parses a line of a script. Returns the line with its escapes replaced, and whether it is a date.
fn script_in(alloc: Global, text: &str) -> Result<(String, bool), LineFault> {
    let Ok(line) = String::from_utf8(text_of(alloc, text)?) else {
        return Err(LineFault::Bad("a step is UTF-8"));
    };
    match text_in(line.as_str()) {
        None | Some(ScriptLine::Blank) => Err(LineFault::Bad("no such line")),
        Some(ScriptLine::Now(_)) => Ok((line, true)),
        Some(_) => Ok((line, false)),
    }
}

// Returns a header line with its escapes replaced. Fails if the line is not a valid header line.
fn header_in(alloc: Global, text: &str) -> Result<String, LineFault> {
    let Ok(line) = String::from_utf8(text_of(alloc, text)?) else {
        return Err(NO_HEADER);
    };
    match Header::from_str(alloc, line.as_str()) {
        Ok(_) => Ok(line),
        Err(ParseError::Refused) => Err(NO_HEADER),
        Err(ParseError::Memory) => Err(LineFault::OutOfMemory),
    }
}

// Adds a part to an answer. Fails if the part is unknown or invalid, or if the answer has it already; only `data` and
// `header` may be repeated.
fn add_part(alloc: Global, answer: &mut Answer, text: &str) -> Result<(), LineFault> {
    let (word, words) = text.split_once(' ').unwrap_or((text, ""));
    match word {
        "data" => add_text(alloc, words, &mut answer.data)?,
        "header" => {
            let header = header_in(alloc, words)?;
            answer.headers.push(header).map_err(AllocError::from)?;
        }
        "length" if answer.length.is_none() => match number_in(words) {
            Some(length) => answer.length = Some(length),
            None => return Err(NO_NUMBER),
        },
        "threshold" if answer.threshold.is_none() => match number_in(words) {
            Some(threshold) => answer.threshold = Some(threshold),
            None => return Err(NO_NUMBER),
        },
        "close" if !answer.closes => answer.closes = true,
        "offer" if answer.offer.is_none() => {
            match AsciiString::from_ascii(text_of(alloc, words)?) {
                Ok(offer) => answer.offer = Some(offer),
                Err(_) => return Err(LineFault::Bad("an offer is ASCII")),
            }
        }
        "fault" if answer.fault.is_none() => match kind_of(words) {
            Some(kind) => answer.fault = Some(kind),
            None => return Err(NO_KIND),
        },
        _ => return Err(LineFault::Bad("an answer has no such part, or has it already")),
    }
    Ok(())
}

// Returns the answer to which a part belongs: that of the last step. Fails if the last step isn't an answer, or has a
// reply already.
fn open_answer(case: &mut Case) -> Result<&mut Answer, LineFault> {
    if let Some(step) = case.steps.last_mut()
        && !step.is_answered
        && let Deed::Answer(answer) = &mut step.deed
    {
        return Ok(answer);
    }
    Err(LineFault::Bad("no answer comes before this part"))
}

// Adds the reply to the last step. Fails if there is no step, or if the last one has a reply already.
fn add_reply(alloc: Global, case: &mut Case, text: &str) -> Result<(), LineFault> {
    let Some(step) = case.steps.last_mut() else {
        return Err(LineFault::Bad("no step comes before this reply"));
    };
    if step.is_answered {
        return Err(LineFault::Bad("the step before has a reply already"));
    }
    add_text(alloc, text, &mut step.reply)?;
    step.is_answered = true;
    Ok(())
}

// Adds a line to the case being read.
fn add_line(alloc: Global, case: &mut Case, text: &str) -> Result<(), LineFault> {
    if let Some(text) = text.strip_prefix("  ") {
        return add_reply(alloc, case, text);
    }
    if let Some(part) = text.strip_prefix("+ ") {
        return add_part(alloc, open_answer(case)?, part);
    }
    let (word, words) = text.split_once(' ').unwrap_or((text, ""));
    match word {
        "profile" if case.profile == Profile::Lenient => match words {
            "strict" => case.profile = Profile::Strict,
            "standard" => case.profile = Profile::Standard,
            _ => return Err(LineFault::Bad("a case names no profile but strict and standard")),
        },
        "client" => add_text(alloc, words, &mut case.client)?,
        "output" => add_text(alloc, words, &mut case.output)?,
        "stop" if case.stop.is_none() => match kind_of(words) {
            Some(kind) => case.stop = Some(kind),
            None => return Err(NO_KIND),
        },
        "takes" if case.room.is_none() => case.room = Some(room_in(words)?),
        "uncut" if text != "uncut" => return Err(LineFault::Bad("nothing may follow uncut")),
        "uncut" if !case.is_uncut => case.is_uncut = true,
        "vary" if case.varied.is_none() => match number_in(words) {
            Some(count) => case.varied = Some(count),
            None => return Err(NO_NUMBER),
        },
        "end" if case.end.is_none() => case.end = Some(text_of(alloc, words)?),
        "profile" | "stop" | "takes" | "uncut" | "vary" | "end" => return Err(LineFault::Bad(
            "the case says so already",
        )),
        "answer" => {
            let answer = answer_in(alloc, words)?;
            add_step(case, Deed::Answer(answer), Vec::new(alloc), false)?;
        }
        _ => {
            let (line, is_date) = script_in(alloc, text)?;
            add_step(case, Deed::Script(line), Vec::new(alloc), is_date)?;
        }
    }
    Ok(())
}

// Reads one line: an empty line, a comment, the start of a case, or a line of the current case.
fn read_line(alloc: Global, cases: &mut Vec<Case>, line: &[u8]) -> Result<(), LineFault> {
    let Some(text) = line_text(line)? else {
        return Ok(());
    };
    if let Some(name) = text.strip_prefix("case ") {
        if let Some(why) = lack_of(cases.as_slice()) {
            return Err(LineFault::Bad(why));
        }
        return begin(alloc, cases, name);
    }
    match cases.last_mut() {
        Some(case) => add_line(alloc, case, text),
        None => Err(LineFault::Bad("no case has begun")),
    }
}

/// Reads the cases of a file from its bytes. Fails at the first invalid line, if the file has no case, or if the last
/// case is incomplete or inconsistent (see `lack_of`).
pub fn read_cases<'a>(
    alloc: Global,
    name: &'a str,
    bytes: &[u8],
) -> Result<Vec<Case>, FilesFault<'a>> {
    let mut cases = Vec::new(alloc);
    let mut number = 0usize;
    for line in bytes.split(|byte| *byte == b'\n') {
        number = number.saturating_add(1);
        if let Err(fault) = read_line(alloc, &mut cases, line) {
            return Err(FilesFault::at_line(name, number, fault));
        }
    }
    if cases.is_empty() {
        return Err(FilesFault::BadLine(name, number, "there is no case"));
    }
    match lack_of(cases.as_slice()) {
        Some(why) => Err(FilesFault::BadLine(name, number, why)),
        None => Ok(cases),
    }
}
