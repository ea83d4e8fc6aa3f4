//! Tries the call of each row in several ways, and reports the rows whose results differ from those stated.
use crate::bodies::{decode, read_answers, read_head_alone};
use crate::conversing::{call_connections, greet};
use crate::exchanging::call_exchanges;
use crate::findings::{add, add_shown, add_some};
use crate::headers::add_to_answer;
use crate::numbers::{call_turns, keep_numbers};
use crate::outlets::{call_outlets, call_streams};
use crate::reading::RowFile;
use crate::row::{Call, Finding, Input, Rooms, Row, Subject, is_asked};
use crate::sources::{call_sources, read_fused, read_parts};
use crate::standard::{
    read_field_line, read_first_head, read_request_line, validate_head, validate_host,
};
use crate::texts::{ask, choose_by, phrase, read_text, show, write_number};
use crate::written::{encode, print, print_by_standard, write_chunk, write_chunked};
use std::alloc::{AllocError, Global};
use std::io::{ErrorKind, Write};
use test_case_files::case::Room;
use test_case_files::devices::PIECES;
use test_data_files::fault::FilesFault;
use test_data_files::text::shown;

// One way to try a call.
#[derive(Clone, Copy, Debug, PartialEq, Eq)]
struct Trial {
    // Maximum number of bytes that a read returns, or that are passed to one write. 0 means no limit.
    piece: usize,
    // How many bytes the writer accepts in this trial, and the error with which it then fails, or `None` if the trial
    // doesn't limit the writer.
    room: Option<Room>,
}

// A difference between the results of a trial and those that the row states: how the call was tried, the result that
// was found, and the one that was expected.
#[derive(Drop)]
struct Difference {
    how: String,
    found: String,
    wanted: String,
}

// Makes the successive calls of a row on a new value of this kind, and adds their results.
fn make_each(
    alloc: Global,
    subject: Subject,
    input: &Input,
    piece: usize,
    to: &mut Vec<Finding>,
) -> Result<(), AllocError> {
    match subject {
        Subject::Source => call_sources(alloc, input, piece, to),
        Subject::EqualReader(size) => read_parts(alloc, input, (size, piece), to),
        Subject::FusedReader => read_fused(alloc, input, piece, to),
        Subject::Outlet => call_outlets(alloc, input, to),
        Subject::CustomStream => call_streams(alloc, input, piece, to),
        Subject::Turns => call_turns(alloc, input, to),
        Subject::Exchange(profile) => call_exchanges(alloc, profile, input, piece, to),
        Subject::Connection(profile) => call_connections(alloc, profile, input, piece, to),
    }
}

// Makes the call of a row once, and adds its results.
fn make_call(
    alloc: Global,
    row: &Row,
    trial: Trial,
    to: &mut Vec<Finding>,
) -> Result<(), AllocError> {
    let input = &row.input;
    let Trial { piece, room } = trial;
    match &row.call {
        Call::Text(call, text) => read_text(alloc, *call, text.as_str(), to),
        Call::Answers(methods) => {
            read_answers(alloc, methods.as_slice(), input.bytes.as_slice(), to)
        }
        Call::AnswerHead => read_head_alone(alloc, input.bytes.as_slice(), to),
        Call::Decoder(rules) => decode(alloc, *rules, input, piece, to),
        Call::PutChunk => write_chunk(alloc, input, to),
        Call::PutChunked => write_chunked(alloc, input, room, to),
        Call::Encoder(_) => encode(alloc, input, piece, room, to),
        Call::AskedCoding => ask(alloc, input.request.as_slice(), to),
        Call::Choose(choice) => choose_by(alloc, *choice, to),
        Call::RawPrint(status) => print(alloc, *status, input, room.or(input.room), to),
        Call::AddHeader => add_to_answer(alloc, input.headers.as_slice(), to),
        Call::Phrase(status) => phrase(alloc, *status, to),
        Call::Version(version) => show(alloc, *version, to),
        Call::Numeral(number) => write_number(alloc, *number, to),
        Call::StandardRequestLine => read_request_line(alloc, input.bytes.as_slice(), to),
        Call::StandardFieldLine => read_field_line(alloc, input.bytes.as_slice(), to),
        Call::ReadHead(limit) => read_first_head(alloc, *limit, input.bytes.as_slice(), to),
        Call::Host => validate_host(alloc, input.bytes.as_slice(), to),
        Call::Print(status) => print_by_standard(alloc, *status, input, to),
        Call::Each(subject) => make_each(alloc, *subject, input, piece, to),
        Call::Greeter => greet(alloc, input, piece, to),
        Call::ByNumber(count) => keep_numbers(alloc, *count, to),
        Call::UpgradeError(error) => add_shown(alloc, to, "phrase", error),
        Call::TurnsError(error) => add_shown(alloc, to, "phrase", error),
        Call::Validate(version, method) => {
            validate_head(alloc, *version, method, input.request.as_slice(), to)
        }
    }
}

// Returns whether a result is compared with the row. Results of some kinds are compared only if the row states a result
// of that kind.
fn counts(finding: &Finding, wanted: &[Finding]) -> bool {
    !is_asked(finding.word) || wanted.iter().any(|want| want.word == finding.word)
}

// Returns whether the two results are equal, or both are absent.
fn is_same(found: Option<&Finding>, want: Option<&Finding>) -> bool {
    match (found, want) {
        (Some(found), Some(want)) => found.word == want.word && found.text == want.text,
        (None, None) => true,
        _ => false,
    }
}

// Returns the first result and expected result that differ, of which one may be absent; or `None` if all agree.
fn first_pair<'a>(
    found: &'a [Finding],
    wanted: &'a [Finding],
) -> Option<(Option<&'a Finding>, Option<&'a Finding>)> {
    let mut place = 0usize;
    for finding in found {
        if counts(finding, wanted) {
            let want = wanted.get(place);
            place = place.saturating_add(1);
            if !is_same(Some(finding), want) {
                return Some((Some(finding), want));
            }
        }
    }
    match wanted.get(place) {
        Some(want) => Some((None, Some(want))),
        None => None,
    }
}

// Formats a result as `[KIND TEXT]`, or an absent one as `nothing`.
fn line_of(alloc: Global, finding: Option<&Finding>) -> Result<String, AllocError> {
    let Some(finding) = finding else {
        return String::from_str(alloc, "nothing");
    };
    let word = finding.word;
    if finding.text.is_empty() {
        return format!(in alloc; "[{word}]");
    }
    let text = shown(alloc, finding.text.as_slice())?;
    let text = text.as_str();
    format!(in alloc; "[{word} {text}]")
}

// Formats how a call was tried.
fn how(alloc: Global, trial: Trial) -> Result<String, AllocError> {
    match (trial.room, trial.piece) {
        (Some(room), _) => {
            let bytes = room.bytes;
            format!(in alloc; ", a writer that takes {bytes} bytes")
        }
        (None, 0) => Ok(String::new(alloc)),
        (None, piece) => format!(in alloc; ", {piece} bytes at a time"),
    }
}

// Tries a call once. Returns the first difference from `wanted`.
fn try_once(
    alloc: Global,
    row: &Row,
    trial: Trial,
    wanted: &[Finding],
) -> Result<Option<Difference>, AllocError> {
    let mut found = Vec::new(alloc);
    make_call(alloc, row, trial, &mut found)?;
    let Some((found, want)) = first_pair(found.as_slice(), wanted) else {
        return Ok(None);
    };
    Ok(Some(Difference {
        how: how(alloc, trial)?,
        found: line_of(alloc, found)?,
        wanted: line_of(alloc, want)?,
    }))
}

// Tries a call with each piece size that applies to it. Returns the first difference.
fn try_pieces(alloc: Global, row: &Row) -> Result<Option<Difference>, AllocError> {
    let pieces = match &row.call {
        Call::Decoder(_) | Call::Greeter => PIECES.as_slice(),
        Call::Each(_) if !row.input.bytes.is_empty() => PIECES.as_slice(),
        Call::Encoder(sizes) => sizes.as_slice(),
        _ => &[0],
    };
    for piece in pieces {
        let trial = Trial {
            piece: *piece,
            room: None,
        };
        if let Some(difference) = try_once(alloc, row, trial, row.wanted.as_slice())? {
            return Ok(Some(difference));
        }
    }
    Ok(None)
}

// Returns the expected output of a row, which is empty if the row states none.
fn output_of(row: &Row) -> &[u8] {
    for want in &row.wanted {
        if want.word == "output" {
            return want.text.as_slice();
        }
    }
    b""
}

// Tries a call with a writer that accepts `bytes` bytes and then fails. The writer must get that prefix of the output
// and no call after the failure, and the row's call must report the failure. Returns the first difference.
fn try_room(alloc: Global, row: &Row, bytes: usize) -> Result<Option<Difference>, AllocError> {
    let output = output_of(row);
    let mut wanted = Vec::new(alloc);
    add_some(
        alloc,
        &mut wanted,
        "output",
        output.get(..bytes).unwrap_or(output),
    )?;
    add(alloc, &mut wanted, "fault", b"TimedOut")?;
    add(alloc, &mut wanted, "failed", b"1")?;
    let fault = ErrorKind::TimedOut;
    let trial = Trial {
        piece: output.len(),
        room: Some(Room { bytes, fault }),
    };
    try_once(alloc, row, trial, wanted.as_slice())
}

// Returns how many bytes each additional writer of a row accepts.
fn rooms_of(alloc: Global, row: &Row) -> Result<Vec<usize>, AllocError> {
    match &row.input.rooms {
        None => Ok(Vec::new(alloc)),
        Some(Rooms::These(rooms)) => rooms.as_slice().to_vec(alloc),
        Some(Rooms::Each) => (0..output_of(row).len()).collect(alloc),
    }
}

// Tries a call with each additional writer of its row. Returns the first difference.
fn try_rooms(alloc: Global, row: &Row) -> Result<Option<Difference>, AllocError> {
    for bytes in rooms_of(alloc, row)? {
        if let Some(difference) = try_room(alloc, row, bytes)? {
            return Ok(Some(difference));
        }
    }
    Ok(None)
}

// Tries the call of a row with each piece size and each additional writer. Returns the first difference.
fn try_row(alloc: Global, row: &Row) -> Result<Option<Difference>, AllocError> {
    match try_pieces(alloc, row)? {
        Some(difference) => Ok(Some(difference)),
        None => try_rooms(alloc, row),
    }
}

// Prints one line for a row that differs.
fn report<'a, O: Write>(
    out: &mut O,
    name: &str,
    line: usize,
    difference: &Difference,
) -> Result<(), FilesFault<'a>> {
    let how = difference.how.as_str();
    let found = difference.found.as_str();
    let wanted = difference.wanted.as_str();
    match writeln!(out, "{name}:{line}{how}: {found} and not {wanted}") {
        Ok(()) => Ok(()),
        Err(_) => Err(FilesFault::CannotWrite),
    }
}

// Tries the rows of a file, and prints one line for each row that differs. Returns how many rows differ.
fn try_rows<'a, O: Write>(
    alloc: Global,
    out: &mut O,
    file: &RowFile<'a>,
) -> Result<u64, FilesFault<'a>> {
    let mut differing = 0u64;
    for row in &file.rows {
        if let Some(difference) = try_row(alloc, row)? {
            differing = differing.saturating_add(1);
            report(out, file.name, row.line, &difference)?;
        }
    }
    Ok(differing)
}

// Tries the rows of a file. Prints one line for each row that differs, and one for the file. Returns whether no row
// differed.
fn try_file<'a, O: Write>(
    alloc: Global,
    out: &mut O,
    file: &RowFile<'a>,
) -> Result<bool, FilesFault<'a>> {
    let differing = try_rows(alloc, out, file)?;
    let name = file.name;
    let count = file.rows.len();
    match writeln!(out, "{name}: {count} rows, {differing} differ") {
        Ok(()) => Ok(differing == 0),
        Err(_) => Err(FilesFault::CannotWrite),
    }
}

/// Tries the rows of all files. Prints one line for each row that differs, and one for each file. Returns whether no
/// row differed.
pub fn try_files<'a, O: Write>(
    alloc: Global,
    out: &mut O,
    files: &[RowFile<'a>],
) -> Result<bool, FilesFault<'a>> {
    let mut is_same = true;
    for file in files {
        let is_same_there = try_file(alloc, out, file)?;
        is_same = is_same && is_same_there;
    }
    match out.flush() {
        Ok(()) => Ok(is_same),
        Err(_) => Err(FilesFault::CannotWrite),
    }
}
