//! Parses the input of a call, part by part.
use crate::deeds::deed_in;
use crate::row::{Call, Failing, Input, Rooms};
use crate::words::{add_series, header, header_line, number, numbers, split, text, version};
use std::alloc::{AllocError, Global};
use std::io::ErrorKind;
use test_case_files::case::Room;
use test_data_files::fault::LineFault;
use test_data_files::kinds::kind_of;
use test_data_files::text::{add_text, text_of};

/// Creates an empty input.
pub fn empty_input(alloc: Global) -> Input {
    Input {
        bytes: Vec::new(alloc),
        stop: None,
        headers: Vec::new(alloc),
        length: None,
        threshold: None,
        version: None,
        request: Vec::new(alloc),
        upgrade: None,
        is_withheld: false,
        has_flushes: false,
        is_open: false,
        room: None,
        rooms: None,
        pieces: Vec::new(alloc),
        failing_read: None,
        failing_write: None,
        is_stuck: false,
        deeds: Vec::new(alloc),
    }
}

// Returns the names of the parts that a call accepts.
fn parts_of(call: &Call) -> &'static [&'static str] {
    match call {
        Call::Answers(_) | Call::AnswerHead => &["data", "series"],
        Call::Decoder(_) => &["data", "series", "stop"],
        Call::PutChunk => &["data", "series"],
        Call::PutChunked => &["data", "series", "stop", "rooms"],
        Call::Encoder(_) => &["data", "series", "flushes", "open", "rooms"],
        Call::AskedCoding | Call::Validate(_, _) => &["request"],
        Call::StandardRequestLine | Call::StandardFieldLine | Call::Host => &["data"],
        Call::ReadHead(_) => &["data", "series"],
        Call::RawPrint(_) => &[
            "data",
            "series",
            "stop",
            "header",
            "length",
            "threshold",
            "version",
            "request",
            "upgrade",
            "withheld",
            "takes",
            "rooms",
        ],
        Call::AddHeader => &["header"],
        Call::Print(_) => &["data", "series", "length", "threshold"],
        Call::Greeter => &["data", "series"],
        Call::Each(_) => &[
            "data",
            "series",
            "stop",
            "takes",
            "pieces",
            "fails",
            "writer-fails",
            "stuck",
        ],
        _ => &[],
    }
}

const TWICE: LineFault = LineFault::Bad("the row says so already");

// Sets an optional value. Fails if the value is set already.
fn put<T: Drop>(slot: &mut Option<T>, value: T) -> Result<(), LineFault> {
    if slot.is_some() {
        return Err(TWICE);
    }
    *slot = Some(value);
    Ok(())
}

// Sets a flag. Fails if the flag is set already, or if words follow its name.
fn mark(slot: &mut bool, words: &str) -> Result<(), LineFault> {
    if !words.is_empty() {
        return Err(LineFault::Bad("this part takes no words"));
    }
    if *slot {
        return Err(TWICE);
    }
    *slot = true;
    Ok(())
}

// Parses an error kind.
fn kind(name: &str) -> Result<ErrorKind, LineFault> {
    match kind_of(name) {
        Some(kind) => Ok(kind),
        None => Err(LineFault::Bad("no such kind of fault")),
    }
}

// Parses how many bytes a writer accepts, and the kind of the error with which it then fails.
fn room(words: &str) -> Result<Room, LineFault> {
    let (digits, name) = split(words);
    Ok(Room {
        bytes: number(digits)?,
        fault: kind(name)?,
    })
}

// Parses how many bytes each of several writers accepts: numbers, or `each`.
fn rooms(alloc: Global, words: &str) -> Result<Rooms, LineFault> {
    if words == "each" {
        return Ok(Rooms::Each);
    }
    Ok(Rooms::These(numbers(alloc, words)?))
}

// Adds input bytes, the error after them, or a part of a response: the stated length of its data, its threshold, or a
// header.
fn add_of_answer(
    alloc: Global,
    input: &mut Input,
    word: &str,
    words: &str,
) -> Result<(), LineFault> {
    match word {
        "data" => Ok(add_text(alloc, words, &mut input.bytes)?),
        "series" => add_series(words, &mut input.bytes),
        "stop" => put(&mut input.stop, kind(words)?),
        "length" => put(&mut input.length, number(words)?),
        "threshold" => put(&mut input.threshold, number(words)?),
        _ => {
            let header = header(alloc, words)?;
            input.headers.push(header).map_err(AllocError::from)?;
            Ok(())
        }
    }
}

// Adds the version or a header of a request, or how its response is printed: as an upgrade, or without its body.
fn add_of_request(
    alloc: Global,
    input: &mut Input,
    word: &str,
    words: &str,
) -> Result<(), LineFault> {
    match word {
        "version" => put(&mut input.version, version(words)?),
        "upgrade" => put(&mut input.upgrade, text(alloc, words)?),
        "withheld" => mark(&mut input.is_withheld, words),
        _ => {
            let header = header_line(alloc, words)?;
            input.request.push(header).map_err(AllocError::from)?;
            Ok(())
        }
    }
}

// Adds a part that determines how the data is written.
fn add_of_writing(
    alloc: Global,
    input: &mut Input,
    word: &str,
    words: &str,
) -> Result<(), LineFault> {
    match word {
        "flushes" => mark(&mut input.has_flushes, words),
        "open" => mark(&mut input.is_open, words),
        "takes" => put(&mut input.room, room(words)?),
        _ => put(&mut input.rooms, rooms(alloc, words)?),
    }
}

// Parses the number of the call that fails, and the kind of its error.
fn failing(words: &str) -> Result<Failing, LineFault> {
    let (digits, name) = split(words);
    Ok(Failing {
        call: number(digits)? as u64,
        kind: kind(name)?,
    })
}

// Adds equal pieces. The words are the number of pieces and the text of each.
fn add_pieces(alloc: Global, words: &str, pieces: &mut Vec<Vec<u8>>) -> Result<(), LineFault> {
    let (count, piece) = split(words);
    let piece = text_of(alloc, piece)?;
    for _ in 0..number(count)? {
        pieces
            .push(piece.as_slice().to_vec(alloc)?)
            .map_err(AllocError::from)?;
    }
    Ok(())
}

// Adds a part that determines what calls on a reader or a writer return.
fn add_of_devices(
    alloc: Global,
    input: &mut Input,
    word: &str,
    words: &str,
) -> Result<(), LineFault> {
    match word {
        "pieces" => add_pieces(alloc, words, &mut input.pieces),
        "fails" => put(&mut input.failing_read, failing(words)?),
        "writer-fails" => put(&mut input.failing_write, failing(words)?),
        _ => mark(&mut input.is_stuck, words),
    }
}

// Adds one of the successive calls of a row. Fails if the row's call makes none.
fn add_deed(alloc: Global, call: &Call, input: &mut Input, part: &str) -> Result<(), LineFault> {
    let Call::Each(subject) = call else {
        return Err(LineFault::Bad("the call takes no such part"));
    };
    let deed = deed_in(alloc, *subject, part)?;
    input.deeds.push(deed).map_err(AllocError::from)?;
    Ok(())
}

/// Adds a part to the input of a call. A part that the call does not accept by name is parsed as one of its successive
/// calls.
pub fn add_part(
    alloc: Global,
    call: &Call,
    input: &mut Input,
    part: &str,
) -> Result<(), LineFault> {
    let (word, words) = split(part);
    if !parts_of(call).iter().any(|known| *known == word) {
        return add_deed(alloc, call, input, part);
    }
    match word {
        "version" | "upgrade" | "withheld" | "request" => {
            add_of_request(alloc, input, word, words)
        }
        "flushes" | "open" | "takes" | "rooms" => add_of_writing(alloc, input, word, words),
        "pieces" | "fails" | "writer-fails" | "stuck" => {
            add_of_devices(alloc, input, word, words)
        }
        _ => add_of_answer(alloc, input, word, words),
    }
}
