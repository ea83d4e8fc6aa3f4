//! Reads a file of rows line by line.
use crate::naming::call_in;
use crate::parts::{add_part, empty_input};
use crate::row::{Call, Finding, Row, is_long, word_of};
use crate::words::{add_series, split};
use std::alloc::{AllocError, Global};
use test_data_files::fault::{FilesFault, LineFault, line_text};
use test_data_files::program::NamedFile;
use test_data_files::text::{add_text, text_of};

/// The name and the rows of a file.
#[derive(Drop)]
pub struct RowFile<'a> {
    pub name: &'a str,
    pub rows: Vec<Row>,
}

const NO_ROW: LineFault = LineFault::Bad("no row has begun");

// Begins a row with its first line. Fails if the previous row states no result.
fn begin(alloc: Global, rows: &mut Vec<Row>, line: usize, text: &str) -> Result<(), LineFault> {
    if rows.last().is_some_and(|row| row.wanted.is_empty()) {
        return Err(LineFault::Bad("the row before has no result"));
    }
    let row = Row {
        line,
        call: call_in(alloc, text)?,
        input: empty_input(alloc),
        wanted: Vec::new(alloc),
    };
    rows.push(row).map_err(AllocError::from)?;
    Ok(())
}

// Adds a part to the input of the last row's call. Fails if a result precedes the part, unless the row makes successive
// calls.
fn add_to_input(alloc: Global, rows: &mut Vec<Row>, part: &str) -> Result<(), LineFault> {
    let Some(row) = rows.last_mut() else {
        return Err(NO_ROW);
    };
    if !row.wanted.is_empty() && !matches!(row.call, Call::Each(_)) {
        return Err(LineFault::Bad("a part comes after a result"));
    }
    add_part(alloc, &row.call, &mut row.input, part)
}

// Appends to the text of the last result. Fails if there is no result, or if the text of the last one may take only one
// line.
fn go_on(
    alloc: Global,
    wanted: &mut Vec<Finding>,
    word: &str,
    words: &str,
) -> Result<(), LineFault> {
    match wanted.last_mut() {
        Some(finding) if is_long(finding.word) => {
            if word == "series" {
                add_series(words, &mut finding.text)
            } else {
                Ok(add_text(alloc, words, &mut finding.text)?)
            }
        }
        _ => Err(LineFault::Bad("there are no earlier bytes for this line to continue")),
    }
}

// Adds a line of the expected results: a new result, or more bytes of the last one.
fn add_wanted(alloc: Global, wanted: &mut Vec<Finding>, text: &str) -> Result<(), LineFault> {
    let (word, words) = split(text);
    if word == "series" || (is_long(word) && wanted.last().is_some_and(|last| last.word == word)) {
        return go_on(alloc, wanted, word, words);
    }
    let Some(word) = word_of(word) else {
        return Err(LineFault::Bad("no call has a result of this name"));
    };
    let text = text_of(alloc, words)?;
    wanted
        .push(Finding { word, text })
        .map_err(AllocError::from)?;
    Ok(())
}

// Reads one line: an empty line, a comment, the first line of a row, or a further line of the current row.
fn read_line(
    alloc: Global,
    rows: &mut Vec<Row>,
    number: usize,
    line: &[u8],
) -> Result<(), LineFault> {
    let Some(text) = line_text(line)? else {
        return Ok(());
    };
    if let Some(part) = text.strip_prefix("+ ") {
        return add_to_input(alloc, rows, part);
    }
    let Some(text) = text.strip_prefix("  ") else {
        return begin(alloc, rows, number, text);
    };
    match rows.last_mut() {
        Some(row) => add_wanted(alloc, &mut row.wanted, text),
        None => Err(NO_ROW),
    }
}

// Reads the rows of a file. Fails at the first invalid line, if there is no row, or if the last row states no result.
fn file_of<'a>(alloc: Global, file: &NamedFile<'a>) -> Result<RowFile<'a>, FilesFault<'a>> {
    let name = file.name;
    let mut rows = Vec::new(alloc);
    let mut number = 0usize;
    for line in file.bytes.split(|byte| *byte == b'\n') {
        number = number.saturating_add(1);
        if let Err(fault) = read_line(alloc, &mut rows, number, line) {
            return Err(FilesFault::at_line(name, number, fault));
        }
    }
    match rows.last() {
        None => Err(FilesFault::BadLine(name, number, "there is no row")),
        Some(row) if row.wanted.is_empty() => {
            let why = "the last row has no result";
            Err(FilesFault::BadLine(name, number, why))
        }
        Some(_) => Ok(RowFile { name, rows }),
    }
}

/// Reads the rows of these files. Fails at the first invalid line, or if a file has no row or its last row states no
/// result.
pub fn files_of<'a>(
    alloc: Global,
    files: &[NamedFile<'a>],
) -> Result<Vec<RowFile<'a>>, FilesFault<'a>> {
    let mut all = Vec::new(alloc);
    for file in files {
        all.push(file_of(alloc, file)?).map_err(AllocError::from)?;
    }
    Ok(all)
}
