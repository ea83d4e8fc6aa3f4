//! The errors of a line, and of a run over files.
use crate::text::TextFault;
use std::alloc::AllocError;
use std::fmt;

/// An error in reading a line.
#[derive(Clone, Copy, Debug, PartialEq, Eq)]
pub enum LineFault {
    /// The line is invalid for this reason.
    Bad(&'static str),
    OutOfMemory,
}

impl From<AllocError> for LineFault {
    fn from(_error: AllocError) -> LineFault {
        LineFault::OutOfMemory
    }
}

impl From<TextFault> for LineFault {
    fn from(fault: TextFault) -> LineFault {
        match fault {
            TextFault::NoEscape => LineFault::Bad("a backslash begins no escape"),
            TextFault::NoRepeat => LineFault::Bad("a repeated piece is \\{COUNT TEXT}"),
            TextFault::OutOfMemory => LineFault::OutOfMemory,
        }
    }
}

/// Returns the text of a line, or `None` if the line is empty or a comment. Fails if any other line is not ASCII.
pub fn line_text(line: &[u8]) -> Result<Option<&str>, LineFault> {
    if line.is_empty() || line.starts_with(b"#") {
        return Ok(None);
    }
    if !line.is_ascii() {
        return Err(LineFault::Bad("a byte from 128 on is written \\xHH"));
    }
    Ok(Some(str::from_utf8(line).unwrap_or_default()))
}

/// An error that aborts a run over files.
#[derive(Clone, Copy, Debug, PartialEq, Eq)]
pub enum FilesFault<'a> {
    /// The command line names no file, or is not UTF-8.
    Usage,
    /// The file of this name can't be read.
    CannotRead(&'a str),
    /// This line of the file of this name is invalid, for this reason.
    BadLine(&'a str, usize, &'static str),
    OutOfMemory,
    CannotWrite,
}

impl<'a> FilesFault<'a> {
    /// Converts the error of line `number` of the file `name`.
    pub fn at_line(name: &'a str, number: usize, fault: LineFault) -> FilesFault<'a> {
        match fault {
            LineFault::Bad(why) => FilesFault::BadLine(name, number, why),
            LineFault::OutOfMemory => FilesFault::OutOfMemory,
        }
    }

    /// Returns the exit status: 2 for an invalid command line or file, and 1 for a failure of the system.
    pub fn status(&self) -> u8 {
        match self {
            FilesFault::Usage | FilesFault::BadLine(..) => 2,
            FilesFault::CannotRead(_) | FilesFault::OutOfMemory | FilesFault::CannotWrite => 1,
        }
    }
}

impl fmt::Display for FilesFault<'_> {
    fn fmt<W: fmt::Write>(&self, f: &mut fmt::Formatter<W>) -> fmt::Result {
        match self {
            FilesFault::Usage => write!(f, "no file is named"),
            FilesFault::CannotRead(name) => write!(f, "cannot read {name}"),
            FilesFault::BadLine(name, number, why) => write!(f, "{name}:{number}: {why}"),
            FilesFault::OutOfMemory => write!(f, "out of memory"),
            FilesFault::CannotWrite => write!(f, "cannot write"),
        }
    }
}

impl<'a> From<AllocError> for FilesFault<'a> {
    fn from(_error: AllocError) -> FilesFault<'a> {
        FilesFault::OutOfMemory
    }
}
