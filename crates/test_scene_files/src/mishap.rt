//! The errors of a scene's steps.
use std::alloc::{AllocError, Global};
use std::fmt;
use std::io::ErrorKind;
use test_data_files::fault::LineFault;
use test_data_files::text::{TextFault, shown};

/// An error of a step.
#[derive(Drop)]
pub enum Mishap {
    /// The result differs from the expected one.
    Differs { wanted: String, came: String },
    /// The step can't be run, for this reason.
    Unplayable(&'static str),
    OutOfMemory,
}

impl From<AllocError> for Mishap {
    fn from(_error: AllocError) -> Mishap {
        Mishap::OutOfMemory
    }
}

impl From<TextFault> for Mishap {
    fn from(fault: TextFault) -> Mishap {
        match LineFault::from(fault) {
            LineFault::Bad(why) => Mishap::Unplayable(why),
            LineFault::OutOfMemory => Mishap::OutOfMemory,
        }
    }
}

impl fmt::Display for Mishap {
    fn fmt<W: fmt::Write>(&self, f: &mut fmt::Formatter<W>) -> fmt::Result {
        match self {
            Mishap::Differs { wanted, came } => {
                write!(f, "\n    wanted {wanted}\n    came   {came}")
            }
            Mishap::Unplayable(why) => write!(f, " {why}"),
            Mishap::OutOfMemory => write!(f, " out of memory"),
        }
    }
}

/// Builds the error for a result that differs from the expected one.
pub fn differs(alloc: Global, wanted: &str, came: &str) -> Mishap {
    let (Ok(wanted), Ok(came)) = (
        String::from_str(alloc, wanted),
        String::from_str(alloc, came),
    ) else {
        return Mishap::OutOfMemory;
    };
    Mishap::Differs { wanted, came }
}

/// Fails unless `holds`. The error states `words` as the expectation.
pub fn demand(alloc: Global, words: &str, holds: bool) -> Result<(), Mishap> {
    if holds {
        return Ok(());
    }
    Err(differs(alloc, words, "not so"))
}

/// Fails unless the texts are equal.
pub fn demand_text(alloc: Global, wanted: &str, came: &str) -> Result<(), Mishap> {
    if wanted == came {
        return Ok(());
    }
    Err(differs(alloc, wanted, came))
}

/// Fails unless the numbers are equal.
pub fn demand_number(alloc: Global, wanted: u64, came: u64) -> Result<(), Mishap> {
    if wanted == came {
        return Ok(());
    }
    let wanted = format!(in alloc; "{wanted}")?;
    let came = format!(in alloc; "{came}")?;
    Err(Mishap::Differs { wanted, came })
}

// Maximum number of bytes shown of a text.
const SHOWN: usize = 200;

// Maximum number of bytes shown before the first difference of a text.
const SHOWN_BEFORE: usize = 60;

// Formats at most `SHOWN` bytes of a text from byte `from` on. If that is not the whole text, adds `from` and the
// length of the whole text.
fn part_shown(alloc: Global, bytes: &[u8], from: usize) -> Result<String, AllocError> {
    let part = bytes.get(from..).unwrap_or_default();
    let part = part.get(..SHOWN).unwrap_or(part);
    let text = shown(alloc, part)?;
    if from == 0 && part.len() == bytes.len() {
        return Ok(text);
    }
    format!(in alloc; "{text} ({} bytes from byte {from} on)", bytes.len())
}

/// Fails unless the byte strings are equal. The error shows the text around the first difference.
pub fn demand_bytes(alloc: Global, wanted: &[u8], came: &[u8]) -> Result<(), Mishap> {
    if wanted == came {
        return Ok(());
    }
    let same = wanted
        .iter()
        .zip(came)
        .position(|(one, other)| one != other);
    let from = same
        .unwrap_or(wanted.len().min(came.len()))
        .saturating_sub(SHOWN_BEFORE);
    let wanted = part_shown(alloc, wanted, from)?;
    let came = part_shown(alloc, came, from)?;
    Err(Mishap::Differs { wanted, came })
}

/// Fails unless a call failed with the kind `wanted`, or succeeded if `wanted` is `None`.
pub fn demand_fault(
    alloc: Global,
    wanted: Option<ErrorKind>,
    came: Option<ErrorKind>,
) -> Result<(), Mishap> {
    if wanted == came {
        return Ok(());
    }
    let wanted = format!(in alloc; "{wanted:?}")?;
    let came = format!(in alloc; "{came:?}")?;
    Err(Mishap::Differs { wanted, came })
}
