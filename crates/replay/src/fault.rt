//! The errors of a replay, each reported as one line and an exit status.
ghost use Rattle.std.specs.Prelude.{◌≡◌, ◌<◌, ◌≤◌};

use std::fmt;

/// The reason why a script can't be run, or its result can't be written.
#[derive(Clone, Copy, Debug, PartialEq, Eq)]
pub(crate) enum ReplayFault<'a> {
    Usage,
    /// The file of this name can't be read.
    CannotRead(&'a str),
    /// The script has an invalid line. This is the number of the first such line, counted from 1 over all lines.
    BadLine(usize),
    OutOfMemory,
    CannotWrite,
}

impl ReplayFault<'_> {
    ghost use Rattle.replay.specs.ReplayFault.{exit_status};

    /// Returns the exit status of this error: 2 if the arguments, a file or the script can't be used, 1 if memory can't
    /// be allocated or writing fails.
    pub(crate) fn status(&self) -> u8
        ensures value { result ≡ exit_status self.now }
        ensures some { 0 < result }
        ensures bound { result ≤ 2 }
    {
        match self {
            ReplayFault::Usage | ReplayFault::CannotRead(_) | ReplayFault::BadLine(_) => 2,
            ReplayFault::OutOfMemory | ReplayFault::CannotWrite => 1,
        }
    }
}

impl fmt::Display for ReplayFault<'_> {
    fn fmt<W: fmt::Write>(&self, f: &mut fmt::Formatter<W>) -> fmt::Result {
        match self {
            ReplayFault::Usage => write!(f, "usage: replay [--strict | --standard] BYTES SCRIPT"),
            ReplayFault::CannotRead(name) => write!(f, "cannot read {name}"),
            ReplayFault::BadLine(number) => write!(f, "bad line {number}"),
            ReplayFault::OutOfMemory => write!(f, "out of memory"),
            ReplayFault::CannotWrite => write!(f, "cannot write"),
        }
    }
}
