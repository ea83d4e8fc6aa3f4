//! The reasons why the program can't serve, each with one line and an exit status.
ghost use Rattle.std.specs.Prelude.{◌≡◌, ◌<◌, ◌≤◌};

use std::fmt;

/// The reason why the program can't serve.
#[derive(Clone, Copy, Debug, PartialEq, Eq)]
pub(crate) enum HelloFault<'a> {
    Usage,
    /// The program can't listen on this address.
    CannotListen(&'a str),
    OutOfMemory,
}

impl HelloFault<'_> {
    ghost use Rattle.hello.specs.HelloFault.{exit_status};

    /// Returns the exit status of this error: 2 for a usage error, 1 for any other error.
    pub(crate) fn status(&self) -> u8
        ensures { result ≡ exit_status self.now }
    {
        match self {
            HelloFault::Usage => 2,
            HelloFault::CannotListen(_) | HelloFault::OutOfMemory => 1,
        }
    }
}

impl fmt::Display for HelloFault<'_> {
    fn fmt<W: fmt::Write>(&self, f: &mut fmt::Formatter<W>) -> fmt::Result {
        match self {
            HelloFault::Usage => write!(f, "usage: hello ADDRESS"),
            HelloFault::CannotListen(address) => write!(f, "cannot listen on {address}"),
            HelloFault::OutOfMemory => write!(f, "out of memory"),
        }
    }
}
