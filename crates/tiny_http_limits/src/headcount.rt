//! A bounded counter.
ghost use Rattle.tiny_http_limits.specs.Headcount.{CountsIn, CountsOut};

use std::marker::Model;

/// A count of what has entered and not left, at most 2^64 - 1. A contract sees a `Headcount` as that number.
#[derive(Debug, Drop)]
pub struct Headcount {
    present: usize,
}

impl Model for Headcount {
    ghost use Rattle.std.specs.Prelude.{ℕ};

    ghost Value = { ℕ };

    ghost view = { λ h. h.present };
}

impl Headcount {
    ghost use Rattle.std.specs.Prelude.{◌≡◌};

    /// Returns a count of 0.
    pub fn new() -> Headcount
        ensures { result ≡ 0 }
    {
        Headcount { present: 0 }
    }

    /// Adds one and returns `true`. Returns `false` and changes nothing if the count is 2^64 - 1.
    pub fn enter(&mut self) -> bool
        ensures { CountsIn self.old result self.new }
    {
        if self.present == usize::MAX {
            return false;
        }
        self.present += 1;
        true
    }

    /// Subtracts one and returns `true`. Returns `false` and changes nothing if the count is 0.
    pub fn leave(&mut self) -> bool
        ensures { CountsOut self.old result self.new }
    {
        if self.present == 0 {
            return false;
        }
        self.present -= 1;
        true
    }

    /// Returns the current count.
    pub fn count(&self) -> usize
        ensures { result ≡ self.now }
    {
        self.present
    }
}
