//! The backoff between attempts to accept a connection after a fault.
ghost use Rattle.std.specs.Prelude.{◌≡◌, ◌*◌, ◌≤◌, min};
ghost use Rattle.std.specs.Duration.{as_nanos};

use std::marker::Model;
use std::time::Duration;

/// The first wait, in milliseconds.
pub const FIRST_MILLIS: u64 = 10;

/// The longest wait, in milliseconds.
pub const MOST_MILLIS: u64 = 1_000;

/// An exponential backoff: 10 ms at first, doubling with each wait, at most 1000 ms. A contract sees a `Backoff` as the
/// next wait in milliseconds.
#[derive(Clone, Copy, Debug, PartialEq, Eq)]
pub struct Backoff {
    millis: u64,
}

impl Model for Backoff {
    ghost use Rattle.std.specs.Prelude.{ℕ, ◌≤◌};

    ghost Value = { ℕ };

    ghost view = { λ b. b.millis };

    ghost invariant = { λ b. b.millis ≤ 1_000 };

    ghost inverse = { λ n. record { millis = n } };
}

impl Backoff {
    /// Starts a backoff whose first wait is 10 ms.
    pub fn new() -> Backoff
        ensures { result ≡ 10 }
    {
        Backoff {
            millis: FIRST_MILLIS,
        }
    }

    /// Returns the next wait. The wait after that is twice as long, up to 1000 ms.
    pub fn take(&mut self) -> Duration
        ensures wait { as_nanos result ≡ self.old * 1_000_000 }
        ensures next { self.new ≡ min (self.old * 2) 1_000 }
        ensures longest { self.old ≤ 1_000 }
    {
        let millis = self.millis;
        self.millis = if millis < MOST_MILLIS / 2 {
            millis * 2
        } else {
            MOST_MILLIS
        };
        Duration::from_millis(millis)
    }
}
