//! A law, the contract of a function that does nothing.
ghost use Rattle.std.specs.Prelude.{◌≡◌};

use crate::task_pool::{IDLE_MILLIS, MIN_THREADS};

/// The constants of a pool: how many workers it keeps, and how long each further worker may be idle, in milliseconds.
pub fn numbers_of_pools()
    ensures workers { MIN_THREADS ≡ 4 }
    ensures idle { IDLE_MILLIS ≡ 5000 }
{}
