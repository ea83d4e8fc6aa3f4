//! A law, stated as the contract of a function that does nothing.
ghost use Rattle.std.specs.Prelude.{◌≡◌};

use crate::buffer::CAPACITY;

/// The buffer of a `Source` or an `Outlet` holds at most 1024 bytes. The contracts of `Outlet` call this number
/// `CAPACITY`.
pub fn size_of_buffers()
    ensures { CAPACITY ≡ 1024 }
{}
