//! A past value for contracts, like the standard library's `Snapshot`. Unlike a `Snapshot`, it doesn't keep the type
//! that holds it from being `Send`.
ghost use Rattle.std.specs.Prelude.{◌≡◌};
ghost use base.Fml.{ftrue};

use std::marker::{Model, PhantomData};

// A value as contracts saw it. It has no bytes and owns nothing: only the clause of `of` defines its value.
#[derive(Drop)]
pub(crate) struct Remembered<T> {
    marker: PhantomData<T>,
    pub(crate) ghost value: { T },
}

impl<T> Model for Remembered<T> {
    ghost also_owns = { λ _. ftrue };
}

impl<T> Remembered<T> {
    // Remembers the value that contracts see at `x` now.
    pub(crate) fn of(x: &T) -> Remembered<T>
        ensures { result.value ≡ x.now }
    {
        let _ = x;
        Remembered {
            marker: PhantomData,
        }
    }
}
