//! Holding a reader in its turn.
use crate::sequential::Reading;
pub use crate::turn_queue::Held;
use std::sync::Wait;
use tiny_http_turns::passing::{HeldTurn, pass_on};

/// A reader whose turn has come, and the inner reader that it reads from. Dropping it finishes its turn, without
/// waiting for any other turn.
pub struct HeldReader<I: Drop, R: Wait + Drop> {
    /// The number whose turn has come, and the inner reader.
    pub turn: Held<I, R>,
}

impl<I: Drop, R: Wait + Drop> Drop for HeldReader<I, R> {
    fn drop(self) {
        let Self { turn } = self;
        let mut reading = Reading { held: Some(turn) };
        if let Some(text) = reading.finish(&mut ()) {
            pass_on(&mut reading, &mut (), &mut (), text);
        }
    }
}
