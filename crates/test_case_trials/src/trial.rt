//! The ways in which a case is tried.
use std::alloc::{AllocError, Global};
use std::fmt;
use std::io::ErrorKind;
use test_case_files::case::Case;
use test_case_files::devices::{Reader, Trier};
use tiny_http_wire::device::{ByPieces, Canned, FailsAt};

/// A fault injected into a case.
#[derive(Clone, Copy, Debug, PartialEq, Eq)]
pub enum Harm {
    /// The writer fails in the call with this number, counted from 1.
    Call(u64),
    /// Only this many of the client's bytes arrive. Then the reader fails with this kind, or reports the end.
    Cut(usize, Option<ErrorKind>),
    /// The reader returns one byte per call. After this many of the client's bytes, a single call fails with this kind.
    Once(usize, ErrorKind),
    /// The client's byte at this index is replaced with this value.
    Byte(usize, u8),
}

/// One way to try a case.
#[derive(Clone, Copy, Debug, PartialEq, Eq)]
pub struct Trial {
    /// Maximum number of bytes that a call to the reader returns.
    pub piece: usize,
    /// The injected fault, if any.
    pub harm: Option<Harm>,
}

/// The error kind of an injected writer failure. Much code retries a call that fails with this kind.
pub const FAILING: ErrorKind = ErrorKind::Interrupted;

impl Trial {
    /// Creates a trial with this injected fault.
    pub fn harmed(harm: Harm) -> Trial {
        let piece = match harm {
            Harm::Once(..) => 1,
            Harm::Call(_) | Harm::Cut(..) | Harm::Byte(..) => 1024,
        };
        let harm = Some(harm);
        Trial { piece, harm }
    }

    /// Returns the bytes that the client sends in this trial.
    pub fn client(&self, alloc: Global, case: &Case) -> Result<Vec<u8>, AllocError> {
        let whole = case.client.as_slice();
        match self.harm {
            Some(Harm::Cut(count, _)) => whole.get(..count).unwrap_or(whole).to_vec(alloc),
            Some(Harm::Byte(place, byte)) => {
                let mut bytes = whole.to_vec(alloc)?;
                if let Some(at) = bytes.get_mut(place) {
                    *at = byte;
                }
                Ok(bytes)
            }
            Some(Harm::Call(_) | Harm::Once(..)) | None => whole.to_vec(alloc),
        }
    }

    /// Returns the reader of this trial.
    pub fn reader(&self, alloc: Global, case: &Case) -> Result<Reader, AllocError> {
        let stop = match self.harm {
            Some(Harm::Cut(_, stop)) => stop,
            _ => case.stop,
        };
        let client = Canned::new(self.client(alloc, case)?, stop);
        let pieces = ByPieces::new(client, self.piece);
        Ok(match self.harm {
            Some(Harm::Once(count, kind)) => {
                FailsAt::new(pieces, (count as u64).saturating_add(1), kind)
            }
            _ => FailsAt::new(pieces, 0, ErrorKind::Other),
        })
    }

    /// Returns the writer of this trial.
    pub fn writer(&self, alloc: Global, case: &Case) -> Trier {
        match (self.harm, case.room) {
            (Some(Harm::Call(call)), _) => Trier::failing_at(alloc, call, FAILING),
            (_, Some(room)) => Trier::with_room(alloc, room.bytes, room.fault),
            (_, None) => Trier::with_room(alloc, usize::MAX, ErrorKind::Other),
        }
    }
}

impl fmt::Display for Trial {
    fn fmt<W: fmt::Write>(&self, f: &mut fmt::Formatter<W>) -> fmt::Result {
        let piece = self.piece;
        write!(f, "{piece} bytes a read")?;
        match self.harm {
            None => Ok(()),
            Some(Harm::Call(call)) => write!(f, ", call {call} failing"),
            Some(Harm::Cut(count, None)) => write!(f, ", cut at {count}"),
            Some(Harm::Cut(count, Some(kind))) => write!(f, ", cut at {count} by {kind:?}"),
            Some(Harm::Once(count, kind)) => write!(f, ", {kind:?} once after {count}"),
            Some(Harm::Byte(place, byte)) => write!(f, ", byte {place} being {byte}"),
        }
    }
}
