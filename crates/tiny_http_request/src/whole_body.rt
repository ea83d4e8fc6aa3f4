//! Reading the whole body of a request.
ghost use Rattle.std.specs.Prelude.{◌≡◌, ◌⊎◌, ◌≤◌, ℕ, true, false, length, Option, Some, None, IfOk, IfErr, OnOk};
ghost use Rattle.std.specs.IoError.{error_kind};
ghost use Rattle.std.specs.declared.io.ErrorKind.{ErrorKind};
ghost use Rattle.tiny_http_io.specs.Device.{Feed};
ghost use Rattle.tiny_http_io.specs.declared.device.Stop.TheVariants.{Fault};
ghost use Rattle.tiny_http_body.specs.Body.{is_streaming, bytes_left, body_stop, IsBodyOver, remaining, prepended_body};
ghost use Rattle.tiny_http_body.specs.declared.body.UnreadBody.{UnreadBody};
ghost use Rattle.tiny_http_request.specs.Body.{body_left};
ghost use Rattle.tiny_http_request.specs.WholeBody.{fault_error, FailsReading, FailsWhole, IsWholeOf};

use crate::body::Body;
use std::alloc::{AllocError, Global};
use std::io;
use std::io::ErrorKind;
use std::sync::Wait;
use thiserror::Error;
use tiny_http_body::framing::Form;
use tiny_http_io::device::ReadDevice;

// Maximum number of bytes that are read at a time.
const PIECE: usize = 4096;

/// An error returned by `Request::read_body`.
#[derive(Debug, Drop, Error)]
pub enum BodyError {
    /// More bytes are left than the limit allows: 413 (RFC 9110, section 15.5.14).
    #[error("the body is too long")]
    TooLong,
    /// The client's bytes ended within the body (RFC 9112, section 8): 400, if the client still reads.
    #[error("the body is cut")]
    Cut,
    /// The chunks break the grammar (RFC 9112, section 7.1): 400.
    #[error("the chunks of the body are broken")]
    Broken,
    /// Another fault of the client's reader. Usually there is no client to respond to.
    #[error("{0}")]
    Io(io::Error),
    /// Out of memory: 503.
    #[error("out of memory")]
    Memory,
}

impl From<io::Error> for BodyError {
    ghost use Rattle.tiny_http_request.specs.declared.whole_body.BodyError.TheVariants.{Io};

    ghost from_gives = { λ fault error. error ≡ Io fault };

    /// Returns `Io`.
    fn from(error: io::Error) -> BodyError {
        BodyError::Io(error)
    }
}

impl From<AllocError> for BodyError {
    ghost use Rattle.tiny_http_request.specs.declared.whole_body.BodyError.TheVariants.{Memory};

    ghost from_gives = { λ _ error. error ≡ Memory };

    /// Returns `Memory`.
    fn from(_error: AllocError) -> BodyError {
        BodyError::Memory
    }
}

impl From<BodyError> for io::Error {
    ghost use Rattle.tiny_http_request.specs.WholeBody.{IsFaultOfBody};

    ghost from_gives = { IsFaultOfBody };

    /// Returns the reader's fault itself for `Io`, `InvalidInput` for `TooLong`, `UnexpectedEof` for `Cut`,
    /// `InvalidData` for `Broken` and `OutOfMemory` for `Memory`.
    fn from(error: BodyError) -> io::Error {
        match error {
            BodyError::TooLong => ErrorKind::InvalidInput.into(),
            BodyError::Cut => ErrorKind::UnexpectedEof.into(),
            BodyError::Broken => ErrorKind::InvalidData.into(),
            BodyError::Io(fault) => fault,
            BodyError::Memory => ErrorKind::OutOfMemory.into(),
        }
    }
}

// Returns the error for a fault of a body of this form.
fn fault_error(form: Form, fault: io::Error) -> BodyError
    ensures error { result ≡ fault_error form fault }
    // If each later read of the body reports this fault, the error is one that `FailsWhole` allows.
    ensures fails { (most : ℕ) (old new : UnreadBody)
        → body_stop new ≡ Some (Fault (error_kind fault))
        → FailsWhole form most old new result }
{
    match (form, fault.kind()) {
        (Form::Chunked, ErrorKind::InvalidData) => BodyError::Broken,
        (Form::Counted | Form::Chunked, ErrorKind::UnexpectedEof) => BodyError::Cut,
        _ => BodyError::Io(fault),
    }
}

// Reads the `count` bytes that are left of a body of a known length.
fn read_exactly<R: ReadDevice + Drop, Rt: Wait + Drop>(
    alloc: Global,
    body: &mut Body<R, Rt>,
    count: usize,
) -> Result<Vec<u8>, BodyError>
    requires { bytes_left body.old.unread ≡ Some count }
    ensures count { IfOk result (λ bytes. length bytes.items ≡ count) }
    ensures whole { IfOk result (λ bytes. IsWholeOf bytes.items (body_left body.old)) }
    ensures held { is_streaming body.old.unread ≡ false → (feed : Option Feed)
        → IfOk result
        (λ bytes. remaining body.old.unread feed ≡ prepended_body bytes.items (remaining body.new.unread feed)) }
    ensures over { OnOk result (is_streaming body.old.unread ≡ true → (count ≡ 0) ⊎ IsBodyOver body.new.unread) }
    ensures fails { IfErr result (FailsReading body.old.unread body.new.unread) }
{
    let mut bytes = Vec::new(alloc);
    let mut piece = [0; PIECE];
    while bytes.len() < count {
        let room = PIECE.min(count - bytes.len());
        let n = body.read_in(&mut piece[..room])?;
        if n == 0 {
            return Err(BodyError::Cut);
        }
        bytes.extend_from_slice(&piece[..n])?;
    }
    Ok(bytes)
}

// Reads a body of unknown length to its end, at most `most` bytes. If the body is longer, it reads one byte more, and
// fails with `TooLong`.
fn read_to_end<R: ReadDevice + Drop, Rt: Wait + Drop>(
    alloc: Global,
    body: &mut Body<R, Rt>,
    most: usize,
) -> Result<Vec<u8>, BodyError>
    requires { bytes_left body.old.unread ≡ None }
    ensures bound { IfOk result (λ bytes. length bytes.items ≤ most) }
    ensures whole { IfOk result (λ bytes. IsWholeOf bytes.items (body_left body.old)) }
    ensures held { is_streaming body.old.unread ≡ false → (feed : Option Feed)
        → IfOk result
        (λ bytes. remaining body.old.unread feed ≡ prepended_body bytes.items (remaining body.new.unread feed)) }
    ensures again { (kind : ErrorKind) → body_stop body.old.unread ≡ Some (Fault kind) → OnOk result ⊥ }
    ensures over { OnOk result (IsBodyOver body.new.unread) }
    ensures fails { IfErr result (FailsReading body.old.unread body.new.unread) }
{
    let mut bytes = Vec::new(alloc);
    let mut piece = [0; PIECE];
    loop {
        let room = most - bytes.len();
        let n = body.read_in(&mut piece[..PIECE.min(room.saturating_add(1))])?;
        if n > room {
            return Err(BodyError::TooLong);
        }
        if n == 0 {
            return Ok(bytes);
        }
        bytes.extend_from_slice(&piece[..n])?;
    }
}

/// Reads what is left of a body of this form, at most `most` bytes. A known length has to be at most `most`.
pub(crate) fn read_left<R: ReadDevice + Drop, Rt: Wait + Drop>(
    alloc: Global,
    body: &mut Body<R, Rt>,
    form: Form,
    most: usize,
) -> Result<Vec<u8>, BodyError>
    requires { (n : ℕ) → bytes_left body.old.unread ≡ Some n → n ≤ most }
    ensures bound { IfOk result (λ bytes. length bytes.items ≤ most) }
    ensures sized { (n : ℕ) → bytes_left body.old.unread ≡ Some n → IfOk result (λ bytes. length bytes.items ≡ n) }
    ensures whole { IfOk result (λ bytes. IsWholeOf bytes.items (body_left body.old)) }
    ensures held { is_streaming body.old.unread ≡ false → (feed : Option Feed)
        → IfOk result
        (λ bytes. remaining body.old.unread feed ≡ prepended_body bytes.items (remaining body.new.unread feed)) }
    ensures again { (kind : ErrorKind) → body_stop body.old.unread ≡ Some (Fault kind) → OnOk result ⊥ }
    ensures over { OnOk result (is_streaming body.old.unread ≡ true
        → (bytes_left body.old.unread ≡ Some 0) ⊎ IsBodyOver body.new.unread) }
    ensures fails { IfErr result (λ e. FailsWhole form most body.old.unread body.new.unread e) }
{
    let read = match body.left() {
        Some(left) => read_exactly(alloc, body, left),
        None => read_to_end(alloc, body, most),
    };
    match read {
        Err(BodyError::Io(fault)) => Err(fault_error(form, fault)),
        read => read,
    }
}
