//! The start of a body after its head (RFC 9112, section 6).
ghost use Rattle.std.specs.Prelude.{◌≡◌, None, IfOk, IfSome, IsSome};
ghost use Rattle.tiny_http_io.specs.Source.{GoesOn, IsCutOff};
ghost use Rattle.tiny_http_open_request.specs.HeadReads.{Begins, FitsFraming};

use std::alloc::{AllocError, Global};
use std::io::Cursor;
use tiny_http_body::body::{UnreadBody, chunked, counted};
use tiny_http_body::framing::{Form, Framing};
use tiny_http_io::device::{ReadDevice, Stop};
use tiny_http_io::source::Source;

/// Begins the body after a head with this framing, and returns it. A body of `Form::WithHead`, which has up to 1024
/// bytes, is read at once; if the source's end or a fault cuts it, returns `None`. Fails if memory for such a body
/// can't be allocated.
#[inline(always)]
pub fn begin_body<R: ReadDevice>(
    alloc: Global,
    source: &mut Source<R>,
    framing: Framing,
) -> Result<Option<UnreadBody>, AllocError>
    ensures begins { IfOk result (Begins framing source.old.feed source.new.feed) }
    ensures fits { IfOk result (λ body. IfSome body (FitsFraming framing)) }
    ensures goes_on { GoesOn source.old.feed source.new.feed }
    ensures lazy { IfOk result (λ body. IsSome body → source.new.stop ≡ source.old.stop) }
    ensures cut { IfOk result (λ body. body ≡ None → IsCutOff source.old source.new) }
    ensures input_state { source.new.input_state ≡ source.old.input_state }
{
    let length = framing.body_length.unwrap_or(0);
    match framing.form {
        Form::Rest => Ok(Some(UnreadBody::Rest)),
        Form::Nothing => Ok(Some(UnreadBody::Over(Stop::End))),
        Form::Counted => Ok(Some(counted(length, framing.by_standard))),
        Form::Chunked => Ok(Some(chunked(framing.by_standard))),
        Form::WithHead => match source.take_exactly(alloc, length) {
            Ok(Some(bytes)) => Ok(Some(UnreadBody::WithHead(Cursor::new(bytes)))),
            Ok(None) => Ok(None),
            Err(e) => Err(e),
        },
    }
}
