//! Reading up to the next request of a connection, past any refused heads that don't end the requests.
ghost use Rattle.std.specs.Prelude.{ℕ, List, Bool, is_ok};
ghost use Rattle.tiny_http_open_request.specs.NextRequest.{at, FindsHead, FindsNext};

use crate::exchange::{EndOfRequests, Head, HeadRead, read_head_with};
use crate::open_request::OpenRequest;
use httpdate::HttpDate;
use std::alloc::{AllocError, Global};
use tiny_http_body::body::UnreadBody;
use tiny_http_body::framing::Profile;
use tiny_http_io::device::ReadDevice;
use tiny_http_io::source::Source;

/// The next request of a connection, or why there is none.
#[derive(Drop)]
pub enum NextRequest {
    /// A request: its head, and its state until the response.
    Request(Head, OpenRequest<UnreadBody>),
    /// No further request, for this reason.
    Ended(EndOfRequests),
}

/// A destination for the responses to refused heads, each sent in the turn of its head. `O` is the output that each
/// call borrows.
pub trait RefusalPlace<O> {
    /// The effect of `refuse`, as a relation between the place and the output before the call, the text, whether the
    /// call accepted it, and the place and the output after the call.
    ghost refuses: { Self → O → List ℕ → Bool → Self → O → Type 0 };

    /// Accepts the complete response to a refused head, which must be sent in the turn of the head. The call must not
    /// wait for that turn. Fails if memory can't be allocated, or if the place accepts no further response.
    fn refuse(&mut self, output: &mut O, text: Vec<u8>) -> Result<(), AllocError>
        ensures { refuses self.old output.old text.items (is_ok result) self.new output.new };
}

/// Reads heads up to that of the next request, and hands the response to each refused head to `place`. A refused head
/// ends the requests, with one exception: under `Lenient` and `Strict` the next head is read after a 505, unless the
/// refused head names an upgrade or its body is chunked (as in the Rust crate). `now` dates the responses to refused
/// heads, and the 500 of a dropped request. Fails if memory can't be allocated, if `place` fails, or after 2^64 refused
/// heads.
pub fn next_request<R: ReadDevice, O, P: RefusalPlace<O>>(
    alloc: Global,
    source: &mut Source<R>,
    profile: Profile,
    place: &mut P,
    output: &mut O,
    now: HttpDate,
) -> Result<NextRequest, AllocError>
    ensures { FindsNext P.refuses profile now (at source.old place.old output.old) result
        (at source.new place.new output.new) }
{
    let mut room = u64::MAX;
    loop {
        match read_head_with(alloc, source, profile, now) {
            Ok(HeadRead::Request(exchange)) => {
                let (head, open_request) = exchange.into_parts();
                return Ok(NextRequest::Request(head, open_request));
            }
            Ok(HeadRead::Ended(why)) => return Ok(NextRequest::Ended(why)),
            Ok(HeadRead::Refused { status, text, last }) => match place.refuse(output, text) {
                Ok(()) if last => return Ok(NextRequest::Ended(EndOfRequests::Refused(status))),
                Ok(()) => {}
                Err(e) => return Err(e),
            },
            Err(e) => return Err(e),
        }
        match room.checked_sub(1) {
            Some(left) => room = left,
            None => return Err(AllocError),
        }
    }
}
