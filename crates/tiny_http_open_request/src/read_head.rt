//! Reading one head from a source, under each profile (RFC 9112, sections 2 to 6).
ghost use Rattle.std.specs.Prelude.{◌≡◌, IfOk};
ghost use Rattle.tiny_http_io.specs.Source.{GoesOn, IsAtEnd};
ghost use Rattle.tiny_http_open_request.specs.Pipeline.{profile_of};
ghost use Rattle.tiny_http_open_request.specs.HeadReads.{FitsHead, ReadsHead, TakesHead, HasByteOrTimedOut, IsRequest};
ghost use Rattle.tiny_http_open_request.specs.HeadReads.{IsFramedRequest, IsRefusedUncut, IsOkEnd, end_at};
ghost use Rattle.tiny_http_open_request.specs.HeadReads.{message_of, head_message, head_framing};

use crate::body_start::begin_body;
use crate::exchange::{EndOfRequests, Exchange, Head, HeadRead, input_state_of};
use crate::head_faults::{answer_cut, answer_fault, refusal_of, refuse_too_new, refused_with};
use crate::heads::{MessageHead, read_message};
use crate::open_request::{OpenRequest, is_head};
use crate::standard::read_standard;
use httpdate::HttpDate;
use std::alloc::{AllocError, Global};
use tiny_http_body::framing::{Framing, HeadRules, Profile, framing_of, is_too_new};
use tiny_http_io::device::ReadDevice;
use tiny_http_io::source::{InputState, Source};

// Makes a head from a message and its framing.
#[inline(always)]
fn head_of(message: MessageHead, framing: Framing) -> Head
    ensures message { head_message result ≡ message_of message }
    ensures framing { head_framing result ≡ framing }
{
    Head {
        method: message.method,
        path: message.path,
        version: message.version,
        headers: message.headers,
        framing,
    }
}

// Reads the head at the source's position, under `Lenient` or `Strict`. After any result but a request the source may
// be within a head or its body.
fn read_by_rules<R: ReadDevice>(
    alloc: Global,
    source: &mut Source<R>,
    rules: HeadRules,
    now: HttpDate,
) -> Result<HeadRead, AllocError>
    ensures reads { ReadsHead (profile_of rules) InputState.Head now source.old.feed source.new.feed result }
    ensures goes_on { GoesOn source.old.feed source.new.feed }
    ensures at_end { IsAtEnd source.old → IsOkEnd result × (source.new ≡ source.old) }
    ensures begun { (IsOkEnd result → ⊥) → HasByteOrTimedOut (profile_of rules) source.old.feed }
    ensures framed { IfOk result (IsFramedRequest (profile_of rules) now) }
    ensures fits { IfOk result FitsHead }
    ensures lazy { IfOk result (λ read. IsRequest read → source.new.stop ≡ source.old.stop) }
    ensures passed { IfOk result (λ read. IsRefusedUncut read → source.new.stop ≡ source.old.stop) }
    ensures input_state { source.new.input_state ≡ source.old.input_state }
{
    if !source.has_byte() {
        return answer_cut(alloc, source.stop(), false, false, now);
    }
    let message = match read_message(alloc, source, rules.head_limit()) {
        Ok(message) => message,
        Err((version, fault)) => {
            return answer_fault(alloc, version, fault, source.stop(), now);
        }
    };
    let framing = match framing_of(rules, message.version, message.headers.as_slice()) {
        Ok(framing) => framing,
        Err(fault) => return refused_with(alloc, refusal_of(fault), message.version, false, now),
    };
    let body = match begin_body(alloc, source, framing) {
        Ok(Some(body)) => body,
        Ok(None) => return answer_cut(alloc, source.stop(), false, true, now),
        Err(e) => return Err(e),
    };
    if is_too_new(message.version) {
        let no_body = is_head(&message.method);
        return refuse_too_new(alloc, source, framing.form, &body, no_body, now);
    }
    let head = head_of(message, framing);
    match OpenRequest::new(alloc, &head, body, now) {
        Ok(open_request) => Ok(HeadRead::Request(Exchange::new(head, open_request))),
        Err(e) => Err(e),
    }
}

// Reads the head at the source's position. After any result but a request the source may be within a head or its body.
fn read_item<R: ReadDevice>(
    alloc: Global,
    source: &mut Source<R>,
    profile: Profile,
    now: HttpDate,
) -> Result<HeadRead, AllocError>
    ensures reads { ReadsHead profile InputState.Head now source.old.feed source.new.feed result }
    ensures goes_on { GoesOn source.old.feed source.new.feed }
    ensures at_end { IsAtEnd source.old → IsOkEnd result × (source.new ≡ source.old) }
    ensures begun { (IsOkEnd result → ⊥) → HasByteOrTimedOut profile source.old.feed }
    ensures framed { IfOk result (IsFramedRequest profile now) }
    ensures fits { IfOk result FitsHead }
    ensures lazy { IfOk result (λ read. IsRequest read → source.new.stop ≡ source.old.stop) }
    ensures passed { IfOk result (λ read. IsRefusedUncut read → source.new.stop ≡ source.old.stop) }
    ensures input_state { source.new.input_state ≡ source.old.input_state }
{
    let rules = match profile {
        Profile::Lenient => HeadRules::Lenient,
        Profile::Strict => HeadRules::Strict,
        Profile::Standard => return read_standard(alloc, source, now),
    };
    read_by_rules(alloc, source, rules, now)
}

// Returns why no request follows: the abandoned or broken body that the input state records, or otherwise `why`, the
// reason that reading the input gave.
fn end_at(input_state: InputState, why: EndOfRequests) -> EndOfRequests
    ensures { result ≡ end_at input_state why }
{
    match input_state {
        InputState::Abandoned => EndOfRequests::AbandonedBody,
        InputState::Broken(kind) => EndOfRequests::BrokenBody(kind),
        _ => why,
    }
}

/// Reads one head, and with it a body of `Form::WithHead`, which has up to 1024 bytes (RFC 9112, sections 2 to 6).
/// Returns a request, whose body is then read from the source; a refused head; or the end, with its reason. `now` dates
/// the response to a refused head, and the 500 of a dropped request. Fails if memory can't be allocated.
///
/// Under `Lenient` and `Strict` a head is refused with 400 for a malformed line, 408 if the reader timed out (even
/// before the first byte), 417 for an expectation that can't be met, and 505 for a version above 1.1, with a plain-text
/// body that names the supported ones (as in the Rust crate). `Strict` also refuses a head with 431 if the head hasn't
/// ended within 65,536 bytes (RFC 6585, section 5), and with 400 if its framing is invalid (RFC 9112, section 6.3). If
/// several faults apply, the first in this order decides: the first bad line, the size, the framing, the expectation, a
/// cut body that is read with its head, the version.
///
/// Under `Standard`, `tiny_http_standard_head` reads the head. It is refused with 400, 408, 414, 417, 431, 501 or 505;
/// the response is empty and in version 1.1, and no head follows. A timeout before the first byte of a head gets no
/// response. If several faults apply, the first in this order decides: the first bad line, the size, the version, the
/// host and the framing of the body, its coding, the expectation, a cut body that is read with its head.
///
/// Under `Lenient` and `Strict`, after a 505 the refused head's body is skipped, and the next call reads the next head;
/// but if the refused head names an upgrade or its body is chunked, the source has ended. The source has also ended
/// after any other result, except a request and `LastRequest`. A call that returns `LastRequest` reads nothing, and the
/// body of the last request can still be read.
///
/// Under `Standard` the caller must read no head before a request that asks for an upgrade is answered or dropped, none
/// after such a request was upgraded or its raw writer was taken, and none after a request that was finished while its
/// 100 was owed or more than 65,536 bytes of a body with a `Content-Length` were unread. `Connection` ensures that.
///
/// `read_head`, `read_body` and `give_up` on one source never read bytes of a body as a head. If the previous body was
/// neither read to its end nor discarded, the result is `UnreadBody`, and the source ends.
pub fn read_head_with<R: ReadDevice>(
    alloc: Global,
    source: &mut Source<R>,
    profile: Profile,
    now: HttpDate,
) -> Result<HeadRead, AllocError>
    ensures { TakesHead profile now source.old source.new result }
{
    let input_state = source.input_state();
    match input_state {
        InputState::Last => return Ok(HeadRead::Ended(EndOfRequests::LastRequest)),
        InputState::Body => {
            source.end();
            return Ok(HeadRead::Ended(EndOfRequests::UnreadBody));
        }
        InputState::Head | InputState::Abandoned | InputState::Broken(_) => {}
    }
    let read = read_item(alloc, source, profile, now);
    match &read {
        Ok(HeadRead::Request(exchange)) => source.set_input_state(input_state_of(exchange)),
        Ok(HeadRead::Ended(why)) => {
            source.end();
            return Ok(HeadRead::Ended(end_at(input_state, *why)));
        }
        Ok(HeadRead::Refused { last, .. }) => {
            if *last {
                source.end();
            } else {
                source.set_input_state(InputState::Head);
            }
        }
        Err(_) => source.end(),
    }
    read
}

/// Reads one head under `Lenient`, as `read_head_with` does.
pub fn read_head<R: ReadDevice>(
    alloc: Global,
    source: &mut Source<R>,
    now: HttpDate,
) -> Result<HeadRead, AllocError>
    ensures { TakesHead Profile.Lenient now source.old source.new result }
{
    read_head_with(alloc, source, Profile::Lenient, now)
}
