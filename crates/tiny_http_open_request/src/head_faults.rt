//! The results of reading a head that has a fault or is cut.
ghost use Rattle.std.specs.Prelude.{◌≡◌, true, false, Some, Ok, IfSome, OnOk};
ghost use Rattle.tiny_http_io.specs.Source.{GoesOn};
ghost use Rattle.tiny_http_open_request.specs.Pipeline.{is_timed_out, ends_too_new, refusal_status, framing_refusal};
ghost use Rattle.tiny_http_body.specs.Body.{PassesOver};
ghost use Rattle.tiny_http_open_request.specs.HeadReads.{RefusesWith, RefusesTooNew, AnswersCut, AnswersFault, cut_end};

use crate::error_response::{error_response, too_new_answer};
use crate::exchange::{EndOfRequests, HeadRead};
use crate::heads::HeadFault;
use httpdate::HttpDate;
use std::alloc::{AllocError, Global};
use std::io::ErrorKind;
use tiny_http_body::body::UnreadBody;
use tiny_http_body::framing::{Form, FramingFault};
use tiny_http_head::common::{HTTPVersion, StatusCode};
use tiny_http_io::device::{ReadDevice, Stop};
use tiny_http_io::source::Source;

// Returns why no request follows if the source stopped in this way before a head, or a body that is read with it, had
// arrived. `has_begun` means that bytes of the head had arrived.
pub(crate) fn cut_end(stop: Option<Stop>, has_begun: bool) -> EndOfRequests
    ensures { IfSome stop (λ stop. result ≡ cut_end stop has_begun) }
{
    match stop {
        Some(Stop::Fault(kind)) => EndOfRequests::Fault(kind),
        _ if has_begun => EndOfRequests::Cut,
        _ => EndOfRequests::Closed,
    }
}

// Returns whether the input stopped with a timeout.
pub(crate) fn is_timed_out(stop: Option<Stop>) -> bool
    ensures { IfSome stop (λ stop. result ≡ is_timed_out stop) }
{
    matches!(stop, Some(Stop::Fault(ErrorKind::TimedOut)))
}

// Refuses a head with this status: prints an empty response, in this version or, under `Standard`, in 1.1. No head
// follows. Fails if memory can't be allocated.
pub(crate) fn refused_with(
    alloc: Global,
    status: StatusCode,
    version: HTTPVersion,
    by_standard: bool,
    now: HttpDate,
) -> Result<HeadRead, AllocError>
    ensures { RefusesWith status.0 (record { version = version; by_standard = by_standard }) now result }
{
    let text = error_response(alloc, status, version, by_standard, now)?;
    Ok(HeadRead::Refused {
        status,
        text,
        last: true,
    })
}

// Returns the status that refuses a head with this framing fault.
pub(crate) fn refusal_of(fault: FramingFault) -> StatusCode
    ensures { result.0 ≡ refusal_status (framing_refusal fault) }
{
    match fault {
        FramingFault::Invalid => StatusCode(400),
        FramingFault::Expectation => StatusCode(417),
    }
}

// Returns whether no head follows one that is refused for a version above 1.1: whether that head names an upgrade, or
// its body is chunked.
fn ends_too_new(form: Form) -> bool
    ensures { result ≡ ends_too_new form }
{
    matches!(form, Form::Rest | Form::Chunked)
}

// Skips the rest of a `Counted` body, and does nothing for a body of any other variant. Doesn't call the reader, unless
// the bytes to skip add up to 2^64 or more.
fn skip<R: ReadDevice>(source: &mut Source<R>, body: &UnreadBody)
    ensures passes { PassesOver body.now source.old source.new }
    ensures goes_on { GoesOn source.old.feed source.new.feed }
    ensures input_state { source.new.input_state ≡ source.old.input_state }
{
    match body {
        UnreadBody::Counted { left, .. } => source.skip(*left),
        UnreadBody::Over(_) => {}
        UnreadBody::WithHead(_) => {}
        UnreadBody::Chunked(_) => {}
        UnreadBody::Rest => {}
    }
}

// Refuses a head for its version, under `Lenient` or `Strict`. If another head follows, skips the refused head's body.
// Fails if memory can't be allocated.
pub(crate) fn refuse_too_new<R: ReadDevice>(
    alloc: Global,
    source: &mut Source<R>,
    form: Form,
    body: &UnreadBody,
    no_body: bool,
    now: HttpDate,
) -> Result<HeadRead, AllocError>
    ensures refuses { RefusesTooNew (ends_too_new form) no_body now result }
    ensures passes { OnOk result (ends_too_new form ≡ false → PassesOver body.now source.old source.new) }
    ensures stays { ends_too_new form ≡ true → source.new ≡ source.old }
    ensures goes_on { GoesOn source.old.feed source.new.feed }
    ensures input_state { source.new.input_state ≡ source.old.input_state }
{
    let text = too_new_answer(alloc, no_body, now)?;
    let status = StatusCode(505);
    let last = ends_too_new(form);
    if last {
        return Ok(HeadRead::Refused { status, text, last });
    }
    skip(source, body);
    Ok(HeadRead::Refused { status, text, last })
}

// Returns the result for a source that stopped in this way before a head, or a body that is read with it, had arrived:
// a refusal with 408 for a timeout, or otherwise why no request follows. `has_begun` means that bytes of the head had
// arrived. Fails if memory can't be allocated.
pub(crate) fn answer_cut(
    alloc: Global,
    stop: Option<Stop>,
    by_standard: bool,
    has_begun: bool,
    now: HttpDate,
) -> Result<HeadRead, AllocError>
    ensures { IfSome stop (λ stop. AnswersCut stop by_standard has_begun now result) }
{
    if is_timed_out(stop) {
        return refused_with(alloc, StatusCode(408), HTTPVersion(1, 1), by_standard, now);
    }
    Ok(HeadRead::Ended(cut_end(stop, has_begun)))
}

// Returns the result for a faulty head: a refusal, or why no request follows. `stop` is how the source stopped if the
// head is cut. Fails if memory can't be allocated.
pub(crate) fn answer_fault(
    alloc: Global,
    version: Option<HTTPVersion>,
    fault: HeadFault,
    stop: Option<Stop>,
    now: HttpDate,
) -> Result<HeadRead, AllocError>
    ensures { AnswersFault version fault stop now result }
{
    match fault {
        HeadFault::Malformed => {
            let version = version.unwrap_or(HTTPVersion(1, 1));
            refused_with(alloc, StatusCode(400), version, false, now)
        }
        HeadFault::TooLarge => {
            let version = version.unwrap_or(HTTPVersion(1, 1));
            refused_with(alloc, StatusCode(431), version, false, now)
        }
        HeadFault::Memory => Err(AllocError),
        HeadFault::Cut => answer_cut(alloc, stop, false, true, now),
        HeadFault::NotAscii => Ok(HeadRead::Ended(EndOfRequests::NotAscii)),
    }
}
