//! Heads under `Standard`: what `tiny_http_standard_head` reads from a source is handed out or refused.
ghost use Rattle.std.specs.Prelude.{◌≡◌, IfOk, IfSome};
ghost use Rattle.tiny_http_io.specs.Source.{GoesOn, IsAtEnd};
ghost use Rattle.tiny_http_head.specs.Heads.{version};
ghost use Rattle.tiny_http_standard_head.specs.Heads.{status_of};
ghost use Rattle.tiny_http_open_request.specs.Pipeline.{by_the_standard, served_version, standard_form};
ghost use Rattle.tiny_http_open_request.specs.Pipeline.{standard_framing, standard_heads};
ghost use Rattle.tiny_http_io.specs.ToCome.{HasByte};
ghost use Rattle.tiny_http_open_request.specs.HeadReads.{FitsHead, ReadsHead, RefusesWith, IsRequest, IsFramedRequest};
ghost use Rattle.tiny_http_open_request.specs.HeadReads.{IsRefusedUncut, IsOkEnd, head_framing};
ghost use Rattle.tiny_http_open_request.specs.StandardReads.{AnswersStandardCut, IsHeadOf};

use crate::body_start::begin_body;
use crate::exchange::{Exchange, Head, HeadRead};
use crate::head_faults::{answer_cut, cut_end, refused_with};
use crate::open_request::OpenRequest;
use httpdate::HttpDate;
use std::alloc::{AllocError, Global};
use tiny_http_body::framing::{Form, Framing, Profile, STANDARD_HEAD, sized_form};
use tiny_http_head::common::{HTTPVersion, StatusCode};
use tiny_http_io::device::{ReadDevice, Stop};
use tiny_http_io::source::{InputState, Source};
use tiny_http_standard_head::heads::{StandardFault, StandardHead, StandardRead};
use tiny_http_standard_head::source_heads::read_head_from;
use tiny_http_standard_head::validation::HeadSummary;

// Returns the version in which a request is served: any other than 1.0 counts as 1.1.
fn served_version(version: HTTPVersion) -> HTTPVersion
    ensures { result ≡ served_version version }
{
    if version.0 == 1 && version.1 == 0 {
        return HTTPVersion(1, 0);
    }
    HTTPVersion(1, 1)
}

// Returns how the body is read; `owed` means that a 100 is owed. A request for an upgrade is framed like any other.
fn form_of(is_chunked: bool, owed: bool, length: Option<usize>) -> Form
    ensures { result ≡ standard_form is_chunked owed length }
{
    if is_chunked {
        return Form::Chunked;
    }
    sized_form(owed, length)
}

// Returns how a head frames its message.
fn framing_of(summary: HeadSummary) -> Framing
    ensures { result ≡ standard_framing summary }
{
    Framing {
        form: form_of(
            summary.is_chunked,
            summary.owes_continue,
            summary.body_length,
        ),
        owes_continue: summary.owes_continue,
        body_length: summary.body_length,
        asks_upgrade: summary.asks_upgrade,
        by_standard: true,
        is_last: summary.is_last,
    }
}

// Makes the head that is handed out from the one that was read, in the version in which the request is served.
fn head_of(head: StandardHead, framing: Framing) -> Head
    ensures message { IsHeadOf head result }
    ensures framing { head_framing result ≡ framing }
{
    Head {
        method: head.method,
        path: head.target,
        version: served_version(head.version),
        headers: head.headers,
        framing,
    }
}

// Returns the result for a head that is cut: a refusal with 408 for a timeout after its first byte, or otherwise why no
// request follows. Fails if memory can't be allocated.
fn answer_standard_cut(
    alloc: Global,
    stop: Option<Stop>,
    has_begun: bool,
    now: HttpDate,
) -> Result<HeadRead, AllocError>
    ensures { IfSome stop (λ stop. AnswersStandardCut stop has_begun now result) }
{
    if has_begun {
        return answer_cut(alloc, stop, true, true, now);
    }
    Ok(HeadRead::Ended(cut_end(stop, false)))
}

// Refuses a head with the status of its fault, in version 1.1: the response is empty, and no head follows.
fn refuse(alloc: Global, fault: StandardFault, now: HttpDate) -> Result<HeadRead, AllocError>
    ensures { RefusesWith (status_of fault) by_the_standard now result }
{
    let status = StatusCode(fault.status());
    refused_with(alloc, status, HTTPVersion(1, 1), true, now)
}

/// Reads the head at the source's position, under `Standard`. After any result but a request the source may be within a
/// head or its body.
pub(crate) fn read_standard<R: ReadDevice>(
    alloc: Global,
    source: &mut Source<R>,
    now: HttpDate,
) -> Result<HeadRead, AllocError>
    ensures reads { ReadsHead Profile.Standard InputState.Head now source.old.feed source.new.feed result }
    ensures goes_on { GoesOn source.old.feed source.new.feed }
    ensures at_end { IsAtEnd source.old → IsOkEnd result × (source.new ≡ source.old) }
    ensures begun { (IsOkEnd result → ⊥) → HasByte source.old.feed }
    ensures framed { IfOk result (IsFramedRequest Profile.Standard now) }
    ensures fits { IfOk result FitsHead }
    ensures lazy { IfOk result (λ read. IsRequest read → source.new.stop ≡ source.old.stop) }
    ensures passed { IfOk result (λ read. IsRefusedUncut read → source.new.stop ≡ source.old.stop) }
    ensures input_state { source.new.input_state ≡ source.old.input_state }
{
    if !source.has_byte() {
        return answer_standard_cut(alloc, source.stop(), false, now);
    }
    let head = match read_head_from(alloc, source, STANDARD_HEAD) {
        Ok(StandardRead::Whole(head)) => head,
        Ok(StandardRead::Refused(fault)) => return refuse(alloc, fault, now),
        Ok(StandardRead::Unfinished { has_begun }) => {
            return answer_standard_cut(alloc, source.stop(), has_begun, now);
        }
        Err(e) => return Err(e),
    };
    let framing = framing_of(head.summary);
    let body = match begin_body(alloc, source, framing) {
        Ok(Some(body)) => body,
        Ok(None) => return answer_cut(alloc, source.stop(), true, true, now),
        Err(e) => return Err(e),
    };
    let head = head_of(head, framing);
    match OpenRequest::new(alloc, &head, body, now) {
        Ok(open_request) => Ok(HeadRead::Request(Exchange::new(head, open_request))),
        Err(e) => Err(e),
    }
}
