//! The changes to a request's body and turn when its response or its upgraded stream begins.
ghost use Rattle.tiny_http_request.specs.Body.{KeepsLeft, upgraded_body};

use crate::body::Body;
use std::sync::Wait;
use tiny_http_body::body::Remainder;
use tiny_http_io::device::{ReadDevice, WriteDevice};
use tiny_http_io::outlet::Outlet;
use tiny_http_open_request::open_request::OpenRequest;
use tiny_http_threads::sequential::SequentialWriter;

/// Turns the body into the upgraded stream. If `is_last_with_stream` holds, no further head is read from the
/// connection.
pub(crate) fn read_stream<R: ReadDevice + Drop, Rt: Wait + Drop>(
    open_request: &mut OpenRequest<Body<R, Rt>>,
)
    ensures { KeepsLeft (upgraded_body open_request.old.by_standard open_request.old.body) open_request.new.body }
{
    let left = open_request.body.remainder();
    open_request.body.become_stream(open_request.by_standard);
    if open_request.is_last_with_stream(left) {
        open_request.body.end_requests();
    }
}

/// Waits for the turn of a request whose response begins, and returns what is left of the request's body. If `ends`
/// holds, no further request is handed out. If this is the connection's last response, it says so under `Standard`. No
/// head is read after a request to which `is_last_once_finished` applies.
pub(crate) fn begin_answer<R: ReadDevice + Drop, W: WriteDevice + Drop, Rt: Wait + Drop>(
    open_request: &mut OpenRequest<Body<R, Rt>>,
    writer: &mut SequentialWriter<Outlet<W>, Rt>,
    ends: bool,
) -> Remainder {
    let left = open_request.body.remainder();
    if open_request.is_last_once_finished(left) {
        open_request.body.end_requests();
    }
    let _ = writer.hold();
    if ends {
        writer.close_queue();
    }
    if writer.is_last() {
        open_request.close();
    }
    left
}
