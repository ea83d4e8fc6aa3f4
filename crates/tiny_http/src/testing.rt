//! Calling a handler without a server.
use crate::serving::Handler;
use std::alloc::Global;
use std::io;
use std::io::{Cursor, ErrorKind};
use std::sync::Wait;
use std::time::Clock;
use tiny_http_core::answer::{Answer, AnswerFault, read_answer};
use tiny_http_request::date::current_date;
use tiny_http_request::request::{Request, RequestCreationError};
use tiny_http_request::test::{Recorder, TestRequest};

/// A request that `answer_of` makes.
pub type RecordedRequest<R> = Request<Cursor<Vec<u8>>, Recorder<R>, R>;

/// Calls the handler with this request, and returns the response as a client reads it.
///
/// Fails with the handler's error, if it returns one; the client of a server then gets the response, or an empty 500.
/// Fails with `UnexpectedEof` if the handler kept the request and there is no whole response yet, with `InvalidData` if
/// what it wrote is no response, with `InvalidInput` if the request expects anything but a 100, and with `OutOfMemory`.
/// The request is framed as under `Lenient`.
pub fn answer_of<R: Wait + Clock + Copy, H: Handler<R, RecordedRequest<R>>>(
    rt: R,
    alloc: Global,
    handler: &H,
    request: TestRequest,
) -> io::Result<Answer> {
    let method = request.method().try_clone()?;
    let recorder = Recorder::new(rt, alloc)?;
    let writer = recorder.try_clone()?;
    let request = match request.into_request_over(rt, alloc, current_date(&rt), writer) {
        Ok(request) => request,
        Err(RequestCreationError::ExpectationFailed) => return Err(ErrorKind::InvalidInput.into()),
        Err(RequestCreationError::CreationIoError(fault)) => return Err(fault),
        Err(RequestCreationError::Memory) => return Err(ErrorKind::OutOfMemory.into()),
    };
    handler.handle(&rt, alloc, request)?;
    match read_answer(alloc, &method, recorder.bytes()?.as_slice()) {
        Ok(Some((answer, _))) => Ok(answer),
        Ok(None) => Err(ErrorKind::UnexpectedEof.into()),
        Err(AnswerFault::Malformed) => Err(ErrorKind::InvalidData.into()),
        Err(AnswerFault::Memory) => Err(ErrorKind::OutOfMemory.into()),
    }
}
