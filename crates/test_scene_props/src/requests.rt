//! Runs steps on the requests of a scene and on their outputs.
use crate::asked::{Asked, Output};
use crate::named::{add, get, take};
use httpdate::HttpDate;
use std::alloc::Global;
use std::io;
use std::io::{Cursor, ErrorKind, Read, Write};
use std::net::SocketAddr;
use std::sync::Wait;
use std::time::Clock;
use test_data_files::text::text_of;
use test_scene_files::deed::{Data, Kept, OutputDeed, RequestDeed, Whole};
use test_scene_files::mishap::{
    Mishap, demand, demand_bytes, demand_fault, demand_number, demand_text, differs,
};
use tiny_http_open_request::upgrading::UpgradeError;
use tiny_http_request::request::{BodyError, RefusedUpgrade, Request};
use tiny_http_wire::common::{Header, Method, StatusCode};
use tiny_http_wire::device::{Metered, ReadDevice, WriteDevice};
use tiny_http_wire::response::Response;

// Maximum number of reads of a body.
const READS: u32 = 100_000;

/// Returns the current date, as a server would send it, or the date of Unix second 0 if the clock can't be read or its
/// time is out of range.
pub fn date_now<R: Clock>(rt: &R) -> HttpDate {
    let seconds = rt.since_1970().map_or(0, |time| time.as_secs());
    match HttpDate::from_unix_secs(seconds) {
        Ok(date) => date,
        Err(_) => epoch(),
    }
}

// Returns the date of Unix second 0.
fn epoch() -> HttpDate {
    match HttpDate::from_unix_secs(0) {
        Ok(date) => date,
        Err(_) => unreachable!(),
    }
}

/// Builds a response with this text.
pub fn text_answer(alloc: Global, text: &str) -> io::Result<Response<Cursor<Vec<u8>>>> {
    Ok(Response::from_string(alloc, String::from_str(alloc, text)?)?)
}

// Returns the kind of a call's error, if it failed.
fn kind_of_fault<T: Drop>(outcome: io::Result<T>) -> Option<ErrorKind> {
    outcome.err().map(|fault| fault.kind())
}

// Responds with this status and text. Returns the result of `respond`.
fn respond_text<D: ReadDevice + Drop, W: WriteDevice + Drop, R: Wait + Clock + Drop>(
    rt: &R,
    alloc: Global,
    request: Request<D, W, R>,
    (status, text): (u16, &str),
) -> Result<io::Result<()>, Mishap> {
    let bytes = text_of(alloc, text)?;
    let Ok(text) = String::from_utf8(bytes) else {
        return Err(Mishap::Unplayable("the text isn't UTF-8"));
    };
    let response = Response::from_string(alloc, text)?.with_status_code(StatusCode(status));
    Ok(request.respond(response, date_now(rt)))
}

// Responds with this status and JSON text. Returns the result of `respond`.
fn respond_json<D: ReadDevice + Drop, W: WriteDevice + Drop, R: Wait + Clock + Drop>(
    rt: &R,
    alloc: Global,
    request: Request<D, W, R>,
    (status, text): (u16, &str),
) -> Result<io::Result<()>, Mishap> {
    let Ok(header) = Header::from_str(alloc, "Content-Type: application/json") else {
        return Err(Mishap::OutOfMemory);
    };
    let Ok(response) = text_answer(alloc, text) else {
        return Err(Mishap::OutOfMemory);
    };
    let Ok(response) = response
        .with_status_code(StatusCode(status))
        .with_header(header)
    else {
        return Err(Mishap::OutOfMemory);
    };
    Ok(request.respond(response, date_now(rt)))
}

// Responds with this status and without a body. If `is_last`, the connection closes after the response.
fn respond_empty<D: ReadDevice + Drop, W: WriteDevice + Drop, R: Wait + Clock + Drop>(
    rt: &R,
    alloc: Global,
    request: Request<D, W, R>,
    (status, is_last): (u16, bool),
) -> io::Result<()> {
    let response = Response::empty(alloc, StatusCode(status));
    if is_last {
        return request.respond(response.with_close(), date_now(rt));
    }
    request.respond(response, date_now(rt))
}

// Responds with this status and `count` bytes. If `is_sized`, the response is built with their length, and is sent
// in chunks only if the request's `TE` asks for chunks. Otherwise, it is built without a length.
fn respond_bytes<D: ReadDevice + Drop, W: WriteDevice + Drop, R: Wait + Clock + Drop>(
    rt: &R,
    alloc: Global,
    request: Request<D, W, R>,
    (status, count, is_sized): (u16, usize, bool),
) -> io::Result<()> {
    let data = Metered::new(io::repeat(b'x').take(count as u64));
    let length = if is_sized { Some(count) } else { None };
    let response = Response::empty(alloc, StatusCode(status)).with_data(data, length);
    let response = if is_sized {
        response.with_chunked_threshold(usize::MAX)
    } else {
        response
    };
    request.respond(response, date_now(rt))
}

// Responds with this status and body. Returns the result of `respond`.
fn respond<D: ReadDevice + Drop, W: WriteDevice + Drop, R: Wait + Clock + Drop>(
    rt: &R,
    alloc: Global,
    request: Request<D, W, R>,
    (status, data): (u16, Data<'_>),
) -> Result<io::Result<()>, Mishap> {
    match data {
        Data::Text(text) => respond_text(rt, alloc, request, (status, text)),
        Data::Json(text) => respond_json(rt, alloc, request, (status, text)),
        Data::Empty => Ok(respond_empty(rt, alloc, request, (status, false))),
        Data::Closing => Ok(respond_empty(rt, alloc, request, (status, true))),
        Data::Bytes(count) => Ok(respond_bytes(rt, alloc, request, (status, count, true))),
        Data::Unsized(count) => Ok(respond_bytes(rt, alloc, request, (status, count, false))),
        Data::Short(stated, text) => {
            let answer = short_answer(alloc, status, (stated, text_of(alloc, text)?));
            Ok(request.respond(answer, date_now(rt)))
        }
    }
}

/// Builds a response with `data` as its body. It states the content length `stated`, whatever the length of `data`.
pub fn short_answer(
    alloc: Global,
    status: u16,
    (stated, data): (usize, Vec<u8>),
) -> Response<Cursor<Vec<u8>>> {
    Response::empty(alloc, StatusCode(status)).with_data(Cursor::new(data), Some(stated))
}

// Reads the rest of a request's body, and expects `wanted`.
fn demand_body<D: ReadDevice + Drop, W: WriteDevice + Drop, R: Wait + Clock + Drop>(
    rt: &R,
    alloc: Global,
    request: &mut Request<D, W, R>,
    wanted: &[u8],
) -> Result<(), Mishap> {
    let mut body = Vec::new(alloc);
    let read = request.as_reader(date_now(rt)).read_to_end(&mut body);
    demand_fault(alloc, None, kind_of_fault(read))?;
    demand_bytes(alloc, wanted, body.as_slice())
}

// Reads a request's body until it ends or a read fails, at most `READS` times. Returns the kind of the error, if a read
// failed.
fn fault_of_body<D: ReadDevice + Drop, W: WriteDevice + Drop, R: Wait + Clock + Drop>(
    rt: &R,
    request: &mut Request<D, W, R>,
) -> Option<ErrorKind> {
    let mut piece = [0u8; 8];
    let body = request.as_reader(date_now(rt));
    for _ in 0..READS {
        match body.read(&mut piece) {
            Ok(0) => return None,
            Ok(_) => {}
            Err(fault) => return Some(fault.kind()),
        }
    }
    None
}

// Reads the next bytes of a request's body, and expects `wanted`.
fn demand_next<D: ReadDevice + Drop, W: WriteDevice + Drop, R: Wait + Clock + Drop>(
    rt: &R,
    alloc: Global,
    request: &mut Request<D, W, R>,
    wanted: &[u8],
) -> Result<(), Mishap> {
    let mut came = vec![in alloc; 0u8; wanted.len()]?;
    let read = request.as_reader(date_now(rt)).read_exact(&mut came);
    demand_fault(alloc, None, kind_of_fault(read))?;
    demand_bytes(alloc, wanted, came.as_slice())
}

// Expects that a read of exactly `count` bytes of a request's body fails with `kind`.
fn demand_unread<D: ReadDevice + Drop, W: WriteDevice + Drop, R: Wait + Clock + Drop>(
    rt: &R,
    alloc: Global,
    request: &mut Request<D, W, R>,
    (count, kind): (usize, ErrorKind),
) -> Result<(), Mishap> {
    let mut came = vec![in alloc; 0u8; count]?;
    let read = request.as_reader(date_now(rt)).read_exact(&mut came);
    demand_fault(alloc, Some(kind), kind_of_fault(read))
}

// Describes the result of reading a whole body.
fn words_of(whole: &Result<Vec<u8>, BodyError>) -> &'static str {
    match whole {
        Ok(_) => "a whole body",
        Err(BodyError::TooLong) => "TooLong",
        Err(BodyError::Cut) => "Cut",
        Err(BodyError::Broken) => "Broken",
        Err(BodyError::Io(_)) => "a fault of the reader",
        Err(BodyError::Memory) => "out of memory",
    }
}

// Calls `read_body` with the limit `most`, and compares the result with the expected one.
fn demand_whole<D: ReadDevice + Drop, W: WriteDevice + Drop, R: Wait + Clock + Drop>(
    rt: &R,
    alloc: Global,
    request: &mut Request<D, W, R>,
    (most, wanted): (usize, Whole<'_>),
) -> Result<(), Mishap> {
    let came = request.read_body(alloc, most, date_now(rt));
    let words = words_of(&came);
    match (wanted, came) {
        (Whole::Text(text), Ok(came)) => {
            demand_bytes(alloc, text_of(alloc, text)?.as_slice(), came.as_slice())
        }
        (Whole::Fault(kind), Err(BodyError::Io(fault))) => {
            demand_fault(alloc, Some(kind), Some(fault.kind()))
        }
        (Whole::TooLong, _) => demand_text(alloc, "TooLong", words),
        (Whole::Cut, _) => demand_text(alloc, "Cut", words),
        (Whole::Broken, _) => demand_text(alloc, "Broken", words),
        (Whole::Text(_), _) => Err(differs(alloc, "a whole body", words)),
        (Whole::Fault(_), _) => Err(differs(alloc, "a fault of the reader", words)),
    }
}

// Fails unless the texts are equal or both are absent.
fn demand_option(alloc: Global, wanted: Option<&str>, came: Option<&str>) -> Result<(), Mishap> {
    match (wanted, came) {
        (None, None) => Ok(()),
        (Some(wanted), Some(came)) => demand_text(alloc, wanted, came),
        (wanted, came) => Err(differs(alloc, wanted.unwrap_or("none"), came.unwrap_or("none"))),
    }
}

// Fails unless `came` equals `wanted`. The error states `words` as the expectation if `wanted` is true, and
// `words_if_not` otherwise.
fn demand_property(
    alloc: Global,
    (words, words_if_not): (&str, &str),
    (wanted, came): (bool, bool),
) -> Result<(), Mishap> {
    let words = if wanted { words } else { words_if_not };
    demand(alloc, words, came == wanted)
}

// Checks one property of a request: the value of a header field, whether its header fields of a given name list a
// token, its path, its query, whether it asks for an upgrade, whether a response to it would be lost, or whether it
// came over TLS. Hands any other step to `look_whole`.
fn look<D: ReadDevice + Drop, W: WriteDevice + Drop, R: Wait + Clock + Drop>(
    alloc: Global,
    request: &Request<D, W, R>,
    deed: RequestDeed<'_>,
) -> Result<(), Mishap> {
    match deed {
        RequestDeed::Header(name, wanted) => demand_option(alloc, wanted, request.header(name)),
        RequestDeed::Lists(name, token, wanted) => {
            let words = ("it is listed", "it isn't listed");
            demand_property(alloc, words, (wanted, request.header_lists(name, token)))
        }
        RequestDeed::Path(wanted) => demand_text(alloc, wanted, request.path()),
        RequestDeed::Query(wanted) => demand_option(alloc, wanted, request.query()),
        RequestDeed::AsksUpgrade(wanted) => {
            let words = ("it asks for an upgrade", "it asks for none");
            demand_property(alloc, words, (wanted, request.is_upgrade()))
        }
        RequestDeed::IsLost(wanted) => {
            let words = ("its answer would be lost", "its answer would be sent");
            demand_property(alloc, words, (wanted, request.is_lost()))
        }
        RequestDeed::IsSecure(wanted) => {
            let words = ("it came with TLS", "it came without TLS");
            demand_property(alloc, words, (wanted, request.secure()))
        }
        _ => look_whole(alloc, request, deed),
    }
}

// Checks a request's version, body length, number of header fields or debug output. Fails at any other step.
fn look_whole<D: ReadDevice + Drop, W: WriteDevice + Drop, R: Wait + Clock + Drop>(
    alloc: Global,
    request: &Request<D, W, R>,
    deed: RequestDeed<'_>,
) -> Result<(), Mishap> {
    match deed {
        RequestDeed::Version(wanted) => {
            let version = format!(in alloc; "{}", request.http_version())?;
            demand_text(alloc, wanted, version.as_str())
        }
        RequestDeed::Length(wanted) => {
            let length = request.body_length().map(|length| length as u64);
            demand(alloc, "its body has this length", length == wanted)
        }
        RequestDeed::Headers(count) => {
            demand_number(alloc, count, request.headers().len() as u64)
        }
        RequestDeed::Shown(wanted) => {
            let shown = format!(in alloc; "{request:?}")?;
            demand_text(alloc, wanted, shown.as_str())
        }
        _ => Err(Mishap::Unplayable("a request can't do that")),
    }
}

// Borrows a request's head and body together. Expects `path` as the target's path, and `wanted` as the rest of the
// body.
fn demand_parts<D: ReadDevice + Drop, W: WriteDevice + Drop, R: Wait + Clock + Drop>(
    rt: &R,
    alloc: Global,
    request: &mut Request<D, W, R>,
    (path, wanted): (&str, &[u8]),
) -> Result<(), Mishap> {
    let (head, body) = request.parts(date_now(rt));
    let mut came = Vec::new(alloc);
    let read = body.read_to_end(&mut came);
    demand_fault(alloc, None, kind_of_fault(read))?;
    demand_text(alloc, path, head.target_path())?;
    demand_bytes(alloc, wanted, came.as_slice())
}

/// Expects that the request is a `GET`, came without TLS, and has the client address `addr`.
pub fn demand_plain<D: ReadDevice + Drop, W: WriteDevice + Drop, R: Wait + Clock + Drop>(
    alloc: Global,
    request: &Request<D, W, R>,
    addr: Option<SocketAddr>,
) -> Result<(), Mishap> {
    demand(alloc, "it is a GET", request.method() == &Method::Get)?;
    demand(alloc, "it comes without TLS", !request.secure())?;
    let is_from = request.remote_addr().copied() == addr;
    demand(alloc, "it is of this client's address", is_from)
}

/// Runs a step on the request called `name`.
pub fn act_asked<D: ReadDevice + Drop, W: WriteDevice + Drop, R: Wait + Clock + Drop>(
    rt: &R,
    alloc: Global,
    asked: &mut Asked<D, W, R>,
    name: &str,
    deed: RequestDeed<'_>,
) -> Result<(), Mishap> {
    match deed {
        RequestDeed::Respond(status, data, wanted) => {
            let request = take(&mut asked.requests, name)?;
            let sent = respond(rt, alloc, request, (status, data))?;
            demand_fault(alloc, wanted, kind_of_fault(sent))
        }
        RequestDeed::Drop => {
            drop(take(&mut asked.requests, name)?);
            Ok(())
        }
        RequestDeed::IntoWriter(output) => into_writer(alloc, asked, name, output),
        RequestDeed::Streams(status, output, is_last) => {
            respond_streaming(rt, alloc, asked, name, (status, output, is_last))
        }
        RequestDeed::StreamsNot(status, kind) => {
            let (request, head) = begin_answer(alloc, asked, name, status)?;
            let begun = request.respond_streaming(head, date_now(rt));
            demand_fault(alloc, Some(kind), kind_of_fault(begun))
        }
        RequestDeed::Upgrades(protocol, output) => {
            upgrade(rt, alloc, asked, name, (protocol, output, false))
        }
        RequestDeed::TriesUpgrade(protocol, output) => {
            upgrade(rt, alloc, asked, name, (protocol, output, true))
        }
        RequestDeed::KeepsUpgrade(protocol, why) => {
            keep_upgrade(rt, alloc, asked, name, (protocol, why))
        }
        _ => read_request(rt, alloc, get(&mut asked.requests, name)?, deed),
    }
}

// Runs a step that keeps the request: reads its body, calls `as_reader`, or checks one of its properties.
fn read_request<D: ReadDevice + Drop, W: WriteDevice + Drop, R: Wait + Clock + Drop>(
    rt: &R,
    alloc: Global,
    request: &mut Request<D, W, R>,
    deed: RequestDeed<'_>,
) -> Result<(), Mishap> {
    match deed {
        RequestDeed::Body(text) => {
            demand_body(rt, alloc, request, text_of(alloc, text)?.as_slice())
        }
        RequestDeed::Reads(text) => {
            demand_next(rt, alloc, request, text_of(alloc, text)?.as_slice())
        }
        RequestDeed::ReadFails(kind) => {
            demand_fault(alloc, Some(kind), fault_of_body(rt, request))
        }
        RequestDeed::ReadExactly(count, kind) => demand_unread(rt, alloc, request, (count, kind)),
        RequestDeed::ReadBody(most, wanted) => demand_whole(rt, alloc, request, (most, wanted)),
        RequestDeed::Lends(path, text) => {
            demand_parts(rt, alloc, request, (path, text_of(alloc, text)?.as_slice()))
        }
        RequestDeed::AsReader => {
            let _ = request.as_reader(date_now(rt));
            Ok(())
        }
        _ => look(alloc, request, deed),
    }
}

// Takes the request called `name`. Returns it, and an empty response with this status.
fn begin_answer<D: ReadDevice + Drop, W: WriteDevice + Drop, R: Wait + Drop>(
    alloc: Global,
    asked: &mut Asked<D, W, R>,
    name: &str,
    status: u16,
) -> Result<(Request<D, W, R>, Response<io::Empty>), Mishap> {
    let request = take(&mut asked.requests, name)?;
    Ok((request, Response::empty(alloc, StatusCode(status))))
}

// Expects that `try_upgrade` refuses an upgrade for the reason `why`. If it refuses, for whatever reason, puts the
// request back.
fn keep_upgrade<D: ReadDevice + Drop, W: WriteDevice + Drop, R: Wait + Clock + Drop>(
    rt: &R,
    alloc: Global,
    asked: &mut Asked<D, W, R>,
    name: &str,
    (protocol, why): (&str, Kept),
) -> Result<(), Mishap> {
    let (request, head) = begin_answer(alloc, asked, name, 101)?;
    match request.try_upgrade(protocol, head, date_now(rt)) {
        Ok(_) => Err(differs(alloc, "no upgrade", "an upgrade")),
        Err(RefusedUpgrade { request, error }) => {
            let wanted = match why {
                Kept::NotAsked => UpgradeError::NotAsked,
                Kept::UnfinishedBody => UpgradeError::UnfinishedBody,
                Kept::TooMany => UpgradeError::TooMany,
            };
            let holds = error == wanted;
            add(alloc, &mut asked.requests, name, request)?;
            demand(alloc, "it is refused so", holds)
        }
    }
}

// Turns a request into its raw writer, and stores the writer under the name `output`.
fn into_writer<D: ReadDevice + Drop, W: WriteDevice + Drop, R: Wait + Clock + Drop>(
    alloc: Global,
    asked: &mut Asked<D, W, R>,
    name: &str,
    output: &str,
) -> Result<(), Mishap> {
    let writer = take(&mut asked.requests, name)?.into_writer();
    add(alloc, &mut asked.outputs, output, Output::Raw(writer))
}

// Begins a streaming response, and stores its body under the name `output`. If `is_last`, the connection closes after
// the response.
fn respond_streaming<D: ReadDevice + Drop, W: WriteDevice + Drop, R: Wait + Clock + Drop>(
    rt: &R,
    alloc: Global,
    asked: &mut Asked<D, W, R>,
    name: &str,
    (status, output, is_last): (u16, &str, bool),
) -> Result<(), Mishap> {
    let (request, head) = begin_answer(alloc, asked, name, status)?;
    let head = if is_last { head.with_close() } else { head };
    match request.respond_streaming(head, date_now(rt)) {
        Ok(body) => add(alloc, &mut asked.outputs, output, Output::Growing(body)),
        Err(fault) => demand_fault(alloc, None, Some(fault.kind())),
    }
}

// Upgrades a request, with `try_upgrade` if `is_tried` and with `upgrade` otherwise, and stores the stream under the
// name `output`.
fn upgrade<D: ReadDevice + Drop, W: WriteDevice + Drop, R: Wait + Clock + Drop>(
    rt: &R,
    alloc: Global,
    asked: &mut Asked<D, W, R>,
    name: &str,
    (protocol, output, is_tried): (&str, &str, bool),
) -> Result<(), Mishap> {
    let (request, head) = begin_answer(alloc, asked, name, 101)?;
    let now = date_now(rt);
    let stream = if is_tried {
        request.try_upgrade(protocol, head, now).ok()
    } else {
        request.upgrade(protocol, head, now).ok()
    };
    match stream {
        Some(stream) => add(alloc, &mut asked.outputs, output, Output::Upgraded(stream)),
        None => Err(differs(alloc, "an upgrade", "it is refused")),
    }
}

fn write_to<D: ReadDevice + Drop, W: WriteDevice + Drop, R: Wait + Clock + Drop>(
    output: &mut Output<D, W, R>,
    bytes: &[u8],
) -> io::Result<()> {
    match output {
        Output::Raw(writer) => writer.write_all(bytes),
        Output::Growing(body) => body.write_all(bytes),
        Output::Upgraded(stream) => stream.write_all(bytes),
    }
}

fn flush<D: ReadDevice + Drop, W: WriteDevice + Drop, R: Wait + Clock + Drop>(
    output: &mut Output<D, W, R>,
) -> io::Result<()> {
    match output {
        Output::Raw(writer) => writer.flush(),
        Output::Growing(body) => body.flush(),
        Output::Upgraded(stream) => stream.flush(),
    }
}

// Closes a raw writer, finishes a streaming response, or drops an upgraded stream.
fn close<D: ReadDevice + Drop, W: WriteDevice + Drop, R: Wait + Clock + Drop>(
    output: Output<D, W, R>,
) -> io::Result<()> {
    match output {
        Output::Raw(writer) => writer.close(),
        Output::Growing(body) => body.finish(),
        Output::Upgraded(_) => Ok(()),
    }
}

// Reads the next bytes of an upgraded stream, and expects `wanted`.
fn demand_read<D: ReadDevice + Drop, W: WriteDevice + Drop, R: Wait + Clock + Drop>(
    alloc: Global,
    output: &mut Output<D, W, R>,
    wanted: &[u8],
) -> Result<(), Mishap> {
    let Output::Upgraded(stream) = output else {
        return Err(Mishap::Unplayable("only an upgraded stream is read"));
    };
    let mut came = vec![in alloc; 0u8; wanted.len()]?;
    let read = stream.read_exact(&mut came);
    demand_fault(alloc, None, kind_of_fault(read))?;
    demand_bytes(alloc, wanted, came.as_slice())
}

// Expects that a read of an upgraded stream fails with the kind `wanted`.
fn demand_stopped<D: ReadDevice + Drop, W: WriteDevice + Drop, R: Wait + Clock + Drop>(
    alloc: Global,
    output: &mut Output<D, W, R>,
    wanted: ErrorKind,
) -> Result<(), Mishap> {
    let Output::Upgraded(stream) = output else {
        return Err(Mishap::Unplayable("only an upgraded stream is read"));
    };
    let mut came = [0u8; 1];
    let read = stream.read(&mut came);
    demand_fault(alloc, Some(wanted), kind_of_fault(read))
}

/// Runs a step on the output called `name`.
pub fn write_asked<D: ReadDevice + Drop, W: WriteDevice + Drop, R: Wait + Clock + Drop>(
    alloc: Global,
    asked: &mut Asked<D, W, R>,
    name: &str,
    deed: OutputDeed<'_>,
) -> Result<(), Mishap> {
    match deed {
        OutputDeed::Write(text, wanted) => {
            let bytes = text_of(alloc, text)?;
            let written = write_to(get(&mut asked.outputs, name)?, bytes.as_slice());
            demand_fault(alloc, wanted, kind_of_fault(written))
        }
        OutputDeed::Flush(wanted) => {
            let flushed = flush(get(&mut asked.outputs, name)?);
            demand_fault(alloc, wanted, kind_of_fault(flushed))
        }
        OutputDeed::Close(wanted) => {
            let closed = close(take(&mut asked.outputs, name)?);
            demand_fault(alloc, wanted, kind_of_fault(closed))
        }
        OutputDeed::Read(text) => {
            let wanted = text_of(alloc, text)?;
            demand_read(alloc, get(&mut asked.outputs, name)?, wanted.as_slice())
        }
        OutputDeed::ReadFails(wanted) => {
            demand_stopped(alloc, get(&mut asked.outputs, name)?, wanted)
        }
        OutputDeed::Form(wanted) => {
            let Output::Growing(body) = get(&mut asked.outputs, name)? else {
                return Err(Mishap::Unplayable("only an answer that grows has a form"));
            };
            let came = format!(in alloc; "{:?}", body.form())?;
            demand_text(alloc, wanted, came.as_str())
        }
        OutputDeed::Discard => {
            drop(take(&mut asked.outputs, name)?);
            Ok(())
        }
    }
}
