//! Responses with a file, and those that say why there is none.
use crate::disk::{Disk, Entry, FilePart, Kind};
use crate::folder::unless_absent;
use crate::multipart::{Multipart, MultipartBuilder};
use httpdate::HttpDate;
use std::alloc::Global;
use std::fs::File;
use std::io;
use std::io::{Cursor, Empty};
use std::time::{Clock, UNIX_EPOCH};
use tiny_http_files::conditions::{Answer, Conditions, Representation};
use tiny_http_files::ranges::{ByteRange, content_range, unsatisfied_range};
use tiny_http_files::tags::{EntityTag, file_tag};
use tiny_http_files::types::type_of;
use tiny_http_request::any_request::AnyRequest;
use tiny_http_request::date::current_date;
use tiny_http_wire::common::{Method, StatusCode};
use tiny_http_wire::number::Numeral;
use tiny_http_wire::response::Response;

// Returns the date of second 0 of 1970.
fn epoch() -> HttpDate {
    match HttpDate::from_unix_secs(0) {
        Ok(date) => date,
        Err(_) => unreachable!(),
    }
}

// Returns the date of this second since 1970, or that of second 0 if it is after the year 9999.
fn date_of(seconds: u64) -> HttpDate {
    match HttpDate::from_unix_secs(seconds) {
        Ok(date) => date,
        Err(_) => epoch(),
    }
}

/// Answers a request whose method isn't `GET` or `HEAD` with a 405 (RFC 9110, section 15.5.6).
pub(crate) fn refuse_method<Q: AnyRequest>(request: Q) -> io::Result<()> {
    let alloc = request.alloc();
    let answer = Response::status(alloc, StatusCode(405))?.with(alloc, "Allow", "GET, HEAD")?;
    request.reply(answer)
}

/// Returns whether the method is `GET` or `HEAD`.
pub(crate) fn is_reading(method: &Method) -> bool {
    matches!(method, Method::Get | Method::Head)
}

// An open file, with what its responses say of it.
#[derive(Drop)]
struct OpenedFile {
    alloc: Global,
    file: File,
    length: u64,
    tag: String,
    // Whether the file may change once more within the second of its modification time.
    is_fresh: bool,
    modified: HttpDate,
    date: String,
    content_type: &'static str,
}

impl OpenedFile {
    // Describes an open file for a response that is sent now.
    fn new(
        alloc: Global,
        file: File,
        entry: Entry,
        content_type: &'static str,
        now: HttpDate,
    ) -> io::Result<OpenedFile> {
        let seconds = match entry.modified.duration_since(UNIX_EPOCH) {
            Ok(since) => since.as_secs(),
            Err(_) => 0,
        };
        // `Last-Modified` is never later than `Date` (RFC 9110, section 8.8.2.1).
        let modified = date_of(seconds);
        let modified = if modified > now { now } else { modified };
        let is_fresh = modified.unix_secs().saturating_add(1) >= now.unix_secs();
        Ok(OpenedFile {
            alloc,
            file,
            length: entry.length,
            tag: file_tag(alloc, seconds, entry.length)?,
            is_fresh,
            modified,
            date: format!(in alloc; "{modified}")?,
            content_type,
        })
    }

    // Returns what the conditions of a request are compared with.
    fn representation(&self) -> Representation<'_> {
        let opaque = match self.tag.as_bytes() {
            [b'"', opaque @ .., b'"'] => opaque,
            tag => tag,
        };
        Representation {
            tag: EntityTag {
                is_weak: self.is_fresh,
                opaque,
            },
            modified: self.modified,
            length: self.length,
        }
    }

    // Adds the headers by which the client's next request is conditional.
    fn validated<D: Drop>(&self, response: Response<D>) -> io::Result<Response<D>> {
        let response = response.with(self.alloc, "Last-Modified", self.date.as_str())?;
        if self.is_fresh {
            let tag = format!(in self.alloc; "W/{}", self.tag.as_str())?;
            return Ok(response.with(self.alloc, "ETag", tag.as_str())?);
        }
        Ok(response.with(self.alloc, "ETag", self.tag.as_str())?)
    }

    // Makes the 304.
    fn not_modified(self) -> io::Result<Response<Empty>> {
        self.validated(Response::contentless(self.alloc, StatusCode(304)))
    }

    // Makes the 416.
    fn unsatisfiable(self) -> io::Result<Response<Cursor<Vec<u8>>>> {
        let place = unsatisfied_range(self.alloc, self.length)?;
        let response = Response::status(self.alloc, StatusCode(416))?;
        Ok(response.with(self.alloc, "Content-Range", place.as_str())?)
    }

    // Makes the 200. The file is sent with its length, unless the request's `TE` asks for chunks.
    fn whole(self) -> io::Result<Response<FilePart>> {
        let response = self.validated(Response::empty(self.alloc, StatusCode(200)))?;
        let response = response
            .with(self.alloc, "Content-Type", self.content_type)?
            .with(self.alloc, "Accept-Ranges", "bytes")?
            .with_chunked_threshold(usize::MAX);
        let OpenedFile { file, length, .. } = self;
        Ok(response.with_data(FilePart::new(file, 0, length), Some(length as usize)))
    }

    // Makes the 206 with one range.
    fn part(self, range: ByteRange) -> io::Result<Response<FilePart>> {
        let place = content_range(self.alloc, range, self.length)?;
        let response = self.validated(Response::empty(self.alloc, StatusCode(206)))?;
        let response = response
            .with(self.alloc, "Content-Type", self.content_type)?
            .with(self.alloc, "Content-Range", place.as_str())?
            .with_chunked_threshold(usize::MAX);
        let OpenedFile { file, .. } = self;
        let part = FilePart::new(file, range.start, range.size());
        Ok(response.with_data(part, Some(range.size() as usize)))
    }

    // Makes the 206 with several ranges.
    fn parts(self, ranges: &[ByteRange], boundary: String) -> io::Result<Response<Multipart>> {
        let content_type = format!(in self.alloc;
            "multipart/byteranges; boundary={}",
            boundary.as_str()
        )?;
        let response = self.validated(Response::empty(self.alloc, StatusCode(206)))?;
        let response = response
            .with(self.alloc, "Content-Type", content_type.as_str())?
            .with_chunked_threshold(usize::MAX);
        let mut body = MultipartBuilder::new(self.alloc, boundary);
        for range in ranges {
            body.add(self.content_type, *range, self.length)?;
        }
        let OpenedFile { file, .. } = self;
        let (body, length) = body.finish(file)?;
        Ok(response.with_data(body, Some(length as usize)))
    }
}

// Returns a boundary for a `multipart/byteranges`: the nanoseconds of the clock, which who wrote the file doesn't know.
// Returns `None` if the clock can't be read.
fn boundary<Q: AnyRequest>(request: &Q) -> io::Result<Option<String>> {
    let alloc = request.alloc();
    let Ok(time) = request.runtime().since_1970() else {
        return Ok(None);
    };
    let nanoseconds = time
        .as_secs()
        .wrapping_mul(1_000_000_000)
        .wrapping_add(time.subsec_nanos().into());
    let boundary = format!(in alloc; "part-{}", Numeral::hexadecimal(nanoseconds).as_str())?;
    Ok(Some(boundary))
}

// Returns the values that make a request conditional.
fn conditions_of<Q: AnyRequest>(request: &Q) -> Conditions<'_> {
    Conditions {
        if_match: request.header("If-Match"),
        if_none_match: request.header("If-None-Match"),
        if_modified_since: request.header("If-Modified-Since"),
        if_unmodified_since: request.header("If-Unmodified-Since"),
        if_range: request.header("If-Range"),
        range: request.header("Range"),
    }
}

// Opens a regular file. Returns `None` if there is none with this path, or it mayn't be read.
fn open<Rt: Disk>(rt: &Rt, path: &str) -> io::Result<Option<(File, Entry)>> {
    // Opening a pipe may block forever.
    match unless_absent(rt.entry(path))? {
        Some(entry) if entry.kind == Kind::File => {}
        _ => return Ok(None),
    }
    match unless_absent(rt.open_file(path))? {
        Some((file, entry)) if entry.kind == Kind::File => Ok(Some((file, entry))),
        _ => Ok(None),
    }
}

/// Answers a `GET` or `HEAD` with the file at this path, whatever the path of the request, with the media type of its
/// name (`type_of`). See `send_file_as`.
pub fn send_file<Rt: Disk, Q: AnyRequest>(rt: &Rt, request: Q, path: &str) -> io::Result<()> {
    send_file_as(rt, request, path, type_of(path))
}

/// Answers a `GET` or `HEAD` with the file at this path, as this media type.
///
/// The response is a 200, a 206 for `Range` (RFC 9110, section 14.2), or as the conditions of the request ask a 304, a
/// 412 or a 416 (`Conditions::answer`, which sees the first field of each name). It is a 404 if the path isn't that of
/// a regular file that may be read, and a 405 for another method. A file that was modified in this second or the one
/// before has a weak tag, since it may change again within that second; then `If-Range` doesn't hold.
///
/// A file that shrinks while it is sent ends the connection. Fails as `Request::respond` does, with `UnexpectedEof` for
/// such a file, if memory can't be allocated, and with a fault of the system that may pass, such as a lack of
/// descriptors.
pub fn send_file_as<Rt: Disk, Q: AnyRequest>(
    rt: &Rt,
    request: Q,
    path: &str,
    content_type: &'static str,
) -> io::Result<()> {
    if !is_reading(request.method()) {
        return refuse_method(request);
    }
    let Some((file, entry)) = open(rt, path)? else {
        return request.reply_status(StatusCode(404));
    };
    let alloc = request.alloc();
    let now = current_date(request.runtime());
    let file = OpenedFile::new(alloc, file, entry, content_type, now)?;
    let answer = conditions_of(&request).answer(alloc, request.method(), &file.representation())?;
    match answer {
        Answer::Whole => request.reply(file.whole()?),
        Answer::Part(range) => request.reply(file.part(range)?),
        Answer::Parts(ranges) => match boundary(&request)? {
            Some(boundary) => request.reply(file.parts(ranges.as_slice(), boundary)?),
            None => request.reply(file.whole()?),
        },
        Answer::NotModified => request.reply(file.not_modified()?),
        Answer::RangeNotSatisfiable => request.reply(file.unsatisfiable()?),
        Answer::PreconditionFailed => request.reply_status(StatusCode(412)),
    }
}
