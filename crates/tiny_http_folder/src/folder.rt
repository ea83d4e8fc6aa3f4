//! A folder whose files are served.
use crate::disk::{Disk, Kind};
use crate::sending::{is_reading, refuse_method, send_file_as};
use percent_encoding::{DecodeError, percent_decode_str};
use std::alloc::Global;
use std::io;
use std::io::{Cursor, ErrorKind};
use std::path::Path;
use std::sync::Wait;
use std::time::Clock;
use tiny_http::Handler;
use tiny_http_files::listing::listing;
use tiny_http_files::paths::below_folder;
use tiny_http_files::types::type_of;
use tiny_http_request::any_request::AnyRequest;
use tiny_http_request::request::Request;
use tiny_http_wire::common::{ParseError, StatusCode};
use tiny_http_wire::device::{ReadDevice, WriteDevice};
use tiny_http_wire::response::Response;

/// A folder whose files are served, as a handler. Names that begin with a dot aren't found, but `.well-known` is (RFC
/// 8615), and a folder without an `index.html` isn't found either, unless `with_hidden_files` or `with_listings` says
/// otherwise.
///
/// Links are followed, unless they lead out of the folder. That is checked before a file is opened: whoever can change
/// the folder meanwhile can lead a request out of it.
#[derive(Drop)]
pub struct Folder {
    // The canonical path.
    path: String,
    has_listings: bool,
    has_hidden_files: bool,
}

// A file or a folder that was found.
#[derive(Drop)]
struct Found {
    // The canonical path.
    path: String,
    // The media type of the name by which it was asked for.
    content_type: &'static str,
}

impl Folder {
    /// Makes a `Folder` of the folder at this path, whose links are resolved now. Fails with `NotFound` if there is
    /// none, and with `InvalidInput` if something else is there.
    pub fn open<Rt: Disk>(rt: &Rt, alloc: Global, path: &str) -> io::Result<Folder> {
        let path = rt.real_path(alloc, path)?;
        if rt.entry(path.as_str())?.kind != Kind::Folder {
            return Err(ErrorKind::InvalidInput.into());
        }
        Ok(Folder {
            path,
            has_listings: false,
            has_hidden_files: false,
        })
    }

    /// Answers requests for a folder without an `index.html` by a listing of its names, in place of a 404.
    pub fn with_listings(mut self) -> Folder {
        self.has_listings = true;
        self
    }

    /// Serves and lists names that begin with a dot, too.
    pub fn with_hidden_files(mut self) -> Folder {
        self.has_hidden_files = true;
        self
    }

    // Returns whether the name isn't to be found since it begins with a dot.
    fn hides(&self, name: &str) -> bool {
        !self.has_hidden_files && name.starts_with('.') && name != ".well-known"
    }

    // Returns what the path of a request names below this folder. Returns `None` if the path isn't UTF-8 once it is
    // percent-decoded, is unsafe (`below_folder`), has a name that is hidden, names nothing, or leads out of the folder
    // by a link. Fails if memory can't be allocated, or with another fault of the system.
    fn find<Rt: Disk>(&self, rt: &Rt, alloc: Global, path: &str) -> io::Result<Option<Found>> {
        let decoded = match percent_decode_str(path).decode_utf8(alloc) {
            Ok(decoded) => decoded,
            Err(DecodeError::Utf8(_)) => return Ok(None),
            Err(DecodeError::OutOfMemory) => return Err(ErrorKind::OutOfMemory.into()),
        };
        if decoded.as_str().split('/').any(|name| self.hides(name)) {
            return Ok(None);
        }
        let Some(joined) = below_folder(alloc, self.path.as_str(), decoded.as_str())? else {
            return Ok(None);
        };
        let Some(path) = unless_absent(rt.real_path(alloc, joined.as_str()))? else {
            return Ok(None);
        };
        if !Path::new(path.as_str()).starts_with(self.path.as_str()) {
            return Ok(None);
        }
        let content_type = type_of(joined.as_str());
        Ok(Some(Found { path, content_type }))
    }

    /// Answers a `GET` or `HEAD` with what its path names in the folder, and another method with a 405.
    ///
    /// A file is sent as `send_file` does. A folder's response is its `index.html`, or a listing, or if the path has no
    /// slash at its end, a 301 to the path with one. What `find` doesn't find, and what is neither a file nor a folder,
    /// is a 404. Fails as `Request::respond` does, if memory can't be allocated, and with a fault of the system that
    /// may pass, such as a lack of descriptors.
    pub fn answer<Rt: Disk, Q: AnyRequest>(&self, rt: &Rt, request: Q) -> io::Result<()> {
        if !is_reading(request.method()) {
            return refuse_method(request);
        }
        let Some(found) = self.find(rt, request.alloc(), request.path())? else {
            return request.reply_status(StatusCode(404));
        };
        match rt.entry(found.path.as_str()) {
            Ok(entry) if entry.kind == Kind::Folder => {
                self.answer_folder(rt, request, found.path.as_str())
            }
            _ => send_file_as(rt, request, found.path.as_str(), found.content_type),
        }
    }

    // Answers a request for a folder with this canonical path.
    fn answer_folder<Rt: Disk, Q: AnyRequest>(
        &self,
        rt: &Rt,
        request: Q,
        path: &str,
    ) -> io::Result<()> {
        let alloc = request.alloc();
        if !request.path().ends_with('/') {
            let response = with_slash(alloc, request.path(), request.query())?;
            return request.reply(response);
        }
        if let Some(index) = self.index_of(rt, alloc, request.path())? {
            return send_file_as(rt, request, index.path.as_str(), index.content_type);
        }
        match self.list(rt, alloc, path)? {
            Some(response) => request.reply(response),
            None => request.reply_status(StatusCode(404)),
        }
    }

    // Returns the file `index.html` in the folder that this path names, if there is one. It may be a link, but not one
    // that leads out of the folder.
    fn index_of<Rt: Disk>(&self, rt: &Rt, alloc: Global, path: &str) -> io::Result<Option<Found>> {
        let target = format!(in alloc; "{path}index.html")?;
        let Some(index) = self.find(rt, alloc, target.as_str())? else {
            return Ok(None);
        };
        match rt.entry(index.path.as_str()) {
            Ok(entry) if entry.kind == Kind::File => Ok(Some(index)),
            _ => Ok(None),
        }
    }

    // Makes the response with a listing of a folder, or returns `None` if there is none, or the folder can't be read.
    fn list<Rt: Disk>(
        &self,
        rt: &Rt,
        alloc: Global,
        path: &str,
    ) -> io::Result<Option<Response<Cursor<Vec<u8>>>>> {
        if !self.has_listings {
            return Ok(None);
        }
        let Some(mut names) = unless_absent(rt.names_in(alloc, path))? else {
            return Ok(None);
        };
        names.retain(|name| !self.hides(name.as_str()));
        let page = listing(alloc, names.as_slice())?;
        let response = Response::from_data(alloc, page);
        let response = response.with(alloc, "Content-Type", "text/html; charset=utf-8")?;
        Ok(Some(response))
    }
}

impl<R: ReadDevice + Drop, W: WriteDevice + Drop, Rt: Disk + Clock + Wait + Drop> Handler<
    Rt,
    Request<R, W, Rt>,
> for Folder {
    /// Answers the request (`Folder::answer`).
    fn handle(&self, rt: &Rt, _alloc: Global, request: Request<R, W, Rt>) -> io::Result<()> {
        self.answer(rt, request)
    }

    /// Drops the error.
    fn on_error(&self, _rt: &Rt, _alloc: Global, _error: io::Error) {}
}

// Makes the 301 to the same path with a slash at its end, and with the same query, or a 400 if these make no header.
fn with_slash(
    alloc: Global,
    path: &str,
    query: Option<&str>,
) -> io::Result<Response<Cursor<Vec<u8>>>> {
    // The location is relative, made from the last segment alone. If it were the whole path and began with two slashes,
    // it would name a host.
    let segment = match path.rsplit_once('/') {
        Some((_, segment)) => segment,
        None => path,
    };
    let location = match query {
        Some(query) => format!(in alloc; "./{segment}/?{query}")?,
        None => format!(in alloc; "./{segment}/")?,
    };
    let response = Response::status(alloc, StatusCode(301))?;
    match response.with(alloc, "Location", location.as_str()) {
        Ok(response) => Ok(response),
        // Under `Lenient` and `Strict` a target may have control characters.
        Err(ParseError::Refused) => Ok(Response::status(alloc, StatusCode(400))?),
        Err(ParseError::Memory) => Err(ErrorKind::OutOfMemory.into()),
    }
}

/// Returns what was found, or `None` if a fault says that nothing is there, or nothing that may be read. Fails with any
/// other fault.
pub(crate) fn unless_absent<T>(outcome: io::Result<T>) -> io::Result<Option<T>> {
    match outcome {
        Ok(item) => Ok(Some(item)),
        Err(fault) => match fault.kind() {
            ErrorKind::NotFound
            | ErrorKind::NotADirectory
            | ErrorKind::PermissionDenied
            | ErrorKind::FilesystemLoop
            | ErrorKind::InvalidFilename
            | ErrorKind::InvalidInput
            | ErrorKind::InvalidData => Ok(None),
            _ => Err(fault),
        },
    }
}
