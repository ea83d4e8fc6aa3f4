//! Formats replies as the lines of a case.
use replay_script::reply::ReplyLine;
use std::alloc::{AllocError, Global};
use std::fmt::Write;
use std::io::ErrorKind;
use tiny_http_core::driver::Reply;
use tiny_http_core::exchange::EndOfRequests;
use tiny_http_wire::common::{HTTPVersion, Header, Method};

// Appends the content length of a head, or `-` if it has none.
fn add_length(line: &mut String, length: Option<usize>) -> Result<(), AllocError> {
    match length {
        Some(length) => write!(line, " {length}"),
        None => line.push_str(" -"),
    }
}

/// Formats the reply that hands out the request with this number: the line that `ReplyLine` prints, and then each
/// header field in brackets.
pub fn handed_line(
    alloc: Global,
    (number, method): (&str, &Method),
    (path, version): (&str, HTTPVersion),
    headers: &[Header],
    length: Option<usize>,
) -> Result<Vec<u8>, AllocError> {
    let mut line = String::new(alloc);
    let count = headers.len();
    write!(line, "handed {number} {method} {path} {version} {count}")?;
    add_length(&mut line, length)?;
    for header in headers {
        write!(line, " [{header}]")?;
    }
    Ok(line.into_bytes())
}

/// Formats a reply that reports an error of this kind.
pub fn fault_line(alloc: Global, kind: ErrorKind) -> Result<Vec<u8>, AllocError> {
    Ok(format!(in alloc; "fault {kind:?}")?.into_bytes())
}

/// Formats the reply to a read that returned these bytes.
pub fn given_line(alloc: Global, bytes: &[u8]) -> Result<Vec<u8>, AllocError> {
    let mut line = b"given".to_vec(alloc)?;
    if !bytes.is_empty() {
        line.extend_from_slice(b" ")?;
        line.extend_from_slice(bytes)?;
    }
    Ok(line)
}

/// Formats the reply to a step of a connection: the line that `ReplyLine` prints, except that a request's header fields
/// are added, a body's bytes are included as they are, and every error kind is reported by its own name.
pub fn reply_line(alloc: Global, reply: &Reply) -> Result<Vec<u8>, AllocError> {
    match reply {
        Reply::Handed(number, head) => {
            let number = format!(in alloc; "{number}")?;
            let request = (number.as_str(), &head.method);
            let target = (head.path.as_str(), head.version);
            handed_line(
                alloc,
                request,
                target,
                head.headers.as_slice(),
                head.body_length(),
            )
        }
        Reply::Fault(kind) => fault_line(alloc, *kind),
        Reply::Given(bytes) => given_line(alloc, bytes.as_slice()),
        _ => Ok(format!(in alloc; "{}", ReplyLine(reply))?.into_bytes()),
    }
}

/// Formats the reason why no further request comes, or `open` if one may come.
pub fn end_words(alloc: Global, end: Option<EndOfRequests>) -> Result<Vec<u8>, AllocError> {
    let words = match end {
        None => "open",
        Some(EndOfRequests::LastRequest) => "last request",
        Some(EndOfRequests::Closed) => "closed",
        Some(EndOfRequests::Cut) => "cut",
        Some(EndOfRequests::NotAscii) => "not ASCII",
        Some(EndOfRequests::AbandonedBody) => "abandoned body",
        Some(EndOfRequests::UnreadBody) => "unread body",
        Some(EndOfRequests::Memory) => "memory",
        Some(EndOfRequests::Refused(status)) => {
            let status = status.0;
            return Ok(format!(in alloc; "refused {status}")?.into_bytes());
        }
        Some(EndOfRequests::Fault(kind)) => return fault_line(alloc, kind),
        Some(EndOfRequests::BrokenBody(kind)) => {
            return Ok(format!(in alloc; "broken body {kind:?}")?.into_bytes());
        }
    };
    words.as_bytes().to_vec(alloc)
}
