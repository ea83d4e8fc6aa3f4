//! The opening handshake of a WebSocket connection (RFC 6455, section 4.2).
ghost use Rattle.std.specs.Prelude.{◌≡◌, ◌≢◌, ℕ, List, count_by, IfSome, IfNone, IfOk};
ghost use Rattle.websocket.specs.Handshake.{accept_key_of};
ghost use Rattle.tiny_http_request.specs.Request.{request_head};
ghost use Rattle.tiny_http_websocket.specs.Handshake.{AsksForWebSocket, has_name};

use httpdate::HttpDate;
use std::alloc::Global;
use std::io;
use std::io::{Cursor, ErrorKind};
use std::sync::Wait;
use tiny_http::ascii::AsciiString;
use tiny_http::custom_stream::CustomStream;
use tiny_http::device::{ReadDevice, WriteDevice};
use tiny_http::outlet::Outlet;
use tiny_http::request::{Body, UpgradeError};
use tiny_http::sequential::SequentialWriter;
use tiny_http::{HTTPVersion, Header, Method, RefusedUpgrade, Request, Response, StatusCode};
use websocket::handshake::server::accept_key;

/// The result of a handshake.
#[derive(Drop)]
pub enum Handshake<R: ReadDevice + Drop, W: WriteDevice + Drop, Rt: Wait + Drop> {
    /// The connection is a WebSocket. The stream reads and writes the bytes of its frames.
    Accepted(CustomStream<Body<R, Rt>, SequentialWriter<Outlet<W>, Rt>>),
    /// The request doesn't ask for a WebSocket, its body isn't whole (`UpgradeError::UnfinishedBody`, only under
    /// `Standard`), or the limit of upgraded connections is reached. The request can be answered, for example with the
    /// response that `refusal` returns.
    Refused(RefusedUpgrade<R, W, Rt>),
}

// Returns how many headers have this name.
fn count_named(headers: &[Header], name: &str) -> usize
    ensures { result ≡ count_by (has_name name.now) headers.now }
{
    headers
        .iter()
        .filter(|header| header.field.equiv(name))
        .count()
}

/// Returns the key that accepts a request for a WebSocket, which is the value of `Sec-WebSocket-Accept` (RFC 6455,
/// section 4.2.2), or `None` for any other request.
///
/// A request for a WebSocket is a `GET` in version 1.1 that asks for an upgrade (`Request::is_upgrade`) and lists
/// `websocket` in its `Upgrade` headers. Its first `Sec-WebSocket-Version` is 13, and it has exactly one
/// `Sec-WebSocket-Key`, which is valid (RFC 6455, sections 4.2.1 and 11.3.1).
pub fn accepting_key<R: ReadDevice + Drop, W: WriteDevice + Drop, Rt: Wait + Drop>(
    request: &Request<R, W, Rt>,
) -> Option<[u8; 28]>
    ensures some { IfSome result (λ accepting. (key : List ℕ)
        × AsksForWebSocket (request_head request.now) key
        × (accepting ≡ accept_key_of key)) }
    ensures none { IfNone result ((key : List ℕ) → AsksForWebSocket (request_head request.now) key → ⊥) }
{
    let asks = *request.method() == Method::Get
        && *request.http_version() == HTTPVersion(1, 1)
        && request.is_upgrade()
        && request.header_lists("Upgrade", "websocket")
        && request.header("Sec-WebSocket-Version") == Some("13")
        && count_named(request.headers(), "Sec-WebSocket-Key") == 1;
    if !asks {
        return None;
    }
    let key = request.header("Sec-WebSocket-Key")?;
    accept_key(key.as_bytes()).ok()
}

/// Upgrades a request for a WebSocket: sends the 101, dated `now`, in the request's turn. Returns `Refused`, with the
/// request, if the request isn't for a WebSocket, its body isn't whole (`UpgradeError::UnfinishedBody`, only under
/// `Standard`), or the limit of upgraded connections is reached. Fails if memory can't be allocated; then the request
/// is dropped. A fault of the writer isn't reported.
pub fn accept<R: ReadDevice + Drop, W: WriteDevice + Drop, Rt: Wait + Drop>(
    alloc: Global,
    request: Request<R, W, Rt>,
    now: HttpDate,
) -> io::Result<Handshake<R, W, Rt>> {
    let Some(key) = accepting_key(&request) else {
        let error = UpgradeError::NotAsked;
        return Ok(Handshake::Refused(RefusedUpgrade { error, request }));
    };
    let Ok(key) = str::from_utf8(&key) else {
        return Err(ErrorKind::InvalidData.into());
    };
    let response = Response::empty(alloc, StatusCode(101));
    let response = response.with(alloc, "Sec-WebSocket-Accept", key)?;
    match request.try_upgrade("websocket", response, now) {
        Ok(stream) => Ok(Handshake::Accepted(stream)),
        Err(refused) => Ok(Handshake::Refused(refused)),
    }
}

/// Returns the response to a request whose handshake was refused with this error. If the limit of upgraded connections
/// is reached, it is a 503 whose text is the code and its reason phrase; otherwise it is the response that
/// `upgrade_required` returns. Fails if memory can't be allocated.
pub fn refusal(alloc: Global, error: UpgradeError) -> io::Result<Response<Cursor<Vec<u8>>>>
    ensures full { error ≡ UpgradeError.TooMany → IfOk result (λ r. r.answer.status ≡ 503) }
    ensures other { error ≢ UpgradeError.TooMany → IfOk result (λ r. r.answer.status ≡ 426) }
{
    if error == UpgradeError::TooMany {
        return Ok(Response::status(alloc, StatusCode(503))?);
    }
    upgrade_required(alloc)
}

/// Returns the response to a request that isn't for a WebSocket of version 13: a 426 whose text is the code and its
/// reason phrase. The response states the version (RFC 6455, section 4.4) and offers the upgrade (RFC 9110, section
/// 15.5.22); the offer is sent only under `Standard`. Fails if memory can't be allocated.
pub fn upgrade_required(alloc: Global) -> io::Result<Response<Cursor<Vec<u8>>>>
    ensures { IfOk result (λ r. r.answer.status ≡ 426) }
{
    let response = Response::status(alloc, StatusCode(426))?;
    let response = response.with(alloc, "Sec-WebSocket-Version", "13")?;
    let Ok(websocket) = AsciiString::from_ascii(b"websocket".to_vec(alloc)?) else {
        return Err(ErrorKind::InvalidData.into());
    };
    Ok(response.with_upgrade_offer(websocket))
}
