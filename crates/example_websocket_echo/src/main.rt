//! Sends each WebSocket message back: `example_websocket_echo ADDRESS`. A handshake above the limit on upgraded
//! connections is answered with 503, and any other request that isn't accepted with 426.
//!
//! The program shows an upgrade with `tiny_http_websocket`, frames with `tungstenite`, and `serve`, under which a
//! connection that waits for a request takes no thread, but an open WebSocket keeps one.
#![tactic(auto)]

use std::alloc::Global;
use std::io::{ErrorKind, Read, Write};
use std::sync::{Arc, Wait};
use std::time::Clock;
use std::{env, io};
use tiny_http::device::{ReadDevice, WriteDevice};
use tiny_http::{Handler, Host, Request, Server, ServerOptions, current_date};
use tiny_http_websocket::handshake::{Handshake, accept, refusal};
use tungstenite::{
    CloseCode, CloseFrame, Error, NoMask, Role, Utf8Bytes, WebSocket, WebSocketConfig,
};

// Maximum length of a message in bytes.
const MOST: usize = 1 << 20;

// Returns the close code for a client error (RFC 6455, sections 7.1.7 and 7.4.1): a breach of the protocol (such as
// ending the stream without a Close frame), a text that isn't UTF-8, or a message that is too long. Returns `None` for
// any other error.
fn close_code(fault: &Error) -> Option<CloseCode> {
    match fault {
        Error::Protocol(_) => Some(CloseCode::Protocol),
        Error::Utf8 => Some(CloseCode::Invalid),
        Error::Capacity(_) => Some(CloseCode::Size),
        _ => None,
    }
}

// Sends each message back until the WebSocket is closed.
fn send_back<S: Read + Write + Drop>(socket: &mut WebSocket<S, NoMask>) -> Result<(), Error> {
    for _ in 0..u64::MAX {
        match socket.read() {
            Ok(message) if message.is_text() || message.is_binary() => socket.send(message)?,
            Ok(_) => {}
            Err(Error::ConnectionClosed) => break,
            Err(fault) => return Err(fault),
        }
    }
    Ok(())
}

// Sends each message back. If a client error (see `close_code`) ends the conversation, sends a Close frame, unless the
// stream has already ended.
fn talk<S: Read + Write + Drop>(alloc: Global, stream: S) -> Result<(), Error> {
    let config = WebSocketConfig::default()
        .max_message_size(Some(MOST))
        .max_frame_size(Some(MOST));
    let mut socket = WebSocket::from_raw_socket(alloc, stream, NoMask, Role::Server, Some(config));
    let Err(fault) = send_back(&mut socket) else {
        return Ok(());
    };
    if let Some(code) = close_code(&fault) {
        let reason = Utf8Bytes::copy_from_str(alloc, "")?;
        socket.close(Some(CloseFrame { code, reason }))?;
    }
    Err(fault)
}

/// A handler that echoes the messages of each WebSocket.
#[derive(Drop)]
struct Echo;

impl<R: ReadDevice + Drop, W: WriteDevice + Drop, Rt: Clock + Wait + Drop> Handler<
    Rt,
    Request<R, W, Rt>,
> for Echo {
    /// Accepts a WebSocket, and echoes its messages until it is closed, or refuses the request. A broken WebSocket is
    /// not an error.
    fn handle(&self, rt: &Rt, alloc: Global, request: Request<R, W, Rt>) -> io::Result<()> {
        match accept(alloc, request, current_date(rt))? {
            Handshake::Accepted(stream) => {
                let _ = talk(alloc, stream);
                Ok(())
            }
            Handshake::Refused(refused) => {
                let response = refusal(alloc, refused.error)?;
                refused.request.respond(response, current_date(rt))
            }
        }
    }

    /// Drops the error.
    fn on_error(&self, _rt: &Rt, _alloc: Global, _error: io::Error) {}
}

// Listens on this address, prints it, and echoes until the server ends.
fn serve<Rt: Host, O: Write>(rt: Rt, alloc: Global, address: &str, out: &mut O) -> io::Result<()> {
    let Ok(handler) = Arc::new(alloc, Echo) else {
        return Err(ErrorKind::OutOfMemory.into());
    };
    let server = Server::bind(rt, alloc, address, ServerOptions::open_port())?;
    writeln!(out, "listening on {}", server.server_addr())?;
    out.flush()?;
    server.serve(alloc, &handler)
}

fn main(rt: HostRuntime) -> io::Result<()> {
    let words: Vec<String> = env::args(&rt)?.collect(rt.alloc())?;
    let [_, address] = words.as_slice() else {
        return Err(ErrorKind::InvalidInput.into());
    };
    serve(rt, rt.alloc(), address.as_str(), &mut rt.stdout())
}
