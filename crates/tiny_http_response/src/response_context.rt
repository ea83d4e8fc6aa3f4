//! The response context, and how it decides the form of a streamed body.
ghost use Rattle.std.specs.Prelude.{◌≡◌};
ghost use Rattle.tiny_http_response.specs.Streaming.{streamed_form, streamed_framing};

use crate::by_standard::contentless_framing;
use crate::coding::{Coding, FramingHeader};
use tiny_http_body::streamed::StreamedForm;
use tiny_http_head::common::{HTTPVersion, StatusCode};

/// The persistence of a connection, as a response states it (RFC 9112, section 9.3).
#[derive(Clone, Copy, Debug, PartialEq, Eq)]
pub enum Persistence {
    /// The connection persists. A response to an HTTP/1.1 request needs no header to state that.
    Persistent,
    /// The server closes the connection after the response.
    Close,
}

/// The properties of a request and its connection that printing the response needs, kept in place of the request's
/// headers.
#[derive(Clone, Copy, Debug, PartialEq, Eq)]
pub struct ResponseContext {
    /// The HTTP version of the request.
    pub version: HTTPVersion,
    /// The transfer coding that the request's `TE` header asks for, if any.
    pub asked_coding: Option<Coding>,
    /// Whether the response has no body because the request is a `HEAD`.
    pub no_body: bool,
    /// The persistence that the response states for its connection (RFC 9112, section 9.6). With `Some`, the response
    /// is printed as `Profile::Standard` requires. With `None`, it is printed as in the Rust crate: with the request's
    /// version in the status line and the response's headers unchanged. It then has `Content-Length` or
    /// `Transfer-Encoding` even if its code has no content, unless it is an upgrade, its body is streamed, or
    /// `Response::contentless` made it.
    pub persistence: Option<Persistence>,
}

impl ResponseContext {
    /// Returns how the body of a streamed response with this status code is sent:
    ///
    /// - `Absent`: not at all, for a `HEAD`, for a code without content, or under `Profile::Standard` for a 205 or a
    ///   code below 100.
    /// - `Plain`: as is, in any other response to a request of version 1.0 or lower. The end of the connection ends the
    ///   body (RFC 9112, section 6.3).
    /// - `Chunks`: in chunks, in any other response to a request of a later version (RFC 9112, section 7.1).
    pub fn streamed_form(&self, status: StatusCode) -> StreamedForm
        ensures { result ≡ streamed_form self.now status.0 }
    {
        if self.no_body || contentless_framing(self.persistence, true, status, None).is_some() {
            return StreamedForm::Absent;
        }
        if self.version <= HTTPVersion(1, 0) {
            return StreamedForm::Plain;
        }
        StreamedForm::Chunks
    }

    // Returns the header that frames the body of a streamed response with this status code.
    pub(crate) fn streamed_framing(&self, status: StatusCode) -> FramingHeader
        ensures { result ≡ streamed_framing self.now status.0 }
    {
        if let Some(framing) = contentless_framing(self.persistence, true, status, None) {
            return framing;
        }
        if self.version <= HTTPVersion(1, 0) {
            return FramingHeader::Neither;
        }
        FramingHeader::TransferEncoding
    }
}
