//! A request, whatever carries it, with calls that take neither a date nor an allocator.
ghost use Rattle.std.specs.Prelude.{◌≡◌};
ghost use Rattle.std.specs.Option.{option_copied};
ghost use Rattle.tiny_http_head.specs.Target.{IsPath, IsQuery};
ghost use Rattle.tiny_http_standard_head.specs.Lists.{has_element};
ghost use Rattle.tiny_http_body.specs.Framing.{value_of};
ghost use Rattle.tiny_http_open_request.specs.declared.exchange.Head.{Head};
ghost use Rattle.tiny_http_open_request.specs.HeadValues.{is_upgrade};
ghost use Rattle.tiny_http_request.specs.Request.{request_head};

use crate::date::current_date;
use crate::request::{Body, BodyError, RefusedUpgrade, Request, StreamedBody};
use std::alloc::Global;
use std::io;
use std::net::SocketAddr;
use std::sync::Wait;
use std::time::Clock;
use tiny_http_head::common::{HTTPVersion, Header, Method, StatusCode};
use tiny_http_io::custom_stream::CustomStream;
use tiny_http_io::device::{ReadDevice, WriteDevice};
use tiny_http_io::outlet::Outlet;
use tiny_http_open_request::exchange::Head;
use tiny_http_response::response::Response;
use tiny_http_threads::sequential::SequentialWriter;

/// A request of a server, or of a test. A handler, or a part of one, takes any: `fn give<Q: AnyRequest>(request: Q)`.
///
/// The calls here use the request's own clock and allocator. Those that `Request` has too are the same: `reply` is
/// `respond`, `reply_streaming` is `respond_streaming`, `reply_upgrade` is `try_upgrade`, `body` is `as_reader`,
/// `head_and_body` is `parts`, and `read_whole` is `read_body`, with the current date.
pub trait AnyRequest: Sized + Drop {
    // The head of the request.
    ghost head: { Self → Head };

    /// What the body is read from.
    type Input: ReadDevice + Drop;

    /// What the response is written to.
    type Output: WriteDevice + Drop;

    /// What the request waits and dates by.
    type Runtime: Wait + Clock + Drop;

    /// Returns the runtime.
    fn runtime(&self) -> &Self::Runtime;

    /// Returns the allocator.
    fn alloc(&self) -> Global;

    /// Returns the method.
    fn method(&self) -> &Method
        ensures { result.now ≡ (head self.now).method };

    /// Returns the request target as it was sent (`Request::url`).
    fn url(&self) -> &str
        ensures { result.now ≡ (head self.now).path };

    /// Returns the path of the target, without its query (`Request::path`).
    fn path(&self) -> &str
        ensures { IsPath (head self.now).path result.now };

    /// Returns the query of the target (`Request::query`).
    fn query(&self) -> Option<&str>
        ensures { IsQuery (head self.now).path (option_copied result) };

    /// Returns the version (`Request::http_version`).
    fn http_version(&self) -> &HTTPVersion
        ensures { result.now ≡ (head self.now).version };

    /// Returns the headers, in their order.
    fn headers(&self) -> &[Header]
        ensures { result.now ≡ (head self.now).headers.items };

    /// Returns the value of the first header with this name (`Request::header`).
    fn header(&self, name: &str) -> Option<&str>
        ensures { option_copied result ≡ value_of name.now (head self.now).headers.items };

    /// Returns whether the headers with this name list this token (`Request::header_lists`).
    fn header_lists(&self, name: &str, token: &str) -> bool
        ensures { result ≡ has_element name.now token.now (head self.now).headers.items };

    /// Returns the value of `Content-Length`, if it is valid and no `Transfer-Encoding` overrides it.
    fn body_length(&self) -> Option<usize>
        ensures { result ≡ (head self.now).framing.body_length };

    /// Returns whether the head asks for an upgrade (`Request::is_upgrade`).
    fn is_upgrade(&self) -> bool
        ensures { result ≡ is_upgrade (head self.now) };

    /// Returns the client's address (`Request::remote_addr`).
    fn remote_addr(&self) -> Option<&SocketAddr>;

    /// Returns whether the connection is encrypted.
    fn secure(&self) -> bool;

    /// Returns the body. If a 100 is owed, it is sent first (`Request::as_reader`).
    fn body(&mut self) -> &mut Body<Self::Input, Self::Runtime>;

    /// Returns the head and the body (`Request::parts`).
    fn head_and_body(&mut self) -> (&Head, &mut Body<Self::Input, Self::Runtime>);

    /// Reads the body to its end, at most `most` bytes (`Request::read_body`).
    fn read_whole(&mut self, most: usize) -> Result<Vec<u8>, BodyError>
        ensures { head self.new ≡ head self.old };

    /// Sends the response (`Request::respond`).
    fn reply<D: ReadDevice + Drop>(self, response: Response<D>) -> io::Result<()>;

    /// Sends the response that `Response::status` makes from this code: the code and its reason phrase as a text. Fails
    /// as `reply` does, or with `OutOfMemory`.
    fn reply_status(self, code: StatusCode) -> io::Result<()>;

    /// Begins a response whose body grows while it is sent (`Request::respond_streaming`).
    fn reply_streaming<D: Drop>(
        self,
        response: Response<D>,
    ) -> io::Result<StreamedBody<Self::Output, Self::Runtime>>;

    /// Upgrades the connection to this protocol if the head asks for it (`Request::try_upgrade`).
    fn reply_upgrade<D: Drop>(
        self,
        protocol: &str,
        response: Response<D>,
    ) -> Result<
        CustomStream<
            Body<Self::Input, Self::Runtime>,
            SequentialWriter<Outlet<Self::Output>, Self::Runtime>,
        >,
        RefusedUpgrade<Self::Input, Self::Output, Self::Runtime>,
    >;

    /// Takes the raw writer in place of a response (`Request::into_writer`).
    fn into_writer(self) -> SequentialWriter<Outlet<Self::Output>, Self::Runtime>;
}

impl<R: ReadDevice + Drop, W: WriteDevice + Drop, Rt: Wait + Clock + Drop> AnyRequest
    for Request<R, W, Rt> {
    ghost head = { request_head };

    type Input = R;

    type Output = W;

    type Runtime = Rt;

    fn runtime(&self) -> &Rt {
        self.runtime()
    }

    fn alloc(&self) -> Global {
        self.alloc()
    }

    fn method(&self) -> &Method {
        self.method()
    }

    fn url(&self) -> &str {
        self.url()
    }

    fn path(&self) -> &str {
        self.path()
    }

    fn query(&self) -> Option<&str> {
        self.query()
    }

    fn http_version(&self) -> &HTTPVersion {
        self.http_version()
    }

    fn headers(&self) -> &[Header] {
        self.headers()
    }

    fn header(&self, name: &str) -> Option<&str> {
        self.header(name)
    }

    fn header_lists(&self, name: &str, token: &str) -> bool {
        self.header_lists(name, token)
    }

    fn body_length(&self) -> Option<usize> {
        self.body_length()
    }

    fn is_upgrade(&self) -> bool {
        self.is_upgrade()
    }

    fn remote_addr(&self) -> Option<&SocketAddr> {
        self.remote_addr()
    }

    fn secure(&self) -> bool {
        self.secure()
    }

    fn body(&mut self) -> &mut Body<R, Rt> {
        let now = current_date(self.runtime());
        self.as_reader(now)
    }

    fn head_and_body(&mut self) -> (&Head, &mut Body<R, Rt>) {
        let now = current_date(self.runtime());
        self.parts(now)
    }

    fn read_whole(&mut self, most: usize) -> Result<Vec<u8>, BodyError> {
        let (alloc, now) = (self.alloc(), current_date(self.runtime()));
        self.read_body(alloc, most, now)
    }

    fn reply<D: ReadDevice + Drop>(self, response: Response<D>) -> io::Result<()> {
        let now = current_date(self.runtime());
        self.respond(response, now)
    }

    fn reply_status(self, code: StatusCode) -> io::Result<()> {
        let response = Response::status(self.alloc(), code)?;
        self.reply(response)
    }

    fn reply_streaming<D: Drop>(self, response: Response<D>) -> io::Result<StreamedBody<W, Rt>> {
        let now = current_date(self.runtime());
        self.respond_streaming(response, now)
    }

    fn reply_upgrade<D: Drop>(
        self,
        protocol: &str,
        response: Response<D>,
    ) -> Result<
        CustomStream<Body<R, Rt>, SequentialWriter<Outlet<W>, Rt>>,
        RefusedUpgrade<R, W, Rt>,
    > {
        let now = current_date(self.runtime());
        self.try_upgrade(protocol, response, now)
    }

    fn into_writer(self) -> SequentialWriter<Outlet<W>, Rt> {
        self.into_writer()
    }
}
