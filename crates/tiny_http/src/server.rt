//! The server: it listens, accepts clients, and hands out their requests to any thread.
ghost use Rattle.std.specs.Prelude.{◌≡◌, None, Err, IsSome, IsErr, IfErr};
ghost use Rattle.tiny_http.specs.ServerError.{FailsUnder};

use crate::accepting::{Accepting, Message, Queuing};
use crate::crew::Crew;
use crate::descriptors::too_few_descriptors;
use crate::ending::Ending;
use crate::options::ServerOptions;
use crate::registry::{ConnectionRegistry, time_of};
use crate::stopping::StopHandle;
use std::alloc::{AllocError, Global};
use std::io::ErrorKind;
use std::net::{Net, TcpListener, TcpStream, ToSocketAddrs};
use std::os::unix::net::UnixStream;
use std::path::{AsPath, Path, PathBuf};
use std::sync::atomic::AtomicBool;
use std::sync::{Arc, Wait};
use std::thread::Threads;
use std::time::{Clock, Duration};
use std::{io, thread};
use thiserror::Error;
use tiny_http_core::custom_stream::CustomStream;
use tiny_http_core::framing::Profile;
use tiny_http_core::outlet::Outlet;
use tiny_http_limits::counts::Counts;
use tiny_http_limits::limits::Limits;
pub use tiny_http_request::date::current_date;
use tiny_http_request::request::{Body, Request};
use tiny_http_socket::connection::{ConfigListenAddr, ListenAddr, Listener, SocketFiles};
use tiny_http_socket::cork::{CorkedWriter, FlushingReader};
use tiny_http_socket::refined_tcp_stream::RefinedTcpStream;
use tiny_http_socket::timed_reader::TimedReader;
use tiny_http_socket::timed_writer::TimedWriter;
use tiny_http_threads::messages_queue::MessagesQueue;
use tiny_http_threads::sequential::SequentialWriter;

// Initial capacity of the queue, in messages.
const QUEUE_ROOM: usize = 8;

/// The runtime of a server. It provides sockets, the files of Unix sockets, a clock, waiting and threads, and can be
/// copied and sent to threads. Any such runtime implements this trait. A server that threads share needs a runtime that
/// is also `Sync`.
pub trait ServerRuntime: Net<Listener = TcpListener, Stream = TcpStream>
    + SocketFiles
    + Clock
    + Wait
    + Threads
    + Copy
    + Send
    + 'static {}

impl<R> ServerRuntime for R
where
    R: Net<Listener = TcpListener, Stream = TcpStream>
        + SocketFiles
        + Clock
        + Wait
        + Threads
        + Copy
        + Send
        + 'static,
{}

/// The runtime of a program whose threads share a server: a `ServerRuntime` that is `Sync`. Any such runtime implements
/// this trait.
pub trait Host: ServerRuntime + Sync {}

impl<R: ServerRuntime + Sync> Host for R {}

/// The reader of a server's connection.
pub type ServerReader<R> = TimedReader<FlushingReader<RefinedTcpStream, TimedWriter<R>>, R>;

/// The writer of a server's connection.
pub type ServerWriter<R> = CorkedWriter<TimedWriter<R>, R>;

/// A request of a server's client.
pub type ServerRequest<R> = Request<ServerReader<R>, ServerWriter<R>, R>;

/// The body of a `ServerRequest`.
pub type ServerBody<R> = Body<ServerReader<R>, R>;

/// The result of `into_writer` on a `ServerRequest`: the connection's output, in the turn of the request.
pub type ServerOutput<R> = SequentialWriter<Outlet<ServerWriter<R>>, R>;

/// The result of `upgrade` on a `ServerRequest`.
pub type ServerStream<R> = CustomStream<ServerBody<R>, ServerOutput<R>>;

/// The result of stopping a server.
#[derive(Clone, Copy, Debug, PartialEq, Eq)]
pub enum Stopped {
    /// Every request that was handed out is answered, and every connection is closed.
    Answered,
    /// The time has run out, and some client is still connected.
    TimeOver,
}

/// An error in making a server.
#[derive(Debug, Drop, Error)]
pub enum ServerError {
    /// The server can't listen on the address, the host name isn't found, the text isn't an address, the socket has no
    /// address, or a thread or a descriptor for the server can't be created.
    #[error("{0}")]
    Io(io::Error),
    /// TLS was requested, which isn't implemented.
    #[error("Building a server with SSL requires enabling the `ssl` feature in tiny-http")]
    Ssl,
    /// Out of memory.
    #[error("out of memory")]
    Memory,
    /// The limits allow more connections than the process can open descriptors for.
    #[error("{connections} connections are allowed, but only {descriptors} descriptors: raise `ulimit -n`")]
    TooFewDescriptors {
        /// The maximum number of connections.
        connections: usize,
        /// The maximum number of descriptors of the process.
        descriptors: u64,
    },
}

impl From<io::Error> for ServerError {
    ghost use Rattle.tiny_http.specs.ServerError.{IsServerErrorOf};

    ghost from_gives = { IsServerErrorOf };

    /// Returns `Memory` for the kind `OutOfMemory`, and `Io` for any other kind.
    fn from(fault: io::Error) -> ServerError {
        if fault.kind() == ErrorKind::OutOfMemory {
            return ServerError::Memory;
        }
        ServerError::Io(fault)
    }
}

impl From<ServerError> for io::Error {
    ghost use Rattle.tiny_http.specs.ServerError.{IsFaultOf};

    ghost from_gives = { IsFaultOf };

    /// Returns the fault in `Io`, `InvalidInput` for `Ssl` and `TooFewDescriptors`, and `OutOfMemory` for `Memory`.
    fn from(error: ServerError) -> io::Error {
        match error {
            ServerError::Io(fault) => fault,
            ServerError::Ssl => ErrorKind::InvalidInput.into(),
            ServerError::Memory => ErrorKind::OutOfMemory.into(),
            ServerError::TooFewDescriptors { .. } => ErrorKind::InvalidInput.into(),
        }
    }
}

/// The settings of a server.
#[derive(Debug, Drop)]
pub struct ServerConfig {
    /// The address to listen on.
    pub addr: ConfigListenAddr,
    /// The TLS settings. TLS isn't implemented: with `Some`, no server is made. The error is `ServerError::Ssl`, unless
    /// listening on the address already fails.
    pub ssl: Option<SslConfig>,
}

/// TLS settings. A server refuses them, since TLS isn't implemented.
#[derive(Debug, Drop)]
pub struct SslConfig {
    /// The certificate to send to clients.
    pub certificate: Vec<u8>,
    /// The private key.
    pub private_key: Vec<u8>,
}

impl ServerConfig {
    ghost use Rattle.std.specs.Prelude.{IfOk};
    ghost use Rattle.tiny_http.specs.ServerConfig.{IsConfigCopy};

    /// Returns a copy. Fails if memory can't be allocated.
    pub fn try_clone(&self) -> Result<ServerConfig, AllocError>
        ensures { IfOk result (λ copy. IsConfigCopy self.now copy) }
    {
        let addr = self.addr.try_clone()?;
        let ssl = match &self.ssl {
            Some(ssl) => Some(ssl.try_clone()?),
            None => None,
        };
        Ok(ServerConfig { addr, ssl })
    }
}

impl SslConfig {
    ghost use Rattle.std.specs.Prelude.{IfOk};
    ghost use Rattle.tiny_http.specs.ServerConfig.{IsSslCopy};

    /// Returns a copy. Fails if memory can't be allocated.
    pub fn try_clone(&self) -> Result<SslConfig, AllocError>
        ensures { IfOk result (λ copy. IsSslCopy self.now copy) }
    {
        let certificate = self.certificate.as_slice();
        let private_key = self.private_key.as_slice();
        Ok(SslConfig {
            certificate: certificate.to_vec(*self.certificate.allocator())?,
            private_key: private_key.to_vec(*self.private_key.allocator())?,
        })
    }
}

/// A server. Threads may share it, and each may receive requests.
///
/// When it is dropped, it accepts no further client and removes the file of its Unix socket; the accepting thread ends
/// soon after. Requests that were handed out can still be answered. Any other request, queued or later, gets an empty
/// 500. The connection of a later request ends with that request; the connection of a queued request ends with its next
/// request, or when the client closes it. A client that waits for a call to `serve` is disconnected, and one that is
/// being accepted at that moment may be turned away.
///
/// The date of a request is taken once its head has arrived. If the request is dropped, its 500 has this date.
pub struct Server<R: Net + SocketFiles + Wait + Clock + Drop> {
    pub(crate) rt: R,
    pub(crate) queuing: Arc<Queuing<R>>,
    // Maximum number of workers of a call to `serve`, and of those that read requests for the queue.
    pub(crate) most_workers: usize,
    stop_handle: StopHandle<R>,
}

impl<R: ServerRuntime> Server<R> {
    /// Makes a server at the first of these addresses that can be bound, such as `"0.0.0.0:8000"`.
    ///
    /// Fails with `Io` if the text isn't an address, a host name isn't found, none of the addresses can be listened on,
    /// or a thread or a descriptor for the server can't be created, and with `Memory` if memory can't be allocated.
    /// Fails with `TooFewDescriptors` if the limits allow more than 1,000 connections, but not `usize::MAX`, and the
    /// process isn't allowed to open that many descriptors plus ten.
    pub fn bind<A: ToSocketAddrs>(
        rt: R,
        alloc: Global,
        addr: A,
        options: ServerOptions,
    ) -> Result<Server<R>, ServerError>
        ensures fails { IfErr result (FailsUnder options) }
    {
        let addr = ConfigListenAddr::from_socket_addrs(&rt, alloc, addr)?;
        Server::bound(rt, alloc, addr, None, options)
    }

    /// Makes a server on a Unix socket, whose file it creates at this path. Fails as `bind` does, and then removes the
    /// file if it created it.
    pub fn bind_unix(
        rt: R,
        alloc: Global,
        path: Path<'_>,
        options: ServerOptions,
    ) -> Result<Server<R>, ServerError>
        ensures fails { IfErr result (FailsUnder options) }
    {
        if options.removes_stale_file {
            remove_stale(&rt, path);
        }
        let path = PathBuf::from_str(alloc, path.path_text()).map_err(|_| ServerError::Memory)?;
        Server::bound(
            rt,
            alloc,
            ConfigListenAddr::unix_from_path(path),
            None,
            options,
        )
    }

    /// Makes a server over this listening socket, which has to be blocking: on a nonblocking socket, accepting ends
    /// with `WouldBlock`. The file of a Unix socket is removed when the server is stopped or dropped, but not if this
    /// call fails.
    ///
    /// Fails with `Io` if the socket has no address or a thread or a descriptor for the server can't be created, with
    /// `Memory` if memory can't be allocated, and with `TooFewDescriptors` as `bind` does.
    pub fn over_listener(
        rt: R,
        alloc: Global,
        listener: Listener,
        options: ServerOptions,
    ) -> Result<Server<R>, ServerError>
        ensures fails { IfErr result (FailsUnder options) }
    {
        if let Some(limits) = &options.limits
            && let Some(descriptors) = too_few_descriptors(limits.connections)
        {
            return Err(ServerError::TooFewDescriptors {
                connections: limits.connections,
                descriptors,
            });
        }
        let ServerOptions {
            profile,
            limits,
            ..
        } = options;
        Ok(Server::over(rt, alloc, profile, limits, listener)?)
    }

    /// Makes a server at the first of these addresses that can be bound. Heads are read under `Lenient`, and there are
    /// no limits. Fails as `bind` does.
    pub fn http<A: ToSocketAddrs>(rt: R, alloc: Global, addr: A) -> Result<Server<R>, ServerError> {
        Server::bind(rt, alloc, addr, ServerOptions::plain())
    }

    /// Makes a server as `http` does, but reads all request heads under this profile.
    pub fn http_with<A: ToSocketAddrs>(
        rt: R,
        alloc: Global,
        addr: A,
        profile: Profile,
    ) -> Result<Server<R>, ServerError> {
        Server::bind(
            rt,
            alloc,
            addr,
            ServerOptions::plain().with_profile(profile),
        )
    }

    /// Makes a server on a Unix socket, whose file it creates at this path. Fails as `new` does.
    pub fn http_unix(rt: R, alloc: Global, path: Path<'_>) -> Result<Server<R>, ServerError> {
        Server::bind_unix(rt, alloc, path, ServerOptions::plain())
    }

    /// Makes a server with these settings. Heads are read under `Lenient`, and there are no limits. Fails with `Io` if
    /// it can't listen on the address, and otherwise as `from_listener` does. If it fails after creating the file of a
    /// Unix socket, it removes that file.
    pub fn new(rt: R, alloc: Global, config: ServerConfig) -> Result<Server<R>, ServerError>
        ensures ssl { IsSome config.ssl → IsErr result }
        ensures refused { result ≡ Err ServerError.Ssl → IsSome config.ssl }
    {
        Server::new_with(rt, alloc, config, Profile::Lenient)
    }

    /// Makes a server as `new` does, but reads all request heads under this profile.
    pub fn new_with(
        rt: R,
        alloc: Global,
        config: ServerConfig,
        profile: Profile,
    ) -> Result<Server<R>, ServerError>
        ensures ssl { IsSome config.ssl → IsErr result }
        ensures refused { result ≡ Err ServerError.Ssl → IsSome config.ssl }
    {
        let options = ServerOptions::plain().with_profile(profile);
        Server::bound(rt, alloc, config.addr, config.ssl, options)
    }

    // Makes a server at this address, unless there are TLS settings.
    fn bound(
        rt: R,
        alloc: Global,
        addr: ConfigListenAddr,
        ssl: Option<SslConfig>,
        options: ServerOptions,
    ) -> Result<Server<R>, ServerError>
        ensures ssl { IsSome ssl → IsErr result }
        ensures refused { result ≡ Err ServerError.Ssl → IsSome ssl }
        ensures fails { ssl ≡ None → IfErr result (FailsUnder options) }
    {
        let listener = addr.bind(&rt)?;
        let made = Server::over_unless_ssl(rt, alloc, listener, ssl, options);
        if made.is_err()
            && let ConfigListenAddr::Unix(path) = &addr
        {
            let _ = rt.remove_socket(path.as_path());
        }
        made
    }

    /// Makes a server over this listening socket as `over_listener` does, without limits. Heads are read under
    /// `Lenient`. Fails with `Ssl` if there are TLS settings, and otherwise as `over_listener` does.
    pub fn from_listener(
        rt: R,
        alloc: Global,
        listener: Listener,
        ssl: Option<SslConfig>,
    ) -> Result<Server<R>, ServerError>
        ensures ssl { IsSome ssl → result ≡ Err ServerError.Ssl }
        ensures refused { result ≡ Err ServerError.Ssl → IsSome ssl }
    {
        Server::from_listener_with(rt, alloc, listener, ssl, Profile::Lenient)
    }

    /// Makes a server as `from_listener` does, but reads all request heads under this profile.
    pub fn from_listener_with(
        rt: R,
        alloc: Global,
        listener: Listener,
        ssl: Option<SslConfig>,
        profile: Profile,
    ) -> Result<Server<R>, ServerError>
        ensures ssl { IsSome ssl → result ≡ Err ServerError.Ssl }
        ensures refused { result ≡ Err ServerError.Ssl → IsSome ssl }
    {
        let options = ServerOptions::plain().with_profile(profile);
        Server::over_unless_ssl(rt, alloc, listener, ssl, options)
    }

    // Makes a server over this listening socket, unless there are TLS settings.
    fn over_unless_ssl(
        rt: R,
        alloc: Global,
        listener: Listener,
        ssl: Option<SslConfig>,
        options: ServerOptions,
    ) -> Result<Server<R>, ServerError>
        ensures ssl { IsSome ssl → result ≡ Err ServerError.Ssl }
        ensures refused { result ≡ Err ServerError.Ssl → IsSome ssl }
        ensures fails { ssl ≡ None → IfErr result (FailsUnder options) }
    {
        if ssl.is_some() {
            return Err(ServerError::Ssl);
        }
        Server::over_listener(rt, alloc, listener, options)
    }

    // Makes a server over this listening socket.
    fn over(
        rt: R,
        alloc: Global,
        profile: Profile,
        limits: Option<Limits>,
        listener: Listener,
    ) -> io::Result<Server<R>> {
        let listening_addr = listener.local_addr()?;
        let queuing = Queuing {
            messages: MessagesQueue::with_capacity(alloc, QUEUE_ROOM)?,
            ending: Arc::new(alloc, Ending::new())?,
            serving: AtomicBool::new(false),
        };
        let queuing = Arc::new(alloc, queuing)?;
        let registry = ConnectionRegistry::new(alloc, limits.as_ref())?;
        let most_workers = limits.as_ref().map_or(usize::MAX, |limits| limits.workers);
        let crew = Crew::start(rt, alloc, most_workers)?;
        let accepting = Accepting {
            rt,
            alloc,
            profile,
            limits,
            listener,
            queuing: Arc::try_clone(&queuing)?,
            registry: Arc::try_clone(&registry)?,
            crew: Arc::try_clone(&crew)?,
        };
        if thread::spawn(&rt, move || accepting.run()).is_err() {
            crew.close(&rt);
            return Err(ErrorKind::WouldBlock.into());
        }
        let stop_handle = StopHandle {
            rt,
            queuing: Arc::try_clone(&queuing)?,
            registry,
            listening_addr,
        };
        Ok(Server {
            rt,
            queuing,
            most_workers,
            stop_handle,
        })
    }
}

impl<R: Net + SocketFiles + Wait + Clock + Drop> Server<R> {
    /// Returns an `IncomingRequests`, which hands out the requests one after another.
    pub fn incoming_requests(&self) -> IncomingRequests<'_, R> {
        IncomingRequests { server: self }
    }

    /// Returns the address on which the server listens.
    pub fn server_addr(&self) -> ListenAddr {
        match self.stop_handle.listening_addr.clone() {
            Ok(addr) => addr,
            Err(_) => unreachable!(),
        }
    }

    /// Returns the number of accepted clients that are connected. A client counts until all its requests are answered
    /// and its connection is closed.
    pub fn num_connections(&self) -> usize {
        self.stop_handle.registry.count(&self.rt)
    }

    /// Returns the server's counts since it started.
    pub fn counts(&self) -> Counts {
        self.stop_handle.registry.counts(&self.rt)
    }

    /// Returns the number of failed attempts to accept a client after which the server continued. It continues only
    /// under limits.
    pub fn accept_faults(&self) -> u64 {
        self.stop_handle.registry.accept_faults(&self.rt)
    }

    /// Waits for a request. Fails with the error that ended accepting, which only one call reports, or with kind
    /// `Other` if `unblock` was called. Once accepting has ended, requests come only from clients that were accepted
    /// before.
    ///
    /// Once the server serves with a handler, `recv` returns only requests that were read before that, or that arrived
    /// together with such a request. If a client waits for the next call to `serve`, `recv` fails at once with kind
    /// `Other`, as if `unblock` had been called.
    ///
    /// Once the server has been stopped, each call fails with kind `Other`. A server with limits doesn't hand out a
    /// request if an earlier response on its connection broke off or ended the output: the response to the request
    /// would be lost.
    pub fn recv(&self) -> io::Result<ServerRequest<R>> {
        for _ in self.rt.forever() {
            let popped = self.queuing.messages.pop(&self.rt);
            match self.received(popped)? {
                Some(request) if request.is_lost() => drop(request),
                Some(request) => return Ok(request),
                None => break,
            }
        }
        Err(ErrorKind::Other.into())
    }

    /// Returns a request if one is available, without waiting, and `None` if `recv` would wait or fail with kind
    /// `Other`. Fails with the error that ended accepting, which only one call reports.
    pub fn try_recv(&self) -> io::Result<Option<ServerRequest<R>>> {
        for _ in self.rt.forever() {
            let popped = self.queuing.messages.try_pop(&self.rt);
            match self.received(popped)? {
                Some(request) if request.is_lost() => drop(request),
                received => return Ok(received),
            }
        }
        Ok(None)
    }

    // Converts the result of a pop to that of `try_recv`. Once the server has been stopped, returns `None`, and makes
    // another waiting call return, too.
    fn received(&self, popped: Option<Message<R>>) -> io::Result<Option<ServerRequest<R>>> {
        if self.has_stopped() {
            let _ = self.queuing.messages.unblock(&self.rt);
            return Ok(None);
        }
        Message::received(&self.queuing.messages, &self.rt, popped)
    }

    /// Returns a handle by which any thread can stop the server. Fails if no further handle can be made, or memory can't
    /// be allocated.
    pub fn stop_handle(&self) -> Result<StopHandle<R>, AllocError>
    where
        R: Copy,
    {
        self.stop_handle.try_clone()
    }

    /// Makes one call that waits for requests, such as `recv` or `serve`, return without one: a call that waits now, or
    /// a later one. Fails if memory can't be allocated.
    pub fn unblock(&self) -> Result<(), AllocError> {
        self.queuing.messages.unblock(&self.rt)
    }
}

impl<R: Net<Listener = TcpListener, Stream = TcpStream> + SocketFiles + Wait + Clock + Drop> Server<
    R,
> {
    /// Stops the server, from any thread. No further client is accepted, connections that wait for a head are closed,
    /// clients that wait for a call to `serve` are disconnected, and requests in the queue are dropped, so that they
    /// get a 500. The handler of `serve` still gets a request that is being read, unless it has a body or asks for an
    /// upgrade. A connection with an open request is closed after its last response, which says so under `Standard`
    /// unless that response had already begun.
    ///
    /// The call waits, for at most `time`, until every request that was handed out is answered and every connection is
    /// closed; then `serve` and each call that waits for a request return. A later call to `stop` waits again, for the
    /// connections that are left. If a handler makes this call, the call waits for that handler's own request, too, and
    /// so takes the whole time: a handler calls `StopHandle::stop`. The call takes longer than `time` if a client
    /// doesn't read a 500 that the call sends.
    pub fn stop(&self, time: Duration) -> Stopped {
        let begun = time_of(&self.rt);
        let handle = &self.stop_handle;
        let _ = handle.begin_stop();
        let is_empty = handle.registry.wait_until_empty(&self.rt, begun, time);
        handle.end_stop();
        if is_empty {
            return Stopped::Answered;
        }
        Stopped::TimeOver
    }
}

impl<R: Net + SocketFiles + Wait + Clock + Drop> Server<R> {
    /// Waits for a request for at most `timeout`, and returns `None` if none has arrived by then. A timeout of less
    /// than a millisecond counts as 0. In all other respects the call is like `try_recv`.
    pub fn recv_timeout(&self, timeout: Duration) -> io::Result<Option<ServerRequest<R>>> {
        let begun = time_of(&self.rt);
        let mut left = timeout;
        for _ in self.rt.forever() {
            let popped = self.queuing.messages.pop_timeout(&self.rt, left);
            match self.received(popped)? {
                Some(request) if request.is_lost() => drop(request),
                received => return Ok(received),
            }
            left = timeout.saturating_sub(time_of(&self.rt).saturating_sub(begun));
        }
        Ok(None)
    }
}

impl<R: Net + SocketFiles + Wait + Clock + Drop> Server<R> {
    // Returns whether a call to `stop` has finished its wait, or a `StopHandle` has stopped the server.
    pub(crate) fn has_stopped(&self) -> bool {
        self.queuing.ending.has_stopped()
    }
}

impl<R: Net + SocketFiles + Wait + Clock + Drop> Drop for Server<R> {
    /// Ends accepting (to wake the accepting thread, the server connects to itself once), removes the file of a Unix
    /// socket, and drops the requests and the clients in the queue.
    fn drop(self) {
        self.stop_handle.end_accepting();
        self.queuing.drop_waiting(&self.rt);
        let Server {
            rt: _,
            queuing: _,
            most_workers: _,
            stop_handle: _,
        } = self;
    }
}

// Removes the file at this path if it is a Unix socket on which no process listens.
fn remove_stale<R: Net<Listener = TcpListener, Stream = TcpStream> + SocketFiles>(
    rt: &R,
    path: Path<'_>,
) {
    if !rt.is_socket(path) {
        return;
    }
    if let Err(fault) = UnixStream::connect(rt, path)
        && fault.kind() == ErrorKind::ConnectionRefused
    {
        let _ = rt.remove_socket(path);
    }
}

/// The requests of a server.
#[derive(Drop)]
pub struct IncomingRequests<'a, R: Net + SocketFiles + Wait + Clock + Drop> {
    server: &'a Server<R>,
}

impl<R: Net + SocketFiles + Wait + Clock + Drop> IncomingRequests<'_, R> {
    /// Waits for the next request. Returns `None` if `recv` fails: once for the error that ended accepting, once for
    /// each `unblock`, each time while a client waits for a call to `serve`, and always once the server has been
    /// stopped. In the first two cases a later call waits again.
    pub fn next(&mut self) -> Option<ServerRequest<R>> {
        self.server.recv().ok()
    }
}
