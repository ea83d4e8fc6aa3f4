//! Accepting clients. The server's workers read their requests and put them into the server's queue. Once the server
//! serves with a handler, the clients themselves go into the queue, and `serve` takes them out.
ghost use Rattle.std.specs.Prelude.{◌≡◌};
ghost use Rattle.tiny_http.specs.Message.{received};

use crate::arrival::{Arrival, Client};
use crate::crew::{Crew, Progress, Task};
use crate::ending::Ending;
use crate::faults::passes;
use crate::registry::{ConnectionGuard, ConnectionHandle, ConnectionRegistry};
use crate::server::{ServerReader, ServerRequest, ServerWriter};
use crate::serving::Handler;
use std::alloc::Global;
use std::net::SocketAddr;
use std::sync::atomic::{AtomicBool, Ordering};
use std::sync::{Arc, Wait};
use std::time::Clock;
use std::{io, thread};
use tiny_http_core::framing::Profile;
use tiny_http_limits::backoff::Backoff;
use tiny_http_limits::limits::Limits;
use tiny_http_request::client::ClientConnection;
use tiny_http_socket::connection::{Connection, Listener};
use tiny_http_socket::cork::halves;
use tiny_http_socket::refined_tcp_stream::RefinedTcpStream;
use tiny_http_socket::shared_state::SharedState;
use tiny_http_socket::timed_reader::TimedReader;
use tiny_http_socket::timed_writer::TimedWriter;
use tiny_http_threads::messages_queue::MessagesQueue;

/// A message in a server's queue.
#[derive(Drop)]
pub(crate) enum Message<R: Wait + Clock + Drop> {
    /// The error that ended accepting.
    Error(io::Error),
    /// A request that was read.
    NewRequest(ServerRequest<R>),
    /// A client that is to be served.
    NewClient(Arrival<R>),
}

impl<R: Wait + Clock + Drop> Message<R> {
    /// Converts a queue message to a request or an error, or to `None` if the queue was empty or the pop found an
    /// unblock mark. If the message is a client that is to be served, the client goes back into the queue, and the
    /// result is `None`, too; if memory can't be allocated for that, the client is disconnected.
    pub fn received(
        messages: &Messages<R>,
        rt: &R,
        popped: Option<Message<R>>,
    ) -> io::Result<Option<ServerRequest<R>>>
        ensures { result ≡ received popped }
    {
        match popped {
            Some(Message::Error(fault)) => Err(fault),
            Some(Message::NewRequest(request)) => Ok(Some(request)),
            Some(Message::NewClient(arrival)) => {
                let _ = messages.push(rt, Message::NewClient(arrival));
                Ok(None)
            }
            None => Ok(None),
        }
    }
}

/// The queue of a server.
pub(crate) type Messages<R> = MessagesQueue<Message<R>>;

/// A server's queue, the stage of its shutdown, and whether it serves with a handler. The server shares these with the
/// threads that add to the queue.
#[derive(Drop)]
pub(crate) struct Queuing<R: Wait + Clock + Drop> {
    pub messages: Arc<Messages<R>>,
    pub ending: Arc<Ending>,
    // Set once the server serves with a handler.
    pub serving: AtomicBool,
}

impl<R: Wait + Clock + Drop> Queuing<R> {
    /// Empties the queue of a closed server. Once the server has been stopped, also leaves an unblock mark in the
    /// queue, so that each waiting call returns.
    pub fn drop_waiting(&self, rt: &R) {
        self.messages.clear(rt);
        if self.ending.has_stopped() {
            let _ = self.messages.unblock(rt);
        }
    }

    // Puts a message into the queue, or drops it if memory can't be allocated. Once the server has been closed, a
    // message might never be taken from the queue, so a thread that adds one then empties the queue.
    fn push(&self, rt: &R, message: Message<R>) {
        let _ = self.messages.push(rt, message);
        if self.ending.is_closed() {
            self.drop_waiting(rt);
        }
    }
}

impl<R: Wait + Clock + Drop> Handler<R, ServerRequest<R>> for Queuing<R> {
    /// Puts the request into the queue.
    fn handle(&self, rt: &R, _alloc: Global, request: ServerRequest<R>) -> io::Result<()> {
        self.push(rt, Message::NewRequest(request));
        Ok(())
    }
}

/// A client whose requests are put into the queue.
#[derive(Drop)]
pub(crate) struct Reading<R: Wait + Clock + Drop> {
    rt: R,
    alloc: Global,
    queuing: Arc<Queuing<R>>,
    // `None` once the client itself is in the queue.
    arrival: Option<Arrival<R>>,
}

impl<R: Wait + Clock + Copy> Task for Reading<R> {
    /// Puts the requests that have arrived into the queue. Once the connection has no further request and all are
    /// answered, closes it. If bytes of a head have arrived in time, and the server now serves with a handler and isn't
    /// closed, puts the client itself into the queue instead, to be served.
    fn run(&mut self, is_late: bool) -> Progress {
        let queuing = &*self.queuing;
        let may_move = !is_late
            && queuing.serving.load(Ordering::SeqCst)
            && !queuing.ending.is_closed();
        if may_move && let Some(arrival) = self.arrival.take_if(|arrival| arrival.has_come()) {
            // Another connection may soon get the same descriptor, but no new connection is added to this crew anymore,
            // so the crew can deregister the descriptor.
            let socket = arrival.socket();
            queuing.push(&self.rt, Message::NewClient(arrival));
            return Progress::Left(socket);
        }
        match &mut self.arrival {
            Some(arrival) => arrival.answer_by(self.alloc, queuing, is_late),
            None => Progress::Over,
        }
    }
}

/// The state of the accepting thread.
#[derive(Drop)]
pub(crate) struct Accepting<R: Wait + Clock + Drop> {
    pub rt: R,
    pub alloc: Global,
    pub profile: Profile,
    pub limits: Option<Limits>,
    pub listener: Listener,
    pub queuing: Arc<Queuing<R>>,
    pub registry: Arc<ConnectionRegistry>,
    pub crew: Arc<Crew<Reading<R>>>,
}

impl<R: Wait + Clock + Copy> Accepting<R> {
    /// Accepts clients until the server is closed or accepting fails. The error that ends accepting is put into the
    /// queue.
    pub fn run(self) {
        self.accept_all();
        self.queuing.ending.end_accepting();
        self.crew.close(&self.rt);
    }

    // Accepts clients, as `run` does. Under limits it waits at the connection limit, and after a temporary error.
    fn accept_all(&self) {
        let mut backoff = Backoff::new();
        for _ in self.rt.forever() {
            self.registry.wait_for_place(&self.rt, &self.queuing.ending);
            if self.queuing.ending.is_closed() {
                return;
            }
            let accepted = self.listener.accept();
            if self.queuing.ending.is_closed() {
                return;
            }
            match accepted {
                Ok((connection, remote_addr)) => {
                    backoff = Backoff::new();
                    self.begin(connection, remote_addr);
                }
                Err(fault) if self.limits.is_some() && passes(&fault) => {
                    self.registry.count_accept_fault(&self.rt);
                    thread::sleep(&self.rt, backoff.take());
                }
                Err(fault) => {
                    let _ = self.queuing.messages.push(&self.rt, Message::Error(fault));
                    return;
                }
            }
        }
    }

    // Has the workers read this client's requests, or, once the server serves with a handler, queues the client to be
    // served. If that fails, the client is closed.
    fn begin(&self, connection: Connection, remote_addr: Option<SocketAddr>) {
        let Some(client) = self.client(connection, remote_addr) else {
            return;
        };
        let (rt, alloc) = (self.rt, self.alloc);
        let mut arrival = Arrival::new(client);
        if self.queuing.serving.load(Ordering::SeqCst) {
            self.queuing.push(&rt, Message::NewClient(arrival));
            return;
        }
        let Ok(queuing) = Arc::try_clone(&self.queuing) else {
            return;
        };
        let (socket, until) = (arrival.socket(), arrival.begin());
        let reading = Reading {
            rt,
            alloc,
            queuing,
            arrival: Some(arrival),
        };
        self.crew.add(&rt, alloc, reading, Some(socket), until);
    }

    // Returns the client of this connection, or `None` if memory can't be allocated, a limit refuses the client, or the
    // server was closed. Sets TCP_NODELAY so that small responses are sent at once, and ignores a failure to set it.
    fn client(&self, connection: Connection, remote_addr: Option<SocketAddr>) -> Option<Client<R>> {
        let _ = connection.set_nodelay(true);
        let (rt, alloc) = (self.rt, self.alloc);
        let (reader, writer) = RefinedTcpStream::new(alloc, connection).ok()?;
        let socket = Arc::try_clone(reader.connection()).ok()?;
        let ending = Arc::try_clone(&self.queuing.ending).ok()?;
        let upgraded = Arc::try_clone(self.registry.upgraded()).ok()?;
        let shared = SharedState::new(alloc, self.limits, upgraded).ok()?;
        let secure = reader.secure();
        let (reader, writer) = self.timed_halves(reader, writer, &socket, &shared)?;
        let cork = Arc::try_clone(writer.cork()).ok()?;
        let profile = self.profile;
        let made = ClientConnection::over_with(
            rt,
            alloc,
            profile,
            writer,
            reader,
            remote_addr,
            secure,
        );
        let mut connection = made.ok()?;
        connection
            .set_shared_state(Arc::try_clone(&shared).ok()?)
            .ok()?;
        let guard = self.enter(remote_addr, &socket, &shared, connection.closed_flag())?;
        Some(Client {
            rt,
            ending,
            connection,
            cork,
            socket,
            shared,
            was_drained: false,
            guard,
        })
    }

    // Returns a timed reader and writer over the halves of this socket, or `None` if memory can't be allocated.
    fn timed_halves(
        &self,
        reader: RefinedTcpStream,
        writer: RefinedTcpStream,
        socket: &Arc<Connection>,
        shared: &Arc<SharedState>,
    ) -> Option<(ServerReader<R>, ServerWriter<R>)> {
        let (rt, alloc) = (self.rt, self.alloc);
        let writer = TimedWriter::new(rt, writer, Arc::try_clone(shared).ok()?);
        let (reader, writer) = halves(rt, alloc, reader, writer).ok()?;
        let socket = Arc::try_clone(socket).ok()?;
        let shared = Arc::try_clone(shared).ok()?;
        Some((TimedReader::new(rt, reader, socket, shared), writer))
    }

    // Counts a client with this address as connected. Returns `None` if a limit refuses the client, memory can't be
    // allocated, or the server has been closed.
    fn enter(
        &self,
        remote_addr: Option<SocketAddr>,
        socket: &Arc<Connection>,
        shared: &Arc<SharedState>,
        closed_flag: &Arc<AtomicBool>,
    ) -> Option<ConnectionGuard<R>> {
        let handle = ConnectionHandle {
            socket: Arc::try_clone(socket).ok()?,
            shared: Arc::try_clone(shared).ok()?,
            closed_flag: Arc::try_clone(closed_flag).ok()?,
        };
        let guard = ConnectionGuard::enter(self.rt, &self.registry, remote_addr, handle)?;
        if self.queuing.ending.is_closed() {
            return None;
        }
        Some(guard)
    }
}
