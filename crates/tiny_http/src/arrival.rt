//! The clients of a server, whose requests are handed to a handler one after another.
use crate::closing::Draining;
use crate::crew::Progress;
use crate::ending::Ending;
use crate::registry::{ConnectionGuard, time_of};
use crate::server::{ServerReader, ServerRequest, ServerWriter, current_date};
use crate::serving::{Handler, handle_by};
use std::alloc::Global;
use std::mem;
use std::os::fd::{AsRawFd, RawFd};
use std::sync::atomic::Ordering;
use std::sync::{Arc, Wait};
use std::time::{Clock, Duration};
use tiny_http_limits::counts::Closing;
use tiny_http_request::client::{ClientConnection, Readiness};
use tiny_http_socket::connection::Connection;
use tiny_http_socket::cork::Cork;
use tiny_http_socket::shared_state::SharedState;
use tiny_http_socket::timed_writer::TimedWriter;

/// An accepted client. When it is dropped, its connection is closed as soon as no request that is still held uses the
/// connection.
#[derive(Drop)]
pub(crate) struct Client<R: Wait + Clock + Drop> {
    pub rt: R,
    pub ending: Arc<Ending>,
    pub connection: ClientConnection<ServerReader<R>, ServerWriter<R>, R>,
    /// Shared by the two halves of the connection.
    pub cork: Arc<Cork<TimedWriter<R>>>,
    /// Used to close the connection, and to learn when the client has sent something.
    pub socket: Arc<Connection>,
    /// The connection's limits and what it waits for, which its threads share.
    pub shared: Arc<SharedState>,
    /// Whether nothing that the client has sent was left in the socket when the last head was read.
    pub was_drained: bool,
    /// Counts the client as connected until it is dropped.
    pub guard: ConnectionGuard<R>,
}

impl<R: Wait + Clock + Copy> Client<R> {
    // Sends the held responses, and waits until all the client's requests are answered. Returns false if memory can't
    // be allocated.
    fn is_answered(&mut self) -> bool {
        self.cork.send();
        self.connection.wait_for_answers().is_ok()
    }

    // Returns whether the connection has limits.
    fn has_limits(&self) -> bool {
        self.shared.limits().is_some()
    }

    // Hands the next request to a handler. Returns false if there is none, or if the server was dropped, in which case
    // the request is dropped, too. If the server is being stopped, the request is the last, and is dropped if it may
    // read from the connection, whose read half the stop may have shut down.
    fn answer_next<H: Handler<R, ServerRequest<R>>>(&mut self, alloc: Global, handler: &H) -> bool {
        let rt = self.rt;
        let now = current_date(&rt);
        self.was_drained = self.connection.is_drained();
        let Ok(Some(request)) = self.connection.next(now) else {
            return false;
        };
        if self.ending.is_closed() {
            if !self.ending.is_stopping() {
                return false;
            }
            self.connection.closed_flag().store(true, Ordering::SeqCst);
            if may_read(&request) {
                return false;
            }
        }
        self.cork.send_unless_leaving();
        handle_by(handler, &rt, alloc, request);
        true
    }

    // Hands the next request to a handler, and further ones while their whole heads have arrived. Returns how much of
    // the head after them has arrived, or `None` if there is no further request.
    fn answer_ready<H: Handler<R, ServerRequest<R>>>(
        &mut self,
        alloc: Global,
        handler: &H,
    ) -> Option<Readiness> {
        let rt = self.rt;
        for _ in rt.forever() {
            if !self.answer_next(alloc, handler) {
                return None;
            }
            let readiness = self.readiness();
            if readiness != Readiness::Ready {
                return Some(readiness);
            }
        }
        None
    }

    // Returns how much of the next head has arrived, once the last request's body has been read or given up. Reads
    // ahead if more may have arrived.
    fn readiness(&mut self) -> Readiness {
        self.connection.wait_for_input();
        let readiness = self.connection.readiness();
        if readiness == Readiness::Ready || self.connection.is_drained() {
            return readiness;
        }
        self.connection.read_ahead()
    }

    // Frees the connection's buffers. Its next read and write allocate them again.
    fn free_buffers(&mut self) {
        self.cork.release();
        self.connection.release_ahead();
    }
}

// Returns whether a request may read from its connection: its head announces a body, or it asks for an upgrade.
fn may_read<R: Wait + Clock + Drop>(request: &ServerRequest<R>) -> bool {
    request.body_length().is_some_and(|length| length > 0)
        || request.header("Transfer-Encoding").is_some()
        || request.is_upgrade()
}

// How long a connection that waits keeps its buffers, in milliseconds.
const BUFFERS_MILLIS: u64 = 1_000;

// A wait for the first byte of a head.
#[derive(Clone, Copy)]
struct Idle {
    // When the wait is over.
    ends: Duration,
    // Whether a request was open when the wait began.
    had_open: bool,
    has_buffers: bool,
}

impl Idle {
    // Returns a wait that never ends.
    fn new() -> Idle {
        Idle {
            ends: Duration::MAX,
            had_open: false,
            has_buffers: true,
        }
    }
}

// The stage of a client's connection.
#[derive(Drop)]
enum Stage {
    // The next head hasn't begun.
    Idle(Idle),
    // The next head has begun, at this time.
    Head(Duration),
    // The connection is being closed.
    Draining(Draining),
}

/// A client whose requests are to be handed to a handler.
#[derive(Drop)]
pub(crate) struct Arrival<R: Wait + Clock + Drop> {
    client: Client<R>,
    stage: Stage,
}

impl<R: Wait + Clock + Copy> Arrival<R> {
    /// Wraps a client whose next head hasn't begun.
    pub fn new(client: Client<R>) -> Arrival<R> {
        Arrival {
            client,
            stage: Stage::Idle(Idle::new()),
        }
    }

    /// Returns the descriptor of the client's socket.
    pub fn socket(&self) -> RawFd {
        self.client.socket.as_raw_fd()
    }

    /// Allows responses to be held, so that several are sent together, unless no further handle to the policy can be
    /// made.
    pub fn hold_responses(&mut self) {
        if let Ok(flush_policy) = Arc::try_clone(self.client.cork.flush_policy()) {
            self.client.connection.set_flush_policy(flush_policy);
        }
    }

    /// Begins or continues the wait for the client's next head. Returns the time until which the client may be silent,
    /// or `None` if it is to be served at once.
    pub fn begin(&mut self) -> Option<Duration> {
        let readiness = self.client.connection.readiness();
        if readiness == Readiness::Ready {
            return None;
        }
        match self.wait(readiness) {
            Progress::Waits(until) => Some(until),
            Progress::Over | Progress::Left(_) => None,
        }
    }

    /// Reads ahead what the client has sent, and returns whether bytes of a head have arrived. Returns false once the
    /// connection is being closed.
    pub fn has_come(&mut self) -> bool {
        if matches!(self.stage, Stage::Draining(_)) {
            return false;
        }
        let _ = self.client.connection.read_ahead();
        self.client.connection.readiness() != Readiness::Idle
    }

    /// Hands the client's requests to a handler as long as more have arrived, and then waits for the next one. After
    /// the last one, waits until all are answered, and closes the connection. `is_late` means that the wait ended
    /// without an event. Once the server has been dropped, the next request is dropped, and none follows it.
    pub fn answer_by<H: Handler<R, ServerRequest<R>>>(
        &mut self,
        alloc: Global,
        handler: &H,
        is_late: bool,
    ) -> Progress {
        match mem::replace(&mut self.stage, Stage::Idle(Idle::new())) {
            Stage::Draining(draining) => self.drain(draining, is_late),
            Stage::Idle(idle) if is_late => self.end_idle(idle),
            Stage::Head(_) if is_late => {
                self.client.shared.expire_head();
                let readiness = self.client.answer_ready(alloc, handler);
                self.go_on(readiness)
            }
            Stage::Head(begun) => {
                self.stage = Stage::Head(begun);
                self.answer_more(alloc, handler)
            }
            Stage::Idle(_) => self.answer_more(alloc, handler),
        }
    }

    // Reads ahead what the client has sent, and hands the requests whose heads are complete to a handler.
    fn answer_more<H: Handler<R, ServerRequest<R>>>(
        &mut self,
        alloc: Global,
        handler: &H,
    ) -> Progress {
        let readiness = self.client.connection.read_ahead();
        self.answer_from(alloc, handler, readiness)
    }

    // Hands requests to a handler if the next head is ready, and otherwise waits for the rest of it.
    fn answer_from<H: Handler<R, ServerRequest<R>>>(
        &mut self,
        alloc: Global,
        handler: &H,
        readiness: Readiness,
    ) -> Progress {
        if readiness != Readiness::Ready {
            return self.wait(readiness);
        }
        let readiness = self.client.answer_ready(alloc, handler);
        self.stage = Stage::Idle(Idle::new());
        self.go_on(readiness)
    }

    // Waits for the next head, of which `readiness` says how much has arrived, or closes the connection if there is no
    // further request.
    fn go_on(&mut self, readiness: Option<Readiness>) -> Progress {
        match readiness {
            Some(readiness) => self.wait(readiness),
            None => self.close(),
        }
    }

    // Sends the held responses, and waits for the rest of the next head, of which `readiness` says how much has
    // arrived. Closes the connection instead if it was stopped.
    fn wait(&mut self, readiness: Readiness) -> Progress {
        self.client.cork.send();
        let has_begun = readiness == Readiness::Part;
        if !self.client.shared.begin_head(has_begun) {
            return self.close();
        }
        let now = time_of(&self.client.rt);
        if has_begun {
            self.wait_for_rest(now)
        } else {
            self.wait_for_first(now)
        }
    }

    // Waits for the rest of a head that has begun.
    fn wait_for_rest(&mut self, now: Duration) -> Progress {
        let begun = match &self.stage {
            Stage::Head(begun) => *begun,
            _ => now,
        };
        self.stage = Stage::Head(begun);
        match self.client.shared.limits() {
            Some(limits) => Progress::Waits(begun.saturating_add(limits.head_time)),
            None => Progress::Waits(Duration::MAX),
        }
    }

    // Waits for the first byte of a head: first for a short time with buffers, then without them.
    fn wait_for_first(&mut self, now: Duration) -> Progress {
        let ends = match self.client.shared.limits() {
            Some(limits) => now.saturating_add(limits.idle_time),
            None => Duration::MAX,
        };
        self.stage = Stage::Idle(Idle {
            ends,
            had_open: self.client.shared.has_open(),
            has_buffers: true,
        });
        let short = Duration::from_millis(BUFFERS_MILLIS);
        Progress::Waits(ends.min(now.saturating_add(short)))
    }

    // Continues a wait for the first byte of a head, now without buffers, or closes the connection if the time for it
    // has run out. If a request was open when the wait began, the time starts over instead.
    fn end_idle(&mut self, idle: Idle) -> Progress {
        if idle.has_buffers {
            self.client.free_buffers();
        }
        if time_of(&self.client.rt) < idle.ends {
            self.stage = Stage::Idle(Idle {
                has_buffers: false,
                ..idle
            });
            return Progress::Waits(idle.ends);
        }
        if idle.had_open {
            return self.wait(Readiness::Idle);
        }
        self.client.shared.closed_by(Closing::Idle);
        self.close()
    }

    // Waits until all requests are answered, and begins to close the connection. Discards nothing yet if nothing was
    // left in the socket.
    fn close(&mut self) -> Progress {
        if !self.client.is_answered() {
            return Progress::Over;
        }
        let (rt, has_limits) = (self.client.rt, self.client.has_limits());
        let Some(draining) = Draining::begin(&rt, &self.client.socket) else {
            return Progress::Over;
        };
        if !self.client.was_drained {
            return self.drain(draining, false);
        }
        let until = draining.silent_until(&rt, has_limits);
        self.stage = Stage::Draining(draining);
        until.map_or(Progress::Over, Progress::Waits)
    }

    // Discards what the client has sent while the connection is being closed. `is_late` means that the client was
    // silent for the time it was given: nothing is discarded then, and the connection is over.
    fn drain(&mut self, mut draining: Draining, is_late: bool) -> Progress {
        if is_late {
            return Progress::Over;
        }
        let (rt, has_limits) = (self.client.rt, self.client.has_limits());
        match draining.discard(&rt, &self.client.socket, has_limits) {
            Some(until) => {
                self.stage = Stage::Draining(draining);
                Progress::Waits(until)
            }
            None => Progress::Over,
        }
    }
}
