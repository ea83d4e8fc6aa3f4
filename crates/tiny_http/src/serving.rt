//! Serving with a handler. With `serve`, a worker takes a connection once a request has arrived, and responds itself,
//! without handing the request to another thread; consecutive responses leave together. A connection that waits takes
//! no worker. With `serve_by`, a fixed number of threads receive the requests of all connections.
use crate::accepting::Message;
use crate::arrival::Arrival;
use crate::crew::{Crew, Progress, Task};
use crate::server::{Host, Server, ServerRequest, ServerRuntime};
use std::alloc::Global;
use std::io::ErrorKind;
use std::sync::atomic::{AtomicUsize, Ordering};
use std::sync::{Arc, Wait};
use std::time::Clock;
use std::{io, thread};

/// A handler of requests. `Q` is `ServerRequest<R>`, or any other `Request`, such as one that a test makes. Its parts
/// may take any `AnyRequest`. Many threads may call the handler at once. (The request type is a parameter because no
/// proof can be generated for an implementation of a trait that names `ServerRequest` directly.)
pub trait Handler<R, Q> {
    /// Responds to a request. If the request is dropped without a response, for example because this call fails, it
    /// gets an empty 500. The error goes to `on_error`.
    ///
    /// Under `serve_by` the call may wait for the request's turn, as a program that calls `recv` and `respond` does.
    /// The rest of this comment is about `serve`.
    ///
    /// The call may keep the request and respond later, from any thread. The next request is handed out in the
    /// meantime, once the body of the kept request has been read or given up; under `Standard`, if the kept request
    /// asks for an upgrade, the next one is handed out only after the response. When the handler responds to that next
    /// request, its call waits until the kept request has been answered, and no further request of the connection is
    /// handed out until then.
    ///
    /// What this call writes, up to 16,384 bytes, may be held until it has returned, and so may responses to earlier
    /// requests of the connection. If a handler does more after its response, if the response's data arrives slowly, or
    /// if the handler waits for something else from this client, it should hand the request to another thread and
    /// return, or flush: `StreamedBody::flush` and that of a raw writer send at once.
    fn handle(&self, rt: &R, alloc: Global, request: Q) -> io::Result<()>;

    /// Is called with the error of each `handle` that fails, on the same worker. Drops the error, unless the handler
    /// does otherwise, such as printing it. What was asked isn't known here: a handler logs that in `handle`.
    /// A handler that is generic writes this call, since no proof is found for the default then.
    fn on_error(&self, _rt: &R, _alloc: Global, _error: io::Error) {}
}

/// Calls the handler with this request, and then, if that fails, `on_error`.
pub(crate) fn handle_by<R, Q, H: Handler<R, Q>>(handler: &H, rt: &R, alloc: Global, request: Q) {
    if let Err(error) = handler.handle(rt, alloc, request) {
        handler.on_error(rt, alloc, error);
    }
}

// The task of a worker.
#[derive(Drop)]
enum Work<R: Wait + Clock + Drop> {
    // Responds to the requests of a client as they arrive, then closes its connection.
    Client(Arrival<R>),
    // Responds to a request that was queued before the server began to serve. `None` once the request has been taken.
    Request(R, Option<ServerRequest<R>>),
}

// The task of a worker, with the allocator and the handler for it.
#[derive(Drop)]
struct Service<H, R: Wait + Clock + Drop> {
    alloc: Global,
    handler: Arc<H>,
    work: Work<R>,
}

impl<H: Handler<R, ServerRequest<R>> + Drop, R: Wait + Clock + Copy> Task for Service<H, R> {
    /// Carries out the task, as far as that is possible without waiting for the client's next head.
    fn run(&mut self, is_late: bool) -> Progress {
        let handler = &*self.handler;
        match &mut self.work {
            Work::Client(arrival) => arrival.answer_by(self.alloc, handler, is_late),
            Work::Request(rt, request) => {
                if let Some(request) = request.take()
                    && !request.is_lost()
                {
                    handle_by(handler, rt, self.alloc, request);
                }
                Progress::Over
            }
        }
    }
}

impl<R: ServerRuntime> Server<R> {
    /// Serves with this handler until `unblock` is called, the server has been stopped, or accepting ends with an
    /// error, which is returned. Also fails if memory, descriptors or threads for its workers can't be obtained. A
    /// later client for which memory can't be allocated or a system call fails is disconnected.
    ///
    /// A client takes a worker once the head of its next request, along with any body that is read together with the
    /// head, has arrived in full, or the time allowed for it has run out. The worker hands the client's requests to the
    /// handler one after another, until no further request has arrived. A client that is idle, sends a head in pieces,
    /// or is being disconnected takes no worker; one that is upgraded, whose kept request reads the input, or whose
    /// last responses are awaited takes one.
    ///
    /// There are four workers, or `Limits::workers` if that is less, and more while all are busy: up to
    /// `Limits::workers`, or any number without limits. Workers also hand the handler the requests that were queued
    /// before this call.
    ///
    /// Each connection holds its responses in a buffer of 16,384 bytes, so a fault of the socket may be reported by a
    /// later response. What is held is sent before the connection is read; when more is written than there is room for;
    /// when a request has to wait for another one, has a body that is read from the connection, or asks for an upgrade
    /// under `Standard`; and at the end. A flush of a raw writer, an upgraded stream or a streamed body sends it, too,
    /// and so does a 100.
    ///
    /// Once the first workers are running, the server serves with a handler for good: clients that arrive after this
    /// call has returned wait for the next call. Clients that arrived before are served until the connection or the
    /// server ends.
    ///
    /// A client that doesn't read its responses blocks its worker once the socket accepts no more bytes, and its
    /// further requests aren't read then: a client that sends many requests has to read responses at the same time.
    pub fn serve<H: Handler<R, ServerRequest<R>> + Send + Sync + Drop + 'static>(
        &self,
        alloc: Global,
        handler: &Arc<H>,
    ) -> io::Result<()> {
        let rt = self.rt;
        let crew = Crew::start(rt, alloc, self.most_workers)?;
        self.queuing.serving.store(true, Ordering::SeqCst);
        let ended = self.serve_by_crew(alloc, handler, &crew);
        crew.close(&rt);
        ended
    }

    // Hands the crew one client or queued request after another, until `unblock` is called, the server has been
    // stopped, or accepting ends with an error, which is returned.
    fn serve_by_crew<H: Handler<R, ServerRequest<R>> + Send + Sync + Drop + 'static>(
        &self,
        alloc: Global,
        handler: &Arc<H>,
        crew: &Crew<Service<H, R>>,
    ) -> io::Result<()> {
        let rt = self.rt;
        for _ in rt.forever() {
            let (work, socket, until) = match self.queuing.messages.pop(&rt) {
                Some(Message::NewClient(mut arrival)) => {
                    arrival.hold_responses();
                    let (socket, until) = (arrival.socket(), arrival.begin());
                    (Work::Client(arrival), Some(socket), until)
                }
                Some(Message::NewRequest(request)) => {
                    (Work::Request(rt, Some(request)), None, None)
                }
                Some(Message::Error(fault)) => return Err(fault),
                None => {
                    if self.has_stopped() {
                        let _ = self.queuing.messages.unblock(&rt);
                    }
                    return Ok(());
                }
            };
            let service = Service {
                alloc,
                handler: Arc::try_clone(handler)?,
                work,
            };
            crew.add(&rt, alloc, service, socket, until);
        }
        Ok(())
    }
}

impl<R: Host> Server<R> {
    /// Responds with this handler on `threads` threads, or on fewer if some can't be created. Each receives one request
    /// after another, until `unblock` is called once, the server has been stopped, or accepting ends with an error,
    /// which is returned. The call returns when all threads have ended, each after its last response. It also fails if
    /// memory can't be allocated; the threads that were started have ended by then. It returns at once, as `recv` does,
    /// if `serve` was called earlier and a client waits for the next call to `serve`.
    ///
    /// This is the loop over `recv` that a program would write. Each response is sent when the handler makes it, and a
    /// request may be kept and answered later. With 0 threads the call returns at
    /// once, and nothing is answered.
    ///
    /// A thread waits for the turn of its response, for a client that accepts no more bytes, and for bytes of a body.
    /// So one client that sends as many requests as there are threads, and reads slowly, blocks them all: under limits
    /// (`ServerOptions`) for as long as `write_time` and `least_rate` allow for the response, and without limits
    /// possibly forever. With `serve` a client blocks only its own worker, and a request takes fewer instructions. So
    /// this call is for short responses to trusted clients.
    pub fn serve_by<H: Handler<R, ServerRequest<R>> + Sync>(
        &self,
        alloc: Global,
        threads: usize,
        handler: &H,
    ) -> io::Result<()> {
        let running = AtomicUsize::new(threads);
        let ended = thread::map_indices(
            &self.rt,
            alloc,
            threads,
            &|_| self.answer_on(alloc, handler, &running),
        )?;
        for end in ended {
            end?;
        }
        Ok(())
    }

    // Responds to requests as `answer_until_unblocked` does, and then unblocks another thread if one is still running.
    fn answer_on<H: Handler<R, ServerRequest<R>>>(
        &self,
        alloc: Global,
        handler: &H,
        running: &AtomicUsize,
    ) -> io::Result<()> {
        let ended = self.answer_until_unblocked(alloc, handler);
        if running.fetch_sub(1, Ordering::SeqCst) > 1 {
            let _ = self.unblock();
        }
        ended
    }

    // Responds to requests until `recv` fails with kind `Other`. Fails with the error that ended accepting.
    fn answer_until_unblocked<H: Handler<R, ServerRequest<R>>>(
        &self,
        alloc: Global,
        handler: &H,
    ) -> io::Result<()> {
        for _ in self.rt.forever() {
            match self.recv() {
                Ok(request) => handle_by(handler, &self.rt, alloc, request),
                Err(fault) if fault.kind() == ErrorKind::Other => break,
                Err(fault) => return Err(fault),
            }
        }
        Ok(())
    }
}
