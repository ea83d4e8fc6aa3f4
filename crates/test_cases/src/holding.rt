//! A connection, and the requests, raw writers and streams that the program holds.
use crate::shared::TrialSocket;
use httpdate::HttpDate;
use std::alloc::{AllocError, Global};
use std::io::Write;
use std::sync::{Arc, Wait};
use test_case_files::devices::Reader;
use tiny_http_core::custom_stream::CustomStream;
use tiny_http_core::outlet::Outlet;
use tiny_http_request::client::ClientConnection;
use tiny_http_request::request::{Body, Request};
use tiny_http_request::sequential::SequentialWriter;
use tiny_http_socket::cork::{Cork, CorkedWriter, FlushingReader};

/// The writer to which a connection's outlet writes.
pub(crate) type Below<R> = CorkedWriter<TrialSocket<R>, R>;

/// The reader from which a connection reads its input.
pub(crate) type Input<R> = FlushingReader<Reader, TrialSocket<R>>;

pub(crate) type Connected<R> = ClientConnection<Input<R>, Below<R>, R>;

/// A request of such a connection.
pub(crate) type Asked<R> = Request<Input<R>, Below<R>, R>;

/// A raw writer of such a connection.
pub(crate) type RawWriter<R> = SequentialWriter<Outlet<Below<R>>, R>;

/// The stream of an upgraded request.
pub(crate) type Stream<R> = CustomStream<Body<Input<R>, R>, RawWriter<R>>;

/// A value that is held under a request's number: the request, or the raw writer or stream that it became.
#[derive(Drop)]
pub(crate) enum Held<R: Wait + Copy> {
    Request(Asked<R>),
    Writer(RawWriter<R>),
    Stream(Stream<R>),
}

// A request, raw writer or stream that is held, its number, and whether it may have written bytes that have not been
// sent yet.
#[derive(Drop)]
struct Numbered<R: Wait + Copy> {
    number: u64,
    held: Held<R>,
    has_written: bool,
}

/// A connection, and what is held under the numbers of its requests.
#[derive(Drop)]
pub(crate) struct Holding<R: Wait + Copy> {
    client: Connected<R>,
    cork: Arc<Cork<TrialSocket<R>>>,
    items: Vec<Numbered<R>>,
}

impl<R: Wait + Copy> Holding<R> {
    /// Creates a `Holding` without requests. The reader and the writer of `client` share `cork`.
    pub(crate) fn new(
        alloc: Global,
        client: Connected<R>,
        cork: Arc<Cork<TrialSocket<R>>>,
    ) -> Holding<R> {
        Holding {
            client,
            cork,
            items: Vec::new(alloc),
        }
    }

    /// Returns the next request, or `None` if there is none. Also sends the responses that are held back, unless the
    /// response to this request may be sent together with them.
    pub(crate) fn next(&mut self, now: HttpDate) -> Result<Option<Asked<R>>, AllocError> {
        let next = self.client.next(now);
        self.cork.send_unless_leaving();
        next
    }

    /// Removes what is held under `number`. Returns it, and whether it may have written bytes that have not been sent
    /// yet, or returns `None` if nothing is held under that number.
    pub(crate) fn take(&mut self, number: u64) -> Option<(Held<R>, bool)> {
        let place = self.items.iter().position(|item| item.number == number)?;
        let Numbered {
            number: _,
            held,
            has_written,
        } = self.items.remove(place);
        Some((held, has_written))
    }

    /// Holds a request, raw writer or stream under `number`.
    pub(crate) fn put(
        &mut self,
        number: u64,
        held: Held<R>,
        has_written: bool,
    ) -> Result<(), AllocError> {
        let item = Numbered {
            number,
            held,
            has_written,
        };
        self.items.push(item).map_err(AllocError::from)
    }

    /// Sends what raw writers and streams have written, and the responses that are held back.
    pub(crate) fn send_held(&mut self) {
        for item in self.items.iter_mut() {
            if item.has_written {
                match &mut item.held {
                    Held::Request(_) => {}
                    Held::Writer(writer) => drop(writer.flush()),
                    Held::Stream(stream) => drop(stream.flush()),
                }
            }
        }
        self.cork.send();
    }
}
