//! The requests of one kind of connection (those of a server, or those over memory), and their outputs.
use crate::named::{Named, add_all, part_of};
use std::alloc::{AllocError, Global};
use std::sync::Wait;
use test_scene_files::scene::Line;
use tiny_http_io::custom_stream::CustomStream;
use tiny_http_io::device::{ReadDevice, WriteDevice};
use tiny_http_io::outlet::Outlet;
use tiny_http_request::request::{Body, Request, StreamedBody};
use tiny_http_threads::sequential::SequentialWriter;

/// An output of a request: its raw writer, its streaming response, or the stream of its upgraded connection.
#[derive(Drop)]
pub enum Output<D: ReadDevice + Drop, W: WriteDevice + Drop, R: Wait + Drop> {
    Raw(SequentialWriter<Outlet<W>, R>),
    Growing(StreamedBody<W, R>),
    Upgraded(CustomStream<Body<D, R>, SequentialWriter<Outlet<W>, R>>),
}

/// The requests of one kind of connection, and their outputs.
#[derive(Drop)]
pub struct Asked<D: ReadDevice + Drop, W: WriteDevice + Drop, R: Wait + Drop> {
    pub requests: Vec<Named<Request<D, W, R>>>,
    pub outputs: Vec<Named<Output<D, W, R>>>,
}

impl<D: ReadDevice + Drop, W: WriteDevice + Drop, R: Wait + Drop> Asked<D, W, R> {
    /// Creates a set without requests or outputs.
    pub fn none(alloc: Global) -> Asked<D, W, R> {
        Asked {
            requests: Vec::new(alloc),
            outputs: Vec::new(alloc),
        }
    }

    /// Takes out the requests and outputs that `lines` name.
    pub fn part(&mut self, alloc: Global, lines: &[Line]) -> Result<Asked<D, W, R>, AllocError> {
        Ok(Asked {
            requests: part_of(alloc, &mut self.requests, lines)?,
            outputs: part_of(alloc, &mut self.outputs, lines)?,
        })
    }

    /// Puts back the requests and outputs that are left in `part`.
    pub fn join(&mut self, part: Asked<D, W, R>) -> Result<(), AllocError> {
        let Asked { requests, outputs } = part;
        add_all(&mut self.requests, requests)?;
        add_all(&mut self.outputs, outputs)
    }

    /// Drops all requests and outputs.
    pub fn clear(&mut self) {
        self.requests.clear();
        self.outputs.clear();
    }
}
