//! The objects that the steps of a scene or of one of its threads act on, by name: the server, its requests, and the
//! props.
use crate::handler::ByPath;
use std::alloc::{AllocError, Global};
use std::net::Net;
use std::os::fd::OwnedFd;
use std::sync::{Arc, Wait};
use std::time::Clock;
use test_scene_files::mishap::Mishap;
use test_scene_files::scene::{Line, Way};
use test_scene_props::asked::Asked;
use test_scene_props::named::is_named;
use test_scene_props::props::Props;
use tiny_http::connection::{ListenAddr, SocketFiles};
use tiny_http::server::{Server, ServerReader, ServerWriter};

/// The server's requests and their outputs.
pub(crate) type Served<R> = Asked<ServerReader<R>, ServerWriter<R>, R>;

/// The objects that the steps of a scene or of one of its threads act on.
#[derive(Drop)]
pub(crate) struct Hands<R: Net + SocketFiles + Wait + Clock + Drop> {
    pub server: Option<Arc<Server<R>>>,
    pub addr: Option<ListenAddr>,
    pub handler: Arc<ByPath<R>>,
    pub way: Way,
    pub served: Served<R>,
    /// The objects apart from the server and its requests.
    pub props: Props<R>,
    /// File descriptors that are held so that the process has few left.
    pub taken: Vec<OwnedFd>,
}

impl<R: Net + SocketFiles + Wait + Clock + Drop> Hands<R> {
    /// Creates hands with a handler and props, and without a server.
    pub(crate) fn new(
        alloc: Global,
        (handler, way): (Arc<ByPath<R>>, Way),
        props: Props<R>,
    ) -> Hands<R> {
        Hands {
            server: None,
            addr: None,
            handler,
            way,
            served: Asked::none(alloc),
            props,
            taken: Vec::new(alloc),
        }
    }

    /// Returns the server. Fails if there is none.
    pub(crate) fn server(&self) -> Result<&Server<R>, Mishap> {
        match &self.server {
            Some(server) => Ok(server),
            None => Err(Mishap::Unplayable("there is no server")),
        }
    }

    /// Returns the server's address, even after the server is dropped. Fails if there was no server.
    pub(crate) fn addr(&self) -> Result<&ListenAddr, Mishap> {
        match &self.addr {
            Some(addr) => Ok(addr),
            None => Err(Mishap::Unplayable("there is no server")),
        }
    }

    /// Takes out what `lines` need: the requests, outputs and props that they name. The result also has a handle to the
    /// handler, a copy of the server's address and, if the lines name the server, a handle to it.
    pub(crate) fn part(&mut self, alloc: Global, lines: &[Line]) -> Result<Hands<R>, AllocError> {
        let props = self.props.part(alloc, lines)?;
        let handler = Arc::try_clone(&self.handler)?;
        let mut theirs = Hands::new(alloc, (handler, self.way), props);
        if let Some(server) = &self.server
            && is_named(lines, "server")
        {
            theirs.server = Some(Arc::try_clone(server)?);
        }
        if let Some(addr) = &self.addr {
            theirs.addr = addr.clone().ok();
        }
        theirs.served = self.served.part(alloc, lines)?;
        Ok(theirs)
    }

    /// Puts back the requests, outputs and props that are left in `part`.
    pub(crate) fn join(&mut self, part: Hands<R>) -> Result<(), AllocError> {
        let Hands { served, props, .. } = part;
        self.served.join(served)?;
        self.props.join(props)
    }
}
