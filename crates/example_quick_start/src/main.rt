//! Answers each request with its path: `example_quick_start ADDRESS`.
#![tactic(auto)]

#[cfg(test)]
mod tests;

use std::alloc::Global;
use std::io::ErrorKind;
use std::sync::Arc;
use std::{env, io};
use tiny_http::device::{ReadDevice, WriteDevice};
use tiny_http::{AnyRequest, Handler, Host, Request, Response, Server, ServerOptions};

/// A handler that answers a request with its path. The request may come from a server or a test.
#[derive(Drop)]
struct ByPath;

impl<R: ReadDevice + Drop, W: WriteDevice + Drop, Rt: Host> Handler<Rt, Request<R, W, Rt>>
    for ByPath {
    /// Sends the path as the response's body.
    fn handle(&self, _rt: &Rt, alloc: Global, request: Request<R, W, Rt>) -> io::Result<()> {
        let path = String::from_str(alloc, request.path())?;
        request.reply(Response::from_string(alloc, path)?)
    }

    /// Drops the error.
    fn on_error(&self, _rt: &Rt, _alloc: Global, _error: io::Error) {}
}

fn main(rt: HostRuntime) -> io::Result<()> {
    let words: Vec<String> = env::args(&rt)?.collect(rt.alloc())?;
    let [_, address] = words.as_slice() else {
        return Err(ErrorKind::InvalidInput.into());
    };
    let server = Server::bind(rt, rt.alloc(), address.as_str(), ServerOptions::open_port())?;
    server.serve(rt.alloc(), &Arc::new(rt.alloc(), ByPath)?)
}
