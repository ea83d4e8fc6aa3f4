//! Serves the files of a folder: `example_files ADDRESS FOLDER`, as `Folder::answer` of `tiny_http_folder` describes.
#![tactic(auto)]

use std::io::{ErrorKind, Write};
use std::sync::Arc;
use std::{env, io};
use tiny_http::{Server, ServerOptions};
use tiny_http_folder::Folder;

fn main(rt: HostRuntime) -> io::Result<()> {
    let alloc = rt.alloc();
    let words: Vec<String> = env::args(&rt)?.collect(alloc)?;
    let [_, address, folder] = words.as_slice() else {
        return Err(ErrorKind::InvalidInput.into());
    };
    let folder = Folder::open(&rt, alloc, folder.as_str())?.with_listings();
    let server = Server::bind(rt, alloc, address.as_str(), ServerOptions::open_port())?;
    let mut out = rt.stdout();
    writeln!(out, "listening on {}", server.server_addr())?;
    out.flush()?;
    // `serve` rather than `serve_by`: a few slow clients would block a fixed number of threads.
    server.serve(alloc, &Arc::new(alloc, folder)?)
}
