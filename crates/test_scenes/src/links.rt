//! Creates links to the files of Unix sockets.
use std::path::Path;
use std::rt::Files;
use std::{fs, io};
use tiny_http::server;

/// A runtime that can create links. A bound of `Files` instead would prevent threads from sharing a server.
pub(crate) trait Links {
    /// Creates a hard link to a file. Returns the system's error if it can't.
    fn hard_link(&self, original: Path<'_>, link: Path<'_>) -> io::Result<()>;

    /// Creates a symbolic link to a path. Returns the system's error if it can't.
    fn symlink(&self, original: Path<'_>, link: Path<'_>) -> io::Result<()>;
}

impl<R: Files> Links for R {
    fn hard_link(&self, original: Path<'_>, link: Path<'_>) -> io::Result<()> {
        fs::hard_link(self, original, link)
    }

    fn symlink(&self, original: Path<'_>, link: Path<'_>) -> io::Result<()> {
        std::os::unix::fs::symlink(self, original, link)
    }
}

/// The runtime that playing a scene requires.
pub(crate) trait Host: server::Host + Links {}

impl<R: server::Host + Links> Host for R {}
