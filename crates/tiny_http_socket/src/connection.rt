//! TCP and Unix sockets as one type, and their addresses.
ghost use Rattle.std.specs.Prelude.{◌≡◌, ◌≤◌, ◌++◌, length, IfOk};
ghost use Rattle.tiny_http_socket.specs.Connection.{IsBoundAs, HasAddressOf, IsAcceptedBy, HasPeerOf, IsSameKind};
ghost use Rattle.tiny_http_socket.specs.Connection.{IsCopyOf, ip_of, unix_of};

use std::alloc::{AllocError, Global};
use std::io::{ErrorKind, IoSlice, Read, Write};
use std::net::{Net, Shutdown, SocketAddr, TcpListener, TcpStream, ToSocketAddrs};
use std::os::fd::{AsRawFd, RawFd};
use std::os::unix::fs::FileTypeExt;
use std::os::unix::net as unix_net;
use std::path::{Path, PathBuf};
use std::rt::Files;
use std::time::Duration;
use std::{fmt, fs, io};

/// The file-system operations that a server needs for Unix sockets. Any runtime with files and sockets implements this
/// trait. Unlike a `Files` bound, the trait lets generic code share a server among threads.
pub trait SocketFiles {
    /// Listens on this path, where it creates a file. Fails with the system's error.
    fn bind_unix(&self, path: Path<'_>) -> io::Result<unix_net::UnixListener>;

    /// Removes the file at this path. Fails with the system's error.
    fn remove_socket(&self, path: Path<'_>) -> io::Result<()>;

    /// Returns whether the file at this path is a socket, without following links. Returns false if the system can't
    /// tell.
    fn is_socket(&self, path: Path<'_>) -> bool;
}

impl<R: Files + Net> SocketFiles for R {
    /// Listens on this path, by a system call.
    fn bind_unix(&self, path: Path<'_>) -> io::Result<unix_net::UnixListener> {
        unix_net::UnixListener::bind(self, path)
    }

    /// Removes the file at this path, by a system call.
    fn remove_socket(&self, path: Path<'_>) -> io::Result<()> {
        fs::remove_file(self, path)
    }

    /// Returns whether the file at this path is a socket, by a system call.
    fn is_socket(&self, path: Path<'_>) -> bool {
        match fs::symlink_metadata(self, path) {
            Ok(metadata) => metadata.file_type().is_socket(),
            Err(_) => false,
        }
    }
}

/// A listening socket, TCP or Unix.
#[derive(Debug, Drop)]
pub enum Listener {
    /// A listener at an IP address and a port.
    Tcp(TcpListener),
    /// A listener at a path.
    Unix(unix_net::UnixListener),
}

impl Listener {
    /// Returns the address that the listener is bound to. Fails with the system's error if the system can't tell.
    pub fn local_addr(&self) -> io::Result<ListenAddr>
        ensures { IfOk result (λ addr. HasAddressOf self.now addr) }
    {
        match self {
            Listener::Tcp(listener) => Ok(ListenAddr::IP(listener.local_addr()?)),
            Listener::Unix(listener) => Ok(ListenAddr::Unix(listener.local_addr()?)),
        }
    }

    /// Waits for a client, and returns its connection, which is of the listener's kind, with the client's address. The
    /// address is `None` for a Unix socket. Fails with the system's error if no client can be accepted.
    pub fn accept(&self) -> io::Result<(Connection, Option<SocketAddr>)>
        ensures { IfOk result (λ client. IsAcceptedBy self.now client.0 client.1) }
    {
        match self {
            Listener::Tcp(listener) => {
                let (stream, addr) = listener.accept()?;
                Ok((Connection::Tcp(stream), Some(addr)))
            }
            Listener::Unix(listener) => {
                let (stream, _) = listener.accept()?;
                Ok((Connection::Unix(stream), None))
            }
        }
    }
}

impl From<TcpListener> for Listener {
    ghost use Rattle.tiny_http_socket.specs.declared.connection.Listener.TheVariants.{Tcp};

    ghost from_gives = { λ listener result. result ≡ Tcp listener };

    /// Wraps a TCP listener.
    fn from(listener: TcpListener) -> Listener {
        Listener::Tcp(listener)
    }
}

impl From<unix_net::UnixListener> for Listener {
    ghost use Rattle.tiny_http_socket.specs.declared.connection.Listener.TheVariants.{Unix};

    ghost from_gives = { λ listener result. result ≡ Unix listener };

    /// Wraps a Unix listener.
    fn from(listener: unix_net::UnixListener) -> Listener {
        Listener::Unix(listener)
    }
}

/// A connection to a client, TCP or Unix.
#[derive(Debug, Drop)]
pub enum Connection {
    /// A TCP connection.
    Tcp(TcpStream),
    /// A connection over a Unix socket.
    Unix(unix_net::UnixStream),
}

impl Connection {
    /// Returns the client's address, or `None` for a Unix socket. Fails with the system's error if the system no longer
    /// knows the address.
    pub fn peer_addr(&self) -> io::Result<Option<SocketAddr>>
        ensures { IfOk result (λ addr. HasPeerOf self.now addr) }
    {
        match self {
            Connection::Tcp(stream) => Ok(Some(stream.peer_addr()?)),
            Connection::Unix(_) => Ok(None),
        }
    }

    /// Shuts down one direction or both, for this and every other handle to the connection. Fails with the system's
    /// error, for example if the client has disconnected.
    pub fn shutdown(&self, how: Shutdown) -> io::Result<()> {
        match self {
            Connection::Tcp(stream) => stream.shutdown(how),
            Connection::Unix(stream) => stream.shutdown(how),
        }
    }

    /// Returns another handle to the same connection. Fails with the system's error, for example if no file descriptor
    /// is left.
    pub fn try_clone(&self) -> io::Result<Connection>
        ensures { IfOk result (λ other. IsSameKind self.now other) }
    {
        match self {
            Connection::Tcp(stream) => Ok(Connection::Tcp(stream.try_clone()?)),
            Connection::Unix(stream) => Ok(Connection::Unix(stream.try_clone()?)),
        }
    }

    /// Makes TCP send each write at once (TCP_NODELAY) if `nodelay` is true, and gather small writes if it is false.
    /// Does nothing for a Unix socket. Fails with the system's error.
    pub fn set_nodelay(&self, nodelay: bool) -> io::Result<()> {
        match self {
            Connection::Tcp(stream) => stream.set_nodelay(nodelay),
            Connection::Unix(_) => Ok(()),
        }
    }
}

impl Connection {
    /// Sets the maximum time that each later read waits, through this and every other handle. After that time a read
    /// fails with `WouldBlock`. Fails with the system's error, or with `InvalidInput` if the timeout is 0.
    pub fn set_read_timeout(&self, timeout: Duration) -> io::Result<()> {
        match self {
            Connection::Tcp(stream) => stream.set_read_timeout(Some(timeout)),
            Connection::Unix(stream) => stream.set_read_timeout(Some(timeout)),
        }
    }

    /// Makes each later read wait without a timeout, through this and every other handle. Fails with the system's
    /// error.
    pub fn clear_read_timeout(&self) -> io::Result<()> {
        match self {
            Connection::Tcp(stream) => stream.set_read_timeout(None),
            Connection::Unix(stream) => stream.set_read_timeout(None),
        }
    }

    /// Sets the maximum time that each later write waits, through this and every other handle. After that time a write
    /// fails with `WouldBlock`, or returns the number of bytes taken so far. Fails with the system's error, or with
    /// `InvalidInput` if the timeout is 0.
    pub fn set_write_timeout(&self, timeout: Duration) -> io::Result<()> {
        match self {
            Connection::Tcp(stream) => stream.set_write_timeout(Some(timeout)),
            Connection::Unix(stream) => stream.set_write_timeout(Some(timeout)),
        }
    }
}

impl AsRawFd for Connection {
    /// Returns the socket's file descriptor.
    fn as_raw_fd(&self) -> RawFd {
        match self {
            Connection::Tcp(stream) => stream.as_raw_fd(),
            Connection::Unix(stream) => stream.as_raw_fd(),
        }
    }
}

impl Read for Connection {
    /// Reads once, and returns the number of bytes read: 0 at the end of input.
    fn read(&mut self, buf: &mut [u8]) -> io::Result<usize> {
        match self {
            Connection::Tcp(stream) => stream.read(buf),
            Connection::Unix(stream) => stream.read(buf),
        }
    }
}

impl Write for Connection {
    /// Writes once, and returns the number of bytes taken.
    fn write(&mut self, buf: &[u8]) -> io::Result<usize> {
        match self {
            Connection::Tcp(stream) => stream.write(buf),
            Connection::Unix(stream) => stream.write(buf),
        }
    }

    /// Does nothing: no bytes are held back.
    fn flush(&mut self) -> io::Result<()> {
        Ok(())
    }
}

// Reads once through this stream.
fn read_by<S: Read + Drop>(stream: S, buf: &mut [u8]) -> io::Result<usize>
    ensures { IfOk result (λ n. n ≤ length buf.new) }
{
    let mut stream = stream;
    stream.read(buf)
}

// Writes once through this stream.
fn write_by<S: Write + Drop>(stream: S, buf: &[u8]) -> io::Result<usize>
    ensures { IfOk result (λ n. n ≤ length buf.now) }
{
    let mut stream = stream;
    stream.write(buf)
}

impl Connection {
    /// Reads once through a shared reference, as `read` does.
    pub fn read_shared(&self, buf: &mut [u8]) -> io::Result<usize>
        ensures { IfOk result (λ n. n ≤ length buf.new) }
    {
        match self {
            Connection::Tcp(stream) => read_by(stream, buf),
            Connection::Unix(stream) => read_by(stream, buf),
        }
    }

    /// Writes once through a shared reference, as `write` does.
    pub fn write_shared(&self, buf: &[u8]) -> io::Result<usize>
        ensures { IfOk result (λ n. n ≤ length buf.now) }
    {
        match self {
            Connection::Tcp(stream) => write_by(stream, buf),
            Connection::Unix(stream) => write_by(stream, buf),
        }
    }
}

impl Connection {
    /// Writes once, with one system call, from the front of the concatenation of two texts. Returns the number of bytes
    /// taken.
    pub fn write_both_shared(&self, front: &[u8], back: &[u8]) -> io::Result<usize>
        ensures { IfOk result (λ n. n ≤ length (front.now ++ back.now)) }
    {
        let texts = [IoSlice::new(front), IoSlice::new(back)];
        match self {
            Connection::Tcp(stream) => stream.write_vectored(&texts),
            Connection::Unix(stream) => stream.write_vectored(&texts),
        }
    }
}

impl From<TcpStream> for Connection {
    ghost use Rattle.tiny_http_socket.specs.declared.connection.Connection.TheVariants.{Tcp};

    ghost from_gives = { λ stream result. result ≡ Tcp stream };

    /// Wraps a TCP stream.
    fn from(stream: TcpStream) -> Connection {
        Connection::Tcp(stream)
    }
}

impl From<unix_net::UnixStream> for Connection {
    ghost use Rattle.tiny_http_socket.specs.declared.connection.Connection.TheVariants.{Unix};

    ghost from_gives = { λ stream result. result ≡ Unix stream };

    /// Wraps a Unix stream.
    fn from(stream: unix_net::UnixStream) -> Connection {
        Connection::Unix(stream)
    }
}

/// The configured address on which a server listens.
#[derive(Debug, Drop)]
pub enum ConfigListenAddr {
    /// The first of these addresses that can be bound.
    IP(Vec<SocketAddr>),
    /// A Unix socket at this path.
    Unix(PathBuf),
}

impl ConfigListenAddr {
    /// Resolves the addresses to listen on. Fails with the system's error if a host name isn't found, with
    /// `InvalidInput` if a text isn't an address, or with `OutOfMemory` if memory can't be allocated.
    pub fn from_socket_addrs<R: Net, A: ToSocketAddrs>(
        rt: &R,
        alloc: Global,
        addrs: A,
    ) -> io::Result<ConfigListenAddr> {
        let found = addrs.to_socket_addrs(rt)?;
        Ok(ConfigListenAddr::IP(found.collect(alloc)?))
    }

    /// Returns the configuration of a Unix socket at this path.
    pub fn unix_from_path(path: PathBuf) -> ConfigListenAddr
        ensures { result ≡ ConfigListenAddr.Unix path }
    {
        ConfigListenAddr::Unix(path)
    }

    /// Copies the address. Fails if memory can't be allocated.
    pub fn try_clone(&self) -> Result<ConfigListenAddr, AllocError>
        ensures { IfOk result (λ copy. IsCopyOf self.now copy) }
    {
        match self {
            ConfigListenAddr::IP(addrs) => {
                let copy = addrs.as_slice().to_vec(*addrs.allocator())?;
                Ok(ConfigListenAddr::IP(copy))
            }
            ConfigListenAddr::Unix(path) => Ok(ConfigListenAddr::Unix(path.clone()?)),
        }
    }

    /// Listens on the first of the addresses that can be bound, or on the path, where it creates a file. Fails with the
    /// system's error for the last address if none can be bound, or for the path if the path can't be bound. Fails with
    /// `InvalidInput` if there is no address or if the path is too long.
    pub fn bind<R: Net<Listener = TcpListener, Stream = TcpStream> + SocketFiles>(
        &self,
        rt: &R,
    ) -> io::Result<Listener>
        ensures { IfOk result (λ listener. IsBoundAs self.now listener) }
    {
        match self {
            ConfigListenAddr::IP(addrs) => Ok(Listener::Tcp(listen(rt, addrs.as_slice())?)),
            ConfigListenAddr::Unix(path) => {
                Ok(Listener::Unix(SocketFiles::bind_unix(rt, path.as_path())?))
            }
        }
    }
}

// Listens on the first of these addresses that can be bound. Connections that aren't accepted yet wait in the longest
// queue that the system allows; that of `std::net` has room for 128.
fn listen<R: Net>(rt: &R, addrs: &[SocketAddr]) -> io::Result<TcpListener> {
    let mut fault = io::Error::from(ErrorKind::InvalidInput);
    for addr in addrs {
        match mio::net::TcpListener::bind(rt, *addr) {
            Ok(bound) => {
                let listener = TcpListener::from(bound);
                listener.set_nonblocking(false)?;
                return Ok(listener);
            }
            Err(refused) => fault = refused,
        }
    }
    Err(fault)
}

/// The address on which a server listens.
#[derive(Clone, Debug, Drop)]
pub enum ListenAddr {
    /// An IP address and a port.
    IP(SocketAddr),
    /// The address of a Unix socket.
    Unix(unix_net::SocketAddr),
}

impl ListenAddr {
    /// Returns the IP address and port, or `None` for a Unix socket.
    pub fn to_ip(self) -> Option<SocketAddr>
        ensures { result ≡ ip_of self }
    {
        match self {
            ListenAddr::IP(addr) => Some(addr),
            ListenAddr::Unix(_) => None,
        }
    }

    /// Returns the address of a Unix socket, or `None` for an IP address.
    pub fn to_unix(self) -> Option<unix_net::SocketAddr>
        ensures { result ≡ unix_of self }
    {
        match self {
            ListenAddr::IP(_) => None,
            ListenAddr::Unix(addr) => Some(addr),
        }
    }
}

impl From<SocketAddr> for ListenAddr {
    ghost use Rattle.tiny_http_socket.specs.declared.connection.ListenAddr.TheVariants.{IP};

    ghost from_gives = { λ addr result. result ≡ IP addr };

    /// Wraps an IP address and a port.
    fn from(addr: SocketAddr) -> ListenAddr {
        ListenAddr::IP(addr)
    }
}

impl From<unix_net::SocketAddr> for ListenAddr {
    ghost use Rattle.tiny_http_socket.specs.declared.connection.ListenAddr.TheVariants.{Unix};

    ghost from_gives = { λ addr result. result ≡ Unix addr };

    /// Wraps the address of a Unix socket.
    fn from(addr: unix_net::SocketAddr) -> ListenAddr {
        ListenAddr::Unix(addr)
    }
}

impl fmt::Display for ListenAddr {
    ghost use Rattle.tiny_http_socket.specs.Connection.{address_text};

    ghost output = { address_text };

    /// Writes the IP address and the port, or the debug text of a Unix socket's address.
    fn fmt<W: fmt::Write>(&self, f: &mut fmt::Formatter<W>) -> fmt::Result {
        match self {
            ListenAddr::IP(addr) => fmt::Display::fmt(addr, f),
            ListenAddr::Unix(addr) => fmt::Debug::fmt(addr, f),
        }
    }
}
