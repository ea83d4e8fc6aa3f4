//! Creates servers besides that of the scene: at the same address, from two addresses, at a path where a file exists,
//! or with TLS. Also checks how a Unix address is displayed.
use crate::hands::Hands;
use crate::links::Host;
use crate::serving::{Place, config_of, path_beside, path_in};
use std::alloc::Global;
use std::io::ErrorKind;
use std::net::SocketAddr;
use std::path::{Path, PathBuf};
use test_scene_files::deed::{Found, ServerDeed};
use test_scene_files::mishap::{Mishap, demand, demand_fault, demand_text, differs};
use test_scene_props::props::shared;
use tiny_http::ServerOptions;
use tiny_http::connection::{ConfigListenAddr, ListenAddr};
use tiny_http::server::{Server, ServerConfig, ServerError, SslConfig};

// Creates a second server at `addr`, the address of the scene's server.
fn second_server<R: Host>(
    rt: &R,
    alloc: Global,
    addr: &ListenAddr,
) -> Result<Result<Server<R>, ServerError>, Mishap> {
    match addr {
        ListenAddr::IP(addr) => Ok(Server::http(*rt, alloc, *addr)),
        ListenAddr::Unix(_) => Ok(Server::http_unix(*rt, alloc, path_in(addr)?)),
    }
}

// Expects that creating a second server failed with an I/O error of this kind.
fn demand_refused<R: Host>(
    alloc: Global,
    made: Result<Server<R>, ServerError>,
    kind: ErrorKind,
) -> Result<(), Mishap> {
    match made {
        Ok(_) => Err(differs(alloc, "no second server", "a second server")),
        Err(ServerError::Io(fault)) => demand_fault(alloc, Some(kind), Some(fault.kind())),
        Err(_) => Err(differs(alloc, "a fault of the system", "another one")),
    }
}

// Creates a second server at the same address, which replaces the first one, and drops the first.
fn follow<R: Host>(rt: &R, alloc: Global, hands: &mut Hands<R>) -> Result<(), Mishap> {
    let Ok(second) = second_server(rt, alloc, hands.addr()?)? else {
        return Err(Mishap::Unplayable("there is no second server here"));
    };
    drop(hands.server.replace(shared(alloc, second)?));
    Ok(())
}

// A file in the current directory that is not a socket.
const PLAIN: &str = "closing.scenes";

// Creates a server with limits at `path`, where `found` exists: a socket that is bound here first, or a plain file that
// is there already. Returns the error's kind, if the server can't be created, and whether the file still exists
// afterwards.
fn made_at<R: Host>(
    rt: &R,
    alloc: Global,
    path: &str,
    found: Found,
) -> Result<(Option<ErrorKind>, bool), Mishap> {
    let was = rt.bind_unix(Path::new(path));
    if was.is_err() && found != Found::Plain {
        return Err(Mishap::Unplayable("no socket can be made there"));
    }
    if was.is_ok() && found == Found::Plain {
        let _ = rt.remove_socket(Path::new(path));
        return Err(Mishap::Unplayable("there is no plain file"));
    }
    if found == Found::Stale {
        drop(was.ok());
        return Ok((refusal_at(rt, alloc, path)?, rt.is_socket(Path::new(path))));
    }
    let refusal = refusal_at(rt, alloc, path)?;
    let is_there = rt.bind_unix(Path::new(path)).is_err();
    drop(was.ok());
    if found == Found::Live {
        let _ = rt.remove_socket(Path::new(path));
    }
    Ok((refusal, is_there))
}

// Creates a server with limits at `link`, a symbolic link to a socket on which nobody listens. Returns the error's
// kind, if the server can't be created, and whether the link and the socket still exist afterwards.
fn made_at_link<R: Host>(
    rt: &R,
    alloc: Global,
    link: &str,
) -> Result<(Option<ErrorKind>, bool), Mishap> {
    let target = format!(in alloc; "{link}.target")?;
    let (target, link_path) = (Path::new(target.as_str()), Path::new(link));
    drop(rt.bind_unix(target).ok());
    if rt.symlink(target, link_path).is_err() {
        return Err(Mishap::Unplayable("no link can be made there"));
    }
    let refusal = refusal_at(rt, alloc, link)?;
    let is_there = rt.is_socket(target) && rt.bind_unix(link_path).is_err();
    let _ = rt.remove_socket(link_path);
    let _ = rt.remove_socket(target);
    Ok((refusal, is_there))
}

// Creates a server with limits at this path, and drops it at once. Returns the error's kind, if the server can't be
// created.
fn refusal_at<R: Host>(rt: &R, alloc: Global, path: &str) -> Result<Option<ErrorKind>, Mishap> {
    match Server::bind_unix(*rt, alloc, Path::new(path), ServerOptions::open_port()) {
        Ok(_) => Ok(None),
        Err(ServerError::Io(fault)) => Ok(Some(fault.kind())),
        Err(_) => Err(Mishap::OutOfMemory),
    }
}

// Creates a server with limits at a path where `found` exists, and expects the error `wanted`, or no error if `wanted`
// is `None`. Also expects that the file is gone afterwards if it is a stale socket, which the server replaces with its
// own and removes when it is dropped, and that any other file still exists.
fn demand_made_at<R: Host>(
    rt: &R,
    alloc: Global,
    (addr, found): (&ListenAddr, Found),
    wanted: Option<ErrorKind>,
) -> Result<(), Mishap> {
    let beside = path_beside(alloc, addr)?;
    let (refusal, is_there) = match found {
        Found::Plain => made_at(rt, alloc, PLAIN, found)?,
        Found::Link => made_at_link(rt, alloc, beside.as_str())?,
        Found::Stale | Found::Live => made_at(rt, alloc, beside.as_str(), found)?,
    };
    demand_fault(alloc, wanted, refusal)?;
    if found == Found::Stale {
        return demand(alloc, "the file is gone", !is_there);
    }
    demand(alloc, "what was there is still there", is_there)
}

// Tries to create a server with TLS at `addr`, with an empty certificate and an empty key.
fn with_tls<R: Host>(
    rt: &R,
    alloc: Global,
    addr: ConfigListenAddr,
) -> Result<Server<R>, ServerError> {
    let ssl = SslConfig {
        certificate: Vec::new(alloc),
        private_key: Vec::new(alloc),
    };
    let config = ServerConfig {
        addr,
        ssl: Some(ssl),
    };
    Server::new(*rt, alloc, config)
}

// Tries to create a server with TLS at `addr`, the address of the scene's server.
fn rival_with_tls<R: Host>(
    rt: &R,
    alloc: Global,
    addr: &ListenAddr,
) -> Result<Result<Server<R>, ServerError>, Mishap> {
    let addr = match addr {
        ListenAddr::IP(addr) => ConfigListenAddr::from_socket_addrs(rt, alloc, *addr),
        ListenAddr::Unix(_) => {
            let path = format!(in alloc; "{}", path_in(addr)?.display())?;
            Ok(ConfigListenAddr::unix_from_path(PathBuf::from_str(alloc, path.as_str())?))
        }
    };
    match addr {
        Ok(addr) => Ok(with_tls(rt, alloc, addr)),
        Err(_) => Err(Mishap::Unplayable("there is no such address")),
    }
}

// Expects that creating a server with TLS at another address of the same kind fails with this message, and leaves no
// socket file.
fn demand_no_tls<R: Host>(
    rt: &R,
    alloc: Global,
    addr: &ListenAddr,
    words: &str,
) -> Result<(), Mishap> {
    let path = match addr {
        ListenAddr::IP(_) => None,
        ListenAddr::Unix(_) => Some(path_beside(alloc, addr)?),
    };
    let place = match &path {
        None => Place::Tcp("127.0.0.1:0"),
        Some(path) => Place::Path(path.as_str()),
    };
    let Ok(config) = config_of(rt, alloc, place) else {
        return Err(Mishap::Unplayable("there is no such address"));
    };
    let Err(fault) = with_tls(rt, alloc, config.addr) else {
        return Err(differs(alloc, words, "a server"));
    };
    let came = format!(in alloc; "{fault}")?;
    demand_text(alloc, words, came.as_str())?;
    let is_there = path.is_some_and(|path| rt.is_socket(Path::new(path.as_str())));
    demand(alloc, "there is no file", !is_there)
}

// Creates a server from two addresses: `addr`, which is in use, and one with any free port. Expects that the server
// does not listen on the first.
fn demand_second<R: Host>(rt: &R, alloc: Global, addr: &ListenAddr) -> Result<(), Mishap> {
    let ListenAddr::IP(first) = addr else {
        return Err(Mishap::Unplayable("only TCP has two addresses"));
    };
    let both = [*first, SocketAddr::from(([127, 0, 0, 1], 0))];
    let Ok(server) = Server::http(*rt, alloc, both.as_slice()) else {
        return Err(differs(alloc, "a server", "none"));
    };
    let is_another = server
        .server_addr()
        .to_ip()
        .is_some_and(|addr| addr != *first);
    demand(alloc, "it is at another address", is_another)
}

// Expects that the server reports a Unix address, which is displayed as the path of its socket in quotes, followed by
// `(pathname)`.
fn demand_shown<R: Host>(
    alloc: Global,
    server: &Server<R>,
    addr: &ListenAddr,
) -> Result<(), Mishap> {
    let wanted = format!(in alloc; "\"{}\" (pathname)", path_in(addr)?.display())?;
    let shown = server.server_addr();
    let came = format!(in alloc; "{shown}")?;
    demand_text(alloc, wanted.as_str(), came.as_str())?;
    demand(alloc, "it is a Unix socket's", shown.to_unix().is_some())
}

/// Runs a step that creates another server, or checks how the server's address is displayed. Fails at any other step.
pub(crate) fn act_rival<R: Host>(
    rt: &R,
    alloc: Global,
    hands: &mut Hands<R>,
    deed: ServerDeed<'_>,
) -> Result<(), Mishap> {
    match deed {
        ServerDeed::IsFollowed => follow(rt, alloc, hands),
        ServerDeed::Rival(kind) => {
            let made = second_server(rt, alloc, hands.addr()?)?;
            demand_refused(alloc, made, kind)
        }
        ServerDeed::RivalWithTls(kind) => {
            let made = rival_with_tls(rt, alloc, hands.addr()?)?;
            demand_refused(alloc, made, kind)
        }
        ServerDeed::WithTls(words) => demand_no_tls(rt, alloc, hands.addr()?, words),
        ServerDeed::AtSecond => demand_second(rt, alloc, hands.addr()?),
        ServerDeed::ShowsPath => demand_shown(alloc, hands.server()?, hands.addr()?),
        ServerDeed::At(found, wanted) => {
            demand_made_at(rt, alloc, (hands.addr()?, found), wanted)
        }
        _ => Err(Mishap::Unplayable("the server can't do that")),
    }
}
