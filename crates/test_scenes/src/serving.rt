//! Creates the server of a scene, and runs the steps on it.
use crate::handler::ByPath;
use crate::hands::Hands;
use crate::links::Host;
use crate::rivals::act_rival;
use std::alloc::{AllocError, Global};
use std::io::ErrorKind;
use std::net::TcpListener;
use std::os::fd::OwnedFd;
use std::os::unix::net::UnixStream;
use std::path::{Path, PathBuf};
use std::sync::Arc;
use std::sync::atomic::{AtomicBool, AtomicUsize, Ordering};
use std::time::Duration;
use std::{io, thread};
use test_scene_files::client::Client;
use test_scene_files::deed::{Given, ServerDeed};
use test_scene_files::mishap::{Mishap, demand, demand_fault, demand_number, demand_text, differs};
use test_scene_files::scene::{Ground, Over, Way};
use test_scene_props::named::add;
use test_scene_props::props::{Props, shared};
use tiny_http::connection::{ConfigListenAddr, ListenAddr, Listener};
use tiny_http::counts::Counts;
use tiny_http::messages_queue::MessagesQueue;
use tiny_http::server::{Server, ServerConfig, ServerError, ServerRequest, Stopped};
use tiny_http::{Profile, ServerOptions};

// Time in seconds within which an expected request must arrive.
const LONGEST: u64 = 10;

// Maximum number of checks for an expected request or state, made a millisecond apart.
const TURNS: u32 = 10_000;

// Maximum number of descriptors taken. By default the system allows a process no more than this.
const MOST_DESCRIPTORS: u32 = 1_048_576;

// Initial capacity of the queue of kept requests.
const KEPT_ROOM: usize = 8;

/// An address for a server to listen on: a TCP address, or the path of a Unix socket.
#[derive(Clone, Copy)]
pub(crate) enum Place<'a> {
    Tcp(&'static str),
    Path(&'a str),
}

/// Returns the address on which the server of a scene listens: `path` if it uses a Unix socket, and otherwise any free
/// port of the local host.
pub(crate) fn place_of(over: Over, path: &str) -> Place<'_> {
    match over {
        Over::Ipv6 => Place::Tcp("[::1]:0"),
        Over::Unix => Place::Path(path),
        _ => Place::Tcp("127.0.0.1:0"),
    }
}

/// Builds the configuration of a server at `place`, without TLS.
pub(crate) fn config_of<R: Host>(
    rt: &R,
    alloc: Global,
    place: Place<'_>,
) -> Result<ServerConfig, ServerError> {
    let addr = match place {
        Place::Tcp(addr) => ConfigListenAddr::from_socket_addrs(rt, alloc, addr)?,
        Place::Path(path) => {
            let path = PathBuf::from_str(alloc, path).map_err(|_| ServerError::Memory)?;
            ConfigListenAddr::unix_from_path(path)
        }
    };
    Ok(ServerConfig { addr, ssl: None })
}

// Creates a TCP listener, and a server over it.
fn listening_server<R: Host>(
    rt: &R,
    alloc: Global,
    ground: Ground,
) -> Result<Server<R>, ServerError> {
    let listener = TcpListener::bind(rt, "127.0.0.1:0")?;
    listener.set_nonblocking(ground.over == Over::Nonblocking)?;
    let listener = Listener::from(listener);
    match ground.limits {
        None if ground.profile == Profile::Lenient => {
            Server::from_listener(*rt, alloc, listener, None)
        }
        None => Server::from_listener_with(*rt, alloc, listener, None, ground.profile),
        Some(limits) => {
            let options = ServerOptions::open_port().with_profile(ground.profile);
            Server::over_listener(*rt, alloc, listener, options.with_limits(limits))
        }
    }
}

// Creates the server of a scene.
fn server_of<R: Host>(
    rt: &R,
    alloc: Global,
    ground: Ground,
    place: Place<'_>,
) -> Result<Server<R>, ServerError> {
    if matches!(ground.over, Over::Listener | Over::Nonblocking) {
        return listening_server(rt, alloc, ground);
    }
    let options = ServerOptions::open_port().with_profile(ground.profile);
    match (place, ground.limits) {
        (Place::Tcp(addr), None) => Server::http_with(*rt, alloc, addr, ground.profile),
        (Place::Tcp(addr), Some(limits)) => {
            Server::bind(*rt, alloc, addr, options.with_limits(limits))
        }
        (Place::Path(path), Some(limits)) => {
            Server::bind_unix(*rt, alloc, Path::new(path), options.with_limits(limits))
        }
        (Place::Path(_), None) => {
            let config = config_of(rt, alloc, place)?;
            Server::new_with(*rt, alloc, config, ground.profile)
        }
    }
}

// Creates a handler that has kept no request yet.
fn handler_of<R: Host>(alloc: Global, keeps_all: bool) -> Result<Arc<ByPath<R>>, Mishap> {
    let Ok(kept) = MessagesQueue::with_capacity(alloc, KEPT_ROOM) else {
        return Err(Mishap::OutOfMemory);
    };
    let Ok(stops) = MessagesQueue::with_capacity(alloc, 1) else {
        return Err(Mishap::OutOfMemory);
    };
    let by_path = ByPath {
        kept,
        keeps_all: shared(alloc, AtomicBool::new(keeps_all))?,
        gate: shared(alloc, AtomicBool::new(false))?,
        stops,
        errors: AtomicUsize::new(0),
    };
    shared(alloc, by_path)
}

// Returns whether a scene has a server.
fn has_server(over: Over) -> bool {
    !matches!(over, Over::Queue | Over::Pool | Over::Memory | Over::Turns)
}

/// Creates what the steps act on when a scene begins.
pub(crate) fn first_hands<R: Host>(
    rt: &R,
    alloc: Global,
    (ground, way): (Ground, Way),
    place: Place<'_>,
) -> Result<Hands<R>, Mishap> {
    let handler = handler_of(alloc, way == Way::Handler)?;
    let props = Props::over(rt, alloc, ground.over)?;
    let mut hands = Hands::new(alloc, (handler, way), props);
    if !has_server(ground.over) {
        return Ok(hands);
    }
    let Ok(server) = server_of(rt, alloc, ground, place) else {
        return Err(Mishap::Unplayable("there is no such server here"));
    };
    if hands.handler.stops.push(rt, server.stop_handle()?).is_err() {
        return Err(Mishap::OutOfMemory);
    }
    hands.addr = Some(server.server_addr());
    hands.server = Some(shared(alloc, server)?);
    Ok(hands)
}

/// Uses up all but `left` of the process's file descriptors.
pub(crate) fn take_descriptors<R: Host>(
    rt: &R,
    hands: &mut Hands<R>,
    left: usize,
) -> Result<(), Mishap> {
    let Ok(listener) = TcpListener::bind(rt, "127.0.0.1:0") else {
        return Err(Mishap::Unplayable("there is no descriptor"));
    };
    let first = OwnedFd::from(listener);
    for _ in 0..MOST_DESCRIPTORS {
        let Ok(next) = first.try_clone() else {
            break;
        };
        hands.taken.push(next).map_err(AllocError::from)?;
    }
    hands.taken.push(first).map_err(AllocError::from)?;
    let count = hands.taken.len().saturating_sub(left);
    hands.taken.truncate(count);
    Ok(())
}

// Compares the expected result of a receiving call with the actual one. If the expected request came, adds it under its
// name.
fn take_given<R: Host>(
    alloc: Global,
    hands: &mut Hands<R>,
    given: Given<'_>,
    came: io::Result<Option<ServerRequest<R>>>,
) -> Result<(), Mishap> {
    match (given, came) {
        (Given::Request(target, name), Ok(Some(request))) => {
            demand_text(alloc, target, request.url())?;
            add(alloc, &mut hands.served.requests, name, request)
        }
        (Given::Nothing, Ok(None)) => Ok(()),
        (Given::Nothing, Ok(Some(request))) => Err(differs(alloc, "no request", request.url())),
        (Given::Request(target, _), Ok(None)) => Err(differs(alloc, target, "no request")),
        (Given::Fault(_), Ok(_)) => Err(differs(alloc, "a fault", "none")),
        (Given::Fault(kind), Err(fault)) => demand_fault(alloc, Some(kind), Some(fault.kind())),
        (_, Err(fault)) => demand_fault(alloc, None, Some(fault.kind())),
    }
}

// Returns the next request that the handler has kept, or `None` if there is none within `LONGEST` seconds.
fn next_kept<R: Host>(rt: &R, hands: &Hands<R>) -> Option<ServerRequest<R>> {
    let most = Duration::from_secs(LONGEST);
    hands.handler.kept.pop_timeout(rt, most)
}

// Receives the next request in the way that the scene prescribes (`Way`), waiting at most `LONGEST` seconds.
fn next_given<R: Host>(
    rt: &R,
    hands: &Hands<R>,
) -> Result<io::Result<Option<ServerRequest<R>>>, Mishap> {
    match hands.way {
        Way::Recv => {
            let most = Duration::from_secs(LONGEST);
            Ok(hands.server()?.recv_timeout(most))
        }
        Way::Handler => Ok(Ok(next_kept(rt, hands))),
    }
}

// Returns the next item of `incoming_requests`, waiting without a timeout.
fn next_incoming<R: Host>(
    hands: &Hands<R>,
) -> Result<io::Result<Option<ServerRequest<R>>>, Mishap> {
    Ok(Ok(hands.server()?.incoming_requests().next()))
}

// Calls `recv`, which waits without a timeout.
fn received<R: Host>(hands: &Hands<R>) -> Result<io::Result<Option<ServerRequest<R>>>, Mishap> {
    Ok(match hands.server()?.recv() {
        Ok(request) => Ok(Some(request)),
        Err(fault) => Err(fault),
    })
}

// Calls `try_recv` once if `given` is `Nothing`, and otherwise until it returns a request or an error, at most `TURNS`
// times.
fn tried<R: Host>(
    rt: &R,
    hands: &Hands<R>,
    given: Given<'_>,
) -> Result<io::Result<Option<ServerRequest<R>>>, Mishap> {
    let server = hands.server()?;
    if let Given::Nothing = given {
        return Ok(server.try_recv());
    }
    for _ in 0..TURNS {
        match server.try_recv() {
            Ok(None) => thread::sleep(rt, Duration::from_millis(1)),
            came => return Ok(came),
        }
    }
    Ok(Ok(None))
}

// Waits until `count` clients are connected. Fails if that takes more than `TURNS` checks.
fn demand_clients<R: Host>(
    rt: &R,
    alloc: Global,
    server: &Server<R>,
    count: usize,
) -> Result<(), Mishap> {
    for _ in 0..TURNS {
        if server.num_connections() == count {
            return Ok(());
        }
        thread::sleep(rt, Duration::from_millis(1));
    }
    demand_number(alloc, count as u64, server.num_connections() as u64)
}

// Returns the value of the counter called `field`, or `None` if there is no such counter.
fn count_in(counts: &Counts, field: &str) -> Option<u64> {
    Some(match field {
        "connections" => counts.connections,
        "requests" => counts.requests,
        "accept_faults" => counts.accept_faults,
        "turned_away" => counts.turned_away,
        "idle" => counts.idle,
        "slow_heads" => counts.slow_heads,
        "slow_bodies" => counts.slow_bodies,
        "slow_writes" => counts.slow_writes,
        "400" => counts.refusals.bad_request,
        "408" => counts.refusals.request_timeout,
        "414" => counts.refusals.uri_too_long,
        "417" => counts.refusals.expectation_failed,
        "431" => counts.refusals.header_fields_too_large,
        "501" => counts.refusals.not_implemented,
        "505" => counts.refusals.version_not_supported,
        _ => return None,
    })
}

// Waits until the counter called `field` has reached `wanted`. Fails if there is no such counter, if that takes more
// than `TURNS` checks, or if the counter is then greater than `wanted` and `may_be_above` is false.
fn demand_count<R: Host>(
    rt: &R,
    alloc: Global,
    server: &Server<R>,
    (field, wanted, may_be_above): (&str, u64, bool),
) -> Result<(), Mishap> {
    let mut came = None;
    for _ in 0..TURNS {
        came = count_in(&server.counts(), field);
        if came.is_none_or(|count| count >= wanted) {
            break;
        }
        thread::sleep(rt, Duration::from_millis(1));
    }
    match came {
        Some(came) if may_be_above && came > wanted => Ok(()),
        Some(came) => demand_number(alloc, wanted, came),
        None => Err(Mishap::Unplayable("there is no such count")),
    }
}

/// Returns the path of the server's Unix socket. Fails if its address has no path.
pub(crate) fn path_in(addr: &ListenAddr) -> Result<Path<'_>, Mishap> {
    let ListenAddr::Unix(addr) = addr else {
        return Err(Mishap::Unplayable("only a Unix socket has a path"));
    };
    match addr.as_pathname() {
        Some(path) => Ok(path),
        None => Err(Mishap::Unplayable("the socket has no path")),
    }
}

/// Returns a path next to that of the server's Unix socket. Fails if the server's address has no path.
pub(crate) fn path_beside(alloc: Global, addr: &ListenAddr) -> Result<String, Mishap> {
    Ok(format!(in alloc; "{}.beside", path_in(addr)?.display())?)
}

// Gives the file of the server's Unix socket a second name, which still reaches the socket after the first is removed.
fn link_beside<R: Host>(rt: &R, alloc: Global, addr: &ListenAddr) -> Result<(), Mishap> {
    let link = path_beside(alloc, addr)?;
    match rt.hard_link(path_in(addr)?, Path::new(link.as_str())) {
        Ok(()) => Ok(()),
        Err(_) => Err(Mishap::Unplayable("no link can be made there")),
    }
}

// Expects that nobody listens on the server's address. For TCP, waits until the address is free, for at most `TURNS`
// checks. For a Unix socket, checks once, through the second name of its file, and removes that name.
fn demand_free<R: Host>(rt: &R, alloc: Global, addr: &ListenAddr) -> Result<(), Mishap> {
    let ListenAddr::IP(addr) = addr else {
        let link = path_beside(alloc, addr)?;
        let met = UnixStream::connect(rt, Path::new(link.as_str()));
        let _ = rt.remove_socket(Path::new(link.as_str()));
        let kind = met.err().map(|fault| fault.kind());
        return demand_fault(alloc, Some(ErrorKind::ConnectionRefused), kind);
    };
    for _ in 0..TURNS {
        if TcpListener::bind(rt, *addr).is_ok() {
            return Ok(());
        }
        thread::sleep(rt, Duration::from_millis(1));
    }
    Err(differs(alloc, "the address is free", "someone listens there"))
}

// Expects that the file of the server's Unix socket exists if `is_there`, and that it doesn't otherwise.
fn demand_file<R: Host>(
    rt: &R,
    alloc: Global,
    addr: &ListenAddr,
    is_there: bool,
) -> Result<(), Mishap> {
    let words = if is_there {
        "the file is there"
    } else {
        "the file is gone"
    };
    demand(alloc, words, rt.is_socket(path_in(addr)?) == is_there)
}

// Calls `stop` with this many milliseconds, and expects `Answered` if `is_answered` and `TimeOver` otherwise.
fn stop<R: Host>(
    alloc: Global,
    server: &Server<R>,
    (millis, is_answered): (u64, bool),
) -> Result<(), Mishap> {
    let stopped = server.stop(Duration::from_millis(millis));
    let wanted = if is_answered { "Answered" } else { "TimeOver" };
    let came = match stopped {
        Stopped::Answered => "Answered",
        Stopped::TimeOver => "TimeOver",
    };
    demand_text(alloc, wanted, came)
}

// Drops the scene's handle to the server, and with it the server unless a thread has another handle. Fails if the scene
// has no handle to a server.
fn let_go<R: Host>(hands: &mut Hands<R>) -> Result<(), Mishap> {
    match hands.server.take() {
        Some(server) => {
            drop(server);
            Ok(())
        }
        None => Err(Mishap::Unplayable("there is no server")),
    }
}

// Calls `serve`, and expects it to return the error `wanted`, or no error if `wanted` is `None`.
fn serve<R: Host>(
    alloc: Global,
    hands: &Hands<R>,
    wanted: Option<ErrorKind>,
) -> Result<(), Mishap> {
    let served = hands.server()?.serve(alloc, &hands.handler);
    demand_fault(alloc, wanted, served.err().map(|fault| fault.kind()))
}

// Calls `serve_by`, and expects it to return the error `wanted`, or no error if `wanted` is `None`.
fn serve_by<R: Host>(
    alloc: Global,
    hands: &Hands<R>,
    threads: usize,
    wanted: Option<ErrorKind>,
) -> Result<(), Mishap> {
    let served = hands.server()?.serve_by(alloc, threads, &*hands.handler);
    demand_fault(alloc, wanted, served.err().map(|fault| fault.kind()))
}

// Runs a step that receives a request. Hands any other step to `act_rival`.
fn act_giving<R: Host>(
    rt: &R,
    alloc: Global,
    hands: &mut Hands<R>,
    deed: ServerDeed<'_>,
) -> Result<(), Mishap> {
    let (given, came) = match deed {
        ServerDeed::Gives(target, name) => (Given::Request(target, name), next_given(rt, hands)?),
        ServerDeed::Keeps(target, name) => {
            (Given::Request(target, name), Ok(next_kept(rt, hands)))
        }
        ServerDeed::Recv(given) => (given, received(hands)?),
        ServerDeed::TryRecv(given) => (given, tried(rt, hands, given)?),
        ServerDeed::RecvTimeout(millis, given) => {
            let most = Duration::from_millis(millis);
            (given, hands.server()?.recv_timeout(most))
        }
        ServerDeed::Next(given) => (given, next_incoming(hands)?),
        _ => return act_rival(rt, alloc, hands, deed),
    };
    take_given(alloc, hands, given, came)
}

/// Runs a step on the server.
pub(crate) fn act_server<R: Host>(
    rt: &R,
    alloc: Global,
    hands: &mut Hands<R>,
    deed: ServerDeed<'_>,
) -> Result<(), Mishap> {
    match deed {
        ServerDeed::Unblock => match hands.server()?.unblock() {
            Ok(()) => Ok(()),
            Err(_) => Err(Mishap::OutOfMemory),
        },
        ServerDeed::Stop(millis, is_answered) => {
            stop(alloc, hands.server()?, (millis, is_answered))
        }
        ServerDeed::Drop => let_go(hands),
        ServerDeed::Serve(wanted) => serve(alloc, hands, wanted),
        ServerDeed::ServeBy(threads, wanted) => serve_by(alloc, hands, threads, wanted),
        ServerDeed::Clients(count) => demand_clients(rt, alloc, hands.server()?, count),
        ServerDeed::ClientsNow(count) => {
            demand_number(
                alloc,
                count as u64,
                hands.server()?.num_connections() as u64,
            )
        }
        ServerDeed::Count(field, number) => {
            demand_count(rt, alloc, hands.server()?, (field, number, false))
        }
        ServerDeed::CountFrom(field, number) => {
            demand_count(rt, alloc, hands.server()?, (field, number, true))
        }
        ServerDeed::AcceptFaults(least) => {
            let holds = hands.server()?.accept_faults() >= least;
            demand(alloc, "as many faults of accepting are counted", holds)
        }
        ServerDeed::OpensGate => {
            hands.handler.gate.store(true, Ordering::SeqCst);
            Ok(())
        }
        ServerDeed::File(is_there) => demand_file(rt, alloc, hands.addr()?, is_there),
        ServerDeed::LinksFile => link_beside(rt, alloc, hands.addr()?),
        ServerDeed::IsFree => demand_free(rt, alloc, hands.addr()?),
        _ => act_giving(rt, alloc, hands, deed),
    }
}

/// Connects a client to the scene's server, and stores it under the name `name`.
pub(crate) fn connect<R: Host>(
    rt: &R,
    alloc: Global,
    hands: &mut Hands<R>,
    name: &str,
) -> Result<(), Mishap> {
    let client = Client::connect(rt, alloc, hands.addr()?)?;
    add(alloc, &mut hands.props.clients, name, client)
}
