//! The server for benchmarks, and for trials by hand on an open port.
//!
//! `bench_server [--lenient|--strict|--standard] [--connections N] ADDRESS` answers every request with `hello world`,
//! through a handler. Requests are read under the named profile, by default `Standard`, and clients have the default
//! limits: 1,000 connections, and 250 from one address. `--connections N` raises or lowers both limits to N. Once a
//! minute, and when it stops, the server prints its counts; it keeps serving if nobody reads them. A `stop` line on
//! standard input stops it; it then waits at most 10 seconds for open requests and connections.
//!
//! `bench_server --bodies recv|serve ADDRESS FILE` reads bodies and sends long bodies (module `bodies`).
#![tactic(auto)]

ghost use Rattle.std.specs.Prelude.{◌≡◌};

mod bodies;

use crate::bodies::{Data, serve_bodies};
use std::alloc::{AllocError, Global};
use std::io::{BufRead, ErrorKind, Input, Write};
use std::process::ExitCode;
use std::rt::Env;
use std::sync::atomic::{AtomicBool, Ordering};
use std::sync::{Arc, Wait};
use std::time::{Clock, Duration};
use std::{env, fs, io, thread};
use thiserror::Error;
use tiny_http::response::Response;
use tiny_http::server::{Server, ServerError, ServerRequest, ServerRuntime, current_date};
use tiny_http::serving::Handler;
use tiny_http::{Limits, Profile, ServerOptions};

// Seconds between two lines of counts.
const REPORT_SECS: u64 = 60;

// Maximum number of seconds that a stop waits for open requests and connections.
const STOP_SECS: u64 = 10;

// Maximum time that the program waits for its last line to be printed, in tenths of a second. Printing may block
// forever if nobody reads.
const PRINT_TENTHS: u32 = 30;

/// The reason why the program can't serve, or stopped serving.
#[derive(Debug, Drop, Error)]
pub enum BenchFault {
    /// The arguments don't match the usage.
    #[error("usage: bench_server [--lenient|--strict|--standard] [--connections N] ADDRESS | --bodies recv|serve ADDRESS FILE")]
    Usage,
    /// The server can't be created, for example because it can't listen on the address.
    #[error("cannot listen: {0}")]
    CannotListen(ServerError),
    /// Serving failed, or the file to send can't be read.
    #[error("cannot serve: {0}")]
    Serving(io::Error),
    /// Memory can't be allocated, or a thread can't be started.
    #[error("out of memory")]
    OutOfMemory,
}

impl From<ServerError> for BenchFault {
    ghost use Rattle.bench_server.specs.declared.BenchFault.TheVariants.{CannotListen};

    ghost from_gives = { λ fault result. result ≡ CannotListen fault };

    fn from(fault: ServerError) -> BenchFault {
        BenchFault::CannotListen(fault)
    }
}

impl From<io::Error> for BenchFault {
    ghost use Rattle.bench_server.specs.declared.BenchFault.TheVariants.{Serving};

    ghost from_gives = { λ fault result. result ≡ Serving fault };

    fn from(fault: io::Error) -> BenchFault {
        BenchFault::Serving(fault)
    }
}

impl From<AllocError> for BenchFault {
    ghost use Rattle.bench_server.specs.declared.BenchFault.TheVariants.{OutOfMemory};

    ghost from_gives = { λ error result. result ≡ OutOfMemory };

    fn from(_error: AllocError) -> BenchFault {
        BenchFault::OutOfMemory
    }
}

// A handler that answers every request with `hello world`.
#[derive(Drop)]
struct Hello;

impl<R: Wait + Clock + Drop> Handler<R, ServerRequest<R>> for Hello {
    /// Answers a request, or drops it if memory for the response can't be allocated.
    fn handle(&self, rt: &R, alloc: Global, request: ServerRequest<R>) -> io::Result<()> {
        let text = String::from_str(alloc, "hello world")?;
        let response = Response::from_string(alloc, text)?;
        request.respond(response, current_date(rt))
    }

    /// Drops the error.
    fn on_error(&self, _rt: &R, _alloc: Global, _error: io::Error) {}
}

// Parses the option that names a profile.
fn profile_of(word: &str) -> Option<Profile> {
    match word {
        "--lenient" => Some(Profile::Lenient),
        "--strict" => Some(Profile::Strict),
        "--standard" => Some(Profile::Standard),
        _ => None,
    }
}

// The parsed arguments.
#[derive(Clone, Copy)]
struct Options<'a> {
    profile: Profile,
    limits: Limits,
    address: &'a str,
}

// Parses the arguments: options that name the profile (`Standard` by default) and the connection limit, then the
// address.
fn asked(words: &[String]) -> Result<Options<'_>, BenchFault> {
    let Some((address, words)) = words.split_last() else {
        return Err(BenchFault::Usage);
    };
    let mut options = Options {
        profile: Profile::Standard,
        limits: Limits::new(),
        address: address.as_str(),
    };
    let mut words = words.iter();
    for _ in 0..words.len() {
        let Some(word) = words.next() else { break };
        if let Some(profile) = profile_of(word.as_str()) {
            options.profile = profile;
        } else if word.as_str() == "--connections" {
            let most = words.next().and_then(|most| most.as_str().parse().ok());
            let most: usize = most.ok_or(BenchFault::Usage)?;
            options.limits.connections = most;
            options.limits.connections_of_address = most;
        } else {
            return Err(BenchFault::Usage);
        }
    }
    Ok(options)
}

// Creates a server that listens on the address in the arguments, with the profile and the limits that they give.
fn listen<R: ServerRuntime>(
    rt: R,
    alloc: Global,
    words: &[String],
) -> Result<Arc<Server<R>>, BenchFault> {
    let options = asked(words)?;
    let open_port = ServerOptions::open_port().with_profile(options.profile);
    let server = Server::bind(
        rt,
        alloc,
        options.address,
        open_port.with_limits(options.limits),
    )?;
    Ok(Arc::new(alloc, server).map_err(|_| AllocError)?)
}

// Stops the server once a `stop` line arrives. Returns without stopping it if the input ends or fails before that.
fn stop_when_told<R: ServerRuntime, I: BufRead + Drop>(
    rt: &R,
    alloc: Global,
    server: &Server<R>,
    mut input: I,
) {
    for _ in rt.forever() {
        let mut line = String::new(alloc);
        match input.read_line(&mut line) {
            Ok(n) if n > 0 => {}
            _ => return,
        }
        if line.as_str().trim_end() == "stop" {
            let _ = server.stop(Duration::from_secs(STOP_SECS));
            return;
        }
    }
}

// Prints the server's counts.
fn print_counts<R: ServerRuntime, O: Write>(server: &Server<R>, out: &mut O) {
    let counts = server.counts();
    let _ = writeln!(out, "{counts}");
    let _ = out.flush();
}

// Whether serving and reporting have ended.
#[derive(Drop)]
struct Progress {
    // Whether serving has ended.
    has_ended: AtomicBool,
    // Whether the last line has been printed.
    has_printed: AtomicBool,
}

// Prints the address at which the server listens, then the server's counts once a minute, and once more when serving
// has ended.
fn report_progress<R: ServerRuntime, O: Write>(
    rt: &R,
    server: &Server<R>,
    progress: &Progress,
    out: &mut O,
) {
    let _ = writeln!(out, "listening on {}", server.server_addr());
    let _ = out.flush();
    let mut seconds = 0u64;
    for _ in rt.forever() {
        if progress.has_ended.load(Ordering::SeqCst) {
            break;
        }
        thread::sleep(rt, Duration::from_secs(1));
        seconds = seconds.saturating_add(1);
        if seconds >= REPORT_SECS {
            seconds = 0;
            print_counts(server, out);
        }
    }
    print_counts(server, out);
    progress.has_printed.store(true, Ordering::SeqCst);
}

// Waits until the last line has been printed, for at most `PRINT_TENTHS` tenths of a second: the thread that prints may
// block forever if nobody reads.
fn wait_for_report<R: Wait + Clock>(rt: &R, progress: &Progress) {
    for _ in 0..PRINT_TENTHS {
        if progress.has_printed.load(Ordering::SeqCst) {
            return;
        }
        thread::sleep(rt, Duration::from_millis(100));
    }
}

// Answers all requests until the server is stopped or fails.
fn answer_all<R: ServerRuntime>(alloc: Global, server: &Server<R>) -> Result<(), BenchFault> {
    let handler = Arc::new(alloc, Hello).map_err(|_| AllocError)?;
    server.serve(alloc, &handler)?;
    Ok(())
}

// Listens on the address in the arguments, and answers all requests. Two more threads read the input and print. Input
// and output have type parameters of their own: a thread can't use a trait bound such as `Input`, whose associated type
// isn't `Send`.
fn serve<R, I, O>(
    rt: R,
    alloc: Global,
    words: &[String],
    input: I,
    out: O,
) -> Result<(), BenchFault>
where
    R: ServerRuntime + Sync,
    I: BufRead + Send + Drop + 'static,
    O: Write + Send + Drop + 'static,
{
    let server = listen(rt, alloc, words)?;
    let mut out = out;
    let (told, counted) = (Arc::try_clone(&server)?, Arc::try_clone(&server)?);
    if thread::spawn(&rt, move || stop_when_told(&rt, alloc, &told, input)).is_err() {
        return Err(BenchFault::OutOfMemory);
    }
    let progress = Progress {
        has_ended: AtomicBool::new(false),
        has_printed: AtomicBool::new(false),
    };
    let progress = Arc::new(alloc, progress).map_err(|_| AllocError)?;
    let shown = Arc::try_clone(&progress)?;
    if thread::spawn(
        &rt,
        move || report_progress(&rt, &counted, &shown, &mut out),
    )
    .is_err()
    {
        return Err(BenchFault::OutOfMemory);
    }
    let served = answer_all(alloc, &server);
    progress.has_ended.store(true, Ordering::SeqCst);
    wait_for_report(&rt, &progress);
    served
}

// Reports an error on one line, and returns the exit status: 2 for a usage error, 1 for any other error.
fn report<E: Write>(fault: &BenchFault, err: &mut E) -> u8 {
    let _ = writeln!(err, "bench_server: {fault}");
    if matches!(fault, BenchFault::Usage) {
        return 2;
    }
    1
}

/// Listens on the address in the arguments, and answers every request with `hello world` until a `stop` line arrives on
/// `input`. Another thread prints the server's address and counts on `out`. Returns the exit status: 0; 2 if the
/// arguments don't match the usage; 1 if the server can't listen, serving fails, memory can't be allocated, or a thread
/// can't be started. A line on `err` reports the error.
pub fn serve_hello<R, I, O, E: Write>(
    rt: R,
    alloc: Global,
    words: &[String],
    input: I,
    out: O,
    err: &mut E,
) -> u8
where
    R: ServerRuntime + Sync,
    I: BufRead + Send + Drop + 'static,
    O: Write + Send + Drop + 'static,
{
    match serve(rt, alloc, words, input, out) {
        Ok(()) => 0,
        Err(fault) => report(&fault, err),
    }
}

// Returns the words of the command line, the program's name first. An argument that isn't UTF-8 is a usage error.
fn words<R: Env + AllocGlobal>(rt: &R) -> Result<Vec<String>, BenchFault> {
    match env::args(rt) {
        Ok(words) => Ok(words.collect(rt.alloc())?),
        Err(fault) if fault.kind() == ErrorKind::OutOfMemory => Err(BenchFault::OutOfMemory),
        Err(_) => Err(BenchFault::Usage),
    }
}

// Reads the file that is sent.
fn read_data(rt: HostRuntime, alloc: Global, name: &str) -> Result<Data, BenchFault> {
    let bytes = fs::read(&rt, name)?;
    let name = String::from_str(alloc, name)?;
    Ok(Data { name, bytes })
}

fn main(rt: HostRuntime) -> ExitCode {
    let mut err = rt.stderr();
    let words = match words(&rt) {
        Ok(words) => words,
        Err(fault) => return ExitCode::from(report(&fault, &mut err)),
    };
    let words = words.as_slice().get(1..).unwrap_or(&[]);
    if words.first().is_none_or(|word| word.as_str() != "--bodies") {
        return ExitCode::from(serve_hello(
            rt,
            rt.alloc(),
            words,
            rt.reader(),
            rt.stdout(),
            &mut err,
        ));
    }
    let [_, how, address, name] = words else {
        return ExitCode::from(report(&BenchFault::Usage, &mut err));
    };
    let served = match read_data(rt, rt.alloc(), name.as_str()) {
        Ok(data) => {
            serve_bodies(
                rt,
                rt.alloc(),
                how.as_str(),
                address.as_str(),
                data,
                &mut rt.stdout(),
            )
        }
        Err(fault) => Err(fault),
    };
    match served {
        Ok(()) => ExitCode::from(0),
        Err(fault) => ExitCode::from(report(&fault, &mut err)),
    }
}
