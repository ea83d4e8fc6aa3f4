//! Test of many threads that respond to the requests of one connection.
use crate::memory_fixture::{
    Asked, Bench, DROPPED, TEXT, assert_output, connect, is_reached, next, now, text,
};
use httpdate::HttpDate;
use std::alloc::Global;
use std::fmt::Write as _;
use std::io::Write;
use std::sync::atomic::{AtomicU64, Ordering};
use std::sync::{Arc, Wait};
use std::test::Fail;
use std::thread::{JoinHandle, Threads};
use std::time::Clock;
use std::{io, thread};

const THREADS: usize = 8;

// Number of requests that each thread gets.
const EACH: usize = 250;

// A request and its number.
#[derive(Drop)]
struct Dealt<R: Wait + Clock + Copy> {
    number: usize,
    request: Asked<R>,
}

// The requests of a thread.
type Share<R> = Vec<Dealt<R>>;

// Handles a request according to its number: of every four requests, drops the first, writes raw bytes for the second,
// and responds to the other two.
fn treat<R: Wait + Clock + Copy>(
    alloc: Global,
    date: HttpDate,
    number: usize,
    request: Asked<R>,
) -> io::Result<()> {
    match number % 4 {
        0 => request.abandon(),
        1 => {
            let words = format!(in alloc; "raw {number}\n")?;
            request.into_writer().write_all(words.as_bytes())?;
        }
        _ => {
            let words = format!(in alloc; "{number:04}")?;
            request.respond(text(alloc, words.as_str())?, date)?;
        }
    }
    Ok(())
}

// Handles the requests of one thread, and then counts the thread in `done`. Returns the number of requests that were
// handled without an error.
fn treat_all<R: Wait + Clock + Copy>(
    alloc: Global,
    date: HttpDate,
    share: Share<R>,
    done: &AtomicU64,
) -> usize {
    let mut well = 0usize;
    for Dealt { number, request } in share {
        if treat(alloc, date, number, request).is_ok() {
            well = well.saturating_add(1);
        }
    }
    done.fetch_add(1, Ordering::SeqCst);
    well
}

// Deals eight requests in each round, one to each thread, in an order that changes from round to round.
fn deal<R: Wait + Clock + Copy>(
    alloc: Global,
    bench: &mut Bench<R>,
    shares: &mut Vec<Share<R>>,
) -> Result<(), Fail> {
    for _ in 0..THREADS {
        shares.push(Vec::new(alloc))?;
    }
    let mut mixed = 12_345usize;
    for number in 0..THREADS * EACH {
        let round = number % THREADS;
        if round == 0 {
            mixed = mixed.wrapping_mul(1_103_515_245).wrapping_add(12_345) % 2_147_483_648;
        }
        // Odd numbers are coprime to 8, so each round deals to each thread once.
        let at = round.wrapping_mul(mixed | 1).wrapping_add(mixed >> 8) % THREADS;
        let request = next(bench)?;
        if let Some(share) = shares.get_mut(at) {
            share.push(Dealt { number, request })?;
        }
    }
    Ok(())
}

fn start<R: Threads + Wait + Clock + Copy + Send + Sync + 'static>(
    rt: R,
    alloc: Global,
    shares: Vec<Share<R>>,
    done: &Arc<AtomicU64>,
) -> Result<Vec<JoinHandle<usize>>, Fail> {
    let mut handles = Vec::new(alloc);
    let date = now()?;
    for share in shares {
        let counted = Arc::try_clone(done)?;
        let handle = thread::spawn(&rt, move || treat_all(alloc, date, share, &counted));
        handles.push(handle.map_err(|_| "no thread")?)?;
    }
    Ok(handles)
}

// Returns the output that the client must get.
fn wanted(alloc: Global) -> Result<String, Fail> {
    let mut wanted = String::new(alloc);
    for number in 0..THREADS * EACH {
        match number % 4 {
            0 => wanted.push_str(DROPPED)?,
            1 => write!(wanted, "raw {number}\n")?,
            _ => write!(wanted, "{TEXT}Content-Length: 4\r\n\r\n{number:04}")?,
        }
    }
    Ok(wanted)
}

// If a turn were lost or a thread not woken, the threads would not be done in time.
#[test]
fn each_segment_comes_once_and_in_order(rt: HostRuntime) -> Result<(), Fail> {
    let alloc = rt.alloc();
    let mut client = Vec::new(alloc);
    for _ in 0..THREADS * EACH {
        client.extend_from_slice(b"GET / HTTP/1.1\r\n\r\n")?;
    }
    let mut bench = connect(rt, alloc, client.as_slice())?;
    let mut shares = Vec::new(alloc);
    deal(alloc, &mut bench, &mut shares)?;
    let done = Arc::new(alloc, AtomicU64::new(0))?;
    let handles = start(rt, alloc, shares, &done)?;
    assert!(rt; is_reached(&rt, &done, THREADS as u64));
    for handle in handles {
        assert_eq!(rt; handle.join(&rt), EACH);
    }
    assert_output(&rt, &bench.output, wanted(alloc)?.as_str())
}
