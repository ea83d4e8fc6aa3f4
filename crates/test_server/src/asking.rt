//! Test of a thread that sends the buffered bytes while another thread writes.
use crate::fixture::Host;
use crate::leaving::{Ends, HalfWriter, ends_of};
use std::alloc::Global;
use std::io::Read;
use std::os::unix::net::UnixStream;
use std::process::Abort;
use std::sync::{Arc, Barrier, Wait};
use std::thread;
use std::time::Duration;
use tiny_http::device::{WriteDevice, put};
use tiny_http::refined_tcp_stream::RefinedTcpStream;
use tiny_http_socket::cork::Cork;

// Number of rounds. Both threads start each round at the same time.
const ROUNDS: usize = 1_000;

// Length in bytes of the piece that is written after the first byte of a round.
const LENGTH: usize = 8_000;

// In each round, writes a byte, which stays in the buffer, and then a long piece while the other thread sends the byte;
// then flushes. In every other round, also flushes between the byte and the piece; this flush leaves the byte in the
// buffer, too.
fn write_rounds<R: Host>(rt: &R, mut writer: HalfWriter<R>, barrier: &Barrier) {
    let piece = [b'b'; LENGTH];
    for round in 0..ROUNDS {
        barrier.wait(rt);
        let _ = put(&mut writer, b"a");
        if round % 2 == 0 {
            let _ = writer.flush_out();
        }
        barrier.wait(rt);
        let _ = put(&mut writer, &piece);
        barrier.wait(rt);
        barrier.wait(rt);
        let _ = writer.flush_out();
    }
}

// Asserts that the byte arrives once the piece has been written and `send` has returned, and that the piece arrives
// once the writer has been flushed.
fn assert_round<R: Host>(
    rt: &R,
    peer: &mut UnixStream,
    cork: &Cork<RefinedTcpStream>,
    barrier: &Barrier,
) {
    cork.flush_policy().leave_at_flush();
    barrier.wait(rt);
    barrier.wait(rt);
    cork.send();
    barrier.wait(rt);
    peer.read_exact(&mut [0u8; 1]).expect(rt, "what was left");
    barrier.wait(rt);
    peer.read_exact(&mut [0u8; LENGTH]).expect(rt, "the rest");
}

// Asserts that in each round the byte left in the buffer is sent, whichever thread has the lock.
fn assert_sends_what_is_left<R: Host>(rt: &R, alloc: Global) {
    let Ends {
        mut peer,
        cork,
        reader,
        writer,
    } = ends_of(rt, alloc, Duration::from_secs(5));
    let barrier = Arc::new(alloc, Barrier::new(2)).ok();
    let barrier = barrier.expect(rt, "memory");
    let theirs = Arc::try_clone(&barrier).ok().expect(rt, "memory");
    let runtime = *rt;
    let handle = thread::spawn(rt, move || write_rounds(&runtime, writer, &theirs));
    let handle = handle.ok().expect(rt, "a thread");
    for _ in 0..ROUNDS {
        assert_round(rt, &mut peer, &cork, &barrier);
    }
    handle.join(rt);
    drop(reader);
}

#[test]
fn what_is_left_is_sent_while_another_thread_writes(rt: HostRuntime) {
    assert_sends_what_is_left(&rt, rt.alloc());
}
