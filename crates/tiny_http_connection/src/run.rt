//! Runs a list of steps on one connection.
ghost use Rattle.std.specs.Prelude.{◌≡◌, ◌<◌, ◌≤◌, [], length, IfOk, IfErr, OnErr, vec_len, vec_capacity};
ghost use Rattle.tiny_http_connection.specs.Runs.{IsConversationOf, RunsSteps};

use crate::driver::{Connection, Reply, Timed};
use std::alloc::{AllocError, Global};
use tiny_http_body::framing::Profile;
use tiny_http_io::device::{ReadDevice, WriteDevice};
use tiny_http_io::outlet::Outlet;
use tiny_http_io::source::Source;

/// The result of a run: one reply per step, and the reader and writer with their buffers.
#[derive(Drop)]
pub struct Record<R: ReadDevice, W: WriteDevice> {
    /// The reply to each step.
    pub replies: Vec<Reply>,
    /// The reader, with the bytes held in its buffer. If the last body was neither read to its end nor given up, the
    /// rest of that body comes next; otherwise, if requests may still follow, the next head does.
    pub source: Source<R>,
    /// The writer, with the bytes held in its buffer. The output is what the writer took, followed by what is held.
    pub outlet: Outlet<W>,
}

/// An error of a run: memory for the replies couldn't be allocated, and nothing was read or written. A run with no
/// steps never fails.
#[derive(Drop)]
pub struct RunError<R, W> {
    /// The reader, unchanged.
    pub reader: R,
    /// The writer, unchanged.
    pub writer: W,
}

// Returns an empty vector with room for `count` replies. Requests no memory if `count` is 0.
fn room_for(alloc: Global, count: usize) -> Result<Vec<Reply>, AllocError>
    ensures items { IfOk result (λ v. v.items ≡ []) }
    ensures len { IfOk result (λ v. vec_len v ≡ 0) }
    ensures room { IfOk result (λ v. count ≤ vec_capacity v) }
    ensures asked { OnErr result (0 < count) }
{
    if count == 0 {
        return Ok(Vec::new(alloc));
    }
    Vec::with_capacity(alloc, count)
}

/// Runs the steps on a connection under `Lenient`, with one reply per step.
///
/// The connection theorem applies if the reader states its bytes; the writer states that it has taken none, has not
/// ended and can count a failure; and the data of each `Respond` states fewer than 2^63 bytes. The requests that the
/// connection hands out are then the first of those that the grammar finds in the client's bytes. The reads of each
/// body give that body's bytes, and report its end only after them. The output is one segment for each request or
/// refused head, in order, up to the first that isn't finished or that a fault cuts short. If the writer failed, the
/// output is a prefix of these segments.
///
/// Fails if memory for the replies can't be allocated.
pub fn run<R: ReadDevice + Drop, W: WriteDevice + Drop, D: ReadDevice + Drop>(
    alloc: Global,
    reader: R,
    writer: W,
    steps: Vec<Timed<D>>,
) -> Result<Record<R, W>, RunError<R, W>>
    // The connection theorem.
    ensures conversation { IfOk result
        (IsConversationOf R.feed W.sink D.feed Profile.Lenient reader writer steps.items) }
    // Holds whatever the reader, the writer and the data state.
    ensures run { IfOk result (RunsSteps R.feed R.stop_count W.sink D.feed Profile.Lenient reader writer steps.items) }
    ensures err { IfErr result (λ e. (e.reader ≡ reader) × (e.writer ≡ writer)) }
    ensures asked { OnErr result (0 < length steps.items) }
{
    run_with(alloc, Profile::Lenient, reader, writer, steps)
}

/// Runs the steps on a connection under this profile, with one reply per step.
///
/// The connection theorem applies if the reader states its bytes; the writer states that it has taken none, has not
/// ended and can count a failure; and the data of each `Respond` states fewer than 2^63 bytes. The requests that the
/// connection hands out are then the first of those that the grammar finds in the client's bytes. The reads of each
/// body give that body's bytes, and report its end only after them. The output is one segment for each request or
/// refused head, in order, up to the first that isn't finished or that a fault cuts short. If the writer failed, the
/// output is a prefix of these segments.
///
/// Fails if memory for the replies can't be allocated.
pub fn run_with<R: ReadDevice + Drop, W: WriteDevice + Drop, D: ReadDevice + Drop>(
    alloc: Global,
    profile: Profile,
    reader: R,
    writer: W,
    steps: Vec<Timed<D>>,
) -> Result<Record<R, W>, RunError<R, W>>
    // The connection theorem.
    ensures conversation { IfOk result (IsConversationOf R.feed W.sink D.feed profile reader writer steps.items) }
    // Holds whatever the reader, the writer and the data state.
    ensures run { IfOk result (RunsSteps R.feed R.stop_count W.sink D.feed profile reader writer steps.items) }
    ensures err { IfErr result (λ e. (e.reader ≡ reader) × (e.writer ≡ writer)) }
    ensures asked { OnErr result (0 < length steps.items) }
{
    let Ok(mut replies) = room_for(alloc, steps.len()) else {
        return Err(RunError { reader, writer });
    };
    let mut connection = Connection::new_with(alloc, profile, reader, writer);
    for timed in steps {
        let reply = connection.step(alloc, timed);
        replies.push_reserved(reply);
    }
    let (source, outlet) = connection.into_parts();
    Ok(Record {
        replies,
        source,
        outlet,
    })
}
