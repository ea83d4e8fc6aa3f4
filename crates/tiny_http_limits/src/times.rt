//! Timeouts, with a minimum rate.
ghost use Rattle.std.specs.Prelude.{◌≡◌, ◌+◌, ◌-◌, ◌<◌, ◌≤◌, ◌↔◌, IsTrue, false};
ghost use Rattle.std.specs.Duration.{as_nanos};
ghost use Rattle.tiny_http_limits.specs.Times.{LeavesTime, IsFresh, AddsCall, GivesBack, nanos_of_bytes};

use std::time::Duration;

/// The number of bytes after which the time to wait starts over, if there is no minimum rate.
pub const PIECE: usize = 4_096;

// The number of nanoseconds in a second.
const NANOS: u64 = 1_000_000_000;

/// Returns how much of `time`, counted from `begun`, remains at `now`, or `None` if it has run out. `begun` and `now`
/// are readings of one clock; if the clock went backwards, all of `time` remains.
pub fn time_left(begun: Duration, now: Duration, time: Duration) -> Option<Duration>
    ensures { LeavesTime (as_nanos now - as_nanos begun) (as_nanos time) result }
{
    let gone = now.saturating_sub(begun);
    let left = time.saturating_sub(gone);
    if left.is_zero() {
        return None;
    }
    Some(left)
}

// Returns the time that these bytes take at `rate` bytes per second. Their time at one byte per second saturates at
// 2^64 - 1 nanoseconds before it is divided by the rate.
fn time_of_bytes(bytes: usize, rate: usize) -> Duration
    requires { 0 < rate }
    ensures { as_nanos result ≡ nanos_of_bytes bytes rate }
{
    let nanos = (bytes as u64).saturating_mul(NANOS);
    Duration::from_nanos(nanos / rate as u64)
}

/// The time for which the server waits for a client, and the rate at which the client's bytes extend it.
#[derive(Clone, Copy, Debug, PartialEq, Eq)]
pub struct Patience {
    /// The maximum time to wait, not counting the time that the client's bytes give back.
    pub time: Duration,
    /// The rate, in bytes per second, at which bytes give time back. If it is 0, every 4096 bytes give back the whole
    /// time.
    pub least_rate: usize,
}

/// The time spent waiting for a client, less the time that the client's bytes gave back.
#[derive(Clone, Copy, Debug, PartialEq, Eq)]
pub struct Stall {
    waited: Duration,
    // The bytes moved since time was last given back. The field is used only if there is no minimum rate.
    moved: usize,
}

impl Stall {
    /// Returns a stall with no time waited and no bytes moved.
    pub fn new() -> Stall
        ensures { IsFresh result }
    {
        Stall {
            waited: Duration::from_secs(0),
            moved: 0,
        }
    }

    /// Returns `time` less the time waited, but not less than 0.
    pub fn left(&self, time: Duration) -> Duration
        ensures { as_nanos result ≡ as_nanos time - as_nanos self.now.waited }
    {
        time.saturating_sub(self.waited)
    }

    /// Counts a call that waited for this time and moved this number of bytes. Returns whether the time is over.
    ///
    /// The bytes give time back, but no more than was waited. The time is over once the time waited, less what was
    /// given back, is at least `patience.time`. If the rate is 0 and this call completed a piece of 4096 bytes, the
    /// time isn't over, and the stall starts anew.
    pub fn count(&mut self, waited: Duration, moved: usize, patience: Patience) -> bool
        ensures rate { 0 < patience.least_rate
            → GivesBack self.old (as_nanos waited) moved patience.least_rate self.new }
        ensures late { 0 < patience.least_rate
            → (IsTrue result ↔ (as_nanos patience.time ≤ as_nanos self.new.waited)) }
        ensures whole { patience.least_rate ≡ 0 → 4_096 ≤ self.old.moved + moved
            → (result ≡ false) × IsFresh self.new }
        ensures part { patience.least_rate ≡ 0 → self.old.moved + moved < 4_096
            → AddsCall self.old (as_nanos waited) moved self.new }
        ensures over { patience.least_rate ≡ 0 → self.old.moved + moved < 4_096
            → (IsTrue result ↔ (as_nanos patience.time ≤ as_nanos self.new.waited)) }
    {
        let (time, least_rate) = (patience.time, patience.least_rate);
        if least_rate == 0 {
            return self.count_piece(waited, moved, time);
        }
        let waited = self.waited.saturating_add(waited);
        self.waited = waited.saturating_sub(time_of_bytes(moved, least_rate));
        self.waited.as_nanos() >= time.as_nanos()
    }

    // Counts a call as `count` does at a rate of 0: each piece of 4096 bytes gives back the whole time.
    fn count_piece(&mut self, waited: Duration, moved: usize, time: Duration) -> bool
        ensures whole { 4_096 ≤ self.old.moved + moved → (result ≡ false) × IsFresh self.new }
        ensures part { self.old.moved + moved < 4_096 → AddsCall self.old (as_nanos waited) moved self.new }
        ensures over { self.old.moved + moved < 4_096 → (IsTrue result ↔ (as_nanos time ≤ as_nanos self.new.waited)) }
    {
        let moved = self.moved.saturating_add(moved);
        if moved >= PIECE {
            *self = Stall::new();
            return false;
        }
        let waited = self.waited.saturating_add(waited);
        *self = Stall { waited, moved };
        waited.as_nanos() >= time.as_nanos()
    }
}
