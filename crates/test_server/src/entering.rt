//! Test of a roster that threads enter under a lock, and of the ledger shares that count their entries.
ghost use Rattle.std.specs.Prelude.{◌≡◌, ◌+◌, ◌<◌, ◌≤◌};

use crate::same::assert_same;
use std::marker::Brand;
use std::sync::Wait;
use std::sync::ledger::{Blank, Ledger, Share};
use std::thread;
use std::thread::Threads;
use tiny_http::roster::Roster;

// Enters the roster `times` times. Returns the share, and the number of entries that succeeded.
fn enters<L: Ledger, R: Wait>(
    rt: &R,
    roster: &Roster<L>,
    mut mine: Share<L>,
    times: u8,
) -> (Share<L>, u64)
    requires { 0 < mine.parts }
    ensures amount { result.0.amount ≡ mine.amount + result.1 }
    ensures parts { result.0.parts ≡ mine.parts }
    ensures few { result.1 ≤ times }
{
    let mut entered = 0;
    for _ in 0..times {
        if roster.enter(rt, &mut mine) {
            entered += 1;
        }
    }
    (mine, entered)
}

// Enters the roster twice on each of two threads. Returns their merged shares, and the number of entries that
// succeeded.
fn two_threads<L: Ledger + Send + Sync, R: Threads + Wait + Sync>(
    rt: &R,
    roster: &Roster<L>,
    first: Share<L>,
    second: Share<L>,
) -> (Share<L>, u64)
    requires first { 0 < first.parts }
    requires second { 0 < second.parts }
    ensures amount { result.0.amount ≡ first.amount + second.amount + result.1 }
    ensures parts { result.0.parts ≡ first.parts + second.parts }
    ensures few { result.1 ≤ 4 }
{
    let ((mut both, one), (other, two)) = thread::join(
        rt,
        move || enters(rt, roster, first, 2),
        move || enters(rt, roster, second, 2),
    );
    both.merge(other);
    (both, one + two)
}

// Enters a new roster twice on each of three threads, which have one share each. Returns the number of entries that
// succeeded, the roster's count, and the count that closing the roster returns.
fn three_threads<L: Ledger + Send + Sync, R: Threads + Wait + Sync>(
    rt: &R,
    blank: Blank,
) -> (u64, u64, u64)
    requires name { blank.name ≡ L.name }
    requires parts { blank.parts ≡ L.parts }
    requires three { blank.parts ≡ 3 }
    ensures { result.2 ≡ result.0 }
{
    let (book, mut first) = blank.open::<L>();
    let roster = Roster::new(book);
    let second = first.split_off(1, 0);
    let third = first.split_off(1, 0);
    let shared = &roster;
    let ((mut all, one), (others, two)) = thread::join(
        rt,
        move || enters(rt, shared, first, 2),
        move || -> (Share<L>, u64)
            requires { (0 < second.parts) × (0 < third.parts) }
            ensures { (result.0.amount ≡ second.amount + third.amount + result.1)
                × (result.0.parts ≡ second.parts + third.parts)
                × (result.1 ≤ 4) }
        { two_threads(rt, shared, second, third) },
    );
    all.merge(others);
    let counted = roster.count(rt);
    (one + two, counted, roster.close(&mut all))
}

#[test]
fn three_threads_enter_twice(rt: HostRuntime) {
    let (entered, counted, closed) = three_threads::<Brand, _>(&rt, Blank::new(3));
    assert_same(&rt, (entered, counted, closed), (6, 6, 6));
}
