//! Test of `current_date`.
use crate::same::{assert_holds, assert_same};
use httpdate::HttpDate;
use std::io;
use std::io::ErrorKind;
use std::process::Abort;
use std::time::{Clock, Duration};
use tiny_http::server::current_date;

// A clock that always shows the same time, in milliseconds since 1970, or can't be read.
#[derive(Drop)]
struct FixedClock(Option<u64>);

impl Clock for FixedClock {
    fn monotonic(&self) -> io::Result<Duration> {
        Err(ErrorKind::Unsupported.into())
    }

    fn since_1970(&self) -> io::Result<Duration> {
        match self.0 {
            Some(millis) => Ok(Duration::from_millis(millis)),
            None => Err(ErrorKind::InvalidData.into()),
        }
    }
}

// Asserts that `current_date` returns the date of Unix second `wanted` if the clock is at `millis` milliseconds, or, if
// `millis` is `None`, can't be read.
fn assert_seconds(rt: &impl Abort, millis: Option<u64>, wanted: u64) {
    let found = current_date(&FixedClock(millis));
    let wanted = HttpDate::from_unix_secs(wanted).expect(rt, "a date");
    assert_same(rt, (millis, found), (millis, wanted));
}

// Times of a clock in milliseconds since 1970, or `None` if the clock can't be read, and the date that `current_date`
// returns, in seconds since 1970.
const TIMES: [(Option<u64>, u64); 6] = [
    (Some(0), 0),
    (Some(999), 0),
    (Some(420_895_020_999), 420_895_020),
    (Some(253_402_300_799_999), 253_402_300_799),
    (Some(253_402_300_800_000), 0),
    (None, 0),
];

#[test]
fn whole_seconds_of_a_clock(rt: HostRuntime) {
    for (millis, wanted) in TIMES {
        assert_seconds(&rt, millis, wanted);
    }
    let now = current_date(&rt).unix_secs();
    assert_holds(&rt, "the clock goes on", now > 1_700_000_000);
}
