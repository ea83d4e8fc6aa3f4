//! The date of the system clock, by which responses are dated.
ghost use Rattle.std.specs.Prelude.{◌≡◌};
ghost use Rattle.httpdate.specs.Date.{unix_secs};
ghost use Rattle.tiny_http_request.specs.Clock.{seconds_of};

use httpdate::HttpDate;
use std::time::{Clock, Duration};

/// Returns the date of the system clock, in whole seconds. Returns second 0 of 1970 if the clock can't be read, or is
/// before 1970 or after the year 9999.
pub fn current_date<R: Clock>(rt: &R) -> HttpDate {
    date_of(rt.since_1970().ok())
}

// Returns the date of this time since 1970, or second 0 of 1970 if there is no time or it is after the year 9999.
fn date_of(time: Option<Duration>) -> HttpDate
    ensures { unix_secs result ≡ seconds_of time }
{
    let seconds = time.map_or(0, |time| time.as_secs());
    match HttpDate::from_unix_secs(seconds) {
        Ok(date) => date,
        Err(_) => epoch(),
    }
}

// Returns the date of second 0 of 1970.
fn epoch() -> HttpDate
    ensures { unix_secs result ≡ 0 }
{
    match HttpDate::from_unix_secs(0) {
        Ok(date) => date,
        Err(_) => unreachable!(),
    }
}
