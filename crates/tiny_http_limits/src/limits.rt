//! The limits of a server on an open port.
ghost use Rattle.std.specs.Prelude.{◌≡◌, IfSome, IsSome};
ghost use Rattle.std.specs.Duration.{as_nanos};

use crate::times::Patience;
use std::time::Duration;

/// The limits that a server on an open port imposes on its clients. The defaults, as `Limits::new()` returns them, suit
/// a process that may have 1024 open file descriptors.
#[derive(Clone, Copy, Debug, PartialEq, Eq)]
pub struct Limits {
    /// Maximum number of open connections: 1000 by default. At the limit the server accepts no connection until one
    /// closes, and new clients wait in the system's accept queue. If the limit is 0, no connection is accepted.
    pub connections: usize,
    /// Maximum number of open connections from one IP address: 250 by default. A further connection is closed at once.
    /// Connections over a Unix socket have no address and aren't counted. Behind a proxy all clients have the proxy's
    /// address.
    pub connections_of_address: usize,
    /// Maximum time for a head once its first bytes have arrived: 30 seconds by default. A slower head is answered with
    /// 408. A body of up to 1024 bytes that is read with the head, and the rest of a body that is skipped before the
    /// head, count as part of it.
    pub head_time: Duration,
    /// Maximum time without a byte of a head: 60 seconds by default. After this time the connection is closed without a
    /// response. But if a request was open when the time began, the time starts over instead.
    pub idle_time: Duration,
    /// Maximum time that reads of a body may wait: 60 seconds by default. The bytes of the body give time back, as
    /// `least_rate` describes. Once the time is over, a read that got no bytes and each later read of the body report
    /// `TimedOut`, and the connection ends after the response.
    pub body_time: Duration,
    /// Maximum time that writes to the client may wait: 60 seconds by default. The bytes written give time back, as
    /// `least_rate` describes. Once the time is over, the output ends and the connection is closed.
    pub write_time: Duration,
    /// Minimum rate of a body, or of writes to the client, in bytes per second: 500 by default. Each byte gives back
    /// the time that it takes at this rate, but no more than was waited. So the reads of a body of N bytes wait at most
    /// `body_time` plus N / `least_rate` seconds, and writes likewise. If the rate is 0, there is no minimum: every
    /// 4096 bytes give back the whole time.
    pub least_rate: usize,
    /// Maximum time without a byte in either direction on an upgraded stream: 10 minutes by default; `None` means no
    /// limit. A read then reports `TimedOut`, and the connection is closed. The time begins with each read. But if
    /// bytes were written in this time, the time starts over instead, so a silence may last up to twice as long.
    pub stream_time: Option<Duration>,
    /// Maximum number of upgraded connections: 750 by default. A further upgrade fails with `UpgradeError::TooMany`. An
    /// upgraded connection counts until it is closed.
    pub upgrades: usize,
    /// Maximum number of open requests and refused heads of one connection: 64 by default. At the limit the next head
    /// isn't read. A request is open until that request and each one before it are answered or dropped. Values below 2
    /// count as 2.
    pub open_requests: usize,
    /// Maximum number of threads that a call to `serve` uses for its connections, and of those that read requests for
    /// `recv`: 1000 by default. A connection that waits for its client to send a head takes no thread. It takes one
    /// while its handler runs, while a request reads its input, while it is upgraded, and while its last responses are
    /// awaited. If all threads are busy, further connections wait for one. Values below 1 count as 1.
    pub workers: usize,
}

impl Limits {
    /// Returns the default limits. The documentation of each field states its default.
    pub fn new() -> Limits
        ensures connections { result.connections ≡ 1_000 }
        ensures of_address { result.connections_of_address ≡ 250 }
        ensures head { as_nanos result.head_time ≡ 30_000_000_000 }
        ensures idle { as_nanos result.idle_time ≡ 60_000_000_000 }
        ensures body { as_nanos result.body_time ≡ 60_000_000_000 }
        ensures write { as_nanos result.write_time ≡ 60_000_000_000 }
        ensures rate { result.least_rate ≡ 500 }
        ensures stream { IfSome result.stream_time (λ time. as_nanos time ≡ 600_000_000_000) }
        ensures ends { IsSome result.stream_time }
        ensures upgrades { result.upgrades ≡ 750 }
        ensures open_requests { result.open_requests ≡ 64 }
        ensures workers { result.workers ≡ 1_000 }
    {
        Limits {
            connections: 1_000,
            connections_of_address: 250,
            head_time: Duration::from_secs(30),
            idle_time: Duration::from_secs(60),
            body_time: Duration::from_secs(60),
            write_time: Duration::from_secs(60),
            least_rate: 500,
            stream_time: Some(Duration::from_secs(600)),
            upgrades: 750,
            open_requests: 64,
            workers: 1_000,
        }
    }

    /// Returns the limits of time and rate for reads of a body.
    pub fn body_patience(&self) -> Patience
        ensures { result ≡ record { time = self.now.body_time; least_rate = self.now.least_rate } }
    {
        Patience {
            time: self.body_time,
            least_rate: self.least_rate,
        }
    }

    /// Returns the limits of time and rate for writes to the client.
    pub fn write_patience(&self) -> Patience
        ensures { result ≡ record { time = self.now.write_time; least_rate = self.now.least_rate } }
    {
        Patience {
            time: self.write_time,
            least_rate: self.least_rate,
        }
    }
}
