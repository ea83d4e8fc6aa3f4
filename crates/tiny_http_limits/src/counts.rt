//! The counters of a server.
ghost use Rattle.std.specs.Prelude.{◌≡◌, Some};
ghost use Rattle.tiny_http_limits.specs.Counts.{no_refusals, no_counts, add_count, one_more, with_refusal};
ghost use Rattle.tiny_http_limits.specs.Counts.{with_closing, with_end};

use std::fmt;

/// The limit that closed a connection.
#[derive(Clone, Copy, Debug, PartialEq, Eq)]
pub enum Closing {
    /// No byte of a head arrived in time, or an upgraded stream was silent for too long.
    Idle,
    /// A head took too long.
    Head,
    /// A body took too long.
    Body,
    /// The client took too long to read what was sent to it.
    Write,
}

/// The outcome of a connection.
#[derive(Clone, Copy, Debug, PartialEq, Eq)]
pub struct Summary {
    /// The number of requests that were handed to the application.
    pub requests: u64,
    /// The status code of the response to the refused head that ended the connection's requests, if there was one.
    pub refusal: Option<u16>,
    /// The limit that closed the connection, if one did.
    pub closing: Option<Closing>,
}

/// The number of refused heads, by the status code of the response.
#[derive(Clone, Copy, Debug, PartialEq, Eq)]
pub struct Refusals {
    /// 400: a malformed head, or a head whose host or body framing is invalid.
    pub bad_request: u64,
    /// 408: a head, or a body that is read with its head, that took too long.
    pub request_timeout: u64,
    /// 414: a request line that is too long.
    pub uri_too_long: u64,
    /// 417: an unknown expectation.
    pub expectation_failed: u64,
    /// 431: a head that is too long or has too many fields.
    pub header_fields_too_large: u64,
    /// 501: an unknown transfer coding.
    pub not_implemented: u64,
    /// 505: an unsupported version.
    pub version_not_supported: u64,
    /// Any other status code.
    pub other: u64,
}

/// The counters of a server since it started. Each stops at 2^64 - 1.
#[derive(Clone, Copy, Debug, PartialEq, Eq)]
pub struct Counts {
    /// Connections that were admitted.
    pub connections: u64,
    /// Requests that were handed to the application.
    pub requests: u64,
    /// Refused heads that ended the requests of their connection.
    pub refusals: Refusals,
    /// Failed attempts to accept a connection, after which the server continued.
    pub accept_faults: u64,
    /// Connections that were closed at once because their client address had reached its connection limit.
    pub turned_away: u64,
    /// Connections closed because no byte of a head arrived in time, or an upgraded stream was silent for too long.
    pub idle: u64,
    /// Connections whose head took too long.
    pub slow_heads: u64,
    /// Connections whose body took too long.
    pub slow_bodies: u64,
    /// Connections whose client took too long to read what was sent to it.
    pub slow_writes: u64,
}

impl Refusals {
    /// Returns refusals with every count at 0.
    pub fn new() -> Refusals
        ensures { result ≡ no_refusals }
    {
        Refusals {
            bad_request: 0,
            request_timeout: 0,
            uri_too_long: 0,
            expectation_failed: 0,
            header_fields_too_large: 0,
            not_implemented: 0,
            version_not_supported: 0,
            other: 0,
        }
    }

    /// Counts a refused head that was answered with this status code.
    pub fn count(&mut self, status: u16)
        ensures { self.new ≡ with_refusal status self.old }
    {
        match status {
            400 => self.bad_request = one_more(self.bad_request),
            408 => self.request_timeout = one_more(self.request_timeout),
            414 => self.uri_too_long = one_more(self.uri_too_long),
            417 => self.expectation_failed = one_more(self.expectation_failed),
            431 => self.header_fields_too_large = one_more(self.header_fields_too_large),
            501 => self.not_implemented = one_more(self.not_implemented),
            505 => self.version_not_supported = one_more(self.version_not_supported),
            _ => self.other = one_more(self.other),
        }
    }
}

impl Counts {
    /// Returns counters with every count at 0.
    pub fn new() -> Counts
        ensures { result ≡ no_counts }
    {
        Counts {
            connections: 0,
            requests: 0,
            refusals: Refusals::new(),
            accept_faults: 0,
            turned_away: 0,
            idle: 0,
            slow_heads: 0,
            slow_bodies: 0,
            slow_writes: 0,
        }
    }

    /// Counts an admitted connection.
    pub fn count_connection(&mut self)
        ensures { self.new ≡ record self.old { connections = one_more self.old.connections } }
    {
        self.connections = one_more(self.connections);
    }

    /// Counts a failed attempt to accept a connection.
    pub fn count_accept_fault(&mut self)
        ensures { self.new ≡ record self.old { accept_faults = one_more self.old.accept_faults } }
    {
        self.accept_faults = one_more(self.accept_faults);
    }

    /// Counts a connection that was closed at once because its client address had reached its connection limit.
    pub fn count_turned_away(&mut self)
        ensures { self.new ≡ record self.old { turned_away = one_more self.old.turned_away } }
    {
        self.turned_away = one_more(self.turned_away);
    }

    /// Counts this number of requests.
    pub fn count_requests(&mut self, requests: u64)
        ensures { self.new ≡ record self.old { requests = add_count self.old.requests requests } }
    {
        self.requests = self.requests.saturating_add(requests);
    }

    /// Counts the end of a connection: its requests, the refused head that ended its requests, if there was one, and
    /// the limit that closed it, if one did.
    pub fn count_end(&mut self, summary: Summary)
        ensures { self.new ≡ with_end summary self.old }
    {
        self.count_requests(summary.requests);
        if let Some(status) = summary.refusal {
            self.refusals.count(status);
        }
        if let Some(closing) = summary.closing {
            self.count_closing(closing);
        }
    }

    // Counts a connection that this limit closed.
    fn count_closing(&mut self, closing: Closing)
        ensures { self.new ≡ with_closing closing self.old }
    {
        match closing {
            Closing::Idle => self.idle = one_more(self.idle),
            Closing::Head => self.slow_heads = one_more(self.slow_heads),
            Closing::Body => self.slow_bodies = one_more(self.slow_bodies),
            Closing::Write => self.slow_writes = one_more(self.slow_writes),
        }
    }
}

// Returns the count plus one, at most 2^64 - 1.
fn one_more(count: u64) -> u64
    ensures { result ≡ one_more count }
{
    count.saturating_add(1)
}

impl fmt::Display for Refusals {
    ghost use Rattle.tiny_http_limits.specs.CountsText.{refusals_text};

    ghost output = { λ r. Some (refusals_text r) };

    /// Writes each status code with its count, as in `400:2 408:0 414:0 417:0 431:1 501:0 505:0 other:0`.
    #[tactic(auto, unfolding(crate::specs::CountsText::refusals_text))]
    fn fmt<W: fmt::Write>(&self, f: &mut fmt::Formatter<W>) -> fmt::Result {
        write!(f, "400:{} 408:{} ", self.bad_request, self.request_timeout)?;
        write!(
            f,
            "414:{} 417:{} ",
            self.uri_too_long, self.expectation_failed
        )?;
        write!(
            f,
            "431:{} 501:{} ",
            self.header_fields_too_large, self.not_implemented
        )?;
        write!(f, "505:{} other:{}", self.version_not_supported, self.other)
    }
}

impl fmt::Display for Counts {
    ghost use Rattle.tiny_http_limits.specs.CountsText.{counts_text};

    ghost output = { λ c. Some (counts_text c) };

    /// Writes the counts on one line, as in `connections 3, requests 12, refused 400:1 .. other:0, accept faults 0,
    /// closed: turned away 0, idle 1, head 0, body 0, write 0`.
    fn fmt<W: fmt::Write>(&self, f: &mut fmt::Formatter<W>) -> fmt::Result {
        write!(
            f,
            "connections {}, requests {}, refused {}, accept faults {}, closed: turned away {}, idle {}, head {}, \
                body {}, write {}",
            self.connections,
            self.requests,
            self.refusals,
            self.accept_faults,
            self.turned_away,
            self.idle,
            self.slow_heads,
            self.slow_bodies,
            self.slow_writes,
        )
    }
}
