//! Closing a connection in stages (RFC 9112, section 9.6). A connection that is closed with unread bytes is reset, and
//! the client may lose the last response. So the server first shuts down writing, and then discards what the client
//! sends.
use crate::registry::time_of;
use std::io::ErrorKind;
use std::net::Shutdown;
use std::time::{Clock, Duration};
use tiny_http_limits::times::time_left;
use tiny_http_socket::connection::Connection;

// How long a client may be silent while its connection is drained, in milliseconds.
const LINGER_MILLIS: u64 = 500;

// Maximum time to drain a closing connection under limits, in seconds.
const LINGER_SECS: u64 = 5;

// Size of a read while a closing connection is drained, and the maximum number of such reads: 64 MiB in all.
const LINGER_PIECE: usize = 16_384;

const LINGER_READS: u32 = 4_096;

// Timeout of a read that is to return almost at once, in milliseconds.
const SHORT_MILLIS: u64 = 1;

/// A connection that is being closed: when that began, and how many reads are left.
#[derive(Drop)]
pub(crate) struct Draining {
    begun: Duration,
    left: u32,
}

impl Draining {
    /// Shuts down writing, and makes reads from the socket return almost at once. Returns `None` if their timeout can't
    /// be set; nothing is discarded then.
    pub fn begin<R: Clock>(rt: &R, socket: &Connection) -> Option<Draining> {
        let begun = time_of(rt);
        let _ = socket.shutdown(Shutdown::Write);
        let short = Duration::from_millis(SHORT_MILLIS);
        socket.set_read_timeout(short).ok()?;
        Some(Draining {
            begun,
            left: LINGER_READS,
        })
    }

    /// Discards what the client has sent. Returns the time until which it may be silent, or `None` if it has closed the
    /// connection or sends too much, if a read fails, or if, under limits, the connection has been drained for 5
    /// seconds.
    pub fn discard<R: Clock>(
        &mut self,
        rt: &R,
        socket: &Connection,
        has_limits: bool,
    ) -> Option<Duration> {
        let mut away = [0u8; LINGER_PIECE];
        for _ in 0..self.left {
            self.left = self.left.saturating_sub(1);
            match socket.read_shared(&mut away) {
                Ok(0) => return None,
                Ok(n) if n < LINGER_PIECE => return self.silent_until(rt, has_limits),
                Ok(_) => {
                    self.silent_until(rt, has_limits)?;
                }
                Err(fault) if fault.kind() == ErrorKind::WouldBlock => {
                    return self.silent_until(rt, has_limits);
                }
                Err(_) => return None,
            }
        }
        None
    }

    /// Returns the time until which the client may be silent, or `None` if, under limits, the connection has been
    /// drained for too long.
    pub fn silent_until<R: Clock>(&self, rt: &R, has_limits: bool) -> Option<Duration> {
        let now = time_of(rt);
        let most = Duration::from_secs(LINGER_SECS);
        let silence = Duration::from_millis(LINGER_MILLIS);
        if !has_limits {
            return Some(now.saturating_add(silence));
        }
        let left = time_left(self.begun, now, most)?;
        Some(now.saturating_add(silence.min(left)))
    }
}
