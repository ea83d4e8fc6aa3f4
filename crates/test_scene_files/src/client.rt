//! The clients of scenes.
use crate::mishap::{Mishap, demand, demand_bytes, demand_fault, differs};
use httpdate::HttpDate;
use std::alloc::{AllocError, Global};
use std::io::ErrorKind;
use std::net::{Net, Shutdown, TcpListener, TcpStream};
use std::os::unix::net::UnixStream;
use std::time::{Clock, Duration, Instant};
use std::{io, mem, thread};
use tiny_http_socket::connection::{Connection, ListenAddr};

// Maximum number of reads that wait for expected bytes or for the end of the connection. A read that gets no bytes
// lasts some milliseconds, depending on the system's scheduler; if each lasts four, all of them together last ten
// seconds.
const READS: u32 = 2_500;

// Size of the read buffer.
const PIECE: usize = 16_384;

// Maximum number of sends by a client that expects to be cut off.
const MOST_PIECES: u32 = 4_096;

// A client's thread counts as delayed if at least this many milliseconds pass before the end of its first send, or
// between the ends of two successive sends.
const HELD_UP: u64 = 200;

// Number of reads by a client that sips.
const SIPS: u32 = 100;

// The start of a Date field line.
const DATE: &[u8] = b"Date: ";

// Length of a Date field line, without its line break.
const DATE_LENGTH: usize = 35;

// The Date field line that replaces all others before texts are compared.
const DATED: &[u8] = b"Date: Wed, 04 May 1983 11:17:00 GMT";

// The end of a connection.
#[derive(Clone, Copy, Debug, PartialEq, Eq)]
enum End {
    Closed,
    Failed(ErrorKind),
}

/// A client of a scene: its socket, the bytes received but not yet checked, and how the connection ended, if it did.
#[derive(Drop)]
pub struct Client {
    alloc: Global,
    socket: Connection,
    came: Vec<u8>,
    end: Option<End>,
    // The last two texts that `gets` received, the later one first.
    seen: (Vec<u8>, Vec<u8>),
}

/// Copies `bytes`, replacing each Date field line, that is, each `Date: ` and the 29 bytes after it, with the one that
/// all scenes share.
pub fn dated(alloc: Global, bytes: &[u8]) -> Result<Vec<u8>, AllocError> {
    let mut all = Vec::new(alloc);
    let mut rest = bytes;
    for _ in 0..bytes.len() {
        if rest.starts_with(DATE)
            && let Some(after) = rest.get(DATE_LENGTH..)
        {
            all.extend_from_slice(DATED)?;
            rest = after;
        } else if let Some((first, after)) = rest.split_first() {
            all.extend_from_slice(&[*first])?;
            rest = after;
        }
    }
    Ok(all)
}

// Returns the last Date field line in `bytes`, if there is one.
fn last_date(bytes: &[u8]) -> Option<&[u8]> {
    bytes
        .windows(DATE_LENGTH)
        .rfind(|part| part.starts_with(DATE))
}

/// Returns the current time of the clock. Fails if there is no clock.
pub fn now_of<R: Clock>(rt: &R) -> Result<Instant, Mishap> {
    match Instant::now(rt) {
        Ok(now) => Ok(now),
        Err(_) => Err(Mishap::Unplayable("there is no clock")),
    }
}

/// Returns the milliseconds since `begun`. Fails if there is no clock.
pub fn millis_since<R: Clock>(rt: &R, begun: Instant) -> Result<u64, Mishap> {
    match begun.elapsed(rt) {
        Ok(time) => Ok(u64::try_from(time.as_millis()).unwrap_or(u64::MAX)),
        Err(_) => Err(Mishap::Unplayable("there is no clock")),
    }
}

// Connects to `addr`, and turns off delays of small writes (`TCP_NODELAY`). The read timeout is one millisecond, the
// write timeout ten seconds.
fn connect_to<R: Net<Listener = TcpListener, Stream = TcpStream>>(
    rt: &R,
    addr: &ListenAddr,
) -> io::Result<Connection> {
    let socket = match addr {
        ListenAddr::IP(addr) => Connection::Tcp(TcpStream::connect(rt, *addr)?),
        ListenAddr::Unix(addr) => Connection::Unix(UnixStream::connect_addr(rt, addr)?),
    };
    socket.set_nodelay(true)?;
    socket.set_read_timeout(Duration::from_millis(1))?;
    socket.set_write_timeout(Duration::from_secs(10))?;
    Ok(socket)
}

impl Client {
    /// Connects a client to `addr`.
    pub fn connect<R: Net<Listener = TcpListener, Stream = TcpStream>>(
        rt: &R,
        alloc: Global,
        addr: &ListenAddr,
    ) -> Result<Client, Mishap> {
        match connect_to(rt, addr) {
            Ok(socket) => Ok(Client {
                alloc,
                socket,
                came: Vec::new(alloc),
                end: None,
                seen: (Vec::new(alloc), Vec::new(alloc)),
            }),
            Err(_) => Err(Mishap::Unplayable("it can't connect")),
        }
    }

    /// Returns the client's local address, or `None` if it uses a Unix socket or the system reports no address.
    pub fn local_addr(&self) -> Option<std::net::SocketAddr> {
        match &self.socket {
            Connection::Tcp(stream) => stream.local_addr().ok(),
            Connection::Unix(_) => None,
        }
    }

    // Reads once, and keeps the bytes, or how the connection ended. If the read times out or is interrupted, changes
    // nothing.
    fn read_once(&mut self) -> Result<(), AllocError> {
        let mut piece = [0u8; PIECE];
        match self.socket.read_shared(&mut piece) {
            Ok(0) => self.end = Some(End::Closed),
            Ok(n) => self.came.extend_from_slice(&piece[..n])?,
            Err(fault) => match fault.kind() {
                ErrorKind::WouldBlock | ErrorKind::Interrupted => {}
                kind => self.end = Some(End::Failed(kind)),
            },
        }
        Ok(())
    }

    // Reads until `count` bytes are held or the connection ends, at most `READS` times.
    fn read_up_to(&mut self, count: usize) -> Result<(), AllocError> {
        for _ in 0..READS {
            if self.came.len() >= count || self.end.is_some() {
                break;
            }
            self.read_once()?;
        }
        Ok(())
    }

    fn write_all(&mut self, bytes: &[u8]) -> io::Result<()> {
        let mut rest = bytes;
        for _ in 0..bytes.len() {
            if rest.is_empty() {
                break;
            }
            match self.socket.write_shared(rest) {
                Ok(n) => rest = rest.get(n..).unwrap_or_default(),
                Err(fault) if fault.kind() == ErrorKind::Interrupted => {}
                Err(fault) => return Err(fault),
            }
        }
        Ok(())
    }

    /// Sends all of `bytes`. Fails if a write fails.
    pub fn send(&mut self, bytes: &[u8]) -> Result<(), Mishap> {
        let sent = self.write_all(bytes).err().map(|fault| fault.kind());
        demand_fault(self.alloc, None, sent)
    }

    /// Sends `bytes` about every `millis` milliseconds, ignoring failed sends, until a read finds that the connection
    /// has ended. Fails if it is still open after `READS` sends.
    pub fn drip<R: Clock>(&mut self, rt: &R, bytes: &[u8], millis: u64) -> Result<(), Mishap> {
        for _ in 0..READS {
            if self.end.is_some() {
                break;
            }
            let _ = self.write_all(bytes);
            thread::sleep(rt, Duration::from_millis(millis.saturating_sub(1)));
            self.read_once()?;
        }
        demand(self.alloc, "the connection ends", self.end.is_some())
    }

    // Sends `bytes` every `millis` milliseconds until a send fails, at most `most` times. Returns whether a send
    // failed, when the last send ended, in milliseconds since `begun`, and the longest time between the ends of two
    // successive sends, or from `begun` to the end of the first.
    fn drip_until<R: Clock>(
        &mut self,
        rt: &R,
        begun: Instant,
        (bytes, millis, most): (&[u8], u64, u64),
    ) -> Result<(bool, u64, u64), Mishap> {
        let (mut last, mut longest) = (0u64, 0u64);
        for _ in 0..most {
            let is_sent = self.write_all(bytes).is_ok();
            let now = millis_since(rt, begun)?;
            longest = longest.max(now.saturating_sub(last));
            last = now;
            if !is_sent {
                return Ok((true, last, longest));
            }
            thread::sleep(rt, Duration::from_millis(millis));
        }
        Ok((false, last, longest))
    }

    /// Sends `bytes` every `millis` milliseconds, even after the end of input, until a send fails. One of the first
    /// `most / millis` sends (`most` sends if `millis` is 0) must fail, and not earlier than `least` milliseconds after
    /// `begun`. An earlier failure is accepted if this thread was delayed by `HELD_UP` milliseconds, since a server
    /// that waits for the next byte may then have timed out.
    pub fn drip_on<R: Clock>(
        &mut self,
        rt: &R,
        begun: Instant,
        (bytes, millis): (&[u8], u64),
        (least, most): (u64, u64),
    ) -> Result<(), Mishap> {
        let sends = most.checked_div(millis).unwrap_or(most);
        let (has_failed, last, longest) = self.drip_until(rt, begun, (bytes, millis, sends))?;
        demand(self.alloc, "a send fails in time", has_failed)?;
        let is_late = last >= least || longest >= HELD_UP;
        demand(self.alloc, "no send fails before its time", is_late)
    }

    /// Reads up to `count` bytes after each pause of `millis` milliseconds, a hundred times or until the end of input,
    /// and discards them. Ignores failed reads.
    pub fn sip<R: Clock>(&mut self, rt: &R, count: usize, millis: u64) -> Result<(), Mishap> {
        let mut piece = vec![in self.alloc; 0u8; count]?;
        for _ in 0..SIPS {
            thread::sleep(rt, Duration::from_millis(millis));
            if self.socket.read_shared(&mut piece).is_ok_and(|n| n == 0) {
                break;
            }
        }
        Ok(())
    }

    /// Sends `bytes` repeatedly until a send fails. Fails if `MOST_PIECES` sends succeed.
    pub fn is_cut_off(&mut self, bytes: &[u8]) -> Result<(), Mishap> {
        for _ in 0..MOST_PIECES {
            if self.write_all(bytes).is_err() {
                return Ok(());
            }
        }
        Err(differs(self.alloc, "a write fails", "none failed"))
    }

    /// Expects `wanted` as the next bytes, once `dated` has replaced each Date field line among them.
    pub fn gets(&mut self, wanted: &[u8]) -> Result<(), Mishap> {
        self.read_up_to(wanted.len())?;
        let count = wanted.len().min(self.came.len());
        let rest = self.came.split_off(count)?;
        let front = mem::replace(&mut self.came, rest);
        let text = dated(self.alloc, front.as_slice())?;
        let before = mem::replace(&mut self.seen.0, front);
        self.seen.1 = before;
        demand_bytes(self.alloc, wanted, text.as_slice())
    }

    /// Expects that the last date in the text that `gets` received last differs from the last date in the text that it
    /// received before that. Fails if one of these texts has no date.
    pub fn date_changed(&mut self) -> Result<(), Mishap> {
        let (last, before) = (
            last_date(self.seen.0.as_slice()),
            last_date(self.seen.1.as_slice()),
        );
        let has_both = last.is_some() && before.is_some();
        demand(self.alloc, "there are two dates", has_both)?;
        demand(self.alloc, "the date changed", last != before)
    }

    /// Expects that the last date in the text that `gets` received last is at most `seconds` seconds before `now`, a
    /// Unix time in seconds, and not after it.
    pub fn dated_within(&self, now: u64, seconds: u64) -> Result<(), Mishap> {
        let date = last_date(self.seen.0.as_slice()).and_then(|header| header.get(DATE.len()..));
        let Some(date) = date.and_then(|date| HttpDate::parse_ascii(date).ok()) else {
            return Err(Mishap::Unplayable("there is no date"));
        };
        let gone = now.checked_sub(date.unix_secs());
        demand(
            self.alloc,
            "the date is the time",
            gone.is_some_and(|gone| gone <= seconds),
        )
    }

    /// Reads until the connection ends, at most `READS` times, and expects `least` to `most` unchecked bytes, which it
    /// discards.
    pub fn counts(&mut self, least: usize, most: usize) -> Result<(), Mishap> {
        self.read_up_to(usize::MAX)?;
        let alloc = self.alloc;
        let count = self.came.len();
        self.came = Vec::new(alloc);
        if least <= count && count <= most {
            return Ok(());
        }
        let wanted = format!(in alloc; "{least} to {most} bytes")?;
        let came = format!(in alloc; "{count} bytes")?;
        Err(Mishap::Differs { wanted, came })
    }

    // Expects that no received bytes are left to check.
    fn demand_nothing(&self) -> Result<(), Mishap> {
        let came = dated(self.alloc, self.came.as_slice())?;
        demand_bytes(self.alloc, b"", came.as_slice())
    }

    /// Expects neither bytes nor the end of the connection for `millis` milliseconds.
    pub fn is_idle<R: Clock>(&mut self, rt: &R, millis: u64) -> Result<(), Mishap> {
        let begun = now_of(rt)?;
        for _ in 0..millis {
            let is_over = begun
                .elapsed(rt)
                .is_ok_and(|time| time >= Duration::from_millis(millis));
            if is_over || !self.came.is_empty() || self.end.is_some() {
                break;
            }
            self.read_once()?;
        }
        self.demand_nothing()?;
        demand(self.alloc, "no end", self.end.is_none())
    }

    /// Expects the end of input, without further bytes before it. A reset does not count as the end of input.
    pub fn is_closed(&mut self) -> Result<(), Mishap> {
        let next = self.came.len().saturating_add(1);
        self.read_up_to(next)?;
        self.demand_nothing()?;
        let end = self.end;
        if end == Some(End::Closed) {
            return Ok(());
        }
        let came = format!(in self.alloc; "{end:?}")?;
        Err(differs(self.alloc, "the end", came.as_str()))
    }

    /// Expects that the connection is closed or reset, whatever arrives before that.
    pub fn is_gone(&mut self) -> Result<(), Mishap> {
        self.read_up_to(usize::MAX)?;
        demand(self.alloc, "the connection ends", self.end.is_some())
    }

    /// Shuts down the sending side of the connection.
    pub fn half_close(&mut self) -> Result<(), Mishap> {
        let shut = self.socket.shutdown(Shutdown::Write);
        demand_fault(self.alloc, None, shut.err().map(|fault| fault.kind()))
    }
}
