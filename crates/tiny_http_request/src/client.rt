//! A connection whose requests any thread may hold.
ghost use Rattle.std.specs.Prelude.{◌≡◌, ◌↔◌, ◌||◌, ⊤, true, false, Ok, None, Some, IfOk, OnErr};
ghost use Rattle.std.specs.Prelude.{IsSome, IfSome, IfNone};
ghost use Rattle.tiny_http_socket.specs.Stream.{MayHavePeer};
ghost use Rattle.tiny_http_threads.specs.HeldReader.{held_item};
ghost use Rattle.tiny_http_request.specs.Request.{request_head, request_secure, request_address, request_open};
ghost use Rattle.tiny_http_request.specs.Request.{request_body};
ghost use Rattle.tiny_http_body.specs.Body.{is_streaming};

use crate::request::Request;
use httpdate::HttpDate;
use memchr::{memchr, memmem};
use std::alloc::{AllocError, Global};
use std::io::ErrorKind;
use std::net::SocketAddr;
use std::sync::atomic::AtomicBool;
use std::sync::{Arc, Wait};
use tiny_http_body::body::UnreadBody;
use tiny_http_body::framing::Profile;
use tiny_http_io::device::{Canned, ReadAheadDevice, ReadDevice, WriteDevice};
use tiny_http_io::outlet::Outlet;
use tiny_http_io::source::{InputState, Source};
use tiny_http_open_request::exchange::{EndOfRequests, Head, HeadRead, read_head_with};
use tiny_http_open_request::next_request::{NextRequest, RefusalPlace, next_request};
use tiny_http_open_request::open_request::OpenRequest;
use tiny_http_socket::cork::FlushPolicy;
use tiny_http_socket::refined_tcp_stream::RefinedTcpStream;
use tiny_http_socket::shared_state::SharedState;
use tiny_http_threads::held_reader::HeldReader;
use tiny_http_threads::sequential::{
    SequentialReader, SequentialReaderBuilder, SequentialWriter, SequentialWriterBuilder,
};

/// The client of a connection.
#[derive(Clone, Copy)]
pub(crate) struct Client {
    /// Whether its connection is encrypted.
    pub secure: bool,
    /// Its address, if it has one and the system knows it.
    pub remote_addr: Option<SocketAddr>,
}

/// The state that a request shares with its connection.
#[derive(Drop)]
pub(crate) struct Links {
    /// The policy by which the connection's flushes may hold their bytes back, if there is one.
    pub flush_policy: Option<Arc<FlushPolicy>>,
    /// The state that the connection's threads share, if it is set. A request has it only if its body holds the
    /// connection's input.
    pub shared: Option<Arc<SharedState>>,
}

/// A connection that hands out its requests one after another. Any thread may hold a request, even while the next is
/// read.
#[derive(Drop)]
pub struct ClientConnection<R: ReadDevice + Drop, W: WriteDevice + Drop, Rt: Wait + Drop> {
    rt: Rt,
    alloc: Global,
    profile: Profile,
    client: Client,
    // The state that the connection shares with its requests.
    links: Links,
    source: SequentialReaderBuilder<Source<R>, Rt>,
    sink: SequentialWriterBuilder<Outlet<W>, Rt>,
    // `None` once the connection has no further request.
    next_head: Option<NextHead<R, Rt>>,
}

// The source of the next head.
#[derive(Drop)]
enum NextHead<R: ReadDevice + Drop, Rt: Wait + Drop> {
    // The input, which the connection holds.
    Here(HeldReader<Source<R>, Rt>),
    // The input, once the previous request, which took it, has passed it on.
    Behind(SequentialReader<Source<R>, Rt>),
}

impl<R: ReadDevice + Drop, Rt: Wait + Drop> NextHead<R, Rt> {
    ghost use Rattle.tiny_http_request.specs.Client.{source_here};

    // Returns the input. If the previous request took it, waits until that request passes it on.
    fn hold(self) -> HeldReader<Source<R>, Rt>
        ensures { IfSome (source_here self) (λ source. held_item result ≡ source) }
    {
        match self {
            NextHead::Here(reader) => reader,
            NextHead::Behind(reader) => reader.into_held(),
        }
    }
}

// Returns the client's address, if there is one and the system knows it.
fn peer_if_known(socket: &RefinedTcpStream) -> Option<SocketAddr>
    ensures { MayHavePeer socket.now result }
{
    match socket.peer_addr() {
        Ok(addr) => addr,
        Err(_) => None,
    }
}

impl<Rt: Wait + Copy> ClientConnection<RefinedTcpStream, RefinedTcpStream, Rt> {
    ghost use Rattle.std.specs.Prelude.{◌≡◌, false, None, IfOk};
    ghost use Rattle.tiny_http_socket.specs.Stream.{MayHavePeer};
    ghost use Rattle.tiny_http_request.specs.Client.{IsOver, client_secure, client_address, client_profile};
    ghost use Rattle.tiny_http_request.specs.Client.{client_source, IsFreshSource};

    /// Creates a connection over the two halves of a client's socket, under `Lenient`. Nothing is read yet. Its
    /// requests have the client's address, or none if the socket is a Unix socket or the system no longer knows the
    /// address. Fails if memory can't be allocated.
    pub fn new(
        rt: Rt,
        alloc: Global,
        write_socket: RefinedTcpStream,
        read_socket: RefinedTcpStream,
    ) -> Result<ClientConnection<RefinedTcpStream, RefinedTcpStream, Rt>, AllocError>
        ensures secure { IfOk result (λ c. client_secure c ≡ false) }
        ensures address { IfOk result (λ c. MayHavePeer read_socket (client_address c)) }
        ensures open { IfOk result (λ c. IsOver c → ⊥) }
        ensures profile { IfOk result (λ c. client_profile c ≡ Profile.Lenient) }
        ensures source { IfOk result (λ c. IsFreshSource (λ _. None) read_socket (client_source c)) }
    {
        ClientConnection::new_with(rt, alloc, Profile::Lenient, write_socket, read_socket)
    }

    /// Returns a connection like `new`, but under this profile.
    pub fn new_with(
        rt: Rt,
        alloc: Global,
        profile: Profile,
        write_socket: RefinedTcpStream,
        read_socket: RefinedTcpStream,
    ) -> Result<ClientConnection<RefinedTcpStream, RefinedTcpStream, Rt>, AllocError>
        ensures secure { IfOk result (λ c. client_secure c ≡ false) }
        ensures address { IfOk result (λ c. MayHavePeer read_socket (client_address c)) }
        ensures open { IfOk result (λ c. IsOver c → ⊥) }
        ensures profile { IfOk result (λ c. client_profile c ≡ profile) }
        ensures source { IfOk result (λ c. IsFreshSource (λ _. None) read_socket (client_source c)) }
    {
        let addr = peer_if_known(&read_socket);
        let secure = read_socket.secure();
        ClientConnection::over_with(rt, alloc, profile, write_socket, read_socket, addr, secure)
    }
}

impl<R: ReadDevice + Drop, W: WriteDevice + Drop, Rt: Wait + Copy> ClientConnection<R, W, Rt> {
    ghost use Rattle.tiny_http_request.specs.Client.{IsOver, HandsOut, client_secure, client_address, client_profile};
    ghost use Rattle.tiny_http_request.specs.Client.{client_source, IsFreshSource, HandsOutNext, GivesInput};

    /// Creates a connection over a writer and a reader, under `Lenient`. Nothing is read yet. Its requests have this
    /// `remote_addr` and `secure`. Fails if memory can't be allocated.
    pub fn over(
        rt: Rt,
        alloc: Global,
        writer: W,
        reader: R,
        remote_addr: Option<SocketAddr>,
        secure: bool,
    ) -> Result<ClientConnection<R, W, Rt>, AllocError>
        ensures client { IfOk result (λ c. (client_secure c ≡ secure) × (client_address c ≡ remote_addr)) }
        ensures open { IfOk result (λ c. IsOver c → ⊥) }
        ensures profile { IfOk result (λ c. client_profile c ≡ Profile.Lenient) }
        ensures source { IfOk result (λ c. IsFreshSource R.feed reader (client_source c)) }
    {
        let profile = Profile::Lenient;
        ClientConnection::over_with(rt, alloc, profile, writer, reader, remote_addr, secure)
    }

    /// Returns a connection like `over`, but under this profile.
    pub fn over_with(
        rt: Rt,
        alloc: Global,
        profile: Profile,
        writer: W,
        reader: R,
        remote_addr: Option<SocketAddr>,
        secure: bool,
    ) -> Result<ClientConnection<R, W, Rt>, AllocError>
        ensures client { IfOk result (λ c. (client_secure c ≡ secure) × (client_address c ≡ remote_addr)) }
        ensures open { IfOk result (λ c. IsOver c → ⊥) }
        ensures profile { IfOk result (λ c. client_profile c ≡ profile) }
        ensures source { IfOk result (λ c. IsFreshSource R.feed reader (client_source c)) }
    {
        let (source, first) = SequentialReaderBuilder::begin(rt, alloc, Source::new(reader))?;
        let sink = SequentialWriterBuilder::new(rt, alloc, Outlet::new(writer))?;
        let next_head = Some(NextHead::Here(first));
        Ok(ClientConnection {
            rt,
            alloc,
            profile,
            client: Client {
                secure,
                remote_addr,
            },
            links: Links {
                flush_policy: None,
                shared: None,
            },
            source,
            sink,
            next_head,
        })
    }

    /// Returns whether the connection is encrypted.
    pub fn secure(&self) -> bool
        ensures { result ≡ client_secure self.now }
    {
        self.client.secure
    }

    /// Lets consecutive responses be sent together: flushes hold their bytes back while this policy allows it.
    ///
    /// The policy allows it once the connection hands out a request whose turn has come and whose body doesn't hold the
    /// input: it isn't read from the connection, and under `Standard` the request asks for no upgrade, or is the last.
    /// The policy no longer allows it once any other request is handed out, a raw writer is taken, an upgrade or a
    /// streamed body begins, or a 100 is sent. The caller must have the `Cork` of this policy send the held bytes: with
    /// `send_unless_leaving` after each `next`, and with `send` at the end.
    pub fn set_flush_policy(&mut self, flush_policy: Arc<FlushPolicy>)
        ensures over { IsOver self.new ↔ IsOver self.old }
        ensures input { client_source self.new ≡ client_source self.old }
        ensures same { (client_secure self.new ≡ client_secure self.old)
            × (client_address self.new ≡ client_address self.old)
            × (client_profile self.new ≡ client_profile self.old) }
    {
        self.links.flush_policy = Some(flush_policy);
    }

    /// Makes `next` report to this state when it waits for a head, when it hands out a request, and when a refused head
    /// ends the requests. Also makes it apply the state's limit on open requests, which is at least 2: before a head,
    /// and before the response to a refused head, `next` waits until fewer are open. A `TimedReader` and a
    /// `TimedWriter` apply the timeouts.
    ///
    /// `next` returns `None` once the connection has been stopped. With limits it also returns `None` once a response
    /// has ended the output without being whole, because its data were too short or failed, or because the writer
    /// failed; the client of a socket then sees end of file. Fails if no further handle to the state can be made.
    pub fn set_shared_state(&mut self, shared: Arc<SharedState>) -> Result<(), AllocError>
        ensures over { IsOver self.new ↔ IsOver self.old }
        ensures input { client_source self.new ≡ client_source self.old }
        ensures same { (client_secure self.new ≡ client_secure self.old)
            × (client_address self.new ≡ client_address self.old)
            × (client_profile self.new ≡ client_profile self.old) }
    {
        self.sink.set_open(Arc::try_clone(shared.open())?);
        if shared.limits().is_some() {
            self.sink.close_when_broken();
        }
        self.links.shared = Some(shared);
        Ok(())
    }

    /// Returns the flag that ends the requests once it is set, as a response made with `with_close` does: no further
    /// request is handed out, and under `Standard` the last response, if it hasn't begun, says that the connection
    /// closes.
    pub fn closed_flag(&self) -> &Arc<AtomicBool> {
        self.sink.closed_flag()
    }

    /// Reads the next request and hands it out. If the connection has no further request, this call and each later one
    /// return `None`. `now` dates the responses to refused heads, and the 500 of this request if it is dropped. Fails
    /// if memory can't be allocated; then each later call returns `None`.
    ///
    /// The call waits for the client, and until the previous request's body, if it holds the input, is read to its end
    /// or given up. Under `Standard` it also waits until a request that asks for an upgrade is answered or dropped: a
    /// program that makes this call on the same thread must do that first. It returns `None` after such a request if
    /// its raw writer was taken or it was upgraded; if the upgraded stream still reads the input, the call first waits
    /// for it to end. Under `Standard` it also returns `None` after a request that was finished while its 100 was owed,
    /// or while more than 65,536 bytes of a body with a `Content-Length` were unread.
    ///
    /// It also returns `None` once a response made with `with_close` has been sent; a call that waits for the client
    /// then returns when the client sends a head, or sends no more. The client of a socket sees end of file after the
    /// last response, as `Request::respond` says. Refused heads are answered in their turn, for which the call doesn't
    /// wait. They end the requests, except that under `Lenient` and `Strict` the next head is read after a 505, unless
    /// the refused head names an upgrade or its body is chunked.
    pub fn next(&mut self, now: HttpDate) -> Result<Option<Request<R, W, Rt>>, AllocError>
        ensures over { IsOver self.old → (result ≡ Ok None) × IsOver self.new }
        ensures none { IfOk result (λ r. IfNone r (IsOver self.new)) }
        ensures err { OnErr result (IsOver self.new) }
        // Whether a request that was handed out has closed the connection is known only under a lock. So no clause
        // states when a request is handed out: the result may be `None` although one is in the input.
        ensures handed { IfOk result (λ r. IfSome r (HandsOut self.old self.new now)) }
        // If the connection holds the input, the request is the next one in the input.
        ensures reads { IfOk result (λ r. IfSome r (HandsOutNext self.old self.new now)) }
        ensures same { (client_secure self.new ≡ client_secure self.old)
            × (client_address self.new ≡ client_address self.old)
            × (client_profile self.new ≡ client_profile self.old) }
    {
        let Some(next_head) = self.next_head.take() else {
            return Ok(None);
        };
        if self.sink.is_closed() {
            return Ok(None);
        }
        wait_if_full(&self.sink, &self.links.shared);
        let (alloc, profile) = (self.alloc, self.profile);
        let mut reader = next_head.hold();
        let source = &mut *reader.turn.item;
        if self.sink.is_closed() || !begins_head(&self.links.shared, source) {
            return Ok(None);
        }
        let sink = &mut self.sink;
        let mut place = NextWriter {
            shared: &self.links.shared,
        };
        match next_request(alloc, source, profile, &mut place, sink, now) {
            Ok(NextRequest::Request(head, open_request)) => {
                let Some(writer) = self.sink.next_unless_closed()? else {
                    return Ok(None);
                };
                match self.hand_out(reader, writer, head, open_request) {
                    Ok(request) => Ok(Some(request)),
                    Err(e) => Err(e),
                }
            }
            Ok(NextRequest::Ended(end)) => {
                note_end(&self.links.shared, end);
                Ok(None)
            }
            Err(_) if self.sink.is_closed() => Ok(None),
            Err(e) => Err(e),
        }
    }

    /// Waits until all that was handed out is answered: each request has been answered or dropped, or its raw writer or
    /// stream has been dropped, and the refused heads have been answered. After that nothing reads from the connection
    /// or writes to it, unless the next request is asked for. Fails if memory can't be allocated.
    pub fn wait_for_answers(&mut self) -> Result<(), AllocError>
        ensures over { IsOver self.new ↔ IsOver self.old }
        ensures input { client_source self.new ≡ client_source self.old }
        ensures same { (client_secure self.new ≡ client_secure self.old)
            × (client_address self.new ≡ client_address self.old)
            × (client_profile self.new ≡ client_profile self.old) }
    {
        let mut writer = self.sink.next()?;
        let _ = writer.hold();
        Ok(())
    }

    // Hands out a request that was read from this reader and is answered through this writer. The request takes the
    // reader if the body is read from the reader, or if the next head waits for the response.
    fn hand_out(
        &mut self,
        reader: HeldReader<Source<R>, Rt>,
        writer: SequentialWriter<Outlet<W>, Rt>,
        head: Head,
        open_request: OpenRequest<UnreadBody>,
    ) -> Result<Request<R, W, Rt>, AllocError>
        requires { IsOver self.old }
        ensures head { IfOk result (λ request. head ≡ request_head request) }
        ensures kept { IfOk result (λ request. open_request ≡ request_open request) }
        ensures input { IfOk result (GivesInput (held_item reader) self.new) }
        ensures holds { IfOk result (λ request. (request_body request).holds_input
            ≡ is_streaming (request_open request).body || (request_open request).holds_next_head) }
        ensures err { OnErr result (IsOver self.new) }
        ensures last { IfOk result (λ request. (request_head request).framing.is_last ≡ true → IsOver self.new) }
        ensures open { IfOk result (λ request. (request_head request).framing.is_last ≡ false → IsOver self.new → ⊥) }
        ensures client { IfOk result (λ request. (request_secure request ≡ client_secure self.old)
            × (request_address request ≡ client_address self.old)) }
        ensures same { (client_secure self.new ≡ client_secure self.old)
            × (client_address self.new ≡ client_address self.old)
            × (client_profile self.new ≡ client_profile self.old) }
    {
        let holds_reader = open_request.body.holds_reader() || open_request.holds_next_head;
        let may_leave = !holds_reader && writer.is_next();
        let links = Links {
            flush_policy: set_policy(&self.links.flush_policy, may_leave)?,
            shared: begin_body(&self.links.shared, holds_reader)?,
        };
        let (reader, held) = if holds_reader {
            (Some(reader), None)
        } else {
            (None, Some(reader))
        };
        self.next_head = next_head(&mut self.source, head.is_last(), held)?;
        Ok(Request::from_parts(
            self.rt,
            self.alloc,
            self.client,
            head,
            open_request,
            reader,
            writer,
            links,
        ))
    }
}

/// How much of a connection's next head has arrived.
#[derive(Clone, Copy, Debug, PartialEq, Eq)]
pub enum Readiness {
    /// All of it, or `next` returns without a head. `next` may still wait: while the limit on open requests is reached;
    /// for a request that has the input, and for the head after that; for the rest of a head of more than 16,384 bytes;
    /// and for the next head after one that is refused with 505.
    Ready,
    /// Part of it, or only bytes that are skipped before it.
    Part,
    /// None of it.
    Idle,
}

impl<R: ReadAheadDevice + Drop, W: WriteDevice + Drop, Rt: Wait + Copy> ClientConnection<R, W, Rt> {
    /// Returns how much of the next head has arrived, without reading from the client.
    pub fn readiness(&mut self) -> Readiness {
        match self.next_source() {
            Some((alloc, profile, source)) => readiness_of(alloc, source, profile),
            None => Readiness::Ready,
        }
    }

    /// Reads ahead what the client has sent, and returns how much of the next head has arrived. Also returns `Ready` if
    /// no more can be read ahead: the input has ended or has a fault, no room is left, a request has the input, or no
    /// head follows.
    pub fn read_ahead(&mut self) -> Readiness {
        let Some((alloc, profile, source)) = self.next_source() else {
            return Readiness::Ready;
        };
        match source.read_ahead() {
            Ok(n) if n == 0 || source.ahead().room == 0 => Readiness::Ready,
            Ok(n) if ends_no_line(source, n) => Readiness::Part,
            Err(fault) if fault.kind() != ErrorKind::WouldBlock => Readiness::Ready,
            _ => readiness_of(alloc, source, profile),
        }
    }

    /// Waits until no request has the input, as `next` does. Returns at once if no request follows.
    pub fn wait_for_input(&mut self) {
        if !self.sink.is_closed() {
            self.hold_input();
        }
    }

    /// Returns whether the last read from the client found that no more bytes had arrived. Returns false if that isn't
    /// known, because a request has the input, or if no head follows.
    pub fn is_drained(&mut self) -> bool {
        match self.next_source() {
            Some((_, _, source)) => source.ahead().is_drained,
            None => false,
        }
    }

    /// Frees the memory for bytes that are read ahead, if no such bytes are stored.
    pub fn release_ahead(&mut self) {
        if let Some((_, _, source)) = self.next_source() {
            source.release_ahead();
        }
    }

    // Returns the input, and the allocator and profile with which its next head is read. Returns `None` if a request
    // has the input, or if no head follows.
    fn next_source(&mut self) -> Option<(Global, Profile, &mut Source<R>)> {
        if self.sink.is_closed() {
            return None;
        }
        self.take_input();
        let Some(NextHead::Here(reader)) = &mut self.next_head else {
            return None;
        };
        let source = &mut *reader.turn.item;
        if source.stop().is_some() || source.input_state() != InputState::Head {
            return None;
        }
        Some((self.alloc, self.profile, source))
    }

    // Takes the input, if the request that had it has passed it on.
    fn take_input(&mut self) {
        let has_come = match &mut self.next_head {
            Some(NextHead::Behind(reader)) => reader.try_hold(),
            _ => false,
        };
        if has_come {
            self.hold_input();
        }
    }

    // Takes the input. If a request has it, waits until the request passes it on.
    fn hold_input(&mut self) {
        if let Some(next_head) = self.next_head.take() {
            self.next_head = Some(NextHead::Here(next_head.hold()));
        }
    }
}

// The end of a head.
const HEAD_END: &[u8] = b"\r\n\r\n";

// The first bytes of a request that usually has no body.
const PLAIN_START: &[u8] = b"GET ";

// The headers that announce a body.
const BODY_HEADERS: [&[u8]; 2] = [b"Content-Length", b"Transfer-Encoding"];

// Returns whether these bytes begin with the whole head of a `GET` that announces no body. If so, the head is known to
// be whole without being parsed.
fn begins_plainly(bytes: &[u8]) -> bool {
    if !bytes.starts_with(PLAIN_START) {
        return false;
    }
    let Some(end) = memmem::find(bytes, HEAD_END) else {
        return false;
    };
    !bytes[..end]
        .split(|byte| *byte == b'\n')
        .any(|line| announces_body(line))
}

// Returns whether a line of a head begins with the name of a header that announces a body.
fn announces_body(line: &[u8]) -> bool {
    BODY_HEADERS.iter().any(|name| {
        line.get(..name.len())
            .is_some_and(|start| start.eq_ignore_ascii_case(name))
    })
}

// Returns how much of the next head the source holds or its reader has read ahead.
fn readiness_of<R: ReadAheadDevice>(
    alloc: Global,
    source: &Source<R>,
    profile: Profile,
) -> Readiness {
    let (held, ahead) = (source.held(), source.ahead().bytes);
    if held.is_empty() && ahead.is_empty() {
        return Readiness::Idle;
    }
    let first = if held.is_empty() { ahead } else { held };
    if source.to_skip() == 0 && begins_plainly(first) {
        return Readiness::Ready;
    }
    if source.to_skip() >= held.len().saturating_add(ahead.len()) {
        return Readiness::Part;
    }
    match is_whole(alloc, source, profile) {
        Ok(false) => Readiness::Part,
        Ok(true) | Err(_) => Readiness::Ready,
    }
}

// Returns whether the last `n` bytes that were read ahead clearly don't complete the head: they contain no LF, no bytes
// before them end a head, and nothing is held or to be skipped. The head needn't be parsed again then.
fn ends_no_line<R: ReadAheadDevice>(source: &Source<R>, n: usize) -> bool {
    let ahead = source.ahead().bytes;
    let Some(new) = ahead.get(ahead.len().saturating_sub(n)..) else {
        return false;
    };
    source.held().is_empty()
        && source.to_skip() == 0
        && memchr(b'\n', new).is_none()
        && memmem::find(ahead, b"\n\r\n").is_none()
        && memmem::find(ahead, b"\n\n").is_none()
}

// Returns whether the next head, along with any body that is read with it, can be read from the bytes that the source
// holds and those that its reader has read ahead. Tries this on a copy of those bytes. Fails if memory can't be
// allocated.
fn is_whole<R: ReadAheadDevice>(
    alloc: Global,
    source: &Source<R>,
    profile: Profile,
) -> Result<bool, AllocError> {
    let mut bytes = source.held().to_vec(alloc)?;
    bytes.extend_from_slice(source.ahead().bytes)?;
    let mut copy = Source::new(Canned::new(bytes, Some(ErrorKind::WouldBlock)));
    copy.skip(source.to_skip());
    let Ok(any_date) = HttpDate::from_unix_secs(0) else {
        return Ok(true);
    };
    let read = read_head_with(alloc, &mut copy, profile, any_date)?;
    Ok(!matches!(
        read,
        HeadRead::Ended(EndOfRequests::Fault(ErrorKind::WouldBlock))
    ))
}

// Returns the source of the head after a request: the input if `held` has it, and otherwise the input once the request
// that took it has passed it on. Returns `None` if the request is the last. Fails if memory can't be allocated.
fn next_head<R: ReadDevice + Drop, Rt: Wait + Copy>(
    source: &mut SequentialReaderBuilder<Source<R>, Rt>,
    is_last: bool,
    held: Option<HeldReader<Source<R>, Rt>>,
) -> Result<Option<NextHead<R, Rt>>, AllocError>
    ensures last { is_last ≡ true → result ≡ Ok None }
    ensures some { is_last ≡ false → IfOk result IsSome }
    ensures here { is_last ≡ false → IfSome held (λ reader. result ≡ Ok (Some (NextHead.Here reader))) }
{
    if is_last {
        return Ok(None);
    }
    match held {
        Some(reader) => Ok(Some(NextHead::Here(reader))),
        None => Ok(Some(NextHead::Behind(source.next()?))),
    }
}

// Starts the wait for the next head. Returns false if the connection was stopped.
fn begins_head<R: ReadDevice>(shared: &Option<Arc<SharedState>>, source: &Source<R>) -> bool {
    match shared {
        Some(shared) => shared.begin_head(!source.held().is_empty()),
        None => true,
    }
}

// Records the status with which a head was refused, if that ended the requests.
fn note_end(shared: &Option<Arc<SharedState>>, end: EndOfRequests) {
    if let Some(shared) = shared
        && let EndOfRequests::Refused(status) = end
    {
        shared.refused(status.0);
    }
}

// Records that a request is handed out, if there is a shared state. Returns another handle to that state for a request
// that holds the input, and otherwise `None`. Fails if no further handle can be made.
fn begin_body(
    shared: &Option<Arc<SharedState>>,
    holds_reader: bool,
) -> Result<Option<Arc<SharedState>>, AllocError> {
    let Some(shared) = shared else {
        return Ok(None);
    };
    shared.begin_body();
    if !holds_reader {
        return Ok(None);
    }
    Ok(Some(Arc::try_clone(shared)?))
}

// Sets whether flushes may hold their bytes back, if there is a policy, and returns another handle to the policy, for a
// request. Fails if no further handle can be made.
fn set_policy(
    flush_policy: &Option<Arc<FlushPolicy>>,
    may_leave: bool,
) -> Result<Option<Arc<FlushPolicy>>, AllocError> {
    let Some(flush_policy) = flush_policy else {
        return Ok(None);
    };
    if may_leave {
        flush_policy.leave_at_flush();
    } else {
        flush_policy.send_at_flush();
    }
    Ok(Some(Arc::try_clone(flush_policy)?))
}

// If the limit on open requests and refused heads is reached, waits until one of them is finished.
fn wait_if_full<W: WriteDevice + Drop, Rt: Wait + Copy>(
    sink: &SequentialWriterBuilder<Outlet<W>, Rt>,
    shared: &Option<Arc<SharedState>>,
) {
    if let Some(shared) = shared
        && let Some(most) = shared.full_at()
    {
        sink.wait_for_room(most);
    }
}

// A place for the responses to refused heads, each of which takes the next writer. It waits while the limit on open
// requests is reached.
#[derive(Drop)]
struct NextWriter<'a> {
    shared: &'a Option<Arc<SharedState>>,
}

impl<W: WriteDevice + Drop, Rt: Wait + Copy> RefusalPlace<SequentialWriterBuilder<Outlet<W>, Rt>>
    for NextWriter<'_> {
    // No contract states what is under a lock.
    ghost refuses = { λ _ _ _ _ _ _. ⊤ };

    // Takes the next turn, and leaves the response in it. Fails if memory can't be allocated, if 2^64 - 1 writers have
    // been issued, or if the connection is to end.
    fn refuse(
        &mut self,
        sink: &mut SequentialWriterBuilder<Outlet<W>, Rt>,
        text: Vec<u8>,
    ) -> Result<(), AllocError> {
        wait_if_full(sink, self.shared);
        let Some(writer) = sink.next_unless_closed()? else {
            return Err(AllocError);
        };
        writer.leave(text);
        Ok(())
    }
}
