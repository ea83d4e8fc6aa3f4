//! Parses the steps of scenes.
use crate::grounds::{
    MemoryDeed, QueueDeed, TurnDeed, TurnsDeed, memory_deed, queue_deed, turn_deed, turns_deed,
};
use std::io::ErrorKind;
use test_data_files::kinds::kind_of;
use test_data_files::text::number_in;

/// An action of a client, or an expectation about what the client receives.
#[derive(Clone, Copy)]
pub enum ClientDeed<'a> {
    /// Connects to the server.
    Connects,
    /// Sends this text.
    Sends(&'a str),
    /// Sends this text repeatedly until the connection ends, with this pause in milliseconds.
    Drips(&'a str, u64),
    /// Sends this text repeatedly, even after the end of input, until a send fails; the second field is the pause in
    /// milliseconds. The pair bounds the time of the failure in milliseconds, as `least` and `most` do in
    /// `Client::drip_on`, where `begun` is the start of the scene's clock.
    DripsOn(&'a str, u64, (u64, u64)),
    /// Sends this text repeatedly until a send fails, and expects such a failure.
    IsCutOff(&'a str),
    /// Reads up to this many bytes at a time, a hundred times or until the end of input, with this pause in
    /// milliseconds before each read.
    Sips(usize, u64),
    /// Expects this text as the next bytes, once `client::dated` has replaced the dates among them.
    Gets(&'a str),
    /// Expects that the last date in the text of the last `Gets` differs from the last date in the text of the `Gets`
    /// before that.
    DateChanged,
    /// Expects that the last date in the text of the last `Gets` is the current time, or at most this many seconds
    /// earlier.
    DatedWithin(u64),
    /// Reads until the connection ends, as `Client::counts` does. Expects the number of bytes that no earlier step has
    /// checked to be at least the first field and at most the second.
    Counts(usize, usize),
    /// Expects neither bytes nor the end of the connection for this many milliseconds.
    IsIdle(u64),
    /// Expects the end of input, without further bytes before it.
    IsClosed,
    /// Expects that the connection is closed or reset, whatever arrives before that.
    IsGone,
    /// Shuts down the sending side of the connection.
    HalfCloses,
    /// Closes the client's socket.
    Leaves,
}

/// The expected result of a call that receives a request.
#[derive(Clone, Copy)]
pub enum Given<'a> {
    /// A request for this target, which the scene calls by this name.
    Request(&'a str, &'a str),
    /// No request.
    Nothing,
    /// An error of this kind.
    Fault(ErrorKind),
}

/// A call on the server, or an expectation about its state.
#[derive(Clone, Copy)]
pub enum ServerDeed<'a> {
    /// Expects a request for this target, received in the scene's way (`Way`), and stores it under this name.
    Gives(&'a str, &'a str),
    /// Expects that the handler of `serve` has kept a request for this target, and stores it under this name.
    Keeps(&'a str, &'a str),
    Recv(Given<'a>),
    TryRecv(Given<'a>),
    /// Calls `recv_timeout` with this many milliseconds.
    RecvTimeout(u64, Given<'a>),
    Next(Given<'a>),
    Unblock,
    /// Calls `stop` with this many milliseconds. The flag says whether to expect all requests to be answered in time.
    Stop(u64, bool),
    Drop,
    /// Calls `serve` with the handler, and expects it to return this error, or to succeed if this is `None`.
    Serve(Option<ErrorKind>),
    /// Calls `serve_by` with this many threads, and expects it to return this error, or to succeed if this is `None`.
    ServeBy(usize, Option<ErrorKind>),
    /// Waits until this many clients are connected.
    Clients(usize),
    /// Expects that this many clients are connected now.
    ClientsNow(usize),
    /// Waits until the counter of this name has this value.
    Count(&'a str, u64),
    /// Waits until the counter of this name has at least this value.
    CountFrom(&'a str, u64),
    /// Expects that `accept_faults` returns at least this number now.
    AcceptFaults(u64),
    /// Opens the handler's gate, so that a call of the handler that waits at it continues.
    OpensGate,
    /// Expects that the file of the Unix socket exists if the flag is true, and that it doesn't otherwise.
    File(bool),
    /// Gives the file of the Unix socket a second name: a hard link.
    LinksFile,
    /// Expects that nobody listens on the server's address. For TCP, waits until the address is free. For a Unix
    /// socket, checks once, through the second name of its file.
    IsFree,
    /// Creates a second server at the same address, which replaces the first one, and drops the first.
    IsFollowed,
    /// Expects that creating a second server at the same address fails with this error.
    Rival(ErrorKind),
    /// Creates a server with limits at a path where such a file exists, and expects this error, or success if this is
    /// `None`. Also expects that a stale socket is gone afterwards, and that any other file still exists.
    At(Found, Option<ErrorKind>),
    /// Expects that creating a server with TLS at another address fails with this message.
    WithTls(&'a str),
    /// Expects that creating a server with TLS at the same address fails with this error.
    RivalWithTls(ErrorKind),
    /// Creates a server from two addresses: that of the scene's server, which is in use, and one with any free port.
    /// Expects that the new server does not listen on the first.
    AtSecond,
    /// Expects that the server's Unix address is displayed as the path of its socket in quotes, followed by
    /// `(pathname)`.
    ShowsPath,
}

/// A file that exists at the path of a Unix socket before a server is created there.
#[derive(Clone, Copy, PartialEq, Eq)]
pub enum Found {
    /// A socket on which nobody listens.
    Stale,
    /// A socket that already has a listener.
    Live,
    /// A file that is not a socket.
    Plain,
    /// A symbolic link to a socket on which nobody listens.
    Link,
}

/// The body of a response.
#[derive(Clone, Copy)]
pub enum Data<'a> {
    Text(&'a str),
    Empty,
    /// No body, and the connection closes after the response.
    Closing,
    Json(&'a str),
    /// This many bytes, in a response built with their length. The response is sent in chunks only if the request's
    /// `TE` asks for chunks.
    Bytes(usize),
    /// This many bytes, in a response built without their length.
    Unsized(usize),
    /// This text, in a response built with this number as its length.
    Short(usize, &'a str),
}

/// The reason why a request is returned without an upgrade.
#[derive(Clone, Copy)]
pub enum Kept {
    /// The request does not ask for the protocol.
    NotAsked,
    /// The request's body has not been read to the end.
    UnfinishedBody,
    /// The limit of upgraded connections is reached.
    TooMany,
}

/// A call on a request, or an expectation about its properties.
#[derive(Clone, Copy)]
pub enum RequestDeed<'a> {
    /// Responds with this status and body, and expects this error, or success if this is `None`.
    Respond(u16, Data<'a>, Option<ErrorKind>),
    Drop,
    /// Expects this text as the rest of the request's body.
    Body(&'a str),
    /// Expects this text as the next bytes of the request's body.
    Reads(&'a str),
    /// Expects that reading the request's body ends with this error.
    ReadFails(ErrorKind),
    /// Expects that `read_exact` for this many bytes of the request's body fails with this error.
    ReadExactly(usize, ErrorKind),
    /// Calls `read_body` with this limit in bytes, and expects this result.
    ReadBody(usize, Whole<'a>),
    /// Calls `as_reader`, and reads nothing.
    AsReader,
    /// Expects that the request's first header field of this name has this value, or, if this is `None`, that the
    /// request has no such field.
    Header(&'a str, Option<&'a str>),
    /// Expects that the request's header fields of this name list this token if the flag is true, and that they don't
    /// otherwise.
    Lists(&'a str, &'a str, bool),
    Path(&'a str),
    Query(Option<&'a str>),
    /// Expects that the request asks for an upgrade if the flag is true, and that it doesn't otherwise.
    AsksUpgrade(bool),
    /// Expects that the request came over TLS if the flag is true, and that it didn't otherwise.
    IsSecure(bool),
    Version(&'a str),
    Length(Option<u64>),
    /// Expects this many header fields.
    Headers(u64),
    /// Expects this text as the request's debug output.
    Shown(&'a str),
    /// Borrows the request's head and body together, and expects this path and this rest of the body.
    Lends(&'a str, &'a str),
    /// Expects that the request is a `GET` from the client of this name, without TLS.
    IsPlainOf(&'a str),
    /// Turns the request into its raw writer, and stores the writer under this name.
    IntoWriter(&'a str),
    /// Begins a streaming response with this status, and stores its body under this name. If the flag is set, the
    /// connection closes after the response.
    Streams(u16, &'a str, bool),
    /// Expects that `respond_streaming` with this status fails with this error.
    StreamsNot(u16, ErrorKind),
    /// Upgrades the request to this protocol, and stores the stream under this name.
    Upgrades(&'a str, &'a str),
    /// Upgrades the request to this protocol with `try_upgrade`, which refuses the upgrade if the head doesn't ask for
    /// this protocol. Stores the stream under this name.
    TriesUpgrade(&'a str, &'a str),
    /// Expects that `try_upgrade` to this protocol refuses the upgrade for this reason, and returns the request.
    KeepsUpgrade(&'a str, Kept),
    /// Expects that a response to the request would be lost if the flag is true, and that it wouldn't otherwise.
    IsLost(bool),
}

/// The expected result of reading a whole body.
#[derive(Clone, Copy)]
pub enum Whole<'a> {
    Text(&'a str),
    TooLong,
    Cut,
    Broken,
    Fault(ErrorKind),
}

/// A call on an output: a raw writer, a streaming response, or an upgraded stream.
#[derive(Clone, Copy)]
pub enum OutputDeed<'a> {
    Write(&'a str, Option<ErrorKind>),
    Flush(Option<ErrorKind>),
    /// Closes a raw writer, finishes a streaming response, or drops an upgraded stream.
    Close(Option<ErrorKind>),
    /// Expects this text as the next bytes of an upgraded stream.
    Read(&'a str),
    /// Expects that a read of an upgraded stream fails with this error.
    ReadFails(ErrorKind),
    /// Expects that a streaming response is framed in this way.
    Form(&'a str),
    Discard,
}

/// A step of a scene.
#[derive(Clone, Copy)]
pub enum Deed<'a> {
    Client(&'a str, ClientDeed<'a>),
    Server(ServerDeed<'a>),
    Request(&'a str, RequestDeed<'a>),
    Output(&'a str, OutputDeed<'a>),
    Queue(QueueDeed),
    Memory(MemoryDeed<'a>),
    Turns(TurnsDeed<'a>),
    Turn(&'a str, TurnDeed<'a>),
    /// Uses up the process's file descriptors except this many, or, if `None`, releases those that were used up.
    Descriptors(Option<usize>),
    /// Waits for this many milliseconds.
    Pause(u64),
    ClockStarts,
    /// Expects that less than this many milliseconds have passed since the clock started.
    ClockBelow(u64),
    /// Expects that at least this many milliseconds have passed since the clock started.
    ClockAbove(u64),
    /// Ends a lap: records the time since the clock started, and restarts the clock.
    ClockLap,
    /// Expects that the shortest lap took less than this many milliseconds.
    ShortestLap(u64),
    /// Runs the indented steps that follow on a thread of this name.
    Beside(&'a str),
    /// Runs the indented steps that follow in a pool job of this name.
    Job(&'a str),
    /// Expects that the thread or job of this name ends within this many milliseconds.
    Ends(&'a str, u64),
    /// Expects that the thread or job of this name has not ended.
    Waits(&'a str),
}

// Time in milliseconds within which a thread or job must end if its step states none.
const LONGEST: u64 = 10_000;

// Parses a decimal number, such as a number of milliseconds.
pub(crate) fn millis_in(digits: &str) -> Option<u64> {
    Some(number_in(digits)? as u64)
}

// Splits the text at its last ` = `.
pub(crate) fn sides(text: &str) -> Option<(&str, &str)> {
    text.rsplit_once(" = ")
}

// Splits off an error kind after the last ` = `. Returns the whole text and `None` if no kind is there.
pub(crate) fn before_kind(text: &str) -> (&str, Option<ErrorKind>) {
    if let Some((front, name)) = sides(text)
        && let Some(kind) = kind_of(name)
    {
        return (front, Some(kind));
    }
    (text, None)
}

// Parses the arguments of `drips-on`: `TEXT every MS for MS to MS`.
fn drip_on_deed(text: &str) -> Option<ClientDeed<'_>> {
    let (front, times) = text.rsplit_once(" for ")?;
    let (text, pause) = front.rsplit_once(" every ")?;
    let (least, most) = times.split_once(" to ")?;
    let times = (millis_in(least)?, millis_in(most)?);
    Some(ClientDeed::DripsOn(text, millis_in(pause)?, times))
}

// Parses a client's step from its verb and the words after it.
fn client_deed<'a>(verb: &str, rest: &'a str) -> Option<ClientDeed<'a>> {
    match (verb, rest) {
        ("connects", "") => Some(ClientDeed::Connects),
        ("sends", text) => Some(ClientDeed::Sends(text)),
        ("drips", text) => {
            let (text, millis) = text.rsplit_once(" every ")?;
            Some(ClientDeed::Drips(text, millis_in(millis)?))
        }
        ("drips-on", text) => drip_on_deed(text),
        ("is-cut-off-sending", text) => Some(ClientDeed::IsCutOff(text)),
        ("sips", numbers) => {
            let (count, millis) = numbers.split_once(" every ")?;
            Some(ClientDeed::Sips(number_in(count)?, millis_in(millis)?))
        }
        ("gets", text) => Some(ClientDeed::Gets(text)),
        ("date-changed", "") => Some(ClientDeed::DateChanged),
        ("dated-within", seconds) => Some(ClientDeed::DatedWithin(millis_in(seconds)?)),
        ("counts", numbers) => {
            let (least, most) = numbers.split_once(" to ")?;
            Some(ClientDeed::Counts(number_in(least)?, number_in(most)?))
        }
        ("is-idle", millis) => Some(ClientDeed::IsIdle(millis_in(millis)?)),
        ("is-closed", "") => Some(ClientDeed::IsClosed),
        ("is-gone", "") => Some(ClientDeed::IsGone),
        ("half-closes", "") => Some(ClientDeed::HalfCloses),
        ("leaves", "") => Some(ClientDeed::Leaves),
        _ => None,
    }
}

// Parses the expected result of a call that receives a request: `TARGET as NAME`, `nothing`, or an error kind.
fn given_in(text: &str) -> Option<Given<'_>> {
    if text == "nothing" {
        return Some(Given::Nothing);
    }
    if let Some((target, name)) = text.split_once(" as ") {
        return Some(Given::Request(target, name));
    }
    Some(Given::Fault(kind_of(text)?))
}

// Parses the expected outcome of a call: `ok`, or an error kind.
fn served_in(text: &str) -> Option<Option<ErrorKind>> {
    if text == "ok" {
        return Some(None);
    }
    Some(Some(kind_of(text)?))
}

// Parses a server call and its expected outcome, which the step states after ` = `.
fn call_of_server<'a>(call: &'a str, outcome: &'a str) -> Option<ServerDeed<'a>> {
    let (verb, rest) = call.split_once(' ').unwrap_or((call, ""));
    match (verb, rest) {
        ("recv", "") => Some(ServerDeed::Recv(given_in(outcome)?)),
        ("try_recv", "") => Some(ServerDeed::TryRecv(given_in(outcome)?)),
        ("recv_timeout", millis) => {
            Some(ServerDeed::RecvTimeout(millis_in(millis)?, given_in(outcome)?))
        }
        ("next", "") => Some(ServerDeed::Next(given_in(outcome)?)),
        ("stop", millis) => match outcome {
            "Answered" => Some(ServerDeed::Stop(millis_in(millis)?, true)),
            "TimeOver" => Some(ServerDeed::Stop(millis_in(millis)?, false)),
            _ => None,
        },
        ("serve", "") => Some(ServerDeed::Serve(served_in(outcome)?)),
        ("serve_by", threads) => {
            Some(ServerDeed::ServeBy(number_in(threads)?, served_in(outcome)?))
        }
        ("num_connections", "") => Some(ServerDeed::Clients(number_in(outcome)?)),
        ("num_connections", "now") => Some(ServerDeed::ClientsNow(number_in(outcome)?)),
        ("counts", field) => Some(ServerDeed::Count(field, millis_in(outcome)?)),
        ("rival", "") => Some(ServerDeed::Rival(kind_of(outcome)?)),
        ("rival", "with tls") => Some(ServerDeed::RivalWithTls(kind_of(outcome)?)),
        ("with", "tls") => Some(ServerDeed::WithTls(outcome)),
        ("with", "stale socket") => Some(ServerDeed::At(Found::Stale, served_in(outcome)?)),
        ("with", "live socket") => Some(ServerDeed::At(Found::Live, served_in(outcome)?)),
        ("with", "link") => Some(ServerDeed::At(Found::Link, served_in(outcome)?)),
        ("with", "plain file") => Some(ServerDeed::At(Found::Plain, served_in(outcome)?)),
        _ => None,
    }
}

// Parses a step on the server.
fn server_deed(text: &str) -> Option<ServerDeed<'_>> {
    if let Some((call, outcome)) = sides(text) {
        return call_of_server(call, outcome);
    }
    let (verb, rest) = text.split_once(' ').unwrap_or((text, ""));
    match (verb, rest) {
        ("gives", given) => {
            let (target, name) = given.split_once(" as ")?;
            Some(ServerDeed::Gives(target, name))
        }
        ("keeps", given) => {
            let (target, name) = given.split_once(" as ")?;
            Some(ServerDeed::Keeps(target, name))
        }
        ("counts", text) => {
            let (field, digits) = text.split_once(" from ")?;
            Some(ServerDeed::CountFrom(field, millis_in(digits)?))
        }
        ("accept_faults", text) => {
            Some(ServerDeed::AcceptFaults(millis_in(text.strip_prefix("from ")?)?))
        }
        ("unblock", "") => Some(ServerDeed::Unblock),
        ("drop", "") => Some(ServerDeed::Drop),
        ("opens", "its gate") => Some(ServerDeed::OpensGate),
        ("file", "there") => Some(ServerDeed::File(true)),
        ("file", "gone") => Some(ServerDeed::File(false)),
        ("file", "linked") => Some(ServerDeed::LinksFile),
        ("followed", "") => Some(ServerDeed::IsFollowed),
        ("second", "address") => Some(ServerDeed::AtSecond),
        ("shows", "its path") => Some(ServerDeed::ShowsPath),
        ("address", "free") => Some(ServerDeed::IsFree),
        _ => None,
    }
}

// Parses the body of a response.
fn data_in(text: &str) -> Option<Data<'_>> {
    let (word, rest) = text.split_once(' ').unwrap_or((text, ""));
    match (word, rest) {
        ("text", text) => Some(Data::Text(text)),
        ("json", text) => Some(Data::Json(text)),
        ("empty", "") => Some(Data::Empty),
        ("closing", "") => Some(Data::Closing),
        ("bytes", digits) => Some(Data::Bytes(number_in(digits)?)),
        ("unsized", digits) => Some(Data::Unsized(number_in(digits)?)),
        ("short", words) => {
            let (digits, text) = words.split_once(' ')?;
            Some(Data::Short(number_in(digits)?, text))
        }
        _ => None,
    }
}

// Parses the status before the first space. Returns it and the text after the space.
fn status_in(text: &str) -> Option<(u16, &str)> {
    let (digits, rest) = text.split_once(' ')?;
    Some((u16::try_from(number_in(digits)?).ok()?, rest))
}

// Parses the expected result of reading a whole body.
fn whole_in(text: &str) -> Option<Whole<'_>> {
    match text {
        "TooLong" => Some(Whole::TooLong),
        "Cut" => Some(Whole::Cut),
        "Broken" => Some(Whole::Broken),
        "empty" => Some(Whole::Text("")),
        _ => match text.strip_prefix("whole ") {
            Some(text) => Some(Whole::Text(text)),
            None => Some(Whole::Fault(kind_of(text)?)),
        },
    }
}

// Parses `yes` or `no`.
fn answer_in(word: &str) -> Option<bool> {
    match word {
        "yes" => Some(true),
        "no" => Some(false),
        _ => None,
    }
}

// Parses the reason why a request is returned without an upgrade.
fn kept_in(word: &str) -> Option<Kept> {
    match word {
        "NotAsked" => Some(Kept::NotAsked),
        "UnfinishedBody" => Some(Kept::UnfinishedBody),
        "TooMany" => Some(Kept::TooMany),
        _ => None,
    }
}

// Parses a request call with an argument, and its expected outcome.
fn look_at_request<'a>(verb: &str, call: &'a str, outcome: &'a str) -> Option<RequestDeed<'a>> {
    match verb {
        "read_body" => Some(RequestDeed::ReadBody(number_in(call)?, whole_in(outcome)?)),
        "header" if outcome == "none" => Some(RequestDeed::Header(call, None)),
        "header" => Some(RequestDeed::Header(call, Some(outcome))),
        "parts" => Some(RequestDeed::Lends(call, outcome)),
        "read_exact" => Some(RequestDeed::ReadExactly(number_in(call)?, kind_of(outcome)?)),
        "header_lists" => {
            let (name, token) = call.split_once(' ')?;
            Some(RequestDeed::Lists(name, token, answer_in(outcome)?))
        }
        "try_upgrade" => Some(RequestDeed::KeepsUpgrade(call, kept_in(outcome)?)),
        "respond_streaming" => {
            let status = u16::try_from(number_in(call)?).ok()?;
            Some(RequestDeed::StreamsNot(status, kind_of(outcome)?))
        }
        _ => None,
    }
}

// Parses a request call without arguments, and its expected outcome.
fn property_of_request<'a>(verb: &str, outcome: &'a str) -> Option<RequestDeed<'a>> {
    match verb {
        "path" => Some(RequestDeed::Path(outcome)),
        "query" if outcome == "none" => Some(RequestDeed::Query(None)),
        "query" => Some(RequestDeed::Query(Some(outcome.strip_prefix('?')?))),
        "is_upgrade" => Some(RequestDeed::AsksUpgrade(answer_in(outcome)?)),
        "secure" => Some(RequestDeed::IsSecure(answer_in(outcome)?)),
        "is_lost" => Some(RequestDeed::IsLost(answer_in(outcome)?)),
        "http_version" => Some(RequestDeed::Version(outcome)),
        "body_length" if outcome == "none" => Some(RequestDeed::Length(None)),
        "body_length" => Some(RequestDeed::Length(Some(millis_in(outcome)?))),
        "headers" => Some(RequestDeed::Headers(millis_in(outcome)?)),
        "shown" => Some(RequestDeed::Shown(outcome)),
        _ => None,
    }
}

// Parses a step on a request.
fn request_deed<'a>(verb: &str, rest: &'a str) -> Option<RequestDeed<'a>> {
    if let Some(outcome) = rest.strip_prefix("= ") {
        return property_of_request(verb, outcome);
    }
    if let Some((call, outcome)) = rest.split_once(" = ")
        && let Some(deed) = look_at_request(verb, call, outcome)
    {
        return Some(deed);
    }
    match (verb, rest) {
        ("respond", text) => {
            let (front, kind) = before_kind(text);
            let (status, words) = status_in(front)?;
            Some(RequestDeed::Respond(status, data_in(words)?, kind))
        }
        ("drop", "") => Some(RequestDeed::Drop),
        ("body", text) => Some(RequestDeed::Body(text)),
        ("reads", text) => Some(RequestDeed::Reads(text)),
        ("read-fails-by", kind) => Some(RequestDeed::ReadFails(kind_of(kind)?)),
        ("as_reader", "") => Some(RequestDeed::AsReader),
        ("is-plain-of", client) => Some(RequestDeed::IsPlainOf(client)),
        ("into_writer", name) => Some(RequestDeed::IntoWriter(name.strip_prefix("as ")?)),
        ("respond_streaming", text) => {
            let (status, words) = status_in(text)?;
            let (is_last, words) = match words.strip_prefix("closing ") {
                Some(words) => (true, words),
                None => (false, words),
            };
            Some(RequestDeed::Streams(status, words.strip_prefix("as ")?, is_last))
        }
        ("upgrade", text) => {
            let (protocol, name) = text.split_once(" as ")?;
            Some(RequestDeed::Upgrades(protocol, name))
        }
        ("try_upgrade", text) => {
            let (protocol, name) = text.split_once(" as ")?;
            Some(RequestDeed::TriesUpgrade(protocol, name))
        }
        _ => None,
    }
}

// Parses a step on an output.
fn output_deed<'a>(verb: &str, rest: &'a str) -> Option<OutputDeed<'a>> {
    match verb {
        "write" => {
            let (text, kind) = before_kind(rest);
            Some(OutputDeed::Write(text, kind))
        }
        "flush" => Some(OutputDeed::Flush(fault_in(rest)?)),
        "close" => Some(OutputDeed::Close(fault_in(rest)?)),
        "gets-back" => Some(OutputDeed::Read(rest)),
        "gets-fault" => Some(OutputDeed::ReadFails(kind_of(rest)?)),
        "form" => Some(OutputDeed::Form(rest.strip_prefix("= ")?)),
        "discard" if rest.is_empty() => Some(OutputDeed::Discard),
        _ => None,
    }
}

// Parses `= KIND`, or an empty text, which means that no error is expected.
fn fault_in(rest: &str) -> Option<Option<ErrorKind>> {
    if rest.is_empty() {
        return Some(None);
    }
    Some(Some(kind_of(rest.strip_prefix("= ")?)?))
}

// Parses a step on the clock.
fn clock_deed(text: &str) -> Option<Deed<'_>> {
    match text.split_once(' ') {
        None if text == "starts" => Some(Deed::ClockStarts),
        None if text == "laps" => Some(Deed::ClockLap),
        Some(("below", millis)) => Some(Deed::ClockBelow(millis_in(millis)?)),
        Some(("above", millis)) => Some(Deed::ClockAbove(millis_in(millis)?)),
        Some(("shortest", millis)) => Some(Deed::ShortestLap(millis_in(millis)?)),
        _ => None,
    }
}

// Parses a step on the file descriptors.
fn descriptors_deed(text: &str) -> Option<Deed<'_>> {
    match text.split_once(' ') {
        None if text == "back" => Some(Deed::Descriptors(None)),
        Some(("left", digits)) => Some(Deed::Descriptors(Some(number_in(digits)?))),
        _ => None,
    }
}

// Parses a step on a thread or a job.
fn thread_deed<'a>(who: &'a str, verb: &str, rest: &str) -> Option<Deed<'a>> {
    match (verb, rest) {
        ("ends", "") => Some(Deed::Ends(who, LONGEST)),
        ("ends", within) => Some(Deed::Ends(who, millis_in(within.strip_prefix("within ")?)?)),
        ("waits", "") => Some(Deed::Waits(who)),
        _ => None,
    }
}

/// Parses a step from a line whose indentation has been removed. Returns `None` if the line is not a step.
pub fn deed_in(line: &str) -> Option<Deed<'_>> {
    let (who, what) = line.split_once(' ')?;
    match who {
        "pause" => return Some(Deed::Pause(millis_in(what)?)),
        "clock" => return clock_deed(what),
        "descriptors" => return descriptors_deed(what),
        "beside" => return Some(Deed::Beside(what)),
        "job" => return Some(Deed::Job(what)),
        "queue" => return Some(Deed::Queue(queue_deed(what)?)),
        "memory" => return Some(Deed::Memory(memory_deed(what)?)),
        "turns" => return Some(Deed::Turns(turns_deed(what)?)),
        "server" => return Some(Deed::Server(server_deed(what)?)),
        _ => {}
    }
    let (verb, rest) = what.split_once(' ').unwrap_or((what, ""));
    if let Some(deed) = client_deed(verb, rest) {
        return Some(Deed::Client(who, deed));
    }
    if let Some(deed) = request_deed(verb, rest) {
        return Some(Deed::Request(who, deed));
    }
    if let Some(deed) = output_deed(verb, rest) {
        return Some(Deed::Output(who, deed));
    }
    if let Some(deed) = turn_deed(verb, rest) {
        return Some(Deed::Turn(who, deed));
    }
    thread_deed(who, verb, rest)
}
