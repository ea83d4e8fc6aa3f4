//! A row: a call, its input, and the expected results.
use crate::deeds::Deed;
use std::io::ErrorKind;
use test_case_files::case::Room;
use tiny_http_core::framing::Profile;
use tiny_http_core::turns::TurnsError;
use tiny_http_core::upgrading::UpgradeError;
use tiny_http_wire::chunked::ChunkRules;
use tiny_http_wire::coding::Coding;
use tiny_http_wire::common::{HTTPVersion, Header, Method, StatusCode};

/// A call whose only input is a text.
#[derive(Clone, Copy, Debug, PartialEq, Eq)]
pub enum TextCall {
    /// `parse_header_value`.
    HeaderValue,
    /// `parse_element`.
    Element,
    /// `parse_header_line`.
    HeaderLine,
    /// `parse_request_line`.
    RequestLine,
    /// `parse_content_length`.
    ContentLength,
    /// `Header::from_str`.
    HeaderFromStr,
    /// `HeaderField::from_str`.
    FieldFromStr,
    /// `Method::from_str`.
    MethodFromStr,
}

/// The input of `choose`.
#[derive(Clone, Copy, Debug, PartialEq, Eq)]
pub struct Choice {
    pub version: HTTPVersion,
    /// The transfer coding that the request asks for.
    pub asked: Option<Coding>,
    pub status: StatusCode,
    /// The length of the data, if known.
    pub length: Option<usize>,
    pub threshold: usize,
}

/// A value on which a row makes successive calls.
#[derive(Clone, Copy, Debug, PartialEq, Eq)]
pub enum Subject {
    /// A `Source`.
    Source,
    /// An `EqualReader` over this many bytes of a source.
    EqualReader(usize),
    /// A `FusedReader`.
    FusedReader,
    /// An `Outlet`.
    Outlet,
    /// A `CustomStream`.
    CustomStream,
    /// A `Turns` that holds the item 7.
    Turns,
    /// A source, an outlet, and the requests that are read from the source under this profile, each an `Exchange`.
    Exchange(Profile),
    /// A `Connection` under this profile.
    Connection(Profile),
}

/// A call, with its arguments from the first line of its row.
#[derive(Drop)]
pub enum Call {
    /// Makes this call, whose only input is this text.
    Text(TextCall, String),
    /// Reads, with `read_answer`, successive responses to requests with these methods.
    Answers(Vec<Method>),
    /// Reads the head of a response with `read_answer_head`.
    AnswerHead,
    /// Decodes a chunked body with a `Decoder` under these rules.
    Decoder(ChunkRules),
    /// Writes bytes as one chunk with `put_chunk`.
    PutChunk,
    /// Writes data in chunks with `put_chunked`.
    PutChunked,
    /// Passes bytes to an `Encoder` in pieces. The call is tried with each of these piece sizes.
    Encoder(Vec<usize>),
    /// Returns, with `asked_coding`, the transfer coding that a request asks for.
    AskedCoding,
    /// Chooses the transfer coding of a response with `choose`.
    Choose(Choice),
    /// Prints a response with this status code, using `raw_print`.
    RawPrint(StatusCode),
    /// Adds headers to a response in three ways: with `add_header`, with `with_header`, and with `Response::new`.
    AddHeader,
    /// Returns the `default_reason_phrase` of this status code.
    Phrase(StatusCode),
    /// Displays this version.
    Version(HTTPVersion),
    /// Formats this number in decimal and in hexadecimal with `Numeral`.
    Numeral(u64),
    /// Parses a request line under `Standard`.
    StandardRequestLine,
    /// Parses a field line under `Standard`.
    StandardFieldLine,
    /// Validates a text as a host, as the value of a Host field, and as the target of a `CONNECT`.
    Host,
    /// Validates a head with this version and method under `Standard`.
    Validate(HTTPVersion, Method),
    /// Reads the head at the start of the input under `Standard`. The head may have at most this many bytes.
    ReadHead(usize),
    /// Prints a response with this status code under `Standard`, using `print`.
    Print(StatusCode),
    /// Makes successive calls on a value of this kind.
    Each(Subject),
    /// Serves a client with `example_greeter`.
    Greeter,
    /// Stores this many numbers in a `ByNumber`.
    ByNumber(u64),
    /// Displays this `UpgradeError`.
    UpgradeError(UpgradeError),
    /// Displays this `TurnsError`.
    TurnsError(TurnsError),
}

/// The call at which a reader or a writer fails, and its error.
#[derive(Clone, Copy, Debug, PartialEq, Eq)]
pub struct Failing {
    /// The number of the call, counted from 1.
    pub call: u64,
    pub kind: ErrorKind,
}

/// Writers with too little room for the output. The call is tried with each of them.
#[derive(Drop)]
pub enum Rooms {
    /// A writer for each of these numbers, which accepts that many bytes.
    These(Vec<usize>),
    /// A writer for each number below the length of the output, which accepts that many bytes.
    Each,
}

/// The input of a call.
#[derive(Drop)]
pub struct Input {
    pub bytes: Vec<u8>,
    /// The error that the reader reports after the bytes, or `None` if it reports their end.
    pub stop: Option<ErrorKind>,
    /// The headers of a response.
    pub headers: Vec<Header>,
    /// The stated length of a response's data, if any.
    pub length: Option<usize>,
    /// The data length at or above which a response is sent in chunks, if it is not the default.
    pub threshold: Option<usize>,
    /// The version of a request, if it is not 1.1.
    pub version: Option<HTTPVersion>,
    /// The headers of a request.
    pub request: Vec<Header>,
    /// The protocol of an upgrade, if the response is one.
    pub upgrade: Option<String>,
    /// Whether the body of a response is withheld.
    pub is_withheld: bool,
    /// Whether a flush and an empty write follow each write.
    pub has_flushes: bool,
    /// Whether the encoder is dropped before it finishes the body.
    pub is_open: bool,
    /// How many bytes the writer accepts, and the error with which it then fails. If absent, the number of bytes is not
    /// limited.
    pub room: Option<Room>,
    /// Writers with too little room, with which the call is tried too.
    pub rooms: Option<Rooms>,
    /// The client's bytes after `bytes`. A call on the reader returns bytes of one piece only.
    pub pieces: Vec<Vec<u8>>,
    /// The call on the reader that fails, if one does.
    pub failing_read: Option<Failing>,
    /// The call on the writer that fails, if one does. In that case, `room` has no effect.
    pub failing_write: Option<Failing>,
    /// Whether each write accepts no byte and returns `Ok(0)`.
    pub is_stuck: bool,
    /// The successive calls on a value.
    pub deeds: Vec<Deed>,
}

/// A result of a call: its kind and its text.
#[derive(Drop)]
pub struct Finding {
    pub word: &'static str,
    pub text: Vec<u8>,
}

/// A call, its input, and the expected results.
#[derive(Drop)]
pub struct Row {
    /// The number of the row's first line in its file, counted from 1.
    pub line: usize,
    pub call: Call,
    pub input: Input,
    /// The expected results.
    pub wanted: Vec<Finding>,
}

// The kinds of results that a row must state if they occur.
const STATED: [&str; 34] = [
    "answer",
    "asks-upgrade",
    "authority",
    "body",
    "chunked",
    "coding",
    "continue",
    "data",
    "decimal",
    "element",
    "end",
    "ended",
    "failed",
    "fault",
    "held",
    "hexadecimal",
    "host",
    "host-value",
    "kept",
    "last",
    "later",
    "length",
    "malformed",
    "method",
    "name",
    "nonstandard",
    "output",
    "phrase",
    "refused",
    "reply",
    "served",
    "target",
    "unfinished",
    "value",
];

// The kinds of results that are compared only if the row states a result of that kind.
const ASKED: [&str; 10] = [
    "called", "header", "headers", "left", "reads", "rest", "sent", "sizes", "taken", "version",
];

// The kinds of results whose text may take several lines.
const LONG: [&str; 6] = ["body", "data", "held", "left", "output", "rest"];

// Returns the entry of `words` that equals `word`, or `None` if no entry does.
fn known(words: &[&'static str], word: &str) -> Option<&'static str> {
    for known in words {
        if *known == word {
            return Some(*known);
        }
    }
    None
}

/// Returns the kind of result with this name, or `None` if there is no such kind.
pub fn word_of(text: &str) -> Option<&'static str> {
    known(&STATED, text).or(known(&ASKED, text))
}

/// Returns whether results of this kind are compared only if the row states such a result.
pub fn is_asked(word: &str) -> bool {
    known(&ASKED, word).is_some()
}

/// Returns whether the text of a result of this kind may take several lines.
pub fn is_long(word: &str) -> bool {
    known(&LONG, word).is_some()
}
