//! A case: the input of a connection, the steps with their expected replies, and the expected output.
use std::io::ErrorKind;
use tiny_http_core::framing::Profile;
use tiny_http_wire::ascii::AsciiString;

/// The number of bytes that a writer accepts, and the kind of the error with which it then fails.
#[derive(Clone, Copy, Debug, PartialEq, Eq)]
pub struct Room {
    pub bytes: usize,
    pub fault: ErrorKind,
}

/// A response that no line of a script can describe.
#[derive(Drop)]
pub struct Answer {
    /// The number of the request.
    pub number: u64,
    pub status: u16,
    /// The header lines, without line breaks.
    pub headers: Vec<String>,
    /// The stated content length, if any.
    pub length: Option<usize>,
    /// The chunked threshold of the response, if the case states one.
    pub threshold: Option<usize>,
    /// Whether the connection closes after the response.
    pub closes: bool,
    /// The protocols offered for an upgrade, if any.
    pub offer: Option<AsciiString>,
    pub data: Vec<u8>,
    /// The error that ends the data, if any.
    pub fault: Option<ErrorKind>,
}

/// The action of a step.
#[derive(Drop)]
pub enum Deed {
    /// A line of a script: a step or a date.
    Script(String),
    /// A response to a request.
    Answer(Answer),
}

/// A step of a case and its expected reply.
#[derive(Drop)]
pub struct CaseStep {
    pub deed: Deed,
    /// The reply line with its escapes replaced. A date has none.
    pub reply: Vec<u8>,
    /// Whether the reply line has been read, or the step is a date.
    pub is_answered: bool,
}

impl CaseStep {
    /// Returns whether the step is a date, which has no reply.
    pub fn is_date(&self) -> bool {
        match &self.deed {
            Deed::Answer(_) => false,
            Deed::Script(line) => line.starts_with("now "),
        }
    }

    /// Returns whether the step asks for the next request.
    pub fn is_ask(&self) -> bool {
        match &self.deed {
            Deed::Answer(_) => false,
            Deed::Script(line) => line.as_str() == "ask",
        }
    }

    /// Returns whether the step responds to a request.
    pub fn is_answer(&self) -> bool {
        match &self.deed {
            Deed::Answer(_) => true,
            Deed::Script(line) => line.starts_with("respond "),
        }
    }

    /// Returns whether the step's reply may report an error of the writer.
    pub fn may_report(&self) -> bool {
        match &self.deed {
            Deed::Answer(_) => true,
            Deed::Script(line) => ["respond ", "write ", "flush "]
                .iter()
                .any(|word| line.starts_with(word)),
        }
    }
}

/// A client's input, the steps of a server, and the expected output.
#[derive(Drop)]
pub struct Case {
    pub name: String,
    /// The profile of the connection.
    pub profile: Profile,
    /// The bytes that the client sends.
    pub client: Vec<u8>,
    /// The reader's error after the client's bytes. If it is `None`, the reader reports the end of input there.
    pub stop: Option<ErrorKind>,
    /// How many bytes the writer accepts before it fails, or `None` if it accepts everything.
    pub room: Option<Room>,
    /// Whether the case is excluded from the trials in which the client's bytes are cut short or the reader fails once.
    pub is_uncut: bool,
    /// How many of the client's leading bytes are each replaced with every value in turn, if any.
    pub varied: Option<usize>,
    pub steps: Vec<CaseStep>,
    /// The bytes that are sent, and then those still buffered.
    pub output: Vec<u8>,
    /// The reason why no further request comes after the steps, if the case states it.
    pub end: Option<Vec<u8>>,
}
