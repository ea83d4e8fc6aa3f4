//! Reads responses, and decodes chunked bodies.
use crate::findings::{add, add_kind, add_shown, add_some};
use crate::row::{Finding, Input};
use std::alloc::{AllocError, Global};
use tiny_http_client::answer::{Answer, AnswerFault, read_answer};
use tiny_http_client::answer_head::read_answer_head;
use tiny_http_wire::chunked::{ChunkRules, Decoder};
use tiny_http_wire::common::{Header, Method};
use tiny_http_wire::device::{ByPieces, Canned, ReadDevice, Stop};

// Adds the headers of a response, and then their count and the total length of their values.
fn add_headers(alloc: Global, to: &mut Vec<Finding>, headers: &[Header]) -> Result<(), AllocError> {
    let mut size: usize = 0;
    for header in headers {
        add_shown(alloc, to, "header", header)?;
        size = size.saturating_add(header.value.as_str().len());
    }
    let count = headers.len();
    let text = format!(in alloc; "{count} {size}")?;
    add(alloc, to, "headers", text.as_bytes())
}

// Adds a response, and how many bytes it takes up.
fn add_answer(
    alloc: Global,
    to: &mut Vec<Finding>,
    answer: &Answer,
    taken: usize,
) -> Result<(), AllocError> {
    add_shown(alloc, to, "answer", &answer.status.0)?;
    add_shown(alloc, to, "taken", &taken)?;
    add_shown(alloc, to, "version", &answer.version)?;
    add_headers(alloc, to, answer.headers.as_slice())?;
    add_some(alloc, to, "body", answer.body.as_slice())
}

// Reads one response, and adds the response or the reason why there is none. Returns how many bytes it takes up, if it
// is complete and valid.
fn read_one(
    alloc: Global,
    method: &Method,
    bytes: &[u8],
    to: &mut Vec<Finding>,
) -> Result<Option<usize>, AllocError> {
    let why = match read_answer(alloc, method, bytes) {
        Ok(Some((answer, taken))) => {
            add_answer(alloc, to, &answer, taken)?;
            return Ok(Some(taken));
        }
        Ok(None) => "unfinished",
        Err(AnswerFault::Malformed) => "malformed",
        Err(AnswerFault::Memory) => "memory",
    };
    add(alloc, to, why, b"")?;
    Ok(None)
}

/// Reads successive responses to requests with these methods, up to the first that is invalid or incomplete. Adds the
/// responses, the reason if one can't be read, and the remaining bytes.
pub fn read_answers(
    alloc: Global,
    methods: &[Method],
    bytes: &[u8],
    to: &mut Vec<Finding>,
) -> Result<(), AllocError> {
    let mut rest = bytes;
    for method in methods {
        let Some(taken) = read_one(alloc, method, rest, to)? else {
            break;
        };
        rest = rest.get(taken..).unwrap_or_default();
    }
    add(alloc, to, "rest", rest)
}

/// Adds the head of a response and its length, or that it is incomplete, or why it is refused.
pub fn read_head_alone(
    alloc: Global,
    bytes: &[u8],
    to: &mut Vec<Finding>,
) -> Result<(), AllocError> {
    match read_answer_head(alloc, bytes) {
        Ok(Some((head, taken))) => {
            add_shown(alloc, to, "answer", &head.status.0)?;
            add_shown(alloc, to, "taken", &taken)?;
            add_shown(alloc, to, "version", &head.version)?;
            add_headers(alloc, to, head.headers.as_slice())
        }
        Ok(None) => add(alloc, to, "unfinished", b""),
        Err(fault) => add_shown(alloc, to, "refused", &fault),
    }
}

// Number of reads after which data that has not ended counts as endless.
const MOST_READS: u64 = 1_000_000;

/// Reads the remaining bytes. Returns them, and how they end, which is `None` if they have not ended after `MOST_READS`
/// reads.
pub fn drain<R: ReadDevice>(
    alloc: Global,
    reader: &mut R,
) -> Result<(Vec<u8>, Option<Stop>), AllocError> {
    let mut bytes = Vec::new(alloc);
    let mut buf = [0u8; 7];
    for _ in 0..MOST_READS {
        match reader.read_in(&mut buf) {
            Ok(0) => return Ok((bytes, Some(Stop::End))),
            Ok(n) => bytes.extend_from_slice(&buf[..n])?,
            Err(e) => return Ok((bytes, Some(Stop::Fault(e.kind())))),
        }
    }
    Ok((bytes, None))
}

// Adds how the data ends.
fn add_stop(alloc: Global, to: &mut Vec<Finding>, stop: Option<Stop>) -> Result<(), AllocError> {
    match stop {
        Some(Stop::End) => add(alloc, to, "end", b""),
        Some(Stop::Fault(kind)) => add_kind(alloc, to, "fault", kind),
        None => add(alloc, to, "endless", b""),
    }
}

// Returns whether the decoder returns no further byte, and then ends with `stop`.
fn is_over(
    alloc: Global,
    decoder: &mut Decoder<ByPieces<Canned>>,
    stop: Option<Stop>,
) -> Result<bool, AllocError> {
    let (data, found) = drain(alloc, decoder)?;
    Ok(data.is_empty() && found == stop)
}

// Returns whether `is_over` holds twice in succession.
fn is_settled(
    alloc: Global,
    decoder: &mut Decoder<ByPieces<Canned>>,
    stop: Option<Stop>,
) -> Result<bool, AllocError> {
    let is_over_once = is_over(alloc, decoder, stop)?;
    Ok(is_over(alloc, decoder, stop)? && is_over_once)
}

// Adds the data of a body and how it ends. Also adds `changed` if a read into an empty buffer does not return 0, and
// again if later reads do not repeat the end.
fn read_body(
    alloc: Global,
    decoder: &mut Decoder<ByPieces<Canned>>,
    to: &mut Vec<Finding>,
) -> Result<(), AllocError> {
    if !matches!(decoder.read(&mut []), Ok(0)) {
        add(alloc, to, "changed", b"by a read into no room")?;
    }
    let (data, stop) = drain(alloc, decoder)?;
    add_some(alloc, to, "data", data.as_slice())?;
    add_stop(alloc, to, stop)?;
    if !is_settled(alloc, decoder, stop)? {
        add(alloc, to, "changed", b"by a read after the stop")?;
    }
    Ok(())
}

/// Creates a reader of the row's bytes, which fails after them if the row states an error.
pub fn data_of(alloc: Global, input: &Input) -> Result<Canned, AllocError> {
    Ok(Canned::new(input.bytes.as_slice().to_vec(alloc)?, input.stop))
}

/// Decodes a body under these rules, from a reader that returns at most `piece` bytes a call. Adds the data, how it
/// ends, and what is left in the reader.
pub fn decode(
    alloc: Global,
    rules: ChunkRules,
    input: &Input,
    piece: usize,
    to: &mut Vec<Finding>,
) -> Result<(), AllocError> {
    let whole = data_of(alloc, input)?;
    let mut decoder = Decoder::new_with(ByPieces::new(whole, piece), rules);
    read_body(alloc, &mut decoder, to)?;
    let mut reader = decoder.into_inner();
    let (rest, _) = drain(alloc, &mut reader)?;
    add(alloc, to, "rest", rest.as_slice())
}

/// Adds what is left in a reader, as a result of kind `left`.
pub fn add_left(
    alloc: Global,
    reader: &mut Canned,
    to: &mut Vec<Finding>,
) -> Result<(), AllocError> {
    let (left, _) = drain(alloc, reader)?;
    add(alloc, to, "left", left.as_slice())
}
