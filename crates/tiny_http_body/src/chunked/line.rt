//! Reading a chunk-size line or a trailer line, byte by byte (RFC 9112, section 7.1).
ghost use Rattle.std.specs.Prelude.{◌≡◌, ◌≤◌, ◌+◌, [], ◌∷◌, IfOk, IfErr, OnErr};
ghost use Rattle.tiny_http_io.specs.Device.{prepended, fault_count};
ghost use Rattle.tiny_http_body.specs.ChunkSize.{SizeFits};
ghost use Rattle.tiny_http_body.specs.ChunkLine.{said_step, is_trailer_said, scan_step, breaks_line, OneLine, NoLine};
ghost use Rattle.tiny_http_body.specs.ChunkLine.{CutBy};

use crate::chunked::field::Field;
use crate::chunked::size::Size;
use crate::chunked::{ChunkRules, LONGEST_LINE};
use std::io::ErrorKind;
use tiny_http_io::device::ReadDevice;

/// The meaning of the bytes of a line: their state as a chunk size and, under `Standard`, as a field line.
#[derive(Clone, Copy, Drop)]
pub(crate) struct Said {
    pub(crate) size: Size,
    pub(crate) field: Field,
}

impl Said {
    // Returns the meaning after one more byte.
    fn then(self, rules: ChunkRules, b: u8) -> Said
        requires { SizeFits self.size }
        ensures is { result ≡ said_step rules self b }
        ensures fits { SizeFits result.size }
    {
        match rules {
            ChunkRules::Lenient => Said {
                size: self.size.then(b),
                field: self.field,
            },
            ChunkRules::Standard => Said {
                size: self.size.then_by_standard(b),
                field: self.field.then(b),
            },
        }
    }

    /// Returns whether a nonempty line with this meaning may be a trailer line.
    pub(crate) fn is_trailer(self, rules: ChunkRules) -> bool
        ensures { result ≡ is_trailer_said rules self }
    {
        match rules {
            ChunkRules::Lenient => true,
            ChunkRules::Standard => self.field.is_whole(),
        }
    }
}

/// A line: its length in bytes without the CR LF, and its meaning.
#[derive(Clone, Copy, Drop)]
pub(crate) struct ChunkLine {
    pub(crate) length: usize,
    pub(crate) said: Said,
}

// The state after the bytes of a line so far: the meaning of the bytes before a final CR, and whether there is such a
// CR.
#[derive(Clone, Copy, Drop)]
struct Scan {
    said: Said,
    after_return: bool,
}

impl Scan {
    // Returns the state after a byte that doesn't end the line.
    fn then(self, rules: ChunkRules, b: u8) -> Scan
        requires { SizeFits self.said.size }
        ensures is { result ≡ scan_step rules self b }
        ensures fits { SizeFits result.said.size }
    {
        if b == b'\r' {
            let said = if self.after_return {
                self.said.then(rules, b'\r')
            } else {
                self.said
            };
            Scan {
                said,
                after_return: true,
            }
        } else {
            let said = if self.after_return {
                self.said.then(rules, b'\r').then(rules, b)
            } else {
                self.said.then(rules, b)
            };
            Scan {
                said,
                after_return: false,
            }
        }
    }
}

/// Consumes and returns the next byte. If there is none, fails with `UnexpectedEof` at the reader's end, or with the
/// kind of the reader's fault.
pub(crate) fn next_byte<R: ReadDevice>(reader: &mut R) -> Result<u8, ErrorKind>
    ensures byte { IfOk result (λ b. R.feed reader.old ≡ prepended (b ∷ []) (R.feed reader.new)) }
    ensures cut { IfErr result (λ kind. CutBy kind (R.feed reader.old)) }
    ensures again { OnErr result (R.feed reader.new ≡ R.feed reader.old) }
    // The reader reports an end or a fault only if this call fails, and then at most one.
    ensures stop_count { R.stop_count reader.new ≤ R.stop_count reader.old + fault_count result }
{
    let mut buf = [0u8];
    match reader.read_in(&mut buf) {
        Ok(0) => Err(ErrorKind::UnexpectedEof),
        Ok(_) => Ok(buf[0]),
        Err(e) => Err(e.kind()),
    }
}

// Returns whether a byte that doesn't end the line is malformed: under `Standard`, an LF is.
fn breaks_line(rules: ChunkRules, b: u8) -> bool
    ensures { result ≡ breaks_line rules b }
{
    match rules {
        ChunkRules::Lenient => false,
        ChunkRules::Standard => b == b'\n',
    }
}

/// Consumes the next line, of at most `LONGEST_LINE` bytes, and its CR LF. Fails with `InvalidData` if no CR LF is
/// among the next 8194 bytes (`LONGEST_LINE` and 2 more), and as `next_byte` does if the reader stops before that.
/// Under `Standard`, also fails with `InvalidData` as soon as an LF without a CR before it is read.
pub(crate) fn next_line<R: ReadDevice>(
    reader: &mut R,
    rules: ChunkRules,
) -> Result<ChunkLine, ErrorKind>
    ensures line { IfOk result (OneLine rules (R.feed reader.old) (R.feed reader.new)) }
    ensures none { IfErr result (NoLine rules (R.feed reader.old) (R.feed reader.new)) }
    ensures stop_count { R.stop_count reader.new ≤ R.stop_count reader.old + fault_count result }
{
    let mut scan = Scan {
        said: Said {
            size: Size::Blank,
            field: Field::Empty,
        },
        after_return: false,
    };
    for taken in 0..LONGEST_LINE + 2 {
        let b = match next_byte(reader) {
            Ok(b) => b,
            Err(kind) => return Err(kind),
        };
        if scan.after_return && b == b'\n' {
            return Ok(ChunkLine {
                length: taken - 1,
                said: scan.said,
            });
        }
        if breaks_line(rules, b) {
            return Err(ErrorKind::InvalidData);
        }
        scan = scan.then(rules, b);
    }
    Err(ErrorKind::InvalidData)
}
