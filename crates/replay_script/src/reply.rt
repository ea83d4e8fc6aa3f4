//! The lines that report the replies.
ghost use Rattle.std.specs.Prelude.{◌≡◌, Some, ◌++◌, codes};
ghost use Rattle.replay_script.specs.Reply.{kind_name, length_text, handed_text, bytes_text, reply_text};
ghost use Rattle.tiny_http_core.specs.HeadReads.{head_message};
ghost use Rattle.tiny_http_core.specs.Seen.{seen};

use std::fmt;
use std::io::ErrorKind;
use tiny_http_core::driver::Reply;
use tiny_http_core::exchange::Head;

/// A reply, printed as one line without a line break.
#[derive(Drop)]
pub struct ReplyLine<'a>(pub &'a Reply);

/// The length of a body, printed after a space as a number, or as `-` if the head states none.
#[derive(Drop)]
struct Length(Option<usize>);

impl fmt::Display for Length {
    ghost output = { λ l. Some (codes " " ++ length_text l.0) };

    fn fmt<W: fmt::Write>(&self, f: &mut fmt::Formatter<W>) -> fmt::Result {
        match self.0 {
            Some(length) => write!(f, " {length}"),
            None => f.write_str(" -"),
        }
    }
}

/// A request that was handed out under this number.
#[derive(Drop)]
struct Handed<'a>(u64, &'a Head);

impl fmt::Display for Handed<'_> {
    ghost output = { λ h. Some (handed_text h.0 (head_message h.1.now) h.1.now.framing.body_length) };

    fn fmt<W: fmt::Write>(&self, f: &mut fmt::Formatter<W>) -> fmt::Result {
        let number = self.0;
        let head = self.1;
        let method = &head.method;
        let path = head.path.as_str();
        let version = head.version;
        let headers = head.headers.len();
        let length = Length(head.framing.body_length);
        write!(
            f,
            "handed {number} {method} {path} {version} {headers}{length}"
        )
    }
}

/// Bytes of a body, printed as one space and then two hexadecimal digits per byte, or as nothing if there are none.
#[derive(Drop)]
struct Bytes<'a>(&'a [u8]);

impl fmt::Display for Bytes<'_> {
    ghost output = { λ b. Some (bytes_text b.0.now) };

    fn fmt<W: fmt::Write>(&self, f: &mut fmt::Formatter<W>) -> fmt::Result {
        let bytes = self.0;
        if bytes.is_empty() {
            return Ok(());
        }
        write!(f, " ")?;
        for byte in bytes {
            let byte = *byte;
            write!(f, "{byte:02x}")?;
        }
        Ok(())
    }
}

// Returns the name of this error kind, or `Other` if the replies don't distinguish it.
fn name_of(kind: ErrorKind) -> &'static str
    ensures { result.now ≡ kind_name kind }
{
    match kind {
        ErrorKind::InvalidData => "InvalidData",
        ErrorKind::UnexpectedEof => "UnexpectedEof",
        ErrorKind::OutOfMemory => "OutOfMemory",
        _ => "Other",
    }
}

impl fmt::Display for ReplyLine<'_> {
    ghost output = { λ r. Some (reply_text (seen r.0.now)) };

    fn fmt<W: fmt::Write>(&self, f: &mut fmt::Formatter<W>) -> fmt::Result {
        match self.0 {
            Reply::Handed(number, head) => Handed(*number, head).fmt(f),
            Reply::Fault(kind) => write!(f, "fault {}", name_of(*kind)),
            Reply::NotYet => f.write_str("notyet"),
            Reply::Given(bytes) => write!(f, "given{}", Bytes(bytes.as_slice())),
            Reply::Ended => f.write_str("ended"),
            Reply::Done => f.write_str("done"),
            Reply::Refused => f.write_str("refused"),
            Reply::NoSuch => f.write_str("nosuch"),
            Reply::Memory => f.write_str("memory"),
        }
    }
}
