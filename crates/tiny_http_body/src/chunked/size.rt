//! Parsing of a chunk size, byte by byte (RFC 9112, section 7.1).
ghost use Rattle.std.specs.Prelude.{◌≡◌, ◌<◌, IfSome};
ghost use Rattle.tiny_http_body.specs.Chunks.{is_bws};
ghost use Rattle.tiny_http_body.specs.ChunkSize.{hex_of, digits_ended, size_step, standard_step, may_follow};
ghost use Rattle.tiny_http_body.specs.ChunkSize.{size_value, SizeFits};

use httparse::is_header_value_token;

/// The state after the bytes of a line so far.
#[derive(Clone, Copy, Drop)]
pub(crate) enum Size {
    /// Only blanks: bytes 9 and 32.
    Blank,
    /// Optional blanks, then digits: their value and their number.
    Digits(u64, u8),
    /// Optional blanks, then digits with this value, then blanks.
    Behind(u64),
    /// Optional blanks, digits with this value, optional blanks, a `;`, and any bytes.
    Extension(u64),
    /// Not a chunk size, whatever follows.
    Wrong,
}

// Returns the value of a hexadecimal digit of either case, or `None` for any other byte.
fn hex(b: u8) -> Option<u64>
    ensures is { result ≡ hex_of b }
    ensures digit { IfSome result (λ digit. digit < 16) }
{
    match char::from(b).to_digit(16) {
        Some(digit) => Some(u64::from(digit)),
        None => None,
    }
}

// Returns whether the byte is 9 or 32.
fn is_bws(b: u8) -> bool
    ensures { result ≡ is_bws b }
{
    b == b'\t' || b == b' '
}

// Returns the state after digits with this value and a byte that isn't a digit.
fn digits_ended(value: u64, b: u8) -> Size
    ensures { result ≡ digits_ended value b }
{
    if is_bws(b) {
        Size::Behind(value)
    } else if b == b';' {
        Size::Extension(value)
    } else {
        Size::Wrong
    }
}

impl Size {
    /// Returns the state after one more byte.
    pub(crate) fn then(self, b: u8) -> Size
        requires { SizeFits self }
        ensures is { result ≡ size_step self b }
        ensures fits { SizeFits result }
    {
        match self {
            Size::Blank => {
                if is_bws(b) {
                    Size::Blank
                } else {
                    match hex(b) {
                        Some(digit) => Size::Digits(digit, 1),
                        None => Size::Wrong,
                    }
                }
            }
            Size::Digits(value, count) => match hex(b) {
                Some(digit) => {
                    if count < 16 {
                        Size::Digits(value * 16 + digit, count + 1)
                    } else {
                        Size::Wrong
                    }
                }
                None => digits_ended(value, b),
            },
            Size::Behind(value) => digits_ended(value, b),
            Size::Extension(value) => Size::Extension(value),
            Size::Wrong => Size::Wrong,
        }
    }

    // Returns whether `Standard` allows the byte here: no blank before the digits, and no control byte except tab.
    fn may_be_followed_by(self, b: u8) -> bool
        ensures { result ≡ may_follow self b }
    {
        match self {
            Size::Blank => is_header_value_token(b) && !is_bws(b),
            Size::Digits(_, _) | Size::Behind(_) | Size::Extension(_) | Size::Wrong => {
                is_header_value_token(b)
            }
        }
    }

    /// Returns the state after one more byte, under `Standard`.
    pub(crate) fn then_by_standard(self, b: u8) -> Size
        requires { SizeFits self }
        ensures is { result ≡ standard_step self b }
        ensures fits { SizeFits result }
    {
        if self.may_be_followed_by(b) {
            self.then(b)
        } else {
            Size::Wrong
        }
    }

    /// Returns the chunk size that the line gives if it ends here, or `None` if it gives none.
    pub(crate) fn value(self) -> Option<u64>
        ensures { result ≡ size_value self }
    {
        match self {
            Size::Digits(value, _) | Size::Behind(value) | Size::Extension(value) => Some(value),
            Size::Blank | Size::Wrong => None,
        }
    }
}
