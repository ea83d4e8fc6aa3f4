//! Recognition of field lines in a trailer section, byte by byte (RFC 9112, section 5; RFC 9110, section 5.6.2).
ghost use Rattle.std.specs.Prelude.{◌≡◌};
ghost use Rattle.tiny_http_body.specs.ChunkField.{field_step, is_whole_field};

use httparse::{is_header_value_token, is_token};

/// The state after the bytes of a line so far.
#[derive(Clone, Copy, Drop)]
pub(crate) enum Field {
    /// No byte.
    Empty,
    /// Bytes of a field name.
    Name,
    /// A field name, a colon, and bytes of a field value.
    Value,
    /// Not a field line, whatever follows.
    Wrong,
}

impl Field {
    /// Returns the state after one more byte.
    pub(crate) fn then(self, b: u8) -> Field
        ensures { result ≡ field_step self b }
    {
        match self {
            Field::Empty => {
                if is_token(&[b]) {
                    Field::Name
                } else {
                    Field::Wrong
                }
            }
            Field::Name => {
                if is_token(&[b]) {
                    Field::Name
                } else if b == b':' {
                    Field::Value
                } else {
                    Field::Wrong
                }
            }
            Field::Value => {
                if is_header_value_token(b) {
                    Field::Value
                } else {
                    Field::Wrong
                }
            }
            Field::Wrong => Field::Wrong,
        }
    }

    /// Returns whether the bytes so far are a field line.
    pub(crate) fn is_whole(self) -> bool
        ensures { result ≡ is_whole_field self }
    {
        match self {
            Field::Value => true,
            Field::Empty | Field::Name | Field::Wrong => false,
        }
    }
}
