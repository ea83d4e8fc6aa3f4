//! Owned copies of ASCII texts.
ghost use Rattle.std.specs.Prelude.{◌≡◌, ◌≤◌, length, IfOk, IsOk};
ghost use Rattle.tiny_http_text.specs.Bytes.{AreAscii};

use crate::ascii::AsciiString;
use std::alloc::{AllocError, Global};

/// Copies an ASCII text. Fails if memory can't be allocated; a copy of at most 30 bytes needs no allocation.
pub fn owned(alloc: Global, text: &[u8]) -> Result<AsciiString, AllocError>
    requires { AreAscii text.now }
    ensures text { IfOk result (λ s. s ≡ text.now) }
    ensures short { length text.now ≤ 30 → IsOk result }
{
    AsciiString::copied_unchecked(alloc, text)
}
