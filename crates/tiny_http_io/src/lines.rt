//! Line ends and line limits. A limit is a number of bytes, or `None` for no limit.
ghost use Rattle.std.specs.Prelude.{◌≡◌, ◌≢◌, ◌+◌, ◌-◌, ◌*◌, ◌^◌, ◌<◌, ◌≤◌, ◌++◌, ◌∷◌, [], false, true, length};
ghost use Rattle.std.specs.Prelude.{vec_len, IsSome, IfSome, IfNone, IfErr, OnOk, IsTrue};
ghost use Rattle.std.specs.Option.{option_map};
ghost use Rattle.tiny_http_text.specs.Lines.{has_crlf};
ghost use Rattle.tiny_http_io.specs.LineEnds.{held_return, BeginsNoLineEnd, EndsLine};
ghost use Rattle.tiny_http_io.specs.Source.{IsWithin};

use crate::source::LineFault;
use memchr::memchr;

/// Returns the position of the first CR LF, or `None` if the bytes contain no CR LF.
pub(crate) fn line_end(bytes: &[u8]) -> Option<usize>
    ensures some { IfSome result (EndsLine bytes.now) }
    ensures none { IfNone result (has_crlf bytes.now ≡ false) }
{
    let mut at = 0;
    while let Some(n) = memchr(b'\r', &bytes[at..]) {
        at += n + 1;
        if at < bytes.len() && bytes[at] == b'\n' {
            return Some(at - 1);
        }
    }
    None
}

/// Returns whether a line of n bytes and its CR LF are within the limit `left`. Without a limit they always are.
pub(crate) fn is_within(left: Option<usize>, n: usize) -> bool
    requires { n + 2 < 2 ^ 64 }
    ensures within { IsTrue result → IsWithin left n }
    ensures beyond { result ≡ false → IsSome left × IfSome left (λ left. left < n + 2) }
{
    match left {
        Some(left) => n + 2 <= left,
        None => true,
    }
}

/// Returns whether there is a limit, `left`, and n bytes reach it.
pub(crate) fn is_reached(left: Option<usize>, n: usize) -> bool
    ensures reached { IsTrue result → IsSome left × IfSome left (λ left. left ≤ n) }
    ensures below { result ≡ false → IfSome left (λ left. n < left) }
{
    match left {
        Some(left) => left <= n,
        None => false,
    }
}

/// Returns what is left of the limit `room` after one more byte, or `None` if there is no limit.
pub(crate) fn one_less(room: Option<usize>) -> Option<usize>
    requires { IfSome room (λ n. 0 < n) }
    ensures { result ≡ option_map (λ n. n - 1) room }
{
    match room {
        Some(n) => Some(n - 1),
        None => None,
    }
}

/// Appends a byte that doesn't end the line. A CR is held back until the byte after it is known; `after_return` says
/// whether a CR is held back. Fails with `Memory` if memory can't be allocated.
pub(crate) fn go_on(text: &mut Vec<u8>, after_return: &mut bool, b: u8) -> Result<(), LineFault>
    requires not_end { after_return.old ≡ true → b ≢ 10 }
    requires passed { BeginsNoLineEnd text.old.items (held_return after_return.old) }
    ensures passed { OnOk result (BeginsNoLineEnd text.new.items (held_return after_return.new)) }
    ensures bytes { OnOk result
        (text.new.items ++ held_return after_return.new ≡ (text.old.items ++ held_return after_return.old) ++ b ∷ []) }
    ensures more { OnOk result
        (2 * vec_len text.old + length (held_return after_return.old) < 2 * vec_len text.new + length
        (held_return after_return.new)) }
    ensures fault { IfErr result (λ fault. fault ≡ LineFault.Memory) }
{
    match (*after_return, b) {
        (true, b'\r') => keep(text, b'\r'),
        (false, b'\r') => {
            *after_return = true;
            Ok(())
        }
        (false, _) => keep(text, b),
        (true, _) => {
            *after_return = false;
            keep(text, b'\r')?;
            keep(text, b)
        }
    }
}

// Appends a byte to the line. Fails with `Memory` if memory can't be allocated.
fn keep(text: &mut Vec<u8>, b: u8) -> Result<(), LineFault>
    ensures ok { OnOk result (text.new.items ≡ text.old.items ++ b ∷ []) }
    ensures len { OnOk result (vec_len text.new ≡ vec_len text.old + 1) }
    ensures fault { IfErr result (λ fault. fault ≡ LineFault.Memory) }
{
    match text.push(b) {
        Ok(()) => Ok(()),
        Err(_) => Err(LineFault::Memory),
    }
}
