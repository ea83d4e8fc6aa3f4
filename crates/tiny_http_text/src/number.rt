//! Numbers formatted without allocating.
ghost use Rattle.std.specs.Prelude.{◌≡◌, ◌<◌, ◌≤◌, false, decimal, IsAscii};
ghost use Rattle.std.specs.Fmt.{digits, digit_glyph};

use std::marker::Model;

// The number of decimal digits of the greatest `u64`. Larger bases need fewer.
const MOST_DIGITS: usize = 20;

/// The ASCII digits of a number, stored inline. A contract sees a `Numeral` as the list of these bytes.
#[derive(Drop)]
pub struct Numeral {
    buffer: [u8; 20],
    start: usize,
}

impl Model for Numeral {
    ghost use Rattle.std.specs.Prelude.{ℕ, List, ◌<◌, drop};
    ghost use Rattle.std.specs.Str.{IsAscii};

    ghost Value = { List ℕ };

    ghost view = { λ n. drop n.start n.buffer };

    ghost invariant = { λ n. (n.start < 20) × IsAscii (drop n.start n.buffer) };
}

// Returns the ASCII digit of a value below 16, in lower case.
#[inline(always)]
fn glyph(value: u8) -> u8
    requires { value < 16 }
    ensures value { result ≡ digit_glyph false value }
    ensures ascii { result < 128 }
{
    if value < 10 {
        b'0' + value
    } else {
        b'a' + (value - 10)
    }
}

impl Numeral {
    /// Formats the number in base 10, without leading zeros: 1 to 20 digits.
    pub fn decimal(number: u64) -> Numeral
        ensures { result ≡ decimal number }
    {
        Numeral::in_base(number, 10)
    }

    /// Formats the number in base 16, in lower case and without leading zeros: 1 to 16 digits.
    pub fn hexadecimal(number: u64) -> Numeral
        ensures { result ≡ digits 16 false number }
    {
        Numeral::in_base(number, 16)
    }

    /// Returns the digits, the most significant first.
    pub fn as_bytes(&self) -> &[u8]
        ensures value { result.now ≡ self.now }
        ensures ascii { IsAscii self.now }
    {
        &self.buffer[self.start..]
    }

    /// Returns the digits as a `&str`.
    pub fn as_str(&self) -> &str
        ensures { result.now ≡ self.now }
    {
        match str::from_utf8(self.as_bytes()) {
            Ok(text) => text,
            Err(_) => unreachable!(),
        }
    }

    // Formats the number in base `base`, from 10 to 16. It is inlined so that the divisor is a constant.
    #[inline(always)]
    fn in_base(number: u64, base: u64) -> Numeral
        requires low { 10 ≤ base }
        requires high { base ≤ 16 }
        ensures { result ≡ digits base false number }
    {
        let mut buffer = [0u8; MOST_DIGITS];
        let mut start = MOST_DIGITS - 1;
        let mut rest = number;
        while rest >= base {
            buffer[start] = glyph((rest % base) as u8);
            rest /= base;
            start -= 1;
        }
        buffer[start] = glyph(rest as u8);
        Numeral { buffer, start }
    }
}
