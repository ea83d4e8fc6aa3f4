//! Decimal numbers in a head.
ghost use Rattle.std.specs.Prelude.{◌≡◌};
ghost use Rattle.tiny_http_client.specs.ClientReading.{decimal_read};

use tiny_http_head::content_length::number_in;
use tiny_http_text::number::Numeral;

/// Parses a decimal number of at most `most`, without leading zeros. Returns `None` for any other text.
pub(crate) fn decimal(text: &[u8], most: usize) -> Option<usize>
    ensures { result ≡ decimal_read most text.now }
{
    let number = number_in(text)?;
    if number > most {
        return None;
    }
    if Numeral::decimal(number as u64).as_bytes() != text {
        return None;
    }
    Some(number)
}
