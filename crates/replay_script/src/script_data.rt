//! The data of a script's responses.
ghost use Rattle.std.specs.Prelude.{◌≡◌, ◌<◌, ◌^◌, min, length, take, replicate, string_bytes};
ghost use Rattle.tiny_http_wire.specs.Device.{whole_feed, stop_of};

use std::io;
use std::io::ErrorKind;
use tiny_http_wire::device::{Canned, ReadDevice, Stop};

/// The data of a response.
#[derive(Drop)]
pub enum ScriptData {
    /// Bytes in memory, then an end or a fault.
    Given(Given),
    /// A run of `b'x'` bytes, then an end or a fault.
    Xs(Xs),
}

/// Bytes in memory, then an end or a fault.
#[derive(Drop)]
pub struct Given {
    canned: Canned,
    // Bytes in memory are fewer than 2^63.
    ghost few: { length canned.bytes < 2 ^ 63 },
}

/// A run of `b'x'` bytes, then an end or a fault. The bytes take no memory.
#[derive(Drop)]
pub struct Xs {
    // The number of bytes that are left.
    left: usize,
    stop: Stop,
    // The count comes from a `u16`.
    ghost few: { left < 2 ^ 16 },
}

// Writes `x` to the front of `to`, at most `count` times, and returns the number of bytes written.
fn write_xs(count: usize, to: &mut [u8]) -> usize
    ensures count { result ≡ min count (length to.old) }
    ensures len { length to.new ≡ length to.old }
    ensures xs { take result to.new ≡ replicate result 120 }
{
    let n = count.min(to.len());
    to[..n].fill(b'x');
    n
}

impl ScriptData {
    ghost use Rattle.replay_script.specs.ScriptData.{data_feed, xs};

    /// Returns data that yields the bytes of a text, then the end.
    pub fn from_text(text: String) -> ScriptData
        ensures { data_feed result ≡ whole_feed (string_bytes text) }
    {
        ScriptData::from_bytes(text.into_bytes(), None)
    }

    /// Returns data that yields these bytes, then the end, or a fault of kind `fault` if there is one.
    pub fn from_bytes(bytes: Vec<u8>, fault: Option<ErrorKind>) -> ScriptData
        ensures { data_feed result ≡ record { bytes = bytes.items; stop = stop_of fault } }
    {
        let canned = Canned::new(bytes, fault);
        ScriptData::Given(Given { canned })
    }

    /// Returns data that yields `count` bytes `b'x'`, then this stop.
    pub fn xs(count: u16, stop: Stop) -> ScriptData
        ensures { data_feed result ≡ xs count stop }
    {
        ScriptData::Xs(Xs {
            left: usize::from(count),
            stop,
        })
    }
}

impl ReadDevice for Given {
    ghost use Rattle.std.specs.Prelude.{Some};

    ghost feed = { λ g. Some g.canned };

    /// Reads the next bytes.
    fn read_in(&mut self, buf: &mut [u8]) -> Result<usize, io::Error> {
        self.canned.read_in(buf)
    }
}

impl ReadDevice for Xs {
    ghost use Rattle.std.specs.Prelude.{Some};
    ghost use Rattle.replay_script.specs.ScriptData.{xs};

    ghost feed = { λ s. Some (xs s.left s.stop) };

    /// Fills the front of the buffer. Reports the stop once no byte is left.
    fn read_in(&mut self, buf: &mut [u8]) -> Result<usize, io::Error> {
        if buf.is_empty() {
            return Ok(0);
        }
        let n = write_xs(self.left, buf);
        if n == 0
            && let Stop::Fault(kind) = self.stop
        {
            return Err(kind.into());
        }
        self.left -= n;
        Ok(n)
    }
}

impl ReadDevice for ScriptData {
    ghost use Rattle.std.specs.Prelude.{Some};
    ghost use Rattle.replay_script.specs.ScriptData.{data_feed};

    ghost feed = { λ d. Some (data_feed d) };

    /// Reads the bytes in memory, or `b'x'` bytes.
    fn read_in(&mut self, buf: &mut [u8]) -> Result<usize, io::Error> {
        match self {
            ScriptData::Given(given) => given.read_in(buf),
            ScriptData::Xs(xs) => xs.read_in(buf),
        }
    }
}
