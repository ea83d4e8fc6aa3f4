//! Laws of the definitions, each stated as the contract of a function that does nothing.
ghost use Rattle.std.specs.Prelude.{◌≡◌, ◌⊎◌, ℕ, List, Err, Result};
ghost use Rattle.std.specs.declared.io.ErrorKind.{ErrorKind};
ghost use Rattle.tiny_http_io.specs.declared.device.Stop.{Stop};
ghost use Rattle.tiny_http_body.specs.Chunks.{WholeChunksBy, CutChunksBy};
ghost use Rattle.tiny_http_body.specs.Framing.{Frames};
ghost use Rattle.tiny_http_body.specs.FramingReading.{framing};
ghost use Rattle.tiny_http_body.specs.declared.chunked.ChunkRules.{ChunkRules};

use crate::framing::{Framing, FramingFault, HeadRules};
use tiny_http_head::common::{HTTPVersion, Header};

/// Under each of the two sets of rules (`ChunkRules`), any bytes with their stop can be read in exactly one way: either
/// as a whole chunked body and a remainder, or as a body that is cut or broken (RFC 9112, section 7.1).
pub fn one_chunked_body()
    ensures some { (rules : ChunkRules) (bytes : List ℕ) (stop : Stop)
        → ((body : List ℕ) × (rest : List ℕ) × WholeChunksBy rules bytes body rest)
        ⊎ ((body : List ℕ) × (kind : ErrorKind) × CutChunksBy rules bytes stop body kind) }
    ensures one_whole { (rules : ChunkRules) (bytes body rest other remainder : List ℕ)
        → WholeChunksBy rules bytes body rest
        → WholeChunksBy rules bytes other remainder
        → (body ≡ other) × (rest ≡ remainder) }
    ensures one_front { (rules : ChunkRules) (bytes body other : List ℕ) (stop : Stop) (kind sort : ErrorKind)
        → CutChunksBy rules bytes stop body kind
        → CutChunksBy rules bytes stop other sort
        → (body ≡ other) × (kind ≡ sort) }
    ensures not_both { (rules : ChunkRules) (bytes body rest other : List ℕ) (stop : Stop) (kind : ErrorKind)
        → WholeChunksBy rules bytes body rest
        → CutChunksBy rules bytes stop other kind
        → ⊥ }
{}

/// Under each of the `HeadRules`, `framing` computes the only result that the cases of `Frames` allow for the version
/// and the fields. Under `Lenient` no framing is invalid.
pub fn one_framing()
    ensures some { (p : HeadRules) (v : HTTPVersion) (headers : List Header)
        → Frames p v headers (framing p v headers) }
    ensures one { (p : HeadRules) (v : HTTPVersion) (headers : List Header) (r : Result Framing FramingFault)
        → Frames p v headers r
        → r ≡ framing p v headers }
    ensures lenient { (v : HTTPVersion) (headers : List Header)
        → Frames HeadRules.Lenient v headers (Err FramingFault.Invalid)
        → ⊥ }
{}
