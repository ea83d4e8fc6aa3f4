//! Laws of the definitions, each stated as the contract of a function that does nothing.
ghost use Rattle.std.specs.Prelude.{◌≡◌, ◌↔◌, ℕ, List, Some};
ghost use Rattle.tiny_http_files.specs.declared.ranges.RangeSpec.{RangeSpec};
ghost use Rattle.tiny_http_files.specs.Ranges.{spec_of, IsSpec};

/// `RangeSpec::parse` reads a text as a range if and only if the grammar spells that range (RFC 9110, section 14.1.1),
/// with a number above 2^64 - 1 taken for that one.
pub fn ranges_by_the_grammar()
    ensures { (text : List ℕ) (spec : RangeSpec) → (spec_of text ≡ Some spec) ↔ IsSpec text spec }
{}
