//! Laws of heads under `Standard`: each line has at most one reading, any bytes have exactly one, and validation has
//! exactly one result.
ghost use Rattle.std.specs.Prelude.{◌≡◌, ℕ, List, Result};
ghost use Rattle.tiny_http_head.specs.declared.common.Method.{Method};
ghost use Rattle.tiny_http_head.specs.declared.common.HTTPVersion.{HTTPVersion};
ghost use Rattle.tiny_http_head.specs.declared.common.Header.{Header};
ghost use Rattle.tiny_http_standard_head.specs.declared.validation.HeadSummary.{HeadSummary};
ghost use Rattle.tiny_http_standard_head.specs.declared.validation.HeadError.{HeadError};
ghost use Rattle.tiny_http_standard_head.specs.declared.heads.StandardRead.{StandardRead};
ghost use Rattle.tiny_http_standard_head.specs.Heads.{Reading, AreReadAs, Reads, IsSameRead};
ghost use Rattle.tiny_http_standard_head.specs.Lines.{RequestLine, FieldLine};
ghost use Rattle.tiny_http_standard_head.specs.Validation.{Validates};

/// A text is a request line in at most one way: with one method, one target and one version.
pub fn one_request_line()
    ensures { (text m t m' t' : List ℕ) (v v' : HTTPVersion)
        → RequestLine text m t v
        → RequestLine text m' t' v'
        → (m ≡ m') × (t ≡ t') × (v ≡ v') }
{}

/// A text is a field line in at most one way: with one name and one value.
pub fn one_field_line()
    ensures { (text field value field' value' : List ℕ)
        → FieldLine text field value
        → FieldLine text field' value'
        → (field ≡ field') × (value ≡ value') }
{}

/// Validation of a head has exactly one result.
pub fn one_validation()
    ensures some { (v : HTTPVersion) (method : Method) (headers : List Header)
        → (r : Result HeadSummary HeadError) × Validates v method headers r }
    ensures one { (v : HTTPVersion) (method : Method) (headers : List Header) (r r' : Result HeadSummary HeadError)
        → Validates v method headers r
        → Validates v method headers r'
        → r ≡ r' }
{}

/// The first bytes from a client have exactly one reading: a complete head with the result of its validation, a
/// malformed or surplus line, or a line that hasn't ended. For any limit, `heads::read_head` has at most one result.
pub fn one_reading()
    ensures some { (bytes : List ℕ) → (r : Reading) × AreReadAs bytes r }
    ensures read { (bytes : List ℕ) (r r' : Reading) → AreReadAs bytes r → AreReadAs bytes r' → r ≡ r' }
    ensures one { (limit : ℕ) (bytes : List ℕ) (r r' : StandardRead)
        → Reads limit bytes r
        → Reads limit bytes r'
        → IsSameRead r r' }
{}
