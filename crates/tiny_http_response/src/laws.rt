//! Laws of the definitions, each the contract of a function that does nothing.
ghost use Rattle.std.specs.Prelude.{◌≡◌, ℕ, List, Option, [], Some};
ghost use Rattle.tiny_http_head.specs.HeaderTexts.{AreHeaderTexts, header_of};
ghost use Rattle.tiny_http_head.specs.declared.common.Header.{Header};
ghost use Rattle.tiny_http_response.specs.AddHeader.{add_header, with_headers};
ghost use Rattle.tiny_http_response.specs.Answer.{Answer as AnyAnswer};
ghost use Rattle.tiny_http_response.specs.Asked.{AsksFor};
ghost use Rattle.tiny_http_response.specs.ByStandard.{safe_header};
ghost use Rattle.tiny_http_response.specs.Coding.{coding_asked};
ghost use Rattle.tiny_http_response.specs.Readable.{IsReadable};
ghost use Rattle.tiny_http_response.specs.ResponseHeaders.{IsResponseHeaders};
ghost use Rattle.tiny_http_response.specs.declared.coding.Coding.{Coding};

use crate::response::THRESHOLD;
use tiny_http_body::chunked::{LONGEST_LINE, MOST_TRAILERS};
use tiny_http_body::chunks::CHUNK;

/// The values of the constants that the definitions of a chunked body and of a response use.
pub fn sizes_of_bodies()
    ensures line { LONGEST_LINE ≡ 8192 }
    ensures trailers { MOST_TRAILERS ≡ 128 }
    ensures chunk { CHUNK ≡ 8192 }
    ensures threshold { THRESHOLD ≡ 32768 }
{}

/// The headers of a request ask for exactly one coding or for none, and `coding_asked` computes which: the coding of
/// the first supported element with the greatest quality in the first `TE` header, or none if there is no such element
/// or its quality is 0 (RFC 9110, sections 10.1.4 and 12.4.2).
pub fn one_coding_asked()
    ensures some { (headers : List Header) → AsksFor headers (coding_asked headers) }
    ensures one { (headers : List Header) (asked other : Option Coding)
        → AsksFor headers asked
        → AsksFor headers other
        → asked ≡ other }
{}

/// The header list of a response never holds `Connection`, `Trailer`, `Transfer-Encoding`, `Upgrade` or
/// `Content-Length`, in any letter case, and holds `Content-Type` at most once. The empty list satisfies this, and each
/// added header preserves it (RFC 9110, sections 7.6.1, 7.8 and 8.3; RFC 9112, section 6).
pub fn response_headers()
    ensures none { IsResponseHeaders [] }
    ensures one_more { (h : Header) (a : AnyAnswer)
        → IsResponseHeaders a.headers
        → IsResponseHeaders (add_header h a).headers }
    ensures more { (hs : List Header) (a : AnyAnswer)
        → IsResponseHeaders a.headers
        → IsResponseHeaders (with_headers hs a).headers }
{}

/// A header that `Header::new` makes from a name and a value is readable, and is printed unchanged under
/// `Profile::Standard` (RFC 9110, sections 5.5 and 5.6.2).
pub fn header_of_texts()
    ensures readable { (name value : List ℕ) → AreHeaderTexts name value → IsReadable (header_of name value) }
    ensures kept { (name value : List ℕ)
        → AreHeaderTexts name value
        → safe_header (header_of name value) ≡ Some (header_of name value) }
{}
