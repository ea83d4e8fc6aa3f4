//! Laws of the definitions, each stated as the contract of a function that does nothing.
ghost use Rattle.std.specs.Prelude.{◌≡◌, ◌↔◌, ℕ, List, Option, IsTrue, Some};
ghost use Rattle.std.specs.Ordering.{nat_cmp};
ghost use Rattle.std.specs.declared.cmp.Ordering.TheVariants.{Less, Equal, Greater};
ghost use Rattle.tiny_http_head.specs.declared.common.StatusCode.{StatusCode as Code};
ghost use Rattle.tiny_http_head.specs.declared.common.HTTPVersion.{HTTPVersion as Version};
ghost use Rattle.tiny_http_head.specs.declared.common.Method.{Method as AnyMethod};
ghost use Rattle.tiny_http_head.specs.declared.common.Header.{Header};
ghost use Rattle.tiny_http_text.specs.Bytes.{AreAscii, HasNo, IsTrimmed, IsWord, colon};
ghost use Rattle.tiny_http_head.specs.Common.{IsSameButForCase, same_name, is_code, code_order, is_version};
ghost use Rattle.tiny_http_head.specs.Common.{version_order, IsBefore, HasItsOwnName, method_text, header_text};
ghost use Rattle.tiny_http_head.specs.Heads.{IsHeader, method_of, RequestLine, HeaderLine};
ghost use Rattle.tiny_http_head.specs.HeadReading.{request_line, header_line};
ghost use Rattle.tiny_http_head.specs.Target.{TargetParts};

use crate::common::{HTTPVersion, HeaderField, Method, StatusCode};
use std::hash::Hash;

/// Field names are equal if, and only if, they differ at most in the case of ASCII letters (RFC 9110, section 5.1).
/// This is an equivalence, and `equiv` agrees with it.
pub fn header_field_equality()
    ensures ignores_case { (a b : List ℕ) → IsTrue (⟦<HeaderField as PartialEq>⟧.eq a b) ↔ IsSameButForCase a b }
    ensures equiv { (a b : List ℕ) → same_name a b ≡ ⟦<HeaderField as PartialEq>⟧.eq a b }
    ensures reflexive { (a : List ℕ) → IsTrue (⟦<HeaderField as PartialEq>⟧.eq a a) }
    ensures symmetric { (a b : List ℕ)
        → IsTrue (⟦<HeaderField as PartialEq>⟧.eq a b)
        → IsTrue (⟦<HeaderField as PartialEq>⟧.eq b a) }
    ensures transitive { (a b c : List ℕ)
        → IsTrue (⟦<HeaderField as PartialEq>⟧.eq a b)
        → IsTrue (⟦<HeaderField as PartialEq>⟧.eq b c)
        → IsTrue (⟦<HeaderField as PartialEq>⟧.eq a c) }
{}

/// Methods compare equal if, and only if, they are identical; equal methods have the same hash input.
pub fn method_hash()
    ensures equality { (a b : AnyMethod) → IsTrue (⟦<Method as PartialEq>⟧.eq a b) ↔ (a ≡ b) }
    ensures hash { (a b : AnyMethod)
        → IsTrue (⟦<Method as PartialEq>⟧.eq a b)
        → ⟦<Method as Hash>⟧.hash_input a ≡ ⟦<Method as Hash>⟧.hash_input b }
{}

/// Status codes are ordered by number; `is` and `cmp_u16` agree with equality and order.
pub fn status_code_order()
    ensures by_number { (a b : Code) → ⟦<StatusCode as Ord>⟧.cmp a b ≡ nat_cmp a.0 b.0 }
    ensures partial { (a b : Code) → ⟦<StatusCode as PartialOrd>⟧.partial_cmp a b ≡ Some (nat_cmp a.0 b.0) }
    ensures is { (code : Code) (number : ℕ)
        → is_code code number ≡ ⟦<StatusCode as PartialEq>⟧.eq code (record { 0 = number }) }
    ensures cmp_u16 { (code : Code) (number : ℕ)
        → code_order code number ≡ ⟦<StatusCode as Ord>⟧.cmp code (record { 0 = number }) }
{}

/// Versions are ordered lexicographically, the major number first, in agreement with equality; `is` and `cmp_pair`
/// agree with both.
pub fn http_version_order()
    ensures less { (a b : Version) → (⟦<HTTPVersion as Ord>⟧.cmp a b ≡ Less) ↔ IsBefore a b }
    ensures greater { (a b : Version) → (⟦<HTTPVersion as Ord>⟧.cmp a b ≡ Greater) ↔ IsBefore b a }
    ensures equal { (a b : Version) → (⟦<HTTPVersion as Ord>⟧.cmp a b ≡ Equal) ↔ (a ≡ b) }
    ensures equality { (a b : Version) → IsTrue (⟦<HTTPVersion as PartialEq>⟧.eq a b) ↔ (a ≡ b) }
    ensures partial { (a b : Version)
        → ⟦<HTTPVersion as PartialOrd>⟧.partial_cmp a b ≡ Some (⟦<HTTPVersion as Ord>⟧.cmp a b) }
    ensures is { (v : Version) (numbers : ℕ × ℕ)
        → is_version v numbers ≡ ⟦<HTTPVersion as PartialEq>⟧.eq v (record { 0 = numbers.0; 1 = numbers.1 }) }
    ensures cmp_pair { (v : Version) (numbers : ℕ × ℕ)
        → version_order v numbers ≡ ⟦<HTTPVersion as Ord>⟧.cmp v (record { 0 = numbers.0; 1 = numbers.1 }) }
{}

/// Parsing a method's name returns that method, unless the method is a `NonStandard` with one of the nine names that
/// have a variant.
pub fn method_from_its_name()
    ensures { (m : AnyMethod) → HasItsOwnName m → method_of (method_text m) ≡ m }
{}

/// Parsing a header's text returns that header, if its name has no white space or colon and its value is trimmed. No
/// text is parsed as two different headers.
pub fn header_from_its_text()
    ensures back { (h : Header)
        → IsWord h.field
        → HasNo colon h.field
        → AreAscii h.value
        → IsTrimmed h.value
        → IsHeader (header_text h) h }
    ensures one { (text : List ℕ) (h k : Header) → IsHeader text h → IsHeader text k → h ≡ k }
{}

/// The functions `request_line` and `header_line`, which the parsers compute, match the grammar (RFC 9112, sections 3
/// and 5).
pub fn lines_by_the_grammar()
    ensures request { (text path : List ℕ) (method : AnyMethod) (version : Version)
        → (request_line text ≡ Some (method, path, version)) ↔ RequestLine text method path version }
    ensures header { (text : List ℕ) (h : Header) → (header_line text ≡ Some h) ↔ HeaderLine text h.field h.value }
{}

/// A request target has at most one path, with one query or none (RFC 9112, section 3.2).
pub fn one_path_and_query()
    ensures { (target path other : List ℕ) (query another : Option (List ℕ))
        → TargetParts target path query
        → TargetParts target other another
        → (path ≡ other) × (query ≡ another) }
{}
