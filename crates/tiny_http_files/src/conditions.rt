//! Conditional and range requests (RFC 9110, sections 13 and 14.2).
ghost use Rattle.std.specs.Prelude.{◌≡◌, ℕ, List, Option, IfOk};
ghost use Rattle.std.specs.Option.{option_copied};
ghost use Rattle.tiny_http_files.specs.Conditions.{is_reading, is_matched, is_unmatched, is_unmodified, is_same_date};
ghost use Rattle.tiny_http_files.specs.Conditions.{is_same_representation, may_continue, unless_current, precondition};
ghost use Rattle.tiny_http_files.specs.Conditions.{range_in_use, IsSelectedAnswer, IsAnswer, by_none_match, by_date};
ghost use Rattle.tiny_http_files.specs.Ranges.{IsSelection};
ghost use Rattle.tiny_http_files.specs.declared.ranges.RangeSpec.{RangeSpec as Spec};

use crate::dates::is_not_modified;
use crate::ranges::{ByteRange, Selection, select};
use crate::tags::{Comparison, EntityTag, is_any_tag};
use httpdate::HttpDate;
use std::alloc::{AllocError, Global};
use tiny_http_head::common::Method;

/// The values of the fields of a request that make it conditional, or ask for ranges. `None` stands for a field that
/// the request doesn't have.
#[derive(Clone, Copy, Debug)]
pub struct Conditions<'a> {
    /// `If-Match` (RFC 9110, section 13.1.1)
    pub if_match: Option<&'a str>,
    /// `If-None-Match` (RFC 9110, section 13.1.2)
    pub if_none_match: Option<&'a str>,
    /// `If-Modified-Since` (RFC 9110, section 13.1.3)
    pub if_modified_since: Option<&'a str>,
    /// `If-Unmodified-Since` (RFC 9110, section 13.1.4)
    pub if_unmodified_since: Option<&'a str>,
    /// `If-Range` (RFC 9110, section 13.1.5)
    pub if_range: Option<&'a str>,
    /// `Range` (RFC 9110, section 14.2)
    pub range: Option<&'a str>,
}

/// What is known of the representation that a request selects.
#[derive(Clone, Copy, Debug)]
pub struct Representation<'a> {
    /// Its entity tag.
    pub tag: EntityTag<'a>,
    /// Its modification date.
    pub modified: HttpDate,
    /// Its length in bytes.
    pub length: u64,
}

/// The result of the preconditions of a request (RFC 9110, section 13.2.2).
#[derive(Clone, Copy, Debug, PartialEq, Eq)]
pub enum Precondition {
    /// The request is to be performed.
    Holds,
    /// The client's copy is current: a 304 is sent.
    NotModified,
    /// A precondition is false: a 412 is sent.
    Failed,
}

/// How a request is answered.
#[derive(Debug, Drop)]
pub enum Answer {
    /// By a 200 with all bytes.
    Whole,
    /// By a 206 with one range.
    Part(ByteRange),
    /// By a 206 with two ranges or more, as `multipart/byteranges`.
    Parts(Vec<ByteRange>),
    /// By a 304: the client's copy is current.
    NotModified,
    /// By a 412: a precondition is false.
    PreconditionFailed,
    /// By a 416: no range has a byte.
    RangeNotSatisfiable,
}

// Returns whether the method is `GET` or `HEAD`.
fn is_reading(method: &Method) -> bool
    ensures { result ≡ is_reading method.now }
{
    matches!(method, Method::Get | Method::Head)
}

// Returns whether an `If-Match` is true.
fn is_matched(value: &str, tag: &EntityTag<'_>) -> bool
    ensures { result ≡ is_matched value.now tag.now }
{
    is_any_tag(value) || tag.is_listed(value, Comparison::Strong)
}

// Returns whether an `If-None-Match` is true.
fn is_unmatched(value: &str, tag: &EntityTag<'_>) -> bool
    ensures { result ≡ is_unmatched value.now tag.now }
{
    !is_any_tag(value) && !tag.is_listed(value, Comparison::Weak)
}

// Returns whether an `If-Unmodified-Since` is true. A value that isn't a date is ignored.
fn is_unmodified(value: &str, modified: HttpDate) -> bool
    ensures { result ≡ is_unmodified value.now modified }
{
    match HttpDate::parse_ascii(value.as_bytes()) {
        Ok(date) => modified.unix_secs() <= date.unix_secs(),
        Err(_) => true,
    }
}

// Returns whether the value is the date, to the second.
fn is_same_date(value: &str, modified: HttpDate) -> bool
    ensures { result ≡ is_same_date value.now modified }
{
    match HttpDate::parse_ascii(value.as_bytes()) {
        Ok(date) => modified.unix_secs() == date.unix_secs(),
        Err(_) => false,
    }
}

// Returns whether an `If-Range` is true: it is the tag, by strong comparison, or, if the tag is strong, the date.
fn is_same_representation(value: &str, representation: &Representation<'_>) -> bool
    ensures { result ≡ is_same_representation value.now representation.now }
{
    representation
        .tag
        .is_match(value.as_bytes(), Comparison::Strong)
        || (!representation.tag.is_weak && is_same_date(value, representation.modified))
}

// Returns the answer to a request whose preconditions hold.
fn answer_by(selection: Selection) -> Answer
    ensures { (n : ℕ)
        → (specs : Option (List Spec))
        → IsSelection n specs selection
        → IsSelectedAnswer n specs result }
{
    match selection {
        Selection::Whole => Answer::Whole,
        Selection::Part(range) => Answer::Part(range),
        Selection::Parts(ranges) => Answer::Parts(ranges),
        Selection::Unsatisfiable => Answer::RangeNotSatisfiable,
    }
}

// Returns the result of an `If-None-Match` that is true or false, for a `GET` or `HEAD` or for another method.
fn by_none_match(is_reading: bool, is_unmatched: bool) -> Precondition
    ensures { result ≡ by_none_match is_reading is_unmatched }
{
    if is_unmatched {
        Precondition::Holds
    } else if is_reading {
        Precondition::NotModified
    } else {
        Precondition::Failed
    }
}

// Returns the result of an `If-Modified-Since`, which applies to `GET` and `HEAD` only.
fn by_date(is_reading: bool, is_current: bool) -> Precondition
    ensures { result ≡ by_date is_reading is_current }
{
    if is_reading && is_current {
        Precondition::NotModified
    } else {
        Precondition::Holds
    }
}

impl Conditions<'_> {
    // Returns whether `If-Match` is true or, if there is none, `If-Unmodified-Since`. A field that isn't there is true.
    fn may_continue(&self, representation: &Representation<'_>) -> bool
        ensures { result ≡ may_continue self.now representation.now }
    {
        if let Some(value) = self.if_match {
            return is_matched(value, &representation.tag);
        }
        match self.if_unmodified_since {
            Some(value) => is_unmodified(value, representation.modified),
            None => true,
        }
    }

    // Returns the result of `If-None-Match` or, if there is none, of `If-Modified-Since`, which applies to `GET` and
    // `HEAD` only.
    fn unless_current(&self, is_reading: bool, representation: &Representation<'_>) -> Precondition
        ensures { result ≡ unless_current is_reading self.now representation.now }
    {
        match self.if_none_match {
            Some(value) => by_none_match(is_reading, is_unmatched(value, &representation.tag)),
            None => by_date(
                is_reading,
                is_not_modified(self.if_modified_since, representation.modified),
            ),
        }
    }

    /// Evaluates the preconditions in the order of RFC 9110, section 13.2.2, without `Range`. A program that writes to
    /// the representation calls it before it does so.
    ///
    /// An invalid date is ignored, and an element of a list of tags that isn't a tag matches none.
    pub fn precondition(&self, method: &Method, representation: &Representation<'_>) -> Precondition
        ensures { result ≡ precondition method.now self.now representation.now }
    {
        if self.may_continue(representation) {
            self.unless_current(is_reading(method), representation)
        } else {
            Precondition::Failed
        }
    }

    // Returns the value of `Range`, unless it is ignored: the method isn't `GET`, or `If-Range` is false.
    fn range_in_use(&self, method: &Method, representation: &Representation<'_>) -> Option<&str>
        ensures { option_copied result ≡ range_in_use method.now self.now representation.now }
    {
        if !matches!(method, Method::Get) {
            return None;
        }
        match self.if_range {
            Some(value) if !is_same_representation(value, representation) => None,
            _ => self.range,
        }
    }

    /// Returns how a request for this representation is answered (RFC 9110, section 13.2.2). `Range` counts for `GET`
    /// only (section 14.2); `select` says which ranges are sent. Fails if memory can't be allocated.
    pub fn answer(
        &self,
        alloc: Global,
        method: &Method,
        representation: &Representation<'_>,
    ) -> Result<Answer, AllocError>
        ensures { IfOk result (λ answer. IsAnswer method.now self.now representation.now answer) }
    {
        match self.precondition(method, representation) {
            Precondition::NotModified => return Ok(Answer::NotModified),
            Precondition::Failed => return Ok(Answer::PreconditionFailed),
            Precondition::Holds => {}
        }
        match self.range_in_use(method, representation) {
            Some(value) => Ok(answer_by(select(alloc, value, representation.length)?)),
            None => Ok(Answer::Whole),
        }
    }
}
