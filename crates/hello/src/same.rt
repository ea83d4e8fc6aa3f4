//! Assertions as functions: a test that calls them is cheaper to prove than one that asserts in place.
use std::fmt::Debug;
use std::process::Abort;

/// Asserts that both values are equal.
pub fn assert_same<T: PartialEq + Debug + Drop>(rt: &impl Abort, found: T, wanted: T) {
    assert_eq!(rt; found, wanted);
}

/// Asserts that `holds` is true. A failure prints `words`.
pub fn assert_holds(rt: &impl Abort, words: &str, holds: bool) {
    assert!(rt; holds, "not so: {words}");
}
