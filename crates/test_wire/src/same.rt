//! Assertions as functions: a caller of these is cheaper to prove than one that asserts in place.
use std::alloc::Global;
use std::fmt::{Debug, Display};
use std::process::Abort;
use std::test::Fail;

/// Asserts that both values are equal. Tests of table rows put the row's key into both, so that a failure names the
/// row.
pub(crate) fn assert_same<T: PartialEq + Debug + Copy>(rt: &impl Abort, found: T, wanted: T) {
    assert_eq!(rt; found, wanted);
}

/// Asserts that `holds` is true. A failure prints `words`.
pub(crate) fn assert_holds(rt: &impl Abort, words: &str, holds: bool) {
    assert!(rt; holds, "not so: {words}");
}

/// Asserts that `value` is displayed as `wanted`.
pub(crate) fn assert_shown<T: Display>(
    rt: &impl Abort,
    alloc: Global,
    value: &T,
    wanted: &str,
) -> Result<(), Fail> {
    let shown = format!(in alloc; "{value}")?;
    assert_eq!(rt; shown.as_str(), wanted);
    Ok(())
}
