//! Collects the results of a call.
use crate::row::Finding;
use std::alloc::{AllocError, Global};
use std::fmt::Display;
use std::io::ErrorKind;

/// Adds a result of kind `word`, with these bytes as its text.
pub fn add(
    alloc: Global,
    to: &mut Vec<Finding>,
    word: &'static str,
    bytes: &[u8],
) -> Result<(), AllocError> {
    let text = bytes.to_vec(alloc)?;
    to.push(Finding { word, text })?;
    Ok(())
}

/// Adds a result of kind `word`, with these bytes as its text, unless there are no bytes.
pub fn add_some(
    alloc: Global,
    to: &mut Vec<Finding>,
    word: &'static str,
    bytes: &[u8],
) -> Result<(), AllocError> {
    if bytes.is_empty() {
        return Ok(());
    }
    add(alloc, to, word, bytes)
}

/// Adds a result of kind `word`, with the displayed value as its text.
pub fn add_shown<T: Display>(
    alloc: Global,
    to: &mut Vec<Finding>,
    word: &'static str,
    value: &T,
) -> Result<(), AllocError> {
    let text = format!(in alloc; "{value}")?;
    add(alloc, to, word, text.as_bytes())
}

/// Adds a result of kind `word`, with the name of this error kind as its text.
pub fn add_kind(
    alloc: Global,
    to: &mut Vec<Finding>,
    word: &'static str,
    kind: ErrorKind,
) -> Result<(), AllocError> {
    let text = format!(in alloc; "{kind:?}")?;
    add(alloc, to, word, text.as_bytes())
}
