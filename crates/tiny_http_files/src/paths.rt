//! Paths within a folder.
ghost use Rattle.std.specs.Prelude.{◌≡◌, IfOk, option_map, string_bytes};
ghost use Rattle.std.specs.List.{list_any};
ghost use Rattle.tiny_http_text.specs.Bytes.{parts};
ghost use Rattle.tiny_http_files.specs.Paths.{below_folder, is_unsafe_byte, is_unsafe_part, slash};

use std::alloc::{AllocError, Global};

// Returns whether the text contains a control character or a backslash. Neither belongs in the name of a served file:
// not every system allows them, and they break lines of listings and logs.
fn has_unsafe_byte(text: &[u8]) -> bool
    ensures { result ≡ list_any is_unsafe_byte text.now }
{
    text.iter().any(|b| *b < 32 || *b == 127 || *b == b'\\')
}

// Returns whether a part of a path is `.` or `..`, or contains a control character or a backslash.
fn is_unsafe_part(part: &str) -> bool
    ensures { result ≡ is_unsafe_part part.now }
{
    part == "." || part == ".." || has_unsafe_byte(part.as_bytes())
}

/// Returns whether a path must not be looked up in a folder: one of the parts between its slashes is `..`, which may
/// lead out of the folder, or `.`, or contains a backslash or a control character (0 to 31, 127), which not every
/// system allows in file names.
///
/// `path` must be the request's path (`Request::path`), percent-decoded, so that escaped slashes and dots count.
/// Symbolic links may also lead out of the folder; if the folder may contain them, check that the real path
/// (`fs::canonicalize`) is within it.
pub fn is_unsafe(path: &str) -> bool
    ensures { result ≡ list_any is_unsafe_part (parts slash path.now) }
{
    for part in path.split('/') {
        if is_unsafe_part(part) {
            return true;
        }
    }
    false
}

/// Returns the path of a file in a folder: `folder` and `path` joined as they are. `path` must be the request's path
/// (`Request::path`), percent-decoded. Returns `None` if `path` doesn't begin with a slash, or is unsafe (`is_unsafe`).
/// Whether the file exists, or is a link, isn't checked. Fails if memory can't be allocated.
pub fn below_folder(alloc: Global, folder: &str, path: &str) -> Result<Option<String>, AllocError>
    ensures { IfOk result (λ found. option_map string_bytes found ≡ below_folder folder.now path.now) }
{
    if !path.starts_with('/') || is_unsafe(path) {
        return Ok(None);
    }
    let mut file = String::from_str(alloc, folder)?;
    file.push_str(path)?;
    Ok(Some(file))
}
