//! Modification dates of files, and the dates of clients' copies (RFC 9110, sections 8.8.2 and 13.1.3).
ghost use Rattle.std.specs.Prelude.{◌≡◌};
ghost use Rattle.std.specs.Option.{option_copied};
ghost use Rattle.tiny_http_files.specs.Dates.{is_not_modified};

use httpdate::HttpDate;

/// Returns whether a client's copy is current: `since`, the value of `If-Modified-Since`, is a date, and the file was
/// modified no later than that date.
///
/// The response should then be a 304 without content (`Response::contentless`). Returns false if there is no value, or
/// if the value isn't a date (RFC 9110, section 13.1.3). The caller must ignore `If-Modified-Since` if the request has
/// `If-None-Match`, or a method other than `GET` and `HEAD`.
pub fn is_not_modified(since: Option<&str>, modified: HttpDate) -> bool
    ensures { result ≡ is_not_modified (option_copied since.entry) modified }
{
    let Some(since) = since else {
        return false;
    };
    match HttpDate::parse_ascii(since.as_bytes()) {
        Ok(date) => modified.unix_secs() <= date.unix_secs(),
        Err(_) => false,
    }
}
