//! The listing of a folder in HTML.
ghost use Rattle.std.specs.Prelude.{◌≡◌, ◌++◌, IfOk, OnOk, string_bytes};
ghost use Rattle.percent_encoding.specs.Percent.{percent_encode};
ghost use Rattle.tiny_http_files.specs.Listing.{escaped, line_of, lines_of, page_of};

use percent_encoding::{AsciiSet, NON_ALPHANUMERIC, utf8_percent_encode};
use std::alloc::{AllocError, Global};

// The bytes that are percent-encoded in a link: all but letters and digits, so that no part of a name is taken for a
// scheme, a query or a fragment.
const ENCODED: AsciiSet = NON_ALPHANUMERIC;

// Appends a name, escaped for the text of an element. Fails if memory can't be allocated.
fn push_escaped(html: &mut Vec<u8>, name: &[u8]) -> Result<(), AllocError>
    ensures { OnOk result (html.new.items ≡ html.old.items ++ escaped name.now) }
{
    for byte in name {
        match *byte {
            b'<' => html.extend_from_slice(b"&lt;")?,
            b'&' => html.extend_from_slice(b"&amp;")?,
            byte => html.push(byte)?,
        }
    }
    Ok(())
}

// Returns the percent-encoded name.
fn link_to(alloc: Global, name: &str) -> Result<String, AllocError>
    ensures { IfOk result (λ link. string_bytes link ≡ percent_encode ENCODED name.now) }
{
    let mut link = String::new(alloc);
    utf8_percent_encode(name, ENCODED).append_to(&mut link)?;
    Ok(link)
}

// Appends the line of the entry with this name: a link to it. Fails if memory can't be allocated.
fn push_line(alloc: Global, html: &mut Vec<u8>, name: &str) -> Result<(), AllocError>
    ensures { OnOk result (html.new.items ≡ html.old.items ++ line_of (percent_encode ENCODED name.now) name.now) }
{
    let link = link_to(alloc, name)?;
    // The link is relative to the folder, as `./` makes explicit.
    html.extend_from_slice(b"<li><a href=\"./")?;
    html.extend_from_slice(link.as_bytes())?;
    html.extend_from_slice(b"\">")?;
    push_escaped(html, name.as_bytes())?;
    html.extend_from_slice(b"</a>\n")?;
    Ok(())
}

/// Returns an HTML page in UTF-8 that lists the entries of a folder with these names, each as a link relative to the
/// folder. Fails if memory can't be allocated.
pub fn listing(alloc: Global, names: &[String]) -> Result<Vec<u8>, AllocError>
    ensures { IfOk result (λ page. page.items ≡ page_of ENCODED names.now) }
{
    let mut html = Vec::from_slice(alloc, b"<!doctype html>\n<ul>\n")?;
    for name in names {
        push_line(alloc, &mut html, name.as_str())?;
    }
    html.extend_from_slice(b"</ul>\n")?;
    Ok(html)
}
