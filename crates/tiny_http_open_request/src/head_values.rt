//! Lookups in the head of a request: the values of its headers, the parts of its target, and whether it asks for an
//! upgrade.
ghost use Rattle.std.specs.Prelude.{◌≡◌};
ghost use Rattle.std.specs.Option.{option_copied};
ghost use Rattle.tiny_http_head.specs.Target.{IsPath, IsQuery};
ghost use Rattle.tiny_http_standard_head.specs.Lists.{has_element};
ghost use Rattle.tiny_http_body.specs.Framing.{value_of};
ghost use Rattle.tiny_http_open_request.specs.HeadValues.{is_upgrade};

use crate::exchange::Head;
use tiny_http_body::framing::{Form, value_of};
use tiny_http_head::target::{path_of, query_of};
use tiny_http_standard_head::lists::has_element;

impl Head {
    /// Returns the length in `Content-Length`, in bytes, if it can be read and no `Transfer-Encoding` overrides it.
    #[inline(always)]
    pub fn body_length(&self) -> Option<usize>
        ensures { result ≡ self.now.framing.body_length }
    {
        self.framing.body_length
    }

    /// Returns how the body is read.
    #[inline(always)]
    pub fn form(&self) -> Form
        ensures { result ≡ self.now.framing.form }
    {
        self.framing.form
    }

    /// Returns whether the head expects a 100 before the body (RFC 9110, section 10.1.1). Under `Standard` an
    /// expectation counts only in version 1.1 or above, and only if a body follows; under any other profile it counts
    /// in every version, even if no body follows.
    #[inline(always)]
    pub fn owes_continue(&self) -> bool
        ensures { result ≡ self.now.framing.owes_continue }
    {
        self.framing.owes_continue
    }

    /// Returns whether the head asks for an upgrade (RFC 9110, section 7.8). Under `Standard` this requires version 1.1
    /// or above, a `Connection` with the element `upgrade`, and an `Upgrade` that names a protocol. Under any other
    /// profile this is false.
    #[inline(always)]
    pub fn asks_upgrade(&self) -> bool
        ensures { result ≡ self.now.framing.asks_upgrade }
    {
        self.framing.asks_upgrade
    }

    /// Returns whether the connection ends after this request, according to its head (RFC 9112, section 9.3).
    #[inline(always)]
    pub fn is_last(&self) -> bool
        ensures { result ≡ self.now.framing.is_last }
    {
        self.framing.is_last
    }

    /// Returns the value of the first header with this name, or `None` if there is none. ASCII letter case is ignored
    /// (RFC 9110, section 5.1). Further headers with this name are ignored.
    pub fn header(&self, name: &str) -> Option<&str>
        ensures { option_copied result ≡ value_of name.now self.now.headers.items }
    {
        match value_of(self.headers.as_slice(), name) {
            Some(value) => Some(value.as_str()),
            None => None,
        }
    }

    /// Returns whether the headers with this name list this token. Together they form one list (RFC 9110, section 5.3),
    /// whose elements are separated by commas and trimmed of spaces and tabs (section 5.6.1). ASCII letter case of name
    /// and token is ignored. An element must be the token alone: `gzip;q=1` isn't `gzip`. A comma in a quoted string
    /// separates elements, too.
    pub fn header_lists(&self, name: &str, token: &str) -> bool
        ensures { result ≡ has_element name.now token.now self.now.headers.items }
    {
        has_element(self.headers.as_slice(), name, token)
    }

    /// Returns the path of the target, without its query (RFC 9112, section 3.2), as it was sent: percent-encoded, and
    /// possibly with `.` and `..` segments. In absolute form it is the part after the authority: `/a` of
    /// `http://host/a?b`, and `/` of `http://host`. `*`, and the host and port of a `CONNECT`, are their own path. An
    /// empty target, which `Standard` refuses, has an empty path.
    pub fn target_path(&self) -> &str
        ensures { IsPath self.now.path result.now }
    {
        path_of(self.path.as_str())
    }

    /// Returns the query of the target as it was sent: the part after its first `?`, which may be empty. Returns `None`
    /// if there is no `?` (RFC 3986, section 3.4).
    pub fn query(&self) -> Option<&str>
        ensures { IsQuery self.now.path (option_copied result) }
    {
        query_of(self.path.as_str())
    }

    /// Returns whether the head asks for an upgrade that its profile accepts (RFC 9110, section 7.8). Under `Standard`
    /// `asks_upgrade` must hold, and the request must not be its connection's last (`is_last`). In exactly these cases,
    /// unless the body was discarded, an upgrade to a protocol that `Upgrade` names doesn't fail with `NotAsked`. Under
    /// the other profiles the first `Connection` value must contain `upgrade`; all bytes after the head are then its
    /// body, and what `Upgrade` names is ignored.
    pub fn is_upgrade(&self) -> bool
        ensures { result ≡ is_upgrade self.now }
    {
        if self.framing.by_standard {
            return self.framing.asks_upgrade && !self.framing.is_last;
        }
        matches!(self.framing.form, Form::Rest)
    }
}
