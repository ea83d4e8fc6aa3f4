//! Upgrades of a connection to another protocol (RFC 9110, section 7.8).
ghost use Rattle.std.specs.Prelude.{◌≡◌, true};
ghost use Rattle.std.specs.List.{list_all};
ghost use Rattle.tiny_http_text.specs.Bytes.{is_ascii};
ghost use Rattle.tiny_http_io.specs.Device.{Feed};
ghost use Rattle.tiny_http_response.specs.ResponseValue.{printing_in, upgrade_text};
ghost use Rattle.tiny_http_response.specs.Sending.{FailsOnce, SendsQuietlyOn};
ghost use Rattle.tiny_http_open_request.specs.OpenRequest.{HasSentAll, upgrade_check};

use httpdate::HttpDate;
use std::alloc::Global;
use thiserror::Error;
use tiny_http_head::common::StatusCode;
use tiny_http_io::device::WriteDevice;
use tiny_http_io::outlet::Outlet;
use tiny_http_response::response::Response;
use tiny_http_response::response_context::ResponseContext;
use tiny_http_response::sending::send_upgrade;
use tiny_http_text::bytes::are_ascii;

/// The reason why a connection wasn't upgraded.
#[derive(Clone, Copy, Debug, PartialEq, Eq, Error)]
pub enum UpgradeError {
    /// The protocol's name isn't ASCII.
    #[error("the protocol's name is not ASCII")]
    Protocol,
    /// The request doesn't ask for this protocol, or, under `Standard`, is its connection's last or had its body
    /// discarded. Under the other profiles `upgrade` doesn't check this, but `try_upgrade` does.
    #[error("the request does not ask for this protocol, or is the last")]
    NotAsked,
    /// Under `Standard`: the response's code isn't 101.
    #[error("the status code of an upgrade is 101")]
    Status,
    /// Under `Standard`: the request's body was cut, is broken, or was neither read with the head nor read to its end.
    #[error("the request's body is not whole")]
    UnfinishedBody,
    /// On a server with limits: the maximum number of upgraded connections has been reached.
    #[error("too many connections are upgraded")]
    TooMany,
}

/// Checks whether a response with this code can upgrade a connection to a protocol of this name, and returns the first
/// error that applies. The name must be ASCII. Under `Standard` the request must ask for the protocol (`is_asked`), the
/// code must be 101, and the body must be whole (`is_whole`; RFC 9110, section 7.8).
pub fn check_upgrade(
    by_standard: bool,
    is_asked: bool,
    protocol: &str,
    status: StatusCode,
    is_whole: bool,
) -> Result<(), UpgradeError>
    ensures { result ≡ upgrade_check by_standard is_asked protocol.now status.0 is_whole }
{
    if !are_ascii(protocol.as_bytes()) {
        return Err(UpgradeError::Protocol);
    }
    if !by_standard {
        return Ok(());
    }
    if !is_asked {
        return Err(UpgradeError::NotAsked);
    }
    if status != StatusCode(101) {
        return Err(UpgradeError::Status);
    }
    if !is_whole {
        return Err(UpgradeError::UnfinishedBody);
    }
    Ok(())
}

// Sends the response that upgrades a connection to this protocol, and flushes it: the head alone, with `Connection:
// upgrade` and `Upgrade: PROTOCOL` before the other headers (as in the Rust crate). The response's data are dropped
// unread. A fault of the writer isn't reported. An outlet that has ended sends nothing. Allocates nothing.
pub(crate) fn send_upgrade_quietly<W: WriteDevice, D: Drop>(
    alloc: Global,
    outlet: &mut Outlet<W>,
    response: Response<D>,
    context: ResponseContext,
    protocol: &str,
    now: HttpDate,
)
    requires { list_all is_ascii protocol.now ≡ true }
    // Holds whatever the data are: they aren't read.
    ensures sends { (content : Feed) → SendsQuietlyOn outlet.old outlet.new
        (upgrade_text (record { answer = response.answer; content = content }) protocol.now (printing_in context now)) }
    ensures fails_once { FailsOnce outlet.old outlet.new }
    ensures sent { HasSentAll outlet.new }
{
    if outlet.is_ended() {
        outlet.facts();
        return;
    }
    let _ = send_upgrade(alloc, outlet, response, context, protocol, now);
}
