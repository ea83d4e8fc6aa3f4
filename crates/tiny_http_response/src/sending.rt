//! Sending a response: printing, flushing, and the state of the outlet after a fault.
ghost use Rattle.std.specs.Prelude.{◌≡◌, ◌<◌, ◌^◌, ◌==◌, true, [], length, Some, None, Ok, IfErr, OnErr, MatchBool};
ghost use Rattle.std.specs.IoError.{error_kind};
ghost use Rattle.std.specs.Option.{option_copied};
ghost use Rattle.tiny_http_response.specs.Answer.{text_of};
ghost use Rattle.tiny_http_io.specs.Device.{Feed};
ghost use Rattle.tiny_http_response.specs.ResponseValue.{printing_in, printing_with, upgrading};
ghost use Rattle.tiny_http_io.specs.Outlet.{output_of, outlet_ended, outlet_held, SentOn};
ghost use Rattle.tiny_http_response.specs.Sending.{Sends, SendsText, EndsQuietly, DropsHeld, CanSend, SinkFailsOnce};
ghost use Rattle.tiny_http_response.specs.Sending.{IsHonest, is_closed_client, reported, FailsOnce, SendsQuietlyOn};
ghost use Rattle.tiny_http_response.specs.Sending.{SendsAnswer, ReportsFailure, KeepsSent};

use crate::response::Response;
use crate::response_context::ResponseContext;
use httpdate::HttpDate;
use std::alloc::Global;
use std::io;
use std::io::ErrorKind;
use tiny_http_io::device::{ReadDevice, WriteDevice};
use tiny_http_io::outlet::Outlet;

// Ends an outlet after a fault in printing. `failures` is the writer's failure count from before the printing. If the
// count is unchanged, the fault wasn't the writer's: the buffered bytes are sent, and a failure to send them isn't
// reported. Otherwise the buffered bytes are discarded.
fn end_behind_fault<W: WriteDevice>(outlet: &mut Outlet<W>, failures: u64)
    ensures ends { MatchBool ((output_of outlet.old).failures == failures)
        (EndsQuietly (output_of outlet.old) (output_of outlet.new))
        (DropsHeld (output_of outlet.old) (output_of outlet.new)) }
    ensures ended { outlet_ended outlet.new ≡ true }
    ensures takes_none { (output_of outlet.new).has_ended ≡ true }
    ensures flushed { outlet_held outlet.new ≡ [] }
{
    if outlet.writer_failures() == failures {
        let _ = outlet.end();
    } else {
        outlet.abandon();
    }
}

// Prints a response and flushes it, as `send` does; with `upgrade`, the response that upgrades the connection to that
// protocol.
fn send_printed<W: WriteDevice, D: ReadDevice + Drop>(
    alloc: Global,
    outlet: &mut Outlet<W>,
    response: Response<D>,
    response_context: ResponseContext,
    upgrade: Option<&str>,
    now: HttpDate,
) -> Result<(), io::Error>
    ensures sends { (content : Feed) → D.feed response.data_reader ≡ Some content → length content.bytes < 2 ^ 63
        → CanSend (output_of outlet.old)
        → Sends (output_of outlet.old) (output_of outlet.new) (outlet_ended outlet.new) result response.answer
        content (printing_with response_context (option_copied upgrade.entry) now) }
    ensures fails_once { SinkFailsOnce (output_of outlet.old) (output_of outlet.new) (outlet_ended outlet.new) }
    ensures reports { ReportsFailure (output_of outlet.old) (output_of outlet.new) result }
    ensures honest { IfErr result (λ e.
        IsHonest (output_of outlet.old) (output_of outlet.new) response.answer (D.feed response.data_reader)
        (printing_with response_context (option_copied upgrade.entry) now) (error_kind e)) }
    ensures ended { OnErr result (outlet_ended outlet.new ≡ true) }
    ensures flushed { outlet_held outlet.new ≡ [] }
    ensures sent_on { SentOn outlet.new }
{
    let failures = outlet.failures();
    let printed = response.print(alloc, outlet, response_context, upgrade, now);
    if let Err(fault) = printed {
        end_behind_fault(outlet, failures);
        return Err(fault);
    }
    outlet.flush()
}

/// Prints a response and flushes it. Fails with the first fault, of the data or of the writer, with `UnexpectedEof` if
/// the data ends too early (as `Response::print` does), or with `OutOfMemory` if memory for data of unknown length
/// can't be allocated. After an error nothing more is sent on the connection, except the bytes already buffered, which
/// are still sent unless the writer failed.
pub fn send<W: WriteDevice, D: ReadDevice + Drop>(
    alloc: Global,
    outlet: &mut Outlet<W>,
    response: Response<D>,
    response_context: ResponseContext,
    now: HttpDate,
) -> Result<(), io::Error>
    ensures sends { (content : Feed) → D.feed response.data_reader ≡ Some content → length content.bytes < 2 ^ 63
        → CanSend (output_of outlet.old)
        → Sends (output_of outlet.old) (output_of outlet.new) (outlet_ended outlet.new) result response.answer
        content (printing_in response_context now) }
    ensures fails_once { SinkFailsOnce (output_of outlet.old) (output_of outlet.new) (outlet_ended outlet.new) }
    ensures reports { ReportsFailure (output_of outlet.old) (output_of outlet.new) result }
    ensures honest { IfErr result (λ e.
        IsHonest (output_of outlet.old) (output_of outlet.new) response.answer (D.feed response.data_reader)
        (printing_in response_context now) (error_kind e)) }
    ensures ended { OnErr result (outlet_ended outlet.new ≡ true) }
    ensures flushed { outlet_held outlet.new ≡ [] }
    ensures sent_on { SentOn outlet.new }
{
    send_printed(alloc, outlet, response, response_context, None, now)
}

/// Sends a response as `send` does, unless the outlet has ended. If it has, sends nothing, drops the data unread and
/// returns `Ok`.
pub fn send_unless_ended<W: WriteDevice, D: ReadDevice + Drop>(
    alloc: Global,
    outlet: &mut Outlet<W>,
    response: Response<D>,
    response_context: ResponseContext,
    now: HttpDate,
) -> Result<(), io::Error>
    ensures { SendsAnswer D.feed outlet.old outlet.new result response (printing_in response_context now) }
{
    if outlet.is_ended() {
        outlet.facts();
        return Ok(());
    }
    send(alloc, outlet, response, response_context, now)
}

/// Returns whether an error of this kind means that the client has closed the connection. Such an error is not a
/// failure of the response.
pub fn is_closed_client(kind: ErrorKind) -> bool
    ensures { result ≡ is_closed_client kind }
{
    matches!(
        kind,
        ErrorKind::BrokenPipe
            | ErrorKind::ConnectionAborted
            | ErrorKind::ConnectionRefused
            | ErrorKind::ConnectionReset
    )
}

/// Converts the result of sending a response into the one to report. An error whose kind means that the client has
/// closed the connection becomes `Ok`, even if it came from the data; any other error is kept.
pub fn reported(sent: Result<(), io::Error>) -> Result<(), io::Error>
    ensures { result ≡ reported sent }
{
    match sent {
        Err(fault) if !is_closed_client(fault.kind()) => Err(fault),
        _ => Ok(()),
    }
}

/// Prints the response that upgrades the connection to a protocol, and flushes it (RFC 9110, section 7.8): the head
/// alone, with `Connection: upgrade` and `Upgrade: PROTOCOL` before the other headers. The data is dropped unread.
/// Fails with `InvalidInput`, and sends nothing of the response, if the protocol isn't ASCII; otherwise with the
/// writer's first fault. After an error nothing more is sent on the connection, except that after `InvalidInput` the
/// bytes already buffered are still sent. Allocates nothing.
pub fn send_upgrade<W: WriteDevice, D: Drop>(
    alloc: Global,
    outlet: &mut Outlet<W>,
    response: Response<D>,
    response_context: ResponseContext,
    protocol: &str,
    now: HttpDate,
) -> Result<(), io::Error>
    // Holds whatever the data is: it isn't read.
    ensures sends { (content : Feed) → CanSend (output_of outlet.old)
        → SendsText (output_of outlet.old) (output_of outlet.new) (outlet_ended outlet.new) result
        (text_of response.answer content (upgrading protocol.now (printing_in response_context now))) }
    ensures fails_once { SinkFailsOnce (output_of outlet.old) (output_of outlet.new) (outlet_ended outlet.new) }
    ensures ended { OnErr result (outlet_ended outlet.new ≡ true) }
    ensures flushed { outlet_held outlet.new ≡ [] }
    ensures sent_on { SentOn outlet.new }
{
    let answer = response.with_data(io::empty(), Some(0));
    send_printed(alloc, outlet, answer, response_context, Some(protocol), now)
}

/// Writes bytes without reporting a fault. On an outlet that has ended, sends nothing.
pub fn write_quietly<W: WriteDevice>(outlet: &mut Outlet<W>, text: &[u8])
    ensures sends { SendsQuietlyOn outlet.old outlet.new text.now }
    ensures fails_once { FailsOnce outlet.old outlet.new }
    ensures keeps { KeepsSent outlet.old outlet.new }
{
    let _ = outlet.write(text);
}

/// Flushes the bytes written so far, without reporting a fault. On an outlet that has ended, sends nothing.
pub fn flush_quietly<W: WriteDevice>(outlet: &mut Outlet<W>)
    ensures sends { SendsQuietlyOn outlet.old outlet.new [] }
    ensures fails_once { FailsOnce outlet.old outlet.new }
    ensures keeps { KeepsSent outlet.old outlet.new }
    ensures flushed { outlet_held outlet.new ≡ [] }
    ensures sent_on { SentOn outlet.new }
{
    let _ = outlet.flush();
}
