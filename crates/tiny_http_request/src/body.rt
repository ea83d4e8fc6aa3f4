//! The body of a request that a thread may read while the connection reads on.
ghost use Rattle.std.specs.Prelude.{◌≡◌, ◌+◌, ◌≤◌, ◌<◌, ◌==◌, ◌||◌, false, length, take, drop, Option, is_some, Ok};
ghost use Rattle.std.specs.Prelude.{true, Some, None, IfOk, IfErr, IfSome, OnOk};
ghost use Rattle.std.specs.IoError.{error_kind};
ghost use Rattle.tiny_http_io.specs.Device.{AnswersStop, Feed, Reads, bytes_of, prepended};
ghost use Rattle.tiny_http_io.specs.declared.device.Stop.TheVariants.{End, Fault};
ghost use Rattle.tiny_http_body.specs.Body.{is_streaming, is_whole, bytes_left, remainder, body_stop, ReadsOn};
ghost use Rattle.tiny_http_body.specs.Body.{BodyStops, remaining, prepended_body};
ghost use Rattle.tiny_http_request.specs.Body.{ReadsUnread, GivesOnInput, KeepsLeft, outlasts_body, input_of};
ghost use Rattle.tiny_http_request.specs.Body.{body_left, upgraded_body};

use crate::remembered::Remembered;
use std::io;
use std::io::{ErrorKind, Read};
use std::marker::Model;
use std::sync::Wait;
use tiny_http_body::body::{Remainder, UnreadBody};
use tiny_http_io::device::ReadDevice;
use tiny_http_io::source::{InputState, Source};
use tiny_http_threads::held_reader::HeldReader;

// The time at which the body passes the connection's input on to the next head.
#[derive(Drop)]
pub(crate) enum GivesOn {
    // Once the body has been read to its end or given up.
    AfterBody,
    // Once the request, which asks for an upgrade, has been answered or dropped.
    AfterAnswer,
    // Once the body has been read to its end or given up, but then no head follows.
    Never,
}

// Drops the reader, and ends the requests: no further head is read.
fn end_behind<R: ReadDevice + Drop, Rt: Wait + Drop>(reader: HeldReader<Source<R>, Rt>) {
    let mut reader = reader;
    reader.turn.item.set_input_state(InputState::Last);
}

/// The body of a request, as a `Read`.
///
/// While bytes of it are to be read from the connection, the body holds the connection's input, and the next head
/// waits. A body with a content length passes the input on with its last byte, a chunked one once a read has returned
/// 0, and a dropped one at once. No head follows a dropped chunked body whose end hadn't been reported, nor a body that
/// is cut or broken.
///
/// Under `Standard` the body of a request that asks for an upgrade holds the input until the request is answered or
/// dropped. No head follows if the request's raw writer is taken or the request is upgraded; once upgraded, its body
/// reads all that follows. Nor does a head follow a request that is finished while its 100 is owed, or while more than
/// 65,536 bytes of a body with a `Content-Length` are unread.
///
/// After the end each read returns 0. After a fault, the client's or the body's own, each read fails with that fault,
/// even one of kind `Interrupted`, which the standard library's `read_to_end` and `read_to_string` would retry forever.
/// So if the client's reader may be interrupted, use `read` or `read_exact`.
pub struct Body<R: ReadDevice + Drop, Rt: Wait + Drop> {
    unread: UnreadBody,
    reader: Option<HeldReader<Source<R>, Rt>>,
    gives_on: GivesOn,
    // The input when the body was made, if the body held it then. Only contracts see it.
    begun: Option<Remembered<Source<R>>>,
}

// Passes the input on if the body is no longer read from it and the next head needn't wait for the response; otherwise
// returns the reader.
fn give_on<R: ReadDevice + Drop, Rt: Wait + Drop>(
    reader: HeldReader<Source<R>, Rt>,
    is_read: bool,
    gives_on: &GivesOn,
) -> Option<HeldReader<Source<R>, Rt>>
    ensures held { is_some result ≡ (is_read || outlasts_body gives_on.now) }
    ensures same { IfSome result (λ kept. kept ≡ reader) }
{
    if is_read {
        return Some(reader);
    }
    match gives_on {
        GivesOn::AfterBody => {
            drop(reader);
            None
        }
        GivesOn::AfterAnswer => Some(reader),
        GivesOn::Never => {
            end_behind(reader);
            None
        }
    }
}

impl<R: ReadDevice + Drop, Rt: Wait + Drop> Model for Body<R, Rt> {
    ghost use Rattle.std.specs.Prelude.{◌≡◌, ◌||◌, is_some};
    ghost use Rattle.tiny_http_body.specs.Body.{is_streaming};
    ghost use Rattle.tiny_http_request.specs.Body.{BodyState, outlasts_body, input_of, begun_feed};

    ghost Value = { BodyState };

    ghost view = { λ b. record {
      unread = b.unread;
      input = input_of b.reader b.begun;
      holds_input = is_some b.reader;
      outlasts = outlasts_body b.gives_on;
    } };

    // The body holds the input exactly while it is read from there, or while the next head waits for the response. The
    // input states its feed if and only if it did so when the body was created.
    ghost invariant = { λ b. (is_some b.reader ≡ (is_streaming b.unread || outlasts_body b.gives_on))
        × (is_some (input_of b.reader b.begun) ≡ is_some (begun_feed b.begun)) };
}

impl<R: ReadDevice + Drop, Rt: Wait + Drop> Body<R, Rt> {
    /// Creates a body. `reader` holds the input; it is `Some` if and only if the body is read from the input, or the
    /// next head waits for the response.
    pub(crate) fn new(
        unread: UnreadBody,
        reader: Option<HeldReader<Source<R>, Rt>>,
        gives_on: GivesOn,
    ) -> Body<R, Rt>
        requires { is_some reader ≡ (is_streaming unread || outlasts_body gives_on) }
        ensures { result ≡ record {
          unread = unread;
          input = input_of reader None;
          holds_input = is_some reader;
          outlasts = outlasts_body gives_on;
        } }
    {
        let begun = match &reader {
            Some(reader) => Some(Remembered::of(&*reader.turn.item)),
            None => None,
        };
        Body {
            unread,
            reader,
            gives_on,
            begun,
        }
    }

    /// Returns whether no more of the body is read from the connection and no fault ended it. Under `Lenient` and
    /// `Strict` a cut body with a content length is whole, too.
    pub(crate) fn is_whole(&self) -> bool
        ensures { result ≡ is_whole self.now.unread }
    {
        self.unread.is_whole()
    }

    /// Returns how many bytes of the body are left, if that is known.
    pub(crate) fn left(&self) -> Option<usize>
        ensures { result ≡ bytes_left self.now.unread }
    {
        self.unread.left()
    }

    /// Returns what is left of the body if its request is finished now.
    pub(crate) fn remainder(&self) -> Remainder
        ensures { result ≡ remainder self.now.unread }
    {
        self.unread.remainder()
    }

    /// Turns the body into the upgraded stream: under `Standard`, if the body holds the input, it then reads all
    /// further input.
    pub(crate) fn become_stream(&mut self, by_standard: bool)
        ensures { self.new ≡ upgraded_body by_standard self.old }
    {
        if self.reader.is_some() {
            self.unread.become_stream(by_standard);
        }
    }

    /// Ends the requests: no head is read after this body's request. The body must hold the input. It does if the
    /// request asks for an upgrade, is still owed a 100, or has more of its body unread than the server skips. If the
    /// body is no longer read from the input, the input is passed on at once.
    pub(crate) fn end_requests(&mut self)
        ensures { KeepsLeft self.old self.new }
    {
        if self.unread.holds_reader() {
            self.gives_on = GivesOn::Never;
        } else {
            self.gives_on = GivesOn::AfterBody;
            if let Some(reader) = self.reader.take() {
                end_behind(reader);
            }
        }
    }

    // Reads some bytes into a buffer that isn't empty.
    fn read_some(&mut self, buf: &mut [u8]) -> Result<usize, io::Error>
        requires room { 0 < length buf.old }
        ensures reads { Reads (body_left self.old) (body_left self.new) result buf.new }
        ensures held { is_streaming self.old.unread ≡ false → (feed : Option Feed)
            → IfOk result
            (λ n. remaining self.old.unread feed ≡ prepended_body (take n buf.new) (remaining self.new.unread feed)) }
        ensures end { is_streaming self.old.unread ≡ false
            → (feed : Option Feed)
            → IfOk result (λ n. n ≡ 0 → 0 < length buf.new → BodyStops End (remaining self.old.unread feed)) }
        ensures moves { IfOk result (λ n. ReadsOn self.old.unread n (n == 0) self.new.unread) }
        ensures ended { IfOk result (λ n. n ≡ 0 → is_whole self.new.unread ≡ true) }
        ensures holds { GivesOnInput self.old self.new }
        ensures broken { IfErr result (λ e. body_stop self.new.unread ≡ Some (Fault (error_kind e))) }
        ensures reports_stop { IfSome (body_stop self.old.unread) (λ stop. AnswersStop stop result
            × (body_stop self.new.unread ≡ Some stop)) }
    {
        if !self.unread.holds_reader() {
            return self.unread.read_held(buf);
        }
        let Some(mut reader) = self.reader.take() else {
            unreachable!()
        };
        let read = self.unread.read(&mut reader.turn.item, buf);
        self.reader = give_on(reader, self.unread.holds_reader(), &self.gives_on);
        read
    }
}

impl<R: ReadDevice + Drop, Rt: Wait + Drop> ReadDevice for Body<R, Rt> {
    ghost feed = { body_left };

    /// Reads some bytes of the body, and returns how many. After the last byte a read into a nonempty `buf` returns 0,
    /// or fails with the fault by which the body is cut or broken, and so does each later one.
    fn read_in(&mut self, buf: &mut [u8]) -> Result<usize, io::Error>
        ensures reads { Reads (body_left self.old) (body_left self.new) result buf.new }
        ensures body { ReadsUnread self.old self.new result buf.new }
    {
        if buf.is_empty() {
            return Ok(0);
        }
        self.read_some(buf)
    }
}

// Reads into the buffer from position `at` on.
fn read_behind<R: ReadDevice>(reader: &mut R, buf: &mut [u8], at: usize) -> io::Result<usize>
    requires { at < length buf.old }
    ensures bound { IfOk result (λ n. at + n ≤ length buf.new) }
    ensures len { length buf.new ≡ length buf.old }
    ensures front { take at buf.new ≡ take at buf.old }
    ensures reads { Reads (R.feed reader.old) (R.feed reader.new) result (drop at buf.new) }
{
    reader.read_in(&mut buf[at..])
}

// Reads until the buffer is full. Fails with the first fault, or with `UnexpectedEof` if the end comes first.
fn read_whole<R: ReadDevice>(reader: &mut R, buf: &mut [u8]) -> io::Result<()>
    ensures { OnOk result (R.feed reader.old ≡ prepended buf.new (R.feed reader.new)) }
{
    let mut at = 0;
    while at < buf.len() {
        let n = read_behind(reader, buf, at)?;
        if n == 0 {
            return Err(ErrorKind::UnexpectedEof.into());
        }
        at += n;
    }
    Ok(())
}

impl<R: ReadDevice + Drop, Rt: Wait + Drop> Read for Body<R, Rt> {
    ghost use Rattle.std.specs.Io.{ReadsAtMost};
    ghost use Rattle.std.specs.Io.KnownBytes.{Consumes, ReadConsumes};

    ghost remaining = { λ b. bytes_of (body_left b) };

    /// Reads some bytes of the body, like `read_in`.
    fn read(&mut self, buf: &mut [u8]) -> io::Result<usize>
        ensures bound { ReadsAtMost result buf.new }
        ensures bytes { ReadConsumes (bytes_of (body_left self.old)) (bytes_of (body_left self.new)) result buf.new }
        ensures reads { Reads (body_left self.old) (body_left self.new) result buf.new }
        ensures body { ReadsUnread self.old self.new result buf.new }
    {
        self.read_in(buf)
    }

    /// Fills the buffer. Fails with the first fault, even one of kind `Interrupted`, or with `UnexpectedEof` if the
    /// body ends before the buffer is full.
    fn read_exact(&mut self, buf: &mut [u8]) -> io::Result<()>
        ensures bytes { OnOk result (Consumes (bytes_of (body_left self.old)) (bytes_of (body_left self.new)) buf.new) }
        ensures reads { OnOk result (body_left self.old ≡ prepended buf.new (body_left self.new)) }
    {
        read_whole(self, buf)
    }
}

impl<R: ReadDevice + Drop, Rt: Wait + Drop> Drop for Body<R, Rt> {
    /// Gives up the body.
    fn drop(self) {
        let Self {
            mut unread,
            reader,
            gives_on,
            begun: _,
        } = self;
        if let Some(mut reader) = reader {
            let source = &mut *reader.turn.item;
            unread.give_up(source);
            if matches!(gives_on, GivesOn::Never) {
                source.set_input_state(InputState::Last);
            }
        }
    }
}
