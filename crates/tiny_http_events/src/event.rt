//! Events, and the text of a `text/event-stream` (HTML standard, section 9.2.5).
ghost use Rattle.std.specs.Prelude.{◌≡◌, ◌<◌, ◌≤◌, ◌++◌, [], ◌∷◌, length, take, slice_index};
ghost use Rattle.std.specs.Prelude.{IfSome, IfNone, IfOk, OnOk, not, true};
ghost use Rattle.std.specs.List.{list_all};
ghost use Rattle.tiny_http_events.specs.Browser.{IsOneLine, ends_line, has_nul, with_line_feeds, line_feed};
ghost use Rattle.tiny_http_events.specs.Events.{field_line, field_lines, comment_text, IsIgnored};

use std::alloc::AllocError;
use std::io;
use std::io::ErrorKind;
use std::marker::Model;
use thiserror::Error;
use tiny_http_text::number::Numeral;

/// The error of a text that can't be part of an event, since a browser would read something else.
#[derive(Clone, Copy, Debug, PartialEq, Eq, Drop, Error)]
pub enum EventError {
    /// The name contains a CR or an LF, which would end it.
    #[error("a line break in the name of an event")]
    LineBreakInName,
    /// The ID contains a CR or an LF, which would end it.
    #[error("a line break in the id of an event")]
    LineBreakInId,
    /// The ID contains a NUL: a browser ignores such an ID.
    #[error("a NUL in the id of an event")]
    NulInId,
}

impl From<EventError> for io::Error {
    ghost use Rattle.std.specs.IoError.{error_kind};
    ghost use Rattle.std.specs.declared.io.ErrorKind.TheVariants.{InvalidInput};

    ghost from_gives = { λ _ fault. error_kind fault ≡ InvalidInput };

    /// Converts the error to `InvalidInput`, so that `?` works in a function that returns an `io::Result`.
    fn from(_: EventError) -> io::Error {
        ErrorKind::InvalidInput.into()
    }
}

/// An event of a stream: data, and optionally a name, an ID, and a reconnection time. It borrows its texts.
///
/// A browser ignores an event without data, so every event has data; they may be empty, or have several lines. A
/// contract sees the event as these four values.
#[derive(Debug, Drop)]
pub struct Event<'a> {
    name: &'a str,
    text: &'a str,
    id: Option<&'a str>,
    retry: Option<u32>,
}

impl<'a> Model for Event<'a> {
    ghost use Rattle.std.specs.Option.{option_copied};
    ghost use Rattle.tiny_http_events.specs.Events.{EventValue, IsEvent, event_code};

    ghost Value = { EventValue };

    ghost coded = { event_code };

    ghost view = { λ e. record { name = e.name.now; text = e.text.now; id = option_copied e.id; retry = e.retry } };

    ghost invariant = { λ e. IsEvent record
        { name = e.name.now; text = e.text.now; id = option_copied e.id; retry = e.retry } };
}

// Returns whether the byte is a CR or an LF.
fn ends_line(b: u8) -> bool
    ensures { result ≡ ends_line b }
{
    b == b'\r' || b == b'\n'
}

// Returns whether the text has no CR and no LF.
fn is_one_line(text: &str) -> bool
    ensures { result ≡ list_all (λ b. not (ends_line b)) text.now }
{
    text.as_bytes().iter().all(|b| !ends_line(*b))
}

// Returns whether the text contains a NUL.
fn has_nul(text: &str) -> bool
    ensures { result ≡ has_nul text.now }
{
    text.as_bytes().iter().any(|b| *b == 0)
}

// Returns the position of the first CR or LF, or the length of the text if it has none.
fn line_len(text: &[u8]) -> usize
    ensures bound { result ≤ length text.now }
    ensures line { IsOneLine (take result text.now) }
    ensures there { result < length text.now → ends_line (slice_index text.now result) ≡ true }
{
    let mut i = 0;
    while i < text.len() && !ends_line(text[i]) {
        i += 1;
    }
    i
}

// Returns the bytes after the CR LF, LF or CR at the front, or `None` if the text is empty.
fn after_end(text: &[u8]) -> Option<&[u8]>
    requires { 0 < length text.now → ends_line (slice_index text.now 0) ≡ true }
    ensures some { IfSome result (λ rest. with_line_feeds text.now ≡ line_feed ∷ with_line_feeds rest.now) }
    ensures shorter { IfSome result (λ rest. length rest.now < length text.now) }
    ensures none { IfNone result (text.now ≡ []) }
{
    match text {
        [] => None,
        [b'\r', b'\n', rest @ ..] => Some(rest),
        [_, rest @ ..] => Some(rest),
    }
}

// Splits the text at its first CR LF, LF or CR. Returns the bytes before it and after it, or `None` if there is none.
fn cut_line(text: &[u8]) -> Option<(&[u8], &[u8])>
    ensures line { IfSome result (λ r. IsOneLine r.0.now) }
    ensures joins { IfSome result
        (λ r. with_line_feeds text.now ≡ r.0.now ++ line_feed ∷ with_line_feeds r.1.now) }
    ensures shorter { IfSome result (λ r. length r.1.now < length text.now) }
    ensures none { IfNone result (IsOneLine text.now) }
{
    let (line, end) = text.split_at(line_len(text));
    let rest = after_end(end)?;
    Some((line, rest))
}

// Appends a line with a field.
fn put_field(text: &mut Vec<u8>, name: &str, value: &[u8]) -> Result<(), AllocError>
    ensures { OnOk result (text.new.items ≡ text.old.items ++ field_line name.now value.now) }
{
    text.extend_from_slice(name.as_bytes())?;
    text.extend_from_slice(b": ")?;
    text.extend_from_slice(value)?;
    text.push(b'\n')?;
    Ok(())
}

// Appends a field for each line of the value.
fn put_fields(text: &mut Vec<u8>, name: &str, value: &str) -> Result<(), AllocError>
    ensures { OnOk result (text.new.items ≡ text.old.items ++ field_lines name.now value.now) }
{
    let mut rest = value.as_bytes();
    while let Some((line, after)) = cut_line(rest) {
        put_field(text, name, line)?;
        rest = after;
    }
    put_field(text, name, rest)
}

impl<'a> Event<'a> {
    ghost use Rattle.std.specs.Prelude.{Some, OnOk, IfOk, IfErr};
    ghost use Rattle.tiny_http_events.specs.Events.{event_of, event_text, name_line, id_line, retry_line};
    ghost use Rattle.tiny_http_events.specs.Events.{IsId, IsIdError, IsReadAs};

    /// Creates an event with these data, and without a name, an ID or a reconnection time. A CR LF, an LF or a CR ends
    /// a line of the data: the browser gets an LF for each. Empty data are dispatched too, as the empty text.
    pub fn new(text: &'a str) -> Event<'a>
        ensures { result ≡ event_of text.now }
    {
        Event {
            name: "",
            text,
            id: None,
            retry: None,
        }
    }

    /// Names the event: the type that a browser's listeners are registered for. Without a name, or with an empty one,
    /// it is `message`. Listeners can't tell `open` and `error` from the browser's own events. Fails if the name
    /// contains a CR or an LF.
    pub fn with_name(mut self, name: &'a str) -> Result<Event<'a>, EventError>
        ensures ok { IfOk result (λ e. e ≡ record self.entry { name = name.now }) }
        ensures taken { OnOk result (IsOneLine name.now) }
        ensures refused { IfErr result (λ e. (e ≡ EventError.LineBreakInName) × (IsOneLine name.now → ⊥)) }
    {
        if !is_one_line(name) {
            return Err(EventError::LineBreakInName);
        }
        self.name = name;
        Ok(self)
    }

    /// Gives the event an ID, which may be empty. It is the browser's last event ID from this event on, until another
    /// event has an ID; when the browser reconnects it sends the last event ID, unless it is empty, in `Last-Event-ID`.
    /// Fails if the ID contains a CR, an LF or a NUL.
    ///
    /// A server gets the ID back as the value of a header: trimmed, and under `Standard` with bytes above 127
    /// percent-encoded. Visible ASCII characters come back as they are.
    pub fn with_id(mut self, id: &'a str) -> Result<Event<'a>, EventError>
        ensures ok { IfOk result (λ e. e ≡ record self.entry { id = Some id.now }) }
        ensures taken { OnOk result (IsId id.now) }
        ensures refused { IfErr result (λ e. IsIdError e id.now) }
    {
        if !is_one_line(id) {
            return Err(EventError::LineBreakInId);
        }
        if has_nul(id) {
            return Err(EventError::NulInId);
        }
        self.id = Some(id);
        Ok(self)
    }

    /// Sets the time in milliseconds that the browser waits before it reconnects, from this event on. It has no effect
    /// on the event itself.
    pub fn with_retry(mut self, milliseconds: u32) -> Event<'a>
        ensures { result ≡ record self.entry { retry = Some milliseconds } }
    {
        self.retry = Some(milliseconds);
        self
    }

    // Appends the fields before the data.
    fn put_head(&self, text: &mut Vec<u8>) -> Result<(), AllocError>
        ensures { OnOk result (text.new.items
            ≡ text.old.items ++ name_line self.now.name ++ id_line self.now.id ++ retry_line self.now.retry) }
    {
        if !self.name.is_empty() {
            put_field(text, "event", self.name.as_bytes())?;
        }
        if let Some(id) = self.id {
            put_field(text, "id", id.as_bytes())?;
        }
        if let Some(milliseconds) = self.retry {
            put_field(
                text,
                "retry",
                Numeral::decimal(u64::from(milliseconds)).as_bytes(),
            )?;
        }
        Ok(())
    }

    /// Appends the text of the event: its fields, a line each, and an empty line. It begins a line: `text` must be
    /// empty, or end with a line feed. Fails if memory can't be allocated; then `text` may end within the event.
    pub fn append_to(&self, text: &mut Vec<u8>) -> Result<(), AllocError>
        ensures text { OnOk result (text.new.items ≡ text.old.items ++ event_text self.now) }
        ensures read { OnOk result (IsReadAs (event_text self.now) self.now) }
    {
        self.put_head(text)?;
        put_fields(text, "data", self.text)?;
        text.push(b'\n')?;
        Ok(())
    }
}

/// Appends the text of a comment, which a browser ignores: a line that begins with a colon for each line of `comment`.
/// A comment with empty text is a heartbeat. It begins a line, as an event does, and may also be within an event. Fails
/// if memory can't be allocated; then `text` may end within the comment.
pub fn append_comment(comment: &str, text: &mut Vec<u8>) -> Result<(), AllocError>
    ensures text { OnOk result (text.new.items ≡ text.old.items ++ comment_text comment.now) }
    ensures ignored { OnOk result (IsIgnored (comment_text comment.now)) }
{
    put_fields(text, "", comment)
}
