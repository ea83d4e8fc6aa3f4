//! Laws of the definitions, each stated as the contract of a function that does nothing.
ghost use Rattle.std.specs.Prelude.{◌≡◌, List, ℕ, ◌∷◌, ◌++◌};
ghost use Rattle.tiny_http_events.specs.Browser.{Browser, IsBetweenEvents, reads_stream};
ghost use Rattle.tiny_http_events.specs.Events.{EventValue, IsEvent, event_text};
ghost use Rattle.tiny_http_events.specs.Streams.{Item, AreItems, stream_text, after_items};

/// A browser reads a stream of events and comments as these events, in order. If the stream ends within a further
/// event, the browser dispatches the events before it alone.
pub fn streams_are_read()
    ensures whole { (items : List Item) (s : Browser)
        → AreItems items
        → IsBetweenEvents s
        → reads_stream s (stream_text items) ≡ after_items items s }
    ensures cut { (items : List Item) (s : Browser) (e : EventValue) (part : List ℕ) (next : ℕ) (rest : List ℕ)
        → AreItems items
        → IsEvent e
        → IsBetweenEvents s
        → event_text e ≡ part ++ next ∷ rest
        → (reads_stream s (stream_text items ++ part)).events ≡ (after_items items s).events }
{}
