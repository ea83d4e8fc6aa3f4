//! The law of the table of waiting connections, over all runs of its calls.
ghost use Rattle.std.specs.Prelude.{◌≡◌, ◌≤◌, ℕ, Bool, List, Option, Some, IsSome, slice_get};
ghost use Rattle.std.specs.Duration.{as_nanos};
ghost use Rattle.std.specs.declared.time.Duration.{Duration};
ghost use Rattle.tiny_http_waiting.specs.declared.wait_table.Slot.{Slot};
ghost use Rattle.tiny_http_waiting.specs.declared.wait_table.Slot.TheVariants.{Served};
ghost use Rattle.tiny_http_waiting.specs.WaitTable.{WaitsUntil, TakesLate};
ghost use Rattle.tiny_http_waiting.specs.WaitTableLaw.{Step, Event, Wait, token_of, Takes, Run, EndsWait, OnlyEventsOf};
ghost use Rattle.tiny_http_waiting.specs.WaitTableLaw.{NoneEndsServiceOf, HandsOutNothingOf, NoneOf};

/// The law of the table, which holds for every table and every run of calls.
/// - `kept`: if an event arrives for a connection that is served, the next `wait` hands its item back.
/// - `once`: whatever events arrive for a connection that is served, its item isn't handed out again before `wait` or
///   `leave` is called for it.
/// - `waits`: a connection that waits still waits after any calls for other connections.
/// - `handed_out`: the call that ends a wait hands out the item that was stored.
/// - `not_forgotten`: if a connection waits, then after any calls for other connections, once its wait is over,
///   `take_late` returns a connection.
pub fn no_event_is_lost_and_none_is_served_twice<T>()
    ensures kept { (served noted last new : List (Slot T)) (token : ℕ) (is_ready : Bool) (at_event out : Option T)
        (steps : List (Step T × Option T)) (item : T) (until : Duration)
        → slice_get served token ≡ Some (Served is_ready)
        → Takes (Event token) at_event served noted
        → Run steps noted last
        → OnlyEventsOf token steps
        → Takes (Wait token item until) out last new
        → out ≡ Some item }
    ensures once { (served last : List (Slot T)) (token : ℕ) (is_ready : Bool) (steps : List (Step T × Option T))
        → slice_get served token ≡ Some (Served is_ready)
        → Run steps served last
        → NoneEndsServiceOf token steps
        → HandsOutNothingOf token steps }
    ensures waits { (waiting last : List (Slot T)) (token : ℕ) (item : T) (until : Duration)
        (steps : List (Step T × Option T))
        → WaitsUntil waiting token item until
        → Run steps waiting last
        → NoneOf token steps
        → WaitsUntil last token item until }
    ensures handed_out { (waiting new : List (Slot T)) (item : T) (until : Duration) (step : Step T) (out : Option T)
        → WaitsUntil waiting (token_of step) item until
        → EndsWait step
        → Takes step out waiting new
        → out ≡ Some item }
    ensures not_forgotten { (waiting last new : List (Slot T)) (token now : ℕ) (item : T) (until : Duration)
        (steps : List (Step T × Option T)) (out : Option (ℕ × T))
        → WaitsUntil waiting token item until
        → Run steps waiting last
        → NoneOf token steps
        → as_nanos until ≤ now
        → TakesLate now last out new
        → IsSome out }
{}
