//! The law of turns, stated as the contract of a function that does nothing.
ghost use Rattle.std.specs.Prelude.{◌≡◌, ◌<◌, ◌++◌, ℕ, List, [], length, Some, slice_get};
ghost use Rattle.tiny_http_turns.specs.Turns.{Held, Finished, TurnStep, Goes, turn_answer, marks_after_step};
ghost use Rattle.tiny_http_turns.specs.TurnsLaw.{marks_after, first_held, numbers_below, texts_out, texts_left};
ghost use Rattle.tiny_http_turns.specs.TurnsLaw.{text_waiting};

/// The law of turns, which holds for every list of steps, that is, of calls to a new `Turns`.
/// - `order`: numbers are first held in the order 0, 1, 2 and so on.
/// - `one_at_a_time`: no number is held before every earlier one is finished.
/// - `once`: the texts that came out for a number, then any that still waits, are those left for it, in order.
/// - `held`: a text comes out only in a step that newly holds the number for which the text was left.
/// - `in_turn`: once all earlier numbers are finished, each text left for a number has come out.
pub fn turns_pass_in_order()
    ensures order { (steps : List TurnStep) → let held = first_held [] steps [] in held ≡ numbers_below (length held) }
    ensures one_at_a_time { (steps : List TurnStep) (early late : ℕ)
        → early < late
        → slice_get (marks_after steps []) late ≡ Some Held
        → slice_get (marks_after steps []) early ≡ Some Finished }
    ensures once { (steps : List TurnStep) (n : ℕ)
        → texts_out n steps [] ++ text_waiting (slice_get (marks_after steps []) n) ≡ texts_left n steps [] }
    ensures held { (steps : List TurnStep) (step : TurnStep) (n : ℕ) (text : List ℕ)
        → let marks = marks_after steps [] in
        turn_answer step marks ≡ Goes n text
        → (slice_get marks n ≡ Some Held → ⊥) × (slice_get (marks_after_step step marks) n ≡ Some Held) }
    ensures in_turn { (steps : List TurnStep) (n : ℕ)
        → ((early : ℕ) → early < n → slice_get (marks_after steps []) early ≡ Some Finished)
        → texts_out n steps [] ≡ texts_left n steps [] }
{}
