//! Passing a turn on: the text of a held number is written and the number is finished. The same is then done for the
//! next number, and so on, until there is one for which no text was left.
ghost use Rattle.std.specs.Prelude.{ℕ, List, Option};
ghost use Rattle.std.specs.Global.{Vec as Bytes};
ghost use Rattle.tiny_http_turns.specs.Passing.{holds, PassesOn};

/// A held number in whose turn texts are written. `N` keeps the numbers, and `O` is the output; calls borrow both.
pub trait HeldTurn<N, O> {
    /// The effect of writing a text in the turn, as a relation between the turn and the output before it, the text, and
    /// the turn and the output after it.
    ghost writes: { Self → O → List ℕ → Self → O → Type 0 };

    /// The effect of finishing the number, as a relation between the turn and the numbers before it, the text that was
    /// left for the next number, if one was, and the turn and the numbers after it. If there is such a text, the next
    /// number is then held.
    ghost finishes: { Self → N → Option (Bytes ℕ) → Self → N → Type 0 };

    /// Writes a text in the turn. Faults are not reported.
    fn write_text(&mut self, output: &mut O, text: &[u8])
        ensures { writes self.old output.old text.now self.new output.new };

    /// Finishes the number. If a text was left for the next number, holds that number and returns the text; otherwise
    /// returns `None`.
    fn finish(&mut self, numbers: &mut N) -> Option<Vec<u8>>
        ensures { finishes self.old numbers.old result self.new numbers.new };
}

/// Writes the text of a held number and finishes that number, then does the same for the next number, and so on, until
/// there is one for which no text was left. The function itself allocates nothing. It also stops once it has written
/// the texts of 2^64 further numbers, the last of which is then still held.
pub fn pass_on<N, O, T: HeldTurn<N, O>>(
    turn: &mut T,
    numbers: &mut N,
    output: &mut O,
    text: Vec<u8>,
)
    ensures { PassesOn T.writes T.finishes (holds turn.old numbers.old output.old) text.items
        (holds turn.new numbers.new output.new) }
{
    turn.write_text(output, &text);
    let mut room = u64::MAX;
    while let Some(left) = turn.finish(numbers) {
        turn.write_text(output, &left);
        match room.checked_sub(1) {
            Some(fewer) => room = fewer,
            None => return,
        }
    }
}
