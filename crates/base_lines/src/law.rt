//! What follows from the definitions alone.
ghost use Rattle.std.specs.Prelude.{ℕ, List};
ghost use Rattle.base_lines.specs.AnswerText.{BeginsAnswers, BeginsAnswerText};
ghost use Rattle.base_lines.specs.Lines.{lines_of};

use crate::engine::Engine;

/// Suppose that each line has an answer. Then a text that begins the answers of some first lines also begins an answer text of
/// the whole input. A law: it runs no code.
pub fn beginnings_go_on<E: Engine>()
    ensures { (engine : E) → ((line : List ℕ) → (answer : List ℕ) × E.answers engine line answer)
        → (input text : List ℕ) → BeginsAnswers (E.answers engine) (lines_of input) text
        → BeginsAnswerText (E.answers engine) input text }
{}
