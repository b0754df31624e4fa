//! Strings, numbers and truths in the plain form, read from their bytes without tokens.
ghost use Rattle.std.specs.Prelude.{◌≡◌, ◌∷◌, ◌++◌, ℕ, List, drop, true, IfSome};
ghost use Rattle.json.specs.Lex.{between, lex, token};
ghost use Rattle.json.specs.Token.{string};
ghost use Rattle.json.specs.Word.{ends_word};
ghost use Rattle.base_json.specs.LentObjects.{part_view};
ghost use Rattle.base_json.specs.Private.Plain.{ReadsValue};

use crate::lent_object::LentPart;
use crate::plain_integer::{ends_word, integer_at};
use crate::quoted_member::{after, plain_start};
use crate::three_quoted::past_text;
use serde_json::Value;

/// The value at a place where it is a string, a number or a truth in the plain form, and the place after it. None for another value.
pub(crate) fn scalar_at(text: &str, at: usize) -> Option<(LentPart<'_>, usize)>
    ensures { IfSome result (λ found. ReadsValue 0 text.now at (part_view found.0) found.1) }
{
    match text.as_bytes().get(at)? {
        b'"' => {
            let (string, end) = string_at(text, at)?;
            Some((LentPart::Text(string), end))
        }
        b't' => {
            let end = word_at(text, at, "true")?;
            Some((LentPart::Other(Value::Bool(true)), end))
        }
        b'f' => {
            let end = word_at(text, at, "false")?;
            Some((LentPart::Other(Value::Bool(false)), end))
        }
        _ => {
            let integer = integer_at(text, at)?;
            let end = at + integer.written.len();
            Some((LentPart::Other(Value::Number(integer.number)), end))
        }
    }
}

/// The string of plain bytes at a place, and the place after it.
pub(crate) fn string_at(text: &str, at: usize) -> Option<(&str, usize)>
    ensures { IfSome result (λ found. lex between (drop at text.now) ≡ token (string found.0.now) ∷ lex between (drop found.1 text.now)) }
{
    let (_, left) = text.split_at_checked(at)?;
    let (plain, rest) = plain_start(after(left, b'"')?)?;
    after(rest, b'"')?;
    Some((plain, at + plain.len() + 2))
}

// The place after a word.
fn word_at(text: &str, at: usize, word: &str) -> Option<usize>
    ensures { IfSome result (λ end. (rest : List ℕ) × (drop at text.now ≡ word.now ++ rest) × (ends_word rest ≡ true) × (drop end text.now ≡ rest)) }
{
    let (_, left) = text.split_at_checked(at)?;
    let rest = past_text(left, word)?;
    if !ends_word(rest.as_bytes()) {
        return None;
    }
    Some(at + word.len())
}
