//! Numbers without a fraction and an exponent, read from their bytes.
ghost use Rattle.std.specs.Prelude.{◌≡◌, ◌∷◌, ◌+◌, ◌≤◌, take, drop, length, true, Some, IfSome, IsTrue};
ghost use Rattle.std.specs.Char.{is_ascii_digit};
ghost use Rattle.std.specs.List.{list_all};
ghost use Rattle.json.specs.Lex.{between, lex, token};
ghost use Rattle.json.specs.Token.{number};
ghost use Rattle.json.specs.Word.{ends_word};
ghost use Rattle.base_json.specs.Private.Plain.{is_integer, is_whole};
ghost use Rattle.serde_json.specs.Read.{number_of};
ghost use Rattle.serde_json.specs.View.{number_view};

use crate::number::number_of;
use crate::object_end::is_space;
use serde_json::Number;

/// A number that is written as digits, perhaps after a minus sign (RFC 8259, section 6).
#[derive(Drop)]
pub(crate) struct PlainInteger<'t> {
    pub(crate) written: &'t str,
    pub(crate) number: Number,
}

/// The number of this form at a place. None for another number.
pub(crate) fn integer_at(text: &str, at: usize) -> Option<PlainInteger<'_>>
    ensures written { IfSome result (λ i. lex between (drop at text.now) ≡ token (number i.written.now) ∷ lex between (drop (at + length i.written.now) text.now)) }
    ensures number { IfSome result (λ i. number_of i.written.now ≡ Some (number_view i.number)) }
{
    let (_, left) = text.split_at_checked(at)?;
    let (written, rest) = left.split_at_checked(integer_length(left.as_bytes())?)?;
    if !ends_word(rest.as_bytes()) {
        return None;
    }
    let number = number_of(written)?;
    Some(PlainInteger { written, number })
}

// How many bytes a number of this form has.
fn integer_length(bytes: &[u8]) -> Option<usize>
    ensures integer { IfSome result (λ n. is_integer (take n bytes.now) ≡ true) }
    ensures within { IfSome result (λ n. n ≤ length bytes.now) }
{
    match bytes.split_first() {
        Some((b'-', digits)) => Some(whole_length(digits)? + 1),
        _ => whole_length(bytes),
    }
}

// How many digits a number has, of which the first is zero only where there are no others.
fn whole_length(bytes: &[u8]) -> Option<usize>
    ensures whole { IfSome result (λ n. is_whole (take n bytes.now) ≡ true) }
    ensures within { IfSome result (λ n. n ≤ length bytes.now) }
{
    let (first, others) = bytes.split_first()?;
    if !first.is_ascii_digit() {
        return None;
    }
    let more = digits_length(others);
    if *first == b'0' && more > 0 {
        return None;
    }
    Some(more + 1)
}

// How many digits come first.
fn digits_length(bytes: &[u8]) -> usize
    ensures digits { list_all is_ascii_digit (take result bytes.now) ≡ true }
    ensures within { result ≤ length bytes.now }
{
    for (place, byte) in bytes.iter().enumerate() {
        if !byte.is_ascii_digit() {
            return place;
        }
    }
    bytes.len()
}

/// Whether a word ends before the bytes: at a comma, a closing bracket or brace, or a space.
pub(crate) fn ends_word(bytes: &[u8]) -> bool
    ensures { IsTrue result → ends_word bytes.now ≡ true }
{
    match bytes.first() {
        Some(byte) => *byte == b',' || *byte == b'}' || *byte == b']' || is_space(*byte),
        None => true,
    }
}
