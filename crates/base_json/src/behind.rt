//! What comes before an item of a list and after it, without the spaces.
ghost use Rattle.std.specs.Prelude.{◌≡◌, ◌+◌, ◌<◌, ◌≤◌, ◌∷◌, drop, length, slice_index, IfSome, IsTrue};
ghost use Rattle.std.specs.Str.{IsCharBoundary};
ghost use Rattle.json.specs.Token.{begin_array};
ghost use Rattle.json.specs.Lex.{between, after_value, lex, punctuate, tokens};

use crate::object_end::is_space;

/// The position after the bracket that begins the text and the spaces that follow it. None where the text does not begin as a
/// list does.
pub(crate) fn items_start(text: &str) -> Option<usize>
    ensures tokens { IfSome result (λ at. tokens text.now ≡ begin_array ∷ tokens (drop at text.now)) }
    ensures boundary { IfSome result (λ at. IsCharBoundary text.now at) }
{
    let bytes = text.as_bytes();
    let bracket = next_at(bytes, 0, b'[')?;
    let at = skip_spaces(bytes, bracket + 1);
    if text.is_char_boundary(at) {
        Some(at)
    } else {
        None
    }
}

/// The position at which the rest begins, after an item that ends at `end`: the bracket that ends the list, or the object that
/// follows a comma. None where neither follows.
pub(crate) fn left_behind(bytes: &[u8], end: usize) -> Option<usize>
    ensures tokens { IfSome result (λ at. punctuate after_value (lex between (drop end bytes.now)) ≡ tokens (drop at bytes.now)) }
    ensures within { IfSome result (λ at. at < length bytes.now) }
    ensures ascii { IfSome result (λ at. slice_index bytes.now at < 128) }
{
    if let Some(at) = next_at(bytes, end, b']') {
        return Some(at);
    }
    let comma = next_at(bytes, end, b',')?;
    next_at(bytes, comma + 1, b'{')
}

/// The position of the byte, if it is the first after spaces.
pub(crate) fn next_at(bytes: &[u8], from: usize, byte: u8) -> Option<usize>
    ensures lexemes { IfSome result (λ at. lex between (drop from bytes.now) ≡ lex between (drop at bytes.now)) }
    ensures within { IfSome result (λ at. at < length bytes.now) }
    ensures here { IfSome result (λ at. slice_index bytes.now at ≡ byte) }
{
    let at = skip_spaces(bytes, from);
    if is_at(bytes, at, byte) {
        Some(at)
    } else {
        None
    }
}

/// Whether the byte is at the position.
pub(crate) fn is_at(bytes: &[u8], at: usize, byte: u8) -> bool
    ensures within { IsTrue result → at < length bytes.now }
    ensures here { IsTrue result → slice_index bytes.now at ≡ byte }
{
    at < bytes.len() && bytes[at] == byte
}

/// The position of the first byte from `from` on that is not a space.
pub(crate) fn skip_spaces(bytes: &[u8], from: usize) -> usize
    ensures { lex between (drop from bytes.now) ≡ lex between (drop result bytes.now) }
{
    let mut at = from;
    while at < bytes.len() && is_space(bytes[at]) {
        at += 1;
    }
    at
}
