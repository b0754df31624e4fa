//! Members in the plain form, read from their bytes without tokens.
ghost use Rattle.std.specs.Prelude.{◌≡◌, ◌∷◌, ◌++◌, [], false, true, length, take, drop, IfSome, IsTrue};
ghost use Rattle.std.specs.List.{list_all};
ghost use Rattle.json.specs.Token.{end_object, key, string};
ghost use Rattle.json.specs.Lex.{after_value, begins_colon, between, lex, punctuate, token, tokens};
ghost use Rattle.base_json.specs.Quoted.{is_plain};

use crate::behind::skip_spaces;
use crate::quoted_text::QuotedText;

/// A member whose value is a string with a part in quotation marks at its end, for example `"principal": "User::\"ann\""`. Its key and
/// both parts are plain.
#[derive(Drop)]
pub(crate) struct QuotedMember<'t> {
    pub(crate) key: &'t str,
    pub(crate) value: QuotedText<'t>,
    /// The text after the member, and after the comma where there is one.
    pub(crate) rest: &'t str,
}

/// The member of this form that the text begins with, as if the brace of its object had been passed. None for another text, which may
/// still begin with a member.
pub(crate) fn quoted_member(text: &str) -> Option<QuotedMember<'_>>
    ensures { IfSome result (λ m. tokens text.now ≡ key m.key.now ∷ string m.value ∷ tokens m.rest.now) }
{
    let (key, after_key) = plain_string(past_spaces(text)?)?;
    let colon = past_spaces(after_key)?;
    let quote = past_spaces(after(colon, b':')?)?;
    let (value, after_value) = quoted_string(quote)?;
    let follows = past_spaces(after_value)?;
    let rest = past_comma(follows)?;
    Some(QuotedMember { key, value, rest })
}

/// Whether the text is the brace that closes an object, and spaces.
pub(crate) fn is_end(text: &str) -> bool
    ensures { IsTrue result → tokens text.now ≡ end_object ∷ [] }
{
    match after_object(text) {
        Some(rest) => rest.is_empty(),
        None => false,
    }
}

// What follows the brace that closes an object, and the spaces about it.
fn after_object(text: &str) -> Option<&str>
    ensures { IfSome result (λ rest. lex between text.now ≡ token end_object ∷ lex between rest.now) }
{
    let brace = past_spaces(text)?;
    let rest = past_spaces(after(brace, b'}')?)?;
    Some(rest)
}

/// What follows the byte that the text begins with.
pub(crate) fn after(text: &str, byte: u8) -> Option<&str>
    ensures { IfSome result (λ rest. text.now ≡ byte ∷ rest.now) }
{
    if text.as_bytes().first() != Some(&byte) {
        return None;
    }
    let (_, rest) = text.split_at_checked(1)?;
    Some(rest)
}

/// What follows the spaces that the text begins with. Mostly there are none, which its first byte shows.
#[inline(always)]
pub(crate) fn past_spaces(text: &str) -> Option<&str>
    ensures { IfSome result (λ rest. lex between text.now ≡ lex between rest.now) }
{
    if let Some(byte) = text.as_bytes().first()
        && *byte > b' '
    {
        return Some(text);
    }
    let (_, rest) = text.split_at_checked(skip_spaces(text.as_bytes(), 0))?;
    Some(rest)
}

// The string of plain bytes that the text begins with, and what follows it.
fn plain_string(text: &str) -> Option<(&str, &str)>
    ensures { IfSome result (λ found. lex between text.now ≡ token (string found.0.now) ∷ lex between found.1.now) }
{
    let (plain, rest) = plain_start(after(text, b'"')?)?;
    Some((plain, after(rest, b'"')?))
}

/// The string with a part in quotation marks that the text begins with, and what follows it.
pub(crate) fn quoted_string(text: &str) -> Option<(QuotedText<'_>, &str)>
    ensures { IfSome result (λ found. lex between text.now ≡ token (string found.0) ∷ lex between found.1.now) }
{
    let (before, rest) = plain_start(after(text, b'"')?)?;
    let (quoted, rest) = plain_start(after_escaped_quote(rest)?)?;
    let rest = after(after_escaped_quote(rest)?, b'"')?;
    Some((QuotedText::new(before, quoted), rest))
}

// What follows a quotation mark that is written with a backslash.
#[inline(always)]
fn after_escaped_quote(text: &str) -> Option<&str>
    ensures { IfSome result (λ rest. text.now ≡ 92 ∷ 34 ∷ rest.now) }
{
    after(after(text, b'\\')?, b'"')
}

/// The plain bytes that the text begins with, and what follows them.
pub(crate) fn plain_start(text: &str) -> Option<(&str, &str)>
    ensures whole { IfSome result (λ found. text.now ≡ found.0.now ++ found.1.now) }
    ensures plain { IfSome result (λ found. list_all is_plain found.0.now ≡ true) }
{
    text.split_at_checked(plain_length(text.as_bytes()))
}

// How many plain bytes come first: those that a string writes as themselves (RFC 8259, section 7). Two comparisons are enough for most.
fn plain_length(bytes: &[u8]) -> usize
    ensures { list_all is_plain (take result bytes.now) ≡ true }
{
    for (place, byte) in bytes.iter().enumerate() {
        if *byte > b'"' {
            if *byte == b'\\' {
                return place;
            }
        } else if *byte != b' ' && *byte != b'!' {
            return place;
        }
    }
    bytes.len()
}

/// After a value: the next member, whose key follows the comma, or the brace that closes the object.
#[inline(always)]
pub(crate) fn past_comma(text: &str) -> Option<&str>
    ensures value { IfSome result (λ rest. begins_colon (lex between text.now) ≡ false) }
    ensures rest { IfSome result (λ rest. punctuate after_value (lex between text.now) ≡ tokens rest.now) }
{
    if let Some(more) = after(text, b',') {
        let next = past_spaces(more)?;
        after(next, b'"')?;
        return Some(next);
    }
    after(text, b'}')?;
    Some(text)
}
