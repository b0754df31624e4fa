//! Three members in the plain form, whose keys are known before they are read.
ghost use Rattle.std.specs.Prelude.{◌≡◌, ◌∷◌, ◌++◌, true, IfSome};
ghost use Rattle.std.specs.List.{list_all};
ghost use Rattle.json.specs.Token.{key, string};
ghost use Rattle.json.specs.Lex.{between, lex, token, tokens};
ghost use Rattle.base_json.specs.Quoted.{is_plain};

use crate::quoted_member::{after, past_comma, past_spaces, quoted_string};
use crate::quoted_text::QuotedText;

/// The values of three members. Each is a string with a part in quotation marks at its end, for example `User::"ann"`.
#[derive(Drop)]
pub struct ThreeQuoted<'t> {
    /// The value of the first member.
    pub first: QuotedText<'t>,
    /// The value of the second.
    pub second: QuotedText<'t>,
    /// The value of the third.
    pub third: QuotedText<'t>,
}

/// The values of three members with these keys, in this order and in the form of [`quoted_member`], that the text begins with, as if the
/// brace of their object had been passed, and the text after them. None for another text, which may still begin with members.
///
/// [`quoted_member`]: crate::quoted_member::quoted_member
#[inline(always)]
pub(crate) fn three_members<'t>(
    text: &'t str,
    first: &str,
    second: &str,
    third: &str,
) -> Option<(ThreeQuoted<'t>, &'t str)>
    requires first { list_all is_plain first.now ≡ true }
    requires second { list_all is_plain second.now ≡ true }
    requires third { list_all is_plain third.now ≡ true }
    ensures { IfSome result (λ found. tokens text.now ≡ key first.now ∷ string found.0.first ∷ key second.now ∷ string found.0.second
        ∷ key third.now ∷ string found.0.third ∷ tokens found.1.now) }
{
    let (one, after_one) = quoted_value(text, first)?;
    let (two, after_two) = quoted_value(after_one, second)?;
    let (three, after_three) = quoted_value(after_two, third)?;
    let values = ThreeQuoted {
        first: one,
        second: two,
        third: three,
    };
    Some((values, after_three))
}

// The value of the member with this key that the text begins with, and the text after the member and its comma.
#[inline(always)]
fn quoted_value<'t>(text: &'t str, wanted: &str) -> Option<(QuotedText<'t>, &'t str)>
    requires { list_all is_plain wanted.now ≡ true }
    ensures { IfSome result (λ found. tokens text.now ≡ key wanted.now ∷ string found.0 ∷ tokens found.1.now) }
{
    let after_key = past_key(past_spaces(text)?, wanted)?;
    let colon = past_spaces(after_key)?;
    let quote = past_spaces(after(colon, b':')?)?;
    let (value, after_value) = quoted_string(quote)?;
    let follows = past_spaces(after_value)?;
    let rest = past_comma(follows)?;
    Some((value, rest))
}

// What follows the key in quotation marks that the text begins with.
#[inline(always)]
fn past_key<'t>(text: &'t str, wanted: &str) -> Option<&'t str>
    requires { list_all is_plain wanted.now ≡ true }
    ensures { IfSome result (λ rest. lex between text.now ≡ token (string wanted.now) ∷ lex between rest.now) }
{
    let closed = past_text(after(text, b'"')?, wanted)?;
    let rest = after(closed, b'"')?;
    Some(rest)
}

/// What follows the text that the other text begins with.
#[inline(always)]
pub(crate) fn past_text<'t>(text: &'t str, wanted: &str) -> Option<&'t str>
    ensures { IfSome result (λ rest. text.now ≡ wanted.now ++ rest.now) }
{
    let (begun, rest) = text.split_at_checked(wanted.len())?;
    if begun == wanted { Some(rest) } else { None }
}
