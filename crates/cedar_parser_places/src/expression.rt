//! The tokens of the parts of an expression.
use crate::part::{Chain, First, Part, Tested, part_at};
use crate::stretch::{Marked, Stretch};
use crate::token_list::TokenList;
use cedar_parser_tokens::Content;
use cedar_parser_tree::{AttributePath, Link, Series, Written, WrittenKind};
use cedar_text::TokenKind;

/// The tokens of the part of an expression at a path.
pub fn marked_in_expression(
    tokens: &TokenList<'_>,
    expression: &Written,
    path: &[usize],
) -> Option<Marked> {
    marked_part(tokens, part_at(expression, path)?)
}

/// The position of the first token of an expression, which is not the first operand of a chain of attributes and methods. An `if` has
/// no span. It begins one token before its first part, and so does what begins with `!` or `-`.
pub fn first_token(tokens: &TokenList<'_>, written: &Written) -> Option<usize> {
    match written.kind() {
        WrittenKind::If(condition, _, _) => first_token(tokens, condition)?.checked_sub(1),
        WrittenKind::Not(operand) => first_token(tokens, operand)?.checked_sub(1),
        WrittenKind::Negated(operand) => first_token(tokens, operand)?.checked_sub(1),
        WrittenKind::Negative(digits, _) => tokens.position(*digits)?.checked_sub(1),
        _ => tokens.position(written.span().start),
    }
}

/// The position of the last token of an expression.
pub fn last_token(tokens: &TokenList<'_>, written: &Written) -> Option<usize> {
    match written.kind() {
        WrittenKind::If(_, _, if_false) => last_token(tokens, if_false),
        WrittenKind::Not(operand) => last_token(tokens, operand),
        WrittenKind::Negated(operand) => last_token(tokens, operand),
        WrittenKind::Negative(digits, _) => tokens.position(*digits),
        _ => tokens.position(written.span().last),
    }
}

fn tokens_of(tokens: &TokenList<'_>, written: &Written) -> Option<Stretch> {
    from_to(tokens, written, written)
}

// The tokens from the first one of an expression to the last one of another.
fn from_to(tokens: &TokenList<'_>, from: &Written, to: &Written) -> Option<Stretch> {
    Some(Stretch {
        first: first_token(tokens, from)?,
        last: last_token(tokens, to)?,
    })
}

// The sign right before an operand.
fn sign_before(tokens: &TokenList<'_>, operand: &Written) -> Option<Stretch> {
    let position = first_token(tokens, operand)?.checked_sub(1)?;
    Some(Stretch::one(position))
}

// The token that begins at a byte.
fn token_at(tokens: &TokenList<'_>, start: usize) -> Option<Stretch> {
    Some(Stretch::one(tokens.position(start)?))
}

// The tokens of a part.
fn marked_part(tokens: &TokenList<'_>, part: Part<'_>) -> Option<Marked> {
    match part {
        Part::Whole(written) => marked_whole(tokens, written, tokens_of(tokens, written)?),
        Part::Chain(chain) => marked_chain(tokens, chain),
        Part::First(first) => marked_first(tokens, first),
        Part::Pair(left, right) => Some(Marked {
            whole: from_to(tokens, left, right)?,
            name: sign_before(tokens, right)?,
        }),
        Part::Is(operand) => marked_is(tokens, operand),
        Part::Tests(tested) => Some(Marked::nameless(tokens_up_to(tokens, tested)?)),
        Part::Test(tested) => marked_attribute(tokens, tested),
        Part::Read(tested) => marked_attribute(tokens, tested),
    }
}

// An expression of these tokens.
fn marked_whole(tokens: &TokenList<'_>, written: &Written, whole: Stretch) -> Option<Marked> {
    let name = name_of(tokens, written, whole)?;
    Some(Marked { whole, name })
}

// The first operand of a chain of attributes and methods ends two tokens before the name of its first link, with `.` or `[` between.
fn marked_first(tokens: &TokenList<'_>, first: First<'_>) -> Option<Marked> {
    let whole = Stretch {
        first: tokens.position(first.start)?,
        last: tokens.position(first.name)?.checked_sub(2)?,
    };
    marked_whole(tokens, first.operand, whole)
}

// What gives an expression of these tokens its name.
fn name_of(tokens: &TokenList<'_>, written: &Written, whole: Stretch) -> Option<Stretch> {
    match written.kind() {
        WrittenKind::Group(inside) => name_of(tokens, inside, tokens_of(tokens, inside)?),
        WrittenKind::Not(_) | WrittenKind::Negated(_) | WrittenKind::If(_, _, _) => {
            Some(Stretch::one(whole.first))
        }
        WrittenKind::Relation(_, _, right) => sign_before(tokens, right),
        WrittenKind::Has(_, path) => name_of_has(tokens, path, whole),
        WrittenKind::Like(operand, _) => {
            Some(Stretch::one(last_token(tokens, operand)?.checked_add(1)?))
        }
        WrittenKind::Is(operand, _) => type_after(tokens, operand),
        WrittenKind::Chain(_, links) => name_of_link(tokens, links.last()?),
        WrittenKind::Call(start, _, _) => Some(tokens.path(tokens.position(*start)?)),
        _ => Some(whole),
    }
}

// The attribute; with a path, which joins tests, the whole.
fn name_of_has(tokens: &TokenList<'_>, path: &AttributePath, whole: Stretch) -> Option<Stretch> {
    if path.more().is_empty() {
        return token_at(tokens, path.first().place());
    }
    Some(whole)
}

// The type after an operand and `is`.
fn type_after(tokens: &TokenList<'_>, operand: &Written) -> Option<Stretch> {
    let first = last_token(tokens, operand)?.checked_add(2)?;
    Some(tokens.path(first))
}

// `x is T` of `x is T in e`.
fn marked_is(tokens: &TokenList<'_>, operand: &Written) -> Option<Marked> {
    let name = type_after(tokens, operand)?;
    let whole = Stretch {
        first: first_token(tokens, operand)?,
        last: name.last,
    };
    Some(Marked { whole, name })
}

// From the operand of `x has a.b.c` to an attribute. Each further attribute is two tokens after the one before.
fn tokens_up_to(tokens: &TokenList<'_>, tested: Tested<'_>) -> Option<Stretch> {
    let further = tested.position.checked_mul(2)?;
    Some(Stretch {
        first: first_token(tokens, tested.operand)?,
        last: tokens.position(tested.start)?.checked_add(further)?,
    })
}

fn marked_attribute(tokens: &TokenList<'_>, tested: Tested<'_>) -> Option<Marked> {
    let whole = tokens_up_to(tokens, tested)?;
    let name = Stretch::one(whole.last);
    Some(Marked { whole, name })
}

// A chain up to the last of its links here.
fn marked_chain(tokens: &TokenList<'_>, chain: Chain<'_>) -> Option<Marked> {
    let last = chain.links.last()?;
    let whole = Stretch {
        first: tokens.position(chain.start)?,
        last: last_of_link(tokens, last)?,
    };
    let name = name_of_link(tokens, last)?;
    Some(Marked { whole, name })
}

// The sign, the attribute or the method.
fn name_of_link(tokens: &TokenList<'_>, link: &Link) -> Option<Stretch> {
    match link {
        Link::Operand(_, operand) => sign_before(tokens, operand),
        Link::Attribute(key) => token_at(tokens, key.place()),
        Link::Method(word, _) => token_at(tokens, word.place()),
    }
}

// The position of the last token of a link.
fn last_of_link(tokens: &TokenList<'_>, link: &Link) -> Option<usize> {
    match link {
        Link::Operand(_, operand) => last_token(tokens, operand),
        Link::Attribute(key) => last_of_attribute(tokens, key),
        Link::Method(word, arguments) => last_of_call(tokens, word.place(), arguments),
    }
}

// A bracket closes `["a"]` after its string. The word of `.a` is the last token.
fn last_of_attribute(tokens: &TokenList<'_>, key: &Content) -> Option<usize> {
    let position = tokens.position(key.place())?;
    if tokens.sees(position, TokenKind::String) {
        return position.checked_add(1);
    }
    Some(position)
}

// The bracket that closes the arguments of a method: one token after the last of them, or two after the name.
fn last_of_call(tokens: &TokenList<'_>, start: usize, arguments: &Series) -> Option<usize> {
    match arguments.items().last() {
        Some(argument) => last_token(tokens, argument)?.checked_add(1),
        None => tokens.position(start)?.checked_add(2),
    }
}
