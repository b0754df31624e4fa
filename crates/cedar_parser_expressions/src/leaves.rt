//! The parsers of what has no expression in brackets inside: literals, variables, slots, uids, and what follows `has` and `like`.
ghost use Rattle.std.specs.Prelude.{◌≡◌};
ghost use Rattle.cedar_parser_expressions.specs.Reading as spec;
ghost use Rattle.cedar_parser_tokens.specs.Contract.{Reads};
ghost use Rattle.cedar_parser_expressions.specs.Private.Boxed.{ReadsBoxed};
ghost use Rattle.cedar_parser_expressions.specs.Private.Plain.{plain, of_uid};

use crate::attribute_path::parse_attribute_path;
use crate::constructors::{boxed, has, like};
use crate::lookup::{slot_of, variable_of};
use cedar_ext::Pattern;
use cedar_parser_tokens::{Cursor, ParseFault, Spelled, parse_entity_of_type, parse_string};
use cedar_parser_tree::{Span, Written, WrittenKind};
use cedar_text::TokenKind;
use cedar_value::Name;
use std::alloc::Global;

/// Parses what follows `has`.
#[tactic(auto, unfolding(crate::specs::Reading::asked))]
#[inline(never)]
pub fn parse_has(
    alloc: Global,
    tokens: &mut Cursor<'_>,
    start: usize,
    left: Box<Written>,
) -> Result<Box<Written>, ParseFault>
    ensures { ReadsBoxed (spec.asked left.value tokens.old) result tokens.new }
{
    match parse_attribute_path(alloc, tokens) {
        Ok(path) => Ok(has(alloc, left, path, span_from(start, tokens))?),
        Err(fault) => {
            drop(left);
            Err(fault)
        }
    }
}

/// Parses what follows `like`.
#[tactic(auto, unfolding(crate::specs::Reading::matched))]
#[inline(never)]
pub fn parse_like(
    alloc: Global,
    tokens: &mut Cursor<'_>,
    start: usize,
    left: Box<Written>,
) -> Result<Box<Written>, ParseFault>
    ensures { ReadsBoxed (spec.matched left.value tokens.old) result tokens.new }
{
    match parse_pattern(alloc, tokens) {
        Ok(pattern) => Ok(like(alloc, left, pattern, span_from(start, tokens))?),
        Err(fault) => {
            drop(left);
            Err(fault)
        }
    }
}

// Parses a pattern.
#[tactic(auto, unfolding(crate::specs::Reading::pattern))]
fn parse_pattern(alloc: Global, tokens: &mut Cursor<'_>) -> Result<Pattern, ParseFault>
    ensures { Reads (spec.pattern tokens.old) result tokens.new }
{
    let token = tokens.expect(TokenKind::String)?;
    Ok(token.pattern(alloc)?)
}

/// Whether an access to the member before it begins here.
pub fn begins_access(tokens: &Cursor<'_>) -> bool
    ensures { result ≡ spec.has_suffix tokens.now }
{
    tokens.sees(TokenKind::Dot) || tokens.sees(TokenKind::LeftBracket)
}

/// Whether a path begins here, and not a lone word.
pub fn begins_path(tokens: &Cursor<'_>) -> bool
    ensures { result ≡ spec.begins_path tokens.now }
{
    tokens.sees_second(TokenKind::DoubleColon) || tokens.sees_second(TokenKind::LeftParen)
}

/// Parses a uid after its type.
#[tactic(auto, unfolding(crate::specs::Private::Plain::of_uid))]
#[inline(never)]
pub fn parse_entity(
    alloc: Global,
    tokens: &mut Cursor<'_>,
    start: usize,
    ty: Name,
) -> Result<Box<Written>, ParseFault>
    ensures { ReadsBoxed (of_uid ty tokens.old) result tokens.new }
{
    let uid = parse_entity_of_type(alloc, ty, tokens)?;
    Ok(boxed(alloc, WrittenKind::Entity(uid), span_from(start, tokens))?)
}

/// Parses a word that names a part of the request. Another word may begin a path, so the fault is after it.
#[tactic(auto, unfolding(crate::specs::Reading::variable))]
#[inline(never)]
pub fn parse_variable(alloc: Global, tokens: &mut Cursor<'_>) -> Result<Box<Written>, ParseFault>
    ensures { ReadsBoxed (spec.variable tokens.old) result tokens.new }
{
    let word = tokens.expect(TokenKind::Identifier)?;
    let Some(name) = variable_of(word.text()) else {
        return Err(ParseFault::Syntax(tokens.offset()));
    };
    Ok(boxed(alloc, WrittenKind::Variable(name), at(word))?)
}

/// Parses a truth, a number, a string or a slot.
#[tactic(auto, unfolding(crate::specs::Private::Plain::plain, cedar_parser_tokens::specs::Reading::first))]
#[inline(never)]
pub fn parse_plain(alloc: Global, tokens: &mut Cursor<'_>) -> Result<Box<Written>, ParseFault>
    ensures { ReadsBoxed (plain tokens.old) result tokens.new }
{
    let Some(token) = tokens.peek() else {
        return Err(ParseFault::Syntax(tokens.offset()));
    };
    match token.kind() {
        TokenKind::True => {
            tokens.skip();
            Ok(boxed(alloc, WrittenKind::Truth(true), at(token))?)
        }
        TokenKind::False => {
            tokens.skip();
            Ok(boxed(alloc, WrittenKind::Truth(false), at(token))?)
        }
        TokenKind::Number => {
            tokens.skip();
            let kind = WrittenKind::Number(token.start(), token.number());
            Ok(boxed(alloc, kind, at(token))?)
        }
        TokenKind::String => {
            let content = parse_string(alloc, tokens)?;
            Ok(boxed(alloc, WrittenKind::Text(content), at(token))?)
        }
        TokenKind::Slot => parse_slot(alloc, tokens),
        _ => Err(ParseFault::Syntax(token.start())),
    }
}

// Parses `?principal` or `?resource`.
#[tactic(auto, unfolding(crate::specs::Reading::slot))]
fn parse_slot(alloc: Global, tokens: &mut Cursor<'_>) -> Result<Box<Written>, ParseFault>
    ensures { ReadsBoxed (spec.slot tokens.old) result tokens.new }
{
    let token = tokens.expect(TokenKind::Slot)?;
    let Some(name) = slot_of(token.text()) else {
        return Err(ParseFault::Syntax(token.start()));
    };
    let kind = WrittenKind::Slot(token.start(), name);
    Ok(boxed(alloc, kind, at(token))?)
}

/// The place of what begins there and ends with the token that was taken last.
pub fn span_from(start: usize, tokens: &Cursor<'_>) -> Span {
    Span {
        start,
        last: tokens.taken(),
    }
}

// The place of one token.
fn at(token: Spelled<'_>) -> Span {
    Span {
        start: token.start(),
        last: token.start(),
    }
}
