//! The parser of scopes.
ghost use Rattle.std.specs.Prelude.{◌≡◌};
ghost use Rattle.cedar_text.specs.declared.token_kind.TokenKind.TheVariants as kind;
ghost use Rattle.cedar_parser_expressions.specs.Reading as reading;
ghost use Rattle.cedar_parser_statements.specs.StatementReading as spec;
ghost use Rattle.cedar_parser_tokens.specs.Contract.{Reads, ReadsItems};

use cedar_ast::{ActionScope, EntityScope, Scope, Uids};
use cedar_parser_expressions::slot_of;
use cedar_parser_tokens::{Cursor, ParseFault, WrittenUid, parse_entity, parse_path};
use cedar_parser_tree::{Reference, WrittenActionScope, WrittenEntityScope, WrittenScope};
use cedar_text::TokenKind;
use std::alloc::Global;

/// Parses a scope with its round brackets (Cedar language reference, grammar: scope).
#[tactic(auto, unfolding(crate::specs::StatementReading::scope))]
pub fn parse_scope(alloc: Global, tokens: &mut Cursor<'_>) -> Result<WrittenScope, ParseFault>
    ensures { Reads (spec.scope tokens.old) result tokens.new }
{
    tokens.expect(TokenKind::LeftParen)?;
    let principal = parse_principal_or_resource(alloc, tokens, "principal")?;
    match tokens.expect(TokenKind::Comma) {
        Ok(_) => parse_scope_from_action(alloc, tokens, principal),
        Err(fault) => {
            drop(principal);
            Err(fault)
        }
    }
}

// Parses the scope from its action on.
#[tactic(auto, unfolding(crate::specs::StatementReading::behind_principal))]
fn parse_scope_from_action(
    alloc: Global,
    tokens: &mut Cursor<'_>,
    principal: WrittenEntityScope,
) -> Result<WrittenScope, ParseFault>
    ensures { Reads (spec.behind_principal principal tokens.old) result tokens.new }
{
    match parse_action(alloc, tokens) {
        Ok(action) => parse_scope_from_resource(alloc, tokens, principal, action),
        Err(fault) => {
            drop(principal);
            Err(fault)
        }
    }
}

// Parses the scope after its action.
#[tactic(auto, unfolding(crate::specs::StatementReading::behind_action))]
fn parse_scope_from_resource(
    alloc: Global,
    tokens: &mut Cursor<'_>,
    principal: WrittenEntityScope,
    action: WrittenActionScope,
) -> Result<WrittenScope, ParseFault>
    ensures { Reads (spec.behind_action principal action tokens.old) result tokens.new }
{
    match parse_resource(alloc, tokens) {
        Ok(resource) => Ok(Scope {
            principal,
            action,
            resource,
        }),
        Err(fault) => {
            drop(principal);
            drop(action);
            Err(fault)
        }
    }
}

// Parses a comma, the resource, and the bracket that closes the scope.
#[tactic(auto, unfolding(crate::specs::StatementReading::resource))]
fn parse_resource(alloc: Global, tokens: &mut Cursor<'_>) -> Result<WrittenEntityScope, ParseFault>
    ensures { Reads (spec.resource tokens.old) result tokens.new }
{
    tokens.expect(TokenKind::Comma)?;
    let resource = parse_principal_or_resource(alloc, tokens, "resource")?;
    match tokens.expect(TokenKind::RightParen) {
        Ok(_) => Ok(resource),
        Err(fault) => {
            drop(resource);
            Err(fault)
        }
    }
}

#[tactic(auto, unfolding(crate::specs::StatementReading::principal_or_resource))]
fn parse_principal_or_resource(
    alloc: Global,
    tokens: &mut Cursor<'_>,
    name: &str,
) -> Result<WrittenEntityScope, ParseFault>
    ensures { Reads (spec.principal_or_resource name.now tokens.old) result tokens.new }
{
    expect_word(tokens, name)?;
    parse_entity_scope(alloc, tokens)
}

// Parses what follows the variable.
#[tactic(auto, unfolding(crate::specs::StatementReading::asked))]
fn parse_entity_scope(
    alloc: Global,
    tokens: &mut Cursor<'_>,
) -> Result<WrittenEntityScope, ParseFault>
    ensures { Reads (spec.asked tokens.old) result tokens.new }
{
    if tokens.sees(TokenKind::Equal) {
        tokens.skip();
        let reference = parse_reference(alloc, tokens)?;
        return Ok(EntityScope::Equal(reference));
    }
    if tokens.sees(TokenKind::In) {
        tokens.skip();
        let reference = parse_reference(alloc, tokens)?;
        return Ok(EntityScope::In(reference));
    }
    if tokens.sees(TokenKind::Is) {
        tokens.skip();
        return parse_is(alloc, tokens);
    }
    Ok(EntityScope::Any)
}

// Parses what follows `is`.
#[tactic(auto, unfolding(crate::specs::StatementReading::typed))]
fn parse_is(alloc: Global, tokens: &mut Cursor<'_>) -> Result<WrittenEntityScope, ParseFault>
    ensures { Reads (spec.typed tokens.old) result tokens.new }
{
    let ty = parse_path(alloc, tokens)?;
    tokens.pass_colons();
    if tokens.sees(TokenKind::In) {
        tokens.skip();
        let reference = parse_reference(alloc, tokens)?;
        return Ok(EntityScope::IsIn(ty, reference));
    }
    Ok(EntityScope::Is(ty))
}

// Parses an entity or a slot.
#[tactic(auto, unfolding(crate::specs::StatementReading::referred))]
fn parse_reference(alloc: Global, tokens: &mut Cursor<'_>) -> Result<Reference, ParseFault>
    ensures { Reads (spec.referred tokens.old) result tokens.new }
{
    if tokens.sees(TokenKind::Slot) {
        return parse_slot(tokens);
    }
    let uid = parse_entity(alloc, tokens)?;
    Ok(Reference::Entity(uid))
}

#[tactic(auto, unfolding(crate::specs::StatementReading::slot))]
fn parse_slot(tokens: &mut Cursor<'_>) -> Result<Reference, ParseFault>
    ensures { Reads (spec.slot tokens.old) result tokens.new }
{
    let token = tokens.expect(TokenKind::Slot)?;
    let Some(variable) = slot_of(token.text()) else {
        return Err(ParseFault::Syntax(token.start()));
    };
    Ok(Reference::Slot(token.start(), variable))
}

#[tactic(auto, unfolding(crate::specs::StatementReading::action))]
fn parse_action(alloc: Global, tokens: &mut Cursor<'_>) -> Result<WrittenActionScope, ParseFault>
    ensures { Reads (spec.action tokens.old) result tokens.new }
{
    expect_word(tokens, "action")?;
    if tokens.sees(TokenKind::Equal) {
        tokens.skip();
        let uid = parse_entity(alloc, tokens)?;
        return Ok(ActionScope::Equal(uid));
    }
    if tokens.sees(TokenKind::In) {
        tokens.skip();
        return parse_action_in(alloc, tokens);
    }
    Ok(ActionScope::Any)
}

// Parses what follows `in`: an entity, or several in square brackets.
#[tactic(auto, unfolding(crate::specs::StatementReading::entities))]
fn parse_action_in(alloc: Global, tokens: &mut Cursor<'_>) -> Result<WrittenActionScope, ParseFault>
    ensures { Reads (spec.entities tokens.old) result tokens.new }
{
    if tokens.sees(TokenKind::LeftBracket) {
        tokens.skip();
        let list = parse_entity_list(alloc, tokens)?;
        return Ok(ActionScope::InSet(Uids::new(list)));
    }
    let uid = parse_entity(alloc, tokens)?;
    Ok(ActionScope::In(uid))
}

// Parses entities with commas between them, and the bracket that closes them.
#[tactic(auto, unfolding(cedar_parser_expressions::specs::Reading::arguments))]
fn parse_entity_list(alloc: Global, tokens: &mut Cursor<'_>) -> Result<Vec<WrittenUid>, ParseFault>
    ensures { ReadsItems (reading.arguments reading.entity kind.RightBracket tokens.old) result tokens.new }
{
    if tokens.sees(TokenKind::RightBracket) {
        tokens.skip();
        return Ok(Vec::new(alloc));
    }
    let found = parse_entities(alloc, tokens)?;
    tokens.expect(TokenKind::RightBracket)?;
    Ok(found)
}

#[tactic(auto, using(cedar_parser_tokens::proofs::Turns::one_left), unfolding(cedar_parser_expressions::specs::Reading::series_from))]
fn parse_entities(alloc: Global, tokens: &mut Cursor<'_>) -> Result<Vec<WrittenUid>, ParseFault>
    ensures { ReadsItems (reading.series reading.entity tokens.old) result tokens.new }
{
    let mut found = Vec::new(alloc);
    let first = parse_entity(alloc, tokens)?;
    found.push(first)?;
    for _turn in 0..tokens.left() {
        if !tokens.sees(TokenKind::Comma) {
            return Ok(found);
        }
        tokens.skip();
        let uid = parse_entity(alloc, tokens)?;
        found.push(uid)?;
    }
    Ok(found)
}

// Takes the word `name`.
#[tactic(auto, unfolding(crate::specs::StatementReading::word))]
fn expect_word(tokens: &mut Cursor<'_>, name: &str) -> Result<(), ParseFault>
    ensures { Reads (spec.word name.now tokens.old) result tokens.new }
{
    let found = tokens.expect(TokenKind::Identifier)?;
    if found.text() != name {
        return Err(ParseFault::Syntax(found.start()));
    }
    Ok(())
}
