//! Declarations of actions.
ghost use Rattle.std.specs.Prelude.{◌≡◌, codes};
ghost use Rattle.serde_json.specs.Data.{no_members};
ghost use Rattle.serde_json.specs.View.{view, members_view};
ghost use Rattle.cedar_schema_text.specs.declared.token_kind.TokenKind.TheVariants as k;
ghost use Rattle.cedar_schema_text.specs.Grammar as spec;
ghost use Rattle.cedar_schema_text.specs.Reading.{items, some_items};
ghost use Rattle.cedar_schema_text.specs.Private.Contract.{Reads, Leaves};

use crate::cursor::Cursor;
use crate::declaration::declare;
use crate::fault::SchemaTextFault;
use crate::lists::{read_groups, read_types};
use crate::names::read_names;
use crate::object::{put, put_once};
use crate::schema_type::read_context;
use crate::token_kind::TokenKind;
use serde_json::{Map, Value};
use std::alloc::Global;

/// Reads actions after the word `action`, with these annotations, and puts them among those found (Cedar documentation, schema
/// grammar: `Action`).
#[tactic(auto, unfolding(crate::specs::Grammar::actions))]
pub(crate) fn read_actions(
    alloc: Global,
    tokens: &mut Cursor<'_>,
    notes: Map<String, Value>,
    found: &mut Map<String, Value>,
) -> Result<(), SchemaTextFault>
    ensures { Leaves (spec.actions (members_view notes.entries) (members_view found.old.entries) tokens.old)
        result (members_view found.new.entries) tokens.new }
{
    let mut body = notes;
    let names = read_names(alloc, true, tokens)?;
    read_action_body(alloc, tokens, &mut body)?;
    declare(alloc, tokens, &names, body, found)
}

#[tactic(auto, unfolding(crate::specs::Grammar::action_body))]
fn read_action_body(
    alloc: Global,
    tokens: &mut Cursor<'_>,
    found: &mut Map<String, Value>,
) -> Result<(), SchemaTextFault>
    ensures { Leaves (spec.action_body (members_view found.old.entries) tokens.old)
        result (members_view found.new.entries) tokens.new }
{
    read_members(alloc, tokens, found)?;
    read_scope(alloc, tokens, found)?;
    read_extras(alloc, tokens, found)
}

#[tactic(auto, unfolding(crate::specs::Grammar::members))]
fn read_members(
    alloc: Global,
    tokens: &mut Cursor<'_>,
    found: &mut Map<String, Value>,
) -> Result<(), SchemaTextFault>
    ensures { Leaves (spec.members (members_view found.old.entries) tokens.old)
        result (members_view found.new.entries) tokens.new }
{
    if tokens.sees_word("in") {
        tokens.skip();
        let groups = read_groups(alloc, tokens)?;
        put(alloc, found, "memberOf", groups)?;
    }
    Ok(())
}

#[tactic(auto, unfolding(crate::specs::Grammar::scope))]
fn read_scope(
    alloc: Global,
    tokens: &mut Cursor<'_>,
    found: &mut Map<String, Value>,
) -> Result<(), SchemaTextFault>
    ensures { Leaves (spec.scope (members_view found.old.entries) tokens.old) result (members_view found.new.entries) tokens.new }
{
    if tokens.sees_word("appliesTo") {
        tokens.skip();
        let applied = read_applied(alloc, tokens)?;
        put(alloc, found, "appliesTo", applied)?;
    }
    Ok(())
}

#[tactic(auto, unfolding(crate::specs::Grammar::extras))]
fn read_extras(
    alloc: Global,
    tokens: &mut Cursor<'_>,
    found: &mut Map<String, Value>,
) -> Result<(), SchemaTextFault>
    ensures { Leaves (spec.extras (members_view found.old.entries) tokens.old)
        result (members_view found.new.entries) tokens.new }
{
    if tokens.sees_word("attributes") {
        tokens.skip();
        let attributes = read_no_attributes(alloc, tokens)?;
        put(alloc, found, "attributes", attributes)?;
    }
    Ok(())
}

#[tactic(auto, unfolding(crate::specs::Grammar::no_attributes))]
fn read_no_attributes(alloc: Global, tokens: &mut Cursor<'_>) -> Result<Value, SchemaTextFault>
    ensures { Reads view (spec.no_attributes tokens.old) result tokens.new }
{
    tokens.expect(TokenKind::LeftBrace)?;
    tokens.expect(TokenKind::RightBrace)?;
    Ok(Value::Object(Map::new(alloc)))
}

#[tactic(auto, unfolding(crate::specs::Grammar::applied))]
fn read_applied(alloc: Global, tokens: &mut Cursor<'_>) -> Result<Value, SchemaTextFault>
    ensures { Reads view (spec.applied tokens.old) result tokens.new }
{
    tokens.expect(TokenKind::LeftBrace)?;
    let mut members = Map::new(alloc);
    read_some_applies(alloc, tokens, &mut members)?;
    Ok(Value::Object(members))
}

#[tactic(auto, unfolding(crate::specs::Reading::some_items))]
fn read_some_applies(
    alloc: Global,
    tokens: &mut Cursor<'_>,
    found: &mut Map<String, Value>,
) -> Result<(), SchemaTextFault>
    ensures { Leaves (some_items spec.applies k.RightBrace (members_view found.old.entries) tokens.old)
        result (members_view found.new.entries) tokens.new }
{
    if tokens.sees(TokenKind::RightBrace) {
        return Err(SchemaTextFault::Syntax(tokens.place()));
    }
    read_each_applies(alloc, tokens, found)
}

#[tactic(auto, using(crate::proofs::Turns::one_left), unfolding(crate::specs::Reading::items_from))]
fn read_each_applies(
    alloc: Global,
    tokens: &mut Cursor<'_>,
    found: &mut Map<String, Value>,
) -> Result<(), SchemaTextFault>
    ensures { Leaves (items spec.applies k.RightBrace (members_view found.old.entries) tokens.old)
        result (members_view found.new.entries) tokens.new }
{
    for _turn in 0..tokens.left() {
        if tokens.sees(TokenKind::RightBrace) {
            tokens.skip();
            return Ok(());
        }
        read_applies(alloc, tokens, found)?;
        if !tokens.sees(TokenKind::Comma) {
            tokens.expect(TokenKind::RightBrace)?;
            return Ok(());
        }
        tokens.skip();
    }
    Err(SchemaTextFault::Syntax(tokens.place()))
}

#[tactic(auto, unfolding(crate::specs::Grammar::applies, crate::specs::Grammar::applies_at))]
fn read_applies(
    alloc: Global,
    tokens: &mut Cursor<'_>,
    found: &mut Map<String, Value>,
) -> Result<(), SchemaTextFault>
    ensures { Leaves (spec.applies (members_view found.old.entries) tokens.old)
        result (members_view found.new.entries) tokens.new }
{
    if tokens.sees_word("principal") {
        return read_applies_types(alloc, tokens, "principalTypes", found);
    }
    if tokens.sees_word("resource") {
        return read_applies_types(alloc, tokens, "resourceTypes", found);
    }
    if tokens.sees_word("context") {
        return read_applies_context(alloc, tokens, found);
    }
    Err(SchemaTextFault::Syntax(tokens.place()))
}

#[tactic(auto, unfolding(crate::specs::Grammar::applies_at))]
fn read_applies_types(
    alloc: Global,
    tokens: &mut Cursor<'_>,
    key: &str,
    found: &mut Map<String, Value>,
) -> Result<(), SchemaTextFault>
    ensures { Leaves (spec.applies_at key.now spec.types (members_view found.old.entries) tokens.old)
        result (members_view found.new.entries) tokens.new }
{
    let at = tokens.place();
    tokens.skip();
    tokens.expect(TokenKind::Colon)?;
    let types = read_types(alloc, tokens)?;
    put_once(alloc, found, key, at, types)
}

#[tactic(auto, unfolding(crate::specs::Grammar::applies_at))]
fn read_applies_context(
    alloc: Global,
    tokens: &mut Cursor<'_>,
    found: &mut Map<String, Value>,
) -> Result<(), SchemaTextFault>
    ensures { Leaves (spec.applies_at (codes "context") spec.context (members_view found.old.entries) tokens.old)
        result (members_view found.new.entries) tokens.new }
{
    let at = tokens.place();
    tokens.skip();
    tokens.expect(TokenKind::Colon)?;
    let context = read_context(alloc, tokens)?;
    put_once(alloc, found, "context", at, context)
}
