//! Lists of types, of actions and of strings, each as an array.
ghost use Rattle.std.specs.Prelude.{◌≡◌, IfOk, OnOk, length, map, [], ◌∷◌, ◌++◌};
ghost use Rattle.serde_json.specs.Data.{array, object, string};
ghost use Rattle.serde_json.specs.View.{view, members_view, items_of};
ghost use Rattle.cedar_schema_text.specs.declared.token_kind.TokenKind.TheVariants as k;
ghost use Rattle.cedar_schema_text.specs.Grammar as spec;
ghost use Rattle.cedar_schema_text.specs.Reading.{items_from, items, some_items};
ghost use Rattle.cedar_schema_text.specs.Private.Contract.{Reads, Leaves};

use crate::cursor::Cursor;
use crate::fault::SchemaTextFault;
use crate::names::{read_name, read_path};
use crate::object::put_text;
use crate::token_kind::TokenKind;
use serde_json::{Map, Value};
use std::alloc::{AllocError, Global};

/// Reads the name of a type, or several in brackets (Cedar documentation, schema grammar: `Types`).
#[tactic(auto, unfolding(crate::specs::Grammar::types, crate::specs::Reading::one_or_more))]
pub(crate) fn read_types(alloc: Global, tokens: &mut Cursor<'_>) -> Result<Value, SchemaTextFault>
    ensures { Reads view (spec.types tokens.old) result tokens.new }
{
    let mut found = Vec::new(alloc);
    if tokens.sees(TokenKind::LeftBracket) {
        tokens.skip();
        read_type_names(alloc, tokens, &mut found)?;
    } else {
        read_type_name(alloc, tokens, &mut found)?;
    }
    Ok(Value::Array(found))
}

#[tactic(auto, using(crate::proofs::Turns::one_left), unfolding(crate::specs::Reading::items_from))]
fn read_type_names(
    alloc: Global,
    tokens: &mut Cursor<'_>,
    found: &mut Vec<Value>,
) -> Result<(), SchemaTextFault>
    ensures { Leaves (items spec.type_name k.RightBracket (map view found.old.items) tokens.old)
        result (map view found.new.items) tokens.new }
{
    for _turn in 0..tokens.left() {
        if tokens.sees(TokenKind::RightBracket) {
            tokens.skip();
            return Ok(());
        }
        read_type_name(alloc, tokens, found)?;
        if !tokens.sees(TokenKind::Comma) {
            tokens.expect(TokenKind::RightBracket)?;
            return Ok(());
        }
        tokens.skip();
    }
    Err(SchemaTextFault::Syntax(tokens.place()))
}

#[tactic(auto, unfolding(crate::specs::Grammar::type_name))]
fn read_type_name(
    alloc: Global,
    tokens: &mut Cursor<'_>,
    found: &mut Vec<Value>,
) -> Result<(), SchemaTextFault>
    ensures { Leaves (spec.type_name (map view found.old.items) tokens.old) result (map view found.new.items) tokens.new }
{
    let path = read_path(alloc, tokens)?;
    push_text(alloc, found, path.as_str())?;
    Ok(())
}

// Adds a string.
fn push_text(alloc: Global, found: &mut Vec<Value>, text: &str) -> Result<(), AllocError>
    ensures { OnOk result (map view found.new.items ≡ map view found.old.items ++ string text.now ∷ []) }
{
    let value = Value::try_from_str(alloc, text)?;
    push(found, value)
}

// Adds a value.
#[tactic(auto, using(crate::proofs::Grown::one_more_view))]
fn push(found: &mut Vec<Value>, value: Value) -> Result<(), AllocError>
    ensures { OnOk result (map view found.new.items ≡ map view found.old.items ++ view value ∷ []) }
{
    found.push(value)?;
    Ok(())
}

/// Reads an action, or several in brackets (Cedar documentation, schema grammar: `Action`).
#[tactic(auto, unfolding(crate::specs::Grammar::groups, crate::specs::Reading::one_or_more))]
pub(crate) fn read_groups(alloc: Global, tokens: &mut Cursor<'_>) -> Result<Value, SchemaTextFault>
    ensures { Reads view (spec.groups tokens.old) result tokens.new }
{
    let mut found = Vec::new(alloc);
    if tokens.sees(TokenKind::LeftBracket) {
        tokens.skip();
        read_each_group(alloc, tokens, &mut found)?;
    } else {
        read_group(alloc, tokens, &mut found)?;
    }
    Ok(Value::Array(found))
}

#[tactic(auto, using(crate::proofs::Turns::one_left), unfolding(crate::specs::Reading::items_from))]
fn read_each_group(
    alloc: Global,
    tokens: &mut Cursor<'_>,
    found: &mut Vec<Value>,
) -> Result<(), SchemaTextFault>
    ensures { Leaves (items spec.group k.RightBracket (map view found.old.items) tokens.old)
        result (map view found.new.items) tokens.new }
{
    for _turn in 0..tokens.left() {
        if tokens.sees(TokenKind::RightBracket) {
            tokens.skip();
            return Ok(());
        }
        read_group(alloc, tokens, found)?;
        if !tokens.sees(TokenKind::Comma) {
            tokens.expect(TokenKind::RightBracket)?;
            return Ok(());
        }
        tokens.skip();
    }
    Err(SchemaTextFault::Syntax(tokens.place()))
}

#[tactic(auto, unfolding(crate::specs::Grammar::group))]
fn read_group(
    alloc: Global,
    tokens: &mut Cursor<'_>,
    found: &mut Vec<Value>,
) -> Result<(), SchemaTextFault>
    ensures { Leaves (spec.group (map view found.old.items) tokens.old) result (map view found.new.items) tokens.new }
{
    let members = read_action_ref(alloc, tokens)?;
    push(found, Value::Object(members))?;
    Ok(())
}

#[tactic(auto, unfolding(crate::specs::Grammar::action_ref))]
fn read_action_ref(
    alloc: Global,
    tokens: &mut Cursor<'_>,
) -> Result<Map<String, Value>, SchemaTextFault>
    ensures { Reads (λ m. members_view m.entries) (spec.action_ref tokens.old) result tokens.new }
{
    if tokens.sees_second(TokenKind::DoubleColon) {
        return read_typed_action(alloc, tokens);
    }
    let name = read_name(tokens)?;
    Ok(with_id(alloc, name.text.as_str())?)
}

#[tactic(auto, unfolding(crate::specs::Grammar::typed_action))]
fn read_typed_action(
    alloc: Global,
    tokens: &mut Cursor<'_>,
) -> Result<Map<String, Value>, SchemaTextFault>
    ensures { Reads (λ m. members_view m.entries) (spec.typed_action tokens.old) result tokens.new }
{
    let ty = read_path(alloc, tokens)?;
    tokens.expect(TokenKind::DoubleColon)?;
    let id = tokens.expect(TokenKind::String)?;
    let mut members = with_id(alloc, id.text.as_str())?;
    put_text(alloc, &mut members, "type", ty.as_str())?;
    Ok(members)
}

// The member `id` alone.
fn with_id(alloc: Global, id: &str) -> Result<Map<String, Value>, AllocError>
    ensures { IfOk result (λ m. members_view m.entries ≡ spec.with_id id.now) }
{
    let mut members = Map::new(alloc);
    put_text(alloc, &mut members, "id", id)?;
    Ok(members)
}

/// Reads the ids of an enumeration (Cedar documentation, schema grammar: `Entity`; Cedar RFC 53).
#[tactic(auto, unfolding(crate::specs::Grammar::ids))]
pub(crate) fn read_ids(alloc: Global, tokens: &mut Cursor<'_>) -> Result<Value, SchemaTextFault>
    ensures { Reads view (spec.ids tokens.old) result tokens.new }
{
    tokens.expect(TokenKind::LeftBracket)?;
    let mut found = Vec::new(alloc);
    read_some_ids(alloc, tokens, &mut found)?;
    Ok(Value::Array(found))
}

#[tactic(auto, unfolding(crate::specs::Reading::some_items))]
fn read_some_ids(
    alloc: Global,
    tokens: &mut Cursor<'_>,
    found: &mut Vec<Value>,
) -> Result<(), SchemaTextFault>
    ensures { Leaves (some_items spec.text k.RightBracket (map view found.old.items) tokens.old)
        result (map view found.new.items) tokens.new }
{
    if tokens.sees(TokenKind::RightBracket) {
        return Err(SchemaTextFault::Syntax(tokens.place()));
    }
    read_each_id(alloc, tokens, found)
}

#[tactic(auto, using(crate::proofs::Turns::one_left), unfolding(crate::specs::Reading::items_from))]
fn read_each_id(
    alloc: Global,
    tokens: &mut Cursor<'_>,
    found: &mut Vec<Value>,
) -> Result<(), SchemaTextFault>
    ensures { Leaves (items spec.text k.RightBracket (map view found.old.items) tokens.old)
        result (map view found.new.items) tokens.new }
{
    for _turn in 0..tokens.left() {
        if tokens.sees(TokenKind::RightBracket) {
            tokens.skip();
            return Ok(());
        }
        read_id(alloc, tokens, found)?;
        if !tokens.sees(TokenKind::Comma) {
            tokens.expect(TokenKind::RightBracket)?;
            return Ok(());
        }
        tokens.skip();
    }
    Err(SchemaTextFault::Syntax(tokens.place()))
}

#[tactic(auto, unfolding(crate::specs::Grammar::text))]
fn read_id(
    alloc: Global,
    tokens: &mut Cursor<'_>,
    found: &mut Vec<Value>,
) -> Result<(), SchemaTextFault>
    ensures { Leaves (spec.text (map view found.old.items) tokens.old) result (map view found.new.items) tokens.new }
{
    let id = tokens.expect(TokenKind::String)?;
    push_text(alloc, found, id.text.as_str())?;
    Ok(())
}
