//! Declarations of entity types.
ghost use Rattle.std.specs.Prelude.{◌≡◌};
ghost use Rattle.serde_json.specs.View.{view, members_view};
ghost use Rattle.cedar_schema_text.specs.Grammar as spec;
ghost use Rattle.cedar_schema_text.specs.Private.Contract.{Reads, Leaves};

use crate::cursor::Cursor;
use crate::declaration::declare;
use crate::fault::SchemaTextFault;
use crate::lists::{read_ids, read_types};
use crate::names::read_names;
use crate::object::put;
use crate::schema_type::{read_record, read_type};
use crate::token_kind::TokenKind;
use serde_json::{Map, Value};
use std::alloc::Global;

/// Reads entity types after the word `entity`, with these annotations, and puts them among those found (Cedar documentation,
/// schema grammar: `Entity`).
#[tactic(auto, unfolding(crate::specs::Grammar::entities))]
pub(crate) fn read_entities(
    alloc: Global,
    tokens: &mut Cursor<'_>,
    notes: Map<String, Value>,
    found: &mut Map<String, Value>,
) -> Result<(), SchemaTextFault>
    ensures { Leaves (spec.entities (members_view notes.entries) (members_view found.old.entries) tokens.old)
        result (members_view found.new.entries) tokens.new }
{
    let mut body = notes;
    let names = read_names(alloc, false, tokens)?;
    read_entity_body(alloc, tokens, &mut body)?;
    declare(alloc, tokens, &names, body, found)
}

#[tactic(auto, unfolding(crate::specs::Grammar::entity_body))]
fn read_entity_body(
    alloc: Global,
    tokens: &mut Cursor<'_>,
    found: &mut Map<String, Value>,
) -> Result<(), SchemaTextFault>
    ensures { Leaves (spec.entity_body (members_view found.old.entries) tokens.old)
        result (members_view found.new.entries) tokens.new }
{
    if tokens.sees_word("enum") {
        tokens.skip();
        let ids = read_ids(alloc, tokens)?;
        put(alloc, found, "enum", ids)?;
        return Ok(());
    }
    read_parents(alloc, tokens, found)?;
    read_shape(alloc, tokens, found)?;
    read_tags(alloc, tokens, found)
}

#[tactic(auto, unfolding(crate::specs::Grammar::parents))]
fn read_parents(
    alloc: Global,
    tokens: &mut Cursor<'_>,
    found: &mut Map<String, Value>,
) -> Result<(), SchemaTextFault>
    ensures { Leaves (spec.parents (members_view found.old.entries) tokens.old)
        result (members_view found.new.entries) tokens.new }
{
    if tokens.sees_word("in") {
        tokens.skip();
        let types = read_types(alloc, tokens)?;
        put(alloc, found, "memberOfTypes", types)?;
    }
    Ok(())
}

#[tactic(auto, unfolding(crate::specs::Grammar::shape))]
fn read_shape(
    alloc: Global,
    tokens: &mut Cursor<'_>,
    found: &mut Map<String, Value>,
) -> Result<(), SchemaTextFault>
    ensures { Leaves (spec.shape (members_view found.old.entries) tokens.old) result (members_view found.new.entries) tokens.new }
{
    if tokens.sees(TokenKind::Equal) {
        tokens.skip();
        return put_shape(alloc, tokens, found);
    }
    if tokens.sees(TokenKind::LeftBrace) {
        return put_shape(alloc, tokens, found);
    }
    Ok(())
}

fn put_shape(
    alloc: Global,
    tokens: &mut Cursor<'_>,
    found: &mut Map<String, Value>,
) -> Result<(), SchemaTextFault>
    ensures { Leaves (spec.shape_at (members_view found.old.entries) tokens.old)
        result (members_view found.new.entries) tokens.new }
{
    let shape = read_record(alloc, tokens)?;
    put(alloc, found, "shape", shape)?;
    Ok(())
}

#[tactic(auto, unfolding(crate::specs::Grammar::tags))]
fn read_tags(
    alloc: Global,
    tokens: &mut Cursor<'_>,
    found: &mut Map<String, Value>,
) -> Result<(), SchemaTextFault>
    ensures { Leaves (spec.tags (members_view found.old.entries) tokens.old) result (members_view found.new.entries) tokens.new }
{
    if tokens.sees_word("tags") {
        tokens.skip();
        let ty = read_type(alloc, tokens)?;
        put(alloc, found, "tags", ty)?;
    }
    Ok(())
}
