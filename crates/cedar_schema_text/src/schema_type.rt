//! Types: names, sets and records.
ghost use Rattle.std.specs.Prelude.{◌≡◌, OnOk, length, string_bytes};
ghost use Rattle.serde_json.specs.Data.{no_members};
ghost use Rattle.serde_json.specs.View.{view, members_view};
ghost use Rattle.cedar_schema_text.specs.declared.token_kind.TokenKind.TheVariants as k;
ghost use Rattle.cedar_schema_text.specs.Grammar as spec;
ghost use Rattle.cedar_schema_text.specs.Reading.{items_from};
ghost use Rattle.cedar_schema_text.specs.Private.Contract.{Reads, Leaves};

use crate::annotation::read_annotations;
use crate::cursor::Cursor;
use crate::fault::SchemaTextFault;
use crate::names::{read_name, read_path};
use crate::object::{put, put_object, put_once, put_text};
use crate::token_kind::TokenKind;
use serde_json::{Map, Value};
use std::alloc::{AllocError, Global};

/// The most levels that a type has.
const LEVELS: usize = 100;

/// Reads a type (Cedar documentation, schema grammar: `Type`).
#[tactic(auto, unfolding(crate::specs::Grammar::any_type))]
pub(crate) fn read_type(alloc: Global, tokens: &mut Cursor<'_>) -> Result<Value, SchemaTextFault>
    ensures { Reads view (spec.any_type tokens.old) result tokens.new }
{
    let mut members = Map::new(alloc);
    read_type_onto(alloc, tokens, &mut members)?;
    Ok(Value::Object(members))
}

/// Reads a record (Cedar documentation, schema grammar: `Record`).
#[tactic(auto, unfolding(crate::specs::Grammar::record_type))]
pub(crate) fn read_record(alloc: Global, tokens: &mut Cursor<'_>) -> Result<Value, SchemaTextFault>
    ensures { Reads view (spec.record_type tokens.old) result tokens.new }
{
    if !tokens.sees(TokenKind::LeftBrace) {
        return Err(SchemaTextFault::Syntax(tokens.place()));
    }
    read_type(alloc, tokens)
}

/// Reads a name or a record, the type of a context (Cedar documentation, schema grammar: `App`).
#[tactic(auto, unfolding(crate::specs::Grammar::context))]
pub(crate) fn read_context(alloc: Global, tokens: &mut Cursor<'_>) -> Result<Value, SchemaTextFault>
    ensures { Reads view (spec.context tokens.old) result tokens.new }
{
    if tokens.sees(TokenKind::LeftBrace) {
        return read_type(alloc, tokens);
    }
    let name = read_path(alloc, tokens)?;
    let mut members = Map::new(alloc);
    put_named(alloc, &mut members, name.as_str())?;
    Ok(Value::Object(members))
}

/// Reads a type, and puts its members among those found (Cedar documentation, schema grammar: `Type`).
pub(crate) fn read_type_onto(
    alloc: Global,
    tokens: &mut Cursor<'_>,
    found: &mut Map<String, Value>,
) -> Result<(), SchemaTextFault>
    ensures { Leaves (spec.type_onto spec.levels (members_view found.old.entries) tokens.old)
        result (members_view found.new.entries) tokens.new }
{
    read_levels(alloc, tokens, LEVELS, found)
}

// The members of a type that is a name.
#[tactic(auto, unfolding(crate::specs::Grammar::named))]
fn put_named(alloc: Global, found: &mut Map<String, Value>, name: &str) -> Result<(), AllocError>
    ensures { OnOk result (members_view found.new.entries ≡ spec.named name.now (members_view found.old.entries)) }
{
    put_text(alloc, found, "type", "EntityOrCommon")?;
    put_text(alloc, found, "name", name)
}

// Reads a type of at most so many levels.
#[cycle(read_levels)]
#[tactic(auto, unfolding(crate::specs::Grammar::form_onto))]
fn read_levels(
    alloc: Global,
    tokens: &mut Cursor<'_>,
    levels: usize,
    found: &mut Map<String, Value>,
) -> Result<(), SchemaTextFault>
    ensures { Leaves (spec.type_onto levels (members_view found.old.entries) tokens.old)
        result (members_view found.new.entries) tokens.new }
{
    if levels == 0 {
        return Err(SchemaTextFault::Syntax(tokens.place()));
    }
    if tokens.sees(TokenKind::LeftBrace) {
        return read_record_onto(alloc, tokens, levels - 1, found);
    }
    read_named(alloc, tokens, levels - 1, found)
}

// Reads a type that begins with a path. A set's elements have at most so many levels.
#[cycle(read_levels)]
#[tactic(auto, unfolding(crate::specs::Grammar::name_onto))]
fn read_named(
    alloc: Global,
    tokens: &mut Cursor<'_>,
    levels: usize,
    found: &mut Map<String, Value>,
) -> Result<(), SchemaTextFault>
    ensures { Leaves (spec.name_onto (spec.type_onto levels) (members_view found.old.entries) tokens.old)
        result (members_view found.new.entries) tokens.new }
{
    let path = read_path(alloc, tokens)?;
    if path.as_str() == "Set" && tokens.sees(TokenKind::Less) {
        return read_set(alloc, tokens, levels, found);
    }
    put_named(alloc, found, path.as_str())?;
    Ok(())
}

// Reads what follows `Set`.
#[cycle(read_levels)]
#[tactic(auto, unfolding(crate::specs::Grammar::set_onto))]
fn read_set(
    alloc: Global,
    tokens: &mut Cursor<'_>,
    levels: usize,
    found: &mut Map<String, Value>,
) -> Result<(), SchemaTextFault>
    ensures { Leaves (spec.set_onto (spec.type_onto levels) (members_view found.old.entries) tokens.old)
        result (members_view found.new.entries) tokens.new }
{
    tokens.expect(TokenKind::Less)?;
    let mut element = Map::new(alloc);
    read_levels(alloc, tokens, levels, &mut element)?;
    tokens.expect(TokenKind::Greater)?;
    put_text(alloc, found, "type", "Set")?;
    put_object(alloc, found, "element", element)?;
    Ok(())
}

// Reads a record, and puts its members among those found.
#[cycle(read_levels)]
#[tactic(auto, unfolding(crate::specs::Grammar::record_onto))]
fn read_record_onto(
    alloc: Global,
    tokens: &mut Cursor<'_>,
    levels: usize,
    found: &mut Map<String, Value>,
) -> Result<(), SchemaTextFault>
    ensures { Leaves (spec.record_onto (spec.type_onto levels) (members_view found.old.entries) tokens.old)
        result (members_view found.new.entries) tokens.new }
{
    let mut attributes = Map::new(alloc);
    read_attributes(alloc, tokens, levels, &mut attributes)?;
    put_text(alloc, found, "type", "Record")?;
    put_object(alloc, found, "attributes", attributes)?;
    Ok(())
}

// Reads the attributes of a record with their braces, and puts them among those found.
#[cycle(read_levels)]
#[tactic(auto, unfolding(crate::specs::Grammar::attributes))]
fn read_attributes(
    alloc: Global,
    tokens: &mut Cursor<'_>,
    levels: usize,
    found: &mut Map<String, Value>,
) -> Result<(), SchemaTextFault>
    requires { members_view found.old.entries ≡ no_members }
    ensures { Leaves (spec.attributes (spec.type_onto levels) tokens.old) result (members_view found.new.entries) tokens.new }
{
    tokens.expect(TokenKind::LeftBrace)?;
    read_each_attribute(alloc, tokens, levels, found)
}

#[cycle(read_levels)]
#[tactic(auto, using(crate::proofs::Turns::one_left), unfolding(crate::specs::Reading::items_from))]
fn read_each_attribute(
    alloc: Global,
    tokens: &mut Cursor<'_>,
    levels: usize,
    found: &mut Map<String, Value>,
) -> Result<(), SchemaTextFault>
    ensures { Leaves (items_from (spec.attribute (spec.type_onto levels)) k.RightBrace
        (length tokens.old) (members_view found.old.entries) tokens.old)
        result (members_view found.new.entries) tokens.new }
{
    for _turn in 0..tokens.left() {
        if tokens.sees(TokenKind::RightBrace) {
            tokens.skip();
            return Ok(());
        }
        read_attribute(alloc, tokens, levels, found)?;
        if !tokens.sees(TokenKind::Comma) {
            tokens.expect(TokenKind::RightBrace)?;
            return Ok(());
        }
        tokens.skip();
    }
    Err(SchemaTextFault::Syntax(tokens.place()))
}

// Reads an attribute, and puts it among those found.
#[cycle(read_levels)]
#[tactic(auto, unfolding(crate::specs::Grammar::attribute))]
fn read_attribute(
    alloc: Global,
    tokens: &mut Cursor<'_>,
    levels: usize,
    found: &mut Map<String, Value>,
) -> Result<(), SchemaTextFault>
    ensures { Leaves (spec.attribute (spec.type_onto levels) (members_view found.old.entries) tokens.old)
        result (members_view found.new.entries) tokens.new }
{
    let mut members = read_annotations(alloc, tokens)?;
    let name = read_name(tokens)?;
    read_optional(alloc, tokens, &mut members)?;
    tokens.expect(TokenKind::Colon)?;
    read_levels(alloc, tokens, levels, &mut members)?;
    let value = Value::Object(members);
    put_once(alloc, found, name.text.as_str(), name.start, value)
}

// Reads whether an attribute may be missing.
#[tactic(auto, unfolding(crate::specs::Grammar::optional))]
fn read_optional(
    alloc: Global,
    tokens: &mut Cursor<'_>,
    found: &mut Map<String, Value>,
) -> Result<(), SchemaTextFault>
    ensures { Leaves (spec.optional (members_view found.old.entries) tokens.old)
        result (members_view found.new.entries) tokens.new }
{
    if tokens.sees(TokenKind::Question) {
        tokens.skip();
        put(alloc, found, "required", Value::Bool(false))?;
    }
    Ok(())
}
