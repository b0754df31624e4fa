//! Declarations, namespaces and whole schemas.
ghost use Rattle.std.specs.Prelude.{◌≡◌, length, IfOk};
ghost use Rattle.serde_json.specs.Data.{no_members};
ghost use Rattle.serde_json.specs.View.{view, members_view};
ghost use Rattle.cedar_schema_text.specs.Marks.{lent_marks};
ghost use Rattle.cedar_schema_text.specs.Grammar as spec;
ghost use Rattle.cedar_schema_text.specs.Objects.{sections_of};
ghost use Rattle.cedar_schema_text.specs.Private.Contract.{Reads, Leaves};
ghost use Rattle.cedar_schema_text.specs.Private.SpacesView.{spaces_of};

use crate::action::read_actions;
use crate::annotation::read_annotations;
use crate::cursor::Cursor;
use crate::entity::read_entities;
use crate::fault::SchemaTextFault;
use crate::names::read_path;
use crate::object::{put_each, put_object, put_once};
use crate::schema_type::read_type_onto;
use crate::space::Space;
use crate::token::Token;
use crate::token_kind::TokenKind;
use serde_json::{Map, Value};
use std::alloc::{AllocError, Global};

/// Reads the end of a declaration, and puts what it declares at each of its names among those found.
#[tactic(auto, unfolding(crate::specs::Grammar::declare))]
pub(crate) fn declare(
    alloc: Global,
    tokens: &mut Cursor<'_>,
    names: &[&Token],
    body: Map<String, Value>,
    found: &mut Map<String, Value>,
) -> Result<(), SchemaTextFault>
    ensures { Leaves (spec.declare (lent_marks names.now) (members_view body.entries) (members_view found.old.entries) tokens.old)
        result (members_view found.new.entries) tokens.new }
{
    tokens.expect(TokenKind::Semicolon)?;
    put_each(alloc, found, names, &Value::Object(body))
}

#[tactic(auto, unfolding(crate::specs::Grammar::common_type))]
fn read_common_type(
    alloc: Global,
    tokens: &mut Cursor<'_>,
    notes: Map<String, Value>,
    found: &mut Map<String, Value>,
) -> Result<(), SchemaTextFault>
    ensures { Leaves (spec.common_type (members_view notes.entries) (members_view found.old.entries) tokens.old)
        result (members_view found.new.entries) tokens.new }
{
    let mut body = notes;
    let name = tokens.expect(TokenKind::Word)?;
    tokens.expect(TokenKind::Equal)?;
    read_type_onto(alloc, tokens, &mut body)?;
    declare(alloc, tokens, &[name], body, found)
}

// Reads a declaration after its annotations, and puts it into its section.
#[tactic(auto, unfolding(crate::specs::Grammar::declaration))]
fn read_declaration(
    alloc: Global,
    tokens: &mut Cursor<'_>,
    notes: Map<String, Value>,
    space: &mut Space,
) -> Result<(), SchemaTextFault>
    ensures { Leaves (spec.declaration (members_view notes.entries) (sections_of space.old) tokens.old)
        result (sections_of space.new) tokens.new }
{
    if tokens.sees_word("entity") {
        tokens.skip();
        return read_entities(alloc, tokens, notes, &mut space.entities);
    }
    if tokens.sees_word("action") {
        tokens.skip();
        return read_actions(alloc, tokens, notes, &mut space.actions);
    }
    if tokens.sees_word("type") {
        tokens.skip();
        return read_common_type(alloc, tokens, notes, &mut space.commons);
    }
    Err(SchemaTextFault::Syntax(tokens.place()))
}

// Reads the declarations of a namespace, up to its brace.
#[tactic(auto, using(crate::proofs::Turns::one_left), unfolding(crate::specs::Grammar::declarations_from))]
fn read_declarations(
    alloc: Global,
    tokens: &mut Cursor<'_>,
    space: &mut Space,
) -> Result<(), SchemaTextFault>
    ensures { Leaves (spec.declarations_from (length tokens.old) (sections_of space.old) tokens.old)
        result (sections_of space.new) tokens.new }
{
    for _turn in 0..tokens.left() {
        if tokens.sees(TokenKind::RightBrace) {
            tokens.skip();
            return Ok(());
        }
        let notes = read_annotations(alloc, tokens)?;
        read_declaration(alloc, tokens, notes, space)?;
    }
    Err(SchemaTextFault::Syntax(tokens.place()))
}

// Reads a namespace after its word, with these annotations, and puts it among those found.
#[tactic(auto, unfolding(crate::specs::Grammar::namespace))]
fn read_namespace(
    alloc: Global,
    tokens: &mut Cursor<'_>,
    notes: Map<String, Value>,
    found: &mut Map<String, Value>,
) -> Result<(), SchemaTextFault>
    ensures { Leaves (spec.namespace (members_view notes.entries) (members_view found.old.entries) tokens.old)
        result (members_view found.new.entries) tokens.new }
{
    let at = tokens.place();
    let name = read_path(alloc, tokens)?;
    tokens.expect(TokenKind::LeftBrace)?;
    let mut space = Space::new(alloc);
    read_declarations(alloc, tokens, &mut space)?;
    let object = space.into_object(alloc, notes)?;
    put_once(alloc, found, name.as_str(), at, Value::Object(object))
}

/// What was read of a schema: what is declared outside of namespaces, and the namespaces.
#[derive(Drop)]
pub(crate) struct Spaces {
    bare: Space,
    named: Map<String, Value>,
}

// Reads a namespace, or a declaration outside of one, after its annotations.
#[tactic(auto, unfolding(crate::specs::Grammar::part))]
fn read_part(
    alloc: Global,
    tokens: &mut Cursor<'_>,
    notes: Map<String, Value>,
    found: &mut Spaces,
) -> Result<(), SchemaTextFault>
    ensures { Leaves (spec.part (members_view notes.entries) (spaces_of found.old) tokens.old)
        result (spaces_of found.new) tokens.new }
{
    if tokens.sees_word("namespace") {
        tokens.skip();
        return read_namespace(alloc, tokens, notes, &mut found.named);
    }
    read_declaration(alloc, tokens, notes, &mut found.bare)
}

// Reads the parts of a schema, up to the end of its text.
#[tactic(auto, using(crate::proofs::Turns::one_left), unfolding(crate::specs::Grammar::parts_from))]
fn read_parts(
    alloc: Global,
    tokens: &mut Cursor<'_>,
    found: &mut Spaces,
) -> Result<(), SchemaTextFault>
    ensures { Leaves (spec.parts_from (length tokens.old) (spaces_of found.old) tokens.old)
        result (spaces_of found.new) tokens.new }
{
    for _turn in 0..tokens.left() {
        if tokens.sees(TokenKind::End) {
            return Ok(());
        }
        let notes = read_annotations(alloc, tokens)?;
        read_part(alloc, tokens, notes, found)?;
    }
    Err(SchemaTextFault::Syntax(tokens.place()))
}

// The object of namespaces.
#[tactic(auto, unfolding(crate::specs::Grammar::root_of))]
fn root_of(alloc: Global, found: Spaces) -> Result<Map<String, Value>, AllocError>
    ensures { IfOk result (λ m. members_view m.entries ≡ spec.root_of (spaces_of found)) }
{
    let Spaces { bare, mut named } = found;
    if !bare.is_bare() {
        let object = bare.into_object(alloc, Map::new(alloc))?;
        put_object(alloc, &mut named, "", object)?;
    }
    Ok(named)
}

/// Reads a schema (Cedar documentation, schema grammar: `Schema`).
#[tactic(auto, unfolding(crate::specs::Grammar::schema))]
pub(crate) fn read_schema(alloc: Global, tokens: &mut Cursor<'_>) -> Result<Value, SchemaTextFault>
    ensures { Reads view (spec.schema tokens.old) result tokens.new }
{
    let mut found = Spaces {
        bare: Space::new(alloc),
        named: Map::new(alloc),
    };
    read_parts(alloc, tokens, &mut found)?;
    Ok(Value::Object(root_of(alloc, found)?))
}
