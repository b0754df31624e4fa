//! Annotations.
ghost use Rattle.std.specs.Prelude.{◌≡◌, IfOk, length};
ghost use Rattle.serde_json.specs.View.{members_view};
ghost use Rattle.cedar_schema_text.specs.Grammar as spec;
ghost use Rattle.cedar_schema_text.specs.Objects.{noted};
ghost use Rattle.cedar_schema_text.specs.Private.Contract.{Reads, Leaves};

use crate::cursor::Cursor;
use crate::fault::SchemaTextFault;
use crate::object::{is_nothing, put_object, put_once};
use crate::token_kind::TokenKind;
use serde_json::{Map, Value};
use std::alloc::{AllocError, Global};

/// Reads annotations, and begins an object that has them (Cedar documentation, schema grammar: `Annots`).
#[tactic(auto, unfolding(crate::specs::Grammar::annotations))]
pub(crate) fn read_annotations(
    alloc: Global,
    tokens: &mut Cursor<'_>,
) -> Result<Map<String, Value>, SchemaTextFault>
    ensures { Reads (λ m. members_view m.entries) (spec.annotations tokens.old) result tokens.new }
{
    let mut notes = Map::new(alloc);
    read_each_annotation(alloc, tokens, &mut notes)?;
    Ok(begin_noted(alloc, notes)?)
}

// Puts annotations among those found.
#[tactic(auto, using(crate::proofs::Turns::one_left), unfolding(crate::specs::Grammar::annotations_from))]
fn read_each_annotation(
    alloc: Global,
    tokens: &mut Cursor<'_>,
    found: &mut Map<String, Value>,
) -> Result<(), SchemaTextFault>
    ensures { Leaves (spec.annotations_from (length tokens.old) (members_view found.old.entries) tokens.old)
        result (members_view found.new.entries) tokens.new }
{
    for _turn in 0..tokens.left() {
        if !tokens.sees(TokenKind::At) {
            return Ok(());
        }
        read_annotation(alloc, tokens, found)?;
    }
    Ok(())
}

#[tactic(auto, unfolding(crate::specs::Grammar::annotation))]
fn read_annotation(
    alloc: Global,
    tokens: &mut Cursor<'_>,
    found: &mut Map<String, Value>,
) -> Result<(), SchemaTextFault>
    ensures { Leaves (spec.annotation (members_view found.old.entries) tokens.old)
        result (members_view found.new.entries) tokens.new }
{
    tokens.expect(TokenKind::At)?;
    let key = tokens.expect(TokenKind::Word)?;
    let text = read_annotation_value(tokens)?;
    let value = Value::try_from_str(alloc, text)?;
    put_once(alloc, found, key.text.as_str(), key.start, value)
}

#[tactic(auto, unfolding(crate::specs::Grammar::annotation_value))]
fn read_annotation_value<'t>(tokens: &mut Cursor<'t>) -> Result<&'t str, SchemaTextFault>
    ensures { Reads (λ t. t.now) (spec.annotation_value tokens.old) result tokens.new }
{
    if !tokens.sees(TokenKind::LeftParen) {
        return Ok("");
    }
    tokens.skip();
    let value = tokens.expect(TokenKind::String)?;
    tokens.expect(TokenKind::RightParen)?;
    Ok(value.text.as_str())
}

// An object with these annotations, if there are some.
#[tactic(auto, unfolding(crate::specs::Objects::noted))]
fn begin_noted(alloc: Global, notes: Map<String, Value>) -> Result<Map<String, Value>, AllocError>
    ensures { IfOk result (λ m. members_view m.entries ≡ noted (members_view notes.entries)) }
{
    let mut found = Map::new(alloc);
    if !is_nothing(&notes) {
        put_object(alloc, &mut found, "annotations", notes)?;
    }
    Ok(found)
}
