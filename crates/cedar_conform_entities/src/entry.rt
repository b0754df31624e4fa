//! One entry of a list of entities.
ghost use Rattle.std.specs.Prelude.{IfNone, IfOk, IfSome, MatchResult, codes};
ghost use Rattle.serde_json.specs.View.{view};
ghost use Rattle.cedar_conform_values.specs.Reads.{ReadsRecord};
ghost use Rattle.cedar_conform_values.specs.Values.{value_read};
ghost use Rattle.cedar_conform_entities.specs.Denotes.{IsAccepted, ReadsEntity};
ghost use Rattle.cedar_conform_entities.specs.Entries.{IsActionName, Writes, attributes_in};
ghost use Rattle.cedar_conform_entities.specs.Faults.{HasEntryFault};
ghost use Rattle.cedar_conform_entities.specs.Private.Parts.{IsEntry, RefusesEntry};
ghost use Rattle.cedar_schema_spec.specs.WellFormed.{IsOrderedRecord};

use crate::judging::{is_action_name, judge_parents, repeats_action};
use crate::listed::is_listed;
use crate::written::{WrittenEntity, read_written};
use cedar_conform_values::{ConformFault, read_record};
use cedar_schema::Schema;
use cedar_schema_types::{Type, TypeKind};
use cedar_store::Entity;
use cedar_value::{Record, Uid};
use serde_json::{Map, Value as Json};
use std::alloc::{AllocError, Global};

/// What an entry denotes.
#[derive(Drop)]
pub(crate) enum Entry {
    /// An entity of a declared type.
    Entity(Entity),
    /// An action, as the schema has it, by its uid.
    Action(Uid),
}

/// Why an entry of a list of entities is refused for a schema, 502 to 509; or none where it denotes an entity or repeats an action.
/// It serves to find the entry for which `read_entities` refuses a list.
///
/// # Errors
///
/// Fails only when out of memory.
pub fn entry_fault(
    alloc: Global,
    schema: &Schema,
    entry: &Json,
) -> Result<Option<ConformFault>, AllocError>
    ensures fault { IfOk result (λ found. IfSome found (HasEntryFault schema.now (view entry.now))) }
    ensures none { IfOk result (λ found. IfNone found (IsAccepted schema.now (view entry.now))) }
{
    match read_entry(alloc, schema, entry) {
        Ok(read) => {
            drop(read);
            Ok(None)
        }
        Err(ConformFault::OutOfMemory) => Err(AllocError),
        Err(fault) => Ok(Some(fault)),
    }
}

/// What the entry denotes for the schema, or one of its faults: 502 to 509.
pub(crate) fn read_entry(alloc: Global, schema: &Schema, json: &Json) -> Result<Entry, ConformFault>
    ensures { MatchResult result (IsEntry schema.now (view json.now)) (RefusesEntry schema.now (view json.now)) }
{
    let written = read_written(alloc, schema, json)?;
    if is_action_name(&written.uid.ty) {
        if !repeats_action(schema, json, &written) {
            return Err(ConformFault::ActionDiffers);
        }
        return Ok(Entry::Action(written.uid));
    }
    let entity = read_entity(alloc, schema, json, written)?;
    if is_listed(schema, &entity) {
        return Ok(Entry::Entity(entity));
    }
    drop(entity);
    Err(ConformFault::UnknownType)
}

// What the entry reads as, whichever ids enumerated types have.
fn read_entity(
    alloc: Global,
    schema: &Schema,
    json: &Json,
    written: WrittenEntity,
) -> Result<Entity, ConformFault>
    requires written { Writes (view json.now) written.uid written.parents.items }
    requires entity { ¬ IsActionName written.uid.ty }
    ensures { MatchResult result (ReadsEntity schema.now (view json.now)) (RefusesEntry schema.now (view json.now)) }
{
    let Some(shape) = schema.attributes(&written.uid.ty) else {
        return Err(ConformFault::UnknownType);
    };
    judge_parents(schema, &written.uid, &written.parents)?;
    // The shape of each entity type of a schema is an ordered record type.
    schema.well_formedness();
    let attrs = read_attributes(alloc, shape, json)?;
    Ok(Entity {
        uid: written.uid,
        attrs,
        parents: written.parents,
    })
}

// The attributes at their key, read for the shape of the type. None where the key is absent.
fn read_attributes(alloc: Global, shape: &Type, json: &Json) -> Result<Record, ConformFault>
    requires { IsOrderedRecord shape.now }
    ensures { ReadsRecord result (value_read shape.now (attributes_in (view json.now))) }
{
    match json.get("attrs") {
        Some(found) => read_shape(alloc, shape, found),
        None => {
            let empty = Json::Object(Map::new(alloc));
            read_shape(alloc, shape, &empty)
        }
    }
}

fn read_shape(alloc: Global, shape: &Type, json: &Json) -> Result<Record, ConformFault>
    requires { IsOrderedRecord shape.now }
    ensures { ReadsRecord result (value_read shape.now (view json.now)) }
{
    match shape.kind() {
        TypeKind::Record(attributes) => read_record(alloc, attributes, json),
        _ => unreachable!(),
    }
}
