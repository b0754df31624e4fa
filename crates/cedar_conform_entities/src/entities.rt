//! Entities from their JSON.
ghost use Rattle.std.specs.Prelude.{◌≡◌, ◌≢◌, IfErr, IfOk, MatchResult, None, OnOk, option_and_then};
ghost use Rattle.serde_json.specs.Find.{as_array};
ghost use Rattle.cedar_conform_values.specs.declared.conform_fault.ConformFault.TheVariants.{OutOfMemory};
ghost use Rattle.cedar_conform_entities.specs.Bytes.{BytesDenote, BytesHaveFault};
ghost use Rattle.cedar_conform_entities.specs.Private.Parts.{HasStoreFault};
ghost use Rattle.cedar_conform_entities.specs.Private.Progress.{AreRead};
ghost use Rattle.base_json.specs.JsonTree.{json_of};
ghost use Rattle.cedar_schema_spec.specs.Conformance.{Conforms};
ghost use Rattle.cedar_schema_spec.specs.Declarations.{action_entities as declared_actions};
ghost use Rattle.cedar_store.specs.Entities.{AreUidsDistinct, IsAcyclic};

use crate::actions::action_entities;
use crate::laws::denoted_worlds_conform;
use crate::list::{read_list, read_objects};
use base_json::{JsonReader, ListText, read_json};
use cedar_conform_values::ConformFault;
use cedar_schema::Schema;
use cedar_store::{Entity, Store, StoreFault};
use std::alloc::Global;

/// The store of the entities that the bytes write, with the schema's actions before them (Cedar documentation, entities and
/// context in JSON). Takes a copy of the bytes. The time grows with the number of values, and with the pairs of an entity and
/// what is above it; each entry is looked up in the schema by search.
///
/// # Errors
///
/// 1 when out of memory, and otherwise 401, 402 or 501 to 509 only where that fault is in the bytes.
pub fn read_entities(alloc: Global, schema: &Schema, bytes: &[u8]) -> Result<Store, ConformFault>
    ensures denotes { IfOk result (BytesDenote schema.now bytes.now) }
    ensures conforms { IfOk result (Conforms schema.now) }
    ensures refused { IfErr result (λ f. f ≢ OutOfMemory → BytesHaveFault schema.now bytes.now f) }
{
    let copied = Vec::from_slice(alloc, bytes)?;
    read_entities_owned(alloc, schema, copied)
}

/// Like [`read_entities`], but owns the bytes. It frees them as they are read, so the bytes and the entities are never in
/// memory as a whole at the same time.
///
/// # Errors
///
/// Those of [`read_entities`]. After an error the bytes are lost. A caller that may want to call again, for example when out of
/// memory, calls [`read_entities`] or keeps a copy.
pub fn read_entities_owned(
    alloc: Global,
    schema: &Schema,
    bytes: Vec<u8>,
) -> Result<Store, ConformFault>
    ensures denotes { IfOk result (BytesDenote schema.now bytes.items) }
    ensures conforms { IfOk result (Conforms schema.now) }
    ensures refused { IfErr result (λ f. f ≢ OutOfMemory → BytesHaveFault schema.now bytes.items f) }
{
    // The schema is well formed, and a world that bytes denote for it conforms to it.
    schema.well_formedness();
    denoted_worlds_conform();
    let entities = entities_of(alloc, schema, bytes)?;
    build_store(alloc, entities)
}

// The schema's actions and the entities of the bytes. The bytes are freed as they are read, and the JSON reader before the
// store is built.
fn entities_of(alloc: Global, schema: &Schema, bytes: Vec<u8>) -> Result<Vec<Entity>, ConformFault>
    ensures { MatchResult result
        (λ v. AreRead schema.now bytes.items v.items)
        (λ f. f ≢ OutOfMemory → BytesHaveFault schema.now bytes.items f) }
{
    let actions = action_entities(alloc, schema)?;
    let mut reader = JsonReader::new(alloc)?;
    match ListText::open(bytes) {
        Ok(mut list) => read_objects(alloc, schema, &mut reader, &mut list, actions),
        Err(bytes) => read_items(alloc, schema, &mut reader, &bytes, actions),
    }
}

// The same for bytes that stay whole while they are read: the schema's actions, and after them the entities.
fn read_items(
    alloc: Global,
    schema: &Schema,
    reader: &mut JsonReader,
    bytes: &[u8],
    actions: Vec<Entity>,
) -> Result<Vec<Entity>, ConformFault>
    requires { actions.items ≡ declared_actions schema.now }
    ensures { MatchResult result
        (λ v. AreRead schema.now bytes.now v.items)
        (λ f. f ≢ OutOfMemory → BytesHaveFault schema.now bytes.now f) }
{
    match reader.items(bytes)? {
        Some(mut items) => read_list(alloc, schema, &mut items, actions),
        None => Err(no_list_fault(alloc, schema, bytes)),
    }
}

// The fault of bytes that are not a JSON list: 501, or 502 where they are JSON.
fn no_list_fault(alloc: Global, schema: &Schema, bytes: &[u8]) -> ConformFault
    requires { option_and_then as_array (json_of bytes.now) ≡ None }
    ensures { result ≢ OutOfMemory → BytesHaveFault schema.now bytes.now result }
{
    match read_json(alloc, bytes) {
        Ok(Some(json)) => {
            drop(json);
            ConformFault::Shape
        }
        Ok(None) => ConformFault::Json,
        Err(refused) => ConformFault::from(refused),
    }
}

fn build_store(alloc: Global, entities: Vec<Entity>) -> Result<Store, ConformFault>
    ensures world { IfOk result (λ s. s ≡ entities.items) }
    ensures distinct { OnOk result (AreUidsDistinct entities.items) }
    ensures acyclic { OnOk result (IsAcyclic entities.items) }
    ensures refused { IfErr result (HasStoreFault entities.items) }
{
    match Store::build(alloc, entities) {
        Ok(store) => Ok(store),
        Err(fault) => match fault {
            StoreFault::OutOfMemory => Err(ConformFault::OutOfMemory),
            StoreFault::DuplicateEntity(uid) => Err(ConformFault::DuplicateEntity(uid)),
            StoreFault::Cycle(uid) => Err(ConformFault::Cycle(uid)),
        },
    }
}
