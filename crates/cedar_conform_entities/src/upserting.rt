//! Entities that are upserted alone, from a JSON that has been read.
ghost use Rattle.std.specs.Prelude.{◌≡◌, ◌≢◌, IfErr, IfOk, MatchResult, []};
ghost use Rattle.serde_json.specs.View.{view};
ghost use Rattle.cedar_conform_values.specs.declared.conform_fault.ConformFault.TheVariants.{OutOfMemory};
ghost use Rattle.cedar_conform_entities.specs.Changes.{DenotesChangedWorld, DenotesChanges, HasChangesFault, upserts_only};
ghost use Rattle.cedar_conform_entities.specs.Private.Changing.{RefusesChanges};
ghost use Rattle.cedar_schema_spec.specs.Conformance.{Conforms};
ghost use Rattle.cedar_store.specs.Changes.{HaveSameEntities};
ghost use Rattle.cedar_value.specs.World.{World};

use crate::changes::change_store;
use crate::laws::changed_worlds_conform;
use crate::upserts::read_upserts;
use cedar_conform_values::ConformFault;
use cedar_schema::Schema;
use cedar_store::{Entity, Store};
use serde_json::Value as Json;
use std::alloc::Global;

/// The store after the entries of the JSON are upserted, `[entry, ..]`, as [`read_changes`](crate::read_changes) upserts them:
/// an entity replaces the one with its uid, and nothing is removed (Cedar's crate, upsert of entities). The store that is lent
/// stays as it is, also after an error.
///
/// # Errors
///
/// 1 when out of memory, and otherwise 401, 402 or 501 to 509 only where the entries have that fault. 401: two write one uid.
/// 402: an entity is below itself after them. 502: the JSON is not a list, or an item is not an entry.
pub fn upsert_entities(
    alloc: Global,
    schema: &Schema,
    store: &Store,
    entries: &Json,
) -> Result<Store, ConformFault>
    ensures denotes { IfOk result (DenotesChangedWorld schema.now (upserts_only (view entries.now)) store.now) }
    ensures conforms { Conforms schema.now store.now → IfOk result (Conforms schema.now) }
    ensures only { (w : World) → DenotesChangedWorld schema.now (upserts_only (view entries.now)) store.now w
        → MatchResult result (λ v. HaveSameEntities v w) (λ f. f ≡ OutOfMemory) }
    ensures refused { IfErr result (λ f. f ≢ OutOfMemory → HasChangesFault schema.now store.now (upserts_only (view entries.now)) f) }
{
    // The schema is well formed, and after changes that a JSON denotes a world that conforms still conforms to it.
    schema.well_formedness();
    changed_worlds_conform();
    let upserted = upserted_by(alloc, schema, entries)?;
    change_store(alloc, store, &[], upserted)
}

// The entities that the entries upsert, or one of their faults.
fn upserted_by(alloc: Global, schema: &Schema, entries: &Json) -> Result<Vec<Entity>, ConformFault>
    ensures { MatchResult result
        (λ v. DenotesChanges schema.now (upserts_only (view entries.now)) [] v.items)
        (RefusesChanges schema.now (upserts_only (view entries.now))) }
{
    let Some(items) = entries.as_array() else {
        return Err(ConformFault::Shape);
    };
    read_upserts(alloc, schema, items)
}
