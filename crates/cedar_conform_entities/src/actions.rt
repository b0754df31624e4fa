//! The entities of the schema's actions.
ghost use Rattle.std.specs.Prelude.{◌≡◌, IfOk};
ghost use Rattle.cedar_schema_spec.specs.Declarations.{action_entities, action_entity};

use cedar_schema::{Action, Schema};
use cedar_store::Entity;
use cedar_value::{Record, Uid};
use std::alloc::{AllocError, Global};

/// An entity for each action of the schema, with the schema's direct parents and no attributes,
/// ascending by their uids.
pub(crate) fn action_entities(alloc: Global, schema: &Schema) -> Result<Vec<Entity>, AllocError>
    ensures { IfOk result (λ v. v.items ≡ action_entities schema.now) }
{
    let mut entities = Vec::new(alloc);
    for (uid, action) in schema.actions() {
        let entity = action_entity(alloc, uid, action)?;
        entities.push(entity)?;
    }
    Ok(entities)
}

fn action_entity(alloc: Global, uid: &Uid, action: &Action) -> Result<Entity, AllocError>
    ensures { IfOk result (λ e. e ≡ action_entity (uid.now, action.now)) }
{
    Ok(Entity {
        uid: uid.try_clone(alloc)?,
        attrs: Record::new(alloc),
        parents: clone_uids(alloc, action.parents())?,
    })
}

fn clone_uids(alloc: Global, uids: &[Uid]) -> Result<Vec<Uid>, AllocError>
    ensures { IfOk result (λ v. v.items ≡ uids.now) }
{
    let mut copies = Vec::with_capacity(alloc, uids.len())?;
    for uid in uids {
        copies.push(uid.try_clone(alloc)?)?;
    }
    Ok(copies)
}
