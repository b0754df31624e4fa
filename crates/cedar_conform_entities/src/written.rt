//! What an entry writes, whatever the schema is.
ghost use Rattle.std.specs.Prelude.{◌≡◌, IfOk, MatchResult};
ghost use Rattle.serde_json.specs.View.{items_view, view};
ghost use Rattle.cedar_conform_values.specs.WrittenUids.{IsUidObject};
ghost use Rattle.cedar_conform_entities.specs.Entries.{AreUids, IsUidOf, Writes};
ghost use Rattle.cedar_conform_entities.specs.Private.Parts.{AreParentsOf, IsNoEntry, Refuses};

use crate::keys::{has_attributes, has_entry_keys, has_no_tags};
use cedar_conform_values::{ConformFault, uid_of_object};
use cedar_schema::Schema;
use cedar_value::Uid;
use serde_json::Value as Json;
use std::alloc::{AllocError, Global};

/// The uid and the direct parents that an entry writes.
#[derive(Drop)]
pub(crate) struct WrittenEntity {
    pub(crate) uid: Uid,
    pub(crate) parents: Vec<Uid>,
}

/// What the entry writes, or 502 where it is not an entry.
pub(crate) fn read_written(
    alloc: Global,
    schema: &Schema,
    json: &Json,
) -> Result<WrittenEntity, ConformFault>
    ensures { MatchResult result (λ w. Writes (view json.now) w.uid w.parents.items) (IsNoEntry (view json.now)) }
{
    if !has_entry_keys(json) || !has_attributes(json) || !has_no_tags(json) {
        return Err(ConformFault::Shape);
    }
    let uid = read_uid_of(alloc, schema, json)?;
    let parents = read_parents(alloc, schema, json)?;
    Ok(WrittenEntity { uid, parents })
}

fn read_uid_of(alloc: Global, schema: &Schema, json: &Json) -> Result<Uid, ConformFault>
    ensures { MatchResult result (IsUidOf (view json.now)) (Refuses (IsUidOf (view json.now))) }
{
    match json.get("uid") {
        Some(found) => read_uid(alloc, schema, found),
        None => Err(ConformFault::Shape),
    }
}

// The uid that a JSON writes as an object, or 502.
fn read_uid(alloc: Global, schema: &Schema, json: &Json) -> Result<Uid, ConformFault>
    ensures { MatchResult result (IsUidObject (view json.now)) (Refuses (IsUidObject (view json.now))) }
{
    match uid_of_object(alloc, json)? {
        Some(uid) => Ok(with_shared_type(alloc, schema, uid)?),
        None => Err(ConformFault::Shape),
    }
}

// The uid. Its type shares its text with the schema where the type is declared.
fn with_shared_type(alloc: Global, schema: &Schema, uid: Uid) -> Result<Uid, AllocError>
    ensures { IfOk result (λ shared. shared ≡ uid) }
{
    match schema.entity_type(&uid.ty) {
        Some(name) => Ok(Uid {
            ty: name.try_clone(alloc)?,
            id: uid.id,
        }),
        None => Ok(uid),
    }
}

fn read_parents(alloc: Global, schema: &Schema, json: &Json) -> Result<Vec<Uid>, ConformFault>
    ensures { MatchResult result (λ v. AreParentsOf (view json.now) v.items) (Refuses (AreParentsOf (view json.now))) }
{
    let Some(found) = json.get("parents") else {
        return Ok(Vec::new(alloc));
    };
    match found.as_array() {
        Some(items) => read_uids(alloc, schema, items),
        None => Err(ConformFault::Shape),
    }
}

/// The uids that the items write, each as an object, or 502.
pub(crate) fn read_uids(
    alloc: Global,
    schema: &Schema,
    items: &[Json],
) -> Result<Vec<Uid>, ConformFault>
    ensures { MatchResult result (λ v. AreUids (items_view items.now) v.items) (Refuses (AreUids (items_view items.now))) }
{
    let mut uids = Vec::with_capacity(alloc, items.len())?;
    let mut rest = items;
    'walk: while let Some((item, others)) = rest.split_first() {
        let uid = read_uid(alloc, schema, item)?;
        uids.push(uid)?;
        rest = others;
    }
    Ok(uids)
}
