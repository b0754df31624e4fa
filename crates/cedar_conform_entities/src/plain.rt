//! Entries in the plain form, read without a JSON tree.
ghost use Rattle.std.specs.Prelude.{◌≡◌, IfOk, IfSome, IsSome, IsTrue, None};
ghost use Rattle.std.specs.List.{list_all};
ghost use Rattle.serde_json.specs.Data.{no_members, object};
ghost use Rattle.serde_json.specs.Find.{as_object};
ghost use Rattle.serde_json.specs.View.{items_view};
ghost use Rattle.base_json.specs.LentItems.{item_view};
ghost use Rattle.base_json.specs.LentObjects.{items_of_objects, object_view};
ghost use Rattle.cedar_conform_values.specs.WrittenUids.{IsUidObject};
ghost use Rattle.cedar_conform_entities.specs.Denotes.{DenotesEntity};
ghost use Rattle.cedar_conform_entities.specs.Entries.{AreUids, IsUidOf, WritesEntity, attributes_in, is_entry_key};
ghost use Rattle.cedar_conform_entities.specs.Private.Parts.{AreParentsOf};
ghost use Rattle.cedar_conform_entities.specs.Private.Plain.{AreAttributes, AreFields, IsPlain};
ghost use Rattle.cedar_schema_spec.specs.WellFormed.{IsOrderedRecord};

use crate::judging::{is_action_name, judge_parents};
use crate::keys::is_entry_key;
use crate::listed::is_listed;
use crate::written::{WrittenEntity, read_uids};
use base_json::{ItemMember, ItemValue, LentItem, LentObject};
use cedar_conform_values::{ConformFault, MOST_MEMBERS, Names, read_short_record, uid_of_lent};
use cedar_schema::Schema;
use cedar_schema_types::{Type, TypeKind};
use cedar_store::Entity;
use cedar_value::{Record, Text, Uid};
use serde_json::Value as Json;
use std::alloc::{AllocError, Global};

/// The entity that an entry denotes, where the entry is in the plain form: it has a uid of `type` and `id`, and otherwise attributes and
/// parents alone. None for another entry, which may still denote an entity, and for an entry with a fault.
pub(crate) fn plain_entity(
    alloc: Global,
    schema: &Schema,
    names: &mut Names,
    item: &LentItem<'_>,
) -> Result<Option<Entity>, AllocError>
    ensures { IfOk result (λ found. IfSome found (DenotesEntity schema.now (item_view item.now))) }
{
    let Some(written) = read_plain(alloc, schema, names, item)? else {
        return Ok(None);
    };
    let Some(shape) = schema.attributes(&written.uid.ty) else {
        return Ok(None);
    };
    let Ok(()) = judge_parents(schema, &written.uid, &written.parents) else {
        return Ok(None);
    };
    // The shape of each entity type of a schema is an ordered record type.
    schema.well_formedness();
    let Some(attrs) = plain_attributes(alloc, shape, item)? else {
        return Ok(None);
    };
    let entity = Entity {
        uid: written.uid,
        attrs,
        parents: written.parents,
    };
    if is_listed(schema, &entity) {
        return Ok(Some(entity));
    }
    drop(entity);
    Ok(None)
}

// What an entry of an entity writes.
fn read_plain(
    alloc: Global,
    schema: &Schema,
    names: &mut Names,
    item: &LentItem<'_>,
) -> Result<Option<WrittenEntity>, AllocError>
    ensures { IfOk result (λ found. IfSome found (λ w. WritesEntity (item_view item.now) w.uid w.parents.items)) }
{
    if !is_plain(item) {
        return Ok(None);
    }
    let Some(uid) = plain_uid(alloc, names, item)? else {
        return Ok(None);
    };
    if is_action_name(&uid.ty) {
        return Ok(None);
    }
    let Some(parents) = plain_parents(alloc, schema, names, item)? else {
        return Ok(None);
    };
    Ok(Some(WrittenEntity { uid, parents }))
}

// Whether the keys are those of an entry, the attributes are an object or absent, and there are no tags.
fn is_plain(item: &LentItem<'_>) -> bool
    ensures { IsTrue result → IsPlain (item_view item.now) }
{
    if item.value("tags").is_some() {
        return false;
    }
    if !has_attributes(item) {
        return false;
    }
    are_entry_keys(&item.members)
}

fn has_attributes(item: &LentItem<'_>) -> bool
    ensures { IsTrue result → IsSome (as_object (attributes_in (item_view item.now))) }
{
    match item.value("attrs") {
        Some(ItemValue::Object(_)) | None => true,
        Some(_) => false,
    }
}

fn are_entry_keys(members: &[ItemMember<'_>]) -> bool
    ensures { result ≡ list_all (λ m. is_entry_key m.key.now) members.now }
{
    for member in members {
        if !is_entry_key(member.key) {
            return false;
        }
    }
    true
}

// The uid of an entry.
fn plain_uid(
    alloc: Global,
    names: &mut Names,
    item: &LentItem<'_>,
) -> Result<Option<Uid>, AllocError>
    ensures { IfOk result (λ found. IfSome found (IsUidOf (item_view item.now))) }
{
    match item.value("uid") {
        Some(ItemValue::Object(object)) => object_uid(alloc, names, object),
        _ => Ok(None),
    }
}

fn object_uid(
    alloc: Global,
    names: &mut Names,
    object: &LentObject<'_>,
) -> Result<Option<Uid>, AllocError>
    ensures { IfOk result (λ found. IfSome found (IsUidObject (object_view object.now))) }
{
    let Some(texts) = uid_of_lent(object) else {
        return Ok(None);
    };
    let mut guess = 0;
    let Some(ty) = names.read(alloc, texts.ty, &mut guess)? else {
        return Ok(None);
    };
    let id = Text::read(alloc, texts.id)?;
    Ok(Some(Uid { ty, id }))
}

// The parents of an entry.
fn plain_parents(
    alloc: Global,
    schema: &Schema,
    names: &mut Names,
    item: &LentItem<'_>,
) -> Result<Option<Vec<Uid>>, AllocError>
    ensures { IfOk result (λ found. IfSome found (λ v. AreParentsOf (item_view item.now) v.items)) }
{
    match item.value("parents") {
        Some(ItemValue::Objects(objects)) => object_uids(alloc, names, objects),
        Some(ItemValue::Other(json)) => match json.as_array() {
            Some(items) => uids_of(alloc, schema, items),
            None => Ok(None),
        },
        Some(_) => Ok(None),
        None => Ok(Some(Vec::new(alloc))),
    }
}

// The uids that the objects write.
fn object_uids(
    alloc: Global,
    names: &mut Names,
    objects: &[LentObject<'_>],
) -> Result<Option<Vec<Uid>>, AllocError>
    ensures { IfOk result (λ found. IfSome found (λ v. AreUids (items_of_objects objects.now) v.items)) }
{
    let mut uids = Vec::with_capacity(alloc, objects.len())?;
    for object in objects {
        let Some(uid) = object_uid(alloc, names, object)? else {
            return Ok(None);
        };
        uids.push(uid)?;
    }
    Ok(Some(uids))
}

// The uids that the items write, each as an object.
fn uids_of(alloc: Global, schema: &Schema, items: &[Json]) -> Result<Option<Vec<Uid>>, AllocError>
    ensures { IfOk result (λ found. IfSome found (λ v. AreUids (items_view items.now) v.items)) }
{
    match read_uids(alloc, schema, items) {
        Ok(uids) => Ok(Some(uids)),
        Err(fault) => none_unless_refused(fault),
    }
}

// The attributes of an entry, read for the shape of its type.
fn plain_attributes(
    alloc: Global,
    shape: &Type,
    item: &LentItem<'_>,
) -> Result<Option<Record>, AllocError>
    requires { IsOrderedRecord shape.now }
    ensures { IfOk result (λ found. IfSome found (AreAttributes shape.now (item_view item.now))) }
{
    match item.value("attrs") {
        Some(ItemValue::Object(object)) => object_attributes(alloc, shape, object),
        Some(_) => Ok(None),
        None => no_attributes(alloc, shape),
    }
}

// The attributes of an entry that has none.
fn no_attributes(alloc: Global, shape: &Type) -> Result<Option<Record>, AllocError>
    requires { IsOrderedRecord shape.now }
    ensures { IfOk result (λ found. IfSome found (AreFields shape.now (object no_members))) }
{
    let empty = LentObject {
        members: Vec::new(alloc),
    };
    object_attributes(alloc, shape, &empty)
}

fn object_attributes(
    alloc: Global,
    shape: &Type,
    object: &LentObject<'_>,
) -> Result<Option<Record>, AllocError>
    requires { IsOrderedRecord shape.now }
    ensures { IfOk result (λ found. IfSome found (AreFields shape.now (object_view object.now))) }
{
    let TypeKind::Record(attributes) = shape.kind() else {
        unreachable!();
    };
    if object.members.len() > MOST_MEMBERS {
        return Ok(None);
    }
    match read_short_record(alloc, attributes, object) {
        Ok(record) => Ok(Some(record)),
        Err(fault) => none_unless_refused(fault),
    }
}

// None for a fault of an entry.
fn none_unless_refused<T>(fault: ConformFault) -> Result<Option<T>, AllocError>
    ensures { IfOk result (λ found. found ≡ None) }
{
    match fault {
        ConformFault::OutOfMemory => Err(AllocError),
        _ => Ok(None),
    }
}
