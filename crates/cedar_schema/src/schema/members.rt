//! The members of `memberOf`.
ghost use Rattle.std.specs.Prelude.{◌≡◌, ◌∷◌, [], map, codes, IfOk, Some, None, option_map};
ghost use Rattle.serde_json.specs.View.{view, items_view};
ghost use Rattle.cedar_schema_json.specs.Lists.{each_read, list_at};
ghost use Rattle.cedar_schema.specs.Declaring.{by_id, by_type, listed_uid, member_read, typed_uid, action_type, with_type, uid_of};
ghost use Rattle.cedar_schema.specs.Schemas.{uids_onto};
ghost use Rattle.cedar_schema_json.specs.EntryView.{entries_view, entry_of};
ghost use Rattle.cedar_schema_json.specs.ReadsLists.{ReadsList, ReadsItem};

use cedar_ext::Language;
use cedar_schema_json::{
    Entry, Part, SchemaFault, check_part, has_colon, qualified, read_name, text_at,
};
use cedar_value::{Name, Text, Uid};
use serde_json::Value;
use std::alloc::{AllocError, Global};
use std::collections::BTreeSet;

/// The uids of the declared actions.
pub(crate) fn uids_of(alloc: Global, entries: &[Entry<'_>]) -> Result<BTreeSet<Uid>, AllocError>
    ensures { IfOk result (λ s. s.keys ≡ uids_onto [] (entries_view entries.now)) }
{
    let mut uids = BTreeSet::new(alloc);
    for i in 0..entries.len() {
        uids.insert(uid_of(alloc, entries[i])?)?;
    }
    Ok(uids)
}

/// The uid of the action that an entry declares.
pub(crate) fn uid_of(alloc: Global, entry: Entry<'_>) -> Result<Uid, AllocError>
    ensures { IfOk result (λ u. u ≡ uid_of (entry_of entry.entry)) }
{
    Ok(Uid {
        ty: qualified(alloc, entry.namespace, "Action")?,
        id: Text::read(alloc, entry.key)?,
    })
}

/// The uids of a list of members.
pub(crate) fn read_members_at(
    alloc: Global,
    language: Language,
    uids: &BTreeSet<Uid>,
    namespace: &str,
    list: Option<&Value>,
) -> Result<Vec<Uid>, SchemaFault>
    ensures { ReadsList result (list_at (member_read language uids.now.keys namespace.now) [] (option_map (λ v. view v.now) list.entry)) }
{
    match list {
        None => Ok(Vec::new(alloc)),
        Some(list) => match list.as_array() {
            None => Err(SchemaFault::Shape),
            Some(items) => read_members(alloc, language, uids, namespace, items),
        },
    }
}

fn read_members(
    alloc: Global,
    language: Language,
    uids: &BTreeSet<Uid>,
    namespace: &str,
    items: &Vec<Value>,
) -> Result<Vec<Uid>, SchemaFault>
    ensures { ReadsList result (each_read (member_read language uids.now.keys namespace.now) (items_view items.now.items)) }
{
    let mut members = Vec::new(alloc);
    for i in 0..items.len() {
        let member = read_member(alloc, language, uids, namespace, &items[i])?;
        members.push(member)?;
    }
    Ok(members)
}

#[tactic(auto, unfolding(crate::specs::Declaring::member_read))]
fn read_member(
    alloc: Global,
    language: Language,
    uids: &BTreeSet<Uid>,
    namespace: &str,
    json: &Value,
) -> Result<Uid, SchemaFault>
    ensures { ReadsItem result (member_read language uids.now.keys namespace.now (view json.now)) }
{
    check_part(language, Part::Member, json)?;
    match text_at(json, "id") {
        None => Err(SchemaFault::Shape),
        Some(id) => read_by_id(alloc, uids, namespace, id, json.get("type")),
    }
}

fn read_by_id(
    alloc: Global,
    uids: &BTreeSet<Uid>,
    namespace: &str,
    id: &str,
    ty: Option<&Value>,
) -> Result<Uid, SchemaFault>
    ensures { ReadsItem result (by_id uids.now.keys namespace.now id.now (option_map (λ v. view v.now) ty.entry)) }
{
    match ty {
        None => {
            let own = qualified(alloc, namespace, "Action")?;
            listed_uid(alloc, uids, own, id)?.ok_or(SchemaFault::UnknownType)
        }
        Some(ty) => match ty.as_str() {
            None => Err(SchemaFault::Shape),
            Some(ty) => read_by_type(alloc, uids, namespace, id, ty),
        },
    }
}

fn read_by_type(
    alloc: Global,
    uids: &BTreeSet<Uid>,
    namespace: &str,
    id: &str,
    ty: &str,
) -> Result<Uid, SchemaFault>
    ensures { ReadsItem result (by_type uids.now.keys namespace.now id.now (Some ty.now)) }
{
    let ty = read_name(alloc, ty)?;
    typed_uid(alloc, uids, namespace, ty, id)?.ok_or(SchemaFault::UnknownType)
}

#[tactic(auto, unfolding(crate::specs::Declaring::typed_uid))]
fn typed_uid(
    alloc: Global,
    uids: &BTreeSet<Uid>,
    namespace: &str,
    ty: Name,
    id: &str,
) -> Result<Option<Uid>, AllocError>
    ensures { IfOk result (λ o. o ≡ typed_uid uids.now.keys namespace.now ty id.now) }
{
    if has_colon(ty.as_str()) {
        return listed_uid(alloc, uids, ty, id);
    }
    let own = qualified(alloc, namespace, ty.as_str())?;
    match listed_uid(alloc, uids, own, id)? {
        Some(uid) => Ok(Some(uid)),
        None => listed_uid(alloc, uids, ty, id),
    }
}

fn listed_uid(
    alloc: Global,
    uids: &BTreeSet<Uid>,
    ty: Name,
    id: &str,
) -> Result<Option<Uid>, AllocError>
    ensures { IfOk result (λ o. o ≡ listed_uid uids.now.keys (with_type id.now ty)) }
{
    let uid = Uid {
        ty,
        id: Text::read(alloc, id)?,
    };
    if uids.contains(&uid) {
        Ok(Some(uid))
    } else {
        Ok(None)
    }
}
