//! Links from JSON.
ghost use Rattle.std.specs.Prelude.{◌≡◌, ◌≢◌, IfErr, IfOk, List, MatchResult};
ghost use Rattle.serde_json.specs.View.{items_view, members_view, view};
ghost use Rattle.cedar_ast.specs.declared.link.Link.{Link as LinkTree};
ghost use Rattle.cedar_conform_values.specs.Objects.{are_only, has_only};
ghost use Rattle.cedar_conform_values.specs.declared.conform_fault.ConformFault.TheVariants.{OutOfMemory};
ghost use Rattle.cedar_conform.specs.Links.{BytesDenoteLinks, DenoteLinks, DenotesLink, DenotesLinks, DenotesSlots, IsGiven, LinksAreRefused, is_slot_key};
ghost use Rattle.cedar_conform.specs.Private.Refusals.{ReadsOne, Refuses};

use base_json::read_json;
use cedar_ast::{Link, Slots};
use cedar_conform_values::{ConformFault, one_written_uid, size_of, text_at, written_uid};
use cedar_value::{Text, Uid};
use serde_json::{Map, Value as Json};
use std::alloc::Global;

/// The links that the bytes denote: a JSON list of objects of `template_id`, `link_id` and `args`, which gives uids at
/// `?principal` and `?resource` or at neither (Cedar language reference, policy templates; the form is this project's).
///
/// # Errors
///
/// 1 when out of memory, 501 where the bytes are not JSON, and 502 where the JSON is not such a list.
pub fn read_links(alloc: Global, bytes: &[u8]) -> Result<Vec<Link>, ConformFault>
    ensures denotes { IfOk result (λ links. BytesDenoteLinks bytes.now links.items) }
    ensures only { (links : List LinkTree) → BytesDenoteLinks bytes.now links → MatchResult result (λ found. found.items ≡ links) (λ e. e ≡ OutOfMemory) }
    ensures refused { IfErr result (λ e. e ≢ OutOfMemory → LinksAreRefused bytes.now e) }
{
    // JSON denotes at most one uid.
    one_written_uid();
    match read_json(alloc, bytes)? {
        Some(json) => links_of(alloc, &json),
        None => Err(ConformFault::Json),
    }
}

fn links_of(alloc: Global, json: &Json) -> Result<Vec<Link>, ConformFault>
    ensures { MatchResult result (λ links. DenotesLinks (view json.now) links.items) (Refuses (DenotesLinks (view json.now))) }
{
    match json.as_array() {
        Some(items) => read_items(alloc, items),
        None => Err(ConformFault::Shape),
    }
}

fn read_items(alloc: Global, items: &[Json]) -> Result<Vec<Link>, ConformFault>
    ensures { MatchResult result (λ links. DenoteLinks (items_view items.now) links.items) (Refuses (DenoteLinks (items_view items.now))) }
{
    let mut links = Vec::new(alloc);
    let mut rest = items;
    'walk: while let Some((item, others)) = rest.split_first() {
        let link = read_link(alloc, item)?;
        links.push(link)?;
        rest = others;
    }
    Ok(links)
}

fn read_link(alloc: Global, json: &Json) -> Result<Link, ConformFault>
    ensures { ReadsOne result (DenotesLink (view json.now)) }
{
    if size_of(json) != 3 {
        return Err(ConformFault::Shape);
    }
    let Some(template) = text_at(json, "template_id") else {
        return Err(ConformFault::Shape);
    };
    let Some(id) = text_at(json, "link_id") else {
        return Err(ConformFault::Shape);
    };
    let Some(args) = json.get("args") else {
        return Err(ConformFault::Shape);
    };
    Ok(Link {
        slots: read_slots(alloc, args)?,
        template: Text::read(alloc, template)?,
        id: Text::read(alloc, id)?,
    })
}

fn read_slots(alloc: Global, json: &Json) -> Result<Slots, ConformFault>
    ensures { ReadsOne result (DenotesSlots (view json.now)) }
{
    if !has_slot_keys(json) {
        return Err(ConformFault::Shape);
    }
    Ok(Slots {
        principal: given(alloc, json, "?principal")?,
        resource: given(alloc, json, "?resource")?,
    })
}

// Whether the JSON is an object whose keys are those of slots.
fn has_slot_keys(json: &Json) -> bool
    ensures { result ≡ has_only is_slot_key (view json.now) }
{
    match json.as_object() {
        Some(members) => are_slot_keys(members),
        None => false,
    }
}

fn are_slot_keys(members: &Map<String, Json>) -> bool
    ensures { result ≡ are_only is_slot_key (members_view members.now.entries) }
{
    for (key, _) in members.iter() {
        if !is_slot_key(key.as_str()) {
            return false;
        }
    }
    true
}

#[tactic(auto, unfolding(crate::specs::Links::is_slot_key))]
fn is_slot_key(key: &str) -> bool
    ensures { result ≡ is_slot_key key.now }
{
    key == "?principal" || key == "?resource"
}

// The uid at the key, if the object has the key.
fn given(alloc: Global, json: &Json, key: &str) -> Result<Option<Uid>, ConformFault>
    ensures { ReadsOne result (IsGiven key.now (view json.now)) }
{
    let Some(found) = json.get(key) else {
        return Ok(None);
    };
    match written_uid(alloc, found)? {
        Some(uid) => Ok(Some(uid)),
        None => Err(ConformFault::Shape),
    }
}
