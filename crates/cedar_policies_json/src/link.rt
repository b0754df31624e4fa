//! Links from the JSON of a policy set.
ghost use Rattle.std.specs.Prelude.{◌≡◌, IfOk, option_map};
ghost use Rattle.serde_json.specs.View.{items_view, view};
ghost use Rattle.cedar_policies_json.specs.PolicyFiles.{count_at, given_read, link_read, slots_read};
ghost use Rattle.serde_json.specs.Find.{get};
ghost use Rattle.std.specs.Prelude.{codes, option_and_then};
ghost use Rattle.cedar_policies_json.specs.Parts.{each_read};

use crate::parts::read_uid;
use cedar_ast::{Link, Slots};
use cedar_conform_values::{size_of, text_at};
use cedar_value::{Text, Uid};
use serde_json::Value;
use std::alloc::{AllocError, Global};

/// The links of a list.
pub(crate) fn read_links(alloc: Global, items: &[Value]) -> Result<Option<Vec<Link>>, AllocError>
    ensures { IfOk result (λ found. option_map (λ v. v.items) found ≡ each_read link_read (items_view items.now)) }
{
    let mut links = Vec::new(alloc);
    let mut rest = items;
    'walk: while let Some((item, others)) = rest.split_first() {
        let Some(link) = read_link(alloc, item)? else {
            return Ok(None);
        };
        links.push(link)?;
        rest = others;
    }
    Ok(Some(links))
}

fn read_link(alloc: Global, json: &Value) -> Result<Option<Link>, AllocError>
    ensures { IfOk result (λ found. found ≡ link_read (view json.now)) }
{
    if size_of(json) != 3 {
        return Ok(None);
    }
    let Some(template) = text_at(json, "templateId") else {
        return Ok(None);
    };
    let Some(id) = text_at(json, "newId") else {
        return Ok(None);
    };
    let Some(slots) = slots_at(alloc, json)? else {
        return Ok(None);
    };
    Ok(Some(Link {
        template: Text::read(alloc, template)?,
        id: Text::read(alloc, id)?,
        slots,
    }))
}

fn slots_at(alloc: Global, json: &Value) -> Result<Option<Slots>, AllocError>
    ensures { IfOk result (λ found. found ≡ option_and_then slots_read (get (codes "values") (view json.now))) }
{
    match json.get("values") {
        Some(values) => read_slots(alloc, values),
        None => Ok(None),
    }
}

fn read_slots(alloc: Global, json: &Value) -> Result<Option<Slots>, AllocError>
    ensures { IfOk result (λ found. found ≡ slots_read (view json.now)) }
{
    if json.as_object().is_none() {
        return Ok(None);
    }
    if size_of(json) != count_at(json, "?principal") + count_at(json, "?resource") {
        return Ok(None);
    }
    let Some(principal) = read_given(alloc, json.get("?principal"))? else {
        return Ok(None);
    };
    let Some(resource) = read_given(alloc, json.get("?resource"))? else {
        return Ok(None);
    };
    Ok(Some(Slots {
        principal,
        resource,
    }))
}

// How many values there are at a key, none or one.
fn count_at(json: &Value, key: &str) -> usize
    ensures { result ≡ count_at key.now (view json.now) }
{
    match json.get(key) {
        Some(_) => 1,
        None => 0,
    }
}

// What is given for a slot.
fn read_given(alloc: Global, json: Option<&Value>) -> Result<Option<Option<Uid>>, AllocError>
    ensures { IfOk result (λ found. found ≡ given_read (option_map (λ v. view v.now) json.entry)) }
{
    let Some(given) = json else {
        return Ok(Some(None));
    };
    match read_uid(alloc, given)? {
        Some(uid) => Ok(Some(Some(uid.into_uid(alloc)))),
        None => Ok(None),
    }
}
