//! The ids of enumerated entity types.
ghost use Rattle.std.specs.Prelude.{◌≡◌, [], IfOk, MatchResult};
ghost use Rattle.serde_json.specs.View.{view, items_view};
ghost use Rattle.std.specs.BTreeMap.{is_at};
ghost use Rattle.std.specs.List.{list_any};
ghost use Rattle.cedar_value.specs.Order.{text_cmp};
ghost use Rattle.cedar_schema_json.specs.Enumerations.{alone_faults, count_faults, enumeration_faults, enumeration_of, id_read, ids_in};
ghost use Rattle.cedar_schema_json.specs.Faults.{Told};
ghost use Rattle.cedar_schema_json.specs.Lists.{each_read, set_onto};
ghost use Rattle.cedar_schema_json.specs.ReadsLists.{ReadsItem, ReadsList};

use crate::schema_fault::SchemaFault;
use cedar_value::Text;
use serde_json::Value;
use std::alloc::{AllocError, Global};
use std::collections::BTreeSet;
use std::collections::btree_set::Iter;
use std::marker::Model;

/// The ids of an enumerated entity type, each once, which contracts see as an ascending list (Cedar RFC 53).
#[derive(Drop)]
pub struct Enumeration {
    ids: BTreeSet<Text>,
}

impl Model for Enumeration {
    ghost use Rattle.std.specs.Prelude.{ℕ, List};

    ghost Value = { List (List ℕ) };

    ghost view = { λ e. e.ids.keys };
}

impl Enumeration {
    /// Whether the id is one of these. Takes no memory, and as many comparisons as the logarithm of the number of ids.
    pub fn has(&self, id: &Text) -> bool
        ensures { result ≡ list_any (is_at (text_cmp id.now)) self.now }
    {
        self.ids.contains(id)
    }

    /// The ids, ascending by their bytes. Takes no memory.
    pub fn ids(&self) -> Iter<'_, Text>
        ensures { result ≡ self.now }
    {
        self.ids.iter()
    }
}

/// The ids at the key `enum` of an entry, which is one of an enumerated entity type if it has the key (Cedar RFC 53).
///
/// # Errors
///
/// 1 when out of memory. 302 where there is another value than a list of strings, no id, an id twice, or a key of another
/// entity type.
#[tactic(auto, unfolding(crate::specs::Enumerations::enumeration_faults, crate::specs::Enumerations::enumeration_of))]
pub fn read_enumeration(alloc: Global, body: &Value) -> Result<Option<Enumeration>, SchemaFault>
    ensures { MatchResult result
        (λ e. (enumeration_faults (view body.now) ≡ []) × (e ≡ enumeration_of (view body.now)))
        (λ e. Told (enumeration_faults (view body.now)) e) }
{
    let Some(list) = body.get("enum") else {
        return Ok(None);
    };
    let ids = read_ids(alloc, list)?;
    let enumeration = enumeration_of(alloc, ids)?;
    check_alone(body)?;
    Ok(Some(enumeration))
}

// The ids of a list, in its order.
fn read_ids(alloc: Global, list: &Value) -> Result<Vec<Text>, SchemaFault>
    ensures { ReadsList result (ids_in (view list.now)) }
{
    match list.as_array() {
        Some(items) => read_items(alloc, items),
        None => Err(SchemaFault::Shape),
    }
}

fn read_items(alloc: Global, items: &Vec<Value>) -> Result<Vec<Text>, SchemaFault>
    ensures { ReadsList result (each_read id_read (items_view items.now.items)) }
{
    let mut ids = Vec::new(alloc);
    for i in 0..items.len() {
        let id = read_id(alloc, &items[i])?;
        ids.push(id)?;
    }
    Ok(ids)
}

fn read_id(alloc: Global, item: &Value) -> Result<Text, SchemaFault>
    ensures { ReadsItem result (id_read (view item.now)) }
{
    match item.as_str() {
        Some(text) => Ok(Text::read(alloc, text)?),
        None => Err(SchemaFault::Shape),
    }
}

// The enumeration of these ids, of which there has to be one, and none twice.
fn enumeration_of(alloc: Global, ids: Vec<Text>) -> Result<Enumeration, SchemaFault>
    ensures { MatchResult result
        (λ e. (count_faults ids.items ≡ []) × (e ≡ set_onto [] ids.items))
        (λ e. Told (count_faults ids.items) e) }
{
    let count = ids.len();
    let ids = set_of(alloc, ids)?;
    if count == 0 || ids.len() != count {
        return Err(SchemaFault::Shape);
    }
    Ok(Enumeration { ids })
}

fn set_of(alloc: Global, ids: Vec<Text>) -> Result<BTreeSet<Text>, AllocError>
    ensures { IfOk result (λ s. s.keys ≡ set_onto [] ids.items) }
{
    let mut set = BTreeSet::new(alloc);
    for id in ids {
        set.insert(id)?;
    }
    Ok(set)
}

// Refuses the keys of an entity type that is not enumerated.
fn check_alone(body: &Value) -> Result<(), SchemaFault>
    ensures { MatchResult result (λ _. alone_faults (view body.now) ≡ []) (λ e. Told (alone_faults (view body.now)) e) }
{
    if body.get("memberOfTypes").is_some() || body.get("shape").is_some() {
        Err(SchemaFault::Shape)
    } else {
        Ok(())
    }
}
