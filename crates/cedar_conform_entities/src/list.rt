//! A list of entries.
ghost use Rattle.std.specs.Prelude.{MatchResult, Option};
ghost use Rattle.serde_json.specs.Data.{Items};
ghost use Rattle.cedar_conform_entities.specs.Private.Coming.{ComingProgress, IsComingRead, RefusesComing};
ghost use Rattle.cedar_conform_entities.specs.Private.Progress.{Entered, RefusesTwice};
ghost use Rattle.base_json.specs.Items.{to_come};
ghost use Rattle.base_json.specs.Lists.{left_in};
ghost use Rattle.cedar_value.specs.World.{World};

use crate::entries::{after_fault, next_entry};
use crate::entry::Entry;
use crate::objects::{after_object_fault, next_object_entry};
use base_json::{ItemReader, JsonReader, ListText};
use cedar_conform_values::{ConformFault, Names};
use cedar_schema::Schema;
use cedar_store::Entity;
use cedar_value::Uid;
use std::alloc::Global;
use std::collections::BTreeSet;

/// The first entities, and after them those of the entries. Or a fault of an entry, 401 where an action is repeated twice, or
/// 501 where the rest is not JSON. Each entry is read from its own bytes as long as the entries are objects, and the rest then
/// item by item.
pub(crate) fn read_objects(
    alloc: Global,
    schema: &Schema,
    reader: &mut JsonReader,
    list: &mut ListText,
    first: Vec<Entity>,
) -> Result<Vec<Entity>, ConformFault>
    ensures { MatchResult result
        (λ v. IsComingRead schema.now first.items (left_in list.old) v.items)
        (RefusesComing schema.now (left_in list.old)) }
{
    let mut entities = first;
    let mut repeated = BTreeSet::new(alloc);
    let mut names = Names::new(alloc);
    'walk: while let Some(entry) = next_object_entry(alloc, schema, &mut names, reader, list)? {
        if let Err(fault) = enter(&mut entities, &mut repeated, entry) {
            return Err(after_object_fault(alloc, reader, list, fault));
        }
    }
    let mut items = reader.items_left(list)?;
    read_rest(alloc, schema, &mut items, entities, repeated)
}

/// The same for a list that is read item by item.
pub(crate) fn read_list(
    alloc: Global,
    schema: &Schema,
    items: &mut ItemReader<'_>,
    first: Vec<Entity>,
) -> Result<Vec<Entity>, ConformFault>
    ensures { MatchResult result
        (λ v. IsComingRead schema.now first.items (to_come items.old) v.items)
        (RefusesComing schema.now (to_come items.old)) }
{
    read_rest(alloc, schema, items, first, BTreeSet::new(alloc))
}

// The entities that have been read, and after them those of the items that are to come, or a fault of these items. The set has
// the actions that have been repeated.
fn read_rest(
    alloc: Global,
    schema: &Schema,
    items: &mut ItemReader<'_>,
    read: Vec<Entity>,
    told: BTreeSet<Uid>,
) -> Result<Vec<Entity>, ConformFault>
    ensures { (first : World) (all : Option Items) → ComingProgress schema.now first all (to_come items.old) read.items told
        → MatchResult result (λ v. IsComingRead schema.now first all v.items) (RefusesComing schema.now all) }
{
    let mut entities = read;
    let mut repeated = told;
    'walk: while let Some(entry) = next_entry(alloc, schema, items)? {
        if let Err(fault) = enter(&mut entities, &mut repeated, entry) {
            return Err(after_fault(alloc, items, fault));
        }
    }
    Ok(entities)
}

// Appends an entity to the others, and puts an action into the set of those that entries repeat. Refused with 401 where that
// action is in the set.
fn enter(
    entities: &mut Vec<Entity>,
    repeated: &mut BTreeSet<Uid>,
    entry: Entry,
) -> Result<(), ConformFault>
    ensures { MatchResult result
        (λ _. Entered entry entities.old.items entities.new.items repeated.old repeated.new)
        (RefusesTwice entry repeated.old) }
{
    match entry {
        Entry::Entity(entity) => {
            entities.push(entity)?;
            Ok(())
        }
        Entry::Action(uid) => {
            if repeated.contains(&uid) {
                return Err(ConformFault::DuplicateEntity(uid));
            }
            repeated.insert(uid)?;
            Ok(())
        }
    }
}
