//! The entries that changes upsert.
ghost use Rattle.std.specs.Prelude.{◌≡◌, ◌++◌, List, MatchResult, [], ◌∷◌};
ghost use Rattle.serde_json.specs.View.{items_view};
ghost use Rattle.cedar_conform_entities.specs.Private.Changing.{AreUpserts, IsNoted, RefusesNoted, appended, uid_of_entry};
ghost use Rattle.cedar_conform_entities.specs.Private.Progress.{RefusesList};

use crate::entry::{Entry, read_entry};
use crate::noted::note;
use cedar_conform_values::ConformFault;
use cedar_schema::Schema;
use cedar_store::Entity;
use cedar_value::Uid;
use serde_json::Value as Json;
use std::alloc::Global;
use std::collections::BTreeSet;

/// The entities of the entries, of which no two write one uid. Or a fault of an entry, or 401 where two write one uid.
pub(crate) fn read_upserts(
    alloc: Global,
    schema: &Schema,
    entries: &[Json],
) -> Result<Vec<Entity>, ConformFault>
    ensures { MatchResult result
        (λ v. AreUpserts schema.now (items_view entries.now) v.items)
        (RefusesList schema.now (items_view entries.now)) }
{
    let mut upserted = Vec::new(alloc);
    let mut written = BTreeSet::new(alloc);
    let mut rest = entries;
    'walk: while let Some((json, others)) = rest.split_first() {
        let entry = read_entry(alloc, schema, json)?;
        upsert(alloc, &mut upserted, &mut written, entry)?;
        rest = others;
    }
    Ok(upserted)
}

// Puts the uid of the entry into the set, and appends an entity to the others. Refused with 401 where the uid is in the set.
fn upsert(
    alloc: Global,
    upserted: &mut Vec<Entity>,
    written: &mut BTreeSet<Uid>,
    entry: Entry,
) -> Result<(), ConformFault>
    ensures { MatchResult result
        (λ _. (upserted.new.items ≡ appended upserted.old.items entry) × IsNoted written.old written.new (uid_of_entry entry))
        (RefusesNoted written.old (uid_of_entry entry)) }
{
    match entry {
        Entry::Entity(entity) => {
            note(written, entity.uid.try_clone(alloc)?)?;
            upserted.push(entity)?;
            Ok(())
        }
        Entry::Action(uid) => note(written, uid),
    }
}
