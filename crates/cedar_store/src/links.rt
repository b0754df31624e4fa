//! The links of entities to their parents, as links of numbers.
ghost use Rattle.std.specs.Prelude.{IfOk, OnOk};
ghost use Rattle.cedar_store.specs.Entities.{uids_of};
ghost use Rattle.cedar_store.specs.Private.Kept.{AreParentNumbers, AreParentsNumbered, IsListOf, IsNumberGraph};

use crate::entity_table::EntityTable;
use crate::numbers::{Numbers, number_all};
use base_search::{Graph, Lists};
use cedar_value::Uid;
use indexmap::IndexSet;
use std::alloc::{AllocError, Global};

/// A number for each parent of the entities, in the order of first mention, and for each entity the numbers
/// of its parents. A parent is looked up once for each time that it is mentioned.
pub(crate) fn links_of(alloc: Global, table: &EntityTable) -> Result<(Numbers, Lists), AllocError>
    ensures { IfOk result (λ r. AreParentNumbers r.0.keys table.now r.1) }
{
    let mut numbers = IndexSet::with_hasher(alloc, table.hashing());
    let mut lists = Lists::new(alloc);
    for entity in table.entities() {
        let parents = number_all(alloc, &mut numbers, &entity.parents)?;
        lists.push(&parents)?;
    }
    Ok((numbers, lists))
}

/// The numbers of the parents of an entity, from the lists of all. Empty for an entity that the table lacks.
pub(crate) fn parent_numbers<'a>(table: &EntityTable, lists: &'a Lists, uid: &Uid) -> &'a [usize]
    ensures { IsListOf (uids_of table.now) lists.now uid.now result.now }
{
    match table.place(uid) {
        Some(place) => lists.get(place),
        None => &[],
    }
}

/// The links of each number to those of the parents of its uid.
pub(crate) fn number_graph(
    alloc: Global,
    table: &EntityTable,
    numbers: &Numbers,
    lists: &Lists,
) -> Result<Graph, AllocError>
    requires { AreParentNumbers numbers.now.keys table.now lists.now }
    ensures graph { IfOk result (λ g. IsNumberGraph numbers.now.keys table.now g.lists g.places.items) }
    ensures whole { OnOk result (AreParentsNumbered numbers.now.keys table.now) }
{
    let mut linked = Lists::new(alloc);
    let mut places = Vec::with_capacity(alloc, numbers.len())?;
    for (number, uid) in numbers.as_slice().iter().enumerate() {
        linked.push(parent_numbers(table, lists, uid))?;
        places.push(Some(number))?;
    }
    Ok(Graph {
        lists: linked,
        places,
    })
}
