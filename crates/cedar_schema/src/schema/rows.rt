//! What actions descend from, and their types.
ghost use Rattle.std.specs.Prelude.{◌≡◌, ◌≢◌, ◌||◌, ◌&&◌, ℕ, List, IfOk, IfErr, OnOk, All, Some, bytes_eq};
ghost use Rattle.std.specs.List.{list_any};
ghost use Rattle.std.specs.BTreeMap.{get};
ghost use Rattle.std.specs.Map.{keys_of};
ghost use Rattle.base_bits.specs.Bits.{has_bit};
ghost use Rattle.cedar_value.specs.Order.{uid_cmp};
ghost use Rattle.cedar_value.specs.declared.uid.Uid.{Uid as UidTree};
ghost use Rattle.cedar_schema_spec.specs.SchemaTree.{parents_of_action};
ghost use Rattle.base_reach.specs.Closure.{LeadsTo};
ghost use Rattle.cedar_schema.specs.Private.Kept.{AreRows, AreTypeRows, HasTypes, has_number, type_bit};
ghost use Rattle.cedar_schema_json.specs.declared.schema_fault.SchemaFault.TheVariants.{OutOfMemory, ActionCycle};

use crate::schema::action::Action;
use crate::schema::ancestors::actions_above;
use crate::schema::descents::Descents;
use base_search::Row;
use cedar_schema_json::SchemaFault;
use cedar_value::{Name, Uid};
use std::alloc::{AllocError, Global};
use std::collections::{BTreeMap, BTreeSet};

/// What the actions descend from, where none may descend from itself.
pub(crate) fn action_rows(
    alloc: Global,
    actions: &BTreeMap<Uid, Action>,
) -> Result<Descents<Uid>, SchemaFault>
    ensures rows { IfOk result (AreRows uid_cmp (parents_of_action actions.now.entries)) }
    ensures acyclic { OnOk result ((u : UidTree) → ¬ LeadsTo (parents_of_action actions.now.entries) u u) }
    ensures refused { IfErr result (λ e. e ≢ OutOfMemory → (e ≡ ActionCycle) × ((u : UidTree) × LeadsTo (parents_of_action actions.now.entries) u u)) }
{
    let above = actions_above(alloc, actions)?;
    for (uid, _) in actions.iter() {
        if above.descends(uid, uid) {
            return Err(SchemaFault::ActionCycle);
        }
    }
    Ok(above)
}

/// The types of the actions.
pub(crate) fn action_types(
    alloc: Global,
    actions: &BTreeMap<Uid, Action>,
) -> Result<BTreeSet<Name>, AllocError>
    ensures { IfOk result (HasTypes (keys_of actions.now.entries)) }
{
    let mut types = BTreeSet::new(alloc);
    for (uid, _) in actions.iter() {
        types.insert(uid.ty.try_clone(alloc)?)?;
    }
    Ok(types)
}

/// For each type of actions, a row of all that some action of it descends from.
pub(crate) fn type_rows(
    alloc: Global,
    rows: &BTreeMap<Uid, Row>,
) -> Result<BTreeMap<Name, Row>, AllocError>
    ensures { IfOk result (AreTypeRows rows.now) }
{
    let mut types = BTreeMap::new(alloc);
    for (uid, row) in rows.iter() {
        join_type(alloc, &mut types, &uid.ty, row)?;
    }
    Ok(types)
}

// Joins a row to the row of the type.
fn join_type(
    alloc: Global,
    types: &mut BTreeMap<Name, Row>,
    ty: &Name,
    row: &Row,
) -> Result<(), AllocError>
    ensures { OnOk result ((name : List ℕ) (n : ℕ) → type_bit types.new name n ≡ (type_bit types.old name n || (bytes_eq ty.now name && has_bit row.now n))) }
{
    let mut joined = types.remove(ty).unwrap_or(Row::new(alloc));
    joined.join(row)?;
    types.insert(ty.try_clone(alloc)?, joined)?;
    Ok(())
}

/// Whether the row of the one type has the number of an action of the other.
pub(crate) fn some_descends(
    types: &BTreeMap<Name, Row>,
    numbers: &BTreeMap<Uid, usize>,
    low: &Name,
    high: &Name,
) -> bool
    ensures value { result ≡ list_any (has_number types.now low.now high.now) numbers.now.entries }
    ensures found { All (λ e. get uid_cmp numbers.now e.0 ≡ Some e.1) numbers.now.entries }
{
    for (uid, number) in numbers.iter() {
        if uid.ty == *high && has_type_bit(types, low, *number) {
            return true;
        }
    }
    false
}

fn has_type_bit(types: &BTreeMap<Name, Row>, ty: &Name, number: usize) -> bool
    ensures { result ≡ type_bit types.now ty.now number }
{
    match types.get(ty) {
        Some(row) => row.has(number),
        None => false,
    }
}
