//! Lists of entity types.
ghost use Rattle.std.specs.Prelude.{◌≡◌, ◌∷◌, [], IfOk, Some, None, option_map};
ghost use Rattle.std.specs.Option.{option_to_list};
ghost use Rattle.serde_json.specs.View.{view, items_view};
ghost use Rattle.cedar_schema_json.specs.Lists.{name_read, each_read, names_at, set_onto};
ghost use Rattle.cedar_schema_json.specs.ReadsLists.{ReadsList, ReadsItem};
ghost use Rattle.cedar_schema_json.specs.Reads.{scope_of};

use crate::json::naming::read_declared;
use crate::json::scope::Scope;
use crate::schema_fault::SchemaFault;
use cedar_value::Name;
use serde_json::Value;
use std::alloc::{AllocError, Global};
use std::collections::BTreeSet;

/// The declared entity types of a list.
///
/// # Errors
///
/// 1 when out of memory, and `missing`, if it is given, where the list is absent. Otherwise 302, 303 or 306 only where that
/// fault is in the list.
pub fn read_names_at(
    alloc: Global,
    scope: &Scope<'_>,
    list: Option<&Value>,
    missing: Option<SchemaFault>,
) -> Result<Vec<Name>, SchemaFault>
    ensures { ReadsList result (names_at (scope_of scope.now) (option_to_list missing) (option_map (λ v. view v.now) list.entry)) }
{
    match list {
        None => match missing {
            None => Ok(Vec::new(alloc)),
            Some(fault) => Err(fault),
        },
        Some(list) => match list.as_array() {
            None => Err(SchemaFault::Shape),
            Some(items) => read_names(alloc, scope, items),
        },
    }
}

fn read_names(
    alloc: Global,
    scope: &Scope<'_>,
    items: &Vec<Value>,
) -> Result<Vec<Name>, SchemaFault>
    ensures { ReadsList result (each_read (name_read (scope_of scope.now).entities (scope_of scope.now).namespace) (items_view items.now.items)) }
{
    let mut names = Vec::new(alloc);
    for i in 0..items.len() {
        let name = read_name_at(alloc, scope, &items[i])?;
        names.push(name)?;
    }
    Ok(names)
}

fn read_name_at(alloc: Global, scope: &Scope<'_>, item: &Value) -> Result<Name, SchemaFault>
    ensures { ReadsItem result (name_read (scope_of scope.now).entities (scope_of scope.now).namespace (view item.now)) }
{
    match item.as_str() {
        None => Err(SchemaFault::Shape),
        Some(text) => {
            let found = read_declared(alloc, scope.entities, scope.namespace, text)?;
            Ok(found.0)
        }
    }
}

/// The names as a set.
pub fn set_of(alloc: Global, names: Vec<Name>) -> Result<BTreeSet<Name>, AllocError>
    ensures { IfOk result (λ s. s.keys ≡ set_onto [] names.items) }
{
    let mut set = BTreeSet::new(alloc);
    for name in names {
        set.insert(name)?;
    }
    Ok(set)
}
