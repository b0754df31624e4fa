//! Shapes and contexts: types that expand to records.
ghost use Rattle.std.specs.Prelude.{◌≡◌, [], MatchResult, Some, None, option_map};
ghost use Rattle.serde_json.specs.View.{view};
ghost use Rattle.cedar_schema_json.specs.Faults.{Told};
ghost use Rattle.cedar_schema_json.specs.Reads.{scope_of};
ghost use Rattle.cedar_schema_json.specs.Ends.{AreEnds};
ghost use Rattle.cedar_schema_json.specs.TableView.{table_of, Expands};
ghost use Rattle.cedar_schema_types.specs.Types.{is_record};
ghost use Rattle.cedar_schema_json.specs.Shapes.{record_type, empty_faults};

use crate::form::expansion::build;
use crate::form::position::Position;
use crate::form::reading::read_type;
use crate::form::table::Table;
use crate::json::scope::Scope;
use crate::schema_fault::SchemaFault;
use cedar_schema_types::{RecordType, Type, TypeKind};
use serde_json::Value;
use std::alloc::Global;

/// A type that expands to a record. Where the JSON is absent, the empty record.
///
/// # Errors
///
/// 1 when out of memory, and otherwise 302, 303, 304, 306, 307 or 309 only where that fault is in the JSON.
#[tactic(auto, unfolding(crate::specs::Shapes::record_type))]
pub fn read_record_type(
    alloc: Global,
    scope: &Scope<'_>,
    table: Table<'_>,
    json: Option<&Value>,
) -> Result<Type, SchemaFault>
    requires { AreEnds (table_of table.forms.now) table.ends.now }
    ensures { Expands result (record_type (scope_of scope.now) (table_of table.entry.forms.now) (option_map (λ v. view v.now) json.entry)) }
{
    match json {
        None => Ok(Type::new(TypeKind::Record(RecordType::new(alloc)))),
        Some(json) => read_given(alloc, scope, table, json),
    }
}

fn read_given(
    alloc: Global,
    scope: &Scope<'_>,
    table: Table<'_>,
    json: &Value,
) -> Result<Type, SchemaFault>
    requires { AreEnds (table_of table.forms.now) table.ends.now }
    ensures { Expands result (record_type (scope_of scope.now) (table_of table.entry.forms.now) (Some (view json.now))) }
{
    let form = read_type(alloc, scope, json, Position::Inner)?;
    let ty = build(alloc, table, &form)?;
    if is_record(&ty) {
        Ok(ty)
    } else {
        Err(SchemaFault::Shape)
    }
}

fn is_record(ty: &Type) -> bool
    ensures { result ≡ is_record ty.now }
{
    match ty.kind() {
        TypeKind::Record(_) => true,
        _ => false,
    }
}

/// Refuses, with 302, a JSON that is there and is not an object without members.
pub fn check_empty(json: Option<&Value>) -> Result<(), SchemaFault>
    ensures { MatchResult result
        (λ _. empty_faults (option_map (λ v. view v.now) json.entry) ≡ [])
        (λ e. Told (empty_faults (option_map (λ v. view v.now) json.entry)) e) }
{
    let Some(json) = json else {
        return Ok(());
    };
    match json.as_object() {
        Some(members) if members.is_empty() => Ok(()),
        _ => Err(SchemaFault::Shape),
    }
}
