//! Entity types.
ghost use Rattle.std.specs.Prelude.{◌≡◌, [], MatchResult};
ghost use Rattle.cedar_schema_json.specs.Faults.{Told};
ghost use Rattle.cedar_schema_json.specs.Reads.{scope_of};
ghost use Rattle.cedar_schema_json.specs.Ends.{AreEnds};
ghost use Rattle.cedar_schema_json.specs.TableView.{table_of};
ghost use Rattle.cedar_schema_json.specs.EntryView.{entry_of};
ghost use Rattle.cedar_schema.specs.Declaring.{entity_type_of, entity_type_faults};

use cedar_schema_json::{
    Entry, Part, SchemaFault, Scope, Table, check_entity_key, check_part, read_names_at,
    read_record_type,
};
use cedar_schema_types::Type;
use cedar_value::Name;
use std::alloc::Global;
use std::marker::Model;

/// An entity type without its name (Cedar documentation, JSON schema format: entityTypes).
#[derive(Drop)]
pub(crate) struct EntityType {
    pub parents: Vec<Name>,
    pub shape: Type,
}

impl Model for EntityType {
    ghost use Rattle.std.specs.Coded.{codes};
    ghost use Rattle.cedar_schema_types.specs.Private.TypeCode.{type_code};
    ghost use Rattle.cedar_schema_spec.specs.SchemaTree.{EntityTypeTree};

    ghost Value = { EntityTypeTree };

    ghost coded = { Prim.hlevel (codes, type_code) };

    ghost view = { λ e. record { parents = e.parents.items; shape = e.shape } };
}

/// The entity type that an entry declares.
pub(crate) fn read_entity_type(
    alloc: Global,
    scope: &Scope<'_>,
    table: Table<'_>,
    entry: Entry<'_>,
) -> Result<EntityType, SchemaFault>
    requires { AreEnds (table_of table.forms.now) table.ends.now }
    ensures { MatchResult result
        (λ e. (entity_type_faults (scope_of scope.now) (table_of table.entry.forms.now) (entry_of entry.entry) ≡ [])
        × (e ≡ entity_type_of (scope_of scope.now) (table_of table.entry.forms.now) (entry_of entry.entry)))
        (λ e. Told (entity_type_faults (scope_of scope.now) (table_of table.entry.forms.now) (entry_of entry.entry)) e) }
{
    check_entity_key(alloc, scope, entry.key)?;
    check_part(scope.language, Part::EntityType, entry.body)?;
    let parents = read_names_at(alloc, scope, entry.body.get("memberOfTypes"), None)?;
    let shape = read_record_type(alloc, scope, table, entry.body.get("shape"))?;
    Ok(EntityType { parents, shape })
}
