//! Actions.
ghost use Rattle.std.specs.Prelude.{◌≡◌, ◌↔◌, Contains, IsTrue, [], map, codes, IfOk, MatchResult, Some, None, option_map};
ghost use Rattle.serde_json.specs.View.{view};
ghost use Rattle.cedar_schema_json.specs.Faults.{Told};
ghost use Rattle.cedar_schema_json.specs.Reads.{scope_of};
ghost use Rattle.cedar_schema_json.specs.Ends.{AreEnds};
ghost use Rattle.cedar_schema_json.specs.TableView.{table_of};
ghost use Rattle.cedar_schema_json.specs.EntryView.{entry_of};
ghost use Rattle.cedar_schema.specs.Declaring.{applies_read, action_of, action_faults};
ghost use Rattle.cedar_schema.specs.Private.ReadsApplies.{ReadsApplies};

use crate::schema::members::read_members_at;
use cedar_schema_json::{
    Entry, Part, SchemaFault, Scope, Table, check_empty, check_part, present, read_names_at,
    read_record_type, set_of,
};
use cedar_schema_types::{RecordType, Type, TypeKind};
use cedar_value::{Name, Uid};
use serde_json::Value;
use std::alloc::Global;
use std::collections::BTreeSet;
use std::marker::Model;

/// An action without its uid (Cedar documentation, JSON schema format: actions).
#[derive(Drop)]
pub struct Action {
    parents: Vec<Uid>,
    principals: BTreeSet<Name>,
    resources: BTreeSet<Name>,
    context: Type,
}

impl Model for Action {
    ghost use Rattle.std.specs.Coded.{codes};
    ghost use Rattle.cedar_schema_types.specs.Private.TypeCode.{type_code};
    ghost use Rattle.cedar_schema_spec.specs.SchemaTree.{ActionTree};

    ghost Value = { ActionTree };

    ghost coded = { Prim.hlevel (codes, type_code) };

    ghost view = { λ a. record { parents = a.parents.items; principals = a.principals.keys; resources = a.resources.keys; context = a.context } };
}

impl Action {
    /// The actions that it is a direct member of, as they are written. Takes no memory.
    pub fn parents(&self) -> &[Uid]
        ensures { result.now ≡ self.now.parents }
    {
        &self.parents
    }

    /// The types of the principals that it applies to, ascending. Takes no memory.
    pub fn principals(&self) -> &BTreeSet<Name>
        ensures { result.now.keys ≡ self.now.principals }
    {
        &self.principals
    }

    /// The types of the resources that it applies to, ascending. Takes no memory.
    pub fn resources(&self) -> &BTreeSet<Name>
        ensures { result.now.keys ≡ self.now.resources }
    {
        &self.resources
    }

    /// Whether it applies to a type of principals and a type of resources. Takes no memory.
    pub fn applies_to(&self, principal: &Name, resource: &Name) -> bool
        ensures { IsTrue result ↔ (Contains self.now.principals principal.now × Contains self.now.resources resource.now) }
    {
        self.principals.contains(principal) && self.resources.contains(resource)
    }

    /// The type of the context, a record type. Takes no memory.
    pub fn context(&self) -> &Type
        ensures { result.now ≡ self.now.context }
    {
        &self.context
    }
}

/// What an action applies to.
#[derive(Drop)]
pub(crate) struct AppliesTo {
    pub principals: BTreeSet<Name>,
    pub resources: BTreeSet<Name>,
    pub context: Type,
}

/// The action that an entry declares.
pub(crate) fn read_action(
    alloc: Global,
    scope: &Scope<'_>,
    table: Table<'_>,
    uids: &BTreeSet<Uid>,
    entry: Entry<'_>,
) -> Result<Action, SchemaFault>
    requires { AreEnds (table_of table.forms.now) table.ends.now }
    ensures { MatchResult result
        (λ a. (action_faults (scope_of scope.now) (table_of table.entry.forms.now) uids.now.keys (entry_of entry.entry) ≡ [])
        × (a ≡ action_of (scope_of scope.now) (table_of table.entry.forms.now) uids.now.keys (entry_of entry.entry)))
        (λ e. Told (action_faults (scope_of scope.now) (table_of table.entry.forms.now) uids.now.keys (entry_of entry.entry)) e) }
{
    check_part(scope.language, Part::Action, entry.body)?;
    let parents = read_members_at(
        alloc,
        scope.language,
        uids,
        scope.namespace,
        present(entry.body, "memberOf"),
    )?;
    let applies = read_applies(alloc, scope, table, present(entry.body, "appliesTo"))?;
    check_empty(present(entry.body, "attributes"))?;
    let AppliesTo {
        principals,
        resources,
        context,
    } = applies;
    Ok(Action {
        parents,
        principals,
        resources,
        context,
    })
}

#[tactic(auto, unfolding(crate::specs::Declaring::applies_read))]
fn read_applies(
    alloc: Global,
    scope: &Scope<'_>,
    table: Table<'_>,
    json: Option<&Value>,
) -> Result<AppliesTo, SchemaFault>
    requires { AreEnds (table_of table.forms.now) table.ends.now }
    ensures { ReadsApplies result (applies_read (scope_of scope.now) (table_of table.entry.forms.now) (option_map (λ v. view v.now) json.entry)) }
{
    match json {
        Some(json) => read_given(alloc, scope, table, json),
        None => Ok(AppliesTo {
            principals: BTreeSet::new(alloc),
            resources: BTreeSet::new(alloc),
            context: Type::new(TypeKind::Record(RecordType::new(alloc))),
        }),
    }
}

fn read_given(
    alloc: Global,
    scope: &Scope<'_>,
    table: Table<'_>,
    json: &Value,
) -> Result<AppliesTo, SchemaFault>
    requires { AreEnds (table_of table.forms.now) table.ends.now }
    ensures { ReadsApplies result (applies_read (scope_of scope.now) (table_of table.entry.forms.now) (Some (view json.now))) }
{
    check_part(scope.language, Part::AppliesTo, json)?;
    let missing = Some(SchemaFault::Unspecified);
    let principals = read_names_at(alloc, scope, json.get("principalTypes"), missing)?;
    let resources = read_names_at(alloc, scope, json.get("resourceTypes"), missing)?;
    let context = read_record_type(alloc, scope, table, json.get("context"))?;
    Ok(AppliesTo {
        principals: set_of(alloc, principals)?,
        resources: set_of(alloc, resources)?,
        context,
    })
}
