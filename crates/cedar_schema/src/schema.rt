//! Schemas.
ghost use Rattle.std.specs.Prelude.{◌≡◌, ◌≢◌, ◌↔◌, IfOk, IfErr, IfSome, IsTrue, MatchOption, is_some, option_copied, []};
ghost use Rattle.cedar_ext.specs.declared.language.Language.TheVariants.{Profile};
ghost use Rattle.cedar_schema_json.specs.declared.schema_fault.SchemaFault.TheVariants.{OutOfMemory};
ghost use Rattle.cedar_schema_spec.specs.Declarations.{IsAction, IsActionType};
ghost use Rattle.serde_json.specs.View.{view};
ghost use Rattle.cedar_schema.specs.Denotes.{BytesAreRefusedWith, BytesDenote, Denotes, IsRefusedWith};
ghost use Rattle.cedar_schema.specs.Positions.{IsEnvironmentAt};
ghost use Rattle.cedar_schema.specs.Private.Answers.{Answers};
ghost use Rattle.cedar_schema_spec.specs.Descents.{ActionDescends, ActionTypeDescends, EntityTypeDescends, TypeDescends};
ghost use Rattle.cedar_schema_spec.specs.SchemaTree.{HasEnvironment, HasNoEnvironment, action_at, environments_of, ids_of, shape_of};
ghost use Rattle.cedar_schema_spec.specs.WellFormed.{AreActionContextsOrdered, AreContextsOrdered, AreEnvironmentsInOrder, AreListsDeclared, AreMembersDeclared, AreParentsDeclared, AreShapesOrdered, AreTypesApart, AreTypesDeclared, IsHierarchy, IsListedInOrder, IsWellFormed};

mod action;
mod ancestors;
pub(crate) mod declarations;
mod descents;
mod entity_type;
mod environment;
mod graph;
mod listed;
pub(crate) mod members;
mod numbers;
mod place;
pub(crate) mod reading;
mod rows;

use crate::schema::ancestors::types_above;
use crate::schema::descents::Descents;
use crate::schema::entity_type::EntityType;
use crate::schema::environment::environments_of;
use crate::schema::place::{is_at, place_of};
use crate::schema::reading::read_schema;
use crate::schema::rows::{action_rows, action_types, some_descends, type_rows};
pub use action::Action;
use base_json::read_json;
use base_search::Row;
use cedar_ext::Language;
use cedar_schema_json::{Enumeration, SchemaFault};
use cedar_schema_spec::Environment;
use cedar_schema_types::Type;
use cedar_value::{Name, Uid};
use serde_json::Value;
use std::alloc::Global;
use std::collections::btree_map::Iter;
use std::collections::{BTreeMap, BTreeSet};
use std::marker::Model;

/// A schema, which contracts see as the entity types, the actions and the enumerations that it declares, all as
/// ascending lists (Cedar documentation, JSON schema format; Cedar RFC 53).
#[derive(Drop)]
pub struct Schema {
    entities: BTreeMap<Name, EntityType>,
    actions: BTreeMap<Uid, Action>,
    enumerated: BTreeMap<Name, Enumeration>,
    environments: Vec<Environment>,
    types_above: Descents<Name>,
    actions_above: Descents<Uid>,
    action_types: BTreeSet<Name>,
    type_rows: BTreeMap<Name, Row>,
}

impl Model for Schema {
    ghost use Rattle.std.specs.Coded.{codes};
    ghost use Rattle.cedar_schema_types.specs.Private.TypeCode.{type_code};
    ghost use Rattle.cedar_schema_spec.specs.SchemaTree.{SchemaTree};
    ghost use Rattle.cedar_schema.specs.Private.KeptSchema.{IsKept};

    ghost Value = { SchemaTree };

    ghost coded = { Prim.hlevel (codes, type_code) };

    ghost view = { λ s. record { entities = s.entities.entries; actions = s.actions.entries; enumerated = s.enumerated.entries } };

    ghost invariant = { λ s. IsKept (record { entities = s.entities.entries; actions = s.actions.entries; enumerated = s.enumerated.entries }) s.environments.items s.types_above s.actions_above s.action_types s.type_rows };
}

impl Schema {
    /// The schema that the bytes write in the profile (Cedar documentation, JSON schema format).
    ///
    /// # Errors
    ///
    /// 1 when out of memory, and otherwise 301 to 309 only where that fault is in the bytes.
    pub fn read(alloc: Global, bytes: &[u8]) -> Result<Self, SchemaFault>
        ensures denotes { IfOk result (BytesDenote Profile bytes.now) }
        ensures refused { IfErr result (λ e. e ≢ OutOfMemory → BytesAreRefusedWith Profile bytes.now e) }
    {
        Schema::read_in(alloc, Language::Profile, bytes)
    }

    /// The schema that the bytes write in a language (Cedar documentation, JSON schema format). The languages differ in their
    /// extension types.
    ///
    /// # Errors
    ///
    /// 1 when out of memory, and otherwise 301 to 309 only where that fault is in the bytes.
    pub fn read_in(alloc: Global, language: Language, bytes: &[u8]) -> Result<Self, SchemaFault>
        ensures denotes { IfOk result (BytesDenote language bytes.now) }
        ensures refused { IfErr result (λ e. e ≢ OutOfMemory → BytesAreRefusedWith language bytes.now e) }
    {
        match read_json(alloc, bytes)? {
            Some(json) => read_schema(alloc, language, &json),
            None => Err(SchemaFault::Json),
        }
    }

    /// The schema that a JSON denotes in a language (Cedar documentation, JSON schema format).
    ///
    /// # Errors
    ///
    /// 1 when out of memory, and otherwise 302 to 309 only where that fault is in the JSON.
    pub fn of_json(alloc: Global, language: Language, json: &Value) -> Result<Self, SchemaFault>
        ensures denotes { IfOk result (Denotes language (view json.now)) }
        ensures refused { IfErr result (λ e. e ≢ OutOfMemory → IsRefusedWith language (view json.now) e) }
    {
        read_schema(alloc, language, json)
    }

    // The schema of these entity types, actions and enumerations, or 305 where an action is above itself.
    pub(crate) fn new(
        alloc: Global,
        entities: BTreeMap<Name, EntityType>,
        actions: BTreeMap<Uid, Action>,
        enumerated: BTreeMap<Name, Enumeration>,
    ) -> Result<Self, SchemaFault>
        requires { IsWellFormed (record { entities = entities.entries; actions = actions.entries; enumerated = enumerated.entries }) }
        ensures { Answers result [] (record { entities = entities.entries; actions = actions.entries; enumerated = enumerated.entries }) }
    {
        let types_above = types_above(alloc, &entities)?;
        let actions_above = action_rows(alloc, &actions)?;
        let type_rows = type_rows(alloc, &actions_above.rows)?;
        let environments = environments_of(alloc, &actions)?;
        let action_types = action_types(alloc, &actions)?;
        Ok(Schema {
            entities,
            actions,
            enumerated,
            environments,
            types_above,
            actions_above,
            action_types,
            type_rows,
        })
    }

    /// What every schema keeps (cedar-spec, Lean: Cedar.Validation, well-formed schemas). The soundness of typing rests on it.
    /// Its entity types, its actions and its environments are listed in ascending order, each once. No action's type is an
    /// entity type. Declared are: the types that an entity type is a direct member of, those in shapes and contexts, those that
    /// an action applies to, and the members of actions. What is above an action is declared and never the action itself.
    /// Shapes and contexts are types of records, in which the keys of each record ascend. A law: it runs no code.
    pub fn well_formedness(&self)
        ensures in_order { IsListedInOrder self.now }
        ensures environments { AreEnvironmentsInOrder self.now }
        ensures entity_parents { AreParentsDeclared self.now }
        ensures apart { AreTypesApart self.now }
        ensures members { AreMembersDeclared self.now }
        ensures hierarchy { IsHierarchy self.now }
        ensures shapes { AreShapesOrdered self.now }
        ensures contexts { AreContextsOrdered self.now }
        ensures lists { AreListsDeclared self.now }
        ensures action_contexts { AreActionContextsOrdered self.now }
        ensures types_declared { AreTypesDeclared self.now }
    {
        let _kept = &self.entities;
    }

    /// The environments, each once, in ascending order: first of the action's uid, then of the principal's type, then of the
    /// resource's type. Takes no memory.
    pub fn environments(&self) -> &[Environment]
        ensures { result.now ≡ environments_of self.now.actions }
    {
        &self.environments
    }

    /// The declared actions, ascending by their uids. Takes no memory.
    pub fn actions(&self) -> Iter<'_, Uid, Action>
        ensures { result ≡ self.now.actions }
    {
        self.actions.iter()
    }

    /// The shape of the attributes of an entity type, which is a record type. None exactly where there is no such entity type.
    /// Takes no memory.
    pub fn attributes(&self, name: &Name) -> Option<&Type>
        ensures { option_copied result ≡ shape_of self.now name.now }
    {
        match self.entities.get(name) {
            Some(found) => Some(&found.shape),
            None => None,
        }
    }

    /// The name of an entity type as the schema keeps it, so that its text can be shared. None exactly where
    /// there is no such entity type. Takes no memory.
    pub fn entity_type(&self, name: &Name) -> Option<&Name>
        ensures same { IfSome result (λ n. n.now ≡ name.now) }
        ensures declared { is_some result ≡ is_some (shape_of self.now name.now) }
    {
        match self.entities.get_key_value(name) {
            Some((found, _)) => Some(found),
            None => None,
        }
    }

    /// The ids of an enumerated entity type. None exactly where the type is not enumerated (Cedar RFC 53). Takes no memory.
    pub fn enumeration(&self, name: &Name) -> Option<&Enumeration>
        ensures { option_copied result ≡ ids_of self.now name.now }
    {
        self.enumerated.get(name)
    }

    /// The declared action of this uid. Takes no memory, and as many comparisons as the logarithm of the number of actions.
    pub fn action(&self, uid: &Uid) -> Option<&Action>
        ensures { option_copied result ≡ action_at self.now uid.now }
    {
        self.actions.get(uid)
    }

    /// Whether the action is declared. Takes no memory, and as many comparisons as `action`.
    pub fn has_action(&self, uid: &Uid) -> bool
        ensures { IsTrue result ↔ IsAction self.now uid.now }
    {
        self.actions.contains_key(uid)
    }

    /// Whether some declared action is of this type. Takes no memory, and as many comparisons as the logarithm of the number of
    /// types.
    pub fn has_action_type(&self, name: &Name) -> bool
        ensures { IsTrue result ↔ IsActionType self.now name.now }
    {
        self.action_types.contains(name)
    }

    /// The type of the context in the environment of an action with a type of principals and a type of resources. None exactly
    /// where there is no such environment. Takes no memory, and as many comparisons as the logarithms of the numbers of actions
    /// and of the types that the action applies to.
    pub fn context(&self, action: &Uid, principal: &Name, resource: &Name) -> Option<&Type>
        ensures { MatchOption result
            (HasNoEnvironment self.now.actions action.now principal.now resource.now)
            (λ context. HasEnvironment self.now.actions action.now principal.now resource.now context.now) }
    {
        // The uids of the actions ascend, each once.
        self.well_formedness();
        let Some(found) = self.action(action) else {
            return None;
        };
        if found.applies_to(principal, resource) {
            Some(found.context())
        } else {
            None
        }
    }

    /// The position, in [`Schema::environments`], of the environment of an action with a type of principals and a type of resources.
    /// None exactly where there is no such environment. It is looked for at the position `guess` first, and otherwise found with as many
    /// comparisons as the logarithm of the number of environments. Takes no memory.
    pub fn environment(
        &self,
        action: &Uid,
        principal: &Name,
        resource: &Name,
        guess: usize,
    ) -> Option<usize>
        ensures { MatchOption result
            (HasNoEnvironment self.now.actions action.now principal.now resource.now)
            (IsEnvironmentAt (environments_of self.now.actions) action.now principal.now resource.now) }
    {
        // The environments ascend, each once.
        self.well_formedness();
        let environments = self.environments();
        if is_at(environments, guess, action, principal, resource) {
            return Some(guess);
        }
        place_of(environments, action, principal, resource)
    }

    // Whether the one entity type descends from the other through links of `memberOfTypes`.
    fn entity_type_descends(&self, low: &Name, high: &Name) -> bool
        ensures { IsTrue result ↔ EntityTypeDescends self.now low.now high.now }
    {
        self.types_above.descends(low, high)
    }

    /// Whether the one type descends from the other: an entity type through one or more links of `memberOfTypes`, an action's
    /// type where some action of it descends from some action of the other. Takes no memory. For types of actions the time
    /// grows with the number of actions that others are members of.
    pub fn type_descends(&self, low: &Name, high: &Name) -> bool
        ensures { IsTrue result ↔ TypeDescends self.now low.now high.now }
    {
        self.entity_type_descends(low, high) || self.action_type_descends(low, high)
    }

    // Whether some action of the one type descends from some action of the other.
    fn action_type_descends(&self, low: &Name, high: &Name) -> bool
        ensures { IsTrue result ↔ ActionTypeDescends self.now low.now high.now }
    {
        some_descends(&self.type_rows, &self.actions_above.numbers, low, high)
    }

    /// Whether the one action descends from the other through one or more links of `memberOf`. Takes no memory, and as many
    /// comparisons as the logarithm of the number of actions.
    pub fn action_descends(&self, low: &Uid, high: &Uid) -> bool
        ensures { IsTrue result ↔ ActionDescends self.now low.now high.now }
    {
        self.actions_above.descends(low, high)
    }
}
