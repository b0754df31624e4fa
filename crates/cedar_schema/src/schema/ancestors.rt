//! What entity types and actions descend from: all that chains of links lead to.
ghost use Rattle.std.specs.Prelude.{◌≡◌, IfOk};
ghost use Rattle.cedar_value.specs.Order.{text_cmp, uid_cmp};
ghost use Rattle.cedar_schema_spec.specs.SchemaTree.{parents_of_type, parents_of_action};
ghost use Rattle.cedar_schema.specs.Private.Kept.{AreRows};

use crate::schema::action::Action;
use crate::schema::descents::{Descents, descents_of};
use crate::schema::entity_type::EntityType;
use base_reach::Links;
use cedar_value::{Name, Uid};
use std::alloc::{AllocError, Global};
use std::collections::BTreeMap;

// The links of `memberOfTypes`.
#[derive(Clone, Copy)]
struct TypeLinks<'a> {
    declared: &'a BTreeMap<Name, EntityType>,
}

impl Links<Name> for TypeLinks<'_> {
    ghost use Rattle.std.specs.Map.{keys_of};
    ghost use Rattle.cedar_schema_spec.specs.SchemaTree.{parents_of_type};
    ghost use Rattle.cedar_schema_spec.specs.Private.Linked.{types_listed};

    ghost links = { λ graph. parents_of_type graph.declared.now.entries };

    ghost sources = { λ graph. keys_of graph.declared.now.entries };

    fn links(&self, from: &Name) -> &[Name] {
        match self.declared.get(from) {
            Some(found) => &found.parents,
            None => &[],
        }
    }

    ghost listed = { λ graph. types_listed graph.declared.now.entries };
}

// The links of `memberOf`.
#[derive(Clone, Copy)]
struct ActionLinks<'a> {
    declared: &'a BTreeMap<Uid, Action>,
}

impl Links<Uid> for ActionLinks<'_> {
    ghost use Rattle.std.specs.Map.{keys_of};
    ghost use Rattle.cedar_schema_spec.specs.SchemaTree.{parents_of_action};
    ghost use Rattle.cedar_schema_spec.specs.Private.Linked.{actions_listed};

    ghost links = { λ graph. parents_of_action graph.declared.now.entries };

    ghost sources = { λ graph. keys_of graph.declared.now.entries };

    fn links(&self, from: &Uid) -> &[Uid] {
        match self.declared.get(from) {
            Some(found) => found.parents(),
            None => &[],
        }
    }

    ghost listed = { λ graph. actions_listed graph.declared.now.entries };
}

/// What the entity types descend from.
pub(crate) fn types_above(
    alloc: Global,
    declared: &BTreeMap<Name, EntityType>,
) -> Result<Descents<Name>, AllocError>
    ensures { IfOk result (AreRows text_cmp (parents_of_type declared.now.entries)) }
{
    descents_of(alloc, declared, &TypeLinks { declared })
}

/// What the actions descend from.
pub(crate) fn actions_above(
    alloc: Global,
    declared: &BTreeMap<Uid, Action>,
) -> Result<Descents<Uid>, AllocError>
    ensures { IfOk result (AreRows uid_cmp (parents_of_action declared.now.entries)) }
{
    descents_of(alloc, declared, &ActionLinks { declared })
}
