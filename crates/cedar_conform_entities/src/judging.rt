//! Checks of an entry against the schema.
ghost use Rattle.std.specs.Prelude.{◌≡◌, ◌↔◌, Contains, IsTrue, MatchResult, Some};
ghost use Rattle.serde_json.specs.View.{view};
ghost use Rattle.cedar_conform_entities.specs.Denotes.{RepeatsAction};
ghost use Rattle.cedar_conform_entities.specs.Entries.{IsActionName, Writes};
ghost use Rattle.cedar_conform_entities.specs.Private.Parts.{EndsInAction, HasParentsFault, IsGoodParent};
ghost use Rattle.cedar_schema_spec.specs.Descents.{ActionDescends};
ghost use Rattle.cedar_value.specs.declared.uid.Uid.{Uid as UidTree};

use crate::keys::has_no_attributes;
use crate::written::WrittenEntity;
use cedar_conform_values::ConformFault;
use cedar_schema::Schema;
use cedar_value::{Name, Uid};
use serde_json::Value as Json;

/// Whether the last part of the name is `Action`.
pub(crate) fn is_action_name(name: &Name) -> bool
    ensures { IsTrue result ↔ IsActionName name.now }
{
    let text = name.as_str();
    text == "Action" || is_in_namespace(text.as_bytes())
}

fn is_in_namespace(text: &[u8]) -> bool
    ensures { IsTrue result ↔ EndsInAction text.now }
{
    text.ends_with(b"::Action")
}

/// Whether an entry repeats an action as the schema has it.
pub(crate) fn repeats_action(schema: &Schema, json: &Json, written: &WrittenEntity) -> bool
    requires written { Writes (view json.now) written.now.uid written.now.parents.items }
    requires named { IsActionName written.now.uid.ty }
    ensures { IsTrue result ↔ RepeatsAction schema.now (view json.now) written.now.uid written.now.parents.items }
{
    has_no_attributes(json)
        && schema.has_action(&written.uid)
        && descends_from_all(schema, &written.uid, &written.parents)
}

fn descends_from_all(schema: &Schema, action: &Uid, ancestors: &[Uid]) -> bool
    ensures { IsTrue result ↔ ((p : UidTree) → Contains ancestors.now p → ActionDescends schema.now action.now p) }
{
    let mut rest = ancestors;
    'walk: while let Some((ancestor, others)) = rest.split_first() {
        if !schema.action_descends(action, ancestor) {
            return false;
        }
        rest = others;
    }
    true
}

/// Refuses with 503 a parent whose type is not declared, and with 507 one from whose type the entity's own does not descend.
pub(crate) fn judge_parents(schema: &Schema, uid: &Uid, parents: &[Uid]) -> Result<(), ConformFault>
    ensures { MatchResult result
        (λ _. (p : UidTree) → Contains parents.now p → IsGoodParent schema.now uid.now p)
        (HasParentsFault schema.now uid.now parents.now) }
{
    let mut rest = parents;
    'walk: while let Some((parent, others)) = rest.split_first() {
        if schema.attributes(&parent.ty).is_none() {
            return Err(ConformFault::UnknownType);
        }
        if !schema.type_descends(&uid.ty, &parent.ty) {
            return Err(ConformFault::BadAncestor);
        }
        rest = others;
    }
    Ok(())
}
