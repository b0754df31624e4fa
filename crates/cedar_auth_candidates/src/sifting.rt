//! Positions whose scopes answer a question with yes.
ghost use Rattle.std.specs.Prelude.{◌↔◌, IsTrue, IfOk};
ghost use Rattle.std.specs.List.{slice_get};
ghost use Rattle.cedar_auth_candidates.specs.Private.Sifting.{Holds, OfPolicy, SiftedBy};

use crate::question::Question;
use crate::scope_tests::{leaves_open, may_meet, meets};
use cedar_ast::{Policy, PolicySet};
use cedar_schema::Schema;
use std::alloc::{AllocError, Global};

// Whether the scope of the policy answers with yes.
fn holds(schema: &Schema, question: Question<'_>, policy: &Policy) -> bool
    ensures { IsTrue result ↔ Holds schema.now question.entry policy.now }
{
    match question {
        Question::AnyAction => leaves_open(&policy.scope().action),
        Question::SomeAction => !leaves_open(&policy.scope().action),
        Question::Action(action) => meets(schema, action, &policy.scope().action),
        Question::Principal(ty) => may_meet(schema, ty, &policy.scope().principal),
        Question::Resource(ty) => may_meet(schema, ty, &policy.scope().resource),
    }
}

// Whether there is a policy at the position whose scope answers with yes.
fn holds_at(schema: &Schema, policies: &PolicySet, question: Question<'_>, position: usize) -> bool
    ensures { IsTrue result ↔ OfPolicy (Holds schema.now question.entry) (slice_get policies.now.policies position) }
{
    match policies.policy(position) {
        Some(policy) => holds(schema, question, policy),
        None => false,
    }
}

/// The positions at which the scope of the policy answers with yes, in order.
pub(crate) fn sifted(
    alloc: Global,
    schema: &Schema,
    policies: &PolicySet,
    question: Question<'_>,
    positions: &[usize],
) -> Result<Vec<usize>, AllocError>
    ensures { IfOk result (λ v. SiftedBy policies.now.policies (Holds schema.now question.entry) positions.now v.items) }
{
    let mut kept = Vec::new(alloc);
    for position in positions {
        if holds_at(schema, policies, question, *position) {
            kept.push(*position)?;
        }
    }
    Ok(kept)
}
