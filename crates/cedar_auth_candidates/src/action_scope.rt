//! What a scope requires of the action.
ghost use Rattle.std.specs.Prelude.{◌≡◌, ◌≤◌};
ghost use Rattle.cedar_ast.specs.Condition.{action_scope_of};
ghost use Rattle.cedar_code.specs.Code.{size, most_instructions};
ghost use Rattle.cedar_auth_candidates.specs.Private.Met.{is_action_met, is_within_one_of};

use crate::request_entity::RequestEntity;
use cedar_ast::ActionScope;
use cedar_value::{Hierarchy, Uid};

// Whether the action is one of these, or below one.
fn is_within_one<H: Hierarchy>(uids: &[Uid], action: &mut RequestEntity<'_, H>) -> bool
    ensures met { result ≡ is_within_one_of action.old.world action.old.uid uids.now }
    ensures same { action.new ≡ action.old }
{
    for uid in uids {
        if action.is_within(uid) {
            return true;
        }
    }
    false
}

/// Whether the action is what the scope requires (Cedar language reference, policy scope).
pub(crate) fn is_met<H: Hierarchy>(
    scope: &ActionScope<Uid>,
    action: &mut RequestEntity<'_, H>,
) -> bool
    ensures met { result ≡ is_action_met action.old.world action.old.uid scope.now }
    ensures same { action.new ≡ action.old }
{
    match scope {
        ActionScope::Any => true,
        ActionScope::Equal(uid) => action.uid() == uid,
        ActionScope::In(uid) => action.is_within(uid),
        ActionScope::InSet(uids) => is_within_one(uids.as_slice(), action),
    }
}

/// How many instructions the code of the condition on the action has.
pub(crate) fn size_of(scope: &ActionScope<Uid>) -> usize
    requires { size (action_scope_of scope.now) ≤ most_instructions }
    ensures { result ≡ size (action_scope_of scope.now) }
{
    match scope {
        ActionScope::Any => 1,
        ActionScope::Equal(_) | ActionScope::In(_) => 3,
        ActionScope::InSet(uids) => uids.as_slice().len() + 3,
    }
}
