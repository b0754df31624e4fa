//! What a scope requires of the principal or the resource.
ghost use Rattle.std.specs.Prelude.{◌≡◌};
ghost use Rattle.cedar_ast_expressions.specs.declared.variable.Variable.{Variable};
ghost use Rattle.cedar_ast.specs.Condition.{entity_scope_of};
ghost use Rattle.cedar_code.specs.Code.{size};
ghost use Rattle.cedar_auth_candidates.specs.Private.Met.{is_entity_met};

use crate::request_entity::RequestEntity;
use cedar_ast::EntityScope;
use cedar_value::{Hierarchy, Uid};

/// Whether the entity is what the scope requires (Cedar language reference, policy scope).
pub(crate) fn is_met<H: Hierarchy>(
    scope: &EntityScope<Uid>,
    entity: &mut RequestEntity<'_, H>,
) -> bool
    ensures met { result ≡ is_entity_met entity.old.world entity.old.uid scope.now }
    ensures same { entity.new ≡ entity.old }
{
    match scope {
        EntityScope::Any => true,
        EntityScope::Equal(uid) => entity.uid() == uid,
        EntityScope::In(uid) => entity.is_within(uid),
        EntityScope::Is(name) => entity.uid().ty == *name,
        EntityScope::IsIn(name, uid) => entity.uid().ty == *name && entity.is_within(uid),
    }
}

/// How many instructions the code of the condition on the entity has.
pub(crate) fn size_of(scope: &EntityScope<Uid>) -> usize
    ensures { (x : Variable) → result ≡ size (entity_scope_of x scope.now) }
{
    match scope {
        EntityScope::Any => 1,
        EntityScope::Equal(_) | EntityScope::In(_) => 3,
        EntityScope::Is(_) => 2,
        EntityScope::IsIn(_, _) => 7,
    }
}
