//! Scopes.
ghost use Rattle.std.specs.Prelude.{◌≡◌, option_copied, IfOk};
ghost use Rattle.std.specs.Option.{ForSome};
ghost use Rattle.cedar_ast.specs.Scope.{entity_in, scope_map};

use crate::uids::Uids;
use cedar_value::{Name, Uid};
use std::alloc::{AllocError, Global};

/// What a scope requires of the principal or the resource (Cedar language reference, policy scope). `E` is what names an entity:
/// a uid in a policy, a uid or a slot in a template.
#[derive(Drop)]
pub enum EntityScope<E> {
    /// Nothing.
    Any,
    /// `== E`
    Equal(E),
    /// `in E`
    In(E),
    /// `is T`
    Is(Name),
    /// `is T in E`
    IsIn(Name, E),
}

impl<E> EntityScope<E> {
    /// The entity that the scope names, lent, if it names one.
    pub fn entity(&self) -> Option<&E>
        ensures { option_copied result ≡ entity_in self.now }
    {
        match self {
            EntityScope::Any | EntityScope::Is(_) => None,
            EntityScope::Equal(entity) | EntityScope::In(entity) | EntityScope::IsIn(_, entity) => {
                Some(entity)
            }
        }
    }

    /// The same requirement, of what `make` makes of the entity that is named.
    pub fn map<F, M: FnOnce(E) -> F>(self, make: M) -> EntityScope<F>
        requires { ForSome (entity_in self) (M.pre make) }
        ensures { (f : E → F) → ((e : E) (made : F) → M.post make e made → made ≡ f e) → result ≡ scope_map f self }
    {
        match self {
            EntityScope::Any => EntityScope::Any,
            EntityScope::Equal(entity) => EntityScope::Equal(make(entity)),
            EntityScope::In(entity) => EntityScope::In(make(entity)),
            EntityScope::Is(ty) => EntityScope::Is(ty),
            EntityScope::IsIn(ty, entity) => EntityScope::IsIn(ty, make(entity)),
        }
    }
}

/// What a scope requires of the action (Cedar language reference, policy scope). `U` is what names an action.
#[derive(Drop)]
pub enum ActionScope<U> {
    /// Nothing.
    Any,
    /// `== U`
    Equal(U),
    /// `in U`
    In(U),
    /// `in [U, ..]`
    InSet(Uids<U>),
}

impl ActionScope<Uid> {
    /// A copy, equal to the original.
    pub(crate) fn try_clone(&self, alloc: Global) -> Result<Self, AllocError>
        ensures { IfOk result (λ scope. scope ≡ self.now) }
    {
        match self {
            ActionScope::Any => Ok(ActionScope::Any),
            ActionScope::Equal(entity) => Ok(ActionScope::Equal(entity.try_clone(alloc)?)),
            ActionScope::In(entity) => Ok(ActionScope::In(entity.try_clone(alloc)?)),
            ActionScope::InSet(entities) => Ok(ActionScope::InSet(entities.try_clone(alloc)?)),
        }
    }
}

/// A scope (Cedar language reference, policy scope). `E` is what names an entity in it, and `U`
/// what names an action.
#[derive(Drop)]
pub struct Scope<E, U = Uid> {
    /// What the principal has to be.
    pub principal: EntityScope<E>,
    /// What the action has to be. It has no slot.
    pub action: ActionScope<U>,
    /// What the resource has to be.
    pub resource: EntityScope<E>,
}
