//! A request for which the scopes of many policies are tested.
ghost use Rattle.std.specs.Prelude.{◌≡◌, true, false};
ghost use Rattle.cedar_code.specs.TrueSides.{AreTrue};
ghost use Rattle.cedar_auth_candidates.specs.Private.Met.{is_scope_met};
ghost use Rattle.cedar_auth_candidates.specs.Scopes.{sides_of, IsUnmet};

use crate::request_entity::RequestEntity;
use crate::{action_scope, entity_scope};
use cedar_ast::Scope;
use cedar_store::Store;
use cedar_value::{Hierarchy, Request, Uid};
use std::marker::Model;

/// A request over a hierarchy, for which the scopes of many policies are tested. Contracts see a `ScopeMatcherView`.
#[derive(Drop)]
pub struct ScopeMatcher<'r, H: Hierarchy> {
    // Contracts alone read it: its entities are tested.
    request: &'r Request,
    principal: RequestEntity<'r, H>,
    action: RequestEntity<'r, H>,
    resource: RequestEntity<'r, H>,
}

impl<'r, H: Hierarchy> Model for ScopeMatcher<'r, H> {
    ghost use Rattle.std.specs.Coded.{codes};
    ghost use Rattle.cedar_value.specs.Private.DatumCode.{datum_code};
    ghost use Rattle.cedar_auth_candidates.specs.Private.Met.{IsEntityOf};
    ghost use Rattle.cedar_auth_candidates.specs.ScopeMatcherView.{ScopeMatcherView};

    ghost Value = { ScopeMatcherView };

    ghost coded = { Prim.hlevel (codes, datum_code) };

    ghost view = { λ m. record { request = m.request.now; world = m.principal.world } };

    ghost invariant = { λ m. IsEntityOf m.principal.world m.request.now.principal m.principal
        × IsEntityOf m.principal.world m.request.now.action m.action
        × IsEntityOf m.principal.world m.request.now.resource m.resource };
}

impl<'r> ScopeMatcher<'r, Store> {
    /// A request over a store. Each of its entities is looked up at the first `in` that asks for it, and not again.
    pub fn over(request: &'r Request, store: &'r Store) -> Self
        ensures request { result.request ≡ request.now }
        ensures world { result.world ≡ store.now }
    {
        ScopeMatcher {
            request,
            principal: RequestEntity::over(&request.principal, store),
            action: RequestEntity::over(&request.action, store),
            resource: RequestEntity::over(&request.resource, store),
        }
    }
}

impl<'r, H: Hierarchy> ScopeMatcher<'r, H> {
    /// A request over a hierarchy, which each `in` asks.
    pub fn new(request: &'r Request, hierarchy: &'r H) -> Self
        ensures request { result.request ≡ request.now }
        ensures world { result.world ≡ H.world hierarchy.now }
    {
        ScopeMatcher {
            request,
            principal: RequestEntity::new(&request.principal, hierarchy),
            action: RequestEntity::new(&request.action, hierarchy),
            resource: RequestEntity::new(&request.resource, hierarchy),
        }
    }

    // Whether the request meets each of the scope's three sides. Policies are found mostly by their principal, and all that are found may
    // meet the action. So the resource is tested first, and the action last.
    fn meets(&mut self, scope: &Scope<Uid>) -> bool
        ensures met { result ≡ is_scope_met self.old.world self.old.request scope.now }
        ensures same { self.new ≡ self.old }
    {
        entity_scope::is_met(&scope.resource, &mut self.resource)
            && entity_scope::is_met(&scope.principal, &mut self.principal)
            && action_scope::is_met(&scope.action, &mut self.action)
    }

    /// Whether the request meets the scope (Cedar language reference, policy scope). If it does, each of the scope's three sides is
    /// true. If not, the whole condition is false, whatever follows the scope. A scope has no errors. Takes no memory.
    pub fn is_met(&mut self, scope: &Scope<Uid>) -> bool
        ensures met { result ≡ true → AreTrue (sides_of scope.now) self.old.request self.old.world }
        ensures unmet { result ≡ false → IsUnmet scope.now self.old.request self.old.world }
        ensures same { self.new ≡ self.old }
    {
        self.meets(scope)
    }
}
