//! A request for which many policies are evaluated.
ghost use Rattle.std.specs.Prelude.{◌≡◌, true, false};
ghost use Rattle.cedar_ast_expressions.specs.Evaluation.{eval};
ghost use Rattle.cedar_auth_candidates.specs.Scopes.{sides_of, IsUnmet};
ghost use Rattle.cedar_code.specs.TrueSides.{AreTrue};
ghost use Rattle.cedar_conjunctions.specs.Alike.{truth_found};

use cedar_ast::Scope;
use cedar_ast_expressions::EvaluationError;
use cedar_auth_candidates::ScopeMatcher;
use cedar_conjunctions::{Conjunction, Sources};
use cedar_store::Store;
use cedar_value::{Hierarchy, Request, Uid};
use std::marker::Model;

/// A request over a hierarchy, with what policies look up for it: each is looked up once for all of them. Contracts see a `SourcesView`.
#[derive(Drop)]
pub(crate) struct Evaluator<'r, H: Hierarchy> {
    matcher: ScopeMatcher<'r, H>,
    sources: Sources<'r, H>,
}

impl<'r, H: Hierarchy> Model for Evaluator<'r, H> {
    ghost use Rattle.std.specs.Prelude.{◌≡◌};
    ghost use Rattle.std.specs.Coded.{codes};
    ghost use Rattle.cedar_value.specs.Private.DatumCode.{datum_code};
    ghost use Rattle.cedar_conjunctions.specs.SourcesView.{SourcesView};

    ghost Value = { SourcesView };

    ghost coded = { Prim.hlevel (codes, datum_code) };

    ghost view = { λ e. e.sources };

    ghost invariant = { λ e. (e.matcher.request ≡ e.sources.request) × (e.matcher.world ≡ e.sources.world) };
}

impl<'r> Evaluator<'r, Store> {
    /// A request over a store. Nothing is looked up yet.
    pub(crate) fn over(request: &'r Request, store: &'r Store) -> Self
        ensures request { result.request ≡ request.now }
        ensures world { result.world ≡ store.now }
    {
        Evaluator {
            matcher: ScopeMatcher::over(request, store),
            sources: Sources::new(request, store),
        }
    }
}

impl<'r, H: Hierarchy> Evaluator<'r, H> {
    /// A request over a hierarchy. Nothing is looked up yet.
    pub(crate) fn new(request: &'r Request, hierarchy: &'r H) -> Self
        ensures request { result.request ≡ request.now }
        ensures world { result.world ≡ H.world hierarchy.now }
    {
        Evaluator {
            matcher: ScopeMatcher::new(request, hierarchy),
            sources: Sources::new(request, hierarchy),
        }
    }

    /// The request.
    pub(crate) fn request(&self) -> &'r Request
        ensures { result.now ≡ self.now.request }
    {
        self.sources.request()
    }

    /// The hierarchy.
    pub(crate) fn hierarchy(&self) -> &'r H
        ensures { H.world result.now ≡ self.now.world }
    {
        self.sources.hierarchy()
    }

    /// Whether the request meets the scope (Cedar language reference, policy scope). If it does, each of the scope's three sides is
    /// true. If not, the whole condition is false, whatever follows the scope.
    pub(crate) fn is_met(&mut self, scope: &Scope<Uid>) -> bool
        ensures met { result ≡ true → AreTrue (sides_of scope.now) self.old.request self.old.world }
        ensures unmet { result ≡ false → IsUnmet scope.now self.old.request self.old.world }
        ensures same { self.new ≡ self.old }
    {
        self.matcher.is_met(scope)
    }

    /// Whether the conjunction is true for the request, or its error.
    pub(crate) fn truth<'o>(
        &mut self,
        conjunction: &'o Conjunction,
    ) -> Result<bool, EvaluationError>
    where
        'r: 'o,
        ensures truth { result ≡ truth_found (eval conjunction.now self.old.request self.old.world) }
        ensures same { self.new ≡ self.old }
    {
        conjunction.truth(&mut self.sources)
    }
}
