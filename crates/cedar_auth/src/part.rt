//! A policy beside its code.
ghost use Rattle.std.specs.Prelude.{◌≡◌, IfOk, IsSome};
ghost use Rattle.cedar_ast.specs.Response.{meaning};
ghost use Rattle.cedar_machine.specs.Verdict.{verdict_of};
ghost use Rattle.cedar_auth.specs.Private.Ruling.{ruled};
ghost use Rattle.cedar_auth_candidates.specs.Scopes.{sides_of};
ghost use Rattle.cedar_code.specs.TrueSides.{AreTrue};

use crate::evaluator::Evaluator;
use crate::ruling::{is_settled, ruled};
use cedar_ast::{Effect, Policy};
use cedar_ast_expressions::EvaluationError;
use cedar_auth_candidates::place_after_scope;
use cedar_code::{Code, true_sides_are_passed};
use cedar_conjunctions::Conjunction;
use cedar_machine::Operands;
use cedar_value::{Hierarchy, Request};
use std::alloc::{AllocError, Global};
use std::marker::Model;

// Makes operands where there are none.
fn make_operands(alloc: Global, operands: &mut Option<Operands<'_>>)
    ensures { IsSome operands.new }
{
    if operands.is_none() {
        *operands = Some(Operands::new(alloc));
    }
}

/// A policy with what is made of its condition, all lent: the code, and the conjunction that its conditions are, if they are one.
/// Contracts see the policy.
#[derive(Drop)]
pub(crate) struct Part<'v> {
    pub(crate) policy: &'v Policy,
    pub(crate) code: &'v Code,
    pub(crate) conjunction: Option<&'v Conjunction>,
}

impl<'v> Model for Part<'v> {
    ghost use Rattle.std.specs.Prelude.{◌≡◌};
    ghost use Rattle.std.specs.Coded.{codes};
    ghost use Rattle.cedar_ast_expressions.specs.Private.ExpressionCode.{expression_code};
    ghost use Rattle.cedar_ast.specs.PolicyTree.{PolicyTree};
    ghost use Rattle.cedar_auth_spec.specs.Codes.{policy_code};

    ghost Value = { PolicyTree };

    ghost coded = { Prim.hlevel (codes, expression_code) };

    ghost view = { λ p. p.policy.now };

    ghost use Rattle.std.specs.Prelude.{IfSome};
    ghost use Rattle.cedar_ast.specs.Condition.{conditions_of};
    ghost use Rattle.cedar_conjunctions.specs.Alike.{AreAlike};

    ghost invariant = { λ p. (p.code.now.instructions ≡ policy_code p.policy.now)
        × IfSome p.conjunction (λ e. AreAlike e.now (conditions_of p.policy.now.conditions)) };
}

impl<'v> Part<'v> {
    // Whether the policy's condition is true for the request, or its error. The scope is tested first. Where the request meets
    // it, the conditions are evaluated: as they are where they are a conjunction, else from their code.
    pub(crate) fn verdict<'o, 'r: 'o, H: Hierarchy>(
        &self,
        alloc: Global,
        operands: &mut Option<Operands<'o>>,
        evaluator: &mut Evaluator<'r, H>,
    ) -> Result<Result<bool, EvaluationError>, AllocError>
    where
        'v: 'o,
        ensures verdict { IfOk result (λ v. v ≡ verdict_of (meaning evaluator.old.request evaluator.old.world self.now)) }
        ensures same { evaluator.new ≡ evaluator.old }
    {
        if !evaluator.is_met(self.policy.scope()) {
            return Ok(Ok(false));
        }
        match self.conjunction {
            Some(conjunction) => Ok(evaluator.truth(conjunction)),
            None => self.run(alloc, operands, evaluator.request(), evaluator.hierarchy()),
        }
    }

    // Executes the code of the conditions, with operands that are made for the first such policy. The request meets the scope.
    #[inline(never)]
    fn run<'o, H: Hierarchy>(
        &self,
        alloc: Global,
        operands: &mut Option<Operands<'o>>,
        request: &'o Request,
        hierarchy: &'o H,
    ) -> Result<Result<bool, EvaluationError>, AllocError>
    where
        'v: 'o,
        requires { AreTrue (sides_of self.now.scope) request.now (H.world hierarchy.now) }
        ensures { IfOk result (λ v. v ≡ verdict_of (meaning request.now (H.world hierarchy.now) self.now)) }
    {
        // Where the scope is true, the execution comes to the code of the conditions with an empty stack. No code is too long.
        true_sides_are_passed();
        self.code.well_formedness();
        let first = place_after_scope(self.policy.scope());
        make_operands(alloc, operands);
        let Some(operands) = operands else {
            unreachable!()
        };
        operands.decide_from(alloc, self.code, first, request, hierarchy)
    }

    // Which effect rules after this policy too. The policy is run only where that depends on it.
    pub(crate) fn rule<'o, 'r: 'o, H: Hierarchy>(
        &self,
        alloc: Global,
        ruling: Option<Effect>,
        operands: &mut Option<Operands<'o>>,
        evaluator: &mut Evaluator<'r, H>,
    ) -> Result<Option<Effect>, AllocError>
    where
        'v: 'o,
        ensures ruled { IfOk result (λ r. r ≡ ruled ruling self.now.effect (verdict_of (meaning evaluator.old.request evaluator.old.world self.now))) }
        ensures same { evaluator.new ≡ evaluator.old }
    {
        let effect = self.policy.effect();
        if is_settled(ruling, effect) {
            return Ok(ruling);
        }
        let verdict = self.verdict(alloc, operands, evaluator)?;
        Ok(ruled(ruling, effect, verdict))
    }
}
