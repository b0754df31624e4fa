//! Policies that strict validation accepted.
ghost use Rattle.std.specs.Prelude.{◌≡◌, ℕ, ◌<◌, length, Contains, IfOk, IfErr, OnOk, option_copied, slice_get};
ghost use Rattle.cedar_ast.specs.Response.{response};
ghost use Rattle.cedar_check_spec.specs.Reports.{AreWarningsWith};
ghost use Rattle.cedar_check_spec.specs.Settings.{default_settings};
ghost use Rattle.cedar_auth_spec.specs.Validation.{IsValidated, IsValidatedWith};
ghost use Rattle.cedar_auth.specs.ValidationFaults.{HasFault, HasFaultWith};
ghost use Rattle.cedar_auth.specs.Private.Kept.{AreCompiled};
ghost use Rattle.cedar_auth.specs.Private.Selected.{policies_at};
ghost use Rattle.cedar_auth.specs.Private.Tally.{response_by, tally_of};

use crate::compiled::Compiled;
use crate::evaluator::Evaluator;
use crate::judged::{Judged, judge_all};
use crate::not_validated::NotValidated;
use crate::part::Part;
use crate::response::Response;
use crate::ruling::decision_by;
use crate::tally::Tally;
use crate::validation_fault::ValidationFault;
use cedar_ast::{Decision, PolicySet};
use cedar_auth_candidates::all_positions;
use cedar_check_law::typing_is_determined;
use cedar_check_spec::Settings;
use cedar_schema::Schema;
use cedar_value::{Hierarchy, Request, Text};
use std::alloc::{AllocError, Global};
use std::marker::Model;

/// A schema and policies that strict validation accepts for it, under settings that stay with them, with the policies'
/// codes, compiled once. Contracts see the schema, the policies and the settings.
#[derive(Drop)]
pub struct Validated {
    schema: Schema,
    policies: PolicySet,
    settings: Settings,
    compiled: Vec<Compiled>,
    warnings: Vec<Text>,
}

impl Model for Validated {
    ghost use Rattle.std.specs.Coded.{codes};
    ghost use Rattle.cedar_schema_types.specs.Private.TypeCode.{type_code};
    ghost use Rattle.cedar_ast_expressions.specs.Private.ExpressionCode.{expression_code};
    ghost use Rattle.cedar_auth_spec.specs.Validation.{ValidatedTree};
    ghost use Rattle.cedar_auth.specs.Private.Kept.{IsKept};

    ghost Value = { ValidatedTree };

    ghost coded = { Prim.hlevel (codes, type_code, expression_code) };

    ghost view = { λ v. record { schema = v.schema; policies = v.policies; settings = v.settings } };

    ghost invariant = { λ v. IsKept v.settings v.schema v.policies.policies v.compiled.items v.warnings.items };
}

// What is found in policies that strict validation under these settings accepts for a schema, and what is made of them.
fn judge(
    alloc: Global,
    schema: &Schema,
    policies: &PolicySet,
    settings: Settings,
) -> Result<Judged, ValidationFault>
    ensures accepted { OnOk result (IsValidatedWith settings schema.now policies.now.policies) }
    ensures compiled { IfOk result (λ j. AreCompiled j.compiled.items policies.now.policies) }
    ensures warned { IfOk result (λ j. AreWarningsWith settings schema.now policies.now.policies j.report.warnings.items) }
    ensures refused { IfErr result (HasFaultWith settings schema.now policies.now.policies) }
{
    // Policies have no fault exactly where each of them is accepted, and they have one report only.
    typing_is_determined();
    let Ok(judged) = judge_all(alloc, schema, policies, settings) else {
        return Err(ValidationFault::OutOfMemory);
    };
    if !judged.report.faults.is_empty() {
        return Err(ValidationFault::Faults(judged.report));
    }
    if judged.too_long {
        return Err(ValidationFault::TooLong);
    }
    Ok(judged)
}

impl Validated {
    /// The policies for the schema, where strict validation as it is documented accepts each of them in every environment
    /// (Cedar documentation, policy validation): `new_with` with no setting on.
    ///
    /// # Errors
    ///
    /// The report, where it has faults; 701 where the code of some policy would have over 1,000,000 instructions; 1 when out of
    /// memory. Each hands schema and policies back.
    pub fn new(
        alloc: Global,
        schema: Schema,
        policies: PolicySet,
    ) -> Result<Validated, NotValidated>
        ensures accepted { OnOk result (IsValidated schema policies.policies) }
        ensures holds { IfOk result (λ v. v ≡ record { schema = schema; policies = policies; settings = default_settings }) }
        ensures refused { IfErr result (λ e. HasFault schema policies.policies e.fault) }
        ensures handed_back { IfErr result (λ e. (e.schema ≡ schema) × (e.policies ≡ policies)) }
    {
        Validated::new_with(alloc, schema, policies, Settings::default())
    }

    /// The policies for the schema, where strict validation under these settings accepts each of them in every environment
    /// (Cedar documentation, policy validation).
    ///
    /// # Errors
    ///
    /// The report, where it has faults; 701 where the code of some policy would have over 1,000,000 instructions; 1 when out of
    /// memory. Each hands schema and policies back.
    pub fn new_with(
        alloc: Global,
        schema: Schema,
        policies: PolicySet,
        settings: Settings,
    ) -> Result<Validated, NotValidated>
        ensures accepted { OnOk result (IsValidatedWith settings schema policies.policies) }
        ensures holds { IfOk result (λ v. v ≡ record { schema = schema; policies = policies; settings = settings }) }
        ensures refused { IfErr result (λ e. HasFaultWith settings schema policies.policies e.fault) }
        ensures handed_back { IfErr result (λ e. (e.schema ≡ schema) × (e.policies ≡ policies)) }
    {
        match judge(alloc, &schema, &policies, settings) {
            Ok(judged) => Ok(Validated {
                schema,
                policies,
                settings,
                compiled: judged.compiled,
                warnings: judged.report.warnings,
            }),
            Err(fault) => Err(NotValidated {
                fault,
                schema,
                policies,
            }),
        }
    }

    /// The settings under which the policies were accepted.
    pub fn settings(&self) -> Settings
        ensures { result ≡ self.now.settings }
    {
        self.settings
    }

    /// The schema.
    pub fn schema(&self) -> &Schema
        ensures value { result.now ≡ self.now.schema }
        ensures accepted { IsValidatedWith self.now.settings self.now.schema self.now.policies.policies }
    {
        &self.schema
    }

    /// The policies, and the templates beside them.
    pub fn policies(&self) -> &PolicySet
        ensures value { result.now ≡ self.now.policies }
        ensures accepted { IsValidatedWith self.now.settings self.now.schema self.now.policies.policies }
    {
        &self.policies
    }

    /// The ids of the policies that no request can satisfy, in the order of the policies: the warnings 650 of strict validation
    /// (Cedar documentation, policy validation: impossible policies).
    pub fn warnings(&self) -> &[Text]
        ensures { AreWarningsWith self.now.settings self.now.schema self.now.policies.policies result.now }
    {
        &self.warnings
    }

    // The policy at a position from 0, beside its code.
    pub(crate) fn part(&self, position: usize) -> Option<Part<'_>>
        ensures { result ≡ slice_get self.now.policies.policies position }
    {
        let policy = self.policies.policy(position)?;
        let compiled = self.compiled.get(position)?;
        Some(Part {
            policy,
            code: &compiled.code,
            conjunction: compiled.conjunction.as_ref(),
        })
    }

    // Runs the code of the policies at these positions for the request, in order, and gathers how they ended.
    pub(crate) fn tally<'v, 'r, H: Hierarchy>(
        &'v self,
        alloc: Global,
        evaluator: &mut Evaluator<'r, H>,
        positions: &[usize],
        tally: &mut Tally<'v>,
    ) -> Result<(), AllocError>
        requires within { (k : ℕ) → Contains positions.now k → k < length self.now.policies.policies }
        ensures { OnOk result (tally.new ≡ tally_of evaluator.old.request evaluator.old.world (policies_at self.now.policies.policies positions.now)) }
    {
        let mut operands = None;
        tally.clear();
        for position in positions {
            let Some(part) = self.part(*position) else {
                unreachable!()
            };
            let verdict = part.verdict(alloc, &mut operands, evaluator)?;
            tally.enter(part.policy.id().as_str(), part.policy.effect(), verdict)?;
        }
        Ok(())
    }

    // The decision that the policies at these positions make on the request. It runs no policy that cannot change it.
    pub(crate) fn decide<'r, H: Hierarchy>(
        &self,
        alloc: Global,
        evaluator: &mut Evaluator<'r, H>,
        positions: &[usize],
    ) -> Result<Decision, AllocError>
        requires within { (k : ℕ) → Contains positions.now k → k < length self.now.policies.policies }
        ensures { IfOk result (λ d. d ≡ (response_by (tally_of evaluator.old.request evaluator.old.world (policies_at self.now.policies.policies positions.now))).decision) }
    {
        let mut operands = None;
        let mut ruling = None;
        for position in positions {
            let Some(part) = self.part(*position) else {
                unreachable!()
            };
            ruling = part.rule(alloc, ruling, &mut operands, evaluator)?;
        }
        Ok(decision_by(ruling))
    }

    /// The response to a request over a hierarchy of entities, from the evaluation of every policy (Cedar language reference,
    /// authorization).
    ///
    /// # Errors
    ///
    /// Fails only when out of memory, which is never a decision.
    pub fn answer<H: Hierarchy>(
        &self,
        alloc: Global,
        request: &Request,
        hierarchy: &H,
    ) -> Result<Response<'_>, AllocError>
        ensures { IfOk result (λ r. r ≡ response self.now.policies.policies request.now (H.world hierarchy.now)) }
    {
        let positions = all_positions(alloc, &self.policies)?;
        let mut tally = Tally::new(alloc);
        let mut evaluator = Evaluator::new(request, hierarchy);
        self.tally(alloc, &mut evaluator, &positions, &mut tally)?;
        Ok(tally.into_response())
    }
}
