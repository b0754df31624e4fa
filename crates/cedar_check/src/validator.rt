//! Strict validation of policies, one after another.
ghost use Rattle.std.specs.Prelude.{◌≡◌, ◌++◌, ◌∷◌, [], IfOk, List, OnOk, cond, map};
ghost use Rattle.cedar_ast.specs.Condition.{condition_of};
ghost use Rattle.cedar_ast.specs.PolicyTree.{PolicyTree};
ghost use Rattle.cedar_check_spec.specs.Private.Reporting.{faults_of_with, is_impossible_with};
ghost use Rattle.cedar_check_spec.specs.Reports.{AreFaultsWith, AreWarningsWith};
ghost use Rattle.cedar_schema_spec.specs.SchemaTree.{environments_of};
ghost use Rattle.cedar_check.specs.FaultView.{fault_view};
ghost use Rattle.cedar_check.specs.Private.Signatures.{AreNumbered};

use crate::fault::check_policy;
use crate::report::Report;
use crate::signatures::Signatures;
use cedar_ast::Policy;
use cedar_ast_expressions::Expr;
use cedar_check_spec::Settings;
use cedar_schema::Schema;
use std::alloc::{AllocError, Global};
use std::marker::Model;

/// A schema, looked at once for all policies that are validated for it. Contracts see the schema.
#[derive(Drop)]
pub struct Validator<'s> {
    schema: &'s Schema,
    signatures: Signatures<'s>,
}

impl<'s> Model for Validator<'s> {
    ghost use Rattle.std.specs.Coded.{codes};
    ghost use Rattle.cedar_schema_types.specs.Private.TypeCode.{type_code};
    ghost use Rattle.cedar_schema_spec.specs.SchemaTree.{SchemaTree, environments_of};
    ghost use Rattle.cedar_check.specs.Private.Signatures.{AreNumbered};

    ghost Value = { SchemaTree };

    ghost coded = { Prim.hlevel (codes, type_code) };

    ghost view = { λ v. v.schema.now };

    ghost invariant = { λ v. AreNumbered v.signatures.examples.items v.signatures.numbers.items (environments_of v.schema.now.actions) };
}

impl<'s> Validator<'s> {
    /// A validator for the schema.
    ///
    /// # Errors
    ///
    /// Fails only when out of memory.
    pub fn new(alloc: Global, schema: &'s Schema) -> Result<Self, AllocError>
        ensures { IfOk result (λ v. v ≡ schema.now) }
    {
        let signatures = Signatures::new(alloc, schema.environments())?;
        Ok(Validator { schema, signatures })
    }

    /// Adds to a report what strict validation under these settings finds in one more policy, whose condition is lent (Cedar
    /// documentation, policy validation).
    ///
    /// # Errors
    ///
    /// Fails only when out of memory.
    pub fn check(
        &self,
        alloc: Global,
        settings: Settings,
        policy: &Policy,
        condition: &Expr,
        report: &mut Report,
    ) -> Result<(), AllocError>
        requires { condition.now ≡ condition_of policy.now }
        // Whichever policies the report was on, it has the faults of those and of this one.
        ensures faults { OnOk result ((ps : List PolicyTree) → AreFaultsWith settings self.now ps (map fault_view report.old.faults.items) → AreFaultsWith settings self.now (ps ++ policy.now ∷ []) (map fault_view report.new.faults.items)) }
        // The same of the warnings.
        ensures warnings { OnOk result ((ps : List PolicyTree) → AreWarningsWith settings self.now ps report.old.warnings.items → AreWarningsWith settings self.now (ps ++ policy.now ∷ []) report.new.warnings.items) }
    {
        check_next(
            alloc,
            settings,
            self.schema,
            &self.signatures,
            policy,
            condition,
            report,
        )?;
        Ok(())
    }
}

// Adds what is found in one more policy.
fn check_next(
    alloc: Global,
    settings: Settings,
    schema: &Schema,
    signatures: &Signatures<'_>,
    policy: &Policy,
    condition: &Expr,
    report: &mut Report,
) -> Result<(), AllocError>
    requires signatures { AreNumbered signatures.now.examples.items signatures.now.numbers.items (environments_of schema.now.actions) }
    requires condition { condition.now ≡ condition_of policy.now }
    ensures faults { OnOk result (map fault_view report.new.faults.items ≡ map fault_view report.old.faults.items ++ faults_of_with settings schema.now policy.now) }
    ensures warnings { OnOk result (report.new.warnings.items ≡ report.old.warnings.items ++ cond (is_impossible_with settings schema.now policy.now) (policy.now.id ∷ []) []) }
{
    let faults = &mut report.faults;
    if check_policy(
        alloc, settings, schema, signatures, policy, condition, faults,
    )? {
        report.warnings.push(policy.id().try_clone(alloc)?)?;
    }
    Ok(())
}
