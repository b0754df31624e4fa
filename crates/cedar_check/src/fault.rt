//! Faults of policies.
ghost use Rattle.std.specs.Prelude.{◌≡◌, ◌++◌, ◌∷◌, [], IfOk, OnOk, cond, is_some, map};
ghost use Rattle.cedar_ast.specs.Condition.{condition_of};
ghost use Rattle.cedar_schema_spec.specs.SchemaTree.{environments_of};
ghost use Rattle.cedar_check_spec.specs.Private.Reporting.{faults_of_with, is_impossible_with, is_known_false};
ghost use Rattle.cedar_check_spec.specs.Reports.{fault_at};
ghost use Rattle.cedar_check.specs.FaultView.{fault_view};
ghost use Rattle.cedar_check.specs.Private.Condition.{condition_in, first_in, IsReady};
ghost use Rattle.cedar_check.specs.Private.Signatures.{AreKnown, AreNumbered};
ghost use Rattle.cedar_check.specs.Private.View.{form_view};

use crate::form::Form;
use crate::known::{form_at, forms_in};
use crate::prepared::Prepared;
use crate::signatures::Signatures;
use cedar_ast::Policy;
use cedar_ast_expressions::Expr;
use cedar_check_operators::TypeFault;
use cedar_check_spec::Settings;
use cedar_schema::{Environment, Schema, Truth};
use cedar_value::{Name, Text, Uid};
use std::alloc::{AllocError, Global};

/// A policy and an environment in which it is not accepted (Cedar documentation, policy validation).
#[derive(Drop)]
pub struct Fault {
    /// The policy's id.
    pub policy: Text,
    /// The environment's action.
    pub action: Uid,
    /// The type of its principal.
    pub principal: Name,
    /// The type of its resource.
    pub resource: Name,
    /// Why the policy's condition has no type there.
    pub reason: TypeFault,
}

impl Fault {
    ghost use Rattle.cedar_check_operators.specs.Numbers.{number_of};

    /// The number of the reason, from 601 to 607 (own).
    pub fn number(&self) -> u16
        ensures { result ≡ number_of self.now.reason }
    {
        self.reason.number()
    }
}

// The fault of a policy in an environment.
fn fault_at(
    alloc: Global,
    policy: &Policy,
    environment: &Environment,
    reason: TypeFault,
) -> Result<Fault, AllocError>
    ensures { IfOk result (λ fault. fault_view fault ≡ fault_at policy.now environment.now) }
{
    Ok(Fault {
        policy: policy.id().try_clone(alloc)?,
        action: environment.action.try_clone(alloc)?,
        principal: environment.principal.try_clone(alloc)?,
        resource: environment.resource.try_clone(alloc)?,
        reason,
    })
}

// Adds the fault of a policy in an environment, where its condition has this form and the form is a fault. Returns whether the
// condition is known false there.
fn add_fault(
    alloc: Global,
    environment: &Environment,
    policy: &Policy,
    form: Form,
    faults: &mut Vec<Fault>,
) -> Result<bool, AllocError>
    ensures faults { OnOk result (map fault_view faults.new.items ≡ map fault_view faults.old.items ++ cond (is_some (form_view form)) [] (fault_at policy.now environment.now ∷ [])) }
    ensures known { IfOk result (λ known. known ≡ is_known_false (form_view form)) }
{
    match form {
        Form::Known(Truth::False) => Ok(true),
        Form::Known(Truth::True) => Ok(false),
        Form::Known(Truth::Any) => Ok(false),
        Form::Refused(reason) => {
            let fault = fault_at(alloc, policy, environment, reason)?;
            faults.push(fault)?;
            Ok(false)
        }
    }
}

// The forms for the signatures: those of a condition that does not name the action, or those of the condition on the principal,
// where that on the action is `action == E`. In other cases there are none.
fn known_forms(
    alloc: Global,
    settings: Settings,
    schema: &Schema,
    signatures: &Signatures<'_>,
    condition: Prepared<'_>,
) -> Result<Vec<Form>, AllocError>
    requires { IsReady schema.now condition }
    ensures { IfOk result (λ v. AreKnown settings schema.now (first_in condition.entry) signatures.now.examples.items v.items) }
{
    let first = match condition {
        Prepared::Open(open) => open,
        Prepared::Parts(parts) => {
            if parts.named.is_none() {
                return Ok(Vec::new(alloc));
            }
            parts.principal
        }
        Prepared::Whole(_) => return Ok(Vec::new(alloc)),
    };
    forms_in(alloc, settings, schema, &signatures.examples, first)
}

// Adds the faults of a policy, one for each environment in which its condition is not accepted. Returns whether it is known
// false in each environment.
fn check_everywhere(
    alloc: Global,
    settings: Settings,
    schema: &Schema,
    signatures: &Signatures<'_>,
    policy: &Policy,
    condition: Prepared<'_>,
    faults: &mut Vec<Fault>,
) -> Result<bool, AllocError>
    requires signatures { AreNumbered signatures.now.examples.items signatures.now.numbers.items (environments_of schema.now.actions) }
    requires condition { condition_in condition ≡ condition_of policy.now }
    requires ready { IsReady schema.now condition }
    ensures faults { OnOk result (map fault_view faults.new.items ≡ map fault_view faults.old.items ++ faults_of_with settings schema.now policy.now) }
    ensures impossible { IfOk result (λ impossible. impossible ≡ is_impossible_with settings schema.now policy.now) }
{
    let known = known_forms(alloc, settings, schema, signatures, condition)?;
    let environments = schema.environments();
    let mut impossible = true;
    for (place, environment) in environments.iter().enumerate() {
        let number = signatures.numbers[place];
        let form = form_at(
            alloc,
            settings,
            schema,
            environment,
            condition,
            number,
            &known,
        )?;
        if !add_fault(alloc, environment, policy, form, faults)? {
            impossible = false;
        }
    }
    Ok(impossible)
}

/// Adds the faults of a policy, whose condition is lent: one for each environment in which it is not accepted, in the order of
/// the environments. Returns whether no request can satisfy the policy.
pub(crate) fn check_policy(
    alloc: Global,
    settings: Settings,
    schema: &Schema,
    signatures: &Signatures<'_>,
    policy: &Policy,
    condition: &Expr,
    faults: &mut Vec<Fault>,
) -> Result<bool, AllocError>
    requires signatures { AreNumbered signatures.now.examples.items signatures.now.numbers.items (environments_of schema.now.actions) }
    requires condition { condition.now ≡ condition_of policy.now }
    ensures faults { OnOk result (map fault_view faults.new.items ≡ map fault_view faults.old.items ++ faults_of_with settings schema.now policy.now) }
    ensures impossible { IfOk result (λ impossible. impossible ≡ is_impossible_with settings schema.now policy.now) }
{
    let condition = Prepared::new(schema, condition);
    check_everywhere(
        alloc, settings, schema, signatures, policy, condition, faults,
    )
}
