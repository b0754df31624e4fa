//! What is known of a policy's condition in an environment.
ghost use Rattle.std.specs.Prelude.{◌≡◌, [], IfOk, option_and_then};
ghost use Rattle.cedar_value.specs.Datum.{uid};
ghost use Rattle.cedar_ast_expressions.specs.Expression.{and, binary, literal};
ghost use Rattle.cedar_ast_expressions.specs.Replacement.{replace};
ghost use Rattle.cedar_check_spec.specs.Rows.{truth_in};
ghost use Rattle.cedar_check_spec.specs.Private.Checking.{type_of_with};
ghost use Rattle.cedar_check.specs.Private.Condition.{condition_in, IsReady};
ghost use Rattle.cedar_check_operators.specs.View.{typing_view};
ghost use Rattle.cedar_check.specs.Private.View.{form_view};

use crate::checker::Checker;
use crate::prepared::{Parts, Prepared};
use cedar_ast_expressions::Expr;
use cedar_check_operators::{TypeFault, Typing};
use cedar_check_spec::Settings;
use cedar_schema::{Environment, Schema, Truth};
use cedar_value::{Uid, Value};
use std::alloc::{AllocError, Global};

/// What is known of a condition, or why its type is not Boolean.
#[derive(Clone, Copy)]
pub(crate) enum Form {
    /// What is known of it.
    Known(Truth),
    /// Why it has no such type.
    Refused(TypeFault),
}

// The form that a typing shows.
fn form_in(typing: Typing<'_>) -> Form
    ensures { form_view result ≡ option_and_then (λ x. truth_in x.ty) (typing_view typing.entry) }
{
    match typing {
        Typing::Refused(fault) => Form::Refused(fault),
        Typing::Typed(x) => match x.ty.truth() {
            Some(truth) => Form::Known(truth),
            None => Form::Refused(TypeFault::OperandKind),
        },
    }
}

// The form of a condition in which the variable does not occur.
fn form_of_open<'a>(checker: Checker<'a>, condition: &'a Expr) -> Result<Form, AllocError>
    ensures { IfOk result (λ form. form_view form ≡ option_and_then (λ x. truth_in x.ty) (type_of_with checker.entry.settings checker.entry.schema.now checker.entry.environment.now [] condition.now)) }
{
    let typing = checker.check(&[], condition)?;
    Ok(form_in(typing))
}

// The form of a condition, from its parts. None of them is copied.
fn form_of_parts(checker: Checker<'_>, parts: Parts<'_>) -> Result<Form, AllocError>
    ensures { IfOk result (λ form. form_view form ≡ option_and_then (λ x. truth_in x.ty) (type_of_with checker.entry.settings checker.entry.schema.now checker.entry.environment.now [] (and parts.entry.principal.now (and (binary parts.entry.operator (literal (uid checker.entry.environment.now.action)) parts.entry.operand.now) parts.entry.rest.now)))) }
{
    let action = action_literal(checker.alloc, &checker.environment.action)?;
    let form = match checker.check_scoped(parts, &action) {
        Ok(typing) => Ok(form_in(typing)),
        Err(error) => Err(error),
    };
    drop(action);
    form
}

// The literal of an action.
fn action_literal(alloc: Global, action: &Uid) -> Result<Expr, AllocError>
    ensures { IfOk result (λ e. e ≡ literal (uid action.now)) }
{
    Ok(Expr::literal(Value::uid(alloc, action.try_clone(alloc)?)?))
}

// The form of a condition in which the variable may occur anywhere.
fn form_of_whole(checker: Checker<'_>, condition: &Expr) -> Result<Form, AllocError>
    ensures { IfOk result (λ form. form_view form ≡ option_and_then (λ x. truth_in x.ty) (type_of_with checker.entry.settings checker.entry.schema.now checker.entry.environment.now [] (replace checker.entry.environment.now.action condition.now))) }
{
    let replaced = condition.with_action(checker.alloc, &checker.environment.action)?;
    let form = match checker.check(&[], &replaced) {
        Ok(typing) => Ok(form_in(typing)),
        Err(error) => Err(error),
    };
    drop(replaced);
    form
}

/// The form of a condition in an environment, with the environment's action in place of the variable.
#[tactic(auto, using(crate::proofs::Unmentioned::unmentioned, crate::proofs::Unmentioned::whole_replaced))]
pub(crate) fn form_of(
    alloc: Global,
    settings: Settings,
    schema: &Schema,
    environment: &Environment,
    condition: Prepared<'_>,
) -> Result<Form, AllocError>
    requires { IsReady schema.now condition }
    ensures { IfOk result (λ form. form_view form ≡ option_and_then (λ x. truth_in x.ty) (type_of_with settings schema.now environment.now [] (replace environment.now.action (condition_in condition.entry)))) }
{
    let checker = Checker {
        alloc,
        settings,
        schema,
        environment,
    };
    match condition {
        Prepared::Open(open) => form_of_open(checker, open),
        Prepared::Parts(parts) => form_of_parts(checker, parts),
        Prepared::Whole(whole) => form_of_whole(checker, whole),
    }
}
