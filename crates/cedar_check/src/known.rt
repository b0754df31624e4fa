//! What is known of a condition that does not name the action, before all environments are looked at.
ghost use Rattle.std.specs.Prelude.{◌≡◌, IfOk, IfSome, false, option_map, slice_get, true};
ghost use Rattle.cedar_schema_spec.specs.Declarations.{is_action};
ghost use Rattle.cedar_schema_types.specs.declared.truth.Truth.TheVariants.{False};
ghost use Rattle.cedar_check.specs.Private.Condition.{condition_in, first_in, IsReady};
ghost use Rattle.cedar_check.specs.Private.Mention.{mentions};
ghost use Rattle.cedar_check.specs.Private.Signatures.{AreKnown, Follows, form_with};
ghost use Rattle.cedar_check.specs.Private.View.{form_view};

use crate::form::{Form, form_of};
use crate::prepared::Prepared;
use cedar_ast_expressions::Expr;
use cedar_check_spec::Settings;
use cedar_schema::{Environment, Schema, Truth};
use std::alloc::{AllocError, Global};

/// The forms of a condition that does not name the action, one for each signature, from an environment of each.
pub(crate) fn forms_in(
    alloc: Global,
    settings: Settings,
    schema: &Schema,
    examples: &[&Environment],
    condition: &Expr,
) -> Result<Vec<Form>, AllocError>
    requires { mentions condition.now ≡ false }
    ensures { IfOk result (λ v. AreKnown settings schema.now condition.now examples.now v.items) }
{
    let mut forms = Vec::new(alloc);
    for example in examples {
        let form = form_of(alloc, settings, schema, example, Prepared::Open(condition))?;
        forms.push(form)?;
    }
    Ok(forms)
}

// The form of a condition whose condition on the action is known false, from that of its condition on the principal.
fn shut_out(principal: Form) -> Form
    ensures { form_view result ≡ option_map (λ known. False) (form_view principal) }
{
    match principal {
        Form::Known(_) => Form::Known(Truth::False),
        Form::Refused(fault) => Form::Refused(fault),
    }
}

// The form of a condition in an environment, if it follows from that of its first part. It does where that is the whole
// condition, and where the condition asks for another action.
fn known_form(condition: Prepared<'_>, environment: &Environment, first: Form) -> Option<Form>
    ensures { IfSome result (Follows condition.entry environment.now first) }
{
    match condition {
        Prepared::Open(_) => Some(first),
        Prepared::Parts(parts) => match parts.named {
            Some(named) if environment.action != *named => Some(shut_out(first)),
            _ => None,
        },
        Prepared::Whole(_) => None,
    }
}

/// The form of a condition in an environment: what follows from the known form of the environment's signature, where it has a
/// number.
pub(crate) fn form_at(
    alloc: Global,
    settings: Settings,
    schema: &Schema,
    environment: &Environment,
    condition: Prepared<'_>,
    number: Option<usize>,
    known: &[Form],
) -> Result<Form, AllocError>
    requires ready { IsReady schema.now condition }
    requires declared { is_action schema.now environment.now.action ≡ true }
    requires known { IfSome number (λ n. IfSome (slice_get known.now n) (λ form. form_view form ≡ form_with settings schema.now environment.now (first_in condition))) }
    ensures { IfOk result (λ form. form_view form ≡ form_with settings schema.now environment.now (condition_in condition.entry)) }
{
    if let Some(number) = number {
        if let Some(form) = known.get(number) {
            if let Some(form) = known_form(condition, environment, *form) {
                return Ok(form);
            }
        }
    }
    form_of(alloc, settings, schema, environment, condition)
}
