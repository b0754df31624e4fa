//! The type of one expression.
ghost use Rattle.std.specs.Prelude.{IfOk};
ghost use Rattle.cedar_check.specs.Typings.{IsTypingOf};
ghost use Rattle.cedar_check_operators.specs.View.{held_view, typing_view};

use crate::checker::Checker;
use cedar_ast_expressions::Expr;
use cedar_check_operators::{Capability, Typing};
use cedar_check_spec::Settings;
use cedar_schema::{Environment, Schema};
use std::alloc::{AllocError, Global};

/// The type of an expression under these settings, in an environment where these capabilities are held, and what it gains; or
/// why it has no type (Cedar documentation, policy validation). It serves to find the part of a condition that has no type.
/// Nothing is known of the variable `action`: `Expr::with_action` puts the action of the environment in its place.
///
/// # Errors
///
/// Fails only when out of memory.
#[tactic(auto, using(crate::proofs::Typings::answered))]
pub fn type_of<'a>(
    alloc: Global,
    settings: Settings,
    schema: &'a Schema,
    environment: &'a Environment,
    held: &[Capability<'a>],
    expression: &'a Expr,
) -> Result<Typing<'a>, AllocError>
    ensures { IfOk result (λ t. IsTypingOf settings schema.now environment.now (held_view held.now) expression.now (typing_view t)) }
{
    let checker = Checker {
        alloc,
        settings,
        schema,
        environment,
    };
    checker.check(held, expression)
}
