//! What typing needs of an environment.
ghost use Rattle.std.specs.Prelude.{IfOk};
ghost use Rattle.cedar_check.specs.Typings.{IsTypingOf};
ghost use Rattle.cedar_check_operators.specs.View.{held_view, typing_view};

use cedar_ast_expressions::Expr;
use cedar_check::type_of;
use cedar_check_operators::{Capability, Typing};
use cedar_check_spec::Settings;
use cedar_schema::{Environment, Schema};
use std::alloc::{AllocError, Global};

/// What typing needs of an environment, the same for each part of a condition.
#[derive(Clone, Copy)]
pub(crate) struct Checking<'a> {
    /// Where memory comes from.
    pub(crate) alloc: Global,
    /// The choices beyond strict validation.
    pub(crate) settings: Settings,
    /// The schema.
    pub(crate) schema: &'a Schema,
    /// The environment.
    pub(crate) environment: &'a Environment,
}

impl<'a> Checking<'a> {
    /// The typing of a part where these capabilities are held.
    pub(crate) fn typing(
        self,
        held: &[Capability<'a>],
        part: &'a Expr,
    ) -> Result<Typing<'a>, AllocError>
        ensures { IfOk result (λ t. IsTypingOf self.entry.settings self.entry.schema.now self.entry.environment.now (held_view held.now) part.now (typing_view t)) }
    {
        type_of(
            self.alloc,
            self.settings,
            self.schema,
            self.environment,
            held,
            part,
        )
    }
}
