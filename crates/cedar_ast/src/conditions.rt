//! The conditions of a policy, which a template shares with its links.
ghost use Rattle.std.specs.Prelude.{◌≡◌, IfOk};

use crate::condition::Condition;
use std::alloc::{AllocError, Global};
use std::marker::Model;
use std::sync::Arc;

/// The conditions of a policy in order. A template and its links have them in common, so a link takes no memory for them. Contracts
/// see a list of conditions (Cedar language reference, policy conditions).
#[derive(Drop)]
pub struct Conditions {
    shared: Arc<Vec<Condition>, Global>,
}

impl Model for Conditions {
    ghost use Rattle.std.specs.Prelude.{List};
    ghost use Rattle.std.specs.Coded.{codes};
    ghost use Rattle.cedar_ast_expressions.specs.Private.ExpressionCode.{expression_code};
    ghost use Rattle.cedar_ast.specs.declared.condition.Condition.{Condition};

    ghost Value = { List Condition };

    ghost coded = { Prim.hlevel (codes, expression_code) };

    ghost view = { λ c. c.shared.value.items };
}

impl Conditions {
    /// These conditions, in this order.
    pub fn new(alloc: Global, conditions: Vec<Condition>) -> Result<Self, AllocError>
        ensures { IfOk result (λ shared. shared ≡ conditions.items) }
    {
        let shared = Arc::new(alloc, conditions)?;
        Ok(Conditions { shared })
    }

    /// The same conditions for one more policy. Refused where too many policies share them.
    pub(crate) fn share(&self) -> Result<Self, AllocError>
        ensures { IfOk result (λ conditions. conditions ≡ self.now) }
    {
        let shared = Arc::try_clone(&self.shared)?;
        Ok(Conditions { shared })
    }

    /// The conditions in order, lent.
    pub fn as_slice(&self) -> &[Condition]
        ensures { result.now ≡ self.now }
    {
        &self.shared
    }
}
