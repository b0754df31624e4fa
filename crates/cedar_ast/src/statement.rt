//! The statements of a policy text.
ghost use Rattle.std.specs.Prelude.{◌≡◌};
ghost use Rattle.cedar_ast.specs.PolicySetTree.{id_of};

use crate::policy::{Policy, Template};
use cedar_value::Text;
use std::fmt;

/// A policy or a template (Cedar language reference, policies and policy templates).
#[derive(Drop)]
pub enum Statement {
    /// A policy, which answers requests.
    Policy(Policy),
    /// A template, which answers none until it is linked.
    Template(Template),
}

impl Statement {
    /// The id, lent.
    pub fn id(&self) -> &Text
        ensures { result.now ≡ id_of self.now }
    {
        match self {
            Statement::Policy(policy) => policy.id(),
            Statement::Template(template) => template.id(),
        }
    }
}

impl fmt::Debug for Statement {
    fn fmt<W: fmt::Write>(&self, f: &mut fmt::Formatter<W>) -> fmt::Result {
        let id = self.id().as_str();
        write!(f, "Statement({id:?})")
    }
}
