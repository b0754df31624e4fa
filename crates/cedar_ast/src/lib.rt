//! Policies, templates and sets of both; the definitions of the condition of a policy and of the response.
//!
//! ```rust
//! use cedar_ast::{Effect, Expr, Policy, PolicySet, Statement};
//!
//! // `permit(principal, action, resource);`, with the id `policy0` and a scope that asks nothing
//! let policy = Policy::new(id, annotations, Effect::Permit, scope, conditions);
//! let condition: Expr = policy.condition(alloc)?;
//! let mut policies = PolicySet::new(alloc);
//! policies.add(Statement::Policy(policy))?;
//! assert!(rt; policies.count() == 1);
//! ```
//!
//! The definitions of a policy's condition, of a template's links and of the response are in `specs/`. Expressions, and the
//! definition of their evaluation, are in cedar_ast_expressions and passed on here.
#![tactic(auto)]

mod add_fault;
mod annotation;
mod condition;
mod conditions;
mod decision;
mod effect;
mod entity_reference;
mod link;
mod link_fault;
mod linking;
mod policy;
mod policy_set;
mod scope;
mod slots;
mod statement;
mod uids;

pub use add_fault::AddFault;
pub use annotation::Annotation;
pub use cedar_ast_expressions::{
    BinaryMethod, BinaryOperator, Entries, EvaluationError, Expr, ExprKind, ExtensionType, Keys,
    RecordFault, UnaryOperator, Variable, first_repeated,
};
pub use condition::{Condition, ConditionKind};
pub use conditions::Conditions;
pub use decision::Decision;
pub use effect::Effect;
pub use entity_reference::EntityReference;
pub use link::Link;
pub use link_fault::LinkFault;
pub use policy::{Policy, PolicyOver, Template};
pub use policy_set::PolicySet;
pub use scope::{ActionScope, EntityScope, Scope};
pub use slots::Slots;
pub use statement::Statement;
pub use uids::Uids;
