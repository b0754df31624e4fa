//! The clauses of a statement.

/// A clause of a statement: a part of its scope, or one of its conditions.
#[derive(Clone, Copy, Debug, PartialEq, Eq)]
pub enum Clause {
    /// What the scope requires of the principal.
    Principal,
    /// What the scope requires of the action.
    Action,
    /// What the scope requires of the resource.
    Resource,
    /// The `when` or `unless` at this position, from 0.
    Condition(usize),
}
