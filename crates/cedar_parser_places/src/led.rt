//! Which clause of a statement a path leads into.
use crate::clause::Clause;

/// The clause of a statement with this many conditions into which a path from its whole condition leads, and the rest of the path
/// from the clause on; or none where the path ends above the clauses or leads nowhere.
pub fn led_into(conditions: usize, path: &[usize]) -> Option<(Clause, &[usize])> {
    match path {
        [0, rest @ ..] => Some((Clause::Principal, rest)),
        [1, 0, rest @ ..] => Some((Clause::Action, rest)),
        [1, 1, 0, rest @ ..] => Some((Clause::Resource, rest)),
        [1, 1, 1, rest @ ..] => led_into_condition(conditions, rest),
        _ => None,
    }
}

// The condition into which a path from all conditions leads. They are joined from the right: `first && (second && third)`.
fn led_into_condition(conditions: usize, path: &[usize]) -> Option<(Clause, &[usize])> {
    let mut rest = path;
    for position in 0..conditions {
        if position.saturating_add(1) == conditions {
            return Some((Clause::Condition(position), rest));
        }
        match rest {
            [0, inside @ ..] => return Some((Clause::Condition(position), inside)),
            [1, others @ ..] => rest = others,
            _ => return None,
        }
    }
    None
}

/// Whether a path leads to what joins clauses: to an `&&` above them, or to the `true` of a statement without conditions.
pub fn is_joined(conditions: usize, path: &[usize]) -> bool {
    for step in path {
        if *step != 1 {
            return false;
        }
    }
    path.len() < conditions.max(1).saturating_add(3)
}
