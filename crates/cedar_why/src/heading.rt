//! The first line of an explanation: the decision, and what it is due to.
use crate::shortened::shortened;
use base_places::Draft;
use cedar_ast::Decision;
use cedar_auth::Response;
use std::alloc::Global;

/// How many ids are named at most.
const MOST_NAMES: usize = 3;

/// Adds the number of a line, the decision, the policies that determine it, and those that erred.
pub fn add_heading(alloc: Global, line: &mut Draft, number: usize, response: &Response<'_>) {
    let count = response.determining.len();
    line.add("line ");
    line.add_display(number);
    line.add(": ");
    line.add(decision_words(response.decision, count));
    for (place, name) in response.determining.iter().enumerate() {
        add_name(alloc, line, name, place, count);
    }
    line.add(match count {
        0 => "",
        1 => " is satisfied",
        _ => " are satisfied",
    });
    add_erring(alloc, line, response);
}

// The decision, up to the names of the policies that determine it.
fn decision_words(decision: Decision, count: usize) -> &'static str {
    match (decision, count) {
        (Decision::Allow, 1) => "allow, since the permit ",
        (Decision::Allow, _) => "allow, since the permits ",
        (Decision::Deny, 0) => "deny, since no permit is satisfied",
        (Decision::Deny, 1) => "deny, since the forbid ",
        (Decision::Deny, _) => "deny, since the forbids ",
    }
}

// Adds the policies that erred, if there are any.
fn add_erring(alloc: Global, line: &mut Draft, response: &Response<'_>) {
    let count = response.erring.len();
    if count == 0 {
        return;
    }
    line.add("; ");
    for (place, erring) in response.erring.iter().enumerate() {
        add_name(alloc, line, erring.policy, place, count);
    }
    line.add(if count == 1 {
        " erred and was skipped"
    } else {
        " erred and were skipped"
    });
}

// Adds one of so many names, with what joins it to the earlier ones; or how many more there are, once three are named.
fn add_name(alloc: Global, line: &mut Draft, name: &str, place: usize, count: usize) {
    if place == MOST_NAMES {
        line.add(" and ");
        line.add_display(count.saturating_sub(MOST_NAMES));
        line.add(" more");
    }
    if place >= MOST_NAMES {
        return;
    }
    if place > 0 {
        let is_last = place.saturating_add(1) == count;
        line.add(if is_last { " and " } else { ", " });
    }
    line.add_char('`');
    line.add_made(shortened(alloc, name));
    line.add_char('`');
}
