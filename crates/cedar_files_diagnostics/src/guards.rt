//! Tests of policies that are always false.
use crate::diagnostic::{Explanation, Severity};
use crate::diagnostic_draft::DiagnosticDraft;
use crate::excerpt::first_of;
use crate::fault_part::{Checked, add_place, add_words};
use crate::faults::MOST;
use crate::own_statement::{MOST_OF_ID, OwnStatement};
use base_places::Draft;
use cedar_ast::{Policy, PolicySet};
use cedar_check::{Fault, Report};
use cedar_check_diagnostics::FalseGuard;
use cedar_check_spec::Settings;
use cedar_parser_places::StatementPlaces;
use cedar_schema::Schema;
use std::alloc::{AllocError, Global};
use std::collections::BTreeSet;

/// The sign of the opposite of `==`.
const NOT_EQUAL: &str = "!=";

// Why such a test is shown, and how it is in each environment. Where `a != b` is written, the test `a == b` is the one that is false.
fn words_of(guard: &FalseGuard, is_opposite: bool) -> (&'static str, &'static str) {
    if guard.is_has {
        ("this `has` is always false", "false")
    } else if is_opposite {
        ("this test is always true", "true")
    } else {
        ("this test is always false", "false")
    }
}

// Whether a test is written as the opposite of it.
fn is_opposite(
    alloc: Global,
    statement: OwnStatement<'_>,
    path: &[usize],
) -> Result<bool, AllocError> {
    match statement.part(alloc, path)? {
        Some(place) => Ok(statement.written(place.name) == NOT_EQUAL),
        None => Ok(false),
    }
}

/// Whether one of these policies has a test that is always false: `x has a`, since no type of `x` declares `a` where the policy applies, or
/// a test `is`, `==` or `in` that the types decide there.
///
/// # Errors
///
/// Fails only when out of memory.
pub fn has_false_guard(
    alloc: Global,
    schema: &Schema,
    policies: &PolicySet,
    settings: Settings,
) -> Result<bool, AllocError> {
    let checked = Checked {
        schema,
        policies,
        links: &[],
        settings,
    };
    for position in 0..policies.count() {
        if let Some(policy) = policies.policy(position) {
            if checked.guards(alloc, policy, 0)?.more > 0 {
                return Ok(true);
            }
        }
    }
    Ok(false)
}

/// Adds what is explained of the tests that are always false, one after another. Those of policies that no request can satisfy
/// are left out, since the first of them is explained with the warning. Of policies with faults only `x has a` is explained, since what
/// another test is where the fault is nobody knows. Of the links of a template the first one speaks for all.
pub(crate) fn push_guards<'s>(
    alloc: Global,
    explanation: &mut Explanation,
    statements: &'s StatementPlaces<'s>,
    checked: Checked<'s>,
    report: &'s Report,
) -> Result<(), AllocError> {
    let mut templates = BTreeSet::new(alloc);
    let mut left = report.warnings.as_slice();
    let mut faults = report.faults.as_slice();
    for position in 0..checked.policies.count() {
        let Some(policy) = checked.policies.policy(position) else {
            break;
        };
        if let Some((id, others)) = left.split_first() {
            if policy.id() == id {
                left = others;
                continue;
            }
        }
        let rest = faults_after(faults, policy);
        let is_faulty = rest.len() < faults.len();
        faults = rest;
        if let Some(template) = checked.template_at(position) {
            if !templates.insert(template)? {
                continue;
            }
        }
        push_guards_of(alloc, explanation, statements, checked, policy, is_faulty)?;
    }
    Ok(())
}

// The faults after those of a policy, which come first where it has any: both are in the order of the policies.
fn faults_after<'r>(faults: &'r [Fault], policy: &Policy) -> &'r [Fault] {
    let mut rest = faults;
    for _ in 0..faults.len() {
        match rest.split_first() {
            Some((first, others)) if first.policy == *policy.id() => rest = others,
            _ => break,
        }
    }
    rest
}

// Adds those of one policy.
fn push_guards_of<'s>(
    alloc: Global,
    explanation: &mut Explanation,
    statements: &'s StatementPlaces<'s>,
    checked: Checked<'s>,
    policy: &'s Policy,
    is_faulty: bool,
) -> Result<(), AllocError> {
    let room = MOST.saturating_sub(explanation.diagnostics.len());
    let guards = checked.guards(alloc, policy, room)?;
    let id = policy.id().as_str();
    for guard in &guards.parts {
        if is_faulty && !guard.is_has {
            continue;
        }
        let statement = OwnStatement::new(statements, checked, id);
        push_guard(alloc, explanation, statement, guard, id)?;
    }
    if !is_faulty {
        explanation.more = explanation.more.saturating_add(guards.more);
    }
    Ok(())
}

// Adds one of them.
fn push_guard(
    alloc: Global,
    explanation: &mut Explanation,
    statement: OwnStatement<'_>,
    guard: &FalseGuard,
    policy: &str,
) -> Result<(), AllocError> {
    let is_opposite = is_opposite(alloc, statement, &guard.part.path)?;
    let (reason, truth) = words_of(guard, is_opposite);
    let mut diagnostic = DiagnosticDraft::error(alloc, guard.part.number, reason);
    diagnostic.severity = Severity::Warning;
    diagnostic.name("policy", policy);
    add_place(alloc, &mut diagnostic, statement, &guard.part)?;
    let id = first_of(policy, MOST_OF_ID);
    let mut note = Draft::new(alloc);
    note.add_all(&["policy `", id, "`: it is "]);
    note.add(truth);
    note.add(" in each environment of the schema");
    diagnostic.note_made(note.done());
    statement.note_link(&mut diagnostic);
    add_words(alloc, &mut diagnostic, statement, &guard.part)?;
    explanation.diagnostics.push(diagnostic.done()?)?;
    Ok(())
}
