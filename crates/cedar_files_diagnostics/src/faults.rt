//! What is explained of policies that have faults.
use crate::diagnostic::{Diagnostic, Explanation, Severity};
use crate::diagnostic_draft::DiagnosticDraft;
use crate::excerpt::first_of;
use crate::fault_part::{Checked, add_place, add_words, mark_statement};
use crate::guards::push_guards;
use crate::own_statement::{MOST_OF_ID, OwnStatement};
use cedar_check::{Fault, Report};
use cedar_ext::Language;
use cedar_parser_places::StatementPlaces;
use cedar_value::Text;
use std::alloc::{AllocError, Global};

/// How many faults and warnings are explained at most.
pub(crate) const MOST: usize = 20;

/// The number of the warning on a policy that no request can satisfy.
const IMPOSSIBLE: u16 = 650;

/// The numbers of faults of policies.
const NUMBERS: [u16; 7] = [601, 602, 603, 604, 605, 606, 607];

// Why a policy of a language has a fault, and what to do about it.
fn words_of(language: Language, number: u16) -> (&'static str, &'static str) {
    match number {
        601 => (
            "an entity type or an action is not declared",
            "check the name and its namespace against the schema",
        ),
        602 => (
            "an optional attribute is read without a guard",
            "write `x has a && x.a ..`",
        ),
        603 => (
            "an attribute is not declared",
            "check the name against the type's shape in the schema",
        ),
        604 => (
            "mismatched types",
            "the sides of `==`, the branches of an `if` and the members of a set must have one type",
        ),
        605 => (
            "an empty set has no type",
            "`x.isEmpty()` tests whether a set is empty",
        ),
        606 => (
            "an operand has the wrong type",
            "docs/TYPING.md lists the types of operands; compare decimals with `.lessThan(..)`",
        ),
        _ => words_of_constructors(language),
    }
}

// Why the argument of a constructor is refused, and what to do about it.
fn words_of_constructors(language: Language) -> (&'static str, &'static str) {
    match language {
        Language::Profile => (
            "`decimal` needs a string literal that is a valid decimal",
            "write digits, a point and one to four digits, for example `decimal(\"1.5\")`",
        ),
        Language::Cedar4 => (
            "a constructor needs a string literal that is a valid value of its type",
            "docs/GRAMMAR.md lists the functions and methods",
        ),
    }
}

// Faults of one policy with one number: the first of them, and how many there are.
#[derive(Clone, Copy)]
struct Group<'f> {
    first: &'f Fault,
    count: usize,
}

// The faults of one policy with this number, among its faults.
fn group_of<'f>(faults: &'f [Fault], number: u16) -> Option<Group<'f>> {
    let first = faults.iter().find(|fault| fault.number() == number)?;
    let count = faults
        .iter()
        .filter(|fault| fault.number() == number)
        .count();
    Some(Group { first, count })
}

// How many faults at the beginning are those of the first one's policy.
fn len_of_first(faults: &[Fault]) -> usize {
    match faults.first() {
        Some(first) => faults
            .iter()
            .take_while(|fault| fault.policy.as_str() == first.policy.as_str())
            .count(),
        None => 0,
    }
}

/// What is explained of a report: one diagnostic for each policy with faults and each number, and one for each warning, at most twenty
/// together, and then how many more there are. Faults and warnings are in the order of the policies.
pub fn explain_faults(
    alloc: Global,
    file: &str,
    text: String,
    checked: Checked<'_>,
    report: &Report,
) -> Result<Explanation, AllocError> {
    let mut explanation = Explanation::new(alloc, file)?;
    let statements = StatementPlaces::of(alloc, text.as_str())?;
    let pushed = push_report(alloc, &mut explanation, &statements, checked, report);
    drop(statements);
    pushed?;
    explanation.text = text;
    Ok(explanation)
}

// Adds what is explained of the faults and the warnings of a report, and of parts that are always false.
fn push_report<'s>(
    alloc: Global,
    explanation: &mut Explanation,
    statements: &'s StatementPlaces<'s>,
    checked: Checked<'s>,
    report: &'s Report,
) -> Result<(), AllocError> {
    let mut rest = report.faults.as_slice();
    for _ in 0..report.faults.len() {
        let (own, others) = rest.split_at(len_of_first(rest).min(rest.len()));
        push_groups(alloc, explanation, statements, checked, own)?;
        rest = others;
    }
    for policy in &report.warnings {
        push_warning(alloc, explanation, statements, checked, policy)?;
    }
    push_guards(alloc, explanation, statements, checked, report)
}

// Whether one more is explained; if not, it is counted.
fn has_room(explanation: &mut Explanation) -> bool {
    if explanation.diagnostics.len() < MOST {
        return true;
    }
    explanation.more = explanation.more.saturating_add(1);
    false
}

// Adds what is explained of a policy that no request can satisfy: a part of its condition that is always false, if there is one, or else
// where its scope has to be looked at.
fn push_warning(
    alloc: Global,
    explanation: &mut Explanation,
    statements: &StatementPlaces<'_>,
    checked: Checked<'_>,
    policy: &Text,
) -> Result<(), AllocError> {
    if !has_room(explanation) {
        return Ok(());
    }
    let guard = checked.first_guard(alloc, policy)?;
    let statement = OwnStatement::new(statements, checked, policy.as_str());
    let mut diagnostic = DiagnosticDraft::error(
        alloc,
        IMPOSSIBLE,
        "no request can satisfy this policy",
    );
    diagnostic.severity = Severity::Warning;
    diagnostic.name("policy", policy.as_str());
    match &guard {
        Some(guard) => add_place(alloc, &mut diagnostic, statement, guard)?,
        None => mark_statement(&mut diagnostic, statement),
    }
    note_impossible(&mut diagnostic, statement, policy);
    match &guard {
        Some(guard) => add_words(alloc, &mut diagnostic, statement, guard)?,
        None => diagnostic.advise("compare its scope with `appliesTo` in the schema"),
    }
    explanation.diagnostics.push(diagnostic.done()?)?;
    Ok(())
}

// Says that a policy is always false.
fn note_impossible(diagnostic: &mut DiagnosticDraft, statement: OwnStatement<'_>, policy: &Text) {
    let id = first_of(policy.as_str(), MOST_OF_ID);
    diagnostic.note(&[
        "policy `",
        id,
        "` is false in each environment of the schema",
    ]);
    statement.note_link(diagnostic);
}

// Adds what is explained of the faults of one policy.
fn push_groups<'s>(
    alloc: Global,
    explanation: &mut Explanation,
    statements: &'s StatementPlaces<'s>,
    checked: Checked<'s>,
    faults: &'s [Fault],
) -> Result<(), AllocError> {
    for number in NUMBERS {
        if let Some(group) = group_of(faults, number) {
            if has_room(explanation) {
                let diagnostic = diagnostic_of(alloc, statements, checked, group)?;
                explanation.diagnostics.push(diagnostic)?;
            }
        }
    }
    Ok(())
}

// What is explained of the faults of one policy with one number.
fn diagnostic_of<'s>(
    alloc: Global,
    statements: &'s StatementPlaces<'s>,
    checked: Checked<'s>,
    group: Group<'s>,
) -> Result<Diagnostic, AllocError> {
    let part = checked.part(alloc, group.first)?;
    let statement = OwnStatement::new(statements, checked, group.first.policy.as_str());
    let environments = checked.schema.environments().len();
    let says = says_of_environments(alloc, group, environments);
    let (reason, hint) = words_of(checked.settings.language, group.first.number());
    let mut diagnostic = DiagnosticDraft::error(alloc, group.first.number(), reason);
    match &part {
        Some(part) => add_place(alloc, &mut diagnostic, statement, part)?,
        None => mark_statement(&mut diagnostic, statement),
    }
    diagnostic.note_made(says);
    name_first(alloc, &mut diagnostic, group.first);
    statement.note_link(&mut diagnostic);
    match &part {
        Some(part) => add_words(alloc, &mut diagnostic, statement, part)?,
        None => diagnostic.advise(hint),
    }
    diagnostic.done()
}

// Says which policy has a fault, and in which environment.
fn name_first(alloc: Global, diagnostic: &mut DiagnosticDraft, fault: &Fault) {
    let ty = fault.action.ty.as_str();
    let id = fault.action.id.as_str();
    diagnostic.name("policy", fault.policy.as_str());
    diagnostic.name_made("action", format!(in alloc; "{ty}::{id:?}"));
    diagnostic.name("principal", fault.principal.as_str());
    diagnostic.name("resource", fault.resource.as_str());
}

// The policy and the environments of its faults.
fn says_of_environments(
    alloc: Global,
    group: Group<'_>,
    environments: usize,
) -> Result<String, AllocError> {
    let first = group.first;
    let policy = first_of(first.policy.as_str(), MOST_OF_ID);
    let count = group.count;
    let which = if count == 1 { ":" } else { ", first:" };
    let action = first.action.ty.as_str();
    let id = first.action.id.as_str();
    let principal = first.principal.as_str();
    let resource = first.resource.as_str();
    format!(in alloc;
        "policy `{policy}`, in {count} of {environments} environments{which} action {action}::\"{id}\", principal {principal}, resource {resource}"
    )
}
