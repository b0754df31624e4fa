//! The part of a condition for which a policy has a fault, and where it is written.
use crate::diagnostic_draft::DiagnosticDraft;
use crate::own_statement::OwnStatement;
use crate::quoted::{advise_quote, is_turned};
use base_places::Place;
use cedar_ast::{Link, Policy, PolicySet};
use cedar_check::Fault;
use cedar_check_diagnostics::{ExplainedPart, FalseGuards, false_guards, refused_part};
use cedar_check_spec::Settings;
use cedar_parser_places::PartPlace;
use cedar_schema::{Environment, Schema};
use cedar_value::Text;
use std::alloc::{AllocError, Global};

/// The number of an entity type or an action that is not declared.
const UNDECLARED: u16 = 601;

/// How many steps lead past the scope of a condition `principal && (action && (resource && conditions))`.
const SCOPE_STEPS: usize = 3;

/// Policies that have faults, and what they were checked against.
#[derive(Clone, Copy)]
pub struct Checked<'c> {
    /// The schema.
    pub schema: &'c Schema,
    /// The policies, and after them those that the links give.
    pub policies: &'c PolicySet,
    /// The links. A policy that is linked is written as its template is.
    pub links: &'c [Link],
    /// The settings of the check.
    pub settings: Settings,
}

impl<'c> Checked<'c> {
    // The environment of a fault.
    fn environment(self, fault: &Fault) -> Option<&'c Environment> {
        self.schema.environments().iter().find(|it| it.action == fault.action
            && it.principal == fault.principal
            && it.resource == fault.resource)
    }

    // The policy of an id.
    fn policy(self, id: &Text) -> Option<&'c Policy> {
        for position in 0..self.policies.count() {
            if let Some(policy) = self.policies.policy(position) {
                if policy.id() == id {
                    return Some(policy);
                }
            }
        }
        None
    }

    /// The tests of a policy that are always false, of which at most so many are explained.
    pub(crate) fn guards(
        self,
        alloc: Global,
        policy: &Policy,
        most: usize,
    ) -> Result<FalseGuards, AllocError> {
        let condition = policy.condition(alloc)?;
        let found = false_guards(alloc, self.settings, self.schema, &condition, most);
        drop(condition);
        found
    }

    /// The first test of the policy of an id that is always false.
    pub(crate) fn first_guard(
        self,
        alloc: Global,
        id: &Text,
    ) -> Result<Option<ExplainedPart>, AllocError> {
        let Some(policy) = self.policy(id) else {
            return Ok(None);
        };
        let mut found = self.guards(alloc, policy, 1)?;
        match found.parts.pop() {
            Some(guard) => Ok(Some(guard.part)),
            None => Ok(None),
        }
    }

    /// The id of the template from which the policy of an id is linked, if it is.
    pub(crate) fn template_of(self, id: &str) -> Option<&'c str> {
        let link = self.links.iter().find(|link| link.id.as_str() == id)?;
        Some(link.template.as_str())
    }

    /// The id of the template from which the policy at a position is linked, if it is. Policies that the links give come last, in the order
    /// of the links.
    pub(crate) fn template_at(self, position: usize) -> Option<&'c str> {
        let before = self.policies.count().saturating_sub(self.links.len());
        let link = self.links.get(position.checked_sub(before)?)?;
        Some(link.template.as_str())
    }

    /// The part of the policy's condition that has the fault.
    pub(crate) fn part(
        self,
        alloc: Global,
        fault: &Fault,
    ) -> Result<Option<ExplainedPart>, AllocError> {
        let (Some(environment), Some(policy)) = (
            self.environment(fault),
            self.policy(&fault.policy),
        ) else {
            return Ok(None);
        };
        let condition = policy.condition(alloc)?;
        let typed = condition.with_action(alloc, &environment.action);
        drop(condition);
        let typed = typed?;
        let part = refused_part(alloc, self.settings, self.schema, environment, &typed);
        drop(typed);
        part
    }
}

// Where the type ends of a uid or type that is written between two offsets.
fn type_end(text: &str, start: usize, end: usize) -> usize {
    let written = text.get(start..end).unwrap_or("");
    match written.split_once("::\"") {
        Some((ty, _)) => start.saturating_add(ty.len()),
        None => end,
    }
}

// Marks the part and its operands.
fn mark_part(
    alloc: Global,
    diagnostic: &mut DiagnosticDraft,
    statement: OwnStatement<'_>,
    part: &ExplainedPart,
    place: PartPlace,
) -> Result<(), AllocError> {
    let text = statement.text();
    let start = place.name.start;
    let end = if part.number == UNDECLARED {
        type_end(text, start, place.name.end)
    } else {
        place.name.end
    };
    diagnostic.place = Some(Place::of(text.as_bytes(), start));
    match &part.says_turned {
        Some(says) if is_turned(statement.written(place.name)) => {
            diagnostic.mark(start, end, says.as_str());
        }
        _ => diagnostic.mark(start, end, part.says.as_str()),
    }
    for operand in &part.operands {
        if let Some(place) = statement.part(alloc, &operand.path)? {
            diagnostic.mark(place.whole.start, place.whole.end, operand.says.as_str());
        }
    }
    Ok(())
}

/// Marks the beginning of the statement, if the text has it.
pub(crate) fn mark_statement(diagnostic: &mut DiagnosticDraft, statement: OwnStatement<'_>) {
    if let Some(at) = statement.start() {
        diagnostic.place = Some(Place::of(statement.text().as_bytes(), at));
        diagnostic.mark(at, at, statement.says_of_beginning());
    }
}

// The path of what is marked: that of the part, or of its first operand where the part is an `&&` between the sides of the scope and
// the conditions, which is not written.
fn marked_path(part: &ExplainedPart) -> &[usize] {
    match part.operands.first() {
        Some(operand) if part.path.len() < SCOPE_STEPS && part.path.iter().all(|step| *step == 1) =>
            { operand.path.as_slice() }
        _ => part.path.as_slice(),
    }
}

/// Marks the part in its statement; or else the beginning of the statement, and says in a note what is wrong.
pub(crate) fn add_place(
    alloc: Global,
    diagnostic: &mut DiagnosticDraft,
    statement: OwnStatement<'_>,
    part: &ExplainedPart,
) -> Result<(), AllocError> {
    match statement.part(alloc, marked_path(part))? {
        Some(place) => mark_part(alloc, diagnostic, statement, part, place),
        None => {
            mark_statement(diagnostic, statement);
            diagnostic.note(&[part.says.as_str()]);
            Ok(())
        }
    }
}

/// Adds what else is said of the part, and what to do about it.
pub(crate) fn add_words(
    alloc: Global,
    diagnostic: &mut DiagnosticDraft,
    statement: OwnStatement<'_>,
    part: &ExplainedPart,
) -> Result<(), AllocError> {
    for note in &part.notes {
        diagnostic.note(&[note.as_str()]);
    }
    if let Some(hint) = &part.hint {
        diagnostic.advise(hint.as_str());
    }
    match &part.quote {
        Some(quote) => advise_quote(alloc, diagnostic, statement, quote),
        None => Ok(()),
    }
}
