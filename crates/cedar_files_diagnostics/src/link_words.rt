//! Words for a link that the policies refuse.
use crate::diagnostic_draft::DiagnosticDraft;
use base_names::Nearest;
use base_places::Draft;
use cedar_ast::{EntityReference, EntityScope, Link, PolicySet, Template};
use std::alloc::Global;

/// The number of a template that does not exist.
const NO_TEMPLATE: u16 = 210;

/// How many templates are named at most.
const MOST_TEMPLATES: usize = 10;

/// The number of a slot for which nothing is given.
const MISSING_SLOT: u16 = 211;

/// The number of a slot that a template does not have.
const EXTRA_SLOT: u16 = 212;

/// Adds which template or slot is likely meant by a link that the policies refuse. `given` is the key at which a link has its uids.
pub(crate) fn add_meaning(
    alloc: Global,
    diagnostic: &mut DiagnosticDraft,
    policies: &PolicySet,
    link: &Link,
    given: &str,
) {
    let name = link.template.as_str();
    let Some(template) = template_of(policies, name) else {
        if diagnostic.number == NO_TEMPLATE {
            add_template(alloc, diagnostic, policies, name);
        }
        return;
    };
    let scope = template.scope();
    let is_given = (
        link.slots.principal.is_some(),
        link.slots.resource.is_some(),
    );
    add_slot(
        diagnostic,
        "`?principal`",
        has_slot(&scope.principal),
        is_given.0,
        given,
    );
    add_slot(
        diagnostic,
        "`?resource`",
        has_slot(&scope.resource),
        is_given.1,
        given,
    );
}

// The template with an id.
fn template_of<'p>(policies: &'p PolicySet, name: &str) -> Option<&'p Template> {
    for position in 0..policies.template_count() {
        let template = policies.template(position)?;
        if template.id().as_str() == name {
            return Some(template);
        }
    }
    None
}

// Adds why there is no template of a name: it is that of a policy, or near to that of a template.
fn add_template(alloc: Global, diagnostic: &mut DiagnosticDraft, policies: &PolicySet, name: &str) {
    for position in 0..policies.count() {
        if let Some(policy) = policies.policy(position)
            && policy.id().as_str() == name
        {
            diagnostic.note(&["`", name, "` is a policy: its scope has no slot"]);
            return;
        }
    }
    let mut nearest = Nearest::new(name);
    for position in 0..policies.template_count() {
        if let Some(template) = policies.template(position) {
            let id = template.id().as_str();
            nearest = nearest.compare(id, id);
        }
    }
    match nearest.name() {
        Some(id) => diagnostic.advise_all(&["did you mean `", id, "`?"]),
        None if policies.template_count() > 0 => note_templates(alloc, diagnostic, policies),
        None => {}
    }
}

// Adds the ids of the templates, at most ten.
fn note_templates(alloc: Global, diagnostic: &mut DiagnosticDraft, policies: &PolicySet) {
    let mut note = Draft::new(alloc);
    note.add("templates:");
    for position in 0..policies.template_count().min(MOST_TEMPLATES) {
        if let Some(template) = policies.template(position) {
            note.add_all(&[" `", template.id().as_str(), "`"]);
        }
    }
    diagnostic.note_made(note.done());
}

// Whether a side of a scope has a slot.
fn has_slot(side: &EntityScope<EntityReference>) -> bool {
    matches!(side.entity(), Some(EntityReference::Slot))
}

// Adds which slot it is, if a uid is missing for it or is one too many.
fn add_slot(diagnostic: &mut DiagnosticDraft, slot: &str, has: bool, is_given: bool, given: &str) {
    if diagnostic.number == MISSING_SLOT && has && !is_given {
        diagnostic.note(&[
            "the template has the slot ",
            slot,
            ", and ",
            given,
            " has no uid for it",
        ]);
    }
    if diagnostic.number == EXTRA_SLOT && !has && is_given {
        diagnostic.note(&["the template has no slot ", slot]);
    }
}
