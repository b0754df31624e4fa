//! Policies that are made from templates.
ghost use Rattle.std.specs.Prelude.{◌≡◌, ◌↔◌, IfOk, IsTrue};
ghost use Rattle.cedar_ast.specs.Linking.{entity_of, entity_scope_linked, has_slot, scope_linked, link_of, HasExtraSlot};

use crate::annotation::Annotation;
use crate::entity_reference::EntityReference;
use crate::policy::{Policy, Template};
use crate::scope::{EntityScope, Scope};
use crate::slots::Slots;
use cedar_value::{Text, Uid};
use std::alloc::{AllocError, Global};

/// Whether a uid is given for a slot that the template does not have.
pub(crate) fn has_extra_slot(template: &Template, slots: &Slots) -> bool
    ensures { IsTrue result ↔ HasExtraSlot template.now slots.now }
{
    let scope = template.scope();
    let principal = slots.principal.is_some() && !has_slot(&scope.principal);
    principal || (slots.resource.is_some() && !has_slot(&scope.resource))
}

// Whether the scope has a slot.
fn has_slot(scope: &EntityScope<EntityReference>) -> bool
    ensures { result ≡ has_slot scope.now }
{
    matches!(scope.entity(), Some(EntityReference::Slot))
}

/// The link of a template, or none where nothing is given for one of its slots.
pub(crate) fn linked(
    alloc: Global,
    template: &Template,
    id: &str,
    slots: &Slots,
) -> Result<Option<Policy>, AllocError>
    ensures { IfOk result (λ policy. policy ≡ link_of template.now id.now slots.now) }
{
    let annotations = copy_annotations(alloc, template.annotations())?;
    let conditions = template.conditions().share()?;
    let id = Text::read(alloc, id)?;
    let Some(scope) = linked_scope(alloc, template.scope(), slots)? else {
        return Ok(None);
    };
    let policy = Policy::new(id, annotations, template.effect(), scope, conditions);
    Ok(Some(policy))
}

fn copy_annotations(
    alloc: Global,
    annotations: &[Annotation],
) -> Result<Vec<Annotation>, AllocError>
    ensures { IfOk result (λ copies. copies.items ≡ annotations.now) }
{
    let mut copies = Vec::new(alloc);
    for annotation in annotations {
        copies.push(annotation.try_clone(alloc)?)?;
    }
    Ok(copies)
}

// The scope with its slots replaced, or none where nothing is given for one.
fn linked_scope(
    alloc: Global,
    scope: &Scope<EntityReference>,
    slots: &Slots,
) -> Result<Option<Scope<Uid>>, AllocError>
    ensures { IfOk result (λ linked. linked ≡ scope_linked scope.now slots.now) }
{
    let Some(principal) = linked_entity_scope(alloc, &scope.principal, &slots.principal)? else {
        return Ok(None);
    };
    let Some(resource) = linked_entity_scope(alloc, &scope.resource, &slots.resource)? else {
        return Ok(None);
    };
    let action = scope.action.try_clone(alloc)?;
    Ok(Some(Scope {
        principal,
        action,
        resource,
    }))
}

// The scope of the principal or the resource once its slot is replaced. None where the slot is given no uid.
fn linked_entity_scope(
    alloc: Global,
    scope: &EntityScope<EntityReference>,
    given: &Option<Uid>,
) -> Result<Option<EntityScope<Uid>>, AllocError>
    ensures { IfOk result (λ linked. linked ≡ entity_scope_linked scope.now given.now) }
{
    match scope {
        EntityScope::Any => Ok(Some(EntityScope::Any)),
        EntityScope::Equal(entity) => {
            Ok(linked_entity(alloc, entity, given)?.map(EntityScope::Equal))
        }
        EntityScope::In(entity) => { Ok(linked_entity(alloc, entity, given)?.map(EntityScope::In)) }
        EntityScope::Is(ty) => Ok(Some(EntityScope::Is(ty.try_clone(alloc)?))),
        EntityScope::IsIn(ty, entity) => {
            let Some(entity) = linked_entity(alloc, entity, given)? else {
                return Ok(None);
            };
            Ok(Some(EntityScope::IsIn(ty.try_clone(alloc)?, entity)))
        }
    }
}

// The entity that is referred to, or none for a slot for which nothing is given.
fn linked_entity(
    alloc: Global,
    entity: &EntityReference,
    given: &Option<Uid>,
) -> Result<Option<Uid>, AllocError>
    ensures { IfOk result (λ uid. uid ≡ entity_of entity.now given.now) }
{
    match (entity, given) {
        (EntityReference::Entity(uid), _) | (EntityReference::Slot, Some(uid)) => {
            Ok(Some(uid.try_clone(alloc)?))
        }
        (EntityReference::Slot, None) => Ok(None),
    }
}
