//! From a statement as it is written to a policy or a template.
ghost use Rattle.std.specs.Prelude.{◌≡◌, ◌++◌, ◌∷◌, [], false, IfOk, OnOk, map, option_map};
ghost use Rattle.std.specs.Option.{ForSome};
ghost use Rattle.cedar_ast.specs.Scope.{entity_in};
ghost use Rattle.cedar_ext.specs.declared.language.Language.TheVariants.{Cedar4};
ghost use Rattle.cedar_parser_limits.specs.declared.side_condition.SideCondition.TheVariants.{Strings, Numbers, Keys, Names, Counts, Slots};
ghost use Rattle.cedar_parser_tokens.specs.Content.{text_of};
ghost use Rattle.cedar_parser_tokens.specs.Names.{to_uid};
ghost use Rattle.cedar_parser_limits.specs.StatementMeaning.{to_entity, to_reference, to_action_scope, scope_over, to_scope, to_template_scope, is_slot, asks_slot, has_slot, to_annotation, to_condition, to_statement, id_in, id_at};
ghost use Rattle.cedar_parser_limits.specs.StatementLimits.{KeepConditions};
ghost use Rattle.cedar_parser.specs.Private.Kept.{Every};

use crate::expression::to_expression;
use cedar_ast::{
    ActionScope, Annotation, Condition, Conditions, EntityReference, Policy, Scope, Statement,
    Template, Uids,
};
use cedar_parser_tokens::WrittenUid;
use cedar_parser_tree::{
    Reference, WrittenActionScope, WrittenAnnotation, WrittenCondition, WrittenEntityScope,
    WrittenScope, WrittenStatement,
};
use cedar_value::{Text, Uid};
use itoa::Buffer;
use std::alloc::{AllocError, Global};

/// The policy or template of this id that the statement writes.
pub fn to_statement(
    alloc: Global,
    id: Text,
    statement: WrittenStatement,
) -> Result<Statement, AllocError>
    requires numbers { KeepConditions Cedar4 Numbers statement.conditions }
    requires keys { KeepConditions Cedar4 Keys statement.conditions }
    requires strings { KeepConditions Cedar4 Strings statement.conditions }
    requires names { KeepConditions Cedar4 Names statement.conditions }
    requires counts { KeepConditions Cedar4 Counts statement.conditions }
    requires slots { KeepConditions Cedar4 Slots statement.conditions }
    ensures { IfOk result (λ s. s ≡ to_statement id statement) }
{
    let is_template = has_slot(&statement.scope);
    let conditions = to_conditions(alloc, &statement.conditions)?;
    let annotations = to_annotations(alloc, statement.annotations)?;
    let effect = statement.effect;
    if is_template {
        let scope = to_template_scope(alloc, statement.scope)?;
        let template = Template::new(id, annotations, effect, scope, conditions);
        return Ok(Statement::Template(template));
    }
    let scope = to_scope(alloc, statement.scope)?;
    let policy = Policy::new(id, annotations, effect, scope, conditions);
    Ok(Statement::Policy(policy))
}

/// Whether a scope has a slot, so that its statement is a template (Cedar language reference, policy templates).
pub fn has_slot(scope: &WrittenScope) -> bool
    ensures { result ≡ has_slot scope.now }
{
    asks_slot(&scope.principal) || asks_slot(&scope.resource)
}

fn asks_slot(scope: &WrittenEntityScope) -> bool
    ensures { result ≡ asks_slot scope.now }
{
    matches!(scope.entity(), Some(Reference::Slot(_, _)))
}

// The scope of a policy.
fn to_scope(alloc: Global, scope: WrittenScope) -> Result<Scope<Uid>, AllocError>
    requires { has_slot scope ≡ false }
    ensures { IfOk result (λ s. s ≡ to_scope scope) }
{
    scope_over(alloc, scope, |reference| to_entity(alloc, reference))
}

// The scope of a template.
fn to_template_scope(
    alloc: Global,
    scope: WrittenScope,
) -> Result<Scope<EntityReference>, AllocError>
    ensures { IfOk result (λ s. s ≡ to_template_scope scope) }
{
    scope_over(alloc, scope, |reference| to_reference(alloc, reference))
}

// The scope, with what `make` makes of the references to the principal and the resource.
fn scope_over<E, M: Fn(Reference) -> E>(
    alloc: Global,
    scope: WrittenScope,
    make: M,
) -> Result<Scope<E>, AllocError>
    requires principal { ForSome (entity_in scope.principal) (M.pre make) }
    requires resource { ForSome (entity_in scope.resource) (M.pre make) }
    ensures { (f : Reference → E) → ((r : Reference) (made : E) → M.post make r made → made ≡ f r)
        → IfOk result (λ s. s ≡ scope_over f scope) }
{
    let action = to_action_scope(alloc, scope.action)?;
    Ok(Scope {
        principal: scope.principal.map(&make),
        action,
        resource: scope.resource.map(&make),
    })
}

// The entity that is referred to.
fn to_entity(alloc: Global, reference: Reference) -> Uid
    requires { is_slot reference ≡ false }
    ensures { result ≡ to_entity reference }
{
    match reference {
        Reference::Entity(uid) => uid.into_uid(alloc),
        Reference::Slot(_, _) => unreachable!(),
    }
}

fn to_reference(alloc: Global, reference: Reference) -> EntityReference
    ensures { result ≡ to_reference reference }
{
    match reference {
        Reference::Entity(uid) => EntityReference::Entity(uid.into_uid(alloc)),
        Reference::Slot(_, _) => EntityReference::Slot,
    }
}

fn to_action_scope(alloc: Global, scope: WrittenActionScope) -> Result<ActionScope<Uid>, AllocError>
    ensures { IfOk result (λ s. s ≡ to_action_scope scope) }
{
    match scope {
        ActionScope::Any => Ok(ActionScope::Any),
        ActionScope::Equal(uid) => Ok(ActionScope::Equal(uid.into_uid(alloc))),
        ActionScope::In(uid) => Ok(ActionScope::In(uid.into_uid(alloc))),
        ActionScope::InSet(uids) => {
            let uids = to_uids(alloc, uids.into_vec())?;
            Ok(ActionScope::InSet(Uids::new(uids)))
        }
    }
}

fn to_uids(alloc: Global, uids: Vec<WrittenUid>) -> Result<Vec<Uid>, AllocError>
    ensures { IfOk result (λ v. v.items ≡ map to_uid uids.items) }
{
    let mut found = Vec::with_capacity(alloc, uids.len())?;
    for uid in uids {
        found.push(uid.into_uid(alloc))?;
    }
    Ok(found)
}

fn to_annotations(
    alloc: Global,
    written: Vec<WrittenAnnotation>,
) -> Result<Vec<Annotation>, AllocError>
    ensures { IfOk result (λ v. v.items ≡ map to_annotation written.items) }
{
    let mut found = Vec::with_capacity(alloc, written.len())?;
    for annotation in written {
        found.push(to_annotation(alloc, annotation))?;
    }
    Ok(found)
}

fn to_annotation(alloc: Global, annotation: WrittenAnnotation) -> Annotation
    ensures { result ≡ to_annotation annotation }
{
    Annotation {
        name: annotation.name.into_text(),
        value: annotation.value.into_text(alloc),
    }
}

fn to_conditions(alloc: Global, written: &[WrittenCondition]) -> Result<Conditions, AllocError>
    requires { Every (λ c. KeepConditions Cedar4 c written.now) }
    ensures { IfOk result (λ v. v ≡ map to_condition written.now) }
{
    let mut found = Vec::with_capacity(alloc, written.len())?;
    for condition in written {
        let body = to_expression(alloc, &condition.body)?;
        found.push(Condition {
            kind: condition.kind,
            body,
        })?;
    }
    Conditions::new(alloc, found)
}

/// The id of the statement at a position: the value of its annotation `id`, or else `policyN` (own: ids of policies).
pub fn id_of(
    alloc: Global,
    position: usize,
    statement: &WrittenStatement,
) -> Result<Text, AllocError>
    ensures { IfOk result (λ id. id ≡ id_at position statement.now) }
{
    if let Some(id) = annotated_id(alloc, &statement.annotations)? {
        return Ok(id);
    }
    let mut buffer = Buffer::new();
    let mut id = String::from_str(alloc, "policy")?;
    id.push_str(buffer.format(position))?;
    Ok(Text::new(id))
}

// The value of the annotation `id`, if there is one.
fn annotated_id(
    alloc: Global,
    annotations: &[WrittenAnnotation],
) -> Result<Option<Text>, AllocError>
    ensures { IfOk result (λ id. id ≡ option_map text_of (id_in annotations.now)) }
{
    for annotation in annotations {
        if annotation.name.as_str() == "id" {
            return Ok(Some(annotation.value.to_text(alloc)?));
        }
    }
    Ok(None)
}
