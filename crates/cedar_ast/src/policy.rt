//! Policies.
ghost use Rattle.std.specs.Prelude.{◌≡◌, IfOk, map};
ghost use Rattle.cedar_ast.specs.Condition.{compared, entity_literal, entity_scope_of, action_scope_of, conditions_of, condition_of, asked_by};
ghost use Rattle.cedar_ast_expressions.specs.Expression.{and, unary, variable};

use crate::annotation::Annotation;
use crate::condition::{Condition, ConditionKind};
use crate::conditions::Conditions;
use crate::effect::Effect;
use crate::entity_reference::EntityReference;
use crate::scope::{ActionScope, EntityScope, Scope};
use cedar_ast_expressions::{BinaryOperator, Expr, UnaryOperator, Variable};
use cedar_value::{Name, Text, Uid, Value};
use std::alloc::{AllocError, Global};
use std::fmt;
use std::marker::Model;

/// What a policy and a template share; `S` is the kind of their scope. Contracts see a `PolicyRecord` (Cedar language
/// reference, policies and policy templates).
#[derive(Drop)]
pub struct PolicyOver<S> {
    id: Text,
    annotations: Vec<Annotation>,
    effect: Effect,
    scope: S,
    conditions: Conditions,
}

/// A policy, which contracts see as a `PolicyTree` (Cedar language reference, policies).
pub type Policy = PolicyOver<Scope<Uid>>;

/// A policy whose scope has slots in place of entities, which contracts see as a `TemplateTree` (Cedar language reference,
/// policy templates).
pub type Template = PolicyOver<Scope<EntityReference>>;

impl<S> Model for PolicyOver<S> {
    ghost use Rattle.std.specs.Coded.{codes};
    ghost use Rattle.cedar_ast_expressions.specs.Private.ExpressionCode.{expression_code};
    ghost use Rattle.cedar_ast.specs.PolicyTree.{PolicyRecord};

    ghost Value = { PolicyRecord S };

    ghost coded = { Prim.hlevel (codes, expression_code, S.code) };

    ghost view = { λ p. record {
      id = p.id;
      annotations = p.annotations.items;
      effect = p.effect;
      scope = p.scope;
      conditions = p.conditions;
    } };
}

impl<S> PolicyOver<S> {
    /// A policy or a template of this id, with its annotations and its conditions in order. Takes no memory.
    pub fn new(
        id: Text,
        annotations: Vec<Annotation>,
        effect: Effect,
        scope: S,
        conditions: Conditions,
    ) -> Self
        ensures id { result.id ≡ id }
        ensures annotations { result.annotations ≡ annotations.items }
        ensures effect { result.effect ≡ effect }
        ensures scope { result.scope ≡ scope }
        ensures conditions { result.conditions ≡ conditions }
    {
        PolicyOver {
            id,
            annotations,
            effect,
            scope,
            conditions,
        }
    }

    /// The id, lent.
    pub fn id(&self) -> &Text
        ensures { result.now ≡ self.now.id }
    {
        &self.id
    }

    /// The annotations in order, lent (Cedar language reference, annotations).
    pub fn annotations(&self) -> &[Annotation]
        ensures { result.now ≡ self.now.annotations }
    {
        &self.annotations
    }

    /// The effect of the policy, or of the policies that are linked from the template.
    pub fn effect(&self) -> Effect
        ensures { result ≡ self.now.effect }
    {
        self.effect
    }

    /// The conditions, lent (Cedar language reference, policy conditions).
    pub(crate) fn conditions(&self) -> &Conditions
        ensures { result.now ≡ self.now.conditions }
    {
        &self.conditions
    }

    /// The scope, lent. The scope of a template may have slots.
    pub fn scope(&self) -> &S
        ensures { result.now ≡ self.now.scope }
    {
        &self.scope
    }
}

impl PolicyOver<Scope<Uid>> {
    /// The expression that is true where the policy is satisfied: the scope's conditions on principal, action and resource, and
    /// then the policy's conditions in order (Cedar language reference, policy scope and conditions).
    pub fn condition(&self, alloc: Global) -> Result<Expr, AllocError>
        ensures { IfOk result (λ e. e ≡ condition_of self.now) }
    {
        let rest = from_action(alloc, &self.scope, self.conditions.as_slice())?;
        let principal = entity_scope(alloc, Variable::Principal, &self.scope.principal)?;
        Expr::and(alloc, principal, rest)
    }
}

impl fmt::Debug for PolicyOver<Scope<Uid>> {
    fn fmt<W: fmt::Write>(&self, f: &mut fmt::Formatter<W>) -> fmt::Result {
        let id = self.id.as_str();
        write!(f, "Policy({id:?})")
    }
}

// The scope's conditions on the action and the resource, and then the policy's conditions.
fn from_action(
    alloc: Global,
    scope: &Scope<Uid>,
    conditions: &[Condition],
) -> Result<Expr, AllocError>
    ensures { IfOk result (λ e. e ≡ and (action_scope_of scope.now.action)
        (and (entity_scope_of Variable.Resource scope.now.resource) (conditions_of conditions.now))) }
{
    let rest = from_resource(alloc, &scope.resource, conditions)?;
    let action = action_scope(alloc, &scope.action)?;
    Expr::and(alloc, action, rest)
}

// The scope's condition on the resource, and then the policy's conditions.
fn from_resource(
    alloc: Global,
    scope: &EntityScope<Uid>,
    conditions: &[Condition],
) -> Result<Expr, AllocError>
    ensures { IfOk result (λ e. e ≡ and (entity_scope_of Variable.Resource scope.now) (conditions_of conditions.now)) }
{
    let conditions = all_conditions(alloc, conditions)?;
    let resource = entity_scope(alloc, Variable::Resource, scope)?;
    Expr::and(alloc, resource, conditions)
}

// The literal of an entity.
fn literal(alloc: Global, entity: &Uid) -> Result<Expr, AllocError>
    ensures { IfOk result (λ e. e ≡ entity_literal entity.now) }
{
    Ok(Expr::literal(Value::uid(alloc, entity.try_clone(alloc)?)?))
}

// `variable == E` or `variable in E`
fn compare(
    alloc: Global,
    operator: BinaryOperator,
    name: Variable,
    entity: &Uid,
) -> Result<Expr, AllocError>
    ensures { IfOk result (λ e. e ≡ compared operator name (entity_literal entity.now)) }
{
    let entity = literal(alloc, entity)?;
    Expr::binary(alloc, operator, Expr::variable(name), entity)
}

// `variable is T`
fn of_type(alloc: Global, name: Variable, ty: &Name) -> Result<Expr, AllocError>
    ensures { IfOk result (λ e. e ≡ unary (UnaryOperator.Is ty.now) (variable name)) }
{
    let operator = UnaryOperator::Is(ty.try_clone(alloc)?);
    Expr::unary(alloc, operator, Expr::variable(name))
}

// The scope's condition on the principal or the resource.
fn entity_scope(alloc: Global, name: Variable, scope: &EntityScope<Uid>) -> Result<Expr, AllocError>
    ensures { IfOk result (λ e. e ≡ entity_scope_of name scope.now) }
{
    match scope {
        EntityScope::Any => Ok(Expr::literal(Value::boolean(true))),
        EntityScope::Equal(entity) => compare(alloc, BinaryOperator::Equal, name, entity),
        EntityScope::In(entity) => compare(alloc, BinaryOperator::In, name, entity),
        EntityScope::Is(ty) => of_type(alloc, name, ty),
        EntityScope::IsIn(ty, entity) => {
            let of_type = of_type(alloc, name, ty)?;
            let within = compare(alloc, BinaryOperator::In, name, entity)?;
            Expr::and(alloc, of_type, within)
        }
    }
}

// The scope's condition on the action.
fn action_scope(alloc: Global, scope: &ActionScope<Uid>) -> Result<Expr, AllocError>
    ensures { IfOk result (λ e. e ≡ action_scope_of scope.now) }
{
    let action = Variable::Action;
    match scope {
        ActionScope::Any => Ok(Expr::literal(Value::boolean(true))),
        ActionScope::Equal(entity) => compare(alloc, BinaryOperator::Equal, action, entity),
        ActionScope::In(entity) => compare(alloc, BinaryOperator::In, action, entity),
        ActionScope::InSet(entities) => {
            let members = Expr::set(literals(alloc, entities.as_slice())?);
            Expr::binary(alloc, BinaryOperator::In, Expr::variable(action), members)
        }
    }
}

// The literals of entities.
fn literals(alloc: Global, entities: &[Uid]) -> Result<Vec<Expr>, AllocError>
    ensures { IfOk result (λ v. v.items ≡ map entity_literal entities.now) }
{
    let mut members = Vec::new(alloc);
    for entity in entities {
        members.push(literal(alloc, entity)?)?;
    }
    Ok(members)
}

// The expression of a condition: its body, negated after `unless`.
fn condition_expression(alloc: Global, condition: &Condition) -> Result<Expr, AllocError>
    ensures { IfOk result (λ e. e ≡ asked_by condition.now.kind condition.now.body) }
{
    let body = condition.body.try_clone(alloc)?;
    match condition.kind {
        ConditionKind::When => Ok(body),
        ConditionKind::Unless => {
            let negated = Expr::unary(alloc, UnaryOperator::Not, body)?;
            Ok(negated)
        }
    }
}

// All conditions, joined from the last one to the first.
fn all_conditions(alloc: Global, conditions: &[Condition]) -> Result<Expr, AllocError>
    ensures { IfOk result (λ e. e ≡ conditions_of conditions.now) }
{
    let count = conditions.len();
    if count == 0 {
        return Ok(Expr::literal(Value::boolean(true)));
    }
    let mut joined = condition_expression(alloc, &conditions[count - 1])?;
    for index in (0..count - 1).rev() {
        let earlier = condition_expression(alloc, &conditions[index])?;
        joined = Expr::and(alloc, earlier, joined)?;
    }
    Ok(joined)
}
