//! The size of the condition that a statement writes.
ghost use Rattle.std.specs.Prelude.{◌≡◌, map};
ghost use Rattle.cedar_ast.specs.Condition.{entity_scope_of, action_scope_of, asked_by, conditions_of, entity_literal};
ghost use Rattle.cedar_ast.specs.Scope.{scope_map};
ghost use Rattle.cedar_ast_expressions.specs.Expression.{expressions_of};
ghost use Rattle.cedar_ast_expressions.specs.declared.variable.Variable.{Variable};
ghost use Rattle.cedar_parser_limits.specs.Private.Capped.{capped};
ghost use Rattle.cedar_parser_limits.specs.Limits.{leaf, size_of, size_of_all};
ghost use Rattle.cedar_parser_limits.specs.Meaning.{to_expression};
ghost use Rattle.cedar_parser_tokens.specs.Names.{to_uid};
ghost use Rattle.cedar_parser_limits.specs.StatementLimits.{condition_size};
ghost use Rattle.cedar_parser_limits.specs.StatementMeaning.{to_entity, to_action_scope, to_condition};

use crate::expression_size::expression_size;
use crate::size::{Size, leaf, nothing};
use cedar_ast::{ActionScope, ConditionKind, EntityScope};
use cedar_parser_tokens::WrittenUid;
use cedar_parser_tree::{
    WrittenActionScope, WrittenCondition, WrittenEntityScope, WrittenStatement,
};

/// The size of the condition of the policy that a statement writes. A slot counts as a literal.
#[tactic(auto, unfolding(crate::specs::StatementLimits::condition_size))]
pub fn condition_size(statement: &WrittenStatement) -> Size
    ensures { result ≡ capped (condition_size statement.now) }
{
    let principal = entity_scope_size(&statement.scope.principal);
    let action = action_scope_size(&statement.scope.action);
    let resource = entity_scope_size(&statement.scope.resource);
    let conditions = conditions_size(&statement.conditions);
    principal.above_both(action.above_both(resource.above_both(conditions)))
}

// The size of the condition on the principal or the resource.
fn entity_scope_size(scope: &WrittenEntityScope) -> Size
    ensures { (x : Variable) → result ≡ capped (size_of (entity_scope_of x (scope_map to_entity scope.now))) }
{
    match scope {
        EntityScope::Any => leaf(),
        EntityScope::Equal(_) => leaf().above_both(leaf()),
        EntityScope::In(_) => leaf().above_both(leaf()),
        EntityScope::Is(_) => leaf().above(),
        EntityScope::IsIn(_, _) => leaf().above().above_both(leaf().above_both(leaf())),
    }
}

fn action_scope_size(scope: &WrittenActionScope) -> Size
    ensures { result ≡ capped (size_of (action_scope_of (to_action_scope scope.now))) }
{
    match scope {
        ActionScope::Any => leaf(),
        ActionScope::Equal(_) => leaf().above_both(leaf()),
        ActionScope::In(_) => leaf().above_both(leaf()),
        ActionScope::InSet(uids) => leaf().above_both(uids_size(uids.as_slice()).above()),
    }
}

// The size of the literals of entities.
fn uids_size(uids: &[WrittenUid]) -> Size
    ensures { result ≡ capped (size_of_all (expressions_of (map entity_literal (map to_uid uids.now)))) }
{
    let mut whole = nothing();
    for uid in uids {
        whole = whole.both(literal_size(uid));
    }
    whole
}

fn literal_size(_uid: &WrittenUid) -> Size
    ensures { result ≡ leaf }
{
    leaf()
}

// The size of the conditions, joined from the last one to the first.
fn conditions_size(conditions: &[WrittenCondition]) -> Size
    ensures { result ≡ capped (size_of (conditions_of (map to_condition conditions.now))) }
{
    let count = conditions.len();
    if count == 0 {
        return leaf();
    }
    let mut joined = clause_size(&conditions[count - 1]);
    for index in (0..count - 1).rev() {
        joined = clause_size(&conditions[index]).above_both(joined);
    }
    joined
}

fn clause_size(condition: &WrittenCondition) -> Size
    ensures { result ≡ capped (size_of (asked_by condition.now.kind (to_expression condition.now.body))) }
{
    let body = expression_size(&condition.body);
    match condition.kind {
        ConditionKind::When => body,
        ConditionKind::Unless => body.above(),
    }
}
