//! Checks of a statement beyond the grammar.
ghost use Rattle.std.specs.Prelude.{◌≡◌, ◌≤◌, IfOk, IfErr, OnOk, map};
ghost use Rattle.cedar_parser_limits.specs.StatementLimits.{KeepsReference, KeepsEntityScope, KeepUids, KeepsActionScope, HasDistinctNames, KeepAnnotations, KeepConditions, KeepsStatement, condition_size, IsWithinLimits, Breaks};
ghost use Rattle.cedar_parser_limits.specs.Limits.{max_height, max_nodes};
ghost use Rattle.cedar_parser_limits.specs.Private.Judging.{BreaksSize, Seeks, Judges};
ghost use Rattle.cedar_parser_limits.specs.declared.side_condition.SideCondition.{SideCondition as Conditions};
ghost use Rattle.cedar_ext.specs.declared.language.Language.{Language as Languages};

use crate::breach::Breach;
use crate::condition_size::condition_size;
use crate::expression_judgement::{judge_content, judge_expression};
use crate::side_condition::SideCondition;
use crate::size::Size;
use crate::sought::Sought;
use cedar_ast::{ActionScope, EntityScope};
use cedar_ast_expressions::{Variable, first_repeated};
use cedar_ext::Language;
use cedar_parser_tokens::{ParseFault, WrittenUid};
use cedar_parser_tree::{
    Reference, WrittenActionScope, WrittenAnnotation, WrittenCondition, WrittenEntityScope,
    WrittenStatement,
};
use std::alloc::{AllocError, Global};

/// The height that the condition of a statement may have, in nodes.
const MAX_HEIGHT: usize = 2_000;

/// How many nodes the condition of a statement may have.
const MAX_NODES: usize = 100_000;

/// The side conditions, in the order in which they are checked.
const IN_ORDER: [SideCondition; 7] = [
    SideCondition::Strings,
    SideCondition::Numbers,
    SideCondition::Keys,
    SideCondition::Names,
    SideCondition::Counts,
    SideCondition::Slots,
    SideCondition::Annotations,
];

/// Refuses a statement that breaks a side condition or a limit.
///
/// # Errors
///
/// 1 when out of memory. The others are checked in this order:
///
/// - 103: the escape `\*` is outside a pattern.
/// - 104: a number is above 9223372036854775807, or after a minus sign above 9223372036854775808.
/// - 203: a key is repeated in a record.
/// - 205: a function or method is unknown.
/// - 206: a function or method has a wrong number of arguments.
/// - 207: a slot is elsewhere than in its variable's scope.
/// - 208: an annotation is repeated.
/// - 202: the condition is too high.
/// - 209: the condition is too large.
pub fn judge(
    alloc: Global,
    language: Language,
    statement: &WrittenStatement,
) -> Result<(), ParseFault>
    ensures kept { OnOk result (IsWithinLimits language statement.now) }
    ensures broken { IfErr result (Breaks language statement.now) }
{
    judge_side_conditions(alloc, language, statement)?;
    judge_size(statement)?;
    Ok(())
}

// Refuses a statement that breaks a side condition. One walk looks for all of them. Where it refuses the statement, a walk for
// each of them finds the first in order. Where none of these refuses it, memory failed in the first walk.
fn judge_side_conditions(
    alloc: Global,
    language: Language,
    statement: &WrittenStatement,
) -> Result<(), ParseFault>
    ensures kept { OnOk result ((c : Conditions) → KeepsStatement language c statement.now) }
    ensures broken { IfErr result (Breaks language statement.now) }
{
    let all = Sought {
        language,
        only: None,
    };
    let fault = match judge_sought(alloc, all, statement) {
        Ok(()) => return Ok(()),
        Err(fault) => fault,
    };
    for condition in IN_ORDER {
        let only = Some(condition);
        judge_sought(alloc, Sought { language, only }, statement)?;
    }
    Err(fault)
}

// Refuses a statement whose condition is too high or too large.
fn judge_size(statement: &WrittenStatement) -> Result<(), ParseFault>
    ensures low { OnOk result ((condition_size statement.now).height ≤ max_height) }
    ensures small { OnOk result ((condition_size statement.now).nodes ≤ max_nodes) }
    ensures broken { (l : Languages) → IfErr result (Breaks l statement.now) }
{
    let size = condition_size(statement);
    judge_limits(size, statement.start)
}

// Refuses a size that is too high or too large.
fn judge_limits(size: Size, start: usize) -> Result<(), ParseFault>
    ensures low { OnOk result (size.height ≤ max_height) }
    ensures small { OnOk result (size.nodes ≤ max_nodes) }
    ensures broken { IfErr result (BreaksSize size) }
{
    if size.height > MAX_HEIGHT {
        return Err(ParseFault::TooHigh(start));
    }
    if size.nodes > MAX_NODES {
        return Err(ParseFault::TooLarge(start));
    }
    Ok(())
}

// Refuses a statement that breaks a side condition which is sought.
fn judge_sought(
    alloc: Global,
    sought: Sought,
    statement: &WrittenStatement,
) -> Result<(), ParseFault>
    ensures kept { (c : Conditions) → Seeks sought c → OnOk result (KeepsStatement sought.language c statement.now) }
    ensures broken { IfErr result (Breaks sought.language statement.now) }
{
    let Err(breach) = judge_parts(alloc, sought, statement) else {
        return Ok(());
    };
    match breach {
        Breach::OutOfMemory => Err(ParseFault::OutOfMemory),
        Breach::Of(SideCondition::Strings, at) => Err(ParseFault::EscapedStar(at)),
        Breach::Of(SideCondition::Numbers, at) => Err(ParseFault::NumberTooLarge(at)),
        Breach::Of(SideCondition::Keys, at) => Err(ParseFault::DuplicateKey(at)),
        Breach::Of(SideCondition::Names, at) => Err(ParseFault::UnknownFunction(at)),
        Breach::Of(SideCondition::Counts, at) => Err(ParseFault::Arity(at)),
        Breach::Of(SideCondition::Slots, at) => Err(ParseFault::SlotMisplaced(at)),
        Breach::Of(SideCondition::Annotations, at) => Err(ParseFault::DuplicateAnnotation(at)),
    }
}

// Judges the parts of a statement, one after another.
fn judge_parts(alloc: Global, sought: Sought, statement: &WrittenStatement) -> Result<(), Breach>
    ensures { Judges sought (λ c. KeepsStatement sought.language c statement.now) result }
{
    judge_annotation_names(alloc, sought, &statement.annotations)?;
    judge_annotations(sought, &statement.annotations)?;
    let scope = &statement.scope;
    judge_entity_scope(sought, Variable::Principal, &scope.principal)?;
    judge_action_scope(sought, &scope.action)?;
    judge_entity_scope(sought, Variable::Resource, &scope.resource)?;
    judge_conditions(alloc, sought, &statement.conditions)
}

fn judge_entity_scope(
    sought: Sought,
    variable: Variable,
    scope: &WrittenEntityScope,
) -> Result<(), Breach>
    ensures { Judges sought (λ c. KeepsEntityScope c variable scope.now) result }
{
    match scope {
        EntityScope::Any => Ok(()),
        EntityScope::Equal(reference) => judge_reference(sought, variable, reference),
        EntityScope::In(reference) => judge_reference(sought, variable, reference),
        EntityScope::Is(_) => Ok(()),
        EntityScope::IsIn(_, reference) => judge_reference(sought, variable, reference),
    }
}

fn judge_reference(sought: Sought, variable: Variable, reference: &Reference) -> Result<(), Breach>
    ensures { Judges sought (λ c. KeepsReference c variable reference.now) result }
{
    match reference {
        Reference::Entity(uid) => judge_content(sought, &uid.id),
        Reference::Slot(start, slot) => {
            if sought.has(SideCondition::Slots) && variable != *slot {
                return Err(Breach::Of(SideCondition::Slots, *start));
            }
            Ok(())
        }
    }
}

fn judge_action_scope(sought: Sought, scope: &WrittenActionScope) -> Result<(), Breach>
    ensures { Judges sought (λ c. KeepsActionScope c scope.now) result }
{
    match scope {
        ActionScope::Any => Ok(()),
        ActionScope::Equal(uid) => judge_content(sought, &uid.id),
        ActionScope::In(uid) => judge_content(sought, &uid.id),
        ActionScope::InSet(uids) => judge_uids(sought, uids.as_slice()),
    }
}

fn judge_uids(sought: Sought, uids: &[WrittenUid]) -> Result<(), Breach>
    ensures { Judges sought (λ c. KeepUids c uids.now) result }
{
    for uid in uids {
        judge_content(sought, &uid.id)?;
    }
    Ok(())
}

fn judge_annotations(sought: Sought, annotations: &[WrittenAnnotation]) -> Result<(), Breach>
    ensures { Judges sought (λ c. KeepAnnotations c annotations.now) result }
{
    for annotation in annotations {
        judge_content(sought, &annotation.value)?;
    }
    Ok(())
}

fn judge_conditions(
    alloc: Global,
    sought: Sought,
    conditions: &[WrittenCondition],
) -> Result<(), Breach>
    ensures { Judges sought (λ c. KeepConditions sought.language c conditions.now) result }
{
    for clause in conditions {
        judge_expression(alloc, sought, &clause.body)?;
    }
    Ok(())
}

#[tactic(auto, using(crate::proofs::JudgeLemmas::few_names))]
fn judge_annotation_names(
    alloc: Global,
    sought: Sought,
    annotations: &[WrittenAnnotation],
) -> Result<(), Breach>
    ensures { Judges sought (λ c. HasDistinctNames c annotations.now) result }
{
    if !sought.has(SideCondition::Annotations) || annotations.len() < 2 {
        return Ok(());
    }
    let names = lent_names(alloc, annotations)?;
    match first_repeated(alloc, &names)? {
        None => Ok(()),
        Some(position) => Err(Breach::Of(SideCondition::Annotations, annotations[position].start)),
    }
}

// The names, lent.
fn lent_names<'a>(
    alloc: Global,
    annotations: &'a [WrittenAnnotation],
) -> Result<Vec<&'a str>, AllocError>
    ensures { IfOk result (λ v. map (λ k. k.now) v.items ≡ map (λ a. a.name) annotations.now) }
{
    let mut names = Vec::new(alloc);
    for annotation in annotations {
        names.push(annotation.name.as_str())?;
    }
    Ok(names)
}
