//! Checks of expressions beyond the grammar.
ghost use Rattle.std.specs.Prelude.{◌≡◌, ◌≤◌, IfOk, length, map};
ghost use Rattle.cedar_parser_tree.specs.Written.{members_of};
ghost use Rattle.cedar_parser_tree.specs.WrittenKind.{links_of, fields_of};
ghost use Rattle.cedar_ext.specs.Extensions.{constructor_in};
ghost use Rattle.cedar_parser_limits.specs.Limits.{Stands, Fits, FitsNegative, IsKnown, HasArity, HasDistinctKeys, HasNoSlot, Keeps, KeepLinks, KeepMembers, KeepFields, keys_in, method_in};
ghost use Rattle.cedar_parser_limits.specs.Private.Judging.{Judges};
ghost use Rattle.cedar_parser_limits.specs.Private.Parts.{KeepLink, KeepField};

use crate::breach::Breach;
use crate::functions::{function_arity, is_function_in, method_arity, method_in};
use crate::side_condition::SideCondition;
use crate::sought::Sought;
use cedar_ast_expressions::first_repeated;
use cedar_parser_tokens::{Content, Word};
use cedar_parser_tree::{Field, Link, Written, WrittenKind};
use cedar_value::Name;
use std::alloc::{AllocError, Global};

/// Refuses an expression that breaks a side condition which is sought.
#[cycle(judgement)]
pub fn judge_expression(alloc: Global, sought: Sought, written: &Written) -> Result<(), Breach>
    ensures { Judges sought (λ c. Keeps sought.language c written.now) result }
{
    match written.kind() {
        WrittenKind::Truth(_) => Ok(()),
        WrittenKind::Number(start, number) => judge_number(sought, *start, *number),
        WrittenKind::Negative(start, number) => judge_negative(sought, *start, *number),
        WrittenKind::Text(content) => judge_content(sought, content),
        WrittenKind::Entity(uid) => judge_content(sought, &uid.id),
        WrittenKind::Variable(_) => Ok(()),
        WrittenKind::Slot(start, _) => judge_slot(sought, *start),
        WrittenKind::Group(inside) => judge_expression(alloc, sought, inside),
        WrittenKind::Not(operand) => judge_expression(alloc, sought, operand),
        WrittenKind::Negated(operand) => judge_expression(alloc, sought, operand),
        WrittenKind::Relation(_, left, right) => judge_pair(alloc, sought, left, right),
        WrittenKind::Has(operand, path) => {
            judge_expression(alloc, sought, operand)?;
            judge_content(sought, path.first())
        }
        WrittenKind::Like(operand, _) => judge_expression(alloc, sought, operand),
        WrittenKind::Is(operand, _) => judge_expression(alloc, sought, operand),
        WrittenKind::IsIn(left, _, right) => judge_pair(alloc, sought, left, right),
        WrittenKind::Chain(first, links) => {
            judge_expression(alloc, sought, first)?;
            judge_links(alloc, sought, links)
        }
        WrittenKind::If(test, if_true, if_false) => {
            judge_expression(alloc, sought, test)?;
            judge_pair(alloc, sought, if_true, if_false)
        }
        WrittenKind::Set(members) => judge_members(alloc, sought, members.items()),
        WrittenKind::Record(fields) => {
            judge_keys(alloc, sought, fields)?;
            judge_fields(alloc, sought, fields)
        }
        WrittenKind::Call(start, name, arguments) => {
            judge_function(sought, *start, name)?;
            let arity = function_arity(name.as_str());
            judge_arity(sought, arity, *start, arguments.items())?;
            judge_members(alloc, sought, arguments.items())
        }
    }
}

// Judges two parts. It is a separate function, so that each level of a high expression needs little of the call stack.
#[cycle(judgement)]
#[inline(never)]
fn judge_pair(
    alloc: Global,
    sought: Sought,
    first: &Written,
    second: &Written,
) -> Result<(), Breach>
    ensures { Judges sought (λ c. Keeps sought.language c first.now × Keeps sought.language c second.now) result }
{
    judge_expression(alloc, sought, first)?;
    judge_expression(alloc, sought, second)
}

#[cycle(judgement)]
fn judge_links(alloc: Global, sought: Sought, links: &[Link]) -> Result<(), Breach>
    ensures { Judges sought (λ c. KeepLinks sought.language c (links_of links.now)) result }
{
    for link in links {
        judge_link(alloc, sought, link)?;
    }
    Ok(())
}

#[cycle(judgement)]
fn judge_link(alloc: Global, sought: Sought, link: &Link) -> Result<(), Breach>
    ensures { Judges sought (λ c. KeepLink sought.language c link.now) result }
{
    match link {
        Link::Operand(_, operand) => judge_expression(alloc, sought, operand),
        Link::Attribute(key) => judge_content(sought, key),
        Link::Method(name, arguments) => {
            judge_method(sought, name)?;
            let arity = method_arity(name.as_str());
            judge_arity(sought, arity, name.place(), arguments.items())?;
            judge_members(alloc, sought, arguments.items())
        }
    }
}

#[cycle(judgement)]
fn judge_members(alloc: Global, sought: Sought, members: &[Written]) -> Result<(), Breach>
    ensures { Judges sought (λ c. KeepMembers sought.language c (members_of members.now)) result }
{
    for member in members {
        judge_expression(alloc, sought, member)?;
    }
    Ok(())
}

#[cycle(judgement)]
fn judge_fields(alloc: Global, sought: Sought, fields: &[Field]) -> Result<(), Breach>
    ensures { Judges sought (λ c. KeepFields sought.language c (fields_of fields.now)) result }
{
    for field in fields {
        judge_field(alloc, sought, field)?;
    }
    Ok(())
}

#[cycle(judgement)]
fn judge_field(alloc: Global, sought: Sought, field: &Field) -> Result<(), Breach>
    ensures { Judges sought (λ c. KeepField sought.language c field.now) result }
{
    judge_content(sought, &field.key)?;
    judge_expression(alloc, sought, &field.value)
}

/// Refuses a string that denotes no text.
pub fn judge_content(sought: Sought, content: &Content) -> Result<(), Breach>
    ensures { Judges sought (λ c. Stands c content.now) result }
{
    if sought.has(SideCondition::Strings) && content.text().is_none() {
        return Err(Breach::Of(SideCondition::Strings, content.place()));
    }
    Ok(())
}

fn judge_number(sought: Sought, start: usize, number: u64) -> Result<(), Breach>
    ensures { Judges sought (λ c. Fits c number) result }
{
    if sought.has(SideCondition::Numbers) && number > i64::MAX as u64 {
        return Err(Breach::Of(SideCondition::Numbers, start));
    }
    Ok(())
}

fn judge_negative(sought: Sought, start: usize, number: u64) -> Result<(), Breach>
    ensures { Judges sought (λ c. FitsNegative c number) result }
{
    if sought.has(SideCondition::Numbers) && number > 1 << 63 {
        return Err(Breach::Of(SideCondition::Numbers, start));
    }
    Ok(())
}

fn judge_slot(sought: Sought, start: usize) -> Result<(), Breach>
    ensures { Judges sought (λ c. HasNoSlot c) result }
{
    if sought.has(SideCondition::Slots) {
        return Err(Breach::Of(SideCondition::Slots, start));
    }
    Ok(())
}

fn judge_function(sought: Sought, start: usize, name: &Name) -> Result<(), Breach>
    ensures { Judges sought (λ c. IsKnown c (constructor_in sought.language name.now)) result }
{
    if sought.has(SideCondition::Names) && !is_function_in(sought.language, name.as_str()) {
        return Err(Breach::Of(SideCondition::Names, start));
    }
    Ok(())
}

fn judge_method(sought: Sought, name: &Word) -> Result<(), Breach>
    ensures { Judges sought (λ c. IsKnown c (method_in sought.language name.now)) result }
{
    if sought.has(SideCondition::Names) && method_in(sought.language, name.as_str()).is_none() {
        return Err(Breach::Of(SideCondition::Names, name.place()));
    }
    Ok(())
}

#[tactic(auto, using(crate::proofs::PartLemmas::count_members))]
fn judge_arity(
    sought: Sought,
    arity: Option<usize>,
    start: usize,
    arguments: &[Written],
) -> Result<(), Breach>
    ensures { Judges sought (λ c. HasArity c arity (members_of arguments.now)) result }
{
    let Some(count) = arity else {
        return Ok(());
    };
    if sought.has(SideCondition::Counts) && arguments.len() != count {
        return Err(Breach::Of(SideCondition::Counts, start));
    }
    Ok(())
}

// It is a separate function, so that each level of a high expression needs little of the call stack.
#[inline(never)]
fn judge_keys(alloc: Global, sought: Sought, fields: &[Field]) -> Result<(), Breach>
    ensures { Judges sought (λ c. HasDistinctKeys c (fields_of fields.now)) result }
{
    if !sought.has(SideCondition::Keys) {
        return Ok(());
    }
    let keys = lent_keys(alloc, fields)?;
    match first_repeated(alloc, &keys)? {
        None => Ok(()),
        Some(position) => Err(Breach::Of(SideCondition::Keys, fields[position].key.place())),
    }
}

// The keys that denote texts, lent. So a position among them is that of the entry where each key denotes a text.
fn lent_keys<'a>(alloc: Global, fields: &'a [Field]) -> Result<Vec<&'a str>, AllocError>
    ensures keys { IfOk result (λ v. map (λ k. k.now) v.items ≡ keys_in (fields_of fields.now)) }
    ensures few { IfOk result (λ v. length v.items ≤ length fields.now) }
{
    let mut keys = Vec::new(alloc);
    for field in fields {
        if let Some(key) = field.key.text() {
            keys.push(key.as_str())?;
        }
    }
    Ok(keys)
}
