//! One instruction.
ghost use Rattle.std.specs.Prelude.{◌≡◌, ◌+◌, ◌<◌, ◌≤◌, ◌∷◌, List, length, slice_get, Some, IsOk, IfOk, OnErr};
ghost use Rattle.cedar_code.specs.Machine.{arrive, give, and_else, or_else, branch, on_top, on_operands, test, next};
ghost use Rattle.cedar_code.specs.declared.instruction.Instruction.{Instruction as InstructionTree};
ghost use Rattle.cedar_machine.specs.Private.State.{led_to, Pushes};
ghost use Rattle.cedar_machine.specs.Progress.{TakesNoMemory};
ghost use Rattle.cedar_ast_expressions.specs.Operators.{unary_of, binary_of};

use crate::made_sets::MadeSets;
use crate::making::{make_record, make_set};
use crate::state::Move;
use cedar_ast_expressions::{BinaryOperator, EvaluationError, UnaryOperator};
use cedar_code::Instruction;
use cedar_machine_stack::{Operand, Stack, of_two, unary};
use cedar_value::{Hierarchy, Request};
use std::alloc::{AllocError, Global};

/// Pushes an operand, or ends with an error.
#[inline(always)]
pub fn give<'a>(
    place: usize,
    stack: &mut Stack<'a>,
    answer: Result<Operand<'a>, EvaluationError>,
) -> Move
    requires { length stack.old.values < stack.old.capacity }
    ensures configuration { (code : List InstructionTree) → led_to code result stack.new.values ≡ give code place stack.old.values answer.entry }
    ensures capacity { stack.new.capacity ≡ stack.old.capacity }
{
    match answer {
        Ok(operand) => {
            stack.push(operand);
            Move::To(place)
        }
        Err(error) => Move::Failed(error),
    }
}

/// Executes one instruction at a place. Out of memory leaves the stack as it was. Only sets and records take memory.
#[inline(always)]
pub fn perform<'a, H: Hierarchy>(
    alloc: Global,
    code: &'a [Instruction],
    made: &mut MadeSets<'a>,
    request: &'a Request,
    hierarchy: &'a H,
    place: usize,
    stack: &mut Stack<'a>,
) -> Result<Move, AllocError>
    requires fits { length stack.old.values ≤ stack.old.capacity }
    requires room { Pushes (slice_get code.now place) → length stack.old.values < stack.old.capacity }
    ensures configuration { IfOk result (λ s. led_to code.now s stack.new.values ≡ next code.now request.now (H.world hierarchy.now) place stack.old.values) }
    ensures refused { OnErr result (stack.new.values ≡ stack.old.values) }
    ensures capacity { stack.new.capacity ≡ stack.old.capacity }
    ensures succeeds { TakesNoMemory (slice_get code.now place) → IsOk result }
{
    let Some(instruction) = code.get(place) else {
        return Ok(Move::Faulted);
    };
    let moved = match instruction {
        Instruction::Push(value) => {
            stack.push(Operand::lent(value.glance()));
            Move::To(place + 1)
        }
        Instruction::Var(variable) => {
            stack.push(Operand::lent(variable.of(request)));
            Move::To(place + 1)
        }
        Instruction::Unary(operator) => apply(place + 1, stack, hierarchy, operator),
        Instruction::Binary(operator) => combine(place + 1, stack, hierarchy, *operator),
        Instruction::And(end) => and_else(place, *end, stack),
        Instruction::Or(end) => or_else(place, *end, stack),
        Instruction::Test => test(place, stack),
        Instruction::Branch(other) => branch(place, *other, stack),
        Instruction::Jump(end) => Move::To(*end),
        Instruction::Set(count) => make_set(alloc, place + 1, stack, *count, made.at(place))?,
        Instruction::Record(keys) => make_record(alloc, place + 1, stack, keys)?,
    };
    Ok(moved)
}

/// An operator on the top.
pub fn apply<'a, H: Hierarchy>(
    next: usize,
    stack: &mut Stack<'a>,
    hierarchy: &'a H,
    operator: &UnaryOperator,
) -> Move
    requires { length stack.old.values ≤ stack.old.capacity }
    ensures configuration { (code : List InstructionTree) → led_to code result stack.new.values
        ≡ on_top stack.old.values (λ x rest. give code next rest (unary_of (H.world hierarchy.now) operator.now x)) }
    ensures capacity { stack.new.capacity ≡ stack.old.capacity }
{
    let Some(operand) = stack.pop() else {
        return Move::Faulted;
    };
    give(next, stack, unary(hierarchy, operator, operand))
}

/// An operator on the two topmost operands.
pub fn combine<H: Hierarchy>(
    next: usize,
    stack: &mut Stack<'_>,
    hierarchy: &H,
    operator: BinaryOperator,
) -> Move
    requires { length stack.old.values ≤ stack.old.capacity }
    ensures configuration { (code : List InstructionTree) → led_to code result stack.new.values
        ≡ on_top stack.old.values (λ y rest. on_top rest (λ x below. give code next below (binary_of (H.world hierarchy.now) operator x y))) }
    ensures capacity { stack.new.capacity ≡ stack.old.capacity }
{
    let Some((left, right)) = stack.top_two() else {
        return Move::Faulted;
    };
    match of_two(hierarchy, operator, left, right) {
        Ok(answer) => {
            stack.replace_two(answer);
            Move::To(next)
        }
        Err(error) => Move::Failed(error),
    }
}

/// The jump of `&&`.
#[inline(always)]
pub fn and_else(place: usize, end: usize, stack: &mut Stack<'_>) -> Move
    requires { place < usize.MAX }
    ensures configuration { (code : List InstructionTree) → led_to code result stack.new.values
        ≡ on_top stack.old.values (λ x rest. and_else code end place rest x) }
    ensures capacity { stack.new.capacity ≡ stack.old.capacity }
{
    let Some(top) = stack.top() else {
        return Move::Faulted;
    };
    match top.truth() {
        Some(true) => {
            stack.drop_top(1);
            Move::To(place + 1)
        }
        Some(false) => Move::To(end),
        None => Move::Failed(EvaluationError::Type),
    }
}

/// The jump of `||`.
#[inline(always)]
pub fn or_else(place: usize, end: usize, stack: &mut Stack<'_>) -> Move
    requires { place < usize.MAX }
    ensures configuration { (code : List InstructionTree) → led_to code result stack.new.values
        ≡ on_top stack.old.values (λ x rest. or_else code end place rest x) }
    ensures capacity { stack.new.capacity ≡ stack.old.capacity }
{
    let Some(top) = stack.top() else {
        return Move::Faulted;
    };
    match top.truth() {
        Some(true) => Move::To(end),
        Some(false) => {
            stack.drop_top(1);
            Move::To(place + 1)
        }
        None => Move::Failed(EvaluationError::Type),
    }
}

/// The test of the right side.
#[inline(always)]
pub fn test(place: usize, stack: &Stack<'_>) -> Move
    requires { place < usize.MAX }
    ensures { (code : List InstructionTree) → led_to code result stack.now.values
        ≡ on_top stack.now.values (λ x rest. test code place rest x) }
{
    let Some(top) = stack.top() else {
        return Move::Faulted;
    };
    match top.truth() {
        Some(_) => Move::To(place + 1),
        None => Move::Failed(EvaluationError::Type),
    }
}

/// The branch of `if`.
#[inline(always)]
pub fn branch(place: usize, other: usize, stack: &mut Stack<'_>) -> Move
    requires { place < usize.MAX }
    ensures configuration { (code : List InstructionTree) → led_to code result stack.new.values
        ≡ on_top stack.old.values (λ x rest. branch code other place rest x) }
    ensures capacity { stack.new.capacity ≡ stack.old.capacity }
{
    let Some(top) = stack.pop() else {
        return Move::Faulted;
    };
    match top.truth() {
        Some(true) => Move::To(place + 1),
        Some(false) => Move::To(other),
        None => Move::Failed(EvaluationError::Type),
    }
}
