//! One instruction over operands that borrow nothing.
ghost use Rattle.std.specs.Prelude.{List, ◌≡◌, ◌<◌, ◌≤◌, ◌∷◌, length, IfOk, OnErr};
ghost use Rattle.cedar_value.specs.Glance.{datum_seen};
ghost use Rattle.cedar_ast_expressions.specs.Operators.{unary_of, source, get_in};
ghost use Rattle.cedar_code.specs.Machine.{arrive, give, next, on_top};
ghost use Rattle.cedar_code.specs.declared.instruction.Instruction.{Instruction as InstructionTree};
ghost use Rattle.cedar_machine.specs.Private.State.{led_to};
ghost use Rattle.cedar_machine_stack.specs.Access.{IsNoAccess};

use crate::making::{make_record, make_set};
use crate::performing::{and_else, branch, combine, give, or_else, test};
use crate::state::Move;
use cedar_ast_expressions::UnaryOperator;
use cedar_code::Instruction;
use cedar_machine_stack::{Operand, Stack, attribute_copy, unary_but_get};
use cedar_value::{Glance, Hierarchy, Request};
use std::alloc::{AllocError, Global};

/// Executes one instruction at a place, and copies what the code, the request or an entity would lend. Out of memory leaves the
/// operands as they were.
pub fn perform_owned<H: Hierarchy>(
    alloc: Global,
    code: &[Instruction],
    request: &Request,
    hierarchy: &H,
    place: usize,
    stack: &mut Stack<'static>,
) -> Result<Move, AllocError>
    requires { length stack.old.values < stack.old.capacity }
    ensures configuration { IfOk result (λ s. led_to code.now s stack.new.values ≡ next code.now request.now (H.world hierarchy.now) place stack.old.values) }
    ensures refused { OnErr result (stack.new.values ≡ stack.old.values) }
{
    let Some(instruction) = code.get(place) else {
        return Ok(Move::Faulted);
    };
    match instruction {
        Instruction::Push(value) => push_copy(alloc, place + 1, stack, value.glance()),
        Instruction::Var(name) => push_copy(alloc, place + 1, stack, name.of(request)),
        Instruction::Unary(operator) => {
            apply_owned(alloc, place + 1, stack, hierarchy, operator)
        }
        Instruction::Binary(operator) => { Ok(combine(place + 1, stack, hierarchy, *operator)) }
        Instruction::And(end) => Ok(and_else(place, *end, stack)),
        Instruction::Or(end) => Ok(or_else(place, *end, stack)),
        Instruction::Test => Ok(test(place, stack)),
        Instruction::Branch(other) => Ok(branch(place, *other, stack)),
        Instruction::Jump(end) => Ok(Move::To(*end)),
        Instruction::Set(count) => make_set(alloc, place + 1, stack, *count, None),
        Instruction::Record(keys) => make_record(alloc, place + 1, stack, keys),
    }
}

// Pushes a copy.
fn push_copy(
    alloc: Global,
    next: usize,
    stack: &mut Stack<'static>,
    value: Glance<'_>,
) -> Result<Move, AllocError>
    requires { length stack.old.values < stack.old.capacity }
    ensures configuration { IfOk result (λ s. (code : List InstructionTree) → led_to code s stack.new.values ≡ arrive code next (datum_seen value.entry ∷ stack.old.values)) }
    ensures refused { OnErr result (stack.new.values ≡ stack.old.values) }
{
    let operand = Operand::owned(alloc, value)?;
    stack.push(operand);
    Ok(Move::To(next))
}

// An operator on the top.
fn apply_owned<H: Hierarchy>(
    alloc: Global,
    next: usize,
    stack: &mut Stack<'static>,
    hierarchy: &H,
    operator: &UnaryOperator,
) -> Result<Move, AllocError>
    requires { length stack.old.values ≤ stack.old.capacity }
    ensures configuration { IfOk result (λ s. (code : List InstructionTree) → led_to code s stack.new.values
        ≡ on_top stack.old.values (λ x rest. give code next rest (unary_of (H.world hierarchy.now) operator.now x))) }
    ensures refused { OnErr result (stack.new.values ≡ stack.old.values) }
{
    match operator {
        UnaryOperator::Get(key) => { get_owned(alloc, next, stack, hierarchy, key.as_str()) }
        _ => Ok(compute(next, stack, hierarchy, operator)),
    }
}

// An operator on the top operand, other than the look-up of an attribute.
fn compute<H: Hierarchy>(
    next: usize,
    stack: &mut Stack<'_>,
    hierarchy: &H,
    operator: &UnaryOperator,
) -> Move
    requires fits { length stack.old.values ≤ stack.old.capacity }
    requires kind { IsNoAccess operator.now }
    ensures { (code : List InstructionTree) → led_to code result stack.new.values
        ≡ on_top stack.old.values (λ x rest. give code next rest (unary_of (H.world hierarchy.now) operator.now x)) }
{
    let Some(operand) = stack.pop() else {
        return Move::Faulted;
    };
    give(
        next,
        stack,
        unary_but_get(hierarchy, operator, operand.glance()),
    )
}

// The attribute of the top operand, which stays on the stack until a copy is made.
fn get_owned<H: Hierarchy>(
    alloc: Global,
    next: usize,
    stack: &mut Stack<'static>,
    hierarchy: &H,
    key: &str,
) -> Result<Move, AllocError>
    requires { length stack.old.values ≤ stack.old.capacity }
    ensures configuration { IfOk result (λ s. (code : List InstructionTree) → led_to code s stack.new.values
        ≡ on_top stack.old.values (λ x rest. give code next rest (get_in key.now (source (H.world hierarchy.now) x)))) }
    ensures refused { OnErr result (stack.new.values ≡ stack.old.values) }
{
    let Some(top) = stack.top() else {
        return Ok(Move::Faulted);
    };
    let answer = attribute_copy(alloc, top.glance(), key, hierarchy)?;
    let _ = stack.pop();
    Ok(give(next, stack, answer))
}
