//! Single instructions of a code that is being written.
//!
//! These functions are not inlined, so the compiler holds no instruction while it goes down an expression. `Test` keeps the place
//! of a jump until it is known where the jump goes.
ghost use Rattle.std.specs.Prelude.{◌≡◌, ◌+◌, ◌<◌, [], ◌∷◌, ◌++◌, length, OnOk, slice_set};
ghost use Rattle.cedar_ast_expressions.specs.Keys.{keys_of};
ghost use Rattle.cedar_code.specs.declared.instruction.Instruction.TheVariants.{Push, Var, Unary, Binary, And, Or, Test, Branch, Jump, Record};

use crate::instruction::Instruction;
use crate::literal::Literal;
use cedar_ast_expressions::{BinaryOperator, Entries, UnaryOperator, Variable};
use cedar_value::Value;
use std::alloc::{AllocError, Global};

/// Appends an instruction.
#[inline(never)]
pub(crate) fn put(code: &mut Vec<Instruction>, instruction: Instruction) -> Result<(), AllocError>
    ensures { OnOk result (code.new.items ≡ code.old.items ++ instruction ∷ []) }
{
    code.push(instruction)?;
    Ok(())
}

/// Appends the instruction that pushes a value, of which it has a copy.
#[inline(never)]
pub(crate) fn put_literal(
    alloc: Global,
    code: &mut Vec<Instruction>,
    value: &Value,
) -> Result<(), AllocError>
    ensures { OnOk result (code.new.items ≡ code.old.items ++ Push value.now ∷ []) }
{
    put(code, Instruction::Push(Literal::new(alloc, value)?))
}

/// Appends the instruction that pushes what the request has for a variable.
#[inline(never)]
pub(crate) fn put_variable(
    code: &mut Vec<Instruction>,
    variable: Variable,
) -> Result<(), AllocError>
    ensures { OnOk result (code.new.items ≡ code.old.items ++ Var variable ∷ []) }
{
    put(code, Instruction::Var(variable))
}

/// Appends an operator on one operand, of which it has a copy.
#[inline(never)]
pub(crate) fn put_unary(
    alloc: Global,
    code: &mut Vec<Instruction>,
    operator: &UnaryOperator,
) -> Result<(), AllocError>
    ensures { OnOk result (code.new.items ≡ code.old.items ++ Unary operator.now ∷ []) }
{
    put(code, Instruction::Unary(operator.try_clone(alloc)?))
}

/// Appends an operator on two operands.
#[inline(never)]
pub(crate) fn put_binary(
    code: &mut Vec<Instruction>,
    operator: BinaryOperator,
) -> Result<(), AllocError>
    ensures { OnOk result (code.new.items ≡ code.old.items ++ Binary operator ∷ []) }
{
    put(code, Instruction::Binary(operator))
}

/// Appends the test. It also keeps the place of a jump, which is written later.
#[inline(never)]
pub(crate) fn put_test(code: &mut Vec<Instruction>) -> Result<(), AllocError>
    ensures { OnOk result (code.new.items ≡ code.old.items ++ Test ∷ []) }
{
    put(code, Instruction::Test)
}

/// Appends the instruction that makes a record with the keys of these entries.
#[inline(never)]
pub(crate) fn put_record(
    alloc: Global,
    code: &mut Vec<Instruction>,
    entries: &Entries,
) -> Result<(), AllocError>
    ensures { OnOk result (code.new.items ≡ code.old.items ++ Record (keys_of entries.now) ∷ []) }
{
    put(code, Instruction::Record(entries.keys(alloc)?))
}

/// Appends the test at the end of `&&`, and writes its jump.
#[inline(never)]
pub(crate) fn end_and(code: &mut Vec<Instruction>, jump: usize) -> Result<(), AllocError>
    requires { jump < length code.old.items }
    ensures { OnOk result (code.new.items ≡ slice_set (code.old.items ++ Test ∷ []) jump (And (length code.old.items + 1))) }
{
    put_test(code)?;
    let end = code.len();
    write_jump(code, jump, Instruction::And(end));
    Ok(())
}

/// Appends the test at the end of `||`, and writes its jump.
#[inline(never)]
pub(crate) fn end_or(code: &mut Vec<Instruction>, jump: usize) -> Result<(), AllocError>
    requires { jump < length code.old.items }
    ensures { OnOk result (code.new.items ≡ slice_set (code.old.items ++ Test ∷ []) jump (Or (length code.old.items + 1))) }
{
    put_test(code)?;
    let end = code.len();
    write_jump(code, jump, Instruction::Or(end));
    Ok(())
}

/// Writes the branch of an `if`, and the jump past its second part.
#[inline(never)]
pub(crate) fn end_if(code: &mut Vec<Instruction>, branch: usize, jump: usize, other: usize)
    requires branch { branch < length code.old.items }
    requires jump { jump < length code.old.items }
    ensures { code.new.items ≡ slice_set (slice_set code.old.items branch (Branch other)) jump (Jump (length code.old.items)) }
{
    let end = code.len();
    write_jump(code, branch, Instruction::Branch(other));
    write_jump(code, jump, Instruction::Jump(end));
}

// Another instruction at a place.
fn write_jump(code: &mut Vec<Instruction>, place: usize, instruction: Instruction)
    requires { place < length code.old.items }
    ensures { code.new.items ≡ slice_set code.old.items place instruction }
{
    code[place] = instruction;
}
