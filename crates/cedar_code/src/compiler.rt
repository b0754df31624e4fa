//! The compiler.
ghost use Rattle.std.specs.Prelude.{◌≡◌, ◌<◌, ◌≤◌, min, ◌++◌, length, IfOk, OnOk};
ghost use Rattle.cedar_ast_expressions.specs.Expression.{and, or, if_else, unary, binary, set_with, record_with, expressions_of, entries_of};
ghost use Rattle.cedar_code.specs.Code.{code_at, code_all, code_entries, code_of, height_of, height_all, height_entries, size, size_all, size_entries, most_instructions};

use crate::code::Code;
use crate::fault::CodeFault;
use crate::instruction::Instruction;
use crate::literal_set::literal_sets;
use crate::writing::{
    end_and, end_if, end_or, put, put_binary, put_literal, put_record, put_test, put_unary,
    put_variable,
};
use cedar_ast_expressions::{BinaryOperator, Entries, Expr, ExprKind, UnaryOperator};
use cedar_value::SharedText;
use std::alloc::{AllocError, Global};

/// How many instructions a code has at most.
pub const MOST_INSTRUCTIONS: usize = 1_000_000;

/// The code of an expression.
///
/// # Errors
///
/// 1 when out of memory, 701 where the code would have over 1,000,000 instructions.
pub fn compile(alloc: Global, expression: &Expr) -> Result<Code, CodeFault>
    ensures code { IfOk result (λ c. c.instructions ≡ code_of expression.now) }
    ensures height { IfOk result (λ c. c.height ≡ height_of expression.now) }
    ensures too_long { result ≡ Err CodeFault.TooLong → most_instructions < length (code_of expression.now) }
    ensures fits { IfOk result (λ c. length c.instructions ≤ most_instructions) }
{
    let count = instruction_count(expression);
    if count > MOST_INSTRUCTIONS {
        return Err(CodeFault::TooLong);
    }
    let mut instructions = Vec::with_capacity(alloc, count)?;
    emit(alloc, &mut instructions, expression)?;
    let height = greatest_height(expression);
    let sets = literal_sets(alloc, &instructions)?;
    Ok(Code {
        instructions,
        height,
        sets,
    })
}

// How many instructions an expression has, or the greatest number.
#[cycle(count)]
fn instruction_count(expression: &Expr) -> usize
    ensures { result ≡ min (size expression.now) usize.MAX }
{
    match expression.kind() {
        ExprKind::Literal(_) | ExprKind::Variable(_) => 1,
        ExprKind::Unary(_, operand) => instruction_count(operand).saturating_add(1),
        ExprKind::Binary(_, left, right) => {
            let both = instruction_count(left).saturating_add(instruction_count(right));
            both.saturating_add(1)
        }
        ExprKind::And(left, right) | ExprKind::Or(left, right) => {
            let both = instruction_count(left).saturating_add(instruction_count(right));
            both.saturating_add(2)
        }
        ExprKind::If(condition, first, second) => {
            let both = instruction_count(first).saturating_add(instruction_count(second));
            let all = instruction_count(condition).saturating_add(both);
            all.saturating_add(2)
        }
        ExprKind::Set(members) => count_members(members).saturating_add(1),
        ExprKind::Record(entries) => count_entries(entries.pairs()).saturating_add(1),
    }
}

// Those of the members of a set, or the greatest number.
#[cycle(count)]
fn count_members(members: &[Expr]) -> usize
    ensures { result ≡ min (size_all (expressions_of members.now)) usize.MAX }
{
    let mut count: usize = 0;
    for member in members {
        count = count.saturating_add(instruction_count(member));
    }
    count
}

// Those of the values of a record, or the greatest number.
#[cycle(count)]
fn count_entries(pairs: &[(SharedText, Expr)]) -> usize
    ensures { result ≡ min (size_entries (entries_of pairs.now)) usize.MAX }
{
    let mut count: usize = 0;
    for pair in pairs {
        count = count.saturating_add(instruction_count(&pair.1));
    }
    count
}

// The greatest height of the stack.
#[cycle(height)]
fn greatest_height(expression: &Expr) -> usize
    requires { size expression.now ≤ most_instructions }
    ensures high { result ≡ height_of expression.now }
    ensures low { result ≤ size expression.now }
{
    match expression.kind() {
        ExprKind::Literal(_) | ExprKind::Variable(_) => 1,
        ExprKind::Unary(_, operand) => greatest_height(operand),
        ExprKind::Binary(_, left, right) => greatest_height(left).max(1 + greatest_height(right)),
        ExprKind::And(left, right) | ExprKind::Or(left, right) => {
            greatest_height(left).max(greatest_height(right))
        }
        ExprKind::If(condition, first, second) => {
            let both = greatest_height(first).max(greatest_height(second));
            greatest_height(condition).max(both)
        }
        ExprKind::Set(members) => members_height(members).max(1),
        ExprKind::Record(entries) => entries_height(entries.pairs()).max(1),
    }
}

// The greatest height over the members of a set, each on those before it.
#[cycle(height)]
fn members_height(members: &[Expr]) -> usize
    requires { size_all (expressions_of members.now) ≤ most_instructions }
    ensures high { result ≡ height_all (expressions_of members.now) }
    ensures low { result ≤ size_all (expressions_of members.now) }
{
    let mut height = 0;
    for (place, member) in members.iter().enumerate() {
        height = height.max(place + greatest_height(member));
    }
    height
}

// The greatest height over the values of a record, each on those before it.
#[cycle(height)]
fn entries_height(pairs: &[(SharedText, Expr)]) -> usize
    requires { size_entries (entries_of pairs.now) ≤ most_instructions }
    ensures high { result ≡ height_entries (entries_of pairs.now) }
    ensures low { result ≤ size_entries (entries_of pairs.now) }
{
    let mut height = 0;
    for (place, pair) in pairs.iter().enumerate() {
        height = height.max(place + greatest_height(&pair.1));
    }
    height
}

// Appends the code of an expression. Each form has a function of its own, which is not inlined and holds no instruction while it
// goes down. So a level of a high expression needs little of the call stack.
#[cycle(emit)]
#[inline(never)]
fn emit(alloc: Global, code: &mut Vec<Instruction>, expression: &Expr) -> Result<(), AllocError>
    ensures { OnOk result (code.new.items ≡ code.old.items ++ code_at (length code.old.items) expression.now) }
{
    match expression.kind() {
        ExprKind::Literal(value) => put_literal(alloc, code, value),
        ExprKind::Variable(variable) => put_variable(code, *variable),
        ExprKind::Unary(operator, operand) => emit_unary(alloc, code, operator, operand),
        ExprKind::Binary(operator, left, right) => emit_binary(alloc, code, *operator, left, right),
        ExprKind::And(left, right) => emit_and(alloc, code, left, right),
        ExprKind::Or(left, right) => emit_or(alloc, code, left, right),
        ExprKind::If(condition, first, second) => emit_if(alloc, code, condition, first, second),
        ExprKind::Set(members) => emit_set(alloc, code, members),
        ExprKind::Record(entries) => emit_record(alloc, code, entries),
    }
}

// Appends the code of an operator on one operand.
#[cycle(emit)]
#[inline(never)]
fn emit_unary(
    alloc: Global,
    code: &mut Vec<Instruction>,
    operator: &UnaryOperator,
    operand: &Expr,
) -> Result<(), AllocError>
    ensures { OnOk result (code.new.items ≡ code.old.items ++ code_at (length code.old.items) (unary operator.now operand.now)) }
{
    emit(alloc, code, operand)?;
    put_unary(alloc, code, operator)
}

// Appends the code of an operator on two operands.
#[cycle(emit)]
#[inline(never)]
fn emit_binary(
    alloc: Global,
    code: &mut Vec<Instruction>,
    operator: BinaryOperator,
    left: &Expr,
    right: &Expr,
) -> Result<(), AllocError>
    ensures { OnOk result (code.new.items ≡ code.old.items ++ code_at (length code.old.items) (binary operator left.now right.now)) }
{
    emit(alloc, code, left)?;
    emit(alloc, code, right)?;
    put_binary(code, operator)
}

// Appends the code of `&&`.
#[cycle(emit)]
#[inline(never)]
fn emit_and(
    alloc: Global,
    code: &mut Vec<Instruction>,
    left: &Expr,
    right: &Expr,
) -> Result<(), AllocError>
    ensures { OnOk result (code.new.items ≡ code.old.items ++ code_at (length code.old.items) (and left.now right.now)) }
{
    emit(alloc, code, left)?;
    let jump = code.len();
    put_test(code)?;
    emit(alloc, code, right)?;
    end_and(code, jump)
}

// Appends the code of `||`.
#[cycle(emit)]
#[inline(never)]
fn emit_or(
    alloc: Global,
    code: &mut Vec<Instruction>,
    left: &Expr,
    right: &Expr,
) -> Result<(), AllocError>
    ensures { OnOk result (code.new.items ≡ code.old.items ++ code_at (length code.old.items) (or left.now right.now)) }
{
    emit(alloc, code, left)?;
    let jump = code.len();
    put_test(code)?;
    emit(alloc, code, right)?;
    end_or(code, jump)
}

// Appends the code of `if`.
#[cycle(emit)]
#[inline(never)]
fn emit_if(
    alloc: Global,
    code: &mut Vec<Instruction>,
    condition: &Expr,
    first: &Expr,
    second: &Expr,
) -> Result<(), AllocError>
    ensures { OnOk result (code.new.items ≡ code.old.items ++ code_at (length code.old.items) (if_else condition.now first.now second.now)) }
{
    emit(alloc, code, condition)?;
    let branch = code.len();
    put_test(code)?;
    emit(alloc, code, first)?;
    let jump = code.len();
    put_test(code)?;
    let other = code.len();
    emit(alloc, code, second)?;
    end_if(code, branch, jump, other);
    Ok(())
}

// Appends the code of a set.
#[cycle(emit)]
#[inline(never)]
fn emit_set(alloc: Global, code: &mut Vec<Instruction>, members: &[Expr]) -> Result<(), AllocError>
    ensures { OnOk result (code.new.items ≡ code.old.items ++ code_at (length code.old.items) (set_with (expressions_of members.now))) }
{
    emit_members(alloc, code, members)?;
    put(code, Instruction::Set(members.len()))
}

// Appends the code of a record.
#[cycle(emit)]
#[inline(never)]
fn emit_record(
    alloc: Global,
    code: &mut Vec<Instruction>,
    entries: &Entries,
) -> Result<(), AllocError>
    ensures { OnOk result (code.new.items ≡ code.old.items ++ code_at (length code.old.items) (record_with (entries_of entries.now))) }
{
    emit_entries(alloc, code, entries.pairs())?;
    put_record(alloc, code, entries)
}

// Appends the code of the members of a set, one after another.
#[cycle(emit)]
fn emit_members(
    alloc: Global,
    code: &mut Vec<Instruction>,
    members: &[Expr],
) -> Result<(), AllocError>
    ensures { OnOk result (code.new.items ≡ code.old.items ++ code_all (length code.old.items) (expressions_of members.now)) }
{
    for member in members {
        emit(alloc, code, member)?;
    }
    Ok(())
}

// Appends the code of the values of a record, one after another.
#[cycle(emit)]
fn emit_entries(
    alloc: Global,
    code: &mut Vec<Instruction>,
    pairs: &[(SharedText, Expr)],
) -> Result<(), AllocError>
    ensures { OnOk result (code.new.items ≡ code.old.items ++ code_entries (length code.old.items) (entries_of pairs.now)) }
{
    for pair in pairs {
        emit(alloc, code, &pair.1)?;
    }
    Ok(())
}
