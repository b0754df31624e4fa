//! Expressions as they are written, each in a box, with the place where it is written.
//!
//! The parsers answer these boxes, since a box takes the room of a pointer on the call stack, and an expression that of thirteen.
//! The functions here are never inlined into the parsers, so that each bracket of a text needs little of the call stack.
ghost use Rattle.std.specs.Prelude.{◌≡◌, ◌++◌, ◌∷◌, [], IfOk, OnOk};
ghost use Rattle.cedar_parser_expressions.specs.Grammar as grammar;
ghost use Rattle.cedar_parser_expressions.specs.Private.Boxed.{field_of};
ghost use Rattle.cedar_parser_tree.specs.Written as tree;
ghost use Rattle.cedar_parser_tree.specs.Written.{members_of};
ghost use Rattle.cedar_parser_tree.specs.WrittenKind.{written_of, fields_of};
ghost use Rattle.cedar_parser_tree.specs.declared.written.Link.TheVariants.{Operand};

use cedar_ext::Pattern;
use cedar_parser_tokens::Content;
use cedar_parser_tree::{
    AttributePath, ChainSign, Field, Link, RelationSign, Series, Span, Written, WrittenKind,
};
use cedar_value::Name;
use std::alloc::{AllocError, Global};

/// The expression of this form, in a box.
#[inline(never)]
pub fn boxed(alloc: Global, kind: WrittenKind, span: Span) -> Result<Box<Written>, AllocError>
    ensures { IfOk result (λ b. b.value ≡ written_of kind) }
{
    let written = Written::new(kind).spanning(span);
    Ok(Box::new(alloc, written)?)
}

/// Appends a sign with the operand after it.
#[inline(never)]
pub fn push_operand(
    links: &mut Vec<Link>,
    sign: ChainSign,
    operand: Box<Written>,
) -> Result<(), AllocError>
    ensures { OnOk result (links.new.items ≡ links.old.items ++ Operand sign operand.value ∷ []) }
{
    links.push(Link::Operand(sign, Box::into_inner(operand)))?;
    Ok(())
}

/// Appends an expression.
#[inline(never)]
pub fn push_item(items: &mut Vec<Written>, item: Box<Written>) -> Result<(), AllocError>
    ensures { OnOk result (items.new.items ≡ items.old.items ++ item.value ∷ []) }
{
    items.push(Box::into_inner(item))?;
    Ok(())
}

/// An entry of a record as it is written, with its value in a box.
#[derive(Drop)]
pub struct BoxedField {
    /// The key.
    pub key: Content,
    /// The value after the colon.
    pub value: Box<Written>,
}

/// Appends an entry of a record.
#[inline(never)]
pub fn push_field(fields: &mut Vec<Field>, field: BoxedField) -> Result<(), AllocError>
    ensures { OnOk result (fields.new.items ≡ fields.old.items ++ field_of field ∷ []) }
{
    let BoxedField { key, value } = field;
    let value = Box::into_inner(value);
    fields.push(Field { key, value })?;
    Ok(())
}

/// A first operand with the links after it; without links the operand itself.
#[inline(never)]
pub fn chain(
    alloc: Global,
    first: Box<Written>,
    links: Vec<Link>,
    span: Span,
) -> Result<Box<Written>, AllocError>
    ensures { IfOk result (λ b. b.value ≡ grammar.chained first.value links.items) }
{
    if links.is_empty() {
        return Ok(first);
    }
    boxed(alloc, WrittenKind::Chain(first, links), span)
}

/// An expression in round brackets.
#[inline(never)]
pub fn group(alloc: Global, inside: Box<Written>, span: Span) -> Result<Box<Written>, AllocError>
    ensures { IfOk result (λ b. b.value ≡ tree.group inside.value) }
{
    boxed(alloc, WrittenKind::Group(inside), span)
}

/// `!` before an operand.
#[inline(never)]
pub fn not(alloc: Global, operand: Box<Written>, span: Span) -> Result<Box<Written>, AllocError>
    ensures { IfOk result (λ b. b.value ≡ tree.not operand.value) }
{
    boxed(alloc, WrittenKind::Not(operand), span)
}

/// `-` before an operand. With a number directly after it, it is one literal.
#[inline(never)]
pub fn minus(alloc: Global, operand: Box<Written>, span: Span) -> Result<Box<Written>, AllocError>
    ensures { IfOk result (λ b. b.value ≡ tree.minus operand.value) }
{
    if let WrittenKind::Number(start, number) = operand.kind() {
        let literal = WrittenKind::Negative(*start, *number);
        drop(operand);
        return boxed(alloc, literal, span);
    }
    boxed(alloc, WrittenKind::Negated(operand), span)
}

/// Two operands with a sign between them.
#[inline(never)]
pub fn relation(
    alloc: Global,
    sign: RelationSign,
    left: Box<Written>,
    right: Box<Written>,
    span: Span,
) -> Result<Box<Written>, AllocError>
    ensures { IfOk result (λ b. b.value ≡ tree.relation sign left.value right.value) }
{
    boxed(alloc, WrittenKind::Relation(sign, left, right), span)
}

/// `has` with a path of attributes.
#[inline(never)]
pub fn has(
    alloc: Global,
    operand: Box<Written>,
    path: AttributePath,
    span: Span,
) -> Result<Box<Written>, AllocError>
    ensures { IfOk result (λ b. b.value ≡ tree.has operand.value path.0 path.1) }
{
    boxed(alloc, WrittenKind::Has(operand, path), span)
}

/// `like` with a pattern.
#[inline(never)]
pub fn like(
    alloc: Global,
    operand: Box<Written>,
    pattern: Pattern,
    span: Span,
) -> Result<Box<Written>, AllocError>
    ensures { IfOk result (λ b. b.value ≡ tree.like operand.value pattern) }
{
    boxed(alloc, WrittenKind::Like(operand, pattern), span)
}

/// `is` with a type.
#[inline(never)]
pub fn is(
    alloc: Global,
    operand: Box<Written>,
    ty: Name,
    span: Span,
) -> Result<Box<Written>, AllocError>
    ensures { IfOk result (λ b. b.value ≡ tree.is operand.value ty) }
{
    boxed(alloc, WrittenKind::Is(operand, ty), span)
}

/// `is` with a type, and `in` with a second operand.
#[inline(never)]
pub fn is_in(
    alloc: Global,
    left: Box<Written>,
    ty: Name,
    right: Box<Written>,
    span: Span,
) -> Result<Box<Written>, AllocError>
    ensures { IfOk result (λ b. b.value ≡ tree.is_in left.value ty right.value) }
{
    boxed(alloc, WrittenKind::IsIn(left, ty, right), span)
}

/// `if .. then .. else`, which has no place of its own.
#[inline(never)]
pub fn if_else(
    alloc: Global,
    condition: Box<Written>,
    if_true: Box<Written>,
    if_false: Box<Written>,
) -> Result<Box<Written>, AllocError>
    ensures { IfOk result (λ b. b.value ≡ tree.choice condition.value if_true.value if_false.value) }
{
    let written = Written::new(WrittenKind::If(condition, if_true, if_false));
    Ok(Box::new(alloc, written)?)
}

/// The members in square brackets.
#[inline(never)]
pub fn set(alloc: Global, members: Vec<Written>, span: Span) -> Result<Box<Written>, AllocError>
    ensures { IfOk result (λ b. b.value ≡ tree.set (members_of members.items)) }
{
    boxed(alloc, WrittenKind::Set(Series::new(members)), span)
}

/// The entries in braces.
#[inline(never)]
pub fn record(alloc: Global, fields: Vec<Field>, span: Span) -> Result<Box<Written>, AllocError>
    ensures { IfOk result (λ b. b.value ≡ tree.record_of (fields_of fields.items)) }
{
    boxed(alloc, WrittenKind::Record(fields), span)
}

/// A function's name, which begins where the call does, with its arguments.
#[inline(never)]
pub fn call(
    alloc: Global,
    name: Name,
    arguments: Vec<Written>,
    span: Span,
) -> Result<Box<Written>, AllocError>
    ensures { IfOk result (λ b. b.value ≡ tree.call name (members_of arguments.items)) }
{
    let arguments = Series::new(arguments);
    boxed(alloc, WrittenKind::Call(span.start, name, arguments), span)
}
