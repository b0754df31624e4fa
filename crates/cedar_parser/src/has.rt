//! The tests of `has` along a path of attributes.
ghost use Rattle.std.specs.Prelude.{◌≡◌, IfOk};
ghost use Rattle.cedar_ast_expressions.specs.Expression.{unary, and};
ghost use Rattle.cedar_ast_expressions.specs.declared.operator.UnaryOperator.TheVariants.{Has, Get};
ghost use Rattle.cedar_parser_tokens.specs.Content.{text_of};
ghost use Rattle.cedar_parser_limits.specs.Meaning.{asked_of};

use crate::boxes::{and, unary};
use cedar_ast_expressions::{Expr, UnaryOperator};
use cedar_parser_tree::AttributePath;
use cedar_value::Text;
use std::alloc::{AllocError, Global};

/// Whether an operand has the attribute, whether that one has the next, and so on to the end of the path (Cedar language
/// reference, operators: has).
#[inline(never)]
pub fn to_has(
    alloc: Global,
    operand: Box<Expr>,
    path: &AttributePath,
) -> Result<Box<Expr>, AllocError>
    ensures { IfOk result (λ b. b.value ≡ asked_of operand.value (text_of path.now.0) path.now.1) }
{
    let first = path.first().as_str();
    match path.more() {
        [] => has(alloc, operand, first),
        more => to_has_path(alloc, operand, first, more),
    }
}

// The attributes after the first one are tested on copies of the path before them.
fn to_has_path(
    alloc: Global,
    operand: Box<Expr>,
    first: &str,
    more: &[Text],
) -> Result<Box<Expr>, AllocError>
    ensures { IfOk result (λ b. b.value ≡ asked_of operand.value first.now more.now) }
{
    let mut asked = has_copy(alloc, &operand, first)?;
    let mut place = attribute(alloc, operand, first)?;
    for name in more {
        let further = and_has(alloc, asked, &place, name)?;
        let next = attribute_of(alloc, place, name)?;
        asked = further;
        place = next;
    }
    Ok(asked)
}

// The tests so far, and whether the place has the attribute.
fn and_has(
    alloc: Global,
    asked: Box<Expr>,
    place: &Expr,
    name: &Text,
) -> Result<Box<Expr>, AllocError>
    ensures { IfOk result (λ b. b.value ≡ and asked.value (unary (Has name.now) place.now)) }
{
    let further = has_copy(alloc, place, name.as_str())?;
    and(alloc, asked, further)
}

fn has_copy(alloc: Global, operand: &Expr, name: &str) -> Result<Box<Expr>, AllocError>
    ensures { IfOk result (λ b. b.value ≡ unary (Has name.now) operand.now) }
{
    let operand = Box::new(alloc, operand.try_clone(alloc)?)?;
    has(alloc, operand, name)
}

fn has(alloc: Global, operand: Box<Expr>, name: &str) -> Result<Box<Expr>, AllocError>
    ensures { IfOk result (λ b. b.value ≡ unary (Has name.now) operand.value) }
{
    let name = Text::read(alloc, name)?;
    unary(alloc, UnaryOperator::Has(name), operand)
}

fn attribute_of(alloc: Global, operand: Box<Expr>, name: &Text) -> Result<Box<Expr>, AllocError>
    ensures { IfOk result (λ b. b.value ≡ unary (Get name.now) operand.value) }
{
    attribute(alloc, operand, name.as_str())
}

fn attribute(alloc: Global, operand: Box<Expr>, name: &str) -> Result<Box<Expr>, AllocError>
    ensures { IfOk result (λ b. b.value ≡ unary (Get name.now) operand.value) }
{
    let name = Text::read(alloc, name)?;
    unary(alloc, UnaryOperator::Get(name), operand)
}
