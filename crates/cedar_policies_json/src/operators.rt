//! What is made of operands.
ghost use Rattle.std.specs.Prelude.{◌≡◌, ◌∷◌, IfOk, Some, option_map};
ghost use Rattle.cedar_policies_json.specs.Expressions.{attribute_of, called, method_called, one_of, two_of};
ghost use Rattle.cedar_parser_tree.specs.Written as w;
ghost use Rattle.cedar_parser_tree.specs.Written.{members_of, no_links};
ghost use Rattle.cedar_parser_tree.specs.WrittenKind.{links_of};

use crate::form::{AttributeForm, OneForm, TwoForm};
use crate::parts::content;
use crate::value::function_called;
use cedar_ext::Pattern;
use cedar_parser_limits::method_of;
use cedar_parser_tokens::{Content, Word};
use cedar_parser_tree::{
    AttributePath, ChainSign, Link, RelationSign, Series, Written, WrittenKind,
};
use cedar_value::Name;
use std::alloc::{AllocError, Global};

/// An operand, in brackets.
pub(crate) fn grouped(alloc: Global, inner: Written) -> Result<Written, AllocError>
    ensures { IfOk result (λ a. a ≡ w.group inner) }
{
    Ok(Written::new(WrittenKind::Group(Box::new(alloc, inner)?)))
}

// An operand with one link after it.
fn linked(alloc: Global, left: Written, link: Link) -> Result<Written, AllocError>
    ensures { IfOk result (λ a. a ≡ w.chain left (links_of (link ∷ Rattle.std.specs.Prelude.[]))) }
{
    let left = Box::new(alloc, left)?;
    Ok(Written::new(WrittenKind::Chain(left, vec![in alloc; link]?)))
}

// The method of a name, with arguments.
fn with_method(
    alloc: Global,
    left: Written,
    name: &str,
    arguments: Vec<Written>,
) -> Result<Written, AllocError>
    ensures { IfOk result (λ a. a ≡ w.chain left (w.method name.now (members_of arguments.items) no_links)) }
{
    let name = Word::read(alloc, name, 0)?;
    linked(alloc, left, Link::Method(name, Series::new(arguments)))
}

/// What a form makes of one operand.
pub(crate) fn one_of(
    alloc: Global,
    form: OneForm,
    key: &str,
    inner: Written,
) -> Result<Written, AllocError>
    ensures { IfOk result (λ a. a ≡ one_of form key.now inner) }
{
    match form {
        OneForm::Not => Ok(Written::new(WrittenKind::Not(Box::new(alloc, inner)?))),
        OneForm::Negated => Ok(Written::new(WrittenKind::Negated(Box::new(alloc, inner)?))),
        OneForm::Empty => with_method(alloc, inner, key, Vec::new(alloc)),
    }
}

/// What a form makes of two operands.
pub(crate) fn two_of(
    alloc: Global,
    form: TwoForm,
    key: &str,
    left: Written,
    right: Written,
) -> Result<Written, AllocError>
    ensures { IfOk result (λ a. a ≡ two_of form key.now left right) }
{
    match form {
        TwoForm::Relation(sign) => related(alloc, sign, left, right),
        TwoForm::Chain(sign) => linked(alloc, left, Link::Operand(sign, right)),
        TwoForm::Method => with_method(alloc, left, key, vec![in alloc; right]?),
    }
}

// A relation between two operands.
fn related(
    alloc: Global,
    sign: RelationSign,
    left: Written,
    right: Written,
) -> Result<Written, AllocError>
    ensures { IfOk result (λ a. a ≡ w.relation sign left right) }
{
    let left = Box::new(alloc, left)?;
    let right = Box::new(alloc, right)?;
    Ok(Written::new(WrittenKind::Relation(sign, left, right)))
}

/// What a form makes of an operand and the name of an attribute.
pub(crate) fn attribute_of(
    alloc: Global,
    form: AttributeForm,
    left: Written,
    name: &str,
) -> Result<Written, AllocError>
    ensures { IfOk result (λ a. a ≡ attribute_of form left name.now) }
{
    let name = content(alloc, name)?;
    match form {
        AttributeForm::Has => has(alloc, left, name),
        AttributeForm::Get => linked(alloc, left, Link::Attribute(name)),
    }
}

// `has` with one attribute.
fn has(alloc: Global, left: Written, name: Content) -> Result<Written, AllocError>
    ensures { IfOk result (λ a. a ≡ w.has left name Rattle.std.specs.Prelude.[]) }
{
    let path = AttributePath::new(name, Vec::new(alloc));
    Ok(Written::new(WrittenKind::Has(Box::new(alloc, left)?, path)))
}

/// `like`
pub(crate) fn like(alloc: Global, left: Written, pattern: Pattern) -> Result<Written, AllocError>
    ensures { IfOk result (λ a. a ≡ w.like left pattern) }
{
    Ok(Written::new(WrittenKind::Like(Box::new(alloc, left)?, pattern)))
}

/// `is`
pub(crate) fn is(alloc: Global, left: Written, ty: Name) -> Result<Written, AllocError>
    ensures { IfOk result (λ a. a ≡ w.is left ty) }
{
    Ok(Written::new(WrittenKind::Is(Box::new(alloc, left)?, ty)))
}

/// `is .. in`
pub(crate) fn is_in(
    alloc: Global,
    left: Written,
    ty: Name,
    right: Written,
) -> Result<Written, AllocError>
    ensures { IfOk result (λ a. a ≡ w.is_in left ty right) }
{
    let left = Box::new(alloc, left)?;
    let right = Box::new(alloc, right)?;
    Ok(Written::new(WrittenKind::IsIn(left, ty, right)))
}

/// `if .. then .. else`
pub(crate) fn choice(
    alloc: Global,
    condition: Written,
    if_true: Written,
    if_false: Written,
) -> Result<Written, AllocError>
    ensures { IfOk result (λ a. a ≡ w.choice condition if_true if_false) }
{
    let condition = Box::new(alloc, condition)?;
    let if_true = Box::new(alloc, if_true)?;
    let if_false = Box::new(alloc, if_false)?;
    Ok(Written::new(WrittenKind::If(condition, if_true, if_false)))
}

/// The call of what a key names: a method where there is one of this name, and else a function.
pub(crate) fn called(
    alloc: Global,
    key: &str,
    operands: Vec<Written>,
) -> Result<Option<Written>, AllocError>
    ensures { IfOk result (λ found. found ≡ called key.now operands.items) }
{
    match method_of(key) {
        Some(_) => method_called(alloc, key, operands),
        None => function_called(alloc, key, operands),
    }
}

// The method of the first operand, with the others as its arguments.
fn method_called(
    alloc: Global,
    key: &str,
    operands: Vec<Written>,
) -> Result<Option<Written>, AllocError>
    ensures { IfOk result (λ found. found ≡ method_called key.now operands.items) }
{
    let mut operands = operands;
    if operands.is_empty() {
        return Ok(None);
    }
    let first = operands.remove(0);
    let left = grouped(alloc, first)?;
    Ok(Some(with_method(alloc, left, key, operands)?))
}
