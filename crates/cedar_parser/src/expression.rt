//! From an expression as it is written to its meaning.
ghost use Rattle.std.specs.Prelude.{◌≡◌, ◌≤◌, ◌^◌, ◌++◌, ◌∷◌, [], IfOk, OnOk, IsSome, Some, length, pos, neg_ℤ};
ghost use Rattle.cedar_ast_expressions.specs.Expression.{expressions_of, entries_of, unary, binary, and, record_with};
ghost use Rattle.cedar_ast_expressions.specs.Keys.{AreDistinct, keys_of};
ghost use Rattle.cedar_ast_expressions.specs.declared.operator.UnaryOperator.TheVariants.{Not, Get, Is};
ghost use Rattle.cedar_ast_expressions.specs.declared.operator.BinaryOperator.TheVariants.{In};
ghost use Rattle.cedar_parser_limits.specs.declared.side_condition.SideCondition.TheVariants.{Strings, Numbers, Keys, Names, Counts, Slots};
ghost use Rattle.cedar_parser_tree.specs.Written as tree;
ghost use Rattle.cedar_parser_tree.specs.Written.{chain, members_of};
ghost use Rattle.cedar_parser_tree.specs.WrittenKind.{links_of, fields_of};
ghost use Rattle.cedar_parser_limits.specs.Meaning.{to_expression, to_expressions, to_entries, related, linked, called, applied, method_of};
ghost use Rattle.cedar_ext.specs.Extensions.{constructor_in, constructor_named};
ghost use Rattle.cedar_ext.specs.declared.language.Language.TheVariants.{Cedar4};
ghost use Rattle.cedar_parser_limits.specs.declared.functions.Method.TheVariants.{IsEmpty, Unary, Binary};
ghost use Rattle.cedar_parser_tokens.specs.Content.{text_of};
ghost use Rattle.cedar_parser_limits.specs.Limits.{Keeps, KeepMembers, KeepFields, arity_of};
ghost use Rattle.cedar_parser_limits.specs.Private.Parts.{KeepLink, behind, pairs_of};
ghost use Rattle.cedar_parser.specs.Private.Kept.{Every};

use crate::boxes::{
    and, binary, boolean, boxed, literal, long, negate, not, push, push_pair, set, unary, variable,
};
use crate::has::to_has;
use cedar_ast_expressions::{
    BinaryOperator, Expr, ExprKind, ExtensionType, RecordFault, UnaryMethod, UnaryOperator,
};
use cedar_parser_limits::{Method, method_of};
use cedar_parser_tokens::{Content, WrittenUid};
use cedar_parser_tree::{ChainSign, Field, Link, RelationSign, Written, WrittenKind};
use cedar_value::{Name, SharedText, Value};
use std::alloc::{AllocError, Global};

/// The expression that is written: the meaning of its form.
pub fn to_expression(alloc: Global, written: &Written) -> Result<Expr, AllocError>
    requires numbers { Keeps Cedar4 Numbers written.now }
    requires keys { Keeps Cedar4 Keys written.now }
    requires strings { Keeps Cedar4 Strings written.now }
    requires names { Keeps Cedar4 Names written.now }
    requires counts { Keeps Cedar4 Counts written.now }
    requires slots { Keeps Cedar4 Slots written.now }
    ensures { IfOk result (λ e. e ≡ to_expression written.now) }
{
    let expression = to_boxed(alloc, written)?;
    Ok(Box::into_inner(expression))
}

// The meaning of an expression, in a box. The parts of its form are made by separate functions, so that each level of a high
// expression needs little of the call stack.
#[cycle(expression)]
fn to_boxed(alloc: Global, written: &Written) -> Result<Box<Expr>, AllocError>
    requires { Every (λ c. Keeps Cedar4 c written.now) }
    ensures { IfOk result (λ b. b.value ≡ to_expression written.now) }
{
    match written.kind() {
        WrittenKind::Truth(truth) => boolean(alloc, *truth),
        WrittenKind::Number(_, number) => long(alloc, *number as i64),
        WrittenKind::Negative(_, number) => long(alloc, negative(*number)),
        WrittenKind::Text(content) => to_string(alloc, content),
        WrittenKind::Entity(uid) => to_entity(alloc, uid),
        WrittenKind::Variable(name) => variable(alloc, *name),
        WrittenKind::Slot(_, _) => unreachable!(),
        WrittenKind::Group(inside) => to_boxed(alloc, inside),
        WrittenKind::Not(operand) => {
            let operand = to_boxed(alloc, operand)?;
            not(alloc, operand)
        }
        WrittenKind::Negated(operand) => {
            let operand = to_boxed(alloc, operand)?;
            negate(alloc, operand)
        }
        WrittenKind::Relation(sign, left, right) => {
            let left = to_boxed(alloc, left)?;
            let right = to_boxed(alloc, right)?;
            relation_operation(alloc, *sign, left, right)
        }
        WrittenKind::Has(operand, path) => {
            let operand = to_boxed(alloc, operand)?;
            to_has(alloc, operand, path)
        }
        WrittenKind::Like(operand, pattern) => {
            let operator = UnaryOperator::Like(pattern.try_clone(alloc)?);
            to_unary(alloc, operator, operand)
        }
        WrittenKind::Is(operand, ty) => {
            let operator = UnaryOperator::Is(ty.try_clone(alloc)?);
            to_unary(alloc, operator, operand)
        }
        WrittenKind::IsIn(left, ty, right) => to_is_in(alloc, left, ty, right),
        WrittenKind::Chain(first, links) => to_chain(alloc, first, links),
        WrittenKind::If(condition, if_true, if_false) => {
            to_if_else(alloc, condition, if_true, if_false)
        }
        WrittenKind::Set(members) => {
            let members = to_expressions(alloc, members.items())?;
            set(alloc, members)
        }
        WrittenKind::Record(fields) => to_record(alloc, fields),
        WrittenKind::Call(_, name, arguments) => {
            let arguments = to_expressions(alloc, arguments.items())?;
            function_call(alloc, name.as_str(), arguments)
        }
    }
}

// An operator on its operand.
#[cycle(expression)]
#[inline(never)]
fn to_unary(
    alloc: Global,
    operator: UnaryOperator,
    operand: &Written,
) -> Result<Box<Expr>, AllocError>
    requires { Every (λ c. Keeps Cedar4 c operand.now) }
    ensures { IfOk result (λ b. b.value ≡ unary operator (to_expression operand.now)) }
{
    let operand = to_boxed(alloc, operand)?;
    unary(alloc, operator, operand)
}

// The text of a string.
#[inline(never)]
fn to_string(alloc: Global, content: &Content) -> Result<Box<Expr>, AllocError>
    ensures { IfOk result (λ b. b.value ≡ to_expression (tree.text content.now)) }
{
    literal(alloc, Value::string(content.to_text(alloc)?))
}

#[inline(never)]
fn to_entity(alloc: Global, uid: &WrittenUid) -> Result<Box<Expr>, AllocError>
    ensures { IfOk result (λ b. b.value ≡ to_expression (tree.entity uid.now)) }
{
    literal(alloc, Value::uid(alloc, uid.to_uid(alloc)?)?)
}

#[inline(never)]
fn make_is(alloc: Global, operand: Box<Expr>, ty: &Name) -> Result<Box<Expr>, AllocError>
    ensures { IfOk result (λ b. b.value ≡ unary (Is ty.now) operand.value) }
{
    let operator = UnaryOperator::Is(ty.try_clone(alloc)?);
    unary(alloc, operator, operand)
}

// The left operand is made twice, once for each test.
#[cycle(expression)]
#[inline(never)]
fn to_is_in(
    alloc: Global,
    left: &Written,
    ty: &Name,
    right: &Written,
) -> Result<Box<Expr>, AllocError>
    requires { Every (λ c. Keeps Cedar4 c (tree.is_in left.now ty.now right.now)) }
    ensures { IfOk result (λ b. b.value ≡ to_expression (tree.is_in left.now ty.now right.now)) }
{
    let asked = make_is(alloc, to_boxed(alloc, left)?, ty)?;
    let left = to_boxed(alloc, left)?;
    let right = to_boxed(alloc, right)?;
    and_in(alloc, asked, left, right)
}

// The first test, and whether the left operand is in the right one.
#[inline(never)]
fn and_in(
    alloc: Global,
    asked: Box<Expr>,
    left: Box<Expr>,
    right: Box<Expr>,
) -> Result<Box<Expr>, AllocError>
    ensures { IfOk result (λ b. b.value ≡ and asked.value (binary In left.value right.value)) }
{
    let within = binary(alloc, BinaryOperator::In, left, right)?;
    and(alloc, asked, within)
}

#[cycle(expression)]
#[inline(never)]
fn to_if_else(
    alloc: Global,
    condition: &Written,
    if_true: &Written,
    if_false: &Written,
) -> Result<Box<Expr>, AllocError>
    requires { Every (λ c. Keeps Cedar4 c (tree.choice condition.now if_true.now if_false.now)) }
    ensures { IfOk result (λ b. b.value ≡ to_expression (tree.choice condition.now if_true.now if_false.now)) }
{
    let condition = to_boxed(alloc, condition)?;
    let if_true = to_boxed(alloc, if_true)?;
    let if_false = to_boxed(alloc, if_false)?;
    boxed(alloc, ExprKind::If(condition, if_true, if_false))
}

// The operands of a chain, grouped to the left.
#[cycle(expression)]
#[inline(never)]
fn to_chain(alloc: Global, first: &Written, links: &[Link]) -> Result<Box<Expr>, AllocError>
    requires { Every (λ c. Keeps Cedar4 c (chain first.now (links_of links.now))) }
    ensures { IfOk result (λ b. b.value ≡ to_expression (chain first.now (links_of links.now))) }
{
    let mut left = to_boxed(alloc, first)?;
    for link in links {
        left = append_link(alloc, left, link)?;
    }
    Ok(left)
}

// The expression to the left with the link after it.
#[cycle(expression)]
fn append_link(alloc: Global, left: Box<Expr>, link: &Link) -> Result<Box<Expr>, AllocError>
    requires { Every (λ c. KeepLink Cedar4 c link.now) }
    ensures { IfOk result (λ b. b.value ≡ behind left.value link.now) }
{
    match link {
        Link::Operand(sign, operand) => {
            let right = to_boxed(alloc, operand)?;
            chain_operation(alloc, *sign, left, right)
        }
        Link::Attribute(key) => attribute(alloc, left, key),
        Link::Method(name, arguments) => {
            let Some(method) = method_of(name.as_str()) else {
                unreachable!()
            };
            let arguments = to_expressions(alloc, arguments.items())?;
            method_call(alloc, method, left, arguments)
        }
    }
}

#[inline(never)]
fn attribute(alloc: Global, left: Box<Expr>, key: &Content) -> Result<Box<Expr>, AllocError>
    ensures { IfOk result (λ b. b.value ≡ unary (Get (text_of key.now)) left.value) }
{
    let key = key.to_text(alloc)?;
    unary(alloc, UnaryOperator::Get(key), left)
}

#[cycle(expression)]
#[inline(never)]
fn to_expressions(alloc: Global, members: &[Written]) -> Result<Vec<Expr>, AllocError>
    requires { Every (λ c. KeepMembers Cedar4 c (members_of members.now)) }
    ensures { IfOk result (λ v. expressions_of v.items ≡ to_expressions (members_of members.now)) }
{
    let mut found = Vec::new(alloc);
    for member in members {
        let item = to_boxed(alloc, member)?;
        push(&mut found, item)?;
    }
    Ok(found)
}

#[cycle(expression)]
#[inline(never)]
fn to_record(alloc: Global, fields: &[Field]) -> Result<Box<Expr>, AllocError>
    requires { Every (λ c. Keeps Cedar4 c (tree.record_of (fields_of fields.now))) }
    ensures { IfOk result (λ b. b.value ≡ to_expression (tree.record_of (fields_of fields.now))) }
{
    let pairs = to_pairs(alloc, fields)?;
    record(alloc, pairs)
}

#[cycle(expression)]
fn to_pairs(alloc: Global, fields: &[Field]) -> Result<Vec<(SharedText, Expr)>, AllocError>
    requires { Every (λ c. KeepFields Cedar4 c (fields_of fields.now)) }
    ensures { IfOk result (λ v. v.items ≡ pairs_of fields.now) }
{
    let mut found = Vec::new(alloc);
    for field in fields {
        let key = SharedText::new(alloc, field.key.to_text(alloc)?)?;
        let value = to_boxed(alloc, &field.value)?;
        push_pair(&mut found, key, value)?;
    }
    Ok(found)
}

// A method on the operand before it and as many arguments as it takes.
#[inline(never)]
fn method_call(
    alloc: Global,
    method: Method,
    left: Box<Expr>,
    arguments: Vec<Expr>,
) -> Result<Box<Expr>, AllocError>
    requires { length arguments.items ≡ arity_of method }
    ensures { IfOk result (λ b. b.value ≡ applied (Some method) left.value (expressions_of arguments.items)) }
{
    match method {
        Method::IsEmpty => is_empty_call(alloc, left, arguments),
        Method::Unary(method) => unary_method_call(alloc, method, left, arguments),
        Method::Binary(operator) => binary_method_call(alloc, operator, left, arguments),
    }
}

// Whether a set has no members; there are no arguments.
#[tactic(auto, using(cedar_parser_limits::proofs::PartLemmas::empty_all))]
fn is_empty_call(
    alloc: Global,
    left: Box<Expr>,
    arguments: Vec<Expr>,
) -> Result<Box<Expr>, AllocError>
    requires { length arguments.items ≡ 0 }
    ensures { IfOk result (λ b. b.value ≡ applied (Some IsEmpty) left.value (expressions_of arguments.items)) }
{
    drop(arguments);
    unary(alloc, UnaryOperator::IsEmpty, left)
}

// A method of an extension type without arguments.
#[tactic(auto, using(cedar_parser_limits::proofs::PartLemmas::alone_all))]
fn unary_method_call(
    alloc: Global,
    method: UnaryMethod,
    left: Box<Expr>,
    arguments: Vec<Expr>,
) -> Result<Box<Expr>, AllocError>
    requires { length arguments.items ≡ 0 }
    ensures { IfOk result (λ b. b.value ≡ applied (Some (Unary method)) left.value (expressions_of arguments.items)) }
{
    drop(arguments);
    unary(alloc, UnaryOperator::Call(method), left)
}

// A method of one argument.
fn binary_method_call(
    alloc: Global,
    operator: BinaryOperator,
    left: Box<Expr>,
    arguments: Vec<Expr>,
) -> Result<Box<Expr>, AllocError>
    requires { length arguments.items ≡ 1 }
    ensures { IfOk result (λ b. b.value ≡ applied (Some (Binary operator)) left.value (expressions_of arguments.items)) }
{
    let argument = sole_argument(alloc, arguments)?;
    binary(alloc, operator, left, argument)
}

// A function of one argument.
#[inline(never)]
fn function_call(alloc: Global, name: &str, arguments: Vec<Expr>) -> Result<Box<Expr>, AllocError>
    requires known { IsSome (constructor_in Cedar4 name.now) }
    requires argument { length arguments.items ≡ 1 }
    ensures { IfOk result (λ b. b.value ≡ called (constructor_named name.now) (expressions_of arguments.items)) }
{
    let Some(ty) = ExtensionType::of_constructor(name) else {
        unreachable!()
    };
    let argument = sole_argument(alloc, arguments)?;
    unary(alloc, UnaryOperator::Construct(ty), argument)
}

// The one argument.
fn sole_argument(alloc: Global, mut arguments: Vec<Expr>) -> Result<Box<Expr>, AllocError>
    requires { length arguments.items ≡ 1 }
    ensures { IfOk result (λ b. arguments.items ≡ b.value ∷ []) }
{
    let Some(argument) = arguments.pop() else {
        unreachable!()
    };
    Ok(Box::new(alloc, argument)?)
}

// The record of these pairs.
#[inline(never)]
fn record(alloc: Global, pairs: Vec<(SharedText, Expr)>) -> Result<Box<Expr>, AllocError>
    requires { AreDistinct (keys_of pairs.items) }
    ensures { IfOk result (λ b. b.value ≡ record_with (entries_of pairs.items)) }
{
    match Expr::record(alloc, pairs) {
        Ok(record) => Ok(Box::new(alloc, record)?),
        Err(RecordFault::OutOfMemory(_)) => Err(AllocError),
        Err(RecordFault::DuplicateKey(_)) => unreachable!(),
    }
}

// The number with a sign before it.
fn negative(number: u64) -> i64
    requires { number ≤ 2 ^ 63 }
    ensures { result ≡ neg_ℤ (pos number) }
{
    if number == 0 {
        return 0;
    }
    -((number - 1) as i64) - 1
}

#[inline(never)]
fn chain_operation(
    alloc: Global,
    sign: ChainSign,
    left: Box<Expr>,
    right: Box<Expr>,
) -> Result<Box<Expr>, AllocError>
    ensures { IfOk result (λ b. b.value ≡ linked sign left.value right.value) }
{
    match sign {
        ChainSign::Or => boxed(alloc, ExprKind::Or(left, right)),
        ChainSign::And => and(alloc, left, right),
        ChainSign::Plus => binary(alloc, BinaryOperator::Add, left, right),
        ChainSign::Minus => binary(alloc, BinaryOperator::Subtract, left, right),
        ChainSign::Times => binary(alloc, BinaryOperator::Multiply, left, right),
    }
}

#[inline(never)]
fn relation_operation(
    alloc: Global,
    sign: RelationSign,
    left: Box<Expr>,
    right: Box<Expr>,
) -> Result<Box<Expr>, AllocError>
    ensures { IfOk result (λ b. b.value ≡ related sign left.value right.value) }
{
    match sign {
        RelationSign::Less => binary(alloc, BinaryOperator::Less, left, right),
        RelationSign::LessEqual => binary(alloc, BinaryOperator::LessEqual, left, right),
        RelationSign::Greater => negated_operation(alloc, BinaryOperator::LessEqual, left, right),
        RelationSign::GreaterEqual => negated_operation(alloc, BinaryOperator::Less, left, right),
        RelationSign::Equal => binary(alloc, BinaryOperator::Equal, left, right),
        RelationSign::NotEqual => negated_operation(alloc, BinaryOperator::Equal, left, right),
        RelationSign::In => binary(alloc, BinaryOperator::In, left, right),
    }
}

// `!` before the operator on its operands.
fn negated_operation(
    alloc: Global,
    operator: BinaryOperator,
    left: Box<Expr>,
    right: Box<Expr>,
) -> Result<Box<Expr>, AllocError>
    ensures { IfOk result (λ b. b.value ≡ unary Not (binary operator left.value right.value)) }
{
    let pair = binary(alloc, operator, left, right)?;
    unary(alloc, UnaryOperator::Not, pair)
}
