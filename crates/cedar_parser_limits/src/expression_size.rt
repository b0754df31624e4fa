//! Sizes of the trees that expressions write.
ghost use Rattle.std.specs.Prelude.{◌≡◌, Some};
ghost use Rattle.cedar_ast_expressions.specs.Expression.{Expression};
ghost use Rattle.cedar_parser_tree.specs.Written.{chain, members_of};
ghost use Rattle.cedar_parser_tree.specs.WrittenKind.{links_of, fields_of};
ghost use Rattle.cedar_parser_limits.specs.Meaning.{to_expression, to_expressions, to_entries, related, linked, called, applied, method_of};
ghost use Rattle.cedar_ext.specs.Extensions.{constructor_named};
ghost use Rattle.cedar_ast_expressions.specs.declared.operator.BinaryOperator.{BinaryOperator};
ghost use Rattle.cedar_parser_limits.specs.declared.functions.Method.TheVariants.{IsEmpty, Unary, Binary};
ghost use Rattle.cedar_ext.specs.declared.unary_method.UnaryMethod.{UnaryMethod};
ghost use Rattle.cedar_parser_limits.specs.Limits.{size_of, size_of_all, size_of_entries};
ghost use Rattle.cedar_parser_limits.specs.Private.Capped.{capped};
ghost use Rattle.cedar_parser_limits.specs.Private.Parts.{behind};

use crate::attribute_path_size::attribute_path_size;
use crate::functions::{Method, is_function, method_of};
use crate::size::{Size, leaf, nothing};
use cedar_parser_tree::{Field, Link, RelationSign, Written, WrittenKind};

/// The size of the tree that an expression writes.
#[cycle(expression_size)]
pub fn expression_size(written: &Written) -> Size
    ensures { result ≡ capped (size_of (to_expression written.now)) }
{
    match written.kind() {
        WrittenKind::Truth(_)
        | WrittenKind::Number(_, _)
        | WrittenKind::Negative(_, _)
        | WrittenKind::Text(_)
        | WrittenKind::Entity(_)
        | WrittenKind::Variable(_)
        | WrittenKind::Slot(_, _) => leaf(),
        WrittenKind::Group(inside) => expression_size(inside),
        WrittenKind::Not(operand) => expression_size(operand).above(),
        WrittenKind::Negated(operand) => expression_size(operand).above(),
        WrittenKind::Relation(sign, left, right) => relation_size(
            *sign,
            expression_size(left),
            expression_size(right),
        ),
        WrittenKind::Has(operand, path) => attribute_path_size(
            expression_size(operand),
            path.more(),
        ),
        WrittenKind::Like(operand, _) => expression_size(operand).above(),
        WrittenKind::Is(operand, _) => expression_size(operand).above(),
        WrittenKind::IsIn(left, _, right) => {
            let left = expression_size(left);
            let right = expression_size(right);
            left.above().above_both(left.above_both(right))
        }
        WrittenKind::Chain(first, links) => chain_size(first, links),
        WrittenKind::If(condition, if_true, if_false) => {
            let branches = expression_size(if_true).both(expression_size(if_false));
            expression_size(condition).above_both(branches)
        }
        WrittenKind::Set(members) => members_size(members.items()).above(),
        WrittenKind::Record(fields) => fields_size(fields).above(),
        WrittenKind::Call(_, name, arguments) => call_size(name.as_str(), arguments.items()),
    }
}

// The size of a relation of trees of these sizes.
fn relation_size(sign: RelationSign, left: Size, right: Size) -> Size
    ensures { (a b : Expression) → left ≡ capped (size_of a) → right ≡ capped (size_of b) → result ≡ capped (size_of (related sign a b)) }
{
    let pair = left.above_both(right);
    match sign {
        RelationSign::Less | RelationSign::LessEqual | RelationSign::Equal | RelationSign::In =>
            pair,
        RelationSign::Greater | RelationSign::GreaterEqual | RelationSign::NotEqual => pair.above(),
    }
}

#[cycle(expression_size)]
fn chain_size(first: &Written, links: &[Link]) -> Size
    ensures { result ≡ capped (size_of (to_expression (chain first.now (links_of links.now)))) }
{
    let mut whole = expression_size(first);
    for link in links {
        whole = link_size(whole, link);
    }
    whole
}

// The size of a link after a left part of this size.
#[cycle(expression_size)]
fn link_size(left: Size, link: &Link) -> Size
    ensures { (a : Expression) → left ≡ capped (size_of a) → result ≡ capped (size_of (behind a link.now)) }
{
    match link {
        Link::Operand(_, operand) => left.above_both(expression_size(operand)),
        Link::Attribute(_) => left.above(),
        Link::Method(name, arguments) => {
            method_size(method_of(name.as_str()), left, arguments.items())
        }
    }
}

#[cycle(expression_size)]
fn method_size(method: Option<Method>, left: Size, arguments: &[Written]) -> Size
    ensures { (a : Expression) → left ≡ capped (size_of a) → result ≡ capped (size_of (applied method a (to_expressions (members_of arguments.now)))) }
{
    match method {
        None => left,
        Some(Method::IsEmpty) | Some(Method::Unary(_)) => alone_size(left, arguments),
        Some(Method::Binary(_)) => binary_method_size(left, arguments),
    }
}

// The size of a method without arguments.
fn alone_size(left: Size, arguments: &[Written]) -> Size
    ensures is_empty { (a : Expression) → left ≡ capped (size_of a) → result ≡ capped (size_of (applied (Some IsEmpty) a (to_expressions (members_of arguments.now)))) }
    ensures method { (m : UnaryMethod) (a : Expression) → left ≡ capped (size_of a) → result ≡ capped (size_of (applied (Some (Unary m)) a (to_expressions (members_of arguments.now)))) }
{
    match arguments {
        [] => left.above(),
        _ => left,
    }
}

// The size of a method of one argument.
#[cycle(expression_size)]
fn binary_method_size(left: Size, arguments: &[Written]) -> Size
    ensures { (op : BinaryOperator) (a : Expression) → left ≡ capped (size_of a) → result ≡ capped (size_of (applied (Some (Binary op)) a (to_expressions (members_of arguments.now)))) }
{
    match arguments {
        [argument] => left.above_both(expression_size(argument)),
        _ => left,
    }
}

#[cycle(expression_size)]
fn call_size(name: &str, arguments: &[Written]) -> Size
    ensures { result ≡ capped (size_of (called (constructor_named name.now) (to_expressions (members_of arguments.now)))) }
{
    let refused = leaf();
    if !is_function(name) {
        return refused;
    }
    match arguments {
        [argument] => expression_size(argument).above(),
        _ => refused,
    }
}

#[cycle(expression_size)]
fn members_size(members: &[Written]) -> Size
    ensures { result ≡ capped (size_of_all (to_expressions (members_of members.now))) }
{
    let mut whole = nothing();
    for member in members {
        whole = whole.both(expression_size(member));
    }
    whole
}

#[cycle(expression_size)]
fn fields_size(fields: &[Field]) -> Size
    ensures { result ≡ capped (size_of_entries (to_entries (fields_of fields.now))) }
{
    let mut whole = nothing();
    for field in fields {
        whole = whole.both(expression_size(&field.value));
    }
    whole
}
