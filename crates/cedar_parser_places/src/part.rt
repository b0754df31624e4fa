//! Parts of an expression as it is written, and the steps from a part to its children.
use cedar_parser_tree::{AttributePath, Field, Link, RelationSign, Written, WrittenKind};

/// A part of an expression. The forms that are short for others, which are `!=`, `>`, `>=`, `is .. in` and `has` with a path, have
/// parts that are not written as such.
#[derive(Clone, Copy)]
pub enum Part<'w> {
    /// An expression that is written.
    Whole(&'w Written),
    /// A chain up to one of its links.
    Chain(Chain<'w>),
    /// The first operand of a chain of attributes and methods.
    First(First<'w>),
    /// Two operands with a sign right before the second: what the `!` of `!=`, `>` and `>=` negates, and `x in e` of `x is T in e`.
    Pair(&'w Written, &'w Written),
    /// Of `x is T in e` the test `x is T`, given as `x`.
    Is(&'w Written),
    /// Of `x has a.b.c` the tests up to that of an attribute after the first.
    Tests(Tested<'w>),
    /// Of `x has a.b.c` the test of one attribute.
    Test(Tested<'w>),
    /// Of `x has a.b.c` an attribute before the last, which is read for the test of the next.
    Read(Tested<'w>),
}

/// The beginning of a chain: its first operand, and some of the links after it, at least one.
#[derive(Clone, Copy)]
pub struct Chain<'w> {
    /// Where it begins, in bytes from 0.
    pub start: usize,
    /// The first operand.
    pub first: &'w Written,
    /// The links up to the last one of this part.
    pub links: &'w [Link],
}

/// The first operand of a chain of attributes and methods, such as `x` of `x.a`. Its place is found from that of the chain.
#[derive(Clone, Copy)]
pub struct First<'w> {
    /// Where the chain begins, in bytes from 0.
    pub start: usize,
    /// The operand.
    pub operand: &'w Written,
    /// Where the name of the first link begins, in bytes from 0. It is two tokens after the operand.
    pub name: usize,
}

/// One attribute of `x has a.b.c`.
#[derive(Clone, Copy)]
pub struct Tested<'w> {
    /// The operand `x`.
    pub operand: &'w Written,
    /// Where the first attribute begins, in bytes from 0.
    pub start: usize,
    /// The position of this attribute, from 0.
    pub position: usize,
}

impl<'w> Tested<'w> {
    // The attribute before; or none before the first.
    fn earlier(self) -> Option<Tested<'w>> {
        Some(Tested {
            operand: self.operand,
            start: self.start,
            position: self.position.checked_sub(1)?,
        })
    }
}

/// The part of an expression at a path; or none where the path leads nowhere.
pub fn part_at<'w>(expression: &'w Written, path: &[usize]) -> Option<Part<'w>> {
    let mut part = Part::Whole(expression);
    for step in path {
        part = child(part, *step)?;
    }
    Some(part)
}

// The child of a part with a number.
fn child(part: Part<'_>, number: usize) -> Option<Part<'_>> {
    match part {
        Part::Whole(written) => child_of_written(written, number),
        Part::Chain(chain) => child_of_chain(chain, number),
        Part::First(first) => child_of_written(first.operand, number),
        Part::Pair(left, right) => one_of_two(left, right, number),
        Part::Is(operand) => only_child(operand, number),
        Part::Tests(tested) => child_of_tests(tested, number),
        Part::Test(tested) => child_of_test(tested, number),
        Part::Read(tested) => child_of_test(tested, number),
    }
}

// The child of an expression. Brackets are not parts.
fn child_of_written(written: &Written, number: usize) -> Option<Part<'_>> {
    match written.kind() {
        WrittenKind::Group(inside) => child_of_written(inside, number),
        WrittenKind::Not(operand) => only_child(operand, number),
        WrittenKind::Negated(operand) => only_child(operand, number),
        WrittenKind::Like(operand, _) => only_child(operand, number),
        WrittenKind::Is(operand, _) => only_child(operand, number),
        WrittenKind::Relation(sign, left, right) => child_of_relation(*sign, left, right, number),
        WrittenKind::Has(operand, path) => child_of_has(operand, path, number),
        WrittenKind::IsIn(left, _, right) => child_of_is_in(left, right, number),
        WrittenKind::Chain(first, links) => {
            child_of_links(written.span().start, first, links, number)
        }
        WrittenKind::If(condition, if_true, if_false) => {
            one_of_three(condition, if_true, if_false, number)
        }
        WrittenKind::Set(members) => member(members.items(), number),
        WrittenKind::Record(fields) => field_value(fields, number),
        WrittenKind::Call(_, _, arguments) => member(arguments.items(), number),
        WrittenKind::Truth(_)
        | WrittenKind::Number(_, _)
        | WrittenKind::Negative(_, _)
        | WrittenKind::Text(_)
        | WrittenKind::Entity(_)
        | WrittenKind::Variable(_)
        | WrittenKind::Slot(_, _) => None,
    }
}

// An expression that is written, as a part.
fn as_part(written: &Written) -> Option<Part<'_>> {
    Some(Part::Whole(written))
}

fn only_child(operand: &Written, number: usize) -> Option<Part<'_>> {
    match number {
        0 => as_part(operand),
        _ => None,
    }
}

fn one_of_two<'w>(left: &'w Written, right: &'w Written, number: usize) -> Option<Part<'w>> {
    match number {
        0 => as_part(left),
        1 => as_part(right),
        _ => None,
    }
}

fn one_of_three<'w>(
    condition: &'w Written,
    if_true: &'w Written,
    if_false: &'w Written,
    number: usize,
) -> Option<Part<'w>> {
    match number {
        0 => as_part(condition),
        1 => as_part(if_true),
        2 => as_part(if_false),
        _ => None,
    }
}

// A member of a set, or an argument.
fn member(members: &[Written], number: usize) -> Option<Part<'_>> {
    as_part(members.get(number)?)
}

fn field_value(fields: &[Field], number: usize) -> Option<Part<'_>> {
    as_part(&fields.get(number)?.value)
}

// `a != b` is `!(a == b)`, `a > b` is `!(a <= b)`, and `a >= b` is `!(a < b)`.
fn child_of_relation<'w>(
    sign: RelationSign,
    left: &'w Written,
    right: &'w Written,
    number: usize,
) -> Option<Part<'w>> {
    match sign {
        RelationSign::NotEqual | RelationSign::Greater | RelationSign::GreaterEqual => {
            negated_child(left, right, number)
        }
        RelationSign::Equal | RelationSign::Less | RelationSign::LessEqual | RelationSign::In => {
            one_of_two(left, right, number)
        }
    }
}

fn negated_child<'w>(left: &'w Written, right: &'w Written, number: usize) -> Option<Part<'w>> {
    match number {
        0 => Some(Part::Pair(left, right)),
        _ => None,
    }
}

// `x is T in e` is `x is T && x in e`.
fn child_of_is_in<'w>(left: &'w Written, right: &'w Written, number: usize) -> Option<Part<'w>> {
    match number {
        0 => Some(Part::Is(left)),
        1 => Some(Part::Pair(left, right)),
        _ => None,
    }
}

// The child of a whole chain that begins at a byte.
fn child_of_links<'w>(
    start: usize,
    first: &'w Written,
    links: &'w [Link],
    number: usize,
) -> Option<Part<'w>> {
    let chain = Chain {
        start,
        first,
        links,
    };
    child_of_chain(chain, number)
}

// The child of what the last link makes. Chains group to the left.
fn child_of_chain(chain: Chain<'_>, number: usize) -> Option<Part<'_>> {
    let (last, before) = chain.links.split_last()?;
    match number {
        0 => left_of(chain, last, before),
        1 => right_of(last),
        _ => None,
    }
}

// What a link comes after: the chain up to the link before it, or the first operand.
fn left_of<'w>(chain: Chain<'w>, link: &Link, before: &'w [Link]) -> Option<Part<'w>> {
    if !before.is_empty() {
        return Some(Part::Chain(Chain {
            start: chain.start,
            first: chain.first,
            links: before,
        }));
    }
    match link {
        Link::Operand(_, _) => as_part(chain.first),
        Link::Attribute(key) => first_part(chain, key.place()),
        Link::Method(word, _) => first_part(chain, word.place()),
    }
}

fn first_part(chain: Chain<'_>, name: usize) -> Option<Part<'_>> {
    Some(Part::First(First {
        start: chain.start,
        operand: chain.first,
        name,
    }))
}

// The operand after a sign, or the argument of a method.
fn right_of(link: &Link) -> Option<Part<'_>> {
    match link {
        Link::Operand(_, operand) => as_part(operand),
        Link::Attribute(_) => None,
        Link::Method(_, arguments) => member(arguments.items(), 0),
    }
}

// `x has a.b.c` is `(x has a && x.a has b) && x.a.b has c`.
fn child_of_has<'w>(operand: &'w Written, path: &AttributePath, number: usize) -> Option<Part<'w>> {
    let tested = Tested {
        operand,
        start: path.first().place(),
        position: path.more().len(),
    };
    match tested.position {
        0 => child_of_test(tested, number),
        _ => child_of_tests(tested, number),
    }
}

// The tests before that of an attribute, and that test.
fn child_of_tests(tested: Tested<'_>, number: usize) -> Option<Part<'_>> {
    match number {
        0 => tests_up_to(tested.earlier()?),
        1 => Some(Part::Test(tested)),
        _ => None,
    }
}

// The tests up to that of an attribute: of the first one the test alone.
fn tests_up_to(tested: Tested<'_>) -> Option<Part<'_>> {
    match tested.position {
        0 => Some(Part::Test(tested)),
        _ => Some(Part::Tests(tested)),
    }
}

// What an attribute is tested or read of: the attribute before, or the operand.
fn child_of_test(tested: Tested<'_>, number: usize) -> Option<Part<'_>> {
    match (number, tested.earlier()) {
        (0, Some(earlier)) => Some(Part::Read(earlier)),
        (0, None) => as_part(tested.operand),
        _ => None,
    }
}
