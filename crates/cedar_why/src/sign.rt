//! How operators on two operands are written.
use cedar_ast_expressions::{BinaryOperator, Expr, ExprKind};

// How close the sides of a part belong together: a part of a smaller number is put into brackets.
pub const CHOICE: u8 = 0;

pub const OR: u8 = 1;

pub const AND: u8 = 2;

pub const RELATION: u8 = 3;

pub const SUM: u8 = 4;

pub const PRODUCT: u8 = 5;

pub const UNARY: u8 = 6;

pub const MEMBER: u8 = 7;

/// What is written around the operands of an operator, and how close these belong to it.
#[derive(Clone, Copy)]
pub struct Sign {
    /// How close the left operand belongs to it.
    pub left: u8,
    /// What is between the left operand and the name.
    pub before: &'static str,
    /// The sign itself, or the name of the method.
    pub name: &'static str,
    /// What is between the name and the right operand.
    pub opening: &'static str,
    /// How close the right operand belongs to it.
    pub right: u8,
    /// What is after the right operand.
    pub after: &'static str,
    /// How close the operator with its operands belongs together.
    pub level: u8,
}

fn relation(name: &'static str) -> Sign {
    Sign {
        left: SUM,
        before: " ",
        name,
        opening: " ",
        right: SUM,
        after: "",
        level: RELATION,
    }
}

fn chain(name: &'static str, level: u8) -> Sign {
    Sign {
        left: level,
        before: " ",
        name,
        opening: " ",
        right: level,
        after: "",
        level,
    }
}

fn sum(name: &'static str) -> Sign {
    Sign {
        left: SUM,
        before: " ",
        name,
        opening: " ",
        right: PRODUCT,
        after: "",
        level: SUM,
    }
}

fn method(name: &'static str) -> Sign {
    Sign {
        left: MEMBER,
        before: ".",
        name,
        opening: "(",
        right: CHOICE,
        after: ")",
        level: MEMBER,
    }
}

/// How an operator is written.
pub fn sign_of(operator: BinaryOperator) -> Sign {
    match operator {
        BinaryOperator::Equal => relation("=="),
        BinaryOperator::Less => relation("<"),
        BinaryOperator::LessEqual => relation("<="),
        BinaryOperator::In => relation("in"),
        BinaryOperator::Add => sum("+"),
        BinaryOperator::Subtract => sum("-"),
        BinaryOperator::Multiply => Sign {
            left: PRODUCT,
            before: " ",
            name: "*",
            opening: " ",
            right: UNARY,
            after: "",
            level: PRODUCT,
        },
        BinaryOperator::Contains => method("contains"),
        BinaryOperator::ContainsAll => method("containsAll"),
        BinaryOperator::ContainsAny => method("containsAny"),
        BinaryOperator::Call(called) => method(called.name()),
    }
}

/// How a part that joins two sides is written. Another part is taken for a comparison.
pub fn sign_of_part(part: &Expr) -> Sign {
    match part.kind() {
        ExprKind::And(_, _) => chain("&&", AND),
        ExprKind::Or(_, _) => chain("||", OR),
        ExprKind::Binary(operator, _, _) => sign_of(*operator),
        _ => sign_of(BinaryOperator::Equal),
    }
}

/// How the `!` of an operator is written as one operator, if it can be.
pub fn negated_sign(operator: BinaryOperator) -> Option<Sign> {
    match operator {
        BinaryOperator::Equal => Some(relation("!=")),
        BinaryOperator::Less => Some(relation(">=")),
        BinaryOperator::LessEqual => Some(relation(">")),
        _ => None,
    }
}

/// How the `!` of a part is written as one operator, if it can be.
pub fn negated_sign_of(part: &Expr) -> Option<Sign> {
    match part.kind() {
        ExprKind::Binary(operator, _, _) => negated_sign(*operator),
        _ => None,
    }
}

/// Whether the `!` of a part is written as one operator.
pub fn is_comparison(part: &Expr) -> bool {
    negated_sign_of(part).is_some()
}
