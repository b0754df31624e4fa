//! Operands of the wrong type.
use crate::spot::Spot;
use crate::type_words::{Kind, add_type, kind_of, written_as};
use crate::words::Words;
use base_places::Draft;
use cedar_ast_expressions::{BinaryMethod, BinaryOperator, Expr, ExprKind, UnaryOperator};
use cedar_check_operators::LentType;
use cedar_ext::{ExtensionType, Language, UnaryMethod};
use std::alloc::AllocError;

/// What is said of operands of the wrong type.
pub(crate) fn operand_words(spot: Spot<'_>, words: &mut Words) -> Result<(), AllocError> {
    match spot.part.kind() {
        ExprKind::And(_, _) => {
            words.says.add(if spot.is_joint() {
                "`when` and `&&` take Booleans"
            } else {
                "`&&` takes two Booleans"
            });
            of_booleans(spot, words)
        }
        ExprKind::Or(_, _) => {
            words.says.add("`||` takes two Booleans");
            of_booleans(spot, words)
        }
        ExprKind::If(_, _, _) => {
            words.says.add("`if` takes a Boolean");
            of_one(spot, words)
        }
        ExprKind::Unary(operator, _) => {
            add_taken_by_one(words, operator);
            of_unary(spot, words, operator)
        }
        ExprKind::Binary(operator, _, _) => {
            add_taken_by_two(words, spot, *operator);
            of_two(spot, words, *operator)
        }
        _ => {
            words.says.add("this has no type");
            Ok(())
        }
    }
}

/// What is said of a condition that has a type, which is not Boolean.
pub(crate) fn other_condition(words: &mut Words, ty: &LentType<'_>) {
    words.says.add("a condition must be a Boolean, not ");
    add_type(&mut words.says, ty);
}

// Adds what an operator on one operand takes. A `!` may be written as `unless`.
fn add_taken_by_one(words: &mut Words, operator: &UnaryOperator) {
    if matches!(operator, UnaryOperator::Not) {
        words.turned.add("`unless` takes a Boolean");
    }
    let taken = match operator {
        UnaryOperator::Not => "`!` takes a Boolean",
        UnaryOperator::Negate => "`-` takes a Long",
        UnaryOperator::Has(_) => "`has` takes a record or an entity",
        UnaryOperator::Get(_) => "only a record or an entity has attributes",
        UnaryOperator::Like(_) => "`like` takes a String",
        UnaryOperator::Is(_) => "`is` takes an entity",
        UnaryOperator::Construct(made) => {
            return words
                .says
                .add_all(&["`", made.constructor(), "` takes ", Kind::String.one()]);
        }
        UnaryOperator::IsEmpty => "`isEmpty` takes a set",
        UnaryOperator::Call(method) => {
            return words.says.add_all(&[
                "`",
                method.name(),
                "` takes ",
                method.row().operand.one(),
            ]);
        }
    };
    words.says.add(taken);
}

/// Whether an expression is `!` of its part.
pub(crate) fn is_not(expression: &Expr) -> bool {
    match expression.kind() {
        ExprKind::Unary(operator, _) => matches!(operator, UnaryOperator::Not),
        _ => false,
    }
}

// Adds what a method of an extension type takes.
fn add_taken_by_method(says: &mut Draft, method: BinaryMethod) {
    let row = method.row();
    says.add_all(&["`", method.name(), "` takes "]);
    if row.left == row.right {
        says.add_all(&["two ", row.left.many()]);
    } else {
        says.add_all(&[row.left.one(), " and ", row.right.one()]);
    }
}

// Adds what a comparison takes in a language.
fn add_compared(says: &mut Draft, sign: &'static str, language: Language) {
    says.add_all(&["`", sign, "` takes two Longs"]);
    if language == Language::Cedar4 {
        says.add(", two datetimes or two durations");
    }
}

// Adds what an operator on two operands takes. After a `!` the operator may be written as its opposite.
fn add_taken_by_two(words: &mut Words, spot: Spot<'_>, operator: BinaryOperator) {
    let denied = match spot.parent() {
        Some(around) => is_not(around),
        None => false,
    };
    let language = spot.checking.settings.language;
    if denied {
        match operator {
            BinaryOperator::Less => add_compared(&mut words.turned, ">=", language),
            BinaryOperator::LessEqual => add_compared(&mut words.turned, ">", language),
            _ => {}
        }
    }
    let taken = match operator {
        BinaryOperator::Call(method) => return add_taken_by_method(&mut words.says, method),
        BinaryOperator::Less => return add_compared(&mut words.says, "<", language),
        BinaryOperator::LessEqual => return add_compared(&mut words.says, "<=", language),
        BinaryOperator::Add => "`+` takes two Longs",
        BinaryOperator::Subtract => "`-` takes two Longs",
        BinaryOperator::Multiply => "`*` takes two Longs",
        BinaryOperator::In => "`in` takes an entity, and an entity or a set of entities",
        BinaryOperator::Contains => "`contains` takes a set and a value",
        BinaryOperator::ContainsAll => "`containsAll` takes two sets",
        BinaryOperator::ContainsAny => "`containsAny` takes two sets",
        BinaryOperator::Equal => "`==` takes two values of one type",
    };
    words.says.add(taken);
}

// Adds the first operand of `&&` or `||` that is not a Boolean.
fn of_booleans(spot: Spot<'_>, words: &mut Words) -> Result<(), AllocError> {
    for number in 0..2usize {
        if let Some(ty) = spot.part_type(number)? {
            if kind_of(&ty) != Kind::Boolean {
                return spot.add_operand(words, number, &ty);
            }
        }
    }
    Ok(())
}

// Adds the operand of an operator on one operand, or the condition of `if`.
fn of_one(spot: Spot<'_>, words: &mut Words) -> Result<(), AllocError> {
    match spot.part_type(0)? {
        Some(ty) => spot.add_operand(words, 0, &ty),
        None => Ok(()),
    }
}

// Adds the operand of an operator on one operand, and what to do about its kind.
fn of_unary(spot: Spot<'_>, words: &mut Words, operator: &UnaryOperator) -> Result<(), AllocError> {
    let Some(ty) = spot.part_type(0)? else {
        return Ok(());
    };
    if let Some(advice) = advice_of_one(operator, kind_of(&ty)) {
        words.hint.add(advice);
    }
    spot.add_operand(words, 0, &ty)
}

// What to do about an operand of this kind, where one thing is likely.
fn advice_of_one(operator: &UnaryOperator, operand: Kind) -> Option<&'static str> {
    match operator {
        UnaryOperator::Like(_) if operand == Kind::Extension(ExtensionType::Ip) => Some(
            "`.isInRange(ip(\"10.0.0.0/8\"))` tests whether an address is in a network",
        ),
        UnaryOperator::Get(key) if is_method(key.as_str(), operand) => Some(
            "this is a method: write `()` after its name",
        ),
        _ => None,
    }
}

// Whether a value of this kind has a method of this name that takes no arguments.
fn is_method(name: &str, operand: Kind) -> bool {
    match (UnaryMethod::named(name), operand) {
        (Some(method), Kind::Extension(ty)) => method.row().operand == ty,
        _ => false,
    }
}

// Adds the operands of an operator on two, and what to do about their kinds.
fn of_two(spot: Spot<'_>, words: &mut Words, operator: BinaryOperator) -> Result<(), AllocError> {
    if let Some((left, right)) = spot.add_operands(words, 0, 1)? {
        if let Some(advice) = advice_of(operator, kind_of(&left), kind_of(&right)) {
            words.hint.add(advice);
        }
    }
    Ok(())
}

// What to do about operands of these kinds, where one thing is likely.
fn advice_of(operator: BinaryOperator, left: Kind, right: Kind) -> Option<&'static str> {
    match operator {
        BinaryOperator::Less | BinaryOperator::LessEqual => advice_of_order(left, right),
        BinaryOperator::Add | BinaryOperator::Subtract | BinaryOperator::Multiply => {
            advice_of_arithmetic(left, right)
        }
        BinaryOperator::In => advice_of_in(left, right),
        BinaryOperator::Contains if left == Kind::String => Some(
            "`like` searches a String, for example `x like \"*a*\"`",
        ),
        BinaryOperator::ContainsAll | BinaryOperator::ContainsAny if left == Kind::Set => Some(
            "`contains` takes one member",
        ),
        BinaryOperator::Call(method) => advice_of_method(method, left, right),
        _ => None,
    }
}

// What to do about operands of `<` and its kin.
fn advice_of_order(left: Kind, right: Kind) -> Option<&'static str> {
    let ty = extension_in(left, right)?;
    let other = if left == Kind::Extension(ty) {
        right
    } else {
        left
    };
    Some(match ty {
        ExtensionType::Decimal => {
            "compare decimals with `.lessThan(..)`, `.lessThanOrEqual(..)`, `.greaterThan(..)` or `.greaterThanOrEqual(..)`"
        }
        ExtensionType::Ip => "compare IP addresses with `==` or `.isInRange(..)`",
        ExtensionType::Duration if other == Kind::Long => {
            "write a duration as `duration(\"8h\")`, or compare a number of hours, `.toHours()`"
        }
        ExtensionType::Datetime | ExtensionType::Duration if other == Kind::String => written_as(
            ty,
        ),
        ExtensionType::Datetime | ExtensionType::Duration => {
            "`<`, `<=`, `>` and `>=` compare two datetimes, or two durations"
        }
    })
}

// What to do about operands of `+`, `-` and `*`.
fn advice_of_arithmetic(left: Kind, right: Kind) -> Option<&'static str> {
    Some(match extension_in(left, right)? {
        ExtensionType::Decimal => "there is no arithmetic on decimals",
        ExtensionType::Ip => "there is no arithmetic on IP addresses",
        ExtensionType::Duration if left == right => {
            "durations are not added: write one literal, or add their `.toMilliseconds()`"
        }
        ExtensionType::Datetime | ExtensionType::Duration => {
            "`.offset(..)` adds a duration to a datetime, and `.durationSince(..)` gives the duration between two"
        }
    })
}

// The extension type of one of the two, the left one first.
fn extension_in(left: Kind, right: Kind) -> Option<ExtensionType> {
    match (left, right) {
        (Kind::Extension(ty), _) => Some(ty),
        (_, Kind::Extension(ty)) => Some(ty),
        _ => None,
    }
}

// The advice, where one of the two is of a kind.
fn either(left: Kind, right: Kind, kind: Kind, advice: &'static str) -> Option<&'static str> {
    if left == kind || right == kind {
        Some(advice)
    } else {
        None
    }
}

// What to do about operands of `in`.
fn advice_of_in(left: Kind, right: Kind) -> Option<&'static str> {
    if left != Kind::Entity && right == Kind::Set {
        Some("`x.contains(y)` tests whether the set `x` has the member `y`")
    } else {
        either(
            left,
            right,
            Kind::String,
            "write an entity as `Type::\"id\"`",
        )
    }
}

// Whether `<` and its kin compare values of an extension type that are of this kind.
fn is_ordered(kind: Kind) -> bool {
    match kind {
        Kind::Extension(ty) => ty.is_ordered(),
        _ => false,
    }
}

// What to do about operands of a method of an extension type.
fn advice_of_method(method: BinaryMethod, left: Kind, right: Kind) -> Option<&'static str> {
    let row = method.row();
    if row.left == ExtensionType::Decimal && is_ordered(left) {
        Some("compare datetimes and durations with `<`, `<=`, `>` or `>=`")
    } else if row.left == ExtensionType::Decimal && left == Kind::Long && right == Kind::Long {
        Some("compare Longs with `<`, `<=`, `>` or `>=`")
    } else if left != Kind::Extension(row.left) {
        Some(written_as(row.left))
    } else {
        Some(written_as(row.right))
    }
}
