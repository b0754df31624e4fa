//! Empty sets, and operands of constructors such as `decimal`.
use crate::quoting::Quote;
use crate::spot::Spot;
use crate::type_words::{Kind, kind_of};
use crate::words::Words;
use crate::written::written;
use cedar_ast_expressions::{BinaryOperator, Expr, ExprKind, UnaryOperator};
use cedar_ext::ExtensionType;
use cedar_value::{Value, ValueKind};
use std::alloc::AllocError;

// How the string of the constructor of a type is written.
fn form_of(made: ExtensionType) -> &'static str {
    match made {
        ExtensionType::Decimal => {
            "write digits, a point and one to four digits, for example `decimal(\"1.5\")`"
        }
        ExtensionType::Ip => {
            "write an address, perhaps with a prefix, for example `ip(\"10.0.0.1\")` or `ip(\"10.0.0.0/8\")`"
        }
        ExtensionType::Datetime => {
            "write a date, or a date and a time, for example `datetime(\"2024-10-15\")` or `datetime(\"2024-10-15T11:35:00Z\")`"
        }
        ExtensionType::Duration => {
            "write numbers of `d`, `h`, `m`, `s` and `ms` in this order, for example `duration(\"1d12h\")`"
        }
    }
}

/// What is said of an empty set.
pub(crate) fn empty_words(spot: Spot<'_>, words: &mut Words) -> Result<(), AllocError> {
    words.says.add("this set is empty");
    words.hint.add("`x.isEmpty()` tests whether a set is empty");
    let Some(other) = compared_with(spot) else {
        return Ok(());
    };
    if let Some(draft) = written(spot.alloc(), other) {
        let set = draft.done()?;
        if let Some((_, around)) = spot.path.split_last() {
            words.quote = Some(Quote::emptiness(spot.alloc(), around, set.as_str())?);
        }
    }
    Ok(())
}

// What the part is compared with by `==`, where that is an attribute.
fn compared_with<'a>(spot: Spot<'a>) -> Option<&'a Expr> {
    let around = spot.parent()?;
    let place = spot.path.last().copied()?;
    match around.kind() {
        ExprKind::Binary(operator, left, right) => {
            if *operator != BinaryOperator::Equal {
                None
            } else if place == 0 {
                attribute(right)
            } else {
                attribute(left)
            }
        }
        _ => None,
    }
}

// The expression, where it is an attribute.
fn attribute(expression: &Expr) -> Option<&Expr> {
    match expression.kind() {
        ExprKind::Unary(operator, _) => match operator {
            UnaryOperator::Get(_) => Some(expression),
            _ => None,
        },
        _ => None,
    }
}

/// What is said of the operand of a constructor.
pub(crate) fn constructor_words(spot: Spot<'_>, words: &mut Words) -> Result<(), AllocError> {
    let Some((made, operand)) = call_of(spot.part) else {
        words.says.add("this is not a literal");
        return Ok(());
    };
    if let ExprKind::Literal(value) = operand.kind() {
        of_literal(words, made, value);
        return Ok(());
    }
    takes_a_literal(words, made);
    words.hint.add(if is_string(spot)? {
        match made {
            ExtensionType::Decimal => "the option `--any-decimal` allows any String",
            ExtensionType::Ip | ExtensionType::Datetime | ExtensionType::Duration => form_of(made),
        }
    } else {
        form_of(made)
    });
    Ok(())
}

// Says what a constructor takes.
fn takes_a_literal(words: &mut Words, made: ExtensionType) {
    words
        .says
        .add_all(&["`", made.constructor(), "` takes a string literal"]);
}

// Whether the operand is a string.
fn is_string(spot: Spot<'_>) -> Result<bool, AllocError> {
    match spot.part_type(0)? {
        Some(ty) => Ok(kind_of(&ty) == Kind::String),
        None => Ok(false),
    }
}

// The type whose constructor a part calls, and its operand.
fn call_of(part: &Expr) -> Option<(ExtensionType, &Expr)> {
    match part.kind() {
        ExprKind::Unary(operator, operand) => match operator {
            UnaryOperator::Construct(made) => Some((*made, operand)),
            _ => None,
        },
        _ => None,
    }
}

// Whether a text has digits alone, and at least one.
fn are_digits(text: &str) -> bool {
    for byte in text.as_bytes() {
        if !byte.is_ascii_digit() {
            return false;
        }
    }
    !text.is_empty()
}

// What is said of a constructor of a literal.
fn of_literal(words: &mut Words, made: ExtensionType, value: &Value) {
    let ValueKind::String(content) = value.kind() else {
        takes_a_literal(words, made);
        words.hint.add(form_of(made));
        return;
    };
    let text = content.as_str();
    words.says.add_all(&["this string is not ", made.one()]);
    let is_whole = match made {
        ExtensionType::Decimal => are_digits(text) && text.len() < 16,
        ExtensionType::Ip | ExtensionType::Datetime | ExtensionType::Duration => false,
    };
    if is_whole {
        words.hint.add_all(&["write `", made.constructor(), "(\""]);
        words.hint.add_all(&[text, ".0\")`"]);
    } else {
        words.hint.add(form_of(made));
    }
}
