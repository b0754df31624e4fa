//! How a part ends, in words.
use crate::decider::Joined;
use crate::ending::Ending;
use crate::expression_text::part_text;
use crate::section::{Section, name_of};
use crate::values_of_part::detail_of;
use base_places::Draft;
use cedar_ast_expressions::{BinaryOperator, EvaluationError, Expr, ExprKind, UnaryOperator};
use cedar_auth::Ready;
use cedar_value::Request;
use std::alloc::{AllocError, Global};

/// The name of an error, as an answer line has it.
pub fn error_name(error: EvaluationError) -> &'static str {
    match error {
        EvaluationError::Overflow => "overflow",
        EvaluationError::MissingEntity => "missing_entity",
        EvaluationError::MissingAttribute => "missing_attribute",
        EvaluationError::Type => "type",
        EvaluationError::Decimal => "decimal",
    }
}

/// How a part that decides a policy ends, in words.
pub fn words_of(
    alloc: Global,
    ready: &Ready,
    request: &Request,
    part: &Expr,
    section: Section,
    ending: Ending,
) -> Result<String, AllocError> {
    match (ending, section) {
        (Ending::Holds, _) => truth_words(alloc, ready, request, part, true),
        (Ending::Fails, Section::Conditions) => truth_words(alloc, ready, request, part, false),
        (Ending::Fails, _) => scope_words(alloc, ready, request, part, section),
        (Ending::Errs(error), _) => error_words(alloc, ready, request, part, error),
        (Ending::Other, _) => Ok(String::new(alloc)),
    }
}

/// What is said of the other sides of the chain around a part, if they end the same way.
pub fn joined_words(joined: Joined) -> &'static str {
    match joined {
        Joined::Alone => "",
        Joined::ByAnd => ", and each other side of its `&&` is true",
        Joined::ByOr => ", and each other side of its `||` is false",
    }
}

// `PART is true: VALUES`, or `PART is false: VALUES`.
fn truth_words(
    alloc: Global,
    ready: &Ready,
    request: &Request,
    part: &Expr,
    truth: bool,
) -> Result<String, AllocError> {
    let shown = part_text(alloc, part)?;
    if let ExprKind::Literal(_) = part.kind() {
        return literal_words(alloc, shown.as_str(), truth);
    }
    let detail = detail_of(alloc, ready, request, part)?;
    let mut words = Draft::new(alloc);
    words.add(shown.as_str());
    words.add(if truth { " is true" } else { " is false" });
    if let Some(detail) = detail {
        if detail.as_str() != shown.as_str() {
            words.add(": ");
            words.add(detail.as_str());
        }
    }
    words.done()
}

// A `true` that is written needs no word.
fn literal_words(alloc: Global, shown: &str, truth: bool) -> Result<String, AllocError> {
    let mut words = Draft::new(alloc);
    if !truth {
        words.add(shown);
        words.add(" is written here");
    }
    words.done()
}

// `PART: ERROR, DETAIL`
fn error_words(
    alloc: Global,
    ready: &Ready,
    request: &Request,
    part: &Expr,
    error: EvaluationError,
) -> Result<String, AllocError> {
    let detail = detail_of(alloc, ready, request, part)?;
    let mut words = Draft::new(alloc);
    words.add_made(part_text(alloc, part));
    words.add(": ");
    words.add(error_name(error));
    if let Some(detail) = detail {
        words.add(", ");
        words.add(detail.as_str());
    }
    words.done()
}

// What the principal, the action or the resource is not.
fn scope_words(
    alloc: Global,
    ready: &Ready,
    request: &Request,
    part: &Expr,
    section: Section,
) -> Result<String, AllocError> {
    let mut words = Draft::new(alloc);
    words.add(name_of(section));
    match part.kind() {
        ExprKind::Binary(BinaryOperator::Equal, _, right) => {
            words.add(" is not ");
            words.add_made(part_text(alloc, right));
        }
        ExprKind::Binary(BinaryOperator::In, _, right) => {
            words.add(" is not in ");
            words.add_made(part_text(alloc, right));
        }
        ExprKind::Unary(UnaryOperator::Is(name), _) => {
            words.add(" is not a ");
            words.add(name.as_str());
        }
        _ => return truth_words(alloc, ready, request, part, false),
    }
    words.done()
}
