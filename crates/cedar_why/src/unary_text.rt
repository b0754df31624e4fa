//! How operators on one operand are written.
use crate::shortened::is_full;
use crate::sign::{CHOICE, MEMBER, RELATION, SUM, UNARY};
use crate::value_text::{add_access, add_escaped, add_key};
use base_places::Draft;
use cedar_ast_expressions::UnaryOperator;
use cedar_ext::{Element, Pattern};

/// How close an operator with its operand belongs together.
pub fn level_of_unary(operator: &UnaryOperator) -> u8 {
    match operator {
        UnaryOperator::Not | UnaryOperator::Negate => UNARY,
        UnaryOperator::Has(_) | UnaryOperator::Like(_) | UnaryOperator::Is(_) => RELATION,
        UnaryOperator::Get(_)
        | UnaryOperator::Construct(_)
        | UnaryOperator::IsEmpty
        | UnaryOperator::Call(_) => MEMBER,
    }
}

/// How close the operand belongs to the operator.
pub fn level_of_operand(operator: &UnaryOperator) -> u8 {
    match operator {
        UnaryOperator::Not | UnaryOperator::Negate => MEMBER,
        UnaryOperator::Has(_) | UnaryOperator::Like(_) | UnaryOperator::Is(_) => SUM,
        UnaryOperator::Get(_) | UnaryOperator::IsEmpty | UnaryOperator::Call(_) => MEMBER,
        UnaryOperator::Construct(_) => CHOICE,
    }
}

/// Adds what is written before the operand.
pub fn add_before(text: &mut Draft, operator: &UnaryOperator) {
    match operator {
        UnaryOperator::Not => text.add_char('!'),
        UnaryOperator::Negate => text.add_char('-'),
        UnaryOperator::Construct(ty) => text.add_all(&[ty.constructor(), "("]),
        _ => {}
    }
}

/// Adds what is written after the operand.
pub fn add_after(text: &mut Draft, operator: &UnaryOperator) {
    match operator {
        UnaryOperator::Not | UnaryOperator::Negate => {}
        UnaryOperator::Has(key) => {
            text.add(" has ");
            add_key(text, key.as_str());
        }
        UnaryOperator::Get(key) => add_access(text, key.as_str()),
        UnaryOperator::Like(pattern) => {
            text.add(" like ");
            add_pattern(text, pattern);
        }
        UnaryOperator::Is(name) => {
            text.add(" is ");
            text.add(name.as_str());
        }
        UnaryOperator::Construct(_) => text.add_char(')'),
        UnaryOperator::IsEmpty => text.add(".isEmpty()"),
        UnaryOperator::Call(method) => text.add_all(&[".", method.name(), "()"]),
    }
}

// Adds a pattern in quotes, or its beginning if it is long.
fn add_pattern(text: &mut Draft, pattern: &Pattern) {
    text.add_char('"');
    for element in pattern.elements() {
        if is_full(text) {
            return;
        }
        match element {
            Element::Star => text.add_char('*'),
            Element::Character('*') => text.add("\\*"),
            Element::Character(character) => add_escaped(text, *character),
        }
    }
    text.add_char('"');
}
