//! Texts that are written piece by piece.
use crate::expression_text::write_part;
use crate::shortened::{is_full, shortened};
use crate::unary_text::add_after;
use crate::value_text::{add_key, write_value};
use base_places::{Draft, DraftList};
use cedar_ast_expressions::{Expr, UnaryOperator};
use cedar_code::MOST_INSTRUCTIONS;
use cedar_value::Value;
use std::alloc::{AllocError, Global};

/// A piece of a text that is still to be written.
#[derive(Drop)]
pub enum Piece<'e> {
    /// These characters.
    Text(&'static str),
    /// The key of a record.
    Key(&'e str),
    /// A value.
    Value(&'e Value),
    /// A part, in brackets if its sides belong less close together than this.
    Part(&'e Expr, u8),
    /// What is written after the operand of an operator.
    After(&'e UnaryOperator),
}

/// What a piece is written as, in at most 60 characters. It takes at most as many steps as a code has instructions.
pub fn written(alloc: Global, piece: Piece<'_>) -> Result<String, AllocError> {
    let mut text = Draft::new(alloc);
    let mut rest = DraftList::new(alloc);
    rest.add(piece);
    for _ in 0..MOST_INSTRUCTIONS {
        if is_full(&text) {
            break;
        }
        let Some(next) = rest.pop() else {
            break;
        };
        write_piece(alloc, &mut text, &mut rest, next);
    }
    if rest.is_refused() {
        text.refuse();
    }
    let text = text.done()?;
    shortened(alloc, text.as_str())
}

// Adds a piece. What it is made of is put before the rest, the next piece last.
fn write_piece<'e>(
    alloc: Global,
    text: &mut Draft,
    rest: &mut DraftList<Piece<'e>>,
    piece: Piece<'e>,
) {
    match piece {
        Piece::Text(characters) => text.add(characters),
        Piece::Key(key) => add_key(text, key),
        Piece::Value(value) => write_value(alloc, text, rest, value),
        Piece::Part(part, least) => write_part(text, rest, part, least),
        Piece::After(operator) => add_after(text, operator),
    }
}
