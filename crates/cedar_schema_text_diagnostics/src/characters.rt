//! What is likely meant by characters with which no token of a schema text begins.
use crate::piece::{Piece, PieceKind};

/// What is likely meant by a piece that the grammar does not know, or none. `text` is the whole text.
pub(crate) fn meant_by_piece(text: &str, piece: Piece<'_>) -> Option<&'static str> {
    match piece.kind {
        PieceKind::Unclosed => Some("write the `\"` at the end of the string"),
        PieceKind::Other => meant_by_character(text.get(piece.start..).unwrap_or("")),
        _ => None,
    }
}

// What is likely meant by the first character of a text, or none.
fn meant_by_character(rest: &str) -> Option<&'static str> {
    match rest.chars().next()? {
        '`' if rest.starts_with("```") => Some("remove the lines that begin with three backquotes"),
        '\u{FEFF}' => Some("the file begins with a byte order mark: save it without one"),
        '\'' | '`' | '\u{201C}' | '\u{201D}' => Some("write strings in double quotes"),
        '#' | '/' => Some("write a comment after `//`"),
        '|' | '&' => Some("a type is a name, a set or a record: there are no unions of types"),
        '*' => Some("write the types one by one, `[User, Team]`"),
        '.' => Some("write `::` between the words of a name"),
        '-' => Some(
            "the name of an action or an attribute with a `-` is written in quotes: `\"view-all\"`",
        ),
        '0'..='9' => Some(
            "a name begins with a letter or `_`; a name of another form is written in quotes",
        ),
        '\u{200B}'..='\u{200D}' | '\u{2060}' => Some("remove the invisible character that is here"),
        _ => None,
    }
}
