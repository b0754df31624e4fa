//! What is said of a place where the grammar does not allow what is there.
use crate::around::Around;
use crate::expected::Expected;
use crate::piece::{Piece, PieceKind};
use base_places::Draft;
use std::alloc::{AllocError, Global};

/// How many bytes of a piece are shown at most.
const MOST: usize = 40;

// The beginning of a text, of at most 40 bytes and whole characters.
fn first_of(text: &str) -> &str {
    let end = text.len().min(MOST);
    for skipped in 0..4 {
        if let Some(begin) = text.get(..end.saturating_sub(skipped)) {
            return begin;
        }
    }
    ""
}

// Adds `unexpected` and a piece between backquotes: its first line, up to 40 bytes.
fn add_unexpected(says: &mut Draft, piece: Piece<'_>) {
    let line = piece.text.lines().next().unwrap_or(piece.text);
    let shown = first_of(line);
    says.add("unexpected `");
    says.add_shown(shown);
    if shown.len() < piece.text.len() {
        says.add("..");
    }
    says.add_char('`');
}

// Adds what is said of a piece, which may be a string with an escape that there is not.
fn add_piece(says: &mut Draft, piece: Piece<'_>, expected: &Expected, is_bad: bool) {
    match piece.kind {
        PieceKind::Unclosed => says.add("the string that begins here is not closed"),
        PieceKind::Other => add_unexpected(says, piece),
        _ if is_bad => says.add("unknown escape in this string"),
        _ => {
            add_unexpected(says, piece);
            expected.add_to(says);
        }
    }
}

/// What is said of what is at a place, or of the end of the text. `is_bad` says whether it is a string with an escape that there is not.
///
/// # Errors
///
/// Fails only when out of memory.
pub(crate) fn unexpected(
    alloc: Global,
    around: Around<'_>,
    expected: &Expected,
    is_bad: bool,
) -> Result<String, AllocError> {
    let mut says = Draft::new(alloc);
    match around.here {
        Some(piece) => add_piece(&mut says, piece, expected, is_bad),
        None => {
            says.add("unexpected end of input");
            expected.add_to(&mut says);
        }
    }
    says.done()
}
