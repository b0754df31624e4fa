//! A schema text in pieces, also one that has no tokens: what the grammar does not know is a piece of its own.
use std::alloc::{AllocError, Global};

/// What a piece is.
#[derive(Clone, Copy, Debug, PartialEq, Eq)]
pub(crate) enum PieceKind {
    /// A word.
    Word,
    /// A string that is closed.
    String,
    /// A string that is not closed, up to the end of its line.
    Unclosed,
    /// A sign of the grammar, such as `{` or `::`.
    Sign,
    /// A character with which no token begins.
    Other,
}

/// A piece of a schema text.
#[derive(Clone, Copy)]
pub(crate) struct Piece<'t> {
    /// What it is.
    pub(crate) kind: PieceKind,
    /// Where it begins, in bytes from 0.
    pub(crate) start: usize,
    /// What is written.
    pub(crate) text: &'t str,
}

impl<'t> Piece<'t> {
    /// Where it ends, in bytes from 0.
    pub(crate) fn end(self) -> usize {
        self.start.saturating_add(self.text.len())
    }

    /// Whether it is a word or a string, as names of attributes and actions are.
    pub(crate) fn is_name(self) -> bool {
        matches!(self.kind, PieceKind::Word | PieceKind::String)
    }

    /// What is written, a string without its quotes.
    pub(crate) fn name(self) -> &'t str {
        self.text.trim_matches('"')
    }
}

/// The pieces of a text, without white space and comments.
///
/// # Errors
///
/// Fails only when out of memory.
pub(crate) fn pieces_of(alloc: Global, text: &str) -> Result<Vec<Piece<'_>>, AllocError> {
    let mut found = Vec::new(alloc);
    let mut rest = skipped(text);
    for _ in 0..text.len() {
        let Some(first) = rest.chars().next() else {
            break;
        };
        let (kind, len) = first_piece(first, rest);
        let (piece, after) = rest.split_at_checked(len).unwrap_or((rest, ""));
        found.push(Piece {
            kind,
            start: text.len().saturating_sub(rest.len()),
            text: piece,
        })?;
        rest = skipped(after);
    }
    Ok(found)
}

// A text after the white space and the comments at its beginning.
fn skipped(text: &str) -> &str {
    let mut rest = text.trim_start();
    for _ in 0..text.len() {
        if !rest.starts_with("//") {
            break;
        }
        rest = rest.get(line_len(rest)..).unwrap_or("").trim_start();
    }
    rest
}

// How many bytes come before the first end of a line.
fn line_len(text: &str) -> usize {
    text.find(|letter: char| letter == '\n' || letter == '\r')
        .unwrap_or(text.len())
}

// What the first piece of a text is, and its length in bytes.
fn first_piece(first: char, text: &str) -> (PieceKind, usize) {
    if first.is_ascii_alphabetic() || first == '_' {
        return (PieceKind::Word, word_len(text));
    }
    if first == '"' {
        return match string_len(text.as_bytes()) {
            Some(len) => (PieceKind::String, len),
            None => (PieceKind::Unclosed, line_len(text)),
        };
    }
    if text.starts_with("::") {
        return (PieceKind::Sign, 2);
    }
    let kind = if is_sign(first) {
        PieceKind::Sign
    } else {
        PieceKind::Other
    };
    (kind, first.len_utf8())
}

fn word_len(text: &str) -> usize {
    text.find(|letter: char| !letter.is_ascii_alphanumeric() && letter != '_')
        .unwrap_or(text.len())
}

// How many bytes a string has with both of its quotes, if it is closed.
fn string_len(bytes: &[u8]) -> Option<usize> {
    let mut is_escaped = false;
    for (at, byte) in bytes.iter().enumerate() {
        if at == 0 {
            continue;
        }
        if !is_escaped && *byte == b'"' {
            return Some(at.saturating_add(1));
        }
        is_escaped = !is_escaped && *byte == b'\\';
    }
    None
}

fn is_sign(first: char) -> bool {
    matches!(
        first,
        '{' | '}' | '[' | ']' | '(' | ')' | '<' | '>' | ',' | ';' | ':' | '?' | '=' | '@'
    )
}
