//! A walk over the pieces of a schema text, piece by piece.
use crate::piece::{Piece, PieceKind};
use std::alloc::{AllocError, Global};

/// Where in a schema text a walk is.
#[derive(Drop)]
pub(crate) struct Steps<'t> {
    /// The brackets that are open in the declaration, by their positions among the pieces.
    pub(crate) open: Vec<usize>,
    /// The word of the declaration, if it has come.
    pub(crate) keyword: Option<Piece<'t>>,
    /// Where the declaration begins, in bytes from 0: after the end of the one before.
    pub(crate) start: usize,
    /// The `{` of the namespace that is open.
    pub(crate) namespace: Option<Piece<'t>>,
    // The last piece.
    last: Option<Piece<'t>>,
}

impl<'t> Steps<'t> {
    /// The beginning of a text.
    pub(crate) fn new(alloc: Global) -> Steps<'t> {
        Steps {
            open: Vec::new(alloc),
            keyword: None,
            start: 0,
            namespace: None,
            last: None,
        }
    }

    /// Whether the declaration is one with this word.
    pub(crate) fn is_in(&self, keyword: &str) -> bool {
        self.keyword.is_some_and(|piece| piece.text == keyword)
    }

    /// Goes past a piece, which has this position.
    pub(crate) fn take(&mut self, piece: Piece<'t>, position: usize) -> Result<(), AllocError> {
        match piece.kind {
            PieceKind::Word => self.take_word(piece),
            PieceKind::Sign => self.take_sign(piece, position)?,
            _ => {}
        }
        self.last = Some(piece);
        Ok(())
    }

    // The first word that does not name an annotation is the word of the declaration.
    fn take_word(&mut self, piece: Piece<'t>) {
        let is_noted = self.last.is_some_and(|last| last.text == "@");
        if self.keyword.is_none() && self.open.is_empty() && !is_noted {
            self.keyword = Some(piece);
        }
    }

    fn take_sign(&mut self, piece: Piece<'t>, position: usize) -> Result<(), AllocError> {
        match piece.text {
            "{" if self.open.is_empty() && self.is_in("namespace") => {
                self.namespace = Some(piece);
                self.begin(piece.end());
            }
            "{" | "[" | "(" | "<" => self.open.push(position)?,
            "}" if self.open.is_empty() => {
                self.namespace = None;
                self.begin(piece.end());
            }
            "}" | "]" | ")" | ">" => {
                self.open.pop();
            }
            ";" if self.open.is_empty() => self.begin(piece.end()),
            _ => {}
        }
        Ok(())
    }

    // Begins a declaration.
    fn begin(&mut self, start: usize) {
        self.keyword = None;
        self.start = start;
    }
}
