//! What is around a place of a schema text.
use crate::piece::{Piece, PieceKind};
use crate::steps::Steps;
use std::alloc::{AllocError, Global};

/// The pieces around a place of a schema text, and what the place is in.
#[derive(Clone, Copy)]
pub(crate) struct Around<'t> {
    /// The piece that begins at the place; none at the end of the text.
    pub(crate) here: Option<Piece<'t>>,
    /// The piece after that one.
    pub(crate) next: Option<Piece<'t>>,
    /// The last piece before the place.
    pub(crate) before: Option<Piece<'t>>,
    /// The piece before that one.
    pub(crate) second: Option<Piece<'t>>,
    /// The innermost bracket of the declaration that is open, if one is.
    pub(crate) open: Option<Piece<'t>>,
    /// The piece before this bracket.
    pub(crate) opener: Option<Piece<'t>>,
    /// The word of the declaration that the place is in, if it has come.
    pub(crate) keyword: Option<Piece<'t>>,
    /// The `{` of the namespace that the place is in.
    pub(crate) namespace: Option<Piece<'t>>,
    /// Where the declaration begins, in bytes from 0.
    pub(crate) start: usize,
}

// Whether there is a piece, and this is written.
fn is_text(piece: Option<Piece<'_>>, text: &str) -> bool {
    piece.is_some_and(|piece| piece.text == text)
}

impl<'t> Around<'t> {
    /// What is around an offset of a text that has these pieces.
    ///
    /// # Errors
    ///
    /// Fails only when out of memory.
    pub(crate) fn of(
        alloc: Global,
        pieces: &[Piece<'t>],
        at: usize,
    ) -> Result<Around<'t>, AllocError> {
        let mut steps = Steps::new(alloc);
        let mut here = None;
        let mut next = None;
        let mut before = None;
        let mut second = None;
        for (position, piece) in pieces.iter().enumerate() {
            if piece.start >= at {
                here = Some(*piece);
                next = pieces.get(position.saturating_add(1)).copied();
                break;
            }
            second = before;
            before = Some(*piece);
            steps.take(*piece, position)?;
        }
        let open = steps.open.last().copied();
        Ok(Around {
            here,
            next,
            before,
            second,
            open: open.and_then(|position| pieces.get(position).copied()),
            opener: open.and_then(|position| pieces.get(position.checked_sub(1)?).copied()),
            keyword: steps.keyword,
            namespace: steps.namespace,
            start: steps.start,
        })
    }

    /// Whether this is written at the place.
    pub(crate) fn sees(self, text: &str) -> bool {
        is_text(self.here, text)
    }

    /// Whether the piece at the place is of this kind.
    pub(crate) fn is_here(self, kind: PieceKind) -> bool {
        self.here.is_some_and(|piece| piece.kind == kind)
    }

    /// Whether a word or a string is written at the place.
    pub(crate) fn is_name_here(self) -> bool {
        self.here.is_some_and(|piece| piece.is_name())
    }

    /// Whether this is written right before the place.
    pub(crate) fn follows(self, text: &str) -> bool {
        is_text(self.before, text)
    }

    /// Whether this is written before the piece right before the place.
    pub(crate) fn follows_second(self, text: &str) -> bool {
        is_text(self.second, text)
    }

    /// Whether the innermost open bracket is this one.
    pub(crate) fn is_within(self, open: &str) -> bool {
        is_text(self.open, open)
    }

    /// Whether this is written before the innermost open bracket.
    pub(crate) fn is_opened_by(self, text: &str) -> bool {
        is_text(self.opener, text)
    }

    /// Whether the declaration is one with this word.
    pub(crate) fn is_in(self, keyword: &str) -> bool {
        is_text(self.keyword, keyword)
    }

    /// Where the last piece before the place ends, in bytes from 0.
    pub(crate) fn end(self) -> usize {
        self.before.map_or(self.start, |piece| piece.end())
    }
}
