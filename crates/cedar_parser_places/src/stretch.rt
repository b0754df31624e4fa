//! Tokens in a row.

/// Tokens of a text from a first to a last one, by their positions from 0.
#[derive(Clone, Copy)]
pub struct Stretch {
    /// The position of the first.
    pub first: usize,
    /// The position of the last.
    pub last: usize,
}

impl Stretch {
    /// The token at a position.
    pub fn one(position: usize) -> Stretch {
        Stretch {
            first: position,
            last: position,
        }
    }
}

/// The tokens of a part, and among them those of its name.
#[derive(Clone, Copy)]
pub struct Marked {
    /// The part.
    pub whole: Stretch,
    /// The name.
    pub name: Stretch,
}

impl Marked {
    /// A part without a word of its own.
    pub fn nameless(whole: Stretch) -> Marked {
        Marked { whole, name: whole }
    }
}
