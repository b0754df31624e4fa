//! Places in a text.

/// Where something is written: its first byte, and the byte after its last, in bytes from 0.
#[derive(Clone, Copy, Debug, PartialEq, Eq)]
pub struct Extent {
    /// The first byte.
    pub start: usize,
    /// The byte after the last.
    pub end: usize,
}

/// Where a part of a condition is written, and where what gives it its name is.
#[derive(Clone, Copy, Debug, PartialEq, Eq)]
pub struct PartPlace {
    /// The whole part, with the brackets around it.
    pub whole: Extent,
    /// The word or sign of it that a message points at: the attribute's name of `e.a`, `e["a"]` and `e has a`, the type of `e is T`,
    /// the name of a method or function, the operator between two operands or before one, the word `like` or `if`, the uid; the
    /// whole part where there is no such word.
    pub name: Extent,
}
