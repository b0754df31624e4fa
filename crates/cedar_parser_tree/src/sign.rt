//! The signs between operands.

/// A sign between the operands of a chain, which groups to the left (Cedar language reference, grammar).
#[derive(Clone, Copy, Debug, PartialEq, Eq)]
pub enum ChainSign {
    /// `||`
    Or,
    /// `&&`
    And,
    /// `+`
    Plus,
    /// `-`
    Minus,
    /// `*`
    Times,
}

/// A sign between two operands, at most once (Cedar language reference, grammar).
#[derive(Clone, Copy, Debug, PartialEq, Eq)]
pub enum RelationSign {
    /// `<`
    Less,
    /// `<=`
    LessEqual,
    /// `>`
    Greater,
    /// `>=`
    GreaterEqual,
    /// `==`
    Equal,
    /// `!=`
    NotEqual,
    /// `in`
    In,
}
