//! The levels of the grammar that are chains.

/// A level of the grammar that is a chain of operands (Cedar language reference, grammar).
#[derive(Clone, Copy)]
pub enum ChainLevel {
    /// Operands of `||`.
    Or,
    /// Operands of `&&`.
    And,
    /// Operands of `+` and `-`.
    Add,
    /// Operands of `*`.
    Mult,
}
