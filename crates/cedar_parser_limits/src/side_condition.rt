//! The side conditions of the grammar.

/// A side condition of the grammar (Cedar language reference, grammar).
#[derive(Clone, Copy, Debug, PartialEq, Eq)]
pub enum SideCondition {
    /// No string outside a pattern has the escape `\*`.
    Strings,
    /// Numbers are of 64 bits.
    Numbers,
    /// No key of a record is repeated.
    Keys,
    /// Functions and methods are known.
    Names,
    /// Functions and methods have as many arguments as they take.
    Counts,
    /// Slots are in their own variable's scope only.
    Slots,
    /// No annotation is repeated.
    Annotations,
}
