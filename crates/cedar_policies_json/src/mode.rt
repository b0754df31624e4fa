//! Whether a JSON is read as an expression or as a value.

/// How a JSON is read.
#[derive(Clone, Copy, PartialEq, Eq, Debug)]
pub(crate) enum Mode {
    /// As an object of one key, which names the form of an expression.
    Expression,
    /// As a literal, a set or a record.
    Value,
}
