//! What is known of a Boolean.

/// What is known of a Boolean: that it is true, that it is false, or nothing
/// (cedar-spec, Lean: Cedar.Validation.BoolType).
#[derive(Clone, Copy, PartialEq, Eq, Debug)]
pub enum Truth {
    /// It is true.
    True,
    /// It is false.
    False,
    /// It is true or false.
    Any,
}
