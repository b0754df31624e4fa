//! Why a method of an extension type gives no value.

/// Why a method of an extension type gives no value (Cedar language reference, functions).
#[derive(Clone, Copy, Debug, PartialEq, Eq)]
pub enum MethodError {
    /// An operand is of another type.
    Type,
    /// The result does not fit 64 bits.
    Overflow,
}
