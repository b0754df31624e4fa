//! What methods of extension types give.
use crate::extension::{Extension, ExtensionType};

/// What a method of an extension type gives (Cedar language reference, functions).
#[derive(Clone, Copy, Debug)]
pub enum Scalar {
    /// A Boolean.
    Boolean(bool),
    /// A whole number of 64 bits.
    Long(i64),
    /// A value of an extension type.
    Extension(Extension),
}

/// The type of what a method of an extension type gives (Cedar language reference, functions).
#[derive(Clone, Copy, Debug)]
pub enum ScalarType {
    /// Booleans.
    Boolean,
    /// Whole numbers of 64 bits.
    Long,
    /// Values of an extension type.
    Extension(ExtensionType),
}
