//! Where a type is written.

/// Where a type is written: some keys may be beside it at some places alone.
#[derive(Clone, Copy, PartialEq, Eq, Debug)]
pub enum Position {
    /// In another type, as the shape of an entity type, or as a context.
    Inner,
    /// As a common type.
    CommonType,
    /// As an attribute of a record.
    Attribute,
}
