//! Attributes of record types.
use crate::types::Type;
use cedar_value::SharedText;

/// An attribute of a record type.
#[cycle(types)]
#[derive(Drop)]
pub struct Attribute {
    /// Its name, the key at which a record has it.
    pub name: SharedText,
    /// The type of the value at the key.
    pub ty: Type,
    /// Whether each record of the type has the key.
    pub required: bool,
}
