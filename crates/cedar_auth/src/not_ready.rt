//! Validated policies whose entities are refused.
use crate::validated::Validated;
use cedar_conform_values::ConformFault;

/// Validated policies that are handed back, and why the entities given with them are refused.
#[derive(Drop)]
pub struct NotReady {
    /// Why the entities are refused.
    pub fault: ConformFault,
    /// The policies, with their schema, that the call was given.
    pub validated: Validated,
}
