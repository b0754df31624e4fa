//! Environments.

use cedar_schema_types::Type;
use cedar_value::{Name, Uid};

/// What a request may be about: an action with a type of principals, a type of resources and the type of its context (Cedar
/// documentation, JSON schema format: appliesTo).
#[derive(Drop)]
pub struct Environment {
    /// The action.
    pub action: Uid,
    /// The type of the principal.
    pub principal: Name,
    /// The type of the resource.
    pub resource: Name,
    /// The type of the context, a record.
    pub context: Type,
}
