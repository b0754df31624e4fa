//! A schema and policies that are not accepted for it.
use crate::validation_fault::ValidationFault;
use cedar_ast::PolicySet;
use cedar_schema::Schema;

/// A schema and policies that are handed back, and why they make no `Validated`.
#[derive(Drop)]
pub struct NotValidated {
    /// Why the policies are not accepted.
    pub fault: ValidationFault,
    /// The schema that the call was given.
    pub schema: Schema,
    /// The policies that the call was given.
    pub policies: PolicySet,
}
