//! What a policy does where it is satisfied.

/// What a policy does where its condition is true (Cedar language reference, policies).
#[derive(Clone, Copy, Debug, PartialEq, Eq)]
pub enum Effect {
    /// The request is allowed, unless another policy forbids it.
    Permit,
    /// The request is denied.
    Forbid,
}
