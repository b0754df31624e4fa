//! The decision about a request.

/// The decision about a request (Cedar language reference, authorization).
#[derive(Clone, Copy, Debug, PartialEq, Eq)]
pub enum Decision {
    /// Some permit is satisfied and no forbid is.
    Allow,
    /// Anything else.
    Deny,
}
