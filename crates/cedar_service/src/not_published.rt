//! A version that did not become the current one.
use crate::service_fault::ServiceFault;
use cedar_auth::Ready;

/// A version that is handed back, and why it did not become the current one.
#[derive(Drop)]
pub struct NotPublished {
    /// Why it did not become the current version.
    pub fault: ServiceFault,
    /// The version that the call was given.
    pub ready: Ready,
}
