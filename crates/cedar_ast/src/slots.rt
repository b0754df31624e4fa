//! The uids that a link gives for the slots of a template.
use cedar_value::Uid;

/// The uids that a link gives for the slots of a template (Cedar language reference, policy templates).
#[derive(Drop)]
pub struct Slots {
    /// What is given for `?principal`.
    pub principal: Option<Uid>,
    /// What is given for `?resource`.
    pub resource: Option<Uid>,
}
