//! Links of templates.
use crate::slots::Slots;
use cedar_value::Text;

/// A template to be linked, and what is given for its slots (Cedar language reference, policy templates).
#[derive(Drop)]
pub struct Link {
    /// The id of the template.
    pub template: Text,
    /// The id of the policy that is made.
    pub id: Text,
    /// What is given for the template's slots.
    pub slots: Slots,
}
