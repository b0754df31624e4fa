//! The entities of a template's scope.
use cedar_value::Uid;

/// An entity, or a place for one (Cedar language reference, policy templates).
#[derive(Drop)]
pub enum EntityReference {
    /// An entity.
    Entity(Uid),
    /// The slot of the variable whose scope this is: `?principal` or `?resource`.
    Slot,
}
