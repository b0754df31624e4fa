//! What a handle leads to.
use crate::engine::Engine;

/// What a handle leads to: an engine, or nothing yet.
#[derive(Drop)]
pub enum Slot {
    /// Nothing was published to the handle.
    Empty,
    /// An engine.
    Full(Engine),
}
