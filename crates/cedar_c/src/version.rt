//! The versions of the interface and of the engine.

/// The number of this interface.
pub(crate) const ABI: u32 = 1;

/// The version of the engine.
pub(crate) const VERSION: &str = "0.1.0";
