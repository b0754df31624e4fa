//! The statuses of calls.

/// Done.
pub(crate) const OK: u32 = 0;

/// Memory was refused. It is never a decision, and all is as before.
pub(crate) const MEMORY: u32 = 1;

/// A file is refused.
pub(crate) const REFUSED: u32 = 2;

/// The policies have faults.
pub(crate) const FAULTS: u32 = 3;

/// An argument is not one that this version knows.
pub(crate) const ARGUMENT: u32 = 4;

/// Nothing was published to the handle.
pub(crate) const NO_ENGINE: u32 = 5;

/// The buffer is too small.
pub(crate) const ROOM: u32 = 6;

/// The parts are not a request.
pub(crate) const NO_REQUEST: u32 = 7;

/// A part of the report was given, and there is more.
pub(crate) const MORE: u32 = 9;
