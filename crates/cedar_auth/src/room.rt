//! The buffers that are kept from line to line.
use crate::tally::Tally;
use cedar_auth_candidates::Selection;
use cedar_conform::RequestReader;
use std::alloc::{AllocError, Global};

/// The reader of requests, and the buffers for the policies that are selected for a request, and for how they end. They are used again
/// from line to line.
#[derive(Drop)]
pub struct Room<'r> {
    pub(crate) reader: RequestReader,
    pub(crate) selection: Selection<'r>,
    pub(crate) tally: Tally<'r>,
}

impl<'r> Room<'r> {
    /// Empty buffers.
    pub(crate) fn new(alloc: Global) -> Result<Room<'r>, AllocError> {
        Ok(Room {
            reader: RequestReader::new(alloc)?,
            selection: Selection::new(alloc),
            tally: Tally::new(alloc),
        })
    }
}
