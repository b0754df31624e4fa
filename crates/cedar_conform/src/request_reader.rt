//! What is kept from request to request.
use crate::request_rooms::RequestRooms;
use base_json::JsonReader;
use cedar_conform_values::Names;
use cedar_value::Request;
use std::alloc::{AllocError, Global};

/// Reads requests one after another, with buffers for JSON, names of types and the memory of ids that are kept from request to request.
#[derive(Drop)]
pub struct RequestReader {
    pub(crate) json: JsonReader,
    pub(crate) names: Names,
    pub(crate) rooms: RequestRooms,
}

impl RequestReader {
    /// A reader that keeps nothing yet.
    ///
    /// # Errors
    ///
    /// Fails only when out of memory.
    pub fn new(alloc: Global) -> Result<RequestReader, AllocError> {
        Ok(RequestReader {
            json: JsonReader::new(alloc)?,
            names: Names::new(alloc),
            rooms: RequestRooms::new(),
        })
    }

    /// Keeps the memory of a request that is done, for the next one. It changes nothing that is read.
    pub fn keep(&mut self, request: Request) {
        self.rooms.keep(request);
    }
}
