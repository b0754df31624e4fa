//! What is kept of a request.
ghost use Rattle.std.specs.Prelude.{◌≡◌, ◌<◌};

use crate::guesses::{Guesses, slot_of};
use crate::uid_room::UidRoom;
use cedar_value::{Request, Uid};

/// What is kept of the three uids of a request for those of the next, and of the environments of requests.
#[derive(Drop)]
pub(crate) struct RequestRooms {
    pub(crate) principal: UidRoom,
    pub(crate) action: UidRoom,
    pub(crate) resource: UidRoom,
    // The position of the environment of the last request that was read.
    pub(crate) environment: usize,
    pub(crate) guesses: Guesses,
}

impl RequestRooms {
    /// Nothing. It takes no memory.
    pub(crate) fn new() -> RequestRooms {
        RequestRooms {
            principal: UidRoom::new(),
            action: UidRoom::new(),
            resource: UidRoom::new(),
            environment: 0,
            guesses: Guesses::new(),
        }
    }

    /// The slot of guesses for a request with this action, whose uids were read with these rooms.
    pub(crate) fn slot(&self, action: &Uid) -> usize
        ensures { result < 64 }
    {
        slot_of(
            action.id.as_str(),
            self.principal.place,
            self.resource.place,
        )
    }

    /// Keeps the position of the environment of a request whose guess is in the slot.
    pub(crate) fn keep_environment(&mut self, slot: usize, position: usize)
        requires { slot < 64 }
        ensures { self.new.environment ≡ position }
    {
        self.environment = position;
        self.guesses.put(slot, position);
    }

    /// Keeps the memory of a request that is done.
    pub(crate) fn keep(&mut self, request: Request) {
        self.principal.keep(request.principal);
        self.action.keep(request.action);
        self.resource.keep(request.resource);
    }
}
