//! What is kept of a uid for the next one.
ghost use Rattle.std.specs.Prelude.{◌≡◌, IfOk};

use cedar_value::{Text, Uid};
use std::alloc::{AllocError, Global};

/// What is kept of the uid at a key of a request, for the uid at this key of the next request: where the name of its type is, and the
/// memory of its id. Neither changes what is read.
#[derive(Drop)]
pub(crate) struct UidRoom {
    // The place among the names that a reader keeps.
    pub(crate) place: usize,
    id: Option<Text>,
}

impl UidRoom {
    /// Nothing. It takes no memory.
    pub(crate) fn new() -> UidRoom {
        UidRoom { place: 0, id: None }
    }

    /// Keeps the memory of a uid that is done.
    pub(crate) fn keep(&mut self, uid: Uid) {
        self.id = Some(uid.id);
    }

    /// The text, in the memory that is kept if there is any.
    pub(crate) fn text(&mut self, alloc: Global, content: &str) -> Result<Text, AllocError>
        ensures { IfOk result (λ t. t ≡ content.now) }
    {
        let Some(mut text) = self.id.take() else {
            return Text::read(alloc, content);
        };
        text.assign(content)?;
        Ok(text)
    }
}
