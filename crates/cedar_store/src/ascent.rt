//! The ways up from an entity that was read whole.
ghost use Rattle.std.specs.Prelude.{◌≡◌};
ghost use Rattle.cedar_store.specs.Private.Ascents.{reaches};

use crate::ahead::is_ahead;
use crate::numbers::{Numbers, has_uid};
use base_search::Row;
use cedar_value::Uid;

/// The ways up from an entity: the numbers of its parents, with the uids and the rows of all numbers. Where its parents are many, there
/// may be a row with the numbers of all that is above it.
#[derive(Drop)]
pub(crate) struct Ascent<'s> {
    pub(crate) numbers: &'s Numbers,
    pub(crate) rows: &'s [Row],
    pub(crate) near: &'s [usize],
    pub(crate) above: Option<Row>,
}

impl<'s> Ascent<'s> {
    /// Whether the uid is above the entity.
    pub(crate) fn reaches(&self, uid: &Uid) -> bool
        ensures { result ≡ reaches self.now uid.now }
    {
        match &self.above {
            Some(above) => has_uid(self.numbers, above, uid),
            None => is_ahead(self.numbers, self.rows, self.near, uid),
        }
    }
}
