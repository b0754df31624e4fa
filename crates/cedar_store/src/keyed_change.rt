//! Changes with the hashes of their uids.
ghost use Rattle.std.specs.Prelude.{◌≡◌, IfOk};
ghost use Rattle.cedar_store.specs.Private.Branches.{key_cmp};
ghost use Rattle.cedar_store.specs.Private.Forks.{keyed_of};

use crate::change::Change;
use cedar_value::Uid;
use std::alloc::{AllocError, Global};
use std::cmp::Ordering;
use std::sync::Arc;

/// A change with the hash of its uid.
#[derive(Drop)]
pub(crate) struct KeyedChange {
    pub(crate) hash: u64,
    pub(crate) change: Arc<Change, Global>,
}

impl KeyedChange {
    /// The order of a hash and a uid beside those of this change: first the hashes count, and then the uids. Whoever knows the key of
    /// the hash can find uids with one hash, so hashes alone would not do.
    pub(crate) fn order(&self, hash: u64, uid: &Uid) -> Ordering
        ensures { result ≡ key_cmp hash uid.now (keyed_of self.now) }
    {
        match hash.cmp(&self.hash) {
            Ordering::Less => Ordering::Less,
            Ordering::Equal => uid.cmp(self.change.uid()),
            Ordering::Greater => Ordering::Greater,
        }
    }

    /// The same change for one more holder. Takes no memory.
    pub(crate) fn share(&self) -> Result<KeyedChange, AllocError>
        ensures { IfOk result (λ k. keyed_of k ≡ keyed_of self.now) }
    {
        Ok(KeyedChange {
            hash: self.hash,
            change: Arc::try_clone(&self.change)?,
        })
    }
}
