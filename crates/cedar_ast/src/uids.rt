//! Lists of entities.
ghost use Rattle.std.specs.Prelude.{◌≡◌, IfOk};

use cedar_value::Uid;
use std::alloc::{AllocError, Global};
use std::marker::Model;

/// Entities in the order in which they are written. Contracts see the list of them. `U` is what names an entity.
#[derive(Drop)]
pub struct Uids<U> {
    uids: Vec<U>,
}

impl<U> Model for Uids<U> {
    ghost use Rattle.std.specs.Prelude.{List};
    ghost use Rattle.std.specs.Coded.{coded_list};

    ghost Value = { List U };

    ghost coded = { coded_list U.code };

    ghost view = { λ u. u.uids.items };
}

impl<U> Uids<U> {
    /// The list of these entities. Takes no memory.
    pub fn new(uids: Vec<U>) -> Self
        ensures { result ≡ uids.items }
    {
        Uids { uids }
    }

    /// The entities in order. Takes no memory.
    pub fn into_vec(self) -> Vec<U>
        ensures { result.items ≡ self }
    {
        self.uids
    }

    /// The entities in order, lent.
    pub fn as_slice(&self) -> &[U]
        ensures { result.now ≡ self.now }
    {
        &self.uids
    }
}

impl Uids<Uid> {
    /// A copy, equal to the original.
    pub(crate) fn try_clone(&self, alloc: Global) -> Result<Self, AllocError>
        ensures { IfOk result (λ copy. copy ≡ self.now) }
    {
        let mut copies = Vec::new(alloc);
        for uid in self.as_slice() {
            copies.push(uid.try_clone(alloc)?)?;
        }
        Ok(Uids::new(copies))
    }
}
