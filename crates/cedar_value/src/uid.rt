//! Uids of entities.
ghost use Rattle.std.specs.Prelude.{◌≡◌, IfOk, ◌↔◌, IsTrue};
ghost use Rattle.cedar_value.specs.Datum.{same_uid};

use crate::name::Name;
use crate::text::Text;
use base_reach::Key;
use std::alloc::{AllocError, Global};
use std::cmp::Ordering;
use std::hash::{Hash, Hasher};

/// The uid of an entity: the name of its type, and its id (Cedar language reference, entity identifiers).
#[derive(Drop)]
pub struct Uid {
    /// The name of the entity's type.
    pub ty: Name,
    /// The entity's id, which may be any string.
    pub id: Text,
}

impl Uid {
    /// A copy, equal to the original.
    pub fn try_clone(&self, alloc: Global) -> Result<Self, AllocError>
        ensures { IfOk result (λ u. u ≡ self.now) }
    {
        Ok(Uid {
            ty: self.ty.try_clone(alloc)?,
            id: self.id.try_clone(alloc)?,
        })
    }
}

impl Key for Uid {
    ghost use Rattle.cedar_value.specs.Private.Same.{uid_same};

    ghost ties = { uid_same };

    fn try_clone(&self, alloc: Global) -> Result<Self, AllocError> {
        Uid::try_clone(self, alloc)
    }
}

impl PartialEq for Uid {
    ghost use Rattle.cedar_value.specs.Datum.{same_uid};
    ghost use Rattle.cedar_value.specs.Private.Equality.{uid_equivalence};
    ghost use Rattle.std.specs.Cmp.{partial_equiv_from_equiv};

    ghost eq = { same_uid };

    ghost laws = { partial_equiv_from_equiv uid_equivalence };

    fn eq(&self, other: &Self) -> bool
        ensures gives { result ≡ same_uid self.now other.now }
        ensures equal { IsTrue result ↔ (self.now ≡ other.now) }
    {
        self.id == other.id && self.ty == other.ty
    }
}

impl Eq for Uid {
    ghost use Rattle.cedar_value.specs.Private.Equality.{uid_equivalence};

    ghost laws = { uid_equivalence };
}

impl Hash for Uid {
    ghost use Rattle.cedar_value.specs.Private.Hashed.{uid_input, uid_input-same};

    ghost hash_input = { uid_input };

    ghost respects_eq = { uid_input-same };

    fn hash<H: Hasher>(&self, state: &mut H) {
        self.ty.hash(state);
        self.id.hash(state);
    }
}

impl PartialOrd for Uid {
    ghost use Rattle.std.specs.Ordering.{as_partial_cmp};
    ghost use Rattle.cedar_value.specs.Order.{uid_cmp};
    ghost use Rattle.cedar_value.specs.Private.Laws.{uid_partial_order};

    ghost partial_cmp = { as_partial_cmp uid_cmp };

    ghost laws = { uid_partial_order };

    fn partial_cmp(&self, other: &Self) -> Option<Ordering> {
        Some(self.cmp(other))
    }
}

impl Ord for Uid {
    ghost use Rattle.std.specs.Prelude.{refl};
    ghost use Rattle.cedar_value.specs.Order.{uid_cmp};
    ghost use Rattle.cedar_value.specs.Private.Laws.{uid_total};
    ghost use Rattle.cedar_value.specs.Private.Laws.{uid_ties};

    ghost cmp = { uid_cmp };

    ghost total = { uid_total };

    ghost matches_partial_cmp = { λ x y. refl };

    ghost matches_eq = { uid_ties };

    fn cmp(&self, other: &Self) -> Ordering {
        self.ty.cmp(&other.ty).then(self.id.cmp(&other.id))
    }
}
