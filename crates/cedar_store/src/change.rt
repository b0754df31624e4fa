//! Changes of entities.
ghost use Rattle.std.specs.Prelude.{◌≡◌, Contains, OnOk};
ghost use Rattle.base_reach.specs.Private.Lent.{lent};
ghost use Rattle.cedar_value.specs.Datum.{same_uid};
ghost use Rattle.cedar_value.specs.declared.uid.Uid.{Uid as Uids};
ghost use Rattle.cedar_store.specs.Private.Changing.{IsChangeOfUid, is_needed};
ghost use Rattle.cedar_store.specs.Private.Parts.{HasParentsDue};

use crate::base::Base;
use crate::entity::Entity;
use crate::settling::push_unnumbered;
use cedar_value::{Hierarchy, Uid};
use std::alloc::AllocError;
use std::marker::Model;

/// What changes say of a uid: the entity that is upserted, or that the uid is removed. The uid of the entity is this uid.
/// Contracts see its `ChangeTree`.
#[derive(Drop)]
pub(crate) struct Change {
    pub(crate) uid: Uid,
    pub(crate) entity: Option<Entity>,
}

impl Model for Change {
    ghost use Rattle.std.specs.Coded.{codes};
    ghost use Rattle.cedar_value.specs.Private.DatumCode.{datum_code};
    ghost use Rattle.cedar_store.specs.Private.Changing.{ChangeTree, IsOfUid};

    ghost Value = { ChangeTree };

    ghost coded = { Prim.hlevel (codes, datum_code) };

    ghost view = { λ c. record { uid = c.uid; entity = c.entity } };

    ghost invariant = { λ c. IsOfUid c.uid c.entity };
}

impl Change {
    /// The uid that is changed.
    pub(crate) fn uid(&self) -> &Uid
        ensures { result.now ≡ self.now.uid }
    {
        &self.uid
    }

    /// Appends each parent of the entity that is upserted, if one is, but for those with a number.
    pub(crate) fn push_parents<'s>(
        &'s self,
        base: &Base,
        due: &mut Vec<&'s Uid>,
    ) -> Result<(), AllocError>
        ensures kept { OnOk result ((p : Uids) → Contains (lent due.old.items) p → Contains (lent due.new.items) p) }
        ensures parents { OnOk result (HasParentsDue base.now (lent due.new.items) self.now) }
    {
        match &self.entity {
            Some(entity) => push_unnumbered(base, &entity.parents, due),
            None => Ok(()),
        }
    }

    /// For contracts alone: an entity that is upserted has the uid of its change.
    pub(crate) fn facts(&self)
        ensures { IsChangeOfUid self.now }
    {
        let _uid = &self.uid;
    }

    /// Whether the change shows another entity than there is without it: it upserts one, or removes one of the base.
    pub(crate) fn is_needed(&self, base: &Base) -> bool
        ensures { result ≡ is_needed base.now.world self.now }
    {
        self.entity.is_some() || base.has(&self.uid)
    }

    /// Whether this is the change of the uid.
    pub(crate) fn is_of(&self, uid: &Uid) -> bool
        ensures { result ≡ same_uid self.now.uid uid.now }
    {
        self.uid == *uid
    }
}
