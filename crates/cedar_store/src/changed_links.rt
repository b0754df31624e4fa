//! The links of the world after changes.
ghost use Rattle.std.specs.Prelude.{◌≡◌};

use crate::base::Base;
use crate::change_map::ChangeMap;
use base_reach::Links;
use cedar_value::Uid;

/// The entities that were read whole, and changes over them, as links from each entity to its direct parents.
#[derive(Clone, Copy)]
pub(crate) struct ChangedLinks<'s> {
    pub(crate) base: &'s Base,
    pub(crate) changes: &'s ChangeMap,
}

impl Links<Uid> for ChangedLinks<'_> {
    ghost use Rattle.cedar_value.specs.World.{parents_of};
    ghost use Rattle.cedar_store.specs.Entities.{uids_of};
    ghost use Rattle.cedar_store.specs.Private.Overlaid.{world_over};
    ghost use Rattle.cedar_value.proofs.Reach.{parents-listed};

    ghost links = { λ g. parents_of (world_over g.base.now.world g.changes.now) };

    ghost sources = { λ g. uids_of (world_over g.base.now.world g.changes.now) };

    // The direct parents of an entity. Empty for an entity that the world lacks.
    fn links(&self, uid: &Uid) -> &[Uid] {
        // No two changes have one uid.
        self.changes.facts();
        match self.changes.get(uid) {
            Some(change) => match &change.entity {
                Some(entity) => &entity.parents,
                None => &[],
            },
            None => self.base.parents(uid),
        }
    }

    ghost listed = { λ g. parents-listed (world_over g.base.now.world g.changes.now) };
}
