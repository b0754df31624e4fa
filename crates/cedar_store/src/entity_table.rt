//! Entities that are found by their uids.
ghost use Rattle.std.specs.Prelude.{◌≡◌, ◌↔◌, ℕ, Some, IfOk, IfErr, OnOk, option_copied};
ghost use Rattle.std.specs.List.{slice_get};
ghost use Rattle.cedar_value.specs.World.{entry_of};
ghost use Rattle.cedar_store.specs.Entities.{uids_of, AreUidsDistinct};
ghost use Rattle.cedar_store.specs.Faults.{IsThere};
ghost use Rattle.cedar_store.specs.Private.Kept.{ArePlaces};

use crate::entity::Entity;
use crate::store_fault::StoreFault;
use crate::uid_hashing::UidHashing;
use base_reach::Links;
use cedar_value::Uid;
use indexmap::IndexMap;
use std::alloc::Global;
use std::marker::Model;

/// Entities whose uids are distinct, in the order in which they came, and the place of each.
#[derive(Drop)]
pub(crate) struct EntityTable {
    entities: Vec<Entity>,
    places: IndexMap<Uid, usize, UidHashing>,
}

impl Model for EntityTable {
    ghost use Rattle.std.specs.Coded.{codes};
    ghost use Rattle.cedar_value.specs.Private.DatumCode.{datum_code};
    ghost use Rattle.cedar_value.specs.World.{World};
    ghost use Rattle.cedar_store.specs.Entities.{uids_of};
    ghost use Rattle.cedar_store.specs.Private.Kept.{ArePlaces};

    ghost Value = { World };

    ghost coded = { Prim.hlevel (codes, datum_code) };

    ghost view = { λ t. t.entities.items };

    ghost invariant = { λ t. ArePlaces t.places (uids_of t.entities.items) };
}

impl EntityTable {
    /// The table of these entities, or 401 where a uid is repeated.
    pub(crate) fn new(alloc: Global, entities: Vec<Entity>) -> Result<Self, StoreFault>
        ensures world { IfOk result (λ t. t ≡ entities.items) }
        ensures distinct { OnOk result (AreUidsDistinct entities.items) }
        ensures refused { IfErr result (IsThere entities.items) }
    {
        let places = places_of(alloc, &entities)?;
        Ok(EntityTable { entities, places })
    }

    /// No uid is repeated. A law: it runs no code.
    pub(crate) fn uids_are_distinct(&self)
        ensures { AreUidsDistinct self.now }
    {
        let _places = &self.places;
    }

    /// The entities, in the order in which they came, without their places.
    pub(crate) fn into_entities(self) -> Vec<Entity>
        ensures { result.items ≡ self }
    {
        self.entities
    }

    /// The entities, in the order in which they came.
    pub(crate) fn entities(&self) -> &[Entity]
        ensures { result.now ≡ self.now }
    {
        &self.entities
    }

    /// How the uids are hashed.
    pub(crate) fn hashing(&self) -> UidHashing {
        *self.places.hasher()
    }

    /// The place of an entity, counted from 0.
    pub(crate) fn place(&self, uid: &Uid) -> Option<usize>
        ensures { (k : ℕ) → (result ≡ Some k) ↔ (slice_get (uids_of self.now) k ≡ Some uid.now) }
    {
        self.places.get(uid).copied()
    }

    /// The entity with this uid.
    pub(crate) fn get(&self, uid: &Uid) -> Option<&Entity>
        ensures { option_copied result ≡ entry_of self.now uid.now }
    {
        match self.place(uid) {
            Some(place) => self.entities.get(place),
            None => None,
        }
    }
}

impl Links<Uid> for EntityTable {
    ghost use Rattle.cedar_value.specs.World.{parents_of};
    ghost use Rattle.cedar_store.specs.Entities.{uids_of};
    ghost use Rattle.cedar_value.proofs.Reach.{parents-listed};

    ghost links = { parents_of };

    ghost sources = { uids_of };

    // The direct parents of an entity. Empty for an entity that the table lacks.
    fn links(&self, uid: &Uid) -> &[Uid] {
        match self.get(uid) {
            Some(entity) => &entity.parents,
            None => &[],
        }
    }

    ghost listed = { parents-listed };
}

// The place of each entity, under its uid.
fn places_of(
    alloc: Global,
    entities: &[Entity],
) -> Result<IndexMap<Uid, usize, UidHashing>, StoreFault>
    ensures places { IfOk result (λ m. ArePlaces m (uids_of entities.now)) }
    ensures refused { IfErr result (IsThere entities.now) }
{
    let mut places = IndexMap::with_hasher(alloc, UidHashing::new(entities));
    for (place, entity) in entities.iter().enumerate() {
        let uid = &entity.uid;
        let earlier = places.insert(uid.try_clone(alloc)?, place)?;
        if earlier.is_some() {
            return Err(StoreFault::DuplicateEntity(uid.try_clone(alloc)?));
        }
    }
    Ok(places)
}
