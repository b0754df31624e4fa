//! An entity that is asked many times what it is below.
ghost use Rattle.std.specs.Prelude.{◌≡◌, ◌↔◌, IsTrue};
ghost use Rattle.cedar_value.specs.World.{Below, below};

use crate::ascent::Ascent;
use crate::store::Store;
use cedar_value::{Hierarchy, Uid};
use std::marker::Model;

/// An entity of a store, whose parents were looked up once. It is asked many times what it is below, for example by the policies of a
/// request. Contracts see a `DescendantView`.
///
/// Where the store keeps changes over the entities that were read whole, each question looks the entity up.
#[derive(Drop)]
pub struct Descendant<'s> {
    pub(crate) store: &'s Store,
    pub(crate) uid: &'s Uid,
    pub(crate) ascent: Option<Ascent<'s>>,
}

impl<'s> Model for Descendant<'s> {
    ghost use Rattle.std.specs.Prelude.{IfSome};
    ghost use Rattle.std.specs.Coded.{codes};
    ghost use Rattle.cedar_value.specs.Private.DatumCode.{datum_code};
    ghost use Rattle.cedar_store.specs.DescendantView.{DescendantView};
    ghost use Rattle.cedar_store.specs.Private.Kept.{AreAncestors};
    ghost use Rattle.cedar_store.specs.Private.Ascents.{reaches};

    ghost Value = { DescendantView };

    ghost coded = { Prim.hlevel (codes, datum_code) };

    ghost view = { λ d. record { world = d.store.now; uid = d.uid.now } };

    ghost invariant = { λ d. IfSome d.ascent (λ a. AreAncestors d.store.now d.uid.now (reaches a)) };
}

impl<'s> Descendant<'s> {
    /// Whether the entity is below the other, as [`Hierarchy::is_below`] says of both (Cedar language reference, `in`). Takes no memory.
    pub fn is_below(&self, high: &Uid) -> bool
        ensures chain { IsTrue result ↔ Below self.now.world self.now.uid high.now }
        ensures gives { result ≡ below self.now.world self.now.uid high.now }
    {
        match &self.ascent {
            Some(ascent) => ascent.reaches(high),
            None => self.store.is_below(self.uid, high),
        }
    }
}
