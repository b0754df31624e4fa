//! The principal, the action or the resource of a request.
ghost use Rattle.std.specs.Prelude.{◌≡◌, ◌||◌};
ghost use Rattle.cedar_value.specs.World.{below};
ghost use Rattle.cedar_auth_candidates.specs.Private.Met.{is_within};

use cedar_store::{Descendant, Store};
use cedar_value::{Hierarchy, Uid};
use std::marker::Model;

/// An entity of a request over a hierarchy, and over a store what it is below as soon as this was asked once. Contracts see a
/// `DescendantView`.
#[derive(Drop)]
pub(crate) struct RequestEntity<'r, H: Hierarchy> {
    uid: &'r Uid,
    hierarchy: &'r H,
    store: Option<&'r Store>,
    descendant: Option<Descendant<'r>>,
}

impl<'r, H: Hierarchy> Model for RequestEntity<'r, H> {
    ghost use Rattle.std.specs.Prelude.{◌≡◌, IfSome};
    ghost use Rattle.std.specs.Coded.{codes};
    ghost use Rattle.cedar_value.specs.Private.DatumCode.{datum_code};
    ghost use Rattle.cedar_store.specs.DescendantView.{DescendantView};

    ghost Value = { DescendantView };

    ghost coded = { Prim.hlevel (codes, datum_code) };

    ghost view = { λ e. record { world = H.world e.hierarchy.now; uid = e.uid.now } };

    ghost invariant = { λ e. IfSome e.store (λ s. s.now ≡ H.world e.hierarchy.now)
        × IfSome e.descendant (λ d. (d.world ≡ H.world e.hierarchy.now) × (d.uid ≡ e.uid.now)) };
}

impl<'r> RequestEntity<'r, Store> {
    /// An entity over a store, which is looked up when it is first asked what it is below, and not again.
    pub(crate) fn over(uid: &'r Uid, store: &'r Store) -> Self
        ensures uid { result.uid ≡ uid.now }
        ensures world { result.world ≡ store.now }
    {
        RequestEntity {
            uid,
            hierarchy: store,
            store: Some(store),
            descendant: None,
        }
    }
}

impl<'r, H: Hierarchy> RequestEntity<'r, H> {
    /// An entity over a hierarchy, which is asked each time.
    pub(crate) fn new(uid: &'r Uid, hierarchy: &'r H) -> Self
        ensures uid { result.uid ≡ uid.now }
        ensures world { result.world ≡ H.world hierarchy.now }
    {
        RequestEntity {
            uid,
            hierarchy,
            store: None,
            descendant: None,
        }
    }

    /// The uid of the entity.
    #[inline(always)]
    pub(crate) fn uid(&self) -> &'r Uid
        ensures { result.now ≡ self.now.uid }
    {
        self.uid
    }

    // Whether the entity is below the other.
    fn is_below(&mut self, high: &Uid) -> bool
        ensures gives { result ≡ below self.old.world self.old.uid high.now }
        ensures same { self.new ≡ self.old }
    {
        if let Some(descendant) = &self.descendant {
            return descendant.is_below(high);
        }
        let Some(store) = self.store else {
            return self.hierarchy.is_below(self.uid, high);
        };
        let descendant = store.descendant(self.uid);
        let is_below = descendant.is_below(high);
        self.descendant = Some(descendant);
        is_below
    }

    /// Whether the entity is the other, or below it (Cedar language reference, operators, `in`).
    pub(crate) fn is_within(&mut self, high: &Uid) -> bool
        ensures gives { result ≡ is_within self.old.world self.old.uid high.now }
        ensures same { self.new ≡ self.old }
    {
        self.uid == high || self.is_below(high)
    }
}
