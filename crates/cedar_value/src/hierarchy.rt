//! What evaluation looks up in the entities.
ghost use Rattle.std.specs.Prelude.{◌≡◌, ◌↔◌, IsTrue, Contains, option_copied};
ghost use Rattle.cedar_value.specs.Datum.{uid};
ghost use Rattle.cedar_value.specs.World.{World, has_entity, attributes_of, below, below_any, Below};

use crate::uid::Uid;
use crate::value_record::Record;
use crate::value_set::ValueSet;

/// The entities over which policies are evaluated, and what is above each of them. Contracts see them as a world. Nothing here
/// takes memory.
pub trait Hierarchy {
    ghost world: { Self → World };

    /// Whether the world has the entity (Cedar language reference, entities).
    fn has(&self, entity: &Uid) -> bool
        ensures { result ≡ has_entity (world self.now) entity.now };

    /// The attributes of an entity, or None where the world lacks it.
    fn attributes(&self, entity: &Uid) -> Option<&Record>
        ensures { option_copied result ≡ attributes_of (world self.now) entity.now };

    /// Whether the one is below the other: one or more links lead from it up to the other, each to a direct parent (Cedar
    /// language reference, `in`). An entity is below itself only where such links lead back to it.
    fn is_below(&self, low: &Uid, high: &Uid) -> bool
        ensures chain { IsTrue result ↔ Below (world self.now) low.now high.now }
        ensures gives { result ≡ below (world self.now) low.now high.now };

    /// Whether the entity is below some uid of the set (Cedar language reference, `in` with a set).
    /// Members of other kinds have nothing below them.
    fn is_below_any(&self, low: &Uid, highs: &ValueSet) -> bool
        ensures chain { IsTrue result
            ↔ ((v : Uid) × Contains highs.now (uid v) × Below (world self.now) low.now v) }
        ensures gives { result ≡ below_any (world self.now) low.now highs.now };
}
