//! The world without entities.
use crate::hierarchy::Hierarchy;
use crate::uid::Uid;
use crate::value_record::Record;
use crate::value_set::ValueSet;

/// The world without entities.
#[derive(Clone, Copy, Debug)]
pub struct NoEntities;

impl Hierarchy for NoEntities {
    ghost use Rattle.std.specs.Prelude.{[]};

    ghost world = { λ _. [] };

    fn has(&self, _entity: &Uid) -> bool {
        false
    }

    fn attributes(&self, _entity: &Uid) -> Option<&Record> {
        None
    }

    fn is_below(&self, _low: &Uid, _high: &Uid) -> bool {
        false
    }

    fn is_below_any(&self, _low: &Uid, _highs: &ValueSet) -> bool {
        false
    }
}
