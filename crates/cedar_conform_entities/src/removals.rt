//! Checks of the uids that changes remove.
ghost use Rattle.std.specs.Prelude.{◌↔◌, IsTrue, MatchResult};
ghost use Rattle.cedar_conform_entities.specs.Changes.{IsActionUid};
ghost use Rattle.cedar_conform_entities.specs.Private.Changing.{AreRemovals, RefusesRemovals};

use crate::judging::is_action_name;
use crate::noted::note;
use cedar_conform_values::ConformFault;
use cedar_schema::Schema;
use cedar_value::Uid;
use std::alloc::Global;
use std::collections::BTreeSet;

/// Refuses with 508 the uid of an action, and with 401 a uid that is there twice.
pub(crate) fn judge_removals(
    alloc: Global,
    schema: &Schema,
    removed: &[Uid],
) -> Result<(), ConformFault>
    ensures { MatchResult result (λ _. AreRemovals schema.now removed.now) (RefusesRemovals schema.now removed.now) }
{
    let mut noted = BTreeSet::new(alloc);
    let mut rest = removed;
    'walk: while let Some((uid, others)) = rest.split_first() {
        if is_action(schema, uid) {
            return Err(ConformFault::ActionDiffers);
        }
        note(&mut noted, uid.try_clone(alloc)?)?;
        rest = others;
    }
    Ok(())
}

fn is_action(schema: &Schema, uid: &Uid) -> bool
    ensures { IsTrue result ↔ IsActionUid schema.now uid.now }
{
    is_action_name(&uid.ty) || schema.has_action(uid)
}
