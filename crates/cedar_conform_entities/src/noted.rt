//! Uids that come once.
ghost use Rattle.std.specs.Prelude.{MatchResult};
ghost use Rattle.cedar_conform_entities.specs.Private.Changing.{IsNoted, RefusesNoted};

use cedar_conform_values::ConformFault;
use cedar_value::Uid;
use std::collections::BTreeSet;

/// Puts the uid into the set. Refused with 401 where it is there.
pub(crate) fn note(noted: &mut BTreeSet<Uid>, uid: Uid) -> Result<(), ConformFault>
    ensures { MatchResult result (λ _. IsNoted noted.old noted.new uid) (RefusesNoted noted.old uid) }
{
    if noted.contains(&uid) {
        return Err(ConformFault::DuplicateEntity(uid));
    }
    noted.insert(uid)?;
    Ok(())
}
