//! Sets of uids.
ghost use Rattle.std.specs.Prelude.{◌≡◌};
ghost use Rattle.std.specs.BTreeSet.{contains};
ghost use Rattle.std.specs.List.{list_any};
ghost use Rattle.cedar_value.specs.Order.{uid_cmp};
ghost use Rattle.cedar_store.specs.Private.Kept.{has_datum};

use cedar_value::{Uid, ValueKind, ValueSet};
use std::collections::BTreeSet;

/// Whether some uid of a set of values is in the set of uids.
pub(crate) fn has_any(uids: &BTreeSet<Uid>, values: &ValueSet) -> bool
    ensures { result ≡ list_any (has_datum (contains uid_cmp uids.now)) values.now }
{
    for value in values.members() {
        if let ValueKind::Uid(uid) = value.kind() {
            if uids.contains(&**uid) {
                return true;
            }
        }
    }
    false
}
