//! What the tests that evaluation uses decide. Each law is proved by its contract, and runs no code.
ghost use Rattle.std.specs.Prelude.{◌≡◌, ◌↔◌, ℕ, List, Some, Contains};
ghost use Rattle.std.specs.Bool.{Decides};
ghost use Rattle.cedar_value.specs.Datum.{Datum, same};
ghost use Rattle.cedar_value.specs.Names.{IsName, is_name};
ghost use Rattle.cedar_value.specs.Order.{AreKeysAscending, IsAscending};
ghost use Rattle.cedar_value.specs.Records.{AreKeysDistinct, SamePairs, record_from, value_at};
ghost use Rattle.cedar_value.specs.Sets.{SameMembers, has_member, set_from};
ghost use Rattle.cedar_value.specs.World.{World, Below, below};

use crate::uid::Uid;

/// The test of what is above an entity holds exactly where one or more links lead up, in every world, also in one with cycles
/// (Cedar language reference, `in`).
pub fn below_is_a_chain_of_links()
    ensures { (w : World) (u v : Uid) → Decides (below w u v) (Below w u v) }
{}

/// The test of equality holds exactly of equal trees (Cedar language reference, `==`).
pub fn same_tells_equal_values()
    ensures { (x y : Datum) → Decides (same x y) (x ≡ y) }
{}

/// The test of membership holds exactly of the elements of a list (Cedar language reference, `contains`).
pub fn has_member_tells_members()
    ensures { (members : List Datum) (x : Datum) → Decides (has_member members x) (Contains members x) }
{}

/// The set that a list makes has the members of the list and ascends, and no other list does both
/// (Cedar language reference, sets).
pub fn set_from_has_the_members()
    ensures members { (list : List Datum) → SameMembers (set_from list) list }
    ensures ascending { (list : List Datum) → IsAscending (set_from list) }
    ensures only { (members list : List Datum) → IsAscending members → SameMembers members list → members ≡ set_from list }
{}

/// The record that pairs make has those pairs. Where no key is repeated it ascends by the keys, and no other list does both
/// (Cedar language reference, records).
pub fn record_from_has_the_pairs()
    ensures pairs { (list : List (List ℕ × Datum)) → SamePairs (record_from list) list }
    ensures ascending { (list : List (List ℕ × Datum)) → AreKeysDistinct list → AreKeysAscending (record_from list) }
    ensures only { (pairs list : List (List ℕ × Datum)) → AreKeysAscending pairs → SamePairs pairs list → pairs ≡ record_from list }
    ensures itself { (pairs : List (List ℕ × Datum)) → AreKeysAscending pairs → record_from pairs ≡ pairs }
{}

/// Where no key is repeated, the value found at a key is the one that is paired with it (Cedar language reference, records).
pub fn value_at_tells_pairs()
    ensures { (pairs : List (List ℕ × Datum)) → AreKeysDistinct pairs
        → (key : List ℕ) (x : Datum) → (value_at key pairs ≡ Some x) ↔ Contains pairs (key, x) }
{}

/// The test of names holds exactly of the texts that are one or more identifiers with `::` between them
/// (Cedar language reference, policy grammar: Path).
pub fn is_name_tells_names()
    ensures { (text : List ℕ) → Decides (is_name text) (IsName text) }
{}
