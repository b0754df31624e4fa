//! The hash in whose order changes are kept.
ghost use Rattle.std.specs.Prelude.{◌≡◌};
ghost use Rattle.cedar_store.specs.Private.Branches as branches;

use crate::uid_hashing::UidHashing;
use cedar_value::Uid;
use std::hash::BuildHasher;

// Its bits look random, and it is odd: 2^64 divided by the golden ratio.
const FACTOR: u64 = 0x9E37_79B9_7F4A_7C15;

/// The hash of a uid. Uids whose ids count up have hashes that are some steps of one size apart, and a tree of such hashes can be
/// deep. So the bits of the hash are mixed.
pub(crate) fn hash_of(hashing: &UidHashing, uid: &Uid) -> u64
    ensures { result ≡ branches.hash_of hashing.now uid.now }
{
    mixed(mixed(hashing.hash_one(uid)))
}

// The high bits of the product depend on all bits of the hash.
#[inline]
fn mixed(hash: u64) -> u64
    ensures { result ≡ branches.mixed hash }
{
    (hash ^ (hash >> 32)).wrapping_mul(FACTOR)
}
