//! How uids are hashed.
use crate::entity::Entity;
use crate::uid_hasher::UidHasher;
use cedar_value::Uid;
use std::hash::{BuildHasher, DefaultHasher, Hash, Hasher};

/// Makes the hashers of tables of uids. Their keys are a SipHash digest of all uids of the table. To pick uids that collide, a
/// person would have to know the digest of a list that has them all before picking them. The order of a table depends on its
/// insertions alone, and the same list has the same digest, so no answer and no order depends on it.
#[derive(Clone, Copy)]
pub struct UidHashing {
    begun: UidHasher,
}

impl UidHashing {
    /// The hashing for the uids of these entities and of their parents.
    pub(crate) fn new(entities: &[Entity]) -> Self {
        let mut digest = DefaultHasher::new();
        for entity in entities {
            entity.uid.hash(&mut digest);
            feed(&mut digest, &entity.parents);
        }
        UidHashing::by_digest(digest)
    }

    /// The hashing for these uids.
    pub(crate) fn of_uids(uids: &[&Uid]) -> Self {
        let mut digest = DefaultHasher::new();
        for uid in uids {
            uid.hash(&mut digest);
        }
        UidHashing::by_digest(digest)
    }

    /// The hashing for the uids that the digest was fed. Takes no memory.
    pub fn by_digest(mut digest: DefaultHasher) -> Self {
        let key = digest.finish();
        digest.write_u64(key);
        UidHashing {
            begun: UidHasher::new(key, digest.finish()),
        }
    }
}

fn feed(digest: &mut DefaultHasher, uids: &[Uid]) {
    for uid in uids {
        uid.hash(digest);
    }
}

impl BuildHasher for UidHashing {
    type Hasher = UidHasher;

    ghost build_hasher = { λ h. h.begun };

    fn build_hasher(&self) -> UidHasher {
        self.begun
    }
}
