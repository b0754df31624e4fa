//! Random changes of a few entities. A uid is a number here, and so is the only attribute that an entity may have.
use rand_core::utils::NextWord;
use rand_pcg::Pcg32;
use std::alloc::{AllocError, Global};

/// How many uids there are.
pub const UIDS: u32 = 12;

/// An entity: its uid, those of its parents, of which some may be repeated, and its attribute, if it has one.
#[derive(Clone, Copy)]
pub struct Entry {
    pub uid: u32,
    pub parents: [Option<u32>; 3],
    pub attribute: Option<u32>,
}

/// A change: the uids that are removed, and what is upserted. A uid may be repeated in both.
#[derive(Clone, Copy)]
pub struct Change {
    pub removed: [Option<u32>; 2],
    pub upserted: [Option<Entry>; 2],
}

impl Change {
    /// Whether the change names the uid.
    fn names(&self, uid: u32) -> bool {
        for removed in self.removed.as_slice() {
            if *removed == Some(uid) {
                return true;
            }
        }
        for upserted in self.upserted.as_slice() {
            if upserted.map(|entry| entry.uid) == Some(uid) {
                return true;
            }
        }
        false
    }

    /// The entities after the change: those that it does not name, and then those that it upserts.
    pub fn applied(&self, alloc: Global, before: &[Entry]) -> Result<Vec<Entry>, AllocError> {
        let mut after = Vec::new(alloc);
        for entry in before {
            if !self.names(entry.uid) {
                after.push(*entry)?;
            }
        }
        for upserted in self.upserted.as_slice() {
            if let Some(entry) = upserted {
                after.push(*entry)?;
            }
        }
        Ok(after)
    }
}

/// Where choices come from.
#[derive(Drop)]
pub struct Choices {
    words: Pcg32,
}

impl Choices {
    /// The choices of a seed.
    pub fn new(seed: u64) -> Self {
        Choices {
            words: Pcg32::new(seed, 54),
        }
    }

    /// A number below a bound, which is not 0.
    pub fn below(&mut self, bound: u32) -> u32 {
        self.words.next_word().checked_rem(bound).unwrap_or(0)
    }

    /// Three times a uid or none.
    pub fn three_uids(&mut self) -> [Option<u32>; 3] {
        [self.uid_in(2), self.uid_in(2), self.uid_in(2)]
    }

    /// A change: it removes 0 to 2 uids, and upserts 0 to 2 entities with 0 to 3 parents each.
    pub fn change(&mut self) -> Change {
        Change {
            removed: [self.uid_in(4), self.uid_in(4)],
            upserted: [self.entry_in(2), self.entry_in(2)],
        }
    }

    /// A change of an attribute alone: it upserts one of the entities with the parents that it has. None where the choice is past
    /// the last entity.
    pub fn attribute_change(&mut self, entries: &[Entry]) -> Option<Change> {
        let place = self.below(UIDS) as usize;
        let attribute = self.uid_in(2);
        let entry = entries.get(place).copied()?;
        Some(Change {
            removed: [None, None],
            upserted: [Some(Entry { attribute, ..entry }), None],
        })
    }

    // A uid, once in so many times.
    fn uid_in(&mut self, times: u32) -> Option<u32> {
        let uid = self.below(UIDS);
        (self.below(times) == 0).then_some(uid)
    }

    // An entity, once in so many times.
    fn entry_in(&mut self, times: u32) -> Option<Entry> {
        let entry = Entry {
            uid: self.below(UIDS),
            parents: self.three_uids(),
            attribute: self.uid_in(2),
        };
        (self.below(times) == 0).then_some(entry)
    }
}
