//! Whether both stores of a version answer each question alike.
use crate::versions::Version;
use cedar_store::{Hierarchy, Store};
use cedar_value::{Record, Uid, ValueSet};
use std::alloc::{AllocError, Global};
use std::process::Abort;

/// How many of the uids found are this one.
fn count_of(found: &[&Uid], uid: &Uid) -> usize {
    found.iter().filter(|it| **it == uid).count()
}

fn are_attributes_alike(store: Option<&Record>, plain: Option<&Record>) -> bool {
    match (store, plain) {
        (Some(store), Some(plain)) => store == plain,
        (None, None) => true,
        _ => false,
    }
}

/// What an entity is below, according to the store.
fn ancestors<'s>(alloc: Global, store: &'s Store, low: &Uid) -> Result<Vec<&'s Uid>, AllocError> {
    let mut found = Vec::new(alloc);
    match store.ancestors(low, &mut found) {
        Ok(()) => Ok(found),
        Err(AllocError) => {
            drop(found);
            Err(AllocError)
        }
    }
}

/// Fails with the id of the uid of which both stores do not answer alike, if there is one.
pub fn assert_none(rt: &impl Abort, differing: Option<&Uid>) {
    if let Some(uid) = differing {
        assert!(rt; false, "{}", uid.id.as_str());
    }
}

impl Version {
    /// The first of the low uids of which both stores do not answer alike, or none. They are asked what it is below, among the high
    /// ones, and whether it is below one of the set.
    ///
    /// # Errors
    ///
    /// Fails only when out of memory.
    pub fn differing<'u>(
        &self,
        alloc: Global,
        lows: &'u [Uid],
        highs: &[Uid],
        set: &ValueSet,
    ) -> Result<Option<&'u Uid>, AllocError> {
        for low in lows {
            if !self.is_alike_at(alloc, low, highs, set)? {
                return Ok(Some(low));
            }
        }
        Ok(None)
    }

    /// Whether both stores answer alike of a uid: whether it is there, its attributes, what it is below, and whether it is below one of
    /// the set.
    fn is_alike_at(
        &self,
        alloc: Global,
        low: &Uid,
        highs: &[Uid],
        set: &ValueSet,
    ) -> Result<bool, AllocError> {
        let found = ancestors(alloc, &self.store, low)?;
        let is_alike = self.is_entity_alike(low, set) && self.are_above(low, highs, &found);
        drop(found);
        Ok(is_alike)
    }

    fn is_entity_alike(&self, low: &Uid, set: &ValueSet) -> bool {
        let (store, plain) = (&self.store, &self.plain);
        store.has(low) == plain.has(low)
            && are_attributes_alike(store.attributes(low), plain.attributes(low))
            && store.is_below_any(low, set) == plain.is_below_any(low, set)
    }

    /// Whether both stores agree on what an entity is below, and each of it was found once.
    fn are_above(&self, low: &Uid, highs: &[Uid], found: &[&Uid]) -> bool {
        let mut count = 0usize;
        for high in highs {
            let is_below = self.plain.is_below(low, high);
            if self.store.is_below(low, high) != is_below
                || count_of(found, high) != is_below as usize
            {
                return false;
            }
            count = count.wrapping_add(is_below as usize);
        }
        found.len() == count
    }
}
