//! Both stores of the same entities.
use crate::choices::{Change, Entry};
use crate::entities::{chosen, entities};
use cedar_store::{PlainStore, Store, StoreFault};
use cedar_value::Uid;
use std::alloc::{AllocError, Global};
use std::process::Abort;

/// The entities at a time, and both stores of them.
#[derive(Drop)]
pub struct Version {
    pub entries: Vec<Entry>,
    pub store: Store,
    pub plain: PlainStore,
}

/// The store without the uids that are removed, and with the entities that are upserted.
pub fn store_after(
    alloc: Global,
    uids: &[Uid],
    before: &Store,
    removed: &[Option<u32>],
    upserted: &[Entry],
) -> Result<Store, StoreFault> {
    let upserted = entities(alloc, uids, upserted)?;
    match chosen(alloc, uids, removed) {
        Ok(removed) => {
            let after = before.with_changes(alloc, &removed, upserted);
            drop(removed);
            after
        }
        Err(AllocError) => {
            drop(upserted);
            Err(StoreFault::OutOfMemory)
        }
    }
}

/// Changes a store, as `store_after` does.
pub fn change(
    alloc: Global,
    uids: &[Uid],
    store: &mut Store,
    removed: &[Option<u32>],
    upserted: &[Entry],
) -> Result<(), StoreFault> {
    let after = store_after(alloc, uids, store, removed, upserted)?;
    *store = after;
    Ok(())
}

fn plain_store(alloc: Global, uids: &[Uid], entries: &[Entry]) -> Result<PlainStore, StoreFault> {
    let entities = entities(alloc, uids, entries)?;
    PlainStore::build(alloc, entities)
}

/// The number with which a plain store refuses entities, or 0.
fn refusal_of(alloc: Global, uids: &[Uid], entries: &[Entry]) -> u16 {
    match plain_store(alloc, uids, entries) {
        Ok(plain) => {
            drop(plain);
            0
        }
        Err(fault) => number_of(fault),
    }
}

fn number_of(fault: StoreFault) -> u16 {
    let number = fault.number();
    drop(fault);
    number
}

impl Version {
    /// The version without entities.
    pub fn new(alloc: Global) -> Result<Self, StoreFault> {
        let store = Store::build(alloc, Vec::new(alloc))?;
        Version::of(alloc, &[], store, Vec::new(alloc))
    }

    /// A store beside a plain store of the entities that it should have.
    pub fn of(
        alloc: Global,
        uids: &[Uid],
        store: Store,
        entries: Vec<Entry>,
    ) -> Result<Self, StoreFault> {
        match plain_store(alloc, uids, &entries) {
            Ok(plain) => Ok(Version {
                entries,
                store,
                plain,
            }),
            Err(fault) => {
                drop(store);
                drop(entries);
                Err(fault)
            }
        }
    }

    /// The version after a change: the store is changed, and the plain one is built anew. Both are refused with one number, which is
    /// the error.
    pub fn changed(
        &self,
        rt: &impl Abort,
        alloc: Global,
        uids: &[Uid],
        change: &Change,
    ) -> Result<Version, u16> {
        match change.applied(alloc, &self.entries) {
            Ok(entries) => self.changed_to(rt, alloc, uids, change, entries),
            Err(AllocError) => Err(1),
        }
    }

    fn changed_to(
        &self,
        rt: &impl Abort,
        alloc: Global,
        uids: &[Uid],
        change: &Change,
        entries: Vec<Entry>,
    ) -> Result<Version, u16> {
        match self.changed_store(alloc, uids, change) {
            Ok(store) => accepted(rt, Version::of(alloc, uids, store, entries)),
            Err(fault) => {
                let number = number_of(fault);
                let of_plain = refusal_of(alloc, uids, &entries);
                drop(entries);
                assert_eq!(rt; number, of_plain);
                Err(number)
            }
        }
    }

    fn changed_store(
        &self,
        alloc: Global,
        uids: &[Uid],
        change: &Change,
    ) -> Result<Store, StoreFault> {
        let upserted = change.applied(alloc, &[])?;
        let store = store_after(alloc, uids, &self.store, &change.removed, &upserted);
        drop(upserted);
        store
    }

    /// Builds the store anew of the entities that are there.
    pub fn rebuild(&mut self, alloc: Global, uids: &[Uid]) -> Result<(), StoreFault> {
        let entities = entities(alloc, uids, &self.entries)?;
        let store = Store::build(alloc, entities)?;
        self.store = store;
        Ok(())
    }
}

/// The version whose store was not refused. The plain one is not refused either.
fn accepted(rt: &impl Abort, made: Result<Version, StoreFault>) -> Result<Version, u16> {
    match made {
        Ok(version) => Ok(version),
        Err(fault) => {
            let number = number_of(fault);
            assert_eq!(rt; 0, number);
            Err(number)
        }
    }
}
