//! Many uids that come and go. What a store keeps of changes is bounded by what there is.
use crate::choices::Entry;
use crate::entities::{chosen, entities, set_of, uids_below};
use crate::questions::assert_none;
use crate::versions::{Version, change};
use cedar_store::{Entity, Store, StoreFault};
use cedar_value::Uid;
use std::alloc::{AllocError, Global};
use std::process::Abort;
use std::test::Fail;

const MANY: u32 = 100000;

// So many uids are in what is read whole: the first is above all, and the odd ones are removed.
const READ: u32 = 16;

// So many of the others are there at a time.
const LIVING: u32 = 10;

// A store may keep two changes for each that is needed, and so many more.
const SPARE: usize = 126;

fn entry(number: u32, parent: Option<u32>) -> Entry {
    Entry {
        uid: number,
        parents: [parent, None, None],
        attribute: Some(number),
    }
}

// Whether the number is that of an entity that is read whole and then removed.
fn is_removed(number: u32) -> bool {
    number < READ && number & 1 == 1
}

/// The entries of what is read whole: all of them, or those that stay.
fn entries_read(alloc: Global, are_all: bool) -> Result<Vec<Entry>, AllocError> {
    let mut entries = Vec::new(alloc);
    for number in 0..READ {
        if are_all || !is_removed(number) {
            entries.push(entry(number, (number > 0).then_some(0)))?;
        }
    }
    Ok(entries)
}

fn odd(alloc: Global) -> Result<Vec<Option<u32>>, AllocError> {
    let mut odd = Vec::new(alloc);
    for number in 0..READ {
        if is_removed(number) {
            odd.push(Some(number))?;
        }
    }
    Ok(odd)
}

/// The store of what is read whole.
fn read(alloc: Global, uids: &[Uid]) -> Result<Store, StoreFault> {
    let entries = entries_read(alloc, true)?;
    let read = entities(alloc, uids, &entries);
    drop(entries);
    Store::build(alloc, read?)
}

/// Removes the odd ones of what is read whole.
fn remove_odd(alloc: Global, uids: &[Uid], store: &mut Store) -> Result<(), StoreFault> {
    let odd = odd(alloc)?;
    let removed = change(alloc, uids, store, &odd, &[]);
    drop(odd);
    removed
}

/// One more uid comes, and the one that came before the last few goes.
fn pass(alloc: Global, uids: &[Uid], store: &mut Store, number: u32) -> Result<(), StoreFault> {
    change(alloc, uids, store, &[], &[entry(number, Some(2))])?;
    let gone = number.checked_sub(LIVING).filter(|gone| *gone >= READ);
    change(alloc, uids, store, &[gone], &[])
}

/// All uids come and go. After each of them, the store keeps few changes.
fn pass_all(
    rt: &impl Abort,
    alloc: Global,
    uids: &[Uid],
    store: &mut Store,
) -> Result<(), StoreFault> {
    remove_odd(alloc, uids, store)?;
    let most = ((LIVING + 1 + READ / 2) as usize * 2).saturating_add(SPARE);
    for number in READ..MANY {
        pass(alloc, uids, store, number)?;
        let kept = store.kept_changes();
        assert!(rt; kept <= most, "{kept} changes are kept after {number}");
    }
    Ok(())
}

/// The store once all uids have come and gone but the last few.
fn passed(rt: &impl Abort, alloc: Global, uids: &[Uid]) -> Result<Store, StoreFault> {
    let mut store = read(alloc, uids)?;
    match pass_all(rt, alloc, uids, &mut store) {
        Ok(()) => Ok(store),
        Err(fault) => {
            drop(store);
            Err(fault)
        }
    }
}

/// Adds the entries of the uids that came last before a number.
fn push_living(entries: &mut Vec<Entry>, end: u32) -> Result<(), AllocError> {
    for number in end.saturating_sub(LIVING)..end {
        entries.push(entry(number, Some(2)))?;
    }
    Ok(())
}

/// The entries of what there is once the uids below the number have come.
fn entries_at(alloc: Global, end: u32) -> Result<Vec<Entry>, AllocError> {
    let mut entries = entries_read(alloc, false)?;
    match push_living(&mut entries, end) {
        Ok(()) => Ok(entries),
        Err(AllocError) => {
            drop(entries);
            Err(AllocError)
        }
    }
}

/// The store beside a plain one of what there is at the end.
fn version(rt: &impl Abort, alloc: Global, uids: &[Uid]) -> Result<Version, StoreFault> {
    let entries = entries_at(alloc, MANY)?;
    match passed(rt, alloc, uids) {
        Ok(store) => Version::of(alloc, uids, store, entries),
        Err(fault) => {
            drop(entries);
            Err(fault)
        }
    }
}

fn differing_from<'u>(
    alloc: Global,
    uids: &'u [Uid],
    version: &Version,
) -> Result<Option<&'u Uid>, AllocError> {
    let above = chosen(alloc, uids, &[Some(0), Some(1), Some(2)])?;
    let differing = differing_below(alloc, uids, version, &above);
    drop(above);
    differing
}

fn differing_below<'u>(
    alloc: Global,
    uids: &'u [Uid],
    version: &Version,
    above: &[Uid],
) -> Result<Option<&'u Uid>, AllocError> {
    let set = set_of(alloc, uids, &[Some(1), Some(2)])?;
    let differing = version.differing(alloc, uids, above, &set);
    drop(set);
    differing
}

/// Both stores answer alike of each uid at the end.
fn compare(rt: &impl Abort, alloc: Global, uids: &[Uid]) -> Result<(), StoreFault> {
    let version = version(rt, alloc, uids)?;
    let differing = differing_from(alloc, uids, &version);
    drop(version);
    assert_none(rt, differing?);
    Ok(())
}

#[test]
fn uids_that_come_and_go_are_forgotten(rt: HostRuntime) -> Result<(), Fail> {
    let alloc = rt.alloc();
    let uids = uids_below(alloc, MANY)?;
    let compared = compare(&rt, alloc, &uids);
    drop(uids);
    compared?;
    Ok(())
}

/// How many changes a store keeps after the uids are removed in one call.
fn kept_without(alloc: Global, uids: &[Uid], store: &Store) -> Result<usize, StoreFault> {
    let after = store.with_changes(alloc, uids, Vec::new(alloc))?;
    let kept = after.kept_changes();
    drop(after);
    Ok(kept)
}

fn kept_of_nothing(alloc: Global, uids: &[Uid]) -> Result<usize, StoreFault> {
    let store = Store::build(alloc, Vec::new(alloc))?;
    let kept = kept_without(alloc, uids, &store);
    drop(store);
    kept
}

#[test]
fn removals_of_uids_that_never_were_keep_nothing(rt: HostRuntime) -> Result<(), Fail> {
    let alloc = rt.alloc();
    let uids = uids_below(alloc, MANY)?;
    let kept = kept_of_nothing(alloc, &uids);
    drop(uids);
    assert_eq!(rt; kept?, 0);
    Ok(())
}

fn lone_entries(alloc: Global) -> Result<Vec<Entry>, AllocError> {
    let mut entries = Vec::new(alloc);
    for number in 0..MANY {
        entries.push(entry(number, None))?;
    }
    Ok(entries)
}

/// A store without a base, into which all uids have come in one call.
fn filled(alloc: Global, uids: &[Uid]) -> Result<Store, StoreFault> {
    let entries = lone_entries(alloc)?;
    let come = entities(alloc, uids, &entries);
    drop(entries);
    filled_with(alloc, come?)
}

fn filled_with(alloc: Global, come: Vec<Entity>) -> Result<Store, StoreFault> {
    match Store::build(alloc, Vec::new(alloc)) {
        Ok(empty) => {
            let filled = empty.with_changes(alloc, &[], come);
            drop(empty);
            filled
        }
        Err(fault) => {
            drop(come);
            Err(fault)
        }
    }
}

/// How many changes a store keeps once all uids have come in one call, and once they have gone in another.
fn kept_of_all(alloc: Global, uids: &[Uid]) -> Result<(usize, usize), StoreFault> {
    let store = filled(alloc, uids)?;
    let come = store.kept_changes();
    let left = kept_without(alloc, uids, &store);
    drop(store);
    Ok((come, left?))
}

#[test]
fn many_uids_that_are_removed_at_once_are_forgotten(rt: HostRuntime) -> Result<(), Fail> {
    let alloc = rt.alloc();
    let uids = uids_below(alloc, MANY)?;
    let kept = kept_of_all(alloc, &uids);
    drop(uids);
    let (come, left) = kept?;
    assert_eq!(rt; come, MANY as usize);
    assert_eq!(rt; left, 0);
    Ok(())
}
