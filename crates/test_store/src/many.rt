//! Many uids, which are changed in the order of their hashes, and in the reverse order.
use crate::choices::Entry;
use crate::entities::{set_of, uids_below};
use crate::questions::assert_none;
use crate::versions::{Version, change};
use cedar_store::{Store, StoreFault, UidHashing};
use cedar_value::Uid;
use std::alloc::{AllocError, Global};
use std::hash::{BuildHasher, DefaultHasher};
use std::process::Abort;
use std::test::Fail;

// In a search tree that nobody balances, so many changes in order would be one chain: 800,000,000 forks would be copied.
const MANY: u32 = 40000;

/// The bits of a hash, mixed as `cedar_store` mixes them. If they are mixed otherwise there, the order is any order here, and the
/// test shows less.
fn mixed(hash: u64) -> u64 {
    (hash ^ (hash >> 32)).wrapping_mul(0x9E37_79B9_7F4A_7C15)
}

fn hashes(alloc: Global, uids: &[Uid]) -> Result<Vec<(u64, u32)>, AllocError> {
    let hashing = UidHashing::by_digest(DefaultHasher::new());
    let mut hashes = Vec::new(alloc);
    for (number, uid) in (0..MANY).zip(uids.iter()) {
        hashes.push((mixed(mixed(hashing.hash_one(uid))), number))?;
    }
    Ok(hashes)
}

fn numbers_of(alloc: Global, hashes: &[(u64, u32)]) -> Result<Vec<u32>, AllocError> {
    let mut numbers = Vec::new(alloc);
    for hashed in hashes {
        numbers.push(hashed.1)?;
    }
    Ok(numbers)
}

/// The numbers of the uids, in the order of their hashes in a store whose base is empty.
fn by_hash(alloc: Global, uids: &[Uid]) -> Result<Vec<u32>, AllocError> {
    let mut hashes = hashes(alloc, uids)?;
    hashes.sort_unstable();
    let numbers = numbers_of(alloc, &hashes);
    drop(hashes);
    numbers
}

fn entry_of(number: u32) -> Entry {
    Entry {
        uid: number,
        parents: [None, None, None],
        attribute: Some(number),
    }
}

fn odd(alloc: Global, numbers: &[u32]) -> Result<Vec<Option<u32>>, AllocError> {
    let mut odd = Vec::new(alloc);
    for number in numbers {
        if *number & 1 == 1 {
            odd.push(Some(*number))?;
        }
    }
    Ok(odd)
}

fn even_entries(alloc: Global) -> Result<Vec<Entry>, AllocError> {
    let mut entries = Vec::new(alloc);
    for number in 0..MANY {
        if number & 1 == 0 {
            entries.push(entry_of(number))?;
        }
    }
    Ok(entries)
}

/// Upserts all numbers, one after another, and removes the odd ones.
fn change_all(
    alloc: Global,
    uids: &[Uid],
    numbers: &[u32],
    store: &mut Store,
) -> Result<(), StoreFault> {
    for number in numbers {
        change(alloc, uids, store, &[], &[entry_of(*number)])?;
    }
    let odd = odd(alloc, numbers)?;
    let removed = change(alloc, uids, store, &odd, &[]);
    drop(odd);
    removed
}

/// The store after all numbers were upserted, one after another, and the odd ones removed.
fn changed(alloc: Global, uids: &[Uid], numbers: &[u32]) -> Result<Store, StoreFault> {
    let mut store = Store::build(alloc, Vec::new(alloc))?;
    match change_all(alloc, uids, numbers, &mut store) {
        Ok(()) => Ok(store),
        Err(fault) => {
            drop(store);
            Err(fault)
        }
    }
}

/// The changed store beside a plain store of the even numbers.
fn version(alloc: Global, uids: &[Uid], numbers: &[u32]) -> Result<Version, StoreFault> {
    let entries = even_entries(alloc)?;
    match changed(alloc, uids, numbers) {
        Ok(store) => Version::of(alloc, uids, store, entries),
        Err(fault) => {
            drop(entries);
            Err(fault)
        }
    }
}

/// Both stores answer alike of each uid.
fn compare(
    rt: &impl Abort,
    alloc: Global,
    uids: &[Uid],
    numbers: &[u32],
) -> Result<(), StoreFault> {
    let version = version(alloc, uids, numbers)?;
    let differing = differing_from(alloc, uids, &version);
    drop(version);
    assert_none(rt, differing?);
    Ok(())
}

fn differing_from<'u>(
    alloc: Global,
    uids: &'u [Uid],
    version: &Version,
) -> Result<Option<&'u Uid>, AllocError> {
    let set = set_of(alloc, uids, &[])?;
    let differing = version.differing(alloc, uids, &[], &set);
    drop(set);
    differing
}

/// Both stores answer alike after changes in this order, and in the reverse order.
fn compare_both_ways(
    rt: &impl Abort,
    alloc: Global,
    uids: &[Uid],
    numbers: &mut Vec<u32>,
) -> Result<(), StoreFault> {
    compare(rt, alloc, uids, numbers)?;
    numbers.reverse();
    compare(rt, alloc, uids, numbers)
}

fn compare_by_hash(rt: &impl Abort, alloc: Global, uids: &[Uid]) -> Result<(), StoreFault> {
    let mut numbers = by_hash(alloc, uids)?;
    let compared = compare_both_ways(rt, alloc, uids, &mut numbers);
    drop(numbers);
    compared
}

#[test]
fn changes_in_the_order_of_hashes_are_as_in_a_plain_store(rt: HostRuntime) -> Result<(), Fail> {
    let alloc = rt.alloc();
    let uids = uids_below(alloc, MANY)?;
    let compared = compare_by_hash(&rt, alloc, &uids);
    drop(uids);
    compared?;
    Ok(())
}
