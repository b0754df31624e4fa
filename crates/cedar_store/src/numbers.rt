//! The numbers of the uids that have something below them.
ghost use Rattle.std.specs.Prelude.{◌≡◌, ◌<◌, Some, length, IfOk, OnOk};
ghost use Rattle.base_search.specs.Numbered.{AreNumbersOf};
ghost use Rattle.cedar_store.specs.Private.Kept.{KeepsNumbers, in_row, number_in};

use crate::uid_hashing::UidHashing;
use base_search::Row;
use cedar_value::Uid;
use indexmap::IndexSet;
use std::alloc::{AllocError, Global};

/// The uids that have a number, each at its number.
pub(crate) type Numbers = IndexSet<Uid, UidHashing>;

/// The numbers of these uids, in order. A uid without one is given the next.
pub(crate) fn number_all(
    alloc: Global,
    numbers: &mut Numbers,
    uids: &[Uid],
) -> Result<Vec<usize>, AllocError>
    ensures kept { OnOk result (KeepsNumbers numbers.old.keys numbers.new.keys) }
    ensures found { IfOk result (λ found. AreNumbersOf (number_in numbers.new.keys) uids.now found.items) }
{
    let mut found = Vec::with_capacity(alloc, uids.len())?;
    for uid in uids {
        found.push(number(alloc, numbers, uid)?)?;
    }
    Ok(found)
}

// The number of a uid. A uid without one is given the next.
fn number(alloc: Global, numbers: &mut Numbers, uid: &Uid) -> Result<usize, AllocError>
    ensures kept { OnOk result (KeepsNumbers numbers.old.keys numbers.new.keys) }
    ensures found { IfOk result (λ number. number_in numbers.new.keys uid.now ≡ Some number) }
{
    if let Some(number) = numbers.get_index_of(uid) {
        return Ok(number);
    }
    let next = numbers.len();
    numbers.insert(uid.try_clone(alloc)?)?;
    Ok(next)
}

/// The uid of a number.
pub(crate) fn uid_at(numbers: &Numbers, number: usize) -> &Uid
    requires { number < length numbers.now.keys }
    ensures { number_in numbers.now.keys result.now ≡ Some number }
{
    &numbers.as_slice()[number]
}

/// Whether the uid has a number, and the row that bit.
pub(crate) fn has_uid(numbers: &Numbers, row: &Row, uid: &Uid) -> bool
    ensures { result ≡ in_row numbers.now.keys row.now uid.now }
{
    match numbers.get_index_of(uid) {
        Some(number) => row.has(number),
        None => false,
    }
}
