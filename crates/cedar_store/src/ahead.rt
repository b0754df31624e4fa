//! What is ahead of some numbers: the numbers themselves, and those in their rows of bits.
//!
//! The numbers of an entity's parents are kept, and a row for each number. So what is ahead of them is above the entity.
ghost use Rattle.std.specs.Prelude.{◌≡◌, ◌||◌, ℕ, [], IfOk, IfSome, OnOk, IsTrue, false, get_or};
ghost use Rattle.std.specs.List.{list_any};
ghost use Rattle.base_bits.specs.Bits.{has_bit};
ghost use Rattle.cedar_value.specs.Datum.{same_uid};
ghost use Rattle.cedar_store.specs.Private.Kept.{has_ahead, has_datum, has_row, in_ahead, is_ahead_of as is_number_ahead_of, is_number_of};

use crate::marks::have_common;
use crate::numbers::Numbers;
use base_search::Row;
use cedar_value::{Uid, ValueKind, ValueSet};
use std::alloc::{AllocError, Global};

// How many near numbers there may be where the uid is compared with theirs.
const MOST_COMPARED: usize = 4;

// How many near numbers there may be where each question goes through them. Of more a row is made once for an entity that is asked often.
const MOST_WALKED: usize = 128;

/// Whether the uid has a number, and the number is ahead of some near ones. Where these are few, the uid is compared with theirs. It is
/// hashed only where that does not decide: where they are many, or there is something in their rows.
pub(crate) fn is_ahead(numbers: &Numbers, rows: &[Row], near: &[usize], uid: &Uid) -> bool
    ensures { result ≡ in_ahead numbers.now.keys rows.now near.now uid.now }
{
    if near.len() <= MOST_COMPARED {
        if is_near(numbers.as_slice(), near, uid) {
            return true;
        }
        if !has_rows(rows, near) {
            return false;
        }
    }
    is_number_found_ahead(numbers, rows, near, uid)
}

// Whether one of the near numbers is that of the uid.
fn is_near(uids: &[Uid], near: &[usize], uid: &Uid) -> bool
    ensures { result ≡ list_any (is_number_of uids.now uid.now) near.now }
{
    for at in near {
        if is_number_of(uids, uid, *at) {
            return true;
        }
    }
    false
}

// Whether the uid is the one of the number.
fn is_number_of(uids: &[Uid], uid: &Uid, number: usize) -> bool
    ensures { result ≡ is_number_of uids.now uid.now number }
{
    match uids.get(number) {
        Some(found) => uid == found,
        None => false,
    }
}

// Whether there is something in the row of one of the near numbers.
fn has_rows(rows: &[Row], near: &[usize]) -> bool
    ensures { result ≡ list_any (has_row rows.now) near.now }
{
    for at in near {
        if has_row(rows, *at) {
            return true;
        }
    }
    false
}

// Whether there is something in the row at a place.
fn has_row(rows: &[Row], place: usize) -> bool
    ensures { result ≡ has_row rows.now place }
{
    match rows.get(place) {
        Some(row) => !row.words().is_empty(),
        None => false,
    }
}

// The same as `is_ahead`, by the number of the uid, which is looked up.
fn is_number_found_ahead(numbers: &Numbers, rows: &[Row], near: &[usize], uid: &Uid) -> bool
    ensures { result ≡ in_ahead numbers.now.keys rows.now near.now uid.now }
{
    match numbers.get_index_of(uid) {
        Some(number) => is_number_ahead(rows, near, number),
        None => false,
    }
}

/// Whether some uid of a set of values has a number that is ahead of some near ones. Where these are few, the uid of each is compared
/// with the members. The members are hashed only where that does not decide.
pub(crate) fn is_any_ahead(
    numbers: &Numbers,
    rows: &[Row],
    near: &[usize],
    values: &ValueSet,
) -> bool
    ensures { result ≡ list_any (has_datum (in_ahead numbers.now.keys rows.now near.now)) values.now }
{
    if near.len() <= MOST_COMPARED {
        if is_any_near(numbers.as_slice(), near, values) {
            return true;
        }
        if !has_rows(rows, near) {
            return false;
        }
    }
    is_any_number_found_ahead(numbers, rows, near, values)
}

// Whether one of the near numbers is that of a member.
fn is_any_near(uids: &[Uid], near: &[usize], values: &ValueSet) -> bool
    ensures { result ≡ list_any (has_datum (λ u. list_any (is_number_of uids.now u) near.now)) values.now }
{
    for at in near {
        if has_uid_at(uids, *at, values) {
            return true;
        }
    }
    false
}

// Whether the uid of the number is a member.
fn has_uid_at(uids: &[Uid], number: usize, values: &ValueSet) -> bool
    ensures { result ≡ list_any (has_datum (λ u. is_number_of uids.now u number)) values.now }
{
    match uids.get(number) {
        Some(uid) => has_uid(values, uid),
        None => false,
    }
}

// Whether the uid is a member.
fn has_uid(values: &ValueSet, uid: &Uid) -> bool
    ensures { result ≡ list_any (has_datum (λ u. same_uid u uid.now)) values.now }
{
    for value in values.members() {
        if let ValueKind::Uid(member) = value.kind() {
            if **member == *uid {
                return true;
            }
        }
    }
    false
}

// The same as `is_any_ahead`, by the numbers of the members, which are looked up.
fn is_any_number_found_ahead(
    numbers: &Numbers,
    rows: &[Row],
    near: &[usize],
    values: &ValueSet,
) -> bool
    ensures { result ≡ list_any (has_datum (in_ahead numbers.now.keys rows.now near.now)) values.now }
{
    for value in values.members() {
        if let ValueKind::Uid(uid) = value.kind() {
            if is_number_found_ahead(numbers, rows, near, &**uid) {
                return true;
            }
        }
    }
    false
}

// Whether the number is one of the near ones, or the row of one of these has its bit.
fn is_number_ahead(rows: &[Row], near: &[usize], number: usize) -> bool
    ensures { result ≡ has_ahead rows.now near.now number }
{
    for at in near {
        if is_ahead_of(rows, *at, number) {
            return true;
        }
    }
    false
}

// Whether a number is the near one, or the row of the near one has its bit.
fn is_ahead_of(rows: &[Row], at: usize, number: usize) -> bool
    ensures { result ≡ is_number_ahead_of rows.now number at }
{
    at == number || has_bit_at(rows, at, number)
}

// Whether the row at a place has the bit of a number.
fn has_bit_at(rows: &[Row], place: usize, number: usize) -> bool
    ensures { result ≡ has_bit (get_or rows.now place []) number }
{
    match rows.get(place) {
        Some(row) => row.has(number),
        None => false,
    }
}

/// Whether a number that is ahead of some near ones is marked. Where it is not said to be, none is.
pub(crate) fn is_mark_ahead(rows: &[Row], near: &[usize], marks: &Row) -> bool
    ensures { result ≡ false → (m : ℕ) → IsTrue (has_ahead rows.now near.now m) → ¬ IsTrue (has_bit marks.now m) }
{
    for at in near {
        if is_mark_ahead_of(rows, *at, marks) {
            return true;
        }
    }
    false
}

/// Whether a near number is marked, or its row has a bit that is. Where it is not said to be, neither is so.
pub(crate) fn is_mark_ahead_of(rows: &[Row], at: usize, marks: &Row) -> bool
    ensures { result ≡ false → (m : ℕ) → IsTrue (is_number_ahead_of rows.now m at) → ¬ IsTrue (has_bit marks.now m) }
{
    marks.has(at) || is_marked_at(rows, at, marks)
}

// Whether the row at a place has a bit that is marked. Where it is not said to, it has none.
fn is_marked_at(rows: &[Row], place: usize, marks: &Row) -> bool
    ensures { result ≡ false → (m : ℕ) → ¬ (IsTrue (has_bit (get_or rows.now place []) m) × IsTrue (has_bit marks.now m)) }
{
    match rows.get(place) {
        Some(row) => have_common(row, marks),
        None => false,
    }
}

/// The numbers that are ahead of some near ones, as one row. Takes the memory of a row.
pub(crate) fn row_ahead(alloc: Global, rows: &[Row], near: &[usize]) -> Result<Row, AllocError>
    ensures { IfOk result (λ row. (m : ℕ) → has_bit row m ≡ has_ahead rows.now near.now m) }
{
    let mut ahead = Row::new(alloc);
    for at in near {
        ahead.insert(*at)?;
        join_at(&mut ahead, rows, *at)?;
    }
    Ok(ahead)
}

/// The numbers that are ahead of near ones, where these are many. None where they are few, or when out of memory.
pub(crate) fn row_of_many(alloc: Global, rows: &[Row], near: &[usize]) -> Option<Row>
    ensures { IfSome result (λ row. (m : ℕ) → has_bit row m ≡ has_ahead rows.now near.now m) }
{
    if near.len() <= MOST_WALKED {
        return None;
    }
    row_ahead(alloc, rows, near).ok()
}

// Sets each bit of the row at a place.
fn join_at(row: &mut Row, rows: &[Row], place: usize) -> Result<(), AllocError>
    ensures { OnOk result ((m : ℕ) → has_bit row.new m ≡ (has_bit row.old m || has_bit (get_or rows.now place []) m)) }
{
    match rows.get(place) {
        Some(other) => row.join(other),
        None => Ok(()),
    }
}
