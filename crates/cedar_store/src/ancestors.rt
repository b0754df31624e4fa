//! The uids of a row's bits.
ghost use Rattle.std.specs.Prelude.{◌≡◌, OnErr, OnOk};
ghost use Rattle.cedar_store.specs.Private.Gained.{AddsMembers};

use crate::numbers::Numbers;
use base_bits::next_bit;
use base_search::Row;
use cedar_value::Uid;
use std::alloc::AllocError;

/// Appends each uid whose number's bit the row has, in the order of the numbers. It takes memory only where the list has to
/// grow. When out of memory, the list is as it was.
pub(crate) fn push_members<'s>(
    numbers: &'s Numbers,
    row: &Row,
    found: &mut Vec<&'s Uid>,
) -> Result<(), AllocError>
    ensures adds { OnOk result (AddsMembers numbers.now.keys row.now found.old.items found.new.items) }
    ensures refused { OnErr result (found.new.items ≡ found.old.items) }
{
    let begun = found.len();
    let uids = numbers.as_slice();
    let mut next = 0;
    'members: while let Some(number) = next_bit(row.words(), next) {
        let Some(uid) = uids.get(number) else {
            return Ok(());
        };
        if found.push(uid).is_err() {
            found.truncate(begun);
            return Err(AllocError);
        }
        next = number + 1;
    }
    Ok(())
}
