//! Lists that gain uids, each once.
ghost use Rattle.std.specs.Prelude.{◌≡◌, ◌≤◌, ◌↔◌, ◌-◌, ℕ, Contains, IsTrue, OnOk, drop, length, take};
ghost use Rattle.base_reach.specs.Private.Lent.{lent};
ghost use Rattle.cedar_store.specs.Private.Gathered.{Gathers, KeepsFirst};
ghost use Rattle.cedar_store.specs.Private.Kept.{in_row};

use crate::numbers::Numbers;
use base_bits::next_bit;
use base_search::Row;
use cedar_value::Uid;
use std::alloc::AllocError;

/// Appends the uid, unless the list has it from `begun` to `end`. It is not among those after `end`, unless it is there too.
pub(crate) fn gather<'s>(
    found: &mut Vec<&'s Uid>,
    begun: usize,
    end: usize,
    uid: &'s Uid,
) -> Result<(), AllocError>
    requires begun { begun ≤ end }
    requires end { end ≤ length found.old.items }
    requires apart { Contains (lent (drop begun found.old.items)) uid.now → Contains (lent (take (end - begun) (drop begun found.old.items))) uid.now }
    ensures kept { (n : ℕ) → n ≤ length found.old.items → KeepsFirst n found.old.items found.new.items }
    ensures gathers { OnOk result (Gathers begun found.old.items found.new.items (λ v. uid.now ≡ v)) }
{
    if !is_among(&found[begun..end], uid) {
        found.push(uid)?;
    }
    Ok(())
}

// Whether one of the uids is this one.
fn is_among(uids: &[&Uid], uid: &Uid) -> bool
    ensures { IsTrue result ↔ Contains (lent uids.now) uid.now }
{
    for known in uids {
        if *known == uid {
            return true;
        }
    }
    false
}

/// Appends each uid whose number's bit the row has, unless it is one of those that were appended since the list had the length
/// `begun`. It compares each with those that were appended before this call.
pub(crate) fn gather_members<'s>(
    numbers: &'s Numbers,
    row: &Row,
    found: &mut Vec<&'s Uid>,
    begun: usize,
) -> Result<(), AllocError>
    requires { begun ≤ length found.old.items }
    ensures kept { KeepsFirst begun found.old.items found.new.items }
    ensures gathers { OnOk result (Gathers begun found.old.items found.new.items (λ v. IsTrue (in_row numbers.now.keys row.now v))) }
{
    let end = found.len();
    let uids = numbers.as_slice();
    let mut next = 0;
    'members: while let Some(number) = next_bit(row.words(), next) {
        let Some(uid) = uids.get(number) else {
            return Ok(());
        };
        gather(found, begun, end, uid)?;
        next = number + 1;
    }
    Ok(())
}
