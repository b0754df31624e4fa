//! The numbers of what links lead to.
ghost use Rattle.std.specs.Prelude.{◌≡◌, IfOk, OnOk, Some};
ghost use Rattle.std.specs.BTreeMap.{get};
ghost use Rattle.base_search.specs.Numbered.{AreNumbersOf};
ghost use Rattle.cedar_schema.specs.Private.Kept.{AreApart, KeepsNumbers};

use base_reach::Key;
use std::alloc::{AllocError, Global};
use std::collections::BTreeMap;

/// The numbers of these keys, in order. A key without one is given the next.
pub(crate) fn number_all<K: Key>(
    alloc: Global,
    numbers: &mut BTreeMap<K, usize>,
    keys: &[K],
) -> Result<Vec<usize>, AllocError>
    requires { AreApart K.cmp numbers.old }
    ensures apart { OnOk result (AreApart K.cmp numbers.new) }
    ensures kept { OnOk result (KeepsNumbers K.cmp numbers.old numbers.new) }
    ensures found { IfOk result (λ found. AreNumbersOf (get K.cmp numbers.new) keys.now found.items) }
{
    let mut found = Vec::with_capacity(alloc, keys.len())?;
    for key in keys {
        found.push(number(alloc, numbers, key)?)?;
    }
    Ok(found)
}

// The number of a key. A key without one is given the next.
fn number<K: Key>(
    alloc: Global,
    numbers: &mut BTreeMap<K, usize>,
    key: &K,
) -> Result<usize, AllocError>
    requires { AreApart K.cmp numbers.old }
    ensures apart { OnOk result (AreApart K.cmp numbers.new) }
    ensures kept { OnOk result (KeepsNumbers K.cmp numbers.old numbers.new) }
    ensures found { IfOk result (λ number. get K.cmp numbers.new key.now ≡ Some number) }
{
    if let Some(number) = numbers.get(key).copied() {
        return Ok(number);
    }
    let next = numbers.len();
    numbers.insert(key.try_clone(alloc)?, next)?;
    Ok(next)
}
