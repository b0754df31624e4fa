//! Records of values.
ghost use Rattle.std.specs.Prelude.{◌≡◌, ◌↔◌, [], IfOk, IfSome, IsSome, IsTrue, option_copied};
ghost use Rattle.std.specs.Slice.Iter.{iter_rest};
ghost use Rattle.cedar_value.specs.Order.{AreKeysAscending};
ghost use Rattle.cedar_value.specs.Records.{value_at, AreKeysDistinct, SamePairs, record_from};
ghost use Rattle.cedar_value.specs.Datum.{fields_of, same_as_records};
ghost use Rattle.cedar_value.specs.Values.{HoldValues};

use crate::order::order_pairs;
use crate::shared_text::SharedText;
use crate::value::Value;
use std::alloc::{AllocError, Global};
use std::cmp::Ordering;
use std::marker::Model;
use std::slice;

// In a record of so few pairs a key is compared with each key for equality, which takes less than comparisons of their order.
const FEW: usize = 8;

/// A record, which contracts see as the list of its keys with their values, ascending by the bytes of the keys. No key is
/// repeated.
#[cycle(value)]
#[derive(Drop)]
pub struct Record {
    pairs: Vec<(SharedText, Value)>,
}

impl Model for Record {
    ghost use Rattle.std.specs.Prelude.{List, ℕ};
    ghost use Rattle.std.specs.Coded.{coded_list, coded×, coded_ℕ};
    ghost use Rattle.cedar_value.specs.Datum.{Datum};
    ghost use Rattle.cedar_value.specs.Private.DatumCode.{datum_code};

    ghost Value = { List (List ℕ × Datum) };

    ghost coded = { coded_list (coded× (coded_list coded_ℕ) datum_code) };

    ghost use Rattle.cedar_value.specs.Datum.{fields_of};
    ghost use Rattle.cedar_value.specs.Order.{AreKeysAscending};
    ghost use Rattle.cedar_value.specs.Private.Weight.{weight, pairs_weight};
    ghost use Rattle.cedar_value.specs.Values.{HoldValues};

    ghost view = { λ r. r.pairs.items };

    ghost invariant = { λ r. AreKeysAscending r.pairs.items × HoldValues (fields_of r.pairs.items) };

    ghost size = { pairs_weight };

    ghost use Rattle.std.specs.Prelude.{◌+◌, max};
    ghost use Rattle.std.proofs.Common.{arith};
    ghost use Rattle.cedar_value.specs.Private.Falls.{most_fields};

    ghost size_decreases = { λ r _. omega (arith, most_fields (λ f. max 0 (max (weight f.1 + 1) 0)) (λ f. omega arith) r.pairs.items) };
}

impl Record {
    /// The record without keys.
    pub fn new(alloc: Global) -> Self
        ensures { result ≡ [] }
    {
        Record {
            pairs: Vec::new(alloc),
        }
    }

    /// The record of these pairs, in whatever order they come. None where a key is repeated (Cedar language reference,
    /// records).
    pub fn from_pairs(mut pairs: Vec<(SharedText, Value)>) -> Result<Option<Self>, AllocError>
        ensures distinct { IfOk result (λ o. IsSome o ↔ AreKeysDistinct pairs.items) }
        ensures pairs { IfOk result (λ o. IfSome o (λ r. SamePairs r pairs.items)) }
        ensures ascending { IfOk result (λ o. IfSome o AreKeysAscending) }
        ensures gives { IfOk result (λ o. IfSome o (λ r. r ≡ record_from pairs.items)) }
    {
        // Each pair holds a value.
        hold_values(&pairs);
        pairs.sort()?;
        if keys_ascend(&pairs) {
            Ok(Some(Record { pairs }))
        } else {
            Ok(None)
        }
    }

    /// The record of pairs whose keys ascend already. Takes no memory, and no comparison.
    pub fn from_ascending(pairs: Vec<(SharedText, Value)>) -> Self
        requires { AreKeysAscending pairs.items }
        ensures { result ≡ pairs.items }
    {
        // Each pair of an ordered list holds a value.
        hold_values(&pairs);
        Record { pairs }
    }

    /// The value at a key. Takes no memory, and as many comparisons as the logarithm of the record's size.
    pub fn get(&self, key: &str) -> Option<&Value>
        ensures { option_copied result ≡ value_at key.now self.now }
    {
        if self.pairs.len() <= FEW {
            return value_among(&self.pairs, key);
        }
        match self.pairs.binary_search_by(|pair| pair.0.as_str().cmp(key)) {
            Ok(place) => Some(&self.pairs[place].1),
            Err(_) => None,
        }
    }

    /// The value at a key, taken out of the record. Takes no memory, and as many comparisons as `get`.
    pub fn into_value(mut self, key: &str) -> Option<Value>
        ensures { result ≡ value_at key.now self }
    {
        match self.pairs.binary_search_by(|pair| pair.0.as_str().cmp(key)) {
            Ok(place) => Some(self.pairs.swap_remove(place).1),
            Err(_) => None,
        }
    }

    /// The keys with their values, ascending by the keys. Takes no memory.
    pub fn iter(&self) -> slice::Iter<'_, (SharedText, Value)>
        ensures pairs { iter_rest result ≡ self.now }
        ensures ascending { AreKeysAscending self.now }
    {
        self.pairs.iter()
    }

    /// The keys with their values, ascending by the keys, as a slice. Takes no memory.
    pub fn pairs(&self) -> &[(SharedText, Value)]
        ensures pairs { result.now ≡ self.now }
        ensures ascending { AreKeysAscending self.now }
    {
        &self.pairs
    }

    /// Keys ascend, and hold values, at every depth (Cedar language reference, records). A law: it runs no code.
    pub fn well_formedness(&self)
        ensures ascending { AreKeysAscending self.now }
        ensures values { HoldValues (fields_of self.now) }
    {
        let _pairs = &self.pairs;
    }

    /// A copy, equal to the original.
    #[cycle(copy)]
    pub fn try_clone(&self, alloc: Global) -> Result<Self, AllocError>
        ensures { IfOk result (λ r. r ≡ self.now) }
    {
        Ok(Record {
            pairs: clone_pairs(alloc, &self.pairs)?,
        })
    }
}

// The value at a key, for which the keys are compared one after another.
fn value_among<'a>(pairs: &'a [(SharedText, Value)], key: &str) -> Option<&'a Value>
    ensures { option_copied result ≡ value_at key.now pairs.now }
{
    let mut left = pairs;
    'walk: while let Some((pair, others)) = left.split_first() {
        if pair.0.as_str() == key {
            return Some(&pair.1);
        }
        left = others;
    }
    None
}

// Each pair of a list holds a value. A law, whose loop only serves its proof.
fn hold_values(pairs: &[(SharedText, Value)])
    ensures { HoldValues (fields_of pairs.now) }
{
    let mut left = pairs;
    'walk: while let Some((pair, others)) = left.split_first() {
        pair.1.well_formedness();
        left = others;
    }
}

#[cycle(copy)]
fn clone_pairs(
    alloc: Global,
    pairs: &[(SharedText, Value)],
) -> Result<Vec<(SharedText, Value)>, AllocError>
    ensures { IfOk result (λ v. v.items ≡ pairs.now) }
{
    let mut copies = Vec::new(alloc);
    for pair in pairs {
        copies.push((pair.0.share()?, pair.1.try_clone(alloc)?))?;
    }
    Ok(copies)
}

// Whether the keys ascend strictly.
fn keys_ascend(pairs: &[(SharedText, Value)]) -> bool
    ensures { IsTrue result ↔ AreKeysAscending pairs.now }
{
    let Some((first, others)) = pairs.split_first() else {
        return true;
    };
    let mut last = first;
    let mut later = others;
    'walk: while let Some((pair, others)) = later.split_first() {
        if last.0 >= pair.0 {
            return false;
        }
        last = pair;
        later = others;
    }
    true
}

impl PartialEq for Record {
    ghost use Rattle.std.specs.Cmp.{partial_equiv_from_equiv};
    ghost use Rattle.cedar_value.specs.Private.Equality.{pairs_equivalence};
    ghost use Rattle.cedar_value.specs.Datum.{fields_of, same_as_records};
    ghost use Rattle.cedar_value.specs.Values.{HoldValues};

    ghost eq = { same_as_records };

    ghost laws = { partial_equiv_from_equiv pairs_equivalence };

    fn eq(&self, other: &Self) -> bool
        ensures gives { result ≡ same_as_records self.now other.now }
        ensures equal { IsTrue result ↔ (self.now ≡ other.now) }
    {
        self.cmp(other).is_eq()
    }
}

impl Eq for Record {
    ghost use Rattle.cedar_value.specs.Private.Equality.{pairs_equivalence};

    ghost laws = { pairs_equivalence };
}

impl PartialOrd for Record {
    ghost use Rattle.std.specs.Ordering.{as_partial_cmp};
    ghost use Rattle.cedar_value.specs.Order.{pairs_cmp};
    ghost use Rattle.cedar_value.specs.Private.Laws.{pairs_partial_order};

    ghost partial_cmp = { as_partial_cmp pairs_cmp };

    ghost laws = { pairs_partial_order };

    fn partial_cmp(&self, other: &Self) -> Option<Ordering> {
        Some(self.cmp(other))
    }
}

impl Ord for Record {
    ghost use Rattle.std.specs.Prelude.{refl};
    ghost use Rattle.cedar_value.specs.Order.{pairs_cmp};
    ghost use Rattle.cedar_value.specs.Private.Laws.{pairs_total};
    ghost use Rattle.cedar_value.specs.Private.Laws.{pairs_ties};

    ghost cmp = { pairs_cmp };

    ghost total = { pairs_total };

    ghost matches_partial_cmp = { λ x y. refl };

    ghost matches_eq = { pairs_ties };

    fn cmp(&self, other: &Self) -> Ordering {
        order_pairs(&self.pairs, &other.pairs)
    }
}
