//! Sets of values.
ghost use Rattle.std.specs.Prelude.{◌≡◌, ◌↔◌, [], IfOk, IsTrue, Contains, All, Any};
ghost use Rattle.std.specs.List.{list_all, list_any};
ghost use Rattle.std.specs.Slice.Iter.{iter_rest};
ghost use Rattle.cedar_value.specs.Order.{IsAscending};
ghost use Rattle.cedar_value.specs.Sets.{has_member, SameMembers, set_from};
ghost use Rattle.cedar_value.specs.Datum.{members_of, same_as_sets};
ghost use Rattle.cedar_value.specs.Values.{AreValues};
ghost use Rattle.cedar_value.specs.Glance.{datum_seen};

use crate::glance::Glance;
use crate::order::{order_glance, order_members};
use crate::value::Value;
use std::alloc::{AllocError, Global};
use std::cmp::Ordering;
use std::marker::Model;
use std::slice;

/// A set of values, which contracts see as the list of its members, ascending in the order of values.
#[cycle(value)]
#[derive(Drop)]
pub struct ValueSet {
    members: Vec<Value>,
}

impl Model for ValueSet {
    ghost use Rattle.std.specs.Prelude.{List};
    ghost use Rattle.std.specs.Coded.{coded_list};
    ghost use Rattle.cedar_value.specs.Datum.{Datum};
    ghost use Rattle.cedar_value.specs.Private.DatumCode.{datum_code};

    ghost Value = { List Datum };

    ghost coded = { coded_list datum_code };

    ghost use Rattle.cedar_value.specs.Datum.{members_of};
    ghost use Rattle.cedar_value.specs.Order.{IsAscending};
    ghost use Rattle.cedar_value.specs.Private.Weight.{list_weight};
    ghost use Rattle.cedar_value.specs.Values.{AreValues};

    ghost view = { λ s. s.members.items };

    ghost invariant = { λ s. IsAscending s.members.items × AreValues (members_of s.members.items) };

    ghost size = { list_weight };

    ghost use Rattle.std.proofs.Common.{arith};
    ghost use Rattle.cedar_value.specs.Private.Falls.{most_members};

    ghost size_decreases = { λ s _. omega (arith, most_members s.members.items) };
}

impl ValueSet {
    /// The set without members.
    pub fn new(alloc: Global) -> Self
        ensures { result ≡ [] }
    {
        ValueSet {
            members: Vec::new(alloc),
        }
    }

    /// The set of a list's members. Repeats and the order of the list make no difference
    /// (Cedar language reference, sets).
    pub fn from_list(mut list: Vec<Value>) -> Result<Self, AllocError>
        ensures members { IfOk result (λ s. SameMembers s list.items) }
        ensures ascending { IfOk result IsAscending }
        ensures gives { IfOk result (λ s. s ≡ set_from list.items) }
    {
        // Each element of the list is a value.
        are_values(&list);
        list.sort()?;
        list.dedup();
        Ok(ValueSet { members: list })
    }

    /// Whether the value is a member (Cedar language reference, `contains`). Takes no memory, and as many comparisons as the
    /// logarithm of the set's size.
    pub fn contains(&self, value: &Value) -> bool
        ensures member { IsTrue result ↔ Contains self.now value.now }
        ensures gives { result ≡ has_member self.now value.now }
    {
        self.members.binary_search(value).is_ok()
    }

    /// Whether what is looked at is a member, as `contains` says of a value. Takes no memory, and as many comparisons as the
    /// logarithm of the set's size.
    pub fn has(&self, value: Glance<'_>) -> bool
        ensures { result ≡ has_member self.now (datum_seen value.entry) }
    {
        self.members
            .binary_search_by(|member| order_glance(member, value))
            .is_ok()
    }

    /// Whether each member of the other set is a member (Cedar language reference, `containsAll`).
    /// Takes no memory, and as many comparisons as the two sets have members together, at most.
    pub fn contains_all(&self, other: &ValueSet) -> bool
        ensures subset { IsTrue result ↔ All (Contains self.now) other.now }
        ensures gives { result ≡ list_all (has_member self.now) other.now }
    {
        has_all(self.members(), other.members())
    }

    /// Whether some member of the other set is a member (Cedar language reference, `containsAny`).
    /// Takes no memory, and as many comparisons as the two sets have members together, at most.
    pub fn contains_any(&self, other: &ValueSet) -> bool
        ensures common { IsTrue result ↔ Any (Contains self.now) other.now }
        ensures gives { result ≡ list_any (has_member self.now) other.now }
    {
        has_any(self.members(), other.members())
    }

    /// The members, ascending. Takes no memory.
    pub fn iter(&self) -> slice::Iter<'_, Value>
        ensures members { iter_rest result ≡ self.now }
        ensures ascending { IsAscending self.now }
    {
        self.members.iter()
    }

    /// The members, ascending, as a slice. Takes no memory.
    pub fn members(&self) -> &[Value]
        ensures members { result.now ≡ self.now }
        ensures ascending { IsAscending self.now }
    {
        &self.members
    }

    /// Members ascend, and are values, at every depth (Cedar language reference, sets). A law: it runs no code.
    pub fn well_formedness(&self)
        ensures ascending { IsAscending self.now }
        ensures values { AreValues (members_of self.now) }
    {
        let _members = &self.members;
    }

    /// A copy, equal to the original.
    #[cycle(copy)]
    pub fn try_clone(&self, alloc: Global) -> Result<Self, AllocError>
        ensures { IfOk result (λ s. s ≡ self.now) }
    {
        Ok(ValueSet {
            members: clone_members(alloc, &self.members)?,
        })
    }
}

// Each element of a list is a value. A law, whose loop only serves its proof.
fn are_values(list: &[Value])
    ensures { AreValues (members_of list.now) }
{
    let mut left = list;
    'walk: while let Some((value, others)) = left.split_first() {
        value.well_formedness();
        left = others;
    }
}

#[cycle(copy)]
fn clone_members(alloc: Global, members: &[Value]) -> Result<Vec<Value>, AllocError>
    ensures { IfOk result (λ v. v.items ≡ members.now) }
{
    let mut copies = Vec::new(alloc);
    for member in members {
        copies.push(member.try_clone(alloc)?)?;
    }
    Ok(copies)
}

// Whether all the wanted are members, both walked side by side.
fn has_all(mut members: &[Value], mut wanted: &[Value]) -> bool
    requires members_ascend { IsAscending members.now }
    requires wanted_ascend { IsAscending wanted.now }
    ensures { result ≡ list_all (has_member members.entry.now) wanted.entry.now }
{
    'walk: while let Some((value, values)) = wanted.split_first() {
        let Some((member, others)) = members.split_first() else {
            return false;
        };
        match member.cmp(value) {
            Ordering::Less => members = others,
            Ordering::Equal => {
                members = others;
                wanted = values;
            }
            Ordering::Greater => return false,
        }
    }
    true
}

// Whether one of the wanted is a member, both walked side by side.
fn has_any(mut members: &[Value], mut wanted: &[Value]) -> bool
    requires members_ascend { IsAscending members.now }
    requires wanted_ascend { IsAscending wanted.now }
    ensures { result ≡ list_any (has_member members.entry.now) wanted.entry.now }
{
    'walk: while let Some((value, values)) = wanted.split_first() {
        let Some((member, others)) = members.split_first() else {
            return false;
        };
        match member.cmp(value) {
            Ordering::Less => members = others,
            Ordering::Equal => return true,
            Ordering::Greater => wanted = values,
        }
    }
    false
}

impl PartialEq for ValueSet {
    ghost use Rattle.std.specs.Cmp.{partial_equiv_from_equiv};
    ghost use Rattle.cedar_value.specs.Private.Equality.{members_equivalence};
    ghost use Rattle.cedar_value.specs.Datum.{members_of, same_as_sets};
    ghost use Rattle.cedar_value.specs.Values.{AreValues};

    ghost eq = { same_as_sets };

    ghost laws = { partial_equiv_from_equiv members_equivalence };

    fn eq(&self, other: &Self) -> bool
        ensures gives { result ≡ same_as_sets self.now other.now }
        ensures equal { IsTrue result ↔ (self.now ≡ other.now) }
    {
        self.cmp(other).is_eq()
    }
}

impl Eq for ValueSet {
    ghost use Rattle.cedar_value.specs.Private.Equality.{members_equivalence};

    ghost laws = { members_equivalence };
}

impl PartialOrd for ValueSet {
    ghost use Rattle.std.specs.Ordering.{as_partial_cmp};
    ghost use Rattle.cedar_value.specs.Order.{members_cmp};
    ghost use Rattle.cedar_value.specs.Private.Laws.{members_partial_order};

    ghost partial_cmp = { as_partial_cmp members_cmp };

    ghost laws = { members_partial_order };

    fn partial_cmp(&self, other: &Self) -> Option<Ordering> {
        Some(self.cmp(other))
    }
}

impl Ord for ValueSet {
    ghost use Rattle.std.specs.Prelude.{refl};
    ghost use Rattle.cedar_value.specs.Order.{members_cmp};
    ghost use Rattle.cedar_value.specs.Private.Laws.{members_total};
    ghost use Rattle.cedar_value.specs.Private.Laws.{members_ties};

    ghost cmp = { members_cmp };

    ghost total = { members_total };

    ghost matches_partial_cmp = { λ x y. refl };

    ghost matches_eq = { members_ties };

    fn cmp(&self, other: &Self) -> Ordering {
        order_members(&self.members, &other.members)
    }
}
