//! The order of values, part by part. It takes no memory.
ghost use Rattle.std.specs.Prelude.{◌≡◌};
ghost use Rattle.std.specs.Cmp.Lexicographic.{slice_cmp};
ghost use Rattle.cedar_value.specs.Order.{datum_cmp, pair_cmp};
ghost use Rattle.cedar_value.specs.Private.Compare.{kind_number};
ghost use Rattle.cedar_value.specs.Glance.{datum_seen};

use crate::glance::Glance;
use crate::shared_text::SharedText;
use crate::value::{Value, ValueKind};
use std::cmp::Ordering;

/// How a value compares with one that is looked at, in the order of values.
#[cycle(order)]
pub(crate) fn order_glance(left: &Value, right: Glance<'_>) -> Ordering
    ensures { result ≡ datum_cmp left.now (datum_seen right.entry) }
{
    match (left.kind(), &right) {
        (ValueKind::Boolean(one), Glance::Boolean(two)) => one.cmp(two),
        (ValueKind::Long(one), Glance::Long(two)) => one.cmp(two),
        (ValueKind::String(one), Glance::String(two)) => one.cmp(two),
        (ValueKind::Uid(one), Glance::Uid(two)) => one.as_ref().cmp(two),
        (ValueKind::Set(one), Glance::Set(two)) => order_members(one.members(), two.members()),
        (ValueKind::Record(one), Glance::Record(two)) => order_pairs(one.pairs(), two.pairs()),
        (ValueKind::Extension(one), Glance::Extension(two)) => one.order(two),
        _ => kind_number(left.glance()).cmp(&kind_number(right)),
    }
}

/// The order of two ascending lists of members. A beginning of the other list comes first.
#[cycle(order)]
pub(crate) fn order_members(left: &[Value], right: &[Value]) -> Ordering
    ensures { result ≡ slice_cmp datum_cmp left.now right.now }
{
    for (place, one) in left.iter().enumerate() {
        let Some(two) = right.get(place) else {
            return Ordering::Greater;
        };
        let found = order_glance(one, two.glance());
        if found != Ordering::Equal {
            return found;
        }
    }
    left.len().cmp(&right.len())
}

/// The order of two ascending lists of pairs. A beginning of the other list comes first.
#[cycle(order)]
pub(crate) fn order_pairs(left: &[(SharedText, Value)], right: &[(SharedText, Value)]) -> Ordering
    ensures { result ≡ slice_cmp pair_cmp left.now right.now }
{
    for (place, one) in left.iter().enumerate() {
        let Some(two) = right.get(place) else {
            return Ordering::Greater;
        };
        let found = order_pair(one, two);
        if found != Ordering::Equal {
            return found;
        }
    }
    left.len().cmp(&right.len())
}

/// The order of two pairs: first their keys, and then their values.
#[cycle(order)]
fn order_pair(left: &(SharedText, Value), right: &(SharedText, Value)) -> Ordering
    ensures { result ≡ pair_cmp left.now right.now }
{
    match left.0.cmp(&right.0) {
        Ordering::Equal => order_glance(&left.1, right.1.glance()),
        unequal => unequal,
    }
}

// The number of a value's kind in the order of kinds.
fn kind_number(value: Glance<'_>) -> u8
    ensures { result ≡ kind_number (datum_seen value.entry) }
{
    match value {
        Glance::Boolean(_) => 1,
        Glance::Long(_) => 2,
        Glance::String(_) => 3,
        Glance::Uid(_) => 4,
        Glance::Set(_) => 5,
        Glance::Record(_) => 6,
        Glance::Extension(_) => 7,
    }
}
