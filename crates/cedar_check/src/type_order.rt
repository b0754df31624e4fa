//! An order of types, to find equal ones by search.
ghost use Rattle.std.specs.Prelude.{◌≡◌};
ghost use Rattle.std.specs.declared.cmp.Ordering.TheVariants.{Equal};
ghost use Rattle.cedar_schema_types.specs.TypeKind.{attributes_of};

use cedar_ext::ExtensionType;
use cedar_schema::{Attribute, Truth, Type, TypeKind};
use cedar_value::Name;
use std::cmp::Ordering;

/// The order of two types: first their kinds, and then what these hold.
#[cycle(order)]
pub(crate) fn order_types(left: &Type, right: &Type) -> Ordering
    ensures { result ≡ Equal → left.now ≡ right.now }
{
    match (left.kind(), right.kind()) {
        (TypeKind::Boolean(one), TypeKind::Boolean(two)) => order_truths(*one, *two),
        (TypeKind::Long, TypeKind::Long) => Ordering::Equal,
        (TypeKind::String, TypeKind::String) => Ordering::Equal,
        (TypeKind::Extension(one), TypeKind::Extension(two)) => order_extensions(*one, *two),
        (TypeKind::Entity(one), TypeKind::Entity(two)) => order_names(one, two),
        (TypeKind::Set(one), TypeKind::Set(two)) => order_types(one, two),
        (TypeKind::Record(one), TypeKind::Record(two)) => {
            order_attributes(one.attributes(), two.attributes())
        }
        (one, two) => unlike(kind_rank(one) < kind_rank(two)),
    }
}

// The order of two lists of attributes, the shorter before the longer.
#[cycle(order)]
fn order_attributes(left: &[Attribute], right: &[Attribute]) -> Ordering
    ensures { result ≡ Equal → attributes_of left.now ≡ attributes_of right.now }
{
    if left.len() != right.len() {
        return unlike(left.len() < right.len());
    }
    for place in 0..left.len() {
        match order_attribute(&left[place], &right[place]) {
            Ordering::Less => return Ordering::Less,
            Ordering::Greater => return Ordering::Greater,
            Ordering::Equal => {}
        }
    }
    Ordering::Equal
}

// The order of two attributes: first their names, then whether they are required, then their types.
#[cycle(order)]
fn order_attribute(left: &Attribute, right: &Attribute) -> Ordering
    ensures name { result ≡ Equal → left.now.name ≡ right.now.name }
    ensures required { result ≡ Equal → left.now.required ≡ right.now.required }
    ensures ty { result ≡ Equal → left.now.ty ≡ right.now.ty }
{
    if left.name != right.name {
        return unlike(left.name < right.name);
    }
    if left.required != right.required {
        return unlike(right.required);
    }
    order_types(&left.ty, &right.ty)
}

/// The order of two names.
pub(crate) fn order_names(left: &Name, right: &Name) -> Ordering
    ensures { result ≡ Equal → left.now ≡ right.now }
{
    if left == right {
        return Ordering::Equal;
    }
    unlike(left < right)
}

fn order_truths(left: Truth, right: Truth) -> Ordering
    ensures { result ≡ Equal → left ≡ right }
{
    if left == right {
        return Ordering::Equal;
    }
    unlike(truth_rank(left) < truth_rank(right))
}

fn order_extensions(left: ExtensionType, right: ExtensionType) -> Ordering
    ensures { result ≡ Equal → left ≡ right }
{
    if left.same(right) {
        return Ordering::Equal;
    }
    unlike(left.rank() < right.rank())
}

// The order of two that are not equal.
fn unlike(is_less: bool) -> Ordering
    ensures { ¬ (result ≡ Equal) }
{
    if is_less {
        Ordering::Less
    } else {
        Ordering::Greater
    }
}

fn truth_rank(truth: Truth) -> u8 {
    match truth {
        Truth::True => 0,
        Truth::False => 1,
        Truth::Any => 2,
    }
}

fn kind_rank(kind: &TypeKind) -> u8 {
    match kind {
        TypeKind::Boolean(_) => 0,
        TypeKind::Long => 1,
        TypeKind::String => 2,
        TypeKind::Entity(_) => 3,
        TypeKind::Set(_) => 4,
        TypeKind::Record(_) => 5,
        TypeKind::Extension(_) => 6,
    }
}
