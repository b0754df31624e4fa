//! Whether types join.
ghost use Rattle.std.specs.Prelude.{◌≡◌, ◌&&◌, bytes_eq, is_some};
ghost use Rattle.cedar_schema_types.specs.Joining.{join, join_attributes, same_bool};
ghost use Rattle.cedar_schema_types.specs.TypeKind.{attributes_of};
ghost use Rattle.cedar_check_operators.specs.Private.View.{type_seen};

use crate::lent_type::{TypeGlance, glance_at};
use cedar_schema::Attribute;

// Whether two attributes have one name and one requiredness, and types that join.
#[cycle(joins)]
fn attributes_join(one: &Attribute, two: &Attribute) -> bool
    ensures { result ≡ ((bytes_eq one.now.name two.now.name && same_bool one.now.required two.now.required) && is_some (join one.now.ty two.now.ty)) }
{
    one.name == two.name
        && one.required == two.required
        && types_join(glance_at(&one.ty), glance_at(&two.ty))
}

// Whether the types of two records join, attribute by attribute.
#[cycle(joins)]
fn records_join(one: &[Attribute], two: &[Attribute]) -> bool
    ensures { result ≡ is_some (join_attributes (attributes_of one.now) (attributes_of two.now)) }
{
    if one.len() != two.len() {
        return false;
    }
    for i in 0..one.len() {
        if !attributes_join(&one[i], &two[i]) {
            return false;
        }
    }
    true
}

/// Whether two types join (Cedar documentation, strict validation).
#[cycle(joins)]
pub(crate) fn types_join(one: TypeGlance<'_>, two: TypeGlance<'_>) -> bool
    ensures { result ≡ is_some (join (type_seen one.entry) (type_seen two.entry)) }
{
    match one {
        TypeGlance::Boolean(_) => match two {
            TypeGlance::Boolean(_) => true,
            _ => false,
        },
        TypeGlance::Long => match two {
            TypeGlance::Long => true,
            _ => false,
        },
        TypeGlance::String => match two {
            TypeGlance::String => true,
            _ => false,
        },
        TypeGlance::Extension(left) => match two {
            TypeGlance::Extension(right) => left.same(right),
            _ => false,
        },
        TypeGlance::Entity(left) => match two {
            TypeGlance::Entity(right) => left == right,
            _ => false,
        },
        TypeGlance::Set(left) => match two {
            TypeGlance::Set(right) => types_join(glance_at(left), glance_at(right)),
            _ => false,
        },
        TypeGlance::Record(left) => match two {
            TypeGlance::Record(right) => records_join(left.attributes(), right.attributes()),
            _ => false,
        },
    }
}
