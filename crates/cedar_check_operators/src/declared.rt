//! Look-ups in a schema for the rows of typing.
ghost use Rattle.std.specs.Prelude.{◌≡◌, ◌||◌, option_copied, option_map};
ghost use Rattle.cedar_schema_spec.specs.Declarations.{action_below, is_action, is_action_type, is_entity_type, type_below};
ghost use Rattle.cedar_schema_types.specs.Lookup.{attribute_at};
ghost use Rattle.cedar_check_spec.specs.Rows.{is_or_descends};
ghost use Rattle.cedar_check_spec.specs.Typing.{attributes_in};
ghost use Rattle.cedar_check_operators.specs.Private.View.{type_seen};

use crate::lent_type::TypeGlance;
use cedar_schema::{Attribute, Schema, TypeKind};
use cedar_value::{Name, Text, Uid};

/// Whether the action is declared. Takes no memory.
pub fn is_action(schema: &Schema, uid: &Uid) -> bool
    ensures { result ≡ is_action schema.now uid.now }
{
    schema.has_action(uid)
}

/// Whether the one type descends from the other.
pub(crate) fn type_below(schema: &Schema, low: &Name, high: &Name) -> bool
    ensures { result ≡ type_below schema.now low.now high.now }
{
    schema.type_descends(low, high)
}

// Whether the one action descends from the other.
fn action_below(schema: &Schema, low: &Uid, high: &Uid) -> bool
    ensures { result ≡ action_below schema.now low.now high.now }
{
    schema.action_descends(low, high)
}

/// Whether the one action is the other, or descends from it.
pub(crate) fn is_or_descends(schema: &Schema, low: &Uid, high: &Uid) -> bool
    ensures { result ≡ is_or_descends schema.now low.now high.now }
{
    low == high || action_below(schema, low, high)
}

/// What a type declares at a name. None where the type has no attributes, and `Some(None)` where it has none of this name.
pub(crate) fn declared<'t>(
    schema: &'t Schema,
    ty: TypeGlance<'t>,
    key: &Text,
) -> Option<Option<&'t Attribute>>
    ensures { option_map (λ found. option_copied found) result ≡ option_map (attribute_at key.now) (attributes_in schema.now (type_seen ty.entry)) }
{
    match ty {
        TypeGlance::Record(attributes) => Some(attributes.attribute(key.as_str())),
        TypeGlance::Entity(name) => match schema.attributes(name) {
            None => Some(None),
            Some(shape) => match shape.kind() {
                TypeKind::Record(attributes) => Some(attributes.attribute(key.as_str())),
                _ => None,
            },
        },
        _ => None,
    }
}

// Whether a declared action is of the type.
fn is_action_type(schema: &Schema, name: &Name) -> bool
    ensures { result ≡ is_action_type schema.now name.now }
{
    schema.has_action_type(name)
}

/// Whether the name is that of a declared entity type, or of the type of a declared action.
pub(crate) fn is_declared_type(schema: &Schema, name: &Name) -> bool
    ensures { result ≡ (is_entity_type schema.now name.now || is_action_type schema.now name.now) }
{
    schema.attributes(name).is_some() || is_action_type(schema, name)
}
