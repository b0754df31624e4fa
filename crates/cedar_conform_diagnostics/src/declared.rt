//! What a schema declares that is nearest to a name that it does not declare.
use base_names::Nearest;
use base_places::Draft;
use cedar_schema::Schema;
use cedar_schema_types::{Type, TypeKind};
use cedar_value::{Name, Uid};
use std::alloc::{AllocError, Global};
use std::collections::BTreeSet;

// The namespace of a name, which may be empty, and its last part.
fn parts_of(name: &str) -> (&str, &str) {
    match name.rsplit_once("::") {
        Some((namespace, last)) => (namespace, last),
        None => ("", name),
    }
}

// The type of entities in a type: its own, or that of its members.
fn entity_in(ty: &Type) -> Option<&Name> {
    match ty.kind() {
        TypeKind::Entity(name) => Some(name),
        TypeKind::Set(member) => match member.kind() {
            TypeKind::Entity(name) => Some(name),
            _ => None,
        },
        _ => None,
    }
}

// Adds the entity types of the attributes of an entity type.
fn add_of_shape(
    alloc: Global,
    schema: &Schema,
    known: &mut BTreeSet<Name>,
    name: &Name,
) -> Result<(), AllocError> {
    let Some(shape) = schema.attributes(name) else {
        return Ok(());
    };
    if let TypeKind::Record(record_type) = shape.kind() {
        for attribute in record_type.attributes() {
            if let Some(other) = entity_in(&attribute.ty) {
                if schema.entity_type(other).is_some() {
                    known.insert(other.try_clone(alloc)?)?;
                }
            }
        }
    }
    Ok(())
}

// Adds entity types, and those of their attributes.
fn add_types(
    alloc: Global,
    schema: &Schema,
    known: &mut BTreeSet<Name>,
    names: &BTreeSet<Name>,
) -> Result<(), AllocError> {
    for name in names.iter() {
        known.insert(name.try_clone(alloc)?)?;
        add_of_shape(alloc, schema, known, name)?;
    }
    Ok(())
}

/// The entity types to which the actions of a schema apply, and those of their attributes. A schema does not list its entity types.
pub(crate) fn known_types(alloc: Global, schema: &Schema) -> Result<BTreeSet<Name>, AllocError> {
    let mut known = BTreeSet::new(alloc);
    for (_, action) in schema.actions() {
        add_types(alloc, schema, &mut known, action.principals())?;
        add_types(alloc, schema, &mut known, action.resources())?;
    }
    Ok(known)
}

// The name whose last part is the nearest. Of two that are equally near, it is the one in the same namespace.
fn nearest_of<'n>(wanted: &str, names: &'n BTreeSet<Name>) -> Option<&'n Name> {
    let (namespace, last) = parts_of(wanted);
    let nearest = nearest_in(Nearest::new(last), names, namespace, true);
    nearest_in(nearest, names, namespace, false).name()
}

// The search with the last parts of the names that are in a namespace, or of those that are not.
fn nearest_in<'w, 'n>(
    before: Nearest<'w, &'n Name>,
    names: &'n BTreeSet<Name>,
    namespace: &str,
    is_in: bool,
) -> Nearest<'w, &'n Name> {
    let mut nearest = before;
    for name in names.iter() {
        let (other, word) = parts_of(name.as_str());
        if (other == namespace) == is_in {
            nearest = nearest.compare(word, name);
        }
    }
    nearest
}

// The name of a last part in a namespace.
fn name_in(alloc: Global, namespace: &str, last: &str) -> Result<String, AllocError> {
    let mut text = Draft::new(alloc);
    if !namespace.is_empty() {
        text.add_all(&[namespace, "::"]);
    }
    text.add(last);
    text.done()
}

fn is_entity_type(alloc: Global, schema: &Schema, text: &str) -> Result<bool, AllocError> {
    match Name::read(alloc, text)? {
        Some(name) => {
            let declared = schema.entity_type(&name).is_some();
            drop(name);
            Ok(declared)
        }
        None => Ok(false),
    }
}

// The entity type of the same last part in the namespace of an action, if there is one.
fn type_in_namespace(
    alloc: Global,
    schema: &Schema,
    wanted: &str,
) -> Result<Option<String>, AllocError> {
    let (_, last) = parts_of(wanted);
    for (uid, _) in schema.actions() {
        let (namespace, _) = parts_of(uid.ty.as_str());
        let text = name_in(alloc, namespace, last)?;
        if is_entity_type(alloc, schema, text.as_str())? {
            return Ok(Some(text));
        }
    }
    Ok(None)
}

/// The declared entity type that is likely meant by an undeclared name: the same last part in another namespace, or a last part that
/// differs in one or two letters. It is looked for among the types to which actions apply, those of their attributes, and the
/// namespaces of the actions.
pub(crate) fn meant_type(
    alloc: Global,
    schema: &Schema,
    wanted: &str,
) -> Result<Option<String>, AllocError> {
    let known = known_types(alloc, schema)?;
    match nearest_of(wanted, &known) {
        Some(name) => Ok(Some(String::from_str(alloc, name.as_str())?)),
        None => type_in_namespace(alloc, schema, wanted),
    }
}

/// The declared action that is likely meant by an undeclared one: the one with the nearest id. Of two that are equally near, it is the one
/// with the same type.
pub(crate) fn meant_action<'s>(schema: &'s Schema, wanted: &Uid) -> Option<&'s Uid> {
    let nearest = nearest_action(Nearest::new(wanted.id.as_str()), schema, &wanted.ty, true);
    nearest_action(nearest, schema, &wanted.ty, false).name()
}

// The search with the ids of the actions that have a type, or of those that have another.
fn nearest_action<'w, 's>(
    before: Nearest<'w, &'s Uid>,
    schema: &'s Schema,
    ty: &Name,
    is_of: bool,
) -> Nearest<'w, &'s Uid> {
    let mut nearest = before;
    for (uid, _) in schema.actions() {
        if (uid.ty == *ty) == is_of {
            nearest = nearest.compare(uid.id.as_str(), uid);
        }
    }
    nearest
}
