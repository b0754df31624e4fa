//! Types in words.
use base_places::Draft;
use cedar_check_operators::LentType;
use cedar_ext::ExtensionType;
use cedar_schema::{Type, TypeKind};
use cedar_value::Name;

// How deep the types of sets of sets are named.
const MOST_NESTED: usize = 4;

// The type of a set's members.
fn member_of(ty: &Type) -> Option<&Type> {
    match ty.kind() {
        TypeKind::Set(member) => Some(member),
        _ => None,
    }
}

// Adds words, and a name between backquotes.
fn add_named(says: &mut Draft, words: &str, name: &Name) {
    says.add_all(&[words, "`", name.as_str(), "`"]);
}

// Adds several values of a type in words, for example `Longs`.
fn add_many(says: &mut Draft, ty: &Type) {
    let mut inner = ty;
    for _ in 0..MOST_NESTED {
        let Some(member) = member_of(inner) else {
            break;
        };
        says.add("sets of ");
        inner = member;
    }
    match inner.kind() {
        TypeKind::Entity(name) => add_named(says, "entities of type ", name),
        _ => says.add(kind_in(inner).many()),
    }
}

// Adds one value of a type in words, for example `a Long`.
fn add_one(says: &mut Draft, ty: &Type) {
    match ty.kind() {
        TypeKind::Entity(name) => add_named(says, "an entity of type ", name),
        TypeKind::Set(member) => {
            says.add("a set of ");
            add_many(says, member);
        }
        _ => says.add(kind_in(ty).one()),
    }
}

/// Adds a type in words, as one value of it: for example `a Long`, or `a set of Strings`.
pub(crate) fn add_type(says: &mut Draft, ty: &LentType<'_>) {
    match ty {
        LentType::Entity(name) => add_named(says, "an entity of type ", name),
        LentType::Lent(ty) => add_one(says, ty),
        LentType::Made(ty) => add_one(says, ty),
        _ => says.add(kind_of(ty).one()),
    }
}

/// What the words of an operator need to know of a type.
#[derive(Clone, Copy, Debug, PartialEq, Eq)]
pub(crate) enum Kind {
    /// Booleans.
    Boolean,
    /// Whole numbers.
    Long,
    /// Strings.
    String,
    /// The values of an extension type.
    Extension(ExtensionType),
    /// Entities.
    Entity,
    /// Sets.
    Set,
    /// Records.
    Record,
}

impl Kind {
    /// One value of the kind, in words.
    pub(crate) fn one(self) -> &'static str {
        match self {
            Kind::Boolean => "a Boolean",
            Kind::Long => "a Long",
            Kind::String => "a String",
            Kind::Extension(ty) => ty.one(),
            Kind::Entity => "an entity",
            Kind::Set => "a set",
            Kind::Record => "a record",
        }
    }

    /// Several values of the kind, in words.
    pub(crate) fn many(self) -> &'static str {
        match self {
            Kind::Boolean => "Booleans",
            Kind::Long => "Longs",
            Kind::String => "Strings",
            Kind::Extension(ty) => ty.many(),
            Kind::Entity => "entities",
            Kind::Set => "sets",
            Kind::Record => "records",
        }
    }
}

/// How to write a value of an extension type, where one is wanted.
pub(crate) fn written_as(ty: ExtensionType) -> &'static str {
    match ty {
        ExtensionType::Decimal => "write a decimal as `decimal(\"1.5\")`",
        ExtensionType::Ip => "write an IP address as `ip(\"10.0.0.1\")`",
        ExtensionType::Datetime => "write a datetime as `datetime(\"2024-10-15T11:35:00Z\")`",
        ExtensionType::Duration => "write a duration as `duration(\"1d12h\")`",
    }
}

// The kind of a type of the schema.
fn kind_in(ty: &Type) -> Kind {
    match ty.kind() {
        TypeKind::Boolean(_) => Kind::Boolean,
        TypeKind::Long => Kind::Long,
        TypeKind::String => Kind::String,
        TypeKind::Extension(ty) => Kind::Extension(*ty),
        TypeKind::Entity(_) => Kind::Entity,
        TypeKind::Set(_) => Kind::Set,
        TypeKind::Record(_) => Kind::Record,
    }
}

/// The kind of a type.
pub(crate) fn kind_of(ty: &LentType<'_>) -> Kind {
    match ty {
        LentType::Boolean(_) => Kind::Boolean,
        LentType::Long => Kind::Long,
        LentType::String => Kind::String,
        LentType::Extension(ty) => Kind::Extension(*ty),
        LentType::Entity(_) => Kind::Entity,
        LentType::Lent(ty) => kind_in(ty),
        LentType::Made(ty) => kind_in(ty),
    }
}

/// The name of an entity type.
pub(crate) fn entity_of<'t>(ty: &'t LentType<'_>) -> Option<&'t Name> {
    match ty {
        LentType::Entity(name) => Some(*name),
        LentType::Lent(ty) => entity_in(ty),
        LentType::Made(ty) => entity_in(ty),
        _ => None,
    }
}

// The name of an entity type of the schema.
fn entity_in(ty: &Type) -> Option<&Name> {
    match ty.kind() {
        TypeKind::Entity(name) => Some(name),
        _ => None,
    }
}
