//! Types, which contracts see as a `TypeTree`.
ghost use Rattle.std.specs.Prelude.{◌≡◌, IfOk, option_copied};
ghost use Rattle.cedar_schema_types.specs.Lookup.{attribute_of};
ghost use Rattle.cedar_schema_types.specs.Ordered.{Ascends};
ghost use Rattle.cedar_schema_types.specs.TypeKind.{type_of};

use crate::attribute::Attribute;
use crate::record_type::RecordType;
use crate::truth::Truth;
use cedar_ext::ExtensionType;
use cedar_value::Name;
use std::alloc::{AllocError, Global};
use std::marker::Model;

/// What a type is made of (Cedar documentation, JSON schema format: attribute types).
#[cycle(types)]
#[derive(Drop)]
pub enum TypeKind {
    /// Booleans, and what is known of them.
    Boolean(Truth),
    /// Whole numbers of 64 bits.
    Long,
    /// Strings.
    String,
    /// The entities of a type, or the actions of a type.
    Entity(Name),
    /// Sets whose members are of a type.
    Set(Box<Type>),
    /// Records with these attributes and no others.
    Record(RecordType),
    /// The values of an extension type.
    Extension(ExtensionType),
}

/// A type, which contracts see as a `TypeTree`. At every level of it the attributes of a record ascend
/// by their names.
#[cycle(types)]
#[derive(Drop)]
pub struct Type {
    kind: TypeKind,
}

impl Model for Type {
    ghost use Rattle.cedar_schema_types.specs.Types.{TypeTree};
    ghost use Rattle.cedar_schema_types.specs.Private.TypeCode.{type_code};

    ghost Value = { TypeTree };

    ghost coded = { type_code };

    ghost use Rattle.cedar_schema_types.specs.TypeKind.{type_of};
    ghost use Rattle.cedar_schema_types.specs.Ordered.{Ascends};
    ghost use Rattle.cedar_schema_types.specs.Private.Weight.{weight};

    ghost view = { λ t. type_of t.kind };

    ghost invariant = { λ t. Ascends (type_of t.kind) };

    ghost size = { weight };

    ghost use Rattle.cedar_schema_types.specs.Private.KindFalls.{deep_le-weight};

    ghost size_decreases = { λ t _. deep_le-weight t.kind };
}

impl Type {
    /// The type of this kind.
    pub fn new(kind: TypeKind) -> Self
        ensures { result ≡ type_of kind }
    {
        // The attributes of the types inside ascend.
        order_inside(&kind);
        Type { kind }
    }

    /// The kind, with what it holds. Takes no memory.
    pub fn kind(&self) -> &TypeKind
        ensures { type_of result.now ≡ self.now }
    {
        &self.kind
    }

    /// The attribute that the type declares at a name. None for a type that is not a record (Cedar documentation, strict
    /// validation). Takes no memory.
    pub fn attribute(&self, name: &str) -> Option<&Attribute>
        ensures { option_copied result ≡ attribute_of name.now self.now }
    {
        match &self.kind {
            TypeKind::Record(attributes) => attributes.attribute(name),
            _ => None,
        }
    }

    /// A copy, equal to the original.
    #[cycle(copy)]
    pub fn try_clone(&self, alloc: Global) -> Result<Self, AllocError>
        ensures { IfOk result (λ t. t ≡ self.now) }
    {
        let kind = match &self.kind {
            TypeKind::Boolean(truth) => TypeKind::Boolean(*truth),
            TypeKind::Long => TypeKind::Long,
            TypeKind::String => TypeKind::String,
            TypeKind::Entity(name) => TypeKind::Entity(name.try_clone(alloc)?),
            TypeKind::Set(member) => TypeKind::Set(Box::new(alloc, member.try_clone(alloc)?)?),
            TypeKind::Record(attributes) => TypeKind::Record(attributes.try_clone(alloc)?),
            TypeKind::Extension(extension) => TypeKind::Extension(*extension),
        };
        Ok(Type { kind })
    }

    /// What every type keeps: the attributes of each record in it ascend, at every depth. A law: it runs no code.
    pub fn order(&self)
        ensures { Ascends self.now }
    {
        let _kept = &self.kind;
    }
}

// The attributes of the types inside ascend. A law: it runs no code.
#[tactic(auto, unfolding(crate::specs::Ordered::Ascends))]
fn order_inside(kind: &TypeKind)
    ensures { Ascends (type_of kind.now) }
{
    match kind {
        TypeKind::Set(member) => member.order(),
        TypeKind::Record(attributes) => attributes.order(),
        TypeKind::Boolean(_)
        | TypeKind::Long
        | TypeKind::String
        | TypeKind::Entity(_)
        | TypeKind::Extension(_) => (),
    }
}
