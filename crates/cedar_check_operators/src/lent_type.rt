//! Types, lent where they can be.
ghost use Rattle.std.specs.Prelude.{◌≡◌, IfOk, IfSome, option_map};
ghost use Rattle.cedar_check_spec.specs.Rows.{compares, element_in, entity_in, is_extension, is_long, is_string, target_in, truth_in};
ghost use Rattle.cedar_check_spec.specs.Typing.{type_of_scalar};
ghost use Rattle.cedar_schema_types.specs.Types.{is_record};
ghost use Rattle.cedar_check_operators.specs.View.{tree_of};
ghost use Rattle.cedar_check_operators.specs.Private.View.{type_seen};

use cedar_ext::{ExtensionType, ScalarType};
use cedar_schema::{RecordType, Truth, Type, TypeKind};
use cedar_value::Name;
use std::alloc::{AllocError, Global};

/// The type of an expression. That of a Boolean, a number, a string, an entity or an attribute takes no memory.
#[derive(Drop)]
pub enum LentType<'a> {
    /// Booleans, and what is known of them.
    Boolean(Truth),
    /// Whole numbers.
    Long,
    /// Strings.
    String,
    /// The values of an extension type.
    Extension(ExtensionType),
    /// The entities of a type, with its name as the schema or the policy has it.
    Entity(&'a Name),
    /// A type that the schema has.
    Lent(&'a Type),
    /// A type that was built.
    Made(Type),
}

/// A look at a type.
#[derive(Clone, Copy)]
pub(crate) enum TypeGlance<'a> {
    /// Booleans, and what is known of them.
    Boolean(Truth),
    /// Whole numbers.
    Long,
    /// Strings.
    String,
    /// The values of an extension type.
    Extension(ExtensionType),
    /// The entities of a type.
    Entity(&'a Name),
    /// Sets of members of a type.
    Set(&'a Type),
    /// Records of these attributes.
    Record(&'a RecordType),
}

// A look at a type of the schema.
pub(crate) fn glance_at(ty: &Type) -> TypeGlance<'_>
    ensures { type_seen result ≡ ty.now }
{
    match ty.kind() {
        TypeKind::Boolean(truth) => TypeGlance::Boolean(*truth),
        TypeKind::Long => TypeGlance::Long,
        TypeKind::String => TypeGlance::String,
        TypeKind::Extension(extension) => TypeGlance::Extension(*extension),
        TypeKind::Entity(name) => TypeGlance::Entity(name),
        TypeKind::Set(member) => TypeGlance::Set(member),
        TypeKind::Record(attributes) => TypeGlance::Record(attributes),
    }
}

impl<'a> LentType<'a> {
    /// The type of what a method of an extension type gives.
    pub(crate) fn of_scalar(ty: ScalarType) -> Self
        ensures { tree_of result ≡ type_of_scalar ty }
    {
        match ty {
            ScalarType::Boolean => LentType::Boolean(Truth::Any),
            ScalarType::Long => LentType::Long,
            ScalarType::Extension(extension) => LentType::Extension(extension),
        }
    }

    /// A look at the type.
    pub(crate) fn glance(&self) -> TypeGlance<'_>
        ensures { type_seen result ≡ tree_of self.now }
    {
        match self {
            LentType::Boolean(truth) => TypeGlance::Boolean(*truth),
            LentType::Long => TypeGlance::Long,
            LentType::String => TypeGlance::String,
            LentType::Extension(extension) => TypeGlance::Extension(*extension),
            LentType::Entity(name) => TypeGlance::Entity(name),
            LentType::Lent(ty) => glance_at(ty),
            LentType::Made(ty) => glance_at(ty),
        }
    }

    /// A look at the type that outlives it, where the type was not built.
    pub(crate) fn lent_glance(&self) -> Option<TypeGlance<'a>>
        ensures { IfSome result (λ glance. type_seen glance ≡ tree_of self.now) }
    {
        match self {
            LentType::Boolean(truth) => Some(TypeGlance::Boolean(*truth)),
            LentType::Long => Some(TypeGlance::Long),
            LentType::String => Some(TypeGlance::String),
            LentType::Extension(extension) => Some(TypeGlance::Extension(*extension)),
            LentType::Entity(name) => Some(TypeGlance::Entity(*name)),
            LentType::Lent(ty) => Some(glance_at(*ty)),
            LentType::Made(_) => None,
        }
    }

    /// A copy, lent where the type is.
    pub(crate) fn try_copy(&self, alloc: Global) -> Result<Self, AllocError>
        ensures { IfOk result (λ copy. tree_of copy ≡ tree_of self.now) }
    {
        match self {
            LentType::Boolean(truth) => Ok(LentType::Boolean(*truth)),
            LentType::Long => Ok(LentType::Long),
            LentType::String => Ok(LentType::String),
            LentType::Extension(extension) => Ok(LentType::Extension(*extension)),
            LentType::Entity(name) => Ok(LentType::Entity(*name)),
            LentType::Lent(ty) => Ok(LentType::Lent(*ty)),
            LentType::Made(ty) => Ok(LentType::Made(ty.try_clone(alloc)?)),
        }
    }

    /// The type as one of its own.
    pub(crate) fn to_type(&self, alloc: Global) -> Result<Type, AllocError>
        ensures { IfOk result (λ ty. ty ≡ tree_of self.now) }
    {
        match self {
            LentType::Boolean(truth) => Ok(Type::new(TypeKind::Boolean(*truth))),
            LentType::Long => Ok(Type::new(TypeKind::Long)),
            LentType::String => Ok(Type::new(TypeKind::String)),
            LentType::Extension(extension) => Ok(Type::new(TypeKind::Extension(*extension))),
            LentType::Entity(name) => Ok(Type::new(TypeKind::Entity(name.try_clone(alloc)?))),
            LentType::Lent(ty) => ty.try_clone(alloc),
            LentType::Made(ty) => ty.try_clone(alloc),
        }
    }

    /// What is known of a Boolean.
    pub fn truth(&self) -> Option<Truth>
        ensures { result ≡ truth_in (tree_of self.now) }
    {
        match self.glance() {
            TypeGlance::Boolean(truth) => Some(truth),
            _ => None,
        }
    }

    /// Whether it is the type of whole numbers.
    pub(crate) fn is_long(&self) -> bool
        ensures { result ≡ is_long (tree_of self.now) }
    {
        match self.glance() {
            TypeGlance::Long => true,
            _ => false,
        }
    }

    /// Whether it is the type of strings.
    pub(crate) fn is_string(&self) -> bool
        ensures { result ≡ is_string (tree_of self.now) }
    {
        match self.glance() {
            TypeGlance::String => true,
            _ => false,
        }
    }

    /// Whether it is that extension type.
    pub(crate) fn is_extension(&self, ty: ExtensionType) -> bool
        ensures { result ≡ is_extension ty (tree_of self.now) }
    {
        match self.glance() {
            TypeGlance::Extension(extension) => ty.same(extension),
            _ => false,
        }
    }

    /// Whether `<` and `<=` compare values of the two types: whole numbers, or values of one extension type that is ordered.
    pub(crate) fn compares_with(&self, other: &LentType<'_>) -> bool
        ensures { result ≡ compares (tree_of self.now) (tree_of other.now) }
    {
        match self.glance() {
            TypeGlance::Long => other.is_long(),
            TypeGlance::Extension(extension) => {
                extension.is_ordered() && other.is_extension(extension)
            }
            _ => false,
        }
    }

    /// Whether it is a type of records.
    pub(crate) fn is_record(&self) -> bool
        ensures { result ≡ is_record (tree_of self.now) }
    {
        match self.glance() {
            TypeGlance::Record(_) => true,
            _ => false,
        }
    }

    /// The name of an entity type.
    pub(crate) fn entity(&self) -> Option<&Name>
        ensures { option_map (λ name. name.now) result ≡ entity_in (tree_of self.now) }
    {
        match self.glance() {
            TypeGlance::Entity(name) => Some(name),
            _ => None,
        }
    }

    /// The type of a set's members.
    pub(crate) fn element(&self) -> Option<&Type>
        ensures { option_map (λ ty. ty.now) result ≡ element_in (tree_of self.now) }
    {
        match self.glance() {
            TypeGlance::Set(member) => Some(member),
            _ => None,
        }
    }

    /// The entity type that the right operand of `in` has.
    pub(crate) fn target(&self) -> Option<&Name>
        ensures { option_map (λ name. name.now) result ≡ target_in (tree_of self.now) }
    {
        match self.glance() {
            TypeGlance::Entity(name) => Some(name),
            TypeGlance::Set(member) => match member.kind() {
                TypeKind::Entity(name) => Some(name),
                _ => None,
            },
            _ => None,
        }
    }
}
