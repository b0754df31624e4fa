//! Types as a schema's JSON writes them: a common type is given as its place.
pub(crate) mod chains;
pub(crate) mod expansion;
pub(crate) mod kind;
pub(crate) mod measure;
pub(crate) mod position;
pub(crate) mod reading;
pub(crate) mod shape;
pub(crate) mod table;

use cedar_ext::ExtensionType;
use cedar_value::Name;

/// A type as it is written, with its names resolved.
#[cycle(form)]
#[derive(Drop)]
pub enum Form {
    /// A Boolean.
    Boolean,
    /// A whole number.
    Long,
    /// A string.
    Text,
    /// A value of an extension type.
    Extension(ExtensionType),
    /// An entity of the type of this name.
    Entity(Name),
    /// A set of what has the form.
    Set(Box<Form>),
    /// A record of these attributes.
    Record(Vec<FormField>),
    /// A common type, given as its place.
    Common(usize),
}

/// An attribute as it is written.
#[cycle(form)]
#[derive(Drop)]
pub struct FormField {
    /// Its name.
    pub name: String,
    /// Its type, as it is written.
    pub form: Form,
    /// Whether a record needs it.
    pub required: bool,
}
