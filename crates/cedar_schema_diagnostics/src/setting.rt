//! Where in a schema a part is.
use crate::declared::Declared;
use crate::forms::Forms;
use cedar_ext::Language;

/// Where in a schema a part is, the language of the schema, and which refusal is explained.
#[derive(Clone, Copy)]
pub(crate) struct Setting<'a> {
    /// The language in which the schema is written.
    pub language: Language,
    /// The number of the refusal.
    pub number: u16,
    /// The namespace of the part.
    pub namespace: &'a str,
    /// What the schema declares.
    pub declared: &'a Declared,
    /// The common types, for the refusals that need them expanded.
    pub forms: Option<&'a Forms>,
}
