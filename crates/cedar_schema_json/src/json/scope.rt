//! Where in a schema a type is written.
use crate::json::name_table::NameTable;
use cedar_ext::Language;

/// Where a type is written: the language, its namespace, and the names that are declared in the schema.
#[derive(Drop)]
pub struct Scope<'a> {
    /// The language in which the schema is written.
    pub language: Language,
    /// The namespace.
    pub namespace: &'a str,
    /// The names of the entity types.
    pub entities: &'a NameTable,
    /// The names of the common types.
    pub commons: &'a NameTable,
}
