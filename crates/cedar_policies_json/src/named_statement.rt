//! Statements with their ids.
use cedar_parser_tree::WrittenStatement;
use cedar_value::Text;

/// A policy or template as it is written, with its id.
#[derive(Drop)]
pub(crate) struct NamedStatement {
    /// The id.
    pub(crate) id: Text,
    /// What is written at the id.
    pub(crate) statement: WrittenStatement,
}
