//! Words for the refusals of schemas, entities and links, by their numbers.
use crate::diagnostic::Explanation;
use crate::diagnostic_draft::DiagnosticDraft;
use std::alloc::{AllocError, Global};

/// Why a file is refused with a number, and what to do about it. The numbers of policy texts have words of their own.
pub fn words_of(number: u16) -> Option<(&'static str, &'static str)> {
    let words = match number {
        204 => (
            "two policies have the same id",
            "give each link an id that no other policy has",
        ),
        210 => (
            "a link names a template that does not exist",
            "`template_id` is the id of a policy with a slot in its scope",
        ),
        211 => (
            "a link gives no uid for a slot of its template",
            "`args` has a uid for each slot of the template",
        ),
        212 => (
            "a link gives a uid for a slot that its template does not have",
            "remove it from `args`",
        ),
        213 => (
            "the policies are not valid JSON",
            "the file begins with `{`, so it has to be JSON",
        ),
        214 => (
            "a part of the policies has the wrong form",
            "compare with what `cedar translate-policy` writes",
        ),
        301 => ("the schema is not valid JSON", "the file has to be JSON"),
        302 => (
            "a part of the schema has the wrong form",
            "docs/SCHEMA.md lists the keys of each part; tools/from_cedar converts what `cedar translate-schema` writes",
        ),
        303 => (
            "the schema names a type or an action that it does not declare",
            "check the name and its namespace",
        ),
        304 => (
            "a common type refers to itself",
            "break the circle of common types",
        ),
        305 => (
            "an action is a member of itself",
            "remove one `memberOf` of the circle",
        ),
        306 => (
            "the schema declares a reserved name",
            "`__cedar`, `Action` as an entity type and the names of built-in types are reserved",
        ),
        307 => (
            "`additionalAttributes` is true",
            "remove `additionalAttributes`, and declare each attribute",
        ),
        308 => (
            "`appliesTo` needs both `principalTypes` and `resourceTypes`",
            "write both lists",
        ),
        309 => (
            "a type is too large",
            "split it, or declare fewer attributes",
        ),
        310 => (
            "the schema text has a syntax error",
            "compare with the grammar in docs/SCHEMA.md",
        ),
        311 => (
            "the schema text declares a name twice",
            "write each name once",
        ),
        701 => (
            "the code of a policy would have more than 1,000,000 instructions",
            "split the policy",
        ),
        _ => return words_of_data(number),
    };
    Some(words)
}

fn words_of_data(number: u16) -> Option<(&'static str, &'static str)> {
    let words = match number {
        401 => ("two entities have the same uid", "write each entity once"),
        402 => (
            "an entity is its own ancestor",
            "remove one parent of the circle",
        ),
        501 => ("the file is not valid JSON", "the file has to be JSON"),
        502 => (
            "a part of the file has the wrong form",
            "docs/DATA.md lists the keys of each part",
        ),
        503 => (
            "an entity has a type that the schema does not declare",
            "check the type and its namespace",
        ),
        504 => (
            "a value has the wrong type",
            "compare the value with its attribute in the schema",
        ),
        505 => (
            "a required attribute is missing",
            "add it, or declare it with `\"required\": false`",
        ),
        506 => (
            "an attribute is not declared",
            "remove it, or declare it in the shape of the entity's type",
        ),
        507 => (
            "an entity may not have a parent of this type",
            "add the type to `memberOfTypes` in the schema",
        ),
        508 => (
            "an action differs from the schema",
            "leave actions out of the entities: the schema has them",
        ),
        509 => (
            "a number is out of range, or is not an integer",
            "integers go from -9223372036854775808 to 9223372036854775807",
        ),
        _ => return None,
    };
    Some(words)
}

/// What is explained of a refused schema, links or entities file from its number alone; or none of a number that such a file does
/// not get.
pub fn explain_number(
    alloc: Global,
    file: &str,
    number: u16,
) -> Result<Option<Explanation>, AllocError> {
    let Some((reason, hint)) = words_of(number) else {
        return Ok(None);
    };
    let mut diagnostic = DiagnosticDraft::error(alloc, number, reason);
    diagnostic.advise(hint);
    diagnostic.alone(file).map(Some)
}
