//! Words for entity types and actions that a schema does not declare.
use crate::declared::{known_types, meant_action, meant_type};
use crate::shown::{add_types, add_uid};
use crate::words::Words;
use cedar_schema::Schema;
use cedar_value::{Name, Uid};
use std::alloc::{AllocError, Global};

/// The words for an entity type that is not declared, 503.
pub(crate) fn type_words(
    alloc: Global,
    words: &mut Words,
    schema: &Schema,
    name: &Name,
) -> Result<(), AllocError> {
    let wanted = name.as_str();
    words
        .says
        .add_all(&["the entity type `", wanted, "` is not declared"]);
    match meant_type(alloc, schema, wanted)? {
        Some(meant) => words.hint_at(Some(meant.as_str())),
        None => {
            let known = known_types(alloc, schema)?;
            if !known.is_empty() {
                words.hint.add("declared types include ");
                add_types(&mut words.hint, &known);
            }
        }
    }
    Ok(())
}

/// The words for an action that is not declared, 508 and 510.
pub(crate) fn action_words(words: &mut Words, schema: &Schema, uid: &Uid) {
    add_uid(&mut words.says, uid);
    words.says.add(" is not declared");
    if let Some(meant) = meant_action(schema, uid) {
        words.hint.add("did you mean ");
        add_uid(&mut words.hint, meant);
        words.hint.add_char('?');
    }
}
