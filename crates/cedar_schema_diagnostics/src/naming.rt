//! Names that are not names, and reserved ones.
use crate::built_in::meant_built_in;
use crate::part::{Refusal, part_of, remembered};
use crate::text::shown;
use cedar_schema_json::{SchemaFault, has_colon, read_name};
use std::alloc::{AllocError, Global};

/// What to write as a name.
const RULE: &str =
    "write identifiers with `::` between them: letters, digits and `_`, no digit first, no reserved word such as `in`";

/// Why a text is not a name (302), or is a reserved one (306), if that is what the number says; or none.
pub(crate) fn refused_name(alloc: Global, number: u16, text: &str) -> Option<Refusal> {
    if number != 302 && number != 306 {
        return None;
    }
    match read_name(alloc, text) {
        Ok(name) => {
            drop(name);
            None
        }
        Err(SchemaFault::OutOfMemory) => remembered(alloc, Err(AllocError)),
        Err(SchemaFault::ReservedName) if number == 306 => reserved_name(alloc, text),
        Err(SchemaFault::Shape) if number == 302 => {
            part_of(alloc, &["`", shown(text), "` is not a name"], &[RULE])
        }
        Err(_) => None,
    }
}

// A name with the word `__cedar`. In Cedar it may begin the name of a built-in type.
fn reserved_name(alloc: Global, text: &str) -> Option<Refusal> {
    let says = ["`", shown(text), "` contains the reserved word `__cedar`"];
    let meant = match text.strip_prefix("__cedar::") {
        Some(rest) => meant_built_in(rest),
        None => None,
    };
    match meant {
        Some(meant) => part_of(
            alloc,
            &says,
            &["did you mean the built-in type `", shown(meant), "`?"],
        ),
        None => part_of(alloc, &says, &["choose another name"]),
    }
}

/// Why a key is not an identifier (302), or is reserved (306), if that is what the number says; or none.
pub(crate) fn refused_identifier(alloc: Global, number: u16, key: &str) -> Option<Refusal> {
    let found = refused_name(alloc, number, key);
    if found.is_some() || number != 302 || !has_colon(key) {
        return found;
    }
    let says = [
        "the key `",
        shown(key),
        "` is not an identifier: it has a namespace",
    ];
    match key.rsplit_once("::") {
        Some((space, word)) => {
            let hint = [
                "declare `",
                shown(word),
                "` in the namespace `",
                shown(space),
                "`",
            ];
            part_of(alloc, &says, &hint)
        }
        None => part_of(alloc, &says, &[]),
    }
}
