//! Words for a uid that its enumerated entity type does not have.
use crate::shown::{add_beginning, add_quoted};
use crate::words::Words;
use base_names::Nearest;
use base_places::Draft;
use cedar_schema::{Enumeration, Schema};
use cedar_value::{Text, Uid};

// How many ids an enumerated type has at most for them to be listed.
const MOST_IDS: usize = 5;

/// Whether the type of a uid is enumerated and does not have it. If so, the words for it are added, without a path.
pub(crate) fn unlisted_words(words: &mut Words, schema: &Schema, uid: &Uid) -> bool {
    let Some(enumeration) = schema.enumeration(&uid.ty) else {
        return false;
    };
    if enumeration.has(&uid.id) {
        return false;
    }
    let ty = uid.ty.as_str();
    words.says.add_all(&["there is no entity ", ty, "::"]);
    add_beginning(&mut words.says, uid.id.as_str());
    words.says.add("; ");
    add_ids(&mut words.says, ty, enumeration);
    match nearest_id(Nearest::new(uid.id.as_str()), enumeration).name() {
        Some(meant) => {
            words.hint.add_all(&["did you mean ", ty, "::"]);
            add_quoted(&mut words.hint, meant.as_str());
            words.hint.add_char('?');
        }
        None => words.hint.add(
            "write one of the type's ids, or add this one to its `enum` in the schema",
        ),
    }
    true
}

// Adds the ids of an enumerated type, or how many there are.
fn add_ids(out: &mut Draft, ty: &str, enumeration: &Enumeration) {
    let count = enumeration.ids().count();
    if count > MOST_IDS {
        out.add_all(&["the enumerated type `", ty, "` has "]);
        out.add_display(count);
        out.add(" ids");
        return;
    }
    out.add_all(&["ids of the enumerated type `", ty, "`: "]);
    for (listed, id) in enumeration.ids().enumerate() {
        if listed > 0 {
            out.add(", ");
        }
        add_beginning(out, id.as_str());
    }
}

// The search with the ids.
fn nearest_id<'w, 'e>(
    before: Nearest<'w, &'e Text>,
    enumeration: &'e Enumeration,
) -> Nearest<'w, &'e Text> {
    let mut nearest = before;
    for id in enumeration.ids() {
        nearest = nearest.compare(id.as_str(), id);
    }
    nearest
}
