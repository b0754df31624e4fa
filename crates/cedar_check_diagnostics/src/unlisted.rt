//! Uids that their enumerated entity types do not have.
use crate::words::Words;
use crate::written::{add_id, add_uid, add_uid_of};
use base_names::Nearest;
use base_places::Draft;
use cedar_schema::Enumeration;
use cedar_value::{Name, Text, Uid};

// How many ids an enumerated type has at most for them to be listed.
const MOST_LISTED: usize = 5;

/// What is said of a uid that its enumerated entity type does not have: the type's ids, if they are at most five, and the nearest of
/// all of them.
pub(crate) fn unlisted_words(words: &mut Words, uid: &Uid, enumeration: &Enumeration) {
    words.says.add("there is no entity `");
    add_uid(&mut words.says, uid);
    words.says.add_char('`');
    add_ids(&mut words.note, &uid.ty, enumeration);
    let nearest = nearest_id(Nearest::new(uid.id.as_str()), enumeration);
    if let Some(meant) = nearest.name() {
        words.hint.add("did you mean `");
        add_uid_of(&mut words.hint, &uid.ty, meant.as_str());
        words.hint.add("`?");
    }
}

// The search with the ids of an enumerated type.
fn nearest_id<'w, 'e>(
    before: Nearest<'w, &'e Text>,
    enumeration: &'e Enumeration,
) -> Nearest<'w, &'e Text> {
    let mut nearest = before;
    for id in enumeration.ids() {
        nearest = nearest.compare(id.as_str(), id);
    }
    nearest
}

// Adds the ids of an enumerated type, or how many there are.
fn add_ids(note: &mut Draft, ty: &Name, enumeration: &Enumeration) {
    let count = enumeration.ids().count();
    if count > MOST_LISTED {
        note.add_all(&["the enumerated type `", ty.as_str(), "` has "]);
        note.add_display(count);
        note.add(" ids");
        return;
    }
    note.add_all(&["ids of the enumerated type `", ty.as_str(), "`: "]);
    for (position, id) in enumeration.ids().enumerate() {
        if position > 0 {
            note.add(", ");
        }
        add_id(note, id.as_str());
    }
}
