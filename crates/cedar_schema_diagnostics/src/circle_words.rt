//! Circles in words.
use crate::text::shown;
use base_places::Draft;

/// How many names of a circle are shown at most.
pub(crate) const MOST_SHOWN: usize = 6;

/// Says that there is a circle, for example "`a` is in `b`, which is in `a`". The names are those of its first places, `count` is how
/// many places it has, and `verb` joins two of them.
pub(crate) fn say_circle(says: &mut Draft, names: &[String], count: usize, verb: &str) {
    for (index, name) in names.iter().enumerate() {
        if index > 0 {
            add_verb(says, index, verb);
        }
        says.add_all(&["`", shown(name.as_str()), "`"]);
    }
    if let Some(first) = names.first() {
        let left = count.saturating_sub(names.len());
        add_end(says, first.as_str(), names.len(), left, verb);
    }
}

fn add_verb(says: &mut Draft, index: usize, verb: &str) {
    says.add(if index == 1 { " " } else { ", which " });
    says.add_all(&[verb, " "]);
}

// Adds how the circle comes back to its first name, after so many names that are shown and so many that are not.
fn add_end(says: &mut Draft, first: &str, count: usize, left: usize, verb: &str) {
    if left > 0 {
        says.add(", and so on: after ");
        says.add_display(left);
        says.add_all(&[" more comes `", shown(first), "` again"]);
        return;
    }
    add_verb(says, count, verb);
    if count == 1 {
        says.add("itself");
    } else {
        says.add_all(&["`", shown(first), "`"]);
    }
}
