//! Lists of names.
use base_places::Draft;

/// How many names of a list are written.
const MOST_LISTED: usize = 12;

/// Whether the name at a position, from 0, is written: at most twelve are. The comma before it is added, where it is not the first.
pub(crate) fn is_listed(says: &mut Draft, position: usize) -> bool {
    if position > 0 && position < MOST_LISTED {
        says.add(", ");
    }
    position < MOST_LISTED
}

/// Adds how many of this many names are not written.
pub(crate) fn add_more(says: &mut Draft, count: usize) {
    if count > MOST_LISTED {
        says.add(" and ");
        says.add_display(count.saturating_sub(MOST_LISTED));
        says.add(" more");
    }
}
