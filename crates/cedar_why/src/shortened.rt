//! Texts that are cut.
use base_places::Draft;
use std::alloc::{AllocError, Global};

/// How many characters of a part, of a value or of an id are shown at most.
pub const MOST: usize = 60;

/// What is written in place of the end of a text that is cut.
const CUT: &str = "..";

/// A copy of a text, of which at most 60 characters are left; `..` is then the end.
pub fn shortened(alloc: Global, text: &str) -> Result<String, AllocError> {
    if text.chars().count() <= MOST {
        return String::from_str(alloc, text);
    }
    let mut short = Draft::new(alloc);
    for character in text.chars().take(MOST - 2) {
        short.add_char(character);
    }
    short.add(CUT);
    short.done()
}

/// Whether nothing more need be added to a text: more than 60 characters are written already, so that `shortened` cuts it wherever it
/// ends, or memory was refused.
pub fn is_full(text: &Draft) -> bool {
    text.is_refused() || text.as_str().len() > 4 * MOST
}
