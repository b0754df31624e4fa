//! Texts that are put together of pieces.
use base_places::Draft;
use std::alloc::Global;

/// How many bytes of a name are shown at most.
const MOST: usize = 80;

/// The beginning of a text, of at most 80 bytes and whole characters.
pub(crate) fn shown(text: &str) -> &str {
    let end = text.len().min(MOST);
    for skipped in 0..4 {
        if let Some(begin) = text.get(..end.saturating_sub(skipped)) {
            return begin;
        }
    }
    ""
}

/// Whether a text is short, and may be between the quotes of a JSON string as it is.
pub(crate) fn is_plain(text: &str) -> bool {
    text.len() <= MOST && text.as_bytes().iter().all(|byte| is_plain_byte(*byte))
}

fn is_plain_byte(byte: u8) -> bool {
    byte >= b' ' && byte != b'"' && byte != b'\\'
}

/// The pieces, one after another.
pub(crate) fn joined(alloc: Global, pieces: &[&str]) -> Draft {
    let mut text = Draft::new(alloc);
    text.add_all(pieces);
    text
}
