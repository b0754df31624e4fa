//! Where an item of a JSON list begins.
use crate::diagnostic_draft::DiagnosticDraft;
use base_places::Place;

// What was read of a list, up to a byte.
#[derive(Clone, Copy)]
struct Scan {
    // How many brackets and braces are open.
    open: usize,
    // How many items of the list have begun.
    items: usize,
    // Whether an item of the list comes next.
    is_awaited: bool,
    // Whether a string is open.
    is_quoted: bool,
    // Whether the byte before is a backslash that escapes this one.
    is_escaped: bool,
}

impl Scan {
    fn new() -> Self {
        Scan {
            open: 0,
            items: 0,
            is_awaited: false,
            is_quoted: false,
            is_escaped: false,
        }
    }

    // Reads a byte of a string.
    fn read_quoted(&mut self, byte: u8) {
        if self.is_escaped {
            self.is_escaped = false;
        } else if byte == b'\\' {
            self.is_escaped = true;
        } else if byte == b'"' {
            self.is_quoted = false;
        }
    }

    // Reads a byte outside of strings and white space.
    fn read_sign(&mut self, byte: u8) {
        if self.is_awaited && byte != b']' {
            self.is_awaited = false;
            self.items = self.items.saturating_add(1);
        }
        match byte {
            b'"' => self.is_quoted = true,
            b'[' | b'{' => {
                self.is_awaited = self.open == 0;
                self.open = self.open.saturating_add(1);
            }
            b']' | b'}' => self.open = self.open.saturating_sub(1),
            b',' => self.is_awaited = self.open == 1,
            _ => {}
        }
    }

    // Reads a byte.
    fn read(&mut self, byte: u8) {
        if self.is_quoted {
            self.read_quoted(byte);
        } else if !byte.is_ascii_whitespace() {
            self.read_sign(byte);
        }
    }
}

/// Where the item at a position, from 0, of a JSON list begins; or none if the list has no such item. The text is JSON, and it is read
/// only up to the item.
pub(crate) fn item_place(text: &[u8], position: usize) -> Option<Place> {
    let mut scan = Scan::new();
    for (at, byte) in text.iter().enumerate() {
        scan.read(*byte);
        if scan.items > position {
            return Some(Place::of(text, at));
        }
    }
    None
}

/// Adds what a JSON text is, if it is not a list.
pub(crate) fn note_other_than_list(diagnostic: &mut DiagnosticDraft, bytes: &[u8]) {
    let first = bytes.iter().find(|byte| !byte.is_ascii_whitespace());
    let found = match first {
        Some(b'{') => "an object",
        Some(b'"') => "a string",
        Some(b'-' | b'0'..=b'9') => "a number",
        Some(b't' | b'f') => "a Boolean",
        Some(b'n') => "null",
        _ => return,
    };
    diagnostic.note(&["expected a list, found ", found]);
    diagnostic.advise(
        "the file is a list of objects, `[{..}, {..}]`; docs/DATA.md lists their keys",
    );
}
