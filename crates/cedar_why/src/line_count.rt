//! Lines and columns of a text.
use base_places::Place;

/// The beginning of a text.
const BEGINNING: Place = Place { line: 0, column: 0 };

/// Counts the lines of a text as places in it are asked for. Places in ascending order take one reading of the text together.
#[derive(Drop)]
pub struct LineCount<'t> {
    bytes: &'t [u8],
    // The byte up to which lines are counted.
    at: usize,
    // The line and the column of this byte.
    place: Place,
}

// The place that is so many lines and columns after another.
fn after(place: Place, more: Place) -> Place {
    if more.line == 0 {
        return Place {
            line: place.line,
            column: place.column.saturating_add(more.column),
        };
    }
    Place {
        line: place.line.saturating_add(more.line),
        column: more.column,
    }
}

impl<'t> LineCount<'t> {
    /// Begins at the beginning of a text.
    pub fn new(text: &'t str) -> LineCount<'t> {
        LineCount {
            bytes: text.as_bytes(),
            at: 0,
            place: BEGINNING,
        }
    }

    /// The line and the column, from 0, of a byte, if there is one.
    pub fn place(&mut self, at: Option<usize>) -> Option<Place> {
        let at = at?;
        if at < self.at {
            self.at = 0;
            self.place = BEGINNING;
        }
        let between = self.bytes.get(self.at..at).unwrap_or(&[]);
        self.place = after(self.place, Place::of(between, between.len()));
        self.at = at;
        Some(self.place)
    }
}
