//! Lines and columns.
ghost use Rattle.std.specs.Prelude.{◌≡◌, ◌<◌, ◌+◌, ◌^◌};
ghost use Rattle.base_places.specs.Places.{next_place, place_of};

const LINE_FEED: u8 = b'\n';

/// A place in a text: its line and its column, both from 0. A column is a character of UTF-8.
#[derive(Clone, Copy, Debug, PartialEq, Eq)]
pub struct Place {
    /// How many lines end before it.
    pub line: usize,
    /// How many characters are before it in its line.
    pub column: usize,
}

impl Place {
    /// The place of the byte at an offset, in bytes from 0. An offset past the end is the place of the end. Takes no memory.
    pub fn of(text: &[u8], at: usize) -> Place
        ensures { result ≡ place_of text.now at }
    {
        let mut place = Place { line: 0, column: 0 };
        for offset in 0..at.min(text.len()) {
            place = place.after(text[offset]);
        }
        place
    }

    // The place that follows a byte at this place. A byte of UTF-8 that goes on with a character, 10xxxxxx, has no place of its own.
    fn after(self, byte: u8) -> Place
        requires line { self.line + 1 < 2 ^ 64 }
        requires column { self.column + 1 < 2 ^ 64 }
        ensures { result ≡ next_place self byte }
    {
        if byte == LINE_FEED {
            Place {
                line: self.line + 1,
                column: 0,
            }
        } else if byte & 0xC0 == 0x80 {
            self
        } else {
            Place {
                line: self.line,
                column: self.column + 1,
            }
        }
    }
}
