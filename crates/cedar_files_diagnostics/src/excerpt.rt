//! Lines of a text, with marks under them.
use crate::diagnostic::Mark;
use base_places::{Draft, Place, line_before, line_from};

// How many bytes of a line are shown before a place, and from it on, at the most.
const MOST: usize = 80;

/// How many columns the number of a line takes.
fn width_of(line: usize) -> usize {
    let mut width = 1usize;
    let mut left = line / 10;
    for _ in 0..20 {
        if left > 0 {
            width = width.saturating_add(1);
            left /= 10;
        }
    }
    width
}

// The end of a text, of at most so many bytes and whole characters.
fn last_of(text: &str, most: usize) -> &str {
    let start = text.len().saturating_sub(most);
    for skipped in 0..4 {
        if let Some(end) = text.get(start.saturating_add(skipped)..) {
            return end;
        }
    }
    ""
}

/// The beginning of a text, of at most so many bytes and whole characters.
pub(crate) fn first_of(text: &str, most: usize) -> &str {
    let end = text.len().min(most);
    for skipped in 0..4 {
        if let Some(begin) = text.get(..end.saturating_sub(skipped)) {
            return begin;
        }
    }
    ""
}

fn add_times(out: &mut Draft, sign: char, count: usize) {
    for _ in 0..count {
        out.add_char(sign);
    }
}

// What is shown of the line around an offset: its number from 1, and where what is shown begins and ends, in bytes from 0.
#[derive(Clone, Copy)]
struct Shown {
    line: usize,
    start: usize,
    end: usize,
}

impl Shown {
    // What is shown around an offset.
    fn around(text: &str, at: usize) -> Shown {
        let before = last_of(line_before(text, at), MOST).len();
        let after = first_of(line_from(text, at), MOST).len();
        Shown {
            line: Place::of(text.as_bytes(), at).line.saturating_add(1),
            start: at.saturating_sub(before),
            end: at.saturating_add(after),
        }
    }

    fn holds(self, at: usize) -> bool {
        self.start <= at && at <= self.end
    }

    // Adds the line.
    fn add_line(self, out: &mut Draft, text: &str) {
        add_times(out, ' ', width_of(self.line));
        out.add(" |\n");
        out.add_display(self.line);
        out.add(" | ");
        out.add_shown(text.get(self.start..self.end).unwrap_or(""));
        out.add_char('\n');
    }

    // Adds a mark under what is shown.
    fn add_mark(self, out: &mut Draft, text: &str, mark: &Mark, sign: char) {
        add_times(out, ' ', width_of(self.line));
        out.add(" | ");
        let before = text.get(self.start..mark.start).unwrap_or("");
        add_times(out, ' ', before.chars().count());
        let marked = text.get(mark.start..mark.end.min(self.end)).unwrap_or("");
        add_times(out, sign, marked.chars().count().max(1));
        if !mark.says.is_empty() {
            out.add_char(' ');
            out.add_shown(mark.says.as_str());
        }
        out.add_char('\n');
    }
}

/// Adds the lines of a text that have marks, and under each what its marks say: the first mark as `^`, the others as `-`.
pub(crate) fn add_marks(out: &mut Draft, text: &str, marks: &[Mark]) {
    let mut last: Option<Shown> = None;
    for mark in marks {
        let (shown, is_there) = match last {
            Some(shown) if shown.holds(mark.start) => (shown, true),
            _ => (Shown::around(text, mark.start), false),
        };
        if !is_there {
            shown.add_line(out, text);
        }
        let sign = if last.is_none() { '^' } else { '-' };
        shown.add_mark(out, text, mark, sign);
        last = Some(shown);
    }
}
