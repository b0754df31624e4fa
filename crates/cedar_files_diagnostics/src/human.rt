//! An explanation as a person reads it.
use crate::diagnostic::{Diagnostic, Explanation, Severity};
use crate::excerpt::add_marks;
use base_places::Draft;
use std::alloc::{AllocError, Global};

fn word_of(severity: Severity) -> &'static str {
    match severity {
        Severity::Error => "error",
        Severity::Warning => "warning",
    }
}

// Adds `error[NUMBER]: REASON`, without a number where it has none, and the end of the line.
fn add_heading(out: &mut Draft, diagnostic: &Diagnostic) {
    out.add(word_of(diagnostic.severity));
    if diagnostic.number > 0 {
        out.add_char('[');
        out.add_display(diagnostic.number);
        out.add_char(']');
    }
    out.add(": ");
    out.add(diagnostic.reason);
    out.add_char('\n');
}

// Adds ` --> FILE:LINE:COLUMN: PART`, as far as there are these, and the end of the line. Lines and columns are from 1.
fn add_place(out: &mut Draft, file: &str, diagnostic: &Diagnostic) {
    out.add(" --> ");
    out.add_shown(file);
    if let Some(place) = diagnostic.place {
        out.add_char(':');
        out.add_display(place.line.saturating_add(1));
        out.add_char(':');
        out.add_display(place.column.saturating_add(1));
    }
    if !diagnostic.part.is_empty() {
        out.add(": ");
        out.add_shown(diagnostic.part.as_str());
    }
    out.add_char('\n');
}

// Adds `   = KIND: SAYS` and the end of the line.
fn add_note(out: &mut Draft, kind: &str, says: &str) {
    out.add("   = ");
    out.add(kind);
    out.add_shown(says);
    out.add_char('\n');
}

fn add_diagnostic(out: &mut Draft, explanation: &Explanation, diagnostic: &Diagnostic) {
    add_heading(out, diagnostic);
    add_place(out, explanation.file.as_str(), diagnostic);
    add_marks(out, explanation.text.as_str(), &diagnostic.marks);
    for note in &diagnostic.notes {
        add_note(out, "", note.as_str());
    }
    if let Some(hint) = &diagnostic.hint {
        add_note(out, "hint: ", hint.as_str());
    }
}

impl Explanation {
    /// The lines for a person: what is wrong, where, and what to do. What is shown of the file has no control character and no
    /// character that changes the direction of text.
    ///
    /// # Errors
    ///
    /// Fails only when out of memory.
    pub fn to_lines(&self, alloc: Global) -> Result<String, AllocError> {
        let mut out = Draft::new(alloc);
        for diagnostic in &self.diagnostics {
            add_diagnostic(&mut out, self, diagnostic);
        }
        if self.more > 0 {
            out.add("and ");
            out.add_display(self.more);
            out.add(" more\n");
        }
        out.done()
    }
}
