//! An explanation as programs read it: a JSON object a line.
use crate::diagnostic::{Diagnostic, Explanation, Mark, Severity};
use base_places::{Draft, JsonDraft, Place};
use std::alloc::{AllocError, Global};

/// Adds a key with a text, without control characters and without characters that change the direction of text.
pub(crate) fn add_shown(alloc: Global, json: &mut JsonDraft, key: &str, text: &str) {
    json.key(key);
    json.shown(alloc, text);
}

// Where a mark ends that begins at a place. A mark of nothing is one column wide.
fn end_of(start: Place, marked: &str) -> Place {
    let end = Place::of(marked.as_bytes(), marked.len());
    if end.line == 0 {
        return Place {
            line: start.line,
            column: start.column.saturating_add(end.column.max(1)),
        };
    }
    Place {
        line: start.line.saturating_add(end.line),
        column: end.column,
    }
}

// A mark: `{"column":C,"end_column":C,"end_line":L,"line":L,"says":S}`, from line 1 and column 1. `end_line` and `end_column` are the
// place after the part; `end_line` is left out where it is the same line.
fn add_mark(alloc: Global, json: &mut JsonDraft, text: &str, mark: &Mark) {
    let start = Place::of(text.as_bytes(), mark.start);
    let end = end_of(start, text.get(mark.start..mark.end).unwrap_or(""));
    json.begin_object();
    json.number_at("column", start.column.saturating_add(1));
    json.number_at("end_column", end.column.saturating_add(1));
    if end.line > start.line {
        json.number_at("end_line", end.line.saturating_add(1));
    }
    json.number_at("line", start.line.saturating_add(1));
    add_shown(alloc, json, "says", mark.says.as_str());
    json.end_object();
}

// The marks, if there are any.
fn add_marks(alloc: Global, json: &mut JsonDraft, text: &str, marks: &[Mark]) {
    if marks.is_empty() {
        return;
    }
    json.key("marks");
    json.begin_array();
    for mark in marks {
        add_mark(alloc, json, text, mark);
    }
    json.end_array();
}

// The notes, if there are any.
fn add_notes(alloc: Global, json: &mut JsonDraft, notes: &[String]) {
    if notes.is_empty() {
        return;
    }
    json.key("notes");
    json.begin_array();
    for note in notes {
        json.shown(alloc, note.as_str());
    }
    json.end_array();
}

fn severity_of(severity: Severity) -> &'static str {
    match severity {
        Severity::Error => "error",
        Severity::Warning => "warning",
    }
}

// What a diagnostic is about under a key, if it is said.
fn add_subject(json: &mut JsonDraft, diagnostic: &Diagnostic, key: &str) {
    for subject in &diagnostic.subjects {
        if subject.key == key {
            json.string_at(key, subject.says.as_str());
        }
    }
}

// A diagnostic of a file that has this text. Its keys ascend.
fn add_diagnostic(
    alloc: Global,
    json: &mut JsonDraft,
    file: &str,
    text: &str,
    diagnostic: &Diagnostic,
) {
    json.begin_object();
    add_subject(json, diagnostic, "action");
    if let Some(place) = diagnostic.place {
        json.number_at("column", place.column.saturating_add(1));
    }
    add_shown(alloc, json, "file", file);
    if let Some(hint) = &diagnostic.hint {
        add_shown(alloc, json, "hint", hint.as_str());
    }
    if let Some(place) = diagnostic.place {
        json.number_at("line", place.line.saturating_add(1));
    }
    add_marks(alloc, json, text, &diagnostic.marks);
    add_notes(alloc, json, &diagnostic.notes);
    if diagnostic.number > 0 {
        json.number_at("number", usize::from(diagnostic.number));
    }
    if !diagnostic.part.is_empty() {
        add_shown(alloc, json, "part", diagnostic.part.as_str());
    }
    add_subject(json, diagnostic, "policy");
    add_subject(json, diagnostic, "principal");
    add_shown(alloc, json, "reason", diagnostic.reason);
    add_subject(json, diagnostic, "resource");
    add_shown(alloc, json, "severity", severity_of(diagnostic.severity));
    json.end_object();
}

/// Adds a JSON, and the end of the line.
pub(crate) fn add_line(lines: &mut Draft, json: JsonDraft) {
    lines.add_made(json.done());
    lines.add_char('\n');
}

impl Explanation {
    /// A JSON object a line: one for each diagnostic, and at the end `{"more":N}` if N more are not explained. Its keys ascend; a
    /// key is left out where there is nothing to say. Lines and columns are from 1.
    ///
    /// # Errors
    ///
    /// Fails only when out of memory.
    pub fn to_json_lines(&self, alloc: Global) -> Result<String, AllocError> {
        let mut lines = Draft::new(alloc);
        for diagnostic in &self.diagnostics {
            let mut json = JsonDraft::new(alloc);
            let file = self.file.as_str();
            add_diagnostic(alloc, &mut json, file, self.text.as_str(), diagnostic);
            add_line(&mut lines, json);
        }
        if self.more > 0 {
            let mut json = JsonDraft::new(alloc);
            json.begin_object();
            json.number_at("more", self.more);
            json.end_object();
            add_line(&mut lines, json);
        }
        lines.done()
    }
}
