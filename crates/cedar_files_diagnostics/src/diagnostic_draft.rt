//! What is explained of one refusal, one fault or one warning, while it is written.
use crate::diagnostic::{Diagnostic, Explanation, Mark, Severity, Subject};
use base_places::{Draft, DraftList, Place};
use std::alloc::{AllocError, Global};

/// A diagnostic that is written piece by piece, which remembers that memory was refused: the pieces need no `?`, but the whole one, at
/// `done`.
#[derive(Drop)]
pub(crate) struct DiagnosticDraft {
    alloc: Global,
    /// How much it weighs.
    pub(crate) severity: Severity,
    /// Its number.
    pub(crate) number: u16,
    reason: &'static str,
    /// Where it is in the file, in lines and columns from 0.
    pub(crate) place: Option<Place>,
    /// Which part of the file it is, in words.
    pub(crate) part: Draft,
    subjects: DraftList<Subject>,
    marks: DraftList<Mark>,
    notes: DraftList<String>,
    hint: Draft,
}

impl DiagnosticDraft {
    /// An error with a number and a reason, without a place. Takes no memory.
    pub(crate) fn error(alloc: Global, number: u16, reason: &'static str) -> Self {
        DiagnosticDraft {
            alloc,
            severity: Severity::Error,
            number,
            reason,
            place: None,
            part: Draft::new(alloc),
            subjects: DraftList::new(alloc),
            marks: DraftList::new(alloc),
            notes: DraftList::new(alloc),
            hint: Draft::new(alloc),
        }
    }

    /// Says what it is about, by a key of JSON.
    pub(crate) fn name(&mut self, key: &'static str, says: &str) {
        self.name_made(key, String::from_str(self.alloc, says));
    }

    /// Says what it is about with words that were made elsewhere, or remembers that they could not be made.
    pub(crate) fn name_made(&mut self, key: &'static str, made: Result<String, AllocError>) {
        self.subjects
            .add_made(made.map(|says| Subject { key, says }));
    }

    /// Marks a part of the text, after the marks that it has.
    pub(crate) fn mark(&mut self, start: usize, end: usize, says: &str) {
        self.mark_made(start, end, String::from_str(self.alloc, says));
    }

    /// Marks a part of the text with words that were made elsewhere, or remembers that they could not be made.
    pub(crate) fn mark_made(&mut self, start: usize, end: usize, made: Result<String, AllocError>) {
        let mark = made.map(|says| Mark { start, end, says });
        self.marks.add_made(mark);
    }

    /// Adds a note of these pieces, after the notes that it has.
    pub(crate) fn note(&mut self, pieces: &[&str]) {
        let mut note = Draft::new(self.alloc);
        note.add_all(pieces);
        self.note_made(note.done());
    }

    /// Adds a note that was made elsewhere, or remembers that it could not be made.
    pub(crate) fn note_made(&mut self, made: Result<String, AllocError>) {
        self.notes.add_made(made);
    }

    /// Says what to do, in place of what was said before.
    pub(crate) fn advise(&mut self, hint: &str) {
        self.advise_all(&[hint]);
    }

    /// Says what to do in these pieces, in place of what was said before.
    pub(crate) fn advise_all(&mut self, pieces: &[&str]) {
        let mut draft = Draft::new(self.alloc);
        draft.add_all(pieces);
        self.hint = draft;
    }

    /// The diagnostic. Without words there is no hint.
    ///
    /// # Errors
    ///
    /// Fails only when out of memory, now or at any piece.
    pub(crate) fn done(self) -> Result<Diagnostic, AllocError> {
        let hint = self.hint.done()?;
        Ok(Diagnostic {
            severity: self.severity,
            number: self.number,
            reason: self.reason,
            place: self.place,
            part: self.part.done()?,
            subjects: self.subjects.done()?,
            marks: self.marks.done()?,
            notes: self.notes.done()?,
            hint: if hint.is_empty() { None } else { Some(hint) },
        })
    }

    /// The explanation of a file that has this diagnostic alone, and shows no line of the text.
    ///
    /// # Errors
    ///
    /// Fails only when out of memory, now or at any piece.
    pub(crate) fn alone(self, file: &str) -> Result<Explanation, AllocError> {
        let alloc = self.alloc;
        let diagnostic = self.done()?;
        Explanation::of_one(alloc, file, diagnostic)
    }
}
