//! What is explained of a file.
use base_places::Place;
use std::alloc::{AllocError, Global};

/// How much a diagnostic weighs.
#[derive(Clone, Copy, Debug, PartialEq, Eq)]
pub enum Severity {
    /// The file is refused, or a policy has a fault.
    Error,
    /// A policy is accepted, but is most likely a mistake.
    Warning,
}

/// A part of a text, and what is said of it.
#[derive(Drop)]
pub struct Mark {
    /// Where the part begins, in bytes from 0.
    pub start: usize,
    /// Where it ends, in bytes from 0. One character is marked where it is not after `start`.
    pub end: usize,
    /// What is said of it, perhaps nothing.
    pub says: String,
}

/// A part of what a fault or a warning of a policy is about.
#[derive(Drop)]
pub struct Subject {
    /// `policy`, `action`, `principal` or `resource`: its key in JSON.
    pub key: &'static str,
    /// The id of the policy; the uid of the action, as a policy writes it; or the type of the principal or the resource.
    pub says: String,
}

/// What is explained of one refusal, one fault or one warning.
#[derive(Drop)]
pub struct Diagnostic {
    /// How much it weighs.
    pub severity: Severity,
    /// Its number, as standard output has it; 0 where standard output says nothing of it.
    pub number: u16,
    /// Why, in words.
    pub reason: &'static str,
    /// Where it is in the file, in lines and columns from 0; or none if it has no place.
    pub place: Option<Place>,
    /// Which part of the file it is, in words; perhaps nothing.
    pub part: String,
    /// The policy that has a fault or a warning, and the first environment in which it has the fault; nothing of other refusals.
    pub subjects: Vec<Subject>,
    /// The parts of the text that are marked. The first one is at the place.
    pub marks: Vec<Mark>,
    /// What else is said.
    pub notes: Vec<String>,
    /// What to do about it, if one thing is likely.
    pub hint: Option<String>,
}

/// What is explained of a file.
#[derive(Drop)]
pub struct Explanation {
    /// The name of the file.
    pub file: String,
    /// The text of the file, of which lines are shown; empty where no line is.
    pub text: String,
    /// What is explained, in order.
    pub diagnostics: Vec<Diagnostic>,
    /// How many more there are, which are not explained.
    pub more: usize,
}

impl Explanation {
    /// Nothing yet, of a file with this name.
    pub fn new(alloc: Global, file: &str) -> Result<Self, AllocError> {
        Ok(Explanation {
            file: String::from_str(alloc, file)?,
            text: String::new(alloc),
            diagnostics: Vec::new(alloc),
            more: 0,
        })
    }

    /// One diagnostic of a file, of whose text no line is shown.
    pub fn of_one(alloc: Global, file: &str, diagnostic: Diagnostic) -> Result<Self, AllocError> {
        let mut explanation = Explanation::new(alloc, file)?;
        explanation.diagnostics.push(diagnostic)?;
        Ok(explanation)
    }
}
