//! The forms of what is explained.
use crate::diagnostic::Explanation;
use std::alloc::{AllocError, Global};

/// The form of what is explained on standard error.
#[derive(Clone, Copy, Debug, PartialEq, Eq)]
pub enum Format {
    /// Lines for a person.
    Human,
    /// A JSON object a line, for programs.
    Json,
}

impl Explanation {
    /// The explanation in a form.
    ///
    /// # Errors
    ///
    /// Fails only when out of memory.
    pub fn to_text(&self, alloc: Global, format: Format) -> Result<String, AllocError> {
        match format {
            Format::Human => self.to_lines(alloc),
            Format::Json => self.to_json_lines(alloc),
        }
    }
}
