//! What is said of a refused part.
ghost use Rattle.std.specs.Prelude.{◌≡◌, IfOk};

use crate::data_fault::DataFault;
use crate::found::add_found;
use base_places::Draft;
use serde_json::Value as Json;
use std::alloc::{AllocError, Global};

/// What is said of a refused part, without its number.
#[derive(Drop)]
pub(crate) struct Words {
    /// Where the part is.
    pub(crate) path: Draft,
    /// What is wrong.
    pub(crate) says: Draft,
    /// What to do. Empty where no one thing is likely.
    pub(crate) hint: Draft,
}

impl Words {
    /// No words yet, for the whole.
    pub(crate) fn new(alloc: Global) -> Words {
        Words {
            path: Draft::new(alloc),
            says: Draft::new(alloc),
            hint: Draft::new(alloc),
        }
    }

    /// Says which kind of JSON is expected, and which is found.
    pub(crate) fn want(&mut self, wanted: &str, json: &Json) {
        self.says.add_all(&["expected ", wanted, ", found "]);
        add_found(&mut self.says, json);
    }

    /// Says that a string is expected, and which kind of JSON is found.
    pub(crate) fn want_text(&mut self, json: &Json) {
        self.want("a string", json);
        if let Json::Number(_) = json {
            self.hint.add("write it in double quotes");
        }
    }

    /// Hints which other word may be meant, if one may.
    pub(crate) fn hint_at(&mut self, meant: Option<&str>) {
        if let Some(word) = meant {
            self.hint.add_all(&["did you mean `", word, "`?"]);
        }
    }

    /// The fault of this number with these words.
    pub(crate) fn numbered(self, number: u16) -> Result<DataFault, AllocError>
        ensures { IfOk result (λ found. found.number ≡ number) }
    {
        let hint = self.hint.done()?;
        Ok(DataFault {
            number,
            path: self.path.done()?,
            says: self.says.done()?,
            hint: if hint.is_empty() { None } else { Some(hint) },
        })
    }
}
