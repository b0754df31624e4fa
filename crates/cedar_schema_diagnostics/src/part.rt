//! The part of a schema that is refused.
use crate::step::{Step, add_step};
use crate::text::joined;
use base_places::Draft;
use std::alloc::{AllocError, Global};

/// The part of a schema's JSON for which it is refused.
#[derive(Drop)]
pub struct RefusedPart {
    /// The way to the part from the root of the JSON, for example `Shop.actions.approve.appliesTo.resourceTypes[0]`. A key that is not
    /// an identifier is in quotes, for example `"".entityTypes.User`. A key is cut after 80 bytes. The path is empty where the part is
    /// the whole JSON.
    pub path: String,
    /// What is wrong, for example "there is no entity type `Ordre` in the namespace `Shop`, nor in the empty one".
    pub says: String,
    /// What may be written instead, for example "is `Order` meant?"; none where nothing better is known than what helps against every
    /// refusal of this number.
    pub hint: Option<String>,
}

/// What is said of a refused part. It remembers if memory was refused while the part was looked for.
#[derive(Drop)]
pub(crate) struct Refusal {
    path: Draft,
    says: Draft,
    hint: Draft,
}

impl Refusal {
    // The same, seen from the JSON from which a step leads.
    fn seen_from(self, alloc: Global, step: Step<'_>) -> Refusal {
        let mut path = Draft::new(alloc);
        add_step(&mut path, step);
        path.add_made(self.path.done());
        Refusal {
            path,
            says: self.says,
            hint: self.hint,
        }
    }

    /// The part. Without any words there is no hint.
    ///
    /// # Errors
    ///
    /// Fails only when out of memory, now or while the part was looked for.
    pub(crate) fn done(self) -> Result<RefusedPart, AllocError> {
        let hint = self.hint.done()?;
        Ok(RefusedPart {
            path: self.path.done()?,
            says: self.says.done()?,
            hint: if hint.is_empty() { None } else { Some(hint) },
        })
    }
}

/// What is refused at a step, seen from the JSON from which the step leads.
pub(crate) fn at(alloc: Global, step: Step<'_>, found: Option<Refusal>) -> Option<Refusal> {
    match found {
        Some(refusal) => Some(refusal.seen_from(alloc, step)),
        None => None,
    }
}

/// A part with the empty path.
pub(crate) fn part_with(alloc: Global, says: Draft, hint: Draft) -> Refusal {
    Refusal {
        path: Draft::new(alloc),
        says,
        hint,
    }
}

/// A part with the empty path, of which these pieces say what is wrong. Without pieces there is no hint.
pub(crate) fn part_of(alloc: Global, says: &[&str], hint: &[&str]) -> Option<Refusal> {
    Some(part_with(alloc, joined(alloc, says), joined(alloc, hint)))
}

/// What was found, or a part that remembers that memory was refused.
pub(crate) fn remembered(
    alloc: Global,
    found: Result<Option<Refusal>, AllocError>,
) -> Option<Refusal> {
    match found {
        Ok(found) => found,
        Err(AllocError) => {
            let mut says = Draft::new(alloc);
            says.add_made(Err(AllocError));
            Some(part_with(alloc, says, Draft::new(alloc)))
        }
    }
}
