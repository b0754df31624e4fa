//! Where in a policy text its statements are, and the parts of their conditions.
ghost use Rattle.std.specs.Prelude.{◌≡◌, ◌≤◌, IfOk, IfSome, length};

use crate::clause::Clause;
use crate::extent::{Extent, PartPlace};
use crate::place::{clause_in_statement, place_in_statement};
use crate::statements::{Bounds, Statements};
use std::alloc::{AllocError, Global};
use std::marker::Model;

/// A policy text, and where its statements are. The text is read once for this. What is then looked for takes the time of reading one
/// statement. Contracts see the bytes of the text.
#[derive(Drop)]
pub struct StatementPlaces<'t> {
    text: &'t str,
    statements: Statements,
}

impl<'t> Model for StatementPlaces<'t> {
    ghost use Rattle.std.specs.Prelude.{List, ℕ};

    ghost Value = { List ℕ };

    ghost view = { λ s. s.text.now };
}

impl<'t> StatementPlaces<'t> {
    /// Reads a text, up to the first statement that cannot be read. A text that has no tokens has no statements.
    ///
    /// # Errors
    ///
    /// Fails only when out of memory.
    pub fn of(alloc: Global, text: &'t str) -> Result<StatementPlaces<'t>, AllocError>
        ensures { IfOk result (λ places. places ≡ text.now) }
    {
        let statements = Statements::of(alloc, text)?;
        Ok(StatementPlaces { text, statements })
    }

    /// The text.
    pub fn text(&self) -> &'t str
        ensures { result.now ≡ self.now }
    {
        self.text
    }

    /// Where the first statement with an id begins, in bytes from 0; or none if the text has no statement with this id, for example
    /// since a link has it.
    pub fn start_of(&self, id: &str) -> Option<usize> {
        Some(self.statements.with_id(id)?.start)
    }

    /// Where the first statement begins that has the id of the one at a place, in bytes from 0.
    pub fn first_of_id(&self, at: usize) -> Option<usize> {
        Some(self.statements.first_like(at)?.start)
    }

    /// Where the part of a policy's condition at a path is written; or none if the text has no such statement or part.
    ///
    /// `id` is the id of a statement: the value of its annotation `id`, or else `policyN` for the statement at position N from 0. A
    /// policy that is linked from a template is written as the template is, so it is found by the id of the template.
    ///
    /// `path` leads from the whole condition, `principal && (action && (resource && conditions))`, by the number of the child at each
    /// step: 0 for the left and 1 for the right one of `&&`, `||` and other operators on two operands; 0, 1 and 2 for the condition
    /// and the branches of `if`; 0 for the operand of an operator on one; and the position, from 0, of a member of a set or of an
    /// entry of a record. A part that is not written as such, such as the `==` that `!=` negates, has the place of what is written
    /// around it.
    ///
    /// # Errors
    ///
    /// Fails only when out of memory.
    pub fn part(
        &self,
        alloc: Global,
        id: &str,
        path: &[usize],
    ) -> Result<Option<PartPlace>, AllocError>
        // The part is inside the text.
        ensures inside { IfOk result (λ o. IfSome o (λ p. p.whole.end ≤ length self.now)) }
        // Its name is inside the part.
        ensures name_begins { IfOk result (λ o. IfSome o (λ p. p.whole.start ≤ p.name.start)) }
        ensures name_goes_on { IfOk result (λ o. IfSome o (λ p. p.name.start ≤ p.name.end)) }
        ensures name_ends { IfOk result (λ o. IfSome o (λ p. p.name.end ≤ p.whole.end)) }
    {
        match self.place_of_part(alloc, id, path) {
            Ok(place) => Ok(checked(self.text.len(), place)),
            Err(fault) => Err(fault),
        }
    }

    /// Which clause of a policy's statement a path leads into; or none if the text has no such statement, or the path ends above its
    /// clauses. `id` and `path` are those of [`StatementPlaces::part`].
    ///
    /// # Errors
    ///
    /// Fails only when out of memory.
    pub fn clause(
        &self,
        alloc: Global,
        id: &str,
        path: &[usize],
    ) -> Result<Option<Clause>, AllocError> {
        let Some(bounds) = self.statements.with_id(id) else {
            return Ok(None);
        };
        clause_in_statement(alloc, self.written(bounds), path)
    }

    // The text of a statement, and what follows it up to the next one.
    fn written(&self, bounds: Bounds) -> &'t str {
        self.text.get(bounds.start..bounds.end).unwrap_or("")
    }

    fn place_of_part(
        &self,
        alloc: Global,
        id: &str,
        path: &[usize],
    ) -> Result<Option<PartPlace>, AllocError> {
        let Some(bounds) = self.statements.with_id(id) else {
            return Ok(None);
        };
        match place_in_statement(alloc, self.written(bounds), path)? {
            Some(place) => Ok(Some(PartPlace {
                whole: moved(place.whole, bounds.start),
                name: moved(place.name, bounds.start),
            })),
            None => Ok(None),
        }
    }
}

// A place in the text of a statement that begins at a byte as one in the whole text.
fn moved(extent: Extent, start: usize) -> Extent {
    Extent {
        start: extent.start.saturating_add(start),
        end: extent.end.saturating_add(start),
    }
}

// A place in a text of this many bytes. Tokens are in order and inside their text, so it always is one.
fn checked(size: usize, place: Option<PartPlace>) -> Option<PartPlace>
    ensures inside { IfSome result (λ p. p.whole.end ≤ size) }
    ensures name_begins { IfSome result (λ p. p.whole.start ≤ p.name.start) }
    ensures name_goes_on { IfSome result (λ p. p.name.start ≤ p.name.end) }
    ensures name_ends { IfSome result (λ p. p.name.end ≤ p.whole.end) }
{
    let Some(place) = place else {
        return None;
    };
    if place.whole.end <= size
        && place.whole.start <= place.name.start
        && place.name.start <= place.name.end
        && place.name.end <= place.whole.end
    {
        return Some(place);
    }
    None
}
