//! Common types, found by their places.
ghost use Rattle.std.specs.Prelude.{◌≡◌};
ghost use Rattle.cedar_schema_json.specs.Private.Behind.{IsBehind};
ghost use Rattle.cedar_schema_json.specs.Ends.{AreEnds, Leads};
ghost use Rattle.cedar_schema_json.specs.Expansion.{Table as Forms};
ghost use Rattle.cedar_schema_json.specs.TableView.{table_of};

use crate::form::Form;

/// The common types, as they are written, and for each of them a place that names alone lead to, with
/// the number of these names.
#[derive(Clone, Copy)]
pub struct Table<'a> {
    /// The forms, by their places.
    pub forms: &'a [Form],
    /// For each common type, the place that names alone lead to, and the number of these names (`ends_of`).
    pub ends: &'a [(usize, usize)],
}

/// What the name of a common type leads to.
pub(crate) enum Behind<'a> {
    /// A form, and how many further names may be followed in it.
    Form(&'a Form, usize),
    /// No common type.
    Nothing,
    /// More names than there are common types.
    Cycle,
}

impl<'a> Table<'a> {
    /// What a common type leads to, where so many names may be followed.
    pub(crate) fn behind(self, names: usize, place: usize) -> Behind<'a>
        requires { AreEnds (table_of self.forms.now) self.ends.now }
        ensures { IsBehind (table_of self.entry.forms.now) names place result }
    {
        let (end, followed) = end_of(self.ends, place);
        if names <= followed {
            return Behind::Cycle;
        }
        match self.forms.get(end) {
            Some(form) => Behind::Form(form, names - followed - 1),
            None => Behind::Nothing,
        }
    }
}

/// A place that names alone lead to, and the number of these names.
pub(crate) fn end_of(ends: &[(usize, usize)], place: usize) -> (usize, usize)
    ensures { (t : Forms) → AreEnds t ends.now → Leads t place result.1 result.0 }
{
    match ends.get(place) {
        Some(end) => *end,
        None => (place, 0),
    }
}
