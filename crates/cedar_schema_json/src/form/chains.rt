//! Where chains of common types lead, where each type of a chain only names the next. A chain may be as long as the schema. So
//! it is followed without recursion, in as many rounds as the logarithm of its length.
ghost use Rattle.std.specs.Prelude.{◌≡◌, IfOk};
ghost use Rattle.cedar_schema_json.specs.Ends.{AreEnds, Leads};
ghost use Rattle.cedar_schema_json.specs.Expansion.{Table as Forms};
ghost use Rattle.cedar_schema_json.specs.TableView.{table_of};

use crate::form::Form;
use crate::form::table::end_of;
use std::alloc::{AllocError, Global};

/// For each common type, the place that names alone lead to. Each round follows twice as many names as the one before.
pub fn ends_of(alloc: Global, forms: &[Form]) -> Result<Vec<(usize, usize)>, AllocError>
    ensures { IfOk result (λ ends. AreEnds (table_of forms.now) ends.items) }
{
    let mut ends = first_ends(alloc, forms)?;
    let mut reach: usize = 1;
    'double: while reach < forms.len() {
        ends = doubled(alloc, &ends)?;
        reach = reach.saturating_mul(2);
    }
    Ok(ends)
}

// For each common type the next one, where the type only names it.
fn first_ends(alloc: Global, forms: &[Form]) -> Result<Vec<(usize, usize)>, AllocError>
    ensures { IfOk result (λ ends. AreEnds (table_of forms.now) ends.items) }
{
    let mut ends = Vec::new(alloc);
    for place in 0..forms.len() {
        ends.push(first_end(forms, place))?;
    }
    Ok(ends)
}

fn first_end(forms: &[Form], place: usize) -> (usize, usize)
    ensures { Leads (table_of forms.now) place result.1 result.0 }
{
    match forms.get(place) {
        Some(Form::Common(next)) => (*next, 1),
        _ => (place, 0),
    }
}

// For each common type, the end of its end.
fn doubled(alloc: Global, ends: &[(usize, usize)]) -> Result<Vec<(usize, usize)>, AllocError>
    ensures { IfOk result (λ further. (t : Forms) → AreEnds t ends.now → AreEnds t further.items) }
{
    let mut further = Vec::new(alloc);
    for place in 0..ends.len() {
        further.push(end_of_end(ends, place))?;
    }
    Ok(further)
}

fn end_of_end(ends: &[(usize, usize)], place: usize) -> (usize, usize)
    ensures { (t : Forms) → AreEnds t ends.now → Leads t place result.1 result.0 }
{
    let (middle, first) = end_of(ends, place);
    let (end, second) = end_of(ends, middle);
    match first.checked_add(second) {
        Some(followed) => (end, followed),
        None => (middle, first),
    }
}
