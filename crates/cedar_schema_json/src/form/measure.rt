//! The size of a form with its common types expanded, counted before the type is made.
ghost use Rattle.std.specs.Prelude.{◌≡◌, []};
ghost use Rattle.cedar_schema_json.specs.FormView.{form_of};
ghost use Rattle.cedar_schema_json.specs.Private.Expanding.{expanded};
ghost use Rattle.cedar_schema_json.specs.Private.FieldView.{fields_view};
ghost use Rattle.cedar_schema_json.specs.Expansion.{size, rows_size, rows_faults, common_size, cycle_faults};
ghost use Rattle.cedar_schema_json.specs.Ends.{AreEnds};
ghost use Rattle.cedar_schema_json.specs.Private.Measures.{Leaves};
ghost use Rattle.cedar_schema_json.specs.TableView.{table_of};

use crate::form::table::{Behind, Table};
use crate::form::{Form, FormField};
use crate::schema_fault::SchemaFault;

fn take_one(levels: u32, room: u32) -> Result<u32, SchemaFault>
    ensures { Leaves result room levels (record { nodes = 1; height = 1 }) [] }
{
    if levels == 0 || room == 0 {
        Err(SchemaFault::TooLarge)
    } else {
        Ok(room - 1)
    }
}

/// What is left of the room for nodes after a form, with its common types expanded. Refused where the form has more nodes than
/// the room, more levels than these, or a chain of more names than these.
#[cycle(measure)]
pub(crate) fn measure(
    table: Table<'_>,
    names: usize,
    form: &Form,
    levels: u32,
    room: u32,
) -> Result<u32, SchemaFault>
    requires { AreEnds (table_of table.forms.now) table.ends.now }
    ensures { Leaves result room levels
        (size (table_of table.entry.forms.now) names (form_of form.now))
        (expanded (table_of table.entry.forms.now) names (form_of form.now)).faults }
{
    match form {
        Form::Set(element) => {
            let left = take_one(levels, room)?;
            measure(table, names, element, levels - 1, left)
        }
        Form::Record(fields) => {
            let left = take_one(levels, room)?;
            measure_fields(table, names, fields, levels - 1, left)
        }
        Form::Common(place) => measure_common(table, names, *place, levels, room),
        Form::Boolean | Form::Long | Form::Text | Form::Extension(_) | Form::Entity(_) => {
            take_one(levels, room)
        }
    }
}

#[cycle(measure)]
fn measure_common(
    table: Table<'_>,
    names: usize,
    place: usize,
    levels: u32,
    room: u32,
) -> Result<u32, SchemaFault>
    requires { AreEnds (table_of table.forms.now) table.ends.now }
    ensures { Leaves result room levels
        (common_size (table_of table.entry.forms.now) names place)
        (cycle_faults (table_of table.entry.forms.now) names place) }
{
    match table.behind(names, place) {
        Behind::Form(form, left) => measure(table, left, form, levels, room),
        Behind::Nothing => Err(SchemaFault::UnknownType),
        Behind::Cycle => Err(SchemaFault::CommonCycle),
    }
}

#[cycle(measure)]
fn measure_fields(
    table: Table<'_>,
    names: usize,
    fields: &Vec<FormField>,
    levels: u32,
    room: u32,
) -> Result<u32, SchemaFault>
    requires { AreEnds (table_of table.forms.now) table.ends.now }
    ensures { Leaves result room levels
        (rows_size (common_size (table_of table.entry.forms.now) names) (fields_view fields.now.items))
        (rows_faults (cycle_faults (table_of table.entry.forms.now) names) (fields_view fields.now.items)) }
{
    let mut left = room;
    for i in 0..fields.len() {
        left = measure(table, names, &fields[i].form, levels, left)?;
    }
    Ok(left)
}
