//! The expansion of common types.
ghost use Rattle.std.specs.Prelude.{◌≡◌, [], Some, MatchResult};
ghost use Rattle.cedar_schema_json.specs.Faults.{Told};
ghost use Rattle.cedar_schema_json.specs.FormView.{form_of};
ghost use Rattle.cedar_schema_json.specs.Private.Expanding.{expanded};
ghost use Rattle.cedar_schema_json.specs.Private.FieldView.{field_of, fields_view};
ghost use Rattle.cedar_schema_types.specs.Types.{no_attributes};
ghost use Rattle.cedar_schema_json.specs.Expansion.{rows_type, rows_faults, common_type, cycle_faults, typed};
ghost use Rattle.cedar_schema_json.specs.Ends.{AreEnds};
ghost use Rattle.cedar_schema_json.specs.TableView.{table_of, Expands};

use crate::form::measure::measure;
use crate::form::table::{Behind, Table};
use crate::form::{Form, FormField};
use crate::schema_fault::SchemaFault;
use cedar_schema_types::{Attribute, RecordType, Truth, Type, TypeKind};
use cedar_value::SharedText;
use std::alloc::Global;

/// The type of a form, with at most so many names followed in a chain.
#[cycle(expand)]
pub(crate) fn expand(
    alloc: Global,
    table: Table<'_>,
    names: usize,
    form: &Form,
) -> Result<Type, SchemaFault>
    requires { AreEnds (table_of table.forms.now) table.ends.now }
    ensures { Expands result (expanded (table_of table.entry.forms.now) names (form_of form.now)) }
{
    match form {
        Form::Boolean => Ok(Type::new(TypeKind::Boolean(Truth::Any))),
        Form::Long => Ok(Type::new(TypeKind::Long)),
        Form::Text => Ok(Type::new(TypeKind::String)),
        Form::Extension(extension) => Ok(Type::new(TypeKind::Extension(*extension))),
        Form::Entity(name) => Ok(Type::new(TypeKind::Entity(name.try_clone(alloc)?))),
        Form::Set(element) => {
            let element = expand(alloc, table, names, element)?;
            Ok(Type::new(TypeKind::Set(Box::new(alloc, element)?)))
        }
        Form::Record(fields) => Ok(Type::new(TypeKind::Record(expand_fields(
            alloc, table, names, fields,
        )?))),
        Form::Common(place) => expand_common(alloc, table, names, *place),
    }
}

#[cycle(expand)]
fn expand_common(
    alloc: Global,
    table: Table<'_>,
    names: usize,
    place: usize,
) -> Result<Type, SchemaFault>
    requires { AreEnds (table_of table.forms.now) table.ends.now }
    ensures { Expands result (record { ty = common_type (table_of table.entry.forms.now) names place; faults = cycle_faults (table_of table.entry.forms.now) names place }) }
{
    match table.behind(names, place) {
        Behind::Form(form, left) => expand(alloc, table, left, form),
        Behind::Nothing => Err(SchemaFault::UnknownType),
        Behind::Cycle => Err(SchemaFault::CommonCycle),
    }
}

#[cycle(expand)]
fn expand_fields(
    alloc: Global,
    table: Table<'_>,
    names: usize,
    fields: &Vec<FormField>,
) -> Result<RecordType, SchemaFault>
    requires { AreEnds (table_of table.forms.now) table.ends.now }
    ensures { MatchResult result
        (λ r. (rows_faults (cycle_faults (table_of table.entry.forms.now) names) (fields_view fields.now.items) ≡ [])
        × (Some r ≡ rows_type (common_type (table_of table.entry.forms.now) names) (Some no_attributes) (fields_view fields.now.items)))
        (λ e. Told (rows_faults (cycle_faults (table_of table.entry.forms.now) names) (fields_view fields.now.items)) e) }
{
    let mut attributes = RecordType::new(alloc);
    for i in 0..fields.len() {
        let attribute = expand_field(alloc, table, names, &fields[i])?;
        attributes.insert(attribute)?;
    }
    Ok(attributes)
}

#[cycle(expand)]
fn expand_field(
    alloc: Global,
    table: Table<'_>,
    names: usize,
    field: &FormField,
) -> Result<Attribute, SchemaFault>
    requires { AreEnds (table_of table.forms.now) table.ends.now }
    ensures { MatchResult result
        (λ a. let e = expanded (table_of table.entry.forms.now) names (form_of field.now.form) in (e.faults ≡ []) × (a.name ≡ (field_of field.now).name) × (a.required ≡ (field_of field.now).required) × (Some a.ty ≡ e.ty))
        (λ e. Told (expanded (table_of table.entry.forms.now) names (form_of field.now.form)).faults e) }
{
    let ty = expand(alloc, table, names, &field.form)?;
    Ok(Attribute {
        name: SharedText::read(alloc, field.name.as_str())?,
        ty,
        required: field.required,
    })
}

/// Refuses a form that is too large with its common types expanded, or that leads back to itself. Takes no memory.
///
/// # Errors
///
/// Only a fault that the form has: 303 where a common type is not declared, 304 where its names lead back to one of them, and
/// 309 where it has more than 10,000 nodes or is more than 100 high.
#[tactic(auto, unfolding(crate::specs::Expansion::typed))]
pub fn judge(table: Table<'_>, form: &Form) -> Result<(), SchemaFault>
    requires { AreEnds (table_of table.forms.now) table.ends.now }
    ensures { MatchResult result
        (λ _. (typed (table_of table.entry.forms.now) (form_of form.now)).faults ≡ [])
        (λ e. Told (typed (table_of table.entry.forms.now) (form_of form.now)).faults e) }
{
    measure(table, table.forms.len(), form, 100, 10_000)?;
    Ok(())
}

/// The type of a form. Its size is counted before it is made.
pub(crate) fn build(alloc: Global, table: Table<'_>, form: &Form) -> Result<Type, SchemaFault>
    requires { AreEnds (table_of table.forms.now) table.ends.now }
    ensures { Expands result (typed (table_of table.entry.forms.now) (form_of form.now)) }
{
    judge(table, form)?;
    expand(alloc, table, table.forms.len(), form)
}
