//! From the JSON of a type to its form.
ghost use Rattle.std.specs.Prelude.{◌≡◌, ◌++◌, [], map, string_bytes, IfOk, MatchResult, option_map, unwrap_or, codes};
ghost use Rattle.serde_json.specs.View.{view, members_view};
ghost use Rattle.serde_json.specs.Find.{get};
ghost use Rattle.cedar_schema_json.specs.Faults.{Told};
ghost use Rattle.cedar_schema_json.specs.FormView.{form_of};
ghost use Rattle.cedar_schema_json.specs.Private.FieldView.{fields_view};
ghost use Rattle.cedar_schema_json.specs.Reads.{Reads, scope_of};
ghost use Rattle.cedar_schema_json.specs.Private.ReadsField.{ReadsField};
ghost use Rattle.cedar_schema_json.specs.declared.form.position.Position.TheVariants as position;
ghost use Rattle.cedar_schema_json.specs.Reading.{built_in, declared_type, either_read, named_read, type_called, may_have, key_faults, text_at, entity_read, common_read, extension_named, closed_faults, required_faults, is_required, type_read, rows_read, all_rows, no_rows_read, of_kind, set_of, record_of, needed, with_faults};

use crate::form::kind::{Kind, kind_in, may_have};
use crate::form::position::Position;
use crate::form::{Form, FormField};
use crate::json::naming::{qualified, read_declared, read_name, whole_name};
use crate::json::scope::Scope;
use crate::schema_fault::SchemaFault;
use cedar_ext::{ExtensionType, Language};
use cedar_value::Name;
use serde_json::{Map, Value};
use std::alloc::{AllocError, Global};

// Refuses a key that a type of the kind may not have where it is written.
fn check_keys(
    language: Language,
    members: &Map<String, Value>,
    kind: Kind,
    position: Position,
) -> Result<(), SchemaFault>
    ensures { MatchResult result
        (λ _. key_faults (may_have language kind position) (members_view members.now.entries) ≡ [])
        (λ e. Told (key_faults (may_have language kind position) (members_view members.now.entries)) e) }
{
    for (key, json) in members.iter() {
        if !may_have(language, kind, position, key.as_str(), json) {
            return Err(SchemaFault::Shape);
        }
    }
    Ok(())
}

/// The string at a key.
pub fn text_at<'v>(json: &'v Value, key: &str) -> Option<&'v str>
    ensures { option_map (λ s. s.now) result ≡ text_at key.now (view json.now) }
{
    json.get(key).and_then(Value::as_str)
}

fn read_entity(alloc: Global, scope: &Scope<'_>, json: &Value) -> Result<Form, SchemaFault>
    ensures { Reads result (entity_read (scope_of scope.now) (text_at (codes "name") (view json.now))) }
{
    match text_at(json, "name") {
        Some(text) => {
            let found = read_declared(alloc, scope.entities, scope.namespace, text)?;
            Ok(Form::Entity(found.0))
        }
        None => Err(SchemaFault::Shape),
    }
}

// The built-in type of a name.
#[tactic(auto, unfolding(crate::specs::Reading::built_in))]
fn built_in(text: &str) -> Option<Form>
    ensures { option_map form_of result ≡ built_in text.now }
{
    match text {
        "Long" | "__cedar::Long" => Some(Form::Long),
        "String" | "__cedar::String" => Some(Form::Text),
        "Bool" | "__cedar::Bool" | "Boolean" | "__cedar::Boolean" => Some(Form::Boolean),
        "decimal" | "__cedar::decimal" => Some(Form::Extension(ExtensionType::Decimal)),
        "ipaddr" | "__cedar::ipaddr" => Some(Form::Extension(ExtensionType::Ip)),
        "datetime" | "__cedar::datetime" => Some(Form::Extension(ExtensionType::Datetime)),
        "duration" | "__cedar::duration" => Some(Form::Extension(ExtensionType::Duration)),
        _ => None,
    }
}

// The declared type of a full name: a common type, or else an entity type.
fn declared_type(scope: &Scope<'_>, name: Name) -> Option<Form>
    ensures { option_map form_of result ≡ declared_type (scope_of scope.now) name }
{
    match scope.commons.place(&name) {
        Some(place) => Some(Form::Common(place)),
        None => match scope.entities.place(&name) {
            Some(_) => Some(Form::Entity(name)),
            None => None,
        },
    }
}

// The type of a name: a declared one, or else a built-in one.
#[tactic(auto, unfolding(crate::specs::Reading::type_called, crate::specs::Naming::qualified))]
fn type_called(alloc: Global, scope: &Scope<'_>, text: &str) -> Result<Option<Form>, AllocError>
    ensures { IfOk result (λ o. option_map form_of o ≡ type_called (scope_of scope.now) text.now) }
{
    let whole = whole_name(alloc, scope.namespace, text)?;
    if let Some(form) = declared_type(scope, whole) {
        return Ok(Some(form));
    }
    let name = qualified(alloc, "", text)?;
    match declared_type(scope, name) {
        Some(form) => Ok(Some(form)),
        None => Ok(built_in(text)),
    }
}

fn read_either(alloc: Global, scope: &Scope<'_>, text: &str) -> Result<Form, SchemaFault>
    ensures { Reads result (either_read (scope_of scope.now) text.now) }
{
    match type_called(alloc, scope, text)? {
        Some(form) => Ok(form),
        None => {
            read_name(alloc, text)?;
            Err(SchemaFault::UnknownType)
        }
    }
}

fn read_entity_or_common(
    alloc: Global,
    scope: &Scope<'_>,
    json: &Value,
) -> Result<Form, SchemaFault>
    ensures { Reads result (needed (either_read (scope_of scope.now)) (text_at (codes "name") (view json.now))) }
{
    match text_at(json, "name") {
        Some(text) => read_either(alloc, scope, text),
        None => Err(SchemaFault::Shape),
    }
}

fn read_named(alloc: Global, scope: &Scope<'_>, text: &str) -> Result<Form, SchemaFault>
    ensures { Reads result (named_read scope.now.language (scope_of scope.now) text.now) }
{
    match scope.language {
        Language::Profile => read_common(alloc, scope, text),
        Language::Cedar4 => read_either(alloc, scope, text),
    }
}

fn read_common(alloc: Global, scope: &Scope<'_>, text: &str) -> Result<Form, SchemaFault>
    ensures { Reads result (common_read (scope_of scope.now) text.now) }
{
    let found = read_declared(alloc, scope.commons, scope.namespace, text)?;
    Ok(Form::Common(found.1))
}

fn read_extension(alloc: Global, scope: &Scope<'_>, json: &Value) -> Result<Form, SchemaFault>
    ensures { Reads result (needed (extension_named scope.now.language) (text_at (codes "name") (view json.now))) }
{
    match text_at(json, "name") {
        Some(text) => match ExtensionType::named_in(scope.language, text) {
            Some(extension) => Ok(Form::Extension(extension)),
            None => {
                read_name(alloc, text)?;
                Err(SchemaFault::UnknownType)
            }
        },
        None => Err(SchemaFault::Shape),
    }
}

// Refuses a record that is open, or whose `additionalAttributes` is not a Boolean.
fn check_closed(json: &Value) -> Result<(), SchemaFault>
    ensures { MatchResult result
        (λ _. closed_faults (get (codes "additionalAttributes") (view json.now)) ≡ [])
        (λ e. Told (closed_faults (get (codes "additionalAttributes") (view json.now))) e) }
{
    match json.get("additionalAttributes") {
        None => Ok(()),
        Some(Value::Bool(false)) => Ok(()),
        Some(Value::Bool(true)) => Err(SchemaFault::OpenRecord),
        Some(_) => Err(SchemaFault::Shape),
    }
}

fn read_required(json: &Value) -> Result<bool, SchemaFault>
    ensures { MatchResult result
        (λ b. (required_faults (get (codes "required") (view json.now)) ≡ []) × (b ≡ is_required (get (codes "required") (view json.now))))
        (λ e. Told (required_faults (get (codes "required") (view json.now))) e) }
{
    match json.get("required") {
        None => Ok(true),
        Some(Value::Bool(b)) => Ok(*b),
        Some(_) => Err(SchemaFault::Shape),
    }
}

/// The form that the JSON of a type writes.
///
/// # Errors
///
/// 1 when out of memory, and otherwise 302, 303, 306 or 307 only where that fault is in the JSON.
#[cycle(read)]
pub fn read_type(
    alloc: Global,
    scope: &Scope<'_>,
    json: &Value,
    position: Position,
) -> Result<Form, SchemaFault>
    ensures { Reads result (type_read (scope_of scope.now) position (view json.now)) }
{
    match json.as_object() {
        None => Err(SchemaFault::Shape),
        Some(members) => match text_at(json, "type") {
            None => Err(SchemaFault::Shape),
            Some(text) => {
                let kind = kind_in(scope.language, text);
                check_keys(scope.language, members, kind, position)?;
                read_kind(alloc, scope, json, text, kind)
            }
        },
    }
}

#[cycle(read)]
fn read_kind(
    alloc: Global,
    scope: &Scope<'_>,
    json: &Value,
    text: &str,
    kind: Kind,
) -> Result<Form, SchemaFault>
    ensures { Reads result (of_kind (scope_of scope.now) (view json.now) text.now kind
        (option_map (type_read (scope_of scope.now) position.Inner) (get (codes "element") (view json.now)))
        (option_map (rows_read (scope_of scope.now)) (get (codes "attributes") (view json.now)))) }
{
    match kind {
        Kind::Boolean => Ok(Form::Boolean),
        Kind::Long => Ok(Form::Long),
        Kind::Text => Ok(Form::Text),
        Kind::Set => read_set(alloc, scope, json),
        Kind::Record => read_record(alloc, scope, json),
        Kind::Entity => read_entity(alloc, scope, json),
        Kind::Extension => read_extension(alloc, scope, json),
        Kind::EntityOrCommon => read_entity_or_common(alloc, scope, json),
        Kind::Named => read_named(alloc, scope, text),
    }
}

#[cycle(read)]
fn read_set(alloc: Global, scope: &Scope<'_>, json: &Value) -> Result<Form, SchemaFault>
    ensures { Reads result (needed set_of
        (option_map (type_read (scope_of scope.now) position.Inner) (get (codes "element") (view json.now)))) }
{
    match json.get("element") {
        Some(element) => {
            let element = read_type(alloc, scope, element, Position::Inner)?;
            Ok(Form::Set(Box::new(alloc, element)?))
        }
        None => Err(SchemaFault::Shape),
    }
}

#[cycle(read)]
fn read_record(alloc: Global, scope: &Scope<'_>, json: &Value) -> Result<Form, SchemaFault>
    ensures { Reads result (with_faults (closed_faults (get (codes "additionalAttributes") (view json.now)))
        (record_of (unwrap_or (option_map (rows_read (scope_of scope.now)) (get (codes "attributes") (view json.now))) no_rows_read))) }
{
    check_closed(json)?;
    match json.get("attributes") {
        Some(attributes) => read_attributes(alloc, scope, attributes),
        None => Ok(Form::Record(Vec::new(alloc))),
    }
}

#[cycle(read)]
fn read_attributes(alloc: Global, scope: &Scope<'_>, json: &Value) -> Result<Form, SchemaFault>
    ensures { Reads result (record_of (rows_read (scope_of scope.now) (view json.now))) }
{
    match json.as_object() {
        Some(members) => Ok(Form::Record(read_fields(alloc, scope, members)?)),
        None => Err(SchemaFault::Shape),
    }
}

#[cycle(read)]
fn read_fields(
    alloc: Global,
    scope: &Scope<'_>,
    members: &Map<String, Value>,
) -> Result<Vec<FormField>, SchemaFault>
    ensures { MatchResult result
        (λ v. let r = all_rows (scope_of scope.now) (members_view members.now.entries) in (r.faults ≡ []) × (fields_view v.items ≡ r.rows))
        (λ e. Told (all_rows (scope_of scope.now) (members_view members.now.entries)).faults e) }
{
    let mut fields = Vec::new(alloc);
    for (key, attribute) in members.iter() {
        let field = read_field(alloc, scope, key, attribute)?;
        fields.push(field)?;
    }
    Ok(fields)
}

#[cycle(read)]
fn read_field(
    alloc: Global,
    scope: &Scope<'_>,
    key: &String,
    attribute: &Value,
) -> Result<FormField, SchemaFault>
    ensures { ReadsField result (string_bytes key.now) (get (codes "required") (view attribute.now)) (type_read (scope_of scope.now) position.Attribute (view attribute.now)) }
{
    let required = read_required(attribute)?;
    let form = read_type(alloc, scope, attribute, Position::Attribute)?;
    Ok(FormField {
        name: key.clone()?,
        form,
        required,
    })
}
