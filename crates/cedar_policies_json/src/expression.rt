//! Expressions and values from JSON. What reads a form is not inlined into what goes down, so that a level of nesting takes little of
//! the call stack.
ghost use Rattle.std.specs.Prelude.{◌≡◌, IfOk, option_and_then, option_map, string_bytes};
ghost use Rattle.serde_json.specs.Find.{as_array, as_object, as_str};
ghost use Rattle.serde_json.specs.View.{items_view, members_view, view};
ghost use Rattle.cedar_parser_tree.specs.Written as w;
ghost use Rattle.cedar_policies_json.specs.declared.mode.Mode.TheVariants as mode;
ghost use Rattle.cedar_policies_json.specs.Expressions.{attribute_read, body_read, called, choice_read, entry_read, expression_read, form_read, is_read, like_read, object_read, one_read, operand_at, operands_read, part_at, record_read, set_read, two_read, typed_read, value_read, written_read};
ghost use Rattle.cedar_policies_json.specs.Forms.{slot_named, variable_named};
ghost use Rattle.cedar_policies_json.specs.Parts.{each_read, members_read};

use crate::form::{AttributeForm, Form, OneForm, TwoForm, form_named, slot_named, variable_named};
use crate::mode::Mode;
use crate::operators::{attribute_of, called, choice, grouped, is, is_in, like, one_of, two_of};
use crate::parts::{content, name_at, only_at, only_member};
use crate::pattern::pattern_at;
use crate::value::{read_entity, read_extension, read_number, read_text};
use cedar_conform_values::{size_of, text_at};
use cedar_parser_tree::{Field, Series, Written, WrittenKind};
use cedar_value::Name;
use serde_json::{Map, Value};
use std::alloc::{AllocError, Global};

/// How deep the parts of an expression may nest: as deep as JSON may.
const MAX_DEPTH: usize = 127;

/// The expression that a JSON denotes.
pub(crate) fn read_body(alloc: Global, json: &Value) -> Result<Option<Written>, AllocError>
    ensures { IfOk result (λ found. found ≡ body_read (view json.now)) }
{
    read(alloc, Mode::Expression, json, MAX_DEPTH)
}

// What a JSON denotes in a mode, where its parts nest less deep than `depth`.
#[cycle(read)]
fn read(
    alloc: Global,
    mode: Mode,
    json: &Value,
    depth: usize,
) -> Result<Option<Written>, AllocError>
    ensures { IfOk result (λ found. found ≡ written_read mode depth (view json.now)) }
{
    if depth == 0 {
        return Ok(None);
    }
    match mode {
        Mode::Expression => read_expression(alloc, json, depth - 1),
        Mode::Value => read_value(alloc, json, depth - 1),
    }
}

// The expression of an object of one key.
#[cycle(read)]
fn read_expression(alloc: Global, json: &Value, depth: usize) -> Result<Option<Written>, AllocError>
    ensures { IfOk result (λ found. found ≡ expression_read (written_read mode.Expression depth) (written_read mode.Value depth) (view json.now)) }
{
    let Some(members) = json.as_object() else {
        return Ok(None);
    };
    let Some((key, inner)) = only_member(members) else {
        return Ok(None);
    };
    read_form(alloc, form_named(key.as_str()), key.as_str(), inner, depth)
}

// What is at the key of a form.
#[cycle(read)]
#[inline(never)]
fn read_form(
    alloc: Global,
    form: Form,
    key: &str,
    json: &Value,
    depth: usize,
) -> Result<Option<Written>, AllocError>
    ensures { IfOk result (λ found. found ≡ form_read (written_read mode.Expression depth) (written_read mode.Value depth) form key.now (view json.now)) }
{
    match form {
        Form::Value => read(alloc, Mode::Value, json, depth),
        Form::Variable => Ok(read_variable(json)),
        Form::Slot => Ok(read_slot(json)),
        Form::One(one) => read_one(alloc, one, key, json, depth),
        Form::Two(two) => read_two(alloc, two, key, json, depth),
        Form::Attribute(attribute) => read_attribute(alloc, attribute, json, depth),
        Form::Like => read_like(alloc, json, depth),
        Form::Is => read_is(alloc, json, depth),
        Form::If => read_choice(alloc, json, depth),
        Form::Set => read_set(alloc, Mode::Expression, json, depth),
        Form::Record => read_record(alloc, Mode::Expression, json, depth),
        Form::Call => read_call(alloc, key, json, depth),
    }
}

// A variable.
fn read_variable(json: &Value) -> Option<Written>
    ensures { result ≡ option_map w.variable (option_and_then variable_named (as_str (view json.now))) }
{
    let variable = variable_named(json.as_str()?)?;
    Some(Written::new(WrittenKind::Variable(variable)))
}

// A slot.
fn read_slot(json: &Value) -> Option<Written>
    ensures { result ≡ option_map w.slot (option_and_then slot_named (as_str (view json.now))) }
{
    let variable = slot_named(json.as_str()?)?;
    Some(Written::new(WrittenKind::Slot(0, variable)))
}

// The expression at a key.
#[cycle(read)]
fn part_at(
    alloc: Global,
    json: &Value,
    key: &str,
    depth: usize,
) -> Result<Option<Written>, AllocError>
    ensures { IfOk result (λ found. found ≡ part_at (written_read mode.Expression depth) key.now (view json.now)) }
{
    match json.get(key) {
        Some(found) => read(alloc, Mode::Expression, found, depth),
        None => Ok(None),
    }
}

// The operand at a key, in brackets.
#[cycle(read)]
fn operand_at(
    alloc: Global,
    json: &Value,
    key: &str,
    depth: usize,
) -> Result<Option<Written>, AllocError>
    ensures { IfOk result (λ found. found ≡ operand_at (written_read mode.Expression depth) key.now (view json.now)) }
{
    match part_at(alloc, json, key, depth)? {
        Some(inner) => Ok(Some(grouped(alloc, inner)?)),
        None => Ok(None),
    }
}

// A form with one operand.
#[cycle(read)]
#[inline(never)]
fn read_one(
    alloc: Global,
    form: OneForm,
    key: &str,
    json: &Value,
    depth: usize,
) -> Result<Option<Written>, AllocError>
    ensures { IfOk result (λ found. found ≡ one_read (written_read mode.Expression depth) form key.now (view json.now)) }
{
    if size_of(json) != 1 {
        return Ok(None);
    }
    match operand_at(alloc, json, "arg", depth)? {
        Some(inner) => Ok(Some(one_of(alloc, form, key, inner)?)),
        None => Ok(None),
    }
}

// A form with two operands.
#[cycle(read)]
#[inline(never)]
fn read_two(
    alloc: Global,
    form: TwoForm,
    key: &str,
    json: &Value,
    depth: usize,
) -> Result<Option<Written>, AllocError>
    ensures { IfOk result (λ found. found ≡ two_read (written_read mode.Expression depth) form key.now (view json.now)) }
{
    if size_of(json) != 2 {
        return Ok(None);
    }
    let Some(left) = operand_at(alloc, json, "left", depth)? else {
        return Ok(None);
    };
    let Some(right) = operand_at(alloc, json, "right", depth)? else {
        return Ok(None);
    };
    Ok(Some(two_of(alloc, form, key, left, right)?))
}

// A form with an operand and the name of an attribute.
#[cycle(read)]
#[inline(never)]
fn read_attribute(
    alloc: Global,
    form: AttributeForm,
    json: &Value,
    depth: usize,
) -> Result<Option<Written>, AllocError>
    ensures { IfOk result (λ found. found ≡ attribute_read (written_read mode.Expression depth) form (view json.now)) }
{
    if size_of(json) != 2 {
        return Ok(None);
    }
    let Some(name) = text_at(json, "attr") else {
        return Ok(None);
    };
    let Some(left) = operand_at(alloc, json, "left", depth)? else {
        return Ok(None);
    };
    Ok(Some(attribute_of(alloc, form, left, name)?))
}

// `like`
#[cycle(read)]
#[inline(never)]
fn read_like(alloc: Global, json: &Value, depth: usize) -> Result<Option<Written>, AllocError>
    ensures { IfOk result (λ found. found ≡ like_read (written_read mode.Expression depth) (view json.now)) }
{
    if size_of(json) != 2 {
        return Ok(None);
    }
    let Some(pattern) = pattern_at(alloc, json, "pattern")? else {
        return Ok(None);
    };
    let Some(left) = operand_at(alloc, json, "left", depth)? else {
        return Ok(None);
    };
    Ok(Some(like(alloc, left, pattern)?))
}

// The operand and the name of `is`.
#[cycle(read)]
fn read_typed(
    alloc: Global,
    json: &Value,
    depth: usize,
) -> Result<Option<(Written, Name)>, AllocError>
    ensures { IfOk result (λ found. found ≡ typed_read (written_read mode.Expression depth) (view json.now)) }
{
    let Some(ty) = name_at(alloc, json, "entity_type")? else {
        return Ok(None);
    };
    match operand_at(alloc, json, "left", depth)? {
        Some(left) => Ok(Some((left, ty))),
        None => Ok(None),
    }
}

// `is`, with or without `in`.
#[cycle(read)]
#[inline(never)]
fn read_is(alloc: Global, json: &Value, depth: usize) -> Result<Option<Written>, AllocError>
    ensures { IfOk result (λ found. found ≡ is_read (written_read mode.Expression depth) (view json.now)) }
{
    let size = size_of(json);
    if size != 2 && size != 3 {
        return Ok(None);
    }
    let Some((left, ty)) = read_typed(alloc, json, depth)? else {
        return Ok(None);
    };
    if size == 2 {
        return Ok(Some(is(alloc, left, ty)?));
    }
    match operand_at(alloc, json, "in", depth)? {
        Some(right) => Ok(Some(is_in(alloc, left, ty, right)?)),
        None => Ok(None),
    }
}

// `if .. then .. else`
#[cycle(read)]
#[inline(never)]
fn read_choice(alloc: Global, json: &Value, depth: usize) -> Result<Option<Written>, AllocError>
    ensures { IfOk result (λ found. found ≡ choice_read (written_read mode.Expression depth) (view json.now)) }
{
    if size_of(json) != 3 {
        return Ok(None);
    }
    let Some(condition) = part_at(alloc, json, "if", depth)? else {
        return Ok(None);
    };
    let Some(if_true) = part_at(alloc, json, "then", depth)? else {
        return Ok(None);
    };
    let Some(if_false) = part_at(alloc, json, "else", depth)? else {
        return Ok(None);
    };
    Ok(Some(choice(alloc, condition, if_true, if_false)?))
}

// A list as a set.
#[cycle(read)]
#[inline(never)]
fn read_set(
    alloc: Global,
    mode: Mode,
    json: &Value,
    depth: usize,
) -> Result<Option<Written>, AllocError>
    ensures { IfOk result (λ found. found ≡ set_read (written_read mode depth) (view json.now)) }
{
    let Some(items) = json.as_array() else {
        return Ok(None);
    };
    match read_items(alloc, mode, items, depth)? {
        Some(members) => Ok(Some(Written::new(WrittenKind::Set(Series::new(members))))),
        None => Ok(None),
    }
}

// An object as a record.
#[cycle(read)]
#[inline(never)]
fn read_record(
    alloc: Global,
    mode: Mode,
    json: &Value,
    depth: usize,
) -> Result<Option<Written>, AllocError>
    ensures { IfOk result (λ found. found ≡ record_read (written_read mode depth) (view json.now)) }
{
    let Some(members) = json.as_object() else {
        return Ok(None);
    };
    match read_entries(alloc, mode, members, depth)? {
        Some(fields) => Ok(Some(Written::new(WrittenKind::Record(fields)))),
        None => Ok(None),
    }
}

// The call of a function or a method of an extension type.
#[cycle(read)]
#[inline(never)]
fn read_call(
    alloc: Global,
    key: &str,
    json: &Value,
    depth: usize,
) -> Result<Option<Written>, AllocError>
    ensures { IfOk result (λ found. found ≡ option_and_then (called key.now) (option_and_then (each_read (written_read mode.Expression depth)) (as_array (view json.now)))) }
{
    let Some(items) = json.as_array() else {
        return Ok(None);
    };
    match read_items(alloc, Mode::Expression, items, depth)? {
        Some(operands) => called(alloc, key, operands),
        None => Ok(None),
    }
}

// What each item of a list denotes.
#[cycle(read)]
fn read_items(
    alloc: Global,
    mode: Mode,
    items: &[Value],
    depth: usize,
) -> Result<Option<Vec<Written>>, AllocError>
    ensures { IfOk result (λ found. option_map (λ v. v.items) found ≡ each_read (written_read mode depth) (items_view items.now)) }
{
    let mut found = Vec::new(alloc);
    let mut rest = items;
    'walk: while let Some((item, others)) = rest.split_first() {
        let Some(written) = read(alloc, mode, item, depth)? else {
            return Ok(None);
        };
        found.push(written)?;
        rest = others;
    }
    Ok(Some(found))
}

// The entries of a record.
#[cycle(read)]
fn read_entries(
    alloc: Global,
    mode: Mode,
    members: &Map<String, Value>,
    depth: usize,
) -> Result<Option<Vec<Field>>, AllocError>
    ensures { IfOk result (λ found. option_map (λ v. v.items) found ≡ members_read (entry_read (written_read mode depth)) (members_view members.now.entries)) }
{
    let mut fields = Vec::new(alloc);
    for (key, json) in members.iter() {
        let Some(field) = read_entry(alloc, mode, key, json, depth)? else {
            return Ok(None);
        };
        fields.push(field)?;
    }
    Ok(Some(fields))
}

// The entry of a record.
#[cycle(read)]
fn read_entry(
    alloc: Global,
    mode: Mode,
    key: &String,
    json: &Value,
    depth: usize,
) -> Result<Option<Field>, AllocError>
    ensures { IfOk result (λ found. found ≡ entry_read (written_read mode depth) (string_bytes key.now) (view json.now)) }
{
    match read(alloc, mode, json, depth)? {
        Some(value) => {
            let key = content(alloc, key.as_str())?;
            Ok(Some(Field { key, value }))
        }
        None => Ok(None),
    }
}

// The literal, set or record that a JSON is.
#[cycle(read)]
#[inline(never)]
fn read_value(alloc: Global, json: &Value, depth: usize) -> Result<Option<Written>, AllocError>
    ensures { IfOk result (λ found. found ≡ value_read (written_read mode.Value depth) (view json.now)) }
{
    match json {
        Value::Null => Ok(None),
        Value::Bool(truth) => Ok(Some(Written::new(WrittenKind::Truth(*truth)))),
        Value::Number(number) => Ok(read_number(number)),
        Value::String(text) => Ok(Some(read_text(alloc, text.as_str())?)),
        Value::Array(_) => read_set(alloc, Mode::Value, json, depth),
        Value::Object(_) => read_object(alloc, json, depth),
    }
}

// A uid, the call of a constructor, or a record.
#[cycle(read)]
#[inline(never)]
fn read_object(alloc: Global, json: &Value, depth: usize) -> Result<Option<Written>, AllocError>
    ensures { IfOk result (λ found. found ≡ object_read (written_read mode.Value depth) (view json.now)) }
{
    if json.get("__entity").is_some() {
        return read_entity(alloc, json);
    }
    if json.get("__extn").is_some() {
        return match only_at(json, "__extn") {
            Some(call) => read_extension(alloc, call),
            None => Ok(None),
        };
    }
    if json.get("__expr").is_some() {
        return Ok(None);
    }
    read_record(alloc, Mode::Value, json, depth)
}
