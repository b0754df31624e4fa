//! Policies and templates as they are written, from JSON.
ghost use Rattle.std.specs.Prelude.{◌≡◌, IfOk, codes, option_and_then, option_map, string_bytes};
ghost use Rattle.serde_json.specs.Find.{as_array, get};
ghost use Rattle.serde_json.specs.View.{items_view, members_view, view};
ghost use Rattle.cedar_conform_values.specs.Objects.{text_at};
ghost use Rattle.cedar_policies_json.specs.Statements.{annotation_read, annotation_value, annotations_read, condition_read, effect_named, key_count, kind_named, statement_read};
ghost use Rattle.cedar_policies_json.specs.Parts.{each_read, members_read};
ghost use Rattle.cedar_value.specs.Names.{is_word, is_word_byte, is_word_start};
ghost use Rattle.std.specs.List.{list_all};

use crate::expression::read_body;
use crate::parts::content;
use crate::scope::read_scope;
use cedar_ast::{ConditionKind, Effect};
use cedar_conform_values::{size_of, text_at};
use cedar_parser_tokens::Word;
use cedar_parser_tree::{WrittenAnnotation, WrittenCondition, WrittenStatement};
use serde_json::{Map, Value};
use std::alloc::{AllocError, Global};

/// The policy or template that a JSON writes.
pub(crate) fn read_statement(
    alloc: Global,
    json: &Value,
) -> Result<Option<WrittenStatement>, AllocError>
    ensures { IfOk result (λ found. found ≡ statement_read (view json.now)) }
{
    if size_of(json) != key_count(json) {
        return Ok(None);
    }
    let Some(effect) = effect_at(json) else {
        return Ok(None);
    };
    let Some(annotations) = annotations_at(alloc, json)? else {
        return Ok(None);
    };
    let Some(scope) = read_scope(alloc, json)? else {
        return Ok(None);
    };
    let Some(conditions) = conditions_at(alloc, json)? else {
        return Ok(None);
    };
    Ok(Some(WrittenStatement {
        start: 0,
        annotations,
        effect,
        scope,
        conditions,
    }))
}

// How many keys a policy has.
fn key_count(json: &Value) -> usize
    ensures { result ≡ key_count (view json.now) }
{
    if json.get("annotations").is_some() {
        6
    } else {
        5
    }
}

// ---- effects

fn effect_at(json: &Value) -> Option<Effect>
    ensures { result ≡ option_and_then effect_named (text_at (codes "effect") (view json.now)) }
{
    effect_named(text_at(json, "effect")?)
}

#[tactic(auto, unfolding(crate::specs::Statements::effect_named))]
fn effect_named(text: &str) -> Option<Effect>
    ensures { result ≡ effect_named text.now }
{
    match text {
        "permit" => Some(Effect::Permit),
        "forbid" => Some(Effect::Forbid),
        _ => None,
    }
}

// ---- annotations

fn annotations_at(alloc: Global, json: &Value) -> Result<Option<Vec<WrittenAnnotation>>, AllocError>
    ensures { IfOk result (λ found. option_map (λ v. v.items) found ≡ annotations_read (get (codes "annotations") (view json.now))) }
{
    let Some(annotations) = json.get("annotations") else {
        return Ok(Some(Vec::new(alloc)));
    };
    match annotations.as_object() {
        Some(members) => read_notes(alloc, members),
        None => Ok(None),
    }
}

fn read_notes(
    alloc: Global,
    members: &Map<String, Value>,
) -> Result<Option<Vec<WrittenAnnotation>>, AllocError>
    ensures { IfOk result (λ found. option_map (λ v. v.items) found ≡ members_read annotation_read (members_view members.now.entries)) }
{
    let mut notes = Vec::new(alloc);
    for (key, json) in members.iter() {
        let Some(note) = read_annotation(alloc, key, json)? else {
            return Ok(None);
        };
        notes.push(note)?;
    }
    Ok(Some(notes))
}

fn read_annotation(
    alloc: Global,
    key: &String,
    json: &Value,
) -> Result<Option<WrittenAnnotation>, AllocError>
    ensures { IfOk result (λ found. found ≡ annotation_read (string_bytes key.now) (view json.now)) }
{
    let name = key.as_str();
    if !is_word(name) {
        return Ok(None);
    }
    let Some(value) = annotation_value(json) else {
        return Ok(None);
    };
    Ok(Some(WrittenAnnotation {
        start: 0,
        name: Word::read(alloc, name, 0)?,
        value: content(alloc, value)?,
    }))
}

// Whether the string is a word, reserved or not.
fn is_word(text: &str) -> bool
    ensures { result ≡ is_word text.now }
{
    match text.as_bytes().split_first() {
        Some((first, others)) => is_word_start(*first) && are_word_bytes(others),
        None => false,
    }
}

fn are_word_bytes(bytes: &[u8]) -> bool
    ensures { result ≡ list_all is_word_byte bytes.now }
{
    bytes.iter().all(|byte| is_word_byte(*byte))
}

fn is_word_start(byte: u8) -> bool
    ensures { result ≡ is_word_start byte }
{
    byte.is_ascii_alphabetic() || byte == b'_'
}

fn is_word_byte(byte: u8) -> bool
    ensures { result ≡ is_word_byte byte }
{
    is_word_start(byte) || byte.is_ascii_digit()
}

// The value of an annotation: a string, or null for the empty one.
fn annotation_value(json: &Value) -> Option<&str>
    ensures { option_map (λ s. s.now) result ≡ annotation_value (view json.now) }
{
    match json {
        Value::Null => Some(""),
        Value::String(text) => Some(text.as_str()),
        _ => None,
    }
}

// ---- conditions

fn conditions_at(alloc: Global, json: &Value) -> Result<Option<Vec<WrittenCondition>>, AllocError>
    ensures { IfOk result (λ found. option_map (λ v. v.items) found
        ≡ option_and_then (each_read condition_read) (option_and_then as_array (get (codes "conditions") (view json.now)))) }
{
    let Some(conditions) = json.get("conditions") else {
        return Ok(None);
    };
    match conditions.as_array() {
        Some(items) => read_conditions(alloc, items),
        None => Ok(None),
    }
}

fn read_conditions(
    alloc: Global,
    items: &[Value],
) -> Result<Option<Vec<WrittenCondition>>, AllocError>
    ensures { IfOk result (λ found. option_map (λ v. v.items) found ≡ each_read condition_read (items_view items.now)) }
{
    let mut found = Vec::new(alloc);
    let mut rest = items;
    'walk: while let Some((item, others)) = rest.split_first() {
        let Some(condition) = read_condition(alloc, item)? else {
            return Ok(None);
        };
        found.push(condition)?;
        rest = others;
    }
    Ok(Some(found))
}

fn read_condition(alloc: Global, json: &Value) -> Result<Option<WrittenCondition>, AllocError>
    ensures { IfOk result (λ found. found ≡ condition_read (view json.now)) }
{
    if size_of(json) != 2 {
        return Ok(None);
    }
    let Some(kind) = kind_at(json) else {
        return Ok(None);
    };
    let Some(body) = json.get("body") else {
        return Ok(None);
    };
    match read_body(alloc, body)? {
        Some(body) => Ok(Some(WrittenCondition { kind, body })),
        None => Ok(None),
    }
}

fn kind_at(json: &Value) -> Option<ConditionKind>
    ensures { result ≡ option_and_then kind_named (text_at (codes "kind") (view json.now)) }
{
    kind_named(text_at(json, "kind")?)
}

#[tactic(auto, unfolding(crate::specs::Statements::kind_named))]
fn kind_named(text: &str) -> Option<ConditionKind>
    ensures { result ≡ kind_named text.now }
{
    match text {
        "when" => Some(ConditionKind::When),
        "unless" => Some(ConditionKind::Unless),
        _ => None,
    }
}
