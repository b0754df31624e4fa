//! The first uid in a JSON that its enumerated entity type does not have.
use crate::shown::{add_key, add_position};
use crate::unlisted::unlisted_words;
use crate::words::Words;
use cedar_conform_values::{ConformFault, read_value, uid_of_object};
use cedar_schema::Schema;
use cedar_schema_types::{RecordType, Type, TypeKind};
use cedar_value::{Record, SharedText, Value};
use serde_json::Value as Json;
use std::alloc::{AllocError, Global};

// How many parts are inside of each other at most: JSON nests at most 127 deep.
const MOST_PARTS: usize = 128;

/// The words for a JSON that is a value of a type with a uid that its enumerated type does not have, from the path of the value on.
pub(crate) fn unlisted_value_words(
    alloc: Global,
    words: &mut Words,
    schema: &Schema,
    value: &Json,
    wanted: &Type,
) -> Result<(), AllocError> {
    let mut json = value;
    let mut ty = wanted;
    for _ in 0..MOST_PARTS {
        let Some((part, type_of_part)) = unlisted_part(alloc, words, schema, json, ty)? else {
            break;
        };
        json = part;
        ty = type_of_part;
    }
    let is_said = match uid_of_object(alloc, json)? {
        Some(uid) => {
            let is_said = unlisted_words(words, schema, &uid);
            drop(uid);
            is_said
        }
        None => false,
    };
    if !is_said {
        words.says.add("a uid is not one of its enumerated type");
    }
    Ok(())
}

// The first part of a value that has such a uid, with its type. The path goes on to it.
fn unlisted_part<'p>(
    alloc: Global,
    words: &mut Words,
    schema: &Schema,
    json: &'p Json,
    ty: &'p Type,
) -> Result<Option<(&'p Json, &'p Type)>, AllocError> {
    match ty.kind() {
        TypeKind::Record(record_type) => {
            unlisted_attribute(alloc, words, schema, json, record_type)
        }
        TypeKind::Set(member) => unlisted_member(alloc, words, schema, json, member),
        _ => Ok(None),
    }
}

fn unlisted_attribute<'p>(
    alloc: Global,
    words: &mut Words,
    schema: &Schema,
    json: &'p Json,
    record_type: &'p RecordType,
) -> Result<Option<(&'p Json, &'p Type)>, AllocError> {
    for attribute in record_type.attributes() {
        let name = attribute.name.as_str();
        if let Some(found) = json.get(name) {
            if has_unlisted(alloc, schema, found, &attribute.ty)? {
                add_key(&mut words.path, name);
                return Ok(Some((found, &attribute.ty)));
            }
        }
    }
    Ok(None)
}

fn unlisted_member<'p>(
    alloc: Global,
    words: &mut Words,
    schema: &Schema,
    json: &'p Json,
    member: &'p Type,
) -> Result<Option<(&'p Json, &'p Type)>, AllocError> {
    let Some(items) = json.as_array() else {
        return Ok(None);
    };
    for (position, item) in items.iter().enumerate() {
        if has_unlisted(alloc, schema, item, member)? {
            add_position(&mut words.path, position);
            return Ok(Some((item, member)));
        }
    }
    Ok(None)
}

// Whether a JSON is a value of a type with such a uid.
fn has_unlisted(
    alloc: Global,
    schema: &Schema,
    json: &Json,
    ty: &Type,
) -> Result<bool, AllocError> {
    match read_value(alloc, json, ty) {
        Ok(value) => is_unlisted(alloc, schema, value),
        Err(ConformFault::OutOfMemory) => Err(AllocError),
        Err(fault) => {
            drop(fault);
            Ok(false)
        }
    }
}

// Whether a value has such a uid. A schema answers this of records, so the value is put into one.
fn is_unlisted(alloc: Global, schema: &Schema, value: Value) -> Result<bool, AllocError> {
    let mut pairs = Vec::new(alloc);
    pairs.push((SharedText::read(alloc, "value")?, value))?;
    match Record::from_pairs(pairs)? {
        Some(record) => {
            let is_listed = schema.lists_record(&record);
            drop(record);
            Ok(!is_listed)
        }
        None => Ok(false),
    }
}
