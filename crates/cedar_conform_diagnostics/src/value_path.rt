//! The smallest part of a JSON that is refused as a value of its type.
use crate::meant::meant_attribute;
use crate::owner::Owner;
use crate::shown::{add_key, add_position};
use crate::wanted::{add_value_words, say_value};
use crate::words::Words;
use cedar_conform_values::{ConformFault, read_value};
use cedar_schema_types::{Attribute, RecordType, Type, TypeKind};
use serde_json::{Map, Value as Json};
use std::alloc::{AllocError, Global};

/// How many parts are inside of each other at most: JSON nests at most 127 deep.
const MOST_PARTS: usize = 128;

// Where the fault of a value is: in a part of a type, or in the value itself, for which the words are added.
#[derive(Clone, Copy)]
enum Fault<'p> {
    Inside(&'p Json, &'p Type),
    Here,
}

// Whether a JSON is refused as a value of a type.
fn is_refused(alloc: Global, json: &Json, ty: &Type) -> Result<bool, AllocError> {
    match read_value(alloc, json, ty) {
        Ok(value) => {
            drop(value);
            Ok(false)
        }
        Err(ConformFault::OutOfMemory) => Err(AllocError),
        Err(fault) => {
            drop(fault);
            Ok(true)
        }
    }
}

// The first key that a record type does not declare.
fn undeclared<'j>(attributes: &RecordType, members: &'j Map<String, Json>) -> Option<&'j str> {
    for (key, _) in members.iter() {
        if attributes.attribute(key.as_str()).is_none() {
            return Some(key.as_str());
        }
    }
    None
}

// The fault of an attribute of an object, if it has one. The path goes on to it.
fn attribute_fault<'p>(
    alloc: Global,
    words: &mut Words,
    owner: Owner<'_>,
    json: &'p Json,
    attributes: &[Attribute],
    attribute: &'p Attribute,
) -> Result<Option<Fault<'p>>, AllocError> {
    let name = attribute.name.as_str();
    let found = match json.get(name) {
        Some(found) => {
            if !is_refused(alloc, found, &attribute.ty)? {
                return Ok(None);
            }
            Fault::Inside(found, &attribute.ty)
        }
        None => {
            if !attribute.required {
                return Ok(None);
            }
            owner.say_missing(&mut words.says, attributes);
            Fault::Here
        }
    };
    add_key(&mut words.path, name);
    Ok(Some(found))
}

// The fault of an object as a record: first of its keys, then of its attributes in the order of their names. The path goes on to it.
fn record_fault<'p>(
    alloc: Global,
    words: &mut Words,
    owner: Owner<'_>,
    json: &'p Json,
    record_type: &'p RecordType,
) -> Result<Option<Fault<'p>>, AllocError> {
    let Some(members) = json.as_object() else {
        return Ok(None);
    };
    let attributes = record_type.attributes();
    if let Some(key) = undeclared(record_type, members) {
        add_key(&mut words.path, key);
        owner.say_undeclared(&mut words.says, attributes);
        words.hint_at(meant_attribute(key, attributes));
        return Ok(Some(Fault::Here));
    }
    for attribute in attributes {
        let found = attribute_fault(alloc, words, owner, json, attributes, attribute)?;
        if found.is_some() {
            return Ok(found);
        }
    }
    Ok(None)
}

// The first member of a list that is refused as a value of the type. The path goes on to it.
fn member_fault<'p>(
    alloc: Global,
    words: &mut Words,
    json: &'p Json,
    member: &'p Type,
) -> Result<Option<Fault<'p>>, AllocError> {
    let Some(items) = json.as_array() else {
        return Ok(None);
    };
    for (position, item) in items.iter().enumerate() {
        if is_refused(alloc, item, member)? {
            add_position(&mut words.path, position);
            return Ok(Some(Fault::Inside(item, member)));
        }
    }
    Ok(None)
}

// The fault of a value that is refused. The path goes on to the part that has it.
fn fault_of<'p>(
    alloc: Global,
    words: &mut Words,
    owner: Owner<'_>,
    json: &'p Json,
    ty: &'p Type,
) -> Result<Fault<'p>, AllocError> {
    let found = match ty.kind() {
        TypeKind::Record(record_type) => record_fault(alloc, words, owner, json, record_type)?,
        TypeKind::Set(member) => member_fault(alloc, words, json, member)?,
        _ => None,
    };
    match found {
        Some(fault) => Ok(fault),
        None => {
            add_value_words(alloc, words, ty, json)?;
            Ok(Fault::Here)
        }
    }
}

// The words for a JSON that is refused as a value of a type, from the path of the value on. The reader looks at the keys of a record
// first and then at its attributes in the order of their names, and so does this.
fn value_words(
    alloc: Global,
    words: &mut Words,
    owner: Owner<'_>,
    value: &Json,
    wanted: &Type,
) -> Result<(), AllocError> {
    let mut whose = owner;
    let mut json = value;
    let mut ty = wanted;
    for _ in 0..MOST_PARTS {
        match fault_of(alloc, words, whose, json, ty)? {
            Fault::Inside(part, type_of_part) => {
                json = part;
                ty = type_of_part;
                whose = Owner::Inner;
            }
            Fault::Here => return Ok(()),
        }
    }
    say_value(alloc, &mut words.says, ty, json)
}

/// The words for the attributes of an entity or a context that are refused, from their path on. If there are none, they are empty.
pub(crate) fn value_words_at(
    alloc: Global,
    words: &mut Words,
    owner: Owner<'_>,
    found: Option<&Json>,
    wanted: &Type,
) -> Result<(), AllocError> {
    match found {
        Some(found) => value_words(alloc, words, owner, found, wanted),
        None => {
            let empty = Json::Object(Map::new(alloc));
            value_words(alloc, words, owner, &empty, wanted)
        }
    }
}
