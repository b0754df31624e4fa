//! Uids and entities of the numbers that `choices` makes.
use crate::choices::Entry;
use cedar_store::Entity;
use cedar_value::{Name, Record, SharedText, Text, Uid, Value, ValueSet};
use std::alloc::{AllocError, Global};

/// So many uids, each at its number.
pub fn uids_below(alloc: Global, count: u32) -> Result<Vec<Uid>, AllocError> {
    let mut uids = Vec::new(alloc);
    for number in 0..count {
        uids.push(uid(alloc, number)?)?;
    }
    Ok(uids)
}

fn uid(alloc: Global, number: u32) -> Result<Uid, AllocError> {
    let ty = Name::new(alloc, Text::read(alloc, "T")?)?;
    match format!(in alloc; "{number}") {
        Ok(id) => Ok(Uid {
            ty,
            id: Text::new(id),
        }),
        Err(AllocError) => {
            drop(ty);
            Err(AllocError)
        }
    }
}

/// Copies of the uids that are chosen.
pub fn chosen(
    alloc: Global,
    uids: &[Uid],
    numbers: &[Option<u32>],
) -> Result<Vec<Uid>, AllocError> {
    let mut found = Vec::new(alloc);
    for number in numbers {
        if let Some(uid) = number.and_then(|number| uids.get(number as usize)) {
            found.push(uid.try_clone(alloc)?)?;
        }
    }
    Ok(found)
}

/// The set of the uids that are chosen.
pub fn set_of(
    alloc: Global,
    uids: &[Uid],
    numbers: &[Option<u32>],
) -> Result<ValueSet, AllocError> {
    let mut members = Vec::new(alloc);
    for number in numbers {
        if let Some(uid) = number.and_then(|number| uids.get(number as usize)) {
            members.push(uid_value(alloc, uid)?)?;
        }
    }
    ValueSet::from_list(members)
}

fn uid_value(alloc: Global, uid: &Uid) -> Result<Value, AllocError> {
    let uid = uid.try_clone(alloc)?;
    Value::uid(alloc, uid)
}

fn attributes(alloc: Global, attribute: Option<u32>) -> Result<Record, AllocError> {
    let Some(number) = attribute else {
        return Ok(Record::new(alloc));
    };
    let key = SharedText::read(alloc, "n")?;
    let pairs = vec![in alloc; (key, Value::long(number as i64))]?;
    Ok(Record::from_pairs(pairs)?.unwrap_or(Record::new(alloc)))
}

/// The entities of the entries, in their order.
pub fn entities(alloc: Global, uids: &[Uid], entries: &[Entry]) -> Result<Vec<Entity>, AllocError> {
    let mut list = Vec::new(alloc);
    for entry in entries {
        if let Some(uid) = uids.get(entry.uid as usize) {
            list.push(entity(alloc, uids, uid, entry)?)?;
        }
    }
    Ok(list)
}

fn entity(alloc: Global, uids: &[Uid], uid: &Uid, entry: &Entry) -> Result<Entity, AllocError> {
    let parents = chosen(alloc, uids, &entry.parents)?;
    match described(alloc, uid, entry) {
        Ok((uid, attrs)) => Ok(Entity {
            uid,
            attrs,
            parents,
        }),
        Err(AllocError) => {
            drop(parents);
            Err(AllocError)
        }
    }
}

fn described(alloc: Global, uid: &Uid, entry: &Entry) -> Result<(Uid, Record), AllocError> {
    let attributes = attributes(alloc, entry.attribute)?;
    match uid.try_clone(alloc) {
        Ok(uid) => Ok((uid, attributes)),
        Err(AllocError) => {
            drop(attributes);
            Err(AllocError)
        }
    }
}
