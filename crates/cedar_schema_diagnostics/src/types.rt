//! Types, with all the types in them.
use crate::any_type::refused_any_name;
use crate::extensions::refused_extension_name;
use crate::part::{Refusal, at, part_of, remembered};
use crate::setting::Setting;
use crate::step::Step;
use crate::type_names::{refused_entity_name, refused_type_name};
use crate::type_shape::refused_shape;
use cedar_ext::Language;
use cedar_schema_json::{Position, text_at};
use serde_json::Value;
use std::alloc::{AllocError, Global};

// A type that is still to be looked at, and the place of the last step to it.
#[derive(Clone, Copy)]
struct Pending<'j> {
    json: &'j Value,
    above: usize,
    position: Position,
}

// A step that was taken, and the place of the step before it.
#[derive(Clone, Copy)]
struct Footprint<'j> {
    step: Step<'j>,
    above: usize,
}

// The place of no step.
const START: usize = usize::MAX;

// A walk over a type and the types in it, in the order in which a schema is read.
#[derive(Drop)]
struct Walk<'j> {
    pending: Vec<Pending<'j>>,
    trail: Vec<Footprint<'j>>,
}

/// The first part of a type that is refused (302, 303, 306, 307), or none.
pub(crate) fn refused_in_type(
    alloc: Global,
    setting: Setting<'_>,
    json: &Value,
    position: Position,
) -> Option<Refusal> {
    remembered(alloc, first_refused(alloc, setting, json, position))
}

fn first_refused(
    alloc: Global,
    setting: Setting<'_>,
    json: &Value,
    position: Position,
) -> Result<Option<Refusal>, AllocError> {
    let mut walk = Walk::new(alloc);
    walk.add(json, START, position)?;
    for _ in 0..u64::MAX {
        let Some(next) = walk.pending.pop() else {
            return Ok(None);
        };
        let found = refused_type(alloc, setting, next.json, next.position);
        if found.is_some() {
            return Ok(walk.seen_from_start(alloc, next.above, found));
        }
        walk.add_parts(next.json, next.above)?;
    }
    Ok(None)
}

impl<'j> Walk<'j> {
    fn new(alloc: Global) -> Walk<'j> {
        Walk {
            pending: Vec::new(alloc),
            trail: Vec::new(alloc),
        }
    }

    fn add(&mut self, json: &'j Value, above: usize, position: Position) -> Result<(), AllocError> {
        self.pending.push(Pending {
            json,
            above,
            position,
        })?;
        Ok(())
    }

    // Takes a step; its place.
    fn tread(&mut self, above: usize, step: Step<'j>) -> Result<usize, AllocError> {
        let place = self.trail.len();
        self.trail.push(Footprint { step, above })?;
        Ok(place)
    }

    // Adds the types in a type.
    fn add_parts(&mut self, json: &'j Value, above: usize) -> Result<(), AllocError> {
        let Some(text) = text_at(json, "type") else {
            return Ok(());
        };
        match text {
            "Set" => self.add_element(json, above),
            "Record" => self.add_attributes(json, above),
            _ => Ok(()),
        }
    }

    fn add_element(&mut self, json: &'j Value, above: usize) -> Result<(), AllocError> {
        match json.get("element") {
            Some(element) => {
                let place = self.tread(above, Step::Key("element"))?;
                self.add(element, place, Position::Inner)
            }
            None => Ok(()),
        }
    }

    // Adds the attributes from the last to the first, since the last one that is added is looked at first.
    fn add_attributes(&mut self, json: &'j Value, above: usize) -> Result<(), AllocError> {
        let Some(attributes) = json.get("attributes").and_then(Value::as_object) else {
            return Ok(());
        };
        let list = self.tread(above, Step::Key("attributes"))?;
        for (key, attribute) in attributes.iter().rev() {
            let place = self.tread(list, Step::Key(key.as_str()))?;
            self.add(attribute, place, Position::Attribute)?;
        }
        Ok(())
    }

    // What is refused at the end of a trail, seen from its start.
    fn seen_from_start(
        &self,
        alloc: Global,
        place: usize,
        found: Option<Refusal>,
    ) -> Option<Refusal> {
        let mut found = found;
        let mut place = place;
        for _ in 0..self.trail.len() {
            let Some(footprint) = self.trail.get(place) else {
                return found;
            };
            found = at(alloc, footprint.step, found);
            place = footprint.above;
        }
        found
    }
}

// Why a type is refused, without the types in it; or none.
fn refused_type(
    alloc: Global,
    setting: Setting<'_>,
    json: &Value,
    position: Position,
) -> Option<Refusal> {
    if setting.number == 302 {
        let found = refused_shape(alloc, setting.language, json, position);
        if found.is_some() {
            return found;
        }
    }
    let Some(text) = text_at(json, "type") else {
        return None;
    };
    match text {
        "Boolean" | "Long" | "String" | "Set" => None,
        "Record" => refused_open(alloc, setting.number, json),
        "Entity" => {
            let Some(name) = text_at(json, "name") else {
                return None;
            };
            let found = refused_entity_name(alloc, setting, name, true);
            at(alloc, Step::Key("name"), found)
        }
        "Extension" => {
            let Some(name) = text_at(json, "name") else {
                return None;
            };
            let found = refused_extension_name(alloc, setting, name);
            at(alloc, Step::Key("name"), found)
        }
        "EntityOrCommon" if setting.language == Language::Cedar4 => {
            let Some(name) = text_at(json, "name") else {
                return None;
            };
            let found = refused_any_name(alloc, setting, name);
            at(alloc, Step::Key("name"), found)
        }
        _ => refused_type_name(alloc, setting, text),
    }
}

// A record that is open (307), or none.
fn refused_open(alloc: Global, number: u16, json: &Value) -> Option<Refusal> {
    match json.get("additionalAttributes") {
        Some(Value::Bool(true)) if number == 307 => {
            let found = part_of(
                alloc,
                &["`additionalAttributes` is true"],
                &["remove it, and declare each attribute in `attributes`"],
            );
            at(alloc, Step::Key("additionalAttributes"), found)
        }
        _ => None,
    }
}
