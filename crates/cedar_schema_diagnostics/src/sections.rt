//! The sections of all namespaces, entry by entry, in the order in which a schema is read.
use crate::actions::refused_action;
use crate::common_types::refused_common_type;
use crate::declared::Declared;
use crate::entity_types::refused_entity_type;
use crate::forms::Forms;
use crate::part::{Refusal, at};
use crate::setting::Setting;
use crate::step::Step;
use cedar_ext::Language;
use serde_json::{Map, Value};
use std::alloc::Global;

// A section of a namespace.
#[derive(Clone, Copy)]
enum Section {
    CommonTypes,
    EntityTypes,
    Actions,
}

impl Section {
    fn key(self) -> &'static str {
        match self {
            Section::CommonTypes => "commonTypes",
            Section::EntityTypes => "entityTypes",
            Section::Actions => "actions",
        }
    }
}

/// The first entry that is refused with a number in a language, or none.
pub(crate) fn refused_entries(
    alloc: Global,
    language: Language,
    number: u16,
    root: &Map<String, Value>,
    declared: &Declared,
    forms: Option<&Forms>,
) -> Option<Refusal> {
    let setting = Setting {
        language,
        number,
        namespace: "",
        declared,
        forms,
    };
    for section in [Section::CommonTypes, Section::EntityTypes, Section::Actions] {
        let found = refused_section(alloc, setting, root, section);
        if found.is_some() {
            return found;
        }
    }
    None
}

// The first entry of the sections of this name that is refused, or none.
fn refused_section(
    alloc: Global,
    setting: Setting<'_>,
    root: &Map<String, Value>,
    section: Section,
) -> Option<Refusal> {
    for (namespace, space) in root.iter() {
        let found = refused_in_space(alloc, setting, namespace.as_str(), space, section);
        if found.is_some() {
            return at(alloc, Step::Namespace(namespace.as_str()), found);
        }
    }
    None
}

fn refused_in_space(
    alloc: Global,
    setting: Setting<'_>,
    namespace: &str,
    space: &Value,
    section: Section,
) -> Option<Refusal> {
    let Some(members) = space.get(section.key()).and_then(Value::as_object) else {
        return None;
    };
    let own = Setting {
        language: setting.language,
        number: setting.number,
        namespace,
        declared: setting.declared,
        forms: setting.forms,
    };
    for (key, body) in members.iter() {
        let found = refused_entry(alloc, own, section, key.as_str(), body);
        if found.is_some() {
            let found = at(alloc, Step::Key(key.as_str()), found);
            return at(alloc, Step::Key(section.key()), found);
        }
    }
    None
}

fn refused_entry(
    alloc: Global,
    setting: Setting<'_>,
    section: Section,
    key: &str,
    body: &Value,
) -> Option<Refusal> {
    match section {
        Section::CommonTypes => refused_common_type(alloc, setting, key, body),
        Section::EntityTypes => refused_entity_type(alloc, setting, key, body),
        Section::Actions => refused_action(alloc, setting, body),
    }
}
