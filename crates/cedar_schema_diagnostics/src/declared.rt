//! What a schema declares.
use cedar_schema_json::{Entry, entries_of, has_colon, names_of, qualified, set_of};
use cedar_value::{Name, Text, Uid};
use serde_json::{Map, Value};
use std::alloc::{AllocError, Global};
use std::collections::{BTreeMap, BTreeSet};

/// The names of the entity types and of the common types of a schema, and the uids of its actions, each with its place among them in
/// the order of the JSON, from 0.
#[derive(Drop)]
pub(crate) struct Declared {
    pub entities: BTreeSet<Name>,
    pub commons: BTreeSet<Name>,
    pub actions: BTreeMap<Uid, usize>,
}

impl Declared {
    /// What the namespaces declare.
    pub(crate) fn read(alloc: Global, root: &Map<String, Value>) -> Result<Declared, AllocError> {
        let entities = names_in(alloc, root, "entityTypes")?;
        let commons = names_in(alloc, root, "commonTypes")?;
        let actions = actions_in(alloc, root)?;
        Ok(Declared {
            entities,
            commons,
            actions,
        })
    }

    /// The place of the declared action that a member of `memberOf` denotes in a namespace, or none.
    pub(crate) fn action(
        &self,
        alloc: Global,
        namespace: &str,
        ty: Option<&str>,
        id: &str,
    ) -> Result<Option<usize>, AllocError> {
        let Some(ty) = ty else {
            return self.listed(alloc, namespace, "Action", id);
        };
        if has_colon(ty) {
            return self.listed(alloc, "", ty, id);
        }
        match self.listed(alloc, namespace, ty, id)? {
            Some(place) => Ok(Some(place)),
            None => self.listed(alloc, "", ty, id),
        }
    }

    // The place of the action whose type has this name in this namespace.
    fn listed(
        &self,
        alloc: Global,
        namespace: &str,
        ty: &str,
        id: &str,
    ) -> Result<Option<usize>, AllocError> {
        let uid = uid_of(alloc, namespace, ty, id)?;
        Ok(self.actions.get(&uid).copied())
    }
}

fn uid_of(alloc: Global, namespace: &str, ty: &str, id: &str) -> Result<Uid, AllocError> {
    Ok(Uid {
        ty: qualified(alloc, namespace, ty)?,
        id: Text::read(alloc, id)?,
    })
}

fn names_in(
    alloc: Global,
    root: &Map<String, Value>,
    section: &str,
) -> Result<BTreeSet<Name>, AllocError> {
    let entries = entries_of(alloc, root, section)?;
    let names = names_of(alloc, &entries)?;
    set_of(alloc, names)
}

fn actions_in(
    alloc: Global,
    root: &Map<String, Value>,
) -> Result<BTreeMap<Uid, usize>, AllocError> {
    let entries = entries_of(alloc, root, "actions")?;
    places_of(alloc, &entries)
}

fn places_of(alloc: Global, entries: &[Entry<'_>]) -> Result<BTreeMap<Uid, usize>, AllocError> {
    let mut places = BTreeMap::new(alloc);
    for (place, entry) in entries.iter().enumerate() {
        let uid = uid_of(alloc, entry.namespace, "Action", entry.key)?;
        places.insert(uid, place)?;
    }
    Ok(places)
}

/// Whether a name that is written in a namespace denotes one of these names.
pub(crate) fn is_declared(
    alloc: Global,
    names: &BTreeSet<Name>,
    namespace: &str,
    text: &str,
) -> Result<bool, AllocError> {
    if !has_colon(text) {
        let own = qualified(alloc, namespace, text)?;
        if names.contains(&own) {
            return Ok(true);
        }
    }
    let name = qualified(alloc, "", text)?;
    Ok(names.contains(&name))
}
