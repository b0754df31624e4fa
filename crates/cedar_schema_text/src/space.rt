//! What is declared in a namespace.
ghost use Rattle.std.specs.Prelude.{◌≡◌, IfOk, OnOk};
ghost use Rattle.serde_json.specs.View.{members_view};
ghost use Rattle.cedar_schema_text.specs.Objects as spec;

use crate::object::{is_nothing, put_object};
use serde_json::{Map, Value};
use std::alloc::{AllocError, Global};

/// What is declared in a namespace: the members of its three sections.
#[derive(Drop)]
pub(crate) struct Space {
    /// The common types by their names.
    pub(crate) commons: Map<String, Value>,
    /// The entity types by their names.
    pub(crate) entities: Map<String, Value>,
    /// The actions by their ids.
    pub(crate) actions: Map<String, Value>,
}

impl Space {
    /// A namespace in which nothing is declared.
    pub(crate) fn new(alloc: Global) -> Space
        ensures { spec.sections_of result ≡ spec.nothing }
    {
        Space {
            commons: Map::new(alloc),
            entities: Map::new(alloc),
            actions: Map::new(alloc),
        }
    }

    /// Whether nothing is declared.
    pub(crate) fn is_bare(&self) -> bool
        ensures { result ≡ spec.is_bare (spec.sections_of self.now) }
    {
        is_nothing(&self.commons) && is_nothing(&self.entities) && is_nothing(&self.actions)
    }

    /// The object of the namespace, which has these members beside its sections.
    #[tactic(auto, unfolding(crate::specs::Objects::space_of))]
    pub(crate) fn into_object(
        self,
        alloc: Global,
        notes: Map<String, Value>,
    ) -> Result<Map<String, Value>, AllocError>
        ensures { IfOk result (λ m. members_view m.entries ≡ spec.space_of (spec.sections_of self) (members_view notes.entries)) }
    {
        let Space {
            commons,
            entities,
            actions,
        } = self;
        let mut found = notes;
        put_object(alloc, &mut found, "commonTypes", commons)?;
        put_object(alloc, &mut found, "entityTypes", entities)?;
        put_object(alloc, &mut found, "actions", actions)?;
        Ok(found)
    }
}
