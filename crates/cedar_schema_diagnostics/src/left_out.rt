//! What Cedar has and this engine does not, in words.
use crate::part::{Refusal, part_of};
use cedar_ext::Language;
use cedar_schema_json::Part;
use std::alloc::Global;

/// What is said of annotations.
pub(crate) const ANNOTATIONS: &str = "annotations are not supported";

/// What to do about annotations.
pub(crate) const WITHOUT_ANNOTATIONS: &str =
    "remove `annotations`; tools/from_cedar does it for a whole file";

/// What is said of a key of Cedar that a part may not have here, and what to do; or none of another key.
pub(crate) fn left_out_key(
    language: Language,
    part: Part,
    key: &str,
) -> Option<(&'static str, &'static str)> {
    if key == "annotations" && language == Language::Profile {
        return Some((ANNOTATIONS, WITHOUT_ANNOTATIONS));
    }
    if part != Part::EntityType {
        return None;
    }
    match key {
        "tags" => Some((
            "entity tags are not supported",
            "remove `tags`, and declare in `shape` the attributes that policies read",
        )),
        "enum" if language == Language::Profile => Some((
            "enumerated entity types are not supported",
            "write {}: the entities of a type may have any ids",
        )),
        "attributes" => Some((
            "an entity type has its attributes in `shape`",
            "write \"shape\":{\"type\":\"Record\",\"attributes\":{..}}",
        )),
        _ => None,
    }
}

/// What is said of the type that Cedar's own translator writes for every name.
pub(crate) fn entity_or_common(alloc: Global) -> Option<Refusal> {
    part_of(
        alloc,
        &["`EntityOrCommon`, which Cedar's translator writes, is not supported"],
        &[
            "write {\"type\":\"String\"}, {\"type\":\"Entity\",\"name\":\"T\"} or {\"type\":\"C\"} of a common type",
            "; tools/from_cedar does it for a whole file",
        ],
    )
}
