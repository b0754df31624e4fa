//! The kinds of types that the key `type` names.
ghost use Rattle.std.specs.Prelude.{◌≡◌};
ghost use Rattle.cedar_schema_json.specs.Reading.{allowed, kind_in, kind_named, may_have, written_beside};
ghost use Rattle.serde_json.specs.View.{view};

use crate::form::position::Position;
use crate::json::annotations::is_annotation;
use cedar_ext::Language;
use serde_json::Value;

/// A kind of type that the key `type` names.
#[derive(Clone, Copy, PartialEq, Eq, Debug)]
pub(crate) enum Kind {
    Boolean,
    Long,
    Text,
    Set,
    Record,
    Entity,
    Extension,
    EntityOrCommon,
    Named,
}

/// The kind that a string names in each language.
#[tactic(auto, unfolding(crate::specs::Reading::kind_named))]
pub(crate) fn kind_named(text: &str) -> Kind
    ensures { result ≡ kind_named text.now }
{
    if text == "Boolean" {
        Kind::Boolean
    } else if text == "Long" {
        Kind::Long
    } else if text == "String" {
        Kind::Text
    } else if text == "Set" {
        Kind::Set
    } else if text == "Record" {
        Kind::Record
    } else if text == "Entity" {
        Kind::Entity
    } else if text == "Extension" {
        Kind::Extension
    } else {
        Kind::Named
    }
}

/// The kind that a string names in a language.
#[tactic(auto, unfolding(crate::specs::Reading::kind_in))]
pub(crate) fn kind_in(language: Language, text: &str) -> Kind
    ensures { result ≡ kind_in language text.now }
{
    match language {
        Language::Cedar4 if text == "EntityOrCommon" => Kind::EntityOrCommon,
        _ => kind_named(text),
    }
}

#[tactic(auto, unfolding(crate::specs::Reading::allowed))]
fn allowed(kind: Kind, key: &str) -> bool
    ensures { result ≡ allowed kind key.now }
{
    match kind {
        Kind::Set => key == "type" || key == "element",
        Kind::Record => key == "type" || key == "attributes" || key == "additionalAttributes",
        Kind::Entity | Kind::Extension | Kind::EntityOrCommon => key == "type" || key == "name",
        Kind::Boolean | Kind::Long | Kind::Text | Kind::Named => key == "type",
    }
}

// Whether a type may have the key with its value where it is written, whatever its kind.
#[tactic(auto, unfolding(crate::specs::Reading::written_beside))]
fn written_beside(language: Language, position: Position, key: &str, json: &Value) -> bool
    ensures { result ≡ written_beside language position key.now (view json.now) }
{
    match position {
        Position::Inner => false,
        Position::CommonType => is_annotation(language, key, json),
        Position::Attribute => key == "required" || is_annotation(language, key, json),
    }
}

/// Whether a type of a kind may have the key with its value where it is written.
pub(crate) fn may_have(
    language: Language,
    kind: Kind,
    position: Position,
    key: &str,
    json: &Value,
) -> bool
    ensures { result ≡ may_have language kind position key.now (view json.now) }
{
    allowed(kind, key) || written_beside(language, position, key, json)
}
