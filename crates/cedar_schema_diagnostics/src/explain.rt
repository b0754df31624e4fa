//! Why a schema is refused.
ghost use Rattle.std.specs.Prelude.{IfOk, IfSome, IsSome};
ghost use Rattle.base_json.specs.JsonTree.{json_of};

use crate::action_circle::refused_action_circle;
use crate::common_circle::refused_common_circle;
use crate::declared::Declared;
use crate::forms::Forms;
use crate::kinds::kind_of;
use crate::part::{Refusal, RefusedPart, part_with};
use crate::sections::refused_entries;
use crate::spaces::refused_spaces;
use crate::text::joined;
use base_json::read_json;
use base_places::Draft;
use cedar_ext::Language;
use serde_json::{Map, Value};
use std::alloc::{AllocError, Global};

/// The first part of a schema of a language that explains a refusal with this number, 302 to 309, in the order in which a schema is
/// read; or none where no part does. Takes time and memory in proportion to the schema, and for 309 to its types with their common types expanded.
///
/// # Errors
///
/// Fails only when out of memory.
pub fn refused_part(
    alloc: Global,
    language: Language,
    bytes: &[u8],
    number: u16,
) -> Result<Option<RefusedPart>, AllocError>
    ensures { IfOk result (λ found. IfSome found (λ _. IsSome (json_of bytes.now))) }
{
    let Some(json) = read_json(alloc, bytes)? else {
        return Ok(None);
    };
    let found = refused_part_of(alloc, language, &json, number);
    drop(json);
    found
}

/// The same of a schema whose JSON is at hand, such as that of a schema text.
///
/// # Errors
///
/// Fails only when out of memory.
pub fn refused_part_of(
    alloc: Global,
    language: Language,
    json: &Value,
    number: u16,
) -> Result<Option<RefusedPart>, AllocError> {
    match refused_in(alloc, language, json, number)? {
        Some(refusal) => Ok(Some(refusal.done()?)),
        None => Ok(None),
    }
}

fn refused_in(
    alloc: Global,
    language: Language,
    json: &Value,
    number: u16,
) -> Result<Option<Refusal>, AllocError> {
    match json.as_object() {
        Some(root) => refused_in_root(alloc, language, root, number),
        None if number == 302 => Ok(Some(refused_root(alloc, json))),
        None => Ok(None),
    }
}

// A schema that is not an object.
fn refused_root(alloc: Global, json: &Value) -> Refusal {
    let says = [
        "a schema must be an object of namespaces, not ",
        kind_of(json),
    ];
    let mut hint = Draft::new(alloc);
    if let Value::Array(_) = json {
        hint.add("a list goes into the file of `--entities` or of `--links`");
    }
    part_with(alloc, joined(alloc, &says), hint)
}

fn refused_in_root(
    alloc: Global,
    language: Language,
    root: &Map<String, Value>,
    number: u16,
) -> Result<Option<Refusal>, AllocError> {
    match number {
        304 => refused_common_circle(alloc, language, root),
        305 => refused_action_circle(alloc, root),
        302 | 303 | 306 | 307 | 308 | 309 => refused_written(alloc, language, root, number),
        _ => Ok(None),
    }
}

fn refused_written(
    alloc: Global,
    language: Language,
    root: &Map<String, Value>,
    number: u16,
) -> Result<Option<Refusal>, AllocError> {
    let found = refused_spaces(alloc, language, number, root);
    if found.is_some() {
        return Ok(found);
    }
    let declared = Declared::read(alloc, root)?;
    let found = refused_declared(alloc, language, root, number, &declared);
    drop(declared);
    found
}

// Only 302 and 309 need common types expanded.
fn refused_declared(
    alloc: Global,
    language: Language,
    root: &Map<String, Value>,
    number: u16,
    declared: &Declared,
) -> Result<Option<Refusal>, AllocError> {
    if number != 302 && number != 309 {
        return Ok(refused_entries(alloc, language, number, root, declared, None));
    }
    let forms = Forms::read(alloc, language, root)?;
    let found = refused_entries(alloc, language, number, root, declared, forms.as_ref());
    drop(forms);
    Ok(found)
}
