//! Names in a schema, and what they denote.
ghost use Rattle.std.specs.Prelude.{◌≡◌, ◌++◌, [], nat_eq, codes, Some, IfOk, MatchResult, string_bytes};
ghost use Rattle.std.specs.List.{list_any};
ghost use Rattle.cedar_schema_json.specs.Faults.{Told};
ghost use Rattle.cedar_schema_json.specs.Naming.{is_reserved, listed, qualified, resolved, text_faults, name_faults, whole_name};

use crate::json::name_table::NameTable;
use crate::schema_fault::SchemaFault;
use cedar_value::{Name, Text};
use std::alloc::{AllocError, Global};

/// The name that a string writes, whether it is declared or not.
///
/// # Errors
///
/// 1 when out of memory, 302 where the string is not a name, 306 where one of its words is `__cedar`.
#[tactic(auto, unfolding(crate::specs::Naming::text_faults))]
pub fn read_name(alloc: Global, text: &str) -> Result<Name, SchemaFault>
    ensures { MatchResult result
        (λ name. (text_faults text.now ≡ []) × (name ≡ text.now))
        (λ e. Told (text_faults text.now) e) }
{
    if is_reserved(text) {
        return Err(SchemaFault::ReservedName);
    }
    match Name::read(alloc, text)? {
        Some(name) => Ok(name),
        None => Err(SchemaFault::Shape),
    }
}

/// The declared name that a string in a namespace denotes, with its place.
#[tactic(auto, unfolding(crate::specs::Naming::name_faults))]
pub(crate) fn read_declared(
    alloc: Global,
    names: &NameTable,
    namespace: &str,
    text: &str,
) -> Result<(Name, usize), SchemaFault>
    ensures { MatchResult result
        (λ n. (name_faults names.now namespace.now text.now ≡ []) × (resolved names.now namespace.now text.now ≡ Some n))
        (λ e. Told (name_faults names.now namespace.now text.now) e) }
{
    let name = read_name(alloc, text)?;
    resolve(alloc, names, namespace, name)?.ok_or(SchemaFault::UnknownType)
}

// The declared name that a name in a namespace denotes.
#[tactic(auto, unfolding(crate::specs::Naming::resolved))]
fn resolve(
    alloc: Global,
    names: &NameTable,
    namespace: &str,
    name: Name,
) -> Result<Option<(Name, usize)>, AllocError>
    ensures { IfOk result (λ o. o ≡ resolved names.now namespace.now name) }
{
    if has_colon(name.as_str()) {
        return Ok(listed(names, name));
    }
    let whole = qualified(alloc, namespace, name.as_str())?;
    match listed(names, whole) {
        Some(found) => Ok(Some(found)),
        None => Ok(listed(names, name)),
    }
}

// The name with its place.
fn listed(names: &NameTable, name: Name) -> Option<(Name, usize)>
    ensures { result ≡ listed names.now name }
{
    match names.place(&name) {
        Some(place) => Some((name, place)),
        None => None,
    }
}

/// Whether the string has a colon.
pub fn has_colon(text: &str) -> bool
    ensures { result ≡ list_any (nat_eq 58) text.now }
{
    text.as_bytes().iter().any(|b| 58 == *b)
}

/// The full name of a name in a namespace.
pub fn qualified(alloc: Global, namespace: &str, name: &str) -> Result<Name, AllocError>
    ensures { IfOk result (λ n. n ≡ qualified namespace.now name.now) }
{
    let path = Text::new(qualified_text(alloc, namespace, name)?);
    Name::new(alloc, path)
}

/// The full name that a name in a namespace is first looked for.
#[tactic(auto, unfolding(crate::specs::Naming::qualified, crate::specs::Naming::whole_name))]
pub(crate) fn whole_name(alloc: Global, namespace: &str, text: &str) -> Result<Name, AllocError>
    ensures { IfOk result (λ n. n ≡ whole_name namespace.now text.now) }
{
    if has_colon(text) {
        qualified(alloc, "", text)
    } else {
        qualified(alloc, namespace, text)
    }
}

#[tactic(auto, unfolding(crate::specs::Naming::qualified))]
fn qualified_text(alloc: Global, namespace: &str, name: &str) -> Result<String, AllocError>
    ensures { IfOk result (λ s. string_bytes s ≡ qualified namespace.now name.now) }
{
    if namespace.is_empty() {
        String::from_str(alloc, name)
    } else {
        joined(alloc, namespace, name)
    }
}

fn joined(alloc: Global, namespace: &str, name: &str) -> Result<String, AllocError>
    ensures { IfOk result (λ s. string_bytes s ≡ namespace.now ++ codes "::" ++ name.now) }
{
    format!(in alloc; "{namespace}::{name}")
}

// Whether `__cedar` is one of the words of the string.
#[tactic(auto, unfolding(crate::specs::Naming::is_reserved))]
fn is_reserved(text: &str) -> bool
    ensures { result ≡ is_reserved text.now }
{
    let mut rest = text;
    'walk: while let Some((word, others)) = rest.split_once("::") {
        if word == "__cedar" {
            return true;
        }
        rest = others;
    }
    rest == "__cedar"
}
