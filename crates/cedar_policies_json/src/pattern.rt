//! Patterns of `like`.
ghost use Rattle.std.specs.Prelude.{◌≡◌, ◌++◌, IfOk, OnOk, MatchOption, MatchResult, map, option_map};
ghost use Rattle.std.specs.Str.{chars};
ghost use Rattle.serde_json.specs.View.{items_view, view};
ghost use Rattle.cedar_ext.specs.declared.pattern.Element.TheVariants.{Character};
ghost use Rattle.cedar_policies_json.specs.Expressions.{literal_read, part_read, parts_read, pattern_at, wildcard_read};

use crate::parts::only_at;
use cedar_ext::{Element, Pattern};
use serde_json::Value;
use std::alloc::{AllocError, Global};

/// The pattern at a key.
pub(crate) fn pattern_at(
    alloc: Global,
    json: &Value,
    key: &str,
) -> Result<Option<Pattern>, AllocError>
    ensures { IfOk result (λ found. found ≡ pattern_at key.now (view json.now)) }
{
    let Some(found) = json.get(key) else {
        return Ok(None);
    };
    let Some(parts) = found.as_array() else {
        return Ok(None);
    };
    match read_parts(alloc, parts)? {
        Some(elements) => Ok(Some(Pattern::new(elements))),
        None => Ok(None),
    }
}

// The elements of a pattern, part by part.
fn read_parts(alloc: Global, parts: &[Value]) -> Result<Option<Vec<Element>>, AllocError>
    ensures { IfOk result (λ found. option_map (λ v. v.items) found ≡ parts_read (items_view parts.now)) }
{
    let mut elements = Vec::new(alloc);
    let mut rest = parts;
    'walk: while let Some((part, others)) = rest.split_first() {
        let Some(more) = read_part(alloc, part)? else {
            return Ok(None);
        };
        elements.extend_from_slice(&more)?;
        rest = others;
    }
    Ok(Some(elements))
}

// The elements of a part: the word Wildcard, or the characters of a literal.
fn read_part(alloc: Global, part: &Value) -> Result<Option<Vec<Element>>, AllocError>
    ensures { IfOk result (λ found. option_map (λ v. v.items) found ≡ part_read (view part.now)) }
{
    match part.as_str() {
        Some(text) => read_wildcard(alloc, text),
        None => read_literal(alloc, only_at(part, "Literal")),
    }
}

fn read_wildcard(alloc: Global, text: &str) -> Result<Option<Vec<Element>>, AllocError>
    ensures { IfOk result (λ found. option_map (λ v. v.items) found ≡ wildcard_read text.now) }
{
    if text != "Wildcard" {
        return Ok(None);
    }
    Ok(Some(vec![in alloc; Element::Star]?))
}

fn read_literal(alloc: Global, literal: Option<&Value>) -> Result<Option<Vec<Element>>, AllocError>
    ensures { IfOk result (λ found. option_map (λ v. v.items) found ≡ literal_read (option_map (λ v. view v.now) literal.entry)) }
{
    let Some(json) = literal else {
        return Ok(None);
    };
    match json.as_str() {
        Some(text) => Ok(Some(characters(alloc, text)?)),
        None => Ok(None),
    }
}

// The elements of a pattern that has each of these characters.
fn characters(alloc: Global, text: &str) -> Result<Vec<Element>, AllocError>
    ensures { IfOk result (λ found. found.items ≡ map Character (chars text.now)) }
{
    let mut found = Vec::with_capacity(alloc, text.len())?;
    for character in text.chars() {
        found.push(Element::Character(character))?;
    }
    Ok(found)
}
