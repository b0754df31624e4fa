//! Items of a list of links that are not links.
ghost use Rattle.std.specs.Prelude.{◌≡◌, IfOk, IfSome};
ghost use Rattle.cedar_conform.specs.Links.{LinksAreRefused};
ghost use Rattle.cedar_conform_values.specs.Numbers.{number_of};
ghost use Rattle.cedar_conform_values.specs.declared.conform_fault.ConformFault.TheVariants.{Shape};

use crate::data_fault::RefusedLink;
use crate::entry_shape::{unknown_key, unknown_key_words};
use crate::shown::add_key;
use crate::uid_words::{ENTITY, is_uid, uid_words};
use crate::words::Words;
use base_json::read_json;
use cedar_conform::read_links;
use cedar_conform_values::ConformFault;
use serde_json::{Map, Value as Json};
use std::alloc::{AllocError, Global};

const LINK_KEYS: [&str; 3] = ["template_id", "link_id", "args"];

const SLOTS: [&str; 2] = ["?principal", "?resource"];

/// What is said where a key of a link is missing or not known.
const KEYS_SAY: &str = "a link has the keys template_id, link_id and args";

/// The number of a list with an item that is not a link.
const SHAPE: u16 = 502;

/// The first item of a list of links that is not a link, and why. None where all items are links, and where the bytes are not a
/// JSON list.
///
/// # Errors
///
/// Fails only when out of memory.
pub fn refused_link(alloc: Global, bytes: &[u8]) -> Result<Option<RefusedLink>, AllocError>
    ensures refused { IfOk result (λ o. IfSome o (λ _. LinksAreRefused bytes.now Shape)) }
    ensures number { IfOk result (λ o. IfSome o (λ found. found.fault.number ≡ number_of Shape)) }
{
    match read_links(alloc, bytes) {
        Ok(links) => {
            drop(links);
            Ok(None)
        }
        Err(ConformFault::OutOfMemory) => Err(AllocError),
        Err(ConformFault::Shape) => first_refused(alloc, bytes),
        Err(fault) => {
            drop(fault);
            Ok(None)
        }
    }
}

fn first_refused(alloc: Global, bytes: &[u8]) -> Result<Option<RefusedLink>, AllocError>
    ensures { IfOk result (λ o. IfSome o (λ found. found.fault.number ≡ 502)) }
{
    match read_json(alloc, bytes)? {
        Some(json) => {
            let found = first_of(alloc, &json);
            drop(json);
            found
        }
        None => Ok(None),
    }
}

fn first_of(alloc: Global, json: &Json) -> Result<Option<RefusedLink>, AllocError>
    ensures { IfOk result (λ o. IfSome o (λ found. found.fault.number ≡ 502)) }
{
    let Some(items) = json.as_array() else {
        return Ok(None);
    };
    for (position, item) in items.iter().enumerate() {
        let mut words = Words::new(alloc);
        if link_words(alloc, &mut words, item)? {
            let fault = words.numbered(SHAPE)?;
            return Ok(Some(RefusedLink { position, fault }));
        }
    }
    Ok(None)
}

// Whether an item is not a link. If so, the words for it are added.
fn link_words(alloc: Global, words: &mut Words, link: &Json) -> Result<bool, AllocError> {
    let Some(members) = link.as_object() else {
        words.want("an object", link);
        return Ok(true);
    };
    if let Some(key) = unknown_key(members, &LINK_KEYS) {
        unknown_key_words(words, key, &LINK_KEYS, KEYS_SAY);
        return Ok(true);
    }
    if text_words(words, link, "template_id") || text_words(words, link, "link_id") {
        return Ok(true);
    }
    args_words(alloc, words, link)
}

// Whether an id is missing or not a string. If so, the words for it are added.
fn text_words(words: &mut Words, link: &Json, key: &str) -> bool {
    let found = link.get(key);
    if let Some(Json::String(_)) = found {
        return false;
    }
    add_key(&mut words.path, key);
    match found {
        Some(found) => words.want_text(found),
        None => words.says.add_all(&["missing; ", KEYS_SAY]),
    }
    true
}

// Whether the uids of a link are not right. If so, the words for them are added.
fn args_words(alloc: Global, words: &mut Words, link: &Json) -> Result<bool, AllocError> {
    let found = link.get("args");
    let Some(members) = found.and_then(Json::as_object) else {
        words.path.add("args");
        match found {
            Some(found) => words.want("an object", found),
            None => words.says.add_all(&["missing; ", KEYS_SAY]),
        }
        words.hint.add("write {\"?principal\":..}, {\"?resource\":..} or both slots");
        return Ok(true);
    };
    if let Some(key) = unknown_key(members, &SLOTS) {
        words.path.add("args");
        unknown_key_words(words, key, &SLOTS, "the slots are ?principal and ?resource");
        return Ok(true);
    }
    slots_words(alloc, words, members)
}

// Whether a slot has a value that is not a uid. If so, the words for the first one are added.
fn slots_words(
    alloc: Global,
    words: &mut Words,
    members: &Map<String, Json>,
) -> Result<bool, AllocError> {
    for (slot, value) in members.iter() {
        if !is_uid(alloc, value)? {
            words.path.add("args");
            add_key(&mut words.path, slot.as_str());
            uid_words(alloc, words, value, ENTITY)?;
            return Ok(true);
        }
    }
    Ok(false)
}
