//! Words for a request line.
use crate::entry_shape::{unknown_key, unknown_key_words};
use crate::json_hint::meant_in_line;
use crate::owner::Owner;
use crate::shown::{add_types, add_uid};
use crate::uid_words::{ACTION, ENTITY, is_uid, uid_words};
use crate::undeclared::{action_words, type_words};
use crate::unlisted::unlisted_words;
use crate::unlisted_path::unlisted_value_words;
use crate::value_path::value_words_at;
use crate::words::Words;
use cedar_conform_values::written_uid;
use cedar_schema::{Action, Schema};
use cedar_value::{Name, Uid};
use serde_json::Value as Json;
use std::alloc::{AllocError, Global};
use std::collections::BTreeSet;

const REQUEST_KEYS: [&str; 4] = ["principal", "action", "resource", "context"];

/// The keys at which a request has uids, in the order in which the reader looks at them.
const UID_KEYS: [&str; 3] = ["principal", "action", "resource"];

// The uids of a request.
#[derive(Drop)]
struct RequestUids {
    principal: Uid,
    action: Uid,
    resource: Uid,
}

/// The words for a line that is not JSON, 501. Columns are bytes, from 1.
pub(crate) fn line_words(alloc: Global, words: &mut Words, line: &[u8]) -> Result<(), AllocError> {
    if line.is_empty() {
        words.says.add("the line is empty");
        words.hint.add("each line is one request");
        return Ok(());
    }
    match Json::from_slice(alloc, line) {
        Ok(json) => {
            drop(json);
            words.says.add("the line is not valid JSON");
        }
        Err(error) if error.is_memory() => return Err(AllocError),
        Err(error) if error.is_eof() => {
            words.says.add("invalid JSON: unexpected end of input");
            words.hint.add(
                "a request is one line: `jq -c .` writes an object of several lines as one",
            );
        }
        Err(error) => {
            words.says.add("invalid JSON at column ");
            words.says.add_display(error.column());
            return hint_in_line(alloc, words, line, error.column());
        }
    }
    Ok(())
}

// Hints what is likely meant at a column, from 1, of a line that is not JSON.
fn hint_in_line(
    alloc: Global,
    words: &mut Words,
    line: &[u8],
    column: usize,
) -> Result<(), AllocError> {
    let hint = match str::from_utf8(line) {
        Ok(text) => meant_in_line(alloc, text, column.saturating_sub(1))?,
        Err(_) => Some("save the file as UTF-8"),
    };
    words.hint.add(hint.unwrap_or(""));
    Ok(())
}

/// The words for a JSON that is refused as a request with a number, 502 to 506 or 509 to 511.
pub(crate) fn request_words(
    alloc: Global,
    words: &mut Words,
    schema: &Schema,
    request: &Json,
    number: u16,
) -> Result<(), AllocError> {
    if number == 502 {
        return shape_words(alloc, words, request);
    }
    match uids_of(alloc, request)? {
        Some(uids) => {
            let added = uids_words(alloc, words, schema, request, &uids, number);
            drop(uids);
            added
        }
        None => shape_words(alloc, words, request),
    }
}

fn uid_at(alloc: Global, request: &Json, key: &str) -> Result<Option<Uid>, AllocError> {
    match request.get(key) {
        Some(found) => written_uid(alloc, found),
        None => Ok(None),
    }
}

fn uids_of(alloc: Global, request: &Json) -> Result<Option<RequestUids>, AllocError> {
    let Some(principal) = uid_at(alloc, request, "principal")? else {
        return Ok(None);
    };
    let Some(action) = uid_at(alloc, request, "action")? else {
        return Ok(None);
    };
    let Some(resource) = uid_at(alloc, request, "resource")? else {
        return Ok(None);
    };
    Ok(Some(RequestUids {
        principal,
        action,
        resource,
    }))
}

// The words for a request of the wrong form, 502.
fn shape_words(alloc: Global, words: &mut Words, request: &Json) -> Result<(), AllocError> {
    let Some(members) = request.as_object() else {
        words.want("an object", request);
        if let Json::Array(_) = request {
            words.hint.add(
                "each line is one request: `jq -c '.[]'` writes each item of a list on a line",
            );
        }
        return Ok(());
    };
    if let Some(key) = unknown_key(members, &REQUEST_KEYS) {
        let says = "a request has the keys principal, action, resource and context";
        unknown_key_words(words, key, &REQUEST_KEYS, says);
        return Ok(());
    }
    for key in UID_KEYS {
        let Some(found) = request.get(key) else {
            words.path.add(key);
            words
                .says
                .add("missing; a request needs principal, action and resource");
            return Ok(());
        };
        if !is_uid(alloc, found)? {
            words.path.add(key);
            let example = if key == "action" { ACTION } else { ENTITY };
            return uid_words(alloc, words, found, example);
        }
    }
    words.says.add("the request has the wrong form");
    Ok(())
}

// The words for what the schema has against the uids or the context, in the order in which the reader looks at them.
fn uids_words(
    alloc: Global,
    words: &mut Words,
    schema: &Schema,
    request: &Json,
    uids: &RequestUids,
    number: u16,
) -> Result<(), AllocError> {
    if schema.attributes(&uids.principal.ty).is_none() {
        words.path.add("principal");
        return type_words(alloc, words, schema, &uids.principal.ty);
    }
    if schema.attributes(&uids.resource.ty).is_none() {
        words.path.add("resource");
        return type_words(alloc, words, schema, &uids.resource.ty);
    }
    if number == 503 {
        return listed_words(alloc, words, schema, request, uids);
    }
    match schema.action(&uids.action) {
        Some(action) => applied_words(alloc, words, schema, request, uids, action),
        None => {
            words.path.add("action");
            action_words(words, schema, &uids.action);
            Ok(())
        }
    }
}

// The words for the first uid of a request that its enumerated type does not have: the principal, the resource, or one in the context.
fn listed_words(
    alloc: Global,
    words: &mut Words,
    schema: &Schema,
    request: &Json,
    uids: &RequestUids,
) -> Result<(), AllocError> {
    let principal = &uids.principal;
    let resource = &uids.resource;
    if unlisted_words(words, schema, principal) {
        words.path.add("principal");
        return Ok(());
    }
    if unlisted_words(words, schema, resource) {
        words.path.add("resource");
        return Ok(());
    }
    let wanted = schema.context(&uids.action, &principal.ty, &resource.ty);
    match (wanted, request.get("context")) {
        (Some(wanted), Some(found)) => {
            words.path.add("context");
            unlisted_value_words(alloc, words, schema, found, wanted)
        }
        _ => {
            words.says.add("a type is not allowed here");
            Ok(())
        }
    }
}

// The words for an action that is declared: it does not apply, 511, or its context is refused.
fn applied_words(
    alloc: Global,
    words: &mut Words,
    schema: &Schema,
    request: &Json,
    uids: &RequestUids,
    action: &Action,
) -> Result<(), AllocError> {
    let principal = &uids.principal.ty;
    let resource = &uids.resource.ty;
    if !action.principals().contains(principal) {
        words.path.add("principal");
        say_applies(
            words,
            &uids.action,
            action.principals(),
            "principals",
            principal,
        );
        return Ok(());
    }
    if !action.resources().contains(resource) {
        words.path.add("resource");
        say_applies(
            words,
            &uids.action,
            action.resources(),
            "resources",
            resource,
        );
        return Ok(());
    }
    if schema.context(&uids.action, principal, resource).is_none() {
        words.path.add("action");
        words.says.add("the action does not apply");
        return Ok(());
    }
    words.path.add("context");
    let owner = Owner::Action(&uids.action);
    value_words_at(
        alloc,
        words,
        owner,
        request.get("context"),
        action.context(),
    )
}

// Says that an action applies to principals or resources of other types.
fn say_applies(words: &mut Words, action: &Uid, names: &BTreeSet<Name>, role: &str, found: &Name) {
    let says = &mut words.says;
    add_uid(says, action);
    if names.is_empty() {
        says.add_all(&[" applies to no ", role]);
        words.hint.add("an action without `appliesTo` only groups others: request one of these");
        return;
    }
    says.add_all(&[" applies to ", role, " of type "]);
    add_types(says, names);
    says.add_all(&[", not to one of type `", found.as_str(), "`"]);
}
