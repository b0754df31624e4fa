//! An explanation as JSON for programs.
use crate::entries::Entries;
use crate::entry::{Entry, Standing};
use crate::request_text::{ENTITIES, is_stored, uid_of};
use crate::words::error_name;
use base_places::JsonDraft;
use cedar_ast::{Decision, Effect};
use cedar_auth::{Erring, Ready, Response};
use cedar_value::{Request, Uid};
use std::alloc::{AllocError, Global};

/// An explanation of the decision about a request: one JSON object, and a line feed.
pub fn json_of(
    alloc: Global,
    ready: &Ready,
    request: &Request,
    response: &Response<'_>,
    entries: &Entries,
    number: usize,
) -> Result<String, AllocError> {
    let mut json = JsonDraft::new(alloc);
    json.begin_object();
    add_response(&mut json, response);
    json.number_at("false_by_scope", entries.out_of_scope);
    json.number_at("line", number);
    add_unstored(&mut json, ready, request);
    add_entries(alloc, &mut json, entries);
    json.end_object();
    let mut line = json.done()?;
    line.push('\n')?;
    Ok(line)
}

// `"decision":D,"determining":[ID, ..],"erring":[..]`, as in an answer line.
fn add_response(json: &mut JsonDraft, response: &Response<'_>) {
    json.key("decision");
    json.string(match response.decision {
        Decision::Allow => "allow",
        Decision::Deny => "deny",
    });
    json.key("determining");
    json.begin_array();
    for id in &response.determining {
        json.string(id);
    }
    json.end_array();
    json.key("erring");
    json.begin_array();
    for erring in &response.erring {
        add_erring(json, erring);
    }
    json.end_array();
}

fn add_erring(json: &mut JsonDraft, erring: &Erring<'_>) {
    json.begin_object();
    json.string_at("error", error_name(erring.error));
    json.string_at("policy", erring.policy);
    json.end_object();
}

// `"not_stored":[UID, ..]`
fn add_unstored(json: &mut JsonDraft, ready: &Ready, request: &Request) {
    json.key("not_stored");
    json.begin_array();
    for variable in ENTITIES {
        if !is_stored(ready, request, variable) {
            add_uid(json, uid_of(request, variable));
        }
    }
    json.end_array();
}

fn add_uid(json: &mut JsonDraft, uid: &Uid) {
    json.begin_object();
    json.string_at("id", uid.id.as_str());
    json.string_at("type", uid.ty.as_str());
    json.end_object();
}

// `"policies":[..]`
fn add_entries(alloc: Global, json: &mut JsonDraft, entries: &Entries) {
    json.key("policies");
    json.begin_array();
    for entry in &entries.shown {
        add_entry(alloc, json, entry);
    }
    json.end_array();
}

// What a policy came to.
fn result_word(standing: Standing) -> &'static str {
    match standing {
        Standing::Determining => "satisfied",
        Standing::Erring(_) => "erred",
        Standing::Overridden => "overridden",
        Standing::Unmet => "false",
        Standing::OutOfScope => "false_by_scope",
    }
}

// `{"column":C,"effect":E,"line":L,"policy":ID,"result":R,"says":S}`. Without a place there is no column and no line, and without
// words no `says`.
fn add_entry(alloc: Global, json: &mut JsonDraft, entry: &Entry) {
    json.begin_object();
    if let Some(place) = entry.place {
        json.number_at("column", place.column.saturating_add(1));
    }
    json.key("effect");
    json.string(match entry.effect {
        Effect::Permit => "permit",
        Effect::Forbid => "forbid",
    });
    if let Some(place) = entry.place {
        json.number_at("line", place.line.saturating_add(1));
    }
    json.string_at("policy", entry.id.as_str());
    json.string_at("result", result_word(entry.standing));
    if !entry.says.is_empty() {
        json.key("says");
        json.shown(alloc, entry.says.as_str());
    }
    json.end_object();
}
