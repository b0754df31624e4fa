//! Repeated keys of a JSON text.
ghost use Rattle.std.specs.Prelude.{◌≡◌, ◌<◌, ◌+◌, ◌==◌, IfOk, suc, true, false};
ghost use Rattle.json.specs.Lex.{tokens};
ghost use Rattle.serde_json.specs.View.{items_view, members_view, view};
ghost use Rattle.cedar_policies_json.specs.Repeats.{has_each_key_once, keys_in, members_in, members_in_items, members_in_members};

use json::{Reader, Scratch, Token};
use serde_json::{Map, Value};
use std::alloc::{AllocError, Global};

/// Whether no object of a text, whose tree this is, repeats a key.
pub(crate) fn has_each_key_once(alloc: Global, text: &str, json: &Value) -> Result<bool, AllocError>
    ensures { IfOk result (λ once. once ≡ has_each_key_once text.now (view json.now)) }
{
    let mut scratch = Scratch::new(alloc);
    let mut reader = Reader::new(text, &mut scratch)?;
    Ok(takes_all_keys(json, &mut reader))
}

// Whether there are as many keys as members.
fn takes_all_keys(json: &Value, reader: &mut Reader<'_>) -> bool
    ensures { result ≡ (keys_in reader.old == members_in (view json.now)) }
{
    take_keys(json, reader) && !take_key(reader)
}

// Takes the tokens up to the next key and the key. False where there is no key.
fn take_key(reader: &mut Reader<'_>) -> bool
    ensures taken { result ≡ true → keys_in reader.old ≡ suc (keys_in reader.new) }
    ensures none { result ≡ false → keys_in reader.old ≡ 0 }
{
    'walk: while let Some(token) = reader.next() {
        if matches!(token, Token::Key(_)) {
            return true;
        }
    }
    false
}

// Takes as many keys as the JSON has members. False where there are fewer keys.
#[cycle(taking)]
fn take_keys(json: &Value, reader: &mut Reader<'_>) -> bool
    ensures taken { result ≡ true → keys_in reader.old ≡ members_in (view json.now) + keys_in reader.new }
    ensures fewer { result ≡ false → keys_in reader.old < members_in (view json.now) }
{
    match json {
        Value::Array(items) => take_keys_of_items(items, reader),
        Value::Object(members) => take_keys_of_members(members, reader),
        _ => true,
    }
}

#[cycle(taking)]
fn take_keys_of_items(items: &[Value], reader: &mut Reader<'_>) -> bool
    ensures taken { result ≡ true → keys_in reader.old ≡ members_in_items (items_view items.now) + keys_in reader.new }
    ensures fewer { result ≡ false → keys_in reader.old < members_in_items (items_view items.now) }
{
    let mut rest = items;
    'walk: while let Some((item, others)) = rest.split_first() {
        if !take_keys(item, reader) {
            return false;
        }
        rest = others;
    }
    true
}

#[cycle(taking)]
fn take_keys_of_members(members: &Map<String, Value>, reader: &mut Reader<'_>) -> bool
    ensures taken { result ≡ true → keys_in reader.old ≡ members_in_members (members_view members.now.entries) + keys_in reader.new }
    ensures fewer { result ≡ false → keys_in reader.old < members_in_members (members_view members.now.entries) }
{
    for (_, json) in members.iter() {
        if !take_key(reader) {
            return false;
        }
        if !take_keys(json, reader) {
            return false;
        }
    }
    true
}
