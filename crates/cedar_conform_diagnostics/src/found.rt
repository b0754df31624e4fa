//! What is there instead of what is wanted.
use crate::shown::add_beginning;
use base_places::Draft;
use serde_json::Value as Json;

/// Adds what a JSON is, for example `the number 3` or `a list`.
pub(crate) fn add_found(out: &mut Draft, json: &Json) {
    match json {
        Json::Null => out.add("null"),
        Json::Bool(true) => out.add("the Boolean true"),
        Json::Bool(false) => out.add("the Boolean false"),
        Json::Number(number) => {
            out.add("the number ");
            out.add_display(number);
        }
        Json::String(text) => {
            out.add("the string ");
            add_beginning(out, text.as_str());
        }
        Json::Array(_) => out.add("a list"),
        Json::Object(_) => out.add("an object"),
    }
}
