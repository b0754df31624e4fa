//! What is likely meant between brackets.
use crate::around::Around;
use crate::hint_of_type::meant_after_type;
use crate::second::leaves_open;
use base_names::Nearest;

/// The keys of what an action applies to, and what is said of a word that is near to one.
const KEYS: [(&str, &str); 3] = [
    ("principal", "did you mean `principal`?"),
    ("resource", "did you mean `resource`?"),
    ("context", "did you mean `context`?"),
];

/// What is likely meant after a part of what is between brackets, or none.
pub(crate) fn meant_in_list(around: Around<'_>) -> Option<&'static str> {
    let here = around.here?;
    if leaves_open(around) {
        return None;
    }
    if here.text == ";" {
        return Some("write commas between the parts in brackets");
    }
    if here.is_name() || here.text == "@" {
        return Some("a `,` is missing before it");
    }
    meant_after_type(around)
}

/// What is likely meant in the braces of `appliesTo`, or none.
pub(crate) fn meant_for_applies(around: Around<'_>) -> Option<&'static str> {
    let here = around.here?.text;
    let meant = match here {
        "}" if around.follows("{") => {
            "write `principal: [..]` and `resource: [..]`, or leave out `appliesTo`"
        }
        "principalTypes" | "\"principalTypes\"" | "\"principal\"" => "write `principal: [User]`",
        "resourceTypes" | "\"resourceTypes\"" | "\"resource\"" => "write `resource: [Document]`",
        "\"context\"" => "write `context: {..}`",
        _ => return nearest_key(here),
    };
    Some(meant)
}

fn nearest_key(here: &str) -> Option<&'static str> {
    let mut nearest = Nearest::new(here);
    for (key, says) in KEYS {
        nearest = nearest.compare(key, says);
    }
    nearest.name()
}
