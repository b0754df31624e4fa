//! What is likely meant where a declaration may end.
use crate::around::Around;
use crate::expected::Expected;
use crate::hint_of_type::meant_after_type;
use crate::second::lacks_end;
use base_names::Nearest;

/// What to do about a missing `;`.
const END: &str = "write a `;` at the end of each declaration";

/// What to do about the parents of an entity type.
const PARENTS: &str = "write `in [Team, Group]` for the types of parents";

/// The words of declarations, and what is said of a word that is near to one.
const WORDS: [(&str, &str); 5] = [
    ("in", "did you mean `in`?"),
    ("tags", "did you mean `tags`?"),
    ("appliesTo", "did you mean `appliesTo`?"),
    ("attributes", "did you mean `attributes`?"),
    ("enum", "did you mean `enum`?"),
];

/// What is likely meant where a declaration may end, or none.
pub(crate) fn meant_for_end(around: Around<'_>, expected: &Expected) -> Option<&'static str> {
    if lacks_end(around, expected) {
        return Some(END);
    }
    let here = around.here?.text;
    if here == "::" {
        return Some("after `::` comes a name");
    }
    if around.is_in("entity") {
        meant_in_entity(here).or_else(|| nearest_word(here, expected))
    } else if around.is_in("action") {
        meant_in_action(here).or_else(|| nearest_word(here, expected))
    } else {
        meant_after_type(around)
    }
}

// What is meant after the name of an entity type.
fn meant_in_entity(here: &str) -> Option<&'static str> {
    let meant = match here {
        "in" => "write `in` before the attributes",
        "extends" | "memberOf" | "memberOfTypes" | "parents" | "inherits" | "is" | ":" => PARENTS,
        "shape" | "attributes" | "with" =>
            "write the attributes in braces: `entity User { name: String };`",
        "tags" => "write `tags` after the attributes, once",
        _ => return None,
    };
    Some(meant)
}

// What is meant after the name of an action.
fn meant_in_action(here: &str) -> Option<&'static str> {
    let meant = match here {
        "in" => "write `in` before `appliesTo`",
        "memberOf" | "extends" | "parents" => "write `in [\"read\"]` for the groups of an action",
        "principal" | "resource" | "context" | "{" | "for" | "on" | "applies" => {
            "write `appliesTo { principal: [..], resource: [..], context: {..} }`"
        }
        _ => return None,
    };
    Some(meant)
}

// The nearest of the words that are allowed.
fn nearest_word(here: &str, expected: &Expected) -> Option<&'static str> {
    let mut nearest = Nearest::new(here);
    for (word, says) in WORDS {
        if word == "enum" || expected.allows(word) {
            nearest = nearest.compare(word, says);
        }
    }
    nearest.name()
}
