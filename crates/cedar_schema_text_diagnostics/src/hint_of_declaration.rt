//! What is likely meant where a declaration begins.
use crate::around::Around;
use crate::piece::PieceKind;
use base_names::Nearest;

/// What to do with policies.
const POLICIES: &str = "this looks like policies: they go into the file of `--policies`";

/// The words with which declarations begin, and what is said of a word that is near to one.
const WORDS: [(&str, &str); 4] = [
    ("entity", "did you mean `entity`?"),
    ("action", "did you mean `action`?"),
    ("type", "did you mean `type`?"),
    ("namespace", "did you mean `namespace`?"),
];

/// What is likely meant where a declaration is expected, or none.
pub(crate) fn meant_for_declaration(around: Around<'_>) -> Option<&'static str> {
    let here = around.here?;
    if around.before.is_none() && here.kind != PieceKind::Word {
        return meant_at_beginning(here.text);
    }
    meant_by_word(here.text).or_else(|| nearest_word(here.text))
}

// What is meant by the sign or string with which a file begins.
fn meant_at_beginning(text: &str) -> Option<&'static str> {
    if text.starts_with('"') {
        Some("this looks like JSON that lacks its first `{`")
    } else if text == "[" {
        Some("a schema in JSON begins with `{`")
    } else {
        None
    }
}

// What is meant by something else than the beginning of a declaration.
fn meant_by_word(text: &str) -> Option<&'static str> {
    let meant = match text {
        "permit" | "forbid" => POLICIES,
        "}" => "no brace is open here: remove this `}`",
        ";" => "remove this `;`: each declaration has one, and the `}` of a namespace none",
        "namespace" =>
            "a namespace is not declared in another: write `namespace Outer::Inner { .. }`",
        "enum" => "write `entity Color enum [\"red\", \"green\"];`",
        "class" | "struct" | "interface" | "record" | "shape" => {
            "write `entity User { .. };`, or `type Address = { .. };`"
        }
        "principal" | "resource" | "user" | "group" | "role" => {
            "entities of all kinds are declared with `entity`"
        }
        "import" | "include" | "use" => "a schema is one file: there are no imports",
        _ => return None,
    };
    Some(meant)
}

fn nearest_word(text: &str) -> Option<&'static str> {
    let mut nearest = Nearest::new(text);
    for (word, says) in WORDS {
        nearest = nearest.compare(word, says);
    }
    nearest.name()
}
