//! What the grammar allows at a place where it does not allow the token that is there.
use base_places::Draft;
use cedar_ext::Language;
use cedar_parser::parse_in;
use cedar_parser_tokens::ParseFault;
use std::alloc::{AllocError, Global};

/// How many bytes of a statement are read once more for each text that is tried. After more of them nothing is said to be expected.
const MOST_BEFORE: usize = 10_000;

/// How many things are said to be expected at most.
const MOST: usize = 5;

/// What is tried at a place, each for all texts of its kind: a number begins an expression, a uid is of any type.
const TRIED: [&str; 31] = [
    "1",
    UID,
    NAME,
    "\"a\"",
    "?principal",
    "&&",
    "||",
    "==",
    "in",
    "is",
    ",",
    ")",
    "]",
    "}",
    ";",
    ":",
    "::",
    "(",
    "[",
    "{",
    "@",
    "permit",
    "forbid",
    "principal",
    "action",
    "resource",
    "when",
    "unless",
    "then",
    "else",
    "like",
];

// A uid, and a name that no rule of the grammar has as a word.
const UID: &str = "X::\"a\"";

const NAME: &str = "x";

/// What is said to be expected: the text that is tried for it, the words, and two texts of which none may be allowed beside it.
type Shown = (&'static str, &'static str, [&'static str; 2]);

/// What is shown, in this order. An expression may begin with much that is not shown beside it, and operators are one thing where all of
/// them are allowed.
const SHOWN: [Shown; 31] = [
    ("1", "an expression", ["", ""]),
    (UID, "a uid such as `User::\"ann\"`", ["1", ""]),
    (NAME, "a name", [UID, ""]),
    ("\"a\"", "a string", ["1", ""]),
    ("?principal", "a slot", ["1", ""]),
    ("like", "an operator", ["", ""]),
    ("&&", "`&&`", ["like", ""]),
    ("||", "`||`", ["like", ""]),
    ("==", "`==`", ["&&", ""]),
    ("in", "`in`", ["&&", ""]),
    ("is", "`is`", ["&&", ""]),
    (",", "`,`", ["", ""]),
    (")", "`)`", ["", ""]),
    ("]", "`]`", ["", ""]),
    ("}", "`}`", ["", ""]),
    (";", "`;`", ["", ""]),
    (":", "`:`", ["", ""]),
    ("::", "`::`", ["&&", ""]),
    ("(", "`(`", ["1", "&&"]),
    ("[", "`[`", ["1", "&&"]),
    ("{", "`{`", ["1", ""]),
    ("permit", "`permit`", [NAME, ""]),
    ("forbid", "`forbid`", [NAME, ""]),
    ("@", "`@`", ["", ""]),
    ("principal", "`principal`", [NAME, ""]),
    ("action", "`action`", [NAME, ""]),
    ("resource", "`resource`", [NAME, ""]),
    ("when", "`when`", [NAME, ""]),
    ("unless", "`unless`", [NAME, ""]),
    ("then", "`then`", ["", ""]),
    ("else", "`else`", ["", ""]),
];

/// What the grammar allows at a place: those of the texts that were tried with which the parser goes on.
#[derive(Drop)]
pub(crate) struct Expected {
    allowed: Vec<&'static str>,
}

impl Expected {
    /// What is allowed after this beginning of a statement in a language. Nothing is known to be after a beginning of more than 10,000 bytes.
    ///
    /// # Errors
    ///
    /// Fails only when out of memory.
    pub(crate) fn after(
        alloc: Global,
        language: Language,
        before: &str,
    ) -> Result<Expected, AllocError> {
        let mut allowed = Vec::new(alloc);
        if before.len() <= MOST_BEFORE {
            for tried in TRIED {
                if is_allowed(alloc, language, before, tried)? {
                    allowed.push(tried)?;
                }
            }
        }
        Ok(Expected { allowed })
    }

    /// Whether a text that was tried is allowed.
    pub(crate) fn allows(&self, tried: &str) -> bool {
        self.allowed.iter().any(|allowed| *allowed == tried)
    }

    /// Whether an entity with its id is wanted, as in a scope.
    pub(crate) fn wants_uid(&self) -> bool {
        self.allows(UID) && !self.allows("1")
    }

    /// Whether the key of a record, or the attribute after `has`, is wanted.
    pub(crate) fn wants_key(&self) -> bool {
        self.allows("\"a\"") && self.allows(NAME) && !self.allows("1")
    }

    /// Whether a policy may begin.
    pub(crate) fn begins_policy(&self) -> bool {
        self.allows("@")
    }

    /// Whether a clause may begin, or the policy end.
    pub(crate) fn begins_clause(&self) -> bool {
        self.allows("when") && !self.allows(NAME)
    }

    /// Whether a variable of a scope is wanted.
    pub(crate) fn wants_variable(&self) -> bool {
        let is_variable = self.allows("principal")
            || self.allows("action")
            || self.allows("resource");
        is_variable && !self.allows(NAME)
    }

    // Whether this is said to be expected.
    fn shows(&self, shown: &Shown) -> bool {
        let (tried, _, [one, two]) = *shown;
        self.allows(tried) && !self.allows(one) && !self.allows(two)
    }

    // How many things are said to be expected.
    fn count_shown(&self) -> usize {
        let mut count = 0usize;
        for shown in &SHOWN {
            if count < MOST && self.shows(shown) {
                count = count.saturating_add(1);
            }
        }
        count
    }

    /// Adds what is expected, at most five things: "expected `;`, `when` or `unless`", after a comma. Adds nothing where nothing is known.
    pub(crate) fn add_to(&self, says: &mut Draft) {
        let count = self.count_shown();
        let mut number = 0usize;
        for shown in &SHOWN {
            if number < count && self.shows(shown) {
                says.add(match number {
                    0 => ", expected ",
                    _ if number.saturating_add(1) == count => " or ",
                    _ => ", ",
                });
                says.add(shown.1);
                number = number.saturating_add(1);
            }
        }
    }
}

// Whether the parser goes on with a text after the beginning of a statement: whatever it refuses then, it is not this text.
fn is_allowed(
    alloc: Global,
    language: Language,
    before: &str,
    tried: &str,
) -> Result<bool, AllocError> {
    let text = format!(in alloc; "{before} {tried}")?;
    match parse_in(alloc, language, text.as_str()) {
        Ok(policies) => {
            drop(policies);
            Ok(true)
        }
        Err(ParseFault::OutOfMemory) => Err(AllocError),
        Err(ParseFault::Syntax(at)) => Ok(at >= text.len()),
        Err(_) => Ok(true),
    }
}
