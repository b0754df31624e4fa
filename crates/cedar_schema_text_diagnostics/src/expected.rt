//! What the grammar of schemas allows at a place where it does not allow what is there.
use crate::around::Around;
use base_places::Draft;
use cedar_schema_text::{SchemaTextFault, read_schema_text};
use std::alloc::{AllocError, Global};

/// How many bytes of a declaration are read once more for each text that is tried. After more of them nothing is said to be expected.
const MOST_BEFORE: usize = 10_000;

/// How many things are said to be expected at most.
const MOST: usize = 5;

/// A name that no rule of the grammar has as a word.
pub(crate) const NAME: &str = "x";

/// A string.
pub(crate) const STRING: &str = "\"a\"";

/// What is said to be expected: the text that is tried for it, the words, and two texts of which none may be allowed beside it.
type Shown = (&'static str, &'static str, [&'static str; 2]);

/// What is tried at a place, and what is shown, in this order. A type is a name or a record, and a word is a name where a name may be.
const SHOWN: [Shown; 27] = [
    (NAME, "a name", ["", ""]),
    (STRING, "a string", ["", ""]),
    ("in", "`in`", [NAME, ""]),
    ("appliesTo", "`appliesTo`", [NAME, ""]),
    ("attributes", "`attributes`", [NAME, ""]),
    ("=", "`=`", ["", ""]),
    ("<", "`<`", ["", ""]),
    ("{", "`{`", [NAME, ""]),
    ("tags", "`tags`", [NAME, ""]),
    ("principal", "`principal`", [NAME, ""]),
    ("resource", "`resource`", [NAME, ""]),
    ("context", "`context`", [NAME, ""]),
    ("entity", "`entity`", [NAME, ""]),
    ("action", "`action`", [NAME, ""]),
    ("type", "`type`", [NAME, ""]),
    ("namespace", "`namespace`", [NAME, ""]),
    ("@", "`@`", ["", ""]),
    (":", "`:`", ["", ""]),
    ("?", "`?`", ["", ""]),
    (",", "`,`", [";", ""]),
    (";", "`;`", ["", ""]),
    ("}", "`}`", ["", ""]),
    ("[", "`[`", ["", ""]),
    ("]", "`]`", ["", ""]),
    (">", "`>`", ["", ""]),
    ("(", "`(`", ["entity", "x"]),
    (")", "`)`", ["", ""]),
];

/// What the grammar allows at a place: those of the texts that were tried with which it goes on.
#[derive(Drop)]
pub(crate) struct Expected {
    allowed: Vec<&'static str>,
    // Whether texts were tried.
    is_known: bool,
}

impl Expected {
    /// What is allowed at a place of a text. Nothing is known to be after more than 10,000 bytes of a declaration.
    ///
    /// # Errors
    ///
    /// Fails only when out of memory.
    pub(crate) fn at(
        alloc: Global,
        text: &str,
        around: Around<'_>,
    ) -> Result<Expected, AllocError> {
        let before = text.get(around.start..around.end()).unwrap_or("");
        let space = match around.namespace {
            Some(_) => "namespace x {",
            None => "",
        };
        if before.len() > MOST_BEFORE {
            return Ok(Expected {
                allowed: Vec::new(alloc),
                is_known: false,
            });
        }
        Ok(Expected {
            allowed: allowed_after(alloc, space, before)?,
            is_known: true,
        })
    }

    /// Whether a text that was tried is allowed.
    pub(crate) fn allows(&self, tried: &str) -> bool {
        self.allowed.iter().any(|allowed| *allowed == tried)
    }

    /// Whether texts were tried, and none is allowed.
    pub(crate) fn is_nothing(&self) -> bool {
        self.is_known && self.allowed.is_empty()
    }

    /// Whether a declaration may begin.
    pub(crate) fn begins_declaration(&self) -> bool {
        self.allows("entity") && !self.allows(NAME)
    }

    /// Whether a type is wanted, of any form.
    pub(crate) fn wants_type(&self) -> bool {
        self.allows(NAME) && self.allows("{") && !self.allows(STRING)
    }

    /// Whether the names of types are wanted, one or several in brackets.
    pub(crate) fn wants_type_names(&self) -> bool {
        self.allows(NAME) && self.allows("[") && !self.allows(STRING)
    }

    /// Whether a key of what an action applies to is wanted.
    pub(crate) fn wants_applies(&self) -> bool {
        self.allows("principal") && !self.allows(NAME)
    }

    /// Whether the parts between brackets may go on or end: an attribute, a type or an id has been read.
    pub(crate) fn goes_on_or_closes(&self) -> bool {
        self.allows(",") && (self.allows("}") || self.allows("]"))
    }

    // Whether this is said to be expected.
    fn shows(&self, shown: &Shown) -> bool {
        let (tried, _, [one, two]) = *shown;
        self.allows(tried) && !self.allows(one) && !self.allows(two)
    }

    // How many things are said to be expected.
    fn count_shown(&self) -> usize {
        let mut count = 0usize;
        for shown in &SHOWN {
            if count < MOST && self.shows(shown) {
                count = count.saturating_add(1);
            }
        }
        count
    }

    // The words for a text that is allowed.
    fn words(&self, shown: &Shown) -> &'static str {
        if shown.0 == NAME && self.wants_type() {
            "a type"
        } else if shown.0 == NAME && self.wants_type_names() {
            "the name of a type"
        } else {
            shown.1
        }
    }

    /// Adds what is expected, at most five things: "expected `=`, `{`, `tags` or `;`", after a comma. Adds nothing where nothing is known.
    pub(crate) fn add_to(&self, says: &mut Draft) {
        let count = self.count_shown();
        let mut number = 0usize;
        for shown in &SHOWN {
            if number < count && self.shows(shown) {
                says.add(match number {
                    0 => ", expected ",
                    _ if number.saturating_add(1) == count => " or ",
                    _ => ", ",
                });
                says.add(self.words(shown));
                number = number.saturating_add(1);
            }
        }
    }
}

// The texts with which the grammar goes on after the beginning of a declaration.
fn allowed_after(
    alloc: Global,
    space: &str,
    before: &str,
) -> Result<Vec<&'static str>, AllocError> {
    let mut allowed = Vec::new(alloc);
    for shown in &SHOWN {
        if is_allowed(alloc, space, before, shown.0)? {
            allowed.push(shown.0)?;
        }
    }
    Ok(allowed)
}

/// Whether a string that is closed denotes a text: it has no escape that there is not.
///
/// # Errors
///
/// Fails only when out of memory.
pub(crate) fn denotes_text(alloc: Global, string: &str) -> Result<bool, AllocError> {
    is_allowed(alloc, "", "action", string)
}

// Whether the grammar goes on with a text after the beginning of a declaration: whatever it refuses then, it is not this text.
fn is_allowed(alloc: Global, space: &str, before: &str, tried: &str) -> Result<bool, AllocError> {
    let text = format!(in alloc; "{space}{before} {tried}")?;
    match read_schema_text(alloc, text.as_str()) {
        Ok(json) => {
            drop(json);
            Ok(true)
        }
        Err(SchemaTextFault::OutOfMemory) => Err(AllocError),
        Err(SchemaTextFault::Syntax(at)) => Ok(at >= text.len()),
        Err(SchemaTextFault::Twice(_)) => Ok(true),
    }
}
