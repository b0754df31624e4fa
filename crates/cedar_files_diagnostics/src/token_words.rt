//! What is likely meant by characters with which no token begins, and by names that no function has.
use base_names::Nearest;
use cedar_ext::{BinaryMethod, ExtensionType, Language, UnaryMethod};

// What to do about patterns.
const LIKE: &str = "`like` compares a string with a pattern: write `x like \"abc*\"`";

/// What is likely meant by a character with which no token begins, or none. The text is what is before it, and what is from it on.
pub fn meant_by_character(before: &str, rest: &str) -> Option<&'static str> {
    match rest.chars().next() {
        Some('=') => Some(meant_by_equals(before, rest)),
        Some('?') => Some(meant_by_question(before, rest)),
        Some('`') if rest.starts_with("```") => Some(
            "remove the lines that begin with three backquotes",
        ),
        Some('\u{FEFF}') => Some("the file begins with a byte order mark: save it without one"),
        Some('&') => Some("write `&&` for a logical and"),
        Some('|') => Some("write `||` for a logical or"),
        Some('\'' | '`' | '\u{201C}' | '\u{201D}') => Some("write strings in double quotes"),
        Some('#') => Some("write a comment after `//`"),
        Some('/') if before.trim_end().ends_with(" like") => Some(LIKE),
        Some('/') => Some("write a comment after `//`; there is no division"),
        Some('%' | '^') => Some("the arithmetic operators are `+`, `-` and `*`"),
        Some('~') => Some("write `!` for a logical not"),
        Some('$') => Some("names have no `$`; the slots are `?principal` and `?resource`"),
        Some('\u{2264}') => Some("write `<=`"),
        Some('\u{2265}') => Some("write `>=`"),
        Some('\u{2260}') => Some("write `!=`"),
        Some('\u{2212}' | '\u{2013}') => Some("write `-`"),
        Some('\u{200B}'..='\u{200D}' | '\u{2060}') => Some(
            "remove the invisible character that is here",
        ),
        _ => None,
    }
}

// What is likely meant by a sign `=` alone: the order of two signs, one sign too many, a variable, an annotation, or `==`.
fn meant_by_equals(before: &str, rest: &str) -> &'static str {
    let line = before.rsplit('\n').next().unwrap_or("").trim();
    let word = line.rsplit(' ').nth(1).unwrap_or("");
    if rest.starts_with("=>") {
        "there is no `=>`: write `==` or `>=`"
    } else if rest.starts_with("=<") {
        "write `<=`"
    } else if rest.starts_with("=~") {
        LIKE
    } else if before.ends_with('=') {
        "remove this `=`"
    } else if line.ends_with(':') || word == "let" || word == "var" || word == "const" {
        "there are no variables of your own: write the expression itself"
    } else if line.starts_with('@') {
        "an annotation has a value: write `@id(\"..\")`"
    } else {
        "write `==` to compare"
    }
}

// What is likely meant by a sign `?` alone: a test for an attribute, a slot, or a choice.
fn meant_by_question(before: &str, rest: &str) -> &'static str {
    let line = before.trim_end();
    if rest.starts_with("?.") || rest.starts_with("??") {
        "write `x has a && x.a`: there is no `?.` and no `??`"
    } else if line.ends_with("==") || line.ends_with(" in") {
        "the slots are `?principal` and `?resource`"
    } else {
        "write `if a then b else c`"
    }
}

/// What is likely meant by a function or method that a language does not have. The text is what is from its name on.
pub fn meant_by_function(language: Language, rest: &str) -> &'static str {
    let end = rest
        .find(|letter: char| !letter.is_ascii_alphanumeric() && letter != '_')
        .unwrap_or(rest.len());
    let (name, after) = rest.split_at_checked(end).unwrap_or((rest, ""));
    if after.starts_with("::") {
        return "an entity is written with its id as a string: `User::\"ann\"`";
    }
    meant_by_extension(language, name)
        .or_else(|| meant_by_word(name))
        .or_else(|| nearest_function(language, name))
        .unwrap_or("docs/GRAMMAR.md lists the functions and methods")
}

// What is meant by a word that other languages have, or none.
fn meant_by_word(name: &str) -> Option<&'static str> {
    let meant = match name {
        "hasTag" | "getTag" => "entity tags are not supported: see docs/GRAMMAR.md",
        "startsWith" | "endsWith" | "matches" | "starts_with" | "ends_with" | "substring" => LIKE,
        "not" => "write `!` instead of `not`",
        "equals" | "eq" => "write `x == y`",
        "hasAttribute" | "hasAttr" | "exists" | "defined" => "write `x has name`",
        "typeof" | "type" | "isA" | "isInstance" => "write `x is User`",
        "any" | "all" | "some" | "every" | "filter" | "map" => {
            "there are no loops: `contains`, `containsAll` and `containsAny` ask for members of a set"
        }
        "toLowerCase" | "toUpperCase" | "lower" | "upper" | "trim" | "split" | "concat" => {
            "strings are compared with `==` and `like`, and cannot be changed"
        }
        "ipaddr" | "ipAddress" | "ip_address" | "inet" | "cidr" => {
            "an IP address or a network is written `ip(\"10.0.0.0/8\")`, which is read with `--language 4`"
        }
        "now" | "today" | "time" | "date" => "a policy has no clock: give the time in `context`",
        "size" | "length" | "len" | "count" | "empty" => {
            "`x.isEmpty()` tests whether a set is empty; the number of its members cannot be asked for"
        }
        "includes" | "has" | "in" => "write `x.contains(y)` for a set, and `x in y` for entities",
        _ => return None,
    };
    Some(meant)
}

// What is meant by the name of a function or method of an extension type: one of another language, or one that is written in the
// place of the other kind. None of another name.
fn meant_by_extension(language: Language, name: &str) -> Option<&'static str> {
    if let Some(ty) = ExtensionType::of_constructor(name) {
        return Some(if ty.is_in(language) {
            "this is a function: it is written alone, as `decimal(\"1.5\")`"
        } else {
            "this function is read with `--language 4`"
        });
    }
    match is_method_in(language, name)? {
        true => Some("this is a method: it is written after its operand, as `x.isEmpty()`"),
        false => Some("this method is read with `--language 4`"),
    }
}

// Whether a language has the method of an extension type that has this name; none if no extension type has such a method.
fn is_method_in(language: Language, name: &str) -> Option<bool> {
    match (BinaryMethod::named(name), UnaryMethod::named(name)) {
        (Some(method), _) => Some(method.is_in(language)),
        (None, Some(method)) => Some(method.is_in(language)),
        (None, None) => None,
    }
}

// Whether a language has a function or method of a name, of those in the table. The methods of sets are in each language.
fn is_in(language: Language, name: &str) -> bool {
    match ExtensionType::of_constructor(name) {
        Some(ty) => ty.is_in(language),
        None => is_method_in(language, name).unwrap_or(true),
    }
}

/// The functions and methods, and what is said of a name that is near to one.
const FUNCTIONS: [(&str, &str); 26] = [
    ("decimal", "did you mean `decimal`?"),
    ("contains", "did you mean `contains`?"),
    ("containsAll", "did you mean `containsAll`?"),
    ("containsAny", "did you mean `containsAny`?"),
    ("isEmpty", "did you mean `isEmpty`?"),
    ("lessThan", "did you mean `lessThan`?"),
    ("lessThanOrEqual", "did you mean `lessThanOrEqual`?"),
    ("greaterThan", "did you mean `greaterThan`?"),
    ("greaterThanOrEqual", "did you mean `greaterThanOrEqual`?"),
    ("ip", "did you mean `ip`?"),
    ("isInRange", "did you mean `isInRange`?"),
    ("isIpv4", "did you mean `isIpv4`?"),
    ("isIpv6", "did you mean `isIpv6`?"),
    ("isLoopback", "did you mean `isLoopback`?"),
    ("isMulticast", "did you mean `isMulticast`?"),
    ("datetime", "did you mean `datetime`?"),
    ("duration", "did you mean `duration`?"),
    ("offset", "did you mean `offset`?"),
    ("durationSince", "did you mean `durationSince`?"),
    ("toDate", "did you mean `toDate`?"),
    ("toTime", "did you mean `toTime`?"),
    ("toMilliseconds", "did you mean `toMilliseconds`?"),
    ("toSeconds", "did you mean `toSeconds`?"),
    ("toMinutes", "did you mean `toMinutes`?"),
    ("toHours", "did you mean `toHours`?"),
    ("toDays", "did you mean `toDays`?"),
];

// The function or method of a language with the nearest name.
fn nearest_function(language: Language, name: &str) -> Option<&'static str> {
    let mut nearest = Nearest::new(name);
    for (other, says) in FUNCTIONS {
        if is_in(language, other) {
            nearest = nearest.compare(other, says);
        }
    }
    nearest.name()
}
