//! What is likely meant by a text that is not JSON.
use base_json::read_json;
use std::alloc::{AllocError, Global};

/// How many brackets may be open at one place of a JSON text.
const MOST_OPEN: usize = 127;

/// What to do about comments.
const COMMENTS: &str = "JSON has no comments";

/// What to do about other quotes than JSON has.
const QUOTES: &str = "strings have double quotes";

/// What to do about a byte order mark.
const BYTE_ORDER_MARK: &str = "the file begins with a byte order mark: save it without one";

/// What to do about a key outside of an object.
const BRACES: &str = "an object has braces: write `{` before its first key and `}` at its end";

/// What to do where a line is more or less than one request.
const ONE_LINE: &str =
    "a line is one whole request and nothing else: `jq -c .` writes each object on a line of its own";

/// What to do about a line that does not begin as JSON.
const REQUEST: &str =
    "a line is a JSON object: {\"principal\":\"User::\\\"ann\\\"\",\"action\":..,\"resource\":..}";

/// What is likely meant where a text is not JSON from an offset on; or none. Where the text ends too early, the offset is its end.
///
/// # Errors
///
/// Fails only when out of memory.
pub fn meant_in_json(
    alloc: Global,
    text: &str,
    at: usize,
) -> Result<Option<&'static str>, AllocError> {
    let (before, rest) = text.split_at_checked(at).unwrap_or((text, ""));
    if before.trim().is_empty() {
        return Ok(meant_at_beginning(rest));
    }
    if rest.trim().is_empty() {
        return Ok(Some("the file ends too early: a `}`, a `]` or a `\"` is missing"));
    }
    if is_json(alloc, before)? {
        return Ok(Some(meant_after_text(rest)));
    }
    meant_inside(alloc, before, rest, BRACES)
}

/// What is likely meant where a request line is not JSON from an offset on, which is not its end; or none.
///
/// # Errors
///
/// Fails only when out of memory.
pub(crate) fn meant_in_line(
    alloc: Global,
    line: &str,
    at: usize,
) -> Result<Option<&'static str>, AllocError> {
    let (before, rest) = line.split_at_checked(at).unwrap_or((line, ""));
    if before.trim().is_empty() {
        return Ok(Some(match rest.chars().next() {
            Some('/' | '#') => COMMENTS,
            Some('\u{FEFF}') => BYTE_ORDER_MARK,
            Some(']' | '}' | ',') => ONE_LINE,
            _ => REQUEST,
        }));
    }
    if is_json(alloc, before)? {
        return Ok(Some(ONE_LINE));
    }
    meant_inside(alloc, before, rest, ONE_LINE)
}

fn is_json(alloc: Global, text: &str) -> Result<bool, AllocError> {
    match read_json(alloc, text.as_bytes())? {
        Some(json) => {
            drop(json);
            Ok(true)
        }
        None => Ok(false),
    }
}

// The first line that is not empty, and neither a comment nor an annotation.
fn telling_line(text: &str) -> &str {
    text.lines()
        .map(|line| line.trim_start())
        .find(|line| !line.is_empty() && !line.starts_with(['/', '#', '@']))
        .unwrap_or("")
}

// The word with which a text begins.
fn first_word(text: &str) -> &str {
    text.split(|letter: char| !letter.is_ascii_alphanumeric() && letter != '_')
        .next()
        .unwrap_or("")
}

// What is likely meant by a file that does not begin as JSON.
fn meant_at_beginning(rest: &str) -> Option<&'static str> {
    let line = telling_line(rest);
    match first_word(line) {
        "" => meant_by_first(rest.trim_start()),
        "permit" | "forbid" => Some(
            "this looks like policies: they go into the file of `--policies`",
        ),
        "entity" | "namespace" | "action" | "type" if !line.contains(',') => Some(
            "this looks like the schema syntax of Cedar: docs/FROM_CEDAR.md says how to write it as JSON",
        ),
        _ => Some("this looks like YAML or another language: the file has to be JSON"),
    }
}

// What is likely meant by a file that begins with another sign than JSON does.
fn meant_by_first(text: &str) -> Option<&'static str> {
    Some(match text.chars().next() {
        None => "the file is empty: write `{}` for an empty object, or `[]` for an empty list",
        Some('\u{FEFF}') => BYTE_ORDER_MARK,
        Some('/' | '#') => COMMENTS,
        Some('-') => "this looks like YAML or another language: the file has to be JSON",
        Some(_) => "the file has to be JSON, which begins with `{` or `[`",
    })
}

// What is likely meant by what follows a whole JSON text.
fn meant_after_text(rest: &str) -> &'static str {
    match rest.chars().next() {
        Some('{' | '[' | ',') => {
            "the file has to be one JSON text: several objects go into one list or one object"
        }
        _ => "the file has to be one JSON text: remove what follows it",
    }
}

// What is likely meant inside of a text that is not whole, or, where no bracket is open, what is given for that.
fn meant_inside(
    alloc: Global,
    before: &str,
    rest: &str,
    outside: &'static str,
) -> Result<Option<&'static str>, AllocError> {
    let Some(open) = open_in(alloc, before)? else {
        return Ok(Some(
            "a bracket before it is closed by the wrong one: `[` needs `]`, and `{` needs `}`",
        ));
    };
    if open.is_empty() {
        return Ok(Some(outside));
    }
    if open.len() > MOST_OPEN {
        return Ok(Some("at most 127 brackets may be open"));
    }
    let is_list = open.last() == Some(&b'[');
    Ok(meant_between(before, rest, is_list))
}

// The brackets that are open at the end of the beginning of a JSON text; or none where one is closed by one of another kind.
fn open_in(alloc: Global, before: &str) -> Result<Option<Vec<u8>>, AllocError> {
    let mut open = Vec::new(alloc);
    let mut is_string = false;
    let mut is_escaped = false;
    for byte in before.as_bytes() {
        match *byte {
            _ if is_escaped => is_escaped = false,
            b'\\' if is_string => is_escaped = true,
            b'"' => is_string = !is_string,
            b'[' | b'{' if !is_string => open.push(*byte)?,
            b']' if !is_string && open.pop() != Some(b'[') => return Ok(None),
            b'}' if !is_string && open.pop() != Some(b'{') => return Ok(None),
            _ => {}
        }
    }
    Ok(Some(open))
}

// What is likely meant between two parts of a text, in a list or in an object.
fn meant_between(before: &str, rest: &str, is_list: bool) -> Option<&'static str> {
    let last = before.trim_end().chars().next_back()?;
    let next = rest.chars().next()?;
    match next {
        _ if last == ':' && is_list => Some(
            "a list has no keys: a `]` is missing, or write braces",
        ),
        '}' | ']' if last == ',' => Some("remove the `,` before it"),
        '}' | ']' | ',' if last == ':' => Some("a value is missing before it"),
        ',' if matches!(last, ',' | '{' | '[') => Some("remove this `,`"),
        '}' if last == '"' => Some("a key has a value, `\"a\": 1`; a list has square brackets"),
        '"' | '{' | '[' if ends_value(last) => Some("a `,` is missing before it"),
        '"' | '{' | '[' if last == '"' => Some("a `:` or a `,` is missing before it"),
        '{' | '[' if last != ':' && !is_list => Some("a key in double quotes is missing before it"),
        '"' if matches!(last, '{' | '[' | ',' | ':') => Some(
            "the string that begins here is not closed, or has an escape that JSON lacks",
        ),
        'a'..='z' | 'A'..='Z' | '_' if before.ends_with('"') => Some(
            "the string ends before it: a `\"` is missing on this line, or one in the string lacks its `\\`",
        ),
        'a'..='z' | 'A'..='Z' | '_' => Some(meant_by_word(first_word(rest))),
        '0' => Some("a number has no zero in front"),
        '1'..='9' | '-' | '+' | '.' if matches!(last, '[' | ',' | ':') => Some(
            "write a number such as `30`, `-5` or `1.5`: no `+` or point in front, and no `_`",
        ),
        _ => meant_by_sign(next),
    }
}

// What is likely meant by a word without quotes.
fn meant_by_word(word: &str) -> &'static str {
    match word {
        "True" | "TRUE" => "write `true`",
        "False" | "FALSE" => "write `false`",
        "NaN" | "Infinity" => "JSON has no such number",
        _ => "words have double quotes, but for `true`, `false` and `null`",
    }
}

// What is likely meant by a sign that JSON does not have there.
fn meant_by_sign(sign: char) -> Option<&'static str> {
    match sign {
        '\'' | '`' | '\u{201C}' | '\u{201D}' => Some(QUOTES),
        '/' | '#' => Some(COMMENTS),
        ';' => Some("write `,` or `:` instead of `;`"),
        '=' => Some("write `:` instead of `=`"),
        ':' => Some("remove this `:`"),
        '(' | ')' => Some("a list has square brackets"),
        '+' | '*' | '$' => Some("JSON has no expressions: write the value itself"),
        '\u{A0}' => Some("this is a no-break space: write a space"),
        _ => None,
    }
}

// Whether a value may end with a character, other than a string.
fn ends_value(last: char) -> bool {
    matches!(last, '}' | ']' | 'a'..='z' | '0'..='9')
}
