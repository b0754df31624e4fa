//! Values, as policies write them.
use crate::piece::{Piece, written};
use crate::shortened::{is_full, shortened};
use base_places::{Draft, DraftList};
use cedar_ext::{Datetime, Decimal, Duration, Extension};
use cedar_value::{SharedText, Uid, Value, ValueKind};
use std::alloc::{AllocError, Global};

/// How many members of a set, or pairs of a record, are written at most. So many have more than 60 characters.
pub const MOST_MEMBERS: usize = 64;

/// A value in at most 60 characters.
pub fn value_text(alloc: Global, value: &Value) -> Result<String, AllocError> {
    written(alloc, Piece::Value(value))
}

/// A uid in at most 60 characters.
pub fn uid_text(alloc: Global, uid: &Uid) -> Result<String, AllocError> {
    let mut text = Draft::new(alloc);
    add_uid(&mut text, uid);
    let text = text.done()?;
    shortened(alloc, text.as_str())
}

/// Adds the beginning of a value. The rest of it is put before the rest.
pub fn write_value<'e>(
    alloc: Global,
    text: &mut Draft,
    rest: &mut DraftList<Piece<'e>>,
    value: &'e Value,
) {
    match value.kind() {
        ValueKind::Boolean(truth) => text.add(if *truth { "true" } else { "false" }),
        ValueKind::Long(number) => text.add_display(*number),
        ValueKind::String(content) => add_quoted(text, content.as_str()),
        ValueKind::Uid(uid) => add_uid(text, uid),
        ValueKind::Set(members) => write_members(text, rest, members.members()),
        ValueKind::Record(pairs) => write_pairs(text, rest, pairs.pairs()),
        ValueKind::Extension(value) => add_extension(alloc, text, value),
    }
}

// The members of a set, in brackets.
fn write_members<'e>(text: &mut Draft, rest: &mut DraftList<Piece<'e>>, members: &'e [Value]) {
    text.add_char('[');
    rest.add(Piece::Text("]"));
    for place in (0..members.len().min(MOST_MEMBERS)).rev() {
        if let Some(member) = members.get(place) {
            rest.add(Piece::Value(member));
        }
        if place > 0 {
            rest.add(Piece::Text(", "));
        }
    }
}

// The pairs of a record, in braces.
fn write_pairs<'e>(
    text: &mut Draft,
    rest: &mut DraftList<Piece<'e>>,
    pairs: &'e [(SharedText, Value)],
) {
    text.add_char('{');
    rest.add(Piece::Text("}"));
    for place in (0..pairs.len().min(MOST_MEMBERS)).rev() {
        if let Some(pair) = pairs.get(place) {
            rest.add(Piece::Value(&pair.1));
            rest.add(Piece::Text(": "));
            rest.add(Piece::Key(pair.0.as_str()));
        }
        if place > 0 {
            rest.add(Piece::Text(", "));
        }
    }
}

/// Adds `TYPE::"ID"`.
pub fn add_uid(text: &mut Draft, uid: &Uid) {
    text.add(uid.ty.as_str());
    text.add("::");
    add_quoted(text, uid.id.as_str());
}

// Adds a value of an extension type as its constructor writes it, for example `decimal("1.5")`.
fn add_extension(alloc: Global, text: &mut Draft, value: &Extension) {
    text.add_all(&[value.ty().constructor(), "(\""]);
    match value {
        Extension::Decimal(decimal) => add_decimal(text, *decimal),
        Extension::Ip(ip) => text.add_made(ip.to_text(alloc)),
        Extension::Datetime(moment) => return add_datetime(alloc, text, *moment),
        Extension::Duration(duration) => add_duration(text, *duration),
    }
    text.add("\")");
}

// Adds the text of a datetime, and what is after it. Where no text writes the datetime, it is written as one that is later or earlier
// than 1970.
fn add_datetime(alloc: Global, text: &mut Draft, moment: Datetime) {
    match moment.to_text(alloc) {
        Ok(Some(written)) => text.add_all(&[written.as_str(), "\")"]),
        Ok(None) => {
            text.add("1970-01-01\").offset(duration(\"");
            add_duration(text, Duration::from_milliseconds(moment.milliseconds()));
            text.add("\"))");
        }
        Err(_) => text.refuse(),
    }
}

// Adds the text of a duration.
fn add_duration(text: &mut Draft, duration: Duration) {
    text.add_display(duration.to_milliseconds());
    text.add("ms");
}

// Adds the text of a decimal.
fn add_decimal(text: &mut Draft, decimal: Decimal) {
    let units = decimal.units();
    if units < 0 {
        text.add_char('-');
    }
    text.add_display(units.unsigned_abs() / 10_000);
    text.add_char('.');
    add_fraction(text, units.unsigned_abs() % 10_000);
}

// Adds the four digits of a number below 10,000, without the zeros at their end. The first digit is there always.
fn add_fraction(text: &mut Draft, number: u64) {
    let mut rest = number;
    for _ in 0..4 {
        text.add_display(rest / 1_000);
        rest = rest % 1_000 * 10;
        if rest == 0 {
            break;
        }
    }
}

/// Adds a string in quotes, or its beginning if it is long.
pub fn add_quoted(text: &mut Draft, content: &str) {
    text.add_char('"');
    for character in content.chars() {
        if is_full(text) {
            return;
        }
        add_escaped(text, character);
    }
    text.add_char('"');
}

/// Adds a character of a string, as it is written between quotes.
pub fn add_escaped(text: &mut Draft, character: char) {
    match character {
        '"' => text.add("\\\""),
        '\\' => text.add("\\\\"),
        '\n' => text.add("\\n"),
        '\r' => text.add("\\r"),
        '\t' => text.add("\\t"),
        '\0' => text.add("\\0"),
        other => text.add_char(other),
    }
}

fn is_word_byte(byte: u8) -> bool {
    byte.is_ascii_alphanumeric() || byte == b'_'
}

// Whether a key is written without quotes.
fn is_word(key: &str) -> bool {
    let bytes = key.as_bytes();
    for byte in bytes {
        if !is_word_byte(*byte) {
            return false;
        }
    }
    match bytes.first() {
        Some(first) => !first.is_ascii_digit(),
        None => false,
    }
}

/// Adds the key of a record or of an attribute: as a word, or in quotes.
pub fn add_key(text: &mut Draft, key: &str) {
    if is_word(key) {
        text.add(key);
    } else {
        add_quoted(text, key);
    }
}

/// Adds the access to an attribute: `.a` or `["a"]`.
pub fn add_access(text: &mut Draft, key: &str) {
    if is_word(key) {
        text.add_char('.');
        text.add(key);
    } else {
        text.add_char('[');
        add_quoted(text, key);
        text.add_char(']');
    }
}
