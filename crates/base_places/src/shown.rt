//! Text that is safe to show.
ghost use Rattle.std.specs.Prelude.{◌≡◌, ◌++◌, OnOk, map};
ghost use Rattle.std.specs.Str.{chars};
ghost use Rattle.base_places.specs.Shown.{shown_as};

use std::alloc::AllocError;

/// Appends a text as a terminal may show it: a tabulator as a space, and each other control character, and each character that
/// changes the direction of text (Unicode Standard Annex 9) or cannot be seen, the byte order mark, as U+FFFD. Each character of
/// the text is one character of what is appended.
pub fn push_shown(shown: &mut String, text: &str) -> Result<(), AllocError>
    ensures { OnOk result (chars shown.new.bytes.items ≡ chars shown.old.bytes.items ++ map shown_as (chars text.now)) }
{
    for character in text.chars() {
        shown.push(shown_as(character))?;
    }
    Ok(())
}

// What a character is shown as.
fn shown_as(character: char) -> char
    ensures { result ≡ shown_as character }
{
    match character {
        '\t' => ' ',
        '\u{0}'..='\u{1F}' | '\u{7F}'..='\u{9F}' => char::REPLACEMENT_CHARACTER,
        '\u{61C}'
        | '\u{200E}'
        | '\u{200F}'
        | '\u{202A}'..='\u{202E}'
        | '\u{2066}'..='\u{2069}'
        | '\u{FEFF}' => { char::REPLACEMENT_CHARACTER }
        _ => character,
    }
}
