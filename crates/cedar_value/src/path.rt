//! Paths of identifiers, which are the texts of names.
ghost use Rattle.std.specs.Prelude.{◌≡◌, ◌↔◌, ◌≤◌, ◌∷◌, ℕ, List, IsTrue, MatchOption, drop, length, take};
ghost use Rattle.std.specs.List.{list_all};
ghost use Rattle.cedar_value.specs.Names.{IsName, is_identifier, is_reserved, is_word_byte, is_word_start};
ghost use Rattle.cedar_value.specs.Private.Words.{BeginsNoWord};

/// Whether the text is one or more identifiers with `::` between them (Cedar language reference, policy grammar: Path). Each byte
/// is looked at once.
pub(crate) fn is_path(text: &str) -> bool
    ensures { IsTrue result ↔ IsName text.now }
{
    let mut rest = text.as_bytes();
    'words: loop {
        let (word, others) = rest.split_at(word_length(rest));
        if !is_identifier(word) {
            return false;
        }
        if others.is_empty() {
            return true;
        }
        let Some(later) = after_colons(others) else {
            return false;
        };
        rest = later;
    }
}

// What comes after `::` at the beginning.
fn after_colons(bytes: &[u8]) -> Option<&[u8]>
    ensures { MatchOption result ((later : List ℕ) → bytes.now ≡ 58 ∷ 58 ∷ later → ⊥) (λ later. bytes.now ≡ 58 ∷ 58 ∷ later.now) }
{
    bytes.strip_prefix(b"::")
}

// How many bytes at the beginning are bytes of a word.
fn word_length(bytes: &[u8]) -> usize
    ensures bound { result ≤ length bytes.now }
    ensures word { IsTrue (list_all is_word_byte (take result bytes.now)) }
    ensures end { BeginsNoWord (drop result bytes.now) }
{
    for (place, byte) in bytes.iter().enumerate() {
        if !is_word_byte(*byte) {
            return place;
        }
    }
    bytes.len()
}

// Whether these bytes of a word are an identifier.
fn is_identifier(word: &[u8]) -> bool
    requires { IsTrue (list_all is_word_byte word.now) }
    ensures { result ≡ is_identifier word.now }
{
    match word {
        [first, ..] => is_word_start(*first) && !is_reserved(word),
        [] => false,
    }
}

// Whether the word is none of the identifiers.
fn is_reserved(word: &[u8]) -> bool
    ensures { result ≡ is_reserved word.now }
{
    matches!(
        word,
        b"true" | b"false" | b"if" | b"then" | b"else" | b"in" | b"is" | b"like" | b"has"
    )
}

fn is_word_start(byte: u8) -> bool
    ensures { result ≡ is_word_start byte }
{
    byte.is_ascii_alphabetic() || byte == b'_'
}

fn is_word_byte(byte: u8) -> bool
    ensures { result ≡ is_word_byte byte }
{
    is_word_start(byte) || byte.is_ascii_digit()
}
