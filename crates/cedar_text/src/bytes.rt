//! Classes of bytes, and how many bytes of a class come first.

ghost use Rattle.std.specs.Prelude.{◌≡◌, ◌≤◌, length, slice_index};
ghost use Rattle.std.specs.Char.{digit_value};
ghost use Rattle.std.specs.List.{prefix_len};
ghost use Rattle.cedar_text.specs.Bytes as spec;

use memchr::memchr2;

/// The byte at an index, or 0 past the end.
pub fn byte_at(bytes: &[u8], index: usize) -> u8
    ensures { result ≡ slice_index bytes.now index }
{
    bytes.get(index).copied().unwrap_or(0)
}

/// Whether the byte is a letter of ASCII, or `_`.
pub fn is_letter(b: u8) -> bool
    ensures { result ≡ spec.is_letter b }
{
    b.is_ascii_lowercase() || b.is_ascii_uppercase() || b == b'_'
}

/// Whether the byte is a decimal digit.
pub fn is_digit(b: u8) -> bool
    ensures { result ≡ spec.is_digit b }
{
    b.is_ascii_digit()
}

/// Whether the byte is a letter, a digit or `_`.
pub fn is_word(b: u8) -> bool
    ensures { result ≡ spec.is_word b }
{
    is_letter(b) || is_digit(b)
}

/// Whether the byte is a hexadecimal digit, of either case.
pub fn is_hex(b: u8) -> bool
    ensures { result ≡ spec.is_hex b }
{
    char::from(b).is_digit(16)
}

/// The value of a digit or letter, and 36 for any other byte.
pub fn digit_value(b: u8) -> u32
    ensures { result ≡ digit_value b }
{
    char::from(b).to_digit(36).unwrap_or(36)
}

/// How many letters, digits and `_` come first.
pub fn word_len(bytes: &[u8]) -> usize
    ensures len { result ≡ prefix_len spec.is_word bytes.now }
    ensures within { result ≤ length bytes.now }
{
    bytes.iter().take_while(|b| is_word(**b)).count()
}

/// How many decimal digits come first.
pub fn digits_len(bytes: &[u8]) -> usize
    ensures len { result ≡ prefix_len spec.is_digit bytes.now }
    ensures within { result ≤ length bytes.now }
{
    bytes.iter().take_while(|b| is_digit(**b)).count()
}

/// How many hexadecimal digits come first.
pub fn hex_len(bytes: &[u8]) -> usize
    ensures len { result ≡ prefix_len spec.is_hex bytes.now }
    ensures within { result ≤ length bytes.now }
{
    bytes.iter().take_while(|b| is_hex(**b)).count()
}

/// How many bytes come before the first LF or CR.
#[tactic(auto, using(crate::proofs::Lines::ended, crate::proofs::Lines::endless))]
pub fn line_len(bytes: &[u8]) -> usize
    ensures len { result ≡ prefix_len spec.goes_on_line bytes.now }
    ensures within { result ≤ length bytes.now }
{
    match memchr2(b'\n', b'\r', bytes) {
        Some(end) => end,
        None => bytes.len(),
    }
}
