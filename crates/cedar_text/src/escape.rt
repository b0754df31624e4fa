//! Strings and their escapes.

ghost use Rattle.std.specs.Prelude.{◌≡◌, ◌<◌, ◌≤◌, length, IfOk, IfSome};
ghost use Rattle.cedar_text.specs.Private.Lexing as spec;
ghost use lib.Utf8.{scalar};
ghost use Rattle.cedar_text.specs.Private.Outcomes.{Gives, Refuses};

use crate::bytes::{byte_at, digit_value, hex_len, is_hex};
use crate::number::hexadecimal_value;
use crate::text_fault::TextFault;

/// The most digits that an escape `\u{..}` has.
const MOST_DIGITS: usize = 6;

fn is_short(b: u8) -> bool
    ensures { result ≡ spec.is_short b }
{
    b == b'n'
        || b == b'r'
        || b == b't'
        || b == b'\\'
        || b == b'0'
        || b == b'\''
        || b == b'"'
        || b == b'*'
}

/// Whether the number is that of a character.
fn is_scalar(code: u32) -> bool
    ensures { result ≡ scalar code }
{
    char::from_u32(code).is_some()
}

/// Whether the first bytes are one to six digits of a character, followed by a brace.
fn is_code(len: usize, bytes: &[u8]) -> bool
    requires { len ≤ length bytes.now }
    ensures { result ≡ spec.is_code len bytes.now }
{
    0 < len
        && len <= MOST_DIGITS
        && byte_at(bytes, len) == b'}'
        && is_scalar(hexadecimal_value(&bytes[..len]))
}

/// How many bytes the escape that follows a backslash has, without the backslash.
#[tactic(auto, unfolding(crate::specs::Private::Lexing::escape_len))]
pub fn escape_len(bytes: &[u8]) -> Option<usize>
    ensures value { result ≡ spec.escape_len bytes.now }
    ensures within { IfSome result (λ n. n ≤ length bytes.now) }
    ensures some { IfSome result (λ n. 0 < n) }
{
    let (a, b, c) = (byte_at(bytes, 0), byte_at(bytes, 1), byte_at(bytes, 2));
    if is_short(a) {
        return Some(1);
    }
    if a == b'x' {
        return if digit_value(b) < 8 && is_hex(c) {
            Some(3)
        } else {
            None
        };
    }
    if a == b'u' && b == b'{' {
        let digits = &bytes[2..];
        let len = hex_len(digits);
        if is_code(len, digits) {
            return Some(len + 3);
        }
    }
    None
}

/// How many bytes there are up to the closing quote, which is one of them. The string begins at `at`, one byte before.
pub fn string_len(bytes: &[u8], at: usize) -> Result<usize, TextFault>
    ensures value { Gives (λ n. n) (spec.string_len 0 bytes.now) result }
    ensures within { IfOk result (λ n. n ≤ length bytes.now) }
{
    let mut i = 0;
    while i < bytes.len() {
        let b = bytes[i];
        i += 1;
        if b == b'"' {
            return Ok(i);
        }
        if b == b'\\' {
            let rest = &bytes[i..];
            let Some(len) = escape_len(rest) else {
                return Err(no_escape(rest, at, i));
            };
            i += len;
        }
    }
    Err(TextFault::UnclosedString(at))
}

/// What is wrong in the string that begins at `at`, where no escape follows its i-th byte, a backslash.
fn no_escape(rest: &[u8], at: usize, i: usize) -> TextFault
    ensures { Refuses (spec.no_escape rest.now) result }
{
    if rest.is_empty() {
        TextFault::UnclosedString(at)
    } else {
        TextFault::BadEscape(at.saturating_add(i))
    }
}
