//! White space between tokens.

ghost use Rattle.std.specs.Prelude.{◌≡◌};
ghost use Rattle.cedar_text.specs.Private.Lexing as spec;

use crate::bytes::byte_at;

fn is_white_pair(a: u8, b: u8) -> bool
    ensures { result ≡ spec.is_white_pair a b }
{
    a == 0xC2 && (b == 0x85 || b == 0xA0)
}

fn is_white_triple(a: u8, b: u8, c: u8) -> bool
    ensures { result ≡ spec.is_white_triple a b c }
{
    (a == 0xE1 && b == 0x9A && c == 0x80)
        || (a == 0xE2
            && b == 0x80
            && ((0x80 <= c && c <= 0x8A) || c == 0xA8 || c == 0xA9 || c == 0xAF))
        || (a == 0xE2 && b == 0x81 && c == 0x9F)
        || (a == 0xE3 && b == 0x80 && c == 0x80)
}

// How many bytes the white space at the beginning has, if it has two or three; 0 where there is none.
fn long_white_len(bytes: &[u8]) -> usize
    ensures { result ≡ spec.long_white_len bytes.now }
{
    let (a, b, c) = (byte_at(bytes, 0), byte_at(bytes, 1), byte_at(bytes, 2));
    if is_white_pair(a, b) {
        2
    } else if is_white_triple(a, b, c) {
        3
    } else {
        0
    }
}

/// How many bytes the white space at the beginning has; 0 where there is none. Most texts are ASCII, so that is asked first.
pub fn white_len(bytes: &[u8]) -> usize
    ensures { result ≡ spec.white_len bytes.now }
{
    let a = byte_at(bytes, 0);
    if a == b' ' || (b'\t' <= a && a <= b'\r') {
        1
    } else if a.is_ascii() {
        0
    } else {
        long_white_len(bytes)
    }
}
