ghost use Rattle.std.specs.Prelude.{◌≡◌, ◌+◌, ◌<◌, ◌^◌, length};
ghost use Rattle.cedar_text.specs.Numbers.{number_in};

use crate::bytes::{byte_at, is_digit};
use crate::number::decimal_value;
use crate::token_kind::TokenKind;

/// A token of a policy text. It takes 24 bytes.
#[derive(Clone, Copy, Debug)]
pub struct Token<'a> {
    /// What it is.
    pub kind: TokenKind,
    pub(crate) start: u32,
    /// Its slice of the source: for a string with its quotes and escapes, for a slot with its `?`.
    pub text: &'a str,
}

impl Token<'_> {
    /// Where it begins in the source, in bytes from 0.
    pub fn start(&self) -> usize
        ensures { result ≡ self.now.start }
    {
        self.start as usize
    }

    /// Where it ends in the source: the place right after its last byte, in bytes from 0.
    pub fn end(&self) -> usize
        ensures { self.now.start + length self.now.text.now < 2 ^ 64 → result ≡ self.now.start + length self.now.text.now }
    {
        self.start().saturating_add(self.text.len())
    }

    /// The value of a number's digits, 0 at every other kind. It is read from the text.
    pub fn number(&self) -> u64
        ensures { result ≡ number_in self.now.text.now }
    {
        let bytes = self.text.as_bytes();
        if is_digit(byte_at(bytes, 0)) {
            decimal_value(bytes)
        } else {
            0
        }
    }
}
