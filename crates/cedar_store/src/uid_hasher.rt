//! The hasher of uids.
ghost use Rattle.std.specs.Prelude.{◌≡◌, ◌+◌, ◌≤◌, ◌<◌, length};
ghost use Rattle.cedar_store.specs.Private.Hashed as hashed;

use std::hash::Hasher;

// How many low bits of a key count: with these no step wraps.
const KEY: u64 = 0x0FFF_FFFF_FFFF_FFFF;

/// A hasher with two keys, which takes four bytes at a time.
///
/// Bytes that are written make words of four, and a last word that gives their number. The state is the value at the first key
/// of the polynomial that has the words as its coefficients, after a 1, up to a multiple of the prime 2^61 - 1 (polynomial
/// hashing, as by Carter and Wegman). Two lists of up to n words that differ are polynomials that differ. So at most n of the
/// 2^60 keys give them one state. A person who does not know the key cannot pick two uids that are likely to collide. The
/// second key spreads the state over the bits that a table looks at. All this is argued here, not proved. What is proved holds
/// for each hash.
#[derive(Clone, Copy)]
pub struct UidHasher {
    state: u64,
    key: u64,
    spread: u64,
}

impl UidHasher {
    /// A hasher that nothing was written to. It uses the low 60 bits of two keys.
    pub(crate) fn new(key: u64, spread: u64) -> Self {
        UidHasher {
            state: 1,
            key: key & KEY,
            spread: spread & KEY,
        }
    }
}

impl Hasher for UidHasher {
    ghost use Rattle.cedar_store.specs.Private.Hashed.{finish, write};

    ghost write = { write };

    ghost finish = { finish };

    #[inline]
    fn finish(&self) -> u64 {
        step(self.spread, self.state, 0)
    }

    #[inline]
    fn write(&mut self, bytes: &[u8]) {
        self.state = mix(self.key, self.state, bytes);
    }
}

// The state after the words of these bytes.
#[inline]
fn mix(key: u64, begun: u64, bytes: &[u8]) -> u64
    ensures { result ≡ hashed.mix key begun bytes.now }
{
    let words = bytes.len() / 4;
    let mut state = begun;
    for place in 0..words {
        state = step(key, state, word_at(bytes, place * 4));
    }
    let rest = bytes.len() % 4;
    if rest == 0 {
        return state;
    }
    step(key, state, last_word(bytes, words * 4, rest))
}

// The state times the key, less a multiple of 2^61 - 1, and the word added.
#[inline]
fn step(key: u64, state: u64, word: u64) -> u64
    ensures { result ≡ hashed.step key state word }
{
    let product = state as u128 * key as u128;
    let low = (product & 0x1FFF_FFFF_FFFF_FFFF) as u64;
    let high = (product >> 61 & 0xFFFF_FFFF_FFFF_FFFF) as u64;
    low.wrapping_add(high).wrapping_add(word)
}

#[inline]
fn word_at(bytes: &[u8], at: usize) -> u64
    requires { at + 4 ≤ length bytes.now }
    ensures { result ≡ hashed.word_at bytes.now at }
{
    u32::from_le_bytes([bytes[at], bytes[at + 1], bytes[at + 2], bytes[at + 3]]) as u64
}

// Up to three bytes, and above them how many they are.
#[inline]
fn last_word(bytes: &[u8], at: usize, count: usize) -> u64
    requires some { 0 < count }
    requires few { count < 4 }
    requires within { at + count ≤ length bytes.now }
    ensures { result ≡ hashed.last_word bytes.now at count }
{
    let first = bytes[at] as u64;
    let middle = bytes[at + count / 2] as u64;
    let last = bytes[at + count - 1] as u64;
    first + middle * 256 + last * 65536 + count as u64 * 4294967296
}
