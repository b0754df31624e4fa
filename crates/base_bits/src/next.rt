//! The bits that are set, one after another.
ghost use Rattle.std.specs.Prelude.{◌≡◌, ℕ, ◌*◌, ◌+◌, ◌<◌, ◌≤◌, IfNone, IfSome};
ghost use Rattle.base_bits.specs.Bits.{HasNoBitFrom, IsNextBit};

// The most words of a row in which the number of each bit is a `usize`.
const MOST_WORDS: usize = usize::MAX / 64 + 1;

/// The least number from `from` on whose bit is set, and None where there is none up to `usize::MAX`.
/// It goes word by word, so that a row of zeros costs its words. Takes no memory.
pub fn next_bit(row: &[u64], from: usize) -> Option<usize>
    ensures found { IfSome result (λ n. IsNextBit row.now from n) }
    ensures none { IfNone result (HasNoBitFrom row.now from) }
{
    let place = from / 64;
    let word = match row.get(place) {
        Some(word) => *word & (u64::MAX << (from % 64)),
        None => return None,
    };
    if word != 0 {
        return Some(place * 64 + word.trailing_zeros() as usize);
    }
    first_bit(row, place + 1)
}

// The same from the lowest bit of a word on.
fn first_bit(row: &[u64], start: usize) -> Option<usize>
    ensures found { IfSome result (λ n. IsNextBit row.now (start * 64) n) }
    ensures none { IfNone result (HasNoBitFrom row.now (start * 64)) }
{
    let end = row.len().min(MOST_WORDS);
    for place in start..end {
        let word = row[place];
        if word != 0 {
            return Some(place * 64 + word.trailing_zeros() as usize);
        }
    }
    None
}
