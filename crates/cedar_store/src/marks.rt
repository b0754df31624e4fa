//! Marks: the numbers of uids that changes name, as a row of bits.
ghost use Rattle.std.specs.Prelude.{◌≡◌, ℕ, IsTrue, false};
ghost use Rattle.base_bits.specs.Bits.{has_bit};

use base_bits::any_common;
use base_search::Row;

/// Whether two rows, of whatever lengths, have a bit in common. Where they are not said to, they have none.
pub(crate) fn have_common(a: &Row, b: &Row) -> bool
    ensures { result ≡ false → (n : ℕ) → ¬ (IsTrue (has_bit a.now n) × IsTrue (has_bit b.now n)) }
{
    let count = a.words().len().min(b.words().len());
    any_common(&a.words()[..count], &b.words()[..count])
}
