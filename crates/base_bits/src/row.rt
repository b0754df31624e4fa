//! Rows that are read and that grow.
ghost use Rattle.std.specs.Prelude.{◌≡◌, ℕ, ◌<◌, ◌≤◌, ◌*◌, ◌||◌, length, nat_eq, slice_index, vec_len, OnErr, OnOk};
ghost use Rattle.base_bits.specs.Bits.{has_bit};

use std::alloc::AllocError;

/// Whether bit n is set. A row has no bit past its end.
pub fn has_bit(row: &[u64], n: usize) -> bool
    ensures { result ≡ has_bit row.now n }
{
    match row.get(n / 64) {
        Some(word) => (*word >> (n % 64)) & 1 == 1,
        None => false,
    }
}

/// Sets bit n. The words have a place for it.
pub fn set_bit(words: &mut [u64], n: usize)
    requires { n < 64 * length words.old }
    ensures { (m : ℕ) → has_bit words.new m ≡ (has_bit words.old m || nat_eq n m) }
{
    words[n / 64] |= 1 << (n % 64);
}

/// Sets bit n. The row grows where it is too short.
///
/// # Errors
///
/// Fails only when out of memory. The row is then as it was.
pub fn insert_bit(row: &mut Vec<u64>, n: usize) -> Result<(), AllocError>
    ensures set { OnOk result ((m : ℕ) → has_bit row.new.items m ≡ (has_bit row.old.items m || nat_eq n m)) }
    ensures refused { OnErr result (row.new.items ≡ row.old.items) }
{
    grow(row, n / 64 + 1)?;
    row[n / 64] |= 1 << (n % 64);
    Ok(())
}

/// Sets each bit that is set in the other row. The row grows where it is too short.
///
/// # Errors
///
/// Fails only when out of memory. The row is then as it was.
pub fn join(row: &mut Vec<u64>, other: &[u64]) -> Result<(), AllocError>
    ensures joined { OnOk result ((m : ℕ) → has_bit row.new.items m ≡ (has_bit row.old.items m || has_bit other.now m)) }
    ensures refused { OnErr result (row.new.items ≡ row.old.items) }
{
    grow(row, other.len())?;
    for place in 0..other.len() {
        row[place] |= other[place];
    }
    Ok(())
}

// Makes the row at least so many words long, by adding words without a bit, and takes no more room than these need.
fn grow(row: &mut Vec<u64>, len: usize) -> Result<(), AllocError>
    ensures long { OnOk result (len ≤ vec_len row.new) }
    ensures same { OnOk result ((k : ℕ) → slice_index row.new.items k ≡ slice_index row.old.items k) }
    ensures refused { OnErr result (row.new.items ≡ row.old.items) }
{
    if row.len() < len {
        row.reserve_exact(len - row.len())?;
        row.resize(len, 0)?;
    }
    Ok(())
}
