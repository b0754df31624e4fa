//! The keys of a record expression.
ghost use Rattle.std.specs.Prelude.{◌≡◌, IfOk, IfSome, MatchOption, map};
ghost use Rattle.cedar_ast_expressions.specs.Keys.{AreDistinct, IsFirstRepeated};

use cedar_value::SharedText;
use std::alloc::{AllocError, Global};
use std::collections::BTreeSet;
use std::marker::Model;

/// Keys without repetition, in the order in which they are written. Contracts see the list of their bytes.
#[derive(Drop)]
pub struct Keys {
    pub(crate) texts: Vec<SharedText>,
}

impl Model for Keys {
    ghost use Rattle.std.specs.Prelude.{List, ℕ};
    ghost use Rattle.cedar_ast_expressions.specs.Keys.{AreDistinct};

    ghost Value = { List (List ℕ) };

    ghost view = { λ k. k.texts.items };

    ghost invariant = { λ k. AreDistinct k.texts.items };
}

impl Keys {
    /// The keys in order, lent.
    pub fn texts(&self) -> &[SharedText]
        ensures texts { result.now ≡ self.now }
        ensures distinct { AreDistinct self.now }
    {
        &self.texts
    }
}

/// The position, from 0, of the first key that is equal to an earlier one, or none where no key is repeated (Cedar language
/// reference, records). Comparisons grow with the count of keys times its logarithm.
///
/// # Errors
///
/// Fails only when out of memory.
pub fn first_repeated(alloc: Global, keys: &[&str]) -> Result<Option<usize>, AllocError>
    ensures distinct { IfOk result (λ o. MatchOption o (AreDistinct (map (λ k. k.now) keys.now)) (λ place. AreDistinct (map (λ k. k.now) keys.now) → ⊥)) }
    ensures first { IfOk result (λ o. IfSome o (IsFirstRepeated (map (λ k. k.now) keys.now))) }
{
    let mut seen = BTreeSet::new(alloc);
    for (place, key) in keys.iter().enumerate() {
        if !seen.insert(*key)? {
            return Ok(Some(place));
        }
    }
    Ok(None)
}
