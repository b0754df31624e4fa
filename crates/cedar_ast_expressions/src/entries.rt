//! The entries of a record expression.
ghost use Rattle.std.specs.Prelude.{◌≡◌, ◌↔◌, IfOk, IfErr, IsTrue, map};
ghost use Rattle.cedar_ast_expressions.specs.Keys.{AreDistinct, keys_of};
ghost use Rattle.cedar_ast_expressions.specs.RecordFault.{number_of, refused};

use crate::expression::Expr;
use crate::keys::{Keys, first_repeated};
use crate::record_fault::RecordFault;
use crate::replacement::replaced_pairs;
use cedar_value::SharedText;
use std::alloc::{AllocError, Global};
use std::marker::Model;

/// The keys of a record expression with their expressions, in the order in which they are written. No key is repeated (Cedar
/// language reference, records). Contracts see the list of the pairs.
#[cycle(expression)]
#[derive(Drop)]
pub struct Entries {
    pairs: Vec<(SharedText, Expr)>,
}

impl Model for Entries {
    ghost use Rattle.std.specs.Prelude.{List, ℕ};
    ghost use Rattle.std.specs.Coded.{coded_list, coded×, coded_ℕ};
    ghost use Rattle.cedar_ast_expressions.specs.Expression.{Expression};
    ghost use Rattle.cedar_ast_expressions.specs.Private.ExpressionCode.{expression_code};

    ghost Value = { List (List ℕ × Expression) };

    ghost coded = { coded_list (coded× (coded_list coded_ℕ) expression_code) };

    ghost use Rattle.cedar_ast_expressions.specs.Keys.{AreDistinct, keys_of};
    ghost use Rattle.cedar_ast_expressions.specs.Private.Depth.{depth, pairs_depth};

    ghost view = { λ r. r.pairs.items };

    ghost invariant = { λ r. AreDistinct (keys_of r.pairs.items) };

    ghost size = { pairs_depth };

    ghost use Rattle.std.specs.Prelude.{◌+◌, max};
    ghost use Rattle.std.proofs.Common.{arith};
    ghost use Rattle.cedar_ast_expressions.specs.Private.Depth.{most_entries};

    ghost size_decreases = { λ r _. omega (arith, most_entries (λ f. max 0 (max (depth f.1 + 1) 0)) (λ f. omega arith) r.pairs.items) };
}

impl Entries {
    /// The entries of these pairs (Cedar language reference, records). An error hands the pairs back: 203 where a key is
    /// repeated, 1 when out of memory.
    pub(crate) fn new(alloc: Global, pairs: Vec<(SharedText, Expr)>) -> Result<Self, RecordFault>
        ensures ok { IfOk result (λ r. r ≡ pairs.items) }
        ensures distinct { IfOk result (λ r. AreDistinct (keys_of r)) }
        ensures duplicate { IfErr result (λ fault. number_of fault ≡ 203 → AreDistinct (keys_of pairs.items) → ⊥) }
        ensures handed_back { IfErr result (λ fault. refused fault ≡ pairs.items) }
    {
        match are_distinct(alloc, &pairs) {
            Ok(true) => Ok(Entries { pairs }),
            Ok(false) => Err(RecordFault::DuplicateKey(pairs)),
            Err(_) => Err(RecordFault::OutOfMemory(pairs)),
        }
    }

    /// Entries with the keys of others, in the same order.
    pub(crate) fn with_keys_of(others: &Entries, pairs: Vec<(SharedText, Expr)>) -> Self
        requires { keys_of pairs.items ≡ keys_of others.now }
        ensures { result ≡ pairs.items }
    {
        // The keys of the others are distinct.
        let _others = others.pairs();
        Entries { pairs }
    }

    /// The entries in order, lent.
    pub fn pairs(&self) -> &[(SharedText, Expr)]
        ensures pairs { result.now ≡ self.now }
        ensures distinct { AreDistinct (keys_of self.now) }
    {
        &self.pairs
    }

    /// A copy of the keys, in order.
    ///
    /// # Errors
    ///
    /// Fails only when out of memory.
    pub fn keys(&self, alloc: Global) -> Result<Keys, AllocError>
        ensures { IfOk result (λ k. k ≡ keys_of self.now) }
    {
        Ok(Keys {
            texts: copy_keys(alloc, &self.pairs)?,
        })
    }

    /// A copy, equal to the original.
    ///
    /// # Errors
    ///
    /// Fails only when out of memory.
    #[tactic(auto, using(crate::specs::Private::Replaced::kept_pairs))]
    pub fn try_clone(&self, alloc: Global) -> Result<Self, AllocError>
        ensures { IfOk result (λ r. r ≡ self.now) }
    {
        Ok(Entries {
            pairs: replaced_pairs(alloc, &self.pairs, None)?,
        })
    }
}

// The keys of the pairs.
fn copy_keys(alloc: Global, pairs: &[(SharedText, Expr)]) -> Result<Vec<SharedText>, AllocError>
    ensures { IfOk result (λ v. v.items ≡ keys_of pairs.now) }
{
    let mut keys = Vec::new(alloc);
    for pair in pairs {
        keys.push(pair.0.share()?)?;
    }
    Ok(keys)
}

// Whether no key is repeated.
fn are_distinct(alloc: Global, pairs: &[(SharedText, Expr)]) -> Result<bool, AllocError>
    ensures { IfOk result (λ b. IsTrue b ↔ AreDistinct (keys_of pairs.now)) }
{
    let keys = lent_keys(alloc, pairs)?;
    Ok(first_repeated(alloc, &keys)?.is_none())
}

// The keys of the pairs, lent.
fn lent_keys<'a>(alloc: Global, pairs: &'a [(SharedText, Expr)]) -> Result<Vec<&'a str>, AllocError>
    ensures { IfOk result (λ v. map (λ k. k.now) v.items ≡ keys_of pairs.now) }
{
    let mut keys = Vec::new(alloc);
    for pair in pairs {
        keys.push(pair.0.as_str())?;
    }
    Ok(keys)
}
