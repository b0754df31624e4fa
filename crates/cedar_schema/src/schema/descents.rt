//! What keys descend from, as rows of bits.
ghost use Rattle.std.specs.Prelude.{◌≡◌, Contains, IfOk, IsSome, length};
ghost use Rattle.std.specs.BTreeMap.{get};
ghost use Rattle.std.specs.Map.{keys_of};
ghost use Rattle.base_reach.specs.Private.Lent.{lent};
ghost use Rattle.cedar_schema.specs.Private.Kept.{AreRows, AreRowsAt, has_row};

use crate::schema::graph::graph_of;
use base_reach::{Key, Links};
use base_search::{Row, closed_rows};
use std::alloc::{AllocError, Global};
use std::collections::BTreeMap;

/// What keys descend from: a number for each key that links lead to, and for each declared key the row of
/// the numbers of all that chains of links lead to from it.
#[derive(Drop)]
pub(crate) struct Descents<K: Ord> {
    pub numbers: BTreeMap<K, usize>,
    pub rows: BTreeMap<K, Row>,
}

impl<K: Key> Descents<K> {
    /// Whether the one descends from the other.
    pub(crate) fn descends(&self, low: &K, high: &K) -> bool
        ensures { result ≡ has_row K.cmp self.now low.now high.now }
    {
        match (self.rows.get(low), self.numbers.get(high)) {
            (Some(row), Some(number)) => row.has(*number),
            _ => false,
        }
    }
}

/// What the declared keys descend from. The cost is the number of links times the words of a row.
pub(crate) fn descents_of<K: Key, V, G: Links<K>>(
    alloc: Global,
    declared: &BTreeMap<K, V>,
    links: &G,
) -> Result<Descents<K>, AllocError>
    requires { G.sources links.now ≡ keys_of declared.now.entries }
    ensures { IfOk result (AreRows K.cmp (G.links links.now)) }
{
    let keys = keys_in_order(alloc, declared)?;
    let (numbers, graph) = graph_of(alloc, &keys, links)?;
    let rows = closed_rows(alloc, &graph)?;
    let rows = rows_by_key(alloc, &keys, rows)?;
    Ok(Descents { numbers, rows })
}

// The declared keys, lent.
fn keys_in_order<K: Key, V>(alloc: Global, declared: &BTreeMap<K, V>) -> Result<Vec<&K>, AllocError>
    ensures { IfOk result (λ keys. lent keys.items ≡ keys_of declared.now.entries) }
{
    let mut keys = Vec::new(alloc);
    for (key, _) in declared.iter() {
        keys.push(key)?;
    }
    Ok(keys)
}

// The rows, under their keys. They are taken from the last to the first.
fn rows_by_key<K: Key>(
    alloc: Global,
    keys: &[&K],
    rows: Vec<Row>,
) -> Result<BTreeMap<K, Row>, AllocError>
    requires { length rows.items ≡ length keys.now }
    ensures found { IfOk result (λ found. AreRowsAt K.cmp (lent keys.now) rows.items found) }
    ensures whole { IfOk result (λ found. (k : K) → Contains (lent keys.now) k → IsSome (get K.cmp found k)) }
{
    let mut rows = rows;
    let mut found = BTreeMap::new(alloc);
    'last: while let Some(row) = rows.pop() {
        let key = keys[rows.len()];
        found.insert(key.try_clone(alloc)?, row)?;
    }
    Ok(found)
}
