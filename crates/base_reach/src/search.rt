//! The search for all that links lead to.
ghost use Rattle.std.specs.Prelude.{◌≡◌, ◌++◌, IfOk, OnOk};
ghost use Rattle.std.specs.BTreeSet.{contains};
ghost use Rattle.base_reach.specs.Closure.{IsClosure};
ghost use Rattle.base_reach.specs.Private.Lent.{lent};

use crate::key::Key;
use crate::links::Links;
use std::alloc::{AllocError, Global};
use std::collections::BTreeSet;

/// All keys that one or more links lead to from a key. The key itself is among them only where links lead back to it. Each key
/// is put into the set once, and then its links are looked at, so the work grows with the number of links.
///
/// # Errors
///
/// Fails only when out of memory.
pub fn closure_from<K: Key, G: Links<K>>(
    alloc: Global,
    graph: &G,
    from: &K,
) -> Result<BTreeSet<K>, AllocError>
    ensures { IfOk result (λ found. IsClosure (G.links graph.now) from.now (contains K.cmp found)) }
{
    let mut found = BTreeSet::new(alloc);
    let mut pending = Vec::new(alloc);
    push_all(&mut pending, graph.links(from))?;
    'search: while let Some(next) = pending.pop() {
        if found.insert(next.try_clone(alloc)?)? {
            push_all(&mut pending, graph.links(next))?;
        }
    }
    Ok(found)
}

fn push_all<'a, K>(pending: &mut Vec<&'a K>, keys: &'a [K]) -> Result<(), AllocError>
    ensures { OnOk result (lent pending.new.items ≡ lent pending.old.items ++ keys.now) }
{
    for key in keys {
        pending.push(key)?;
    }
    Ok(())
}
