//! The search for what a list leads to.
ghost use Rattle.std.specs.Prelude.{IfOk, IfSome};
ghost use Rattle.base_bits.specs.Bits.{has_bit};
ghost use Rattle.base_reach.specs.Closure.{IsClosure};
ghost use Rattle.base_search.specs.Links.{IsRowOver, next};
ghost use Rattle.base_search.specs.Private.Finding.{AreFound};

use crate::found::Found;
use crate::graph::Graph;
use crate::row::Row;
use std::alloc::{AllocError, Global};

/// The numbers of a list, and all that links lead to from them: each has its bit set once. Where the closure of a number is
/// known already, its row is joined, and otherwise its links are followed.
pub(crate) fn row_over(
    alloc: Global,
    graph: &Graph,
    found: &Found,
    list: &[usize],
) -> Result<Row, AllocError>
    requires { AreFound graph.now.lists graph.now.places.items found.now.rows.items found.now.known.items }
    ensures { IfOk result (IsRowOver (next graph.now.lists graph.now.places.items) list.now) }
{
    let mut row = Row::new(alloc);
    let mut pending = Vec::new(alloc);
    pending.extend_from_slice(list)?;
    'search: while let Some(number) = pending.pop() {
        if !row.has(number) {
            row.insert(number)?;
            match known_row(graph, found, number) {
                Some(known) => row.join(known)?,
                None => pending.extend_from_slice(graph.links(number))?,
            }
        }
    }
    Ok(row)
}

// What links lead to from a number, where it is known.
fn known_row<'a>(graph: &Graph, found: &'a Found, number: usize) -> Option<&'a Row>
    requires { AreFound graph.now.lists graph.now.places.items found.now.rows.items found.now.known.items }
    ensures { IfSome result (λ row. IsClosure (next graph.now.lists graph.now.places.items) number (has_bit row.now)) }
{
    match graph.place(number) {
        Some(place) => found.row(place),
        None => None,
    }
}
