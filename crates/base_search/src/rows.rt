//! The rows of all lists.
ghost use Rattle.std.specs.Prelude.{◌≡◌, ◌↔◌, ◌<◌, ℕ, false, true, get_or, length, IfErr, IfOk, IsTrue, OnOk};
ghost use Rattle.base_reach.specs.Closure.{LeadsTo};
ghost use Rattle.base_search.specs.Links.{AreClosed, next};
ghost use Rattle.base_search.specs.Faults.{IsThere};
ghost use Rattle.base_search.specs.Private.Finding.{IsFinding, KeepsKnown};

use crate::found::Found;
use crate::graph::Graph;
use crate::order::order_of;
use crate::row::Row;
use crate::search::row_over;
use crate::search_fault::SearchFault;
use std::alloc::{AllocError, Global};

/// For each list, the row of its numbers and of all that links lead to from them. A number on a circle of links is in the row
/// of its own list.
///
/// A row is joined from the rows of the numbers in its list. Without circles the cost is the number of links times the words of
/// a row.
pub fn closed_rows(alloc: Global, graph: &Graph) -> Result<Vec<Row>, AllocError>
    ensures long { IfOk result (λ rows. length rows.items ≡ length graph.now.lists) }
    ensures rows { IfOk result (λ rows. AreClosed graph.now.lists graph.now.places.items rows.items) }
{
    let mut found = Found::new(alloc, graph.lists.len())?;
    let order = order_of(alloc, graph)?;
    for number in &order {
        find_number(alloc, graph, &mut found, *number)?;
    }
    all_rows(alloc, graph, found)
}

/// The same where links lead in no circle. The search ends at the first circle that it finds.
///
/// # Errors
///
/// A number on a circle, or out of memory.
pub fn acyclic_rows(alloc: Global, graph: &Graph) -> Result<Vec<Row>, SearchFault>
    ensures long { IfOk result (λ rows. length rows.items ≡ length graph.now.lists) }
    ensures rows { IfOk result (λ rows. AreClosed graph.now.lists graph.now.places.items rows.items) }
    ensures acyclic { OnOk result ((k : ℕ) → ¬ LeadsTo (next graph.now.lists graph.now.places.items) k k) }
    ensures refused { IfErr result (IsThere graph.now.lists graph.now.places.items) }
{
    let mut found = Found::new(alloc, graph.lists.len())?;
    let order = order_of(alloc, graph)?;
    for number in &order {
        find_acyclic(alloc, graph, &mut found, *number)?;
    }
    for number in 0..graph.places.len() {
        find_acyclic(alloc, graph, &mut found, number)?;
    }
    Ok(all_rows(alloc, graph, found)?)
}

// Finds the row of a number that is not on a circle.
fn find_acyclic(
    alloc: Global,
    graph: &Graph,
    found: &mut Found,
    number: usize,
) -> Result<(), SearchFault>
    requires { IsFinding graph.now.lists graph.now.places.items found.old }
    ensures finding { OnOk result (IsFinding graph.now.lists graph.now.places.items found.new) }
    ensures acyclic { OnOk result (¬ LeadsTo (next graph.now.lists graph.now.places.items) number number) }
    ensures refused { IfErr result (IsThere graph.now.lists graph.now.places.items) }
{
    if find_number(alloc, graph, found, number)? {
        return Err(SearchFault::Circle(number));
    }
    Ok(())
}

// Finds the row of a number, and says whether the number is in it.
fn find_number(
    alloc: Global,
    graph: &Graph,
    found: &mut Found,
    number: usize,
) -> Result<bool, AllocError>
    requires { IsFinding graph.now.lists graph.now.places.items found.old }
    ensures finding { OnOk result (IsFinding graph.now.lists graph.now.places.items found.new) }
    ensures circle { IfOk result (λ on. IsTrue on ↔ LeadsTo (next graph.now.lists graph.now.places.items) number number) }
{
    match graph.place(number) {
        Some(place) => {
            find_row(alloc, graph, found, place)?;
            Ok(found.has(place, number))
        }
        None => Ok(false),
    }
}

// Finds the row of the list at a place, unless it is known.
fn find_row(alloc: Global, graph: &Graph, found: &mut Found, place: usize) -> Result<(), AllocError>
    requires { IsFinding graph.now.lists graph.now.places.items found.old }
    ensures finding { OnOk result (IsFinding graph.now.lists graph.now.places.items found.new) }
    ensures kept { OnOk result (KeepsKnown found.old.known.items found.new.known.items) }
    ensures known { OnOk result (place < length graph.now.lists → get_or found.new.known.items place false ≡ true) }
{
    if place < graph.lists.len() && found.row(place).is_none() {
        let row = row_over(alloc, graph, found, graph.lists.get(place))?;
        found.keep(place, row);
    }
    Ok(())
}

// The rows of all lists, where some are known.
fn all_rows(alloc: Global, graph: &Graph, mut found: Found) -> Result<Vec<Row>, AllocError>
    requires { IsFinding graph.now.lists graph.now.places.items found }
    ensures long { IfOk result (λ rows. length rows.items ≡ length graph.now.lists) }
    ensures rows { IfOk result (λ rows. AreClosed graph.now.lists graph.now.places.items rows.items) }
{
    for place in 0..graph.lists.len() {
        find_row(alloc, graph, &mut found, place)?;
    }
    Ok(found.rows)
}
