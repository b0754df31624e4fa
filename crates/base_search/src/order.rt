//! The order in which rows are best found.
use crate::graph::Graph;
use std::alloc::{AllocError, Global};

/// The numbers, each after those that it links to. Where links lead in a circle, the first number of the order whose links do
/// not all lead to earlier numbers is on a circle. Each link is followed once. Any order leads to the same rows; a good one
/// saves work.
pub(crate) fn order_of(alloc: Global, graph: &Graph) -> Result<Vec<usize>, AllocError> {
    let mut walk = Walk::new(alloc, graph.places.len())?;
    for number in 0..graph.places.len() {
        walk.meet(number)?;
        walk.finish(graph)?;
    }
    Ok(walk.order)
}

// A walk along links, and back.
#[derive(Drop)]
struct Walk {
    // Whether a number was met.
    met: Vec<bool>,
    // How many of its links were followed.
    followed: Vec<usize>,
    // The numbers from the start of the walk to where it is now.
    path: Vec<usize>,
    // The numbers that the walk came back from.
    order: Vec<usize>,
}

impl Walk {
    fn new(alloc: Global, numbers: usize) -> Result<Self, AllocError> {
        Ok(Walk {
            met: vec![in alloc; false; numbers]?,
            followed: vec![in alloc; 0; numbers]?,
            path: Vec::new(alloc),
            order: Vec::with_capacity(alloc, numbers)?,
        })
    }

    // Goes to a number, unless it was met before.
    fn meet(&mut self, number: usize) -> Result<(), AllocError> {
        if number < self.met.len() && !self.met[number] {
            self.met[number] = true;
            self.path.push(number)?;
        }
        Ok(())
    }

    // Goes on until the walk has come back to its start.
    fn finish(&mut self, graph: &Graph) -> Result<(), AllocError> {
        for _step in 0..usize::MAX {
            let Some(number) = self.path.last().copied() else {
                return Ok(());
            };
            match self.next_link(graph, number) {
                Some(link) => self.meet(link)?,
                None => self.come_back(number)?,
            }
        }
        Ok(())
    }

    // The next link of a number that was not followed.
    fn next_link(&mut self, graph: &Graph, number: usize) -> Option<usize> {
        if number >= self.followed.len() {
            return None;
        }
        let next = self.followed[number];
        self.followed[number] = next.saturating_add(1);
        graph.links(number).get(next).copied()
    }

    fn come_back(&mut self, number: usize) -> Result<(), AllocError> {
        let _ = self.path.pop();
        self.order.push(number)?;
        Ok(())
    }
}
