//! Circles of links.
use std::alloc::{AllocError, Global};

// How far the search is with a place.
#[derive(Clone, Copy, PartialEq, Eq)]
enum State {
    // It has not come to it.
    New,
    // It is on the way.
    Open,
    // Nothing that the place leads to is in a circle.
    Done,
}

// A place on the way, and which of its links is followed next.
#[derive(Clone, Copy)]
struct Visit {
    place: usize,
    next: usize,
}

// A search that follows links and remembers its way.
#[derive(Drop)]
struct Search {
    states: Vec<State>,
    way: Vec<Visit>,
}

/// The places of a circle, each of which has a link to the next and the last one to the first; or none where there is no circle. Each
/// list has the places to which a place has links. Takes time in proportion to the number of links.
pub(crate) fn circle_in(
    alloc: Global,
    links: &[Vec<usize>],
) -> Result<Option<Vec<usize>>, AllocError> {
    let mut search = Search::new(alloc, links.len())?;
    for start in 0..links.len() {
        if let Some(first) = search.follow(links, start)? {
            return Ok(Some(circle_on(alloc, &search.way, first)?));
        }
    }
    Ok(None)
}

impl Search {
    fn new(alloc: Global, len: usize) -> Result<Search, AllocError> {
        let mut states = Vec::with_capacity(alloc, len)?;
        for _ in 0..len {
            states.push(State::New)?;
        }
        Ok(Search {
            states,
            way: Vec::new(alloc),
        })
    }

    // The place at which the way from a start comes back to itself, or none.
    fn follow(&mut self, links: &[Vec<usize>], start: usize) -> Result<Option<usize>, AllocError> {
        self.enter(start)?;
        for _ in 0..u64::MAX {
            let Some(visit) = self.way.pop() else {
                return Ok(None);
            };
            let Some(to) = link_at(links, visit) else {
                self.set(visit.place, State::Done);
                continue;
            };
            self.way.push(Visit {
                place: visit.place,
                next: visit.next.saturating_add(1),
            })?;
            if self.state(to) == State::Open {
                return Ok(Some(to));
            }
            self.enter(to)?;
        }
        Ok(None)
    }

    // Goes on to a place, unless the search has come to it.
    fn enter(&mut self, place: usize) -> Result<(), AllocError> {
        if self.state(place) == State::New {
            self.set(place, State::Open);
            self.way.push(Visit { place, next: 0 })?;
        }
        Ok(())
    }

    // A place that is not there leads nowhere.
    fn state(&self, place: usize) -> State {
        match self.states.get(place) {
            Some(state) => *state,
            None => State::Done,
        }
    }

    fn set(&mut self, place: usize, state: State) {
        if place < self.states.len() {
            self.states[place] = state;
        }
    }
}

fn link_at(links: &[Vec<usize>], visit: Visit) -> Option<usize> {
    match links.get(visit.place) {
        Some(list) => list.get(visit.next).copied(),
        None => None,
    }
}

// The places on the way from the first one on.
fn circle_on(alloc: Global, way: &[Visit], first: usize) -> Result<Vec<usize>, AllocError> {
    let mut circle = Vec::new(alloc);
    let mut is_inside = false;
    for visit in way {
        is_inside = is_inside || visit.place == first;
        if is_inside {
            circle.push(visit.place)?;
        }
    }
    Ok(circle)
}
