//! Circles of parents.
use crate::data_fault::CircleEntry;
use crate::shown::uid_text;
use crate::visiting::{Visitor, visit_entries};
use crate::written_entry::{WrittenEntry, written_entry};
use cedar_value::Uid;
use serde_json::Value as Json;
use std::alloc::{AllocError, Global};
use std::collections::{BTreeMap, BTreeSet};

// An entry with its position.
#[derive(Drop)]
struct Node {
    position: usize,
    written: WrittenEntry,
}

// All entries that write a uid.
#[derive(Drop)]
struct Nodes {
    all: Vec<Node>,
}

impl Visitor for Nodes {
    fn visit(&mut self, alloc: Global, position: usize, entry: &Json) -> Result<bool, AllocError> {
        if let Some(written) = written_entry(alloc, entry)? {
            self.all.push(Node { position, written })?;
        }
        Ok(true)
    }
}

// A node that was reached on the way up, by its place among all, and the step from which it was reached.
#[derive(Clone, Copy)]
struct Step {
    node: usize,
    from: usize,
}

// The place of each uid among the nodes.
fn places_of(alloc: Global, nodes: &[Node]) -> Result<BTreeMap<Uid, usize>, AllocError> {
    let mut places = BTreeMap::new(alloc);
    for (place, node) in nodes.iter().enumerate() {
        let uid = node.written.uid.try_clone(alloc)?;
        drop(places.insert(uid, place)?);
    }
    Ok(places)
}

// Adds the parents of a node that were not reached before.
fn add_parents(
    steps: &mut Vec<Step>,
    reached: &mut BTreeSet<usize>,
    places: &BTreeMap<Uid, usize>,
    parents: &[Uid],
    from: usize,
) -> Result<(), AllocError> {
    for parent in parents {
        if let Some(place) = places.get(parent) {
            if !reached.contains(place) {
                reached.insert(*place)?;
                steps.push(Step { node: *place, from })?;
            }
        }
    }
    Ok(())
}

fn has_parent(parents: &[Uid], uid: &Uid) -> bool {
    for parent in parents {
        if *parent == *uid {
            return true;
        }
    }
    false
}

// The nodes from the first step to the last one, each reached from the one before.
fn way_to(alloc: Global, steps: &[Step], last: usize) -> Result<Vec<usize>, AllocError> {
    let mut way: Vec<usize> = Vec::new(alloc);
    let mut at = last;
    for _ in 0..steps.len() {
        let Some(step) = steps.get(at) else {
            break;
        };
        way.insert(0, step.node)?;
        if at == 0 {
            break;
        }
        at = step.from;
    }
    Ok(way)
}

// The shortest way from a node up to one that has its uid as a parent, or nothing.
fn way_back(
    alloc: Global,
    nodes: &[Node],
    places: &BTreeMap<Uid, usize>,
    uid: &Uid,
    start: usize,
) -> Result<Vec<usize>, AllocError> {
    let mut steps: Vec<Step> = Vec::new(alloc);
    let mut reached = BTreeSet::new(alloc);
    reached.insert(start)?;
    steps.push(Step {
        node: start,
        from: 0,
    })?;
    for next in 0..nodes.len() {
        let Some(step) = steps.get(next).copied() else {
            break;
        };
        let Some(node) = nodes.get(step.node) else {
            break;
        };
        if has_parent(&node.written.parents, uid) {
            return way_to(alloc, &steps, next);
        }
        add_parents(
            &mut steps,
            &mut reached,
            places,
            &node.written.parents,
            next,
        )?;
    }
    Ok(Vec::new(alloc))
}

// The entries at these places among the nodes.
fn entries_at(
    alloc: Global,
    nodes: &[Node],
    way: &[usize],
) -> Result<Vec<CircleEntry>, AllocError> {
    let mut entries = Vec::new(alloc);
    for place in way {
        if let Some(node) = nodes.get(*place) {
            let uid = uid_text(alloc, &node.written.uid).done()?;
            entries.push(CircleEntry {
                position: node.position,
                uid,
            })?;
        }
    }
    Ok(entries)
}

fn circle_of(alloc: Global, nodes: &[Node], uid: &Uid) -> Result<Vec<CircleEntry>, AllocError> {
    let places = places_of(alloc, nodes)?;
    let way = match places.get(uid) {
        Some(start) => way_back(alloc, nodes, &places, uid, *start)?,
        None => Vec::new(alloc),
    };
    entries_at(alloc, nodes, &way)
}

/// The shortest circle of parents through a uid: the first entry writes the uid, each names the next as a parent, and the last names
/// the first. It finds the entries for which `read_entities` gives 402. Empty where there is no circle. Takes memory for the uids of
/// all entries.
///
/// # Errors
///
/// Fails only when out of memory.
pub fn circle_through(
    alloc: Global,
    bytes: Vec<u8>,
    uid: &Uid,
) -> Result<Vec<CircleEntry>, AllocError> {
    let mut nodes = Nodes {
        all: Vec::new(alloc),
    };
    visit_entries(alloc, bytes, &mut nodes)?;
    circle_of(alloc, &nodes.all, uid)
}
