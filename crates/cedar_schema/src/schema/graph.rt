//! The links of keys, as links of numbers.
ghost use Rattle.std.specs.Prelude.{◌≡◌, ℕ, None, get_or, length, IfOk};
ghost use Rattle.std.specs.BTreeMap.{btree_map_len, get};
ghost use Rattle.base_reach.specs.Private.Lent.{lent};
ghost use Rattle.cedar_schema.specs.Private.Kept.{AreApart, AreLinkNumbers, ArePlacesBelow, with_place};

use crate::schema::numbers::number_all;
use base_reach::{Key, Links};
use base_search::{Graph, Lists};
use std::alloc::{AllocError, Global};
use std::collections::BTreeMap;

/// A number for each key that some declared key links to, in the order of first mention. For each declared key, the numbers of
/// the keys that it links to.
pub(crate) fn graph_of<K: Key, G: Links<K>>(
    alloc: Global,
    declared: &[&K],
    links: &G,
) -> Result<(BTreeMap<K, usize>, Graph), AllocError>
    ensures apart { IfOk result (λ r. AreApart K.cmp r.0) }
    ensures lists { IfOk result (λ r. AreLinkNumbers K.cmp (G.links links.now) r.0 (lent declared.now) r.1.lists) }
    ensures places { IfOk result (λ r. ArePlacesBelow K.cmp r.0 (lent declared.now) (length declared.now) r.1.places.items) }
{
    let mut numbers = BTreeMap::new(alloc);
    let mut lists = Lists::new(alloc);
    for key in declared {
        let list = number_all(alloc, &mut numbers, links.links(*key))?;
        lists.push(&list)?;
    }
    let places = places_of(alloc, declared, &numbers)?;
    Ok((numbers, Graph { lists, places }))
}

// The place of each number's key among the declared keys, where it is one of them.
fn places_of<K: Key>(
    alloc: Global,
    declared: &[&K],
    numbers: &BTreeMap<K, usize>,
) -> Result<Vec<Option<usize>>, AllocError>
    requires { AreApart K.cmp numbers.now }
    ensures { IfOk result (λ places. ArePlacesBelow K.cmp numbers.now (lent declared.now) (length declared.now) places.items) }
{
    let mut places = no_places(alloc, numbers.len())?;
    for (place, key) in declared.iter().enumerate() {
        place_key(numbers, *key, place, &mut places);
    }
    Ok(places)
}

// No place yet, for so many numbers.
fn no_places(alloc: Global, numbers: usize) -> Result<Vec<Option<usize>>, AllocError>
    ensures long { IfOk result (λ places. length places.items ≡ numbers) }
    ensures none { IfOk result (λ places. (n : ℕ) → get_or places.items n None ≡ None) }
{
    let mut places = Vec::with_capacity(alloc, numbers)?;
    for _number in 0..numbers {
        places.push(None)?;
    }
    Ok(places)
}

// Keeps the place of a key under its number, where it has one.
fn place_key<K: Key>(
    numbers: &BTreeMap<K, usize>,
    key: &K,
    place: usize,
    places: &mut Vec<Option<usize>>,
)
    requires apart { AreApart K.cmp numbers.now }
    requires long { length places.old.items ≡ btree_map_len numbers.now }
    ensures { places.new.items ≡ with_place places.old.items (get K.cmp numbers.now key.now) place }
{
    if let Some(number) = numbers.get(key).copied() {
        places[number] = Some(place);
    }
}
