//! Names, found by their texts.
ghost use Rattle.std.specs.Prelude.{◌≡◌, IfOk};
ghost use Rattle.cedar_schema_json.specs.Naming.{place_of};
ghost use Rattle.cedar_schema_json.specs.Private.Places.{ArePlaces};

use cedar_value::Name;
use std::alloc::{AllocError, Global};
use std::collections::BTreeMap;
use std::marker::Model;

/// Names with their places, which contracts see as the list of the names.
#[derive(Drop)]
pub struct NameTable {
    names: Vec<Name>,
    places: BTreeMap<Name, usize>,
}

impl Model for NameTable {
    ghost use Rattle.std.specs.Prelude.{ℕ, List};
    ghost use Rattle.cedar_schema_json.specs.Private.Places.{ArePlaces};

    ghost Value = { List (List ℕ) };

    ghost view = { λ t. t.names.items };

    ghost invariant = { λ t. ArePlaces t.places t.names.items };
}

impl NameTable {
    /// The table of these names. Where a name is repeated, its first place counts.
    pub fn new(alloc: Global, names: Vec<Name>) -> Result<Self, AllocError>
        ensures { IfOk result (λ table. table ≡ names.items) }
    {
        let places = places_of(alloc, &names)?;
        Ok(NameTable { names, places })
    }

    /// The place of a name, counted from 0.
    pub(crate) fn place(&self, name: &Name) -> Option<usize>
        ensures { result ≡ place_of self.now name.now }
    {
        self.places.get(name).copied()
    }
}

// The first place of each name.
fn places_of(alloc: Global, names: &[Name]) -> Result<BTreeMap<Name, usize>, AllocError>
    ensures { IfOk result (λ places. ArePlaces places names.now) }
{
    let mut places = BTreeMap::new(alloc);
    let mut left = names.len();
    'back: while left > 0 {
        left -= 1;
        let name = names[left].try_clone(alloc)?;
        places.insert(name, left)?;
    }
    Ok(places)
}
