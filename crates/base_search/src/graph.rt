//! Numbers that link to numbers.
ghost use Rattle.std.specs.Prelude.{◌≡◌, None, get_or};
ghost use Rattle.base_search.specs.Links.{next};

use crate::lists::Lists;

/// Lists of numbers, and for each number the place of the list that it links to.
#[derive(Drop)]
pub struct Graph {
    /// The numbers that each of the searched things links to.
    pub lists: Lists,
    /// The place of the list of each number. None where the number links to nothing.
    pub places: Vec<Option<usize>>,
}

impl Graph {
    /// The place of the list of a number.
    pub(crate) fn place(&self, number: usize) -> Option<usize>
        ensures { result ≡ get_or self.now.places.items number None }
    {
        match self.places.get(number) {
            Some(place) => *place,
            None => None,
        }
    }

    /// The numbers that a number links to.
    pub(crate) fn links(&self, number: usize) -> &[usize]
        ensures { result.now ≡ next self.now.lists self.now.places.items number }
    {
        match self.place(number) {
            Some(place) => self.lists.get(place),
            None => &[],
        }
    }
}
