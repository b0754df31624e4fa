//! Where environments were found for earlier requests.
ghost use Rattle.std.specs.Prelude.{◌<◌};

/// How many positions are kept.
const SLOTS: usize = 64;

/// The positions of environments that were found for earlier requests, each in a slot that depends on its action and its types. The next
/// request is looked for at the position in its slot first. What is found does not depend on it.
#[derive(Drop)]
pub(crate) struct Guesses {
    positions: [usize; SLOTS],
}

/// The slot of an action with this id, and of a principal and a resource whose types are at these places among the names of the
/// reader.
pub(crate) fn slot_of(id: &str, principal: usize, resource: usize) -> usize
    ensures { result < 64 }
{
    let bytes = id.as_bytes();
    let ends = match (bytes.first(), bytes.last()) {
        (Some(first), Some(last)) => *first as usize + 5 * (*last as usize),
        _ => 0,
    };
    let types = principal
        .wrapping_mul(11)
        .wrapping_add(resource.wrapping_mul(23));
    ends.wrapping_add(bytes.len()).wrapping_add(types) % SLOTS
}

impl Guesses {
    /// The first position in each slot. It takes no memory of its own.
    pub(crate) fn new() -> Guesses {
        Guesses {
            positions: [0; SLOTS],
        }
    }

    /// The position in a slot.
    pub(crate) fn get(&self, slot: usize) -> usize
        requires { slot < 64 }
    {
        self.positions[slot]
    }

    /// Keeps a position in a slot.
    pub(crate) fn put(&mut self, slot: usize, position: usize)
        requires { slot < 64 }
    {
        self.positions[slot] = position;
    }
}
