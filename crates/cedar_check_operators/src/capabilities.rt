//! Lists of capabilities.
ghost use Rattle.std.specs.Prelude.{◌≡◌, ◌++◌, IfOk};
ghost use Rattle.cedar_check_spec.specs.Capabilities.{AreKept};
ghost use Rattle.cedar_check_spec.specs.Private.Checking.{is_held, same_capability};
ghost use Rattle.cedar_check_operators.specs.View.{capability_view, held_view};

use crate::capability::Capability;
use std::alloc::{AllocError, Global};

// Whether the two are equal. Most that are not are told apart by their heights.
fn same_capability(one: Capability<'_>, two: Capability<'_>) -> bool
    ensures { result ≡ same_capability (capability_view one.entry) (capability_view two.entry) }
{
    if one.height != two.height {
        return false;
    }
    one.key == two.key && one.on == two.on
}

// Whether the capability is one of these.
pub(crate) fn is_held(wanted: Capability<'_>, held: &[Capability<'_>]) -> bool
    ensures { result ≡ is_held (capability_view wanted.entry) (held_view held.now) }
{
    for capability in held {
        if same_capability(*capability, wanted) {
            return true;
        }
    }
    false
}

/// What is held, and what is gained.
pub fn extended<'a>(
    alloc: Global,
    held: &[Capability<'a>],
    gained: &[Capability<'a>],
) -> Result<Vec<Capability<'a>>, AllocError>
    ensures { IfOk result (λ all. held_view all.items ≡ held_view held.now ++ held_view gained.now) }
{
    let mut all = Vec::new(alloc);
    for capability in held {
        all.push(*capability)?;
    }
    for capability in gained {
        all.push(*capability)?;
    }
    Ok(all)
}

/// The ones and the others. Where one of the two lists is empty, it takes no memory.
pub fn together<'a>(
    one: Vec<Capability<'a>>,
    two: Vec<Capability<'a>>,
) -> Result<Vec<Capability<'a>>, AllocError>
    ensures { IfOk result (λ all. held_view all.items ≡ held_view one.entry.items ++ held_view two.entry.items) }
{
    if one.is_empty() {
        return Ok(two);
    }
    let mut all = one;
    for capability in &two {
        all.push(*capability)?;
    }
    Ok(all)
}

/// The capabilities of the first list that the second has, in order.
pub fn common<'a>(
    alloc: Global,
    one: &[Capability<'a>],
    two: &[Capability<'a>],
) -> Result<Vec<Capability<'a>>, AllocError>
    ensures { IfOk result (λ both. AreKept (held_view one.now) (held_view two.now) (held_view both.items)) }
{
    let mut both = Vec::new(alloc);
    for capability in one {
        if is_held(*capability, two) {
            both.push(*capability)?;
        }
    }
    Ok(both)
}
