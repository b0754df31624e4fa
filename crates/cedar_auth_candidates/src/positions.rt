//! Positions of policies.
ghost use Rattle.std.specs.Prelude.{◌≡◌, IfOk, length};
ghost use Rattle.std.specs.List.{range_with_len};
ghost use Rattle.cedar_auth_candidates.specs.Private.Sifting.{ArePositions};

use crate::question::Question;
use crate::sifting::sifted;
use cedar_ast::PolicySet;
use cedar_schema::Schema;
use std::alloc::{AllocError, Global};

/// The positions of all policies, ascending. They are also kept apart as those whose scopes leave the action open, and the
/// others.
#[derive(Drop)]
pub(crate) struct Positions {
    pub(crate) all: Vec<usize>,
    pub(crate) leaving: Vec<usize>,
    pub(crate) asking: Vec<usize>,
}

/// The positions of all policies of the set, ascending.
///
/// # Errors
///
/// Fails only when out of memory.
pub fn all_positions(alloc: Global, policies: &PolicySet) -> Result<Vec<usize>, AllocError>
    ensures { IfOk result (λ v. v.items ≡ range_with_len 0 (length policies.now.policies)) }
{
    let mut positions = Vec::with_capacity(alloc, policies.count())?;
    for position in 0..policies.count() {
        positions.push(position)?;
    }
    Ok(positions)
}

impl Positions {
    /// The positions of the policies of the set.
    pub(crate) fn new(
        alloc: Global,
        schema: &Schema,
        policies: &PolicySet,
    ) -> Result<Self, AllocError>
        ensures { IfOk result (ArePositions schema.now policies.now.policies) }
    {
        let all = all_positions(alloc, policies)?;
        let leaving = sifted(alloc, schema, policies, Question::AnyAction, &all)?;
        let asking = sifted(alloc, schema, policies, Question::SomeAction, &all)?;
        Ok(Positions {
            all,
            leaving,
            asking,
        })
    }
}
