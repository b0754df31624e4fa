//! How rows are made for actions.
ghost use Rattle.std.specs.Prelude.{◌≡◌, IfOk, IfSome, OnOk, Some};
ghost use Rattle.std.specs.BTreeMap.{get};
ghost use Rattle.std.specs.Ordering.{nat_cmp};
ghost use Rattle.cedar_auth_candidates.specs.Private.RowMaking.{AppliesWithin, AreRight};
ghost use Rattle.cedar_auth_candidates.specs.Private.Sifting.{ArePositions, ByPrincipal, OfAction};

use crate::cells::Cells;
use crate::positions::Positions;
use crate::question::Question;
use crate::row::{Row, by_principal};
use crate::sifting::sifted;
use cedar_ast::PolicySet;
use cedar_schema::{Action, Schema};
use cedar_value::{Name, Uid};
use std::alloc::{AllocError, Global};
use std::collections::{BTreeMap, BTreeSet};
use std::hash::{DefaultHasher, Hash, Hasher};

/// A row, and an action for which it was made.
#[derive(Drop)]
pub(crate) struct MadeRow<'s> {
    pub(crate) action: &'s Action,
    pub(crate) row: Row,
}

/// The cells that were made, and the rows of actions that no scope names, found by digests of their types. Such actions that
/// apply to the same types share one row.
#[derive(Drop)]
pub(crate) struct RowMaker<'s> {
    pub(crate) cells: Cells<'s>,
    pub(crate) made: BTreeMap<u64, MadeRow<'s>>,
}

fn feed(digest: &mut DefaultHasher, types: &BTreeSet<Name>) {
    for ty in types.iter() {
        ty.hash(digest);
    }
}

fn digest_of(action: &Action) -> u64 {
    let mut digest = DefaultHasher::new();
    feed(&mut digest, action.principals());
    digest.write_u64(action.principals().len() as u64);
    feed(&mut digest, action.resources());
    digest.finish()
}

// The row that was made for the digest, if it has all types of the action.
fn found<'m, 's>(
    made: &'m BTreeMap<u64, MadeRow<'s>>,
    digest: u64,
    action: &Action,
) -> Option<&'m MadeRow<'s>>
    ensures made { IfSome result (λ one. get nat_cmp made.now digest ≡ Some one.now) }
    ensures types { IfSome result (λ one. AppliesWithin action.now one.now.action.now) }
{
    let one = made.get(&digest)?;
    let principals = action.principals().is_subset(one.action.principals());
    let resources = action.resources().is_subset(one.action.resources());
    if principals && resources {
        Some(one)
    } else {
        None
    }
}

impl<'s> RowMaker<'s> {
    // The row of an action that no scope names: one that was made already, if there is one.
    fn open_row(
        &mut self,
        alloc: Global,
        schema: &Schema,
        policies: &PolicySet,
        action: &'s Action,
        leaving: &[usize],
    ) -> Result<Row, AllocError>
        requires { AreRight schema.now policies.now.policies self.old.cells leaving.now self.old.made }
        ensures same { OnOk result (self.new.cells ≡ self.old.cells) }
        ensures kept { OnOk result (AreRight schema.now policies.now.policies self.old.cells leaving.now self.new.made) }
        ensures made { IfOk result (λ row. ByPrincipal schema.now policies.now.policies self.old.cells leaving.now action.now row.cells.value) }
    {
        let digest = digest_of(action);
        if let Some(one) = found(&self.made, digest, action) {
            let row = one.row.share()?;
            return Ok(row);
        }
        let row = Row::new(
            alloc,
            by_principal(alloc, schema, policies, &mut self.cells, action, leaving)?,
        )?;
        let again = row.share()?;
        self.made.insert(digest, MadeRow { action, row: again })?;
        Ok(row)
    }

    /// The row of an action.
    pub(crate) fn row(
        &mut self,
        alloc: Global,
        schema: &Schema,
        policies: &PolicySet,
        uid: &Uid,
        action: &'s Action,
        positions: &Positions,
    ) -> Result<Row, AllocError>
        requires right { AreRight schema.now policies.now.policies self.old.cells positions.now.leaving.items self.old.made }
        requires positions { ArePositions schema.now policies.now.policies positions.now }
        ensures same { OnOk result (self.new.cells ≡ self.old.cells) }
        ensures kept { OnOk result (AreRight schema.now policies.now.policies self.old.cells positions.now.leaving.items self.new.made) }
        ensures made { IfOk result (λ row. OfAction schema.now policies.now.policies self.old.cells uid.now action.now row.cells.value) }
    {
        let question = Question::Action(uid);
        let asking = sifted(alloc, schema, policies, question, &positions.asking)?;
        if asking.is_empty() {
            let row = self.open_row(alloc, schema, policies, action, &positions.leaving)?;
            return Ok(row);
        }
        let left = sifted(alloc, schema, policies, question, &positions.all)?;
        let cells = by_principal(alloc, schema, policies, &mut self.cells, action, &left)?;
        let row = Row::new(alloc, cells)?;
        Ok(row)
    }
}
