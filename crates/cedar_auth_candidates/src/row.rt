//! The candidates of an action, for each type of its principals and each type of its resources.
ghost use Rattle.std.specs.Prelude.{◌≡◌, IfOk};
ghost use Rattle.cedar_auth_candidates.specs.Private.Sifting.{ByPrincipal, ByResource, OfPrincipal, OfResource};

use crate::cell::Cell;
use crate::cells::Cells;
use crate::question::Question;
use crate::sifting::sifted;
use cedar_ast::PolicySet;
use cedar_schema::{Action, Schema};
use cedar_value::Name;
use std::alloc::{AllocError, Global};
use std::collections::{BTreeMap, BTreeSet};
use std::sync::Arc;

/// For each type of resources, the candidates.
pub(crate) type ByResource = BTreeMap<Name, Cell>;

/// For each type of principals, the cells of the types of resources.
pub(crate) type ByPrincipal = BTreeMap<Name, ByResource>;

/// The candidates of an action, or of several actions that leave the same policies and apply to the same types.
#[derive(Drop)]
pub(crate) struct Row {
    pub(crate) cells: Arc<ByPrincipal, Global>,
}

impl Row {
    /// A row of its own.
    pub(crate) fn new(alloc: Global, cells: ByPrincipal) -> Result<Row, AllocError>
        ensures { IfOk result (λ row. row.cells.value ≡ cells) }
    {
        let cells = Arc::new(alloc, cells)?;
        Ok(Row { cells })
    }

    /// The same row for one more action. Refused where too many actions share it.
    pub(crate) fn share(&self) -> Result<Row, AllocError>
        ensures { IfOk result (λ row. row.cells.value ≡ self.now.cells.value) }
    {
        let cells = Arc::try_clone(&self.cells)?;
        Ok(Row { cells })
    }
}

// The cell of a type of resources: the positions that it leaves.
fn of_resource(
    alloc: Global,
    schema: &Schema,
    policies: &PolicySet,
    cells: &mut Cells<'_>,
    ty: &Name,
    positions: &[usize],
) -> Result<Cell, AllocError>
    ensures same { cells.new ≡ cells.old }
    ensures made { IfOk result (OfResource schema.now policies.now.policies cells.old positions.now ty.now) }
{
    let positions = sifted(alloc, schema, policies, Question::Resource(ty), positions)?;
    let cell = cells.cell(alloc, &positions)?;
    Ok(cell)
}

// The cells of these types of resources.
fn by_resource(
    alloc: Global,
    schema: &Schema,
    policies: &PolicySet,
    cells: &mut Cells<'_>,
    resources: &BTreeSet<Name>,
    positions: &[usize],
) -> Result<ByResource, AllocError>
    ensures same { cells.new ≡ cells.old }
    ensures made { IfOk result (ByResource schema.now policies.now.policies cells.old positions.now resources.now.keys) }
{
    let mut row = BTreeMap::new(alloc);
    for ty in resources.iter() {
        let cell = of_resource(alloc, schema, policies, cells, ty, positions)?;
        row.insert(ty.try_clone(alloc)?, cell)?;
    }
    Ok(row)
}

// The cells of a type of principals.
fn of_principal(
    alloc: Global,
    schema: &Schema,
    policies: &PolicySet,
    cells: &mut Cells<'_>,
    action: &Action,
    ty: &Name,
    positions: &[usize],
) -> Result<ByResource, AllocError>
    ensures same { cells.new ≡ cells.old }
    ensures made { IfOk result (OfPrincipal schema.now policies.now.policies cells.old positions.now action.now ty.now) }
{
    let left = sifted(alloc, schema, policies, Question::Principal(ty), positions)?;
    let row = by_resource(alloc, schema, policies, cells, action.resources(), &left)?;
    Ok(row)
}

/// The cells of each type of principals of an action, for these positions.
pub(crate) fn by_principal(
    alloc: Global,
    schema: &Schema,
    policies: &PolicySet,
    cells: &mut Cells<'_>,
    action: &Action,
    positions: &[usize],
) -> Result<ByPrincipal, AllocError>
    ensures same { cells.new ≡ cells.old }
    ensures made { IfOk result (ByPrincipal schema.now policies.now.policies cells.old positions.now action.now) }
{
    let mut row = BTreeMap::new(alloc);
    for ty in action.principals().iter() {
        let of_type = of_principal(alloc, schema, policies, cells, action, ty, positions)?;
        row.insert(ty.try_clone(alloc)?, of_type)?;
    }
    Ok(row)
}
