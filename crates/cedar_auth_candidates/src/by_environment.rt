//! The cells of environments.
ghost use Rattle.std.specs.Prelude.{◌≡◌, IfOk, IsSome, Some, option_copied};
ghost use Rattle.cedar_auth_candidates.specs.Private.Sifting.{AreCellsOf, HaveCells, cell_at, cell_of};

use crate::cell::Cell;
use crate::row::Row;
use cedar_schema::Environment;
use cedar_value::{Name, Uid};
use std::alloc::{AllocError, Global};
use std::collections::BTreeMap;

/// The cell of an action, a type of principals and a type of resources.
pub(crate) fn cell_in<'r>(
    rows: &'r BTreeMap<Uid, Row>,
    action: &Uid,
    principal: &Name,
    resource: &Name,
) -> Option<&'r Cell>
    ensures { option_copied result ≡ cell_at rows.now action.now principal.now resource.now }
{
    let row = rows.get(action)?;
    let cells = row.cells.get(principal)?;
    cells.get(resource)
}

// The cell of an environment, once more.
fn shared_cell(rows: &BTreeMap<Uid, Row>, environment: &Environment) -> Result<Cell, AllocError>
    requires { IsSome (cell_of rows.now environment.now) }
    ensures { IfOk result (λ cell. cell_of rows.now environment.now ≡ Some cell) }
{
    match cell_in(
        rows,
        &environment.action,
        &environment.principal,
        &environment.resource,
    ) {
        Some(cell) => cell.share(),
        None => unreachable!(),
    }
}

/// The cell of each of these environments, in their order.
pub(crate) fn by_environment(
    alloc: Global,
    rows: &BTreeMap<Uid, Row>,
    environments: &[Environment],
) -> Result<Vec<Cell>, AllocError>
    requires { HaveCells rows.now environments.now }
    ensures { IfOk result (λ cells. AreCellsOf rows.now environments.now cells.items) }
{
    let mut cells = Vec::with_capacity(alloc, environments.len())?;
    for environment in environments {
        let cell = shared_cell(rows, environment)?;
        cells.push(cell)?;
    }
    Ok(cells)
}
