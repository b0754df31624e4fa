//! The marks of the uids that a call of more changes names.
ghost use Rattle.std.specs.Prelude.{◌≡◌, IfOk, IsTrue, OnOk};
ghost use Rattle.cedar_value.specs.declared.uid.Uid.{Uid as Uids};
ghost use Rattle.cedar_store.specs.Private.Called.{AreMarkedToo};
ghost use Rattle.cedar_store.specs.Private.Kept.{in_row};

use crate::base::Base;
use crate::entity_table::EntityTable;
use base_search::Row;
use cedar_value::Uid;
use std::alloc::{AllocError, Global};

/// A copy of the marks, with those of the uids that the call names. Takes the memory of a row.
pub(crate) fn marked_too(
    alloc: Global,
    base: &Base,
    old: &Row,
    removed: &[Uid],
    upserted: &EntityTable,
) -> Result<Row, AllocError>
    ensures { IfOk result (λ new. AreMarkedToo base.now removed.now upserted.now old.now new) }
{
    let mut marks = copied(alloc, base, old)?;
    for uid in removed {
        base.mark(&mut marks, uid)?;
    }
    for entity in upserted.entities() {
        base.mark(&mut marks, &entity.uid)?;
    }
    Ok(marks)
}

/// A copy of the marks.
pub(crate) fn copied(alloc: Global, base: &Base, old: &Row) -> Result<Row, AllocError>
    ensures { IfOk result (λ new. (u : Uids) → in_row base.now.keys new u ≡ in_row base.now.keys old.now u) }
{
    let _base = base;
    let mut marks = Row::new(alloc);
    marks.join(old)?;
    Ok(marks)
}
