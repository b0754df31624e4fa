//! Uids that are noted as parents, and which of them have to be in the part of the world that is kept apart.
ghost use Rattle.std.specs.Prelude.{◌≡◌, ◌⊎◌, ◌||◌, Contains, IfOk, OnOk, is_some};
ghost use Rattle.base_reach.specs.Private.Lent.{lent};
ghost use Rattle.cedar_value.specs.Datum.{same_uid};
ghost use Rattle.cedar_value.specs.declared.uid.Uid.{Uid as Uids};
ghost use Rattle.cedar_store.specs.Private.Changing.{change_of};
ghost use Rattle.cedar_store.specs.Private.Overlaid.{IsBare, IsNoted};
ghost use Rattle.cedar_store.specs.Private.Parts.{IsSifted};

use crate::change::Change;
use crate::change_map::ChangeMap;
use crate::changed_links::ChangedLinks;
use base_reach::Links;
use cedar_value::Uid;
use std::alloc::{AllocError, Global};

/// These notes and each of the uids that were found. Appends those of them that have parents, or had some before the changes: nothing is
/// above the others.
///
/// # Errors
///
/// Fails only when out of memory.
pub(crate) fn sifted<'s>(
    alloc: Global,
    links: &ChangedLinks<'_>,
    begun: ChangeMap,
    found: &[&'s Uid],
    due: &mut Vec<&'s Uid>,
) -> Result<ChangeMap, AllocError>
    ensures sifted { IfOk result (λ new. (p : Uids) → Contains (lent found.now) p → IsSifted links.now.base.now links.now.changes.now (lent due.new.items) new p) }
    ensures kept { IfOk result (λ new. (p : Uids) → IsNoted begun p → IsNoted new p) }
    ensures told { IfOk result (λ new. (p : Uids) → IsNoted new p → IsNoted begun p ⊎ Contains (lent found.now) p) }
{
    let mut noted = begun;
    for uid in found {
        noted = with_note(alloc, noted, *uid)?;
        push_unless_bare(links, *uid, due)?;
    }
    Ok(noted)
}

// The notes with that of the uid.
fn with_note(alloc: Global, noted: ChangeMap, uid: &Uid) -> Result<ChangeMap, AllocError>
    ensures { IfOk result (λ new. (p : Uids) → is_some (change_of new p) ≡ (same_uid uid.now p || is_some (change_of noted p))) }
{
    if noted.get(uid).is_some() {
        return Ok(noted);
    }
    let change = Change {
        uid: uid.try_clone(alloc)?,
        entity: None,
    };
    let more = noted.with(alloc, change)?;
    Ok(more.with_one_idle())
}

// Appends the uid, unless it has no parents and had none before the changes.
fn push_unless_bare<'s>(
    links: &ChangedLinks<'_>,
    uid: &'s Uid,
    due: &mut Vec<&'s Uid>,
) -> Result<(), AllocError>
    ensures kept { OnOk result ((p : Uids) → Contains (lent due.old.items) p → Contains (lent due.new.items) p) }
    ensures due { OnOk result (Contains (lent due.new.items) uid.now ⊎ IsBare links.now.base.now links.now.changes.now uid.now) }
{
    if !links.links(uid).is_empty() || !links.base.parents(uid).is_empty() {
        due.push(uid)?;
    }
    Ok(())
}
