//! Uids in objects whose keys and strings are lent.
ghost use Rattle.std.specs.Prelude.{◌≡◌, Some, IfSome};
ghost use Rattle.serde_json.specs.Data.{string};
ghost use Rattle.base_json.specs.LentObjects.{object_view, part_view};
ghost use Rattle.cedar_conform_values.specs.Uids.{uid_object};

use base_json::{LentObject, LentPart};

/// The type and the id of a uid, lent by what was read. Whether the type is a name is not tested.
#[derive(Clone, Copy, Drop)]
pub struct LentUid<'t> {
    /// The type.
    pub ty: &'t str,
    /// The id.
    pub id: &'t str,
}

/// The uid of an object of exactly `type` and `id`, each of which is there once, in either order (Cedar documentation, entities and
/// context in JSON). None for another object, which may still write a uid. Takes no memory.
#[inline(always)]
pub fn uid_of_lent<'t>(object: &LentObject<'t>) -> Option<LentUid<'t>>
    ensures { IfSome result (λ u. uid_object (object_view object.now) ≡ Some (record { ty = u.ty.now; id = u.id.now })) }
{
    let (first, rest) = object.members.split_first()?;
    let (second, others) = rest.split_first()?;
    if !others.is_empty() {
        return None;
    }
    let one = text_of(&first.value)?;
    let other = text_of(&second.value)?;
    if first.key == "type" && second.key == "id" {
        Some(LentUid { ty: one, id: other })
    } else if first.key == "id" && second.key == "type" {
        Some(LentUid { ty: other, id: one })
    } else {
        None
    }
}

// The string that a value is.
#[inline(always)]
fn text_of<'t>(part: &LentPart<'t>) -> Option<&'t str>
    ensures { IfSome result (λ s. part_view part.now ≡ string s.now) }
{
    match part {
        LentPart::Text(text) => Some(text),
        LentPart::Other(_) => None,
    }
}
