//! The parts of a request as texts.
ghost use Rattle.std.specs.Prelude.{◌≡◌};
ghost use Rattle.std.specs.Option.{MatchOption};
ghost use Rattle.std.specs.Str.{IsUtf8};
ghost use Rattle.cedar_conform.specs.Parts.{parts_of, uid_of};
ghost use Rattle.cedar_c.specs.Deciding.{AreTexts};
ghost use Rattle.cedar_c.specs.Pieces.{parts_in};

use cedar_conform::{RequestParts, UidParts};

/// The bytes of a type and of an id.
#[derive(Clone, Copy)]
pub struct UidBytes<'p> {
    pub(crate) ty: &'p [u8],
    pub(crate) id: &'p [u8],
}

/// The bytes of the parts of a request.
#[derive(Clone, Copy)]
pub struct RequestBytes<'p> {
    pub(crate) principal: UidBytes<'p>,
    pub(crate) action: UidBytes<'p>,
    pub(crate) resource: UidBytes<'p>,
    pub(crate) context: &'p [u8],
}

fn uid_parts<'p>(uid: &UidBytes<'p>) -> Option<UidParts<'p>>
    ensures { MatchOption result (IsUtf8 uid.now.ty.now → IsUtf8 uid.now.id.now → ⊥)
        (λ u. (u.ty.now ≡ uid.now.ty.now) × (u.id.now ≡ uid.now.id.now)) }
{
    let Ok(ty) = str::from_utf8(uid.ty) else {
        return None;
    };
    let Ok(id) = str::from_utf8(uid.id) else {
        return None;
    };
    Some(UidParts { ty, id })
}

/// The parts of a request, where the types and the ids are UTF-8.
pub(crate) fn request_parts<'p>(bytes: &RequestBytes<'p>) -> Option<RequestParts<'p>>
    ensures { MatchOption result (¬ AreTexts (parts_in bytes.now)) (λ found. parts_of found ≡ parts_in bytes.now) }
{
    let Some(principal) = uid_parts(&bytes.principal) else {
        return None;
    };
    let Some(action) = uid_parts(&bytes.action) else {
        return None;
    };
    let Some(resource) = uid_parts(&bytes.resource) else {
        return None;
    };
    Some(RequestParts {
        principal,
        action,
        resource,
        context: bytes.context,
    })
}
