//! Uids of requests, whose types share the names that a reader keeps.
ghost use Rattle.std.specs.Prelude.{◌≡◌, ◌↔◌, ◌++◌, true, IfOk, IfSome, IsSome, MatchOption, codes};
ghost use Rattle.std.specs.List.{list_all};
ghost use Rattle.base_json.specs.LentObjects.{object_view};
ghost use Rattle.base_json.specs.Members.{lent_view};
ghost use Rattle.base_json.specs.Quoted.{is_plain, with_quoted};
ghost use Rattle.cedar_value.specs.Names.{IsName};
ghost use Rattle.cedar_value.specs.declared.uid.Uid.{Uid as UidTree};
ghost use Rattle.cedar_parser_tokens.specs.UidText.{IsUidText};
ghost use Rattle.cedar_conform_values.specs.WrittenUids.{IsUidObject, WritesUid};

use crate::uid_room::UidRoom;
use base_json::{LentObject, LentValue, QuotedText};
use cedar_conform_values::{Names, uid_of_lent, uid_of_object, uid_of_text, written_uid};
use cedar_parser_tokens::plain_uid_texts;
use cedar_value::Uid;
use std::alloc::{AllocError, Global};

/// The uid that a value writes: a string such as `User::"ann"`, or an object of `type` and `id` (Cedar documentation, entities and
/// context in JSON). None for a value that writes none.
pub(crate) fn lent_uid(
    alloc: Global,
    names: &mut Names,
    room: &mut UidRoom,
    value: LentValue<'_>,
) -> Result<Option<Uid>, AllocError>
    ensures { IfOk result (λ found. MatchOption found ((u : UidTree) → ¬ WritesUid (lent_view value.entry) u) (WritesUid (lent_view value.entry))) }
{
    match value {
        LentValue::String(text) => text_uid(alloc, names, room, text),
        LentValue::Quoted(text) => quoted_uid(alloc, names, room, &text),
        LentValue::Object(found) => object_uid(alloc, names, room, found),
        LentValue::Tree(json) => written_uid(alloc, &json),
    }
}

// The uid that an object writes, if it writes one.
fn object_uid(
    alloc: Global,
    names: &mut Names,
    room: &mut UidRoom,
    found: LentObject<'_>,
) -> Result<Option<Uid>, AllocError>
    ensures { IfOk result (λ uid. MatchOption uid
        ((u : UidTree) → ¬ IsUidObject (object_view found.entry) u) (IsUidObject (object_view found.entry))) }
{
    match uid_of_lent(&found) {
        Some(uid) => named_uid(alloc, names, room, uid.ty, uid.id),
        None => uid_of_tree(alloc, found),
    }
}

// The uid that an object in another form writes, for example one that is alone at `__entity`.
#[inline(never)]
fn uid_of_tree(alloc: Global, found: LentObject<'_>) -> Result<Option<Uid>, AllocError>
    ensures { IfOk result (λ uid. MatchOption uid
        ((u : UidTree) → ¬ IsUidObject (object_view found.entry) u) (IsUidObject (object_view found.entry))) }
{
    let tree = found.into_tree(alloc)?;
    uid_of_object(alloc, &tree)
}

/// The uid that a string with a part in quotation marks denotes, if it denotes one.
pub(crate) fn quoted_uid(
    alloc: Global,
    names: &mut Names,
    room: &mut UidRoom,
    text: &QuotedText<'_>,
) -> Result<Option<Uid>, AllocError>
    ensures { IfOk result (λ found. MatchOption found ((u : UidTree) → ¬ IsUidText text.now u) (IsUidText text.now)) }
{
    let (before, quoted) = text.parts();
    match parts_uid(alloc, names, room, before, quoted)? {
        Some(uid) => Ok(Some(uid)),
        None => joined_uid(alloc, before, quoted),
    }
}

// The uid of a string in two parts, of which the first is a name and `::`. None for other parts, whose string may still denote a uid.
fn parts_uid(
    alloc: Global,
    names: &mut Names,
    room: &mut UidRoom,
    before: &str,
    id: &str,
) -> Result<Option<Uid>, AllocError>
    requires { list_all is_plain id.now ≡ true }
    ensures { IfOk result (λ found. IfSome found (IsUidText (with_quoted before.now id.now))) }
{
    match before_colons(before) {
        Some(path) => named_uid(alloc, names, room, path, id),
        None => Ok(None),
    }
}

/// The uid of a type with this name and an entity with this id. None where the text of the type is not a name.
pub(crate) fn named_uid(
    alloc: Global,
    names: &mut Names,
    room: &mut UidRoom,
    ty: &str,
    id: &str,
) -> Result<Option<Uid>, AllocError>
    ensures given { IfOk result (λ found. IsSome found ↔ IsName ty.now) }
    ensures value { IfOk result (λ found. IfSome found (λ u. u ≡ record { ty = ty.now; id = id.now })) }
{
    let Some(ty) = names.read(alloc, ty, &mut room.place)? else {
        return Ok(None);
    };
    let id = room.text(alloc, id)?;
    Ok(Some(Uid { ty, id }))
}

// The text without the `::` that ends it.
fn before_colons(text: &str) -> Option<&str>
    ensures { IfSome result (λ path. text.now ≡ path.now ++ codes "::") }
{
    text.strip_suffix("::")
}

// The uid that a string in two parts denotes as a whole, if it denotes one.
fn joined_uid(alloc: Global, before: &str, quoted: &str) -> Result<Option<Uid>, AllocError>
    ensures { IfOk result (λ found. MatchOption found
        ((u : UidTree) → ¬ IsUidText (with_quoted before.now quoted.now) u) (IsUidText (with_quoted before.now quoted.now))) }
{
    let mut joined = String::from_str(alloc, before)?;
    joined.push('"')?;
    joined.push_str(quoted)?;
    joined.push('"')?;
    uid_of_text(alloc, joined.as_str())
}

// The uid that a string denotes, if it denotes one.
fn text_uid(
    alloc: Global,
    names: &mut Names,
    room: &mut UidRoom,
    text: &str,
) -> Result<Option<Uid>, AllocError>
    ensures { IfOk result (λ found. MatchOption found ((u : UidTree) → ¬ IsUidText text.now u) (IsUidText text.now)) }
{
    match plain_uid(alloc, names, room, text)? {
        Some(uid) => Ok(Some(uid)),
        None => uid_of_text(alloc, text),
    }
}

// The uid of a text in the plain form. None for another text, which may still denote a uid.
fn plain_uid(
    alloc: Global,
    names: &mut Names,
    room: &mut UidRoom,
    text: &str,
) -> Result<Option<Uid>, AllocError>
    ensures { IfOk result (λ found. IfSome found (IsUidText text.now)) }
{
    match plain_uid_texts(text) {
        Some(texts) => named_uid(alloc, names, room, texts.ty, texts.id),
        None => Ok(None),
    }
}
