//! The uid of a text in the plain form, `Path::"letters"`, read without its tokens.
ghost use Rattle.std.specs.Prelude.{◌≡◌, ◌++◌, ◌∷◌, [], IfOk, IfSome, codes};
ghost use Rattle.std.specs.List.{list_all};
ghost use Rattle.cedar_value.specs.Names.{IsName};
ghost use Rattle.cedar_parser_tokens.specs.UidText.{IsUidText};
ghost use Rattle.cedar_parser_tokens.specs.Private.PlainUid.{IsPlainText, is_plain_byte};

use cedar_value::{Name, Text, Uid};
use std::alloc::{AllocError, Global};

/// The uid of a text in the plain form, for example `Photos::User::"ann"`: a path without white space, `::`, and a string with
/// neither a quote nor a backslash between its quotes. None for another text; that text may still write a uid.
pub(crate) fn plain_uid(alloc: Global, source: &str) -> Result<Option<Uid>, AllocError>
    ensures { IfOk result (λ found. IfSome found (IsUidText source.now)) }
{
    let Some((path, id)) = plain_parts(source) else {
        return Ok(None);
    };
    let Some(ty) = Name::read(alloc, path)? else {
        return Ok(None);
    };
    let id = Text::read(alloc, id)?;
    Ok(Some(Uid { ty, id }))
}

/// The type and the id of a uid in the plain form, lent by its text.
#[derive(Clone, Copy)]
pub struct PlainUid<'t> {
    /// The text of the type. It need not be a name.
    pub ty: &'t str,
    /// The id, which has neither a quote nor a backslash.
    pub id: &'t str,
}

/// The type and the id of a text in the plain form, for example `Photos::User::"ann"`. Where the type is a name, they are those of the
/// text's uid (Cedar language reference, entity identifiers). None for another text; that text may still write a uid, which
/// `read_uid` reads. Takes no memory.
#[tactic(auto, using(crate::proofs::PlainUids::plain_text_uid))]
pub fn plain_uid_texts(source: &str) -> Option<PlainUid<'_>>
    ensures { IfSome result (λ texts. IsName texts.ty.now → IsUidText source.now (record { ty = texts.ty.now; id = texts.id.now })) }
{
    let (ty, id) = plain_parts(source)?;
    Some(PlainUid { ty, id })
}

// The text before the `::` of the first quote, and the text after this quote up to the one that ends the source.
fn plain_parts(source: &str) -> Option<(&str, &str)>
    ensures { IfSome result (λ parts. IsPlainText source.now parts.0.now parts.1.now) }
{
    let (before, quoted) = around_quote(source)?;
    let path = before_colons(before)?;
    let id = before_quote(quoted)?;
    if !are_plain_bytes(id.as_bytes()) {
        return None;
    }
    Some((path, id))
}

// The text before the first quote, and the text after it.
fn around_quote(text: &str) -> Option<(&str, &str)>
    ensures { IfSome result (λ parts. text.now ≡ parts.0.now ++ 34 ∷ parts.1.now) }
{
    text.split_once('"')
}

// The text without the `::` that ends it.
fn before_colons(text: &str) -> Option<&str>
    ensures { IfSome result (λ path. text.now ≡ path.now ++ codes "::") }
{
    text.strip_suffix("::")
}

// The text without the quote that ends it.
fn before_quote(text: &str) -> Option<&str>
    ensures { IfSome result (λ id. text.now ≡ id.now ++ 34 ∷ []) }
{
    text.strip_suffix('"')
}

fn are_plain_bytes(bytes: &[u8]) -> bool
    ensures { result ≡ list_all is_plain_byte bytes.now }
{
    bytes.iter().all(|byte| is_plain_byte(*byte))
}

fn is_plain_byte(byte: u8) -> bool
    ensures { result ≡ is_plain_byte byte }
{
    byte != b'"' && byte != b'\\'
}
