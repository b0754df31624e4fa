//! The members of a JSON text that is an object, one after another.
ghost use Rattle.std.specs.Prelude.{◌≡◌, ◌<◌, length, true, Err, None, IfOk, IfSome, IsTrue, MatchOption, OnSome, option_and_then, option_map};
ghost use Rattle.std.specs.List.{list_all};
ghost use Rattle.std.specs.Bool.{MatchBool};
ghost use Rattle.serde_json.specs.Data.{no_members, object};
ghost use Rattle.serde_json.specs.Find.{as_object};
ghost use Rattle.serde_json.specs.Read.{read as tree_of_text};
ghost use Rattle.base_json.specs.Members.{BeginsWith, BeginsWithThree, IsEnd, IsNoObject, lent_view, members_to_come};
ghost use Rattle.base_json.specs.Quoted.{is_plain};
ghost use Rattle.base_json.specs.Private.Trees.{tree_of_tokens};
ghost use Rattle.base_json.specs.declared.tree_fault.TreeFault.TheVariants.{Invalid};

use crate::lent_value::{LentValue, read_lent};
use crate::object_member::object_member;
use crate::quoted_member::{after, is_end, quoted_member};
use crate::three_quoted::{ThreeQuoted, three_members};
use crate::tree_fault::TreeFault;
use json::{Reader, Scratch, Token};
use std::alloc::{AllocError, Global};
use std::marker::Model;
use std::mem::replace;

// How deep arrays and objects may nest in a member: the object itself is one of a text's 127 levels.
const MEMBER_DEPTH: usize = 126;

/// The members of a JSON text that is an object, one after another and without a tree of all (RFC 8259, section 4). Members in the
/// plain form that come first are read from their bytes, and those after them by tokens. Contracts see the tokens that are to come.
#[derive(Drop)]
pub struct MemberReader<'r> {
    stage: Stage<'r>,
}

// How the members to come are read.
#[derive(Drop)]
enum Stage<'r> {
    // From the text that is left. The buffers are for the tokens.
    Bytes(&'r str, &'r mut Scratch),
    // By tokens.
    Tokens(Reader<'r>),
    // Not at all, since memory ran out.
    OutOfMemory,
}

impl<'r> Model for MemberReader<'r> {
    ghost use Rattle.std.specs.Prelude.{List};
    ghost use Rattle.json.specs.Token.{Token, tokens_code};
    ghost use Rattle.base_json.specs.Private.Stages.{tokens_in};

    ghost Value = { List Token };

    ghost coded = { tokens_code };

    ghost view = { λ members. tokens_in members.stage };
}

impl<'r> MemberReader<'r> {
    /// The members of the text where it begins as an object does. The memory that it takes grows with the length of the text.
    pub(crate) fn open(
        text: &'r str,
        scratch: &'r mut Scratch,
    ) -> Result<Option<MemberReader<'r>>, AllocError>
        ensures { IfOk result (λ found. MatchOption found (option_and_then as_object (tree_of_text text.now) ≡ None)
            (λ members. tree_of_text text.now ≡ option_map object (members_to_come no_members members))) }
    {
        if let Some(rest) = after(text, b'{') {
            return Ok(Some(MemberReader {
                stage: Stage::Bytes(rest, scratch),
            }));
        }
        let mut reader = Reader::new(text, scratch)?;
        if opens_object(&mut reader) {
            Ok(Some(MemberReader {
                stage: Stage::Tokens(reader),
            }))
        } else {
            Ok(None)
        }
    }

    /// The key and the value of the next member, or None where the object ended and the text with it. A key may come again: then
    /// its last value counts (RFC 8259, section 4; as `serde_json` reads it).
    ///
    /// # Errors
    ///
    /// `Invalid` where the rest of the text is not the members of an object up to its end: at the member where that shows. Fails
    /// otherwise only when out of memory.
    #[inline(always)]
    pub fn next(&mut self, alloc: Global) -> Result<Option<(&'r str, LentValue<'r>)>, TreeFault>
        ensures members { IfOk result (λ found. MatchOption found (IsEnd self.old) (λ m. BeginsWith m.0.now (lent_view m.1) self.old self.new)) }
        ensures refused { result ≡ Err Invalid → IsNoObject self.old }
        ensures shorter { IfOk result (λ found. OnSome found (length self.new < length self.old)) }
    {
        if let Stage::Bytes(text, _) = &mut self.stage {
            if let Some(member) = quoted_member(text) {
                *text = member.rest;
                return Ok(Some((member.key, LentValue::Quoted(member.value))));
            }
            if is_end(text) {
                return Ok(None);
            }
            if let Some(found) = object_member(alloc, text)? {
                *text = found.rest;
                return Ok(Some((found.key, LentValue::Object(found.value))));
            }
        }
        self.next_by_tokens(alloc)
    }

    /// Reads three members with these keys, where they come next in this order, and the value of each is a string with a part in quotation
    /// marks at its end, all in the plain form. None where other members come next, or these in another form: then none is read. Takes
    /// no memory.
    #[inline(always)]
    pub fn next_three(&mut self, first: &str, second: &str, third: &str) -> Option<ThreeQuoted<'r>>
        requires first { list_all is_plain first.now ≡ true }
        requires second { list_all is_plain second.now ≡ true }
        requires third { list_all is_plain third.now ≡ true }
        ensures members { IfSome result (λ found. BeginsWithThree first.now found.first second.now found.second third.now found.third self.old self.new) }
        ensures none { result ≡ None → self.new ≡ self.old }
    {
        if let Stage::Bytes(text, _) = &mut self.stage
            && let Some((values, rest)) = three_members(text, first, second, third)
        {
            *text = rest;
            return Some(values);
        }
        None
    }

    /// Whether the object ends here, and the text with it. Where this is false, [`MemberReader::next`] may still find its end. Takes no
    /// memory.
    #[inline(always)]
    pub fn is_at_end(&self) -> bool
        ensures { IsTrue result → IsEnd self.now }
    {
        match &self.stage {
            Stage::Bytes(text, _) => is_end(text),
            Stage::Tokens(_) | Stage::OutOfMemory => false,
        }
    }

    // The next member from its tokens, and from then on all.
    fn next_by_tokens(
        &mut self,
        alloc: Global,
    ) -> Result<Option<(&'r str, LentValue<'r>)>, TreeFault>
        ensures members { IfOk result (λ found. MatchOption found (IsEnd self.old) (λ m. BeginsWith m.0.now (lent_view m.1) self.old self.new)) }
        ensures refused { result ≡ Err Invalid → IsNoObject self.old }
        ensures shorter { IfOk result (λ found. OnSome found (length self.new < length self.old)) }
    {
        let mut reader = match replace(&mut self.stage, Stage::OutOfMemory) {
            Stage::Bytes(text, scratch) => Reader::new(text, scratch)?,
            Stage::Tokens(reader) => reader,
            Stage::OutOfMemory => return Err(TreeFault::OutOfMemory),
        };
        let next = next_member(alloc, &mut reader);
        self.stage = Stage::Tokens(reader);
        next
    }
}

// Whether the text begins as an object does. If so, its brace is passed.
fn opens_object(reader: &mut Reader<'_>) -> bool
    ensures { MatchBool result (tree_of_tokens reader.old ≡ option_map object (members_to_come no_members reader.new))
        (option_and_then as_object (tree_of_tokens reader.old) ≡ None) }
{
    let Some(token) = reader.next() else {
        return false;
    };
    match token {
        Token::BeginObject => true,
        _ => false,
    }
}

#[inline(always)]
fn next_member<'r>(
    alloc: Global,
    reader: &mut Reader<'r>,
) -> Result<Option<(&'r str, LentValue<'r>)>, TreeFault>
    ensures members { IfOk result (λ found. MatchOption found (IsEnd reader.old) (λ m. BeginsWith m.0.now (lent_view m.1) reader.old reader.new)) }
    ensures refused { result ≡ Err Invalid → IsNoObject reader.old }
    ensures shorter { IfOk result (λ found. OnSome found (length reader.new < length reader.old)) }
{
    let Some(key) = reader.next_key()? else {
        if reader.next().is_some() {
            return Err(TreeFault::Invalid);
        }
        return Ok(None);
    };
    match read_lent(alloc, reader, MEMBER_DEPTH) {
        Ok(member) => Ok(Some((key, member))),
        Err(fault) => Err(fault),
    }
}
