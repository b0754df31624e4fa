//! JSON objects whose keys and strings are lent.
ghost use Rattle.std.specs.Prelude.{◌≡◌, ◌<◌, length, None, Some, Err, IfOk, OnOk, option_map};
ghost use Rattle.json.specs.Json.{members, value};
ghost use Rattle.serde_json.specs.Data.{no_members};
ghost use Rattle.serde_json.specs.Find.{get, get_member};
ghost use Rattle.serde_json.specs.Read.{of_json, of_members, converted};
ghost use Rattle.serde_json.specs.View.{view};
ghost use Rattle.base_json.specs.LentObjects.{object_view, part_view, put_all};
ghost use Rattle.base_json.specs.declared.tree_fault.TreeFault.TheVariants.{Invalid};

use crate::tree::tree_after;
use crate::tree_fault::TreeFault;
use json::{Reader, Token};
use serde_json::{Map, Value};
use std::alloc::{AllocError, Global};

/// A JSON object as it is written: its members in their order (RFC 8259, section 4). A key may come again: then its last value counts,
/// as `serde_json` reads it.
#[derive(Drop)]
pub struct LentObject<'t> {
    /// The members.
    pub members: Vec<LentMember<'t>>,
}

/// A member of an object. Its key is lent by what was read.
#[derive(Drop)]
pub struct LentMember<'t> {
    /// The key, without quotation marks and escapes.
    pub key: &'t str,
    /// The value.
    pub value: LentPart<'t>,
}

/// The value of a member. A string is lent by what was read, and takes no memory.
#[derive(Drop)]
pub enum LentPart<'t> {
    /// A string, without quotation marks and escapes.
    Text(&'t str),
    /// Any other value.
    Other(Value),
}

impl<'t> LentObject<'t> {
    /// The value at a key. Takes no memory, and as many comparisons as there are members.
    #[inline(always)]
    pub fn part(&self, key: &str) -> Option<&LentPart<'t>>
        ensures { option_map (λ p. part_view p.now) result ≡ get key.now (object_view self.now) }
    {
        last_at(&self.members, key)
    }

    /// The tree of the object. The trees of its members are moved into it.
    ///
    /// # Errors
    ///
    /// Fails only when out of memory.
    #[inline(never)]
    pub fn into_tree(self, alloc: Global) -> Result<Value, AllocError>
        ensures { IfOk result (λ tree. view tree ≡ object_view self.entry) }
    {
        let mut found = Map::new(alloc);
        for member in self.members {
            let value = member.value.into_tree(alloc)?;
            let key = String::from_str(alloc, member.key)?;
            drop(found.insert(key, value)?);
        }
        Ok(Value::Object(found))
    }
}

// The value of the last member with the key.
#[inline(always)]
fn last_at<'p, 't>(members: &'p [LentMember<'t>], key: &str) -> Option<&'p LentPart<'t>>
    ensures { option_map (λ p. part_view p.now) result ≡ get_member key.now (put_all members.now no_members) }
{
    let mut left = members.len();
    'walk: while left > 0 {
        left -= 1;
        let member = &members[left];
        if member.key == key {
            return Some(&member.value);
        }
    }
    None
}

impl<'t> LentPart<'t> {
    /// The tree of the value.
    ///
    /// # Errors
    ///
    /// Fails only when out of memory.
    pub fn into_tree(self, alloc: Global) -> Result<Value, AllocError>
        ensures { IfOk result (λ tree. view tree ≡ part_view self.entry) }
    {
        match self {
            LentPart::Text(text) => Ok(Value::String(String::from_str(alloc, text)?)),
            LentPart::Other(tree) => Ok(tree),
        }
    }
}

/// The object whose brace was passed, up to the brace that closes it. The arrays and objects in its members may nest `depth` deep.
// It is not inlined, so that its room is not cleared where no object comes.
#[inline(never)]
pub(crate) fn read_object<'t>(
    alloc: Global,
    reader: &mut Reader<'t>,
    depth: usize,
) -> Result<LentObject<'t>, TreeFault>
    ensures ok { IfOk result (λ found. converted (λ ms. of_members ms no_members) (members (value depth) (length reader.old) reader.old)
        ≡ Some (put_all found.members.items no_members, reader.new)) }
    ensures shorter { OnOk result (length reader.new < length reader.old) }
    ensures err { result ≡ Err Invalid
        → converted (λ ms. of_members ms no_members) (members (value depth) (length reader.old) reader.old) ≡ None }
{
    let mut found = Vec::new(alloc);
    'members: while let Some(key) = reader.next_key()? {
        let value = read_part(alloc, reader, depth)?;
        found.push(LentMember { key, value })?;
    }
    Ok(LentObject { members: found })
}

// The value of the next member.
#[inline(always)]
fn read_part<'t>(
    alloc: Global,
    reader: &mut Reader<'t>,
    depth: usize,
) -> Result<LentPart<'t>, TreeFault>
    ensures ok { IfOk result (λ v. converted of_json (value depth reader.old) ≡ Some (part_view v, reader.new)) }
    ensures shorter { OnOk result (length reader.new < length reader.old) }
    ensures err { result ≡ Err Invalid → converted of_json (value depth reader.old) ≡ None }
{
    let Some(token) = reader.next() else {
        return Err(TreeFault::Invalid);
    };
    match token {
        Token::String(text) => Ok(LentPart::Text(text)),
        other => match tree_after(alloc, reader, other, depth) {
            Ok(tree) => Ok(LentPart::Other(tree)),
            Err(fault) => Err(fault),
        },
    }
}
