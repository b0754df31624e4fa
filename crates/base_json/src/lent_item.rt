//! JSON objects in a list, whose keys, strings and objects are lent.
ghost use Rattle.std.specs.Prelude.{◌≡◌, ◌<◌, length, None, Some, Err, IfOk, OnOk, option_map};
ghost use Rattle.json.specs.Json.{members, value};
ghost use Rattle.serde_json.specs.Data.{no_members};
ghost use Rattle.serde_json.specs.Find.{get, get_member};
ghost use Rattle.serde_json.specs.Read.{of_members, converted};
ghost use Rattle.base_json.specs.LentItems.{item_view, put_values, value_view};
ghost use Rattle.base_json.specs.declared.tree_fault.TreeFault.TheVariants.{Invalid};

use crate::item_value::ItemValue;
use crate::lent_value::read_lent;
use crate::tree_fault::TreeFault;
use json::Reader;
use std::alloc::Global;

/// An object that is an item of a list, as it is written: its members in their order (RFC 8259, sections 4 and 5). A key may come again:
/// then its last value counts, as `serde_json` reads it.
#[derive(Drop)]
pub struct LentItem<'t> {
    /// The members.
    pub members: Vec<ItemMember<'t>>,
}

/// A member of an item. Its key is lent by what was read.
#[derive(Drop)]
pub struct ItemMember<'t> {
    /// The key, without quotation marks and escapes.
    pub key: &'t str,
    /// The value.
    pub value: ItemValue<'t>,
}

impl<'t> LentItem<'t> {
    /// The value at a key. Takes no memory, and as many comparisons as there are members.
    #[inline(always)]
    pub fn value(&self, key: &str) -> Option<&ItemValue<'t>>
        ensures { option_map (λ v. value_view v.now) result ≡ get key.now (item_view self.now) }
    {
        last_at(&self.members, key)
    }
}

// The value of the last member with the key.
#[inline(always)]
fn last_at<'p, 't>(members: &'p [ItemMember<'t>], key: &str) -> Option<&'p ItemValue<'t>>
    ensures { option_map (λ v. value_view v.now) result ≡ get_member key.now (put_values members.now no_members) }
{
    let mut left = members.len();
    'walk: while left > 0 {
        left -= 1;
        let member = &members[left];
        if member.key == key {
            return Some(&member.value);
        }
    }
    None
}

/// The object whose brace was passed, up to the brace that closes it. The arrays and objects in its members may nest `depth` deep.
pub(crate) fn read_item_members<'t>(
    alloc: Global,
    reader: &mut Reader<'t>,
    depth: usize,
) -> Result<LentItem<'t>, TreeFault>
    ensures ok { IfOk result (λ found. converted (λ ms. of_members ms no_members) (members (value depth) (length reader.old) reader.old)
        ≡ Some (put_values found.members.items no_members, reader.new)) }
    ensures shorter { OnOk result (length reader.new < length reader.old) }
    ensures err { result ≡ Err Invalid
        → converted (λ ms. of_members ms no_members) (members (value depth) (length reader.old) reader.old) ≡ None }
{
    let mut found = Vec::new(alloc);
    'members: while let Some(key) = reader.next_key()? {
        let lent = read_lent(alloc, reader, depth)?;
        let value = ItemValue::of_lent(lent);
        found.push(ItemMember { key, value })?;
    }
    Ok(LentItem { members: found })
}
